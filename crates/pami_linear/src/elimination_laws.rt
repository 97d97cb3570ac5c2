//! The elimination of a square matrix: its pivot rule, where it comes to its end, and the solves by its steps.

ghost use Rattle.std.specs.Prelude.{◌≡◌, ◌<◌, ◌≤◌, ◌↔◌, ℕ, suc, pos, Bool, true, List, Option, Some, None, Ok, Err};
ghost use lib.Dec.{T};
ghost use Rattle.pami_algebra.specs.Fraction.{Fraction};
ghost use Rattle.pami_algebra.specs.Operations.{◌+ᶠ◌, ◌-ᶠ◌, of_int};
ghost use Rattle.pami_linear.specs.Systems.{Solves, Combines, IsRegular, by_rows};
ghost use Rattle.pami_linear.specs.Active.{part, minus_to, but, count, first_from};
ghost use Rattle.pami_linear.specs.Pivoting.{Pivot, allowed_in, cost_in, IsFound, IsInside, pivot};
ghost use Rattle.pami_linear.specs.Elimination.{EliminationStep, eliminate, forward, backward};
ghost use Rattle.pami_linear.specs.Chains.{IsPivot, Completes, Eliminates, Leaves, Permutes, pivot_rows, pivot_places};

/// Flags: one active number can be taken out of a sum or a count, differences one after the other are the difference
/// with the sum, and the least active number is found.
pub fn flags_say_what_is_active()
    ensures sum { (m p : ℕ) (a : ℕ → Bool) (f : ℕ → Fraction) → p < m → T (a p) → part m a f ≡ f p +ᶠ part m (but p a) f }
    ensures count { (m p : ℕ) (a : ℕ → Bool) → p < m → T (a p) → count m a ≡ suc (count m (but p a)) }
    ensures differences { (m : ℕ) (a : ℕ → Bool) (f : ℕ → Fraction) (t : Fraction) → minus_to m a f t ≡ t -ᶠ part m a f }
    ensures least_is_active { (m g : ℕ) (a : ℕ → Bool) → g < m → T (a g) → T (a (first_from m 0 a)) }
    ensures least { (m g : ℕ) (a : ℕ → Bool) → g < m → T (a g) → first_from m 0 a ≤ g }
{}

/// The pivot is the first of the allowed pairs, by cost, place and row, and no pair only where none is allowed; the
/// rule leaves no choice, and it depends on the active entries alone.
pub fn the_pivot_is_the_first_allowed()
    ensures found { (m : ℕ) (r c : ℕ → Bool) (w : ℕ → ℕ → Fraction) → IsFound (allowed_in r c w) (cost_in m r c w) (IsInside m) (pivot m r c w) }
    ensures one { (m : ℕ) (allowed : ℕ → ℕ → Bool) (cost : ℕ → ℕ → ℕ) (p q : Option Pivot)
        → IsFound allowed cost (IsInside m) p → IsFound allowed cost (IsInside m) q → p ≡ q }
    ensures some { (m : ℕ) (r c : ℕ → Bool) (w : ℕ → ℕ → Fraction) (q : Pivot) → pivot m r c w ≡ Some q → IsPivot m r c w q.row q.place }
    ensures none { (m : ℕ) (r c : ℕ → Bool) (w : ℕ → ℕ → Fraction) → pivot m r c w ≡ None
        → (i p : ℕ) → i < m → p < m → T (r i) → T (c p) → w i p ≡ of_int (pos 0) }
    ensures same { (m : ℕ) (r c r' c' : ℕ → Bool) (w w' : ℕ → ℕ → Fraction)
        → ((h : ℕ) → h < m → r' h ≡ r h) → ((g : ℕ) → g < m → c' g ≡ c g)
        → ((h g : ℕ) → h < m → g < m → T (r h) → T (c g) → w' h g ≡ w h g) → pivot m r' c' w' ≡ pivot m r c w }
{}

/// The elimination completes exactly where the matrix is regular. Elsewhere it tells the least place that is left
/// when each active entry is 0.
pub fn an_elimination_completes_where_the_matrix_is_regular()
    ensures completes { (m : ℕ) (b : ℕ → ℕ → Fraction) → Completes m b ↔ IsRegular m b }
    ensures singular { (m : ℕ) (b : ℕ → ℕ → Fraction) → ((p : ℕ) × (eliminate m (by_rows b) ≡ Err p)) ↔ (¬ (IsRegular m b)) }
    ensures place_left { (m p : ℕ) (w : ℕ → ℕ → Fraction) → eliminate m w ≡ Err p → Leaves m (λ h. true) (λ g. true) w p }
    ensures steps { (m : ℕ) (b : ℕ → ℕ → Fraction) (ss : List EliminationStep) → eliminate m (by_rows b) ≡ Ok ss → Eliminates m b ss }
{}

/// By whatever pivot rule: a matrix that is eliminated is regular, and each row and each place has one pivot.
pub fn eliminated_matrices_are_regular()
    ensures regular { (m : ℕ) (b : ℕ → ℕ → Fraction) (ss : List EliminationStep) → Eliminates m b ss → IsRegular m b }
    ensures rows { (m : ℕ) (b : ℕ → ℕ → Fraction) (ss : List EliminationStep) → Eliminates m b ss → Permutes m (pivot_rows ss) }
    ensures places { (m : ℕ) (b : ℕ → ℕ → Fraction) (ss : List EliminationStep) → Eliminates m b ss → Permutes m (pivot_places ss) }
{}

/// The steps solve both systems, and each solution is the one that they give.
pub fn steps_solve_both_systems()
    ensures forward { (m : ℕ) (b : ℕ → ℕ → Fraction) (ss : List EliminationStep) (r : ℕ → Fraction) → Eliminates m b ss → Solves m b (forward m ss r) r }
    ensures forward_only { (m : ℕ) (b : ℕ → ℕ → Fraction) (ss : List EliminationStep) (x r : ℕ → Fraction)
        → Eliminates m b ss → Solves m b x r → (k : ℕ) → k < m → forward m ss r k ≡ x k }
    ensures backward { (m : ℕ) (b : ℕ → ℕ → Fraction) (ss : List EliminationStep) (d : ℕ → Fraction) → Eliminates m b ss → Combines m b (backward m ss d) d }
    ensures backward_only { (m : ℕ) (b : ℕ → ℕ → Fraction) (ss : List EliminationStep) (y d : ℕ → Fraction)
        → Eliminates m b ss → Combines m b y d → (i : ℕ) → i < m → backward m ss d i ≡ y i }
{}
