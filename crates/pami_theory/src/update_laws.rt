//! What is solved behind a step, by what is solved before it: the updates of the dual simplex method (Koberstein 2005,
//! section 3.1). In each law s is solved before the step t and r behind it.

ghost use Rattle.std.specs.Prelude.{◌≡◌, ℕ, ◌<◌};
ghost use Rattle.std.specs.List.{Contains};
ghost use Rattle.pami_algebra.specs.Fraction.{Fraction};
ghost use Rattle.pami_algebra.specs.Operations.{◌+ᶠ◌, ◌*ᶠ◌, ◌-ᶠ◌, ◌/ᶠ◌, neg_f, ◌≤ᶠ◌};
ghost use Rattle.pami_linear.specs.Lists.{get};
ghost use Rattle.pami_linear.specs.Sums.{dot};
ghost use Rattle.pami_linear.specs.Systems.{Solves, stepped};
ghost use Rattle.pami_theory.specs.Form.{Form, variables, limits, zero_f};
ghost use Rattle.pami_theory.specs.declared.words.Stand.TheVariants.{Basic};
ghost use Rattle.pami_theory.specs.Basis.{Basis, head_at, stand_at, basis_column};
ghost use Rattle.pami_theory.specs.Fresh.{IsDualFeasible, Fresh, row_at, column_at, value_at_place, IsFresh};
ghost use Rattle.pami_theory.specs.declared.words.Violation.{Violation};
ghost use Rattle.pami_theory.specs.Violation.{passed_bound};
ghost use Rattle.pami_theory.specs.Ratio.{row_entry, toward, turned_entry};
ghost use Rattle.pami_theory.specs.Step.{Step, leaving_at, TakesStep, basis_after, flip_change, flips_change, theta};

/// A step from a dual feasible basis leads to one, and its length isn't below 0.
pub fn steps_keep_dual_feasibility()
    ensures feasible { (f : Form) (b : Basis) (s : Fresh) (p : ℕ) (v : Violation) (t : Step) → TakesStep f b s p v t
        → IsDualFeasible f b → IsDualFeasible f (basis_after b t) }
    ensures length { (f : Form) (b : Basis) (s : Fresh) (p : ℕ) (v : Violation) (t : Step) → TakesStep f b s p v t
        → IsDualFeasible f b → zero_f ≤ᶠ t.tau }
{}

/// Each reduced cost falls by the step length times the entry, turned to the side: that of the leaving variable to the
/// length, negated above its upper bound, and that of the entering one to 0.
pub fn reduced_costs_behind_a_step()
    ensures each { (f : Form) (b : Basis) (s : Fresh) (p : ℕ) (v : Violation) (t : Step) (r : Fresh) (u : ℕ) → TakesStep f b s p v t
        → IsFresh f (basis_after b t) r → u < variables f
        → get r.reduced u ≡ get s.reduced u -ᶠ t.tau *ᶠ turned_entry f (leaving_at s p v) u }
    ensures leaving { (f : Form) (b : Basis) (s : Fresh) (p : ℕ) (v : Violation) (t : Step) (r : Fresh) → TakesStep f b s p v t
        → IsFresh f (basis_after b t) r → get r.reduced (head_at b p) ≡ neg_f (toward v.side t.tau) }
    ensures entering { (f : Form) (b : Basis) (s : Fresh) (p : ℕ) (v : Violation) (t : Step) (r : Fresh) → TakesStep f b s p v t
        → IsFresh f (basis_after b t) r → get r.reduced t.entering ≡ zero_f }
{}

/// The row of another place loses the pivot's row, times the quotient of the two entries of the entering variable; the
/// pivot's row is divided by its entry. Solved columns change alike.
pub fn rows_behind_a_step()
    ensures other { (f : Form) (b : Basis) (s : Fresh) (p : ℕ) (v : Violation) (t : Step) (r : Fresh) (k i : ℕ) → TakesStep f b s p v t
        → IsFresh f (basis_after b t) r → k < f.rows → i < f.rows → ¬ (k ≡ t.place)
        → get (row_at r k) i ≡ get (row_at s k) i
        -ᶠ (row_entry f (row_at s k) t.entering /ᶠ row_entry f (row_at s t.place) t.entering) *ᶠ get (row_at s t.place) i }
    ensures pivot { (f : Form) (b : Basis) (s : Fresh) (p : ℕ) (v : Violation) (t : Step) (r : Fresh) (i : ℕ) → TakesStep f b s p v t
        → IsFresh f (basis_after b t) r → i < f.rows
        → get (row_at r t.place) i ≡ get (row_at s t.place) i /ᶠ row_entry f (row_at s t.place) t.entering }
    ensures column { (f : Form) (b : Basis) (s : Fresh) (p : ℕ) (v : Violation) (t : Step) (r : Fresh) (u k : ℕ) → TakesStep f b s p v t
        → IsFresh f (basis_after b t) r → u < variables f → k < f.rows
        → get (column_at r u) k
        ≡ stepped t.place (get (column_at s t.entering)) (get (column_at s u) t.place /ᶠ get (column_at s t.entering) t.place) (get (column_at s u)) k }
{}

/// The value of each variable that was basic falls by its row times what the flips change, and by the primal step
/// length times its entry of the entering column; the leaving variable meets the bound that it passed.
pub fn basic_values_behind_a_step()
    ensures by_rows { (f : Form) (b : Basis) (s : Fresh) (p : ℕ) (v : Violation) (t : Step) (r : Fresh) (k : ℕ) → TakesStep f b s p v t
        → IsFresh f (basis_after b t) r → k < f.rows
        → get r.values (head_at b k)
        ≡ (value_at_place b s k -ᶠ dot f.rows (get (row_at s k)) (flips_change f b t.flips)) -ᶠ theta f b s t *ᶠ row_entry f (row_at s k) t.entering }
    ensures by_columns { (f : Form) (b : Basis) (s : Fresh) (p : ℕ) (v : Violation) (t : Step) (r : Fresh) (z : ℕ → Fraction) (k : ℕ) → TakesStep f b s p v t
        → IsFresh f (basis_after b t) r → Solves f.rows (basis_column f b) z (flips_change f b t.flips) → k < f.rows
        → get r.values (head_at b k) ≡ (value_at_place b s k -ᶠ z k) -ᶠ theta f b s t *ᶠ get (column_at s t.entering) k }
    ensures leaving { (f : Form) (b : Basis) (s : Fresh) (p : ℕ) (v : Violation) (t : Step) (r : Fresh) → TakesStep f b s p v t
        → IsFresh f (basis_after b t) r → get r.values t.leaving ≡ passed_bound (limits f t.leaving) t.side }
{}

/// The entering variable's value grows by the primal step length, that of a flipped one changes by its width, and the
/// others stay.
pub fn nonbasic_values_behind_a_step()
    ensures entering { (f : Form) (b : Basis) (s : Fresh) (p : ℕ) (v : Violation) (t : Step) (r : Fresh) → TakesStep f b s p v t
        → IsFresh f (basis_after b t) r → get r.values t.entering ≡ get s.values t.entering +ᶠ theta f b s t }
    ensures flipped { (f : Form) (b : Basis) (s : Fresh) (p : ℕ) (v : Violation) (t : Step) (r : Fresh) (u : ℕ) → TakesStep f b s p v t
        → IsFresh f (basis_after b t) r → Contains t.flips u → get r.values u ≡ get s.values u +ᶠ flip_change f b u }
    ensures others { (f : Form) (b : Basis) (s : Fresh) (p : ℕ) (v : Violation) (t : Step) (r : Fresh) (u : ℕ) → TakesStep f b s p v t
        → IsFresh f (basis_after b t) r → u < variables f → ¬ (stand_at b u ≡ Basic) → ¬ (u ≡ t.entering) → ¬ Contains t.flips u
        → get r.values u ≡ get s.values u }
{}

/// By the places of the basis behind the step: another place keeps its variable, whose value falls as above, and the
/// step's place has the entering variable's value.
pub fn values_by_place_behind_a_step()
    ensures other { (f : Form) (b : Basis) (s : Fresh) (p : ℕ) (v : Violation) (t : Step) (r : Fresh) (k : ℕ) → TakesStep f b s p v t
        → IsFresh f (basis_after b t) r → k < f.rows → ¬ (k ≡ t.place)
        → value_at_place (basis_after b t) r k
        ≡ (value_at_place b s k -ᶠ dot f.rows (get (row_at s k)) (flips_change f b t.flips)) -ᶠ theta f b s t *ᶠ row_entry f (row_at s k) t.entering }
    ensures entering { (f : Form) (b : Basis) (s : Fresh) (p : ℕ) (v : Violation) (t : Step) (r : Fresh) → TakesStep f b s p v t
        → IsFresh f (basis_after b t) r → value_at_place (basis_after b t) r t.place ≡ get s.values t.entering +ᶠ theta f b s t }
{}
