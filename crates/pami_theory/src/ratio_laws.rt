//! The ratio walk: which variable enters, what is flipped before, and the walk by a running slope.

ghost use Rattle.std.specs.Prelude.{◌≡◌, ◌↔◌, ℕ, ◌<◌, true, false, List, ◌∷◌, ◌++◌, None, Some};
ghost use Rattle.std.specs.List.{Contains, filter, find, range_with_len, IsDistinct};
ghost use Rattle.std.specs.List.Sorted.{IsSortedBy, ties};
ghost use Rattle.pami_algebra.specs.Fraction.{Fraction};
ghost use Rattle.pami_algebra.specs.Operations.{◌-ᶠ◌};
ghost use Rattle.pami_theory.specs.Form.{Form, variables, limits};
ghost use Rattle.pami_theory.specs.Basis.{Basis};
ghost use Rattle.pami_theory.specs.Violation.{width};
ghost use Rattle.pami_theory.specs.Ratio.{Leaving, is_candidate, walks_before, walk_order, lowered_before, ends_at, IsEntering, Entering, entering_at, ratio_walk};
ghost use Rattle.pami_theory.specs.Slope.{slope_after, walk_down};

/// The walk answers the first candidate at which it ends, with its ratio and the candidates before it. There is no
/// other such candidate, and None says that the walk ends at no candidate.
pub fn the_walk_finds_the_entering_variable()
    ensures found { (f : Form) (b : Basis) (l : Leaving) (e : Entering) → ratio_walk f b l ≡ Some e
        → IsEntering f b l e.variable × (e ≡ entering_at f b l e.variable) }
    ensures finds { (f : Form) (b : Basis) (l : Leaving) (q : ℕ) → IsEntering f b l q → ratio_walk f b l ≡ Some (entering_at f b l q) }
    ensures only { (f : Form) (b : Basis) (l : Leaving) (q r : ℕ) → IsEntering f b l q → IsEntering f b l r → q ≡ r }
    ensures none { (f : Form) (b : Basis) (l : Leaving) → ratio_walk f b l ≡ None
        ↔ ((k : ℕ) → k < variables f → is_candidate f b l k ≡ true → ends_at f b l k ≡ false) }
{}

/// No two candidates tie, so that a sort of them in any order answers the walk order; its members are the candidates.
pub fn the_walk_goes_over_the_candidates()
    ensures no_ties { (f : Form) (b : Basis) (l : Leaving)
        → IsDistinct (ties (walks_before f l)) (filter (is_candidate f b l) (range_with_len 0 (variables f))) }
    ensures candidates { (f : Form) (b : Basis) (l : Leaving) (v : ℕ) → Contains (walk_order f b l) v
        ↔ ((v < variables f) × (is_candidate f b l v ≡ true)) }
{}

/// The flips before the entering variable are the candidates before it, in walk order, and each is boxed.
pub fn flips_are_the_candidates_before()
    ensures flips { (f : Form) (b : Basis) (l : Leaving) (q v : ℕ) → Contains (entering_at f b l q).flips v
        ↔ ((v < variables f) × (is_candidate f b l v ≡ true) × (walks_before f l v q ≡ true)) }
    ensures boxed { (f : Form) (b : Basis) (l : Leaving) (q v : ℕ) → IsEntering f b l q → Contains (entering_at f b l q).flips v
        → (w : Fraction) × (width (limits f v) ≡ Some w) }
    ensures in_order { (f : Form) (b : Basis) (l : Leaving) (q : ℕ) → IsSortedBy (walks_before f l) (entering_at f b l q).flips }
{}

/// A slope that starts at the distance and loses what each flip lowers is, at each member of the walk, the distance
/// without what all candidates before it lower; so the walk by the slope ends where the walk ends.
pub fn the_slope_runs_down()
    ensures slope { (f : Form) (b : Basis) (l : Leaving) (xs : List ℕ) (v : ℕ) (ys : List ℕ) → walk_order f b l ≡ xs ++ v ∷ ys
        → slope_after f l l.violation.amount xs ≡ l.violation.amount -ᶠ lowered_before f b l v }
    ensures walk { (f : Form) (b : Basis) (l : Leaving)
        → walk_down f l l.violation.amount (walk_order f b l) ≡ find (ends_at f b l) (walk_order f b l) }
{}
