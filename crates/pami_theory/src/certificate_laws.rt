//! What a certificate says of a form.

ghost use Rattle.std.specs.Prelude.{◌≡◌, ℕ, ◌<◌, None, Some};
ghost use Rattle.pami_algebra.specs.Fraction.{Fraction};
ghost use Rattle.pami_algebra.specs.Operations.{◌≤ᶠ◌};
ghost use Rattle.pami_linear.specs.Lists.{get};
ghost use Rattle.pami_linear.specs.Sums.{dot};
ghost use Rattle.pami_theory.specs.Form.{Form, cost, variables, limits, IsPoint, IsFeasible, IsUncrossed};
ghost use Rattle.pami_theory.specs.declared.words.Stand.TheVariants.{Basic};
ghost use Rattle.pami_theory.specs.Basis.{Basis, head_at, stand_at, IsBasis};
ghost use Rattle.pami_theory.specs.Fresh.{IsDualFeasible, Fresh, row_at, value_at_place, IsFresh};
ghost use Rattle.pami_theory.specs.declared.words.Violation.{Violation};
ghost use Rattle.pami_theory.specs.Violation.{violation};
ghost use Rattle.pami_theory.specs.Ratio.{toward};
ghost use Rattle.pami_theory.specs.Step.{step_at};
ghost use Rattle.pami_theory.specs.Certificate.{HoldsOptimal, HoldsInfeasible, HoldsDualInfeasible, IsDualPoint, objective_of};

/// Weak duality: a point with a certificate is optimal, since no point within the bounds costs less.
/// (Koberstein 2005, chapter 2.)
pub fn certificates_are_optimal()
    // At each point the costs of the columns come to the reduced costs of all variables.
    ensures same_cost { (f : Form) (x d z : ℕ → Fraction) → HoldsOptimal f x d → IsPoint f z
        → dot f.columns (cost f) z ≡ dot (variables f) d z }
    ensures no_less { (f : Form) (x d z : ℕ → Fraction) → HoldsOptimal f x d → IsFeasible f z
        → dot f.columns (cost f) x ≤ᶠ dot f.columns (cost f) z }
    ensures no_less_objective { (f : Form) (constant : Fraction) (x d z : ℕ → Fraction)
        → HoldsOptimal f x d → IsFeasible f z
        → objective_of constant f.columns (cost f) x ≤ᶠ objective_of constant f.columns (cost f) z }
    ensures one_optimum { (f : Form) (x d z e : ℕ → Fraction) → HoldsOptimal f x d → HoldsOptimal f z e
        → dot f.columns (cost f) x ≡ dot f.columns (cost f) z }
{}

/// A certificate of infeasibility excludes every point within the bounds (after Farkas); it depends on its members at
/// the rows alone.
pub fn infeasible_certificates_exclude_points()
    ensures excluded { (f : Form) (y x : ℕ → Fraction) → HoldsInfeasible f y → ¬ IsFeasible f x }
    ensures by_rows { (f : Form) (y z : ℕ → Fraction) → ((i : ℕ) → i < f.rows → y i ≡ z i) → HoldsInfeasible f y → HoldsInfeasible f z }
{}

/// A certificate of dual infeasibility excludes every point of the dual program, and so every basis that is dual
/// feasible. Each such basis has a point of the dual program.
pub fn dual_infeasible_certificates_exclude_dual_points()
    ensures excluded { (f : Form) (z y d : ℕ → Fraction) → HoldsDualInfeasible f z → ¬ IsDualPoint f y d }
    ensures of_a_basis { (f : Form) (b : Basis) (dual : IsDualFeasible f b) → IsBasis f b → IsDualPoint f dual.y dual.d }
    ensures no_basis { (f : Form) (b : Basis) (z : ℕ → Fraction) → HoldsDualInfeasible f z → IsBasis f b → ¬ IsDualFeasible f b }
{}

/// What is solved at a basis gives certificates: where it is dual feasible and no place is violated, its values and
/// reduced costs are optimal; where a place is violated and no variable enters, its row excludes every feasible point,
/// turned so that the distance counts upward.
pub fn ends_have_certificates()
    ensures optimal { (f : Form) (b : Basis) (s : Fresh) → IsBasis f b → IsFresh f b s → IsDualFeasible f b
        → ((p : ℕ) → p < f.rows → violation (limits f (head_at b p)) (value_at_place b s p) ≡ None)
        → ((v : ℕ) → v < variables f → ¬ (stand_at b v ≡ Basic) → IsUncrossed (limits f v))
        → HoldsOptimal f (get s.values) (get s.reduced) }
    ensures infeasible { (f : Form) (b : Basis) (s : Fresh) (p : ℕ) (v : Violation) → IsBasis f b → IsFresh f b s → p < f.rows
        → violation (limits f (head_at b p)) (value_at_place b s p) ≡ Some v → step_at f b s p v ≡ None
        → HoldsInfeasible f (λ i. toward v.side (get (row_at s p) i)) }
{}
