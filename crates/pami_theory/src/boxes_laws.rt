//! Phase one by boxes, and the switch back to the form's own bounds.

ghost use Rattle.std.specs.Prelude.{◌≡◌, ◌↔◌, ◌⊎◌, ℕ, ◌<◌, List, length, None, Some};
ghost use Rattle.pami_algebra.specs.Fraction.{Fraction};
ghost use Rattle.pami_linear.specs.Lists.{get};
ghost use Rattle.pami_theory.specs.Form.{Form, variables, limits, zero_f, IsFeasible};
ghost use Rattle.pami_theory.specs.Basis.{Basis, head_at, IsBasis, IsRegularBasis};
ghost use Rattle.pami_theory.specs.Fresh.{AreReducedCosts, IsDualFeasible, Fresh, value_at_place, IsFresh};
ghost use Rattle.pami_theory.specs.Start.{starting_basis};
ghost use Rattle.pami_theory.specs.declared.words.Violation.{Violation};
ghost use Rattle.pami_theory.specs.Violation.{violation};
ghost use Rattle.pami_theory.specs.Step.{step_at};
ghost use Rattle.pami_theory.specs.Certificate.{HoldsDualInfeasible};
ghost use Rattle.pami_theory.specs.Boxes.{boxes_of, CanBeDualFeasible, switched_basis};

/// A basis of the form with boxes is one of the form itself once its nonbasic variables stand at bounds that they
/// have there; its columns, and so its reduced costs, are the same.
pub fn the_switch_keeps_the_basis()
    ensures basis { (f : Form) (b : Basis) (d : List Fraction) → IsBasis (boxes_of f) b → IsBasis f (switched_basis f b d) }
    ensures regular { (f : Form) (b : Basis) (d : List Fraction) → IsRegularBasis (boxes_of f) b → IsRegularBasis f (switched_basis f b d) }
    ensures reduced_costs { (f : Form) (b : Basis) (d : List Fraction) (y e : ℕ → Fraction)
        → AreReducedCosts (boxes_of f) b y e → AreReducedCosts f (switched_basis f b d) y e }
{}

/// In the boxes the point 0 is feasible, so that a violated place never lacks an entering variable, and the starting
/// basis is dual feasible.
pub fn phase_one_goes_on()
    ensures zero { (f : Form) → IsFeasible (boxes_of f) (λ v. zero_f) }
    ensures enters { (f : Form) (b : Basis) (s : Fresh) (p : ℕ) (v : Violation) → IsBasis (boxes_of f) b → IsFresh (boxes_of f) b s → p < f.rows
        → violation (limits (boxes_of f) (head_at b p)) (value_at_place b s p) ≡ Some v → ¬ (step_at (boxes_of f) b s p v ≡ None) }
    ensures start { (f : Form) → length f.bounds ≡ variables f → IsDualFeasible (boxes_of f) (starting_basis (boxes_of f)) }
{}

/// A basis of the boxes can be made dual feasible exactly where the switch makes it so, and that is decided. Where it
/// can't, and it is optimal in the boxes, its values are a certificate of dual infeasibility.
pub fn phase_one_decides()
    ensures by_switch { (f : Form) (b : Basis) (s : Fresh) → IsBasis (boxes_of f) b → IsFresh (boxes_of f) b s
        → CanBeDualFeasible f b ↔ IsDualFeasible f (switched_basis f b s.reduced) }
    ensures decided { (f : Form) (b : Basis) (s : Fresh) → IsBasis (boxes_of f) b → IsFresh (boxes_of f) b s
        → CanBeDualFeasible f b ⊎ (¬ CanBeDualFeasible f b) }
    ensures ray { (f : Form) (b : Basis) (s : Fresh) → length f.bounds ≡ variables f → IsBasis (boxes_of f) b → IsFresh (boxes_of f) b s
        → IsDualFeasible (boxes_of f) b
        → ((p : ℕ) → p < f.rows → violation (limits (boxes_of f) (head_at b p)) (value_at_place b s p) ≡ None)
        → ¬ CanBeDualFeasible f b → HoldsDualInfeasible f (get s.values) }
{}
