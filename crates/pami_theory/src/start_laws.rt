//! The starting basis: its values, its reduced costs, and what they tell of a form.

ghost use Rattle.std.specs.Prelude.{◌≡◌, ◌↔◌, ℕ, ◌<◌, Some, IsTrue};
ghost use Rattle.pami_algebra.specs.Fraction.{Fraction};
ghost use Rattle.pami_algebra.specs.Operations.{◌≤ᶠ◌, ◌<ᶠ◌};
ghost use Rattle.pami_theory.specs.Form.{Form, limits, cost, variables, row_variable, cost_of, zero_f, IsWithin, IsUncrossed};
ghost use Rattle.pami_theory.specs.declared.words.Stand.TheVariants.{Lower};
ghost use Rattle.pami_theory.specs.Basis.{IsBasis};
ghost use Rattle.pami_theory.specs.Fresh.{AreValues, AreReducedCosts, IsFixed, IsSignedFor, IsDualFeasible, IsOutside, IsInfeasible, HasInfeasible};
ghost use Rattle.pami_frac.specs.Signs.{is_negative};
ghost use Rattle.pami_theory.specs.Start.{is_same, starting_stand, starting_basis, IsStandard};
ghost use Rattle.pami_theory.specs.Certificate.{HoldsOptimal, objective_of};

/// The starting basis is one, for each form.
pub fn start_is_a_basis()
    ensures basis { (f : Form) → IsBasis f (starting_basis f) }
{}

/// Its multipliers are 0 and its reduced costs are the costs; it has no others.
pub fn start_has_the_costs()
    ensures reduced_costs { (f : Form) → AreReducedCosts f (starting_basis f) (λ i. zero_f) (cost_of f) }
    ensures only_multipliers { (f : Form) (y d : ℕ → Fraction) → AreReducedCosts f (starting_basis f) y d
        → (i : ℕ) → i < f.rows → y i ≡ zero_f }
    ensures only_reduced_costs { (f : Form) (y d : ℕ → Fraction) → AreReducedCosts f (starting_basis f) y d
        → (v : ℕ) → v < variables f → d v ≡ cost_of f v }
{}

/// It has values, and they are the only ones.
pub fn start_has_one_point()
    ensures has_values { (f : Form) → (x : ℕ → Fraction) × AreValues f (starting_basis f) x }
    ensures only_values { (f : Form) (x z : ℕ → Fraction) → AreValues f (starting_basis f) x → AreValues f (starting_basis f) z
        → (v : ℕ) → v < variables f → x v ≡ z v }
{}

/// It is dual feasible exactly where the cost of each column that isn't fixed has the sign of the column's stand,
/// which a column with both bounds always has.
pub fn start_is_dual_feasible_by_costs()
    ensures by_costs { (f : Form) → IsDualFeasible f (starting_basis f)
        ↔ ((j : ℕ) → j < f.columns → ¬ IsFixed (limits f j) → IsSignedFor (starting_stand f j) (cost f j)) }
    ensures both_bounds { (f : Form) (j : ℕ) (low high : Fraction) → j < f.columns
        → (limits f j).low ≡ Some low → (limits f j).high ≡ Some high
        → ¬ IsFixed (limits f j) → IsSignedFor (starting_stand f j) (cost f j) }
{}

/// Where it is dual feasible and no place is infeasible, its values and the costs are a certificate, if the bounds of
/// each column are in order.
pub fn start_gives_certificates()
    ensures certificate { (f : Form) (x : ℕ → Fraction)
        → AreValues f (starting_basis f) x → IsDualFeasible f (starting_basis f) → ¬ HasInfeasible f (starting_basis f) x
        → ((j : ℕ) → j < f.columns → IsUncrossed (limits f j))
        → HoldsOptimal f x (cost_of f) }
{}

/// Where each column is bounded by 0 from below alone, the starting basis has the value 0 everywhere.
pub fn standard_forms_start_at_zero()
    ensures stands { (f : Form) → IsStandard f → (j : ℕ) → j < f.columns → starting_stand f j ≡ Lower }
    ensures values { (f : Form) → IsStandard f → AreValues f (starting_basis f) (λ v. zero_f) }
    ensures only_values { (f : Form) (x : ℕ → Fraction) → IsStandard f → AreValues f (starting_basis f) x
        → (v : ℕ) → v < variables f → x v ≡ zero_f }
    ensures uncrossed { (f : Form) → IsStandard f → (j : ℕ) → j < f.columns → IsUncrossed (limits f j) }

    // Dual feasible where no cost is below 0; infeasible where the bounds of a row leave 0 out.
    ensures dual_feasible { (f : Form) → IsStandard f → IsDualFeasible f (starting_basis f)
        ↔ ((j : ℕ) → j < f.columns → zero_f ≤ᶠ cost f j) }
    ensures infeasible { (f : Form) (x : ℕ → Fraction) → IsStandard f → AreValues f (starting_basis f) x
        → (p : ℕ) → p < f.rows → IsInfeasible f (starting_basis f) x p ↔ IsOutside (limits f (row_variable f p)) zero_f }

    // Where both are well, zeros are optimal, and the objective is its constant.
    ensures optimal { (f : Form) → IsStandard f → ((j : ℕ) → j < f.columns → zero_f ≤ᶠ cost f j)
        → ((i : ℕ) → i < f.rows → IsWithin (limits f (row_variable f i)) zero_f)
        → HoldsOptimal f (λ v. zero_f) (cost_of f) }
    ensures objective { (constant : Fraction) (n : ℕ) (cost : ℕ → Fraction) → objective_of constant n cost (λ v. zero_f) ≡ constant }
{}

/// The tests by which a column is placed decide what they are named after.
pub fn tests_decide()
    ensures negative { (q : Fraction) → IsTrue (is_negative q) ↔ (q <ᶠ zero_f) }
    ensures same { (p q : Fraction) → IsTrue (is_same p q) ↔ (p ≡ q) }
{}
