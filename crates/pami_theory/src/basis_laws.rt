//! What the equations of a basis say of any basis.

ghost use Rattle.std.specs.Prelude.{◌≡◌, ◌↔◌, ◌⊎◌, ℕ, ◌<◌};
ghost use Rattle.pami_algebra.specs.Fraction.{Fraction};
ghost use Rattle.pami_linear.specs.Lists.{get};
ghost use Rattle.pami_theory.specs.Form.{Form, limits, variables, row_variable, zero_f, IsUncrossed};
ghost use Rattle.pami_theory.specs.declared.words.Stand.TheVariants.{Basic};
ghost use Rattle.pami_theory.specs.Basis.{Basis, IsBasis, head_at, stand_at};
ghost use Rattle.pami_theory.specs.Fresh.{AreValues, AreReducedCosts, IsFixed, IsSignedFor, IsDualFeasible, HasInfeasible, Fresh, IsFresh};
ghost use Rattle.pami_theory.specs.Certificate.{HoldsOptimal};

/// The reduced cost of a row variable is the multiplier of its row, and that of a basic variable is 0.
pub fn reduced_costs_of_a_basis()
    ensures of_rows { (f : Form) (b : Basis) (y d : ℕ → Fraction) → AreReducedCosts f b y d
        → (i : ℕ) → i < f.rows → d (row_variable f i) ≡ y i }
    ensures of_basic_variables { (f : Form) (b : Basis) (y d : ℕ → Fraction) → IsBasis f b → AreReducedCosts f b y d
        → (p : ℕ) → p < f.rows → d (head_at b p) ≡ zero_f }
{}

/// A basis that is dual feasible and has no infeasible place gives a certificate: its values and its reduced costs.
/// The bounds of its nonbasic variables have to be in order.
pub fn bases_give_certificates()
    ensures certificate { (f : Form) (b : Basis) (x : ℕ → Fraction) (dual : IsDualFeasible f b)
        → IsBasis f b → AreValues f b x → ¬ HasInfeasible f b x
        → ((v : ℕ) → v < variables f → ¬ (stand_at b v ≡ Basic) → IsUncrossed (limits f v))
        → HoldsOptimal f x dual.d }
{}

/// Whether a basis is dual feasible is read off the reduced costs that are solved there, and decided by them.
pub fn dual_feasibility_is_decided()
    ensures by_signs { (f : Form) (b : Basis) (s : Fresh) → IsFresh f b s → IsDualFeasible f b
        ↔ ((v : ℕ) → v < variables f → ¬ IsFixed (limits f v) → IsSignedFor (stand_at b v) (get s.reduced v)) }
    ensures decided { (f : Form) (b : Basis) (s : Fresh) → IsFresh f b s → IsDualFeasible f b ⊎ (¬ IsDualFeasible f b) }
{}
