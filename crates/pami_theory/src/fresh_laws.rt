//! What is solved at a regular basis.

ghost use Rattle.std.specs.Prelude.{◌≡◌, ◌↔◌, ℕ, ◌<◌};
ghost use Rattle.pami_algebra.specs.Fraction.{Fraction};
ghost use Rattle.pami_algebra.specs.Operations.{neg_f};
ghost use Rattle.pami_linear.specs.Lists.{get};
ghost use Rattle.pami_linear.specs.Sums.{dot, unit};
ghost use Rattle.pami_linear.specs.Systems.{Solves};
ghost use Rattle.pami_theory.specs.Form.{Form, variables, limits, coefficient, zero_f, IsPoint};
ghost use Rattle.pami_theory.specs.declared.words.Stand.TheVariants.{Basic};
ghost use Rattle.pami_theory.specs.Basis.{Basis, head_at, stand_at, StandsAt, IsBasis, basis_column, IsRegularBasis};
ghost use Rattle.pami_theory.specs.Fresh.{AreValues, AreReducedCosts, standing_value, nonbasic_sum, Fresh, row_at, column_at, IsFresh};
ghost use Rattle.pami_theory.specs.Start.{starting_basis};

/// A regular basis has fresh data, and no others; only a regular basis has them.
pub fn regular_bases_are_solved_once()
    ensures solved { (f : Form) (b : Basis) → IsBasis f b → IsRegularBasis f b → (s : Fresh) × IsFresh f b s }
    ensures once { (f : Form) (b : Basis) (s t : Fresh) → IsBasis f b → IsFresh f b s → IsFresh f b t → s ≡ t }
    ensures regular { (f : Form) (b : Basis) (s : Fresh) → IsFresh f b s → IsRegularBasis f b }
{}

/// Where the nonbasic variables have the values at which they stand, all values are a point exactly where the basic
/// ones, by place, solve B x_B = - N x_N. A regular basis has one such point.
pub fn values_of_a_regular_basis()
    ensures by_place { (f : Form) (b : Basis) (x : ℕ → Fraction) → IsBasis f b
        → ((v : ℕ) → v < variables f → StandsAt (limits f v) (stand_at b v) (x v))
        → IsPoint f x ↔ Solves f.rows (basis_column f b) (λ p. x (head_at b p)) (λ i. neg_f (nonbasic_sum f b i)) }
    ensures has_values { (f : Form) (b : Basis) → IsBasis f b → IsRegularBasis f b → (x : ℕ → Fraction) × AreValues f b x }
    ensures only_values { (f : Form) (b : Basis) (x z : ℕ → Fraction) → IsBasis f b → IsRegularBasis f b
        → AreValues f b x → AreValues f b z → (v : ℕ) → v < variables f → x v ≡ z v }
{}

/// A nonbasic variable has the value at which it stands.
pub fn nonbasic_variables_stand_at_their_values()
    ensures standing { (f : Form) (b : Basis) (x : ℕ → Fraction) (v : ℕ) → AreValues f b x → v < variables f → ¬ (stand_at b v ≡ Basic)
        → x v ≡ standing_value (limits f v) (stand_at b v) }
    ensures basic { (f : Form) (b : Basis) (p : ℕ) → IsBasis f b → p < f.rows → standing_value (limits f (head_at b p)) (stand_at b (head_at b p)) ≡ zero_f }
{}

/// A regular basis has one vector of multipliers and one of reduced costs.
pub fn reduced_costs_of_a_regular_basis()
    ensures has_costs { (f : Form) (b : Basis) → IsRegularBasis f b → (y : ℕ → Fraction) × (d : ℕ → Fraction) × AreReducedCosts f b y d }
    ensures only_multipliers { (f : Form) (b : Basis) (y d z e : ℕ → Fraction) → IsRegularBasis f b
        → AreReducedCosts f b y d → AreReducedCosts f b z e → (i : ℕ) → i < f.rows → y i ≡ z i }
    ensures only_costs { (f : Form) (b : Basis) (y d z e : ℕ → Fraction) → IsRegularBasis f b
        → AreReducedCosts f b y d → AreReducedCosts f b z e → (v : ℕ) → v < variables f → d v ≡ e v }
{}

/// The row of a place against a variable's column is the member at that place of the variable's solved column; for
/// basic variables both are those of the unit matrix.
pub fn rows_meet_columns()
    ensures entry { (f : Form) (b : Basis) (s : Fresh) (p v : ℕ) → IsFresh f b s → p < f.rows → v < variables f
        → dot f.rows (get (row_at s p)) (coefficient f v) ≡ get (column_at s v) p }
    ensures basic_entry { (f : Form) (b : Basis) (s : Fresh) (p q : ℕ) → IsFresh f b s → p < f.rows → q < f.rows
        → dot f.rows (get (row_at s p)) (coefficient f (head_at b q)) ≡ unit p q }
    ensures basic_column { (f : Form) (b : Basis) (s : Fresh) (p q : ℕ) → IsBasis f b → IsFresh f b s → p < f.rows → q < f.rows
        → get (column_at s (head_at b p)) q ≡ unit p q }
{}

/// The starting basis is regular: its columns are those of the unit matrix, negated.
pub fn start_is_regular()
    ensures regular { (f : Form) → IsRegularBasis f (starting_basis f) }
{}
