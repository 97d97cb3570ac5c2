//! Ranges: the sets are the intervals that the quotients give.

ghost use Rattle.std.specs.Prelude.{◌≡◌, ◌↔◌, ℕ, ◌<◌};
ghost use Rattle.pami_algebra.specs.Fraction.{Fraction};
ghost use Rattle.pami_algebra.specs.Operations.{neg_f};
ghost use Rattle.pami_theory.specs.Form.{Form, variables, limits, cost, IsWithin};
ghost use Rattle.pami_theory.specs.Basis.{Basis, head_at, stand_at};
ghost use Rattle.pami_theory.specs.declared.words.Stand.{Stand};
ghost use Rattle.pami_theory.specs.declared.words.Stand.TheVariants.{Basic, Lower, Upper};
ghost use Rattle.pami_theory.specs.Fresh.{Fresh, standing_value};
ghost use Rattle.pami_ranging.specs.Ranges.{KeepsDualFeasible, KeepsPrimalFeasible, IsReadyForCosts, IsReadyForBounds, IsAtBound};
ghost use Rattle.pami_ranging.specs.Intervals.{basic_cost_interval, nonbasic_cost_interval, bound_interval, negated};

/// The costs with which a dual feasible basis stays so are those within the interval of the quotients: inside of it the
/// basis stays dual feasible, and outside it doesn't. The column's own cost is among them.
pub fn cost_ranges()
    ensures nonbasic { (f : Form) (b : Basis) (s : Fresh) (j : ℕ) (c : Fraction) → IsReadyForCosts f b s → j < f.columns → ¬ (stand_at b j ≡ Basic)
        → KeepsDualFeasible f b j c ↔ IsWithin (nonbasic_cost_interval f b s j) c }
    ensures basic { (f : Form) (b : Basis) (s : Fresh) (p : ℕ) (c : Fraction) → IsReadyForCosts f b s → p < f.rows → head_at b p < f.columns
        → KeepsDualFeasible f b (head_at b p) c ↔ IsWithin (basic_cost_interval f b s p) c }

    // A maximum's cost m is kept as its negation: the interval of m is the negated one.
    ensures nonbasic_maximum { (f : Form) (b : Basis) (s : Fresh) (j : ℕ) (m : Fraction) → IsReadyForCosts f b s → j < f.columns → ¬ (stand_at b j ≡ Basic)
        → KeepsDualFeasible f b j (neg_f m) ↔ IsWithin (negated (nonbasic_cost_interval f b s j)) m }
    ensures basic_maximum { (f : Form) (b : Basis) (s : Fresh) (p : ℕ) (m : Fraction) → IsReadyForCosts f b s → p < f.rows → head_at b p < f.columns
        → KeepsDualFeasible f b (head_at b p) (neg_f m) ↔ IsWithin (negated (basic_cost_interval f b s p)) m }
    ensures own_nonbasic { (f : Form) (b : Basis) (s : Fresh) (j : ℕ) → IsReadyForCosts f b s → j < f.columns → ¬ (stand_at b j ≡ Basic)
        → IsWithin (nonbasic_cost_interval f b s j) (cost f j) }
    ensures own_basic { (f : Form) (b : Basis) (s : Fresh) (p : ℕ) → IsReadyForCosts f b s → p < f.rows → head_at b p < f.columns
        → IsWithin (basic_cost_interval f b s p) (cost f (head_at b p)) }
{}

/// The values of the bound at which a variable stands, with which all basic variables stay within their bounds, are
/// those within the interval of the quotients. The bound's own value is among them.
pub fn bound_ranges()
    ensures range { (f : Form) (b : Basis) (s : Fresh) (v : ℕ) (value : Fraction) → IsReadyForBounds f b s → v < variables f → IsAtBound (stand_at b v)
        → KeepsPrimalFeasible f b v value ↔ IsWithin (bound_interval f b s v) value }
    ensures own { (f : Form) (b : Basis) (s : Fresh) (v : ℕ) → IsReadyForBounds f b s → v < variables f → IsAtBound (stand_at b v)
        → IsWithin (bound_interval f b s v) (standing_value (limits f v) (stand_at b v)) }
{}
