//! Spans are ranges: each end that isn't wide is an end of the set.

ghost use Rattle.std.specs.Prelude.{◌≡◌, ℕ, ◌<◌, List, Ok};
ghost use Rattle.pami_algebra.specs.Fraction.{Fraction};
ghost use Rattle.pami_frac.specs.declared.list.Bounds.{Bounds};
ghost use Rattle.pami_factoring.specs.declared.kept.Kept.{Kept};
ghost use Rattle.pami_theory.specs.Form.{Form, variables, limits, cost};
ghost use Rattle.pami_theory.specs.Basis.{Basis, stand_at, IsBasis};
ghost use Rattle.pami_theory.specs.Fresh.{Fresh, standing_value, IsFresh};
ghost use Rattle.pami_ranging.specs.Ranges.{KeepsDualFeasible, KeepsPrimalFeasible, IsReadyForCosts, IsReadyForBounds};
ghost use Rattle.pami_method.specs.Factor.{elimination};
ghost use Rattle.pami_method.specs.Work.{column_of};
ghost use Rattle.pami_range.specs.Scripts.{cost_span, bound_span, bound_script, column_refused, span_after};
ghost use Rattle.pami_range.specs.Lists.{column_span};
ghost use Rattle.pami_range.specs.ListsOf.{AreListsOf};
ghost use Rattle.pami_range.specs.Exact.{IsSpanOf, IsSpanIfAny};

/// The span of a column's cost is the set of costs with which the basis stays dual feasible, and that of a bound the
/// set of its values with which all basic variables stay within their bounds.
pub fn spans_are_ranges()
    ensures costs { (f : Form) (b : Basis) (s : Fresh) (j : ℕ) → IsReadyForCosts f b s → j < f.columns
        → IsSpanOf (KeepsDualFeasible f b j) (cost f j) (cost_span f b s j) }
    ensures bounds { (f : Form) (b : Basis) (s : Fresh) (v : ℕ) → IsReadyForBounds f b s → v < variables f
        → IsSpanIfAny (KeepsPrimalFeasible f b v) (standing_value (limits f v) (stand_at b v)) (bound_span f b s v) }
{}

/// What a program works out over its lists for a bound, by the steps of the elimination, is the span of the definition.
pub fn column_spans_are_those_of_the_definition()
    ensures span { (f : Form) (b : Basis) (s : Fresh) (v : ℕ) (ks : List Kept) (bounds : List Bounds) (head : List ℕ) (values : List Fraction)
        → IsBasis f b → IsFresh f b s → v < variables f → AreListsOf f b s bounds head values → elimination f b.head ≡ Ok ks
        → column_span ks bounds head values (standing_value (limits f v) (stand_at b v)) (column_of f v) ≡ span_after (column_refused f b v) (bound_script f b s v) }
{}
