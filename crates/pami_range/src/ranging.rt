//! The ranges at an optimal state.

ghost use Rattle.std.specs.Prelude.{◌≡◌, IfOk};
ghost use Rattle.pami_theory.specs.Fresh.{Fresh, IsFresh};
ghost use Rattle.pami_state.specs.State.{basis_of};
ghost use Rattle.pami_form.specs.FormOf.{form_of};
ghost use Rattle.pami_range.specs.Scripts.{bound_spans as the_bound_spans, cost_spans as the_cost_spans};
ghost use Rattle.pami_range.specs.Optimal.{IsOptimal, AreBoundRanges, AreCostRanges};

use crate::bounds::bound_spans_by;
use crate::costs::cost_spans_by;
use crate::lists::CostLists;
use crate::span::Span;
use pami_form::Form;
use pami_frac::OutOfMemory;
use pami_lu::Steps;
use pami_state::State;
use std::alloc::Global;

/// How far the bound at which each variable stands may be moved while all basic variables stay within theirs: one member
/// for each variable, ascending, `None` exactly where one is basic or at 0. The variable's other bound isn't looked at.
/// (Vanderbei 2020, section 7.1.)
///
/// # Errors
///
/// `OutOfMemory` alone; an end that an operation keeps from being known is wide, with the first such operation.
pub fn bound_spans<L>(
    alloc: Global,
    form: &Form,
    state: &State,
    steps: &mut Steps<L>,
) -> Result<Vec<Option<Span>>, OutOfMemory>
    requires optimal { IsOptimal form.now state.now }
    // An end is wide exactly where its script is refused, with the script's first operation that doesn't fit.
    ensures script { IfOk result (λ spans. (s : Fresh) → IsFresh (form_of form.now) (basis_of state.now) s
        → spans.items ≡ the_bound_spans (form_of form.now) (basis_of state.now) s) }
    ensures ranges { IfOk result (λ spans. AreBoundRanges (form_of form.now) (basis_of state.now) spans.items) }
{
    let spans = bound_spans_by(
        alloc,
        form.columns.as_slice(),
        form.bounds.as_slice(),
        state.head.as_slice(),
        state.stands.as_slice(),
        state.values.as_slice(),
        steps,
    )?;
    Ok(spans)
}

/// How far the cost of each column may be moved while the basis with its stands stays dual feasible: one span for each
/// column, ascending. Costs are those of the form, as minimised. (Vanderbei 2020, section 7.1.)
///
/// # Errors
///
/// `OutOfMemory` alone; an end that an operation keeps from being known is wide, with the first such operation.
pub fn cost_spans<L>(
    alloc: Global,
    form: &Form,
    state: &State,
    steps: &mut Steps<L>,
) -> Result<Vec<Span>, OutOfMemory>
    requires optimal { IsOptimal form.now state.now }
    // An end is wide exactly where its script is refused, with the script's first operation that doesn't fit.
    ensures script { IfOk result (λ spans. (s : Fresh) → IsFresh (form_of form.now) (basis_of state.now) s
        → spans.items ≡ the_cost_spans (form_of form.now) (basis_of state.now) s) }
    ensures ranges { IfOk result (λ spans. AreCostRanges (form_of form.now) (basis_of state.now) spans.items) }
{
    let lists = CostLists {
        columns: form.columns.as_slice(),
        by_row: &form.by_row,
        bounds: form.bounds.as_slice(),
        costs: form.costs.as_slice(),
        head: state.head.as_slice(),
        stands: state.stands.as_slice(),
        reduced: state.reduced.as_slice(),
    };
    let spans = cost_spans_by(alloc, &lists, steps)?;
    Ok(spans)
}
