//! The spans of all costs.

ghost use Rattle.std.specs.Prelude.{◌≡◌, ◌<◌, ◌-◌, length, All, IfOk, false};
ghost use Rattle.pami_linear.specs.Lists.{get};
ghost use Rattle.pami_linear.specs.Systems.{IsRegular};
ghost use Rattle.pami_factoring.specs.Factor.{elimination_script, matrix_of, basis_columns};
ghost use Rattle.pami_method.specs.Scripts.{is_nonbasic as the_is_nonbasic};
ghost use Rattle.pami_range.specs.CostLists.{AreCostLists};
ghost use Rattle.pami_range.specs.Scripts.{place_of as the_place_of};
ghost use Rattle.pami_range.specs.Lists.{stand_at, row_span, eliminated, cost_span_at, cost_spans_at};
ghost use Rattle.pami_range.specs.Factored.{IsFactoredBy, elimination_of};

use crate::bounds::factored;
use crate::lists::CostLists;
use crate::one::own_span;
use crate::span::Span;
use crate::spans::{Factored, row_span, wide};
use pami_frac::OutOfMemory;
use pami_lu::Steps;
use pami_vec::Stand;
use std::alloc::Global;

/// The place of a basic variable; the count of places where there is none.
fn place_of(head: &[u32], variable: u32) -> usize
    ensures place { result ≡ the_place_of head.now variable }
{
    let mut place = 0;
    while place < head.len() && head[place] != variable {
        place += 1;
    }
    place
}

/// Is a variable that stands so out of the basis?
fn is_nonbasic(stand: Stand) -> bool
    ensures { result ≡ the_is_nonbasic stand }
{
    match stand {
        Stand::Basic => false,
        _ => true,
    }
}

/// The span of a basic column's cost, by a factor or by the refusal that stands in its place.
///
/// # Errors
///
/// `OutOfMemory` alone.
fn basic_span<L>(
    alloc: Global,
    factored: &Factored,
    lists: &CostLists,
    variable: u32,
    steps: &mut Steps<L>,
) -> Result<Span, OutOfMemory>
    requires lists { AreCostLists lists.now }
    requires variable { variable < length lists.now.columns.now }
    requires factor { IsFactoredBy factored.now (length lists.now.head.now) }
    requires place { the_place_of lists.now.head.now variable < length lists.now.head.now }
    ensures span { IfOk result (λ span. span ≡ eliminated (λ ks. row_span ks lists.now.columns.now lists.now.bounds.now lists.now.stands.now
        lists.now.reduced.now (get lists.now.costs.now variable) (the_place_of lists.now.head.now variable)) (elimination_of factored.now)) }
{
    match factored {
        Factored::Known(factor) => {
            let place = place_of(lists.head, variable) as u32;
            row_span(
                alloc,
                factor,
                lists.by_row,
                lists.bounds,
                lists.stands,
                lists.reduced,
                lists.costs[variable as usize],
                place,
                steps,
            )
        }
        Factored::Unfit(refused) => Ok(wide(refused)),
    }
}

/// The span of one column's cost.
///
/// # Errors
///
/// `OutOfMemory` alone.
fn cost_span<L>(
    alloc: Global,
    factored: &Factored,
    lists: &CostLists,
    j: usize,
    steps: &mut Steps<L>,
) -> Result<Span, OutOfMemory>
    requires lists { AreCostLists lists.now }
    requires column { j < length lists.now.columns.now }
    requires factor { IsFactoredBy factored.now (length lists.now.head.now) }
    ensures span { IfOk result (λ span. span ≡ cost_span_at (elimination_of factored.now) lists.now.columns.now lists.now.bounds.now
        lists.now.costs.now lists.now.head.now lists.now.stands.now lists.now.reduced.now j (the_is_nonbasic (stand_at lists.now.stands.now j))) }
{
    let stand = lists.stands[j];
    if is_nonbasic(stand) {
        return Ok(own_span(&lists.bounds[j], stand, lists.costs[j], lists.reduced[j]));
    }
    basic_span(alloc, factored, lists, j as u32, steps)
}

/// The spans of the costs of all columns, by what the final basis was eliminated to.
///
/// # Errors
///
/// `OutOfMemory` alone.
fn spans_by<L>(
    alloc: Global,
    factored: &Factored,
    lists: &CostLists,
    steps: &mut Steps<L>,
) -> Result<Vec<Span>, OutOfMemory>
    requires lists { AreCostLists lists.now }
    requires factor { IsFactoredBy factored.now (length lists.now.head.now) }
    ensures { IfOk result (λ spans. spans.items ≡ cost_spans_at (elimination_of factored.now) lists.now.columns.now lists.now.bounds.now
        lists.now.costs.now lists.now.head.now lists.now.stands.now lists.now.reduced.now
        (length lists.now.columns.now - length lists.now.head.now)) }
{
    let mut out = Vec::new(alloc);
    for j in 0..lists.columns.len() - lists.head.len() {
        let span = cost_span(alloc, factored, lists, j, steps)?;
        out.push(span)?;
    }
    Ok(out)
}

/// The spans of the costs of all columns, ascending. (Vanderbei 2020, section 7.1.)
///
/// # Errors
///
/// `OutOfMemory` alone.
pub(crate) fn cost_spans_by<L>(
    alloc: Global,
    lists: &CostLists,
    steps: &mut Steps<L>,
) -> Result<Vec<Span>, OutOfMemory>
    requires lists { AreCostLists lists.now }
    requires known { All (λ j. j < length lists.now.columns.now) lists.now.head.now }
    requires regular { IsRegular (length lists.now.head.now) (basis_columns lists.now.columns.now lists.now.head.now) }
    ensures { IfOk result (λ spans. spans.items ≡ cost_spans_at (elimination_script (matrix_of lists.now.columns.now lists.now.head.now))
        lists.now.columns.now lists.now.bounds.now lists.now.costs.now lists.now.head.now lists.now.stands.now lists.now.reduced.now
        (length lists.now.columns.now - length lists.now.head.now)) }
{
    let factored = factored(alloc, lists.columns, lists.head, steps)?;
    spans_by(alloc, &factored, lists, steps)
}
