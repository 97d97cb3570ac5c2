//! The span of one cost, and of one bound, by a factor of the final basis.

ghost use Rattle.std.specs.Prelude.{◌≡◌, ◌<◌, ◌≤◌, ◌^◌, ◌+◌, ℕ, List, length, [], All, Ok, IfOk};
ghost use Rattle.pami_algebra.specs.Fraction.{Fraction};
ghost use Rattle.pami_frac.specs.declared.list.Entry.{Entry};
ghost use Rattle.pami_script.specs.Dense.{Rising};
ghost use Rattle.pami_price.specs.Slices.{column_at, row_script};
ghost use Rattle.pami_range.specs.declared.span.End.TheVariants.{Wide};
ghost use Rattle.pami_range.specs.Lists.{wide, entries_span, members_span, row_span, column_span, eliminated};
ghost use Rattle.pami_range.specs.Factored.{IsFactoredBy, elimination_of};

use crate::ends::{bound_end, cost_end};
use crate::span::{End, Span};
use pami_factor::Factor;
use pami_frac::{Bounds, Entry, Fault, Frac, OutOfMemory, Refused};
use pami_lu::Steps;
use pami_price::{SliceRefused, price_all};
use pami_vec::{RowWise, Side, SpVec, Stand};
use std::alloc::Global;

/// The end that isn't known, by this refusal.
fn wide_end(refused: &Refused) -> End
    ensures { result ≡ Wide refused.now }
{
    End::Wide(*refused)
}

/// Both ends wide, by one refusal.
pub(crate) fn wide(refused: &Refused) -> Span
    ensures { result ≡ wide refused.now }
{
    Span {
        low: wide_end(refused),
        high: wide_end(refused),
    }
}

/// The span of a basic column's cost, from the entries of its row.
pub(crate) fn entries_span(
    bounds: &[Bounds],
    stands: &[Stand],
    reduced: &[Frac],
    own: Frac,
    entries: &[Entry],
) -> Span
    requires stands { length stands.now ≡ length bounds.now }
    requires reduced { length reduced.now ≡ length bounds.now }
    requires entries { Rising 0 (length bounds.now) entries.now }
    ensures { result ≡ entries_span bounds.now stands.now reduced.now own entries.now }
{
    Span {
        low: cost_end(Side::Below, bounds, stands, reduced, entries, own),
        high: cost_end(Side::Above, bounds, stands, reduced, entries, own),
    }
}

/// The span of a bound, from its variable's column by the basis.
pub(crate) fn members_span(
    bounds: &[Bounds],
    head: &[u32],
    values: &[Frac],
    own: Frac,
    column: &SpVec,
) -> Span
    requires values { length values.now ≡ length head.now }
    requires known { All (λ v. v < length bounds.now) head.now }
    requires column { length column.now ≡ length head.now }
    ensures { result ≡ members_span bounds.now head.now values.now own column.now }
{
    let entries = column.entries();
    Span {
        low: bound_end(Side::Below, bounds, head, values, entries, own),
        high: bound_end(Side::Above, bounds, head, values, entries, own),
    }
}

/// The span of the cost of the column that is basic at a place. It counts one step.
///
/// # Errors
///
/// `OutOfMemory` alone.
pub(crate) fn row_span<L>(
    alloc: Global,
    factor: &Factor,
    by_row: &RowWise,
    bounds: &[Bounds],
    stands: &[Stand],
    reduced: &[Frac],
    own: Frac,
    place: u32,
    steps: &mut Steps<L>,
) -> Result<Span, OutOfMemory>
    requires fresh { factor.now.pivots ≡ [] }
    requires few { length by_row.now < 2 ^ 32 }
    requires size { length factor.now.steps < 2 ^ 32 }
    requires place { place < length factor.now.steps }
    requires columns { length by_row.now ≡ length bounds.now }
    requires stands { length stands.now ≡ length bounds.now }
    requires reduced { length reduced.now ≡ length bounds.now }
    requires tall { (v : ℕ) → v < length by_row.now → length (column_at by_row.now v) ≡ length factor.now.steps }
    // What is priced rises by variable.
    requires rising { (rho : List Fraction) (es : List Entry) → length rho ≡ length factor.now.steps → row_script by_row.now stands.now rho ≡ Ok es → Rising 0 (length bounds.now) es }
    ensures span { IfOk result (λ span. span ≡ row_span factor.now.steps by_row.now bounds.now stands.now reduced.now own place) }
    ensures counted { steps.new.count ≡ steps.old.count + 1 }
{
    let rho = match factor.solve_backward(alloc, place, steps) {
        Ok(rho) => rho,
        Err(Fault::Named(refused)) => return Ok(wide(&refused)),
        Err(Fault::OutOfMemory) => return Err(OutOfMemory),
    };
    match price_all(alloc, by_row, stands, &rho) {
        Ok(alpha) => Ok(entries_span(bounds, stands, reduced, own, alpha.as_slice())),
        Err(Fault::Named(SliceRefused { slice: _, refused })) => Ok(wide(&refused)),
        Err(Fault::OutOfMemory) => Err(OutOfMemory),
    }
}

/// The span of the bound at which the variable of a column stands. It counts one step.
///
/// # Errors
///
/// `OutOfMemory` alone.
pub(crate) fn column_span<L>(
    alloc: Global,
    factor: &Factor,
    bounds: &[Bounds],
    head: &[u32],
    values: &[Frac],
    own: Frac,
    column: &SpVec,
    steps: &mut Steps<L>,
) -> Result<Span, OutOfMemory>
    requires fresh { factor.now.pivots ≡ [] }
    requires few { length column.now < 2 ^ 32 }
    requires rows { length column.now ≡ length factor.now.steps }
    requires places { length head.now ≡ length factor.now.steps }
    requires values { length values.now ≡ length head.now }
    requires known { All (λ v. v < length bounds.now) head.now }
    ensures span { IfOk result (λ span. span ≡ column_span factor.now.steps bounds.now head.now values.now own column.now) }
    ensures counted { steps.new.count ≡ steps.old.count + 1 }
{
    match factor.solve_forward(alloc, column, steps) {
        Ok(solved) => Ok(members_span(bounds, head, values, own, &solved)),
        Err(Fault::Named(refused)) => Ok(wide(&refused)),
        Err(Fault::OutOfMemory) => Err(OutOfMemory),
    }
}

/// The factor of the final basis, or the first operation of its elimination that doesn't fit.
#[derive(Debug, Drop)]
pub(crate) enum Factored {
    Known(Factor),
    Unfit(Refused),
}

/// The span of a bound, by a factor or by the refusal that stands in its place. It counts one step at most.
///
/// # Errors
///
/// `OutOfMemory` alone.
pub(crate) fn factored_span<L>(
    alloc: Global,
    factored: &Factored,
    bounds: &[Bounds],
    head: &[u32],
    values: &[Frac],
    own: Frac,
    column: &SpVec,
    steps: &mut Steps<L>,
) -> Result<Span, OutOfMemory>
    requires factor { IsFactoredBy factored.now (length head.now) }
    requires few { length column.now < 2 ^ 32 }
    requires rows { length column.now ≡ length head.now }
    requires values { length values.now ≡ length head.now }
    requires known { All (λ v. v < length bounds.now) head.now }
    ensures span { IfOk result (λ span. span ≡ eliminated (λ ks. column_span ks bounds.now head.now values.now own column.now) (elimination_of factored.now)) }
    ensures counted { steps.new.count ≤ steps.old.count + 1 }
{
    match factored {
        Factored::Known(factor) => {
            column_span(alloc, factor, bounds, head, values, own, column, steps)
        }
        Factored::Unfit(refused) => Ok(wide(refused)),
    }
}
