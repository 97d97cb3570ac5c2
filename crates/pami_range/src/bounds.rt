//! The spans of all bounds.

ghost use Rattle.std.specs.Prelude.{◌≡◌, ◌<◌, ◌^◌, ℕ, length, [], All, IfOk, slice_index_or};
ghost use Rattle.pami_linear.specs.Systems.{IsRegular};
ghost use Rattle.pami_factoring.specs.Factor.{elimination_script, matrix_of, basis_columns};
ghost use Rattle.pami_range.specs.Lists.{bound_span_at, bound_spans_at};
ghost use Rattle.pami_range.specs.Factored.{IsFactoredBy, elimination_of};

use crate::span::Span;
use crate::spans::{Factored, factored_span};
use pami_factor::Factor;
use pami_frac::{Bounds, Fault, Frac, OutOfMemory};
use pami_lu::{LuFault, Steps, eliminate};
use pami_vec::{SpVec, Stand, value_or_zero};
use std::alloc::Global;

/// Eliminates the final basis.
///
/// # Errors
///
/// `OutOfMemory` alone.
pub(crate) fn factored<L>(
    alloc: Global,
    columns: &[SpVec],
    head: &[u32],
    steps: &mut Steps<L>,
) -> Result<Factored, OutOfMemory>
    requires few { length head.now < 2 ^ 32 }
    requires heights { (j : ℕ) → j < length columns.now → length (slice_index_or columns.now j []) ≡ length head.now }
    requires known { All (λ j. j < length columns.now) head.now }
    requires regular { IsRegular (length head.now) (basis_columns columns.now head.now) }
    ensures script { IfOk result (λ g. elimination_of g ≡ elimination_script (matrix_of columns.now head.now)) }
    ensures size { IfOk result (λ g. IsFactoredBy g (length head.now)) }
{
    match eliminate(alloc, columns, head, steps) {
        Ok(lu) => Ok(Factored::Known(Factor::of(lu))),
        Err(Fault::OutOfMemory) => Err(OutOfMemory),
        Err(Fault::Named(LuFault::Refused(refused))) => Ok(Factored::Unfit(refused)),
        Err(Fault::Named(LuFault::Singular { place: _ })) => unreachable!(),
    }
}

/// The span of the bound at which one variable stands; `None` where it is basic or at 0.
///
/// # Errors
///
/// `OutOfMemory` alone.
fn bound_span<L>(
    alloc: Global,
    factored: &Factored,
    columns: &[SpVec],
    bounds: &[Bounds],
    head: &[u32],
    stand: Stand,
    values: &[Frac],
    v: usize,
    steps: &mut Steps<L>,
) -> Result<Option<Span>, OutOfMemory>
    requires variable { v < length columns.now }
    requires columns { length columns.now ≡ length bounds.now }
    requires factor { IsFactoredBy factored.now (length head.now) }
    requires few { length head.now < 2 ^ 32 }
    requires heights { (j : ℕ) → j < length columns.now → length (slice_index_or columns.now j []) ≡ length head.now }
    requires values { length values.now ≡ length head.now }
    requires known { All (λ j. j < length bounds.now) head.now }
    ensures { IfOk result (λ span. span ≡ bound_span_at (elimination_of factored.now) columns.now bounds.now head.now values.now v stand) }
{
    let own = match stand {
        Stand::Lower => value_or_zero(bounds[v].low),
        Stand::Upper => value_or_zero(bounds[v].high),
        _ => return Ok(None),
    };
    let span = factored_span(
        alloc,
        factored,
        bounds,
        head,
        values,
        own,
        &columns[v],
        steps,
    )?;
    Ok(Some(span))
}

/// The spans of the bounds at which the variables stand, by what the final basis was eliminated to.
///
/// # Errors
///
/// `OutOfMemory` alone.
pub(crate) fn spans_by<L>(
    alloc: Global,
    factored: &Factored,
    columns: &[SpVec],
    bounds: &[Bounds],
    head: &[u32],
    stands: &[Stand],
    values: &[Frac],
    steps: &mut Steps<L>,
) -> Result<Vec<Option<Span>>, OutOfMemory>
    requires columns { length columns.now ≡ length bounds.now }
    requires stands { length stands.now ≡ length columns.now }
    requires factor { IsFactoredBy factored.now (length head.now) }
    requires few { length head.now < 2 ^ 32 }
    requires heights { (j : ℕ) → j < length columns.now → length (slice_index_or columns.now j []) ≡ length head.now }
    requires values { length values.now ≡ length head.now }
    requires known { All (λ j. j < length bounds.now) head.now }
    ensures { IfOk result (λ spans. spans.items ≡ bound_spans_at (elimination_of factored.now) columns.now bounds.now head.now stands.now values.now) }
{
    let mut out = Vec::new(alloc);
    for v in 0..columns.len() {
        let span = bound_span(
            alloc, factored, columns, bounds, head, stands[v], values, v, steps,
        )?;
        out.push(span)?;
    }
    Ok(out)
}

/// The spans of the bounds at which the variables stand, ascending; `None` where one is basic or at 0. Bounds, columns and
/// stands go by variable, values by place. (Vanderbei 2020, section 7.1.)
///
/// # Errors
///
/// `OutOfMemory` alone.
pub(crate) fn bound_spans_by<L>(
    alloc: Global,
    columns: &[SpVec],
    bounds: &[Bounds],
    head: &[u32],
    stands: &[Stand],
    values: &[Frac],
    steps: &mut Steps<L>,
) -> Result<Vec<Option<Span>>, OutOfMemory>
    requires columns { length columns.now ≡ length bounds.now }
    requires stands { length stands.now ≡ length columns.now }
    requires few { length head.now < 2 ^ 32 }
    requires heights { (j : ℕ) → j < length columns.now → length (slice_index_or columns.now j []) ≡ length head.now }
    requires values { length values.now ≡ length head.now }
    requires known { All (λ j. j < length columns.now) head.now }
    requires regular { IsRegular (length head.now) (basis_columns columns.now head.now) }
    ensures { IfOk result (λ spans. spans.items ≡ bound_spans_at (elimination_script (matrix_of columns.now head.now)) columns.now bounds.now head.now stands.now values.now) }
{
    let factored = factored(alloc, columns, head, steps)?;
    spans_by(
        alloc, &factored, columns, bounds, head, stands, values, steps,
    )
}
