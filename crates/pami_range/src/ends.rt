//! The ends of a span, from the entries of a row or of a column.

ghost use Rattle.std.specs.Prelude.{◌≡◌, ◌<◌, length, All};
ghost use Rattle.pami_script.specs.Dense.{Rising};
ghost use Rattle.pami_range.specs.Lists.{tightest_cost, tightest_bound, end_by};

use crate::one::{bound_step, cost_step, end};
use crate::span::{End, Span};
use pami_frac::{Bounds, Entry, Frac, Refused};
use pami_vec::{Side, Stand};

/// The tightest bound of a cost's change from this side. Entries are those of the row, by variable.
fn tightest_cost(
    side: Side,
    bounds: &[Bounds],
    stands: &[Stand],
    reduced: &[Frac],
    entries: &[Entry],
) -> Result<Option<Frac>, Refused>
    requires stands { length stands.now ≡ length bounds.now }
    requires reduced { length reduced.now ≡ length bounds.now }
    requires entries { Rising 0 (length bounds.now) entries.now }
    ensures { result ≡ tightest_cost side bounds.now stands.now reduced.now entries.now }
{
    let mut so_far = None;
    for entry in entries {
        let v = entry.place as usize;
        so_far = match cost_step(side, &bounds[v], stands[v], reduced[v], entry.value, so_far) {
            Ok(next) => next,
            Err(refused) => return Err(refused),
        };
    }
    Ok(so_far)
}

/// The tightest bound of a bound's change from this side. Entries are those of the column, by place.
fn tightest_bound(
    side: Side,
    bounds: &[Bounds],
    head: &[u32],
    values: &[Frac],
    entries: &[Entry],
) -> Result<Option<Frac>, Refused>
    requires values { length values.now ≡ length head.now }
    requires known { All (λ v. v < length bounds.now) head.now }
    requires entries { Rising 0 (length head.now) entries.now }
    ensures { result ≡ tightest_bound side bounds.now head.now values.now entries.now }
{
    let mut so_far = None;
    for entry in entries {
        let p = entry.place as usize;
        let v = head[p] as usize;
        so_far = match bound_step(side, &bounds[v], values[p], entry.value, so_far) {
            Ok(next) => next,
            Err(refused) => return Err(refused),
        };
    }
    Ok(so_far)
}

/// One end of the span of a basic column's cost.
pub(crate) fn cost_end(
    side: Side,
    bounds: &[Bounds],
    stands: &[Stand],
    reduced: &[Frac],
    entries: &[Entry],
    own: Frac,
) -> End
    requires stands { length stands.now ≡ length bounds.now }
    requires reduced { length reduced.now ≡ length bounds.now }
    requires entries { Rising 0 (length bounds.now) entries.now }
    ensures { result ≡ end_by own (tightest_cost side bounds.now stands.now reduced.now entries.now) }
{
    match tightest_cost(side, bounds, stands, reduced, entries) {
        Ok(change) => end(own, change),
        Err(refused) => End::Wide(refused),
    }
}

/// One end of the span of a bound.
pub(crate) fn bound_end(
    side: Side,
    bounds: &[Bounds],
    head: &[u32],
    values: &[Frac],
    entries: &[Entry],
    own: Frac,
) -> End
    requires values { length values.now ≡ length head.now }
    requires known { All (λ v. v < length bounds.now) head.now }
    requires entries { Rising 0 (length head.now) entries.now }
    ensures { result ≡ end_by own (tightest_bound side bounds.now head.now values.now entries.now) }
{
    match tightest_bound(side, bounds, head, values, entries) {
        Ok(change) => end(own, change),
        Err(refused) => End::Wide(refused),
    }
}
