//! The sums of a slice's variables, row after row of the matrix.

ghost use Rattle.std.specs.Prelude.{◌≡◌, ◌<◌, ◌≤◌, ◌+◌, ℕ, length, drop, replicate, pos, Result, IfOk};
ghost use Rattle.pami_algebra.specs.Fraction.{Fraction};
ghost use Rattle.pami_algebra.specs.Operations.{of_int};
ghost use Rattle.pami_frac.specs.declared.arithmetic.Refused.{Refused};
ghost use Rattle.pami_method.specs.Scripts.{is_nonbasic as the_is_nonbasic};
ghost use Rattle.pami_script.specs.Dense.{Rising};
ghost use Rattle.pami_price.specs.Slices.{column_at};
ghost use Rattle.pami_price.specs.Sums.{AreSums, AreSliceSums, AreFrom, limit_of, with_row};

use pami_frac::{Entry, Frac, OutOfMemory};
use pami_script::plain::add_product;
use pami_vec::{RowWise, SpVec, Stand, Stop};
use std::alloc::Global;

/// The sums of the variables of a slice, by distance from its first variable.
///
/// Where a sum was refused, `stop` is the least such variable with the first operation that doesn't fit there: a refusal met
/// earlier, at a later variable, gives way to it. The sums of that variable and of the later ones are then of no use.
#[derive(Drop)]
pub(crate) struct Sums {
    pub(crate) sums: Vec<Frac>,
    pub(crate) stop: Option<Stop>,
}

/// Is a variable that stands so out of the basis?
pub(crate) fn is_nonbasic(stand: Stand) -> bool
    ensures { result ≡ the_is_nonbasic stand }
{
    match stand {
        Stand::Basic => false,
        _ => true,
    }
}

/// The index of the first entry whose place isn't below `first`, by halving.
fn first_index(entries: &[Entry], first: usize) -> usize
    ensures { (high : ℕ) → first ≤ high → Rising 0 high entries.now → AreFrom first high entries.now (drop result entries.now) }
{
    let mut low = 0;
    let mut high = entries.len();
    while low < high {
        let middle = low + (high - low) / 2;
        if (entries[middle].place as usize) < first {
            low = middle + 1;
        } else {
            high = middle;
        }
    }
    low
}

/// The variables below this one are still summed up.
fn limit(stop: &Option<Stop>, last: usize) -> usize
    ensures { result ≡ limit_of stop.now last }
{
    match stop {
        Some(stop) => stop.place as usize,
        None => last,
    }
}

/// Adds a row of the matrix times a factor to the sums of the variables from `first` to below `last`. The row's entries go by
/// variable. It answers the least variable whose sum is refused, now or before.
fn add_row(
    sums: &mut [Frac],
    before: Option<Stop>,
    first: usize,
    last: usize,
    stands: &[Stand],
    factor: Frac,
    entries: &[Entry],
) -> Option<Stop>
    requires size { first + length sums.old ≡ last }
    requires few { last ≤ length stands.now }
    requires rising { Rising 0 (length stands.now) entries.now }
    requires stop { limit_of before last ≤ last }
    ensures sums { (rest : ℕ → Fraction → Result Fraction Refused) (outcome : ℕ → Result Fraction Refused)
        → AreSums stands.now first last (with_row factor entries.now rest) outcome sums.old before
        → AreSums stands.now first last rest outcome sums.new result }
    ensures as_many { length sums.new ≡ length sums.old }
    ensures stop { limit_of result last ≤ last }
{
    let limit = limit(&before, last);
    let mut k = first_index(entries, first);
    while k < entries.len() && (entries[k].place as usize) < limit {
        let entry = entries[k];
        let v = entry.place as usize;
        if is_nonbasic(stands[v]) {
            match add_product(sums[v - first], factor, entry.value) {
                Ok(sum) => sums[v - first] = sum,
                // What is left of the row belongs to later variables.
                Err(refused) => {
                    return Some(Stop {
                        place: entry.place,
                        refused,
                    });
                }
            }
        }
        k += 1;
    }
    before
}

/// As many zeros.
fn zeros(alloc: Global, count: usize) -> Result<Vec<Frac>, OutOfMemory>
    ensures { IfOk result (λ v. v.items ≡ replicate count (of_int (pos 0))) }
{
    let mut out = Vec::with_capacity(alloc, count)?;
    for k in 0..count {
        out.push(Frac::zero())?;
    }
    Ok(out)
}

/// The sums of the variables from `first` to below `last` over all rows of nonzero rho, rising.
///
/// # Errors
///
/// `OutOfMemory` alone.
pub(crate) fn slice_sums(
    alloc: Global,
    by_row: &RowWise,
    stands: &[Stand],
    rho: &SpVec,
    first: usize,
    last: usize,
) -> Result<Sums, OutOfMemory>
    requires same { length by_row.now ≡ length stands.now }
    requires rows { (v : ℕ) → v < length by_row.now → length (column_at by_row.now v) ≡ length rho.now }
    requires order { first ≤ last }
    requires few { last ≤ length stands.now }
    ensures sums { IfOk result (λ s. AreSliceSums by_row.now stands.now rho.now first last s.sums.items s.stop) }
    ensures size { IfOk result (λ s. first + length s.sums.items ≡ last) }
{
    let mut sums = zeros(alloc, last - first)?;
    let mut stop = None;
    let entries = rho.entries();
    for entry in entries {
        let row = by_row.row(entry.place);
        stop = add_row(
            sums.as_mut_slice(),
            stop,
            first,
            last,
            stands,
            entry.value,
            row,
        );
    }
    Ok(Sums { sums, stop })
}
