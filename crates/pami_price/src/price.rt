//! The entries of one slice, and of all slices one after the other.

ghost use Rattle.std.specs.Prelude.{◌≡◌, ◌<◌, ◌^◌, ◌*◌, ◌+◌, ℕ, length, IfOk};
ghost use Rattle.pami_theory.specs.Form.{Form};
ghost use Rattle.pami_theory.specs.Basis.{Basis};
ghost use Rattle.pami_theory.specs.Ratio.{row_entry};
ghost use Rattle.pami_method.specs.Scripts.{nonbasic_in};
ghost use Rattle.pami_price.specs.Agreement.{AreListed, nonzero_entries, all_nonbasic};
ghost use Rattle.pami_price.specs.Slices.{column_at, slice_size as the_slice_size, slice_script, row_script};
ghost use Rattle.pami_frac.specs.Answers.{FollowsBy};
ghost use Rattle.pami_price.specs.Follow.{FollowsOnto, in_slice as the_in_slice};

use crate::sums::{Sums, is_nonbasic, slice_sums};
use pami_frac::{Entry, Fault, Refused};
use pami_vec::{RowWise, SpVec, Stand};
use std::alloc::Global;

/// A slice and its first operation that doesn't fit.
#[derive(Clone, Copy, Debug, PartialEq, Eq)]
pub struct SliceRefused {
    pub slice: u32,
    pub refused: Refused,
}

/// How many variables a slice has.
fn slice_size(count: usize, slice: usize) -> usize
    requires few { count < 2 ^ 32 }
    requires exists { 64 * slice < count }
    ensures value { result ≡ the_slice_size count slice }
    ensures within { 64 * slice + result < count + 1 }
{
    let left = count - 64 * slice;
    if 64 < left { 64 } else { left }
}

/// Puts the entries of a slice behind those that are there.
fn price_onto(
    alloc: Global,
    out: &mut Vec<Entry>,
    by_row: &RowWise,
    stands: &[Stand],
    rho: &SpVec,
    slice: usize,
) -> Result<(), Fault<Refused>>
    requires same { length by_row.now ≡ length stands.now }
    requires rows { (v : ℕ) → v < length by_row.now → length (column_at by_row.now v) ≡ length rho.now }
    requires few { length by_row.now < 2 ^ 32 }
    requires exists { 64 * slice < length by_row.now }
    ensures { FollowsOnto (slice_script by_row.now stands.now rho.now slice) out.old.items out.new.items result }
{
    let first = 64 * slice;
    let last = first + slice_size(by_row.count() as usize, slice);
    let Sums { sums, stop } = slice_sums(alloc, by_row, stands, rho, first, last)?;
    if let Some(stop) = stop {
        return Err(Fault::Named(stop.refused));
    }
    for v in first..last {
        if is_nonbasic(stands[v]) {
            let alpha = sums[v - first];
            if !alpha.is_zero() {
                out.push(Entry {
                    place: v as u32,
                    value: alpha,
                })?;
            }
        }
    }
    Ok(())
}

/// `price_slice`, by its script alone, so that no loop is proved with the other clause.
fn slice_entries(
    alloc: Global,
    by_row: &RowWise,
    stands: &[Stand],
    rho: &SpVec,
    slice: u32,
) -> Result<Vec<Entry>, Fault<Refused>>
    requires same { length by_row.now ≡ length stands.now }
    requires rows { (v : ℕ) → v < length by_row.now → length (column_at by_row.now v) ≡ length rho.now }
    requires few { length by_row.now < 2 ^ 32 }
    requires exists { 64 * slice < length by_row.now }
    ensures { FollowsBy (λ es. es.items) (slice_script by_row.now stands.now rho.now slice) result }
{
    let mut out = Vec::new(alloc);
    price_onto(alloc, &mut out, by_row, stands, rho, slice as usize)?;
    Ok(out)
}

/// The entries of the pivot row in one slice, the variables 64 `slice` .. 64 `slice` + 63 as far as there are so many: for
/// each nonbasic one `rho` times its column, zeros left out, ascending. Stands go by variable, `rho` by row. The matrix is
/// walked over the rows where `rho` isn't 0. (Koberstein 2005, section 3.2.)
///
/// # Errors
///
/// `Named` exactly where an operation of these products doesn't fit: that of the least variable, and there of the least row,
/// whatever row the walk met first. `OutOfMemory` where memory runs out.
pub fn price_slice(
    alloc: Global,
    by_row: &RowWise,
    stands: &[Stand],
    rho: &SpVec,
    slice: u32,
) -> Result<Vec<Entry>, Fault<Refused>>
    requires same { length by_row.now ≡ length stands.now }
    requires rows { (v : ℕ) → v < length by_row.now → length (column_at by_row.now v) ≡ length rho.now }
    requires few { length by_row.now < 2 ^ 32 }
    requires exists { 64 * slice < length by_row.now }
    ensures script { FollowsBy (λ es. es.items) (slice_script by_row.now stands.now rho.now slice) result }
    // On a form and a basis that have these columns and stands, the entries are those of the row at the slice's variables.
    ensures entries { (f : Form) (b : Basis) → AreListed f b by_row.now stands.now → length rho.now ≡ f.rows
        → IfOk result (λ es. es.items ≡ nonzero_entries (row_entry f rho.now) (nonbasic_in f b slice)) }
{
    slice_entries(alloc, by_row, stands, rho, slice)
}

/// The fault of a row for the fault of one of its slices.
fn in_slice(slice: u32, fault: Fault<Refused>) -> Fault<SliceRefused>
    ensures { result ≡ the_in_slice slice fault }
{
    match fault {
        Fault::Named(refused) => Fault::Named(SliceRefused { slice, refused }),
        Fault::OutOfMemory => Fault::OutOfMemory,
    }
}

/// `price_all`, by its script alone, so that no loop is proved with the other clause.
fn all_entries(
    alloc: Global,
    by_row: &RowWise,
    stands: &[Stand],
    rho: &SpVec,
) -> Result<Vec<Entry>, Fault<SliceRefused>>
    requires same { length by_row.now ≡ length stands.now }
    requires rows { (v : ℕ) → v < length by_row.now → length (column_at by_row.now v) ≡ length rho.now }
    requires few { length by_row.now < 2 ^ 32 }
    ensures { FollowsBy (λ es. es.items) (row_script by_row.now stands.now rho.now) result }
{
    let mut out = Vec::new(alloc);
    for slice in 0..(by_row.count() as usize + 63) / 64 {
        match price_onto(alloc, &mut out, by_row, stands, rho, slice) {
            Ok(()) => {}
            Err(fault) => return Err(in_slice(slice as u32, fault)),
        }
    }
    Ok(out)
}

/// The entries of the whole pivot row, all slices ascending: for each nonbasic variable `rho` times its column, zeros
/// left out. Stands go by variable, `rho` by row.
///
/// # Errors
///
/// `Named` exactly where an operation of some slice doesn't fit: the first such, with the first slice that meets one.
/// `OutOfMemory` where memory runs out.
pub fn price_all(
    alloc: Global,
    by_row: &RowWise,
    stands: &[Stand],
    rho: &SpVec,
) -> Result<Vec<Entry>, Fault<SliceRefused>>
    requires same { length by_row.now ≡ length stands.now }
    requires rows { (v : ℕ) → v < length by_row.now → length (column_at by_row.now v) ≡ length rho.now }
    requires few { length by_row.now < 2 ^ 32 }
    ensures script { FollowsBy (λ es. es.items) (row_script by_row.now stands.now rho.now) result }
    // On a form and a basis that have these columns and stands, the entries are those of the row at all nonbasic variables.
    ensures entries { (f : Form) (b : Basis) → AreListed f b by_row.now stands.now → length rho.now ≡ f.rows
        → IfOk result (λ es. es.items ≡ nonzero_entries (row_entry f rho.now) (all_nonbasic f b)) }
{
    all_entries(alloc, by_row, stands, rho)
}
