//! The rows of a matrix that is given by its columns.

ghost use Rattle.std.specs.Prelude.{◌≡◌, ◌<◌, ◌^◌, ℕ, length, replicate, slice_index_or, [], All, IfOk};
ghost use Rattle.pami_factoring.specs.Factor.{columns_at, rows_from};
ghost use Rattle.pami_vec.specs.Gathered.{AddsColumn, AreGathered};

use crate::row_entries::RowEntries;
use crate::vector::SpVec;
use pami_frac::{Entry, OutOfMemory};
use std::alloc::Global;

/// Rows without entries.
fn empty_rows(alloc: Global, count: usize) -> Result<Vec<RowEntries>, OutOfMemory>
    ensures { IfOk result (λ lists. lists.items ≡ replicate count []) }
{
    let mut lists = Vec::with_capacity(alloc, count)?;
    for row in 0..count {
        lists.push(RowEntries::empty(alloc))?;
    }
    Ok(lists)
}

/// Puts each entry of the column at a place at the end of its row.
fn put_column(lists: &mut Vec<RowEntries>, place: u32, column: &SpVec) -> Result<(), OutOfMemory>
    requires { length column.now ≡ length lists.old.items }
    ensures { IfOk result (λ _. AddsColumn place column.now lists.old.items lists.new.items) }
{
    for entry in column.entries() {
        let value = entry.value;
        lists[entry.place as usize].push(Entry { place, value })?;
    }
    Ok(())
}

/// The entries of each row, by rising place: the columns are gone through in the head's order.
fn gather_rows(
    alloc: Global,
    height: u32,
    columns: &[SpVec],
    head: &[u32],
) -> Result<Vec<RowEntries>, OutOfMemory>
    requires few { length head.now < 2 ^ 32 }
    requires heights { (j : ℕ) → j < length columns.now → length (slice_index_or columns.now j []) ≡ height }
    requires known { All (λ j. j < length columns.now) head.now }
    ensures { IfOk result (λ lists. AreGathered (columns_at columns.now head.now) height (length head.now) lists.items) }
{
    let mut lists = empty_rows(alloc, height as usize)?;
    for (place, j) in head.iter().enumerate() {
        put_column(&mut lists, place as u32, &columns[*j as usize])?;
    }
    Ok(lists)
}

/// The rows of the matrix whose column at each place is the one that the head names there, at a cost of the rows, the head
/// and the entries of its columns. `height` is the length of each column, so there are as many rows.
///
/// # Errors
///
/// `OutOfMemory` alone.
pub fn rows_of_columns(
    alloc: Global,
    height: u32,
    columns: &[SpVec],
    head: &[u32],
) -> Result<Vec<SpVec>, OutOfMemory>
    requires few { length head.now < 2 ^ 32 }
    requires heights { (j : ℕ) → j < length columns.now → length (slice_index_or columns.now j []) ≡ height }
    requires known { All (λ j. j < length columns.now) head.now }
    ensures { IfOk result (λ rows. rows.items ≡ rows_from height 0 (columns_at columns.now head.now)) }
{
    let lists = gather_rows(alloc, height, columns, head)?;
    let places = head.len() as u32;
    let mut rows = Vec::with_capacity(alloc, height as usize)?;
    for row in 0..lists.len() {
        rows.push(SpVec::from_entries(alloc, places, lists[row].as_slice())?)?;
    }
    Ok(rows)
}
