//! The square matrix of a basis, by rows and by places.

ghost use Rattle.std.specs.Prelude.{◌≡◌, ◌<◌, ◌^◌, ℕ, length, slice_index_or, [], All, IfOk};
ghost use Rattle.pami_factoring.specs.Factor.{matrix_of};
ghost use Rattle.pami_lu.specs.Members.{AreAll, places_of};

use crate::row_set::RowSet;
use pami_frac::OutOfMemory;
use pami_vec::{SpVec, rows_of_columns};
use std::alloc::Global;

/// The rows of the matrix whose column at each place is the one that the head names there.
#[tactic(auto, unfolding(pami_factoring::specs::Factor::matrix_of))]
pub(crate) fn basis_rows(
    alloc: Global,
    columns: &[SpVec],
    head: &[u32],
) -> Result<Vec<SpVec>, OutOfMemory>
    requires few { length head.now < 2 ^ 32 }
    requires heights { (j : ℕ) → j < length columns.now → length (slice_index_or columns.now j []) ≡ length head.now }
    requires known { All (λ j. j < length columns.now) head.now }
    ensures { IfOk result (λ rows. rows.items ≡ matrix_of columns.now head.now) }
{
    rows_of_columns(alloc, head.len() as u32, columns, head)
}

/// The rows that a column has an entry in.
fn rows_of_column(alloc: Global, column: &SpVec) -> Result<RowSet, OutOfMemory>
    ensures { IfOk result (λ s. s ≡ places_of column.now) }
{
    let entries = column.entries();
    let mut out = Vec::new(alloc);
    for entry in entries {
        out.push(entry.place)?;
    }
    Ok(RowSet::of(out))
}

/// For each place the rows with a nonzero there.
pub(crate) fn basis_members(
    alloc: Global,
    columns: &[SpVec],
    head: &[u32],
) -> Result<Vec<RowSet>, OutOfMemory>
    requires few { length head.now < 2 ^ 32 }
    requires heights { (j : ℕ) → j < length columns.now → length (slice_index_or columns.now j []) ≡ length head.now }
    requires known { All (λ j. j < length columns.now) head.now }
    ensures all { IfOk result (λ members. AreAll (matrix_of columns.now head.now) members.items) }
    ensures count { IfOk result (λ members. length members.items ≡ length (matrix_of columns.now head.now)) }
{
    let mut out = Vec::new(alloc);
    for j in head {
        out.push(rows_of_column(alloc, &columns[*j as usize])?)?;
    }
    Ok(out)
}
