//! The square matrix of a basis, by rows.

ghost use Rattle.std.specs.Prelude.{◌≡◌, ◌<◌, ◌^◌, ℕ, length, slice_index_or, [], All, IfOk};
ghost use Rattle.pami_factoring.specs.Factor.{columns_at, row_of, matrix_of};

use pami_frac::{FracList, OutOfMemory};
use pami_vec::SpVec;
use std::alloc::Global;

/// One row of the matrix, by place.
fn basis_row(
    alloc: Global,
    columns: &[SpVec],
    head: &[u32],
    row: u32,
) -> Result<FracList, OutOfMemory>
    requires heights { (j : ℕ) → j < length columns.now → row < length (slice_index_or columns.now j []) }
    requires known { All (λ j. j < length columns.now) head.now }
    ensures { IfOk result (λ r. r ≡ row_of (columns_at columns.now head.now) row) }
{
    let mut out = Vec::new(alloc);
    for j in head {
        out.push(columns[*j as usize].at(row))?;
    }
    Ok(FracList::from_vec(out))
}

/// The rows of the matrix whose column at each place is the one that the head names there.
#[tactic(auto, unfolding(pami_factoring::specs::Factor::matrix_of))]
pub(crate) fn basis_rows(
    alloc: Global,
    columns: &[SpVec],
    head: &[u32],
) -> Result<Vec<FracList>, OutOfMemory>
    requires few { length head.now < 2 ^ 32 }
    requires heights { (j : ℕ) → j < length columns.now → length (slice_index_or columns.now j []) ≡ length head.now }
    requires known { All (λ j. j < length columns.now) head.now }
    ensures { IfOk result (λ rows. rows.items ≡ matrix_of columns.now head.now) }
{
    let mut out = Vec::new(alloc);
    for row in 0..head.len() {
        out.push(basis_row(alloc, columns, head, row as u32)?)?;
    }
    Ok(out)
}
