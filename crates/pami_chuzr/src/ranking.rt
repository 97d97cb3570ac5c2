//! The first rows in the order of choice, one place after the other.

ghost use Rattle.std.specs.Prelude.{◌≡◌, ◌≤◌, length, map, take, IfOk, vec_len};
ghost use Rattle.std.specs.List.{insert};
ghost use Rattle.pami_theory.specs.Order.{put_in};
ghost use Rattle.pami_chuzr.specs.Choice.{row_by, is_before, chosen_row};

use crate::row::{ChosenRow, RankedRow};
use pami_frac::OutOfMemory;
use std::alloc::Global;

/// The index of the first row that this one comes before.
fn index_for(rows: &[RankedRow], row: &RankedRow) -> usize
    ensures within { result ≤ length rows.now }
    ensures place { insert rows.now result row.now ≡ put_in is_before row.now rows.now }
{
    for (i, other) in rows.iter().enumerate() {
        if row.comes_before(other) {
            return i;
        }
    }
    rows.len()
}

/// Puts a row at its place among at most `most` rows, of which the last one goes where they were that many.
///
/// # Errors
///
/// `OutOfMemory` alone.
pub(crate) fn rank(
    ranked: &mut Vec<RankedRow>,
    row: RankedRow,
    most: usize,
) -> Result<(), OutOfMemory>
    requires { vec_len ranked.old ≤ most }
    ensures rows { IfOk result (λ _. ranked.new.items ≡ take most (put_in is_before row ranked.old.items)) }
    ensures few { IfOk result (λ _. vec_len ranked.new ≤ most) }
{
    let index = index_for(ranked.as_slice(), &row);
    if index < most {
        ranked.insert(index, row)?;
        ranked.truncate(most);
    }
    Ok(())
}

/// What is told of the rows.
///
/// # Errors
///
/// `OutOfMemory` alone.
pub(crate) fn told(alloc: Global, rows: &[RankedRow]) -> Result<Vec<ChosenRow>, OutOfMemory>
    ensures { IfOk result (λ told. told.items ≡ map chosen_row (map row_by rows.now)) }
{
    let mut out = Vec::with_capacity(alloc, rows.len())?;
    for row in rows {
        out.push(row.chosen())?;
    }
    Ok(out)
}
