//! A matrix by its rows.

ghost use Rattle.std.specs.Prelude.{◌≡◌, ◌<◌, ◌^◌, length, slice_index_or, [], IfOk};
ghost use Rattle.std.specs.List.{range_with_len};
ghost use Rattle.pami_vec.specs.Turned.{AreEven, AreRowOf};

use crate::gather::rows_of_columns;
use crate::vector::SpVec;
use pami_frac::{Entry, OutOfMemory};
use std::alloc::Global;
use std::marker::Model;

/// A matrix of which the nonzero members are kept row by row, so that a row can be walked.
///
/// A contract sees the list of the columns from which it was made.
#[derive(Debug, Drop)]
pub struct RowWise {
    count: u32,
    rows: Vec<SpVec>,
}

impl Model for RowWise {
    ghost use Rattle.std.specs.Prelude.{List};
    ghost use Rattle.std.specs.Coded.{coded_list};
    ghost use Rattle.pami_algebra.specs.Fraction.{Fraction};
    ghost use Rattle.pami_frac.specs.Stored.{fraction_code};
    ghost use Rattle.pami_vec.specs.Turned.{turned, AreLong};

    ghost Value = { List (List Fraction) };

    ghost coded = { coded_list (coded_list fraction_code) };

    ghost view = { λ r. turned r.count r.rows.items };

    ghost invariant = { λ r. AreLong r.count r.rows.items };
}

/// The numbers below a count, ascending.
fn ascending(alloc: Global, count: u32) -> Result<Vec<u32>, OutOfMemory>
    ensures { IfOk result (λ numbers. numbers.items ≡ range_with_len 0 count) }
{
    let mut numbers = Vec::with_capacity(alloc, count as usize)?;
    for number in 0..count {
        numbers.push(number)?;
    }
    Ok(numbers)
}

/// The length of the first column, 0 where there is none.
fn height_of(columns: &[SpVec]) -> u32
    ensures { result ≡ length (slice_index_or columns.now 0 []) }
{
    if columns.is_empty() {
        return 0;
    }
    columns[0].len()
}

impl RowWise {
    /// The matrix of these columns, which all have one length, at a cost of the rows, the columns and their entries.
    ///
    /// # Errors
    ///
    /// `OutOfMemory` alone.
    pub fn of(alloc: Global, columns: &[SpVec]) -> Result<RowWise, OutOfMemory>
        requires few { length columns.now < 2 ^ 32 }
        requires even { AreEven columns.now }
        ensures { IfOk result (λ r. r ≡ columns.now) }
    {
        let count = columns.len() as u32;
        let head = ascending(alloc, count)?;
        let rows = rows_of_columns(alloc, height_of(columns), columns, &head)?;
        Ok(RowWise { count, rows })
    }

    /// The count of the columns.
    pub fn count(&self) -> u32
        ensures { result ≡ length self.now }
    {
        self.count
    }

    /// The entries of a row, by rising column. A row past the last one has none.
    pub fn row(&self, row: u32) -> &[Entry]
        ensures { AreRowOf self.now row result.now }
    {
        let row = row as usize;
        if row < self.rows.len() {
            self.rows[row].entries()
        } else {
            &[]
        }
    }
}
