//! The model.

ghost use Rattle.std.specs.Prelude.{◌≡◌, ◌≤◌, ℕ, length, sum_by};
ghost use Rattle.pami_model.specs.Rules.{AreColumns, AreRows, stored_count};

use crate::list::{ColumnList, RowList};
use pami_frac::Frac;

/// Whether the objective is to be made small or large.
#[derive(Clone, Copy, Debug, PartialEq, Eq)]
pub enum Sense {
    Min,
    Max,
}

/// A linear program as a file states it: costs, constant and objective are in the file's own sense.
#[derive(Debug, Drop)]
pub struct Model {
    pub sense: Sense,
    pub constant: Frac,
    pub rows: RowList,
    pub columns: ColumnList,
    ghost rows_kept: { AreRows rows },
    ghost columns_kept: { AreColumns (length rows) columns },
}
