//! The lists that a model is made of; a contract sees each as a list.

use pami_frac::{Bounds, Entry, Frac, ListOf};

/// A name, as its bytes.
pub type Name = ListOf<u8>;

/// The entries of a column, each at its row.
pub type EntryList = ListOf<Entry>;

/// A row: its name, and the bounds of its value.
#[derive(Debug, Drop)]
pub struct Row {
    pub name: Name,
    pub bounds: Bounds,
}

/// A column: its name, its cost in the file's own sense, the bounds of its value and its entries by row.
#[derive(Debug, Drop)]
pub struct Column {
    pub name: Name,
    pub cost: Frac,
    pub bounds: Bounds,
    pub entries: EntryList,
}

/// The rows of a model.
pub type RowList = ListOf<Row>;

/// The columns of a model.
pub type ColumnList = ListOf<Column>;
