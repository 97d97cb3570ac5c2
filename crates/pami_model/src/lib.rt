//! A linear program as a file states it, and the builder that makes one row, column and entry at a time.
//!
//! Stands on `pami_frac`. The layers above may rely on a `Model` keeping that names are distinct, that entries rise
//! by row and aren't 0, that no bounds are crossed and that its counts are within the limits; and on a `Builder`
//! refusing exactly what would break this, with its state as before. The readers of model files share what a first
//! fault is, and how numbers and a builder's refusals are judged.
#![tactic(auto)]

mod builder;
mod fault;
mod file;
mod limit;
mod list;
mod model;
#[cfg(test)]
mod tests;

pub use builder::Builder;
pub use fault::{BuildFault, Crossed, FileFault, FileKind, What};
pub use file::{file_fault, one_first_fault, read_limit, read_number};
pub use limit::{BYTE_LIMIT, NAME_LIMIT};
pub use list::{Column, ColumnList, EntryList, Name, Row, RowList};
pub use model::{Model, Sense};
