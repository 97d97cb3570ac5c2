//! The reader of MPS files: the model that the bytes are a text of, or their first fault.
//!
//! Stands on `pami_model`, whose builder takes the rows, columns and entries, and on `pami_edge`, which cuts the
//! lines. The layers above may rely on `read_mps` answering a model of the text or its first fault, on one text having
//! one model or one first fault, and not both; what an MPS text is, and its first fault, stands in `specs/Mps.antt`,
//! rule by rule.
#![tactic(auto)]

mod bounds;
#[cfg(test)]
mod fault_tests;
mod kind;
#[cfg(test)]
mod limit_tests;
mod read;
mod reader;
#[cfg(test)]
mod tests;
mod text;
mod word;

pub use kind::{LimitKind, RowKind, Section, Sides, Told};
pub use read::{model_or_fault, names_are_unbroken, not_both, one_fault, one_model, read_mps};
