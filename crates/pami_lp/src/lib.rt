//! The reader of CPLEX LP files: the model that the bytes are a text of, or the first thing that is wrong with them,
//! with its line.
//!
//! Stands on `pami_lp_text`, which cuts a text into tokens and says what each is, and on `pami_model`, whose builder
//! takes rows, columns and entries. The layers above may rely on `read_lp` answering a model exactly where the tokens
//! are a file of the grammar that gives it, and else exactly the first fault; and on a text having one model or one
//! first fault. The grammar stands as trees in `specs/Grammar.antt`, what a tree gives in `specs/Meaning.antt` and,
//! gathered from all its parts, in `specs/Gather.antt`, texts and first faults in `specs/Lp.antt`. The machine that
//! takes tokens (`role`, `reader`) is inner.
#![tactic(auto)]

mod draft;
mod kind;
mod laws;
mod read;
mod reader;
mod role;
mod sums;
#[cfg(test)]
mod tests;
mod value;

pub use kind::{Move, Place, Role, Section};
pub use laws::{
    bounds_are_effects, costs_are_sums, entries_are_sums, files_are_gathered, model_or_fault,
    names_are_unbroken, not_model_and_fault, one_first_fault, one_model,
};
pub use read::read_lp;
