//! The tokens of LP texts and their classes.
//!
//! Stands on `pami_edge`, which cuts the lines, and on `pami_model`. The layers above may rely on `tokens` cutting each
//! line into its longest lexemes, with a byte of none as a token of its own, and on `class_of` saying what a token is
//! by itself and the text of the token after it: a number, a name, a reserved word, a section word, a relation, a
//! sign, a colon, or a byte of no token.
#![tactic(auto)]

mod class;
mod kind;
mod scan;
#[cfg(test)]
mod tests;
mod token;

pub use class::class_of;
pub use kind::{Class, Relation, Scan};
pub use token::{Token, tokens};
