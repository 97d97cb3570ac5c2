//! Scripts: lists of single operations on fractions, whose outcome is their value or the first operation that
//! doesn't fit, with both its operands.
//!
//! Stands on `pami_frac`, whose operations the steps are, and on `pami_linear` for the sums that a script's value is.
//! The layers above state each call by a script, may leave out every operation with a zero operand, and may rely on
//! the exact value of a script that isn't refused. But for the two plain programs of `plain`, each function has an
//! empty body, and its contract is a list of theorems about the definitions of `specs/`. The theorems on states of a
//! type of their own stand in `proofs/`, for every type; the contracts here say them of fractions and of lists of
//! fractions.
#![tactic(auto)]

pub mod dense_laws;
pub mod follows_laws;
pub mod list_laws;
pub mod plain;
pub mod script_laws;
#[cfg(test)]
mod tests;
pub mod value_laws;
