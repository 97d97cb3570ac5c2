//! The dual ratio test with bound flipping: which variable enters where a row leaves.
//!
//! Stands on `pami_vec` for its plain types and on `pami_method`, whose script it follows. The layers above may rely on
//! `ratio_walk` finding what the theory's walk finds on the whole form, with the flips in their order, or on the first
//! operation of that script that doesn't fit.
#![tactic(auto)]

mod candidate;
mod first;
mod sorted;
#[cfg(test)]
mod tests;
mod walk;
pub mod walk_laws;

pub use pami_vec::{Side, Violation};
pub use walk::{Walk, ratio_walk};
