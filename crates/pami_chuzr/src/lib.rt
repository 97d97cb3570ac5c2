//! Row choice: which infeasible places of the basis a major iteration works on.
//!
//! Stands on `pami_devex` for the merit of a place, and on `pami_method`, whose scripts say which operations there are and
//! in which order. The layers above may rely on `violation` being exact or refused, and on `choose` giving the first rows
//! in the theory's order of choice, or the first refused operation over rising places.
#![tactic(auto)]

mod choice;
pub mod choice_laws;
mod outside;
mod ranking;
mod row;
#[cfg(test)]
mod tests;

pub use choice::choose;
pub use outside::violation;
pub use pami_vec::{Side, Violation};
pub use row::ChosenRow;
