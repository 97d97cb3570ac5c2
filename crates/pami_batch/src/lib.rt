//! One batch, run on one thread: its tasks in the order in which they count.
//!
//! Stands on `pami_minor` for the inside of the batch, on `pami_factor` for its solves and on `pami_log` for what is told of
//! it. The layer above relies on `run_batch`: its outcome is that of the batch of `pami_method`, in which each pivot is
//! taken on the whole form, and of the list of its scripts.
#![tactic(auto)]

mod collecting;
#[cfg(test)]
mod drawn_cases;
#[cfg(test)]
mod drawn_tests;
mod faults;
#[cfg(test)]
mod known_tests;
mod minors;
mod minors_parts;
mod minors_turn;
mod outcome;
mod run;

pub use outcome::Outcome;
pub use run::run_batch;
