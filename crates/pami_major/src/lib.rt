//! Majors over whole batches, and the walk that they make.
//!
//! Stands on `pami_chuzr` for the choice of rows, on `pami_lu` and `pami_factor` for the factor, on `pami_batch` for
//! what becomes of the chosen rows, on `pami_rollback` for a state that is given back, on `pami_state` for the state,
//! on `pami_form` for the form and on `pami_log` for what is told. The layer above relies on `drive`: from a state that
//! is dual feasible and solved afresh it is the walk of `pami_method`, with its events and its end. `drive` relies on
//! `major`, whose ends are those of one major of the method, at any batch and with any factor of the head.
#![tactic(auto)]

mod choose;
mod factors;
mod majors;
#[cfg(test)]
mod memory_tests;
#[cfg(test)]
mod tests;
mod walk;
mod within;

pub use majors::{MajorEnd, major};
pub use pami_method::{Mode, Options};
pub use walk::{WalkEnd, drive};
