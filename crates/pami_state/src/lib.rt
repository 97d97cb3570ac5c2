//! The state of the dual simplex method: a basis with its values, reduced costs and weights, and the state at the start.
//!
//! Stands on `pami_vec`, and states each call by the bases of `pami_theory` and the scripts of `pami_method`. The layers
//! above may rely on the starting state being the starting basis solved afresh, or on the first operation of its script
//! that doesn't fit, and on reading of any state whether it is dual feasible and what value a variable has.
#![tactic(auto)]

pub mod columns_laws;
mod standing;
mod starting;
mod state;
pub mod state_laws;
#[cfg(test)]
mod tests;

pub use starting::start;
pub use state::{BatchEnd, State};
