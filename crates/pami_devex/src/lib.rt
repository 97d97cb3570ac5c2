//! Dual Devex pricing in whole numbers: the merit of an infeasible place, and the weights behind a pivot.
//!
//! Stands on `pami_vec`, which reads entries, and on `pami_theory`, whose `merit` and `weights_after` each call is.
//! Nothing here takes memory or is refused. The layers above may rely on exact merits, on the weights of all places
//! behind a pivot at a cost in proportion to the entries of the entering column, and on weights within 1 and 2^40.
#![tactic(auto)]

mod infeasible;
#[cfg(test)]
mod tests;
pub mod weight_laws;
mod weights;

pub use infeasible::merit;
pub use weights::{reweigh, reweigh_one};
