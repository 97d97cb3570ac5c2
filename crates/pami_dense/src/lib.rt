//! The elimination as its definition says it, over whole rows with their zeros: a program to be read beside the definition.
//!
//! Stands on `pami_factoring`, whose script it follows operation by operation, and on `pami_lu`, whose elimination over
//! nonzeros the tests run beside it; nothing stands on it. It may be relied on that `eliminate_dense` gives the script's
//! outcome, and so the same one as `pami_lu`.
#![tactic(auto)]

#[cfg(test)]
mod cases;
mod elimination;
mod laws;
mod matrix;
mod reduce;
mod rest;
mod search;
#[cfg(test)]
mod tests;

pub use elimination::eliminate_dense;
pub use laws::both_eliminations_agree;
