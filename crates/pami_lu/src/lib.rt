//! The elimination of a basis, and the counter of steps.
//!
//! Stands on `pami_factoring`, whose scripts decide each operation and its order, and on `pami_vec` for the columns. Rows are
//! kept as their nonzero entries, and so are the places' sets of rows; an operation with a zero operand is never done. The
//! layers above may rely on `eliminate` giving the steps of a regular basis, or the first operation that didn't fit, or the
//! least place that is left without a pivot, and on its counting one step.
#![tactic(auto)]

mod basis;
mod elimination;
mod flags;
mod lu;
mod matrix;
mod reduce;
mod row_set;
mod search;
mod step;
mod steps;
#[cfg(test)]
mod tests;
mod vectors;

pub use basis::eliminate;
pub use lu::Lu;
pub use pami_factoring::LuFault;
pub use step::SparseStep;
pub use steps::Steps;
