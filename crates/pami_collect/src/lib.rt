//! The collective update behind a batch: the sum of its flips, its columns through the pivots before their own, the
//! values by place behind its last pivot, and the state there.
//!
//! Stands on `pami_vec` for sparse vectors and pivots, on `pami_devex` for weights and on `pami_deferral`, whose laws
//! say that these scripts give what the batch's last basis solves. The layer above may rely on each call being its
//! script over all places, refused at the script's first operation that doesn't fit, at a cost in proportion to the
//! entries and the rows. (Huangfu and Hall 2018, section 3.)
#![tactic(auto)]

mod flips;
mod pivots;
mod state;
#[cfg(test)]
mod tests;
mod values;

pub use flips::flip_total;
pub use pami_vec::{Pivot, Pivots, Step};
pub use pivots::transform;
pub use state::collect;
pub use values::collect_values;
