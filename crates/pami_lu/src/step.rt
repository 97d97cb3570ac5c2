//! One step of an elimination as it is stored.

use pami_vec::SpVec;

/// One step: its pivot, the active part of the pivot's row as it stood then, and the multipliers of the rows below it.
#[derive(Debug, Drop)]
pub struct SparseStep {
    /// The pivot's row and place.
    pub row: usize,
    pub place: usize,
    /// The pivot's row, by place; 0 at the places that were pivoted before.
    pub kept: SpVec,
    /// By row, how often the pivot's row was taken from it; 0 for the pivot's row and those that were pivoted before.
    pub multipliers: SpVec,
}
