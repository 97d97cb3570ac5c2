//! One step of an elimination as it is kept for solves, and why an elimination ends early.

use pami_frac::{FracList, Refused};

/// One step: its pivot, the pivot's row as it stood then, and the multipliers.
#[derive(Debug, Drop)]
pub struct Kept {
    /// The pivot's row and place.
    pub row: usize,
    pub place: usize,
    /// The pivot's row, by place. Places that were pivoted before hold numbers that aren't read.
    pub kept: FracList,
    /// By row, how often the pivot's row was taken from it; 0 for the rows that weren't active.
    pub multipliers: FracList,
}

/// Why an elimination gives no steps.
#[derive(Debug, Drop)]
pub enum LuFault {
    /// No pivot is left, and this is the least place that has none.
    Singular { place: u32 },
    /// This operation didn't fit.
    Refused(Refused),
}
