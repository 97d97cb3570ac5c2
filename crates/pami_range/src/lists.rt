//! Lists that travel together.

use pami_frac::{Bounds, Frac};
use pami_vec::{RowWise, SpVec, Stand};

/// The lists that the spans of costs are read from: the head goes by place, each other list by variable. The columns are there
/// a second time, kept by row.
#[derive(Clone, Copy)]
pub(crate) struct CostLists<'a> {
    pub(crate) columns: &'a [SpVec],
    pub(crate) by_row: &'a RowWise,
    pub(crate) bounds: &'a [Bounds],
    pub(crate) costs: &'a [Frac],
    pub(crate) head: &'a [u32],
    pub(crate) stands: &'a [Stand],
    pub(crate) reduced: &'a [Frac],
}
