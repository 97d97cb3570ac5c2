//! What a run is asked for.

use pami_major::Options;

/// The options of a run, and whether the ranges are told behind an optimal answer.
#[derive(Clone, Copy, Debug)]
pub struct Wish {
    pub options: Options,
    pub ranging: bool,
}
