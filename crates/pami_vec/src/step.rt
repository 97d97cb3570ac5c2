//! A step of the dual simplex method, and the pivot that it leaves to a factor.

use crate::vector::SpVec;
use pami_frac::{Frac, ListOf};

/// What a pivot exchanges: the variable `leaving` at `place` goes to its value `bound`, and `entering` comes in there from
/// its value `old_value`. `tau` is the dual step length and `theta` the primal one, by which the entering variable moves.
/// `flip_column` has by row what the flips before the pivot change. (Koberstein 2005, section 3.1.)
#[derive(Debug, Drop)]
pub struct Step {
    pub place: u32,
    pub leaving: u32,
    pub entering: u32,
    pub tau: Frac,
    pub theta: Frac,
    pub bound: Frac,
    pub old_value: Frac,
    pub flip_column: SpVec,
}

/// A pivot in product form: at `place` a column was replaced, and by the basis before it the new one is `column`, which goes
/// by place. (Koberstein 2005, section 5.1.)
#[derive(Debug, Drop)]
pub struct Pivot {
    pub place: u32,
    pub column: SpVec,
}

/// Pivots in order, the first one first.
pub type Pivots = ListOf<Pivot>;
