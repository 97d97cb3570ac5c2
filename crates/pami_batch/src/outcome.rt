//! What a batch comes to.

use pami_log::{Place, Record};
use pami_state::State;
use pami_vec::{Pivots, SpVec};

/// What a batch comes to.
#[derive(Debug, Drop)]
pub enum Outcome {
    /// No row remains, or the limit is met: the state behind its pivots, these by place, and what it did.
    Collected {
        state: State,
        pivots: Pivots,
        moves: Record,
    },
    /// Its last row has no entering variable: the row of the inverse of that place, by row, and what it did.
    NoEntering {
        rho: SpVec,
        moves: Record,
    },
    /// An operation didn't fit: the first such, with its script.
    Refused(Place),
}
