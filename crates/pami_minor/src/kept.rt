//! What a batch keeps of its rows.

ghost use Rattle.std.specs.Prelude.{◌≡◌};
ghost use Rattle.std.specs.Option.{option_map};
ghost use Rattle.pami_deferral.specs.Inside.{keeps};
ghost use Rattle.pami_minor.specs.Rows.{row_seen};
ghost use Rattle.pami_minor.specs.Picks.{remaining_of};

use crate::row::{Reached, Remaining, RowNow, stays};
use pami_frac::Bounds;
use pami_vec::Violation;

/// A row that remains: its merit when it was chosen, the bounds of the variable at its place, and what the pivots so far
/// have made of it.
#[derive(Debug, Drop)]
pub(crate) struct Kept {
    pub(crate) merit: i32,
    pub(crate) bounds: Bounds,
    pub(crate) at: Reached,
}

impl Kept {
    /// What the next pick reads.
    pub(crate) fn remaining(&self) -> Remaining
        ensures { result ≡ remaining_of self.now }
    {
        Remaining {
            place: self.at.place,
            merit: self.merit,
            bounds: self.bounds,
            value: self.at.value,
            weight: self.at.weight,
        }
    }

    /// Does it stay, being so now?
    pub(crate) fn stays(&self, now: &Option<RowNow>) -> bool
        ensures { result ≡ keeps self.now.merit (option_map row_seen now.now) }
    {
        stays(self.merit, now)
    }
}

/// The row that was picked last, and how far its variable is outside.
#[derive(Debug, Drop)]
pub(crate) struct Picked {
    pub(crate) violation: Violation,
    pub(crate) at: Reached,
}
