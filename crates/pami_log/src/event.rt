//! What happens in a run, as it is told.

ghost use Rattle.std.specs.Prelude.{◌≡◌, IfOk};

use pami_frac::{Frac, ListOf, OutOfMemory};
use pami_method::{Mode, Place};
use pami_vec::{PlaceList, Side, Stand};
use std::alloc::Global;

/// One thing that a major did.
#[derive(Clone, Copy, Debug, PartialEq, Eq)]
pub enum Move {
    /// A chosen row was dropped from the batch.
    Dropped {
        place: u32,
    },
    /// A boxed variable went to its other bound, where it stands now.
    Flipped {
        variable: u32,
        stand: Stand,
    },
    /// A pivot: the count of kept pivots with this one, the place, the variable that left it to the bound on this side, the
    /// variable that entered, and the dual step length.
    Pivoted {
        count: u32,
        place: u32,
        leaving: u32,
        side: Side,
        entering: u32,
        tau: Frac,
    },
    /// No variable could enter at this place, whose variable is outside on this side.
    Stuck {
        place: u32,
        leaving: u32,
        side: Side,
    },
}

/// The drops, flips and pivots of a major, in order.
pub type Record = ListOf<Move>;

/// One event of a run.
#[derive(Debug, Drop)]
pub enum Event {
    /// The run begins.
    Header,
    /// A phase begins, 1 or 2.
    Phase(u32),
    /// A major that was kept, or that has no entering variable for its last row: its number, how it was tried, the places of its
    /// chosen rows in order, and what it did.
    Major {
        number: u64,
        mode: Mode,
        chosen: PlaceList,
        moves: Record,
    },
    /// A Full major that was refused.
    Rollback {
        number: u64,
        place: Place,
    },
}

impl Event {
    /// The same event again.
    ///
    /// # Errors
    ///
    /// `OutOfMemory` alone.
    pub fn copy(&self, alloc: Global) -> Result<Event, OutOfMemory>
        ensures { IfOk result (λ event. event ≡ self.now) }
    {
        match self {
            Event::Header => Ok(Event::Header),
            Event::Phase(phase) => Ok(Event::Phase(*phase)),
            Event::Major {
                number,
                mode,
                chosen,
                moves,
            } => Ok(Event::Major {
                number: *number,
                mode: *mode,
                chosen: PlaceList::from_vec(Vec::from_slice(alloc, chosen.as_slice())?),
                moves: Record::from_vec(Vec::from_slice(alloc, moves.as_slice())?),
            }),
            Event::Rollback { number, place } => Ok(Event::Rollback {
                number: *number,
                place: *place,
            }),
        }
    }
}

/// Events in order.
pub type EventList = ListOf<Event>;
