//! The words of the method that programs say too.

use pami_frac::Refused;

/// How a major is tried: on a whole batch, or on one row with a new elimination.
#[derive(Clone, Copy, Debug, PartialEq, Eq)]
pub enum Mode {
    Full,
    Single,
}

/// The most rows of a batch.
pub const GREATEST_BATCH: u32 = 8;

/// The most pivots that a factor is kept for.
pub const GREATEST_REFACTOR: u32 = 64;

/// The most pivots that may be allowed.
pub const GREATEST_LIMIT: u32 = 1_000_000;

/// How a run goes: at most `batch` rows in a Full major, a new elimination where the factor has more than `refactor` pivots,
/// and at most `limit` pivots.
#[derive(Clone, Copy, Debug, PartialEq, Eq)]
pub struct Options {
    pub batch: u32,
    pub refactor: u32,
    pub limit: u32,
}

/// A script of the method. Places are those of the basis, minors count from 1, slices from 0.
#[derive(Clone, Copy, Debug, PartialEq, Eq)]
pub enum Spot {
    /// The values of the starting basis.
    Start,
    /// The infeasible places of a major.
    Choose,
    /// The elimination.
    Factor,
    /// The backward solve of a chosen row.
    Backward { place: u32 },
    /// The remaining rows of a minor.
    Row { minor: u32 },
    /// A slice of the pivot row.
    Price { minor: u32, slice: u32 },
    /// The ratio walk.
    Ratio { minor: u32 },
    /// The primal step length.
    Step { minor: u32 },
    /// A remaining row behind a pivot.
    Reach { minor: u32, place: u32 },
    /// A slice of the reduced costs behind a pivot.
    Shift { minor: u32, slice: u32 },
    /// The forward solve of an entering column.
    Column { minor: u32 },
    /// The forward solve of all flips.
    Flips,
    /// An entering column through the earlier pivots.
    Transform { minor: u32 },
    /// The values behind a batch.
    Values,
    /// The values behind the switch to phase two.
    Switch,
}

/// An operation that didn't fit, and the script that it stands in.
#[derive(Clone, Copy, Debug, PartialEq, Eq)]
pub struct Place {
    pub task: Spot,
    pub refused: Refused,
}
