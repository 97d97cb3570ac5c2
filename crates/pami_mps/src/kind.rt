//! The plain types of the reader.

use pami_frac::{BoundValue, Bounds};

/// The section in which a line stands.
#[derive(Clone, Copy, Debug, PartialEq, Eq)]
pub enum Section {
    /// Before the first section line.
    Start,
    Name,
    /// Behind an OBJSENSE line without a sense: the next data line has it.
    SenseDue,
    /// Behind the sense.
    SenseGiven,
    Rows,
    Columns,
    Rhs,
    Ranges,
    Limits,
    /// From ENDATA on.
    End,
}

/// The type of a declared row.
#[derive(Clone, Copy, Debug, PartialEq, Eq)]
pub enum RowKind {
    /// N: the objective, where it is the first of its type; else a row that is dropped.
    Free,
    /// L: at most the right-hand side.
    AtMost,
    /// G: at least the right-hand side.
    AtLeast,
    /// E: equal to the right-hand side.
    Equal,
}

/// The type of a line of BOUNDS.
#[derive(Clone, Copy, Debug, PartialEq, Eq)]
pub enum LimitKind {
    /// UP: the upper bound.
    Upper,
    /// LO: the lower bound.
    Lower,
    /// FX: both bounds.
    Fixed,
    /// FR: no bound on either side.
    Unbounded,
    /// MI: no lower bound.
    NoLower,
    /// PL: no upper bound.
    NoUpper,
}

/// What the lines have told of a row of the model.
#[derive(Clone, Copy, Debug, PartialEq, Eq)]
pub struct Told {
    pub kind: RowKind,
    /// The right-hand side, which is 0 where none is given.
    pub right: BoundValue,
    /// Whether a right-hand side is given.
    pub has_right: bool,
    /// Whether a range is given.
    pub has_range: bool,
}

/// The bounds of a column so far, and whether a line has stated its lower bound.
#[derive(Clone, Copy, Debug, PartialEq, Eq)]
pub struct Sides {
    pub bounds: Bounds,
    pub stated: bool,
}

/// What a name stands for among the rows.
#[derive(Clone, Copy, Debug, PartialEq, Eq)]
pub(crate) enum RowRole {
    /// The row of the model at this place.
    Kept(u32),
    /// The first N row.
    Objective,
    /// A later N row.
    Dropped,
}
