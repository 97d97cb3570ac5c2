//! Rows that remain in a batch.

ghost use Rattle.std.specs.Prelude.{◌≡◌, ◌<◌};
ghost use Rattle.pami_devex.specs.Weights.{IsWeight};
ghost use Rattle.pami_deferral.specs.Inside.{keeps};
ghost use Rattle.pami_theory.specs.Choice.{is_chosen_before};
ghost use Rattle.std.specs.Option.{option_map};
ghost use Rattle.pami_minor.specs.Rows.{row_seen, look_by, better_of};

use pami_chuzr::violation;
use pami_devex::merit;
use pami_frac::{Bounds, Frac, Refused};
use pami_vec::{SpVec, Violation};
use std::cmp::Ordering;

/// A row that remains, as the next pick reads it: its place, its merit when it was chosen, the bounds of the variable
/// there, and its value and weight.
#[derive(Clone, Copy, Debug, PartialEq, Eq)]
pub struct Remaining {
    pub place: u32,
    pub merit: i32,
    pub bounds: Bounds,
    pub value: Frac,
    pub weight: u64,
}

impl Remaining {
    /// Does it stay, being so now?
    pub(crate) fn stays(&self, now: &Option<RowNow>) -> bool
        ensures { result ≡ keeps self.now.merit (option_map row_seen now.now) }
    {
        stays(self.merit, now)
    }
}

/// A row behind the pivots so far: its place, value and weight, and its row of the inverse, which goes by row.
#[derive(Debug, Drop)]
pub struct Reached {
    pub place: u32,
    pub value: Frac,
    pub weight: u64,
    pub rho: SpVec,
}

/// The row that leaves next, with how far its variable is outside of its bounds; or the batch stops.
#[derive(Clone, Copy, Debug, PartialEq, Eq)]
pub enum RowPick {
    Row { place: u32, violation: Violation },
    Stop,
}

/// An infeasible row as it is now.
#[derive(Clone, Copy, Debug, PartialEq, Eq)]
pub(crate) struct RowNow {
    pub(crate) place: u32,
    pub(crate) violation: Violation,
    pub(crate) merit: i32,
}

impl RowNow {
    /// Is it picked before the other one? The greater merit comes first, then the greater infeasibility, then the smaller
    /// place.
    fn comes_before(&self, other: &RowNow) -> bool
        ensures { result ≡ is_chosen_before (row_seen self.now) (row_seen other.now) }
    {
        if other.merit < self.merit {
            return true;
        }
        if self.merit < other.merit {
            return false;
        }
        match other.violation.amount.compare(&self.violation.amount) {
            Ordering::Less => true,
            Ordering::Greater => false,
            Ordering::Equal => self.place < other.place,
        }
    }
}

/// The row as it is now; `None` where it is feasible.
///
/// # Errors
///
/// `Refused` exactly where its infeasibility doesn't fit.
pub(crate) fn look(row: &Remaining) -> Result<Option<RowNow>, Refused>
    requires { 0 < row.now.weight }
    ensures { result ≡ look_by row.now }
{
    match violation(&row.value, &row.bounds)? {
        None => Ok(None),
        Some(found) => Ok(Some(RowNow {
            place: row.place,
            violation: found,
            merit: merit(&found.amount, row.weight),
        })),
    }
}

/// Does a row of this merit when it was chosen stay: is it infeasible, with a merit now that is at least that less 2?
pub(crate) fn stays(merit: i32, now: &Option<RowNow>) -> bool
    ensures { result ≡ keeps merit (option_map row_seen now.now) }
{
    match now {
        None => false,
        Some(now) => i64::from(now.merit) >= i64::from(merit) - 2,
    }
}

/// The one of two that is picked first, where there are any; the first one stands before the second one in order of choice.
pub(crate) fn better(first: Option<RowNow>, second: Option<RowNow>) -> Option<RowNow>
    ensures { result ≡ better_of first second }
{
    match (first, second) {
        (None, other) => other,
        (Some(row), None) => Some(row),
        (Some(row), Some(other)) => {
            if row.comes_before(&other) {
                Some(row)
            } else {
                Some(other)
            }
        }
    }
}
