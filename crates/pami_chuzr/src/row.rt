//! Infeasible places, and the order in which they are chosen.

ghost use Rattle.std.specs.Prelude.{◌≡◌, ◌<◌};
ghost use Rattle.pami_theory.specs.Choice.{row_of, is_chosen_before};
ghost use Rattle.pami_chuzr.specs.Choice.{row_by, chosen_row, is_before};

use pami_devex::merit;
use pami_vec::{Side, Violation};
use std::cmp::Ordering;

/// A chosen place of the basis: the side on which its value lies outside, and its merit when it was chosen.
#[derive(Clone, Copy, Debug, PartialEq, Eq)]
pub struct ChosenRow {
    pub place: u32,
    pub side: Side,
    pub merit: i32,
}

/// An infeasible place of the basis with its violation and its merit.
#[derive(Clone, Copy, Debug, PartialEq, Eq)]
pub(crate) struct RankedRow {
    place: u32,
    violation: Violation,
    merit: i32,
}

impl RankedRow {
    /// The place with this violation and this weight.
    pub(crate) fn new(place: u32, violation: Violation, weight: u64) -> RankedRow
        requires { 0 < weight }
        ensures { row_by result ≡ row_of place weight violation }
    {
        RankedRow {
            place,
            violation,
            merit: merit(&violation.amount, weight),
        }
    }

    /// Is it chosen before the other one? The greater merit comes first, then the greater infeasibility, then the smaller
    /// place.
    pub(crate) fn comes_before(&self, other: &RankedRow) -> bool
        ensures { result ≡ is_before self.now other.now }
    {
        if other.merit < self.merit {
            return true;
        }
        if self.merit < other.merit {
            return false;
        }
        match other.violation.amount.compare(&self.violation.amount) {
            Ordering::Less => true,
            Ordering::Greater => false,
            Ordering::Equal => self.place < other.place,
        }
    }

    /// What is told of it when it is chosen.
    pub(crate) fn chosen(&self) -> ChosenRow
        ensures { result ≡ chosen_row (row_by self.now) }
    {
        ChosenRow {
            place: self.place,
            side: self.violation.side,
            merit: self.merit,
        }
    }
}
