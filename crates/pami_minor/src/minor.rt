//! The inside of one batch.

ghost use Rattle.std.specs.Prelude.{◌≡◌, ◌<◌, ◌+◌, ℕ, List, Some, length, slice_index_or, IsErr};
ghost use Rattle.pami_theory.specs.Form.{Form as TheForm, variables};
ghost use Rattle.pami_theory.specs.Choice.{InfeasibleRow};
ghost use Rattle.pami_method.specs.Batch.{Reached as TheReached};
ghost use Rattle.pami_price.specs.Slices.{slices};
ghost use Rattle.pami_minor.specs.Fresh.{IsFreshMinor};
ghost use Rattle.pami_minor.specs.Follow.{FollowsPick};

use crate::kept::{Kept, Picked};
use crate::pick::{note_places, pick_among};
use crate::row::{RowNow, RowPick};
use pami_frac::{Entry, Frac, ListOf, Refused};
use pami_vec::{Stand, Step};

/// The inside of one batch: the rows that remain, each with its row of the inverse, its value and its weight, all stands
/// and reduced costs, and the steps so far. It is made for a form and a state, and takes what its calls work out, task by
/// task: the rows of the chosen places, and then for each step the next row, its slices, its walk, the rows that remain
/// and the slices behind it.
#[derive(Debug, Drop)]
pub struct Minor {
    pub(crate) head: Vec<u32>,
    pub(crate) stands: Vec<Stand>,
    pub(crate) reduced: Vec<Frac>,
    pub(crate) count: u32,
    pub(crate) limit: u32,
    pub(crate) rows: Vec<Kept>,
    pub(crate) remaining: Vec<u32>,
    pub(crate) dropped: Vec<u32>,
    pub(crate) nows: Vec<Option<RowNow>>,
    pub(crate) picked: Option<Picked>,
    pub(crate) alpha: Vec<ListOf<Entry>>,
    pub(crate) steps: Vec<Step>,
}

impl Minor {
    /// The row that leaves next, or that the batch stops: where the limit is met, or where no row is left when those that
    /// lost their merit are dropped. It takes no memory.
    ///
    /// # Errors
    ///
    /// `Refused` exactly where an infeasibility of a row that remains doesn't fit: the first such in order of choice. The
    /// Minor is as before then.
    pub fn next_row(&mut self) -> Result<RowPick, Refused>
        requires turn { (f : TheForm) × (limit : ℕ) × (r : TheReached) × IsFreshMinor f limit r self.old }
        // At what the batch has reached, it is the definition's row and its drops, or its stop.
        ensures pick { (f : TheForm) (limit : ℕ) (r : TheReached) → IsFreshMinor f limit r self.old
            → FollowsPick f limit r self.new result }
        // At a refusal nothing is taken: all is that of the same basis, and what is lent is as before.
        ensures refused { (f : TheForm) (limit : ℕ) (r : TheReached) → IsFreshMinor f limit r self.old
            → IsErr result → IsFreshMinor f limit r self.new }
        ensures lent { IsErr result
            → (self.new.remaining ≡ self.old.remaining) × (self.new.dropped ≡ self.old.dropped) }
        ensures steps { self.new.steps ≡ self.old.steps }
    {
        if self.count == self.limit {
            self.dropped.clear();
            return Ok(RowPick::Stop);
        }
        match pick_among(&mut self.rows, &mut self.nows, &mut self.dropped)? {
            None => {
                self.remaining.clear();
                Ok(RowPick::Stop)
            }
            Some(picked) => {
                note_places(self.rows.as_slice(), &mut self.remaining);
                let pick = RowPick::Row {
                    place: picked.at.place,
                    violation: picked.violation,
                };
                self.picked = Some(picked);
                Ok(pick)
            }
        }
    }
}
