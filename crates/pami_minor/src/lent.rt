//! What a Minor lends, and what it leaves of the state.

ghost use Rattle.std.specs.Prelude.{◌≡◌, ℕ, Some, None, List, length, take, drop, slice_index_or};
ghost use Rattle.std.specs.List.{Contains};
ghost use Rattle.pami_theory.specs.Form.{Form as TheForm};
ghost use Rattle.pami_theory.specs.Fresh.{row_at};
ghost use Rattle.pami_theory.specs.Choice.{InfeasibleRow};
ghost use Rattle.pami_method.specs.Batch.{Minor as TheMinor, Reached as TheReached, places as the_places};
ghost use Rattle.pami_minor.specs.Fresh.{IsFreshMinor, IsPricing, IsStepping, rest_of};
ghost use Rattle.pami_minor.specs.Opening.{IsOpening};
ghost use Rattle.pami_minor.specs.Lent.{HasRho, FindsRow};
ghost use Rattle.pami_minor.specs.Follow.{IsStopped, places_left as the_places_left};

use crate::kept::Kept;
use crate::minor::Minor;
use pami_frac::FracList;
use pami_state::BatchEnd;
use pami_vec::{PlaceList, SpVec, Stand, StandList, Step};

/// The index of the first row at a place, if there is one.
fn find_row(rows: &[Kept], place: u32) -> Option<usize>
    ensures { FindsRow place rows.now result }
{
    for (i, row) in rows.iter().enumerate() {
        if row.at.place == place {
            return Some(i);
        }
    }
    None
}

impl Minor {
    /// The places that remain, in order of choice, without the one that was picked last.
    pub fn remaining(&self) -> &[u32]
        ensures places { result.now ≡ self.now.remaining.items }
        // Before a row is picked they are those that the batch has still to pick from, from its start on.
        ensures opening { (f : TheForm) (limit : ℕ) (r : TheReached) (n : ℕ)
            → IsOpening f limit r n self.now → result.now ≡ the_places r.rows }
        ensures fresh { (f : TheForm) (limit : ℕ) (r : TheReached)
            → IsFreshMinor f limit r self.now → result.now ≡ the_places r.rows }
        // Before a step they are those that stay beside the picked one, and behind it those that the batch goes on with.
        ensures pricing { (f : TheForm) (limit : ℕ) (r : TheReached) (row : InfeasibleRow) (n : ℕ)
            → IsPricing f limit r row n self.now → result.now ≡ the_places (rest_of f r row) }
        ensures stepping { (f : TheForm) (limit : ℕ) (m : TheMinor) (next : TheReached) (i j : ℕ)
            → IsStepping f limit m next i j self.now → result.now ≡ the_places next.rows }
        // Where the batch stops, they are those that it leaves.
        ensures stopped { (f : TheForm) (limit : ℕ) (r : TheReached)
            → IsStopped f limit r self.now → result.now ≡ the_places_left limit r }
    {
        self.remaining.as_slice()
    }

    /// The places that the last pick dropped, in order of choice.
    pub fn dropped(&self) -> &[u32]
        ensures { result.now ≡ self.now.dropped.items }
    {
        self.dropped.as_slice()
    }

    /// The row of the inverse, by row, of a place that remains or that was picked last: that one has the row before its
    /// step.
    pub fn rho(&self, place: u32) -> &SpVec
        requires place { HasRho place self.now }
        // They are rows of the inverse of the basis that the batch has reached: of the place that was picked,
        ensures picked { (f : TheForm) (limit : ℕ) (r : TheReached) (row : InfeasibleRow) (n : ℕ)
            → IsPricing f limit r row n self.now → row.place ≡ place → result.now ≡ row_at r.fresh place }
        // of one that stays beside it,
        ensures beside { (f : TheForm) (limit : ℕ) (r : TheReached) (row : InfeasibleRow) (n : ℕ)
            → IsPricing f limit r row n self.now → Contains (the_places (rest_of f r row)) place
            → result.now ≡ row_at r.fresh place }
        // of one that remains when no row is picked,
        ensures remaining { (f : TheForm) (limit : ℕ) (r : TheReached)
            → IsFreshMinor f limit r self.now → Contains (the_places r.rows) place → result.now ≡ row_at r.fresh place }
        // of one that is taken in at the start,
        ensures opening { (f : TheForm) (limit : ℕ) (r : TheReached) (n : ℕ)
            → IsOpening f limit r n self.now → Contains (the_places (take n r.rows)) place → result.now ≡ row_at r.fresh place }
        // and of one that is left where the batch stops.
        ensures stopped { (f : TheForm) (limit : ℕ) (r : TheReached)
            → IsStopped f limit r self.now → Contains (the_places_left limit r) place → result.now ≡ row_at r.fresh place }
        // Behind a step they are so of those that are brought there; the others, and the place that left, have the row of
        // the basis before it.
        ensures reached { (f : TheForm) (limit : ℕ) (m : TheMinor) (next : TheReached) (i j : ℕ)
            → IsStepping f limit m next i j self.now → Contains (the_places (take i next.rows)) place
            → result.now ≡ row_at next.fresh place }
        ensures others { (f : TheForm) (limit : ℕ) (m : TheMinor) (next : TheReached) (i j : ℕ)
            → IsStepping f limit m next i j self.now → Contains (the_places (drop i next.rows)) place
            → result.now ≡ row_at m.reached.fresh place }
        ensures left { (f : TheForm) (limit : ℕ) (m : TheMinor) (next : TheReached) (i j : ℕ)
            → IsStepping f limit m next i j self.now → m.row.place ≡ place → result.now ≡ row_at m.reached.fresh place }
    {
        match find_row(self.rows.as_slice(), place) {
            Some(i) => &self.rows[i].at.rho,
            None => &self.picked_row().at.rho,
        }
    }

    /// The count of kept pivots with those of the batch so far.
    pub fn count(&self) -> u32
        ensures { result ≡ self.now.count }
    {
        self.count
    }

    /// The variable at each place now.
    pub fn head(&self) -> &[u32]
        ensures { result.now ≡ self.now.head.items }
    {
        self.head.as_slice()
    }

    /// Where each variable stands now.
    pub fn stands(&self) -> &[Stand]
        ensures { result.now ≡ self.now.stands.items }
    {
        self.stands.as_slice()
    }

    /// The steps so far.
    pub fn steps(&self) -> &[Step]
        ensures { result.now ≡ self.now.steps.items }
    {
        self.steps.as_slice()
    }

    /// The head, the stands and the reduced costs that the batch leaves, when it has stopped. It takes no memory.
    pub fn end(self) -> BatchEnd
        ensures lists { (result.head ≡ self.head.items) × (result.stands ≡ self.stands.items)
            × (result.reduced ≡ self.reduced.items) }
        // They are those of the last basis of the batch.
        ensures fresh { (f : TheForm) (limit : ℕ) (r : TheReached) → IsStopped f limit r self
            → (result.head ≡ r.basis.head) × (result.stands ≡ r.basis.stands) × (result.reduced ≡ r.fresh.reduced) }
    {
        BatchEnd {
            head: PlaceList::from_vec(self.head),
            stands: StandList::from_vec(self.stands),
            reduced: FracList::from_vec(self.reduced),
        }
    }
}
