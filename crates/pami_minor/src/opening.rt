//! A Minor at the start of its batch.

ghost use Rattle.std.specs.Prelude.{◌≡◌, ◌<◌, ◌≤◌, ◌+◌, ◌^◌, ℕ, List, [], length, map, All, IfOk, vec_capacity};
ghost use Rattle.pami_theory.specs.Form.{Form as TheForm};
ghost use Rattle.pami_theory.specs.Fresh.{Fresh, IsFresh, row_at};
ghost use Rattle.pami_theory.specs.Choice.{chosen as the_chosen};
ghost use Rattle.pami_method.specs.Batch.{Reached as TheReached};
ghost use Rattle.pami_chuzr.specs.Choice.{chosen_row};
ghost use Rattle.pami_chuzr.specs.declared.row.ChosenRow.{ChosenRow as TheChosenRow};
ghost use Rattle.pami_state.specs.State.{basis_of};
ghost use Rattle.pami_price.specs.Slices.{slices as the_slices};
ghost use Rattle.pami_form.specs.FormOf.{form_of};
ghost use Rattle.pami_minor.specs.Opening.{open_by, IsOpenable, first_reached, IsOpening};
ghost use Rattle.pami_minor.specs.Behind.{IsRowOf};

use crate::behind::index_of;
use crate::kept::Kept;
use crate::minor::Minor;
use crate::pick::note_places;
use crate::row::Reached;
use pami_chuzr::ChosenRow;
use pami_form::Form;
use pami_frac::{Entry, ListOf, OutOfMemory};
use pami_state::State;
use pami_vec::SpVec;
use std::alloc::Global;

/// A chosen row with its value and weight; its row of the inverse isn't known yet.
///
/// # Errors
///
/// `OutOfMemory` alone.
fn open_row(alloc: Global, form: &Form, state: &State, row: &ChosenRow) -> Result<Kept, OutOfMemory>
    requires place { row.now.place < length state.now.head }
    requires values { length state.now.values ≡ length state.now.head }
    requires weights { length state.now.weights ≡ length state.now.head }
    requires known { All (λ v. v < length form.now.bounds) state.now.head }
    ensures { IfOk result (λ k. k ≡ open_by form.now state.now row.now) }
{
    let p = row.place as usize;
    let variable = state.head.as_slice()[p];
    Ok(Kept {
        merit: row.merit,
        bounds: form.bounds.as_slice()[variable as usize],
        at: Reached {
            place: row.place,
            value: state.values.as_slice()[p],
            weight: state.weights.as_slice()[p],
            rho: SpVec::from_entries(alloc, form.rows, &[])?,
        },
    })
}

/// The chosen rows with their values and weights.
///
/// # Errors
///
/// `OutOfMemory` alone.
fn open_rows(
    alloc: Global,
    form: &Form,
    state: &State,
    chosen: &[ChosenRow],
) -> Result<Vec<Kept>, OutOfMemory>
    requires places { All (λ (c : TheChosenRow). c.place < length state.now.head) chosen.now }
    requires values { length state.now.values ≡ length state.now.head }
    requires weights { length state.now.weights ≡ length state.now.head }
    requires known { All (λ v. v < length form.now.bounds) state.now.head }
    ensures { IfOk result (λ rows. rows.items ≡ map (open_by form.now state.now) chosen.now) }
{
    let mut rows = Vec::new(alloc);
    for row in chosen {
        rows.push(open_row(alloc, form, state, row)?)?;
    }
    Ok(rows)
}

/// No entries for each slice of so many variables.
///
/// # Errors
///
/// `OutOfMemory` alone.
fn open_slices(alloc: Global, count: usize) -> Result<Vec<ListOf<Entry>>, OutOfMemory>
    requires { count < 2 ^ 32 }
    ensures { IfOk result (λ slices. length slices.items ≡ the_slices count) }
{
    let mut slices = Vec::new(alloc);
    for _ in 0..(count + 63) / 64 {
        slices.push(ListOf::from_vec(Vec::new(alloc)))?;
    }
    Ok(slices)
}

impl Minor {
    /// The inside of a batch from this state, with these chosen rows and so many pivots left. All room that is needed later
    /// is taken here.
    ///
    /// # Errors
    ///
    /// `OutOfMemory` alone.
    pub fn open(
        alloc: Global,
        form: &Form,
        state: &State,
        chosen: &[ChosenRow],
        steps_left: u32,
    ) -> Result<Minor, OutOfMemory>
        requires openable { IsOpenable form.now state.now chosen.now steps_left }
        // All but the rows of the inverse is that of the state's basis.
        ensures opening { IfOk result (λ minor. (s : Fresh) (most : ℕ)
            → IsFresh (form_of form.now) (basis_of state.now) s
            → chosen.now ≡ map chosen_row (the_chosen (form_of form.now) (basis_of state.now) s state.now.weights most)
            → IsOpening (form_of form.now) (state.now.pivots + steps_left)
            (first_reached form.now state.now s most) 0 minor) }
        ensures steps { IfOk result (λ minor. minor.steps.items ≡ []) }
    {
        let many = chosen.len();
        let rows = open_rows(alloc, form, state, chosen)?;
        let mut remaining = Vec::with_capacity(alloc, many)?;
        note_places(rows.as_slice(), &mut remaining);
        let dropped = Vec::with_capacity(alloc, many)?;
        let nows = Vec::with_capacity(alloc, many)?;
        let steps = Vec::with_capacity(alloc, many)?;
        let head = Vec::from_slice(alloc, state.head.as_slice())?;
        let stands = Vec::from_slice(alloc, state.stands.as_slice())?;
        let reduced = Vec::from_slice(alloc, state.reduced.as_slice())?;
        let alpha = open_slices(alloc, stands.len())?;
        Ok(Minor {
            head,
            stands,
            reduced,
            count: state.pivots,
            limit: state.pivots + steps_left,
            rows,
            remaining,
            dropped,
            nows,
            picked: None,
            alpha,
            steps,
        })
    }

    /// Takes in the row of the next chosen place, which goes by row. It takes no memory.
    pub fn commit_backward(&mut self, place: u32, rho: SpVec)
        requires turn { (f : TheForm) × (limit : ℕ) × (r : TheReached) × (n : ℕ)
            × IsOpening f limit r n self.old × IsRowOf r n place }
        // One row more is known, where this is the row of the inverse.
        ensures opening { (f : TheForm) (limit : ℕ) (r : TheReached) (n : ℕ)
            → IsOpening f limit r n self.old → IsRowOf r n place
            → rho ≡ row_at r.fresh place → IsOpening f limit r (n + 1) self.new }
        ensures steps { self.new.steps ≡ self.old.steps }
    {
        let i = index_of(self.rows.as_slice(), place);
        self.rows[i].at.rho = rho;
    }
}
