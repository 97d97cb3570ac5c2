//! What follows a step: the rows that remain, one by one.

ghost use Rattle.std.specs.Prelude.{◌≡◌, ◌<◌, ◌+◌, ◌/◌, ◌++◌, ◌∷◌, [], ℕ, List, Some, Ok, length, slice_index_or};
ghost use Rattle.pami_theory.specs.Form.{Form as TheForm};
ghost use Rattle.pami_method.specs.Batch.{Minor as TheMinor, Reached as TheReached};
ghost use Rattle.pami_script.specs.Dense.{at};
ghost use Rattle.pami_vec.specs.declared.step.Step.{Step as TheStep};
ghost use Rattle.pami_minor.specs.declared.kept.Kept.{Kept as TheKept};
ghost use Rattle.pami_minor.specs.declared.kept.Picked.{Picked as ThePicked};
ghost use Rattle.pami_minor.specs.Picks.{HasRowAt};
ghost use Rattle.pami_form.specs.FormOf.{form_of};
ghost use Rattle.pami_minor.specs.Fresh.{IsStepping};
ghost use Rattle.pami_minor.specs.Behind.{IsRowOf, IsReachedRow, FollowsReach, IsFirstAt};

use crate::kept::{Kept, Picked};
use crate::minor::Minor;
use crate::reach::reach_at;
use crate::row::Reached;
use pami_form::Form;
use pami_frac::{Fault, Frac, Refused};
use pami_vec::{Step, entry_at};
use std::alloc::Global;

/// The index of the row of a place.
pub(crate) fn index_of(rows: &[Kept], place: u32) -> usize
    requires { HasRowAt place rows.now }
    ensures { IsFirstAt place rows.now result }
{
    let mut i = 0;
    while rows[i].at.place != place {
        i += 1;
    }
    i
}

impl Minor {
    /// The step that was committed last.
    pub(crate) fn last_step(&self) -> &Step
        requires { (earlier : List TheStep) × (last : TheStep) × (self.now.steps.items ≡ earlier ++ last ∷ []) }
        ensures { (earlier : List TheStep) (last : TheStep) → self.now.steps.items ≡ earlier ++ last ∷ []
            → result.now ≡ last }
    {
        &self.steps[self.steps.len() - 1]
    }

    /// The row that was picked last.
    pub(crate) fn picked_row(&self) -> &Picked
        requires { (k : ThePicked) × (self.now.picked ≡ Some k) }
        ensures { (k : ThePicked) → self.now.picked ≡ Some k → result.now ≡ k }
    {
        match &self.picked {
            None => unreachable!(),
            Some(picked) => picked,
        }
    }

    /// The entry of the pivot row at a variable.
    fn entry_of(&self, variable: u32) -> Frac
        requires { variable / 64 < length self.now.alpha.items }
        ensures { result ≡ at (slice_index_or self.now.alpha.items (variable / 64) []) variable }
    {
        entry_at(self.alpha[variable as usize / 64].as_slice(), variable)
    }

    /// The row of the next place that remains, behind the last step. The form is the one that the Minor was opened for.
    ///
    /// # Errors
    ///
    /// `Named` exactly where an operation doesn't fit: the first such. `OutOfMemory` where memory runs out.
    pub fn reach_row(
        &self,
        alloc: Global,
        form: &Form,
        place: u32,
    ) -> Result<Reached, Fault<Refused>>
        requires turn { (limit : ℕ) × (m : TheMinor) × (next : TheReached) × (i : ℕ) × (j : ℕ)
            × IsStepping (form_of form.now) limit m next i j self.now × IsRowOf next i place }
        // It is the row of the basis behind the step.
        ensures reach { (limit : ℕ) (m : TheMinor) (next : TheReached) (i j : ℕ)
            → IsStepping (form_of form.now) limit m next i j self.now → IsRowOf next i place
            → FollowsReach (form_of form.now) m next place result }
    {
        let step = self.last_step();
        let picked = self.picked_row();
        let pivot = self.entry_of(step.entering);
        let row = &self.rows[index_of(self.rows.as_slice(), place)];
        reach_at(
            alloc,
            form,
            step,
            &pivot,
            &picked.at.rho,
            picked.at.weight,
            &row.at,
        )
    }

    /// Takes in the row of the next place that remains. It takes no memory.
    pub fn commit_reach(&mut self, reached: Reached)
        requires turn { (f : TheForm) × (limit : ℕ) × (m : TheMinor) × (next : TheReached) × (i : ℕ) × (j : ℕ)
            × IsStepping f limit m next i j self.old × IsRowOf next i reached.place }
        // One row more is that of the basis behind the step, where this is its row.
        ensures reached { (f : TheForm) (limit : ℕ) (m : TheMinor) (next : TheReached) (i j : ℕ)
            → IsStepping f limit m next i j self.old → IsRowOf next i reached.place
            → IsReachedRow next reached.place reached
            → IsStepping f limit m next (i + 1) j self.new }
        ensures steps { self.new.steps ≡ self.old.steps }
        ensures dropped { self.new.dropped ≡ self.old.dropped }
    {
        let i = index_of(self.rows.as_slice(), reached.place);
        self.rows[i].at = reached;
    }
}
