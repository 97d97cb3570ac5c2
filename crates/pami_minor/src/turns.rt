//! The parts of a step: its slices, its walk, and what it exchanges.

ghost use Rattle.std.specs.Prelude.{◌≡◌, ◌<◌, ◌+◌, ◌++◌, ℕ, Some, Ok, ◌^◌, length, All, IfOk, vec_len, vec_capacity};
ghost use Rattle.pami_theory.specs.Form.{Form as TheForm, variables};
ghost use Rattle.pami_theory.specs.Choice.{InfeasibleRow};
ghost use Rattle.pami_method.specs.Batch.{Minor as TheMinor, Reached as TheReached};
ghost use Rattle.pami_deferral.specs.SolvedBatch.{IsSolvedPivot};
ghost use Rattle.pami_price.specs.Slices.{slices};
ghost use Rattle.pami_minor.specs.Joined.{joined};
ghost use Rattle.pami_form.specs.FormOf.{form_of};
ghost use Rattle.pami_minor.specs.Steps.{FollowsWalk, FollowsRatio, noted};
ghost use Rattle.pami_minor.specs.Fresh.{IsPricing, IsRowPriced, IsStepping};
ghost use Rattle.pami_bfrt.specs.Walks.{found_by};
ghost use Rattle.pami_minor.specs.declared.kept.Picked.{Picked as ThePicked};
ghost use Rattle.pami_minor.specs.Turned.{all_turned, flips_found, IsTaken};
ghost use Rattle.pami_minor.specs.Follow.{IsPriceOf};

use crate::minor::Minor;
use crate::walk::{Leaving, walk_at};
use pami_bfrt::{Walk, ratio_walk};
use pami_form::Form;
use pami_frac::{Entry, Fault, ListOf, OutOfMemory, Refused};
use pami_vec::{Side, Stand, Step};
use std::alloc::Global;

/// The entries of all slices, one after the other.
///
/// # Errors
///
/// `OutOfMemory` alone.
fn join(alloc: Global, slices: &[ListOf<Entry>]) -> Result<Vec<Entry>, OutOfMemory>
    ensures { IfOk result (λ es. es.items ≡ joined slices.now) }
{
    let mut row = Vec::new(alloc);
    for slice in slices {
        row.extend_from_slice(slice.as_slice())?;
    }
    Ok(row)
}

/// Turns flipped variables, each of them once, to their other bounds.
fn turn_stands(stands: &mut [Stand], flips: &[u32])
    requires { All (λ v. v < length stands.old) flips.now }
    ensures { stands.new ≡ all_turned stands.old flips.now }
{
    for v in flips {
        let turned = stands[*v as usize].flipped();
        stands[*v as usize] = turned;
    }
}

/// The variables that a walk flips, in its order.
pub fn flips_of(walk: &Walk) -> &[u32]
    ensures { result.now ≡ flips_found (found_by walk.now) }
{
    match walk {
        Walk::NoEntering => &[],
        Walk::Entering { flips, .. } => flips.as_slice(),
    }
}

/// Takes a step: its flips, and what it exchanges.
fn take_step(minor: &mut Minor, flips: &[u32], side: Side, step: Step)
    requires flips { All (λ v. v < length minor.old.stands.items) flips.now }
    requires leaving { step.leaving < length minor.old.stands.items }
    requires entering { step.entering < length minor.old.stands.items }
    requires place { step.place < length minor.old.head.items }
    requires more { minor.old.count + 1 < 2 ^ 32 }
    requires room { vec_len minor.old.steps < vec_capacity minor.old.steps }
    ensures { IsTaken flips.now side step minor.old minor.new }
{
    turn_stands(minor.stands.as_mut_slice(), flips);
    minor.stands[step.leaving as usize] = Stand::on(side);
    minor.stands[step.entering as usize] = Stand::Basic;
    minor.head[step.place as usize] = step.entering;
    minor.count += 1;
    minor.steps.push_reserved(step);
}

impl Minor {
    /// The side of the row that was picked last.
    pub(crate) fn picked_side(&self) -> Side
        requires { (k : ThePicked) × (self.now.picked ≡ Some k) }
        ensures { (k : ThePicked) → self.now.picked ≡ Some k → result ≡ k.violation.side }
    {
        self.picked_row().violation.side
    }

    /// Takes in the entries of the picked row in the next slice, by rising variable; zeros are left out. It takes no memory.
    pub fn commit_price(&mut self, slice: u32, alpha: Vec<Entry>)
        requires turn { (f : TheForm) × (limit : ℕ) × (r : TheReached) × (row : InfeasibleRow)
            × IsPricing f limit r row slice self.old × (slice < slices (variables f)) }
        // One slice more is priced, where these are its entries.
        ensures priced { (f : TheForm) (limit : ℕ) (r : TheReached) (row : InfeasibleRow)
            → IsPricing f limit r row slice self.old → IsPriceOf f r row slice alpha.items → IsPricing f limit r row (slice + 1) self.new }
        ensures steps { self.new.steps ≡ self.old.steps }
        ensures dropped { self.new.dropped ≡ self.old.dropped }
    {
        self.alpha[slice as usize] = ListOf::from_vec(alpha);
    }

    /// The ratio walk of the picked row, and the step where a variable enters. The form is the one that the Minor was
    /// opened for.
    ///
    /// # Errors
    ///
    /// `Named` exactly where an operation doesn't fit: the first such, those of the walk before those of the step.
    /// `OutOfMemory` where memory runs out.
    pub fn walk(&self, alloc: Global, form: &Form) -> Result<(Walk, Option<Step>), Fault<Refused>>
        requires turn { (limit : ℕ) × (r : TheReached) × (row : InfeasibleRow)
            × IsRowPriced (form_of form.now) limit r row self.now }
        // It is the walk of the batch's row at what it has reached, and its step.
        ensures walk { (limit : ℕ) (r : TheReached) (row : InfeasibleRow)
            → IsRowPriced (form_of form.now) limit r row self.now
            → FollowsWalk (form_of form.now) r.basis r.fresh row.place row.violation result }
    {
        let alpha = join(alloc, self.alpha.as_slice())?;
        let picked = self.picked_row();
        let row = Leaving {
            place: picked.at.place,
            variable: self.head[picked.at.place as usize],
            value: picked.at.value,
            violation: picked.violation,
        };
        let stands = self.stands.as_slice();
        let reduced = self.reduced.as_slice();
        walk_at(
            alloc,
            form,
            stands,
            reduced,
            alpha.as_slice(),
            &picked.at.rho,
            &row,
        )
    }

    /// The ratio walk of the picked row alone: it tells whether an operation that `walk` refuses is one of the walk, or of the
    /// step behind it.
    ///
    /// # Errors
    ///
    /// `Named` exactly where an operation of the walk doesn't fit: the first such. `OutOfMemory` where memory runs out.
    pub fn ratio(&self, alloc: Global, form: &Form) -> Result<Walk, Fault<Refused>>
        requires turn { (limit : ℕ) × (r : TheReached) × (row : InfeasibleRow)
            × IsRowPriced (form_of form.now) limit r row self.now }
        // It is the walk of the batch's row at what it has reached.
        ensures ratio { (limit : ℕ) (r : TheReached) (row : InfeasibleRow)
            → IsRowPriced (form_of form.now) limit r row self.now
            → FollowsRatio (form_of form.now) r.basis r.fresh row.place row.violation result }
    {
        let alpha = join(alloc, self.alpha.as_slice())?;
        let picked = self.picked_row();
        ratio_walk(
            alloc,
            self.stands.as_slice(),
            form.bounds.as_slice(),
            form.widths.as_slice(),
            self.reduced.as_slice(),
            alpha.as_slice(),
            &picked.violation,
        )
    }

    /// Takes in the walk of the picked row, and its step where a variable enters: the flipped variables go to their other
    /// bounds, the leaving one to the bound that it has passed, and the entering one into the basis. It takes no memory.
    pub fn commit_walk(&mut self, walk: Walk, step: Option<Step>)
        requires turn { (f : TheForm) × (limit : ℕ) × (r : TheReached) × (row : InfeasibleRow)
            × IsRowPriced f limit r row self.old
            × FollowsWalk f r.basis r.fresh row.place row.violation (Ok (walk, step)) }
        // Behind the step all rows that remain and all slices are still those of the basis before.
        ensures stepping { (f : TheForm) (limit : ℕ) (m : TheMinor) (next : TheReached)
            → IsRowPriced f limit m.reached m.row self.old
            → FollowsWalk f m.reached.basis m.reached.fresh m.row.place m.row.violation (Ok (walk, step))
            → IsSolvedPivot f limit m next → IsStepping f limit m next 0 0 self.new }
        // A step stands behind the earlier ones.
        ensures steps { self.new.steps.items ≡ noted step self.old.steps.items }
        ensures dropped { self.new.dropped ≡ self.old.dropped }
        // Where no variable enters, all is as before.
        ensures idle { step ≡ None → self.new ≡ self.old }
    {
        match step {
            None => {}
            Some(step) => {
                let side = self.picked_side();
                take_step(self, flips_of(&walk), side, step);
            }
        }
    }
}
