//! The run of a batch.

ghost use Rattle.std.specs.Prelude.{◌≡◌, ◌≤◌, ◌+◌, ◌*◌, ℕ, length, map, IfOk};
ghost use Rattle.pami_theory.specs.Fresh.{Fresh, IsFresh};
ghost use Rattle.pami_theory.specs.Choice.{chosen as the_chosen};
ghost use Rattle.pami_method.specs.Factor.{History};
ghost use Rattle.pami_chuzr.specs.Choice.{chosen_row};
ghost use Rattle.pami_devex.specs.Weights.{AreWeights};
ghost use Rattle.pami_state.specs.State.{basis_of, IsSolvedAfresh};
ghost use Rattle.pami_form.specs.FormOf.{form_of};
ghost use Rattle.pami_minor.specs.Opening.{IsOpenable, first_reached};
ghost use Rattle.pami_batch.specs.Factors.{IsFactorOf};
ghost use Rattle.pami_batch.specs.Batches.{IsOutcome, HasOutcome};
ghost use Rattle.pami_batch.specs.FinishedBatch.{FinishedBatch, IsFinished};
ghost use Rattle.pami_batch.specs.Minors.{IsInside, IsRefusal};
ghost use Rattle.pami_batch.specs.Solves.{most_solves, HasPivots};

use crate::collecting::{CollectedBatch, collect_batch};
use crate::minors::{Minors, run_minors};
use crate::outcome::Outcome;
use pami_chuzr::ChosenRow;
use pami_factor::Factor;
use pami_form::Form;
use pami_frac::{Fault, OutOfMemory};
use pami_log::{Place, Record};
use pami_lu::Steps;
use pami_minor::Minor;
use pami_state::State;
use std::alloc::Global;

/// What a batch comes to where an operation doesn't fit.
///
/// # Errors
///
/// `OutOfMemory` alone, where memory ran out.
fn refused(fault: Fault<Place>) -> Result<Outcome, OutOfMemory>
    ensures { IfOk result (IsRefusal fault) }
{
    match fault {
        Fault::Named(place) => Ok(Outcome::Refused(place)),
        Fault::OutOfMemory => Err(OutOfMemory),
    }
}

/// What a batch that has stopped comes to: its state and its pivots, behind the collective update, or the first refusal there.
///
/// # Errors
///
/// `OutOfMemory` alone.
fn collect_stopped<L>(
    alloc: Global,
    form: &Form,
    state: &State,
    factor: &Factor,
    minor: Minor,
    moves: Record,
    steps: &mut Steps<L>,
) -> Result<Outcome, OutOfMemory>
    requires solved { IsSolvedAfresh (form_of form.now) state.now }
    requires weights { length state.now.weights ≡ length state.now.head }
    requires range { AreWeights state.now.weights }
    requires batch { (b : FinishedBatch) × IsFinished form.now state.now factor.now minor b }
    ensures outcome { (b : FinishedBatch) → IsFinished form.now state.now factor.now minor b
        → IsInside (form_of form.now) b moves
        → IfOk result (IsOutcome (form_of form.now) b.limit b.history b.first b.minors b.last) }
    ensures pivots { IfOk result (HasPivots (length minor.steps.items)) }
    ensures counted { steps.new.count ≤ steps.old.count + (length minor.steps.items + 1) }
{
    match collect_batch(alloc, form, state, factor, minor, steps) {
        Ok(CollectedBatch { state, pivots }) => Ok(Outcome::Collected {
            state,
            pivots,
            moves,
        }),
        Err(fault) => refused(fault),
    }
}

/// Runs a batch from a state with these chosen rows, in order of choice, and so many pivots left. It solves for the rows of
/// the chosen places, takes minor iterations as long as a row is left, and collects what they make of the state.
/// (Huangfu and Hall 2018, section 3.)
///
/// # Errors
///
/// `OutOfMemory` alone; an operation that doesn't fit is an outcome.
pub fn run_batch<L>(
    alloc: Global,
    form: &Form,
    state: &State,
    factor: &Factor,
    chosen: &[ChosenRow],
    steps_left: u32,
    steps: &mut Steps<L>,
) -> Result<Outcome, OutOfMemory>
    requires openable { IsOpenable form.now state.now chosen.now steps_left }
    requires factor { (h : History) × IsFactorOf (form_of form.now) h (basis_of state.now) factor.now }
    // The batch of the rows that are chosen, as the definition takes it, and the outcome of its scripts.
    ensures outcome { IfOk result (λ outcome. (s : Fresh) (most : ℕ) (h : History)
        → IsFresh (form_of form.now) (basis_of state.now) s
        → chosen.now ≡ map chosen_row (the_chosen (form_of form.now) (basis_of state.now) s state.now.weights most)
        → IsFactorOf (form_of form.now) h (basis_of state.now) factor.now
        → HasOutcome (form_of form.now) (state.now.pivots + steps_left) h (first_reached form.now state.now s most) outcome) }
    // A solve for each chosen row, and behind a batch that stops one for each of its pivots and one for the flips.
    ensures counted { steps.new.count ≤ steps.old.count + most_solves (length chosen.now) result }
    ensures few { steps.new.count ≤ steps.old.count + (2 * length chosen.now + 1) }
{
    match run_minors(alloc, form, state, factor, chosen, steps_left, steps) {
        Ok(Minors::Stopped { minor, moves }) => {
            collect_stopped(alloc, form, state, factor, minor, moves, steps)
        }
        Ok(Minors::Stuck { rho, moves }) => Ok(Outcome::NoEntering { rho, moves }),
        Err(fault) => refused(fault),
    }
}
