//! One major: the choice of its rows, its factor and its batch.

ghost use Rattle.std.specs.Prelude.{◌≡◌, ◌≤◌, ◌<◌, ◌+◌, ◌*◌, ℕ, Option, length, IfOk, OnErr};
ghost use Rattle.pami_theory.specs.Fresh.{Fresh, IsFresh};
ghost use Rattle.pami_method.specs.Factor.{History};
ghost use Rattle.pami_method.specs.Walk.{IsOptions, most};
ghost use Rattle.pami_form.specs.FormOf.{form_of};
ghost use Rattle.pami_state.specs.State.{basis_of};
ghost use Rattle.pami_batch.specs.Factors.{HasFactor};
ghost use Rattle.pami_major.specs.Ready.{IsReady, IsDueAt};
ghost use Rattle.pami_major.specs.EndsMajor.{IsKnownFor, EndsMajor, LeavesFactor};
ghost use Rattle.pami_major.specs.Tried.{CanTake, Takes, FollowsTried};
ghost use Rattle.pami_major.specs.MostSteps.{rows_chosen, most_tried, most_steps};

use crate::choose::{choose_rows, chosen_places};
use crate::factors::{factor_behind, ready_factor};
use crate::within::has_infeasible;
use pami_batch::{Outcome, run_batch};
use pami_factor::Factor;
use pami_form::Form;
use pami_frac::{Fault, OutOfMemory};
use pami_log::{Mode, Place, Record};
use pami_lu::Steps;
use pami_method::Options;
use pami_state::State;
use pami_vec::{PlaceList, SpVec};
use std::alloc::Global;

/// What a major came to.
#[derive(Debug, Drop)]
pub enum MajorEnd {
    /// No place is infeasible, so none was due.
    Optimal,
    /// Some place is infeasible, and no more pivots are allowed.
    Limit,
    /// It was kept: the places of its chosen rows in order, and what it did.
    Moved {
        chosen: PlaceList,
        moves: Record,
    },
    /// Its last row has no entering variable: the places of its chosen rows in order, the row of that place, by row,
    /// and what it did. The last move tells the place and the side.
    NoEntering {
        chosen: PlaceList,
        rho: SpVec,
        moves: Record,
    },
    /// An operation didn't fit: the first such, with its script.
    Refused(Place),
}

/// The most rows of a major in this mode.
fn most_rows(options: &Options, mode: Mode) -> u32
    ensures { result ≡ most options.now mode }
{
    match mode {
        Mode::Full => options.batch,
        Mode::Single => 1,
    }
}

/// A major that was due, before the state is changed.
#[derive(Debug, Drop)]
enum Tried {
    /// It is kept: the state and the factor behind it, the places of its chosen rows in order, and what it did.
    Kept {
        state: State,
        factor: Factor,
        chosen: PlaceList,
        moves: Record,
    },
    /// Its last row has no entering variable: as `MajorEnd` has it.
    Stuck {
        chosen: PlaceList,
        rho: SpVec,
        moves: Record,
    },
}

/// What a major with this factor and these chosen rows comes to by the outcome of its batch.
///
/// # Errors
///
/// `Named` exactly where the batch is refused. `OutOfMemory` where memory runs out.
fn take_outcome(chosen: PlaceList, used: Factor, outcome: Outcome) -> Result<Tried, Fault<Place>>
    requires pivots { CanTake used outcome }
    ensures { Takes chosen used outcome result }
{
    match outcome {
        Outcome::Collected {
            state,
            pivots,
            moves,
        } => Ok(Tried::Kept {
            state,
            factor: factor_behind(used, pivots)?,
            chosen,
            moves,
        }),
        Outcome::NoEntering { rho, moves } => Ok(Tried::Stuck { chosen, rho, moves }),
        Outcome::Refused(place) => Err(Fault::Named(place)),
    }
}

/// Tries a major that is due.
///
/// # Errors
///
/// `Named` exactly where an operation doesn't fit: the first such, with its script. `OutOfMemory` where memory runs
/// out.
fn attempt<L>(
    alloc: Global,
    form: &Form,
    state: &State,
    factor: Option<Factor>,
    mode: Mode,
    options: &Options,
    steps: &mut Steps<L>,
) -> Result<Tried, Fault<Place>>
    requires due { IsDueAt form.now options.now state.now }
    requires factor { (h : Option History) × HasFactor (form_of form.now) h (basis_of state.now) factor }
    ensures came { (number : ℕ) (h : Option History) → IsKnownFor (form_of form.now) mode h state.now factor
        → FollowsTried form.now options.now number mode h state.now result }
    ensures counted { (s : Fresh) → IsFresh (form_of form.now) (basis_of state.now) s
        → steps.new.count ≤ steps.old.count + most_tried (rows_chosen form.now options.now mode state.now s) result }
    ensures few { steps.new.count ≤ steps.old.count + (2 * most options.now mode + 2) }
{
    let chosen = choose_rows(alloc, form, state, most_rows(options, mode))?;
    let used = ready_factor(alloc, form, state, factor, mode, options, steps)?;
    let left = options.limit - state.pivots;
    let outcome = run_batch(alloc, form, state, &used, &chosen, left, steps)?;
    let places = chosen_places(alloc, &chosen)?;
    take_outcome(places, used, outcome)
}

/// One major in this mode and with this number, from a state that is dual feasible and solved afresh, with a factor of
/// its head or none. A Full major chooses at most `batch` rows, and eliminates the head anew only where there is no
/// factor or it has more than `refactor` pivots; a Single one chooses one row, and always eliminates anew. Behind a
/// kept major the state is the one that its batch has reached, and the factor is one of its head. The state is as
/// before where nothing was due, where a row has no entering variable, and where an operation didn't fit; the factor is then
/// as before, or where a major was tried there may be none. (Huangfu and Hall 2018, section 3.)
///
/// # Errors
///
/// `OutOfMemory` alone; the state is as before.
pub fn major<L>(
    alloc: Global,
    form: &Form,
    state: &mut State,
    factor: &mut Option<Factor>,
    mode: Mode,
    number: u64,
    options: &Options,
    steps: &mut Steps<L>,
) -> Result<MajorEnd, OutOfMemory>
    requires options { IsOptions options.now }
    requires ready { IsReady form.now options.now.limit state.old }
    requires factor { (h : Option History) × HasFactor (form_of form.now) h (basis_of state.old) factor.old }
    // Whatever the history of the factor, as far as a major in this mode asks for it.
    ensures came { IfOk result (λ end. (h : Option History)
        → IsKnownFor (form_of form.now) mode h state.old factor.old
        → EndsMajor form.now options.now number mode h state.old state.new factor.new end) }
    ensures kept { OnErr result (state.new ≡ state.old) }
    ensures factor { (h : Option History) × HasFactor (form_of form.now) h (basis_of state.new) factor.new }
    ensures unkept { LeavesFactor result factor.old factor.new }
    // A step for the elimination, for each chosen row, for each pivot and for the flips.
    ensures counted { (s : Fresh) → IsFresh (form_of form.now) (basis_of state.old) s
        → steps.new.count ≤ steps.old.count + most_steps (rows_chosen form.now options.now mode state.old s) result }
    ensures few { steps.new.count ≤ steps.old.count + (2 * most options.now mode + 2) }
{
    let infeasible = has_infeasible(
        state.head.as_slice(),
        form.bounds.as_slice(),
        state.values.as_slice(),
    );
    if !infeasible {
        return Ok(MajorEnd::Optimal);
    }
    if state.pivots == options.limit {
        return Ok(MajorEnd::Limit);
    }
    match attempt(alloc, form, state, factor.take(), mode, options, steps) {
        Ok(
            Tried::Kept {
                state: behind,
                factor: made,
                chosen,
                moves,
            },
        ) => {
            *state = behind;
            *factor = Some(made);
            Ok(MajorEnd::Moved { chosen, moves })
        }
        Ok(Tried::Stuck { chosen, rho, moves }) => Ok(MajorEnd::NoEntering { chosen, rho, moves }),
        Err(Fault::Named(place)) => Ok(MajorEnd::Refused(place)),
        Err(Fault::OutOfMemory) => Err(OutOfMemory),
    }
}
