//! A whole run on a form: the start, phase one in the boxes where it is needed, the switch, phase two.
//! (Koberstein 2005, chapter 4.)

ghost use Rattle.std.specs.Prelude.{◌≡◌, ◌≤◌, ◌+◌, ◌^◌, ℕ, List, [], ◌∷◌, ◌++◌, length, Option, IfOk};
ghost use Rattle.pami_theory.specs.Fresh.{Fresh, IsFresh, IsDualFeasible};
ghost use Rattle.pami_theory.specs.Start.{starting_basis};
ghost use Rattle.pami_theory.specs.Boxes.{boxes_of};
ghost use Rattle.pami_method.specs.Factor.{History};
ghost use Rattle.pami_method.specs.Walk.{State as MethodState, Major, Optimal, IsOptions};
ghost use Rattle.pami_method.specs.Phases.{IsPhaseOne, start_refused, starting_state};
ghost use Rattle.pami_frac.specs.Answers.{Follows};
ghost use Rattle.pami_log.specs.declared.event.Event.{Event as ToldEvent};
ghost use Rattle.pami_log.specs.Events.{events_of};
ghost use Rattle.pami_state.specs.State.{basis_of};
ghost use Rattle.pami_form.specs.FormOf.{form_of};
ghost use Rattle.pami_batch.specs.Factors.{HasFactor};
ghost use Rattle.pami_major.specs.Ready.{IsReady};
ghost use Rattle.pami_major.specs.EndsMajor.{walk_state};
ghost use Rattle.pami_major.specs.Walks.{HasSomeFactor};
ghost use Rattle.pami_phase.specs.Runs.{EndsRun, HasCertificate, LeadsOn, StartsInBoxes, IsBoxesEnd, IsSwitchedFrom, IsSwitchable, boxes_events};
ghost use Rattle.pami_phase.specs.Starts.{IsStart};
ghost use Rattle.pami_phase.specs.declared.answer.Answer.{Answer as ToldAnswer};

use crate::answer::{Answer, ray};
use crate::switch::{can_be_dual_feasible, moved_to_bounds, switched};
use pami_factor::Factor;
use pami_form::{Form, phase_one_form};
use pami_frac::{Fault, Refused};
use pami_log::{Event, Place, Spot, TellFailed, Teller};
use pami_lu::Steps;
use pami_major::{Options, WalkEnd, drive};
use pami_state::{State, start};
use std::alloc::Global;

/// What is answered where an operation of this script doesn't fit.
fn overflow(task: Spot, refused: Refused) -> Answer
    ensures { result ≡ ToldAnswer.Overflow (record { task = task; refused = refused }) }
{
    Answer::Overflow(Place { task, refused })
}

/// The last state of phase one, which is optimal in the boxes, and the count of majors that were tried.
#[derive(Debug, Drop)]
struct BoxesEnd {
    form: Form,
    state: State,
    tried: u64,
}

/// The starting state of a form.
///
/// # Errors
///
/// `Named` exactly where an operation of its values doesn't fit: the first such. `OutOfMemory` where memory runs out.
pub(crate) fn started(alloc: Global, form: &Form) -> Result<State, Fault<Refused>>
    ensures starts { IfOk result (λ st. IsStart (form_of form.now) st) }
    ensures follows { (s : Fresh) → IsFresh (form_of form.now) (starting_basis (form_of form.now)) s → Follows (start_refused (form_of form.now) s) result }
{
    start(
        alloc,
        form.columns.as_slice(),
        form.bounds.as_slice(),
        form.costs.as_slice(),
    )
}

/// Phase two from a state of the form, with a factor of its head or none, behind so many majors.
///
/// # Errors
///
/// Those of `solve`.
fn phase_two<T: Teller, L>(
    alloc: Global,
    form: &Form,
    first: State,
    factor: Option<Factor>,
    tried: u64,
    options: &Options,
    teller: &mut T,
    steps: &mut Steps<L>,
) -> Result<Answer, Fault<TellFailed>>
    requires options { IsOptions options.now }
    requires ready { IsReady form.now options.now.limit first }
    requires factor { HasSomeFactor (form_of form.now) first factor }
    requires number { tried ≤ 2 ^ 62 }
    ensures { (before : List ToldEvent) (h : Option History) → HasFactor (form_of form.now) h (basis_of first) factor
        → LeadsOn (form_of form.now) options.now before tried (walk_state first h)
        → EndsRun (form_of form.now) options.now before
        (T.stands teller.old) (T.stands teller.new) (T.stopped teller.new) (T.faults teller.old) (T.faults teller.new) result }
{
    let mut state = first;
    let mut factor = factor;
    let mut tried = tried;
    match drive(
        alloc,
        form,
        &mut state,
        &mut factor,
        &mut tried,
        options,
        teller,
        steps,
    ) {
        Ok(WalkEnd::Optimal) => Ok(Answer::Optimal { state, factor }),
        Ok(WalkEnd::Limit) => Ok(Answer::Limit { state }),
        Ok(
            WalkEnd::NoEntering {
                place: _,
                side,
                rho,
            },
        ) => match ray(alloc, side, rho) {
            Ok(y) => Ok(Answer::Infeasible { y }),
            Err(_) => Err(Fault::OutOfMemory),
        },
        Ok(WalkEnd::Overflow(place)) => Ok(Answer::Overflow(place)),
        Err(fault) => Err(fault),
    }
}

/// What a run is answered behind an optimal end of phase one whose basis can be dual feasible: the switch, and phase two,
/// whose first factor is the elimination of the switch. `moved` is its state with the variables on the form's own bounds, and
/// `tried` counts the majors so far.
///
/// # Errors
///
/// Those of `solve`.
fn answer_behind_switch<T: Teller, L>(
    alloc: Global,
    form: &Form,
    moved: State,
    tried: u64,
    options: &Options,
    teller: &mut T,
    steps: &mut Steps<L>,
) -> Result<Answer, Fault<TellFailed>>
    requires options { IsOptions options.now }
    requires ready { IsSwitchable (form_of form.now) options.now.limit moved }
    requires number { tried ≤ 2 ^ 62 }
    ensures { (majors : List Major) (st : MethodState) → IsSwitchedFrom (form_of form.now) options.now majors st moved tried
        → EndsRun (form_of form.now) options.now (boxes_events (form_of form.now) options.now majors)
        (T.stands teller.old) (T.stands teller.new) (T.stopped teller.new) (T.faults teller.old) (T.faults teller.new) result }
{
    teller.tell(&Event::Phase(2))?;
    match switched(alloc, form, moved, steps) {
        Ok(next) => {
            let factor = Some(next.factor);
            phase_two(
                alloc, form, next.state, factor, tried, options, teller, steps,
            )
        }
        Err(Fault::Named(refused)) => Ok(overflow(Spot::Switch, refused)),
        Err(Fault::OutOfMemory) => Err(Fault::OutOfMemory),
    }
}

/// What a run is answered behind an optimal end of phase one.
///
/// # Errors
///
/// Those of `solve`.
fn answer_behind_boxes<T: Teller, L>(
    alloc: Global,
    form: &Form,
    end: BoxesEnd,
    options: &Options,
    teller: &mut T,
    steps: &mut Steps<L>,
) -> Result<Answer, Fault<TellFailed>>
    requires options { IsOptions options.now }
    requires boxes { form_of end.form ≡ boxes_of (form_of form.now) }
    requires ready { IsReady end.form options.now.limit end.state }
    requires number { end.tried ≤ 2 ^ 62 }
    ensures { (majors : List Major) (st : MethodState) → IsBoxesEnd (form_of form.now) options.now majors st end.state end.tried
        → EndsRun (form_of form.now) options.now (boxes_events (form_of form.now) options.now majors)
        (T.stands teller.old) (T.stands teller.new) (T.stopped teller.new) (T.faults teller.old) (T.faults teller.new) result }
{
    let moved = moved_to_bounds(alloc, form, &end.state)?;
    if can_be_dual_feasible(form, &moved) {
        return answer_behind_switch(alloc, form, moved, end.tried, options, teller, steps);
    }
    Ok(Answer::DualInfeasible {
        state: end.state,
        form: end.form,
    })
}

/// Phase one from the start in the boxes, and what follows it.
///
/// # Errors
///
/// Those of `solve`.
fn walk_boxes<T: Teller, L>(
    alloc: Global,
    form: &Form,
    boxes: Form,
    first: State,
    options: &Options,
    teller: &mut T,
    steps: &mut Steps<L>,
) -> Result<Answer, Fault<TellFailed>>
    requires options { IsOptions options.now }
    requires boxes { form_of boxes ≡ boxes_of (form_of form.now) }
    requires start { IsStart (boxes_of (form_of form.now)) first }
    ensures { StartsInBoxes (form_of form.now)
        → EndsRun (form_of form.now) options.now (ToldEvent.Phase 1 ∷ [])
        (T.stands teller.old) (T.stands teller.new) (T.stopped teller.new) (T.faults teller.old) (T.faults teller.new) result }
{
    let mut state = first;
    let mut factor = None;
    let mut tried = 0;
    let end = drive(
        alloc,
        &boxes,
        &mut state,
        &mut factor,
        &mut tried,
        options,
        teller,
        steps,
    )?;
    match &end {
        WalkEnd::Optimal => {
            let last = BoxesEnd {
                form: boxes,
                state,
                tried,
            };
            answer_behind_boxes(alloc, form, last, options, teller, steps)
        }
        WalkEnd::Limit => Ok(Answer::Limit { state }),
        // The point 0 is feasible in the boxes.
        WalkEnd::NoEntering { .. } => unreachable!(),
        WalkEnd::Overflow(place) => Ok(Answer::Overflow(*place)),
    }
}

/// A run whose start isn't dual feasible.
///
/// # Errors
///
/// Those of `solve`.
fn phase_one<T: Teller, L>(
    alloc: Global,
    form: &Form,
    options: &Options,
    teller: &mut T,
    steps: &mut Steps<L>,
) -> Result<Answer, Fault<TellFailed>>
    requires options { IsOptions options.now }
    ensures { StartsInBoxes (form_of form.now)
        → EndsRun (form_of form.now) options.now []
        (T.stands teller.old) (T.stands teller.new) (T.stopped teller.new) (T.faults teller.old) (T.faults teller.new) result }
{
    let boxes = phase_one_form(alloc, form)?;
    teller.tell(&Event::Phase(1))?;
    match started(alloc, &boxes) {
        Ok(first) => walk_boxes(alloc, form, boxes, first, options, teller, steps),
        Err(Fault::Named(refused)) => Ok(overflow(Spot::Start, refused)),
        Err(Fault::OutOfMemory) => Err(Fault::OutOfMemory),
    }
}

/// `solve`, of which its answer and its events are proved.
///
/// # Errors
///
/// Those of `solve`.
fn run<T: Teller, L>(
    alloc: Global,
    form: &Form,
    options: &Options,
    teller: &mut T,
    steps: &mut Steps<L>,
) -> Result<Answer, Fault<TellFailed>>
    requires options { IsOptions options.now }
    ensures { EndsRun (form_of form.now) options.now []
        (T.stands teller.old) (T.stands teller.new) (T.stopped teller.new) (T.faults teller.old) (T.faults teller.new) result }
{
    let state = match started(alloc, form) {
        Ok(state) => state,
        Err(Fault::Named(refused)) => return Ok(overflow(Spot::Start, refused)),
        Err(Fault::OutOfMemory) => return Err(Fault::OutOfMemory),
    };
    if state.dual_feasible(form.bounds.as_slice()) {
        teller.tell(&Event::Phase(2))?;
        return phase_two(alloc, form, state, None, 0, options, teller, steps);
    }
    phase_one(alloc, form, options, teller, steps)
}

/// Solves a form: phase two alone where its start is dual feasible; else phase one in the boxes, and phase two behind the
/// switch where its last basis is dual feasible on the form's own bounds. Phase two goes on counting pivots and numbering
/// majors where phase one stopped, and takes over the factor that the switch has eliminated. The teller is told each event but
/// the header.
///
/// # Errors
///
/// `TellFailed` only where the teller's count rose. `OutOfMemory` where memory runs out.
pub fn solve<T: Teller, L>(
    alloc: Global,
    form: &Form,
    options: &Options,
    teller: &mut T,
    steps: &mut Steps<L>,
) -> Result<Answer, Fault<TellFailed>>
    requires options { IsOptions options.now }
    ensures run { EndsRun (form_of form.now) options.now []
        (T.stands teller.old) (T.stands teller.new) (T.stopped teller.new) (T.faults teller.old) (T.faults teller.new) result }
    ensures certificate { IfOk result (λ answer. HasCertificate (form_of form.now) answer) }
{
    run(alloc, form, options, teller, steps)
}
