//! The walk: majors from a state on until there is an answer. (Huangfu and Hall 2018, section 3.)

ghost use Rattle.std.specs.Prelude.{◌≡◌, ◌<◌, ◌≤◌, ◌+◌, ◌*◌, ◌^◌, ℕ, Option, [], List, IfOk};
ghost use Rattle.pami_theory.specs.declared.words.Side.{Side as TheSide};
ghost use Rattle.pami_log.specs.declared.event.Event.{Event};
ghost use Rattle.pami_method.specs.Factor.{History};
ghost use Rattle.pami_method.specs.Walk.{State as MethodState, IsOptions};
ghost use Rattle.pami_form.specs.FormOf.{form_of};
ghost use Rattle.pami_state.specs.State.{basis_of};
ghost use Rattle.pami_batch.specs.Factors.{HasFactor};
ghost use Rattle.pami_major.specs.Ready.{IsReady};
ghost use Rattle.pami_major.specs.EndsMajor.{walk_state, EndsStuck};
ghost use Rattle.pami_major.specs.Spent.{IsSpent, IsSpending, FollowsSpending};
ghost use Rattle.pami_major.specs.Walks.{IsUnderway, HasSomeFactor, AreCounted, EndsSo, FollowsTurn, FollowsTold, FollowsKept};

use crate::majors::{MajorEnd, major};
use pami_factor::Factor;
use pami_form::Form;
use pami_frac::Fault;
use pami_log::{Event, Mode, Move, Place, Record, TellFailed, Teller};
use pami_lu::Steps;
use pami_method::Options;
use pami_rollback::{Kept, keep};
use pami_state::State;
use pami_vec::{PlaceList, Side, SpVec};
use std::alloc::Global;

/// How a walk ended.
#[derive(Debug, Drop)]
pub enum WalkEnd {
    /// No place is infeasible.
    Optimal,
    /// Some place is infeasible, and no more pivots are allowed.
    Limit,
    /// No variable can enter at this place, whose variable is outside on this side; the row of the place, by row.
    NoEntering { place: u32, side: Side, rho: SpVec },
    /// An operation of a Single major didn't fit.
    Overflow(Place),
}

/// What becomes of a walk behind one major: it ends, or goes on with a major in this mode.
#[derive(Debug, Drop)]
enum Turned {
    Ends(Result<WalkEnd, Fault<TellFailed>>),
    GoesOn(Mode),
}

/// The event of a major that is told with its chosen rows and what it did.
fn major_event(number: u64, mode: Mode, chosen: PlaceList, moves: Record) -> Event
    ensures { result ≡ Event.Major number mode chosen moves }
{
    Event::Major {
        number,
        mode,
        chosen,
        moves,
    }
}

/// The end at the place and on the side that the last of these moves tells, with the row of the place.
fn stuck_end(moves: &[Move], rho: SpVec) -> WalkEnd
    requires { (place : ℕ) × (side : TheSide) × EndsStuck moves.now place side }
    ensures { (place : ℕ) (side : TheSide) → EndsStuck moves.now place side → result ≡ WalkEnd.NoEntering place side rho }
{
    match moves.last() {
        Some(
            Move::Stuck {
                place,
                leaving: _,
                side,
            },
        ) => WalkEnd::NoEntering {
            place: *place,
            side: *side,
            rho,
        },
        _ => unreachable!(),
    }
}

/// Tells an event. Where it is told, `next` follows, and else the walk ends.
fn tell_then<T: Teller>(event: &Event, next: Turned, teller: &mut T) -> Turned
    ensures { FollowsTold event.now next (T.stands teller.old) (T.stands teller.new) (T.stopped teller.new) (T.faults teller.old) (T.faults teller.new) result }
{
    match teller.tell(event) {
        Ok(()) => next,
        Err(fault) => Turned::Ends(Err(fault)),
    }
}

/// Tells a kept major, behind which the next is Full. Where memory runs out the state is made again as it was before the
/// major, and the factor, which is one of the state behind it, is let go.
fn tell_kept<T: Teller>(
    event: &Event,
    kept: Kept,
    state: &mut State,
    factor: &mut Option<Factor>,
    teller: &mut T,
) -> Turned
    ensures { FollowsKept event.now kept.state state.old state.new factor.old factor.new
        (T.stands teller.old) (T.stands teller.new) (T.stopped teller.new) (T.faults teller.old) (T.faults teller.new) result }
{
    match teller.tell(event) {
        Ok(()) => Turned::GoesOn(Mode::Full),
        Err(Fault::Named(failed)) => Turned::Ends(Err(Fault::Named(failed))),
        Err(Fault::OutOfMemory) => {
            kept.restore(state);
            *factor = None;
            Turned::Ends(Err(Fault::OutOfMemory))
        }
    }
}

/// What follows a refused major: a Full one is told as rolled back, and a Single one follows from the same state; a refusal
/// of that one ends the walk, and isn't told.
fn tell_refused<T: Teller>(number: u64, mode: Mode, place: Place, teller: &mut T) -> Turned
    ensures full { mode ≡ Mode.Full → FollowsTold (Event.Rollback number place) (Turned.GoesOn Mode.Single)
        (T.stands teller.old) (T.stands teller.new) (T.stopped teller.new) (T.faults teller.old) (T.faults teller.new) result }
    ensures single { mode ≡ Mode.Single → (result ≡ Turned.Ends (Ok (WalkEnd.Overflow place))) × (teller.new ≡ teller.old) }
{
    match mode {
        Mode::Full => tell_then(
            &Event::Rollback { number, place },
            Turned::GoesOn(Mode::Single),
            teller,
        ),
        Mode::Single => Turned::Ends(Ok(WalkEnd::Overflow(place))),
    }
}

/// The end of a walk where no major is due, or what follows its next major. The state is kept before the major.
fn turn<T: Teller, L>(
    alloc: Global,
    form: &Form,
    state: &mut State,
    factor: &mut Option<Factor>,
    mode: Mode,
    tried: &mut u64,
    options: &Options,
    teller: &mut T,
    steps: &mut Steps<L>,
) -> Turned
    requires options { IsOptions options.now }
    requires ready { IsReady form.now options.now.limit state.old }
    requires factor { HasSomeFactor (form_of form.now) state.old factor.old }
    requires number { tried.old + 1 < 2 ^ 64 }
    ensures turned { (before : ℕ) (first : MethodState) (events : List Event)
        → IsUnderway form.now options.now before first state.old factor.old mode tried.old events
        → FollowsTurn form.now options.now before first events state.old mode tried.old state.new factor.new tried.new
        (T.stands teller.old) (T.stands teller.new) (T.stopped teller.new) (T.faults teller.old) (T.faults teller.new) result }
    ensures factor { HasSomeFactor (form_of form.now) state.new factor.new }
    ensures spent { (before : ℕ) (first : MethodState) (counted : ℕ)
        → IsSpending (form_of form.now) options.now before first counted state.old factor.old mode tried.old steps.old.count
        → FollowsSpending (form_of form.now) options.now before first counted state.new factor.new tried.new steps.new.count result }
    ensures counted { AreCounted tried.old tried.new (2 * options.now.batch + 2) steps.old.count steps.new.count }
{
    let kept = match keep(alloc, state) {
        Ok(kept) => kept,
        Err(_) => return Turned::Ends(Err(Fault::OutOfMemory)),
    };
    let number = *tried + 1;
    let end = match major(alloc, form, state, factor, mode, number, options, steps) {
        Ok(end) => end,
        Err(_) => {
            *tried = number;
            return Turned::Ends(Err(Fault::OutOfMemory));
        }
    };
    match end {
        MajorEnd::Optimal => Turned::Ends(Ok(WalkEnd::Optimal)),
        MajorEnd::Limit => Turned::Ends(Ok(WalkEnd::Limit)),
        MajorEnd::Moved { chosen, moves } => {
            *tried = number;
            let event = major_event(number, mode, chosen, moves);
            tell_kept(&event, kept, state, factor, teller)
        }
        MajorEnd::NoEntering { chosen, rho, moves } => {
            *tried = number;
            let stuck = stuck_end(moves.as_slice(), rho);
            let event = major_event(number, mode, chosen, moves);
            tell_then(&event, Turned::Ends(Ok(stuck)), teller)
        }
        MajorEnd::Refused(place) => {
            *tried = number;
            tell_refused(number, mode, place, teller)
        }
    }
}

/// Walks from a state, with a factor of its head or none: majors until no place is infeasible, the limit of pivots is met, a
/// row has no entering variable, or an operation of a Single major doesn't fit. The first major is Full; a Full one that is
/// refused is rolled back and followed by a Single one from the same state, and behind each kept one the next is Full.
/// Majors are numbered behind `tried`, which counts each. A kept major takes a pivot, and one that is rolled back is followed
/// by a Single one, so the limit ends every walk. An optimal end leaves the factor that the last kept major made, and the
/// first one where none was kept; any other leaves one of the last state's head, or none.
///
/// # Errors
///
/// `TellFailed` only where the teller's count rose; a kept major has moved the state then, whether it could be told or not.
/// `OutOfMemory` where memory runs out; a major that wasn't told for it hasn't moved the state.
pub fn drive<T: Teller, L>(
    alloc: Global,
    form: &Form,
    state: &mut State,
    factor: &mut Option<Factor>,
    tried: &mut u64,
    options: &Options,
    teller: &mut T,
    steps: &mut Steps<L>,
) -> Result<WalkEnd, Fault<TellFailed>>
    requires options { IsOptions options.now }
    requires ready { IsReady form.now options.now.limit state.old }
    requires factor { HasSomeFactor (form_of form.now) state.old factor.old }
    requires number { tried.old ≤ 2 ^ 62 }
    // The walk from the first state with the factor's history, and what the teller was told of it.
    ensures walked { (h : Option History) → HasFactor (form_of form.now) h (basis_of state.old) factor.old
        → EndsSo form.now options.now tried.old (walk_state state.old h) [] state.new factor.new tried.new
        (T.stands teller.old) (T.stands teller.new) (T.stopped teller.new) (T.faults teller.old) (T.faults teller.new) result }
    ensures factor { HasSomeFactor (form_of form.now) state.new factor.new }
    // Each kept major takes a pivot, and each that is rolled back is followed by a Single one.
    ensures few { IfOk result (λ _. tried.new ≤ tried.old + (2 * options.now.limit + 2)) }
    // Each major of the walk counts a step for its elimination, for each chosen row, for each pivot and for the flips; one
    // that is refused as many pivots as rows.
    ensures spent { (h : Option History) → HasFactor (form_of form.now) h (basis_of state.old) factor.old
        → IfOk result (λ _. IsSpent (form_of form.now) options.now tried.old (walk_state state.old h) steps.old.count steps.new.count) }
    // Whatever it comes to, each takes at most an elimination, two solves for each row of a batch, and one for the flips.
    ensures counted { AreCounted tried.old tried.new (2 * options.now.batch + 2) steps.old.count steps.new.count }
{
    let mut mode = Mode::Full;
    loop {
        match turn(
            alloc, form, state, factor, mode, tried, options, teller, steps,
        ) {
            Turned::Ends(outcome) => return outcome,
            Turned::GoesOn(next) => mode = next,
        }
    }
}
