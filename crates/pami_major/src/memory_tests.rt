//! A major in which memory runs out: the state is as before, and the same major may be run again.
//!
//! `tools/fail_allocations.sh` lets each allocation of the major fail in turn, and reads these tests' answers.

ghost use Rattle.std.specs.Prelude.{◌≡◌, None, IfNone, IfSome};
ghost use Rattle.pami_major.specs.Ready.{IsReady};

use crate::tests::{at_least, between, frac, model_of, options, started, whole};
use crate::{MajorEnd, Mode, major};
use pami_factor::Factor;
use pami_form::{Form, form_of};
use pami_log::Move;
use pami_lu::Steps;
use pami_state::State;
use pami_vec::Stand;
use std::alloc::Global;
use std::process::Abort;
use std::test::Fail;

/// Both rows are missed at the start; a major flips x, and then pivots in both. None where memory runs out.
fn flipping_form(rt: &impl Abort, alloc: Global) -> Option<Form> {
    let model = model_of(
        rt,
        alloc,
        [at_least(3), at_least(2)],
        &[
            whole(1, between(0, 1), 1, -1),
            whole(2, at_least(0), 1, 1),
            whole(5, at_least(0), 0, 1),
        ],
    )?;
    form_of(alloc, &model).ok()
}

/// Are these states the same?
fn is_same(left: &State, right: &State) -> bool {
    left.head.as_slice() == right.head.as_slice()
        && left.stands.as_slice() == right.stands.as_slice()
        && left.values.as_slice() == right.values.as_slice()
        && left.reduced.as_slice() == right.reduced.as_slice()
        && left.weights.as_slice() == right.weights.as_slice()
        && left.pivots == right.pivots
}

/// A Full major from this state, without a factor.
fn full_major(
    alloc: Global,
    form: &Form,
    state: &mut State,
    factor: &mut Option<Factor>,
) -> Option<MajorEnd>
    requires ready { IsReady form.now 9 state.old }
    requires factor { factor.old ≡ None }
    ensures kept { IfNone result (state.new ≡ state.old) }
{
    let mut steps = Steps::<()>::new();
    let options = options();
    major(
        alloc,
        form,
        state,
        factor,
        Mode::Full,
        1,
        &options,
        &mut steps,
    )
    .ok()
}

/// The starting state; where memory runs out in it, it is made again.
fn started_or_again(alloc: Global, form: &Form) -> Option<State>
    ensures { IfSome result (IsReady form.now 9) }
{
    match started(alloc, form) {
        Some(state) => Some(state),
        None => started(alloc, form),
    }
}

/// Is the first of these moves the flip of x to its upper bound?
fn flips_first(moves: &[Move]) -> bool {
    match moves.first() {
        Some(Move::Flipped { variable, stand }) => *variable == 0 && *stand == Stand::Upper,
        _ => false,
    }
}

/// The major flips x and takes a pivot at each place, behind which y and x are basic.
fn major_is_whole(end: &MajorEnd, state: &State) -> bool {
    match end {
        MajorEnd::Moved { chosen, moves } => {
            chosen.as_slice() == [0, 1].as_slice()
                && moves.as_slice().len() == 3
                && flips_first(moves.as_slice())
                && state.head.as_slice() == [1, 0].as_slice()
                && state.values.as_slice() == [frac(5, 2), frac(1, 2)].as_slice()
                && state.pivots == 2
        }
        _ => false,
    }
}

/// It has its memory. What fails where an allocation fails is named: `a major` where that one is the major's.
#[test]
fn a_major_with_memory_is_whole(rt: HostRuntime) -> Result<(), Fail> {
    let alloc = rt.alloc();
    let form = flipping_form(&rt, alloc).ok_or("a form")?;
    let mut state = started(alloc, &form).ok_or("a start")?;
    let _before = state.copy(alloc).ok().ok_or("a copy")?;
    let mut factor = None;
    let end = full_major(alloc, &form, &mut state, &mut factor).ok_or("a major")?;
    assert!(&rt; major_is_whole(&end, &state));
    Ok(())
}

/// Each part is tried again where memory ran out in it, so this passes whichever single allocation fails.
#[test]
fn a_major_without_memory_leaves_its_state(rt: HostRuntime) -> Result<(), Fail> {
    let alloc = rt.alloc();
    let form = match flipping_form(&rt, alloc) {
        Some(form) => form,
        None => flipping_form(&rt, alloc).ok_or("a form")?,
    };
    let mut state = started_or_again(alloc, &form).ok_or("a start")?;
    let before = match state.copy(alloc) {
        Ok(copy) => copy,
        Err(_) => state.copy(alloc)?,
    };
    let mut factor = None;
    let end = match full_major(alloc, &form, &mut state, &mut factor) {
        Some(end) => end,
        None => {
            assert!(&rt; is_same(&state, &before));
            assert!(&rt; factor.is_none());
            let mut factor = None;
            full_major(alloc, &form, &mut state, &mut factor).ok_or("a major")?
        }
    };
    assert!(&rt; major_is_whole(&end, &state));
    Ok(())
}
