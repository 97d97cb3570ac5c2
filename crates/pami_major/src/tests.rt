//! Walks of whole batches that pass boxed variables, over small models. Every expected text and value is worked out from the method by hand.

ghost use Rattle.std.specs.Prelude.{◌≡◌, IfSome};
ghost use Rattle.pami_major.specs.Ready.{IsReady};

use crate::{Options, WalkEnd, drive};
use pami_form::{Form, form_of};
use pami_frac::{Bounds, Frac, OutOfMemory};
use pami_log::{ListTeller, print_event, push_place};
use pami_lu::Steps;
use pami_model::{Builder, Model};
use pami_state::{State, start};
use pami_vec::Stand;
use std::alloc::Global;
use std::process::Abort;
use std::test::Fail;

/// A column: its cost, its bounds, and its entries in the two rows.
#[derive(Clone, Copy)]
pub(crate) struct Column {
    cost: Frac,
    bounds: Bounds,
    entries: [Frac; 2],
}

/// A fraction, for numbers that make one.
pub(crate) fn frac(numerator: i128, denominator: i128) -> Frac {
    match Frac::new(numerator, denominator) {
        Ok(value) => value,
        Err(_) => Frac::zero(),
    }
}

fn bounds(low: Option<Frac>, high: Option<Frac>) -> Bounds {
    Bounds { low, high }
}

pub(crate) fn between(low: i64, high: i64) -> Bounds {
    bounds(Some(Frac::whole(low)), Some(Frac::whole(high)))
}

pub(crate) fn at_least(low: i64) -> Bounds {
    bounds(Some(Frac::whole(low)), None)
}

/// A column of whole numbers.
pub(crate) fn whole(cost: i64, bounds: Bounds, first: i64, second: i64) -> Column {
    Column {
        cost: Frac::whole(cost),
        bounds,
        entries: [Frac::whole(first), Frac::whole(second)],
    }
}

/// The least cost over the rows 1 and 2 and the columns x, y and z, as far as they go; None where memory runs out.
pub(crate) fn model_of(
    rt: &impl Abort,
    alloc: Global,
    rows: [Bounds; 2],
    columns: &[Column],
) -> Option<Model> {
    let mut builder = Builder::new(alloc).ok()?;
    for (i, limits) in rows.iter().enumerate() {
        let name = [b'1' + (i % 2) as u8];
        builder.add_row(name.as_slice(), *limits).ok()?;
    }
    for (j, it) in columns.iter().enumerate() {
        let name = [b'x' + (j % 3) as u8];
        let column = builder.add_column(name.as_slice()).ok()?;
        assert!(rt; column < builder.column_count());
        builder.set_column_bounds(column, it.bounds);
        builder.set_cost(column, it.cost);
        for (row, value) in it.entries.iter().enumerate() {
            let row = (row % 2) as u32;
            assert!(rt; column < builder.column_count());
            assert!(rt; row < builder.row_count());
            builder.add_entry(column, row, *value).ok()?;
        }
    }
    builder.finish().ok()
}

/// How a walk ended, its last state, and what it told.
#[derive(Drop)]
struct Outcome {
    end: WalkEnd,
    state: State,
    teller: ListTeller,
}

/// The options of all walks here: batches of at most four rows, and at most nine pivots.
pub(crate) fn options() -> Options
    ensures { result ≡ record { batch = 4; refactor = 16; limit = 9 } }
{
    Options {
        batch: 4,
        refactor: 16,
        limit: 9,
    }
}

/// The starting state of a form; None where memory runs out, where an operation doesn't fit, or where it isn't dual feasible.
pub(crate) fn started(alloc: Global, form: &Form) -> Option<State>
    ensures { IfSome result (IsReady form.now 9) }
{
    let bounds = form.bounds.as_slice();
    let state = match start(
        alloc,
        form.columns.as_slice(),
        bounds,
        form.costs.as_slice(),
    ) {
        Ok(state) => state,
        Err(_) => return None,
    };
    if !state.dual_feasible(bounds) {
        return None;
    }
    Some(state)
}

/// The walk from the start of the model's form.
fn walked(alloc: Global, model: &Model) -> Result<Outcome, Fail> {
    let form = form_of(alloc, model).ok().ok_or("a form")?;
    let mut state = started(alloc, &form).ok_or("a start")?;
    let options = options();
    let mut steps = Steps::<()>::new();
    let mut factor = None;
    let mut tried = 0;
    let mut teller = ListTeller::new(alloc).ok().ok_or("a teller")?;
    match drive(
        alloc,
        &form,
        &mut state,
        &mut factor,
        &mut tried,
        &options,
        &mut teller,
        &mut steps,
    ) {
        Ok(end) => Ok(Outcome { end, state, teller }),
        Err(_) => Err(Fail::from("a walk")),
    }
}

/// The lines of a walk's events, and a line for its end.
fn text_of(alloc: Global, model: &Model, walk: &Outcome) -> Result<Vec<u8>, OutOfMemory> {
    let mut text = Vec::new(alloc);
    for event in walk.teller.events() {
        text.extend_from_slice(print_event(alloc, model, event)?.as_slice())?;
    }
    match &walk.end {
        WalkEnd::Optimal => text.extend_from_slice(b"optimal")?,
        WalkEnd::Limit => text.extend_from_slice(b"limit")?,
        WalkEnd::NoEntering {
            place: _,
            side: _,
            rho: _,
        } => text.extend_from_slice(b"infeasible")?,
        WalkEnd::Overflow(place) => {
            text.extend_from_slice(b"overflow")?;
            push_place(&mut text, place)?;
        }
    }
    text.push(b'\n')?;
    Ok(text)
}

/// Does the walk over this model have this text, and do the columns and the places stand like this behind it?
fn ends_so(
    rt: &impl Abort,
    alloc: Global,
    rows: [Bounds; 2],
    columns: &[Column],
    text: &str,
    stands: &[Stand],
    values: [Frac; 2],
) -> Result<(), Fail> {
    let model = model_of(rt, alloc, rows, columns).ok_or("a model")?;
    let walk = walked(alloc, &model)?;
    let told = text_of(alloc, &model, &walk)?;
    assert!(rt; told.as_slice() == text.as_bytes(), "{text}");
    let found = walk.state.stands.as_slice();
    assert!(rt; columns.len() <= found.len());
    assert!(rt; &found[..columns.len()] == stands, "stands of {text}");
    assert!(rt;
        walk.state.values.as_slice() == values.as_slice(),
        "values of {text}"
    );
    Ok(())
}

#[test]
fn passed_columns_go_to_their_other_bounds(rt: HostRuntime) -> Result<(), Fail> {
    // x is passed, as 3 - 1 is above 0; it has no entry in row 2, which holds.
    ends_so(
        &rt,
        rt.alloc(),
        [at_least(3), between(0, 9)],
        &[whole(1, between(0, 1), 1, 0), whole(2, at_least(0), 1, 1)],
        "major 1 full 0\nflip x:x U\npivot 1 0 r:1 L x:y 2\noptimal\n",
        &[Stand::Upper, Stand::Basic],
        [Frac::whole(2), Frac::whole(2)],
    )?;
    // The flip takes row 2 past its upper bound, so x comes back, into the basis.
    ends_so(
        &rt,
        rt.alloc(),
        [at_least(3), bounds(None, Some(frac(1, 2)))],
        &[whole(1, between(0, 1), 1, 1), whole(2, at_least(0), 1, 0)],
        "major 1 full 0\nflip x:x U\npivot 1 0 r:1 L x:y 2\nmajor 2 full 1\npivot 2 1 r:2 U x:x 1\noptimal\n",
        &[Stand::Basic, Stand::Basic],
        [frac(5, 2), frac(1, 2)],
    )?;
    // A column of cost below 0 starts at its upper bound 1, so row 1 at -1, and goes to its lower one.
    ends_so(
        &rt,
        rt.alloc(),
        [at_least(3), bounds(None, None)],
        &[whole(-1, between(0, 1), -1, 0), whole(2, at_least(0), 1, 0)],
        "major 1 full 0\nflip x:x L\npivot 1 0 r:1 L x:y 2\noptimal\n",
        &[Stand::Lower, Stand::Basic],
        [Frac::whole(3), Frac::whole(0)],
    )?;
    // The ratio of y is the least: it is passed before x.
    ends_so(
        &rt,
        rt.alloc(),
        [at_least(4), bounds(None, None)],
        &[
            whole(2, between(0, 1), 1, 0),
            whole(1, between(0, 1), 1, 0),
            whole(3, at_least(0), 1, 0),
        ],
        "major 1 full 0\nflip x:y U\nflip x:x U\npivot 1 0 r:1 L x:z 3\noptimal\n",
        &[Stand::Upper, Stand::Upper, Stand::Basic],
        [Frac::whole(2), Frac::whole(0)],
    )
}

/// Both rows are missed at the start, and are worked in one major.
#[test]
fn a_major_works_on_a_batch(rt: HostRuntime) -> Result<(), Fail> {
    // x is flipped for row 1, and enters for row 2 at its upper bound 1.
    ends_so(
        &rt,
        rt.alloc(),
        [at_least(3), at_least(2)],
        &[
            whole(1, between(0, 1), 1, -1),
            whole(2, at_least(0), 1, 1),
            whole(5, at_least(0), 0, 1),
        ],
        "major 1 full 0 1\nflip x:x U\npivot 1 0 r:1 L x:y 2\npivot 2 1 r:2 L x:x 1/2\noptimal\n",
        &[Stand::Basic, Stand::Basic, Stand::Lower],
        [frac(5, 2), frac(1, 2)],
    )?;
    // By the pivot for row 1 row 2 is met as well, and is dropped.
    ends_so(
        &rt,
        rt.alloc(),
        [at_least(8), at_least(4)],
        &[whole(1, at_least(0), 1, 1)],
        "major 1 full 0 1\npivot 1 0 r:1 L x:x 1\ndrop 1\noptimal\n",
        &[Stand::Basic],
        [Frac::whole(8), Frac::whole(8)],
    )
}

/// 10^38.
const GREAT: i128 = 100_000_000_000_000_000_000_000_000_000_000_000_000;

#[test]
fn walks_behind_flips_may_end(rt: HostRuntime) -> Result<(), Fail> {
    // Both columns are passed, and no other may enter; nothing is flipped then.
    ends_so(
        &rt,
        rt.alloc(),
        [at_least(5), bounds(None, None)],
        &[whole(1, between(0, 1), 1, 0), whole(1, between(0, 2), 1, 0)],
        "major 1 full 0\nnone 0 r:1\ninfeasible\n",
        &[Stand::Lower, Stand::Lower],
        [Frac::whole(0), Frac::whole(0)],
    )?;
    // Behind the flip of x row 1 lacks 2, and the step of y, of entry 1 / 10^38, doesn't fit.
    ends_so(
        &rt,
        rt.alloc(),
        [at_least(3), bounds(None, None)],
        &[
            whole(0, between(0, 1), 1, 0),
            Column {
                cost: Frac::whole(1),
                bounds: at_least(0),
                entries: [frac(1, GREAT), Frac::zero()],
            },
        ],
        "rollback 1 step-1 div -2 -1/100000000000000000000000000000000000000\noverflow step-1 div -2 -1/100000000000000000000000000000000000000\n",
        &[Stand::Lower, Stand::Lower],
        [Frac::whole(0), Frac::whole(0)],
    )?;
    // By how much a flip of x would move row 1 doesn't fit.
    ends_so(
        &rt,
        rt.alloc(),
        [at_least(5), bounds(None, None)],
        &[Column {
            cost: Frac::zero(),
            bounds: between(0, 10),
            entries: [frac(GREAT, 1), Frac::zero()],
        }],
        "rollback 1 ratio-1 mul 100000000000000000000000000000000000000 10\noverflow ratio-1 mul 100000000000000000000000000000000000000 10\n",
        &[Stand::Lower],
        [Frac::whole(0), Frac::whole(0)],
    )
}
