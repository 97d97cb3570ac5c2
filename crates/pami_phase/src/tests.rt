//! Runs of small models: what each is answered, tellers that fail at each of its events, and what one major leaves.

ghost use Rattle.std.specs.Prelude.{◌≡◌, ◌≤◌, IfOk};
ghost use Rattle.pami_method.specs.Walk.{greatest_limit, IsOptions};
ghost use Rattle.pami_major.specs.Ready.{IsReady};

use crate::stages::started;
use crate::{Answer, solve};
use pami_form::{Form, form_of};
use pami_frac::{Bounds, Fault, Frac, Op, Refused};
use pami_log::{Event, ListTeller, Move, Place, Spot, TellFailed, Teller};
use pami_lu::Steps;
use pami_major::{MajorEnd, Mode, Options, major};
use pami_model::{Builder, Sense};
use pami_state::State;
use std::alloc::Global;
use std::process::Abort;
use std::test::Fail;

const MAX: i128 = i128::MAX;

/// A whole number.
fn great(number: i128) -> Frac {
    match Frac::new(number, 1) {
        Ok(value) => value,
        Err(_) => Frac::zero(),
    }
}

fn at_least(low: i128) -> Bounds {
    Bounds {
        low: Some(great(low)),
        high: None,
    }
}

fn at_most(high: i128) -> Bounds {
    Bounds {
        low: None,
        high: Some(great(high)),
    }
}

fn exactly(value: i128) -> Bounds {
    Bounds {
        low: Some(great(value)),
        high: Some(great(value)),
    }
}

/// A column of a model, with an entry for each row.
#[derive(Clone, Copy)]
struct Line<'a> {
    bounds: Bounds,
    cost: i64,
    entries: &'a [i64],
}

/// The form of a model with these rows and columns.
fn form_with(
    rt: &impl Abort,
    alloc: Global,
    sense: Sense,
    rows: &[Bounds],
    columns: &[Line],
) -> Result<Form, Fail> {
    let mut builder = Builder::new(alloc).ok().ok_or("a builder")?;
    builder.set_goal(sense, Frac::zero());
    for (i, bounds) in rows.iter().enumerate() {
        let name = [(i % 256) as u8];
        builder
            .add_row(name.as_slice(), *bounds)
            .ok()
            .ok_or("a row")?;
    }
    for (j, line) in columns.iter().enumerate() {
        let name = [(j % 256) as u8];
        let column = builder.add_column(name.as_slice()).ok().ok_or("a column")?;
        assert!(rt; column < builder.column_count());
        builder.set_column_bounds(column, line.bounds);
        builder.set_cost(column, Frac::whole(line.cost));
        for row in 0..builder.row_count() {
            let value = match line.entries.get(row as usize) {
                Some(value) => Frac::whole(*value),
                None => Frac::zero(),
            };
            assert!(rt; column < builder.column_count());
            assert!(rt; row < builder.row_count());
            builder
                .add_entry(column, row, value)
                .ok()
                .ok_or("an entry")?;
        }
    }
    let model = builder.finish().ok().ok_or("a model")?;
    Ok(form_of(alloc, &model).ok().ok_or("a form")?)
}

/// At most four rows a major, and a factor for at most 16 pivots.
fn options_with(limit: u32) -> Options
    requires { limit ≤ greatest_limit }
    ensures options { IsOptions result }
    ensures limit { result.limit ≡ limit }
{
    Options {
        batch: 4,
        refactor: 16,
        limit,
    }
}

/// max x + y with x + 2 y <= 4 and x - y <= 1: the start isn't dual feasible, and x = 2, y = 1 is optimal.
fn both_phases(rt: &impl Abort, alloc: Global) -> Result<Form, Fail> {
    form_with(
        rt,
        alloc,
        Sense::Max,
        &[at_most(4), at_most(1)],
        &[
            Line {
                bounds: at_least(0),
                cost: 1,
                entries: &[1, 1],
            },
            Line {
                bounds: at_least(0),
                cost: 1,
                entries: &[2, -1],
            },
        ],
    )
}

/// x >= 0 with cost 1, and one row with this entry and these bounds.
fn one_by_one(
    rt: &impl Abort,
    alloc: Global,
    column: Bounds,
    entry: i64,
    row: Bounds,
) -> Result<Form, Fail> {
    form_with(
        rt,
        alloc,
        Sense::Min,
        &[row],
        &[Line {
            bounds: column,
            cost: 1,
            entries: &[entry],
        }],
    )
}

/// Counts its events, and fails at one of them.
#[derive(Debug, Drop)]
struct FailingTeller {
    calls: u64,
    fails_at: u64,
    faults: u64,
}

impl Teller for FailingTeller {
    ghost use Rattle.std.specs.Prelude.{◌≡◌, length};

    ghost stands = { λ t events. length events ≡ t.calls };

    ghost stopped = { λ t events. length events ≡ t.calls };

    ghost faults = { λ t. t.faults };

    fn tell(&mut self, event: &Event) -> Result<(), Fault<TellFailed>> {
        let _told = event;
        if self.calls == u64::MAX || self.faults == u64::MAX {
            return Err(Fault::OutOfMemory);
        }
        self.calls += 1;
        if self.calls == self.fails_at {
            self.faults += 1;
            return Err(Fault::Named(TellFailed));
        }
        Ok(())
    }
}

/// The answer of a form, and the count of events that were told.
fn answer_of(alloc: Global, form: &Form, limit: u32) -> Result<(Answer, u64), Fail>
    requires { limit ≤ greatest_limit }
{
    let mut teller = ListTeller::new(alloc).ok().ok_or("a teller")?;
    let mut steps = Steps::<()>::new();
    let answer = solve(alloc, form, &options_with(limit), &mut teller, &mut steps);
    Ok((
        answer.ok().ok_or("an answer")?,
        teller.events().len() as u64,
    ))
}

/// Is the value of the variable at its place this?
fn has_value(rt: &impl Abort, state: &State, variable: u32, value: Frac) {
    let mut found = false;
    for (place, v) in state.head.as_slice().iter().enumerate() {
        if *v == variable {
            assert_eq!(rt; state.values.as_slice().get(place), Some(&value));
            found = true;
        }
    }
    assert!(rt; found);
}

#[test]
fn both_phases_end_optimal(rt: HostRuntime) -> Result<(), Fail> {
    let form = both_phases(&rt, rt.alloc())?;
    let (answer, _) = answer_of(rt.alloc(), &form, 10)?;
    match answer {
        Answer::Optimal { state, factor } => {
            has_value(&rt, &state, 0, Frac::whole(2));
            has_value(&rt, &state, 1, Frac::whole(1));
            assert!(rt; factor.is_some());
            Ok(())
        }
        _ => Err(Fail::from("an optimal answer")),
    }
}

/// Where nothing is to be done there is no factor.
#[test]
fn an_optimal_start_has_no_factor(rt: HostRuntime) -> Result<(), Fail> {
    let inside = one_by_one(&rt, rt.alloc(), at_least(0), 1, at_most(5))?;
    let (answer, events) = answer_of(rt.alloc(), &inside, 10)?;
    assert_eq!(rt; events, 1);
    match answer {
        Answer::Optimal { state: _, factor } => {
            assert!(rt; factor.is_none());
            Ok(())
        }
        _ => Err(Fail::from("an optimal answer")),
    }
}

/// A teller that fails at its k-th event is told no more, for each k.
#[test]
fn tellers_fail_at_each_event(rt: HostRuntime) -> Result<(), Fail> {
    let form = both_phases(&rt, rt.alloc())?;
    let (_, count) = answer_of(rt.alloc(), &form, 10)?;
    assert!(rt; count > 3);
    for k in 1..count {
        let mut teller = FailingTeller {
            calls: 0,
            fails_at: k,
            faults: 0,
        };
        let mut steps = Steps::<()>::new();
        let answer = solve(
            rt.alloc(),
            &form,
            &options_with(10),
            &mut teller,
            &mut steps,
        );
        assert!(rt; matches!(answer, Err(Fault::Named(TellFailed))));
        assert_eq!(rt; teller.calls, k);
        assert_eq!(rt; teller.faults, 1);
    }
    Ok(())
}

/// max x with x - y <= 1 has a ray; x <= -1 has no point; a start may not fit; and no pivots may be allowed.
#[test]
fn other_answers(rt: HostRuntime) -> Result<(), Fail> {
    let rising = form_with(
        &rt,
        rt.alloc(),
        Sense::Max,
        &[at_most(1)],
        &[
            Line {
                bounds: at_least(0),
                cost: 1,
                entries: &[1],
            },
            Line {
                bounds: at_least(0),
                cost: 0,
                entries: &[-1],
            },
        ],
    )?;
    let (answer, _) = answer_of(rt.alloc(), &rising, 10)?;
    assert!(rt; matches!(answer, Answer::DualInfeasible { .. }));
    let (answer, _) = answer_of(rt.alloc(), &both_phases(&rt, rt.alloc())?, 0)?;
    assert!(rt; matches!(answer, Answer::Limit { .. }));
    let empty = one_by_one(&rt, rt.alloc(), at_least(0), 1, at_most(-1))?;
    let (answer, _) = answer_of(rt.alloc(), &empty, 10)?;
    assert!(rt; matches!(answer, Answer::Infeasible { .. }));
    let wide = one_by_one(&rt, rt.alloc(), exactly(MAX), 2, at_most(0))?;
    let (answer, events) = answer_of(rt.alloc(), &wide, 10)?;
    assert_eq!(rt; events, 0);
    let place = Place {
        task: Spot::Start,
        refused: Refused {
            op: Op::Mul,
            left: Frac::whole(2),
            right: great(MAX),
        },
    };
    match answer {
        Answer::Overflow(found) => assert_eq!(rt; found, place),
        _ => return Err(Fail::from("an overflow")),
    }
    Ok(())
}

/// The starting state of a form, which has to be dual feasible.
fn ready_start(alloc: Global, form: &Form, limit: u32) -> Result<State, Fail>
    ensures { IfOk result (λ st. IsReady form.now limit st) }
{
    let state = match started(alloc, form) {
        Ok(state) => state,
        Err(_) => return Err(Fail::from("a start")),
    };
    if !state.dual_feasible(form.bounds.as_slice()) {
        return Err(Fail::from("a dual feasible start"));
    }
    Ok(state)
}

/// What a major comes to from the start of a form, with the state before it and the one behind it.
fn major_of(alloc: Global, form: &Form, limit: u32) -> Result<(MajorEnd, State, State), Fail>
    requires { limit ≤ greatest_limit }
{
    let mut state = ready_start(alloc, form, limit)?;
    let before = state.copy(alloc).ok().ok_or("a copy")?;
    let mut steps = Steps::<()>::new();
    let options = options_with(limit);
    let mut factor = None;
    match major(
        alloc,
        form,
        &mut state,
        &mut factor,
        Mode::Full,
        1,
        &options,
        &mut steps,
    ) {
        Ok(end) => Ok((end, before, state)),
        Err(_) => Err(Fail::from("a major")),
    }
}

/// Have both states the same lists and the same count?
fn is_same(rt: &impl Abort, before: &State, behind: &State) {
    assert_eq!(rt; before.head.as_slice(), behind.head.as_slice());
    assert_eq!(rt; before.stands.as_slice(), behind.stands.as_slice());
    assert_eq!(rt; before.values.as_slice(), behind.values.as_slice());
    assert_eq!(rt; before.reduced.as_slice(), behind.reduced.as_slice());
    assert_eq!(rt; before.pivots, behind.pivots);
}

/// Only a kept major moves the state.
#[test]
fn majors_leave_the_state(rt: HostRuntime) -> Result<(), Fail> {
    let inside = one_by_one(&rt, rt.alloc(), at_least(0), 1, at_most(5))?;
    let (end, before, behind) = major_of(rt.alloc(), &inside, 10)?;
    assert!(rt; matches!(end, MajorEnd::Optimal));
    is_same(&rt, &before, &behind);
    let outside = one_by_one(&rt, rt.alloc(), at_least(0), 1, at_most(-1))?;
    let (end, before, behind) = major_of(rt.alloc(), &outside, 0)?;
    assert!(rt; matches!(end, MajorEnd::Limit));
    is_same(&rt, &before, &behind);
    let (end, before, behind) = major_of(rt.alloc(), &outside, 10)?;
    match end {
        MajorEnd::NoEntering { chosen, rho, moves } => {
            assert_eq!(rt; chosen.as_slice(), [0].as_slice());
            assert_eq!(rt; rho.len(), 1);
            assert!(rt; matches!(moves.as_slice().first(), Some(Move::Stuck { place: 0, .. })));
        }
        _ => return Err(Fail::from("no entering variable")),
    }
    is_same(&rt, &before, &behind);
    let wide = one_by_one(&rt, rt.alloc(), exactly(MAX), 1, at_most(-MAX))?;
    let (end, before, behind) = major_of(rt.alloc(), &wide, 10)?;
    match end {
        MajorEnd::Refused(place) => assert!(rt; matches!(place.task, Spot::Choose)),
        _ => return Err(Fail::from("a refusal")),
    }
    is_same(&rt, &before, &behind);
    let below = one_by_one(&rt, rt.alloc(), at_least(0), 1, at_least(1))?;
    let (end, _, behind) = major_of(rt.alloc(), &below, 10)?;
    assert!(rt; matches!(end, MajorEnd::Moved { .. }));
    assert_eq!(rt; behind.head.as_slice(), [0].as_slice());
    assert_eq!(rt; behind.values.as_slice(), [Frac::one()].as_slice());
    assert_eq!(rt; behind.pivots, 1);
    Ok(())
}
