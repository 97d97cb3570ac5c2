//! First batches of drawn models, turn by turn, from the starting basis. The models and the lines that are due stand in
//! `drawn_cases.rt`.

ghost use Rattle.std.specs.Prelude.{◌≡◌, ◌<◌, ℕ, [], length, map, true, All, None, IfOk, slice_index_or};
ghost use Rattle.pami_theory.specs.Fresh.{Fresh, IsFresh};
ghost use Rattle.pami_theory.specs.Choice.{InfeasibleRow, chosen as the_chosen};
ghost use Rattle.pami_method.specs.Batch.{Reached as TheReached};
ghost use Rattle.pami_method.specs.Factor.{History};
ghost use Rattle.pami_chuzr.specs.Choice.{chosen_row};
ghost use Rattle.pami_state.specs.State.{basis_of};
ghost use Rattle.pami_form.specs.FormOf.{form_of as the_form_of};
ghost use Rattle.pami_minor.specs.Fresh.{IsFreshMinor, IsPricing};
ghost use Rattle.pami_minor.specs.Lent.{HasRho};
ghost use Rattle.pami_minor.specs.Opening.{IsOpenable};
ghost use Rattle.pami_batch.specs.Factors.{IsFactorOf};
ghost use Rattle.pami_batch.specs.Started.{IsStarted};

use crate::drawn_cases::{FIFTH, FIRST, FOURTH, SECOND, SIXTH, THIRD};
use crate::minors_parts::{bring_behind, price_row, solve_rows, walk_row};
use crate::{Outcome, run_batch};
use pami_chuzr::{ChosenRow, choose};
use pami_factor::Factor;
use pami_form::{Form, form_of};
use pami_frac::{Bounds, Fault, Frac, OutOfMemory, read_fraction};
use pami_log::{Move, Place, Spot, push_place};
use pami_lu::{Steps, eliminate};
use pami_minor::{Minor, RowPick, flips_of};
use pami_model::Builder;
use pami_state::{State, start};
use pami_vec::{SpVec, Step};
use std::alloc::Global;
use std::process::Abort;
use std::test::Fail;

/// A drawn model: a line for each row with its bounds, and one for each column with its cost, its bounds and its entry in each
/// row; an infinite bound is `-`. With it the most rows that are chosen, the most pivots, and the lines that are due of its first
/// batch.
pub(crate) struct Drawn {
    pub(crate) rows: &'static str,
    pub(crate) columns: &'static str,
    pub(crate) most: u32,
    pub(crate) limit: u32,
    pub(crate) due: &'static str,
}

// ---- the model

/// The fraction with this text.
fn number(text: &str) -> Result<Frac, Fail> {
    match read_fraction(text.as_bytes()) {
        Ok(value) => Ok(value),
        Err(_) => Err(Fail::from("a number")),
    }
}

/// A bound, where there is one.
fn bound(text: &str) -> Result<Option<Frac>, Fail> {
    if text == "-" {
        return Ok(None);
    }
    Ok(Some(number(text)?))
}

/// Adds the rows of these lines.
fn add_rows(builder: &mut Builder, lines: &str) -> Result<(), Fail> {
    for (i, line) in lines.split('|').enumerate() {
        let mut words = line.split(' ');
        let low = bound(words.next().ok_or("a lower bound")?)?;
        let high = bound(words.next().ok_or("an upper bound")?)?;
        let name = [(i % 256) as u8];
        builder
            .add_row(name.as_slice(), Bounds { low, high })
            .ok()
            .ok_or("a row")?;
    }
    Ok(())
}

/// Adds a column of this name with the cost, the bounds and the entries of its line.
fn add_column(rt: &impl Abort, builder: &mut Builder, name: u8, line: &str) -> Result<(), Fail> {
    let column = builder
        .add_column([name].as_slice())
        .ok()
        .ok_or("a column")?;
    let mut words = line.split(' ');
    let cost = number(words.next().ok_or("a cost")?)?;
    let low = bound(words.next().ok_or("a lower bound")?)?;
    let high = bound(words.next().ok_or("an upper bound")?)?;
    assert!(rt; column < builder.column_count());
    builder.set_cost(column, cost);
    assert!(rt; column < builder.column_count());
    builder.set_column_bounds(column, Bounds { low, high });
    for (row, word) in words.enumerate() {
        let row = (row % 256) as u32;
        let value = number(word)?;
        assert!(rt; column < builder.column_count());
        assert!(rt; row < builder.row_count());
        builder
            .add_entry(column, row, value)
            .ok()
            .ok_or("an entry")?;
    }
    Ok(())
}

/// The form of a drawn model.
fn form_with(rt: &impl Abort, alloc: Global, drawn: &Drawn) -> Result<Form, Fail> {
    let mut builder = Builder::new(alloc).ok().ok_or("a builder")?;
    add_rows(&mut builder, drawn.rows)?;
    for (j, line) in drawn.columns.split('|').enumerate() {
        add_column(rt, &mut builder, (j % 256) as u8, line)?;
    }
    let model = builder.finish().ok().ok_or("a model")?;
    Ok(form_of(alloc, &model).ok().ok_or("a form")?)
}

// ---- what a batch begins with

/// The starting state.
fn started(alloc: Global, form: &Form) -> Result<State, Fail>
    ensures { IfOk result (IsStarted form.now) }
{
    match start(
        alloc,
        form.columns.as_slice(),
        form.bounds.as_slice(),
        form.costs.as_slice(),
    ) {
        Ok(state) => Ok(state),
        Err(_) => Err(Fail::from("a start")),
    }
}

/// The bounds of the basic variables, by place.
fn place_bounds(alloc: Global, bounds: &[Bounds], head: &[u32]) -> Result<Vec<Bounds>, OutOfMemory>
    requires { All (λ v. v < length bounds.now) head.now }
    ensures { IfOk result (λ by_place. by_place.items
        ≡ map (λ v. slice_index_or bounds.now v (record { low = None; high = None })) head.now) }
{
    let mut by_place = Vec::new(alloc);
    for v in head {
        by_place.push(bounds[*v as usize])?;
    }
    Ok(by_place)
}

/// The rows that are chosen, at most so many.
fn chosen_rows(
    alloc: Global,
    form: &Form,
    state: &State,
    most: u32,
) -> Result<Vec<ChosenRow>, Fault<Place>>
    requires { IsStarted form.now state.now }
    ensures { IfOk result (λ rows. (s : Fresh) → IsFresh (the_form_of form.now) (basis_of state.now) s
        → rows.items ≡ map chosen_row (the_chosen (the_form_of form.now) (basis_of state.now) s state.now.weights most)) }
{
    let by_place = place_bounds(alloc, form.bounds.as_slice(), state.head.as_slice())?;
    let values = state.values.as_slice();
    match choose(alloc, values, &by_place, state.weights.as_slice(), most) {
        Ok(rows) => Ok(rows),
        Err(Fault::Named(refused)) => Err(Fault::Named(Place {
            task: Spot::Choose,
            refused,
        })),
        Err(Fault::OutOfMemory) => Err(Fault::OutOfMemory),
    }
}

/// The factor of the state's head.
fn factored(alloc: Global, form: &Form, state: &State) -> Result<Factor, Fail>
    requires { IsStarted form.now state.now }
    ensures { IfOk result (IsFactorOf (the_form_of form.now) (record { head = state.now.head; pivots = [] }) (basis_of state.now)) }
{
    let mut steps = Steps::<()>::new();
    let columns = form.columns.as_slice();
    match eliminate(alloc, columns, state.head.as_slice(), &mut steps) {
        Ok(lu) => Ok(Factor::of(lu)),
        Err(_) => Err(Fail::from("a factor")),
    }
}

// ---- lines

/// Writes a blank and a count.
fn push_count(out: &mut Vec<u8>, count: u32) -> Result<(), OutOfMemory> {
    out.push(b' ')?;
    Frac::whole(i64::from(count)).append_to(out)
}

/// Writes fractions, a blank before each.
fn push_fractions(out: &mut Vec<u8>, values: &[Frac]) -> Result<(), OutOfMemory> {
    for value in values {
        out.push(b' ')?;
        value.append_to(out)?;
    }
    Ok(())
}

/// Writes the members of a vector, a blank before each.
fn push_members(alloc: Global, out: &mut Vec<u8>, vector: &SpVec) -> Result<(), OutOfMemory> {
    let members = vector.to_dense(alloc)?;
    push_fractions(out, members.as_slice())
}

/// Writes a line for each of these places or variables, with this word.
fn push_each(out: &mut Vec<u8>, word: &[u8], numbers: &[u32]) -> Result<(), OutOfMemory> {
    for number in numbers {
        out.extend_from_slice(word)?;
        push_count(out, *number)?;
        out.push(b'|')?;
    }
    Ok(())
}

/// Writes the line of the chosen places.
fn push_chosen(out: &mut Vec<u8>, chosen: &[ChosenRow]) -> Result<(), OutOfMemory> {
    out.extend_from_slice(b"chosen")?;
    for row in chosen {
        push_count(out, row.place)?;
    }
    out.push(b'|')?;
    Ok(())
}

/// Writes the line of a step.
fn push_step(alloc: Global, out: &mut Vec<u8>, step: &Step) -> Result<(), OutOfMemory> {
    out.extend_from_slice(b"step")?;
    push_count(out, step.place)?;
    push_count(out, step.leaving)?;
    push_count(out, step.entering)?;
    let numbers = [step.tau, step.theta, step.bound, step.old_value];
    push_fractions(out, numbers.as_slice())?;
    push_members(alloc, out, &step.flip_column)?;
    out.push(b'|')?;
    Ok(())
}

/// Writes a line for the row of the inverse of each of these places.
fn push_rows(
    alloc: Global,
    out: &mut Vec<u8>,
    minor: &Minor,
    places: &[u32],
) -> Result<(), OutOfMemory>
    requires { All (λ p. HasRho p minor.now) places.now }
{
    for place in places {
        out.extend_from_slice(b"row")?;
        push_count(out, *place)?;
        push_members(alloc, out, minor.rho(*place))?;
        out.push(b'|')?;
    }
    Ok(())
}

/// A weight as a fraction.
fn weight_of(weight: u64) -> Frac {
    match Frac::new(i128::from(weight), 1) {
        Ok(value) => value,
        Err(_) => Frac::zero(),
    }
}

/// Writes the lines of a state: its values, its weights and its reduced costs.
fn push_state(out: &mut Vec<u8>, state: &State) -> Result<(), OutOfMemory> {
    out.extend_from_slice(b"values")?;
    push_fractions(out, state.values.as_slice())?;
    out.extend_from_slice(b"|weights")?;
    for weight in state.weights.as_slice() {
        out.push(b' ')?;
        weight_of(*weight).append_to(out)?;
    }
    out.extend_from_slice(b"|costs")?;
    push_fractions(out, state.reduced.as_slice())?;
    out.push(b'|')?;
    Ok(())
}

/// Writes the line of a fault.
fn push_fault(out: &mut Vec<u8>, fault: &Fault<Place>) -> Result<(), OutOfMemory> {
    match fault {
        Fault::Named(place) => push_refused(out, place),
        Fault::OutOfMemory => Err(OutOfMemory),
    }
}

/// Writes the line of a refusal.
fn push_refused(out: &mut Vec<u8>, place: &Place) -> Result<(), OutOfMemory> {
    out.extend_from_slice(b"refused")?;
    push_place(out, place)?;
    out.push(b'|')?;
    Ok(())
}

// ---- the batch, turn by turn

/// Takes the picked row through its turn, and writes its lines: does a variable enter?
fn leave(
    alloc: Global,
    form: &Form,
    number: u32,
    place: u32,
    minor: &mut Minor,
    lines: &mut Vec<u8>,
) -> Result<bool, Fault<Place>>
    requires turn { (limit : ℕ) × (r : TheReached) × (row : InfeasibleRow)
        × IsPricing (the_form_of form.now) limit r row 0 minor.old × (row.place ≡ place) }
    ensures fresh { IfOk result (λ on. on ≡ true → (limit : ℕ) × (next : TheReached)
        × IsFreshMinor (the_form_of form.now) limit next minor.new) }
{
    price_row(alloc, form, number, place, minor)?;
    let (walk, step) = walk_row(alloc, form, number, minor)?;
    match step {
        None => {
            push_each(lines, b"none", [place].as_slice())?;
            Ok(false)
        }
        Some(step) => {
            push_each(lines, b"flip", flips_of(&walk))?;
            push_step(alloc, lines, &step)?;
            minor.commit_walk(walk, Some(step));
            let remaining = Vec::from_slice(alloc, minor.remaining())?;
            bring_behind(alloc, form, number, minor)?;
            push_rows(alloc, lines, minor, remaining.as_slice())?;
            Ok(true)
        }
    }
}

/// Takes one turn, and writes its lines: does a variable enter?
fn turn(
    alloc: Global,
    form: &Form,
    number: u32,
    minor: &mut Minor,
    lines: &mut Vec<u8>,
) -> Result<bool, Fault<Place>>
    requires turn { (limit : ℕ) × (r : TheReached) × IsFreshMinor (the_form_of form.now) limit r minor.old }
    ensures fresh { IfOk result (λ on. on ≡ true → (limit : ℕ) × (next : TheReached)
        × IsFreshMinor (the_form_of form.now) limit next minor.new) }
{
    let pick = match minor.next_row() {
        Ok(pick) => pick,
        Err(refused) => {
            return Err(Fault::Named(Place {
                task: Spot::Row { minor: number },
                refused,
            }));
        }
    };
    push_each(lines, b"drop", minor.dropped())?;
    match pick {
        RowPick::Stop => {
            lines.extend_from_slice(b"stop|")?;
            Ok(false)
        }
        RowPick::Row {
            place,
            violation: _,
        } => leave(alloc, form, number, place, minor, lines),
    }
}

/// Takes turns up to the last one, and writes their lines.
fn turns(
    alloc: Global,
    form: &Form,
    minor: &mut Minor,
    lines: &mut Vec<u8>,
) -> Result<(), Fault<Place>>
    requires turn { (limit : ℕ) × (r : TheReached) × IsFreshMinor (the_form_of form.now) limit r minor.old }
{
    for number in 1..99 {
        if !turn(alloc, form, number, minor, lines)? {
            break;
        }
    }
    Ok(())
}

/// The lines of the turns of a batch of these rows.
///
/// # Errors
///
/// `Named` where an operation doesn't fit, `OutOfMemory` where memory runs out; the lines before it are written.
fn run_turns(
    alloc: Global,
    form: &Form,
    state: &State,
    factor: &Factor,
    chosen: &[ChosenRow],
    limit: u32,
    lines: &mut Vec<u8>,
) -> Result<(), Fault<Place>>
    requires openable { IsOpenable form.now state.now chosen.now limit }
    requires factor { (h : History) × IsFactorOf (the_form_of form.now) h (basis_of state.now) factor.now }
{
    let mut steps = Steps::<()>::new();
    let mut minor = Minor::open(alloc, form, state, chosen, limit)?;
    solve_rows(alloc, factor, chosen, &mut minor, &mut steps)?;
    turns(alloc, form, &mut minor, lines)
}

/// Runs a batch of these rows at once, and writes what it leaves.
fn push_end(
    alloc: Global,
    form: &Form,
    state: &State,
    factor: &Factor,
    chosen: &[ChosenRow],
    limit: u32,
    lines: &mut Vec<u8>,
) -> Result<(), OutOfMemory>
    requires openable { IsOpenable form.now state.now chosen.now limit }
    requires factor { (h : History) × IsFactorOf (the_form_of form.now) h (basis_of state.now) factor.now }
{
    let mut steps = Steps::<()>::new();
    match run_batch(alloc, form, state, factor, chosen, limit, &mut steps)? {
        Outcome::Collected {
            state,
            pivots: _,
            moves: _,
        } => push_state(lines, &state),
        Outcome::NoEntering { rho: _, moves: _ } => Ok(()),
        Outcome::Refused(place) => push_refused(lines, &place),
    }
}

/// The lines of the first batch from a starting state, with at most so many rows and pivots.
fn batch_lines(
    alloc: Global,
    form: &Form,
    state: &State,
    most: u32,
    limit: u32,
) -> Result<Vec<u8>, Fail>
    requires { IsStarted form.now state.now }
{
    let factor = factored(alloc, form, state)?;
    let mut lines = Vec::new(alloc);
    let chosen = match chosen_rows(alloc, form, state, most) {
        Ok(chosen) => chosen,
        Err(fault) => {
            push_fault(&mut lines, &fault)?;
            return Ok(lines);
        }
    };
    let rows = chosen.as_slice();
    push_chosen(&mut lines, rows)?;
    match run_turns(alloc, form, state, &factor, rows, limit, &mut lines) {
        Ok(()) => push_end(alloc, form, state, &factor, rows, limit, &mut lines)?,
        Err(fault) => push_fault(&mut lines, &fault)?,
    }
    Ok(lines)
}

/// The lines of a drawn model's first batch.
fn lines_of(rt: &impl Abort, alloc: Global, drawn: &Drawn) -> Result<Vec<u8>, Fail> {
    let form = form_with(rt, alloc, drawn)?;
    let state = started(alloc, &form)?;
    batch_lines(alloc, &form, &state, drawn.most, drawn.limit)
}

/// Has the first batch of each of these models the lines that are due?
pub(crate) fn have_their_lines(
    rt: &impl Abort,
    alloc: Global,
    models: &[Drawn],
) -> Result<(), Fail> {
    for drawn in models {
        let lines = lines_of(rt, alloc, drawn)?;
        assert!(rt; lines.as_slice() == drawn.due.as_bytes(), "{}", drawn.due);
    }
    Ok(())
}

#[test]
fn first_batches_have_their_lines(rt: HostRuntime) -> Result<(), Fail> {
    have_their_lines(&rt, rt.alloc(), FIRST.as_slice())
}

#[test]
fn second_batches_have_their_lines(rt: HostRuntime) -> Result<(), Fail> {
    have_their_lines(&rt, rt.alloc(), SECOND.as_slice())
}

#[test]
fn third_batches_have_their_lines(rt: HostRuntime) -> Result<(), Fail> {
    have_their_lines(&rt, rt.alloc(), THIRD.as_slice())
}

#[test]
fn fourth_batches_have_their_lines(rt: HostRuntime) -> Result<(), Fail> {
    have_their_lines(&rt, rt.alloc(), FOURTH.as_slice())
}

#[test]
fn fifth_batches_have_their_lines(rt: HostRuntime) -> Result<(), Fail> {
    have_their_lines(&rt, rt.alloc(), FIFTH.as_slice())
}

#[test]
fn sixth_batches_have_their_lines(rt: HostRuntime) -> Result<(), Fail> {
    have_their_lines(&rt, rt.alloc(), SIXTH.as_slice())
}
