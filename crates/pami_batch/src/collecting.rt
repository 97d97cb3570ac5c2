//! What a batch leaves, collected: the solves behind its last pivot, and the state there.

ghost use Rattle.std.specs.Prelude.{◌≡◌, ◌≤◌, ◌<◌, ◌+◌, ◌^◌, ℕ, [], length, map, All, IfOk};
ghost use Rattle.pami_frac.specs.Answers.{Follows, FollowsBy, then};
ghost use Rattle.pami_factoring.specs.Solve.{forward_script};
ghost use Rattle.pami_theory.specs.Form.{Form as TheForm};
ghost use Rattle.pami_method.specs.Scripts.{zeros};
ghost use Rattle.pami_method.specs.Work.{pivot_of, column_tasks, transform_tasks, collect_tasks, first_refused};
ghost use Rattle.pami_deferral.specs.Listed.{total_script};
ghost use Rattle.pami_vec.specs.Pivots.{column_pivots, ArePivots};
ghost use Rattle.pami_devex.specs.Weights.{AreWeights};
ghost use Rattle.pami_state.specs.Columns.{column_of};
ghost use Rattle.pami_state.specs.State.{IsSolvedAfresh, values_by_place};
ghost use Rattle.pami_collect.specs.Exchanges.{flips_of};
ghost use Rattle.pami_form.specs.FormOf.{form_of};
ghost use Rattle.pami_batch.specs.Factors.{IsFactorOf};
ghost use Rattle.pami_batch.specs.Batches.{IsStateOf};
ghost use Rattle.pami_batch.specs.FinishedBatch.{FinishedBatch, HasSteps, BeginsAt, IsFinished, first_columns};

use crate::faults::fault_at;
use pami_collect::{collect, collect_values, flip_total, transform};
use pami_factor::Factor;
use pami_form::Form;
use pami_frac::{Fault, FracList, Refused};
use pami_log::{Place, Spot};
use pami_lu::Steps;
use pami_minor::Minor;
use pami_state::State;
use pami_vec::{Pivot, Pivots, SpVec, Step};
use std::alloc::Global;

/// The state behind a batch, and its pivots, by place.
#[derive(Debug, Drop)]
pub(crate) struct CollectedBatch {
    pub(crate) state: State,
    pub(crate) pivots: Pivots,
}

/// What is worked out of a batch by the factor at its beginning: its pivots, and the values by place behind them.
#[derive(Debug, Drop)]
struct SolvedPivots {
    pivots: Vec<Pivot>,
    values: FracList,
}

/// The column of a variable by place. It counts one step.
///
/// # Errors
///
/// `Named` exactly where an operation doesn't fit: the first such. `OutOfMemory` where memory runs out.
fn solve_column<L>(
    alloc: Global,
    form: &Form,
    factor: &Factor,
    variable: u32,
    counter: &mut Steps<L>,
) -> Result<SpVec, Fault<Refused>>
    requires variable { variable < length form.now.columns }
    requires rows { length factor.now.steps ≡ (form_of form.now).rows }
    ensures script { FollowsBy (λ v. v)
        (forward_script factor.now.steps factor.now.pivots (column_of form.now.columns variable)) result }
    ensures counted { counter.new.count ≡ counter.old.count + 1 }
{
    let column = &form.columns.as_slice()[variable as usize];
    factor.solve_forward(alloc, column, counter)
}

/// The columns of the entering variables, by place of the basis at which the batch begins. It counts one step for
/// each.
///
/// # Errors
///
/// `Named` exactly where an operation doesn't fit: the first such, with the solve that it stands in. `OutOfMemory`
/// where memory runs out.
fn solve_columns<L>(
    alloc: Global,
    form: &Form,
    factor: &Factor,
    steps: &[Step],
    counter: &mut Steps<L>,
) -> Result<Vec<SpVec>, Fault<Place>>
    requires batch { (b : FinishedBatch) × HasSteps (form_of form.now) steps.now b
        × IsFactorOf (form_of form.now) b.history b.first.basis factor.now }
    ensures refused { (b : FinishedBatch) → HasSteps (form_of form.now) steps.now b
        → IsFactorOf (form_of form.now) b.history b.first.basis factor.now
        → Follows (first_refused (column_tasks (form_of form.now) b.history 1 b.minors)) result }
    ensures columns { (b : FinishedBatch) → HasSteps (form_of form.now) steps.now b
        → IsFactorOf (form_of form.now) b.history b.first.basis factor.now
        → IfOk result (λ columns. columns.items ≡ first_columns b) }
    ensures counted { counter.new.count ≤ counter.old.count + length steps.now }
{
    let mut columns = Vec::new(alloc);
    for (k, step) in steps.iter().enumerate() {
        match solve_column(alloc, form, factor, step.entering, counter) {
            Ok(column) => columns.push(column)?,
            Err(fault) => {
                let minor = k as u32 + 1;
                return Err(fault_at(Spot::Column { minor }, fault));
            }
        }
    }
    Ok(columns)
}

/// What changes of the rows change at each place. Nothing is solved where no row changes. It counts one step at most.
///
/// # Errors
///
/// `Named` exactly where an operation doesn't fit: the first such. `OutOfMemory` where memory runs out.
fn solve_changes<L>(
    alloc: Global,
    factor: &Factor,
    changes: &SpVec,
    counter: &mut Steps<L>,
) -> Result<SpVec, Fault<Refused>>
    requires rows { length changes.now ≡ length factor.now.steps }
    ensures script { FollowsBy (λ v. v) (forward_script factor.now.steps factor.now.pivots changes.now) result }
    ensures counted { counter.new.count ≤ counter.old.count + 1 }
{
    let length = changes.len();
    if changes.entries().is_empty() {
        return Ok(SpVec::from_entries(alloc, length, &[])?);
    }
    factor.solve_forward(alloc, changes, counter)
}

/// What all flips change at each place. It counts one step at most.
///
/// # Errors
///
/// `Named` exactly where an operation doesn't fit: the first such, those of the sum before those of the solve.
/// `OutOfMemory` where memory runs out.
fn solve_flips<L>(
    alloc: Global,
    factor: &Factor,
    steps: &[Step],
    rows: u32,
    counter: &mut Steps<L>,
) -> Result<SpVec, Fault<Refused>>
    requires flips { All (λ s. length s.flip_column ≡ rows) steps.now }
    requires rows { length factor.now.steps ≡ rows }
    ensures script { FollowsBy (λ v. v) (then (total_script (map flips_of steps.now) (zeros rows))
        (λ total. forward_script factor.now.steps factor.now.pivots total)) result }
    ensures counted { counter.new.count ≤ counter.old.count + 1 }
{
    let total = flip_total(alloc, steps, rows)?;
    solve_changes(alloc, factor, &total, counter)
}

/// The pivots of a batch: each entering column taken through the pivots before its own. The columns are by the basis
/// at which the batch begins.
///
/// # Errors
///
/// `Named` exactly where an operation doesn't fit: the first such, with the pivot that it stands in. `OutOfMemory`
/// where memory runs out.
fn transform_columns(
    alloc: Global,
    steps: &[Step],
    columns: &[SpVec],
) -> Result<Vec<Pivot>, Fault<Place>>
    requires batch { (f : TheForm) × (b : FinishedBatch) × HasSteps f steps.now b × (columns.now ≡ first_columns b) }
    ensures refused { (f : TheForm) (b : FinishedBatch) → HasSteps f steps.now b → columns.now ≡ first_columns b
        → Follows (first_refused (transform_tasks b.first 1 [] b.minors)) result }
    ensures pivots { (f : TheForm) (b : FinishedBatch) → HasSteps f steps.now b → columns.now ≡ first_columns b
        → IfOk result (λ pivots. column_pivots pivots.items ≡ map pivot_of b.minors) }
{
    let mut pivots = Vec::new(alloc);
    for (k, step) in steps.iter().enumerate() {
        let place = step.place;
        match transform(alloc, &columns[k], &pivots) {
            Ok(column) => pivots.push(Pivot { place, column })?,
            Err(fault) => {
                let minor = k as u32 + 1;
                return Err(fault_at(Spot::Transform { minor }, fault));
            }
        }
    }
    Ok(pivots)
}

/// The pivots of a batch and the values by place behind them. It counts a step for each pivot and one for the flips
/// at most.
///
/// # Errors
///
/// `Named` exactly where an operation doesn't fit: the first such, with its script. The columns come first, then the
/// flips, the pivots and the values. `OutOfMemory` where memory runs out.
fn solve_batch<L>(
    alloc: Global,
    form: &Form,
    state: &State,
    factor: &Factor,
    steps: &[Step],
    counter: &mut Steps<L>,
) -> Result<SolvedPivots, Fault<Place>>
    requires solved { IsSolvedAfresh (form_of form.now) state.now }
    requires batch { (b : FinishedBatch) × BeginsAt state.now b × HasSteps (form_of form.now) steps.now b
        × IsFactorOf (form_of form.now) b.history b.first.basis factor.now }
    ensures refused { (b : FinishedBatch) → BeginsAt state.now b → HasSteps (form_of form.now) steps.now b
        → IsFactorOf (form_of form.now) b.history b.first.basis factor.now
        → Follows (first_refused (collect_tasks (form_of form.now) b.history b.first b.minors)) result }
    ensures pivots { (b : FinishedBatch) → BeginsAt state.now b → HasSteps (form_of form.now) steps.now b
        → IsFactorOf (form_of form.now) b.history b.first.basis factor.now
        → IfOk result (λ solved. column_pivots solved.pivots.items ≡ map pivot_of b.minors) }
    ensures values { (b : FinishedBatch) → BeginsAt state.now b → HasSteps (form_of form.now) steps.now b
        → IsFactorOf (form_of form.now) b.history b.first.basis factor.now
        → IfOk result (λ solved. solved.values ≡ values_by_place (form_of form.now) b.last.basis b.last.fresh) }
    ensures counted { counter.new.count ≤ counter.old.count + (length steps.now + 1) }
{
    let columns = solve_columns(alloc, form, factor, steps, counter)?;
    let flips = match solve_flips(alloc, factor, steps, form.rows, counter) {
        Ok(flips) => flips,
        Err(fault) => return Err(fault_at(Spot::Flips, fault)),
    };
    let pivots = transform_columns(alloc, steps, &columns)?;
    let before = state.values.as_slice();
    match collect_values(alloc, before, &flips, steps, &columns, &pivots) {
        Ok(values) => Ok(SolvedPivots { pivots, values }),
        Err(fault) => Err(fault_at(Spot::Values, fault)),
    }
}

/// The state behind a batch that the minor has finished, and the batch's pivots. The form, the state and the factor
/// are those at which the batch began. It counts a step for each pivot and one for the flips at most. (Huangfu and
/// Hall 2018, section 3.)
///
/// # Errors
///
/// `Named` exactly where an operation doesn't fit: the first such, with its script. The solves of the columns come
/// first, then the flips, the columns through the pivots before their own, and the values. `OutOfMemory` where memory
/// runs out.
pub(crate) fn collect_batch<L>(
    alloc: Global,
    form: &Form,
    state: &State,
    factor: &Factor,
    minor: Minor,
    steps: &mut Steps<L>,
) -> Result<CollectedBatch, Fault<Place>>
    requires solved { IsSolvedAfresh (form_of form.now) state.now }
    requires weights { length state.now.weights ≡ length state.now.head }
    requires range { AreWeights state.now.weights }
    requires batch { (b : FinishedBatch) × IsFinished form.now state.now factor.now minor b }
    // The first refusal of the collective update, or none.
    ensures refused { (b : FinishedBatch) → IsFinished form.now state.now factor.now minor b
        → Follows (first_refused (collect_tasks (form_of form.now) b.history b.first b.minors)) result }
    // The state is what the batch has reached, solved afresh, and the pivots are those of its steps.
    ensures state { (b : FinishedBatch) → IsFinished form.now state.now factor.now minor b
        → IfOk result (λ collected. IsStateOf (form_of form.now) b.last collected.state) }
    ensures pivots { (b : FinishedBatch) → IsFinished form.now state.now factor.now minor b
        → IfOk result (λ collected. column_pivots collected.pivots ≡ map pivot_of b.minors) }
    ensures nonzero { IfOk result (λ collected. ArePivots (form_of form.now).rows collected.pivots) }
    ensures counted { steps.new.count ≤ steps.old.count + (length minor.steps.items + 1) }
{
    let SolvedPivots { pivots, values } = solve_batch(
        alloc,
        form,
        state,
        factor,
        minor.steps(),
        steps,
    )?;
    let state = collect(alloc, state, minor.end(), values, &pivots)?;
    let pivots = Pivots::from_vec(pivots);
    Ok(CollectedBatch { state, pivots })
}
