//! The forward solve: down with the right side, up with the solution, and through the pivots since.

ghost use Rattle.std.specs.Prelude.{◌≡◌, ◌<◌, ◌^◌, [], List, Bool, length, replicate, set, true, false, IfOk};
ghost use Rattle.pami_linear.specs.Lists.{get};
ghost use Rattle.pami_frac.specs.Signs.{is_zero};
ghost use Rattle.pami_frac.specs.Answers.{FollowsBy, BecomesBy};
ghost use Rattle.pami_factoring.specs.Solve.{sub_multiples, lowered, value_at, raised, forward_script};
ghost use Rattle.pami_vec.specs.Pivots.{column_pivots, ArePivots};
ghost use Rattle.pami_lu.specs.declared.step.SparseStep.{SparseStep};
ghost use Rattle.pami_lu.specs.Stored.{full_step, full_steps, IsStored, AreWhole};
ghost use Rattle.pami_factor.specs.Reads.{IsRead};

use crate::dense::{vector_of, zeros};
use crate::sums::subtract_entries;
use pami_frac::{Fault, Frac, Refused};
use pami_lu::SparseStep;
use pami_vec::{Change, Pivot, SpVec, change_members, go_through_all};
use std::alloc::Global;

/// Takes the multiples of one step from the right side, by row. Where the member in the pivot's row is 0 nothing is to be
/// done, and else only the rows that have a multiplier are walked.
fn take_multiples(right: &mut [Frac], step: &SparseStep) -> Result<(), Refused>
    requires few { length right.old < 2 ^ 32 }
    requires low { step.now.row < length right.old }
    requires same { length step.now.multipliers ≡ length right.old }
    ensures script { (ts cs : List Bool) → length ts ≡ length right.old → IsStored (length right.old) ts cs step.now
        → BecomesBy (sub_multiples (set ts step.now.row false) right.old step.now.multipliers (get right.old step.now.row)) right.new result }
    ensures as_many { length right.new ≡ length right.old }
{
    let factor = right[step.row];
    if factor.is_zero() {
        return Ok(());
    }
    let but = step.row as u32;
    match change_members(
        Change::LessBy { factor, but },
        right,
        step.multipliers.entries(),
    ) {
        Ok(()) => Ok(()),
        Err(stop) => Err(stop.refused),
    }
}

/// Takes the right side, by row, through all steps.
pub(crate) fn go_down(right: &mut [Frac], steps: &[SparseStep]) -> Result<(), Refused>
    requires few { length right.old < 2 ^ 32 }
    requires stored { AreWhole steps.now }
    requires same { length right.old ≡ length steps.now }
    ensures script { BecomesBy (lowered (replicate (length right.old) true) (full_steps [] steps.now) right.old) right.new result }
    ensures as_many { length right.new ≡ length right.old }
{
    for step in steps {
        take_multiples(right, step)?;
    }
    Ok(())
}

/// The value at the place of a step; `right` goes by row, and `xs` by place, with the values of later steps and 0 elsewhere.
fn place_value(step: &SparseStep, right: &[Frac], xs: &[Frac]) -> Result<Frac, Refused>
    requires few { length xs.now < 2 ^ 32 }
    requires same { length right.now ≡ length xs.now }
    requires row_low { step.now.row < length xs.now }
    requires place_low { step.now.place < length xs.now }
    requires kept { length step.now.kept ≡ length xs.now }
    requires nonzero { is_zero (get step.now.kept step.now.place) ≡ false }
    ensures { (places : List Bool) (earlier : List SparseStep) → IsRead places earlier step.now xs.now
        → result ≡ value_at places (full_step earlier step.now) right.now xs.now }
{
    let rest = subtract_entries(right[step.row], step.kept.entries(), xs)?;
    rest.div(step.kept.at(step.place as u32))
}

/// The solution, by place, of a right side that went down.
pub(crate) fn go_up(
    alloc: Global,
    steps: &[SparseStep],
    right: &[Frac],
) -> Result<Vec<Frac>, Fault<Refused>>
    requires few { length right.now < 2 ^ 32 }
    requires stored { AreWhole steps.now }
    requires same { length right.now ≡ length steps.now }
    ensures script { FollowsBy (λ v. v.items) (raised (length right.now) (full_steps [] steps.now) right.now) result }
    ensures size { IfOk result (λ v. length v.items ≡ length right.now) }
{
    let mut x = zeros(alloc, right.len())?;
    let mut k = steps.len();
    while k > 0 {
        k -= 1;
        let step = &steps[k];
        let value = place_value(step, right, &x)?;
        x[step.place] = value;
    }
    Ok(x)
}

/// The solution, by place, for a column by row: the elimination's, taken through the pivots since.
#[tactic(auto, unfolding(pami_factoring::specs::Solve::forward_script))]
pub(crate) fn solve_column(
    alloc: Global,
    steps: &[SparseStep],
    pivots: &[Pivot],
    column: &SpVec,
) -> Result<SpVec, Fault<Refused>>
    requires few { length column.now < 2 ^ 32 }
    requires stored { AreWhole steps.now }
    requires same { length column.now ≡ length steps.now }
    requires pivots { ArePivots (length column.now) pivots.now }
    ensures { FollowsBy (λ v. v) (forward_script (full_steps [] steps.now) (column_pivots pivots.now) column.now) result }
{
    let mut right = column.to_dense(alloc)?;
    go_down(right.as_mut_slice(), steps)?;
    let mut solution = go_up(alloc, steps, &right)?;
    go_through_all(solution.as_mut_slice(), pivots)?;
    Ok(vector_of(alloc, &solution)?)
}
