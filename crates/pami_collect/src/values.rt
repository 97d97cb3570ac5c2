//! The values by place behind a batch.

ghost use Rattle.std.specs.Prelude.{◌≡◌, ◌<◌, length, All, [], ◌∷◌};
ghost use Rattle.pami_frac.specs.Answers.{BecomesBy, FollowsBy};
ghost use Rattle.pami_deferral.specs.Listed.{exchanges_script, collect_script};
ghost use Rattle.pami_vec.specs.Pivots.{column_pivots, ArePivots};
ghost use Rattle.pami_collect.specs.Exchanges.{exchange_of, exchanges_of};

use pami_frac::{Fault, Frac, FracList, Refused};
use pami_vec::{Change, Pivot, SpVec, Step, change_members, go_through_all};
use std::alloc::Global;

/// Brings a step's entering variable in with its value, by its column, and takes the bound of the leaving one off.
fn exchange(values: &mut [Frac], step: &Step, column: &SpVec) -> Result<(), Refused>
    requires entries { length column.now ≡ length values.old }
    requires place { step.now.place < length values.old }
    ensures { BecomesBy (exchanges_script (exchange_of step.now column.now ∷ []) values.old) values.new result }
{
    let factor = step.old_value;
    match change_members(Change::More { factor }, values, column.entries()) {
        Ok(()) => {}
        Err(stop) => return Err(stop.refused),
    }
    let place = step.place as usize;
    values[place] = values[place].sub(step.bound)?;
    Ok(())
}

/// The same for all steps, in order; the columns are by the first basis.
fn exchange_all(values: &mut [Frac], steps: &[Step], columns: &[SpVec]) -> Result<(), Refused>
    requires as_many { length columns.now ≡ length steps.now }
    requires columns { All (λ c. length c ≡ length values.old) columns.now }
    requires places { All (λ s. s.place < length values.old) steps.now }
    ensures { BecomesBy (exchanges_script (exchanges_of steps.now columns.now) values.old) values.new result }
{
    for (k, step) in steps.iter().enumerate() {
        exchange(values, step, &columns[k])?;
    }
    Ok(())
}

/// Takes the values by place through the batch, in their places.
fn move_values(
    values: &mut [Frac],
    flips: &SpVec,
    steps: &[Step],
    columns: &[SpVec],
    pivots: &[Pivot],
) -> Result<(), Refused>
    requires flips { length flips.now ≡ length values.old }
    requires as_many { length columns.now ≡ length steps.now }
    requires columns { All (λ c. length c ≡ length values.old) columns.now }
    requires places { All (λ s. s.place < length values.old) steps.now }
    requires pivots { ArePivots (length values.old) pivots.now }
    ensures { BecomesBy (collect_script values.old flips.now (exchanges_of steps.now columns.now)
        (column_pivots pivots.now)) values.new result }
{
    match change_members(Change::Less, values, flips.entries()) {
        Ok(()) => {}
        Err(stop) => return Err(stop.refused),
    }
    exchange_all(values, steps, columns)?;
    go_through_all(values, pivots)
}

/// The values by place behind a batch. `values` are those at its beginning, `flips` is what all flips change at each
/// place, both by place and of one length, like each of the columns. Steps, columns and pivots are as many as the
/// batch has pivots: `columns` are those of the entering variables by the first basis, and `pivots` have them through
/// the pivots before.
///
/// # Errors
///
/// `Named` exactly where an operation doesn't fit: the first such. The flips come first, then step by step the column
/// and the bound, then pivot by pivot, each with its places ascending. `OutOfMemory` where memory runs out.
pub fn collect_values(
    alloc: Global,
    values: &[Frac],
    flips: &SpVec,
    steps: &[Step],
    columns: &[SpVec],
    pivots: &[Pivot],
) -> Result<FracList, Fault<Refused>>
    requires flips { length flips.now ≡ length values.now }
    requires as_many { length columns.now ≡ length steps.now }
    requires columns { All (λ c. length c ≡ length values.now) columns.now }
    requires places { All (λ s. s.place < length values.now) steps.now }
    requires pivots { ArePivots (length values.now) pivots.now }
    ensures { FollowsBy (λ v. v) (collect_script values.now flips.now (exchanges_of steps.now columns.now)
        (column_pivots pivots.now)) result }
{
    let mut moved = Vec::from_slice(alloc, values)?;
    move_values(moved.as_mut_slice(), flips, steps, columns, pivots)?;
    Ok(FracList::from_vec(moved))
}
