//! The state behind a batch.

ghost use Rattle.std.specs.Prelude.{◌≡◌, ◌<◌, ◌+◌, ◌^◌, length, IfOk};
ghost use Rattle.pami_deferral.specs.Collected.{reweighed};
ghost use Rattle.pami_devex.specs.Weights.{AreWeights};
ghost use Rattle.pami_vec.specs.Pivots.{column_pivots, ArePivots};
ghost use Rattle.pami_collect.specs.CollectedState.{IsCollectedState};

use pami_devex::reweigh;
use pami_frac::{FracList, OutOfMemory};
use pami_state::{BatchEnd, State};
use pami_vec::{Pivot, WeightList};
use std::alloc::Global;

/// Takes the weights of all places through the pivots, the first one first.
fn reweigh_all(weights: &mut [u64], pivots: &[Pivot])
    requires { ArePivots (length weights.old) pivots.now }
    ensures value { weights.new ≡ reweighed (column_pivots pivots.now) weights.old }
    ensures range { AreWeights weights.old → AreWeights weights.new }
{
    for pivot in pivots {
        reweigh(weights, pivot.column.entries(), pivot.place);
    }
}

/// The state behind a batch: head, stands and reduced costs are those that the batch leaves, the values by place are
/// handed in, the weights go through all pivots in order, and the pivots are counted. The weights of the state before
/// go by place, from 1 to 2^40, and each pivot's column has as many members as there are places.
///
/// # Errors
///
/// `OutOfMemory` alone.
pub fn collect(
    alloc: Global,
    state: &State,
    after: BatchEnd,
    values: FracList,
    pivots: &[Pivot],
) -> Result<State, OutOfMemory>
    requires pivots { ArePivots (length state.now.weights) pivots.now }
    requires range { AreWeights state.now.weights }
    requires few { state.now.pivots + length pivots.now < 2 ^ 32 }
    ensures { IfOk result (λ new. IsCollectedState state.now after values (column_pivots pivots.now) new) }
{
    let mut weights = Vec::from_slice(alloc, state.weights.as_slice())?;
    reweigh_all(weights.as_mut_slice(), pivots);
    let BatchEnd {
        head,
        stands,
        reduced,
    } = after;
    Ok(State {
        head,
        stands,
        values,
        reduced,
        weights: WeightList::from_vec(weights),
        pivots: state.pivots + pivots.len() as u32,
    })
}
