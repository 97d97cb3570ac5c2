//! The model of a trial.

ghost use Rattle.std.specs.Prelude.{◌≡◌, ◌<◌, ◌^◌, IfOk, sum};
ghost use Rattle.pami_model.specs.Contents.{contents};
ghost use Rattle.pami_trial.specs.Transport.{IsSide, trial_model as the_trial_model};

use crate::columns::drawn_columns;
use crate::draws::Draws;
use crate::rows::{drawn_demands, rows_of, total_of};
use pami_frac::{Frac, OutOfMemory};
use pami_model::{ColumnList, Model, RowList, Sense};
use std::alloc::Global;

/// The transport model that this seed draws, with so many sources and sinks: the least cost at which all demands are met.
///
/// # Errors
///
/// `OutOfMemory` alone.
pub fn trial_model(alloc: Global, seed: u32, sources: u32, sinks: u32) -> Result<Model, OutOfMemory>
    requires sources { IsSide sources }
    requires sinks { IsSide sinks }
    ensures { IfOk result (λ model. contents model ≡ the_trial_model seed sources sinks) }
{
    let mut draws = Draws::new(seed);
    let demands = drawn_demands(alloc, &mut draws, sinks)?;
    let supply = total_of(demands.as_slice()).div_ceil(sources);
    let rows = rows_of(alloc, supply, sources, demands.as_slice())?;
    let columns = drawn_columns(alloc, &mut draws, supply, sources, sinks)?;
    Ok(Model {
        sense: Sense::Min,
        constant: Frac::whole(0),
        rows: RowList::from_vec(rows),
        columns: ColumnList::from_vec(columns),
    })
}
