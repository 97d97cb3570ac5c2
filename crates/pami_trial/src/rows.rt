//! The rows of a trial: its sources with their supply, and its sinks with their demands.

ghost use Rattle.std.specs.Prelude.{◌≡◌, ◌<◌, ◌^◌, ◌++◌, IfOk, OnOk, length, map, sum, slice_index};
ghost use Rattle.pami_trial.specs.Draws.{state_after};
ghost use Rattle.pami_trial.specs.Transport.{below, demand, source_row as the_source_row, sink_row as the_sink_row};

use crate::draws::Draws;
use pami_frac::{Bounds, Frac, OutOfMemory};
use pami_model::{Name, Row};
use std::alloc::Global;

/// The demands of so many sinks, from the next draws.
///
/// # Errors
///
/// `OutOfMemory` alone.
pub fn drawn_demands(alloc: Global, draws: &mut Draws, sinks: u32) -> Result<Vec<u32>, OutOfMemory>
    ensures demands { IfOk result (λ demands. demands.items ≡ map (demand draws.old.state) (below sinks)) }
    ensures state { OnOk result (draws.new.state ≡ state_after draws.old.state sinks) }
{
    let mut demands = Vec::new(alloc);
    for _sink in 0..sinks {
        demands.push(1 + draws.below(50))?;
    }
    Ok(demands)
}

/// The sum of demands.
pub fn total_of(demands: &[u32]) -> u32
    requires { sum demands.now < 2 ^ 32 }
    ensures { result ≡ sum demands.now }
{
    let mut total = 0;
    for demand in demands {
        total += *demand;
    }
    total
}

/// The row of a source, counted from 0, which gives at most this supply.
fn source_row(alloc: Global, supply: u32, source: u32) -> Result<Row, OutOfMemory>
    requires { source < 2 ^ 31 }
    ensures { IfOk result (λ row. row ≡ the_source_row supply source) }
{
    let number = source + 1;
    let name = format!(in alloc; "s{number}")?;
    Ok(Row {
        name: Name::from_vec(name.into_bytes()),
        bounds: Bounds {
            low: None,
            high: Some(Frac::whole(i64::from(supply))),
        },
    })
}

/// The row of a sink, counted from 0, which takes at least this demand.
fn sink_row(alloc: Global, demand: u32, sink: u32) -> Result<Row, OutOfMemory>
    requires { sink < 2 ^ 31 }
    ensures { IfOk result (λ row. row ≡ the_sink_row demand sink) }
{
    let number = sink + 1;
    let name = format!(in alloc; "t{number}")?;
    Ok(Row {
        name: Name::from_vec(name.into_bytes()),
        bounds: Bounds {
            low: Some(Frac::whole(i64::from(demand))),
            high: None,
        },
    })
}

/// The rows of so many sources with this supply.
///
/// # Errors
///
/// `OutOfMemory` alone.
fn source_rows(alloc: Global, supply: u32, sources: u32) -> Result<Vec<Row>, OutOfMemory>
    requires { sources < 2 ^ 31 }
    ensures { IfOk result (λ rows. rows.items ≡ map (the_source_row supply) (below sources)) }
{
    let mut rows = Vec::new(alloc);
    for source in 0..sources {
        rows.push(source_row(alloc, supply, source)?)?;
    }
    Ok(rows)
}

/// The rows of so many sources with this supply, and behind them those of the sinks with these demands.
///
/// # Errors
///
/// `OutOfMemory` alone.
pub fn rows_of(
    alloc: Global,
    supply: u32,
    sources: u32,
    demands: &[u32],
) -> Result<Vec<Row>, OutOfMemory>
    requires sources { sources < 2 ^ 31 }
    requires sinks { length demands.now < 2 ^ 31 }
    ensures { IfOk result (λ rows. rows.items
        ≡ map (the_source_row supply) (below sources) ++ map (λ t. the_sink_row (slice_index demands.now t) t) (below (length demands.now))) }
{
    let mut rows = source_rows(alloc, supply, sources)?;
    for (sink, demand) in demands.iter().enumerate() {
        rows.push(sink_row(alloc, *demand, sink as u32)?)?;
    }
    Ok(rows)
}
