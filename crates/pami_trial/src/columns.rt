//! The columns of a trial: its ways, each from a source to a sink.

ghost use Rattle.std.specs.Prelude.{◌≡◌, ◌<◌, ◌+◌, ◌*◌, ◌/◌, ◌%◌, ◌^◌, IfOk, map};
ghost use Rattle.pami_trial.specs.Draws.{draw};
ghost use Rattle.pami_trial.specs.Transport.{IsSide, below, one_at as the_one_at, way_column as the_way_column};

use crate::draws::Draws;
use pami_frac::{Bounds, Entry, Frac, OutOfMemory};
use pami_model::{Column, EntryList, Name};
use std::alloc::Global;

/// An entry of 1.
fn one_at(row: u32) -> Entry
    ensures { result ≡ the_one_at row }
{
    Entry {
        place: row,
        value: Frac::whole(1),
    }
}

/// The column of the way from a source to a sink, both counted from 0, where there are so many sources and each has this
/// supply.
///
/// # Errors
///
/// `OutOfMemory` alone.
fn way_column(
    alloc: Global,
    cost: u32,
    supply: u32,
    sources: u32,
    source: u32,
    sink: u32,
) -> Result<Column, OutOfMemory>
    requires source { source < 2 ^ 31 }
    requires sink { sources + sink < 2 ^ 31 }
    ensures { IfOk result (λ column. column ≡ the_way_column cost supply sources source sink) }
{
    let from = source + 1;
    let to = sink + 1;
    let name = format!(in alloc; "x{from}_{to}")?;
    let entries = Vec::from_slice(alloc, &[one_at(source), one_at(sources + sink)])?;
    Ok(Column {
        name: Name::from_vec(name.into_bytes()),
        cost: Frac::whole(i64::from(cost)),
        bounds: Bounds {
            low: Some(Frac::whole(0)),
            high: Some(Frac::whole(i64::from(supply))),
        },
        entries: EntryList::from_vec(entries),
    })
}

/// The columns of all ways by source, and then by sink, their costs from the next draws.
///
/// # Errors
///
/// `OutOfMemory` alone.
pub fn drawn_columns(
    alloc: Global,
    draws: &mut Draws,
    supply: u32,
    sources: u32,
    sinks: u32,
) -> Result<Vec<Column>, OutOfMemory>
    requires sources { IsSide sources }
    requires sinks { IsSide sinks }
    ensures { IfOk result (λ columns. columns.items
        ≡ map (λ w. the_way_column (1 + draw draws.old.state w 100) supply sources (w / sinks) (w % sinks)) (below (sources * sinks))) }
{
    let mut columns = Vec::new(alloc);
    for way in 0..sources * sinks {
        let cost = 1 + draws.below(100);
        columns.push(way_column(alloc, cost, supply, sources, way / sinks, way % sinks)?)?;
    }
    Ok(columns)
}
