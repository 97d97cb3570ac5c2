//! What a name, a term of the objective, a complete row and a bound add to a builder.

ghost use Rattle.std.specs.Prelude.{◌≡◌, ◌<◌, ◌≤◌, length, IfOk, OnOk};
ghost use Rattle.pami_frac.specs.Answers.{BecomesBy, FollowsBy};
ghost use Rattle.pami_lp.specs.Known.{AreBelow};
ghost use Rattle.pami_lp.specs.Rules as rules;

use crate::value::{are_crossed, bounds_set, sum_of, unbounded};
use indexmap::IndexSet;
use pami_frac::{Bounds, Entry, Fault, Frac, OutOfMemory};
use pami_lp_text::Relation;
use pami_model::{Builder, FileKind, file_fault};

/// The column of a name, which is added where it is new.
pub(crate) fn stand_column(builder: &mut Builder, name: &[u8]) -> Result<u32, Fault<FileKind>>
    ensures given { FollowsBy (λ column. (builder.new, column)) (rules.stand builder.old name.now) result }
    ensures known { IfOk result (λ column. column < length builder.new.columns) }
    ensures grown { length builder.old.columns ≤ length builder.new.columns }
{
    if let Some(column) = builder.find_column(name) {
        return Ok(column);
    }
    match builder.add_column(name) {
        Ok(column) => Ok(column),
        Err(fault) => Err(file_fault(fault)),
    }
}

/// Adds a coefficient to the cost of a column.
pub(crate) fn add_cost(builder: &mut Builder, column: u32, value: Frac) -> Result<(), FileKind>
    requires { column < length builder.old.columns }
    ensures given { BecomesBy (rules.add_cost builder.old column value) builder.new result }
    ensures counted { length builder.new.columns ≡ length builder.old.columns }
{
    let total = sum_of(builder.cost_at(column), value)?;
    builder.set_cost(column, total);
    Ok(())
}

/// Adds a number to the constant of the objective.
pub(crate) fn add_constant(builder: &mut Builder, value: Frac) -> Result<(), FileKind>
    ensures given { BecomesBy (rules.add_constant builder.old value) builder.new result }
    ensures counted { length builder.new.columns ≡ length builder.old.columns }
{
    let total = sum_of(builder.constant(), value)?;
    let sense = builder.sense();
    builder.set_goal(sense, total);
    Ok(())
}

/// Adds a row, and answers its number.
fn add_row(builder: &mut Builder, name: &[u8], sides: Bounds) -> Result<u32, Fault<FileKind>>
    ensures given { FollowsBy (λ _. builder.new) (rules.with_row builder.old name.now sides) result }
    ensures numbered { IfOk result (λ i. i ≡ length builder.old.rows) }
    ensures known { IfOk result (λ i. i < length builder.new.rows) }
    ensures counted { length builder.new.columns ≡ length builder.old.columns }
{
    match builder.add_row(name, sides) {
        Ok(row) => Ok(row),
        Err(fault) => Err(file_fault(fault)),
    }
}

/// Adds a sum of a row as an entry, where it isn't 0.
fn add_one(builder: &mut Builder, row: u32, entry: Entry) -> Result<(), Fault<FileKind>>
    requires row_known { row < length builder.old.rows }
    requires column_known { entry.place < length builder.old.columns }
    ensures given { FollowsBy (λ _. builder.new) (rules.add_one builder.old row entry) result }
    ensures rows { length builder.new.rows ≡ length builder.old.rows }
    ensures columns { length builder.new.columns ≡ length builder.old.columns }
{
    if entry.value.is_zero() {
        return Ok(());
    }
    match builder.add_entry(entry.place, row, entry.value) {
        Ok(()) => Ok(()),
        Err(fault) => Err(file_fault(fault)),
    }
}

/// Adds the sums of a row to the builder, but for those that are 0.
fn add_entries(builder: &mut Builder, row: u32, sums: &[Entry]) -> Result<(), Fault<FileKind>>
    requires row_known { row < length builder.old.rows }
    requires columns_known { AreBelow (length builder.old.columns) sums.now }
    ensures given { FollowsBy (λ _. builder.new) (rules.add_entries builder.old row sums.now) result }
    ensures columns { length builder.new.columns ≡ length builder.old.columns }
{
    for entry in sums {
        add_one(builder, row, *entry)?;
    }
    Ok(())
}

/// Adds a complete row with its sums under this name.
pub(crate) fn end_row(
    builder: &mut Builder,
    name: &[u8],
    sides: Bounds,
    sums: &[Entry],
) -> Result<(), Fault<FileKind>>
    requires { AreBelow (length builder.old.columns) sums.now }
    ensures given { FollowsBy (λ _. builder.new) (rules.end_row builder.old name.now sides sums.now) result }
    ensures columns { length builder.new.columns ≡ length builder.old.columns }
{
    if builder.find_row(name).is_some() {
        return Err(Fault::Named(FileKind::DuplicateRow));
    }
    if are_crossed(&sides) {
        return Err(Fault::Named(FileKind::Crossed));
    }
    let row = add_row(builder, name, sides)?;
    add_entries(builder, row, sums)
}

/// Notes that the column has a lower bound of its own.
fn lower(lowered: &mut IndexSet<u32>, column: u32) -> Result<(), OutOfMemory>
    ensures { OnOk result (lowered.new.keys ≡ rules.with_lowered column lowered.old.keys) }
{
    if lowered.contains(&column) {
        return Ok(());
    }
    lowered.insert(column)?;
    Ok(())
}

/// The same where the relation sets a lower bound.
fn lower_by(relation: Relation, lowered: &mut IndexSet<u32>, column: u32) -> Result<(), OutOfMemory>
    ensures { OnOk result (lowered.new.keys ≡ rules.lowered_set relation column lowered.old.keys) }
{
    match relation {
        Relation::AtMost => Ok(()),
        Relation::AtLeast => lower(lowered, column),
        Relation::Equal => lower(lowered, column),
    }
}

/// Sets bounds of a column by a relation and what a value on its right sets.
pub(crate) fn set_bound(
    builder: &mut Builder,
    lowered: &mut IndexSet<u32>,
    relation: Relation,
    column: u32,
    sides: Bounds,
) -> Result<(), OutOfMemory>
    requires { column < length builder.old.columns }
    ensures bounds { OnOk result (builder.new ≡
        (rules.set_bound relation column sides (rules.bounded builder.old lowered.old.keys)).draft) }
    ensures lowered { OnOk result (lowered.new.keys ≡
        (rules.set_bound relation column sides (rules.bounded builder.old lowered.old.keys)).lowered) }
    ensures columns { length builder.new.columns ≡ length builder.old.columns }
{
    let stated = lowered.contains(&column);
    let bounds = bounds_set(relation, stated, builder.column_bounds_at(column), sides);
    lower_by(relation, lowered, column)?;
    builder.set_column_bounds(column, bounds);
    Ok(())
}

/// Takes both bounds of a column away.
pub(crate) fn set_free(
    builder: &mut Builder,
    lowered: &mut IndexSet<u32>,
    column: u32,
) -> Result<(), OutOfMemory>
    requires { column < length builder.old.columns }
    ensures bounds { OnOk result (builder.new ≡
        (rules.set_free column (rules.bounded builder.old lowered.old.keys)).draft) }
    ensures lowered { OnOk result (lowered.new.keys ≡
        (rules.set_free column (rules.bounded builder.old lowered.old.keys)).lowered) }
    ensures columns { length builder.new.columns ≡ length builder.old.columns }
{
    lower(lowered, column)?;
    builder.set_column_bounds(column, unbounded());
    Ok(())
}
