//! The form of a model, list by list.

ghost use Rattle.std.specs.Prelude.{◌≡◌, ◌++◌, ◌<◌, ◌^◌, IfOk, length, map};
ghost use Rattle.std.specs.List.{All, range_with_len};
ghost use Rattle.pami_algebra.specs.Operations.{neg_f};
ghost use Rattle.pami_frac.specs.Answers.{Follows};
ghost use Rattle.pami_theory.specs.Form.{zero_f};
ghost use Rattle.pami_model.specs.declared.list.Column.{Column};
ghost use Rattle.pami_model.specs.Rules.{AreEntries};
ghost use Rattle.pami_model.specs.Contents.{contents};
ghost use Rattle.pami_state.specs.Columns.{form_by};
ghost use Rattle.pami_form.specs.Form.{KeepsForm, widths_of};
ghost use Rattle.pami_form.specs.Lists.{row_vector, all_bounds as the_all_bounds, all_columns as the_all_columns, all_costs as the_all_costs};
ghost use Rattle.pami_model_form.specs.ModelForm.{minimised as the_minimised, model_form};
ghost use Rattle.pami_form.specs.Widths.{first_wide, width_script};

use crate::form::{Form, WideBox};
use crate::list::{BoundsList, Columns, WidthList};
use pami_frac::{Bounds, Entry, Fault, Frac, FracList, OutOfMemory, Refused};
use pami_model::{Column, Model, Row, Sense};
use pami_vec::{RowWise, SpVec};
use std::alloc::Global;
use std::cmp::Ordering;

/// The column of the row variable of a row: -1 at that row.
///
/// # Errors
///
/// `OutOfMemory` alone.
fn row_column(alloc: Global, rows: u32, row: u32) -> Result<SpVec, OutOfMemory>
    requires { row < rows }
    ensures { IfOk result (λ v. v ≡ row_vector rows row) }
{
    let entries = [Entry {
        place: row,
        value: Frac::one().negate(),
    }];
    SpVec::from_entries(alloc, rows, entries.as_slice())
}

/// The columns of all variables, by row.
///
/// # Errors
///
/// `OutOfMemory` alone.
fn all_columns(alloc: Global, rows: u32, columns: &[Column]) -> Result<Columns, OutOfMemory>
    requires { All (λ (c : Column). AreEntries rows c.entries) columns.now }
    ensures { IfOk result (λ cs. cs ≡ the_all_columns rows columns.now) }
{
    let mut vectors = Vec::new(alloc);
    for column in columns {
        vectors.push(SpVec::from_entries(alloc, rows, column.entries.as_slice())?)?;
    }
    for row in 0..rows {
        vectors.push(row_column(alloc, rows, row)?)?;
    }
    Ok(Columns::from_vec(vectors))
}

/// The same bounds again.
fn copied(bounds: &Bounds) -> Bounds
    ensures { result ≡ bounds.now }
{
    Bounds {
        low: bounds.low,
        high: bounds.high,
    }
}

/// The bounds of all variables.
///
/// # Errors
///
/// `OutOfMemory` alone.
fn all_bounds(alloc: Global, rows: &[Row], columns: &[Column]) -> Result<BoundsList, OutOfMemory>
    ensures { IfOk result (λ bs. bs ≡ the_all_bounds rows.now columns.now) }
{
    let mut bounds = Vec::new(alloc);
    for column in columns {
        bounds.push(copied(&column.bounds))?;
    }
    for row in rows {
        bounds.push(copied(&row.bounds))?;
    }
    Ok(BoundsList::from_vec(bounds))
}

/// The cost that is to be made small.
fn minimised(sense: Sense, cost: Frac) -> Frac
    ensures { result ≡ the_minimised sense cost }
{
    match sense {
        Sense::Min => cost,
        Sense::Max => cost.negate(),
    }
}

/// The costs of all variables.
///
/// # Errors
///
/// `OutOfMemory` alone.
fn all_costs(
    alloc: Global,
    sense: Sense,
    rows: &[Row],
    columns: &[Column],
) -> Result<FracList, OutOfMemory>
    ensures { IfOk result (λ cs. cs ≡ the_all_costs sense rows.now columns.now) }
{
    let mut costs = Vec::new(alloc);
    for column in columns {
        costs.push(minimised(sense, column.cost))?;
    }
    for _row in rows {
        costs.push(Frac::zero())?;
    }
    Ok(FracList::from_vec(costs))
}

/// The width of a variable with these bounds, where it is boxed.
///
/// # Errors
///
/// `Refused` where the difference doesn't fit.
fn width(bounds: &Bounds) -> Result<Option<Frac>, Refused>
    ensures { result ≡ width_script bounds.now }
{
    match (bounds.low, bounds.high) {
        (Some(low), Some(high)) => {
            if low.compare(&high) == Ordering::Less {
                match high.sub(low) {
                    Ok(width) => Ok(Some(width)),
                    Err(refused) => Err(refused),
                }
            } else {
                Ok(None)
            }
        }
        _ => Ok(None),
    }
}

/// The widths of all variables.
///
/// # Errors
///
/// `Named` exactly where a width doesn't fit: the first such. `OutOfMemory` where memory runs out.
pub(crate) fn all_widths(alloc: Global, bounds: &[Bounds]) -> Result<WidthList, Fault<WideBox>>
    requires { length bounds.now < 2 ^ 32 }
    ensures widths { IfOk result (λ ws. ws ≡ widths_of bounds.now) }
    ensures follows { Follows (first_wide bounds.now) result }
{
    let mut widths = Vec::new(alloc);
    for (v, limits) in bounds.iter().enumerate() {
        match width(limits) {
            Ok(width) => widths.push(width)?,
            Err(refused) => {
                return Err(Fault::Named(WideBox {
                    variable: v as u32,
                    refused,
                }));
            }
        }
    }
    Ok(WidthList::from_vec(widths))
}

/// The form of a model: its columns, and then the row variable of each row. Costs are those that are to be made small, so
/// the ones of a maximum are negated. (Koberstein 2005, section 2.1.)
///
/// # Errors
///
/// `Named` exactly where the width of a boxed variable doesn't fit, with the least such variable and the difference
/// that was refused. `OutOfMemory` where memory runs out.
pub fn form_of(alloc: Global, model: &Model) -> Result<Form, Fault<WideBox>>
    ensures form { IfOk result (λ f. form_by f.columns f.bounds f.costs ≡ model_form (contents model.now)) }
    ensures kept { IfOk result (λ f. KeepsForm f.rows f.columns f.bounds f.costs f.widths) }
    ensures follows { Follows (first_wide (model_form (contents model.now)).bounds) result }
{
    let rows = model.rows.as_slice();
    let columns = model.columns.as_slice();
    let count = rows.len() as u32;
    let vectors = all_columns(alloc, count, columns)?;
    let bounds = all_bounds(alloc, rows, columns)?;
    let costs = all_costs(alloc, model.sense, rows, columns)?;
    let widths = all_widths(alloc, bounds.as_slice())?;
    let by_row = RowWise::of(alloc, vectors.as_slice())?;
    Ok(Form {
        rows: count,
        columns: vectors,
        by_row,
        bounds,
        costs,
        widths,
    })
}
