//! The form of phase one: the same columns and costs, each variable in its box.

ghost use Rattle.std.specs.Prelude.{◌≡◌, IfOk, map};
ghost use Rattle.pami_theory.specs.Boxes.{between as the_between, box, boxes_of};
ghost use Rattle.pami_state.specs.Columns.{form_by};

use crate::build::all_widths;
use crate::form::Form;
use crate::list::{BoundsList, Columns};
use pami_frac::{Bounds, Fault, Frac, FracList, OutOfMemory};
use pami_vec::{RowWise, SpVec};
use std::alloc::Global;

/// Two finite bounds.
fn between(low: Frac, high: Frac) -> Bounds
    ensures { result ≡ the_between low high }
{
    Bounds {
        low: Some(low),
        high: Some(high),
    }
}

/// 0 for a finite bound, and 1 away from it where there is none.
fn box_of(bounds: &Bounds) -> Bounds
    ensures { result ≡ box bounds.now }
{
    match (bounds.low, bounds.high) {
        (None, None) => between(Frac::one().negate(), Frac::one()),
        (Some(_), None) => between(Frac::zero(), Frac::one()),
        (None, Some(_)) => between(Frac::one().negate(), Frac::zero()),
        (Some(_), Some(_)) => between(Frac::zero(), Frac::zero()),
    }
}

/// The box of each variable.
///
/// # Errors
///
/// `OutOfMemory` alone.
fn all_boxes(alloc: Global, bounds: &[Bounds]) -> Result<BoundsList, OutOfMemory>
    ensures { IfOk result (λ bs. bs ≡ map box bounds.now) }
{
    let mut boxes = Vec::new(alloc);
    for limits in bounds {
        boxes.push(box_of(limits))?;
    }
    Ok(BoundsList::from_vec(boxes))
}

/// The same column again.
///
/// # Errors
///
/// `OutOfMemory` alone.
fn copied(alloc: Global, column: &SpVec) -> Result<SpVec, OutOfMemory>
    ensures { IfOk result (λ v. v ≡ column.now) }
{
    SpVec::from_entries(alloc, column.len(), column.entries())
}

/// The same columns again.
///
/// # Errors
///
/// `OutOfMemory` alone.
fn all_copied(alloc: Global, columns: &[SpVec]) -> Result<Columns, OutOfMemory>
    ensures { IfOk result (λ cs. cs ≡ columns.now) }
{
    let mut vectors = Vec::new(alloc);
    for column in columns {
        vectors.push(copied(alloc, column)?)?;
    }
    Ok(Columns::from_vec(vectors))
}

/// The form of phase one: the same columns and costs, where a bound that is finite is 0 and one that isn't is 1 away from
/// it, and both are 0 where both are finite. No width is refused. (Koberstein 2005, section 4.4.)
///
/// # Errors
///
/// `OutOfMemory` alone.
pub fn phase_one_form(alloc: Global, form: &Form) -> Result<Form, OutOfMemory>
    ensures { IfOk result (λ f. form_by f.columns f.bounds f.costs ≡ boxes_of (form_by form.now.columns form.now.bounds form.now.costs)) }
{
    let columns = all_copied(alloc, form.columns.as_slice())?;
    let by_row = RowWise::of(alloc, form.columns.as_slice())?;
    let bounds = all_boxes(alloc, form.bounds.as_slice())?;
    let costs = FracList::from_vec(Vec::from_slice(alloc, form.costs.as_slice())?);
    match all_widths(alloc, bounds.as_slice()) {
        Ok(widths) => Ok(Form {
            rows: form.rows,
            columns,
            by_row,
            bounds,
            costs,
            widths,
        }),
        Err(Fault::Named(_)) => unreachable!(),
        Err(Fault::OutOfMemory) => Err(OutOfMemory),
    }
}
