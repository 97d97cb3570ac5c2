//! The tests of a certificate of infeasibility, which carry a total: the least value, within the bounds, of the
//! combination of the rows. Factors `y` go by row.

ghost use Rattle.std.specs.Prelude.{◌≡◌, ◌++◌, length, Some, Ok};
ghost use Rattle.pami_linear.specs.Lists.{get};
ghost use Rattle.pami_script.specs.Dense.{at, Rising};
ghost use Rattle.pami_script.specs.Script.{then, add_dot, add_product, sub_product};
ghost use Rattle.pami_theory.specs.Form.{zero_f};
ghost use Rattle.pami_model.specs.Contents.{contents};
ghost use Rattle.pami_model_form.specs.ModelForm.{model_form};
ghost use Rattle.pami_check.specs.Tests.{tested};
ghost use Rattle.pami_check.specs.Verdict.{with_bound, row_least, column_least, finite_rows, finite_columns, infeasible_tests};

use crate::single::{found, is_below};
use crate::sums::column_sum;
use crate::verdict::{Condition, Verdict};
use pami_frac::{Bounds, Entry, Frac, Refused};
use pami_model::Model;
use pami_script::plain::{add_product, sub_product};

/// The total with the product of a factor and a bound, where that is finite.
fn with_product(total: Frac, factor: Frac, bound: Option<Frac>) -> Result<Option<Frac>, Refused>
    ensures { result ≡ with_bound bound (add_product total factor) }
{
    let Some(bound) = bound else {
        return Ok(None);
    };
    let sum = add_product(total, factor, bound)?;
    Ok(Some(sum))
}

/// The total without the product of a factor and a bound, where that is finite.
fn without_product(total: Frac, factor: Frac, bound: Option<Frac>) -> Result<Option<Frac>, Refused>
    ensures { result ≡ with_bound bound (sub_product total factor) }
{
    let Some(bound) = bound else {
        return Ok(None);
    };
    let rest = sub_product(total, factor, bound)?;
    Ok(Some(rest))
}

/// The total with the least value of a factor times the value of a row; `None` where there is no least one.
fn row_least(total: Frac, factor: Frac, bounds: &Bounds) -> Result<Option<Frac>, Refused>
    ensures { result ≡ row_least bounds.now factor total }
{
    let zero = Frac::zero();
    if is_below(&zero, &factor) {
        with_product(total, factor, bounds.low)
    } else if is_below(&factor, &zero) {
        with_product(total, factor, bounds.high)
    } else {
        Ok(Some(total))
    }
}

/// The total without the greatest value of a factor times the value of a column; `None` where there is no greatest one.
fn column_least(total: Frac, factor: Frac, bounds: &Bounds) -> Result<Option<Frac>, Refused>
    ensures { result ≡ column_least bounds.now factor total }
{
    let zero = Frac::zero();
    if is_below(&zero, &factor) {
        without_product(total, factor, bounds.high)
    } else if is_below(&factor, &zero) {
        without_product(total, factor, bounds.low)
    } else {
        Ok(Some(total))
    }
}

/// The same, where the factor is the combination of the rows at the column.
fn column_outcome(
    total: Frac,
    y: &[Frac],
    entries: &[Entry],
    bounds: &Bounds,
) -> Result<Option<Frac>, Refused>
    requires { Rising 0 (length y.now) entries.now }
    ensures { result ≡ (then) (add_dot (length y.now) (get y.now) (at entries.now) zero_f)
        (λ g. column_least bounds.now g total) }
{
    let factor = column_sum(y, entries)?;
    column_least(total, factor, bounds)
}

/// The least value of the combination of the rows, by their bounds.
fn rows_least(model: &Model, y: &[Frac]) -> Result<Frac, Verdict>
    requires { length y.now ≡ length (contents model.now).rows }
    ensures { result ≡ tested (finite_rows (model_form (contents model.now)) (get y.now)) zero_f }
{
    let count = model.columns.as_slice().len();
    let mut total = Frac::zero();
    let rows = model.rows.as_slice();
    for (i, row) in rows.iter().enumerate() {
        let outcome = row_least(total, y[i], &row.bounds);
        total = found(Condition::Finite, Some((count + i) as u32), outcome)?;
    }
    Ok(total)
}

/// A value without the greatest one of the combination of the columns, by their bounds.
fn columns_least(model: &Model, start: Frac, y: &[Frac]) -> Result<Frac, Verdict>
    requires { length y.now ≡ length (contents model.now).rows }
    ensures { result ≡ tested (finite_columns (model_form (contents model.now)) (get y.now)) start }
{
    let mut total = start;
    let columns = model.columns.as_slice();
    for (j, column) in columns.iter().enumerate() {
        let outcome = column_outcome(total, y, column.entries.as_slice(), &column.bounds);
        total = found(Condition::Finite, Some(j as u32), outcome)?;
    }
    Ok(total)
}

/// The least value of the combination, by all bounds.
fn least_found(model: &Model, y: &[Frac]) -> Result<Frac, Verdict>
    requires { length y.now ≡ length (contents model.now).rows }
    ensures { result ≡ tested (finite_rows (model_form (contents model.now)) (get y.now)
        ++ finite_columns (model_form (contents model.now)) (get y.now)) zero_f }
{
    let total = rows_least(model, y)?;
    columns_least(model, total, y)
}

/// What the tests of a certificate of infeasibility find: the least value of the combination, which is above 0.
pub(crate) fn infeasible_found(model: &Model, y: &[Frac]) -> Result<Frac, Verdict>
    requires { length y.now ≡ length (contents model.now).rows }
    ensures { result ≡ tested (infeasible_tests (model_form (contents model.now)) (get y.now)) zero_f }
{
    let total = least_found(model, y)?;
    if is_below(&Frac::zero(), &total) {
        Ok(total)
    } else {
        Err(Verdict::Invalid {
            condition: Condition::Positive,
            variable: None,
        })
    }
}
