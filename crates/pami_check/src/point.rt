//! The tests of points and of directions: values within what their bounds allow, and rows that are the sums over their
//! columns. Values `x` go by column and `r` by row.

ghost use Rattle.std.specs.Prelude.{◌≡◌, ◌+◌, ◌<◌, ◌^◌, ◌++◌, ◌∷◌, [], length, Some, Ok};
ghost use Rattle.std.specs.List.{All};
ghost use Rattle.pami_linear.specs.Lists.{get};
ghost use Rattle.pami_script.specs.Script.{then, add_dot};
ghost use Rattle.pami_theory.specs.Form.{zero_f};
ghost use Rattle.pami_theory.specs.Start.{is_same};
ghost use Rattle.pami_model.specs.Contents.{contents};
ghost use Rattle.pami_model_form.specs.ModelForm.{model_form};
ghost use Rattle.pami_model.specs.declared.list.Column.{Column};
ghost use Rattle.pami_model.specs.Rules.{IsRising};
ghost use Rattle.pami_check.specs.declared.verdict.Condition.{Condition};
ghost use Rattle.pami_check.specs.Tests.{tested, plain};
ghost use Rattle.pami_check.specs.Verdict.{bound_test, column_tests, row_tests, point_tests, zero_at};
ghost use Rattle.pami_check.specs.Lists.{entry_by, reached};

use crate::single::{is_same, is_within, judged};
use crate::sums::row_sum;
use crate::verdict::{Condition, Verdict};
use pami_frac::{Bounds, Frac, Refused};
use pami_model::{Column, Model};

/// What values are to be within.
#[derive(Clone, Copy, Debug, PartialEq, Eq)]
pub(crate) enum Reach {
    /// Their bounds.
    Point,
    /// 0 on each side that has a bound.
    Direction,
}

/// 0 where there is a bound.
fn zero_at(bound: Option<Frac>) -> Option<Frac>
    ensures { result ≡ zero_at bound }
{
    match bound {
        Some(_) => Some(Frac::zero()),
        None => None,
    }
}

/// What a value with these bounds is to be within.
fn reached(reach: Reach, bounds: &Bounds) -> Bounds
    ensures { result ≡ reached reach bounds.now }
{
    match reach {
        Reach::Point => *bounds,
        Reach::Direction => Bounds {
            low: zero_at(bounds.low),
            high: zero_at(bounds.high),
        },
    }
}

/// The test of a value.
fn bound_found(reach: Reach, bounds: &Bounds, variable: u32, value: &Frac) -> Result<(), Verdict>
    ensures { result ≡ tested (bound_test (reached reach bounds.now) variable value.now ∷ []) tt }
{
    let is_within = is_within(&reached(reach, bounds), value);
    judged(Condition::Bound, Some(variable), Ok(is_within))
}

/// The tests of all columns' values.
fn columns_found(model: &Model, reach: Reach, x: &[Frac]) -> Result<(), Verdict>
    requires { length x.now ≡ length (contents model.now).columns }
    ensures { result ≡ tested (column_tests (model_form (contents model.now)) (reached reach) (get x.now)) tt }
{
    let columns = model.columns.as_slice();
    for (j, column) in columns.iter().enumerate() {
        bound_found(reach, &column.bounds, j as u32, &x[j])?;
    }
    Ok(())
}

/// Whether the sum over a row is its value.
fn row_outcome(columns: &[Column], row: u32, x: &[Frac], value: Frac) -> Result<bool, Refused>
    requires rising { All (λ (c : Column). IsRising c.entries) columns.now }
    requires values { length x.now ≡ length columns.now }
    ensures { result ≡ (then) (add_dot (length columns.now) (entry_by columns.now row) (get x.now) zero_f)
        (λ t. Ok (is_same t value)) }
{
    let total = row_sum(columns, row, x)?;
    Ok(is_same(total, value))
}

/// The tests of a row: its sum over the columns, and then its bounds.
fn row_found(
    reach: Reach,
    columns: &[Column],
    row: u32,
    bounds: &Bounds,
    x: &[Frac],
    value: &Frac,
) -> Result<(), Verdict>
    requires rising { All (λ (c : Column). IsRising c.entries) columns.now }
    requires values { length x.now ≡ length columns.now }
    requires few { length columns.now + row < 2 ^ 32 }
    ensures { result ≡ tested (plain Condition.Row (Some (length columns.now + row))
        ((then) (add_dot (length columns.now) (entry_by columns.now row) (get x.now) zero_f)
        (λ t. Ok (is_same t value.now)))
        ∷ bound_test (reached reach bounds.now) (length columns.now + row) value.now ∷ []) tt }
{
    let variable = columns.len() as u32 + row;
    let outcome = row_outcome(columns, row, x, *value);
    judged(Condition::Row, Some(variable), outcome)?;
    bound_found(reach, bounds, variable, value)
}

/// The tests of all rows.
fn rows_found(model: &Model, reach: Reach, x: &[Frac], r: &[Frac]) -> Result<(), Verdict>
    requires columns { length x.now ≡ length (contents model.now).columns }
    requires rows { length r.now ≡ length (contents model.now).rows }
    ensures { result ≡ tested (row_tests (model_form (contents model.now)) (reached reach)
        (get (x.now ++ r.now))) tt }
{
    let columns = model.columns.as_slice();
    let rows = model.rows.as_slice();
    for (i, row) in rows.iter().enumerate() {
        row_found(reach, columns, i as u32, &row.bounds, x, &r[i])?;
    }
    Ok(())
}

/// The tests of a point, or of a direction: all columns, and then all rows.
pub(crate) fn point_found(
    model: &Model,
    reach: Reach,
    x: &[Frac],
    r: &[Frac],
) -> Result<(), Verdict>
    requires columns { length x.now ≡ length (contents model.now).columns }
    requires rows { length r.now ≡ length (contents model.now).rows }
    ensures { result ≡ tested (point_tests (model_form (contents model.now)) (reached reach)
        (get (x.now ++ r.now))) tt }
{
    columns_found(model, reach, x)?;
    rows_found(model, reach, x, r)
}
