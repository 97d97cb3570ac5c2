//! The tests of an optimal certificate: those of its point, and then reduced costs, signs and the objective. Reduced
//! costs `d` go by column, dual values `y` by row.

ghost use Rattle.std.specs.Prelude.{◌≡◌, ◌++◌, ◌∷◌, [], length, Ok};
ghost use Rattle.pami_linear.specs.Lists.{get};
ghost use Rattle.pami_script.specs.Dense.{at, Rising};
ghost use Rattle.pami_script.specs.Script.{then, sub_dot};
ghost use Rattle.pami_theory.specs.Start.{is_same};
ghost use Rattle.pami_model.specs.Contents.{contents};
ghost use Rattle.pami_model_form.specs.ModelForm.{model_form};
ghost use Rattle.pami_check.specs.Tests.{tested};
ghost use Rattle.pami_check.specs.Verdict.{reduced_tests, sign_test, sign_tests, objective_script, objective_tests, optimal_tests};
ghost use Rattle.pami_check.specs.Lists.{row_signs, column_signs};

use crate::point::{Reach, point_found};
use crate::single::{is_complementary, is_same, judged};
use crate::sums::{cost_sum, minimised, reduced_cost};
use crate::verdict::{Condition, Verdict};
use pami_frac::{Bounds, Entry, Frac, Refused};
use pami_model::{Model, Sense};

/// Whether a reduced cost is the cost without the combination of the rows at its column.
fn reduced_outcome(
    cost: Frac,
    y: &[Frac],
    entries: &[Entry],
    reduced: Frac,
) -> Result<bool, Refused>
    requires { Rising 0 (length y.now) entries.now }
    ensures { result ≡ (then) (sub_dot (length y.now) (get y.now) (at entries.now) cost) (λ t. Ok (is_same t reduced)) }
{
    let total = reduced_cost(cost, y, entries)?;
    Ok(is_same(total, reduced))
}

/// The tests of all reduced costs.
fn reduced_found(model: &Model, d: &[Frac], y: &[Frac]) -> Result<(), Verdict>
    requires columns { length d.now ≡ length (contents model.now).columns }
    requires rows { length y.now ≡ length (contents model.now).rows }
    ensures { result ≡ tested (reduced_tests (model_form (contents model.now)) (get (d.now ++ y.now))) tt }
{
    let columns = model.columns.as_slice();
    for (j, column) in columns.iter().enumerate() {
        let cost = minimised(model.sense, column.cost);
        let outcome = reduced_outcome(cost, y, column.entries.as_slice(), d[j]);
        judged(Condition::Reduced, Some(j as u32), outcome)?;
    }
    Ok(())
}

/// The test of the sign of a reduced cost, or of a dual value.
fn sign_found(bounds: &Bounds, variable: u32, value: &Frac, reduced: &Frac) -> Result<(), Verdict>
    ensures { result ≡ tested (sign_test bounds.now variable value.now reduced.now ∷ []) tt }
{
    let is_complementary = is_complementary(bounds, *value, *reduced);
    judged(Condition::Sign, Some(variable), Ok(is_complementary))
}

/// The tests of the signs of all reduced costs.
fn column_signs_found(model: &Model, x: &[Frac], d: &[Frac]) -> Result<(), Verdict>
    requires values { length x.now ≡ length (contents model.now).columns }
    requires reduced { length d.now ≡ length (contents model.now).columns }
    ensures { result ≡ tested (column_signs (model_form (contents model.now)) (get x.now) (get d.now)) tt }
{
    let columns = model.columns.as_slice();
    for (j, column) in columns.iter().enumerate() {
        sign_found(&column.bounds, j as u32, &x[j], &d[j])?;
    }
    Ok(())
}

/// The tests of the signs of all dual values.
fn row_signs_found(model: &Model, r: &[Frac], y: &[Frac]) -> Result<(), Verdict>
    requires values { length r.now ≡ length (contents model.now).rows }
    requires dual { length y.now ≡ length (contents model.now).rows }
    ensures { result ≡ tested (row_signs (model_form (contents model.now)) (get r.now) (get y.now)) tt }
{
    let count = model.columns.as_slice().len();
    let rows = model.rows.as_slice();
    for (i, row) in rows.iter().enumerate() {
        sign_found(&row.bounds, (count + i) as u32, &r[i], &y[i])?;
    }
    Ok(())
}

/// The tests of all signs: the columns, and then the rows.
fn signs_found(model: &Model, x: &[Frac], d: &[Frac], r: &[Frac], y: &[Frac]) -> Result<(), Verdict>
    requires values { length x.now ≡ length (contents model.now).columns }
    requires reduced { length d.now ≡ length (contents model.now).columns }
    requires row_values { length r.now ≡ length (contents model.now).rows }
    requires dual { length y.now ≡ length (contents model.now).rows }
    ensures { result ≡ tested (sign_tests (model_form (contents model.now)) (get (x.now ++ r.now))
        (get (d.now ++ y.now))) tt }
{
    column_signs_found(model, x, d)?;
    row_signs_found(model, r, y)
}

/// Whether the objective that is told is that of the values.
fn objective_outcome(model: &Model, x: &[Frac], told: Frac) -> Result<bool, Refused>
    requires { length x.now ≡ length (contents model.now).columns }
    ensures { result ≡ (then) (objective_script (contents model.now) (get x.now)) (λ t. Ok (is_same t told)) }
{
    let total = cost_sum(model.constant, Sense::Min, model.columns.as_slice(), x)?;
    Ok(is_same(total, told))
}

/// The test of the objective, where one is told.
fn objective_found(model: &Model, objective: Option<Frac>, x: &[Frac]) -> Result<(), Verdict>
    requires { length x.now ≡ length (contents model.now).columns }
    ensures { result ≡ tested (objective_tests objective (objective_script (contents model.now) (get x.now))) tt }
{
    match objective {
        Some(told) => {
            let outcome = objective_outcome(model, x, told);
            judged(Condition::Objective, None, outcome)
        }
        None => Ok(()),
    }
}

/// What the tests of an optimal certificate find.
pub(crate) fn optimal_found(
    model: &Model,
    objective: Option<Frac>,
    x: &[Frac],
    d: &[Frac],
    r: &[Frac],
    y: &[Frac],
) -> Result<(), Verdict>
    requires values { length x.now ≡ length (contents model.now).columns }
    requires reduced { length d.now ≡ length (contents model.now).columns }
    requires row_values { length r.now ≡ length (contents model.now).rows }
    requires dual { length y.now ≡ length (contents model.now).rows }
    ensures { result ≡ tested (optimal_tests (contents model.now) objective (get (x.now ++ r.now))
        (get (d.now ++ y.now))) tt }
{
    point_found(model, Reach::Point, x, r)?;
    reduced_found(model, d, y)?;
    signs_found(model, x, d, r, y)?;
    objective_found(model, objective, x)
}
