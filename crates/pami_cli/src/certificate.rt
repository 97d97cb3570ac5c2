//! The certificates of a run's answers, made of lists that go by variable.

ghost use Rattle.std.specs.Prelude.{◌≡◌, ◌≤◌, ◌+◌, IfOk, length};
ghost use Rattle.std.specs.List.{All};
ghost use Rattle.pami_linear.specs.Lists.{get};
ghost use Rattle.pami_script.specs.Script.{add_product as the_add_product, add_dot};
ghost use Rattle.pami_theory.specs.Form.{zero_f};
ghost use Rattle.pami_model.specs.Contents.{contents};
ghost use Rattle.pami_model_form.specs.ModelForm.{member};
ghost use Rattle.pami_lines.specs.Certificate.{kept_or_none};
ghost use Rattle.pami_cert.specs.declared.cert.Cert.TheVariants.{Infeasible};
ghost use Rattle.pami_cert.specs.CertText.{Fit, MayFit, Fits};
ghost use Rattle.pami_cli.specs.CertOf.{best_cert as the_best_cert, direction_cert as the_direction_cert};

use pami_cert::Cert;
use pami_frac::{Frac, FracList, OutOfMemory};
use pami_model::{Column, Model};
use pami_script::plain::add_product;
use pami_vec::SpVec;
use std::alloc::Global;

/// The number, which fits as every number of a program does: its parts say so.
fn fitting(value: Frac) -> Frac
    ensures same { result ≡ value }
    ensures fits { Fit result }
{
    let _above = value.numerator();
    let _below = value.denominator();
    value
}

/// The sum with one product more. None where an operation doesn't fit.
fn with_product(t: Frac, cost: Frac, value: Frac) -> Option<Frac>
    ensures sum { result ≡ kept_or_none (the_add_product t cost value) }
    ensures fits { MayFit result }
{
    match add_product(t, cost, value) {
        Ok(sum) => Some(fitting(sum)),
        Err(_) => None,
    }
}

/// The constant and the sum of the costs times the values, columns ascending. None where an operation doesn't fit.
pub fn told_objective(constant: Frac, columns: &[Column], values: &[Frac]) -> Option<Frac>
    requires { length columns.now ≤ length values.now }
    ensures fits { MayFit result }
    ensures sum { result ≡ kept_or_none (add_dot (length columns.now) (λ j. member (λ column. column.cost) zero_f columns.now j) (get values.now) constant) }
{
    let mut total = fitting(constant);
    for (j, column) in columns.iter().enumerate() {
        total = with_product(total, column.cost, values[j])?;
    }
    Some(total)
}

/// A list of its own with these members.
///
/// # Errors
///
/// `OutOfMemory` alone.
fn copied(alloc: Global, members: &[Frac]) -> Result<FracList, OutOfMemory>
    ensures same { IfOk result (λ list. list ≡ members.now) }
    ensures fits { IfOk result (All Fit) }
{
    let mut list = Vec::new(alloc);
    for member in members {
        list.push(fitting(*member))?;
    }
    Ok(FracList::from_vec(list))
}

/// The certificate of values and reduced costs, which both go by variable.
///
/// # Errors
///
/// `OutOfMemory` alone.
pub fn best_cert(
    alloc: Global,
    model: &Model,
    values: &[Frac],
    reduced: &[Frac],
) -> Result<Cert, OutOfMemory>
    requires values { length (contents model.now).columns + length (contents model.now).rows ≡ length values.now }
    requires reduced { length reduced.now ≡ length values.now }
    ensures made { IfOk result (λ cert. cert ≡ the_best_cert (contents model.now) values.now reduced.now) }
    ensures fits { IfOk result Fits }
{
    let columns = model.columns.as_slice();
    let (x, r) = values.split_at(columns.len());
    let (d, y) = reduced.split_at(columns.len());
    Ok(Cert::Optimal {
        objective: told_objective(model.constant, columns, values),
        x: copied(alloc, x)?,
        d: copied(alloc, d)?,
        r: copied(alloc, r)?,
        y: copied(alloc, y)?,
    })
}

/// The certificate of a combination of the rows, which goes by row.
///
/// # Errors
///
/// `OutOfMemory` alone.
pub fn ray_cert(alloc: Global, y: &SpVec) -> Result<Cert, OutOfMemory>
    ensures made { IfOk result (λ cert. cert ≡ Infeasible y.now) }
    ensures fits { IfOk result Fits }
{
    let members = y.to_dense(alloc)?;
    Ok(Cert::Infeasible {
        y: copied(alloc, members.as_slice())?,
    })
}

/// The certificate of a direction, which goes by variable.
///
/// # Errors
///
/// `OutOfMemory` alone.
pub fn direction_cert(alloc: Global, model: &Model, z: &[Frac]) -> Result<Cert, OutOfMemory>
    requires { length (contents model.now).columns + length (contents model.now).rows ≡ length z.now }
    ensures made { IfOk result (λ cert. cert ≡ the_direction_cert (contents model.now) z.now) }
    ensures fits { IfOk result Fits }
{
    let (x, r) = z.split_at(model.columns.as_slice().len());
    Ok(Cert::DualInfeasible {
        x: copied(alloc, x)?,
        r: copied(alloc, r)?,
    })
}
