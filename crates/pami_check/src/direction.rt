//! The tests of a certificate of dual infeasibility: a direction that leads out of no bound and lowers the cost.

ghost use Rattle.std.specs.Prelude.{◌≡◌, ◌++◌, length, Ok};
ghost use Rattle.pami_algebra.specs.Operations.{is_below};
ghost use Rattle.pami_linear.specs.Lists.{get};
ghost use Rattle.pami_script.specs.Script.{then, add_dot};
ghost use Rattle.pami_theory.specs.Form.{zero_f};
ghost use Rattle.pami_model.specs.Contents.{contents};
ghost use Rattle.pami_model_form.specs.ModelForm.{model_form};
ghost use Rattle.pami_check.specs.Tests.{tested};
ghost use Rattle.pami_check.specs.Verdict.{dual_infeasible_tests};
ghost use Rattle.pami_check.specs.Lists.{cost_by};

use crate::point::{Reach, point_found};
use crate::single::{is_below, judged};
use crate::sums::cost_sum;
use crate::verdict::{Condition, Verdict};
use pami_frac::{Frac, Refused};
use pami_model::Model;

/// Whether the cost falls along a direction.
fn cost_outcome(model: &Model, z: &[Frac]) -> Result<bool, Refused>
    requires { length z.now ≡ length (contents model.now).columns }
    ensures { result ≡ (then) (add_dot (length model.now.columns) (cost_by model.now.sense model.now.columns)
        (get z.now) zero_f) (λ t. Ok (is_below t zero_f)) }
{
    let zero = Frac::zero();
    let total = cost_sum(zero, model.sense, model.columns.as_slice(), z)?;
    Ok(is_below(&total, &zero))
}

/// What the tests of a certificate of dual infeasibility find. The direction goes by column in `x` and by row in `r`.
pub(crate) fn dual_infeasible_found(model: &Model, x: &[Frac], r: &[Frac]) -> Result<(), Verdict>
    requires columns { length x.now ≡ length (contents model.now).columns }
    requires rows { length r.now ≡ length (contents model.now).rows }
    ensures { result ≡ tested (dual_infeasible_tests (model_form (contents model.now)) (get (x.now ++ r.now))) tt }
{
    point_found(model, Reach::Direction, x, r)?;
    judged(Condition::Cost, None, cost_outcome(model, x))
}
