//! What a form is answered.

ghost use Rattle.std.specs.Prelude.{◌≡◌, ◌<◌, ◌^◌, IfOk, map, length};
ghost use Rattle.pami_algebra.specs.Operations.{neg_f};
ghost use Rattle.pami_method.specs.Phases.{ray as the_ray};

use pami_factor::Factor;
use pami_form::Form;
use pami_frac::{Frac, OutOfMemory};
use pami_log::Place;
use pami_state::State;
use pami_vec::{Side, SpVec};
use std::alloc::Global;

/// What a form is answered.
#[derive(Debug, Drop)]
pub enum Answer {
    /// The last state, whose values and reduced costs are those of an optimal point, and the factor of its head: that of the
    /// last kept major, else that of the switch, and none exactly where there was neither.
    Optimal {
        state: State,
        factor: Option<Factor>,
    },
    /// No point is feasible: y, by row.
    Infeasible {
        y: SpVec,
    },
    /// The costs fall along a ray: the last state of phase one, whose values are the ray, with the form in the boxes.
    DualInfeasible {
        state: State,
        form: Form,
    },
    /// The last state at the limit of pivots.
    Limit {
        state: State,
    },
    /// An operation that didn't fit, with its script.
    Overflow(Place),
}

/// Each number negated.
///
/// # Errors
///
/// `OutOfMemory` alone.
fn all_negated(alloc: Global, numbers: &[Frac]) -> Result<Vec<Frac>, OutOfMemory>
    ensures { IfOk result (λ out. out.items ≡ map neg_f numbers.now) }
{
    let mut out = Vec::new(alloc);
    for number in numbers {
        out.push(number.negate())?;
    }
    Ok(out)
}

/// The vector with each member negated.
///
/// # Errors
///
/// `OutOfMemory` alone.
fn negated(alloc: Global, vector: &SpVec) -> Result<SpVec, OutOfMemory>
    requires { length vector.now < 2 ^ 32 }
    ensures { IfOk result (λ v. v ≡ map neg_f vector.now) }
{
    let members = vector.to_dense(alloc)?;
    let opposite = all_negated(alloc, members.as_slice())?;
    SpVec::from_dense(alloc, opposite.as_slice())
}

/// The ray of a row without an entering variable, whose variable is outside on this side, by row.
///
/// # Errors
///
/// `OutOfMemory` alone.
pub(crate) fn ray(alloc: Global, side: Side, row: SpVec) -> Result<SpVec, OutOfMemory>
    requires { length row < 2 ^ 32 }
    ensures { IfOk result (λ v. v ≡ the_ray side row) }
{
    match side {
        Side::Above => Ok(row),
        Side::Below => negated(alloc, &row),
    }
}
