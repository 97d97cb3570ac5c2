//! The ratio walk of a row that leaves, and the step that it takes.

ghost use Rattle.std.specs.Prelude.{◌≡◌, ◌<◌, ◌^◌, ℕ, length, false, All, slice_index_or};
ghost use Rattle.pami_frac.specs.Signs.{is_zero};
ghost use Rattle.pami_frac.specs.Answers.{FollowsBy};
ghost use Rattle.pami_script.specs.Dense.{Rising};
ghost use Rattle.pami_theory.specs.Fresh.{standing_value as the_standing_value};
ghost use Rattle.pami_theory.specs.declared.words.Stand.TheVariants.{Basic};
ghost use Rattle.pami_theory.specs.Basis.{Basis};
ghost use Rattle.pami_theory.specs.Fresh.{Fresh};
ghost use Rattle.pami_form.specs.FormOf.{form_of};
ghost use Rattle.pami_minor.specs.Steps.{AreWalked, FollowsWalk};
ghost use Rattle.pami_minor.specs.Walked.{bounds_at, bound_of as the_bound_of, move_by, walk_by, walked};

use crate::flips::{flip_column, step_length};
use pami_bfrt::{Walk, ratio_walk};
use pami_form::Form;
use pami_frac::{Entry, Fault, Frac, Refused};
use pami_vec::{SpVec, Stand, Step, Violation, entry_at, passed_bound, value_at};
use std::alloc::Global;

/// A row that leaves: its place, the variable there with its value, and how far that is outside of its bounds.
#[derive(Clone, Copy, Debug, PartialEq, Eq)]
pub struct Leaving {
    pub place: u32,
    pub variable: u32,
    pub value: Frac,
    pub violation: Violation,
}

/// The primal length of a step, and what its flips change, by row.
#[derive(Debug, Drop)]
struct StepMove {
    theta: Frac,
    flips: SpVec,
}

/// The bound to which the variable of a row goes.
fn bound_of(form: &Form, row: &Leaving) -> Frac
    requires { row.now.variable < length form.now.columns }
    ensures { result ≡ the_bound_of form.now row.now }
{
    let bounds = form.bounds.as_slice();
    passed_bound(&bounds[row.variable as usize], row.violation.side)
}

/// The value at which a nonbasic variable stands.
fn standing_value(form: &Form, stands: &[Stand], variable: u32) -> Frac
    requires stands { length stands.now ≡ length form.now.columns }
    requires variable { variable < length form.now.columns }
    ensures { result ≡ the_standing_value (bounds_at form.now variable) (slice_index_or stands.now variable Basic) }
{
    let bounds = form.bounds.as_slice();
    value_at(&bounds[variable as usize], stands[variable as usize])
}

/// Works out what the flips change and how long the step of a row is, by its pivot.
///
/// # Errors
///
/// `Named` exactly where an operation doesn't fit: the first such. `OutOfMemory` where memory runs out.
fn move_row(
    alloc: Global,
    form: &Form,
    stands: &[Stand],
    rho: &SpVec,
    pivot: Frac,
    row: &Leaving,
    flips: &[u32],
) -> Result<StepMove, Fault<Refused>>
    requires stands { length stands.now ≡ length form.now.columns }
    requires rows { length rho.now ≡ form.now.rows }
    requires variable { row.now.variable < length form.now.columns }
    requires nonzero { is_zero pivot ≡ false }
    requires known { All (λ v. v < length form.now.columns) flips.now }
    ensures { FollowsBy (λ m. record { theta = m.theta; flips = m.flips })
        (move_by form.now stands.now rho.now pivot row.now flips.now) result }
{
    let flips = flip_column(alloc, form, stands, flips)?;
    let theta = step_length(rho, &flips, row.value, bound_of(form, row), pivot)?;
    Ok(StepMove { theta, flips })
}

/// `walk_at`, by its script alone, so that its parts are proved without the other clause.
fn walk_row(
    alloc: Global,
    form: &Form,
    stands: &[Stand],
    reduced: &[Frac],
    alpha: &[Entry],
    rho: &SpVec,
    row: &Leaving,
) -> Result<(Walk, Option<Step>), Fault<Refused>>
    requires stands { length stands.now ≡ length form.now.columns }
    requires reduced { length reduced.now ≡ length form.now.columns }
    requires rising { Rising 0 (length form.now.columns) alpha.now }
    requires rows { length rho.now ≡ form.now.rows }
    requires variable { row.now.variable < length form.now.columns }
    ensures { FollowsBy walked (walk_by form.now stands.now reduced.now alpha.now rho.now row.now) result }
{
    let walk = ratio_walk(
        alloc,
        stands,
        form.bounds.as_slice(),
        form.widths.as_slice(),
        reduced,
        alpha,
        &row.violation,
    )?;
    match walk {
        Walk::NoEntering => Ok((Walk::NoEntering, None)),
        Walk::Entering {
            variable,
            tau,
            flips,
        } => {
            let pivot = entry_at(alpha, variable);
            let moved = move_row(alloc, form, stands, rho, pivot, row, flips.as_slice())?;
            let step = Step {
                place: row.place,
                leaving: row.variable,
                entering: variable,
                tau,
                theta: moved.theta,
                bound: bound_of(form, row),
                old_value: standing_value(form, stands, variable),
                flip_column: moved.flips,
            };
            Ok((
                Walk::Entering {
                    variable,
                    tau,
                    flips,
                },
                Some(step),
            ))
        }
    }
}

/// The dual ratio test with bound flipping at a row that leaves, and the step where a variable enters. Stands and reduced
/// costs go by variable, `rho`, the place's row of the inverse, by row; `alpha` has the entries of the pivot row at the
/// nonbasic variables that aren't 0, ascending.
///
/// # Errors
///
/// `Named` exactly where an operation doesn't fit: the first such, those of the walk before those of the step.
/// `OutOfMemory` where memory runs out.
pub fn walk_at(
    alloc: Global,
    form: &Form,
    stands: &[Stand],
    reduced: &[Frac],
    alpha: &[Entry],
    rho: &SpVec,
    row: &Leaving,
) -> Result<(Walk, Option<Step>), Fault<Refused>>
    requires stands { length stands.now ≡ length form.now.columns }
    requires reduced { length reduced.now ≡ length form.now.columns }
    requires rising { Rising 0 (length form.now.columns) alpha.now }
    requires rows { length rho.now ≡ form.now.rows }
    requires variable { row.now.variable < length form.now.columns }
    ensures script { FollowsBy walked (walk_by form.now stands.now reduced.now alpha.now rho.now row.now) result }
    // Over what is solved at a basis it is the walk and the step of the theory, with the operations of the method.
    ensures fresh { (b : Basis) (s : Fresh)
        → AreWalked (form_of form.now) b s stands.now reduced.now alpha.now rho.now row.now
        → FollowsWalk (form_of form.now) b s row.now.place row.now.violation result }
{
    walk_row(alloc, form, stands, reduced, alpha, rho, row)
}
