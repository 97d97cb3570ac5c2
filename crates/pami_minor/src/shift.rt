//! The reduced costs of a slice, behind a pivot.

ghost use Rattle.std.specs.Prelude.{ℕ};
ghost use Rattle.pami_frac.specs.Answers.{FollowsBy};
ghost use Rattle.pami_theory.specs.Form.{Form};
ghost use Rattle.pami_method.specs.Batch.{Minor as TheMinor, Reached as TheReached};
ghost use Rattle.pami_minor.specs.Shift.{shift_by};
ghost use Rattle.pami_minor.specs.Shifts.{IsBeforeShift, FollowsShift};

use pami_frac::{Entry, Fault, Refused};
use pami_script::plain::sub_product;
use pami_vec::{Side, Step, entry_at};
use std::alloc::Global;

/// `shift_at`, by its script alone, so that its parts are proved without the other clause.
fn shift_costs(
    alloc: Global,
    reduced: &[Entry],
    alpha: &[Entry],
    step: &Step,
    side: Side,
) -> Result<Vec<Entry>, Fault<Refused>>
    ensures { FollowsBy (λ es. es.items) (shift_by alpha.now step.now side reduced.now) result }
{
    let mut shifted = Vec::new(alloc);
    for cost in reduced {
        if cost.place != step.entering {
            let turned = side.toward(entry_at(alpha, cost.place));
            shifted.push(Entry {
                place: cost.place,
                value: sub_product(cost.value, step.tau, turned)?,
            })?;
        }
    }
    Ok(shifted)
}

/// The reduced costs of these variables behind a step of a row on this side, the entering one left out: `reduced` has those
/// before it, one for each nonbasic variable of a slice, `alpha` the entries of the pivot row there. (Koberstein 2005,
/// section 3.1.)
///
/// # Errors
///
/// `Named` exactly where a reduced cost doesn't fit: the first such. `OutOfMemory` where memory runs out.
pub fn shift_at(
    alloc: Global,
    reduced: &[Entry],
    alpha: &[Entry],
    step: &Step,
    side: Side,
) -> Result<Vec<Entry>, Fault<Refused>>
    ensures script { FollowsBy (λ es. es.items) (shift_by alpha.now step.now side reduced.now) result }
    // Over what is solved at the basis before a pivot they are those of the basis behind it, with the operations of the method.
    ensures fresh { (f : Form) (limit : ℕ) (m : TheMinor) (next : TheReached) (slice : ℕ)
        → IsBeforeShift f limit m next slice reduced.now alpha.now step.now side → FollowsShift f m next slice result }
{
    shift_costs(alloc, reduced, alpha, step, side)
}
