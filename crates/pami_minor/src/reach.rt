//! A row that remains, behind a pivot.

ghost use Rattle.std.specs.Prelude.{◌≡◌, ◌<◌, ℕ, length, false};
ghost use Rattle.pami_frac.specs.Signs.{is_zero};
ghost use Rattle.pami_frac.specs.Answers.{FollowsBy};
ghost use Rattle.pami_state.specs.Columns.{column_of};
ghost use Rattle.pami_method.specs.Batch.{Minor as TheMinor, Reached as TheReached};
ghost use Rattle.pami_form.specs.FormOf.{form_of};
ghost use Rattle.pami_minor.specs.Reach.{reach_by};
ghost use Rattle.pami_minor.specs.Behind.{IsBeforeReach, FollowsReach};

use crate::row::Reached;
use pami_devex::reweigh_one;
use pami_form::Form;
use pami_frac::{Fault, Frac, Refused};
use pami_script::plain::sub_product;
use pami_vec::{SpVec, Step};
use std::alloc::Global;

/// `reach_at`, by its script alone, so that its parts are proved without the other clause.
fn reach_row(
    alloc: Global,
    form: &Form,
    step: &Step,
    alpha_pq: &Frac,
    rho_p: &SpVec,
    weight_p: u64,
    row: &Reached,
) -> Result<Reached, Fault<Refused>>
    requires entering { step.now.entering < length form.now.columns }
    requires rows { length row.now.rho ≡ form.now.rows }
    requires flips { length step.now.flip_column ≡ form.now.rows }
    requires pivot_row { length rho_p.now ≡ form.now.rows }
    requires nonzero { is_zero alpha_pq.now ≡ false }
    ensures { FollowsBy (λ r. r)
        (reach_by (column_of form.now.columns step.now.entering) step.now alpha_pq.now rho_p.now weight_p row.now) result }
{
    let columns = form.columns.as_slice();
    let alpha = row.rho.dot(&columns[step.entering as usize])?;
    let change = row.rho.dot(&step.flip_column)?;
    let unflipped = row.value.sub(change)?;
    let value = sub_product(unflipped, step.theta, alpha)?;
    let share = alpha.div(*alpha_pq)?;
    let rho = row.rho.take_times(alloc, share, rho_p)?;
    Ok(Reached {
        place: row.place,
        value,
        weight: reweigh_one(row.weight, &alpha, alpha_pq, weight_p),
        rho,
    })
}

/// Brings a row that remains behind a step: its value, its row of the inverse and its weight. `alpha_pq` is the pivot,
/// `rho_p` the row and `weight_p` the weight of its place. (Huangfu and Hall 2018, section 3.)
///
/// # Errors
///
/// `Named` exactly where an operation doesn't fit: the first such. `OutOfMemory` where memory runs out.
pub fn reach_at(
    alloc: Global,
    form: &Form,
    step: &Step,
    alpha_pq: &Frac,
    rho_p: &SpVec,
    weight_p: u64,
    row: &Reached,
) -> Result<Reached, Fault<Refused>>
    requires entering { step.now.entering < length form.now.columns }
    requires rows { length row.now.rho ≡ form.now.rows }
    requires flips { length step.now.flip_column ≡ form.now.rows }
    requires pivot_row { length rho_p.now ≡ form.now.rows }
    requires nonzero { is_zero alpha_pq.now ≡ false }
    ensures script { FollowsBy (λ r. r)
        (reach_by (column_of form.now.columns step.now.entering) step.now alpha_pq.now rho_p.now weight_p row.now) result }
    // Over what is solved at the basis before a pivot it is the row of the basis behind it, with the operations of the method.
    ensures fresh { (limit : ℕ) (m : TheMinor) (next : TheReached)
        → IsBeforeReach (form_of form.now) limit m next step.now alpha_pq.now rho_p.now weight_p row.now
        → FollowsReach (form_of form.now) m next row.now.place result }
{
    reach_row(alloc, form, step, alpha_pq, rho_p, weight_p, row)
}
