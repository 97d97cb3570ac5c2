//! The factor of a major: one that is kept, or a new elimination of the head.

ghost use Rattle.std.specs.Prelude.{◌≡◌, ◌≤◌, ◌<◌, ◌+◌, ◌^◌, ◌++◌, ℕ, Option, [], length, Err, IfOk};
ghost use Rattle.pami_frac.specs.declared.fault.Fault.{Fault};
ghost use Rattle.pami_method.specs.declared.words.Place.{Place};
ghost use Rattle.pami_method.specs.Factor.{History};
ghost use Rattle.pami_vec.specs.Pivots.{column_pivots, ArePivots};
ghost use Rattle.pami_form.specs.FormOf.{form_of};
ghost use Rattle.pami_state.specs.State.{basis_of};
ghost use Rattle.pami_batch.specs.Factors.{IsFactorOf, HasFactor};
ghost use Rattle.pami_major.specs.Ready.{IsReady};
ghost use Rattle.pami_major.specs.EndsMajor.{IsKnownFor};
ghost use Rattle.pami_major.specs.Beginnings.{kept_for, anew_refusal, factor_refusal, IsUsed};

use pami_factor::Factor;
use pami_form::Form;
use pami_frac::{Fault, OutOfMemory};
use pami_log::{Mode, Place, Spot};
use pami_lu::{LuFault, Steps, eliminate};
use pami_method::Options;
use pami_state::State;
use pami_vec::Pivots;
use std::alloc::Global;

/// The factor, where a major in this mode works with it: a Full one does so unless it has more than `refactor` pivots.
fn kept_factor(factor: Option<Factor>, mode: Mode, options: &Options) -> Option<Factor>
    ensures { result ≡ kept_for options.now mode factor }
{
    match mode {
        Mode::Single => None,
        Mode::Full => match factor {
            None => None,
            Some(kept) => {
                if kept.pivots() > options.refactor {
                    None
                } else {
                    Some(kept)
                }
            }
        },
    }
}

/// The factor of a new elimination of the head. It counts one step.
///
/// # Errors
///
/// `Named` exactly where an operation of the elimination doesn't fit: the first such, as that of the factor.
/// `OutOfMemory` where memory runs out.
fn head_factor<L>(
    alloc: Global,
    form: &Form,
    state: &State,
    steps: &mut Steps<L>,
) -> Result<Factor, Fault<Place>>
    requires ready { (limit : ℕ) × IsReady form.now limit state.now }
    ensures made { IfOk result (λ made. IsFactorOf (form_of form.now) (record { head = state.now.head; pivots = [] })
        (basis_of state.now) made) }
    ensures fits { IfOk result (λ _. anew_refusal (form_of form.now) state.now.head ≡ None) }
    ensures refused { (place : Place) → result ≡ Err (Fault.Named place)
        → anew_refusal (form_of form.now) state.now.head ≡ Some place }
    ensures counted { steps.new.count ≡ steps.old.count + 1 }
{
    let columns = form.columns.as_slice();
    match eliminate(alloc, columns, state.head.as_slice(), steps) {
        Ok(lu) => Ok(Factor::of(lu)),
        Err(Fault::Named(LuFault::Refused(refused))) => Err(Fault::Named(Place {
            task: Spot::Factor,
            refused,
        })),
        Err(Fault::Named(LuFault::Singular { place: _ })) => unreachable!(),
        Err(Fault::OutOfMemory) => Err(Fault::OutOfMemory),
    }
}

/// The factor with which a major in this mode works: the one that there is where it is kept, or that of a new
/// elimination of the head. It counts one step at most.
///
/// # Errors
///
/// `Named` exactly where the head is eliminated and an operation doesn't fit: the first such. `OutOfMemory` where
/// memory runs out.
pub(crate) fn ready_factor<L>(
    alloc: Global,
    form: &Form,
    state: &State,
    factor: Option<Factor>,
    mode: Mode,
    options: &Options,
    steps: &mut Steps<L>,
) -> Result<Factor, Fault<Place>>
    requires ready { (limit : ℕ) × IsReady form.now limit state.now }
    requires factor { (h : Option History) × HasFactor (form_of form.now) h (basis_of state.now) factor }
    ensures used { IfOk result (λ used. (h : Option History) → IsKnownFor (form_of form.now) mode h state.now factor
        → IsUsed (form_of form.now) options.now mode h state.now used) }
    ensures known { IfOk result (λ used. (h : History) × IsFactorOf (form_of form.now) h (basis_of state.now) used) }
    ensures few { IfOk result (λ used. length used.pivots ≤ options.now.refactor) }
    ensures refused { (place : Place) → result ≡ Err (Fault.Named place)
        → (h : Option History) → IsKnownFor (form_of form.now) mode h state.now factor
        → factor_refusal (form_of form.now) options.now mode h state.now ≡ Some place }
    ensures counted { steps.new.count ≤ steps.old.count + 1 }
{
    match kept_factor(factor, mode, options) {
        Some(kept) => Ok(kept),
        None => head_factor(alloc, form, state, steps),
    }
}

/// The factor with these pivots behind its own.
///
/// # Errors
///
/// `OutOfMemory` alone.
pub(crate) fn factor_behind(factor: Factor, pivots: Pivots) -> Result<Factor, OutOfMemory>
    requires pivots { ArePivots (length factor.steps) pivots }
    requires few { length factor.pivots + length pivots < 2 ^ 32 }
    ensures steps { IfOk result (λ behind. behind.steps ≡ factor.steps) }
    ensures pivots { IfOk result (λ behind. behind.pivots ≡ factor.pivots ++ column_pivots pivots) }
{
    let mut behind = factor;
    behind.append(pivots)?;
    Ok(behind)
}
