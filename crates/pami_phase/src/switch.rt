//! The switch from the boxes to the form's own bounds: where the variables stand there, and the values solved afresh.

ghost use Rattle.std.specs.Prelude.{◌≡◌, ◌↔◌, IsTrue, ◌<◌, ◌≤◌, ◌+◌, ◌^◌, ℕ, [], length, map, replicate, slice_index_or, IfOk, All};
ghost use Rattle.std.specs.List.{range_with_len};
ghost use Rattle.pami_linear.specs.Systems.{IsRegular};
ghost use Rattle.pami_frac.specs.Answers.{Follows, FollowsBy};
ghost use Rattle.pami_factoring.specs.Factor.{basis_columns, elimination_script, matrix_of};
ghost use Rattle.pami_theory.specs.Fresh.{Fresh, IsFresh};
ghost use Rattle.pami_theory.specs.Start.{is_same as the_is_same};
ghost use Rattle.pami_theory.specs.Basis.{Basis, IsBasis, IsRegularBasis};
ghost use Rattle.pami_theory.specs.Boxes.{boxes_of, boxed_by as the_boxed_by, switched_by as the_switched_by, unless_basic, switched_basis, CanBeDualFeasible};
ghost use Rattle.pami_method.specs.Scripts.{is_nonbasic as the_is_nonbasic};
ghost use Rattle.pami_method.specs.Phases.{switch_refused};
ghost use Rattle.pami_state.specs.State.{basis_of, IsSolvedAfresh};
ghost use Rattle.pami_form.specs.FormOf.{form_of};
ghost use Rattle.pami_batch.specs.Factors.{IsFactorOf};
ghost use Rattle.pami_phase.specs.Switches.{switched_at, side_script, switch_script, FollowsSteps};

use pami_factor::Factor;
use pami_form::Form;
use pami_frac::{Bounds, Fault, Frac, FracList, OutOfMemory, Refused};
use pami_lu::{Lu, LuFault, Steps, eliminate};
use pami_state::State;
use pami_vec::{SpVec, Stand, StandList, WeightList};
use std::alloc::Global;

/// Are both the same number?
fn is_same(left: Frac, right: Frac) -> bool
    ensures { result ≡ the_is_same left right }
{
    left == right
}

/// The bound that the sign of the reduced cost asks for, where there is a choice.
fn boxed_by(fixed: bool, reduced: Frac) -> Stand
    ensures { result ≡ the_boxed_by fixed reduced }
{
    if !fixed && reduced.is_negative() {
        Stand::Upper
    } else {
        Stand::Lower
    }
}

/// Where a nonbasic variable with this reduced cost stands.
fn switched_by(bounds: &Bounds, reduced: Frac) -> Stand
    ensures { result ≡ the_switched_by bounds.now.low bounds.now.high reduced }
{
    match (bounds.low, bounds.high) {
        (None, None) => Stand::Zero,
        (Some(_), None) => Stand::Lower,
        (None, Some(_)) => Stand::Upper,
        (Some(low), Some(high)) => boxed_by(is_same(low, high), reduced),
    }
}

/// Where a variable stands on its own bounds.
fn switched_stand(bounds: &Bounds, stand: Stand, reduced: Frac) -> Stand
    ensures { result ≡ unless_basic stand (the_switched_by bounds.now.low bounds.now.high reduced) }
{
    match stand {
        Stand::Basic => Stand::Basic,
        _ => switched_by(bounds, reduced),
    }
}

/// Where all variables stand on their own bounds.
///
/// # Errors
///
/// `OutOfMemory` alone.
fn switched_stands(
    alloc: Global,
    bounds: &[Bounds],
    stands: &[Stand],
    reduced: &[Frac],
) -> Result<Vec<Stand>, OutOfMemory>
    requires stands { length stands.now ≡ length bounds.now }
    requires reduced { length reduced.now ≡ length bounds.now }
    ensures { IfOk result (λ found. found.items ≡ map (switched_at bounds.now stands.now reduced.now) (range_with_len 0 (length bounds.now))) }
{
    let mut found = Vec::new(alloc);
    for (v, limits) in bounds.iter().enumerate() {
        found.push(switched_stand(limits, stands[v], reduced[v]))?;
    }
    Ok(found)
}

/// The last state of phase one with its variables on the form's own bounds. Its values are still those of the boxes.
///
/// # Errors
///
/// `OutOfMemory` alone.
pub(crate) fn moved_to_bounds(
    alloc: Global,
    form: &Form,
    state: &State,
) -> Result<State, OutOfMemory>
    requires basis { IsBasis (boxes_of (form_of form.now)) (basis_of state.now) }
    requires solved { IsSolvedAfresh (boxes_of (form_of form.now)) state.now }
    ensures basis { IfOk result (λ st. basis_of st ≡ switched_basis (form_of form.now) (basis_of state.now) state.now.reduced) }
    ensures values { IfOk result (λ st. st.values ≡ state.now.values) }
    ensures reduced { IfOk result (λ st. st.reduced ≡ state.now.reduced) }
    ensures weights { IfOk result (λ st. st.weights ≡ state.now.weights) }
    ensures pivots { IfOk result (λ st. st.pivots ≡ state.now.pivots) }
{
    let stands = switched_stands(
        alloc,
        form.bounds.as_slice(),
        state.stands.as_slice(),
        state.reduced.as_slice(),
    )?;
    let mut moved = state.copy(alloc)?;
    moved.stands = StandList::from_vec(stands);
    Ok(moved)
}

/// Is the last basis of phase one dual feasible on the form's own bounds? `moved` is its state with the variables on them; its
/// values aren't read. It takes no memory.
pub(crate) fn can_be_dual_feasible(form: &Form, moved: &State) -> bool
    requires stands { length moved.now.stands ≡ length form.now.bounds }
    requires reduced { length moved.now.reduced ≡ length form.now.bounds }
    ensures { (b : Basis) (s : Fresh) → IsBasis (boxes_of (form_of form.now)) b → IsFresh (boxes_of (form_of form.now)) b s
        → basis_of moved.now ≡ switched_basis (form_of form.now) b s.reduced → moved.now.reduced ≡ s.reduced
        → IsTrue result ↔ CanBeDualFeasible (form_of form.now) b }
{
    moved.dual_feasible(form.bounds.as_slice())
}

/// Isn't it in the basis?
fn is_nonbasic(stand: Stand) -> bool
    ensures { result ≡ the_is_nonbasic stand }
{
    match stand {
        Stand::Basic => false,
        Stand::Lower => true,
        Stand::Upper => true,
        Stand::Zero => true,
    }
}

/// The right side of the basic values: less each nonbasic variable's value times its column, variables ascending.
///
/// # Errors
///
/// `Named` exactly where an operation doesn't fit: the first such. `OutOfMemory` where memory runs out.
fn nonbasic_side(alloc: Global, form: &Form, state: &State) -> Result<SpVec, Fault<Refused>>
    requires basis { IsBasis (form_of form.now) (basis_of state.now) }
    requires values { length state.now.values ≡ length state.now.head }
    ensures { (t : Fresh) → IsFresh (form_of form.now) (basis_of state.now) t → FollowsBy (λ v. v) (side_script (form_of form.now) (basis_of state.now) t) result }
{
    let bounds = form.bounds.as_slice();
    let stands = state.stands.as_slice();
    let mut rows = SpVec::from_entries(alloc, form.rows, &[])?;
    for (v, column) in form.columns.as_slice().iter().enumerate() {
        if is_nonbasic(stands[v]) {
            let value = state.value_of(bounds, v as u32);
            rows = rows.take_times(alloc, value, column)?;
        }
    }
    Ok(rows)
}

/// Eliminates a regular basis. It counts one step.
///
/// # Errors
///
/// `Named` exactly where an operation doesn't fit: the first such. `OutOfMemory` where memory runs out.
fn eliminated<L>(
    alloc: Global,
    columns: &[SpVec],
    head: &[u32],
    steps: &mut Steps<L>,
) -> Result<Lu, Fault<Refused>>
    requires rows { length head.now < 2 ^ 32 }
    requires heights { (j : ℕ) → j < length columns.now → length (slice_index_or columns.now j []) ≡ length head.now }
    requires known { All (λ j. j < length columns.now) head.now }
    requires regular { IsRegular (length head.now) (basis_columns columns.now head.now) }
    ensures steps { FollowsSteps (elimination_script (matrix_of columns.now head.now)) result }
    ensures counted { steps.new.count ≤ steps.old.count + 1 }
{
    match eliminate(alloc, columns, head, steps) {
        Ok(lu) => Ok(lu),
        Err(Fault::OutOfMemory) => Err(Fault::OutOfMemory),
        Err(Fault::Named(LuFault::Refused(refused))) => Err(Fault::Named(refused)),
        Err(Fault::Named(LuFault::Singular { place: _ })) => unreachable!(),
    }
}

/// The values by place at the basis of a state, and the factor of its head.
#[derive(Drop)]
struct SolvedValues {
    values: SpVec,
    factor: Factor,
}

/// The values by place at the basis of a state: a new elimination, the right side, and the forward solve; and the factor that
/// the elimination gave.
///
/// # Errors
///
/// `Named` exactly where an operation doesn't fit: the first such. `OutOfMemory` where memory runs out.
fn solved_values<L>(
    alloc: Global,
    form: &Form,
    state: &State,
    steps: &mut Steps<L>,
) -> Result<SolvedValues, Fault<Refused>>
    requires basis { IsBasis (form_of form.now) (basis_of state.now) }
    requires regular { IsRegularBasis (form_of form.now) (basis_of state.now) }
    requires values { length state.now.values ≡ length state.now.head }
    ensures script { (t : Fresh) → IsFresh (form_of form.now) (basis_of state.now) t
        → FollowsBy (λ s. s.values) (switch_script (form_of form.now) (basis_of state.now) t) result }
    ensures factor { IfOk result (λ s. IsFactorOf (form_of form.now) (record { head = state.now.head; pivots = [] }) (basis_of state.now) s.factor) }
    ensures counted { steps.new.count ≤ steps.old.count + 2 }
{
    let lu = eliminated(alloc, form.columns.as_slice(), state.head.as_slice(), steps)?;
    let rows = nonbasic_side(alloc, form, state)?;
    let factor = Factor::of(lu);
    let values = factor.solve_forward(alloc, &rows, steps)?;
    Ok(SolvedValues { values, factor })
}

/// A state behind the switch, with the factor that the elimination of its head gave.
#[derive(Debug, Drop)]
pub(crate) struct SwitchedState {
    pub(crate) state: State,
    pub(crate) factor: Factor,
}

/// A state whose variables stand on the form's own bounds, with its values solved afresh and new weights; the count of pivots
/// goes on.
///
/// # Errors
///
/// `Named` exactly where an operation of the elimination or of the solve doesn't fit: the first such. `OutOfMemory` where
/// memory runs out.
pub(crate) fn switched<L>(
    alloc: Global,
    form: &Form,
    state: State,
    steps: &mut Steps<L>,
) -> Result<SwitchedState, Fault<Refused>>
    requires basis { IsBasis (form_of form.now) (basis_of state) }
    requires regular { IsRegularBasis (form_of form.now) (basis_of state) }
    requires values { length state.values ≡ length state.head }
    requires reduced { (t : Fresh) → IsFresh (form_of form.now) (basis_of state) t → state.reduced ≡ t.reduced }
    ensures basis { IfOk result (λ s. basis_of s.state ≡ basis_of state) }
    ensures solved { IfOk result (λ s. IsSolvedAfresh (form_of form.now) s.state) }
    ensures weights { IfOk result (λ s. s.state.weights ≡ replicate (form_of form.now).rows 1) }
    ensures pivots { IfOk result (λ s. s.state.pivots ≡ state.pivots) }
    ensures factor { IfOk result (λ s. IsFactorOf (form_of form.now) (record { head = state.head; pivots = [] }) (basis_of state) s.factor) }
    ensures follows { (t : Fresh) → IsFresh (form_of form.now) (basis_of state) t → Follows (switch_refused (form_of form.now) (basis_of state) t) result }
    ensures counted { steps.new.count ≤ steps.old.count + 2 }
{
    let solved = solved_values(alloc, form, &state, steps)?;
    let mut next = state;
    next.values = FracList::from_vec(solved.values.to_dense(alloc)?);
    next.weights = WeightList::from_vec(vec![in alloc; 1; form.rows as usize]?);
    Ok(SwitchedState {
        state: next,
        factor: solved.factor,
    })
}
