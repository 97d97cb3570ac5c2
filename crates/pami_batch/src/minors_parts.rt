//! The parts of a batch's inside: each stands for its tasks, in their order.

ghost use Rattle.std.specs.Prelude.{◌≡◌, ◌<◌, ◌≤◌, ◌^◌, ◌+◌, ◌++◌, ◌∷◌, [], ℕ, List, length, map, Ok, IfOk};
ghost use Rattle.pami_theory.specs.Form.{Form as TheForm, variables};
ghost use Rattle.pami_theory.specs.Basis.{Basis};
ghost use Rattle.pami_theory.specs.Fresh.{Fresh, IsFresh, row_at};
ghost use Rattle.pami_theory.specs.Choice.{InfeasibleRow};
ghost use Rattle.pami_method.specs.Factor.{History};
ghost use Rattle.pami_method.specs.Batch.{Minor as TheMinor, Reached as TheReached, places};
ghost use Rattle.pami_method.specs.Work.{backward_task, price_tasks, reach_tasks, shift_tasks};
ghost use Rattle.pami_chuzr.specs.Choice.{chosen_row};
ghost use Rattle.pami_price.specs.Slices.{slices};
ghost use Rattle.pami_form.specs.FormOf.{form_of};
ghost use Rattle.pami_minor.specs.Behind.{IsRowOf, IsReachedRow};
ghost use Rattle.pami_minor.specs.Fresh.{IsFreshMinor, IsPricing, IsStepping};
ghost use Rattle.pami_minor.specs.Follow.{IsPriceOf};
ghost use Rattle.pami_minor.specs.Opening.{IsOpening};
ghost use Rattle.pami_minor.specs.Shifts.{AreCosts};
ghost use Rattle.pami_minor.specs.Steps.{FollowsWalk};
ghost use Rattle.pami_batch.specs.Factors.{IsFactorOf};
ghost use Rattle.pami_batch.specs.Told.{IsSpotBehind, Tells};
ghost use Rattle.pami_batch.specs.Told.{price_task, walk_tasks, walk_spot as the_walk_spot, reach_task, shift_task};

use crate::faults::{at, fault_at};
use pami_bfrt::Walk;
use pami_chuzr::ChosenRow;
use pami_factor::Factor;
use pami_form::Form;
use pami_frac::{Entry, Fault, OutOfMemory, Refused};
use pami_log::{Place, Spot};
use pami_lu::Steps;
use pami_minor::{Minor, Reached};
use pami_price::price_slice;
use pami_vec::{SpVec, Step};
use std::alloc::Global;

// ---- the rows of the chosen places

/// The row of the inverse of a chosen place, by row.
///
/// # Errors
///
/// `Named` exactly where an operation of the solve doesn't fit: the first such. `OutOfMemory` where memory runs out.
fn solve_row<L>(
    alloc: Global,
    factor: &Factor,
    place: u32,
    steps: &mut Steps<L>,
) -> Result<SpVec, Fault<Place>>
    requires few { length factor.now.steps < 2 ^ 32 }
    requires low { place < length factor.now.steps }
    ensures row { (f : TheForm) (h : History) (b : Basis) (s : Fresh)
        → IsFactorOf f h b factor.now → IsFresh f b s → place < f.rows
        → Tells (λ rho. rho ≡ row_at s place) (backward_task f h place ∷ []) result }
    ensures counted { steps.new.count ≡ steps.old.count + 1 }
{
    at(
        Spot::Backward { place },
        factor.solve_backward(alloc, place, steps),
    )
}

/// Solves for the rows of the chosen places, in order of choice, and takes them in.
///
/// # Errors
///
/// `Named` exactly where an operation of a solve doesn't fit: the first such. `OutOfMemory` where memory runs out.
pub(crate) fn solve_rows<L>(
    alloc: Global,
    factor: &Factor,
    chosen: &[ChosenRow],
    minor: &mut Minor,
    steps: &mut Steps<L>,
) -> Result<(), Fault<Place>>
    requires turn { (f : TheForm) × (limit : ℕ) × (r : TheReached) × (h : History) × IsOpening f limit r 0 minor.old
        × IsFactorOf f h r.basis factor.now × (chosen.now ≡ map chosen_row r.rows) × (f.rows < 2 ^ 32) }
    // They are those of the basis with which the batch begins.
    ensures rows { (f : TheForm) (limit : ℕ) (r : TheReached) (h : History) → IsOpening f limit r 0 minor.old
        → IsFactorOf f h r.basis factor.now → chosen.now ≡ map chosen_row r.rows
        → Tells (λ _. IsOpening f limit r (length r.rows) minor.new) (map (backward_task f h) (places r.rows)) result }
    ensures steps { minor.new.steps.items ≡ minor.old.steps.items }
    ensures counted { steps.new.count ≤ steps.old.count + length chosen.now }
{
    for row in chosen {
        let rho = solve_row(alloc, factor, row.place, steps)?;
        minor.commit_backward(row.place, rho);
    }
    Ok(())
}

// ---- the row that leaves

/// How many slices the variables of a form have.
fn slice_count(form: &Form) -> u32
    ensures { result ≡ slices (variables (form_of form.now)) }
{
    ((form.columns.as_slice().len() + 63) / 64) as u32
}

/// The entries of the picked row in a slice, by rising variable.
///
/// # Errors
///
/// `Named` exactly where an operation doesn't fit: the first such. `OutOfMemory` where memory runs out.
fn price_one(
    alloc: Global,
    form: &Form,
    number: u32,
    slice: u32,
    place: u32,
    minor: &Minor,
) -> Result<Vec<Entry>, Fault<Place>>
    requires turn { (limit : ℕ) × (r : TheReached) × (row : InfeasibleRow) × (n : ℕ)
        × IsPricing (form_of form.now) limit r row n minor.now × (row.place ≡ place) }
    requires slice { slice < slices (variables (form_of form.now)) }
    ensures price { (limit : ℕ) (r : TheReached) (row : InfeasibleRow) (n : ℕ)
        → IsPricing (form_of form.now) limit r row n minor.now → row.place ≡ place
        → Tells (λ es. IsPriceOf (form_of form.now) r row slice es.items)
        (price_task (form_of form.now) number r row slice ∷ []) result }
{
    let rho = minor.rho(place);
    at(
        Spot::Price {
            minor: number,
            slice,
        },
        price_slice(alloc, &form.by_row, minor.stands(), rho, slice),
    )
}

/// Prices the slices of the picked row, and takes them in.
///
/// # Errors
///
/// `Named` exactly where an operation doesn't fit: the first such. `OutOfMemory` where memory runs out.
pub(crate) fn price_row(
    alloc: Global,
    form: &Form,
    number: u32,
    place: u32,
    minor: &mut Minor,
) -> Result<(), Fault<Place>>
    requires turn { (limit : ℕ) × (r : TheReached) × (row : InfeasibleRow)
        × IsPricing (form_of form.now) limit r row 0 minor.old × (row.place ≡ place) }
    ensures prices { (limit : ℕ) (r : TheReached) (row : InfeasibleRow)
        → IsPricing (form_of form.now) limit r row 0 minor.old → row.place ≡ place
        → Tells (λ _. IsPricing (form_of form.now) limit r row (slices (variables (form_of form.now))) minor.new)
        (price_tasks (form_of form.now) number r row) result }
    ensures steps { minor.new.steps.items ≡ minor.old.steps.items }
{
    for slice in 0..slice_count(form) {
        let alpha = price_one(alloc, form, number, slice, place, minor)?;
        minor.commit_price(slice, alpha);
    }
    Ok(())
}

/// The script in which a walk and its step stop, where the walk alone has this answer.
///
/// # Errors
///
/// `OutOfMemory` alone.
fn spot_behind(number: u32, ratio: &Result<Walk, Fault<Refused>>) -> Result<Spot, OutOfMemory>
    ensures { IfOk result (IsSpotBehind number ratio.now) }
{
    match ratio {
        Ok(_) => Ok(Spot::Step { minor: number }),
        Err(Fault::Named(_)) => Ok(Spot::Ratio { minor: number }),
        Err(Fault::OutOfMemory) => Err(OutOfMemory),
    }
}

/// The script in which a refused walk of the picked row stops: that of the walk, or of the step behind it.
///
/// # Errors
///
/// `OutOfMemory` alone.
fn walk_spot(alloc: Global, form: &Form, number: u32, minor: &Minor) -> Result<Spot, OutOfMemory>
    requires turn { (limit : ℕ) × (r : TheReached) × (row : InfeasibleRow)
        × IsPricing (form_of form.now) limit r row (slices (variables (form_of form.now))) minor.now }
    ensures spot { (limit : ℕ) (r : TheReached) (row : InfeasibleRow)
        → IsPricing (form_of form.now) limit r row (slices (variables (form_of form.now))) minor.now
        → IfOk result (λ spot. spot ≡ the_walk_spot (form_of form.now) number r row) }
{
    let ratio = minor.ratio(alloc, form);
    spot_behind(number, &ratio)
}

/// The ratio walk of the picked row, and the step where a variable enters.
///
/// # Errors
///
/// `Named` exactly where an operation doesn't fit: the first such, those of the walk before those of the step.
/// `OutOfMemory` where memory runs out.
pub(crate) fn walk_row(
    alloc: Global,
    form: &Form,
    number: u32,
    minor: &Minor,
) -> Result<(Walk, Option<Step>), Fault<Place>>
    requires turn { (limit : ℕ) × (r : TheReached) × (row : InfeasibleRow)
        × IsPricing (form_of form.now) limit r row (slices (variables (form_of form.now))) minor.now }
    ensures walk { (limit : ℕ) (r : TheReached) (row : InfeasibleRow)
        → IsPricing (form_of form.now) limit r row (slices (variables (form_of form.now))) minor.now
        → Tells (λ answer. FollowsWalk (form_of form.now) r.basis r.fresh row.place row.violation (Ok answer))
        (walk_tasks (form_of form.now) number r row) result }
{
    match minor.walk(alloc, form) {
        Ok(answer) => Ok(answer),
        Err(fault) => Err(fault_at(walk_spot(alloc, form, number, minor)?, fault)),
    }
}

// ---- behind its step

/// A row that remains, behind the step.
///
/// # Errors
///
/// `Named` exactly where an operation doesn't fit: the first such. `OutOfMemory` where memory runs out.
fn reach_one(
    alloc: Global,
    form: &Form,
    number: u32,
    place: u32,
    minor: &Minor,
) -> Result<Reached, Fault<Place>>
    requires turn { (limit : ℕ) × (m : TheMinor) × (next : TheReached) × (i : ℕ) × (j : ℕ)
        × IsStepping (form_of form.now) limit m next i j minor.now × IsRowOf next i place }
    ensures reach { (limit : ℕ) (m : TheMinor) (next : TheReached) (i j : ℕ)
        → IsStepping (form_of form.now) limit m next i j minor.now → IsRowOf next i place
        → Tells (IsReachedRow next place) (reach_task (form_of form.now) number m place ∷ []) result }
{
    at(
        Spot::Reach {
            minor: number,
            place,
        },
        minor.reach_row(alloc, form, place),
    )
}

/// Brings the rows that remain behind the step, in order of choice.
///
/// # Errors
///
/// `Named` exactly where an operation doesn't fit: the first such. `OutOfMemory` where memory runs out.
fn reach_rows(
    alloc: Global,
    form: &Form,
    number: u32,
    minor: &mut Minor,
) -> Result<(), Fault<Place>>
    requires turn { (limit : ℕ) × (m : TheMinor) × (next : TheReached)
        × IsStepping (form_of form.now) limit m next 0 0 minor.old }
    ensures rows { (limit : ℕ) (m : TheMinor) (next : TheReached)
        → IsStepping (form_of form.now) limit m next 0 0 minor.old
        → Tells (λ _. IsStepping (form_of form.now) limit m next (length next.rows) 0 minor.new)
        (reach_tasks (form_of form.now) number m) result }
    ensures steps { minor.new.steps.items ≡ minor.old.steps.items }
{
    for i in 0..minor.remaining().len() {
        let place = minor.remaining()[i];
        let reached = reach_one(alloc, form, number, place, minor)?;
        minor.commit_reach(reached);
    }
    Ok(())
}

/// The reduced costs of a slice, behind the step.
///
/// # Errors
///
/// `Named` exactly where an operation doesn't fit: the first such. `OutOfMemory` where memory runs out.
fn shift_one(
    alloc: Global,
    number: u32,
    slice: u32,
    minor: &Minor,
) -> Result<Vec<Entry>, Fault<Place>>
    requires turn { (f : TheForm) × (limit : ℕ) × (m : TheMinor) × (next : TheReached) × (i : ℕ)
        × IsStepping f limit m next i slice minor.now × (slice < slices (variables f)) × (variables f < 2 ^ 32) }
    ensures shift { (f : TheForm) (limit : ℕ) (m : TheMinor) (next : TheReached) (i : ℕ)
        → IsStepping f limit m next i slice minor.now
        → Tells (λ es. AreCosts f m next slice es.items) (shift_task f number m slice ∷ []) result }
{
    at(
        Spot::Shift {
            minor: number,
            slice,
        },
        minor.shift_slice(alloc, slice),
    )
}

/// Brings the reduced costs of all slices behind the step.
///
/// # Errors
///
/// `Named` exactly where an operation doesn't fit: the first such. `OutOfMemory` where memory runs out.
fn shift_slices(
    alloc: Global,
    form: &Form,
    number: u32,
    minor: &mut Minor,
) -> Result<(), Fault<Place>>
    requires turn { (limit : ℕ) × (m : TheMinor) × (next : TheReached) × (i : ℕ)
        × IsStepping (form_of form.now) limit m next i 0 minor.old }
    ensures costs { (limit : ℕ) (m : TheMinor) (next : TheReached) (i : ℕ)
        → IsStepping (form_of form.now) limit m next i 0 minor.old
        → Tells (λ _. IsStepping (form_of form.now) limit m next i (slices (variables (form_of form.now))) minor.new)
        (shift_tasks (form_of form.now) number m) result }
    ensures steps { minor.new.steps.items ≡ minor.old.steps.items }
{
    for slice in 0..slice_count(form) {
        let costs = shift_one(alloc, number, slice, minor)?;
        minor.commit_shift(slice, costs);
    }
    Ok(())
}

/// Brings all that is kept behind the step.
///
/// # Errors
///
/// `Named` exactly where an operation doesn't fit: the first such, rows before slices. `OutOfMemory` where memory runs out.
pub(crate) fn bring_behind(
    alloc: Global,
    form: &Form,
    number: u32,
    minor: &mut Minor,
) -> Result<(), Fault<Place>>
    requires turn { (limit : ℕ) × (m : TheMinor) × (next : TheReached)
        × IsStepping (form_of form.now) limit m next 0 0 minor.old }
    // It is fresh at the next basis.
    ensures behind { (limit : ℕ) (m : TheMinor) (next : TheReached)
        → IsStepping (form_of form.now) limit m next 0 0 minor.old
        → Tells (λ _. IsFreshMinor (form_of form.now) limit next minor.new)
        (reach_tasks (form_of form.now) number m ++ shift_tasks (form_of form.now) number m) result }
    ensures steps { minor.new.steps.items ≡ minor.old.steps.items }
{
    reach_rows(alloc, form, number, minor)?;
    shift_slices(alloc, form, number, minor)
}
