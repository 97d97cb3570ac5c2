//! One turn of a batch: the row that leaves, and its pivot.

ghost use Rattle.std.specs.Prelude.{◌≡◌, ◌<◌, ◌≤◌, ◌^◌, ◌+◌, ◌++◌, ◌∷◌, [], ℕ, List, length, map};
ghost use Rattle.std.specs.Prelude.{Ok, All, IfOk, slice_index_or};
ghost use Rattle.pami_theory.specs.Form.{Form as TheForm, variables};
ghost use Rattle.pami_theory.specs.Fresh.{row_at};
ghost use Rattle.pami_theory.specs.Choice.{InfeasibleRow};
ghost use Rattle.pami_theory.specs.Step.{flipped};
ghost use Rattle.pami_theory.specs.declared.words.Stand.TheVariants.{Zero};
ghost use Rattle.pami_method.specs.Batch.{Reached as TheReached};
ghost use Rattle.pami_method.specs.Work.{row_task};
ghost use Rattle.pami_bfrt.specs.Walks.{found_by};
ghost use Rattle.pami_log.specs.Events.{drops};
ghost use Rattle.pami_log.specs.declared.event.Move.TheVariants as the_moves;
ghost use Rattle.pami_form.specs.FormOf.{form_of};
ghost use Rattle.pami_minor.specs.Fresh.{IsFreshMinor, IsPricing};
ghost use Rattle.pami_minor.specs.Follow.{FollowsPick};
ghost use Rattle.pami_minor.specs.Turned.{flips_found};
ghost use Rattle.pami_batch.specs.Told.{Tells};
ghost use Rattle.pami_batch.specs.Turns.{leave_tasks, IsLeft, IsTurn};

use crate::minors_parts::{bring_behind, price_row, walk_row};
use pami_bfrt::Walk;
use pami_form::Form;
use pami_frac::{Fault, OutOfMemory};
use pami_log::{Move, Place, Spot};
use pami_minor::{Minor, RowPick, flips_of};
use pami_vec::{Side, SpVec, Stand, Step};
use std::alloc::Global;

/// What a turn comes to.
#[derive(Debug, Drop)]
pub(crate) enum Taken {
    /// The batch stops: the limit is met, or no row is left.
    Stopped,
    /// The row has no entering variable: its row of the inverse, by row.
    Stuck { rho: SpVec },
    /// It left.
    Pivoted,
}

/// The row that leaves in a minor of this number, from 1 on: its place, and the side on which its variable is outside.
#[derive(Clone, Copy, Debug, PartialEq, Eq)]
struct Pick {
    number: u32,
    place: u32,
    side: Side,
}

// ---- what is told

/// Tells the drops of these places.
///
/// # Errors
///
/// `OutOfMemory` alone.
fn note_drops(places: &[u32], moves: &mut Vec<Move>) -> Result<(), OutOfMemory>
    ensures { IfOk result (λ _. moves.new.items ≡ moves.old.items ++ drops places.now) }
{
    for place in places {
        moves.push(Move::Dropped { place: *place })?;
    }
    Ok(())
}

/// Tells that these variables, which stand so, are flipped.
///
/// # Errors
///
/// `OutOfMemory` alone.
fn note_flips(flips: &[u32], stands: &[Stand], moves: &mut Vec<Move>) -> Result<(), OutOfMemory>
    requires { All (λ v. v < length stands.now) flips.now }
    ensures { IfOk result (λ _. moves.new.items ≡ moves.old.items
        ++ map (λ v. the_moves.Flipped v (flipped (slice_index_or stands.now v Zero))) flips.now) }
{
    for v in flips {
        moves.push(Move::Flipped {
            variable: *v,
            stand: stands[*v as usize].flipped(),
        })?;
    }
    Ok(())
}

/// Tells a step before it is taken: its flips, and its pivot with the count that it makes.
///
/// # Errors
///
/// `OutOfMemory` alone.
fn note_step(
    minor: &Minor,
    walk: &Walk,
    step: &Step,
    side: Side,
    moves: &mut Vec<Move>,
) -> Result<(), OutOfMemory>
    requires flips { All (λ v. v < length minor.now.stands.items) (flips_found (found_by walk.now)) }
    requires count { minor.now.count + 1 < 2 ^ 32 }
    ensures { IfOk result (λ _. moves.new.items ≡ (moves.old.items
        ++ map (λ v. the_moves.Flipped v (flipped (slice_index_or minor.now.stands.items v Zero)))
        (flips_found (found_by walk.now)))
        ++ the_moves.Pivoted (minor.now.count + 1) step.now.place step.now.leaving side step.now.entering
        step.now.tau ∷ []) }
{
    note_flips(flips_of(walk), minor.stands(), moves)?;
    moves.push(Move::Pivoted {
        count: minor.count() + 1,
        place: step.place,
        leaving: step.leaving,
        side,
        entering: step.entering,
        tau: step.tau,
    })?;
    Ok(())
}

// ---- the turn

/// The row that leaves next, or that the batch stops; `taken` pivots are its.
///
/// # Errors
///
/// `Named` exactly where an infeasibility of a row that remains doesn't fit: the first such in order of choice.
fn pick_next(taken: u32, minor: &mut Minor) -> Result<RowPick, Fault<Place>>
    requires turn { (f : TheForm) × (limit : ℕ) × (r : TheReached)
        × IsFreshMinor f limit r minor.old × (taken ≤ r.count) }
    ensures pick { (f : TheForm) (limit : ℕ) (r : TheReached) → IsFreshMinor f limit r minor.old
        → Tells (λ pick. FollowsPick f limit r minor.new (Ok pick)) (row_task f limit (taken + 1) r ∷ []) result }
    ensures steps { minor.new.steps.items ≡ minor.old.steps.items }
{
    match minor.next_row() {
        Ok(pick) => Ok(pick),
        Err(refused) => Err(Fault::Named(Place {
            task: Spot::Row { minor: taken + 1 },
            refused,
        })),
    }
}

/// Tells that the picked row is stuck, and copies its row of the inverse.
///
/// # Errors
///
/// `OutOfMemory` alone.
fn note_stuck(
    alloc: Global,
    pick: &Pick,
    minor: &Minor,
    moves: &mut Vec<Move>,
) -> Result<SpVec, OutOfMemory>
    requires turn { (f : TheForm) × (limit : ℕ) × (r : TheReached) × (row : InfeasibleRow) × (n : ℕ)
        × IsPricing f limit r row n minor.now × (row.place ≡ pick.now.place) }
    ensures rho { (f : TheForm) (limit : ℕ) (r : TheReached) (row : InfeasibleRow) (n : ℕ)
        → IsPricing f limit r row n minor.now → row.place ≡ pick.now.place → IfOk result (λ rho. rho ≡ row_at r.fresh row.place) }
    ensures moves { IfOk result (λ _. moves.new.items ≡ moves.old.items
        ++ the_moves.Stuck pick.now.place (slice_index_or minor.now.head.items pick.now.place 0) pick.now.side ∷ []) }
{
    moves.push(Move::Stuck {
        place: pick.place,
        leaving: minor.head()[pick.place as usize],
        side: pick.side,
    })?;
    let rho = minor.rho(pick.place);
    SpVec::from_entries(alloc, rho.len(), rho.entries())
}

/// Takes the picked row through its turn: its slices, its walk, and where a variable enters its step and all behind it.
///
/// # Errors
///
/// `Named` exactly where an operation doesn't fit: the first such. `OutOfMemory` where memory runs out.
fn leave(
    alloc: Global,
    form: &Form,
    pick: &Pick,
    minor: &mut Minor,
    moves: &mut Vec<Move>,
) -> Result<Taken, Fault<Place>>
    requires turn { (limit : ℕ) × (r : TheReached) × (row : InfeasibleRow)
        × IsPricing (form_of form.now) limit r row 0 minor.old × (row.place ≡ pick.now.place) }
    ensures left { (limit : ℕ) (r : TheReached) (row : InfeasibleRow)
        → IsPricing (form_of form.now) limit r row 0 minor.old
        → row.place ≡ pick.now.place → row.violation.side ≡ pick.now.side
        → Tells (IsLeft (form_of form.now) limit r row minor.old minor.new moves.old.items moves.new.items)
        (leave_tasks (form_of form.now) pick.now.number r row) result }
{
    price_row(alloc, form, pick.number, pick.place, minor)?;
    let (walk, step) = walk_row(alloc, form, pick.number, minor)?;
    match step {
        None => Ok(Taken::Stuck {
            rho: note_stuck(alloc, pick, minor, moves)?,
        }),
        Some(step) => {
            note_step(minor, &walk, &step, pick.side, moves)?;
            minor.commit_walk(walk, Some(step));
            bring_behind(alloc, form, pick.number, minor)?;
            Ok(Taken::Pivoted)
        }
    }
}

/// Takes one turn of a batch, in which `taken` pivots were taken: it stops, or its next row leaves or is stuck. The moves are
/// told behind those that are there.
///
/// # Errors
///
/// `Named` exactly where an operation doesn't fit: the first such. `OutOfMemory` where memory runs out.
pub(crate) fn take_turn(
    alloc: Global,
    form: &Form,
    taken: u32,
    minor: &mut Minor,
    moves: &mut Vec<Move>,
) -> Result<Taken, Fault<Place>>
    requires turn { (limit : ℕ) × (r : TheReached)
        × IsFreshMinor (form_of form.now) limit r minor.old × (taken ≤ r.count) }
    ensures turn { (limit : ℕ) (r : TheReached) → IsFreshMinor (form_of form.now) limit r minor.old
        → IsTurn (form_of form.now) limit r (taken + 1) minor.old minor.new moves.old.items moves.new.items result }
{
    let pick = pick_next(taken, minor)?;
    note_drops(minor.dropped(), moves)?;
    match pick {
        RowPick::Stop => Ok(Taken::Stopped),
        RowPick::Row { place, violation } => {
            let pick = Pick {
                number: taken + 1,
                place,
                side: violation.side,
            };
            leave(alloc, form, &pick, minor, moves)
        }
    }
}
