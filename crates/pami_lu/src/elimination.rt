//! The loop over the steps of an elimination.

ghost use Rattle.std.specs.Prelude.{◌≡◌, ◌<◌, ◌≤◌, ◌^◌, ℕ, Bool, List, length, true, false, [], IfOk};
ghost use Rattle.pami_frac.specs.Signs.{is_zero};
ghost use Rattle.pami_frac.specs.Answers.{FollowsBy};
ghost use Rattle.pami_factoring.specs.Factor.{entry, row_at, elimination_script};
ghost use Rattle.pami_factoring.specs.Steps.{IsSquare};
ghost use Rattle.pami_lu.specs.Clear.{clear_step};
ghost use Rattle.pami_lu.specs.Cleaned.{IsCleaned, IsStepOf};
ghost use Rattle.pami_lu.specs.Follow.{FollowsPivot, widened};
ghost use Rattle.pami_lu.specs.Members.{AreAll, AreOthers, stands_at};
ghost use Rattle.pami_lu.specs.Plain.{set_of};

use crate::flags::{all_active, first_active};
use crate::lu::Lu;
use crate::reduce::{leave, reduce_rows};
use crate::row_set::RowSet;
use crate::search::{Found, find_pivot};
use crate::step::SparseStep;
use crate::vectors::empty;
use pami_factoring::LuFault;
use pami_frac::{Fault, Refused};
use pami_vec::SpVec;
use std::alloc::Global;
use std::mem;

/// The step at a pivot; it leaves the rows and the sets as they are after it.
fn take_step(
    alloc: Global,
    rows: &mut Vec<SpVec>,
    members: &mut Vec<RowSet>,
    row: usize,
    place: usize,
) -> Result<SparseStep, Fault<Refused>>
    requires few { length rows.old.items < 2 ^ 32 }
    requires square { length (row_at rows.old.items row) ≡ length rows.old.items }
    requires sets { length members.old.items ≡ length rows.old.items }
    requires row_low { row < length rows.old.items }
    requires place_low { place < length rows.old.items }
    requires all { AreAll rows.old.items members.old.items }
    requires long { (h : ℕ) → stands_at rows.old.items h place ≡ true → length (row_at rows.old.items h) ≡ length rows.old.items }
    requires nonzero { is_zero (entry rows.old.items row place) ≡ false }
    ensures script { (ts cs : List Bool) → IsStepOf ts cs rows.old.items row place
        → FollowsBy (λ step. (step, rows.new.items)) (clear_step ts cs rows.old.items row place) result }
    ensures others { IfOk result (λ _. AreOthers place rows.new.items members.new.items × (set_of members.new.items place ≡ [])) }
    ensures sets { IfOk result (λ _. length members.new.items ≡ length members.old.items) }
{
    let nothing = empty(alloc)?;
    let kept = mem::replace(&mut rows[row], nothing);
    leave(members, row as u32, kept.entries());
    let below = mem::replace(&mut members[place], RowSet::empty(alloc));
    let multipliers = reduce_rows(alloc, place as u32, &kept, below.as_slice(), rows, members)?;
    members[place] = RowSet::empty(alloc);
    Ok(SparseStep {
        row,
        place,
        kept,
        multipliers,
    })
}

/// The fault of an elimination for the fault of one of its steps.
fn widen(fault: Fault<Refused>) -> Fault<LuFault>
    ensures { result ≡ widened fault }
{
    match fault {
        Fault::Named(refused) => Fault::Named(LuFault::Refused(refused)),
        Fault::OutOfMemory => Fault::OutOfMemory,
    }
}

/// The pivot of the next step, or the fault where there is none.
fn next_pivot(places: &[bool], rows: &[SpVec], members: &[RowSet]) -> Result<Found, Fault<LuFault>>
    requires few { length rows.now < 2 ^ 32 }
    requires square { length places.now ≡ length rows.now }
    requires sets { length members.now ≡ length rows.now }
    requires all { AreAll rows.now members.now }
    requires long { (h : ℕ) → length (row_at rows.now h) ≤ length rows.now }
    ensures { (ts : List Bool) → length ts ≡ length rows.now → IsCleaned ts places.now rows.now → FollowsPivot ts places.now rows.now result }
{
    match find_pivot(rows, members) {
        Some(pivot) => Ok(pivot),
        None => Err(Fault::Named(LuFault::Singular {
            place: first_active(places) as u32,
        })),
    }
}

/// The elimination of a square matrix, given by its rows and, for each place, the rows with a nonzero there.
pub(crate) fn eliminate_rows(
    alloc: Global,
    matrix: Vec<SpVec>,
    places_of: Vec<RowSet>,
) -> Result<Lu, Fault<LuFault>>
    requires few { length matrix.items < 2 ^ 32 }
    requires square { IsSquare matrix.items }
    requires sets { length places_of.items ≡ length matrix.items }
    requires all { AreAll matrix.items places_of.items }
    ensures { FollowsBy (λ ks. ks) (elimination_script matrix.items) result }
{
    let m = matrix.len();
    let mut places = all_active(alloc, m)?;
    let mut rows = matrix;
    let mut members = places_of;
    let mut steps = Vec::new(alloc);
    for k in 0..m {
        let pivot = next_pivot(&places, &rows, &members)?;
        places[pivot.place] = false;
        let step = take_step(alloc, &mut rows, &mut members, pivot.row, pivot.place).map_err(
            widen,
        )?;
        steps.push(step)?;
    }
    Ok(Lu::of(steps))
}
