//! The loop over the steps of an elimination, and the public call.

ghost use Rattle.std.specs.Prelude.{◌≡◌, ◌<◌, ◌^◌, ℕ, length, set, true, false, slice_index_or, [], All, IfOk};
ghost use Rattle.pami_linear.specs.Systems.{IsRegular};
ghost use Rattle.pami_frac.specs.Answers.{FollowsBy};
ghost use Rattle.pami_frac.specs.Signs.{is_zero};
ghost use Rattle.pami_factoring.specs.Factor.{flag, entry, step_at, elimination_script, matrix_of, basis_columns};
ghost use Rattle.pami_factoring.specs.Steps.{IsSquare};
ghost use Rattle.pami_lu.specs.Follow.{IfSingular, widened};
ghost use Rattle.pami_dense.specs.Rest.{IsWhole};
ghost use Rattle.pami_dense.specs.Step.{FollowsStep};

use crate::matrix::basis_rows;
use crate::reduce::reduce_rows;
use crate::rest::{Rest, all_active, first_active};
use crate::search::find_pivot;
use pami_factoring::{Kept, LuFault};
use pami_frac::{Fault, FracList, ListOf, Refused};
use pami_vec::SpVec;
use std::alloc::Global;

/// A step, and what it leaves.
#[derive(Drop)]
struct Taken {
    step: Kept,
    rest: Rest,
}

/// The step at a pivot.
fn take_step(alloc: Global, rest: Rest, row: usize, place: usize) -> Result<Taken, Fault<Refused>>
    requires whole { IsWhole rest }
    requires row_low { row < length rest.rows.items }
    requires row_in { flag rest.active.items row ≡ true }
    requires place_low { place < length rest.rows.items }
    requires nonzero { is_zero (entry rest.rows.items row place) ≡ false }
    ensures script { FollowsBy (λ t. (t.step, t.rest.rows.items))
        (step_at (set rest.active.items row false) (set rest.places.items place false) rest.rows.items row place) result }
    ensures active { IfOk result (λ t. t.rest.active.items ≡ set rest.active.items row false) }
    ensures places { IfOk result (λ t. t.rest.places.items ≡ set rest.places.items place false) }
{
    let Rest {
        mut active,
        mut places,
        rows,
    } = rest;
    active[row] = false;
    places[place] = false;
    let kept = rows[row].as_slice().to_vec(alloc)?;
    let reduced = reduce_rows(alloc, &active, &places, place, &rows, &kept)?;
    Ok(Taken {
        step: Kept {
            row,
            place,
            kept: FracList::from_vec(kept),
            multipliers: reduced.multipliers,
        },
        rest: Rest {
            active,
            places,
            rows: reduced.rows,
        },
    })
}

/// The fault of an elimination for the fault of one of its steps.
fn widen(fault: Fault<Refused>) -> Fault<LuFault>
    ensures { result ≡ widened fault }
{
    match fault {
        Fault::Named(refused) => Fault::Named(LuFault::Refused(refused)),
        Fault::OutOfMemory => Fault::OutOfMemory,
    }
}

/// The next step, or the fault where there is none.
fn next_step(alloc: Global, rest: Rest) -> Result<Taken, Fault<LuFault>>
    requires few { length rest.rows.items < 2 ^ 32 }
    requires whole { IsWhole rest }
    ensures script { FollowsStep rest result }
    ensures whole { IfOk result (λ t. IsWhole t.rest) }
    ensures count { IfOk result (λ t. length t.rest.rows.items ≡ length rest.rows.items) }
{
    match find_pivot(&rest) {
        Some(pivot) => match take_step(alloc, rest, pivot.row, pivot.place) {
            Ok(taken) => Ok(taken),
            Err(fault) => Err(widen(fault)),
        },
        None => Err(Fault::Named(LuFault::Singular {
            place: first_active(&rest.places) as u32,
        })),
    }
}

/// The elimination of a square matrix, given by its rows.
fn eliminate_rows(alloc: Global, rows: Vec<FracList>) -> Result<ListOf<Kept>, Fault<LuFault>>
    requires few { length rows.items < 2 ^ 32 }
    requires square { IsSquare rows.items }
    ensures { FollowsBy (λ ks. ks) (elimination_script rows.items) result }
{
    let m = rows.len();
    let active = all_active(alloc, m)?;
    let places = all_active(alloc, m)?;
    let mut rest = Rest {
        active,
        places,
        rows,
    };
    let mut steps = Vec::new(alloc);
    for k in 0..m {
        let taken = next_step(alloc, rest)?;
        steps.push(taken.step)?;
        rest = taken.rest;
    }
    Ok(ListOf::from_vec(steps))
}

/// Eliminates the basis whose column at each place is the one that the head names there, as `pami_lu::eliminate` does, with
/// whole rows.
///
/// # Errors
///
/// `Refused` exactly where an operation of the script doesn't fit: the first such. `Singular` exactly where none is
/// refused and the columns aren't regular, with the least place that is left without a pivot. `OutOfMemory` where memory
/// runs out.
pub fn eliminate_dense(
    alloc: Global,
    columns: &[SpVec],
    head: &[u32],
) -> Result<ListOf<Kept>, Fault<LuFault>>
    requires few { length head.now < 2 ^ 32 }
    requires heights { (j : ℕ) → j < length columns.now → length (slice_index_or columns.now j []) ≡ length head.now }
    requires known { All (λ j. j < length columns.now) head.now }
    ensures script { FollowsBy (λ ks. ks) (elimination_script (matrix_of columns.now head.now)) result }
    ensures count { IfOk result (λ ks. length ks ≡ length head.now) }
    ensures regular { IfOk result (λ _. IsRegular (length head.now) (basis_columns columns.now head.now)) }
    ensures singular { IfSingular result (¬ (IsRegular (length head.now) (basis_columns columns.now head.now))) }
{
    let rows = basis_rows(alloc, columns, head)?;
    eliminate_rows(alloc, rows)
}
