//! Picking the row that leaves next, by what is read of the rows that remain.

ghost use Rattle.std.specs.Prelude.{◌≡◌, ℕ, All};
ghost use Rattle.pami_frac.specs.Answers.{FollowsBy};
ghost use Rattle.pami_theory.specs.Form.{Form};
ghost use Rattle.pami_method.specs.Batch.{Reached};
ghost use Rattle.pami_devex.specs.Weights.{IsWeight};
ghost use Rattle.pami_minor.specs.declared.row.Remaining.{Remaining as TheRemaining};
ghost use Rattle.pami_minor.specs.Rows.{find_by, found, pick_by, picked, pick_of as the_pick_of};
ghost use Rattle.pami_minor.specs.Follow.{IsBeforePick, FollowsTurn};

use crate::row::{Remaining, RowNow, RowPick, better, look};
use pami_frac::{Fault, Refused};
use std::alloc::Global;

/// The places of the rows that don't stay, in order, and the first of the others, in the order of choice as they are now.
///
/// # Errors
///
/// `Named` exactly where an infeasibility doesn't fit: the first such in order. `OutOfMemory` where memory runs out.
fn look_through(
    alloc: Global,
    rows: &[Remaining],
) -> Result<(Vec<u32>, Option<RowNow>), Fault<Refused>>
    requires weights { All (λ (row : TheRemaining). IsWeight row.weight) rows.now }
    ensures { FollowsBy found (find_by rows.now) result }
{
    let mut dropped = Vec::new(alloc);
    let mut best = None;
    for row in rows {
        let now = look(row)?;
        if row.stays(&now) {
            best = better(best, now);
        } else {
            dropped.push(row.place)?;
        }
    }
    Ok((dropped, best))
}

/// What the batch goes on with, by the best of the rows that stay.
fn pick_of(best: Option<RowNow>) -> RowPick
    ensures { result ≡ the_pick_of best }
{
    match best {
        None => RowPick::Stop,
        Some(row) => RowPick::Row {
            place: row.place,
            violation: row.violation,
        },
    }
}

/// `pick_row`, by its script alone, so that its parts are proved without the other clause.
fn pick_through(
    alloc: Global,
    rows: &[Remaining],
    at_limit: bool,
) -> Result<(Vec<u32>, RowPick), Fault<Refused>>
    requires weights { All (λ (row : TheRemaining). IsWeight row.weight) rows.now }
    ensures { FollowsBy picked (pick_by rows.now at_limit) result }
{
    if at_limit {
        return Ok((Vec::new(alloc), RowPick::Stop));
    }
    let (dropped, best) = look_through(alloc, rows)?;
    Ok((dropped, pick_of(best)))
}

/// The places of the rows that are dropped, in order of choice, and the row that leaves next, or that the batch stops: at
/// the limit, where no row is looked at, or where none stays. The rows that remain are handed in in order of choice. A row
/// stays where it is infeasible, with a merit now that is at least that of its choice less 2. (Huangfu and Hall 2018,
/// section 3.)
///
/// # Errors
///
/// `Named` exactly where an infeasibility doesn't fit: the first such in order of choice. `OutOfMemory` where memory runs
/// out.
pub fn pick_row(
    alloc: Global,
    rows: &[Remaining],
    at_limit: bool,
) -> Result<(Vec<u32>, RowPick), Fault<Refused>>
    requires weights { All (λ (row : TheRemaining). IsWeight row.weight) rows.now }
    ensures script { FollowsBy picked (pick_by rows.now at_limit) result }
    // Over the rows of what a batch has reached it is the definition's turn, with the operations of the method.
    ensures fresh { (f : Form) (limit : ℕ) (r : Reached) → IsBeforePick f limit r rows.now at_limit
        → FollowsTurn f limit r result }
{
    pick_through(alloc, rows, at_limit)
}
