//! One step of an elimination at a pivot.

ghost use Rattle.std.specs.Prelude.{◌≡◌, ◌<◌, ◌≤◌, ◌^◌, ℕ, length, true, false, [], List, All, set, replicate, pos, cond, drop, IfOk};
ghost use Rattle.pami_algebra.specs.Operations.{of_int};
ghost use Rattle.pami_frac.specs.Signs.{is_zero};
ghost use Rattle.pami_linear.specs.Lists.{get};
ghost use Rattle.pami_script.specs.Dense.{Rising};
ghost use Rattle.pami_frac.specs.Answers.{FollowsBy};
ghost use Rattle.pami_factoring.specs.Factor.{row_at};
ghost use Rattle.pami_lu.specs.Ahead.{from_place, is_first};
ghost use Rattle.pami_lu.specs.Members.{Ascends, AreOthers, with_row, without_row};
ghost use Rattle.pami_lu.specs.Plain.{plain_row, plain_rows, change_all, left_by, noted};

use crate::row_set::RowSet;
use crate::vectors::without;
use pami_frac::{Entry, Fault, Frac, OutOfMemory, Refused};
use pami_vec::SpVec;
use std::alloc::Global;

/// A row after a step, and its multiplier.
#[derive(Drop)]
struct ReducedRow {
    row: SpVec,
    multiplier: Frac,
}

/// One active row of a step with this pivot at this place; `rest` is the pivot's row with 0 at the place.
fn reduce_row(
    alloc: Global,
    place: u32,
    pivot: Frac,
    rest: &SpVec,
    row: &SpVec,
) -> Result<ReducedRow, Fault<Refused>>
    requires same { length row.now ≡ length rest.now }
    requires low { place < length row.now }
    requires nonzero { is_zero pivot ≡ false }
    ensures { FollowsBy (λ r. (r.row, r.multiplier)) (plain_row place pivot rest.now row.now) result }
{
    let multiplier = row.at(place).div(pivot)?;
    let others = without(alloc, row, place)?;
    let row = others.take_times(alloc, multiplier, rest)?;
    Ok(ReducedRow { row, multiplier })
}

/// Takes a row that leaves the active part out of the sets of its places.
pub(crate) fn leave(members: &mut Vec<RowSet>, row: u32, entries: &[Entry])
    requires { All (λ e. e.place < length members.old.items) entries.now }
    ensures { members.new.items ≡ change_all entries.now (left_by row) members.old.items }
{
    for entry in entries {
        members[entry.place as usize].remove(row);
    }
}

/// Takes a row that is gone out of a set, and puts another one in.
fn note_one(set: &mut RowSet, row: u32, gone: bool) -> Result<(), OutOfMemory>
    ensures { IfOk result (λ _. set.new ≡ cond gone (without_row row set.old) (with_row row set.old)) }
{
    if gone {
        set.remove(row);
        Ok(())
    } else {
        set.insert(row)
    }
}

/// The index of the first entry from `from` on that isn't below a place.
fn index_from(entries: &[Entry], from: usize, place: u32) -> usize
    ensures { drop result entries.now ≡ from_place place (drop from entries.now) }
{
    let mut k = from;
    while k < entries.len() && entries[k].place < place {
        k += 1;
    }
    k
}

/// Does an entry at this place stand at this index?
fn is_at(entries: &[Entry], k: usize, place: u32) -> bool
    ensures { result ≡ is_first place (drop k entries.now) }
{
    k < entries.len() && entries[k].place == place
}

/// Brings the sets up to date with a row that has changed at the places of these entries alone. The row's own entries are
/// gone along with them.
fn note(
    members: &mut Vec<RowSet>,
    row: u32,
    changed: &[Entry],
    now: &SpVec,
) -> Result<(), OutOfMemory>
    requires known { All (λ e. e.place < length members.old.items) changed.now }
    requires rising { Rising 0 (length now.now) changed.now }
    ensures { IfOk result (λ _. members.new.items ≡ change_all changed.now (noted row now.now) members.old.items) }
{
    let left = now.entries();
    let mut k = 0;
    for entry in changed {
        k = index_from(left, k, entry.place);
        let gone = !is_at(left, k, entry.place);
        note_one(&mut members[entry.place as usize], row, gone)?;
    }
    Ok(())
}

/// The rows below a pivot in turn. Those of `below`, rising, are the rows that have an entry at its place. It answers the
/// multipliers, by row.
pub(crate) fn reduce_rows(
    alloc: Global,
    place: u32,
    kept: &SpVec,
    below: &[u32],
    rows: &mut Vec<SpVec>,
    members: &mut Vec<RowSet>,
) -> Result<SpVec, Fault<Refused>>
    requires few { length rows.old.items < 2 ^ 32 }
    requires square { length rows.old.items ≡ length kept.now }
    requires sets { length members.old.items ≡ length kept.now }
    requires ascends { Ascends 0 (length kept.now) below.now }
    requires same { All (λ h. length (row_at rows.old.items h) ≡ length kept.now) below.now }
    requires low { place < length kept.now }
    requires nonzero { is_zero (get kept.now place) ≡ false }
    requires others { AreOthers place rows.old.items members.old.items }
    ensures script { let rest = set kept.now place (of_int (pos 0)) in
        let none = replicate (length kept.now) (of_int (pos 0)) in
        FollowsBy (λ ls. (rows.new.items, ls)) (plain_rows below.now place (get kept.now place) rest rows.old.items none) result }
    ensures others { IfOk result (λ _. AreOthers place rows.new.items members.new.items) }
    ensures sets { IfOk result (λ _. length members.new.items ≡ length members.old.items) }
{
    let pivot = kept.at(place);
    let rest = without(alloc, kept, place)?;
    let mut multipliers = Vec::new(alloc);
    for h in below {
        let next = reduce_row(alloc, place, pivot, &rest, &rows[*h as usize])?;
        note(members, *h, rest.entries(), &next.row)?;
        rows[*h as usize] = next.row;
        multipliers.push(Entry {
            place: *h,
            value: next.multiplier,
        })?;
    }
    Ok(SpVec::from_entries(alloc, kept.len(), &multipliers)?)
}
