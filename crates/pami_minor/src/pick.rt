//! Picking the row that leaves next, among the rows that remain.

ghost use Rattle.std.specs.Prelude.{◌≡◌, ◌<◌, ◌≤◌, ℕ, List, Some, length, map, All, vec_len, vec_capacity, IsErr};
ghost use Rattle.pami_frac.specs.Answers.{BecomesBy};
ghost use Rattle.pami_minor.specs.declared.kept.Kept.{Kept as TheKept};
ghost use Rattle.pami_minor.specs.Rows.{looks_by, dropped_by, best_by};
ghost use Rattle.pami_minor.specs.declared.row.RowNow.{RowNow as TheRowNow};
ghost use Rattle.pami_minor.specs.Picks.{remaining_of, staying_by, HasRowAt, TakesRow, TakesBest};
ghost use Rattle.pami_minor.specs.Fresh.{AreFreshRows, AreApart};
ghost use Rattle.pami_minor.specs.Follow.{FollowsAmong};
ghost use Rattle.pami_theory.specs.Form.{Form};
ghost use Rattle.pami_theory.specs.Choice.{InfeasibleRow};
ghost use Rattle.pami_method.specs.Batch.{Reached};

use crate::kept::{Kept, Picked};
use crate::row::{RowNow, better, look};
use pami_frac::Refused;

/// How each row is now, in order, noted in a list that has the room.
///
/// # Errors
///
/// `Refused` exactly where an infeasibility doesn't fit: the first such in order.
pub(crate) fn look_at(rows: &[Kept], nows: &mut Vec<Option<RowNow>>) -> Result<(), Refused>
    requires room { length rows.now ≤ vec_capacity nows.old }
    requires weights { All (λ (k : TheKept). 0 < k.at.weight) rows.now }
    ensures looks { BecomesBy (looks_by (map remaining_of rows.now)) nows.new.items result }
    ensures room { vec_capacity nows.new ≡ vec_capacity nows.old }
{
    nows.clear();
    for row in rows {
        nows.push_reserved(look(&row.remaining())?);
    }
    Ok(())
}

/// Notes the places of the rows that don't stay, in order, in a list that has the room.
pub(crate) fn note_dropped(rows: &[Kept], nows: &[Option<RowNow>], dropped: &mut Vec<u32>)
    requires room { length rows.now ≤ vec_capacity dropped.old }
    requires same { length nows.now ≡ length rows.now }
    ensures places { dropped.new.items ≡ dropped_by (map remaining_of rows.now) nows.now }
    ensures room { vec_capacity dropped.new ≡ vec_capacity dropped.old }
{
    dropped.clear();
    for (i, row) in rows.iter().enumerate() {
        if !row.stays(&nows[i]) {
            dropped.push_reserved(row.at.place);
        }
    }
}

/// The first of the rows that stay, in the order of choice as they are now.
pub(crate) fn best_row(rows: &[Kept], nows: &[Option<RowNow>]) -> Option<RowNow>
    requires same { length nows.now ≡ length rows.now }
    ensures { result ≡ best_by (map remaining_of rows.now) nows.now }
{
    let mut best = None;
    let mut i = rows.len();
    while 0 < i {
        i -= 1;
        if rows[i].stays(&nows[i]) {
            best = better(nows[i], best);
        }
    }
    best
}

/// Drops the rows that don't stay; the others keep their order.
pub(crate) fn drop_rows(rows: &mut Vec<Kept>, nows: &[Option<RowNow>])
    requires same { length nows.now ≡ vec_len rows.old }
    ensures { rows.new.items ≡ staying_by rows.old.items nows.now }
{
    let mut i = nows.len();
    while 0 < i {
        i -= 1;
        if !rows[i].stays(&nows[i]) {
            rows.remove(i);
        }
    }
}

/// Takes out the row of a place.
fn take_row(rows: &mut Vec<Kept>, place: u32) -> Kept
    requires { HasRowAt place rows.old.items }
    ensures { TakesRow place rows.old.items rows.new.items result }
{
    let mut i = 0;
    while rows[i].at.place != place {
        i += 1;
    }
    rows.remove(i)
}

/// Takes out the row that is picked, if there is one.
fn take_best(rows: &mut Vec<Kept>, best: Option<RowNow>) -> Option<Picked>
    requires { (row : TheRowNow) → best ≡ Some row → HasRowAt row.place rows.old.items }
    ensures { TakesBest best rows.old.items rows.new.items result }
{
    match best {
        None => None,
        Some(row) => {
            let kept = take_row(rows, row.place);
            Some(Picked {
                violation: row.violation,
                at: kept.at,
            })
        }
    }
}

/// Drops the rows that don't stay, and takes out the first of the others, in the order of choice as they are now.
///
/// # Errors
///
/// `Refused` exactly where an infeasibility doesn't fit: the first such in order. The rows and the noted places are as before then.
pub(crate) fn pick_among(
    rows: &mut Vec<Kept>,
    nows: &mut Vec<Option<RowNow>>,
    dropped: &mut Vec<u32>,
) -> Result<Option<Picked>, Refused>
    requires fresh { (f : Form) × (r : Reached) × (xs : List InfeasibleRow) × AreFreshRows f r rows.old.items xs }
    requires weights { All (λ (k : TheKept). 0 < k.at.weight) rows.old.items }
    requires nows_room { vec_len rows.old ≤ vec_capacity nows.old }
    requires dropped_room { vec_len rows.old ≤ vec_capacity dropped.old }
    ensures pick { (f : Form) (r : Reached) (xs : List InfeasibleRow) → AreFreshRows f r rows.old.items xs → AreApart xs
        → FollowsAmong f r xs rows.new.items dropped.new.items result }
    ensures kept { IsErr result → (rows.new ≡ rows.old) × (dropped.new ≡ dropped.old) }
    ensures nows_room { vec_capacity nows.new ≡ vec_capacity nows.old }
    ensures dropped_room { vec_capacity dropped.new ≡ vec_capacity dropped.old }
{
    look_at(rows.as_slice(), nows)?;
    note_dropped(rows.as_slice(), nows.as_slice(), dropped);
    let best = best_row(rows.as_slice(), nows.as_slice());
    drop_rows(rows, nows.as_slice());
    Ok(take_best(rows, best))
}

/// Notes the places of the rows, in order, in a list that has the room.
pub(crate) fn note_places(rows: &[Kept], places: &mut Vec<u32>)
    requires room { length rows.now ≤ vec_capacity places.old }
    ensures places { places.new.items ≡ map (λ (k : TheKept). k.at.place) rows.now }
    ensures room { vec_capacity places.new ≡ vec_capacity places.old }
{
    places.clear();
    for row in rows {
        places.push_reserved(row.at.place);
    }
}
