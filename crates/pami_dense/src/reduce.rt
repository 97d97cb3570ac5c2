//! One step of an elimination at a pivot.

ghost use Rattle.std.specs.Prelude.{◌≡◌, ◌<◌, ℕ, length, true, false};
ghost use Rattle.pami_frac.specs.Answers.{FollowsBy};
ghost use Rattle.pami_frac.specs.Signs.{is_zero};
ghost use Rattle.pami_linear.specs.Lists.{get};
ghost use Rattle.pami_factoring.specs.Factor.{flag, row_at, sub_row, reduce_row, reduce_rows};

use pami_factoring::subtract_if;
use pami_frac::{Fault, Frac, FracList, Refused};
use std::alloc::Global;

/// x - l y at each active place, ascending; `xs` and `ys` go by place.
fn reduce_entries(
    alloc: Global,
    places: &[bool],
    xs: &[Frac],
    l: Frac,
    ys: &[Frac],
) -> Result<FracList, Fault<Refused>>
    requires same { length places.now ≡ length xs.now }
    requires other { length ys.now ≡ length xs.now }
    ensures { FollowsBy (λ v. v) (sub_row places.now xs.now l ys.now) result }
{
    let mut out = Vec::new(alloc);
    for g in 0..xs.len() {
        out.push(subtract_if(places[g], xs[g], l, ys[g])?)?;
    }
    Ok(FracList::from_vec(out))
}

/// A row after a step, and its multiplier.
#[derive(Drop)]
pub(crate) struct ReducedRow {
    row: FracList,
    multiplier: Frac,
}

/// One row of a step with a pivot at this place. A row that isn't active is emptied.
fn reduce_row(
    alloc: Global,
    active: bool,
    places: &[bool],
    place: usize,
    row: &[Frac],
    kept: &[Frac],
) -> Result<ReducedRow, Fault<Refused>>
    requires same { active ≡ true → length row.now ≡ length places.now }
    requires other { length kept.now ≡ length places.now }
    requires low { place < length places.now }
    requires nonzero { is_zero (get kept.now place) ≡ false }
    ensures { FollowsBy (λ r. (r.row, r.multiplier)) (reduce_row active places.now place row.now kept.now) result }
{
    if !active {
        return Ok(ReducedRow {
            row: FracList::from_vec(Vec::new(alloc)),
            multiplier: Frac::zero(),
        });
    }
    let multiplier = row[place].div(kept[place])?;
    let row = reduce_entries(alloc, places, row, multiplier, kept)?;
    Ok(ReducedRow { row, multiplier })
}

/// The rows after a step, and their multipliers.
#[derive(Drop)]
pub(crate) struct ReducedRows {
    pub(crate) rows: Vec<FracList>,
    pub(crate) multipliers: FracList,
}

/// Each row of a step in turn; the flags are those after it, and `kept` is the pivot's row, by place.
pub(crate) fn reduce_rows(
    alloc: Global,
    active: &[bool],
    places: &[bool],
    place: usize,
    rows: &[FracList],
    kept: &[Frac],
) -> Result<ReducedRows, Fault<Refused>>
    requires same { (h : ℕ) → h < length rows.now → flag active.now h ≡ true → length (row_at rows.now h) ≡ length places.now }
    requires all { length active.now ≡ length rows.now }
    requires other { length kept.now ≡ length places.now }
    requires low { place < length places.now }
    requires nonzero { is_zero (get kept.now place) ≡ false }
    ensures { FollowsBy (λ r. (r.rows.items, r.multipliers)) (reduce_rows active.now places.now place rows.now kept.now) result }
{
    let mut out = Vec::new(alloc);
    let mut multipliers = Vec::new(alloc);
    for h in 0..rows.len() {
        let next = reduce_row(alloc, active[h], places, place, rows[h].as_slice(), kept)?;
        out.push(next.row)?;
        multipliers.push(next.multiplier)?;
    }
    Ok(ReducedRows {
        rows: out,
        multipliers: FracList::from_vec(multipliers),
    })
}
