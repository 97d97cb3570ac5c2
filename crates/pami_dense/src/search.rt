//! The search for the pivot of the next step: of the active entries that aren't 0 the one of least cost, which is the
//! product of the others in its row and at its place (Markowitz 1957), then the one at the smaller place, then the one in the
//! smaller row.

ghost use Rattle.std.specs.Prelude.{◌≡◌, ◌<◌, ◌≤◌, ◌^◌, ◌-◌, ◌*◌, ℕ, length, not, true, Option};
ghost use Rattle.pami_algebra.specs.Operations.{is_zero};
ghost use Rattle.pami_linear.specs.Pivoting.{better, in_column, Pivot};
ghost use Rattle.pami_factoring.specs.Factor.{flag};
ghost use Rattle.pami_dense.specs.Rest.{IsWhole};
ghost use Rattle.pami_dense.specs.Search.{allowed, count_across, count_down, cost_at, pivot_in, pivot_of, Cached};

use crate::rest::Rest;
use pami_frac::Frac;

/// A pair that may be the pivot, and its cost.
#[derive(Clone, Copy)]
pub(crate) struct Found {
    pub(crate) row: usize,
    pub(crate) place: usize,
    cost: usize,
}

/// Isn't it 0?
fn is_nonzero(x: &Frac) -> bool
    ensures { result ≡ not (is_zero x.now) }
{
    !x.is_zero()
}

/// May this pair be a pivot?
fn is_allowed(rest: &Rest, row: usize, place: usize) -> bool
    requires whole { IsWhole rest.now }
    requires row_low { row < length rest.now.rows.items }
    requires place_low { place < length rest.now.rows.items }
    ensures value { result ≡ allowed rest.now row place }
    ensures row_in { result ≡ true → flag rest.now.active.items row ≡ true }
{
    rest.active[row] && rest.places[place] && is_nonzero(&rest.rows[row].as_slice()[place])
}

/// The entries of an active row at active places that aren't 0.
fn count_in_row(rest: &Rest, row: usize) -> usize
    requires whole { IsWhole rest.now }
    requires row_low { row < length rest.now.rows.items }
    requires row_in { flag rest.now.active.items row ≡ true }
    ensures value { result ≡ count_across rest.now row }
    ensures most { result ≤ length rest.now.rows.items }
{
    let mut n = 0;
    for place in 0..rest.rows.len() {
        if rest.places[place] && is_nonzero(&rest.rows[row].as_slice()[place]) {
            n += 1;
        }
    }
    n
}

/// The entries at a place in active rows that aren't 0.
fn count_at_place(rest: &Rest, place: usize) -> usize
    requires whole { IsWhole rest.now }
    requires place_low { place < length rest.now.rows.items }
    ensures value { result ≡ count_down rest.now place }
    ensures most { result ≤ length rest.now.rows.items }
{
    let mut n = 0;
    for row in 0..rest.rows.len() {
        if rest.active[row] && is_nonzero(&rest.rows[row].as_slice()[place]) {
            n += 1;
        }
    }
    n
}

/// The product of the others in the row of a pair and the others at its place.
fn cost_of(rest: &Rest, row: usize, place: usize) -> usize
    requires few { length rest.now.rows.items < 2 ^ 32 }
    requires whole { IsWhole rest.now }
    requires row_low { row < length rest.now.rows.items }
    requires place_low { place < length rest.now.rows.items }
    requires row_in { flag rest.now.active.items row ≡ true }
    ensures { result ≡ cost_at rest.now row place }
{
    count_in_row(rest, row).saturating_sub(1) * count_at_place(rest, place).saturating_sub(1)
}

/// The first of two, by cost.
fn first_of_two(best: Option<Found>, next: Found) -> Option<Found>
    ensures { (f : ℕ → ℕ → ℕ) (o : Option Pivot) → f next.row next.place ≡ next.cost → Cached f best o
        → Cached f result (better true f o next.row next.place) }
{
    match best {
        Some(found) if next.cost >= found.cost => Some(found),
        _ => Some(next),
    }
}

/// The best pair, after those at one more place.
fn best_at_place(best: Option<Found>, rest: &Rest, place: usize) -> Option<Found>
    requires few { length rest.now.rows.items < 2 ^ 32 }
    requires whole { IsWhole rest.now }
    requires place_low { place < length rest.now.rows.items }
    ensures { (o : Option Pivot) → Cached (cost_at rest.now) best o
        → Cached (cost_at rest.now) result (in_column (allowed rest.now) (cost_at rest.now) (length rest.now.rows.items) place o) }
{
    let mut best = best;
    for row in 0..rest.rows.len() {
        if is_allowed(rest, row, place) {
            let cost = cost_of(rest, row, place);
            best = first_of_two(best, Found { row, place, cost });
        }
    }
    best
}

/// The pivot of the next step.
#[tactic(auto, unfolding(pami_linear::specs::Pivoting::pivot))]
pub(crate) fn find_pivot(rest: &Rest) -> Option<Found>
    requires few { length rest.now.rows.items < 2 ^ 32 }
    requires whole { IsWhole rest.now }
    ensures { pivot_of result ≡ pivot_in rest.now }
{
    let mut best = None;
    for place in 0..rest.rows.len() {
        best = best_at_place(best, rest, place);
    }
    best
}
