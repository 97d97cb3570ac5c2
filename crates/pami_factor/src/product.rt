//! The product form backward: a right side goes back through the pivots since the elimination, the last one first.

ghost use Rattle.std.specs.Prelude.{◌≡◌, ◌<◌, length, Ok, cond, nat_eq};
ghost use Rattle.pami_linear.specs.Lists.{get};
ghost use Rattle.pami_frac.specs.Answers.{BecomesBy};
ghost use Rattle.pami_script.specs.Script.{sub_product as the_sub_product};
ghost use Rattle.pami_factoring.specs.Solve.{sub_all, all_but, backward_transform_one, backward_transform_script};
ghost use Rattle.pami_vec.specs.Pivots.{column_pivot, column_pivots, IsPivot, ArePivots};

use pami_frac::{Entry, Frac, Refused};
use pami_script::plain::sub_product;
use pami_vec::Pivot;

/// `rest`, less the product of the right side's member and the entry at one place, but for the pivot's own.
fn take_other(rest: Frac, right: &[Frac], entry: Entry, own: u32) -> Result<Frac, Refused>
    requires { entry.place < length right.now }
    ensures { result ≡ cond (nat_eq entry.place own) (Ok rest) (the_sub_product rest (get right.now entry.place) entry.value) }
{
    if entry.place == own {
        return Ok(rest);
    }
    sub_product(rest, right[entry.place as usize], entry.value)
}

/// The right side's member at the pivot's place, less all others times their members of the column, places ascending.
fn others_taken(right: &[Frac], pivot: &Pivot) -> Result<Frac, Refused>
    requires { IsPivot (length right.now) pivot.now }
    ensures { let p = pivot.now.place in
        result ≡ sub_all (all_but (length right.now) p) right.now pivot.now.column (get right.now p) }
{
    let mut rest = right[pivot.place as usize];
    for entry in pivot.column.entries() {
        rest = take_other(rest, right, *entry, pivot.place)?;
    }
    Ok(rest)
}

/// Takes a right side, by place, back through one pivot: only the member at its place changes.
fn go_back(right: &mut [Frac], pivot: &Pivot) -> Result<(), Refused>
    requires { IsPivot (length right.old) pivot.now }
    ensures script { BecomesBy (backward_transform_one (column_pivot pivot.now) right.old) right.new result }
    ensures as_many { length right.new ≡ length right.old }
{
    let rest = others_taken(right, pivot)?;
    let value = rest.div(pivot.column.at(pivot.place))?;
    right[pivot.place as usize] = value;
    Ok(())
}

/// Takes a right side, by place, back through all pivots, the last one first.
pub(crate) fn go_back_all(right: &mut [Frac], pivots: &[Pivot]) -> Result<(), Refused>
    requires { ArePivots (length right.old) pivots.now }
    ensures script { BecomesBy (backward_transform_script (column_pivots pivots.now) right.old) right.new result }
    ensures as_many { length right.new ≡ length right.old }
{
    let mut k = pivots.len();
    while k > 0 {
        k -= 1;
        go_back(right, &pivots[k])?;
    }
    Ok(())
}
