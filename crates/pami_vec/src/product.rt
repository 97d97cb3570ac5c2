//! The product form: what goes through the pivots since an elimination.

ghost use Rattle.std.specs.Prelude.{◌≡◌, length};
ghost use Rattle.pami_frac.specs.Answers.{BecomesBy};
ghost use Rattle.pami_factoring.specs.Solve.{transform_one, transform_script};
ghost use Rattle.pami_vec.specs.Pivots.{column_pivot, column_pivots, IsPivot, ArePivots};

use crate::change::{Change, change_members};
use crate::step::Pivot;
use pami_frac::{Frac, Refused};

/// Takes values, by place, through one pivot: the one at its place is divided by the pivot's own member, and then each other
/// one, places ascending, loses the quotient times its member. A value 0 at the pivot's place changes nothing. (Koberstein
/// 2005, section 5.1.)
///
/// # Errors
///
/// `Refused` exactly where an operation of this script over all places doesn't fit: the first such. The values are then
/// partly changed.
pub fn go_through(values: &mut [Frac], pivot: &Pivot) -> Result<(), Refused>
    requires { IsPivot (length values.old) pivot.now }
    ensures script { BecomesBy (transform_one (column_pivot pivot.now) values.old) values.new result }
    ensures as_many { length values.new ≡ length values.old }
{
    let place = pivot.place as usize;
    let value = values[place];
    if value.is_zero() {
        return Ok(());
    }
    let factor = value.div(pivot.column.at(pivot.place))?;
    values[place] = factor;
    let but = pivot.place;
    match change_members(
        Change::LessBy { factor, but },
        values,
        pivot.column.entries(),
    ) {
        Ok(()) => Ok(()),
        Err(stop) => Err(stop.refused),
    }
}

/// Takes values, by place, through all pivots, the first one first.
///
/// # Errors
///
/// `Refused` exactly where an operation of this script doesn't fit: the first such. The values are then partly changed.
pub fn go_through_all(values: &mut [Frac], pivots: &[Pivot]) -> Result<(), Refused>
    requires { ArePivots (length values.old) pivots.now }
    ensures script { BecomesBy (transform_script (column_pivots pivots.now) values.old) values.new result }
    ensures as_many { length values.new ≡ length values.old }
{
    for pivot in pivots {
        go_through(values, pivot)?;
    }
    Ok(())
}
