//! A column through the pivots before its own.

ghost use Rattle.std.specs.Prelude.{◌≡◌, length};
ghost use Rattle.pami_frac.specs.Answers.{FollowsBy};
ghost use Rattle.pami_factoring.specs.Solve.{transform_script};
ghost use Rattle.pami_vec.specs.Pivots.{column_pivots, ArePivots};

use pami_frac::{Fault, Refused};
use pami_vec::{Pivot, SpVec, go_through_all};
use std::alloc::Global;

/// A column by place, taken through the pivots before its own, the first one first: each divides the column's member
/// at its place, and takes the quotient times its own members from the others. So a column by the basis before all of
/// them becomes that by the basis behind them. (Koberstein 2005, section 5.1.)
///
/// # Errors
///
/// `Named` exactly where an operation doesn't fit: the first such, places ascending. `OutOfMemory` where memory runs
/// out.
pub fn transform(alloc: Global, column: &SpVec, earlier: &[Pivot]) -> Result<SpVec, Fault<Refused>>
    requires { ArePivots (length column.now) earlier.now }
    ensures { FollowsBy (λ v. v) (transform_script (column_pivots earlier.now) column.now) result }
{
    let _length = column.len();
    let mut members = column.to_dense(alloc)?;
    go_through_all(members.as_mut_slice(), earlier)?;
    Ok(SpVec::from_dense(alloc, members.as_slice())?)
}
