//! The public call.

ghost use Rattle.std.specs.Prelude.{◌≡◌, ◌<◌, ◌+◌, ◌^◌, ℕ, length, slice_index_or, [], All, IfOk};
ghost use Rattle.pami_linear.specs.Systems.{IsRegular};
ghost use Rattle.pami_factoring.specs.Factor.{elimination_script, matrix_of, basis_columns};
ghost use Rattle.pami_frac.specs.Answers.{FollowsBy};
ghost use Rattle.pami_lu.specs.Follow.{IfSingular};

use crate::elimination::eliminate_rows;
use crate::lu::Lu;
use crate::matrix::{basis_members, basis_rows};
use crate::steps::Steps;
use pami_factoring::LuFault;
use pami_frac::Fault;
use pami_vec::SpVec;
use std::alloc::Global;

/// Eliminates the basis whose column at each place is the one that the head names there, with the pivots of the rule of
/// Markowitz (1957). It counts one step.
///
/// # Errors
///
/// `Refused` exactly where an operation of the script doesn't fit: the first such. `Singular` exactly where none is
/// refused and the columns aren't regular, with the least place that is left without a pivot. `OutOfMemory` where memory
/// runs out.
pub fn eliminate<L>(
    alloc: Global,
    columns: &[SpVec],
    head: &[u32],
    steps: &mut Steps<L>,
) -> Result<Lu, Fault<LuFault>>
    requires few { length head.now < 2 ^ 32 }
    requires heights { (j : ℕ) → j < length columns.now → length (slice_index_or columns.now j []) ≡ length head.now }
    requires known { All (λ j. j < length columns.now) head.now }
    ensures script { FollowsBy (λ ks. ks) (elimination_script (matrix_of columns.now head.now)) result }
    ensures count { IfOk result (λ lu. length lu ≡ length head.now) }
    ensures regular { IfOk result (λ _. IsRegular (length head.now) (basis_columns columns.now head.now)) }
    ensures singular { IfSingular result (¬ (IsRegular (length head.now) (basis_columns columns.now head.now))) }
    ensures counted { steps.new.count ≡ steps.old.count + 1 }
{
    steps.tick();
    let rows = basis_rows(alloc, columns, head)?;
    let members = basis_members(alloc, columns, head)?;
    eliminate_rows(alloc, rows, members)
}
