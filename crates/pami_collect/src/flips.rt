//! What all the flips of a batch change in each row.

ghost use Rattle.std.specs.Prelude.{◌≡◌, length, map, All};
ghost use Rattle.pami_frac.specs.Answers.{BecomesBy, FollowsBy};
ghost use Rattle.pami_method.specs.Scripts.{zeros};
ghost use Rattle.pami_deferral.specs.Listed.{total_script};
ghost use Rattle.pami_collect.specs.Exchanges.{flips_of};

use pami_frac::{Fault, Frac, Refused};
use pami_vec::{Change, SpVec, Step, change_members};
use std::alloc::Global;

/// Adds what each step's flips change to the rows, step by step.
fn add_flips(rows: &mut [Frac], steps: &[Step]) -> Result<(), Refused>
    requires { All (λ s. length s.flip_column ≡ length rows.old) steps.now }
    ensures { BecomesBy (total_script (map flips_of steps.now) rows.old) rows.new result }
{
    for step in steps {
        match change_members(Change::Plus, rows, step.flip_column.entries()) {
            Ok(()) => {}
            Err(stop) => return Err(stop.refused),
        }
    }
    Ok(())
}

/// What the flips of all steps change in each of so many rows, by row: each step's flip column, which has as many
/// rows, is added in its turn.
///
/// # Errors
///
/// `Named` exactly where a sum doesn't fit: the first such, the rows of each step ascending. `OutOfMemory` where
/// memory runs out.
pub fn flip_total(alloc: Global, steps: &[Step], rows: u32) -> Result<SpVec, Fault<Refused>>
    requires { All (λ s. length s.flip_column ≡ rows) steps.now }
    ensures { FollowsBy (λ v. v) (total_script (map flips_of steps.now) (zeros rows)) result }
{
    let mut total = vec![in alloc; Frac::zero(); rows as usize]?;
    add_flips(total.as_mut_slice(), steps)?;
    Ok(SpVec::from_dense(alloc, total.as_slice())?)
}
