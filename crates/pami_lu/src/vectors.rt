//! Sparse vectors as an elimination needs them.

ghost use Rattle.std.specs.Prelude.{◌≡◌, [], set, pos, IfOk};
ghost use Rattle.pami_algebra.specs.Operations.{of_int};

use pami_frac::OutOfMemory;
use pami_vec::SpVec;
use std::alloc::Global;

/// The vector of no members.
#[tactic(auto, unfolding(pami_script::specs::Dense::dense))]
pub(crate) fn empty(alloc: Global) -> Result<SpVec, OutOfMemory>
    ensures { IfOk result (λ v. v ≡ []) }
{
    SpVec::from_entries(alloc, 0, &[])
}

/// The vector with 0 at one place.
pub(crate) fn without(alloc: Global, vector: &SpVec, place: u32) -> Result<SpVec, OutOfMemory>
    ensures { IfOk result (λ v. v ≡ set vector.now place (of_int (pos 0))) }
{
    let mut others = Vec::new(alloc);
    for entry in vector.entries() {
        if entry.place != place {
            others.push(*entry)?;
        }
    }
    SpVec::from_entries(alloc, vector.len(), &others)
}
