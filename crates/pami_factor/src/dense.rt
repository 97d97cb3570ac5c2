//! Lists over all places or rows, and the vector of one.

ghost use Rattle.std.specs.Prelude.{◌≡◌, ◌<◌, ◌^◌, length, replicate, pos, IfOk};
ghost use Rattle.pami_algebra.specs.Operations.{of_int};
ghost use Rattle.pami_factor.specs.Units.{unit_list};

use pami_frac::{Entry, Frac, OutOfMemory};
use pami_vec::SpVec;
use std::alloc::Global;

/// As many zeros.
pub(crate) fn zeros(alloc: Global, count: usize) -> Result<Vec<Frac>, OutOfMemory>
    ensures { IfOk result (λ v. v.items ≡ replicate count (of_int (pos 0))) }
{
    let mut out = Vec::with_capacity(alloc, count)?;
    for k in 0..count {
        out.push(Frac::zero())?;
    }
    Ok(out)
}

/// The unit vector of a place.
pub(crate) fn unit(alloc: Global, count: usize, place: usize) -> Result<Vec<Frac>, OutOfMemory>
    requires { place < count }
    ensures { IfOk result (λ v. v.items ≡ unit_list count place) }
{
    let mut out = zeros(alloc, count)?;
    out[place] = Frac::one();
    Ok(out)
}

/// The vector of these members, by place. Only those that aren't 0 are listed, since most members of a solution are 0.
pub(crate) fn vector_of(alloc: Global, members: &[Frac]) -> Result<SpVec, OutOfMemory>
    requires { length members.now < 2 ^ 32 }
    ensures { IfOk result (λ v. v ≡ members.now) }
{
    let mut entries = Vec::new(alloc);
    for (k, value) in members.iter().enumerate() {
        if !value.is_zero() {
            entries.push(Entry {
                place: k as u32,
                value: *value,
            })?;
        }
    }
    SpVec::from_entries(alloc, members.len() as u32, &entries)
}
