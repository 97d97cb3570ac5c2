//! What is left of a matrix in the course of its elimination.

ghost use Rattle.std.specs.Prelude.{◌≡◌, ◌≤◌, length, replicate, true, IfOk};
ghost use Rattle.pami_linear.specs.Active.{first_from};
ghost use Rattle.pami_factoring.specs.Factor.{flag};

use pami_frac::{FracList, OutOfMemory};
use std::alloc::Global;

/// The rows, and which rows and places are active: those that no step has pivoted.
#[derive(Drop)]
pub(crate) struct Rest {
    pub(crate) active: Vec<bool>,
    pub(crate) places: Vec<bool>,
    pub(crate) rows: Vec<FracList>,
}

/// Flags of `m` active ones.
pub(crate) fn all_active(alloc: Global, m: usize) -> Result<Vec<bool>, OutOfMemory>
    ensures { IfOk result (λ v. v.items ≡ replicate m true) }
{
    let mut out = Vec::new(alloc);
    for k in 0..m {
        out.push(true)?;
    }
    Ok(out)
}

/// The least active place.
pub(crate) fn first_active(places: &[bool]) -> usize
    ensures value { result ≡ first_from (length places.now) 0 (flag places.now) }
    ensures most { result ≤ length places.now }
{
    let mut k = 0;
    while k < places.len() && !places[k] {
        k += 1;
    }
    k
}
