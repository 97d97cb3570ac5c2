//! The candidate that comes first in the walk.

ghost use Rattle.std.specs.Prelude.{◌≡◌, ◌<◌, length};
ghost use Rattle.pami_bfrt.specs.Firsts.{IsFirst, TakesFirst};

use crate::candidate::{Candidate, comes_before};

/// Where the first one stands.
fn first_place(candidates: &[Candidate]) -> usize
    requires { 0 < length candidates.now }
    ensures { IsFirst candidates.now result (length candidates.now) }
{
    let mut best = 0;
    for k in 1..candidates.len() {
        if !comes_before(&candidates[best], &candidates[k]) {
            best = k;
        }
    }
    best
}

/// Takes the first one out, and leaves the others.
pub(crate) fn take_first(candidates: &mut Vec<Candidate>) -> Option<Candidate>
    ensures { TakesFirst candidates.old.items result candidates.new.items }
{
    if candidates.len() == 0 {
        return None;
    }
    let place = first_place(candidates.as_slice());
    Some(candidates.remove(place))
}
