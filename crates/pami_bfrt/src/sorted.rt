//! Candidates put in the order of the walk.

ghost use Rattle.std.specs.Prelude.{◌≡◌};
ghost use Rattle.std.specs.Ordering.{is_lt};
ghost use Rattle.std.specs.List.{IsDistinct};
ghost use Rattle.std.specs.List.Sorted.{ties};
ghost use Rattle.pami_theory.specs.Order.{ordered};
ghost use Rattle.pami_bfrt.specs.Candidates.{comes_before as the_comes_before};

use crate::candidate::{Candidate, comes_before};
use std::cmp::Ordering;

/// How the first stands to the second in the walk.
fn order(c: &Candidate, d: &Candidate) -> Ordering
    ensures { is_lt result ≡ the_comes_before c.now d.now }
{
    if comes_before(c, d) {
        return Ordering::Less;
    }
    if comes_before(d, c) {
        return Ordering::Greater;
    }
    Ordering::Equal
}

/// Puts the candidates in the order of the walk.
pub(crate) fn sort(candidates: &mut Vec<Candidate>)
    requires { IsDistinct (ties the_comes_before) candidates.old.items }
    ensures { candidates.new.items ≡ ordered the_comes_before candidates.old.items }
{
    candidates.sort_unstable_by(|c, d| order(c, d));
}
