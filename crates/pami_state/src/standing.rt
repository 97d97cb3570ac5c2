//! One variable: where it stands at the start, and the sign of its reduced cost.

ghost use Rattle.std.specs.Prelude.{◌≡◌, ◌↔◌, IsTrue};
ghost use Rattle.pami_theory.specs.Start.{is_same as the_is_same, boxed_stand as the_boxed_stand, stand_by};
ghost use Rattle.pami_theory.specs.Fresh.{IsSignedFor};
ghost use Rattle.pami_theory.specs.Violation.{is_fixed as the_is_fixed};
ghost use Rattle.pami_state.specs.State.{SignedBy};

use pami_frac::{Bounds, Frac};
use pami_vec::Stand;

/// Are both the same number?
fn is_same(left: Frac, right: Frac) -> bool
    ensures { result ≡ the_is_same left right }
{
    left == right
}

/// Are both bounds finite and equal?
fn is_fixed(bounds: &Bounds) -> bool
    ensures { result ≡ the_is_fixed bounds.now }
{
    match (bounds.low, bounds.high) {
        (Some(low), Some(high)) => is_same(low, high),
        _ => false,
    }
}

/// The bound at which a column with two bounds stands.
fn boxed_stand(fixed: bool, cost: Frac) -> Stand
    ensures { result ≡ the_boxed_stand fixed cost }
{
    if !fixed && cost.is_negative() {
        Stand::Upper
    } else {
        Stand::Lower
    }
}

/// Where a column with this cost stands at the start: at a bound that it has, a boxed one at the bound that its cost
/// asks for, a free one at 0.
pub(crate) fn starting_stand(bounds: &Bounds, cost: Frac) -> Stand
    ensures { result ≡ stand_by bounds.now.low bounds.now.high cost }
{
    match (bounds.low, bounds.high) {
        (None, None) => Stand::Zero,
        (Some(_), None) => Stand::Lower,
        (None, Some(_)) => Stand::Upper,
        (Some(low), Some(high)) => boxed_stand(is_same(low, high), cost),
    }
}

/// Has a reduced cost the sign that the stand asks for?
fn has_sign(stand: Stand, reduced: Frac) -> bool
    ensures { IsTrue result ↔ IsSignedFor stand reduced }
{
    match stand {
        Stand::Basic => true,
        Stand::Lower => !reduced.is_negative(),
        Stand::Upper => reduced.is_negative() || reduced.is_zero(),
        Stand::Zero => reduced.is_zero(),
    }
}

/// Has the reduced cost of a variable the sign that its stand asks for, unless the variable is fixed?
pub(crate) fn is_signed(bounds: &Bounds, stand: Stand, reduced: Frac) -> bool
    ensures { IsTrue result ↔ SignedBy bounds.now stand reduced }
{
    is_fixed(bounds) || has_sign(stand, reduced)
}
