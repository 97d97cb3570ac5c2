//! What is read of the bounds of a variable.

ghost use Rattle.std.specs.Prelude.{◌≡◌};
ghost use Rattle.pami_theory.specs.Fresh.{standing_value};
ghost use Rattle.pami_theory.specs.Violation.{passed_bound as the_passed_bound, value_or_zero as the_value_or_zero};

use pami_frac::{Bounds, Frac};
use pami_theory::{Side, Stand};

/// The value of a bound, 0 where there is none.
pub fn value_or_zero(bound: Option<Frac>) -> Frac
    ensures { result ≡ the_value_or_zero bound }
{
    match bound {
        Some(value) => value,
        None => Frac::zero(),
    }
}

/// The value of a nonbasic variable with these bounds that stands so; 0 for a basic one. Both are of one
/// variable.
pub fn value_at(bounds: &Bounds, stand: Stand) -> Frac
    ensures { result ≡ standing_value bounds.now stand }
{
    match stand {
        Stand::Basic => Frac::zero(),
        Stand::Lower => value_or_zero(bounds.low),
        Stand::Upper => value_or_zero(bounds.high),
        Stand::Zero => Frac::zero(),
    }
}

/// The bound that a value on this side has passed, 0 where there is none.
pub fn passed_bound(bounds: &Bounds, side: Side) -> Frac
    ensures { result ≡ the_passed_bound bounds.now side }
{
    match side {
        Side::Above => value_or_zero(bounds.high),
        Side::Below => value_or_zero(bounds.low),
    }
}
