//! How far a value lies outside of its bounds.

ghost use Rattle.std.specs.Prelude.{◌≡◌, ◌↔◌, Result, Ok, None, Some, IfOk};
ghost use Rattle.pami_algebra.specs.Operations.{is_below as the_is_below};
ghost use Rattle.pami_frac.specs.Arithmetic.{sub_outcome};
ghost use Rattle.pami_script.specs.Script.{then};
ghost use Rattle.pami_theory.specs.Form.{IsWithin};
ghost use Rattle.pami_theory.specs.Violation.{violation as the_violation};
ghost use Rattle.pami_method.specs.Scripts.{violation_script};

use pami_frac::{Bounds, Frac, Refused};
use pami_vec::{Side, Violation};
use std::cmp::Ordering;

/// Is the first below the second?
pub(crate) fn is_below(left: &Frac, right: &Frac) -> bool
    ensures { result ≡ the_is_below left.now right.now }
{
    match left.compare(right) {
        Ordering::Less => true,
        _ => false,
    }
}

/// The violation on this side by `upper - lower`.
fn by_difference(side: Side, upper: Frac, lower: Frac) -> Result<Option<Violation>, Refused>
    ensures { result ≡ then (sub_outcome upper lower) (λ amount. Ok (Some (record { side = side; amount = amount }))) }
{
    let amount = upper.sub(lower)?;
    Ok(Some(Violation { side, amount }))
}

/// On which side of its bounds a value lies, and how far from the bound that it passes; `None` exactly where it is within
/// its bounds. It takes no memory.
///
/// # Errors
///
/// `Refused` exactly where that distance doesn't fit.
pub fn violation(value: &Frac, bounds: &Bounds) -> Result<Option<Violation>, Refused>
    ensures script { result ≡ violation_script bounds.now value.now }
    ensures exact { IfOk result (λ found. found ≡ the_violation bounds.now value.now) }
    ensures within { (result ≡ Ok None) ↔ IsWithin bounds.now value.now }
{
    if let Some(high) = bounds.high {
        if is_below(&high, value) {
            return by_difference(Side::Above, *value, high);
        }
    }
    if let Some(low) = bounds.low {
        if is_below(value, &low) {
            return by_difference(Side::Below, low, *value);
        }
    }
    Ok(None)
}
