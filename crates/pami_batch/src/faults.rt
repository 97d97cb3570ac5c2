//! Faults of a script's call, with the script.

ghost use Rattle.std.specs.Prelude.{◌≡◌};
ghost use Rattle.pami_batch.specs.Told.{fault_at as the_fault_at, placed};

use pami_frac::{Fault, Refused};
use pami_log::{Place, Spot};

/// The fault with the script that it stands in.
pub(crate) fn fault_at(spot: Spot, fault: Fault<Refused>) -> Fault<Place>
    ensures { result ≡ the_fault_at spot fault }
{
    match fault {
        Fault::Named(refused) => Fault::Named(Place {
            task: spot,
            refused,
        }),
        Fault::OutOfMemory => Fault::OutOfMemory,
    }
}

/// The answer of a script's call, with the script.
pub(crate) fn at<T>(spot: Spot, answer: Result<T, Fault<Refused>>) -> Result<T, Fault<Place>>
    ensures { result ≡ placed spot answer }
{
    match answer {
        Ok(value) => Ok(value),
        Err(fault) => Err(fault_at(spot, fault)),
    }
}
