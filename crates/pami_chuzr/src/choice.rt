//! The choice of rows.

ghost use Rattle.std.specs.Prelude.{◌≡◌, ◌<◌, ◌^◌, length, map, IfOk};
ghost use Rattle.pami_devex.specs.Weights.{AreWeights};
ghost use Rattle.pami_frac.specs.Answers.{FollowsBy};
ghost use Rattle.pami_theory.specs.Form.{Form};
ghost use Rattle.pami_theory.specs.Basis.{Basis};
ghost use Rattle.pami_theory.specs.Fresh.{Fresh};
ghost use Rattle.pami_theory.specs.Choice.{chosen};
ghost use Rattle.pami_chuzr.specs.Choice.{AreOfPlaces, chosen_row, choice_script};

use crate::outside::violation;
use crate::ranking::{rank, told};
use crate::row::{ChosenRow, RankedRow};
use pami_frac::{Bounds, Fault, Frac, Refused};
use std::alloc::Global;

/// `choose`, by its script alone, so that no loop is proved with the other clause.
fn chosen_rows(
    alloc: Global,
    values: &[Frac],
    bounds: &[Bounds],
    weights: &[u64],
    most: u32,
) -> Result<Vec<ChosenRow>, Fault<Refused>>
    requires places { length values.now < 2 ^ 32 }
    requires bounds_by_place { length bounds.now ≡ length values.now }
    requires weights_by_place { length weights.now ≡ length values.now }
    requires weights_in_range { AreWeights weights.now }
    ensures { FollowsBy (λ rows. rows.items) (choice_script bounds.now values.now weights.now most) result }
{
    let mut ranked = Vec::new(alloc);
    for (place, value) in values.iter().enumerate() {
        let found = match violation(value, &bounds[place]) {
            Ok(None) => continue,
            Ok(Some(found)) => found,
            Err(refused) => return Err(Fault::Named(refused)),
        };
        let row = RankedRow::new(place as u32, found, weights[place]);
        match rank(&mut ranked, row, most as usize) {
            Ok(()) => {}
            Err(_) => return Err(Fault::OutOfMemory),
        }
    }
    match told(alloc, ranked.as_slice()) {
        Ok(rows) => Ok(rows),
        Err(_) => Err(Fault::OutOfMemory),
    }
}

/// The first `most` infeasible places, or all if they are fewer: by greater merit, then greater infeasibility, then smaller
/// place. The three lists go by place: the values and the bounds of the basic variables, and the weights.
///
/// # Errors
///
/// `Named` exactly where a violation doesn't fit: the first refused operation over the places ascending. `OutOfMemory`
/// where memory runs out.
pub fn choose(
    alloc: Global,
    values: &[Frac],
    bounds: &[Bounds],
    weights: &[u64],
    most: u32,
) -> Result<Vec<ChosenRow>, Fault<Refused>>
    requires places { length values.now < 2 ^ 32 }
    requires bounds_by_place { length bounds.now ≡ length values.now }
    requires weights_by_place { length weights.now ≡ length values.now }
    requires weights_in_range { AreWeights weights.now }
    ensures script { FollowsBy (λ rows. rows.items) (choice_script bounds.now values.now weights.now most) result }
    // At a basis whose places have these bounds and values, the rows are those that the theory chooses.
    ensures rows { (f : Form) (b : Basis) (s : Fresh) → AreOfPlaces f b s bounds.now values.now
        → IfOk result (λ rows. rows.items ≡ map chosen_row (chosen f b s weights.now most)) }
{
    chosen_rows(alloc, values, bounds, weights, most)
}
