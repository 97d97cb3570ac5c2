//! The weights of the places behind a pivot.

ghost use Rattle.std.specs.Prelude.{◌≡◌, ◌<◌, ◌≤◌, length, false};
ghost use Rattle.pami_algebra.specs.Operations.{is_zero};
ghost use Rattle.pami_script.specs.Dense.{at, dense, Rising};
ghost use Rattle.pami_theory.specs.Weights.{clamped as the_clamped, weights_after};
ghost use Rattle.pami_devex.specs.Weights.{IsWeight, AreWeights, weight_beside, weight_at_pivot};

use pami_frac::{Entry, Frac};
use pami_vec::entry_at;

/// The greatest weight.
const MOST: u64 = 1 << 40;

/// Brought into 0 .. 16.
fn clamped(digits: i32) -> u32
    ensures value { result ≡ the_clamped digits }
    ensures small { result ≤ 16 }
{
    digits.clamp(0, 16) as u32
}

/// The weight of a place behind a pivot at another place: from its own weight, its entry and the pivot's entry in the
/// entering column, and the weight of the pivot's place.
pub fn reweigh_one(weight: u64, alpha_i: &Frac, alpha_p: &Frac, weight_p: u64) -> u64
    ensures value { result ≡ weight_beside weight alpha_i.now alpha_p.now weight_p }
    ensures range { IsWeight weight → IsWeight result }
{
    if alpha_i.is_zero() {
        return weight;
    }
    let growth = 1 << (2 * clamped(alpha_i.size() - alpha_p.size()));
    weight_p.saturating_mul(growth).min(MOST).max(weight)
}

/// The weight of the pivot's own place, from its entry in the entering column.
fn reweigh_pivot(weight: u64, alpha_p: &Frac) -> u64
    ensures value { result ≡ weight_at_pivot weight alpha_p.now }
    ensures range { IsWeight weight → IsWeight result }
{
    (weight >> (2 * clamped(alpha_p.size()))).max(1)
}

/// Takes the weights, by place, behind the pivot at `place` with the column `alpha`: what the basis inverse makes of the
/// entering column, its entries by rising place. (Forrest and Goldfarb 1992.)
pub fn reweigh(weights: &mut [u64], alpha: &[Entry], place: u32)
    requires rising { Rising 0 (length weights.old) alpha.now }
    requires pivot { is_zero (at alpha.now place) ≡ false }
    ensures value { weights.new ≡ weights_after (dense (length weights.old) alpha.now) place weights.old }
    ensures range { AreWeights weights.old → AreWeights weights.new }
{
    let alpha_p = entry_at(alpha, place);
    let weight_p = weights[place as usize];
    for entry in alpha {
        let i = entry.place as usize;
        weights[i] = if entry.place == place {
            reweigh_pivot(weight_p, &alpha_p)
        } else {
            reweigh_one(weights[i], &entry.value, &alpha_p, weight_p)
        };
    }
}
