//! How much an infeasible place is worth.

ghost use Rattle.std.specs.Prelude.{◌≡◌, ◌<◌, ◌≤◌, nat_abs};
ghost use Rattle.pami_theory.specs.Choice.{merit as the_merit};

use pami_frac::Frac;

/// The logarithm, in binary digits, of the squared infeasibility by the weight of its place. (Forrest and Goldfarb 1992,
/// with binary digits in place of the numbers.)
pub fn merit(infeasibility: &Frac, weight: u64) -> i32
    requires { 0 < weight }
    ensures value { result ≡ the_merit infeasibility.now weight }
    ensures small { nat_abs result ≤ 317 }
{
    2 * infeasibility.size() - weight.ilog2() as i32
}
