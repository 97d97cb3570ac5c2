//! How large the numbers of a fraction are.

ghost use Rattle.std.specs.Prelude.{◌≡◌, ℕ, ◌<◌, ◌^◌, ◌≤◌, ◌*◌, nat_abs};
ghost use Rattle.pami_algebra.specs.Size.{size, bits, NeedsDigits};

use crate::frac::Frac;

/// The count of the binary digits of a number above 0.
fn digits(n: u128) -> u32
    requires { (0 < n) × (n < 2 ^ 127) }
    ensures value { result ≡ bits n }
    ensures small { (0 < result) × (result ≤ 127) }
{
    n.ilog2() + 1
}

impl Frac {
    /// The binary digits of the numerator, without its sign, less those of the denominator; -127 for 0.
    pub fn size(&self) -> i32
        ensures value { result ≡ size self.now }
        ensures small { nat_abs result ≤ 127 }
    {
        if self.is_zero() {
            return -127;
        }
        digits(self.magnitude()) as i32 - digits(self.below()) as i32
    }
}

/// The digits that `size` counts: so many are enough for the number, and one less isn't. No other count is so.
pub fn bits_are_digits()
    ensures needed { (n : ℕ) → 0 < n → NeedsDigits n (bits n) }
    ensures only { (n b : ℕ) → 0 < n → NeedsDigits n b → b ≡ bits n }
{}
