//! The digits of a decimal without the zeros at their ends.

ghost use Rattle.std.specs.Prelude.{◌≡◌, ℕ, ◌*◌, ◌^◌, ◌<◌, ◌≤◌, MatchOption};
ghost use Rattle.pami_frac.specs.DecimalShort.{IsShort, trimmed_digits};

/// The digits of a number without zeros at its ends, and the count of zeros that stood at its end.
#[derive(Clone, Copy)]
pub(super) struct Trimmed {
    /// All digits but the last; at most 38.
    pub(super) head: u128,
    /// The last digit; not 0.
    pub(super) last: u128,
    /// The count of zeros after them.
    pub(super) zeros: u128,
    pub(super) ghost short: { IsShort head last },
}

/// `(10 * head + last) * 10^zeros`, where it has at most 38 digits.
pub(super) fn joined(digits: Trimmed) -> Option<u128>
    ensures { MatchOption result (10 ^ 38 ≤ trimmed_digits digits.head digits.last * 10 ^ digits.zeros) (λ n. (n ≡ trimmed_digits digits.head digits.last * 10 ^ digits.zeros) × (n < 10 ^ 38)) }
{
    if 37 < digits.zeros {
        return None;
    }
    if 10u128.pow(37) <= digits.head {
        return None;
    }
    let shift = 10u128.pow(digits.zeros as u32);
    match (10 * digits.head + digits.last).checked_mul(shift) {
        Some(all) if all < 10u128.pow(38) => Some(all),
        _ => None,
    }
}
