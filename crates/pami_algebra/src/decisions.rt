//! Tests that decide equality with 0 and the order.

ghost use Rattle.std.specs.Prelude.{◌≡◌, ◌↔◌, IsTrue, IsFalse, pos};
ghost use Rattle.pami_algebra.specs.Fraction.{Fraction};
ghost use Rattle.pami_algebra.specs.Operations.{of_int, ◌≤ᶠ◌, ◌<ᶠ◌, is_zero, is_at_most, is_below};

/// Each test is true exactly where what it is named after holds.
pub fn tests_decide()
    ensures zero { (p : Fraction) → IsTrue (is_zero p) ↔ (p ≡ of_int (pos 0)) }
    ensures at_most { (p q : Fraction) → IsTrue (is_at_most p q) ↔ (p ≤ᶠ q) }
    ensures below { (p q : Fraction) → IsTrue (is_below p q) ↔ (p <ᶠ q) }
{}

/// Each test is false exactly where the contrary holds.
pub fn failed_tests_decide()
    ensures zero { (p : Fraction) → IsFalse (is_zero p) ↔ (¬ (p ≡ of_int (pos 0))) }
    ensures at_most { (p q : Fraction) → IsFalse (is_at_most p q) ↔ (q <ᶠ p) }
    ensures below { (p q : Fraction) → IsFalse (is_below p q) ↔ (q ≤ᶠ p) }
{}
