//! Whole numbers among the fractions.

ghost use Rattle.std.specs.Prelude.{◌≡◌, ◌↔◌, ℤ, ◌+ℤ◌, ◌*ℤ◌, neg_ℤ, ◌≤ℤ◌, ◌<ℤ◌};
ghost use Rattle.pami_algebra.specs.Operations.{◌+ᶠ◌, ◌*ᶠ◌, neg_f, of_int, ◌≤ᶠ◌, ◌<ᶠ◌};

/// Sums, products, negations and the order of whole numbers are the same among the fractions, and different whole
/// numbers are different fractions.
pub fn whole_numbers_are_fractions()
    ensures sum { (m n : ℤ) → of_int (m +ℤ n) ≡ of_int m +ᶠ of_int n }
    ensures product { (m n : ℤ) → of_int (m *ℤ n) ≡ of_int m *ᶠ of_int n }
    ensures negation { (n : ℤ) → of_int (neg_ℤ n) ≡ neg_f (of_int n) }
    ensures injective { (m n : ℤ) → of_int m ≡ of_int n → m ≡ n }
    ensures at_most { (m n : ℤ) → (of_int m ≤ᶠ of_int n) ↔ (m ≤ℤ n) }
    ensures below { (m n : ℤ) → (of_int m <ᶠ of_int n) ↔ (m <ℤ n) }
{}
