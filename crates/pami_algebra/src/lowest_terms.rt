//! Fractions are in lowest terms: each ratio has one numerator and one denominator.

ghost use Rattle.std.specs.Prelude.{◌≡◌, ◌↔◌, ◌<◌, ◌/◌, ◌<ℤ◌, ℕ, ℤ, pos, ◌*ℤ◌, neg_ℤ, nat_abs};
ghost use Rattle.pami_algebra.specs.Fraction.{Fraction, gcd, over_nat};
ghost use Rattle.pami_algebra.specs.Reduced.{over};
ghost use Rattle.pami_algebra.specs.Operations.{neg_f, of_int, inv_f};
ghost use Rattle.std.specs.Int.{IsGcd};

/// Each fraction is in lowest terms over a denominator of at least 1, and equal ratios are equal fractions.
pub fn each_ratio_is_one_fraction()
    ensures divisor { (a b : ℕ) → IsGcd a b (gcd a b) }
    ensures lowest { (p : Fraction) → gcd (nat_abs p.num) p.den ≡ 1 }
    ensures positive { (p : Fraction) → 0 < p.den }
    ensures same { (p q : Fraction) → (p ≡ q) ↔ (p.num *ℤ pos q.den ≡ q.num *ℤ pos p.den) }
{}

/// A pair of numbers makes the fraction of that ratio, by division by their greatest common divisor. A pair in
/// lowest terms stays as it is.
pub fn a_pair_is_reduced()
    ensures ratio { (n : ℤ) (d : ℕ) → 0 < d → (over n d).num *ℤ pos d ≡ n *ℤ pos (over n d).den }
    ensures numerator { (n : ℤ) (d : ℕ) → 0 < d → (over n d).num ≡ over_nat n (gcd (nat_abs n) d) }
    ensures denominator { (n : ℤ) (d : ℕ) → 0 < d → (over n d).den ≡ d / gcd (nat_abs n) d }
    ensures kept_numerator { (n : ℤ) (d : ℕ) → 0 < d → gcd (nat_abs n) d ≡ 1 → (over n d).num ≡ n }
    ensures kept_denominator { (n : ℤ) (d : ℕ) → 0 < d → gcd (nat_abs n) d ≡ 1 → (over n d).den ≡ d }
    ensures itself { (p : Fraction) → over p.num p.den ≡ p }
    ensures of_no_parts { (n : ℤ) → over n 0 ≡ of_int (pos 0) }
{}

/// A negation turns the sign of the numerator and keeps the denominator; a whole number stands over 1.
pub fn numbers_of_negations_and_whole_numbers()
    ensures negation_numerator { (p : Fraction) → (neg_f p).num ≡ neg_ℤ p.num }
    ensures negation_denominator { (p : Fraction) → (neg_f p).den ≡ p.den }
    ensures whole_numerator { (n : ℤ) → (of_int n).num ≡ n }
    ensures whole_denominator { (n : ℤ) → (of_int n).den ≡ 1 }
{}

/// The numbers of an inverse change places, and the sign stays with the numerator.
pub fn numbers_of_inverses()
    ensures denominator { (p : Fraction) → ¬ (p.num ≡ pos 0) → (inv_f p).den ≡ nat_abs p.num }
    ensures numerator_above_zero { (p : Fraction) → pos 0 <ℤ p.num → (inv_f p).num ≡ pos p.den }
    ensures numerator_below_zero { (p : Fraction) → p.num <ℤ pos 0 → (inv_f p).num ≡ neg_ℤ (pos p.den) }
{}
