//! Fractions are a field: the laws of sums and products.

ghost use Rattle.std.specs.Prelude.{◌≡◌, ◌⊎◌, pos};
ghost use Rattle.pami_algebra.specs.Fraction.{Fraction};
ghost use Rattle.pami_algebra.specs.Operations.{◌+ᶠ◌, ◌*ᶠ◌, ◌-ᶠ◌, ◌/ᶠ◌, neg_f, of_int, inv_f};

/// Sums are a commutative group, with 0 as its neutral element and the negation as its inverse.
pub fn sums_are_a_group()
    ensures commutative { (p q : Fraction) → p +ᶠ q ≡ q +ᶠ p }
    ensures associative { (p q r : Fraction) → (p +ᶠ q) +ᶠ r ≡ p +ᶠ (q +ᶠ r) }
    ensures zero_is_neutral { (p : Fraction) → p +ᶠ of_int (pos 0) ≡ p }
    ensures negation_cancels { (p : Fraction) → p +ᶠ neg_f p ≡ of_int (pos 0) }
    ensures negation_is_unique { (p q : Fraction) → p +ᶠ q ≡ of_int (pos 0) → q ≡ neg_f p }
{}

/// Products of what isn't 0 are a commutative group, with 1 as its neutral element; a product with 0 is 0.
pub fn products_are_a_group()
    ensures commutative { (p q : Fraction) → p *ᶠ q ≡ q *ᶠ p }
    ensures associative { (p q r : Fraction) → (p *ᶠ q) *ᶠ r ≡ p *ᶠ (q *ᶠ r) }
    ensures one_is_neutral { (p : Fraction) → p *ᶠ of_int (pos 1) ≡ p }
    ensures inverse_cancels { (p : Fraction) → ¬ (p ≡ of_int (pos 0)) → p *ᶠ inv_f p ≡ of_int (pos 1) }
    ensures inverse_is_unique { (p q : Fraction) → p *ᶠ q ≡ of_int (pos 1) → q ≡ inv_f p }
    ensures zero_absorbs { (p : Fraction) → p *ᶠ of_int (pos 0) ≡ of_int (pos 0) }
{}

/// Products distribute over sums, 0 isn't 1, and a product is 0 only by one of its factors.
pub fn fractions_are_a_field()
    ensures distributive { (p q r : Fraction) → p *ᶠ (q +ᶠ r) ≡ p *ᶠ q +ᶠ p *ᶠ r }
    ensures distributive_from_the_right { (p q r : Fraction) → (p +ᶠ q) *ᶠ r ≡ p *ᶠ r +ᶠ q *ᶠ r }
    ensures zero_is_not_one { ¬ (of_int (pos 0) ≡ of_int (pos 1)) }
    ensures no_zero_divisors { (p q : Fraction) → p *ᶠ q ≡ of_int (pos 0) → (p ≡ of_int (pos 0)) ⊎ (q ≡ of_int (pos 0)) }
{}

/// A difference is the sum with the negation, and it undoes a sum.
pub fn differences_undo_sums()
    ensures meaning { (p q : Fraction) → p -ᶠ q ≡ p +ᶠ neg_f q }
    ensures undone { (p q : Fraction) → (p +ᶠ q) -ᶠ q ≡ p }
    ensures added_again { (p q : Fraction) → (p -ᶠ q) +ᶠ q ≡ p }
    ensures zero_between_equals { (p q : Fraction) → p -ᶠ q ≡ of_int (pos 0) → p ≡ q }
{}

/// A quotient is the product with the inverse, and by what isn't 0 it undoes a product.
pub fn quotients_undo_products()
    ensures meaning { (p q : Fraction) → p /ᶠ q ≡ p *ᶠ inv_f q }
    ensures undone { (p q : Fraction) → ¬ (q ≡ of_int (pos 0)) → (p *ᶠ q) /ᶠ q ≡ p }
    ensures multiplied_again { (p q : Fraction) → ¬ (q ≡ of_int (pos 0)) → (p /ᶠ q) *ᶠ q ≡ p }
    ensures cancelled { (p q r : Fraction) → ¬ (r ≡ of_int (pos 0)) → p *ᶠ r ≡ q *ᶠ r → p ≡ q }
{}

/// Negations and inverses of negations, products and inverses. These hold at 0 too, whose inverse is 0.
pub fn negations_and_inverses_pass_through()
    ensures negation_twice { (p : Fraction) → neg_f (neg_f p) ≡ p }
    ensures negation_of_a_sum { (p q : Fraction) → neg_f (p +ᶠ q) ≡ neg_f p +ᶠ neg_f q }
    ensures negation_of_a_product { (p q : Fraction) → neg_f (p *ᶠ q) ≡ neg_f p *ᶠ q }
    ensures inverse_of_zero { inv_f (of_int (pos 0)) ≡ of_int (pos 0) }
    ensures inverse_twice { (p : Fraction) → inv_f (inv_f p) ≡ p }
    ensures inverse_of_a_negation { (p : Fraction) → inv_f (neg_f p) ≡ neg_f (inv_f p) }
    ensures inverse_of_a_product { (p q : Fraction) → inv_f (p *ᶠ q) ≡ inv_f p *ᶠ inv_f q }
{}
