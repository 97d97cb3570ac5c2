//! The order of fractions: total, and kept by sums and by products with what is above 0.

ghost use Rattle.std.specs.Prelude.{◌≡◌, ◌↔◌, ◌⊎◌, ℕ, ℤ, pos, ◌*ℤ◌, ◌≤ℤ◌, ◌<ℤ◌};
ghost use Rattle.pami_algebra.specs.Fraction.{Fraction};
ghost use Rattle.pami_algebra.specs.Lowest.{IsRatio};
ghost use Rattle.pami_algebra.specs.Operations.{◌+ᶠ◌, ◌*ᶠ◌, ◌-ᶠ◌, ◌/ᶠ◌, neg_f, of_int, inv_f, ◌≤ᶠ◌, ◌<ᶠ◌};

/// The order is a total order.
pub fn order_is_total()
    ensures reflexive { (p : Fraction) → p ≤ᶠ p }
    ensures antisymmetric { (p q : Fraction) → p ≤ᶠ q → q ≤ᶠ p → p ≡ q }
    ensures transitive { (p q r : Fraction) → p ≤ᶠ q → q ≤ᶠ r → p ≤ᶠ r }
    ensures total { (p q : Fraction) → (p ≤ᶠ q) ⊎ (q ≤ᶠ p) }
{}

/// A fraction is below another where it is at most that one and not the same.
pub fn strict_order_is_the_rest()
    ensures not_reversed { (p q : Fraction) → (p <ᶠ q) ↔ (¬ (q ≤ᶠ p)) }
    ensures not_below { (p q : Fraction) → (p ≤ᶠ q) ↔ (¬ (q <ᶠ p)) }
    ensures other { (p q : Fraction) → (p <ᶠ q) ↔ ((p ≤ᶠ q) × (¬ (p ≡ q))) }
    ensures irreflexive { (p : Fraction) → ¬ (p <ᶠ p) }
    ensures asymmetric { (p q : Fraction) → p <ᶠ q → ¬ (q <ᶠ p) }
    ensures one_of_three { (p q : Fraction) → (p <ᶠ q) ⊎ ((p ≡ q) ⊎ (q <ᶠ p)) }
{}

/// Steps of both orders make a chain, which is strict where one of its steps is.
pub fn strict_order_chains()
    ensures strict { (p q r : Fraction) → p <ᶠ q → q <ᶠ r → p <ᶠ r }
    ensures strict_first { (p q r : Fraction) → p <ᶠ q → q ≤ᶠ r → p <ᶠ r }
    ensures strict_last { (p q r : Fraction) → p ≤ᶠ q → q <ᶠ r → p <ᶠ r }
{}

/// What is added on both sides keeps the order, and can be taken away again.
pub fn sums_keep_the_order()
    ensures at_most { (p q r : Fraction) → p ≤ᶠ q → (p +ᶠ r) ≤ᶠ (q +ᶠ r) }
    ensures at_most_from_the_left { (p q r : Fraction) → p ≤ᶠ q → (r +ᶠ p) ≤ᶠ (r +ᶠ q) }
    ensures below { (p q r : Fraction) → p <ᶠ q → (p +ᶠ r) <ᶠ (q +ᶠ r) }
    ensures below_from_the_left { (p q r : Fraction) → p <ᶠ q → (r +ᶠ p) <ᶠ (r +ᶠ q) }
    ensures cancelled_at_most { (p q r : Fraction) → (p +ᶠ r) ≤ᶠ (q +ᶠ r) → p ≤ᶠ q }
    ensures cancelled_below { (p q r : Fraction) → (p +ᶠ r) <ᶠ (q +ᶠ r) → p <ᶠ q }
{}

/// Orders add up, and the sum is strict where one of them is.
pub fn orders_add_up()
    ensures at_most { (p q r s : Fraction) → p ≤ᶠ q → r ≤ᶠ s → (p +ᶠ r) ≤ᶠ (q +ᶠ s) }
    ensures below_first { (p q r s : Fraction) → p <ᶠ q → r ≤ᶠ s → (p +ᶠ r) <ᶠ (q +ᶠ s) }
    ensures below_last { (p q r s : Fraction) → p ≤ᶠ q → r <ᶠ s → (p +ᶠ r) <ᶠ (q +ᶠ s) }
{}

/// A factor of at least 0 keeps the order, and one above 0 keeps the strict order too.
pub fn products_keep_the_order()
    ensures at_most { (p q r : Fraction) → of_int (pos 0) ≤ᶠ r → p ≤ᶠ q → (p *ᶠ r) ≤ᶠ (q *ᶠ r) }
    ensures at_most_from_the_left { (p q r : Fraction) → of_int (pos 0) ≤ᶠ r → p ≤ᶠ q → (r *ᶠ p) ≤ᶠ (r *ᶠ q) }
    ensures below { (p q r : Fraction) → of_int (pos 0) <ᶠ r → p <ᶠ q → (p *ᶠ r) <ᶠ (q *ᶠ r) }
    ensures below_from_the_left { (p q r : Fraction) → of_int (pos 0) <ᶠ r → p <ᶠ q → (r *ᶠ p) <ᶠ (r *ᶠ q) }
    ensures cancelled_at_most { (p q r : Fraction) → of_int (pos 0) <ᶠ r → (p *ᶠ r) ≤ᶠ (q *ᶠ r) → p ≤ᶠ q }
    ensures cancelled_below { (p q r : Fraction) → of_int (pos 0) ≤ᶠ r → (p *ᶠ r) <ᶠ (q *ᶠ r) → p <ᶠ q }
{}

/// A negation and a factor below 0 turn the order round.
pub fn negative_factors_turn_the_order()
    ensures negation_at_most { (p q : Fraction) → p ≤ᶠ q → neg_f q ≤ᶠ neg_f p }
    ensures negation_below { (p q : Fraction) → p <ᶠ q → neg_f q <ᶠ neg_f p }
    ensures factor_at_most { (p q r : Fraction) → r ≤ᶠ of_int (pos 0) → p ≤ᶠ q → (q *ᶠ r) ≤ᶠ (p *ᶠ r) }
    ensures factor_below { (p q r : Fraction) → r <ᶠ of_int (pos 0) → p <ᶠ q → (q *ᶠ r) <ᶠ (p *ᶠ r) }
{}

/// The signs of sums, products, squares and inverses; 0 is below 1.
pub fn signs_of_results()
    ensures sum_at_least_zero { (p q : Fraction) → of_int (pos 0) ≤ᶠ p → of_int (pos 0) ≤ᶠ q → of_int (pos 0) ≤ᶠ (p +ᶠ q) }
    ensures product_at_least_zero { (p q : Fraction) → of_int (pos 0) ≤ᶠ p → of_int (pos 0) ≤ᶠ q → of_int (pos 0) ≤ᶠ (p *ᶠ q) }
    ensures product_above_zero { (p q : Fraction) → of_int (pos 0) <ᶠ p → of_int (pos 0) <ᶠ q → of_int (pos 0) <ᶠ (p *ᶠ q) }
    ensures square_at_least_zero { (p : Fraction) → of_int (pos 0) ≤ᶠ (p *ᶠ p) }
    ensures inverse_above_zero { (p : Fraction) → of_int (pos 0) <ᶠ p → of_int (pos 0) <ᶠ inv_f p }
    ensures inverse_below_zero { (p : Fraction) → p <ᶠ of_int (pos 0) → inv_f p <ᶠ of_int (pos 0) }
    ensures one_above_zero { of_int (pos 0) <ᶠ of_int (pos 1) }
{}

/// The order is the sign of a difference.
pub fn order_is_the_sign_of_a_difference()
    ensures at_most { (p q : Fraction) → (p ≤ᶠ q) ↔ (of_int (pos 0) ≤ᶠ (q -ᶠ p)) }
    ensures below { (p q : Fraction) → (p <ᶠ q) ↔ (of_int (pos 0) <ᶠ (q -ᶠ p)) }
{}

/// A divisor above 0 can be multiplied over to the other side.
pub fn positive_divisors_move_over()
    ensures quotient_at_most { (p q r : Fraction) → of_int (pos 0) <ᶠ r → ((p /ᶠ r) ≤ᶠ q) ↔ (p ≤ᶠ (q *ᶠ r)) }
    ensures quotient_at_least { (p q r : Fraction) → of_int (pos 0) <ᶠ r → (q ≤ᶠ (p /ᶠ r)) ↔ ((q *ᶠ r) ≤ᶠ p) }
    ensures quotient_below { (p q r : Fraction) → of_int (pos 0) <ᶠ r → ((p /ᶠ r) <ᶠ q) ↔ (p <ᶠ (q *ᶠ r)) }
    ensures quotient_above { (p q r : Fraction) → of_int (pos 0) <ᶠ r → (q <ᶠ (p /ᶠ r)) ↔ ((q *ᶠ r) <ᶠ p) }
{}

/// The order is that of cross products, by any pairs of the same ratios.
pub fn order_by_any_ratios()
    ensures at_most { (p q : Fraction) (n m : ℤ) (d e : ℕ) → IsRatio p n d → IsRatio q m e → (p ≤ᶠ q) ↔ ((n *ℤ pos e) ≤ℤ (m *ℤ pos d)) }
    ensures below { (p q : Fraction) (n m : ℤ) (d e : ℕ) → IsRatio p n d → IsRatio q m e → (p <ᶠ q) ↔ ((n *ℤ pos e) <ℤ (m *ℤ pos d)) }
{}

/// The sign of a fraction is that of its numerator.
pub fn signs_by_the_numerator()
    ensures at_least_zero { (p : Fraction) → (of_int (pos 0) ≤ᶠ p) ↔ (pos 0 ≤ℤ p.num) }
    ensures above_zero { (p : Fraction) → (of_int (pos 0) <ᶠ p) ↔ (pos 0 <ℤ p.num) }
    ensures below_zero { (p : Fraction) → (p <ᶠ of_int (pos 0)) ↔ (p.num <ℤ pos 0) }
{}
