//! The laws of sums, differences, products and quotients, for results that fit.

ghost use Rattle.std.specs.Prelude.{◌≡◌, ◌↔◌, Ok, Err, IsTrue, IsFalse, pos};
ghost use Rattle.pami_algebra.specs.Fraction.{Fraction};
ghost use Rattle.pami_algebra.specs.Operations.{◌+ᶠ◌, ◌*ᶠ◌, ◌-ᶠ◌, ◌/ᶠ◌, neg_f, inv_f, of_int, ◌≤ᶠ◌, ◌<ᶠ◌};
ghost use Rattle.pami_frac.specs.Arithmetic.{add_outcome, sub_outcome, mul_outcome, div_outcome, add_fits, mul_fits};
ghost use Rattle.pami_frac.specs.declared.arithmetic.Op.{Op};
ghost use Rattle.pami_frac.specs.declared.arithmetic.Refused.{Refused};

/// A result that fits is the exact one.
pub fn results_are_exact()
    ensures sum { (p q s : Fraction) → add_outcome p q ≡ Ok s → s ≡ p +ᶠ q }
    ensures difference { (p q s : Fraction) → sub_outcome p q ≡ Ok s → s ≡ p -ᶠ q }
    ensures product { (p q s : Fraction) → mul_outcome p q ≡ Ok s → s ≡ p *ᶠ q }
    ensures quotient { (p q s : Fraction) → div_outcome p q ≡ Ok s → s ≡ p /ᶠ q }
{}

/// An operation with a zero operand fits, whatever the other operand is.
pub fn zero_operands_fit()
    ensures sum_left { (q : Fraction) → add_outcome (of_int (pos 0)) q ≡ Ok q }
    ensures sum_right { (p : Fraction) → add_outcome p (of_int (pos 0)) ≡ Ok p }
    ensures difference_left { (q : Fraction) → sub_outcome (of_int (pos 0)) q ≡ Ok (neg_f q) }
    ensures difference_right { (p : Fraction) → sub_outcome p (of_int (pos 0)) ≡ Ok p }
    ensures product_left { (q : Fraction) → mul_outcome (of_int (pos 0)) q ≡ Ok (of_int (pos 0)) }
    ensures product_right { (p : Fraction) → mul_outcome p (of_int (pos 0)) ≡ Ok (of_int (pos 0)) }
    ensures quotient_left { (q : Fraction) → div_outcome (of_int (pos 0)) q ≡ Ok (of_int (pos 0)) }
{}

/// A refusal keeps the operation and both operands as they were given, and comes only where the result doesn't fit.
pub fn refusals_keep_their_operands()
    ensures sum { (p q : Fraction) (r : Refused) → add_outcome p q ≡ Err r → (r ≡ record { op = Op.Add; left = p; right = q }) × IsFalse (add_fits p q) }
    ensures difference { (p q : Fraction) (r : Refused) → sub_outcome p q ≡ Err r → (r ≡ record { op = Op.Sub; left = p; right = q }) × IsFalse (add_fits p (neg_f q)) }
    ensures product { (p q : Fraction) (r : Refused) → mul_outcome p q ≡ Err r → (r ≡ record { op = Op.Mul; left = p; right = q }) × IsFalse (mul_fits p q) }
    ensures quotient { (p q : Fraction) (r : Refused) → div_outcome p q ≡ Err r → (r ≡ record { op = Op.Div; left = p; right = q }) × IsFalse (mul_fits p (inv_f q)) }
{}

/// Sums that fit: commutative, associative where all parts fit, and with a negation that goes through.
pub fn sums_that_fit()
    ensures commutative { (p q s : Fraction) → add_outcome p q ≡ Ok s → add_outcome q p ≡ Ok s }
    ensures associative { (p q r s t u v : Fraction) → add_outcome p q ≡ Ok s → add_outcome s r ≡ Ok t → add_outcome q r ≡ Ok u → add_outcome p u ≡ Ok v → t ≡ v }
    ensures negation { (p q s : Fraction) → add_outcome p q ≡ Ok s → add_outcome (neg_f p) (neg_f q) ≡ Ok (neg_f s) }
    ensures negation_cancels { (p s : Fraction) → add_outcome p (neg_f p) ≡ Ok s → s ≡ of_int (pos 0) }
    ensures at_most { (p q r s t : Fraction) → p ≤ᶠ q → add_outcome p r ≡ Ok s → add_outcome q r ≡ Ok t → s ≤ᶠ t }
    ensures below { (p q r s t : Fraction) → p <ᶠ q → add_outcome p r ≡ Ok s → add_outcome q r ≡ Ok t → s <ᶠ t }
{}

/// Differences that fit are sums with a negation that fit, and they undo sums.
pub fn differences_that_fit()
    ensures by_sums { (p q s : Fraction) → (sub_outcome p q ≡ Ok s) ↔ (add_outcome p (neg_f q) ≡ Ok s) }
    ensures undone { (p q s t : Fraction) → add_outcome p q ≡ Ok s → sub_outcome s q ≡ Ok t → t ≡ p }
    ensures at_most { (p q r s t : Fraction) → p ≤ᶠ q → sub_outcome p r ≡ Ok s → sub_outcome q r ≡ Ok t → s ≤ᶠ t }
{}

/// Products that fit: commutative, and associative and distributive where all parts fit.
pub fn products_that_fit()
    ensures commutative { (p q s : Fraction) → mul_outcome p q ≡ Ok s → mul_outcome q p ≡ Ok s }
    ensures associative { (p q r s t u v : Fraction) → mul_outcome p q ≡ Ok s → mul_outcome s r ≡ Ok t → mul_outcome q r ≡ Ok u → mul_outcome p u ≡ Ok v → t ≡ v }
    ensures distributive { (p q r s t u v w : Fraction) → add_outcome q r ≡ Ok s → mul_outcome p s ≡ Ok t → mul_outcome p q ≡ Ok u → mul_outcome p r ≡ Ok v → add_outcome u v ≡ Ok w → t ≡ w }
    ensures one_is_neutral { (p s : Fraction) → mul_outcome p (of_int (pos 1)) ≡ Ok s → s ≡ p }
    ensures at_most { (p q r s t : Fraction) → of_int (pos 0) ≤ᶠ r → p ≤ᶠ q → mul_outcome p r ≡ Ok s → mul_outcome q r ≡ Ok t → s ≤ᶠ t }
    ensures below { (p q r s t : Fraction) → of_int (pos 0) <ᶠ r → p <ᶠ q → mul_outcome p r ≡ Ok s → mul_outcome q r ≡ Ok t → s <ᶠ t }
{}

/// Quotients that fit are products with the inverse that fit, and by what isn't 0 they undo products.
pub fn quotients_that_fit()
    ensures by_products { (p q s : Fraction) → (div_outcome p q ≡ Ok s) ↔ (mul_outcome p (inv_f q) ≡ Ok s) }
    ensures undone { (p q s t : Fraction) → ¬ (q ≡ of_int (pos 0)) → mul_outcome p q ≡ Ok s → div_outcome s q ≡ Ok t → t ≡ p }
    ensures multiplied_again { (p q s t : Fraction) → ¬ (q ≡ of_int (pos 0)) → div_outcome p q ≡ Ok s → mul_outcome s q ≡ Ok t → t ≡ p }
{}
