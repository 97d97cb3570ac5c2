//! How the weights of the theory go by place.

ghost use Rattle.std.specs.Prelude.{◌≡◌, ℕ, List};
ghost use Rattle.pami_algebra.specs.Fraction.{Fraction};
ghost use Rattle.pami_linear.specs.Lists.{get};
ghost use Rattle.pami_theory.specs.Weights.{weight_at, weight_after};
ghost use Rattle.pami_devex.specs.Weights.{IsWeight, weight_beside, weight_at_pivot};

/// Behind a pivot at place `p` with the column `alpha` another place has the weight that its own entry and the pivot's
/// make, and the place itself that of its own entry. Both are in the range of weights where the old ones are.
pub fn weights_go_by_place()
    ensures beside { (alpha : List Fraction) (p : ℕ) (weights : List ℕ) (i : ℕ) → ¬ (i ≡ p) → weight_after alpha p weights i ≡ weight_beside (weight_at weights i) (get alpha i) (get alpha p) (weight_at weights p) }
    ensures pivot { (alpha : List Fraction) (p : ℕ) (weights : List ℕ) → weight_after alpha p weights p ≡ weight_at_pivot (weight_at weights p) (get alpha p) }
    ensures beside_range { (weight : ℕ) (alpha_i alpha_p : Fraction) (weight_p : ℕ) → IsWeight weight → IsWeight (weight_beside weight alpha_i alpha_p weight_p) }
    ensures pivot_range { (weight : ℕ) (alpha_p : Fraction) → IsWeight weight → IsWeight (weight_at_pivot weight alpha_p) }
{}
