//! What sums, scalar products and unit vectors keep to.

ghost use Rattle.std.specs.Prelude.{◌≡◌, ◌<◌, ◌+◌, ℕ, pos};
ghost use Rattle.pami_algebra.specs.Fraction.{Fraction};
ghost use Rattle.pami_algebra.specs.Operations.{◌+ᶠ◌, ◌*ᶠ◌, neg_f, of_int, ◌≤ᶠ◌, ◌<ᶠ◌};
ghost use Rattle.pami_linear.specs.Sums.{sum_to, dot, unit};

/// Sums go term by term: equal terms, zeros, sums, negations and multiples.
pub fn sums_are_linear()
    ensures same { (n : ℕ) (f g : ℕ → Fraction) → ((i : ℕ) → i < n → f i ≡ g i) → sum_to n f ≡ sum_to n g }
    ensures zeros { (n : ℕ) → sum_to n (λ i. of_int (pos 0)) ≡ of_int (pos 0) }
    ensures sum { (n : ℕ) (f g : ℕ → Fraction) → sum_to n (λ i. f i +ᶠ g i) ≡ sum_to n f +ᶠ sum_to n g }
    ensures negation { (n : ℕ) (f : ℕ → Fraction) → sum_to n (λ i. neg_f (f i)) ≡ neg_f (sum_to n f) }
    ensures multiple { (n : ℕ) (k : Fraction) (f : ℕ → Fraction) → sum_to n (λ i. k *ᶠ f i) ≡ k *ᶠ sum_to n f }
{}

/// Sums can be taken in another order, and in two parts.
pub fn sums_can_be_regrouped()
    ensures swapped { (m n : ℕ) (f : ℕ → ℕ → Fraction) → sum_to m (λ i. sum_to n (f i)) ≡ sum_to n (λ j. sum_to m (λ i. f i j)) }
    ensures in_two_parts { (m n : ℕ) (f : ℕ → Fraction) → sum_to (m + n) f ≡ sum_to m f +ᶠ sum_to n (λ i. f (m + i)) }
{}

/// A unit vector is 1 at its index and 0 elsewhere, and a sum against it is the term at that index.
pub fn unit_vectors_pick_a_term()
    ensures here { (p : ℕ) → unit p p ≡ of_int (pos 1) }
    ensures elsewhere { (p k : ℕ) → ¬ (p ≡ k) → unit p k ≡ of_int (pos 0) }
    ensures swapped { (p k : ℕ) → unit p k ≡ unit k p }
    ensures picked { (n p : ℕ) (f : ℕ → Fraction) → p < n → sum_to n (λ k. unit p k *ᶠ f k) ≡ f p }
    ensures picked_negated { (n p : ℕ) (u : ℕ → Fraction) → p < n → dot n u (λ k. neg_f (unit p k)) ≡ neg_f (u p) }
{}

/// Scalar products are symmetric and linear.
pub fn scalar_products_are_bilinear()
    ensures commutative { (m : ℕ) (u v : ℕ → Fraction) → dot m u v ≡ dot m v u }
    ensures none { (n : ℕ) (u v : ℕ → Fraction) → ((i : ℕ) → i < n → u i ≡ of_int (pos 0)) → dot n u v ≡ of_int (pos 0) }
    ensures sum { (m : ℕ) (u v w : ℕ → Fraction) → dot m (λ i. u i +ᶠ v i) w ≡ dot m u w +ᶠ dot m v w }
    ensures multiple { (m : ℕ) (k : Fraction) (u w : ℕ → Fraction) → dot m (λ i. k *ᶠ u i) w ≡ k *ᶠ dot m u w }
{}

/// y A x is the same by rows and by columns, for a matrix A of m rows and n columns with `a j` its column j: y
/// times the sums of the rows, and the columns' products with y times x.
pub fn a_matrix_is_summed_in_both_orders()
    ensures { (m n : ℕ) (a : ℕ → ℕ → Fraction) (y x : ℕ → Fraction)
        → dot m y (λ i. sum_to n (λ j. a j i *ᶠ x j)) ≡ dot n (λ j. dot m y (a j)) x }
{}

/// Sums keep an order of their terms. Of terms that are at least 0 each is at most the sum; the sum is at least 0,
/// and it is 0 only where they all are.
pub fn sums_keep_the_order()
    ensures at_most { (n : ℕ) (f g : ℕ → Fraction) → ((i : ℕ) → i < n → f i ≤ᶠ g i) → sum_to n f ≤ᶠ sum_to n g }
    ensures at_least_zero { (n : ℕ) (f : ℕ → Fraction) → ((i : ℕ) → i < n → of_int (pos 0) ≤ᶠ f i) → of_int (pos 0) ≤ᶠ sum_to n f }
    ensures each_term { (n p : ℕ) (f : ℕ → Fraction) → p < n → ((i : ℕ) → i < n → of_int (pos 0) ≤ᶠ f i) → f p ≤ᶠ sum_to n f }
    ensures zero_by_zeros { (n p : ℕ) (f : ℕ → Fraction) → p < n → ((i : ℕ) → i < n → of_int (pos 0) ≤ᶠ f i) → sum_to n f ≡ of_int (pos 0) → f p ≡ of_int (pos 0) }
    ensures above_zero { (n p : ℕ) (f : ℕ → Fraction) → p < n → ((i : ℕ) → i < n → of_int (pos 0) ≤ᶠ f i) → of_int (pos 0) <ᶠ f p → of_int (pos 0) <ᶠ sum_to n f }
{}
