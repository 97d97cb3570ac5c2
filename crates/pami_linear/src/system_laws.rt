//! What systems of square matrices say, and what a regular matrix has.

ghost use Rattle.std.specs.Prelude.{◌≡◌, ◌<◌, ℕ, pos, List, length};
ghost use Rattle.pami_algebra.specs.Fraction.{Fraction};
ghost use Rattle.pami_algebra.specs.Operations.{◌+ᶠ◌, ◌*ᶠ◌, neg_f, of_int};
ghost use Rattle.pami_linear.specs.Sums.{sum_to, dot, unit};
ghost use Rattle.pami_linear.specs.Lists.{get};
ghost use Rattle.pami_linear.specs.Systems.{Solves, Combines, IsRow, IsInverse, IsLeftInverse, IsRegular};

/// Entries and members below m are all that a system of m rows and m places depends on.
pub fn systems_depend_on_what_is_below_m()
    ensures solves { (m : ℕ) (b c : ℕ → ℕ → Fraction) (x z r s : ℕ → Fraction) → ((k i : ℕ) → k < m → i < m → b k i ≡ c k i)
        → ((k : ℕ) → k < m → x k ≡ z k) → ((i : ℕ) → i < m → r i ≡ s i) → Solves m b x r → Solves m c z s }
    ensures combines { (m : ℕ) (b c : ℕ → ℕ → Fraction) (y z d e : ℕ → Fraction) → ((k i : ℕ) → k < m → i < m → b k i ≡ c k i)
        → ((i : ℕ) → i < m → y i ≡ z i) → ((k : ℕ) → k < m → d k ≡ e k) → Combines m b y d → Combines m c z e }
    ensures inverse { (m : ℕ) (b c v : ℕ → ℕ → Fraction) → ((k i : ℕ) → k < m → i < m → b k i ≡ c k i) → IsInverse m b v → IsInverse m c v }
    ensures regular { (m : ℕ) (b c : ℕ → ℕ → Fraction) → ((k i : ℕ) → k < m → i < m → b k i ≡ c k i) → IsRegular m b → IsRegular m c }
{}

/// Both systems are linear, and a column or a row is reached by a unit vector.
pub fn systems_are_linear()
    ensures solves { (m : ℕ) (b : ℕ → ℕ → Fraction) (x z r s : ℕ → Fraction) (t : Fraction)
        → Solves m b x r → Solves m b z s → Solves m b (λ k. x k +ᶠ t *ᶠ z k) (λ i. r i +ᶠ t *ᶠ s i) }
    ensures combines { (m : ℕ) (b : ℕ → ℕ → Fraction) (y z d e : ℕ → Fraction) (t : Fraction)
        → Combines m b y d → Combines m b z e → Combines m b (λ i. y i +ᶠ t *ᶠ z i) (λ k. d k +ᶠ t *ᶠ e k) }
    ensures nothing { (m : ℕ) (b : ℕ → ℕ → Fraction) → Solves m b (λ k. of_int (pos 0)) (λ i. of_int (pos 0)) }
    ensures column { (m p : ℕ) (b : ℕ → ℕ → Fraction) → p < m → Solves m b (unit p) (b p) }
    ensures row { (m i : ℕ) (b : ℕ → ℕ → Fraction) → i < m → Combines m b (unit i) (λ k. b k i) }
{}

/// y B x is the same in both orders: where B x = r and y B = d, y r = d x. So the row of place p, against a column,
/// is the member at p of the solution with that column.
pub fn both_systems_meet()
    ensures meet { (m : ℕ) (b : ℕ → ℕ → Fraction) (x r y d : ℕ → Fraction) → Solves m b x r → Combines m b y d → dot m y r ≡ dot m d x }
    ensures row_meets_column { (m p : ℕ) (b : ℕ → ℕ → Fraction) (alpha c rho : ℕ → Fraction)
        → p < m → Solves m b alpha c → IsRow m b p rho → dot m rho c ≡ alpha p }
{}

/// Where B is regular, B x = r has exactly one solution for each r, and y B = d exactly one for each d.
pub fn regular_systems_have_one_solution()
    ensures solution { (m : ℕ) (b : ℕ → ℕ → Fraction) (r : ℕ → Fraction) → IsRegular m b → (x : ℕ → Fraction) × Solves m b x r }
    ensures one_solution { (m : ℕ) (b : ℕ → ℕ → Fraction) (x z r : ℕ → Fraction)
        → IsRegular m b → Solves m b x r → Solves m b z r → (k : ℕ) → k < m → x k ≡ z k }
    ensures combination { (m : ℕ) (b : ℕ → ℕ → Fraction) (d : ℕ → Fraction) → IsRegular m b → (y : ℕ → Fraction) × Combines m b y d }
    ensures one_combination { (m : ℕ) (b : ℕ → ℕ → Fraction) (y z d : ℕ → Fraction)
        → IsRegular m b → Combines m b y d → Combines m b z d → (i : ℕ) → i < m → y i ≡ z i }
{}

/// Kept as lists of length m, these solutions are one list each.
pub fn regular_systems_have_one_list()
    ensures solution { (m : ℕ) (b : ℕ → ℕ → Fraction) (r : ℕ → Fraction) → IsRegular m b → (xs : List Fraction) × (length xs ≡ m) × Solves m b (get xs) r }
    ensures one_solution { (m : ℕ) (b : ℕ → ℕ → Fraction) (r : ℕ → Fraction) (xs zs : List Fraction)
        → IsRegular m b → length xs ≡ m → length zs ≡ m → Solves m b (get xs) r → Solves m b (get zs) r → xs ≡ zs }
    ensures combination { (m : ℕ) (b : ℕ → ℕ → Fraction) (d : ℕ → Fraction) → IsRegular m b → (ys : List Fraction) × (length ys ≡ m) × Combines m b (get ys) d }
    ensures one_combination { (m : ℕ) (b : ℕ → ℕ → Fraction) (d : ℕ → Fraction) (ys zs : List Fraction)
        → IsRegular m b → length ys ≡ m → length zs ≡ m → Combines m b (get ys) d → Combines m b (get zs) d → ys ≡ zs }
{}

/// An inverse is one on both sides, and there is one alone; its rows are those of the places, and it solves both
/// systems by sums.
pub fn inverses_are_of_both_sides()
    ensures left { (m : ℕ) (b v : ℕ → ℕ → Fraction) → IsInverse m b v → IsLeftInverse m b v }
    ensures right { (m : ℕ) (b v : ℕ → ℕ → Fraction) → IsLeftInverse m b v → IsInverse m b v }
    ensures one { (m : ℕ) (b v w : ℕ → ℕ → Fraction) → IsInverse m b v → IsInverse m b w → (j k : ℕ) → j < m → k < m → v j k ≡ w j k }
    ensures row { (m p : ℕ) (b v : ℕ → ℕ → Fraction) → p < m → IsInverse m b v → IsRow m b p (λ j. v j p) }
    ensures one_row { (m p j : ℕ) (b v : ℕ → ℕ → Fraction) (rho : ℕ → Fraction) → p < m → j < m → IsRow m b p rho → IsInverse m b v → rho j ≡ v j p }
    ensures solves { (m : ℕ) (b v : ℕ → ℕ → Fraction) (r : ℕ → Fraction) → IsInverse m b v → Solves m b (λ k. sum_to m (λ j. v j k *ᶠ r j)) r }
    ensures combines { (m : ℕ) (b v : ℕ → ℕ → Fraction) (d : ℕ → Fraction) → IsInverse m b v → Combines m b (λ i. sum_to m (λ k. v i k *ᶠ d k)) d }
{}

/// The unit columns and their negations are their own inverses, so that their systems are solved by the right side
/// or by its negation.
pub fn unit_columns_are_regular()
    ensures regular { (m : ℕ) → IsRegular m unit }
    ensures regular_negated { (m : ℕ) → IsRegular m (λ k i. neg_f (unit k i)) }
    ensures inverse { (m : ℕ) → IsInverse m unit unit }
    ensures inverse_negated { (m : ℕ) → IsInverse m (λ k i. neg_f (unit k i)) (λ j k. neg_f (unit j k)) }
    ensures solves { (m : ℕ) (r : ℕ → Fraction) → Solves m unit r r }
    ensures solves_negated { (m : ℕ) (r : ℕ → Fraction) → Solves m (λ k i. neg_f (unit k i)) (λ k. neg_f (r k)) r }
    ensures combines { (m : ℕ) (d : ℕ → Fraction) → Combines m unit d d }
    ensures combines_negated { (m : ℕ) (d : ℕ → Fraction) → Combines m (λ k i. neg_f (unit k i)) (λ i. neg_f (d i)) d }
{}

/// No inverse is left by a row other than 0 that gives 0 with every column, by a combination of the columns other
/// than 0 that gives 0, or by two equal columns.
pub fn dependent_columns_are_not_regular()
    ensures by_row { (m j : ℕ) (b : ℕ → ℕ → Fraction) (y : ℕ → Fraction)
        → j < m → Combines m b y (λ k. of_int (pos 0)) → ¬ (y j ≡ of_int (pos 0)) → ¬ (IsRegular m b) }
    ensures by_column { (m k : ℕ) (b : ℕ → ℕ → Fraction) (x : ℕ → Fraction)
        → k < m → Solves m b x (λ i. of_int (pos 0)) → ¬ (x k ≡ of_int (pos 0)) → ¬ (IsRegular m b) }
    ensures by_equal_columns { (m p q : ℕ) (b : ℕ → ℕ → Fraction)
        → p < m → q < m → ¬ (p ≡ q) → ((i : ℕ) → i < m → b p i ≡ b q i) → ¬ (IsRegular m b) }
{}
