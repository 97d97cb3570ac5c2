//! Lists put in order, and the two orders of the method: that of candidates and that of infeasible rows.

ghost use Rattle.std.specs.Prelude.{◌≡◌, ◌⊎◌, ℕ, Bool, true, false, List};
ghost use Rattle.std.specs.Cmp.{IsStrictWeakOrder};
ghost use Rattle.std.specs.List.{IsDistinct};
ghost use Rattle.std.specs.List.Sorted.{IsPermutation, IsSortedBy, ties};
ghost use Rattle.pami_theory.specs.Form.{Form};
ghost use Rattle.pami_theory.specs.Order.{ordered};
ghost use Rattle.pami_theory.specs.Ratio.{Leaving, walks_before};
ghost use Rattle.pami_theory.specs.Choice.{InfeasibleRow, is_chosen_before};

/// `ordered` gives the members in order. Where no two of them tie, there is no other list of them in order: whatever
/// sorts them answers this one.
pub fn lists_are_put_in_order<A>()
    ensures permutation { (before : A → A → Bool) (xs : List A) → IsPermutation xs (ordered before xs) }
    ensures sorted { (before : A → A → Bool) (xs : List A) → IsStrictWeakOrder before → IsSortedBy before (ordered before xs) }
    ensures only { (before : A → A → Bool) (xs ys : List A) → IsStrictWeakOrder before → IsDistinct (ties before) xs
        → IsPermutation xs ys → IsSortedBy before ys → ys ≡ ordered before xs }
{}

/// Where each value comes before the other or not, none comes before itself, and the order is transitive.
pub fn strict_orders<A>()
    ensures irreflexive { (before : A → A → Bool) (x : A) → IsStrictWeakOrder before → before x x ≡ false }
    ensures transitive { (before : A → A → Bool) (x y z : A) → IsStrictWeakOrder before
        → before x y ≡ true → before y z ≡ true → before x z ≡ true }
{}

/// Candidates are strictly ordered, and of two variables one comes first.
pub fn candidates_are_ordered()
    ensures strict { (f : Form) (l : Leaving) → IsStrictWeakOrder (walks_before f l) }
    ensures one_first { (f : Form) (l : Leaving) (j k : ℕ) → ¬ (j ≡ k) → (walks_before f l j k ≡ true) ⊎ (walks_before f l k j ≡ true) }
{}

/// Infeasible rows are strictly ordered, and of two places one comes first.
pub fn infeasible_rows_are_ordered()
    ensures strict { IsStrictWeakOrder is_chosen_before }
    ensures one_first { (r s : InfeasibleRow) → ¬ (r.place ≡ s.place) → (is_chosen_before r s ≡ true) ⊎ (is_chosen_before s r ≡ true) }
{}
