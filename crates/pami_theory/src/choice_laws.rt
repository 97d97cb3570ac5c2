//! The choice of rows: which are infeasible, and how the first of them are kept in order.

ghost use Rattle.std.specs.Prelude.{◌≡◌, ◌↔◌, ℕ, ◌<◌, Bool, List, [], ◌∷◌, ◌++◌, take, None, Some};
ghost use Rattle.std.specs.Cmp.{IsStrictWeakOrder};
ghost use Rattle.std.specs.List.{Contains, IsDistinct};
ghost use Rattle.std.specs.List.Sorted.{ties};
ghost use Rattle.pami_theory.specs.Form.{Form, limits};
ghost use Rattle.pami_theory.specs.Basis.{Basis, head_at};
ghost use Rattle.pami_theory.specs.Fresh.{Fresh, value_at_place};
ghost use Rattle.pami_theory.specs.Violation.{violation};
ghost use Rattle.pami_theory.specs.Order.{put_in, ordered};
ghost use Rattle.pami_theory.specs.Choice.{InfeasibleRow, infeasible_at, is_chosen_before, infeasible_rows};

/// The infeasible rows are those of the places whose variable is outside, each once; no two of them tie, so that a sort
/// of them in any order answers the order of choice. There is none exactly where no place is violated.
pub fn infeasible_rows_are_those_of_places()
    ensures rows { (f : Form) (b : Basis) (s : Fresh) (weights : List ℕ) (r : InfeasibleRow) → Contains (infeasible_rows f b s weights) r
        ↔ ((r.place < f.rows) × (infeasible_at f b s weights r.place ≡ Some r)) }
    ensures no_ties { (f : Form) (b : Basis) (s : Fresh) (weights : List ℕ) → IsDistinct (ties is_chosen_before) (infeasible_rows f b s weights) }
    ensures none { (f : Form) (b : Basis) (s : Fresh) (weights : List ℕ) → infeasible_rows f b s weights ≡ []
        ↔ ((p : ℕ) → p < f.rows → violation (limits f (head_at b p)) (value_at_place b s p) ≡ None) }
{}

/// One more member is put into the members in order, where none tie; and for the first n of the new list only the
/// first n of the old one count.
pub fn the_first_are_kept<A>()
    ensures one_more { (before : A → A → Bool) (xs : List A) (x : A) → IsStrictWeakOrder before → IsDistinct (ties before) (xs ++ x ∷ [])
        → ordered before (xs ++ x ∷ []) ≡ put_in before x (ordered before xs) }
    ensures first_ones { (before : A → A → Bool) (n : ℕ) (x : A) (ys : List A) → take n (put_in before x ys) ≡ take n (put_in before x (take n ys)) }
{}
