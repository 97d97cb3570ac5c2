//! Leaving out operations with a zero operand changes nothing.

ghost use Rattle.std.specs.Prelude.{◌≡◌, ℕ, ◌<◌, List, length, Result, Ok, pos};
ghost use Rattle.pami_algebra.specs.Fraction.{Fraction};
ghost use Rattle.pami_algebra.specs.Operations.{of_int};
ghost use Rattle.pami_frac.specs.declared.arithmetic.Refused.{Refused};
ghost use Rattle.pami_frac.specs.declared.list.Entry.{Entry};
ghost use Rattle.pami_linear.specs.Lists.{get};
ghost use Rattle.pami_script.specs.Dense.{at, dense, Rising};
ghost use Rattle.pami_script.specs.Script.{each, each_entry, add_product, sub_product, add_dot, sub_dot, add_entries, add_entries_right, sub_entries, sub_entries_right};

/// A product with a zero factor, added or taken off, changes nothing, whatever the other numbers are.
pub fn zero_products_change_nothing()
    ensures added_left { (t y : Fraction) → add_product t (of_int (pos 0)) y ≡ Ok t }
    ensures added_right { (t x : Fraction) → add_product t x (of_int (pos 0)) ≡ Ok t }
    ensures subtracted_left { (t y : Fraction) → sub_product t (of_int (pos 0)) y ≡ Ok t }
    ensures subtracted_right { (t x : Fraction) → sub_product t x (of_int (pos 0)) ≡ Ok t }
{}

/// Over all places, a script whose step changes nothing at a zero is the script over the entries alone: for a
/// state that is a fraction, and for one that is a list of fractions.
pub fn zeros_may_be_left_out()
    ensures number { (n : ℕ) (es : List Entry) (step : ℕ → Fraction → Fraction → Result Fraction Refused) (t : Fraction) → Rising 0 n es → ((p : ℕ) (s : Fraction) → step p (of_int (pos 0)) s ≡ Ok s) → each n 0 (λ p s. step p (at es p) s) t ≡ each_entry es (λ e s. step e.place e.value s) t }
    ensures vector { (n : ℕ) (es : List Entry) (step : ℕ → Fraction → List Fraction → Result (List Fraction) Refused) (xs : List Fraction) → Rising 0 n es → ((p : ℕ) (ys : List Fraction) → step p (of_int (pos 0)) ys ≡ Ok ys) → each n 0 (λ p ys. step p (at es p) ys) xs ≡ each_entry es (λ e ys. step e.place e.value ys) xs }
{}

/// Sums of products over all places are those over the entries of either factor.
pub fn sparse_sums_are_dense()
    ensures added_left { (n : ℕ) (es : List Entry) (v : ℕ → Fraction) (t : Fraction) → Rising 0 n es → add_dot n (at es) v t ≡ add_entries es v t }
    ensures added_right { (n : ℕ) (u : ℕ → Fraction) (es : List Entry) (t : Fraction) → Rising 0 n es → add_dot n u (at es) t ≡ add_entries_right u es t }
    ensures subtracted_left { (n : ℕ) (es : List Entry) (v : ℕ → Fraction) (t : Fraction) → Rising 0 n es → sub_dot n (at es) v t ≡ sub_entries es v t }
    ensures subtracted_right { (n : ℕ) (u : ℕ → Fraction) (es : List Entry) (t : Fraction) → Rising 0 n es → sub_dot n u (at es) t ≡ sub_entries_right u es t }
{}

/// The whole vector has the values at its places.
pub fn vectors_have_their_entries()
    ensures length { (n : ℕ) (es : List Entry) → length (dense n es) ≡ n }
    ensures member { (n : ℕ) (es : List Entry) (p : ℕ) → p < n → get (dense n es) p ≡ at es p }
{}
