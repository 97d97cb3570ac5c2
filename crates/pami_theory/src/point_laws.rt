//! The points of a form by its rows, and values against bounds.

ghost use Rattle.std.specs.Prelude.{◌≡◌, ◌↔◌, ◌⊎◌, ℕ, ◌<◌, None, Some, IsTrue};
ghost use Rattle.pami_algebra.specs.Fraction.{Fraction};
ghost use Rattle.pami_algebra.specs.Operations.{◌-ᶠ◌, ◌<ᶠ◌};
ghost use Rattle.pami_linear.specs.Sums.{dot};
ghost use Rattle.pami_frac.specs.declared.list.Bounds.{Bounds};
ghost use Rattle.pami_theory.specs.Form.{Form, entry, row_variable, zero_f, IsPoint, IsWithin, IsUncrossed};
ghost use Rattle.pami_theory.specs.Fresh.{IsOutside, IsFixed};
ghost use Rattle.pami_theory.specs.declared.words.Side.{Side};
ghost use Rattle.pami_theory.specs.declared.words.Violation.{Violation};
ghost use Rattle.pami_theory.specs.Violation.{violation, IsPast, width, is_fixed};

/// Values of all variables are a point where the value of each row variable is the sum of its row over the columns.
pub fn points_go_by_rows()
    ensures rows { (f : Form) (x : ℕ → Fraction) → IsPoint f x
        ↔ ((i : ℕ) → i < f.rows → x (row_variable f i) ≡ dot f.columns (entry f i) x) }
{}

/// A value is within its bounds exactly where it isn't outside of them, and one of both holds.
pub fn within_is_not_outside()
    ensures within { (l : Bounds) (value : Fraction) → IsWithin l value ↔ (¬ IsOutside l value) }
    ensures one_of_two { (l : Bounds) (value : Fraction) → IsOutside l value ⊎ IsWithin l value }
{}

/// A violation is the side on which a value is past its bound and the distance, which is above 0. Where the bounds are
/// in order it is the only one, and there is none exactly where the value isn't outside.
pub fn violations_are_distances()
    ensures past { (l : Bounds) (value : Fraction) (v : Violation) → violation l value ≡ Some v → IsPast v.side l value v.amount }
    ensures above_zero { (l : Bounds) (value : Fraction) (v : Violation) → violation l value ≡ Some v → zero_f <ᶠ v.amount }
    ensures found { (s : Side) (l : Bounds) (value amount : Fraction) → IsUncrossed l → IsPast s l value amount
        → violation l value ≡ Some (record { side = s; amount = amount }) }
    ensures none { (l : Bounds) (value : Fraction) → violation l value ≡ None ↔ (¬ IsOutside l value) }
{}

/// A width is the distance of two finite bounds of which the lower one is less; the test for fixed bounds decides.
pub fn bounds_are_measured()
    ensures width { (l : Bounds) (w : Fraction) → width l ≡ Some w
        ↔ ((low : Fraction) × (high : Fraction) × (l.low ≡ Some low) × (l.high ≡ Some high) × (low <ᶠ high) × (w ≡ high -ᶠ low)) }
    ensures fixed { (l : Bounds) → IsTrue (is_fixed l) ↔ IsFixed l }
{}
