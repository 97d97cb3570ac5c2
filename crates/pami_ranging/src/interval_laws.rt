//! Intervals: what is within them.

ghost use Rattle.std.specs.Prelude.{◌↔◌, ℕ, ◌<◌};
ghost use Rattle.pami_algebra.specs.Fraction.{Fraction};
ghost use Rattle.pami_algebra.specs.Operations.{◌+ᶠ◌, neg_f};
ghost use Rattle.pami_theory.specs.Form.{IsWithin};
ghost use Rattle.pami_frac.specs.declared.list.Bounds.{Bounds};
ghost use Rattle.pami_ranging.specs.Intervals.{all_to, moved_by, negated};

/// The greatest low end and the least high end of intervals are those of what is within all of them; an interval that
/// is moved or negated has the members that are.
pub fn ends_of_intervals()
    ensures all { (n : ℕ) (l : ℕ → Bounds) (t : Fraction) → IsWithin (all_to n l) t ↔ ((k : ℕ) → k < n → IsWithin (l k) t) }
    ensures moved { (c t : Fraction) (l : Bounds) → IsWithin (moved_by c l) (c +ᶠ t) ↔ IsWithin l t }
    ensures negated { (t : Fraction) (l : Bounds) → IsWithin (negated l) (neg_f t) ↔ IsWithin l t }
{}
