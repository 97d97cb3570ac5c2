//! A script that isn't refused has the exact value.

ghost use Rattle.std.specs.Prelude.{◌≡◌, ℕ, Ok};
ghost use Rattle.pami_algebra.specs.Fraction.{Fraction};
ghost use Rattle.pami_algebra.specs.Operations.{◌+ᶠ◌, ◌-ᶠ◌, ◌*ᶠ◌};
ghost use Rattle.pami_linear.specs.Sums.{dot};
ghost use Rattle.pami_frac.specs.declared.arithmetic.Op.{Op};
ghost use Rattle.pami_script.specs.Expression.{Expression, value_of, exact, outcome, run};
ghost use Rattle.pami_script.specs.Script.{add_product, sub_product, add_dot, sub_dot};

/// Single operations, and all scripts that are made of them.
pub fn values_are_exact()
    ensures operation { (op : Op) (p q s : Fraction) → outcome op p q ≡ Ok s → s ≡ exact op p q }
    ensures expression { (x : Expression) (s : Fraction) → run x ≡ Ok s → s ≡ value_of x }
{}

/// Sums and differences of products: one step, and over the first n places.
pub fn sums_of_products_are_exact()
    ensures added { (t x y s : Fraction) → add_product t x y ≡ Ok s → s ≡ t +ᶠ x *ᶠ y }
    ensures subtracted { (t x y s : Fraction) → sub_product t x y ≡ Ok s → s ≡ t -ᶠ x *ᶠ y }
    ensures added_up { (n : ℕ) (u v : ℕ → Fraction) (t s : Fraction) → add_dot n u v t ≡ Ok s → s ≡ t +ᶠ dot n u v }
    ensures taken_off { (n : ℕ) (u v : ℕ → Fraction) (t s : Fraction) → sub_dot n u v t ≡ Ok s → s ≡ t -ᶠ dot n u v }
{}
