//! A basis after a pivot: one of its columns replaced by another.

ghost use Rattle.std.specs.Prelude.{◌≡◌, ◌<◌, ℕ, pos};
ghost use Rattle.pami_algebra.specs.Fraction.{Fraction};
ghost use Rattle.pami_algebra.specs.Operations.{◌+ᶠ◌, ◌-ᶠ◌, ◌*ᶠ◌, ◌/ᶠ◌, neg_f, of_int};
ghost use Rattle.pami_linear.specs.Sums.{dot};
ghost use Rattle.pami_linear.specs.Systems.{Solves, Combines, IsRow, IsInverse, IsRegular, replaced, stepped};
ghost use Rattle.pami_linear.specs.Active.{set_at};

/// With alpha the solution for the new column c, a regular basis stays regular where alpha isn't 0 at the pivot's
/// place, and no basis with c at that place is regular where it is 0.
pub fn a_pivot_keeps_a_basis_regular()
    ensures regular { (m p : ℕ) (b : ℕ → ℕ → Fraction) (c alpha : ℕ → Fraction)
        → p < m → Solves m b alpha c → ¬ (alpha p ≡ of_int (pos 0)) → IsRegular m b → IsRegular m (replaced b p c) }
    ensures only { (m p : ℕ) (b : ℕ → ℕ → Fraction) (c alpha : ℕ → Fraction)
        → p < m → Solves m b alpha c → IsRegular m (replaced b p c) → ¬ (alpha p ≡ of_int (pos 0)) }
    ensures inverse { (m p : ℕ) (b v : ℕ → ℕ → Fraction) (c alpha : ℕ → Fraction)
        → p < m → Solves m b alpha c → ¬ (alpha p ≡ of_int (pos 0)) → IsInverse m b v
        → IsInverse m (replaced b p c) (λ j. stepped p alpha (v j p /ᶠ alpha p) (v j)) }
{}

/// A solution for the basis becomes one for the next basis by a step theta with theta alpha_p = x_p.
pub fn solutions_after_a_pivot()
    ensures step { (m p : ℕ) (b : ℕ → ℕ → Fraction) (c alpha x r : ℕ → Fraction) (theta : Fraction)
        → p < m → Solves m b alpha c → Solves m b x r → theta *ᶠ alpha p ≡ x p → Solves m (replaced b p c) (stepped p alpha theta x) r }
    ensures quotient { (m p : ℕ) (b : ℕ → ℕ → Fraction) (c alpha x r : ℕ → Fraction)
        → p < m → Solves m b alpha c → Solves m b x r → ¬ (alpha p ≡ of_int (pos 0)) → Solves m (replaced b p c) (stepped p alpha (x p /ᶠ alpha p) x) r }
{}

/// The row of another place loses a multiple of the pivot's row; that row itself is divided by its product with the
/// new column.
pub fn rows_after_a_pivot()
    ensures another { (m p i : ℕ) (b : ℕ → ℕ → Fraction) (c rho_p rho_i : ℕ → Fraction)
        → ¬ (p ≡ i) → IsRow m b p rho_p → IsRow m b i rho_i → ¬ (dot m rho_p c ≡ of_int (pos 0))
        → IsRow m (replaced b p c) i (λ h. rho_i h +ᶠ neg_f ((dot m rho_i c /ᶠ dot m rho_p c) *ᶠ rho_p h)) }
    ensures its_own { (m p : ℕ) (b : ℕ → ℕ → Fraction) (c rho : ℕ → Fraction)
        → IsRow m b p rho → ¬ (dot m rho c ≡ of_int (pos 0)) → IsRow m (replaced b p c) p (λ h. rho h /ᶠ dot m rho c) }
{}

/// y B = d and a multiple t of the pivot's row: the products with the columns that stay are d as before, and that
/// with the new column rises by t times the pivot; one multiple gives it any value v.
pub fn combinations_after_a_pivot()
    ensures multiple { (m p : ℕ) (b : ℕ → ℕ → Fraction) (c y d rho : ℕ → Fraction) (t : Fraction)
        → Combines m b y d → IsRow m b p rho
        → Combines m (replaced b p c) (λ i. y i +ᶠ t *ᶠ rho i) (set_at p (dot m y c +ᶠ t *ᶠ dot m rho c) d) }
    ensures value { (m p : ℕ) (b : ℕ → ℕ → Fraction) (c y d rho : ℕ → Fraction) (v : Fraction)
        → Combines m b y d → IsRow m b p rho → ¬ (dot m rho c ≡ of_int (pos 0))
        → Combines m (replaced b p c) (λ i. y i +ᶠ ((v -ᶠ dot m y c) /ᶠ dot m rho c) *ᶠ rho i) (set_at p v d) }
    ensures given { (m p : ℕ) (b : ℕ → ℕ → Fraction) (c y d : ℕ → Fraction)
        → dot m y c ≡ d p → ((k : ℕ) → k < m → ¬ (p ≡ k) → dot m y (b k) ≡ d k) → Combines m (replaced b p c) y d }
{}
