//! Solves in product form: those of an elimination, then through the pivots since.

ghost use Rattle.std.specs.Prelude.{◌≡◌, ◌<◌, ℕ, pos, List, All};
ghost use Rattle.pami_algebra.specs.Fraction.{Fraction};
ghost use Rattle.pami_algebra.specs.Operations.{of_int};
ghost use Rattle.pami_linear.specs.Systems.{Solves, Combines, IsRegular, replaced};
ghost use Rattle.pami_linear.specs.Elimination.{EliminationStep, forward, backward};
ghost use Rattle.pami_linear.specs.Chains.{Eliminates};
ghost use Rattle.pami_linear.specs.Products.{ProductPivot, IsProductPivot, AreAfter, transformed_by, gathered, gathered_by};

/// The columns after some pivots are regular where those before are. A solution is transformed by the pivots, the
/// first one first; the right side of a backward solve is gathered by them, the last one first.
pub fn pivots_carry_solutions()
    ensures regular { (m : ℕ) (es : List ProductPivot) (b c : ℕ → ℕ → Fraction)
        → All (IsProductPivot m) es → AreAfter m es b c → IsRegular m b → IsRegular m c }
    ensures forward { (m : ℕ) (es : List ProductPivot) (b c : ℕ → ℕ → Fraction) (x r : ℕ → Fraction)
        → All (IsProductPivot m) es → AreAfter m es b c → Solves m b x r → Solves m c (transformed_by es x) r }
    ensures backward { (m : ℕ) (es : List ProductPivot) (b c : ℕ → ℕ → Fraction) (y d : ℕ → Fraction)
        → All (IsProductPivot m) es → AreAfter m es b c → Combines m b y (gathered_by m es d) → Combines m c y d }
    ensures one_backward { (m : ℕ) (e : ProductPivot) (b : ℕ → ℕ → Fraction) (new y d : ℕ → Fraction)
        → e.place < m → ¬ (e.column e.place ≡ of_int (pos 0)) → Solves m b e.column new
        → Combines m b y (gathered m e d) → Combines m (replaced b e.place new) y d }
{}

/// So the steps of an elimination and the pivots since solve both systems of the columns after them.
pub fn product_forms_solve_both_systems()
    ensures forward { (m : ℕ) (ss : List EliminationStep) (es : List ProductPivot) (b c : ℕ → ℕ → Fraction) (r : ℕ → Fraction)
        → Eliminates m b ss → All (IsProductPivot m) es → AreAfter m es b c → Solves m c (transformed_by es (forward m ss r)) r }
    ensures backward { (m : ℕ) (ss : List EliminationStep) (es : List ProductPivot) (b c : ℕ → ℕ → Fraction) (d : ℕ → Fraction)
        → Eliminates m b ss → All (IsProductPivot m) es → AreAfter m es b c → Combines m c (backward m ss (gathered_by m es d)) d }
{}
