//! What holds of every text.

ghost use Rattle.std.specs.Prelude.{◌≡◌, ℕ, List, [], ◌∷◌, ◌++◌};
ghost use Rattle.pami_algebra.specs.Fraction.{Fraction};
ghost use Rattle.pami_theory.specs.Certificate.{HoldsObjective};
ghost use Rattle.pami_lines.specs.Line.{line, text};
ghost use Rattle.pami_lines.specs.Certificate.{Named, objective_in};

/// The text of lines is that of the first of them and that of the others behind it; a single line is its own text.
pub fn texts_join()
    ensures joined { (xs ys : List (List (List ℕ))) → text (xs ++ ys) ≡ text xs ++ text ys }
    ensures one { (words : List (List ℕ)) → text (words ∷ []) ≡ line words }
{}

/// The objective that a text tells is the constant and the sum of the costs times the values; where an operation of that
/// sum doesn't fit it tells none.
pub fn told_objectives_are_exact()
    ensures objective { (m : Named) (x : ℕ → Fraction)
        → HoldsObjective m.constant m.counts.columns m.cost x (objective_in m x) }
{}
