//! Which script of a major's list is refused.

ghost use Rattle.std.specs.Prelude.{◌≡◌, ◌↔◌, List, ◌∷◌, ◌++◌, None, Some};
ghost use Rattle.std.specs.List.{All};
ghost use Rattle.pami_method.specs.Task.{Task};
ghost use Rattle.pami_method.specs.declared.words.Place.{Place};
ghost use Rattle.pami_method.specs.Work.{first_refused};

/// There is no refusal exactly where every script fits; else it is that of the first script that doesn't fit.
pub fn the_first_refusal_counts()
    ensures none { (ts : List Task) → first_refused ts ≡ None ↔ All (λ (t : Task). t.refusal ≡ None) ts }
    ensures first { (ts : List Task) (r : Place) → first_refused ts ≡ Some r
        ↔ ((before : List Task) × (t : Task) × (after : List Task) × (ts ≡ before ++ t ∷ after)
        × All (λ (u : Task). u.refusal ≡ None) before × (t.spot ≡ r.task) × (t.refusal ≡ Some r.refused)) }
{}

/// Scripts that fit may be left out at the beginning.
pub fn scripts_that_fit_are_passed()
    ensures behind { (ts us : List Task) → All (λ (t : Task). t.refusal ≡ None) ts → first_refused (ts ++ us) ≡ first_refused us }
{}
