//! Scripts put behind one another, and where they stop.

ghost use Rattle.std.specs.Prelude.{◌≡◌, ◌⊎◌, ◌↔◌, ℕ, ◌+◌, ◌<◌, Result, Ok, Err};
ghost use Rattle.pami_algebra.specs.Fraction.{Fraction};
ghost use Rattle.pami_frac.specs.declared.arithmetic.Refused.{Refused};
ghost use Rattle.pami_script.specs.Script.{then, each};

/// Going on with a value is a composition with units, and stops at the first refusal.
pub fn scripts_go_on()
    ensures value_first { (p : Fraction) (f : Fraction → Result Fraction Refused) → then (Ok p) f ≡ f p }
    ensures value_last { (r : Result Fraction Refused) → then r (λ p. Ok p) ≡ r }
    ensures associative { (r : Result Fraction Refused) (f g : Fraction → Result Fraction Refused) → then (then r f) g ≡ then r (λ p. then (f p) g) }
    ensures stopped { (e : Refused) (f : Fraction → Result Fraction Refused) → then (Err e) f ≡ Err e }
{}

/// A script of two parts has a value where both have, and its refusal is the first part's, or the second's after a
/// value of the first.
pub fn scripts_answer_by_their_parts()
    ensures value { (r : Result Fraction Refused) (f : Fraction → Result Fraction Refused) (s : Fraction) → (then r f ≡ Ok s) ↔ ((p : Fraction) × ((r ≡ Ok p) × (f p ≡ Ok s))) }
    ensures refused { (r : Result Fraction Refused) (f : Fraction → Result Fraction Refused) (e : Refused) → (then r f ≡ Err e) ↔ ((r ≡ Err e) ⊎ ((p : Fraction) × ((r ≡ Ok p) × (f p ≡ Err e)))) }
{}

/// A refusal of a script over places is that of one step, after a value of all the steps before it.
pub fn first_refusal_stops()
    ensures first { (n k : ℕ) (step : ℕ → Fraction → Result Fraction Refused) (t : Fraction) (e : Refused) → each n k step t ≡ Err e → (i : ℕ) × ((i < n) × ((s : Fraction) × ((each i k step t ≡ Ok s) × (step (k + i) s ≡ Err e)))) }
{}
