//! The words of the theory that programs say too.

ghost use Rattle.std.specs.Prelude.{◌≡◌};

use pami_frac::Frac;

/// Where a variable stands: in the basis, at its lower or upper bound, or, free, at 0.
#[derive(Clone, Copy, Debug, PartialEq, Eq)]
pub enum Stand {
    Basic,
    Lower,
    Upper,
    Zero,
}

/// On which side of its bounds a value lies.
#[derive(Clone, Copy, Debug, PartialEq, Eq)]
pub enum Side {
    Above,
    Below,
}

/// How far a value is outside of its bounds: the side, and the distance from the bound that is passed, above 0 where
/// `violation` finds it.
#[derive(Clone, Copy, Debug, PartialEq, Eq)]
pub struct Violation {
    pub side: Side,
    pub amount: Frac,
}

impl Stand {
    ghost use Rattle.pami_theory.specs.Step.{flipped as the_flipped, stand_on};

    /// At the other bound; a variable that stands at none stays where it is.
    pub fn flipped(self) -> Stand
        ensures { result ≡ the_flipped self }
    {
        match self {
            Stand::Basic => Stand::Basic,
            Stand::Lower => Stand::Upper,
            Stand::Upper => Stand::Lower,
            Stand::Zero => Stand::Zero,
        }
    }

    /// At the bound that a value on this side has passed.
    pub fn on(side: Side) -> Stand
        ensures { result ≡ stand_on side }
    {
        match side {
            Side::Above => Stand::Upper,
            Side::Below => Stand::Lower,
        }
    }
}

impl Side {
    ghost use Rattle.pami_theory.specs.Ratio.{toward as the_toward};

    /// An entry of the pivot row, turned so that a positive one lowers the distance where its variable grows.
    pub fn toward(self, entry: Frac) -> Frac
        ensures { result ≡ the_toward self entry }
    {
        match self {
            Side::Above => entry,
            Side::Below => entry.negate(),
        }
    }
}
