//! What the calls of this crate refuse, and the answer for want of memory that all crates share.

use crate::arithmetic::Refused;
use std::alloc::{AllocError, AllocFailed};
use thiserror::Error;

/// Memory ran out. Nothing is said of which growth was refused.
#[derive(Clone, Copy, Debug, PartialEq, Eq)]
pub struct OutOfMemory;

impl From<AllocError> for OutOfMemory {
    fn from(_e: AllocError) -> OutOfMemory {
        OutOfMemory
    }
}

impl<T: Drop> From<AllocFailed<T>> for OutOfMemory {
    fn from(_e: AllocFailed<T>) -> OutOfMemory {
        OutOfMemory
    }
}

/// A named refusal, or want of memory.
#[derive(Debug, Drop)]
pub enum Fault<E> {
    Named(E),
    OutOfMemory,
}

impl<E: Drop> From<AllocError> for Fault<E> {
    ghost use Rattle.std.specs.Prelude.{◌≡◌};
    ghost use Rattle.pami_frac.specs.declared.fault.Fault.{Fault};

    ghost from_gives = { λ _ e. e ≡ Fault.OutOfMemory };

    fn from(_e: AllocError) -> Fault<E> {
        Fault::OutOfMemory
    }
}

impl<E: Drop, T: Drop> From<AllocFailed<T>> for Fault<E> {
    ghost use Rattle.std.specs.Prelude.{◌≡◌};
    ghost use Rattle.pami_frac.specs.declared.fault.Fault.{Fault};

    ghost from_gives = { λ _ e. e ≡ Fault.OutOfMemory };

    fn from(_e: AllocFailed<T>) -> Fault<E> {
        Fault::OutOfMemory
    }
}

impl<E: Drop> From<OutOfMemory> for Fault<E> {
    ghost use Rattle.std.specs.Prelude.{◌≡◌};
    ghost use Rattle.pami_frac.specs.declared.fault.Fault.{Fault};

    ghost from_gives = { λ _ e. e ≡ Fault.OutOfMemory };

    fn from(_e: OutOfMemory) -> Fault<E> {
        Fault::OutOfMemory
    }
}

impl From<Refused> for Fault<Refused> {
    ghost use Rattle.std.specs.Prelude.{◌≡◌};
    ghost use Rattle.pami_frac.specs.declared.fault.Fault.{Fault};

    ghost from_gives = { λ refused e. e ≡ Fault.Named refused };

    fn from(refused: Refused) -> Fault<Refused> {
        Fault::Named(refused)
    }
}

/// Why two whole numbers make no `Frac`.
#[derive(Clone, Copy, Debug, PartialEq, Eq, Error)]
pub enum NewFault {
    /// The denominator is 0.
    #[error("the denominator is 0")]
    ZeroBelow,
    /// The lowest terms need more than 127 bits.
    #[error("the fraction is too wide")]
    TooWide,
}

/// The text isn't the printed text of a fraction that fits.
#[derive(Clone, Copy, Debug, PartialEq, Eq, Error)]
#[error("not a printed fraction")]
pub struct NotANumber;

/// Why a text is no decimal that fits.
#[derive(Clone, Copy, Debug, PartialEq, Eq, Error)]
pub enum DecimalFault {
    /// The text isn't a decimal.
    #[error("not a decimal")]
    NotANumber,
    /// It is a decimal whose digits, exponent or lowest terms are past the limits.
    #[error("the number is too wide")]
    TooWide,
}
