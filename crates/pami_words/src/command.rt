//! What the words of a call ask.

use pami_edge::Word;
use pami_frac::Fault;
use pami_method::Options;
use thiserror::Error;

/// A command with what it is given.
#[derive(Debug, Drop)]
pub enum Command {
    /// Solve the model of FILE, which is in the CPLEX LP format where `lp` says so and else in MPS, with these options, and
    /// behind an optimal answer tell its ranges where they are wanted.
    Solve {
        file: Word,
        lp: bool,
        options: Options,
        ranging: bool,
    },
    /// Check the certificate of CERT against the model of FILE, which is in the CPLEX LP format where `lp` says so and
    /// else in MPS.
    Check {
        file: Word,
        cert: Word,
        lp: bool,
    },
    /// Solve the transport model that this seed draws, with so many sources and sinks, and tell a summary.
    Trial {
        seed: u32,
        sources: u32,
        sinks: u32,
    },
}

/// The words stand in no row of the table.
#[derive(Clone, Copy, Debug, PartialEq, Eq, Error)]
#[error("bad words")]
pub struct BadWords;

impl From<BadWords> for Fault<BadWords> {
    ghost use Rattle.std.specs.Prelude.{◌≡◌};
    ghost use Rattle.pami_frac.specs.declared.fault.Fault.{Fault};

    ghost from_gives = { λ bad e. e ≡ Fault.Named bad };

    fn from(bad: BadWords) -> Fault<BadWords> {
        Fault::Named(bad)
    }
}
