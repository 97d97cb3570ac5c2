//! What a certificate holds, and what is wrong with a text that isn't one.

use pami_frac::{Fault, Frac, FracList};
use thiserror::Error;

/// What shows an answer to be right, with no basis in it. The lists `x` and `d` go by column, `r` and `y` by row, in
/// the model's order.
#[derive(Debug, Drop)]
pub enum Cert {
    /// Values (`x` and `r`), reduced costs and dual values; the objective in the file's own sense, `None` where it is
    /// told as too wide.
    Optimal {
        objective: Option<Frac>,
        x: FracList,
        d: FracList,
        r: FracList,
        y: FracList,
    },
    /// A combination of the rows that no point within the bounds meets.
    Infeasible {
        y: FracList,
    },
    /// A direction along which the cost falls without end.
    DualInfeasible {
        x: FracList,
        r: FracList,
    },
}

/// What a certificate is to show: the last word of its first line.
#[derive(Clone, Copy, Debug, PartialEq, Eq)]
pub(crate) enum Claim {
    Optimal,
    Infeasible,
    DualInfeasible,
}

/// What is wrong with a text that should be a certificate.
#[derive(Clone, Copy, Debug, PartialEq, Eq)]
pub enum CertKind {
    /// No line begins a certificate.
    Absent,
    /// The count of words or the first word isn't the one that is due, or the claim is none of the three.
    Word,
    /// Another name than the one that is due.
    Name,
    /// No printed fraction.
    Number,
    /// The text ends before the line `end`.
    EndMissing,
    /// More bytes than the limit.
    TooLong,
}

impl CertKind {
    ghost use Rattle.std.specs.Prelude.{◌≡◌};
    ghost use Rattle.pami_cert.specs.CertKinds.{cert_kind_word};

    /// The word by which a refusal tells this kind.
    pub fn word(&self) -> &'static [u8]
        ensures { result.now ≡ cert_kind_word self.now }
    {
        match self {
            CertKind::Absent => b"none",
            CertKind::Word => b"word",
            CertKind::Name => b"name",
            CertKind::Number => b"number",
            CertKind::EndMissing => b"end-missing",
            CertKind::TooLong => b"too-long",
        }
    }
}

/// The first thing that is wrong with a text, and its line, counted from 1. A text without a certificate or without its
/// end has it in the line behind its last one, and one that is too long in line 0.
#[derive(Clone, Copy, Debug, PartialEq, Eq, Error)]
#[error("no certificate of this model")]
pub struct CertFault {
    pub line: u32,
    pub kind: CertKind,
}

impl From<CertFault> for Fault<CertFault> {
    ghost use Rattle.std.specs.Prelude.{◌≡◌};
    ghost use Rattle.pami_frac.specs.declared.fault.Fault.{Fault};

    ghost from_gives = { λ fault e. e ≡ Fault.Named fault };

    fn from(fault: CertFault) -> Fault<CertFault> {
        Fault::Named(fault)
    }
}
