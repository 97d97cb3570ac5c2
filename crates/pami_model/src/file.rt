//! What the readers of model files share: their numbers and bounds, a builder's refusal as a fault of the file,
//! and that a file has at most one first fault.

ghost use Rattle.std.specs.Prelude.{◌≡◌, ℕ, Option, IfOk};
ghost use Rattle.pami_frac.specs.Answers.{Follows};
ghost use Rattle.pami_frac.specs.Decimal.{decimal_value};
ghost use Rattle.pami_model.specs.declared.fault.FileKind.{FileKind};
ghost use Rattle.pami_model.specs.FirstFault.{HasOneFault};
ghost use Rattle.pami_model.specs.Number.{judge_limit, judge_number, limit_value};
ghost use Rattle.pami_model.specs.Refusal.{widened};

use crate::fault::{BuildFault, FileKind, What};
use pami_frac::{BoundValue, DecimalFault, Fault, Frac, read_bound, read_decimal};

/// The number that a word spells. `Number` where the word is no decimal, `Wide` where the decimal doesn't fit.
pub fn read_number(word: &[u8]) -> Result<Frac, Fault<FileKind>>
    ensures judged { Follows (judge_number word.now) result }
    ensures value { IfOk result (λ v. v ≡ decimal_value word.now) }
{
    match read_decimal(word) {
        Ok(value) => Ok(value),
        Err(DecimalFault::NotANumber) => Err(Fault::Named(FileKind::Number)),
        Err(DecimalFault::TooWide) => Err(Fault::Named(FileKind::Wide)),
    }
}

/// The bound that a word spells: a decimal, or none above or below. `Number` where the word is neither, `Wide` where the
/// decimal doesn't fit and isn't infinite.
pub fn read_limit(word: &[u8]) -> Result<BoundValue, Fault<FileKind>>
    ensures judged { Follows (judge_limit word.now) result }
    ensures value { IfOk result (λ v. v ≡ limit_value word.now) }
{
    match read_bound(word) {
        Ok(value) => Ok(value),
        Err(DecimalFault::NotANumber) => Err(Fault::Named(FileKind::Number)),
        Err(DecimalFault::TooWide) => Err(Fault::Named(FileKind::Wide)),
    }
}

/// A builder's refusal as what is wrong with a file.
pub fn file_fault(fault: Fault<BuildFault>) -> Fault<FileKind>
    ensures { result ≡ widened fault }
{
    match fault {
        Fault::Named(BuildFault::DuplicateRow { earlier: _ }) => Fault::Named(
            FileKind::DuplicateRow,
        ),
        Fault::Named(BuildFault::DuplicateColumn { earlier: _ }) => {
            Fault::Named(FileKind::DuplicateColumn)
        }
        Fault::Named(BuildFault::DuplicateEntry { column: _, row: _ }) => {
            Fault::Named(FileKind::DuplicateEntry)
        }
        Fault::Named(BuildFault::NameTooLong) => Fault::Named(FileKind::NameLong),
        Fault::Named(
            BuildFault::TooMany {
                what: What::Rows,
                limit: _,
            },
        ) => { Fault::Named(FileKind::TooManyRows) }
        Fault::Named(
            BuildFault::TooMany {
                what: What::Columns,
                limit: _,
            },
        ) => { Fault::Named(FileKind::TooManyColumns) }
        Fault::Named(
            BuildFault::TooMany {
                what: What::Entries,
                limit: _,
            },
        ) => { Fault::Named(FileKind::TooManyEntries) }
        Fault::OutOfMemory => Fault::OutOfMemory,
    }
}

/// A text has at most one first fault.
pub fn one_first_fault()
    ensures { (judged : ℕ → Option FileKind) (line_of : ℕ → ℕ) → HasOneFault judged line_of }
{}
