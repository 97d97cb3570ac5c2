//! The values that options are given.

ghost use Rattle.std.specs.Prelude.{◌≡◌};
ghost use Rattle.pami_words.specs.Values as values;

use crate::number::number_between;
use crate::table::Takes;

/// The format of a model file.
#[derive(Clone, Copy, Debug, PartialEq, Eq)]
pub enum FileFormat {
    Mps,
    Lp,
}

/// The value of an option.
#[derive(Clone, Copy, Debug, PartialEq, Eq)]
pub enum Value {
    /// The option alone.
    Nothing,
    Number(u32),
    Format(FileFormat),
}

impl FileFormat {
    /// The format that a word names.
    fn named(text: &[u8]) -> Option<FileFormat>
        ensures { result ≡ values.format_named text.now }
    {
        if text == b"mps".as_slice() {
            return Some(FileFormat::Mps);
        }
        if text == b"lp".as_slice() {
            return Some(FileFormat::Lp);
        }
        None
    }

    /// Whether this is the LP format.
    pub fn is_lp(self) -> bool
        ensures { result ≡ values.is_lp self }
    {
        match self {
            FileFormat::Mps => false,
            FileFormat::Lp => true,
        }
    }
}

/// The value that a text gives an option which takes this.
pub fn value_in(takes: Takes, text: &[u8]) -> Option<Value>
    ensures { result ≡ values.value_in takes text.now }
{
    match takes {
        Takes::Nothing => None,
        Takes::Number { least, greatest } => {
            let number = number_between(text, least, greatest)?;
            Some(Value::Number(number))
        }
        Takes::Format => {
            let format = FileFormat::named(text)?;
            Some(Value::Format(format))
        }
    }
}
