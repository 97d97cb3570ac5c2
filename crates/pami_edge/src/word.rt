//! A word of text, such as the name of a file.

ghost use Rattle.std.specs.Prelude.{◌≡◌, IfOk, string_bytes, bytes_eq};

use pami_frac::OutOfMemory;
use std::alloc::Global;
use std::marker::Model;

/// A text that contracts see as the list of its bytes.
#[derive(Debug, Drop)]
pub struct Word {
    text: String,
}

impl Model for Word {
    ghost use Rattle.std.specs.Prelude.{ℕ, List, string_bytes};
    ghost use Rattle.std.specs.Coded.{coded_list, coded_ℕ};

    ghost Value = { List ℕ };

    ghost coded = { coded_list coded_ℕ };

    ghost view = { λ w. string_bytes w.text };
}

impl Word {
    /// The word of a text. Takes no memory.
    pub fn from_string(text: String) -> Word
        ensures { result ≡ string_bytes text }
    {
        Word { text }
    }

    /// Gives the text back. Takes no memory.
    pub fn into_string(self) -> String
        ensures { string_bytes result ≡ self }
    {
        self.text
    }

    /// Lends the bytes.
    pub fn as_slice(&self) -> &[u8]
        ensures { result.now ≡ self.now }
    {
        self.text.as_bytes()
    }

    /// Lends the text.
    pub fn as_str(&self) -> &str
        ensures { result.now ≡ self.now }
    {
        self.text.as_str()
    }

    /// A second word with the same bytes.
    pub fn copy(&self, alloc: Global) -> Result<Word, OutOfMemory>
        ensures { IfOk result (λ w. w ≡ self.now) }
    {
        Ok(Word {
            text: String::from_str(alloc, self.text.as_str())?,
        })
    }

    /// Whether these are the word's bytes.
    pub fn is(&self, bytes: &[u8]) -> bool
        ensures { result ≡ bytes_eq self.now bytes.now }
    {
        self.text.as_bytes() == bytes
    }
}
