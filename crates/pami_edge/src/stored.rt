//! The files of a shelf in memory.

ghost use Rattle.std.specs.Prelude.{◌≡◌, ◌+◌, ◌^◌, ◌<◌, length, bytes_eq};
ghost use Rattle.std.specs.Option.{option_map};
ghost use Rattle.pami_edge.specs.Memory.{bytes_under, bytes_at, left_of};

use crate::word::Word;
use std::marker::Model;

/// A file with its name.
#[derive(Debug, Drop)]
pub struct StoredFile {
    name: Word,
    bytes: Vec<u8>,
}

impl Model for StoredFile {
    ghost use Rattle.pami_edge.specs.Memory.{NamedFile};

    ghost Value = { NamedFile };

    ghost view = { λ f. record { name = f.name; bytes = f.bytes.items } };
}

impl StoredFile {
    pub fn new(name: Word, bytes: Vec<u8>) -> StoredFile
        ensures { result ≡ record { name = name; bytes = bytes.items } }
    {
        StoredFile { name, bytes }
    }

    /// Whether this is the file's name.
    pub fn is_named(&self, name: &[u8]) -> bool
        ensures { result ≡ bytes_eq self.now.name name.now }
    {
        self.name.is(name)
    }

    /// Lends the file's bytes.
    pub fn bytes(&self) -> &[u8]
        ensures { result.now ≡ self.now.bytes }
    {
        &self.bytes
    }
}

/// The place of the newest file of this name.
pub fn place_of(files: &[StoredFile], name: &[u8]) -> Option<usize>
    ensures { bytes_under files.now name.now ≡ option_map (bytes_at files.now) result }
{
    let mut found = None;
    for (i, file) in files.iter().enumerate() {
        if file.is_named(name) {
            found = Some(i);
        }
    }
    found
}

/// The bytes of the open file from `at` on.
pub fn left_of(files: &[StoredFile], current: Option<usize>, at: usize) -> &[u8]
    ensures left { result.now ≡ left_of files.now current at }
    ensures within { 0 < length result.now → at + length result.now < 2 ^ 64 }
{
    let Some(place) = current else {
        return &[];
    };
    let Some(file) = files.get(place) else {
        return &[];
    };
    let bytes = file.bytes();
    if bytes.len() < at {
        return &[];
    }
    &bytes[at..]
}
