//! The entries of a row while they are gathered.

ghost use Rattle.std.specs.Prelude.{◌≡◌, ◌++◌, ◌∷◌, [], IfOk};

use pami_frac::{Entry, OutOfMemory};
use std::alloc::Global;
use std::marker::Model;

/// The entries of one row so far, which a contract sees as their list.
#[derive(Debug, Drop)]
pub(crate) struct RowEntries {
    entries: Vec<Entry>,
}

impl Model for RowEntries {
    ghost use Rattle.std.specs.Prelude.{List};
    ghost use Rattle.pami_frac.specs.declared.list.Entry.{Entry};

    ghost Value = { List Entry };

    ghost view = { λ r. r.entries.items };
}

impl RowEntries {
    /// No entry.
    pub(crate) fn empty(alloc: Global) -> RowEntries
        ensures { result ≡ [] }
    {
        RowEntries {
            entries: Vec::new(alloc),
        }
    }

    /// The entries, in the order in which they came.
    pub(crate) fn as_slice(&self) -> &[Entry]
        ensures { result.now ≡ self.now }
    {
        self.entries.as_slice()
    }

    /// Puts an entry at the end.
    pub(crate) fn push(&mut self, entry: Entry) -> Result<(), OutOfMemory>
        ensures { IfOk result (λ _. self.new ≡ self.old ++ (entry ∷ [])) }
    {
        self.entries.push(entry)?;
        Ok(())
    }
}
