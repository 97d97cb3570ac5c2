//! A shelf and a sink in memory, which tell their bytes and fail where they are asked to.

ghost use Rattle.std.specs.Prelude.{◌≡◌, ◌<◌, ◌≤◌, ◌⊎◌, ◌↔◌, [], ◌∷◌, ◌++◌, Some, length, take, IfOk, OnOk, OnErr, IsErr, IsTrue};
ghost use Rattle.pami_edge.specs.Outside.{Rose, counted, Opens, LacksFile, IsAtEnd, Gives, Keeps, Grows};
ghost use Rattle.pami_edge.specs.Plan.{fails_next, after_call};
ghost use Rattle.pami_edge.specs.Memory.{files_told, rest_told, taken_told, AddsFile, HasNoFiles, FindsNoRoom};

use crate::asked::Asked;
use crate::outside::{Failed, Shelf, Sink};
use crate::plan::Plan;
use crate::stored::{StoredFile, left_of, place_of};
use crate::word::Word;
use pami_frac::OutOfMemory;
use std::alloc::Global;
use std::marker::Model;

/// Files in memory. `take` gives as many bytes as the room and the greatest length per call allow.
#[derive(Debug, Drop)]
pub struct MemoryShelf {
    files: Vec<StoredFile>,
    asked: Asked,
    current: Option<usize>,
    at: usize,
    taken: u64,
    faults: u64,
    plan: Plan,
}

impl Model for MemoryShelf {
    ghost use Rattle.std.specs.Prelude.{◌≡◌, ◌<◌, [], None};
    ghost use Rattle.pami_edge.specs.Memory.{MemoryFiles, left_of};

    ghost Value = { MemoryFiles };

    ghost view = { λ s. record {
      files = s.files.items;
      asked = s.asked;
      left = left_of s.files.items s.current s.at;
      taken = s.taken;
      faults = s.faults;
      plan = s.plan;
    } };

    ghost invariant = { λ s. (0 < s.plan.most) × (s.asked ≡ [] → (s.current ≡ None) × (s.taken ≡ 0)) };
}

impl MemoryShelf {
    /// A shelf with no files. A `take` gives at most `most` bytes; `failing` has the numbers, from 1, of the calls
    /// of `take` that are to fail.
    pub fn new(alloc: Global, most: u32, failing: &[u64]) -> Result<MemoryShelf, OutOfMemory>
        requires { 0 < most }
        ensures no_files { IfOk result (λ shelf. HasNoFiles (⟦<MemoryShelf as Shelf>⟧.files shelf)) }
        ensures unasked { IfOk result (λ shelf. ⟦<MemoryShelf as Shelf>⟧.asked shelf ≡ []) }
        ensures no_faults { IfOk result (λ shelf. ⟦<MemoryShelf as Shelf>⟧.faults shelf ≡ 0) }
        ensures calls { IfOk result (λ shelf. shelf.plan.calls ≡ 0) }
        ensures most { IfOk result (λ shelf. shelf.plan.most ≡ most) }
        ensures failing { IfOk result (λ shelf. shelf.plan.failing ≡ failing.now) }
    {
        Ok(MemoryShelf {
            files: Vec::new(alloc),
            asked: Asked::new(),
            current: None,
            at: 0,
            taken: 0,
            faults: 0,
            plan: Plan::new(alloc, most, failing)?,
        })
    }

    /// Adds a file; in the place of that of the same name, if there is one. At `OutOfMemory` none is added.
    pub fn add(&mut self, alloc: Global, name: Word, bytes: &[u8]) -> Result<(), OutOfMemory>
        requires { ⟦<MemoryShelf as Shelf>⟧.asked self.old ≡ [] }
        ensures added { OnOk result (AddsFile (files_told self.old) (files_told self.new) name bytes.now) }
        ensures kept { OnErr result (self.new.files ≡ self.old.files) }
        ensures unasked { ⟦<MemoryShelf as Shelf>⟧.asked self.new ≡ [] }
        ensures no_faults { ⟦<MemoryShelf as Shelf>⟧.faults self.new ≡ ⟦<MemoryShelf as Shelf>⟧.faults self.old }
        ensures plan { self.new.plan ≡ self.old.plan }
    {
        let bytes = Vec::from_slice(alloc, bytes)?;
        self.files.push(StoredFile::new(name, bytes))?;
        Ok(())
    }
}

impl Shelf for MemoryShelf {
    ghost use Rattle.std.specs.Prelude.{[], refl};
    ghost use Rattle.pami_edge.specs.Outside.{since_open_none};
    ghost use Rattle.pami_edge.specs.Memory.{files_told, rest_told, taken_told};

    ghost files = { files_told };

    ghost rest = { rest_told };

    ghost asked = { λ s. s.asked };

    ghost faults = { λ s. s.faults };

    ghost taken = { taken_told };

    ghost tells = { λ _ _. refl };

    ghost unopened = { λ s none. (since_open_none s.asked [] s.left none, since_open_none s.asked 0 s.taken none) };

    // The clauses of every shelf, and the only cause of a fault.
    fn open(&mut self, name: Word) -> Result<(), Failed>
        requires { length self.old.asked < 2 }
        ensures asked { self.new.asked ≡ self.old.asked ++ name ∷ [] }
        ensures files { self.new.files ≡ self.old.files }
        ensures opened { OnOk result (Opens (files_told self.old) name (rest_told self.new)) }
        ensures closed { OnErr result (IsAtEnd (rest_told self.new)) }
        ensures missing { IsErr result ↔ LacksFile (files_told self.old) name }
        ensures none_taken { taken_told self.new ≡ 0 }
        ensures steady { OnOk result (self.new.faults ≡ self.old.faults) }
        ensures cause { OnErr result (Rose self.old.faults self.new.faults) }
        ensures later { self.old.faults ≤ self.new.faults }
        ensures plan { self.new.plan ≡ self.old.plan }
    {
        self.at = 0;
        self.taken = 0;
        self.current = place_of(&self.files, name.as_slice());
        self.asked.push(name);
        if self.current.is_none() {
            self.faults = self.faults.saturating_add(1);
            return Err(Failed);
        }
        Ok(())
    }

    // The clauses of every shelf, the only cause of a fault, and the greatest length.
    fn take(&mut self, room: &mut [u8]) -> Result<usize, Failed>
        ensures within { IfOk result (λ n. n ≤ length room.old) }
        ensures copied { IfOk result (λ n. Gives (rest_told self.old) (rest_told self.new) (take n room.new)) }
        ensures end { IfOk result (λ n. n ≡ 0 → 0 < length room.old → IsAtEnd (rest_told self.new)) }
        ensures taken { IfOk result (λ n. taken_told self.new ≡ counted (taken_told self.old) n) }
        ensures unread { OnErr result (Keeps (rest_told self.old) (rest_told self.new)) }
        ensures none_taken { OnErr result (taken_told self.new ≡ taken_told self.old) }
        ensures asked { self.new.asked ≡ self.old.asked }
        ensures files { self.new.files ≡ self.old.files }
        ensures steady { OnOk result (self.new.faults ≡ self.old.faults) }
        ensures cause { OnErr result (Rose self.old.faults self.new.faults) }
        ensures later { self.old.faults ≤ self.new.faults }
        ensures only { IsErr result ↔ IsTrue (fails_next self.old.plan) }
        ensures most { IfOk result (λ n. n ≤ self.old.plan.most) }
        ensures plan { self.new.plan ≡ after_call self.old.plan }
    {
        if self.plan.is_failing() {
            self.faults = self.faults.saturating_add(1);
            return Err(Failed);
        }
        let left = left_of(&self.files, self.current, self.at);
        let count = left.len().min(room.len()).min(self.plan.most() as usize);
        room[..count].copy_from_slice(&left[..count]);
        self.at += count;
        self.taken = self.taken.saturating_add(count as u64);
        Ok(count)
    }
}

/// Bytes in memory, at most as many as there is room for.
#[derive(Debug, Drop)]
pub struct MemorySink {
    bytes: Vec<u8>,
    room: u32,
    faults: u64,
    plan: Plan,
}

impl Model for MemorySink {
    ghost use Rattle.std.specs.Prelude.{◌<◌, ◌≤◌, length, vec_capacity};
    ghost use Rattle.pami_edge.specs.Memory.{MemoryBytes};

    ghost Value = { MemoryBytes };

    ghost view = { λ s. record { bytes = s.bytes.items; room = s.room; faults = s.faults; plan = s.plan } };

    ghost invariant = { λ s. (0 < s.plan.most) × (length s.bytes.items ≤ s.room) × (s.room ≤ vec_capacity s.bytes) };
}

impl MemorySink {
    /// An empty sink with memory for `room` bytes. A `put` appends at most `most` bytes; `failing` has the numbers,
    /// from 1, of the calls of `put` that are to fail.
    pub fn new(
        alloc: Global,
        room: u32,
        most: u32,
        failing: &[u64],
    ) -> Result<MemorySink, OutOfMemory>
        requires { 0 < most }
        ensures empty { IfOk result (λ sink. ⟦<MemorySink as Sink>⟧.told sink ≡ Some []) }
        ensures no_faults { IfOk result (λ sink. ⟦<MemorySink as Sink>⟧.faults sink ≡ 0) }
        ensures calls { IfOk result (λ sink. sink.plan.calls ≡ 0) }
        ensures most { IfOk result (λ sink. sink.plan.most ≡ most) }
        ensures failing { IfOk result (λ sink. sink.plan.failing ≡ failing.now) }
        ensures room { IfOk result (λ sink. sink.room ≡ room) }
    {
        Ok(MemorySink {
            bytes: Vec::with_capacity(alloc, room as usize)?,
            room,
            faults: 0,
            plan: Plan::new(alloc, most, failing)?,
        })
    }

    /// What was written.
    pub fn bytes(&self) -> &[u8]
        ensures told { ⟦<MemorySink as Sink>⟧.told self.now ≡ Some result.now }
        ensures fits { length result.now ≤ self.now.room }
    {
        &self.bytes
    }
}

impl Sink for MemorySink {
    ghost told = { λ s. Some s.bytes };

    ghost faults = { λ s. s.faults };

    // The clauses of every sink, the only causes of a fault, and the greatest length.
    fn put(&mut self, piece: &[u8]) -> Result<usize, Failed>
        ensures appended { IfOk result (λ n. Grows (Some self.old.bytes) (Some self.new.bytes) (take n piece.now)) }
        ensures within { IfOk result (λ n. n ≤ length piece.now) }
        ensures progress { IfOk result (λ n. 0 < length piece.now → 0 < n) }
        ensures nothing { OnErr result (Keeps (Some self.old.bytes) (Some self.new.bytes)) }
        ensures steady { OnOk result (self.new.faults ≡ self.old.faults) }
        ensures cause { OnErr result (Rose self.old.faults self.new.faults) }
        ensures later { self.old.faults ≤ self.new.faults }
        ensures only { IsErr result ↔ (IsTrue (fails_next self.old.plan) ⊎ FindsNoRoom self.old piece.now) }
        ensures most { IfOk result (λ n. n ≤ self.old.plan.most) }
        ensures plan { self.new.plan ≡ after_call self.old.plan }
        ensures room { self.new.room ≡ self.old.room }
        ensures fits { length self.new.bytes ≤ self.new.room }
    {
        let free = self.room as usize - self.bytes.len();
        let count = piece.len().min(self.plan.most() as usize).min(free);
        let is_full = count == 0 && !piece.is_empty();
        if self.plan.is_failing() || is_full {
            self.faults = self.faults.saturating_add(1);
            return Err(Failed);
        }
        self.bytes.extend_from_slice(&piece[..count]).unwrap();
        Ok(count)
    }
}
