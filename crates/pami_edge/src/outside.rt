//! What bytes come from and go to.

ghost use Rattle.std.specs.Prelude.{◌≡◌, ℕ, ◌<◌, ◌≤◌, List, [], ◌∷◌, ◌++◌, Option, Some, IsSome, length, take, IfOk, OnOk, OnErr, IsErr};
ghost use Rattle.pami_edge.specs.Outside.{Rose, counted, last_count, Files, Opens, LacksFile, IsAtEnd, Gives, Keeps, Grows};

use crate::word::Word;
use pami_frac::OutOfMemory;
use std::alloc::{AllocError, AllocFailed};
use thiserror::Error;

/// A shelf or a sink failed. Which of its calls, and how often, its count of faults says.
#[derive(Clone, Copy, Debug, PartialEq, Eq, Error)]
#[error("reading or writing failed")]
pub struct Failed;

/// Files by name, of which one at a time is open and read from front to back.
pub trait Shelf {
    // The bytes under each name, where the shelf tells them.
    ghost files: { Self → Option Files };

    // The bytes of the open file that weren't taken yet, where it tells them.
    ghost rest: { Self → Option (List ℕ) };

    // The names that it was asked for, in order.
    ghost asked: { Self → List (List ℕ) };

    // How often it failed. The count stands still at its last value.
    ghost faults: { Self → ℕ };

    // The bytes taken since the last `open`. The number stands still at its last value.
    ghost taken: { Self → ℕ };

    /// Opens the file of this name, from its beginning. Failed where there is none, or the outside failed; then
    /// nothing is open. The name counts as asked for either way.
    fn open(&mut self, name: Word) -> Result<(), Failed>
        requires { length (asked self.old) < 2 }
        ensures asked { asked self.new ≡ asked self.old ++ name ∷ [] }
        ensures files { files self.new ≡ files self.old }
        ensures opened { OnOk result (Opens (files self.old) name (rest self.new)) }
        ensures closed { OnErr result (IsAtEnd (rest self.new)) }
        ensures missing { LacksFile (files self.old) name → IsErr result }
        ensures none_taken { taken self.new ≡ 0 }
        ensures steady { OnOk result (faults self.new ≡ faults self.old) }
        ensures cause { OnErr result (Rose (faults self.old) (faults self.new)) }
        ensures later { faults self.old ≤ faults self.new };

    /// Copies bytes of the open file into the front of `room`, behind those taken before, and answers how many; none
    /// into a room that isn't empty only at the file's end. Failed where the outside failed; then none was taken.
    fn take(&mut self, room: &mut [u8]) -> Result<usize, Failed>
        ensures within { IfOk result (λ n. n ≤ length room.old) }
        ensures copied { IfOk result (λ n. Gives (rest self.old) (rest self.new) (take n room.new)) }
        ensures end { IfOk result (λ n. n ≡ 0 → 0 < length room.old → IsAtEnd (rest self.new)) }
        ensures taken { IfOk result (λ n. taken self.new ≡ counted (taken self.old) n) }
        ensures unread { OnErr result (Keeps (rest self.old) (rest self.new)) }
        ensures none_taken { OnErr result (taken self.new ≡ taken self.old) }
        ensures asked { asked self.new ≡ asked self.old }
        ensures files { files self.new ≡ files self.old }
        ensures steady { OnOk result (faults self.new ≡ faults self.old) }
        ensures cause { OnErr result (Rose (faults self.old) (faults self.new)) }
        ensures later { faults self.old ≤ faults self.new };

    // A shelf that tells its files tells the rest of the open one.
    ghost tells: { (shelf : Self) → IsSome (files shelf) → IsSome (rest shelf) };

    // Before the first `open` nothing is left to take, and nothing was taken.
    ghost unopened: { (shelf : Self) → asked shelf ≡ [] → IsAtEnd (rest shelf) × (taken shelf ≡ 0) };
}

/// A place that bytes are appended to.
pub trait Sink {
    // The bytes written, where the sink tells them.
    ghost told: { Self → Option (List ℕ) };

    // How often it failed. The count stands still at its last value.
    ghost faults: { Self → ℕ };

    /// Appends bytes from the front of the piece and answers how many, at least one of a piece that isn't empty.
    /// Failed where the outside failed; then nothing was appended.
    fn put(&mut self, piece: &[u8]) -> Result<usize, Failed>
        ensures appended { IfOk result (λ n. Grows (told self.old) (told self.new) (take n piece.now)) }
        ensures within { IfOk result (λ n. n ≤ length piece.now) }
        ensures progress { IfOk result (λ n. 0 < length piece.now → 0 < n) }
        ensures nothing { OnErr result (Keeps (told self.old) (told self.new)) }
        ensures steady { OnOk result (faults self.new ≡ faults self.old) }
        ensures cause { OnErr result (Rose (faults self.old) (faults self.new)) }
        ensures later { faults self.old ≤ faults self.new };
}

/// Why a file wasn't read to its end.
#[derive(Clone, Copy, Debug, PartialEq, Eq, Error)]
pub enum ReadStop {
    /// The shelf failed, or has no file of that name.
    #[error("reading failed")]
    Failed,
    /// The file has more bytes than were allowed.
    #[error("the file is too long")]
    TooLong,
    /// Memory ran out.
    #[error("out of memory")]
    OutOfMemory,
}

impl From<Failed> for ReadStop {
    ghost use Rattle.std.specs.Prelude.{◌≡◌};
    ghost use Rattle.pami_edge.specs.declared.outside.ReadStop.{ReadStop};

    ghost from_gives = { λ _ stop. stop ≡ ReadStop.Failed };

    fn from(_e: Failed) -> ReadStop {
        ReadStop::Failed
    }
}

impl From<AllocError> for ReadStop {
    ghost use Rattle.std.specs.Prelude.{◌≡◌};
    ghost use Rattle.pami_edge.specs.declared.outside.ReadStop.{ReadStop};

    ghost from_gives = { λ _ stop. stop ≡ ReadStop.OutOfMemory };

    fn from(_e: AllocError) -> ReadStop {
        ReadStop::OutOfMemory
    }
}
