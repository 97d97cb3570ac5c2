//! A whole file read, and a whole text written.

ghost use Rattle.std.specs.Prelude.{◌≡◌, ◌<◌, ◌≤◌, List, [], ◌∷◌, ◌++◌, ◌↔◌, length, IfOk, OnOk, OnErr, IsErrOf};
ghost use Rattle.pami_edge.specs.Outside.{Rose, HasFile, LacksFile, HasLongFile, Grows, GrowsInPart};

use crate::outside::{Failed, ReadStop, Shelf, Sink};
use crate::word::Word;
use std::alloc::Global;

/// How many bytes one call of `take` may give.
const ROOM: usize = 4096;

/// All bytes of the file of this name, if there are at most `most`. Asks for that name and no other.
///
/// - Failed where the shelf failed or has no such file; the only answer at which its count of faults rises.
/// - TooLong where more than `most` bytes were taken.
/// - OutOfMemory where memory ran out.
pub fn read_whole<S: Shelf>(
    alloc: Global,
    shelf: &mut S,
    name: Word,
    most: u32,
) -> Result<Vec<u8>, ReadStop>
    requires { length (S.asked shelf.old) < 2 }
    ensures asked { S.asked shelf.new ≡ S.asked shelf.old ++ name ∷ [] }
    ensures files { S.files shelf.new ≡ S.files shelf.old }
    ensures whole { IfOk result (λ bytes. HasFile (S.files shelf.old) name bytes.items) }
    ensures taken { IfOk result (λ bytes. S.taken shelf.new ≡ length bytes.items) }
    ensures fits { IfOk result (λ bytes. length bytes.items ≤ most) }

    // More was taken exactly where the answer is TooLong, and then the file has more.
    ensures too_long { IsErrOf result ReadStop.TooLong ↔ (most < S.taken shelf.new) }
    ensures longer { IsErrOf result ReadStop.TooLong → HasLongFile (S.files shelf.old) name most }
    ensures missing { LacksFile (S.files shelf.old) name → IsErrOf result ReadStop.Failed }

    // No fault is passed over, and none is made up.
    ensures cause { IsErrOf result ReadStop.Failed → Rose (S.faults shelf.old) (S.faults shelf.new) }
    ensures steady { (IsErrOf result ReadStop.Failed → ⊥) → S.faults shelf.new ≡ S.faults shelf.old }
    ensures later { S.faults shelf.old ≤ S.faults shelf.new }
{
    shelf.open(name)?;
    let most = most as usize;
    let mut bytes = Vec::new(alloc);
    let mut room = [0u8; ROOM];
    'chunks: loop {
        let count = shelf.take(&mut room)?;
        if count == 0 {
            return Ok(bytes);
        }
        if count > most - bytes.len() {
            return Err(ReadStop::TooLong);
        }
        bytes.extend_from_slice(&room[..count])?;
    }
}

/// Appends all the bytes. Failed where the sink failed, the only answer at which its count of faults rises; then
/// some front of the bytes was appended.
pub fn write_whole<K: Sink>(sink: &mut K, bytes: &[u8]) -> Result<(), Failed>
    ensures whole { OnOk result (Grows (K.told sink.old) (K.told sink.new) bytes.now) }
    ensures part { OnErr result (GrowsInPart (K.told sink.old) (K.told sink.new) bytes.now) }
    ensures cause { OnErr result (Rose (K.faults sink.old) (K.faults sink.new)) }
    ensures steady { OnOk result (K.faults sink.new ≡ K.faults sink.old) }
    ensures later { K.faults sink.old ≤ K.faults sink.new }
{
    let mut at = 0;
    while at < bytes.len() {
        at += sink.put(&bytes[at..])?;
    }
    Ok(())
}
