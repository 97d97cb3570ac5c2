//! The command `check`: FILE, its model, CERT, and the verdict.

ghost use Rattle.std.specs.Prelude.{◌≡◌, ◌<◌, ◌⊎◌, ℕ, List, [], ◌∷◌, ◌++◌, length, Some};
ghost use Rattle.pami_edge.specs.Outside.{Files};
ghost use Rattle.pami_edge.specs.Calls.{shelf_call, sink_call, ShelfCounted, SinkCounted};
ghost use Rattle.pami_words.specs.declared.command.Command.TheVariants.{Check};
ghost use Rattle.pami_model.specs.Contents.{contents};
ghost use Rattle.pami_cli.specs.Reading.{format_by};
ghost use Rattle.pami_cli.specs.Run.{call, AskFor, Ends, EndsBy, IsCertDue, IsCheckDue, IsFront, IsOrFault, Refuses};

use crate::output::{finish, finish_answer};
use crate::reading::{Taken, long_answer, take_file};
use crate::status::Status;
use crate::verdict::{cert_answer, long_cert};
use pami_edge::{ReadStop, Shelf, Sink, Word, read_whole};
use pami_model::{BYTE_LIMIT, Model};
use std::alloc::Global;

/// Reads CERT and judges it against the model of FILE.
fn check_cert<S: Shelf, K: Sink>(
    alloc: Global,
    model: &Model,
    cert: Word,
    shelf: &mut S,
    out: &mut K,
) -> Status
    requires { length (S.asked shelf.old) < 2 }
    ensures ends { EndsBy (IsCertDue (contents model.now) cert (shelf_call S.Shelf shelf.old shelf.new))
        (sink_call K.Sink out.old out.new) result }
    ensures asked { S.asked shelf.new ≡ S.asked shelf.old ++ cert ∷ [] }
    ensures shelf_faults { ShelfCounted (shelf_call S.Shelf shelf.old shelf.new) → IsOrFault result Status.ReadFault }
    ensures sink_faults { SinkCounted (sink_call K.Sink out.old out.new) → result ≡ Status.WriteFault }
{
    match read_whole(alloc, shelf, cert, BYTE_LIMIT as u32) {
        Ok(bytes) => finish_answer(out, cert_answer(alloc, model, bytes.as_slice())),
        Err(ReadStop::Failed) => finish(out, Status::ReadFault, b"read fault\n"),
        Err(ReadStop::TooLong) => finish_answer(out, long_cert(alloc)),
        Err(ReadStop::OutOfMemory) => Status::OutOfMemory,
    }
}

/// Goes on behind the bytes of FILE: reads CERT where a model is accepted, and else writes why none is.
fn check_bytes<S: Shelf, K: Sink>(
    alloc: Global,
    bytes: &[u8],
    lp: bool,
    cert: Word,
    shelf: &mut S,
    out: &mut K,
) -> Status
    requires { length (S.asked shelf.old) < 2 }
    ensures ends { EndsBy (IsCheckDue (format_by lp) bytes.now cert (shelf_call S.Shelf shelf.old shelf.new))
        (sink_call K.Sink out.old out.new) result }
    ensures asked { (S.asked shelf.new ≡ S.asked shelf.old) ⊎ (S.asked shelf.new ≡ S.asked shelf.old ++ cert ∷ []) }
    ensures refused { (written : List ℕ) → Refuses (format_by lp) bytes.now written → S.asked shelf.new ≡ S.asked shelf.old }
    ensures shelf_faults { ShelfCounted (shelf_call S.Shelf shelf.old shelf.new) → IsOrFault result Status.ReadFault }
    ensures sink_faults { SinkCounted (sink_call K.Sink out.old out.new) → result ≡ Status.WriteFault }
{
    match take_file(alloc, bytes, lp) {
        Ok(Taken::Accepted(model)) => check_cert(alloc, &model, cert, shelf, out),
        Ok(Taken::Refused(answer)) => finish(out, answer.status, answer.text.as_slice()),
        Err(_) => Status::OutOfMemory,
    }
}

/// Checks the certificate of CERT against the model of FILE, which is LP or else MPS.
pub fn check_file<S: Shelf, K: Sink>(
    alloc: Global,
    file: Word,
    cert: Word,
    lp: bool,
    shelf: &mut S,
    out: &mut K,
) -> Status
    requires unasked { S.asked shelf.old ≡ [] }
    ensures ends { (words : List (List ℕ)) → AskFor words (Check file cert lp)
        → Ends (call words (shelf_call S.Shelf shelf.old shelf.new) (sink_call K.Sink out.old out.new)) result }
    ensures asked { IsFront (S.asked shelf.new) (file ∷ cert ∷ []) }
    ensures file_first { (files : Files) (bytes written : List ℕ) → S.files shelf.old ≡ Some files → files file ≡ Some bytes
        → Refuses (format_by lp) bytes written → S.asked shelf.new ≡ file ∷ [] }
    ensures shelf_faults { ShelfCounted (shelf_call S.Shelf shelf.old shelf.new) → IsOrFault result Status.ReadFault }
    ensures sink_faults { SinkCounted (sink_call K.Sink out.old out.new) → result ≡ Status.WriteFault }
{
    match read_whole(alloc, shelf, file, BYTE_LIMIT as u32) {
        Ok(bytes) => check_bytes(alloc, bytes.as_slice(), lp, cert, shelf, out),
        Err(ReadStop::Failed) => finish(out, Status::ReadFault, b"read fault\n"),
        Err(ReadStop::TooLong) => finish_answer(out, long_answer(alloc)),
        Err(ReadStop::OutOfMemory) => Status::OutOfMemory,
    }
}
