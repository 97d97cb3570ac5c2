//! What is due, written to the sink.

ghost use Rattle.std.specs.Prelude.{◌≡◌, IfOk, OnErr};
ghost use Rattle.pami_edge.specs.Calls.{sink_call, SinkCounted, WroteNothing};
ghost use Rattle.pami_cli.specs.Run.{IsWrittenBy};

use crate::answer::Answer;
use crate::status::Status;
use pami_edge::{Sink, write_whole};
use pami_frac::OutOfMemory;

/// Writes what is due. The answer is its status, or WriteFault where the sink failed.
pub fn finish<K: Sink>(out: &mut K, status: Status, text: &[u8]) -> Status
    ensures written { IsWrittenBy (sink_call K.Sink out.old out.new) result status text.now }
    ensures counted { SinkCounted (sink_call K.Sink out.old out.new) → result ≡ Status.WriteFault }
{
    match write_whole(out, text) {
        Ok(()) => status,
        Err(_) => Status::WriteFault,
    }
}

/// Writes an answer, or nothing where memory ran out for it.
pub fn finish_answer<K: Sink>(out: &mut K, answer: Result<Answer, OutOfMemory>) -> Status
    ensures written { IfOk answer (λ a. IsWrittenBy (sink_call K.Sink out.old out.new) result a.status a.text.items) }
    ensures nothing { OnErr answer ((result ≡ Status.OutOfMemory) × WroteNothing (sink_call K.Sink out.old out.new)) }
    ensures counted { SinkCounted (sink_call K.Sink out.old out.new) → result ≡ Status.WriteFault }
{
    match answer {
        Ok(answer) => finish(out, answer.status, answer.text.as_slice()),
        Err(_) => Status::OutOfMemory,
    }
}
