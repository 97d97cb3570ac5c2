//! What a file that is refused is answered: its first fault, or a width that doesn't fit.

ghost use Rattle.std.specs.Prelude.{◌≡◌, IfOk};
ghost use Rattle.pami_model.specs.Contents.{contents};
ghost use Rattle.pami_cli.specs.Text.{refused_text, wide_text};

use crate::answer::Answer;
use crate::status::Status;
use pami_frac::OutOfMemory;
use pami_lines::{push_number, push_word};
use pami_log::push_variable;
use pami_model::{FileFault, Model};
use std::alloc::Global;

/// The answer on a file with this first fault: its line, and the word of its kind.
///
/// # Errors
///
/// `OutOfMemory` alone.
pub fn refused_file(alloc: Global, fault: FileFault) -> Result<Answer, OutOfMemory>
    ensures status { IfOk result (λ a. a.status ≡ Status.File) }
    ensures text { IfOk result (λ a. a.text.items ≡ refused_text fault) }
{
    let mut text = Vec::from_slice(alloc, b"refused")?;
    push_number(&mut text, u64::from(fault.line))?;
    push_word(&mut text, fault.kind.word())?;
    text.push(b'\n')?;
    Ok(Answer {
        status: Status::File,
        text,
    })
}

/// The answer on a model with a boxed variable whose width doesn't fit: no line of the file, and the variable.
///
/// # Errors
///
/// `OutOfMemory` alone.
pub fn refused_width(alloc: Global, model: &Model, variable: u32) -> Result<Answer, OutOfMemory>
    ensures status { IfOk result (λ a. a.status ≡ Status.File) }
    ensures text { IfOk result (λ a. a.text.items ≡ wide_text (contents model.now) variable) }
{
    let mut text = Vec::from_slice(alloc, b"refused")?;
    push_number(&mut text, 0)?;
    push_word(&mut text, b"width")?;
    push_variable(&mut text, model, variable)?;
    text.push(b'\n')?;
    Ok(Answer {
        status: Status::File,
        text,
    })
}
