//! The bytes of FILE: the model that they are a text of, or the answer that they are refused with.

ghost use Rattle.std.specs.Prelude.{◌≡◌, IfOk};
ghost use Rattle.pami_model.specs.Contents.{contents};
ghost use Rattle.pami_cli.specs.declared.status.Status.{Status};
ghost use Rattle.pami_cli.specs.Text.{refused_text};
ghost use Rattle.pami_cli.specs.Reading.{format_by, IsTextOf, IsRefusedIn};
ghost use Rattle.pami_cli.specs.Taken.{IsTaken, IsFitting};

use crate::answer::Answer;
use crate::refuse::{refused_file, refused_width};
use pami_form::form_of;
use pami_frac::{Fault, OutOfMemory};
use pami_lp::read_lp;
use pami_model::{FileFault, FileKind, Model};
use pami_mps::read_mps;
use std::alloc::Global;

/// What the bytes of FILE are taken as.
#[derive(Drop)]
pub enum Taken {
    /// A model whose widths fit.
    Accepted(Model),
    /// No such model, with what they are answered.
    Refused(Answer),
}

/// The model that the bytes of a file are a text of, which is in the LP format or else in MPS.
///
/// # Errors
///
/// The first fault of the text in its format. `OutOfMemory` where memory runs out.
pub fn read_model(alloc: Global, bytes: &[u8], lp: bool) -> Result<Model, Fault<FileFault>>
    ensures accepted { IfOk result (λ m. IsTextOf (format_by lp) bytes.now (contents m)) }
    ensures refused { IsRefusedIn (format_by lp) bytes.now result }
{
    if lp {
        read_lp(alloc, bytes)
    } else {
        read_mps(alloc, bytes)
    }
}

/// What a file of more bytes than the limit is answered.
pub fn long_answer(alloc: Global) -> Result<Answer, OutOfMemory>
    ensures status { IfOk result (λ a. a.status ≡ Status.File) }
    ensures text { IfOk result (λ a. a.text.items ≡ refused_text (record { line = 0; kind = FileKind.TooLong })) }
{
    let fault = FileFault {
        line: 0,
        kind: FileKind::TooLong,
    };
    refused_file(alloc, fault)
}

/// The model, if its widths fit, or the answer that it is refused with.
///
/// # Errors
///
/// `OutOfMemory` alone.
fn fitting(alloc: Global, model: Model) -> Result<Taken, OutOfMemory>
    ensures { IfOk result (IsFitting (contents model)) }
{
    match form_of(alloc, &model) {
        Ok(_) => Ok(Taken::Accepted(model)),
        Err(Fault::Named(wide)) => {
            let answer = refused_width(alloc, &model, wide.variable)?;
            Ok(Taken::Refused(answer))
        }
        Err(Fault::OutOfMemory) => Err(OutOfMemory),
    }
}

/// What `check` takes the bytes of FILE as, which are in the LP format or else in MPS.
///
/// # Errors
///
/// `OutOfMemory` alone.
pub fn take_file(alloc: Global, bytes: &[u8], lp: bool) -> Result<Taken, OutOfMemory>
    ensures { IfOk result (IsTaken (format_by lp) bytes.now) }
{
    match read_model(alloc, bytes, lp) {
        Ok(model) => fitting(alloc, model),
        Err(Fault::Named(fault)) => {
            let answer = refused_file(alloc, fault)?;
            Ok(Taken::Refused(answer))
        }
        Err(Fault::OutOfMemory) => Err(OutOfMemory),
    }
}
