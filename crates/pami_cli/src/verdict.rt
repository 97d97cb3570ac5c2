//! What the bytes of CERT are answered: a verdict, or that they are no certificate.

ghost use Rattle.std.specs.Prelude.{◌≡◌, ◌∷◌, [], ◌++◌, IfOk, OnOk};
ghost use Rattle.pami_frac.specs.Printed.{printed};
ghost use Rattle.pami_model.specs.Contents.{contents};
ghost use Rattle.pami_lines.specs.Line.{spaced};
ghost use Rattle.pami_lines.specs.Words.{operation_word};
ghost use Rattle.pami_check.specs.ConditionWords.{condition_word};
ghost use Rattle.pami_cli.specs.Judged.{verdict_status, Judges};
ghost use Rattle.pami_cli.specs.Text.{subject_word, verdict_text, malformed_text};

use crate::answer::Answer;
use crate::status::Status;
use pami_cert::{CertFault, CertKind, read_cert};
use pami_check::{Condition, Verdict, check};
use pami_frac::{Fault, OutOfMemory, Refused};
use pami_lines::{push_fraction, push_number, push_operation, push_word};
use pami_log::push_variable;
use pami_model::Model;
use std::alloc::Global;

/// The status that goes with a verdict.
fn status_of(verdict: &Verdict) -> Status
    ensures { result ≡ verdict_status verdict.now }
{
    match verdict {
        Verdict::Valid => Status::Good,
        Verdict::Invalid { .. } => Status::Invalid,
        Verdict::Refused { .. } => Status::Unchecked,
    }
}

/// The words of a condition and of what it speaks of, with a blank before each.
///
/// # Errors
///
/// `OutOfMemory` alone.
fn push_condition(
    out: &mut Vec<u8>,
    model: &Model,
    condition: Condition,
    variable: Option<u32>,
) -> Result<(), OutOfMemory>
    ensures { OnOk result (out.new.items
        ≡ out.old.items ++ spaced (condition_word condition ∷ subject_word (contents model.now) variable ∷ [])) }
{
    push_word(out, condition.word())?;
    match variable {
        Some(variable) => push_variable(out, model, variable),
        None => push_word(out, b"-"),
    }
}

/// The words of a refused operation: the operation and its two operands, with a blank before each.
///
/// # Errors
///
/// `OutOfMemory` alone.
fn push_refused(out: &mut Vec<u8>, refused: &Refused) -> Result<(), OutOfMemory>
    ensures { OnOk result (out.new.items ≡ out.old.items
        ++ spaced (operation_word refused.now.op ∷ printed refused.now.left ∷ printed refused.now.right ∷ [])) }
{
    push_operation(out, refused.op)?;
    push_fraction(out, &refused.left)?;
    push_fraction(out, &refused.right)
}

/// The text of a verdict on a certificate of this model.
///
/// # Errors
///
/// `OutOfMemory` alone.
fn print_verdict(alloc: Global, model: &Model, verdict: &Verdict) -> Result<Vec<u8>, OutOfMemory>
    ensures { IfOk result (λ text. text.items ≡ verdict_text (contents model.now) verdict.now) }
{
    let mut text = Vec::new(alloc);
    match verdict {
        Verdict::Valid => text.extend_from_slice(b"valid")?,
        Verdict::Invalid {
            condition,
            variable,
        } => {
            text.extend_from_slice(b"invalid")?;
            push_condition(&mut text, model, *condition, *variable)?;
        }
        Verdict::Refused {
            condition,
            variable,
            refused,
        } => {
            text.extend_from_slice(b"unchecked")?;
            push_condition(&mut text, model, *condition, *variable)?;
            push_refused(&mut text, refused)?;
        }
    }
    text.push(b'\n')?;
    Ok(text)
}

/// The answer on a text that is no certificate: the line of its first fault, and the word of its kind.
///
/// # Errors
///
/// `OutOfMemory` alone.
fn malformed(alloc: Global, fault: CertFault) -> Result<Answer, OutOfMemory>
    ensures status { IfOk result (λ a. a.status ≡ Status.Malformed) }
    ensures text { IfOk result (λ a. a.text.items ≡ malformed_text fault) }
{
    let mut text = Vec::from_slice(alloc, b"malformed")?;
    push_number(&mut text, u64::from(fault.line))?;
    push_word(&mut text, fault.kind.word())?;
    text.push(b'\n')?;
    Ok(Answer {
        status: Status::Malformed,
        text,
    })
}

/// What a CERT of more bytes than the limit is answered.
///
/// # Errors
///
/// `OutOfMemory` alone.
pub fn long_cert(alloc: Global) -> Result<Answer, OutOfMemory>
    ensures status { IfOk result (λ a. a.status ≡ Status.Malformed) }
    ensures text { IfOk result (λ a. a.text.items ≡ malformed_text (record { line = 0; kind = CertKind.TooLong })) }
{
    let fault = CertFault {
        line: 0,
        kind: CertKind::TooLong,
    };
    malformed(alloc, fault)
}

/// What the bytes of CERT are answered against this model.
///
/// # Errors
///
/// `OutOfMemory` alone.
pub fn cert_answer(alloc: Global, model: &Model, bytes: &[u8]) -> Result<Answer, OutOfMemory>
    ensures { IfOk result (λ a. Judges (contents model.now) bytes.now a.status a.text.items) }
{
    match read_cert(alloc, bytes, model) {
        Ok(cert) => {
            let verdict = check(model, &cert);
            Ok(Answer {
                status: status_of(&verdict),
                text: print_verdict(alloc, model, &verdict)?,
            })
        }
        Err(Fault::Named(fault)) => malformed(alloc, fault),
        Err(Fault::OutOfMemory) => Err(OutOfMemory),
    }
}
