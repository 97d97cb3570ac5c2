//! The texts of certificates, read.

ghost use Rattle.std.specs.Prelude.{◌<◌, ◌≤◌, ◌+◌, length, IfOk};
ghost use Rattle.pami_model.specs.Contents.{contents};
ghost use Rattle.pami_cert.specs.declared.cert.Cert.{Cert};
ghost use Rattle.pami_cert.specs.declared.cert.CertFault.{CertFault};
ghost use Rattle.pami_cert.specs.CertText.{lines_in, IsCertText};
ghost use Rattle.pami_cert.specs.Due.{due, part_due};
ghost use Rattle.pami_cert.specs.FirstFault.{FirstFault, IfNamed, IsReadAs, IsRefusedAs};
ghost use Rattle.pami_cert.specs.Plain.{IsPrinted};
ghost use Rattle.pami_cert.specs.Read.{left_at, HasPairs, HasMembers, HasBody, IsWrongFrom};

use crate::cert::{Cert, CertFault, CertKind, Claim};
use crate::part::Part;
use crate::text::Text;
use pami_frac::{Fault, FracList};
use pami_model::{BYTE_LIMIT, Model};
use std::alloc::Global;

/// The numbers of the part whose lines begin at this index, two in each line.
fn read_pairs(
    alloc: Global,
    text: &Text,
    at: usize,
    model: &Model,
    part: Part,
) -> Result<(FracList, FracList), Fault<CertFault>>
    requires { at ≤ length (lines_in text.now.bytes.now) }
    ensures read { IfOk result (λ p. HasPairs (contents model.now) part text.now.bytes.now at p.0 p.1) }
    ensures wrong { IfNamed result
        (λ fault. IsWrongFrom (part_due (contents model.now) part 2) text.now.bytes.now at fault) }
{
    let mut values = Vec::new(alloc);
    let mut others = Vec::new(alloc);
    for i in 0..part.count(model) {
        let (value, other) = text.pair(at + i, part, part.name(model, i))?;
        values.push(value)?;
        others.push(other)?;
    }
    Ok((FracList::from_vec(values), FracList::from_vec(others)))
}

/// The numbers of the part whose lines begin at this index, one in each line.
fn read_members(
    alloc: Global,
    text: &Text,
    at: usize,
    model: &Model,
    part: Part,
) -> Result<FracList, Fault<CertFault>>
    requires { at ≤ length (lines_in text.now.bytes.now) }
    ensures read { IfOk result (λ p. HasMembers (contents model.now) part text.now.bytes.now at p) }
    ensures wrong { IfNamed result
        (λ fault. IsWrongFrom (part_due (contents model.now) part 1) text.now.bytes.now at fault) }
{
    let mut values = Vec::new(alloc);
    for i in 0..part.count(model) {
        values.push(text.member(at + i, part, part.name(model, i))?)?;
    }
    Ok(FracList::from_vec(values))
}

/// The certificate of an optimum whose lines behind the first one begin at this index.
fn read_optimal(
    alloc: Global,
    text: &Text,
    at: usize,
    model: &Model,
) -> Result<Cert, Fault<CertFault>>
    requires { at ≤ length (lines_in text.now.bytes.now) }
    ensures read { IfOk result
        (λ cert. HasBody (contents model.now) Claim.Optimal (left_at text.now.bytes.now at) cert) }
    ensures wrong { IfNamed result
        (λ fault. IsWrongFrom (due (contents model.now) Claim.Optimal) text.now.bytes.now at fault) }
{
    let objective = text.objective(at)?;
    let columns = at + 1;
    let (x, d) = read_pairs(alloc, text, columns, model, Part::Columns)?;
    let rows = columns + Part::Columns.count(model);
    let (r, y) = read_pairs(alloc, text, rows, model, Part::Rows)?;
    text.end(rows + Part::Rows.count(model))?;
    Ok(Cert::Optimal {
        objective,
        x,
        d,
        r,
        y,
    })
}

/// The certificate of rows that can't be met whose lines behind the first one begin at this index.
fn read_infeasible(
    alloc: Global,
    text: &Text,
    at: usize,
    model: &Model,
) -> Result<Cert, Fault<CertFault>>
    requires { at ≤ length (lines_in text.now.bytes.now) }
    ensures read { IfOk result
        (λ cert. HasBody (contents model.now) Claim.Infeasible (left_at text.now.bytes.now at) cert) }
    ensures wrong { IfNamed result
        (λ fault. IsWrongFrom (due (contents model.now) Claim.Infeasible) text.now.bytes.now at fault) }
{
    let y = read_members(alloc, text, at, model, Part::Rows)?;
    text.end(at + Part::Rows.count(model))?;
    Ok(Cert::Infeasible { y })
}

/// The certificate of a direction whose lines behind the first one begin at this index.
fn read_dual_infeasible(
    alloc: Global,
    text: &Text,
    at: usize,
    model: &Model,
) -> Result<Cert, Fault<CertFault>>
    requires { at ≤ length (lines_in text.now.bytes.now) }
    ensures read { IfOk result
        (λ cert. HasBody (contents model.now) Claim.DualInfeasible (left_at text.now.bytes.now at) cert) }
    ensures wrong { IfNamed result
        (λ fault. IsWrongFrom (due (contents model.now) Claim.DualInfeasible) text.now.bytes.now at fault) }
{
    let x = read_members(alloc, text, at, model, Part::Columns)?;
    let rows = at + Part::Columns.count(model);
    let r = read_members(alloc, text, rows, model, Part::Rows)?;
    text.end(rows + Part::Rows.count(model))?;
    Ok(Cert::DualInfeasible { x, r })
}

/// The certificate in the bytes, or their first fault.
fn read_text(alloc: Global, bytes: &[u8], model: &Model) -> Result<Cert, Fault<CertFault>>
    ensures accepted { IfOk result (λ cert. IsCertText (contents model.now) bytes.now cert) }
    ensures refused { IfNamed result (λ fault. FirstFault (contents model.now) bytes.now fault) }
{
    if bytes.len() > BYTE_LIMIT {
        return Err(Fault::Named(CertFault {
            line: 0,
            kind: CertKind::TooLong,
        }));
    }
    let text = Text::new(alloc, bytes)?;
    let (head, claim) = text.head()?;
    match claim {
        Claim::Optimal => read_optimal(alloc, &text, head + 1, model),
        Claim::Infeasible => read_infeasible(alloc, &text, head + 1, model),
        Claim::DualInfeasible => read_dual_infeasible(alloc, &text, head + 1, model),
    }
}

/// The certificate that the bytes tell of an answer to this model. They are read from the first line on that begins with
/// `certificate 1 `; what stands before that line, and behind the line `end`, isn't read. Words are separated by one
/// blank each, the lines go by column and then by row in the model's order, and the numbers are printed fractions. Memory
/// is asked of `alloc`.
///
/// # Errors
///
/// The first fault, exactly where the bytes are no text of a certificate for this model: its line, counted from 1, and
/// what is wrong there first, in the order of the count of words, the first word, the name, the numbers. Where no line
/// begins a certificate, or the text ends before `end`, the line is the one behind the last; a text of more than
/// 16,777,216 bytes is `TooLong` in line 0. `OutOfMemory` where memory ran out.
pub fn read_cert(alloc: Global, bytes: &[u8], model: &Model) -> Result<Cert, Fault<CertFault>>
    // What is answered is the certificate of the text.
    ensures accepted { IfOk result (λ cert. IsCertText (contents model.now) bytes.now cert) }
    // A named fault is the first fault of the text.
    ensures refused { IfNamed result (λ fault. FirstFault (contents model.now) bytes.now fault) }
    // A text's certificate is answered, and its first fault, but for want of memory.
    ensures only_certificate { (cert : Cert) → IsCertText (contents model.now) bytes.now cert → IsReadAs cert result }
    ensures only_fault { (fault : CertFault)
        → FirstFault (contents model.now) bytes.now fault → IsRefusedAs fault result }
    // What was printed is read again, whatever stands behind it within the limit, and whatever plain lines in front.
    ensures printed { (cert : Cert) → IsPrinted (contents model.now) bytes.now cert → IsReadAs cert result }
{
    read_text(alloc, bytes, model)
}
