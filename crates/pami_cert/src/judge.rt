//! A line, judged against what is due in it: the numbers that it tells, or what is wrong with it first.

ghost use Rattle.std.specs.Prelude.{◌≡◌, [], ◌∷◌, true, codes, MatchOption, IfOk, IfErr};
ghost use Rattle.pami_frac.specs.Printed.{printed};
ghost use Rattle.pami_lines.specs.Certificate.{objective_word};
ghost use Rattle.pami_cert.specs.Part.{tag};
ghost use Rattle.pami_cert.specs.CertLines.{head_line, end_line};
ghost use Rattle.pami_cert.specs.CertText.{words_of, Fit, MayFit, is_head as the_is_head};
ghost use Rattle.pami_cert.specs.Due.{Objective, Variable, End, IsNumber, IsWrong};
ghost use Rattle.pami_cert.specs.FirstFault.{claim_word};
ghost use Rattle.pami_cert.specs.Read.{pair_line, member_line};

use crate::cert::{CertKind, Claim};
use crate::part::Part;
use crate::words::{four_words, one_word, three_words, two_words};
use pami_frac::{Frac, read_fraction};

/// The fraction that a word is the printed text of.
fn number(word: &[u8]) -> Result<Frac, CertKind>
    ensures read { IfOk result (λ v. Fit v × (word.now ≡ printed v)) }
    ensures wrong { IfErr result (λ kind. (kind ≡ CertKind.Number) × (¬ IsNumber word.now)) }
{
    match read_fraction(word) {
        Ok(value) => Ok(value),
        Err(_) => Err(CertKind::Number),
    }
}

/// The claim that a word names.
fn claim_of(word: &[u8]) -> Option<Claim>
    ensures { MatchOption result ((claim : Claim) → ¬ (word.now ≡ claim_word claim))
        (λ claim. word.now ≡ claim_word claim) }
{
    if word == b"optimal".as_slice() {
        return Some(Claim::Optimal);
    }
    if word == b"infeasible".as_slice() {
        return Some(Claim::Infeasible);
    }
    if word == b"dual-infeasible".as_slice() {
        return Some(Claim::DualInfeasible);
    }
    None
}

/// The claim of a line that begins a certificate.
pub(crate) fn read_claim(line: &[u8]) -> Result<Claim, CertKind>
    requires { the_is_head (words_of line.now) ≡ true }
    ensures due { IfOk result (λ claim. words_of line.now ≡ head_line (claim_word claim)) }
    ensures wrong { IfErr result (λ kind. (kind ≡ CertKind.Word)
        × ((claim : Claim) → ¬ (words_of line.now ≡ head_line (claim_word claim)))) }
{
    let (_, _, word) = three_words(line).ok_or(CertKind::Word)?;
    claim_of(word).ok_or(CertKind::Word)
}

/// The objective that a line tells; `None` where it is told as too wide.
pub(crate) fn read_objective(line: &[u8]) -> Result<Option<Frac>, CertKind>
    ensures due { IfOk result (λ o. (words_of line.now ≡ codes "objective" ∷ objective_word o ∷ []) × MayFit o) }
    ensures wrong { IfErr result (λ kind. IsWrong Objective (words_of line.now) kind) }
{
    let (first, value) = two_words(line).ok_or(CertKind::Word)?;
    if first != b"objective".as_slice() {
        return Err(CertKind::Word);
    }
    if value == b"wide".as_slice() {
        return Ok(None);
    }
    Ok(Some(number(value)?))
}

/// The two numbers in the line of this name.
pub(crate) fn read_pair(line: &[u8], part: Part, name: &[u8]) -> Result<(Frac, Frac), CertKind>
    ensures due { IfOk result (λ p. (words_of line.now ≡ pair_line part name.now p.0 p.1) × (Fit p.0 × Fit p.1)) }
    ensures wrong { IfErr result (λ kind. IsWrong (Variable part name.now 2) (words_of line.now) kind) }
{
    let (first, second, value, other) = four_words(line).ok_or(CertKind::Word)?;
    if first != part.tag() {
        return Err(CertKind::Word);
    }
    if second != name {
        return Err(CertKind::Name);
    }
    Ok((number(value)?, number(other)?))
}

/// The number in the line of this name.
pub(crate) fn read_member(line: &[u8], part: Part, name: &[u8]) -> Result<Frac, CertKind>
    ensures due { IfOk result (λ v. (words_of line.now ≡ member_line part name.now v) × Fit v) }
    ensures wrong { IfErr result (λ kind. IsWrong (Variable part name.now 1) (words_of line.now) kind) }
{
    let (first, second, value) = three_words(line).ok_or(CertKind::Word)?;
    if first != part.tag() {
        return Err(CertKind::Word);
    }
    if second != name {
        return Err(CertKind::Name);
    }
    number(value)
}

/// Whether the line is the last one of a certificate.
pub(crate) fn read_end(line: &[u8]) -> Result<(), CertKind>
    ensures due { IfOk result (λ done. words_of line.now ≡ end_line) }
    ensures wrong { IfErr result (λ kind. IsWrong End (words_of line.now) kind) }
{
    let first = one_word(line).ok_or(CertKind::Word)?;
    if first != b"end".as_slice() {
        return Err(CertKind::Word);
    }
    Ok(())
}
