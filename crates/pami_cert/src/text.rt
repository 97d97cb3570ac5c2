//! A text as its lines, each judged where it stands.

ghost use Rattle.std.specs.Prelude.{◌≡◌, ◌<◌, ◌≤◌, ◌+◌, [], length, map, MatchResult, IfOk, IfErr};
ghost use Rattle.std.specs.List.{All};
ghost use Rattle.pami_edge.specs.Lines.{lines_of, piece, IsWithin};
ghost use Rattle.pami_model.specs.Contents.{Contents};
ghost use Rattle.pami_model.specs.Rules.{byte_limit};
ghost use Rattle.pami_cert.specs.CertLines.{end_line};
ghost use Rattle.pami_cert.specs.CertText.{lines_in, words_of, Fit, MayFit};
ghost use Rattle.pami_cert.specs.Due.{Objective, Variable, End};
ghost use Rattle.pami_cert.specs.FirstFault.{fault_at as the_fault_at, FaultFrom};
ghost use Rattle.pami_cert.specs.Read.{left_at, HasLine, HasHeadAt, IsWrongAt, objective_line, pair_line, member_line};

use crate::cert::{CertFault, CertKind, Claim};
use crate::judge::{read_claim, read_end, read_member, read_objective, read_pair};
use crate::part::Part;
use crate::words::is_head;
use pami_edge::{Line, lines};
use pami_frac::{Frac, OutOfMemory};
use std::alloc::Global;

/// The bytes of a text, and where its lines stand in them.
#[derive(Drop)]
pub(crate) struct Text<'a> {
    bytes: &'a [u8],
    lines: Vec<Line>,
    ghost within: { All (IsWithin bytes.now) lines.items },
    ghost pieces: { map (piece bytes.now) lines.items ≡ lines_of bytes.now },
    ghost few: { length lines.items ≤ byte_limit },
}

/// This fault of the line at this index, which is its number without 1.
fn fault_at(at: usize, kind: CertKind) -> CertFault
    requires { at ≤ byte_limit }
    ensures { result ≡ the_fault_at (at + 1) kind }
{
    CertFault {
        line: at as u32 + 1,
        kind,
    }
}

/// What a line was judged to be, or its fault where it stands.
fn located<T>(at: usize, judged: Result<T, CertKind>) -> Result<T, CertFault>
    requires { at < byte_limit }
    ensures { MatchResult judged (λ x. result ≡ Ok x) (λ kind. result ≡ Err (the_fault_at (at + 1) kind)) }
{
    match judged {
        Ok(value) => Ok(value),
        Err(kind) => Err(fault_at(at, kind)),
    }
}

impl<'a> Text<'a> {
    /// Cuts the bytes into lines.
    pub(crate) fn new(alloc: Global, bytes: &'a [u8]) -> Result<Text<'a>, OutOfMemory>
        requires { length bytes.now ≤ byte_limit }
        ensures { IfOk result (λ text. text.bytes.now ≡ bytes.now) }
    {
        let lines = lines(alloc, bytes)?;
        Ok(Text { bytes, lines })
    }

    /// The line at this index, which is at most the count of lines.
    fn line(&self, at: usize) -> Result<&[u8], CertFault>
        requires { at ≤ length (lines_in self.now.bytes.now) }
        ensures there { IfOk result (λ line. HasLine self.now.bytes.now at (words_of line.now)) }
        ensures within { IfOk result (λ line. at < byte_limit) }
        ensures ended { IfErr result
            (λ fault. (left_at self.now.bytes.now at ≡ []) × (fault ≡ the_fault_at (at + 1) CertKind.EndMissing)) }
    {
        match self.lines.as_slice().get(at) {
            Some(line) => Ok(line.of(self.bytes)),
            None => Err(fault_at(at, CertKind::EndMissing)),
        }
    }

    /// The objective in the line at this index; `None` where it is told as too wide.
    pub(crate) fn objective(&self, at: usize) -> Result<Option<Frac>, CertFault>
        requires { at ≤ length (lines_in self.now.bytes.now) }
        ensures due { IfOk result (λ o. HasLine self.now.bytes.now at (objective_line o) × MayFit o) }
        ensures wrong { IfErr result (λ fault. IsWrongAt Objective self.now.bytes.now at fault) }
    {
        let line = self.line(at)?;
        located(at, read_objective(line))
    }

    /// The two numbers in the line at this index, which is due of a name.
    pub(crate) fn pair(&self, at: usize, part: Part, name: &[u8]) -> Result<(Frac, Frac), CertFault>
        requires { at ≤ length (lines_in self.now.bytes.now) }
        ensures due { IfOk result
            (λ p. HasLine self.now.bytes.now at (pair_line part name.now p.0 p.1) × (Fit p.0 × Fit p.1)) }
        ensures wrong { IfErr result (λ fault. IsWrongAt (Variable part name.now 2) self.now.bytes.now at fault) }
    {
        let line = self.line(at)?;
        located(at, read_pair(line, part, name))
    }

    /// The number in the line at this index, which is due of a name.
    pub(crate) fn member(&self, at: usize, part: Part, name: &[u8]) -> Result<Frac, CertFault>
        requires { at ≤ length (lines_in self.now.bytes.now) }
        ensures due { IfOk result (λ v. HasLine self.now.bytes.now at (member_line part name.now v) × Fit v) }
        ensures wrong { IfErr result (λ fault. IsWrongAt (Variable part name.now 1) self.now.bytes.now at fault) }
    {
        let line = self.line(at)?;
        located(at, read_member(line, part, name))
    }

    /// The last line of a certificate, which is due at this index.
    pub(crate) fn end(&self, at: usize) -> Result<(), CertFault>
        requires { at ≤ length (lines_in self.now.bytes.now) }
        ensures due { IfOk result (λ done. HasLine self.now.bytes.now at end_line) }
        ensures wrong { IfErr result (λ fault. IsWrongAt End self.now.bytes.now at fault) }
    {
        let line = self.line(at)?;
        located(at, read_end(line))
    }

    /// The index of the first line that begins a certificate, and its claim.
    pub(crate) fn head(&self) -> Result<(usize, Claim), CertFault>
        ensures found { IfOk result (λ p. HasHeadAt self.now.bytes.now p.0 p.1) }
        ensures wrong { IfErr result (λ fault. (c : Contents) → FaultFrom c 1 (lines_in self.now.bytes.now) fault) }
    {
        for (at, place) in self.lines.as_slice().iter().enumerate() {
            let line = place.of(self.bytes);
            if is_head(line) {
                return Ok((at, located(at, read_claim(line))?));
            }
        }
        Err(fault_at(self.lines.len(), CertKind::Absent))
    }
}
