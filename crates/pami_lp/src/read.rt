//! Whole texts.

ghost use Rattle.std.specs.Prelude.{IfOk, ◌≡◌, ◌≤◌, drop, length};
ghost use Rattle.pami_frac.specs.Answers.{FollowsBy};
ghost use Rattle.pami_model.specs.Contents.{Contents, contents};
ghost use Rattle.pami_model.specs.declared.fault.FileFault.{FileFault};
ghost use Rattle.pami_lp_text.specs.Classes.{first_text, symbols};
ghost use Rattle.pami_lp_text.specs.Told.{all_told};
ghost use Rattle.pami_lp.specs.Lp.{FirstFault, IsReadAs, IsRefused, IsRefusedAs, Lp};
ghost use Rattle.pami_lp.specs.Run.{start};
ghost use Rattle.pami_lp.specs.Outcome.{ended, first_class, reads, outcome, is_end as end_test};

use crate::kind::Place;
use crate::reader::Reader;
use pami_frac::Fault;
use pami_lp_text::{Class, Token, class_of, tokens};
use pami_model::{BYTE_LIMIT, FileFault, FileKind, Model};
use std::alloc::Global;

/// What is wrong, with its line.
fn at_line(line: u32, fault: Fault<FileKind>) -> Fault<FileFault>
    ensures { result ≡ Rattle.pami_lp.specs.Outcome.lined line fault }
{
    match fault {
        Fault::Named(kind) => Fault::Named(FileFault { line, kind }),
        Fault::OutOfMemory => Fault::OutOfMemory,
    }
}

/// The text of the token at this place, or no text behind the last.
fn text_at<'a>(tokens: &[Token<'a>], i: usize) -> &'a [u8]
    ensures { result.now ≡ first_text (drop i (all_told tokens.now)) }
{
    if i < tokens.len() {
        return tokens[i].text;
    }
    &[]
}

/// The class of the token at this place; behind the last, that of a byte of no token.
fn class_at(tokens: &[Token], i: usize) -> Class
    requires { i ≤ length tokens.now }
    ensures { result ≡ first_class (drop i (symbols (all_told tokens.now))) }
{
    if i == tokens.len() {
        return Class::Bad;
    }
    let token = tokens[i];
    class_of(token.text, token.first, text_at(tokens, i + 1))
}

fn is_end(place: Place) -> bool
    ensures { result ≡ end_test place }
{
    match place {
        Place::End => true,
        _ => false,
    }
}

/// Takes the tokens as far as `end`, one after another; answers the reader with the line of `end`.
fn read_tokens(
    alloc: Global,
    tokens: &[Token],
    lines: u32,
) -> Result<(Reader, u32), Fault<FileFault>>
    requires { lines ≤ 16777216 }
    ensures { FollowsBy ended (reads start lines (symbols (all_told tokens.now))) result }
{
    let mut reader = Reader::new(alloc)?;
    let mut class = class_at(tokens, 0);
    for (i, token) in tokens.iter().enumerate() {
        let after = class_at(tokens, i + 1);
        if let Err(fault) = reader.take(alloc, class, after, token.text) {
            return Err(at_line(token.line, fault));
        }
        if is_end(reader.place) {
            return Ok((reader, token.line));
        }
        class = after;
    }
    Err(Fault::Named(FileFault {
        line: lines + 1,
        kind: FileKind::EndMissing,
    }))
}

/// The model of a text, or the first thing that is wrong with it.
fn read_text(alloc: Global, bytes: &[u8]) -> Result<Model, Fault<FileFault>>
    ensures { FollowsBy contents (outcome bytes.now) result }
{
    if bytes.len() > BYTE_LIMIT {
        return Err(Fault::Named(FileFault {
            line: 0,
            kind: FileKind::TooLong,
        }));
    }
    let (found, lines) = tokens(alloc, bytes)?;
    let (reader, end) = match read_tokens(alloc, found.as_slice(), lines) {
        Ok(read) => read,
        Err(fault) => return Err(fault),
    };
    match reader.builder.finish() {
        Ok(model) => Ok(model),
        Err(Fault::Named(_)) => Err(Fault::Named(FileFault {
            line: end,
            kind: FileKind::Crossed,
        })),
        Err(Fault::OutOfMemory) => Err(Fault::OutOfMemory),
    }
}

/// The model that the bytes are an LP text of. Memory is asked of `alloc`.
///
/// # Errors
///
/// The first thing that is wrong, exactly where the bytes are a text of no model, with its line, counted from 1: a token
/// that no file of the grammar goes on with; one whose number, value, name or sum is faulty, or the row that it
/// completes; crossed bounds of a column at `end`; tokens that end before `end`, in the line behind the last; or more
/// than 16,777,216 bytes, with line 0. `OutOfMemory` where memory ran out.
pub fn read_lp(alloc: Global, bytes: &[u8]) -> Result<Model, Fault<FileFault>>
    // What is answered is a model of the text, and a named fault is its first.
    ensures accepted { IfOk result (λ m. Lp bytes.now (contents m)) }
    ensures refused { IsRefused bytes.now result }

    // A text of a model is read as that, and one with a first fault is refused for it: or memory runs out.
    ensures only_model { (c : Contents) → Lp bytes.now c → IsReadAs c result }
    ensures only_fault { (f : FileFault) → FirstFault bytes.now f → IsRefusedAs f result }
{
    read_text(alloc, bytes)
}
