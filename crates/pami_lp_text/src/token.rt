//! The tokens of a text.

ghost use Rattle.std.specs.Prelude.{◌≡◌, ◌<◌, ◌≤◌, ◌++◌, true, length, IfOk};
ghost use Rattle.pami_frac.specs.Decimal.{before};
ghost use Rattle.pami_edge.specs.Lines.{lines_of};
ghost use Rattle.pami_lp_text.specs.Lexeme as lexeme;
ghost use Rattle.pami_lp_text.specs.Lexeme.{is_backslash, marked, words_of, text_words};
ghost use Rattle.pami_lp_text.specs.Told.{all_told};

use crate::scan::lexeme_length;
use pami_edge::lines;
use pami_frac::OutOfMemory;
use std::alloc::Global;

/// A token: a lexeme or a byte of none, with its line, counted from 1, and whether it is the first of its line.
#[derive(Clone, Copy, Debug)]
pub struct Token<'a> {
    pub text: &'a [u8],
    pub line: u32,
    pub first: bool,
}

/// The line as far as its comment.
fn uncommented(line: &[u8]) -> &[u8]
    ensures { result.now ≡ before is_backslash line.now }
{
    for (i, byte) in line.iter().enumerate() {
        if *byte == b'\\' {
            return &line[..i];
        }
    }
    line
}

/// How long the piece in front is: the longest lexeme, or one byte.
fn piece_length(bytes: &[u8]) -> usize
    requires { 0 < length bytes.now }
    ensures value { result ≡ lexeme.piece_length bytes.now }
    ensures some { 0 < result }
    ensures within { result ≤ length bytes.now }
{
    let found = lexeme_length(bytes);
    if found == 0 {
        return 1;
    }
    found
}

fn is_blank(piece: &[u8]) -> bool
    ensures { result ≡ lexeme.is_blank piece.now }
{
    match piece {
        [b' '] => true,
        [b'\t'] => true,
        _ => false,
    }
}

/// Puts the tokens of a line behind those before it.
fn take_line<'a>(line: &'a [u8], number: u32, out: &mut Vec<Token<'a>>) -> Result<(), OutOfMemory>
    ensures { IfOk result (λ _. all_told out.new.items ≡
        all_told out.old.items ++ marked number true (words_of line.now)) }
{
    let mut rest = uncommented(line);
    let mut first = true;
    while !rest.is_empty() {
        let (text, after) = rest.split_at(piece_length(rest));
        if !is_blank(text) {
            out.push(Token {
                text,
                line: number,
                first,
            })?;
            first = false;
        }
        rest = after;
    }
    Ok(())
}

/// The tokens of the text, and the count of its lines.
pub fn tokens<'a>(alloc: Global, bytes: &'a [u8]) -> Result<(Vec<Token<'a>>, u32), OutOfMemory>
    requires { length bytes.now ≤ 16777216 }
    ensures tokens { IfOk result (λ r. all_told r.0.items ≡ text_words bytes.now) }
    ensures lines { IfOk result (λ r. r.1 ≡ length (lines_of bytes.now)) }
    ensures few { IfOk result (λ r. r.1 ≤ 16777216) }
{
    let found = lines(alloc, bytes)?;
    let mut out = Vec::new(alloc);
    for (i, line) in found.as_slice().iter().enumerate() {
        take_line(line.of(bytes), i as u32 + 1, &mut out)?;
    }
    let count = found.as_slice().len() as u32;
    Ok((out, count))
}
