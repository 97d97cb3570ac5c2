//! Words, and what the first byte of a line and its control bytes say.

ghost use Rattle.std.specs.Prelude.{◌≡◌, ◌<◌, ◌≤◌, ℕ, false, true, not, length, slice_index, map, IfOk};
ghost use Rattle.std.specs.List.{list_any};
ghost use Rattle.pami_mps.specs.Line.{is_blank, is_control as control_test, is_comment as comment_test, stops, words_of};

use std::alloc::{AllocError, Global};

/// Whether the byte is a space or a tab.
fn is_space(byte: u8) -> bool
    ensures { result ≡ is_blank byte }
{
    byte == b' ' || byte == b'\t'
}

/// How many blanks stand in front.
fn blanks(bytes: &[u8]) -> usize
    ensures within { result ≤ length bytes.now }
    ensures before { (k : ℕ) → k < result → is_blank (slice_index bytes.now k) ≡ true }
    ensures found { result < length bytes.now → is_blank (slice_index bytes.now result) ≡ false }
{
    for (i, byte) in bytes.iter().enumerate() {
        if !is_space(*byte) {
            return i;
        }
    }
    bytes.len()
}

/// How many bytes stand before the first blank.
fn word_length(bytes: &[u8]) -> usize
    ensures within { result ≤ length bytes.now }
    ensures before { (k : ℕ) → k < result → is_blank (slice_index bytes.now k) ≡ false }
    ensures found { result < length bytes.now → is_blank (slice_index bytes.now result) ≡ true }
{
    for (i, byte) in bytes.iter().enumerate() {
        if is_space(*byte) {
            return i;
        }
    }
    bytes.len()
}

/// The words of a line: the pieces between blanks.
pub(crate) fn words(alloc: Global, line: &[u8]) -> Result<Vec<&[u8]>, AllocError>
    ensures { IfOk result (λ v. map (λ x. x.now) v.items ≡ words_of line.now) }
{
    let mut out = Vec::new(alloc);
    let mut rest = &line[blanks(line)..];
    while !rest.is_empty() {
        let (word, after) = rest.split_at(word_length(rest));
        out.push(word)?;
        rest = &after[blanks(after)..];
    }
    Ok(out)
}

/// Whether the line is skipped as a comment.
pub(crate) fn is_comment(line: &[u8]) -> bool
    ensures { result ≡ comment_test line.now }
{
    match line {
        [b'*', ..] => true,
        _ => false,
    }
}

/// Whether the line begins with a word.
pub(crate) fn is_head(line: &[u8]) -> bool
    ensures { result ≡ not (stops line.now) }
{
    match line {
        [] => false,
        [byte, ..] => !is_space(*byte),
    }
}

/// Whether the byte is below the space and no tab, or 127.
fn is_control(byte: u8) -> bool
    ensures { result ≡ control_test byte }
{
    (byte < 32 && byte != b'\t') || byte == 127
}

/// Whether a control byte stands in the line.
pub(crate) fn has_control(line: &[u8]) -> bool
    ensures { result ≡ list_any control_test line.now }
{
    for byte in line {
        if is_control(*byte) {
            return true;
        }
    }
    false
}
