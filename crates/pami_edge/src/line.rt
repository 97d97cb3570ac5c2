//! The lines of a text.

ghost use Rattle.std.specs.Prelude.{◌≡◌, ◌≢◌, ◌<◌, ◌≤◌, ◌^◌, ℕ, ◌∷◌, length, slice_index, take, drop, map, IfOk};
ghost use Rattle.std.specs.List.{All};
ghost use Rattle.pami_edge.specs.Lines.{lines_of, piece, IsWithin};

use pami_frac::OutOfMemory;
use std::alloc::Global;

/// Where a line stands: its bytes are those from `start` up to but not including `end`.
#[derive(Clone, Copy, Debug, PartialEq, Eq)]
pub struct Line {
    pub start: u32,
    pub end: u32,
}

impl Line {
    /// The line's bytes, of the bytes that it was cut from.
    pub fn of<'a>(&self, bytes: &'a [u8]) -> &'a [u8]
        requires { IsWithin bytes.now self.now }
        ensures { result.now ≡ piece bytes.now self.now }
    {
        &bytes[self.start as usize..self.end as usize]
    }
}

/// The index of the first line feed, or the length.
fn feed_place(bytes: &[u8]) -> usize
    ensures within { result ≤ length bytes.now }
    ensures before { (k : ℕ) → k < result → slice_index bytes.now k ≢ 10 }
    ensures found { result < length bytes.now → slice_index bytes.now result ≡ 10 }
{
    for (i, byte) in bytes.iter().enumerate() {
        if *byte == b'\n' {
            return i;
        }
    }
    bytes.len()
}

/// How many bytes the first line has, and how many it has with its end.
fn first_line(bytes: &[u8]) -> (usize, usize)
    requires { 0 < length bytes.now }
    ensures within { result.0 ≤ result.1 }
    ensures some { 0 < result.1 }
    ensures inside { result.1 ≤ length bytes.now }
    ensures first { lines_of bytes.now ≡ take result.0 bytes.now ∷ lines_of (drop result.1 bytes.now) }
{
    let feed = feed_place(bytes);
    if feed == bytes.len() {
        return (feed, feed);
    }
    if feed > 0 && bytes[feed - 1] == b'\r' {
        return (feed - 1, feed + 1);
    }
    (feed, feed + 1)
}

/// The lines of the bytes, cut at each line feed. One carriage return right before a line feed isn't part of the
/// line. Behind the last line feed there is a line only where bytes stand there.
pub fn lines(alloc: Global, bytes: &[u8]) -> Result<Vec<Line>, OutOfMemory>
    requires { length bytes.now < 2 ^ 32 }
    ensures within { IfOk result (λ lines. All (IsWithin bytes.now) lines.items) }
    ensures pieces { IfOk result (λ lines. map (piece bytes.now) lines.items ≡ lines_of bytes.now) }
{
    let mut out = Vec::new(alloc);
    let mut start = 0usize;
    while start < bytes.len() {
        let (text, whole) = first_line(&bytes[start..]);
        out.push(Line {
            start: start as u32,
            end: (start + text) as u32,
        })?;
        start += whole;
    }
    Ok(out)
}
