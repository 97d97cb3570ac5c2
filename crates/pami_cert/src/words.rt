//! The words of a line, cut at each blank.

ghost use Rattle.std.specs.Prelude.{◌≡◌, ◌≢◌, ◌<◌, ◌≤◌, ℕ, [], ◌∷◌, false, true, length, slice_index, MatchOption, nat_eq};
ghost use Rattle.pami_cert.specs.CertText.{is_head as the_is_head, words_of};

/// How many bytes stand before the first blank.
fn blank_place(bytes: &[u8]) -> usize
    ensures within { result ≤ length bytes.now }
    ensures before { (k : ℕ) → k < result → nat_eq (slice_index bytes.now k) 32 ≡ false }
    ensures found { result < length bytes.now → nat_eq (slice_index bytes.now result) 32 ≡ true }
{
    for (i, byte) in bytes.iter().enumerate() {
        if *byte == b' ' {
            return i;
        }
    }
    bytes.len()
}

/// The word before the first blank, and what stands behind that blank; `None` where there is no blank.
fn first_word(line: &[u8]) -> Option<(&[u8], &[u8])>
    ensures { MatchOption result (words_of line.now ≡ line.now ∷ [])
        (λ p. words_of line.now ≡ p.0.now ∷ words_of p.1.now) }
{
    let place = blank_place(line);
    if place == line.len() {
        return None;
    }
    let (word, _) = line.split_at(place);
    let (_, rest) = line.split_at(place + 1);
    Some((word, rest))
}

/// The word of a line that has one.
pub(crate) fn one_word(line: &[u8]) -> Option<&[u8]>
    ensures { MatchOption result (length (words_of line.now) ≢ 1) (λ w. words_of line.now ≡ w.now ∷ []) }
{
    match first_word(line) {
        Some(_) => None,
        None => Some(line),
    }
}

/// The words of a line that has two.
pub(crate) fn two_words(line: &[u8]) -> Option<(&[u8], &[u8])>
    ensures { MatchOption result (length (words_of line.now) ≢ 2) (λ p. words_of line.now ≡ p.0.now ∷ p.1.now ∷ []) }
{
    let (first, rest) = first_word(line)?;
    Some((first, one_word(rest)?))
}

/// The words of a line that has three.
pub(crate) fn three_words(line: &[u8]) -> Option<(&[u8], &[u8], &[u8])>
    ensures { MatchOption result (length (words_of line.now) ≢ 3)
        (λ p. words_of line.now ≡ p.0.now ∷ p.1.now ∷ p.2.now ∷ []) }
{
    let (first, rest) = first_word(line)?;
    let (second, third) = two_words(rest)?;
    Some((first, second, third))
}

/// The words of a line that has four.
pub(crate) fn four_words(line: &[u8]) -> Option<(&[u8], &[u8], &[u8], &[u8])>
    ensures { MatchOption result (length (words_of line.now) ≢ 4)
        (λ p. words_of line.now ≡ p.0.now ∷ p.1.now ∷ p.2.now ∷ p.3.now ∷ []) }
{
    let (first, rest) = first_word(line)?;
    let (second, third, fourth) = three_words(rest)?;
    Some((first, second, third, fourth))
}

/// Whether the line begins a certificate.
pub(crate) fn is_head(line: &[u8]) -> bool
    ensures { result ≡ the_is_head (words_of line.now) }
{
    if let Some((first, rest)) = first_word(line) {
        if let Some((second, _)) = first_word(rest) {
            return first == b"certificate".as_slice() && second == b"1".as_slice();
        }
    }
    false
}
