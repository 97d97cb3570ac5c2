//! What single words mean.

ghost use Rattle.std.specs.Prelude.{◌≡◌};
ghost use Rattle.pami_mps.specs.Line as line;
ghost use Rattle.pami_mps.specs.Gather as gather;
ghost use Rattle.pami_mps.specs.Judge as judge;
ghost use Rattle.pami_mps.specs.Limits as limits;

use crate::kind::{LimitKind, RowKind, Section};
use pami_model::Sense;

/// The section that a word begins.
pub(crate) fn section_of(word: &[u8]) -> Option<Section>
    ensures { result ≡ line.section_of word.now }
{
    if word == b"NAME".as_slice() {
        return Some(Section::Name);
    }
    if word == b"OBJSENSE".as_slice() {
        return Some(Section::SenseDue);
    }
    if word == b"ROWS".as_slice() {
        return Some(Section::Rows);
    }
    if word == b"COLUMNS".as_slice() {
        return Some(Section::Columns);
    }
    if word == b"RHS".as_slice() {
        return Some(Section::Rhs);
    }
    if word == b"RANGES".as_slice() {
        return Some(Section::Ranges);
    }
    if word == b"BOUNDS".as_slice() {
        return Some(Section::Limits);
    }
    if word == b"ENDATA".as_slice() {
        return Some(Section::End);
    }
    None
}

/// The place of a section in the order of sections.
pub(crate) fn rank(section: Section) -> u8
    ensures { result ≡ line.rank section }
{
    match section {
        Section::Start => 0,
        Section::Name => 1,
        Section::SenseDue => 2,
        Section::SenseGiven => 3,
        Section::Rows => 4,
        Section::Columns => 5,
        Section::Rhs => 6,
        Section::Ranges => 7,
        Section::Limits => 8,
        Section::End => 9,
    }
}

/// The place as far as which the next section may stand.
fn due(section: Section) -> u8
    ensures { result ≡ line.due section }
{
    match section {
        Section::SenseDue => 2,
        Section::Start | Section::Name | Section::SenseGiven => 4,
        Section::Rows => 5,
        _ => 9,
    }
}

/// Whether a section may stand behind another.
pub(crate) fn follows(before: Section, next: Section) -> bool
    ensures { result ≡ line.follows before next }
{
    rank(before) < rank(next) && rank(next) <= due(before)
}

/// The sense that a word names.
pub(crate) fn sense_of(word: &[u8]) -> Option<Sense>
    ensures { result ≡ gather.sense_of word.now }
{
    if word == b"MAX".as_slice() {
        return Some(Sense::Max);
    }
    if word == b"MAXIMIZE".as_slice() {
        return Some(Sense::Max);
    }
    if word == b"MIN".as_slice() {
        return Some(Sense::Min);
    }
    if word == b"MINIMIZE".as_slice() {
        return Some(Sense::Min);
    }
    None
}

/// The type of row that a word names.
pub(crate) fn kind_of(word: &[u8]) -> Option<RowKind>
    ensures { result ≡ gather.kind_of word.now }
{
    match word {
        [b'N'] => Some(RowKind::Free),
        [b'L'] => Some(RowKind::AtMost),
        [b'G'] => Some(RowKind::AtLeast),
        [b'E'] => Some(RowKind::Equal),
        _ => None,
    }
}

/// Whether the word marks a part of an integer model.
pub(crate) fn is_marker(word: &[u8]) -> bool
    ensures { result ≡ judge.is_marker word.now }
{
    word == b"'MARKER'".as_slice()
}

/// The type of bound that a word names.
pub(crate) fn limit_kind_of(word: &[u8]) -> Option<LimitKind>
    ensures { result ≡ limits.limit_kind_of word.now }
{
    match word {
        [b'U', b'P'] => Some(LimitKind::Upper),
        [b'L', b'O'] => Some(LimitKind::Lower),
        [b'F', b'X'] => Some(LimitKind::Fixed),
        [b'F', b'R'] => Some(LimitKind::Unbounded),
        [b'M', b'I'] => Some(LimitKind::NoLower),
        [b'P', b'L'] => Some(LimitKind::NoUpper),
        _ => None,
    }
}

/// Whether the word is the type of a bound of an integer model.
pub(crate) fn is_whole_kind(word: &[u8]) -> bool
    ensures { result ≡ limits.is_whole_kind word.now }
{
    match word {
        [b'B', b'V'] => true,
        [b'L', b'I'] => true,
        [b'U', b'I'] => true,
        [b'S', b'C'] => true,
        [b'S', b'I'] => true,
        _ => false,
    }
}
