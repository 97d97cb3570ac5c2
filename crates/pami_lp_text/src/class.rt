//! The class of a token.

ghost use Rattle.std.specs.Prelude.{◌≡◌, codes, if◌then◌else◌, Option, None, Some};
ghost use Rattle.std.specs.Char.{to_ascii_lowercase};
ghost use Rattle.pami_lp_text.specs.Classes as classes;
ghost use Rattle.pami_lp_text.specs.Lexeme as lexeme;
ghost use Rattle.pami_lp_text.specs.Scanning.{is_number_scan};
ghost use Rattle.pami_lp_text.specs.Classes.{class_by, is_least, is_greatest};

use crate::kind::{Class, Relation, Scan};
use crate::scan::{is_digit, is_name_byte, scan_of, starts_name};
use crate::token::Token;
use pami_model::Sense;

/// Whether the text is this word, without regard to case. The word is in small letters.
fn is_word(text: &[u8], word: &[u8]) -> bool
    ensures { result ≡ classes.is_word text.now word.now }
{
    if text.len() != word.len() {
        return false;
    }
    for (i, byte) in text.iter().enumerate() {
        if byte.to_ascii_lowercase() != word[i] {
            return false;
        }
    }
    true
}

fn goal_of(text: &[u8]) -> Option<Sense>
    ensures { result ≡
        (if is_least text.now then Some Sense.Min else if is_greatest text.now then Some Sense.Max else None) }
{
    if is_word(text, b"min")
        || is_word(text, b"minimum")
        || is_word(text, b"minimize")
        || is_word(text, b"minimise")
    {
        return Some(Sense::Min);
    }
    if is_word(text, b"max")
        || is_word(text, b"maximum")
        || is_word(text, b"maximize")
        || is_word(text, b"maximise")
    {
        return Some(Sense::Max);
    }
    None
}

fn is_rows_word(text: &[u8]) -> bool
    ensures { result ≡ classes.is_rows_word text.now }
{
    is_word(text, b"st") || is_word(text, b"s.t.") || is_word(text, b"st.")
}

fn are_rows_words(text: &[u8], after: &[u8]) -> bool
    ensures { result ≡ classes.are_rows_words text.now after.now }
{
    (is_word(text, b"subject") && is_word(after, b"to"))
        || (is_word(text, b"such") && is_word(after, b"that"))
}

fn is_bounds_word(text: &[u8]) -> bool
    ensures { result ≡ classes.is_bounds_word text.now }
{
    is_word(text, b"bounds") || is_word(text, b"bound")
}

fn is_whole_word(text: &[u8]) -> bool
    ensures { result ≡ classes.is_whole_word text.now }
{
    is_word(text, b"general")
        || is_word(text, b"generals")
        || is_word(text, b"gen")
        || is_word(text, b"integer")
        || is_word(text, b"integers")
        || is_word(text, b"int")
        || is_word(text, b"binary")
        || is_word(text, b"binaries")
        || is_word(text, b"bin")
        || is_word(text, b"semi")
        || is_word(text, b"semis")
        || is_word(text, b"sos")
        || is_word(text, b"sos1")
        || is_word(text, b"sos2")
}

/// The class of a name where no section word may stand.
fn plain_class(text: &[u8]) -> Class
    ensures { result ≡ classes.plain_class text.now }
{
    if is_word(text, b"free") {
        return Class::Free;
    }
    if is_word(text, b"inf") || is_word(text, b"infinity") {
        return Class::Infinity;
    }
    Class::Name
}

/// The class of a name where a section word may stand.
fn head_class(text: &[u8], after: &[u8]) -> Class
    ensures { result ≡ classes.head_class text.now after.now }
{
    if let Some(sense) = goal_of(text) {
        return Class::Goal(sense);
    }
    if is_rows_word(text) {
        return Class::Rows;
    }
    if are_rows_words(text, after) {
        return Class::RowsPair;
    }
    if is_bounds_word(text) {
        return Class::Bounds;
    }
    if is_word(text, b"end") {
        return Class::End;
    }
    if is_whole_word(text) {
        return Class::Whole;
    }
    plain_class(text)
}

/// The class of a text of one or two signs.
fn mark_class(text: &[u8]) -> Class
    ensures { result ≡ classes.sign_class text.now }
{
    if is_word(text, b"<") || is_word(text, b"<=") || is_word(text, b"=<") {
        return Class::Relation(Relation::AtMost);
    }
    if is_word(text, b">") || is_word(text, b">=") || is_word(text, b"=>") {
        return Class::Relation(Relation::AtLeast);
    }
    if is_word(text, b"=") {
        return Class::Relation(Relation::Equal);
    }
    if is_word(text, b"+") {
        return Class::Plus;
    }
    if is_word(text, b"-") {
        return Class::Minus;
    }
    if is_word(text, b":") {
        return Class::Colon;
    }
    Class::Bad
}

/// Whether a scan is that of a number.
fn ends_number(scan: Scan) -> bool
    ensures { result ≡ is_number_scan scan }
{
    match scan {
        Scan::Digits => true,
        Scan::Fraction => true,
        Scan::Power => true,
        _ => false,
    }
}

/// Whether the text is a number. Only what begins with a digit or a point is scanned.
fn is_number(text: &[u8]) -> bool
    ensures { result ≡ lexeme.is_number text.now }
{
    if text.is_empty() {
        return false;
    }
    let first = text[0];
    if !is_digit(first) && first != b'.' {
        return false;
    }
    ends_number(scan_of(text))
}

/// Whether the text is a name.
fn is_name(text: &[u8]) -> bool
    ensures { result ≡ lexeme.is_name text.now }
{
    if text.is_empty() {
        return false;
    }
    if !starts_name(text[0]) {
        return false;
    }
    for byte in text {
        if !is_name_byte(*byte) {
            return false;
        }
    }
    true
}

/// The class of a token before the text `after`, which is empty at the end.
pub fn class_of(text: &[u8], first: bool, after: &[u8]) -> Class
    ensures { result ≡ class_by text.now first after.now }
{
    if is_number(text) {
        return Class::Number;
    }
    if !is_name(text) {
        return mark_class(text);
    }
    let labelled = is_word(after, b":");
    if first && !labelled {
        return head_class(text, after);
    }
    plain_class(text)
}
