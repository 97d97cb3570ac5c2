//! Lexemes, byte by byte.

ghost use Rattle.std.specs.Prelude.{◌≡◌};
ghost use Rattle.pami_frac.specs.Decimal as decimal;
ghost use Rattle.pami_lp_text.specs.Lexeme as lexeme;
ghost use Rattle.pami_lp_text.specs.Lexeme.{longest};
ghost use Rattle.pami_lp_text.specs.Scanning as scanning;
ghost use Rattle.pami_lp_text.specs.Scanning.{through};

use crate::kind::Scan;

pub(crate) fn is_digit(byte: u8) -> bool
    ensures { result ≡ decimal.is_digit byte }
{
    b'0' <= byte && byte <= b'9'
}

fn is_letter(byte: u8) -> bool
    ensures { result ≡ lexeme.is_letter byte }
{
    (b'a' <= byte && byte <= b'z') || (b'A' <= byte && byte <= b'Z')
}

/// Whether the byte may stand in a name but is no letter, digit or point.
fn is_symbol(byte: u8) -> bool
    ensures { result ≡ lexeme.is_symbol byte }
{
    (b'!' <= byte && byte <= b')')
        || byte == b','
        || byte == b'/'
        || byte == b';'
        || byte == b'?'
        || byte == b'@'
        || byte == b'_'
        || byte == b'`'
        || (b'{' <= byte && byte <= b'~')
}

/// Whether a name may begin with the byte.
pub(crate) fn starts_name(byte: u8) -> bool
    ensures { result ≡ lexeme.starts_name byte }
{
    is_letter(byte) || is_symbol(byte)
}

pub(crate) fn is_name_byte(byte: u8) -> bool
    ensures { result ≡ lexeme.is_name_byte byte }
{
    is_letter(byte) || is_digit(byte) || byte == b'.' || is_symbol(byte)
}

fn begun(byte: u8) -> Scan
    ensures { result ≡ scanning.begun byte }
{
    if is_digit(byte) {
        return Scan::Digits;
    }
    if starts_name(byte) {
        return Scan::Name;
    }
    match byte {
        b'.' => Scan::Point,
        b'<' => Scan::Less,
        b'=' => Scan::Equals,
        b'>' => Scan::Greater,
        b'+' => Scan::Closed,
        b'-' => Scan::Closed,
        b':' => Scan::Closed,
        b' ' => Scan::Closed,
        b'\t' => Scan::Closed,
        _ => Scan::Dead,
    }
}

/// A number whose digits with their point have gone so far.
fn in_number(byte: u8, more: Scan) -> Scan
    ensures { result ≡ scanning.in_number byte more }
{
    if is_digit(byte) {
        return more;
    }
    if byte == b'e' || byte == b'E' {
        return Scan::Mark;
    }
    Scan::Dead
}

fn digit_to(byte: u8, next: Scan) -> Scan
    ensures { result ≡ scanning.digit_to byte next }
{
    if is_digit(byte) {
        return next;
    }
    Scan::Dead
}

/// The scan with one more byte.
fn scanned(scan: Scan, byte: u8) -> Scan
    ensures { result ≡ scanning.scanned scan byte }
{
    match scan {
        Scan::Start => begun(byte),
        Scan::Digits => {
            if byte == b'.' {
                return Scan::Fraction;
            }
            in_number(byte, Scan::Digits)
        }
        Scan::Point => digit_to(byte, Scan::Fraction),
        Scan::Fraction => in_number(byte, Scan::Fraction),
        Scan::Mark => {
            if byte == b'+' || byte == b'-' {
                return Scan::MarkSign;
            }
            digit_to(byte, Scan::Power)
        }
        Scan::MarkSign => digit_to(byte, Scan::Power),
        Scan::Power => digit_to(byte, Scan::Power),
        Scan::Name => {
            if is_name_byte(byte) {
                return Scan::Name;
            }
            Scan::Dead
        }
        Scan::Less => {
            if byte == b'=' {
                return Scan::Closed;
            }
            Scan::Dead
        }
        Scan::Equals => {
            if byte == b'<' || byte == b'>' {
                return Scan::Closed;
            }
            Scan::Dead
        }
        Scan::Greater => {
            if byte == b'=' {
                return Scan::Closed;
            }
            Scan::Dead
        }
        Scan::Closed => Scan::Dead,
        Scan::Dead => Scan::Dead,
    }
}

/// Whether the bytes so far are a lexeme.
fn is_whole(scan: Scan) -> bool
    ensures { result ≡ scanning.is_whole scan }
{
    match scan {
        Scan::Start => false,
        Scan::Point => false,
        Scan::Mark => false,
        Scan::MarkSign => false,
        Scan::Dead => false,
        _ => true,
    }
}

/// How long the longest lexeme in front is; 0 where there is none.
pub(crate) fn lexeme_length(bytes: &[u8]) -> usize
    ensures { result ≡ longest bytes.now }
{
    let mut scan = Scan::Start;
    let mut best = 0;
    for (i, byte) in bytes.iter().enumerate() {
        scan = scanned(scan, *byte);
        match scan {
            Scan::Dead => return best,
            _ => {}
        }
        if is_whole(scan) {
            best = i + 1;
        }
    }
    best
}

/// The scan of a whole text.
pub(crate) fn scan_of(text: &[u8]) -> Scan
    ensures { result ≡ through Scan.Start text.now }
{
    let mut scan = Scan::Start;
    for byte in text {
        scan = scanned(scan, *byte);
    }
    scan
}
