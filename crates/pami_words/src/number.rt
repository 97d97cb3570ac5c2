//! The numbers that words write.

ghost use Rattle.std.specs.Prelude.{◌≡◌};
ghost use Rattle.pami_words.specs.Numbers.{number_in as the_number_in, number_between as the_number_between, longer as the_longer};

/// The number that 1 to 10 digits write, if it is in this range.
pub fn number_between(text: &[u8], least: u32, greatest: u32) -> Option<u32>
    ensures { result ≡ the_number_between least greatest text.now }
{
    let number = number_in(text, greatest)?;
    if least <= number { Some(number) } else { None }
}

/// The number that 1 to 10 digits write, if it is at most the greatest.
fn number_in(text: &[u8], greatest: u32) -> Option<u32>
    ensures { result ≡ the_number_in greatest text.now }
{
    if text.is_empty() || 10 < text.len() {
        return None;
    }
    let mut number = 0;
    for byte in text {
        number = longer(number, *byte, greatest)?;
    }
    Some(number)
}

/// The number with one more digit, if the byte is a digit and the number stays at most the greatest.
fn longer(number: u32, byte: u8, greatest: u32) -> Option<u32>
    ensures { result ≡ the_longer greatest number byte }
{
    if !byte.is_ascii_digit() {
        return None;
    }
    let number = 10 * u64::from(number) + u64::from(byte - b'0');
    if number <= u64::from(greatest) {
        Some(number as u32)
    } else {
        None
    }
}
