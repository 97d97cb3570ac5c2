//! Words of lines, each put at the end of a list of bytes with a blank before it. Each call is refused for want of memory
//! alone; a part of the word may then stand at the end.

ghost use Rattle.std.specs.Prelude.{◌≡◌, ◌∷◌, [], ◌++◌, OnOk, decimal};
ghost use Rattle.pami_frac.specs.Printed.{printed};
ghost use Rattle.pami_theory.specs.Step.{stand_on};
ghost use Rattle.pami_lines.specs.Words.{dashed, operation_word};
ghost use Rattle.pami_lines.specs.Letters.{letter, letter_word};

use itoa::Buffer;
use pami_frac::{Frac, Op, OutOfMemory};
use pami_theory::{Side, Stand};

/// A blank and a whole number.
pub fn push_number(out: &mut Vec<u8>, number: u64) -> Result<(), OutOfMemory>
    ensures { OnOk result (out.new.items ≡ out.old.items ++ 32 ∷ decimal number) }
{
    let mut digits = Buffer::new();
    out.push(b' ')?;
    out.extend_from_slice(digits.format(number).as_bytes())?;
    Ok(())
}

/// A blank and a fraction.
pub fn push_fraction(out: &mut Vec<u8>, value: &Frac) -> Result<(), OutOfMemory>
    ensures { OnOk result (out.new.items ≡ out.old.items ++ 32 ∷ printed value.now) }
{
    out.push(b' ')?;
    value.append_to(out)
}

/// A blank and one letter.
fn push_letter(out: &mut Vec<u8>, letter: u8) -> Result<(), OutOfMemory>
    ensures { OnOk result (out.new.items ≡ out.old.items ++ 32 ∷ letter ∷ []) }
{
    out.push(b' ')?;
    out.push(letter)?;
    Ok(())
}

/// The letter of how a variable stands.
pub fn letter_of(stand: Stand) -> u8
    ensures { result ≡ letter stand }
{
    match stand {
        Stand::Basic => b'B',
        Stand::Lower => b'L',
        Stand::Upper => b'U',
        Stand::Zero => b'Z',
    }
}

/// A blank and the letter of how a variable stands.
pub fn push_stand(out: &mut Vec<u8>, stand: Stand) -> Result<(), OutOfMemory>
    ensures { OnOk result (out.new.items ≡ out.old.items ++ 32 ∷ letter_word stand) }
{
    push_letter(out, letter_of(stand))
}

/// A blank and the letter of the bound that a variable leaves to.
pub fn push_side(out: &mut Vec<u8>, side: Side) -> Result<(), OutOfMemory>
    ensures { OnOk result (out.new.items ≡ out.old.items ++ 32 ∷ letter_word (stand_on side)) }
{
    push_stand(out, Stand::on(side))
}

/// A blank and a word.
pub fn push_word(out: &mut Vec<u8>, word: &[u8]) -> Result<(), OutOfMemory>
    ensures { OnOk result (out.new.items ≡ out.old.items ++ 32 ∷ word.now) }
{
    out.push(b' ')?;
    out.extend_from_slice(word)?;
    Ok(())
}

/// A blank, a word and a number, with a dash before the number.
pub fn push_dashed(out: &mut Vec<u8>, word: &[u8], number: u32) -> Result<(), OutOfMemory>
    ensures { OnOk result (out.new.items ≡ out.old.items ++ 32 ∷ dashed word.now (number ∷ [])) }
{
    let mut digits = Buffer::new();
    out.push(b' ')?;
    out.extend_from_slice(word)?;
    out.push(b'-')?;
    out.extend_from_slice(digits.format(number).as_bytes())?;
    Ok(())
}

/// A blank, a word and two numbers, with a dash before each.
pub fn push_twice_dashed(
    out: &mut Vec<u8>,
    word: &[u8],
    first: u32,
    second: u32,
) -> Result<(), OutOfMemory>
    ensures { OnOk result (out.new.items ≡ out.old.items ++ 32 ∷ dashed word.now (first ∷ second ∷ [])) }
{
    let mut digits = Buffer::new();
    push_dashed(out, word, first)?;
    out.push(b'-')?;
    out.extend_from_slice(digits.format(second).as_bytes())?;
    Ok(())
}

/// A blank and an operation.
pub fn push_operation(out: &mut Vec<u8>, operation: Op) -> Result<(), OutOfMemory>
    ensures { OnOk result (out.new.items ≡ out.old.items ++ 32 ∷ operation_word operation) }
{
    match operation {
        Op::Add => push_word(out, b"add"),
        Op::Sub => push_word(out, b"sub"),
        Op::Mul => push_word(out, b"mul"),
        Op::Div => push_word(out, b"div"),
    }
}
