//! What one word is by itself.

ghost use Rattle.std.specs.Prelude.{◌≡◌};
ghost use Rattle.std.specs.List.{position_or_len};
ghost use Rattle.pami_frac.specs.Answers.{FollowsBy};
ghost use Rattle.pami_words.specs.Items as words;

use crate::command::BadWords;
use crate::table::{OptionName, Takes};
use crate::value::{Value, value_in};
use pami_edge::Word;
use pami_frac::Fault;
use std::alloc::Global;

/// A plain word, or an option with its value.
#[derive(Debug, Drop)]
pub enum Item {
    Plain(Word),
    Given(OptionName, Value),
}

/// What a word is by itself: an item, or an option whose value is the next word.
#[derive(Debug, Drop)]
pub enum Reading {
    Alone(Item),
    Opens { option: OptionName, takes: Takes },
}

/// Whether the word is plain: not empty, and without a dash in front unless it is the dash alone.
fn is_plain(word: &[u8]) -> bool
    ensures { result ≡ words.is_plain word.now }
{
    match word {
        [] => false,
        [_] => true,
        [first, ..] => *first != b'-',
    }
}

/// The index of the first `=`, or the length.
fn equals_place(word: &[u8]) -> usize
    ensures { result ≡ position_or_len words.is_equals word.now }
{
    for (i, byte) in word.iter().enumerate() {
        if *byte == b'=' {
            return i;
        }
    }
    word.len()
}

/// An option that takes this, with the value that a text gives it.
pub fn given(option: OptionName, takes: Takes, text: &[u8]) -> Option<Item>
    ensures { result ≡ words.given option takes text.now }
{
    let value = value_in(takes, text)?;
    Some(Item::Given(option, value))
}

/// An option that takes a value, with what stands behind its word: nothing, or `=` and a value.
fn option_valued(option: OptionName, takes: Takes, behind: &[u8]) -> Option<Reading>
    ensures { result ≡ words.option_valued option takes behind.now }
{
    match behind {
        [] => Some(Reading::Opens { option, takes }),
        [_, value @ ..] => {
            let item = given(option, takes, value)?;
            Some(Reading::Alone(item))
        }
    }
}

/// An option that takes no value, with what stands behind its word: nothing.
fn option_alone(option: OptionName, behind: &[u8]) -> Option<Reading>
    ensures { result ≡ words.option_alone option behind.now }
{
    match behind {
        [] => Some(Reading::Alone(Item::Given(option, Value::Nothing))),
        _ => None,
    }
}

/// An option that takes this, with what stands behind its word.
pub fn option_taking(option: OptionName, takes: Takes, behind: &[u8]) -> Option<Reading>
    ensures { result ≡ words.option_taking option takes behind.now }
{
    match takes {
        Takes::Nothing => option_alone(option, behind),
        Takes::Number {
            least: _,
            greatest: _,
        } => option_valued(option, takes, behind),
        Takes::Format => option_valued(option, takes, behind),
    }
}

/// A word with a dash in front: up to the first `=` it is the word of one of these options.
fn option_reading(options: &[OptionName], word: &[u8]) -> Option<Reading>
    ensures { result ≡ words.option_reading options.now word.now }
{
    let place = equals_place(word);
    let option = OptionName::among(options, &word[..place])?;
    option_taking(option, option.takes(), &word[place..])
}

/// A word that isn't the end of the options.
///
/// # Errors
///
/// `Named` exactly where the word is neither plain nor one of these options, alone or with a value that it takes.
/// `OutOfMemory` where memory runs out.
pub fn reading_of(
    alloc: Global,
    options: &[OptionName],
    word: &Word,
) -> Result<Reading, Fault<BadWords>>
    ensures { FollowsBy (λ reading. reading) (words.or_bad (words.reading_of options.now word.now)) result }
{
    if is_plain(word.as_slice()) {
        return Ok(Reading::Alone(Item::Plain(word.copy(alloc)?)));
    }
    Ok(option_reading(options, word.as_slice()).ok_or(BadWords)?)
}
