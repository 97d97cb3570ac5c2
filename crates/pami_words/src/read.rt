//! The reading of all words.

ghost use Rattle.std.specs.Prelude.{◌≡◌, ◌≤◌, length, option_map, IfOk, Some};
ghost use Rattle.pami_frac.specs.Answers.{FollowsBy};
ghost use Rattle.pami_words.specs.Items.{all_plain, items_of, or_bad};
ghost use Rattle.pami_words.specs.declared.item.Reading.TheVariants.{Opens};
ghost use Rattle.pami_words.specs.Fronts.{item_at_front, front, behind};
ghost use Rattle.pami_words.specs.Words as asked;

use crate::command::{BadWords, Command};
use crate::item::{Item, Reading, given, reading_of};
use crate::number::number_between;
use crate::table::{
    CommandName, DEFAULT_BATCH, DEFAULT_LIMIT, DEFAULT_REFACTOR, GREATEST_SEED, GREATEST_SIDE,
    OptionName, Takes,
};
use crate::value::Value;
use pami_edge::Word;
use pami_frac::Fault;
use pami_method::Options;
use std::alloc::Global;

/// An option with the first of these words as its value, and the words behind that one.
fn opened<'a>(
    option: OptionName,
    takes: Takes,
    later: &'a [Word],
) -> Result<(Item, &'a [Word]), Fault<BadWords>>
    ensures item { FollowsBy (λ r. (r.0, r.1.now)) (or_bad (front (Some (Opens option takes)) later.now)) result }
    ensures shorter { IfOk result (λ r. length r.1.now ≤ length later.now) }
{
    match later {
        [next, behind @ ..] => {
            let item = given(option, takes, next.as_slice()).ok_or(BadWords)?;
            Ok((item, behind))
        }
        [] => Err(Fault::Named(BadWords)),
    }
}

/// The item at the front of a word and those behind it, and the words behind the item.
///
/// # Errors
///
/// `Named` exactly where the word is no item and opens none, or the next word isn't there or is no value of the
/// option. `OutOfMemory` where memory runs out.
fn front_item<'a>(
    alloc: Global,
    options: &[OptionName],
    word: &Word,
    later: &'a [Word],
) -> Result<(Item, &'a [Word]), Fault<BadWords>>
    ensures item { FollowsBy (λ r. (r.0, r.1.now)) (or_bad (item_at_front options.now word.now later.now)) result }
    ensures shorter { IfOk result (λ r. length r.1.now ≤ length later.now) }
{
    match reading_of(alloc, options, word)? {
        Reading::Alone(item) => Ok((item, later)),
        Reading::Opens { option, takes } => opened(option, takes, later),
    }
}

/// The items so far with those of words that are all plain.
///
/// # Errors
///
/// `Named` exactly where one of the words is empty. `OutOfMemory` where memory runs out.
fn with_plain(alloc: Global, items: Vec<Item>, words: &[Word]) -> Result<Vec<Item>, Fault<BadWords>>
    ensures { FollowsBy (λ all. all.items) (or_bad (behind items.items (all_plain words.now))) result }
{
    let mut items = items;
    for word in words {
        if word.as_slice().is_empty() {
            return Err(Fault::Named(BadWords));
        }
        items.push(Item::Plain(word.copy(alloc)?))?;
    }
    Ok(items)
}

/// The items of the words behind a command that has these options.
///
/// # Errors
///
/// `Named` exactly where some word is no item at its place. `OutOfMemory` where memory runs out.
fn read_items(
    alloc: Global,
    options: &[OptionName],
    words: &[Word],
) -> Result<Vec<Item>, Fault<BadWords>>
    ensures { FollowsBy (λ all. all.items) (or_bad (items_of options.now words.now)) result }
{
    let mut items = Vec::new(alloc);
    let mut rest = words;
    while let [word, later @ ..] = rest {
        if word.is(b"--") {
            return with_plain(alloc, items, later);
        }
        let (item, behind) = front_item(alloc, options, word, later)?;
        items.push(item)?;
        rest = behind;
    }
    Ok(items)
}

/// How many plain words there are.
fn count_plain(items: &[Item]) -> usize
    ensures { result ≡ length (asked.plain_words items.now) }
{
    let mut count = 0;
    for item in items {
        if let Item::Plain(_) = item {
            count += 1;
        }
    }
    count
}

/// The plain word at this place among the plain words.
fn word_at(items: &[Item], place: usize) -> Option<&Word>
    ensures { option_map (λ w. w.now) result ≡ asked.word_at place items.now }
{
    let mut before = place;
    for item in items {
        if let Item::Plain(word) = item {
            if before == 0 {
                return Some(word);
            }
            before -= 1;
        }
    }
    None
}

/// How often the option is given.
fn count_of(items: &[Item], option: OptionName) -> usize
    ensures { result ≡ length (asked.values_of option items.now) }
{
    let mut count = 0;
    for item in items {
        if let Item::Given(other, _) = item
            && option.is(*other)
        {
            count += 1;
        }
    }
    count
}

/// The first value that the option is given.
fn first_value(items: &[Item], option: OptionName) -> Option<Value>
    ensures { result ≡ asked.first_value option items.now }
{
    for item in items {
        if let Item::Given(other, value) = item
            && option.is(*other)
        {
            return Some(*value);
        }
    }
    None
}

/// Whether the option is given.
fn is_given(items: &[Item], option: OptionName) -> bool
    ensures { result ≡ asked.is_given option items.now }
{
    1 <= count_of(items, option)
}

/// The number that the plain word at this place writes, if it is in this range.
fn number_at(items: &[Item], place: usize, least: u32, greatest: u32) -> Option<u32>
    ensures { result ≡ asked.number_at least greatest place items.now }
{
    let word = word_at(items, place)?;
    number_between(word.as_slice(), least, greatest)
}

/// The number that is given, or this one.
fn number_or(default: u32, given: Option<Value>) -> u32
    ensures { result ≡ asked.number_or default given }
{
    match given {
        Some(Value::Number(number)) => number,
        Some(Value::Format(_)) => default,
        Some(Value::Nothing) => default,
        None => default,
    }
}

/// Whether the name ends in `.lp`, in letters of any case.
fn is_lp_name(name: &[u8]) -> bool
    ensures { result ≡ asked.is_lp_name name.now }
{
    let ending = name.len().saturating_sub(3);
    name[ending..].eq_ignore_ascii_case(b".lp")
}

/// Whether the format that is given, or that of the name, is LP.
fn lp_or(name: &[u8], given: Option<Value>) -> bool
    ensures { result ≡ asked.lp_or name.now given }
{
    match given {
        Some(Value::Format(format)) => format.is_lp(),
        Some(Value::Number(_)) => is_lp_name(name),
        Some(Value::Nothing) => is_lp_name(name),
        None => is_lp_name(name),
    }
}

/// Whether each of these options is given at most once.
fn are_once(options: &[OptionName], items: &[Item]) -> bool
    ensures { result ≡ asked.are_once options.now items.now }
{
    for option in options {
        if 1 < count_of(items, *option) {
            return false;
        }
    }
    true
}

/// The options of a run that these items give, each its default where it isn't given.
fn options_asked(items: &[Item]) -> Options
    ensures { result ≡ asked.options_asked items.now }
{
    Options {
        batch: number_or(DEFAULT_BATCH, first_value(items, OptionName::Batch)),
        refactor: number_or(DEFAULT_REFACTOR, first_value(items, OptionName::Refactor)),
        limit: number_or(DEFAULT_LIMIT, first_value(items, OptionName::Limit)),
    }
}

/// What `solve` is asked by items that are its own.
///
/// # Errors
///
/// `Named` exactly where there is no plain word. `OutOfMemory` where memory runs out.
fn solve_asked(alloc: Global, items: &[Item]) -> Result<Command, Fault<BadWords>>
    ensures { FollowsBy (λ command. command) (or_bad (asked.solve_asked items.now)) result }
{
    let file = word_at(items, 0).ok_or(BadWords)?;
    Ok(Command::Solve {
        file: file.copy(alloc)?,
        lp: lp_or(file.as_slice(), first_value(items, OptionName::Format)),
        options: options_asked(items),
        ranging: is_given(items, OptionName::Ranging),
    })
}

/// What `check` is asked by items that are its own.
///
/// # Errors
///
/// `Named` exactly where there are fewer than two plain words. `OutOfMemory` where memory runs out.
fn check_asked(alloc: Global, items: &[Item]) -> Result<Command, Fault<BadWords>>
    ensures { FollowsBy (λ command. command) (or_bad (asked.check_asked items.now)) result }
{
    let file = word_at(items, 0).ok_or(BadWords)?;
    let cert = word_at(items, 1).ok_or(BadWords)?;
    Ok(Command::Check {
        file: file.copy(alloc)?,
        cert: cert.copy(alloc)?,
        lp: lp_or(file.as_slice(), first_value(items, OptionName::Format)),
    })
}

/// What `trial` is asked by items that are its own.
fn trial_asked(items: &[Item]) -> Option<Command>
    ensures { result ≡ asked.trial_asked items.now }
{
    let seed = number_at(items, 0, 0, GREATEST_SEED)?;
    let sources = number_at(items, 1, 1, GREATEST_SIDE)?;
    let sinks = number_at(items, 2, 1, GREATEST_SIDE)?;
    Some(Command::Trial {
        seed,
        sources,
        sinks,
    })
}

/// What a command is asked by these items, if they are its own.
///
/// # Errors
///
/// `Named` exactly where the items aren't those of the command's row. `OutOfMemory` where memory runs out.
fn command_by(alloc: Global, name: CommandName, items: &[Item]) -> Result<Command, Fault<BadWords>>
    ensures { FollowsBy (λ command. command) (or_bad (asked.command_by name items.now)) result }
{
    if count_plain(items) != name.plain() || !are_once(name.options(), items) {
        return Err(Fault::Named(BadWords));
    }
    match name {
        CommandName::Solve => solve_asked(alloc, items),
        CommandName::Check => check_asked(alloc, items),
        CommandName::Trial => Ok(trial_asked(items).ok_or(BadWords)?),
    }
}

/// What the words ask.
///
/// # Errors
///
/// `Named` exactly where they stand in no row of the table. `OutOfMemory` where memory runs out.
pub fn read_words(alloc: Global, words: &[Word]) -> Result<Command, Fault<BadWords>>
    ensures command { FollowsBy (λ command. command) (asked.read_outcome words.now) result }
    ensures in_range { IfOk result asked.IsInRange }
{
    let [first, rest @ ..] = words else {
        return Err(Fault::Named(BadWords));
    };
    let name = CommandName::of(first.as_slice()).ok_or(BadWords)?;
    let items = read_items(alloc, name.options(), rest)?;
    command_by(alloc, name, items.as_slice())
}
