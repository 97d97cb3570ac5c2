//! The table of words: the commands, the options, and how each is called.

ghost use Rattle.std.specs.Prelude.{◌≡◌};
ghost use Rattle.pami_words.specs.Table as table;

use pami_method::{GREATEST_BATCH, GREATEST_LIMIT, GREATEST_REFACTOR};
pub use pami_trial::GREATEST_SIDE;

/// The most rows of a batch where none is given.
pub const DEFAULT_BATCH: u32 = 4;

/// The most pivots that a factor is kept for where none is given.
pub const DEFAULT_REFACTOR: u32 = 16;

/// The limit of pivots where none is given.
pub const DEFAULT_LIMIT: u32 = 100_000;

/// The greatest seed of a trial.
pub const GREATEST_SEED: u32 = 4_294_967_295;

/// A command, by the first word.
#[derive(Clone, Copy, Debug, PartialEq, Eq)]
pub enum CommandName {
    Solve,
    Check,
    Trial,
}

/// An option, by its word.
#[derive(Clone, Copy, Debug, PartialEq, Eq)]
pub enum OptionName {
    Format,
    Batch,
    Refactor,
    Limit,
    Ranging,
}

/// What an option is given.
#[derive(Clone, Copy, Debug, PartialEq, Eq)]
pub enum Takes {
    /// No value.
    Nothing,
    /// A number in this range.
    Number { least: u32, greatest: u32 },
    /// The name of a format of model files, `mps` or `lp`.
    Format,
}

/// All commands.
const COMMANDS: [CommandName; 3] = [CommandName::Solve, CommandName::Check, CommandName::Trial];

/// The options of `solve`.
const SOLVE_OPTIONS: [OptionName; 5] = [
    OptionName::Format,
    OptionName::Batch,
    OptionName::Refactor,
    OptionName::Limit,
    OptionName::Ranging,
];

/// The options of `check`.
const CHECK_OPTIONS: [OptionName; 1] = [OptionName::Format];

impl CommandName {
    /// The first word of a call.
    pub fn word(self) -> &'static [u8]
        ensures { result.now ≡ (table.command_row self).word }
    {
        match self {
            CommandName::Solve => b"solve",
            CommandName::Check => b"check",
            CommandName::Trial => b"trial",
        }
    }

    /// How many plain words follow it.
    pub fn plain(self) -> usize
        ensures { result ≡ (table.command_row self).plain }
    {
        match self {
            CommandName::Solve => 1,
            CommandName::Check => 2,
            CommandName::Trial => 3,
        }
    }

    /// The options that it has.
    pub fn options(self) -> &'static [OptionName]
        ensures { result.now ≡ (table.command_row self).options }
    {
        match self {
            CommandName::Solve => &SOLVE_OPTIONS,
            CommandName::Check => &CHECK_OPTIONS,
            CommandName::Trial => &[],
        }
    }

    /// The command of this word.
    pub fn of(word: &[u8]) -> Option<CommandName>
        ensures { result ≡ table.command_named table.commands word.now }
    {
        CommandName::among(&COMMANDS, word)
    }

    /// The one of these commands that has this word.
    fn among(commands: &[CommandName], word: &[u8]) -> Option<CommandName>
        ensures { result ≡ table.command_named commands.now word.now }
    {
        for command in commands {
            if command.word() == word {
                return Some(*command);
            }
        }
        None
    }
}

impl OptionName {
    /// The option's word, without a value.
    pub fn word(self) -> &'static [u8]
        ensures { result.now ≡ (table.option_row self).word }
    {
        match self {
            OptionName::Format => b"--format",
            OptionName::Batch => b"--batch",
            OptionName::Refactor => b"--refactor",
            OptionName::Limit => b"--limit",
            OptionName::Ranging => b"--ranging",
        }
    }

    /// What it is given.
    pub fn takes(self) -> Takes
        ensures { result ≡ (table.option_row self).takes }
    {
        match self {
            OptionName::Format => Takes::Format,
            OptionName::Batch => Takes::Number {
                least: 1,
                greatest: GREATEST_BATCH,
            },
            OptionName::Refactor => Takes::Number {
                least: 0,
                greatest: GREATEST_REFACTOR,
            },
            OptionName::Limit => Takes::Number {
                least: 0,
                greatest: GREATEST_LIMIT,
            },
            OptionName::Ranging => Takes::Nothing,
        }
    }

    /// The one of these options that has this word.
    pub fn among(options: &[OptionName], word: &[u8]) -> Option<OptionName>
        ensures { result ≡ table.option_named options.now word.now }
    {
        for option in options {
            if option.word() == word {
                return Some(*option);
            }
        }
        None
    }

    /// Whether this is the other option.
    pub fn is(self, other: OptionName) -> bool
        ensures { result ≡ table.is_option self other }
    {
        self.word() == other.word()
    }
}
