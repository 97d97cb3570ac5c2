//! The words of a call: which lists of words are a command, and what it asks.
//!
//! Stands on `pami_edge` for the words, on `pami_method` and `pami_trial` for the greatest numbers of its options and of a
//! trial's sides, and on `pami_frac` for digits and the form of the answer. The layers above may rely on `read_words` giving a command exactly where the words
//! are in the table of `specs/Table.antt`, with what they ask, and on every number of it being in its range. A further
//! command or option is a further row of that table; in the code it is a variant of `CommandName` or `OptionName` with
//! its arms in `table.rt`, and for a command a variant of `Command` with what it is asked in `read.rt`.
//!
//! ```
//! /// The name of the model file that the words ask for, if they ask for one.
//! fn model_file(alloc: Global, words: &[Word]) -> Result<Option<Word>, Fault<BadWords>> {
//!     match read_words(alloc, words)? {
//!         Command::Solve { file, .. } => Ok(Some(file)),
//!         Command::Check { file, .. } => Ok(Some(file)),
//!         Command::Trial { .. } => Ok(None),
//!     }
//! }
//! ```
#![tactic(auto)]

mod command;
mod item;
mod number;
mod read;
mod table;
mod value;

pub use command::{BadWords, Command};
pub use read::read_words;
pub use table::{DEFAULT_BATCH, DEFAULT_LIMIT, DEFAULT_REFACTOR};

#[cfg(test)]
mod tests;
