//! The lines of output texts that need nothing of the method: the head, the words of variables and operations, the letters
//! of a basis and the certificates, as definitions on lists of bytes; and the printing of the words.
//!
//! Stands on `pami_theory`, whose words have letters here, on `pami_script` for the sum of an objective, and on `pami_frac`
//! for the texts of numbers. The layers above may rely on texts being put together from their lines, on a told objective
//! being exact, and on each `push_..` putting exactly a blank and its word at the end.
#![tactic(auto)]

pub mod text_laws;
mod words;

pub use words::{
    letter_of, push_dashed, push_fraction, push_number, push_operation, push_side, push_stand,
    push_twice_dashed, push_word,
};
