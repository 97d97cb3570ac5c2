//! The computational form of a model as a definition: its rows and columns, the bounds of all variables, and its costs as
//! they are minimised; and the model as its texts name it, in the file's own sense.
//!
//! Stands on `pami_model`, whose contents have a form here, on `pami_theory`, which says what a form is, on `pami_script`
//! for columns that are kept as entries, and on `pami_lines` for names and counts; nothing in it knows of the method. It
//! has no code that runs. The layers above may rely on what `form_laws` says of a form, member by member.
#![tactic(auto)]

pub mod form_laws;
