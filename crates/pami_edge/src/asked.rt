//! The names that a shelf was asked for.

ghost use Rattle.std.specs.Prelude.{◌≡◌, ◌<◌, [], ◌∷◌, ◌++◌, length};

use crate::word::Word;
use std::marker::Model;

/// At most two names, in the order in which they came. Keeping them takes no memory.
#[derive(Debug, Drop)]
pub struct Asked {
    first: Option<Word>,
    second: Option<Word>,
}

impl Model for Asked {
    ghost use Rattle.std.specs.Prelude.{◌≡◌, ℕ, List, ◌++◌, None};
    ghost use Rattle.std.specs.Option.{option_to_list};
    ghost use Rattle.std.specs.Coded.{coded_list, coded_ℕ};

    ghost Value = { List (List ℕ) };

    ghost coded = { coded_list (coded_list coded_ℕ) };

    ghost view = { λ a. option_to_list a.first ++ option_to_list a.second };

    ghost invariant = { λ a. a.first ≡ None → a.second ≡ None };
}

impl Asked {
    pub fn new() -> Asked
        ensures { result ≡ [] }
    {
        Asked {
            first: None,
            second: None,
        }
    }

    pub fn push(&mut self, name: Word)
        requires { length self.old < 2 }
        ensures { self.new ≡ self.old ++ name ∷ [] }
    {
        if self.first.is_none() {
            self.first = Some(name);
        } else {
            self.second = Some(name);
        }
    }
}
