//! Laws of the definitions.

ghost use Rattle.std.specs.Prelude.{◌≡◌, ℕ, List, Ok};
ghost use Rattle.pami_model.specs.Contents.{Contents};
ghost use Rattle.pami_model.specs.declared.fault.FileFault.{FileFault};
ghost use Rattle.pami_model.specs.Draft.{Draft};
ghost use Rattle.pami_model.specs.ModelNames.{HasModelNames};
ghost use Rattle.pami_lp.specs.Gather.{IsBounded, IsEntered, IsGathered, IsPriced};
ghost use Rattle.pami_lp.specs.Grammar.{File};
ghost use Rattle.pami_lp.specs.Meaning.{draft_of};
ghost use Rattle.pami_lp.specs.Lp.{FirstFault, HasModelOrFault, Lp};

/// One text has one model.
pub fn one_model()
    ensures { (bytes : List ℕ) (c d : Contents) → Lp bytes c → Lp bytes d → c ≡ d }
{}

/// One text has one first fault.
pub fn one_first_fault()
    ensures { (bytes : List ℕ) (f g : FileFault) → FirstFault bytes f → FirstFault bytes g → f ≡ g }
{}

/// A text has a model or a first fault.
pub fn model_or_fault()
    ensures { (bytes : List ℕ) → HasModelOrFault bytes }
{}

/// And not both.
pub fn not_model_and_fault()
    ensures { (bytes : List ℕ) (c : Contents) (f : FileFault) → Lp bytes c → ¬ FirstFault bytes f }
{}

/// What a file gives is gathered from its parts: its columns are its names, each once by first appearance, and its rows
/// those of the file in their order, with the names and the sides that they say.
pub fn files_are_gathered()
    ensures { (f : File) (d : Draft) → draft_of f ≡ Ok d → IsGathered f d }
{}

/// The constant of the objective is the sum of its constants, and the cost of each column that of its name's
/// coefficients there, in their order.
pub fn costs_are_sums()
    ensures { (f : File) (d : Draft) → draft_of f ≡ Ok d → IsPriced f d }
{}

/// A column has an entry, the sum of its name's coefficients in their order, in each row where that isn't 0; by rising
/// row, which goes by the row's place among all.
pub fn entries_are_sums()
    ensures { (f : File) (d : Draft) → draft_of f ≡ Ok d → IsEntered f d }
{}

/// A column's bounds are 0 and infinity, and then what the bounds of its name set, one after another: later ones
/// overwrite, `free` takes both away, and an upper bound below 0 takes the lower one away where none was stated.
pub fn bounds_are_effects()
    ensures { (f : File) (d : Draft) → draft_of f ≡ Ok d → IsBounded f d }
{}

/// The names of a text's model are names of it, or R1, R2, .. of unnamed rows: none is empty, and each byte is above the space.
pub fn names_are_unbroken()
    ensures { (bytes : List ℕ) (c : Contents) → Lp bytes c → HasModelNames c }
{}
