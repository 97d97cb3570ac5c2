//! What the form of a model is, member by member.

ghost use Rattle.std.specs.Prelude.{◌≡◌, ℕ, ◌<◌, List, length, Some, slice_get};
ghost use Rattle.pami_algebra.specs.Fraction.{Fraction};
ghost use Rattle.pami_algebra.specs.Operations.{neg_f};
ghost use Rattle.pami_frac.specs.declared.list.Entry.{Entry};
ghost use Rattle.pami_model.specs.declared.list.Row.{Row};
ghost use Rattle.pami_model.specs.declared.list.Column.{Column};
ghost use Rattle.pami_model.specs.declared.model.Sense.TheVariants.{Min, Max};
ghost use Rattle.pami_model.specs.Contents.{Contents};
ghost use Rattle.pami_model.specs.Rules.{AreEntries};
ghost use Rattle.pami_script.specs.Dense.{at, Rising};
ghost use Rattle.pami_theory.specs.Form.{entry, limits, cost, row_variable};
ghost use Rattle.pami_model_form.specs.ModelForm.{file_cost, minimised, model_form};
ghost use Rattle.pami_model_form.specs.Named.{names_of, counts_of};

/// The form of a model has its rows and columns. The bounds of a column are those of its variable, the bounds of a row those
/// of its row variable; the coefficients of a column are its entries, and 0 where it has none. Its cost is the one that is
/// to be made small: the file's own where that makes the objective small, and minus the file's own where it makes it large.
pub fn forms_say_their_models()
    ensures rows { (c : Contents) → (model_form c).rows ≡ length c.rows }
    ensures columns { (c : Contents) → (model_form c).columns ≡ length c.columns }
    ensures column_bounds { (c : Contents) (j : ℕ) (column : Column)
        → slice_get c.columns j ≡ Some column → limits (model_form c) j ≡ column.bounds }
    ensures row_bounds { (c : Contents) (i : ℕ) (row : Row)
        → slice_get c.rows i ≡ Some row → limits (model_form c) (row_variable (model_form c) i) ≡ row.bounds }
    ensures coefficients { (c : Contents) (j : ℕ) (column : Column) (i : ℕ)
        → slice_get c.columns j ≡ Some column → i < length c.rows → entry (model_form c) i j ≡ at column.entries i }
    ensures costs { (c : Contents) (j : ℕ) (column : Column)
        → slice_get c.columns j ≡ Some column → cost (model_form c) j ≡ minimised c.sense column.cost }
    ensures own_costs { (c : Contents) (j : ℕ) (column : Column)
        → slice_get c.columns j ≡ Some column → file_cost c j ≡ column.cost }
    ensures smallest { (own : Fraction) → minimised Min own ≡ own }
    ensures greatest { (own : Fraction) → minimised Max own ≡ neg_f own }
{}

/// The entries of a column of a model rise, below the count of its rows, as those of a sparse vector do.
pub fn entries_are_by_rising_row()
    ensures rising { (rows : ℕ) (entries : List Entry) → AreEntries rows entries → Rising 0 rows entries }
{}

/// Texts count and name the columns and the rows of the form, all of them.
pub fn texts_name_all_variables()
    ensures rows { (c : Contents) → (counts_of c).rows ≡ (model_form c).rows }
    ensures columns { (c : Contents) → (counts_of c).columns ≡ (model_form c).columns }
    ensures named_rows { (c : Contents) → length (names_of c).rows ≡ (model_form c).rows }
    ensures named_columns { (c : Contents) → length (names_of c).columns ≡ (model_form c).columns }
{}
