//! Verdicts worked out by hand, on models of one to three columns: certificates that hold, some that fail each
//! condition, operations that are refused at each place, and which of two failures is told.
//!
//! Numbers stand in tables as they are printed. `-` is no bound, `wide` no objective; a variable is told by its number.

ghost use Rattle.std.specs.Prelude.{ℕ, IsTrue};
ghost use Rattle.pami_algebra.specs.Fraction.{Fraction};
ghost use Rattle.pami_theory.specs.Form.{IsFeasible};
ghost use Rattle.pami_model.specs.Contents.{contents};
ghost use Rattle.pami_model_form.specs.ModelForm.{model_form};
ghost use Rattle.pami_cert.specs.Sized.{IsSized};

use crate::{Condition, Verdict, check};
use pami_cert::Cert;
use pami_frac::{Bounds, Frac, FracList, OutOfMemory, read_fraction};
use pami_lines::{push_fraction, push_number, push_operation, push_word};
use pami_model::{Builder, Model, Sense};
use std::alloc::Global;
use std::process::Abort;
use std::test::Fail;

fn number(text: &str) -> Frac {
    match read_fraction(text.as_bytes()) {
        Ok(value) => value,
        Err(_) => Frac::zero(),
    }
}

fn numbers(alloc: Global, text: &str) -> Result<FracList, Fail> {
    let mut items = Vec::new(alloc);
    for word in text.split_whitespace() {
        items.push(number(word))?;
    }
    Ok(FracList::from_vec(items))
}

fn bound(text: &str) -> Option<Frac> {
    if text == "-" {
        None
    } else {
        Some(number(text))
    }
}

/// The model of these rows, each its two bounds, and these columns, each its cost in the file's own sense, its two
/// bounds and its entries by row.
fn model_of(
    rt: &impl Abort,
    alloc: Global,
    sense: Sense,
    rows: &[(&str, &str)],
    columns: &[(&str, &str, &str, &str)],
) -> Result<Model, Fail> {
    let mut builder = Builder::new(alloc).ok().ok_or("a builder")?;
    builder.set_goal(sense, Frac::zero());
    for (i, (low, high)) in rows.iter().enumerate() {
        let name = [(i % 256) as u8];
        let bounds = Bounds {
            low: bound(low),
            high: bound(high),
        };
        builder
            .add_row(name.as_slice(), bounds)
            .ok()
            .ok_or("a row")?;
    }
    for (j, (cost, low, high, entries)) in columns.iter().enumerate() {
        let name = [(j % 256) as u8];
        let bounds = Bounds {
            low: bound(low),
            high: bound(high),
        };
        let column = builder.add_column(name.as_slice()).ok().ok_or("a column")?;
        assert!(rt; column < builder.column_count());
        builder.set_column_bounds(column, bounds);
        builder.set_cost(column, number(cost));
        let entries = numbers(alloc, entries)?;
        for (i, value) in entries.as_slice().iter().enumerate() {
            let row = (i % 256) as u32;
            assert!(rt; column < builder.column_count());
            assert!(rt; row < builder.row_count());
            builder
                .add_entry(column, row, *value)
                .ok()
                .ok_or("an entry")?;
        }
    }
    Ok(builder.finish().ok().ok_or("a model")?)
}

/// A blank, the word of a condition, and a blank and the variable or `-`.
fn push_place(
    out: &mut Vec<u8>,
    condition: Condition,
    variable: Option<u32>,
) -> Result<(), OutOfMemory> {
    push_word(out, condition.word())?;
    match variable {
        Some(variable) => push_number(out, u64::from(variable)),
        None => push_word(out, b"-"),
    }
}

/// A verdict in words.
fn text_of(alloc: Global, verdict: Verdict) -> Result<Vec<u8>, OutOfMemory> {
    let mut text = Vec::new(alloc);
    match verdict {
        Verdict::Valid => push_word(&mut text, b"valid")?,
        Verdict::Invalid {
            condition,
            variable,
        } => {
            push_word(&mut text, b"invalid")?;
            push_place(&mut text, condition, variable)?;
        }
        Verdict::Refused {
            condition,
            variable,
            refused,
        } => {
            push_word(&mut text, b"unchecked")?;
            push_place(&mut text, condition, variable)?;
            push_operation(&mut text, refused.op)?;
            push_fraction(&mut text, &refused.left)?;
            push_fraction(&mut text, &refused.right)?;
        }
    }
    Ok(text)
}

/// Sees that a certificate gets this verdict.
fn is_judged(
    rt: &impl Abort,
    alloc: Global,
    model: &Model,
    cert: &Cert,
    wanted: &str,
) -> Result<(), Fail>
    requires { IsSized (contents model.now) cert.now }
{
    let text = text_of(alloc, check(model, cert))?;
    let mut due = Vec::new(alloc);
    push_word(&mut due, wanted.as_bytes())?;
    assert!(rt; text.as_slice() == due.as_slice(), "{wanted}");
    Ok(())
}

/// Sees that optimal certificates get their verdicts: each an objective, `x`, `d`, `r` and `y`, and the verdict.
fn optimal_are_judged(
    rt: &impl Abort,
    alloc: Global,
    model: &Model,
    cases: &[(&str, &str, &str, &str, &str, &str)],
) -> Result<(), Fail> {
    let columns = model.columns.as_slice().len();
    let rows = model.rows.as_slice().len();
    for (told, x, d, r, y, wanted) in cases {
        let objective = if *told == "wide" {
            None
        } else {
            Some(number(told))
        };
        let x = numbers(alloc, x)?;
        let d = numbers(alloc, d)?;
        let r = numbers(alloc, r)?;
        let y = numbers(alloc, y)?;
        assert!(rt; x.as_slice().len() == columns && d.as_slice().len() == columns);
        assert!(rt; r.as_slice().len() == rows && y.as_slice().len() == rows);
        let cert = Cert::Optimal {
            objective,
            x,
            d,
            r,
            y,
        };
        is_judged(rt, alloc, model, &cert, wanted)?;
    }
    Ok(())
}

/// Sees that certificates of infeasibility get their verdicts: each `y`, and the verdict.
fn infeasible_are_judged(
    rt: &impl Abort,
    alloc: Global,
    model: &Model,
    cases: &[(&str, &str)],
) -> Result<(), Fail> {
    let rows = model.rows.as_slice().len();
    for (y, wanted) in cases {
        let y = numbers(alloc, y)?;
        assert!(rt; y.as_slice().len() == rows);
        is_judged(rt, alloc, model, &Cert::Infeasible { y }, wanted)?;
    }
    Ok(())
}

/// Sees that certificates of dual infeasibility get their verdicts: each `x` and `r`, and the verdict.
fn dual_infeasible_are_judged(
    rt: &impl Abort,
    alloc: Global,
    model: &Model,
    cases: &[(&str, &str, &str)],
) -> Result<(), Fail> {
    let columns = model.columns.as_slice().len();
    let rows = model.rows.as_slice().len();
    for (x, r, wanted) in cases {
        let x = numbers(alloc, x)?;
        let r = numbers(alloc, r)?;
        assert!(rt; x.as_slice().len() == columns && r.as_slice().len() == rows);
        is_judged(rt, alloc, model, &Cert::DualInfeasible { x, r }, wanted)?;
    }
    Ok(())
}

#[test]
fn optimal_certificates(rt: HostRuntime) -> Result<(), Fail> {
    let alloc = rt.alloc();
    // min x, with x >= 4 as a row and 0 <= x <= 4. In the second certificate x's upper bound takes a part of the cost.
    let model = model_of(
        &rt,
        alloc,
        Sense::Min,
        &[("4", "-")],
        &[("1", "0", "4", "1")],
    )?;
    optimal_are_judged(
        &rt,
        alloc,
        &model,
        &[
            ("4", "4", "0", "4", "1", "valid"),
            ("4", "4", "-1", "4", "2", "valid"),
            ("wide", "4", "0", "4", "1", "valid"),
            ("4", "5", "0", "5", "1", "invalid bound 0"),
            ("-1", "-1", "0", "-1", "1", "invalid bound 0"),
            ("4", "4", "0", "5", "1", "invalid row 1"),
            ("3", "3", "0", "3", "1", "invalid bound 1"),
            ("4", "4", "1", "4", "1", "invalid reduced 0"),
            ("4", "4", "2", "4", "-1", "invalid sign 0"),
            ("5", "4", "0", "4", "1", "invalid objective -"),
        ],
    )?;
    // min x, with x >= 2 as a row and 3 <= x <= 4: the row isn't at its bound, and has none above.
    let slack = model_of(
        &rt,
        alloc,
        Sense::Min,
        &[("2", "-")],
        &[("1", "3", "4", "1")],
    )?;
    optimal_are_judged(
        &rt,
        alloc,
        &slack,
        &[
            ("3", "3", "1", "3", "0", "valid"),
            ("3", "3", "0", "3", "1", "invalid sign 1"),
            ("3", "3", "2", "3", "-1", "invalid sign 1"),
        ],
    )?;
    // max x, with x <= 3 as a row: reduced costs are those of -x, the objective is the file's own.
    let greatest = model_of(
        &rt,
        alloc,
        Sense::Max,
        &[("-", "3")],
        &[("1", "0", "-", "1")],
    )?;
    optimal_are_judged(
        &rt,
        alloc,
        &greatest,
        &[
            ("3", "3", "0", "3", "-1", "valid"),
            ("-3", "3", "0", "3", "-1", "invalid objective -"),
            ("3", "3", "0", "3", "1", "invalid reduced 0"),
        ],
    )
}

#[test]
fn sums_over_rows_and_columns(rt: HostRuntime) -> Result<(), Fail> {
    let alloc = rt.alloc();
    // min x + 2 y + 5 z, with x + y >= 3 and -x + y + z >= 2 as rows, x <= 1: z has no entry in the first row.
    let model = model_of(
        &rt,
        alloc,
        Sense::Min,
        &[("3", "-"), ("2", "-")],
        &[
            ("1", "0", "1", "1 -1"),
            ("2", "0", "-", "1 1"),
            ("5", "0", "-", "0 1"),
        ],
    )?;
    optimal_are_judged(
        &rt,
        alloc,
        &model,
        &[
            ("11/2", "1/2 5/2 0", "0 0 9/2", "3 2", "3/2 1/2", "valid"),
            (
                "11/2",
                "1/2 5/2 0",
                "0 0 9/2",
                "3 5/2",
                "3/2 1/2",
                "invalid row 4",
            ),
            (
                "11/2",
                "1/2 5/2 0",
                "0 0 5",
                "3 2",
                "3/2 1/2",
                "invalid reduced 2",
            ),
            (
                "11/2",
                "1/2 5/2 0",
                "0 0 9/2",
                "3 2",
                "1/2 3/2",
                "invalid reduced 0",
            ),
        ],
    )
}

#[test]
fn certificates_of_infeasibility(rt: HostRuntime) -> Result<(), Fail> {
    let alloc = rt.alloc();
    // x + y >= 5 as a row, x <= 1 and y <= 2: the least value of r - x - y is 5 - 1 - 2.
    let both = [("1", "0", "1", "1"), ("1", "0", "2", "1")];
    let model = model_of(&rt, alloc, Sense::Min, &[("5", "-")], &both)?;
    infeasible_are_judged(
        &rt,
        alloc,
        &model,
        &[
            ("1", "valid"),
            ("1/7", "valid"),
            ("0", "invalid positive -"),
            ("-1", "invalid finite 2"),
        ],
    )?;
    // With 3 as the row's bound the least value is 0; where y has no upper bound there is none.
    let meets = model_of(&rt, alloc, Sense::Min, &[("3", "-")], &both)?;
    infeasible_are_judged(&rt, alloc, &meets, &[("1", "invalid positive -")])?;
    let one = [("1", "0", "1", "1"), ("1", "0", "-", "1")];
    let unbounded = model_of(&rt, alloc, Sense::Min, &[("5", "-")], &one)?;
    infeasible_are_judged(&rt, alloc, &unbounded, &[("1", "invalid finite 1")])
}

#[test]
fn certificates_of_dual_infeasibility(rt: HostRuntime) -> Result<(), Fail> {
    let alloc = rt.alloc();
    // max x, with x - y <= 1 as a row and y free.
    let model = model_of(
        &rt,
        alloc,
        Sense::Max,
        &[("-", "1")],
        &[("1", "0", "-", "1"), ("0", "-", "-", "-1")],
    )?;
    dual_infeasible_are_judged(
        &rt,
        alloc,
        &model,
        &[
            ("1 1", "0", "valid"),
            ("1 3", "-2", "valid"),
            ("0 0", "0", "invalid cost -"),
            ("-1 -1", "0", "invalid bound 0"),
            ("1 0", "0", "invalid row 2"),
            ("1 0", "1", "invalid bound 2"),
        ],
    )
}

#[test]
fn operations_refused_in_optimal_certificates(rt: HostRuntime) -> Result<(), Fail> {
    let alloc = rt.alloc();
    // min x, with 10 x >= 100 and x / 10^38 >= 1 / 10^38 as rows. A bound or a row that fails in front of a refused
    // operation is told.
    let small = "1/100000000000000000000000000000000000000";
    let rows = [("100", "-"), (small, "-")];
    let entries = "10 1/100000000000000000000000000000000000000";
    let model = model_of(&rt, alloc, Sense::Min, &rows, &[("1", "0", "-", entries)])?;
    let max = "170141183460469231731687303715884105727";
    optimal_are_judged(
        &rt,
        alloc,
        &model,
        &[
            (
                "10",
                "10",
                "0",
                "100 1/10000000000000000000000000000000000000",
                "1/10 0",
                "valid",
            ),
            (
                "wide",
                max,
                "0",
                "0 0",
                "0 0",
                "unchecked row 1 mul 10 170141183460469231731687303715884105727",
            ),
            (
                "wide",
                "-170141183460469231731687303715884105727",
                "0",
                "0 0",
                "0 0",
                "invalid bound 0",
            ),
            ("wide", "10", "0", "100 1", "0 0", "invalid row 2"),
        ],
    )?;
    // With the greatest number as the cost: the dual value stands left in a product, and nothing more can be taken on.
    let dear = model_of(
        &rt,
        alloc,
        Sense::Min,
        &[("100", "-")],
        &[(max, "10", "10", "10")],
    )?;
    optimal_are_judged(
        &rt,
        alloc,
        &dear,
        &[
            ("wide", "10", max, "100", "0", "valid"),
            (
                "wide",
                "10",
                max,
                "100",
                max,
                "unchecked reduced 0 mul 170141183460469231731687303715884105727 10",
            ),
            (
                "wide",
                "10",
                max,
                "100",
                "-1",
                "unchecked reduced 0 sub 170141183460469231731687303715884105727 -10",
            ),
            (
                "5",
                "10",
                max,
                "100",
                "0",
                "unchecked objective - mul 170141183460469231731687303715884105727 10",
            ),
            ("5", "10", "1", "100", "0", "invalid reduced 0"),
        ],
    )?;
    // A sum of a row that is too great by one.
    let two = [("0", "0", "-", "1"), ("0", "0", "-", "1")];
    let full = model_of(&rt, alloc, Sense::Min, &[("0", "-")], &two)?;
    optimal_are_judged(
        &rt,
        alloc,
        &full,
        &[(
            "0",
            "170141183460469231731687303715884105727 1",
            "0 0",
            "0",
            "0",
            "unchecked row 2 add 170141183460469231731687303715884105727 1",
        )],
    )
}

#[test]
fn operations_refused_without_a_point(rt: HostRuntime) -> Result<(), Fail> {
    let alloc = rt.alloc();
    let max = "170141183460469231731687303715884105727";
    // The factor stands left of the bound of a row, of an entry, and of the bound of a column.
    for (low, entry, wanted) in [
        (
            "2",
            "10",
            "unchecked finite 1 mul 170141183460469231731687303715884105727 2",
        ),
        (
            "0",
            "10",
            "unchecked finite 0 mul 170141183460469231731687303715884105727 10",
        ),
        (
            "0",
            "1",
            "unchecked finite 0 mul 170141183460469231731687303715884105727 3",
        ),
    ] {
        let model = model_of(
            &rt,
            alloc,
            Sense::Min,
            &[(low, "-")],
            &[("1", "0", "3", entry)],
        )?;
        infeasible_are_judged(
            &rt,
            alloc,
            &model,
            &[(max, wanted), ("0", "invalid positive -")],
        )?;
    }
    // The cost to be made small stands left of the direction.
    let model = model_of(&rt, alloc, Sense::Max, &[], &[("10", "0", "-", "")])?;
    dual_infeasible_are_judged(
        &rt,
        alloc,
        &model,
        &[
            ("1", "", "valid"),
            (
                max,
                "",
                "unchecked cost - mul -10 170141183460469231731687303715884105727",
            ),
        ],
    )
}

#[test]
fn first_failures(rt: HostRuntime) -> Result<(), Fail> {
    let alloc = rt.alloc();
    // min x + y, with x >= 4 and x + y >= 5 as rows, x and y at least 0.
    let columns = [("1", "0", "-", "1 1"), ("1", "0", "-", "0 1")];
    let model = model_of(&rt, alloc, Sense::Min, &[("4", "-"), ("5", "-")], &columns)?;
    optimal_are_judged(
        &rt,
        alloc,
        &model,
        &[
            ("5", "4 1", "0 0", "4 5", "0 1", "valid"),
            // The bounds of all columns, and then each row: its sum before its bound, and both before the next row.
            ("5", "4 -1", "0 0", "0 0", "0 1", "invalid bound 1"),
            ("5", "4 1", "0 0", "3 3", "0 1", "invalid row 2"),
            ("5", "3 1", "0 0", "3 5", "0 1", "invalid bound 2"),
            // Rows, reduced costs, the signs of columns, those of rows, the objective.
            ("5", "4 1", "1 0", "4 6", "0 1", "invalid row 3"),
            ("0", "4 1", "0 5", "4 5", "9 1", "invalid reduced 0"),
            ("0", "4 1", "-9 0", "4 5", "9 1", "invalid sign 0"),
            ("0", "4 1", "0 2", "4 5", "2 -1", "invalid sign 1"),
            ("0", "5 0", "0 0", "5 5", "1 0", "invalid reduced 1"),
        ],
    )?;
    // x free, x >= 4 and x + y <= 5 as rows.
    let free = [("1", "-", "-", "1 1"), ("1", "0", "-", "0 1")];
    let mixed = model_of(&rt, alloc, Sense::Min, &[("4", "-"), ("-", "5")], &free)?;
    infeasible_are_judged(
        &rt,
        alloc,
        &mixed,
        &[
            ("-1 -1", "invalid finite 2"),
            ("1 1", "invalid finite 3"),
            ("1 -2", "invalid finite 0"),
            ("1 -1", "invalid positive -"),
        ],
    )?;
    dual_infeasible_are_judged(
        &rt,
        alloc,
        &mixed,
        &[
            ("-1 -1", "0 0", "invalid bound 1"),
            ("-1 0", "-2 -1", "invalid row 2"),
            ("-1 0", "-1 -1", "invalid bound 2"),
            ("0 1", "0 0", "invalid row 3"),
            ("0 0", "0 0", "invalid cost -"),
        ],
    )
}

/// Whether the certificate shows that no point is within all bounds of the model.
fn shows_infeasible(model: &Model, cert: &Cert) -> bool
    requires { IsSized (contents model.now) cert.now }
    ensures { IsTrue result → (z : ℕ → Fraction) → ¬ IsFeasible (model_form (contents model.now)) z }
{
    match cert {
        Cert::Infeasible { y: _ } => check(model, cert) == Verdict::Valid,
        _ => false,
    }
}

#[test]
fn a_caller_learns_what_a_certificate_shows(rt: HostRuntime) -> Result<(), Fail> {
    let alloc = rt.alloc();
    let model = model_of(
        &rt,
        alloc,
        Sense::Min,
        &[("5", "-")],
        &[("1", "0", "4", "1")],
    )?;
    let y = numbers(alloc, "1")?;
    assert!(rt; y.as_slice().len() == model.rows.as_slice().len());
    assert!(rt; shows_infeasible(&model, &Cert::Infeasible { y }));
    Ok(())
}
