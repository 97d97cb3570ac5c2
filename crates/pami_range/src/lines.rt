//! The lines of ranges, put at the end of a list of bytes.

ghost use Rattle.std.specs.Prelude.{◌≡◌, ◌≤◌, ◌<◌, ◌^◌, ◌∷◌, [], ◌++◌, OnOk, codes, length};
ghost use Rattle.pami_model.specs.Contents.{contents};
ghost use Rattle.pami_model_form.specs.Named.{names_of};
ghost use Rattle.pami_lines.specs.Line.{line, text};
ghost use Rattle.pami_theory.specs.declared.words.Side.TheVariants.{Above, Below};
ghost use Rattle.pami_range.specs.RangeLines.{end_word, range_line, negated_end, span_of_file, cost_lines, bound_line, bound_lines, lines_of_spans};

use crate::span::{End, Span};
use pami_frac::OutOfMemory;
use pami_lines::{push_fraction, push_word};
use pami_log::push_variable;
use pami_model::{Model, Sense};
use pami_vec::Side;

/// A blank and the word of an end: of the low one, Below, or of the high one, Above.
fn push_end(out: &mut Vec<u8>, side: Side, end: &End) -> Result<(), OutOfMemory>
    ensures { OnOk result (out.new.items ≡ out.old.items ++ 32 ∷ end_word side end.now) }
{
    match end {
        End::Infinite => match side {
            Side::Below => push_word(out, b"-inf"),
            Side::Above => push_word(out, b"inf"),
        },
        End::At(value) => push_fraction(out, value),
        End::Wide(_) => push_word(out, b"wide"),
    }
}

/// Both ends, with a blank before each, and the end of the line.
fn push_ends(out: &mut Vec<u8>, span: &Span) -> Result<(), OutOfMemory>
    ensures { OnOk result (out.new.items ≡ out.old.items ++ 32 ∷ line (end_word Below span.now.low ∷ end_word Above span.now.high ∷ [])) }
{
    push_end(out, Side::Below, &span.low)?;
    push_end(out, Side::Above, &span.high)?;
    out.push(b'\n')?;
    Ok(())
}

/// The line of a cost's range, by the name of its column.
fn push_cost(out: &mut Vec<u8>, name: &[u8], span: &Span) -> Result<(), OutOfMemory>
    ensures { OnOk result (out.new.items ≡ out.old.items ++ line (range_line (codes "cost") name.now span.now)) }
{
    out.extend_from_slice(b"range cost")?;
    push_word(out, name)?;
    push_ends(out, span)
}

/// The end at the negated value.
fn negated(end: &End) -> End
    ensures { result ≡ negated_end end.now }
{
    match end {
        End::At(value) => End::At(value.negate()),
        other => *other,
    }
}

/// A cost's span in the sense of the file, of the span of what is made small.
fn of_file(sense: Sense, span: &Span) -> Span
    ensures { result ≡ span_of_file sense span.now }
{
    match sense {
        Sense::Min => *span,
        Sense::Max => Span {
            low: negated(&span.high),
            high: negated(&span.low),
        },
    }
}

/// The lines of the costs of all columns.
fn push_costs(out: &mut Vec<u8>, model: &Model, spans: &[Span]) -> Result<(), OutOfMemory>
    requires { length spans.now ≤ length (contents model.now).columns }
    ensures { OnOk result (out.new.items ≡ out.old.items
        ++ text (cost_lines (contents model.now).sense (names_of (contents model.now)).columns 0 spans.now)) }
{
    let columns = model.columns.as_slice();
    for (j, span) in spans.iter().enumerate() {
        push_cost(out, columns[j].name.as_slice(), &of_file(model.sense, span))?;
    }
    Ok(())
}

/// The line of a bound's range, where there is one.
fn push_bound(
    out: &mut Vec<u8>,
    model: &Model,
    variable: u32,
    span: &Option<Span>,
) -> Result<(), OutOfMemory>
    ensures { OnOk result (out.new.items ≡ out.old.items ++ text (bound_line (names_of (contents model.now)) variable span.now)) }
{
    if let Some(span) = span {
        out.extend_from_slice(b"range bound")?;
        push_variable(out, model, variable)?;
        push_ends(out, span)?;
    }
    Ok(())
}

/// The lines of the bounds of all variables.
fn push_bounds(out: &mut Vec<u8>, model: &Model, spans: &[Option<Span>]) -> Result<(), OutOfMemory>
    requires { length spans.now < 2 ^ 32 }
    ensures { OnOk result (out.new.items ≡ out.old.items ++ text (bound_lines (names_of (contents model.now)) 0 spans.now)) }
{
    for (v, span) in spans.iter().enumerate() {
        push_bound(out, model, v as u32, span)?;
    }
    Ok(())
}

/// Puts the lines of ranges at the end of `out`: those of the costs by column, and those of the bounds by variable. For a
/// maximum the ranges of costs, which are those of the negated costs, are told in the file's own sense.
///
/// # Errors
///
/// `OutOfMemory` alone; a part of the lines may then stand in `out`.
pub fn push_ranges(
    out: &mut Vec<u8>,
    model: &Model,
    costs: &[Span],
    bounds: &[Option<Span>],
) -> Result<(), OutOfMemory>
    requires by_column { length costs.now ≤ length (contents model.now).columns }
    requires few { length bounds.now < 2 ^ 32 }
    ensures { OnOk result (out.new.items ≡ out.old.items ++ text (lines_of_spans (contents model.now) costs.now bounds.now)) }
{
    push_costs(out, model, costs)?;
    push_bounds(out, model, bounds)
}
