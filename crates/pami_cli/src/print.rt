//! The text of a run, put together from its events and from the lines of its answer.

ghost use Rattle.std.specs.Prelude.{◌≡◌, ◌≤◌, ◌+◌, ◌∷◌, [], ◌++◌, IfOk, OnOk, decimal, codes, length, take, drop};
ghost use Rattle.std.specs.List.{All, flat_map};
ghost use Rattle.pami_model.specs.Contents.{contents};
ghost use Rattle.pami_method.specs.Phases.{Answer};
ghost use Rattle.pami_state.specs.State.{basis_of};
ghost use Rattle.pami_lines.specs.Line.{line, text};
ghost use Rattle.pami_lines.specs.Letters.{letters};
ghost use Rattle.pami_text.specs.Record.{answer_lines, refused_words};
ghost use Rattle.pami_model_form.specs.Named.{names_of, counts_of, named_of};
ghost use Rattle.pami_log.specs.Events.{event_lines};
ghost use Rattle.pami_cert.specs.Sized.{IsSized};
ghost use Rattle.pami_cert.specs.CertLines.{cert_lines};
ghost use Rattle.pami_cert.specs.CertText.{Fit, Fits};
ghost use Rattle.pami_cli.specs.CertOf.{best_cert as the_best_cert, direction_cert as the_direction_cert};
ghost use Rattle.pami_cli.specs.Text.{begun_text, optimal_text, limit_text, dual_infeasible_text};

use crate::certificate::{best_cert, direction_cert, ray_cert};
use itoa::Buffer;
use pami_cert::{Cert, print_cert};
use pami_frac::{Frac, OutOfMemory};
use pami_lines::letter_of;
use pami_log::{Event, Place, push_event, push_place};
use pami_model::Model;
use pami_state::State;
use pami_vec::{SpVec, Stand};
use std::alloc::Global;

/// A whole number.
///
/// # Errors
///
/// `OutOfMemory` alone.
fn push_count(out: &mut Vec<u8>, count: u32) -> Result<(), OutOfMemory>
    ensures { OnOk result (out.new.items ≡ out.old.items ++ decimal count) }
{
    let mut digits = Buffer::new();
    out.extend_from_slice(digits.format(count).as_bytes())?;
    Ok(())
}

/// The letters of these stands, or a dash for none.
///
/// # Errors
///
/// `OutOfMemory` alone.
fn push_letters(out: &mut Vec<u8>, stands: &[Stand]) -> Result<(), OutOfMemory>
    ensures { OnOk result (out.new.items ≡ out.old.items ++ letters stands.now) }
{
    if stands.len() == 0 {
        out.push(b'-')?;
        return Ok(());
    }
    for stand in stands {
        out.push(letter_of(*stand))?;
    }
    Ok(())
}

/// The line of a basis: the letters of the columns, which are the first of these stands, and those of the rows.
///
/// # Errors
///
/// `OutOfMemory` alone.
fn push_basis(out: &mut Vec<u8>, columns: usize, stands: &[Stand]) -> Result<(), OutOfMemory>
    requires { columns ≤ length stands.now }
    ensures { OnOk result (out.new.items ≡ out.old.items ++ line (codes "basis" ∷ letters (take columns stands.now) ∷ letters (drop columns stands.now) ∷ [])) }
{
    let (first, rest) = stands.split_at(columns);
    out.extend_from_slice(b"basis ")?;
    push_letters(out, first)?;
    out.push(b' ')?;
    push_letters(out, rest)?;
    out.push(b'\n')?;
    Ok(())
}

/// The lines of a certificate.
///
/// # Errors
///
/// `OutOfMemory` alone.
fn push_cert(
    alloc: Global,
    out: &mut Vec<u8>,
    model: &Model,
    cert: &Cert,
) -> Result<(), OutOfMemory>
    requires { IsSized (contents model.now) cert.now }
    ensures { OnOk result (out.new.items ≡ out.old.items ++ text (cert_lines (contents model.now) cert.now)) }
{
    let lines = print_cert(alloc, model, cert)?;
    out.extend_from_slice(lines.as_slice())?;
    Ok(())
}

/// The last lines of a run that ended optimal: the values of all variables, and the last state.
///
/// # Errors
///
/// `OutOfMemory` alone.
pub fn push_optimal(
    alloc: Global,
    out: &mut Vec<u8>,
    model: &Model,
    values: &[Frac],
    state: &State,
) -> Result<(), OutOfMemory>
    requires values { length (contents model.now).columns + length (contents model.now).rows ≡ length values.now }
    requires reduced { length state.now.reduced ≡ length values.now }
    requires stands { length state.now.stands ≡ length values.now }
    ensures printed { OnOk result (out.new.items ≡ out.old.items ++ optimal_text (contents model.now) values.now state.now.reduced (basis_of state.now)) }
    ensures fits { OnOk result (Fits (the_best_cert (contents model.now) values.now state.now.reduced)) }
{
    let cert = best_cert(alloc, model, values, state.reduced.as_slice())?;
    out.extend_from_slice(b"answer optimal\n")?;
    push_cert(alloc, out, model, &cert)?;
    push_basis(out, model.columns.as_slice().len(), state.stands.as_slice())
}

/// The last lines of a run that ended at the limit of pivots.
///
/// # Errors
///
/// `OutOfMemory` alone.
pub fn push_limit(out: &mut Vec<u8>, model: &Model, state: &State) -> Result<(), OutOfMemory>
    requires { length (contents model.now).columns + length (contents model.now).rows ≡ length state.now.stands }
    ensures { OnOk result (out.new.items ≡ out.old.items ++ limit_text (contents model.now) state.now.pivots (basis_of state.now)) }
{
    out.extend_from_slice(b"answer limit ")?;
    push_count(out, state.pivots)?;
    out.push(b'\n')?;
    push_basis(out, model.columns.as_slice().len(), state.stands.as_slice())
}

/// The last lines of a run that found no feasible point; y goes by row.
///
/// # Errors
///
/// `OutOfMemory` alone.
pub fn push_infeasible(
    alloc: Global,
    out: &mut Vec<u8>,
    model: &Model,
    y: &SpVec,
) -> Result<(), OutOfMemory>
    requires { length (contents model.now).rows ≡ length y.now }
    ensures printed { OnOk result (out.new.items ≡ out.old.items ++ text (answer_lines (named_of (contents model.now)) (Answer.Infeasible y.now))) }
    ensures fits { OnOk result (All Fit y.now) }
{
    let cert = ray_cert(alloc, y)?;
    out.extend_from_slice(b"answer infeasible\n")?;
    push_cert(alloc, out, model, &cert)
}

/// The last lines of a run that found a direction along which the cost falls without end; z goes by variable.
///
/// # Errors
///
/// `OutOfMemory` alone.
pub fn push_dual_infeasible(
    alloc: Global,
    out: &mut Vec<u8>,
    model: &Model,
    z: &[Frac],
) -> Result<(), OutOfMemory>
    requires { length (contents model.now).columns + length (contents model.now).rows ≡ length z.now }
    ensures printed { OnOk result (out.new.items ≡ out.old.items ++ dual_infeasible_text (contents model.now) z.now) }
    ensures fits { OnOk result (Fits (the_direction_cert (contents model.now) z.now)) }
{
    let cert = direction_cert(alloc, model, z)?;
    out.extend_from_slice(b"answer dual-infeasible\n")?;
    push_cert(alloc, out, model, &cert)
}

/// The last line of a run that ended at an operation that didn't fit.
///
/// # Errors
///
/// `OutOfMemory` alone.
pub fn push_overflow(out: &mut Vec<u8>, place: &Place) -> Result<(), OutOfMemory>
    ensures { OnOk result (out.new.items ≡ out.old.items ++ line (codes "answer" ∷ codes "overflow" ∷ refused_words place.now)) }
{
    out.extend_from_slice(b"answer overflow")?;
    push_place(out, place)?;
    out.push(b'\n')?;
    Ok(())
}

/// The lines of events.
///
/// # Errors
///
/// `OutOfMemory` alone.
fn push_events(out: &mut Vec<u8>, model: &Model, events: &[Event]) -> Result<(), OutOfMemory>
    ensures { OnOk result (out.new.items ≡ out.old.items ++ flat_map (λ e. text (event_lines (names_of (contents model.now)) (counts_of (contents model.now)) e)) events.now) }
{
    for event in events {
        push_event(out, model, event)?;
    }
    Ok(())
}

/// The first lines of a run, from the events that were told of it.
///
/// # Errors
///
/// `OutOfMemory` alone.
pub fn begun(alloc: Global, model: &Model, events: &[Event]) -> Result<Vec<u8>, OutOfMemory>
    ensures { IfOk result (λ out. out.items ≡ begun_text (contents model.now) events.now) }
{
    let mut out = Vec::new(alloc);
    push_event(&mut out, model, &Event::Header)?;
    push_events(&mut out, model, events)?;
    Ok(out)
}
