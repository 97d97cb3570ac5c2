//! The text of a certificate.

ghost use Rattle.std.specs.Prelude.{◌≡◌, ◌<◌, ◌∷◌, [], ◌++◌, IfOk, OnOk, length};
ghost use Rattle.pami_frac.specs.Printed.{printed};
ghost use Rattle.pami_model.specs.Contents.{contents};
ghost use Rattle.pami_lines.specs.Line.{line, text};
ghost use Rattle.pami_lines.specs.Certificate.{objective_word};
ghost use Rattle.pami_cert.specs.Part.{names, tag};
ghost use Rattle.pami_cert.specs.Sized.{IsSized};
ghost use Rattle.pami_cert.specs.CertLines.{pair_lines, member_lines, cert_lines};

use crate::cert::Cert;
use crate::part::Part;
use pami_frac::{Frac, OutOfMemory};
use pami_model::Model;
use std::alloc::Global;

/// A line of a tag, a name and a number.
fn push_member(out: &mut Vec<u8>, tag: &[u8], name: &[u8], value: &Frac) -> Result<(), OutOfMemory>
    ensures { OnOk result (out.new.items ≡ out.old.items ++ line (tag.now ∷ name.now ∷ printed value.now ∷ [])) }
{
    out.extend_from_slice(tag)?;
    out.push(b' ')?;
    out.extend_from_slice(name)?;
    out.push(b' ')?;
    value.append_to(out)?;
    out.push(b'\n')?;
    Ok(())
}

/// A line of a tag, a name and two numbers.
fn push_pair(
    out: &mut Vec<u8>,
    tag: &[u8],
    name: &[u8],
    value: &Frac,
    reduced: &Frac,
) -> Result<(), OutOfMemory>
    ensures { OnOk result
        (out.new.items ≡ out.old.items ++ line (tag.now ∷ name.now ∷ printed value.now ∷ printed reduced.now ∷ [])) }
{
    out.extend_from_slice(tag)?;
    out.push(b' ')?;
    out.extend_from_slice(name)?;
    out.push(b' ')?;
    value.append_to(out)?;
    out.push(b' ')?;
    reduced.append_to(out)?;
    out.push(b'\n')?;
    Ok(())
}

/// The lines of a part, two numbers in each.
fn push_pairs(
    out: &mut Vec<u8>,
    model: &Model,
    part: Part,
    values: &[Frac],
    reduced: &[Frac],
) -> Result<(), OutOfMemory>
    requires values { length values.now ≡ length (names (contents model.now) part) }
    requires reduced { length reduced.now ≡ length (names (contents model.now) part) }
    ensures { OnOk result
        (out.new.items ≡ out.old.items ++ text (pair_lines (contents model.now) part values.now reduced.now)) }
{
    for (i, value) in values.iter().enumerate() {
        push_pair(out, part.tag(), part.name(model, i), value, &reduced[i])?;
    }
    Ok(())
}

/// The lines of a part, one number in each.
fn push_members(
    out: &mut Vec<u8>,
    model: &Model,
    part: Part,
    values: &[Frac],
) -> Result<(), OutOfMemory>
    requires { length values.now ≡ length (names (contents model.now) part) }
    ensures { OnOk result (out.new.items ≡ out.old.items ++ text (member_lines (contents model.now) part values.now)) }
{
    for (i, value) in values.iter().enumerate() {
        push_member(out, part.tag(), part.name(model, i), value)?;
    }
    Ok(())
}

/// The word of an objective.
fn push_objective(out: &mut Vec<u8>, objective: Option<Frac>) -> Result<(), OutOfMemory>
    ensures { OnOk result (out.new.items ≡ out.old.items ++ objective_word objective) }
{
    match objective {
        Some(value) => value.append_to(out),
        None => Ok(out.extend_from_slice(b"wide")?),
    }
}

/// The lines of a certificate.
fn push_cert(out: &mut Vec<u8>, model: &Model, cert: &Cert) -> Result<(), OutOfMemory>
    requires { IsSized (contents model.now) cert.now }
    ensures { OnOk result (out.new.items ≡ out.old.items ++ text (cert_lines (contents model.now) cert.now)) }
{
    match cert {
        Cert::Optimal {
            objective,
            x,
            d,
            r,
            y,
        } => {
            out.extend_from_slice(b"certificate 1 optimal\nobjective ")?;
            push_objective(out, *objective)?;
            out.push(b'\n')?;
            push_pairs(out, model, Part::Columns, x.as_slice(), d.as_slice())?;
            push_pairs(out, model, Part::Rows, r.as_slice(), y.as_slice())?;
            Ok(out.extend_from_slice(b"end\n")?)
        }
        Cert::Infeasible { y } => {
            out.extend_from_slice(b"certificate 1 infeasible\n")?;
            push_members(out, model, Part::Rows, y.as_slice())?;
            Ok(out.extend_from_slice(b"end\n")?)
        }
        Cert::DualInfeasible { x, r } => {
            out.extend_from_slice(b"certificate 1 dual-infeasible\n")?;
            push_members(out, model, Part::Columns, x.as_slice())?;
            push_members(out, model, Part::Rows, r.as_slice())?;
            Ok(out.extend_from_slice(b"end\n")?)
        }
    }
}

/// The text of a certificate: its lines, the columns and then the rows in the model's order. It wants a member
/// for each column of the model in each list that goes by column (`x`, `d`), and one for each row in `r` and `y`.
///
/// # Errors
///
/// `OutOfMemory` alone.
pub fn print_cert(alloc: Global, model: &Model, cert: &Cert) -> Result<Vec<u8>, OutOfMemory>
    requires { IsSized (contents model.now) cert.now }
    ensures printed { IfOk result (λ out. out.items ≡ text (cert_lines (contents model.now) cert.now)) }
{
    let mut out = Vec::new(alloc);
    push_cert(&mut out, model, cert)?;
    Ok(out)
}
