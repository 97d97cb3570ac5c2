//! The candidates among the entries of the pivot row, and their order.

ghost use Rattle.std.specs.Prelude.{◌≡◌, ◌<◌, length, true, false};
ghost use Rattle.pami_algebra.specs.Operations.{is_below, is_zero};
ghost use Rattle.pami_script.specs.Dense.{Rising};
ghost use Rattle.pami_theory.specs.Form.{zero_f};
ghost use Rattle.pami_theory.specs.Ratio.{may_enter as the_may_enter, absolute};
ghost use Rattle.pami_bfrt.specs.Candidates.{is_fixed as the_is_fixed, candidate_script, candidates_script, comes_before as the_comes_before};
ghost use Rattle.pami_frac.specs.Answers.{FollowsBy};

use pami_frac::{Bounds, Entry, Fault, Frac, Refused};
use pami_vec::{Side, Stand};
use std::alloc::Global;
use std::cmp::Ordering;

/// A variable that may enter: its ratio, the size of its entry, and its width if it is boxed.
#[derive(Clone, Copy, Debug, PartialEq, Eq)]
pub(crate) struct Candidate {
    pub(crate) variable: u32,
    pub(crate) ratio: Frac,
    pub(crate) size: Frac,
    pub(crate) width: Option<Frac>,
}

/// Does the first come before the second in the walk?
pub(crate) fn comes_before(c: &Candidate, d: &Candidate) -> bool
    ensures { result ≡ the_comes_before c.now d.now }
{
    match c.ratio.compare(&d.ratio) {
        Ordering::Less => return true,
        Ordering::Greater => return false,
        Ordering::Equal => {}
    }
    match d.size.compare(&c.size) {
        Ordering::Less => return true,
        Ordering::Greater => return false,
        Ordering::Equal => {}
    }
    c.variable < d.variable
}

/// Without its sign.
fn size_of(a: Frac) -> Frac
    ensures { result ≡ absolute a }
{
    if a.is_negative() { a.negate() } else { a }
}

/// Is it above 0?
pub(crate) fn is_positive(a: Frac) -> bool
    ensures { result ≡ is_below zero_f a }
{
    !a.is_negative() && !a.is_zero()
}

/// May a variable that stands so move in the direction in which the distance falls?
fn may_enter(stand: Stand, a: Frac) -> bool
    ensures value { result ≡ the_may_enter stand a }
    ensures nonzero { result ≡ true → is_zero a ≡ false }
{
    match stand {
        Stand::Basic => false,
        Stand::Lower => is_positive(a),
        Stand::Upper => a.is_negative(),
        Stand::Zero => !a.is_zero(),
    }
}

/// Has it two bounds and no width?
fn is_fixed(bounds: &Bounds, width: Option<Frac>) -> bool
    ensures { result ≡ the_is_fixed bounds.now width }
{
    match width {
        Some(_) => false,
        None => bounds.low.is_some() && bounds.high.is_some(),
    }
}

/// The candidate that an entry makes, if its variable may enter.
fn candidate_at(
    stands: &[Stand],
    bounds: &[Bounds],
    widths: &[Option<Frac>],
    reduced: &[Frac],
    variable: u32,
    a: Frac,
) -> Result<Option<Candidate>, Refused>
    requires stand { variable < length stands.now }
    requires bound { variable < length bounds.now }
    requires width { variable < length widths.now }
    requires cost { variable < length reduced.now }
    ensures { result ≡ candidate_script (record { stands = stands.now; bounds = bounds.now; widths = widths.now; reduced = reduced.now }) variable a }
{
    let v = variable as usize;
    if is_fixed(&bounds[v], widths[v]) {
        return Ok(None);
    }
    if !may_enter(stands[v], a) {
        return Ok(None);
    }
    match reduced[v].div(a) {
        Ok(ratio) => Ok(Some(Candidate {
            variable,
            ratio,
            size: size_of(a),
            width: widths[v],
        })),
        Err(refused) => Err(refused),
    }
}

/// The candidates among the entries of the pivot row, ascending.
pub(crate) fn candidates(
    alloc: Global,
    stands: &[Stand],
    bounds: &[Bounds],
    widths: &[Option<Frac>],
    reduced: &[Frac],
    alpha: &[Entry],
    side: Side,
) -> Result<Vec<Candidate>, Fault<Refused>>
    requires bound { length bounds.now ≡ length stands.now }
    requires width { length widths.now ≡ length stands.now }
    requires cost { length reduced.now ≡ length stands.now }
    requires rising { Rising 0 (length stands.now) alpha.now }
    ensures { FollowsBy (λ cs. cs.items) (candidates_script (record { stands = stands.now; bounds = bounds.now; widths = widths.now; reduced = reduced.now }) side alpha.now) result }
{
    let mut out = Vec::new(alloc);
    for entry in alpha {
        let a = side.toward(entry.value);
        let found = match candidate_at(stands, bounds, widths, reduced, entry.place, a) {
            Ok(found) => found,
            Err(refused) => return Err(Fault::Named(refused)),
        };
        if let Some(candidate) = found {
            out.push(candidate)?;
        }
    }
    Ok(out)
}
