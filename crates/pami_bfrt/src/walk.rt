//! The walk over the candidates by a running slope.

ghost use Rattle.std.specs.Prelude.{◌≡◌, length, IfOk};
ghost use Rattle.pami_script.specs.Dense.{Rising};
ghost use Rattle.pami_bfrt.specs.Walks.{slope_behind as the_slope_behind, walk_over, onward, walk_script, found_by};
ghost use Rattle.pami_frac.specs.Answers.{FollowsBy};
ghost use Rattle.pami_theory.specs.Form.{Form};
ghost use Rattle.pami_theory.specs.Basis.{Basis};
ghost use Rattle.pami_theory.specs.Ratio.{Leaving, ratio_walk as the_ratio_walk};
ghost use Rattle.pami_bfrt.specs.Agreement.{IsTable, AreRowEntries};

use crate::candidate::{Candidate, candidates, is_positive};
use crate::first::take_first;
use crate::sorted::sort;
use pami_frac::{Bounds, Entry, Fault, Frac, Refused};
use pami_vec::{PlaceList, Stand, Violation};
use std::alloc::Global;

/// How often the first candidate is searched before the rest is sorted.
const SEARCHES: u32 = 8;

/// What the walk finds: the variable that enters, the dual step length, and the variables that are flipped before, in
/// the order of the walk; or no variable.
#[derive(Debug, Drop)]
pub enum Walk {
    Entering {
        variable: u32,
        tau: Frac,
        flips: PlaceList,
    },
    NoEntering,
}

/// The slope behind the flip of a candidate, where the walk passes it.
fn slope_behind(width: Option<Frac>, size: Frac, slope: Frac) -> Result<Option<Frac>, Refused>
    ensures { result ≡ the_slope_behind width size slope }
{
    let width = match width {
        Some(width) => width,
        None => return Ok(None),
    };
    let fall = match size.mul(width) {
        Ok(fall) => fall,
        Err(refused) => return Err(refused),
    };
    let next = match slope.sub(fall) {
        Ok(next) => next,
        Err(refused) => return Err(refused),
    };
    if is_positive(next) {
        Ok(Some(next))
    } else {
        Ok(None)
    }
}

/// The walk over candidates that are in order, behind these flips.
fn walk_rest(left: &[Candidate], flips: Vec<u32>, slope: Frac) -> Result<Walk, Fault<Refused>>
    ensures { FollowsBy found_by (onward flips.items (walk_over left.now slope)) result }
{
    let mut flips = flips;
    let mut slope = slope;
    for candidate in left {
        match slope_behind(candidate.width, candidate.size, slope) {
            Ok(Some(next)) => {
                slope = next;
                flips.push(candidate.variable)?;
            }
            Ok(None) => {
                return Ok(Walk::Entering {
                    variable: candidate.variable,
                    tau: candidate.ratio,
                    flips: PlaceList::from_vec(flips),
                })
            }
            Err(refused) => return Err(Fault::Named(refused)),
        }
    }
    Ok(Walk::NoEntering)
}

/// `ratio_walk`, by its script alone, so that no loop is proved with the other clause.
fn walk_of(
    alloc: Global,
    stands: &[Stand],
    bounds: &[Bounds],
    widths: &[Option<Frac>],
    reduced: &[Frac],
    alpha: &[Entry],
    violation: &Violation,
) -> Result<Walk, Fault<Refused>>
    requires bound { length bounds.now ≡ length stands.now }
    requires width { length widths.now ≡ length stands.now }
    requires cost { length reduced.now ≡ length stands.now }
    requires rising { Rising 0 (length stands.now) alpha.now }
    ensures { FollowsBy found_by (walk_script (record { stands = stands.now; bounds = bounds.now; widths = widths.now; reduced = reduced.now }) alpha.now violation.now) result }
{
    let mut left = match candidates(
        alloc,
        stands,
        bounds,
        widths,
        reduced,
        alpha,
        violation.side,
    ) {
        Ok(left) => left,
        Err(fault) => return Err(fault),
    };
    let mut flips = Vec::new(alloc);
    let mut slope = violation.amount;
    for turn in 0..SEARCHES {
        let candidate = match take_first(&mut left) {
            Some(candidate) => candidate,
            None => return Ok(Walk::NoEntering),
        };
        match slope_behind(candidate.width, candidate.size, slope) {
            Ok(Some(next)) => {
                slope = next;
                flips.push(candidate.variable)?;
            }
            Ok(None) => {
                return Ok(Walk::Entering {
                    variable: candidate.variable,
                    tau: candidate.ratio,
                    flips: PlaceList::from_vec(flips),
                })
            }
            Err(refused) => return Err(Fault::Named(refused)),
        }
    }
    sort(&mut left);
    walk_rest(left.as_slice(), flips, slope)
}

/// The dual ratio test with bound flipping at a row that leaves. Stands, bounds, widths and reduced costs go by variable;
/// `alpha` has the entries of the pivot row at the nonbasic variables that aren't 0, ascending. The candidates are walked
/// by rising ratio, then by falling size of the entry, then by variable; a boxed one is flipped and passed while its flip
/// leaves a slope above 0, and the first that isn't passed enters. (Maros 2003; Koberstein 2005, section 6.2.)
///
/// # Errors
///
/// `Named` exactly where an operation of the walk doesn't fit: the first such, all ratios coming before the slopes.
/// `OutOfMemory` where memory runs out.
pub fn ratio_walk(
    alloc: Global,
    stands: &[Stand],
    bounds: &[Bounds],
    widths: &[Option<Frac>],
    reduced: &[Frac],
    alpha: &[Entry],
    violation: &Violation,
) -> Result<Walk, Fault<Refused>>
    requires bound { length bounds.now ≡ length stands.now }
    requires width { length widths.now ≡ length stands.now }
    requires cost { length reduced.now ≡ length stands.now }
    requires rising { Rising 0 (length stands.now) alpha.now }
    ensures script { FollowsBy found_by (walk_script (record { stands = stands.now; bounds = bounds.now; widths = widths.now; reduced = reduced.now }) alpha.now violation.now) result }
    // On a form, a basis and a row that leaves, which have these lists, it is the walk of the theory.
    ensures walk { (f : Form) (b : Basis) (l : Leaving) → IsTable f b l (record { stands = stands.now; bounds = bounds.now; widths = widths.now; reduced = reduced.now })
        → AreRowEntries f b l alpha.now → l.violation ≡ violation.now → IfOk result (λ walk. found_by walk ≡ the_ratio_walk f b l) }
{
    walk_of(alloc, stands, bounds, widths, reduced, alpha, violation)
}
