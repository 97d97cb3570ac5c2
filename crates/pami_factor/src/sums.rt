//! Differences of products over the entries of a vector.

ghost use Rattle.std.specs.Prelude.{◌≡◌, length};
ghost use Rattle.pami_linear.specs.Lists.{get};
ghost use Rattle.pami_script.specs.Dense.{Rising};
ghost use Rattle.pami_script.specs.Script.{sub_entries};

use pami_frac::{Entry, Frac, Refused};
use pami_script::plain::sub_product;

/// `t`, less each entry times the member of `xs` at its place, places ascending.
pub(crate) fn subtract_entries(t: Frac, entries: &[Entry], xs: &[Frac]) -> Result<Frac, Refused>
    requires { Rising 0 (length xs.now) entries.now }
    ensures { result ≡ sub_entries entries.now (get xs.now) t }
{
    let mut rest = t;
    for entry in entries {
        rest = sub_product(rest, entry.value, xs[entry.place as usize])?;
    }
    Ok(rest)
}
