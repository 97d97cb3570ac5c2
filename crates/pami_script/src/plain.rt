//! One step of a sum of products, and the plain programs of such sums, over all places and over entries alone. Other bodies
//! are compared with these.

ghost use Rattle.std.specs.Prelude.{◌≡◌, ℕ, ◌<◌, length, List};
ghost use Rattle.pami_linear.specs.Lists.{get};
ghost use Rattle.pami_script.specs.Dense.{at, Rising};
ghost use Rattle.pami_script.specs.Script.{add_product as the_add_product, sub_product as the_sub_product, add_dot, add_entries};

use pami_frac::{Entry, Frac, Refused};

/// `t + x y`, the product first.
///
/// # Errors
///
/// `Refused` exactly where the product or the sum doesn't fit: the first such.
pub fn add_product(t: Frac, x: Frac, y: Frac) -> Result<Frac, Refused>
    ensures { result ≡ the_add_product t x y }
{
    let product = x.mul(y)?;
    t.add(product)
}

/// `t - x y`, the product first.
///
/// # Errors
///
/// `Refused` exactly where the product or the difference doesn't fit: the first such.
pub fn sub_product(t: Frac, x: Frac, y: Frac) -> Result<Frac, Refused>
    ensures { result ≡ the_sub_product t x y }
{
    let product = x.mul(y)?;
    t.sub(product)
}

/// `t + u_0 v_0 + ..` over all places of two lists of one length, each product with `u` left, places ascending.
///
/// # Errors
///
/// `Refused` exactly where an operation of this script doesn't fit: the first such.
pub fn add_products(t: Frac, us: &[Frac], vs: &[Frac]) -> Result<Frac, Refused>
    requires { length us.now ≡ length vs.now }
    ensures { result ≡ add_dot (length us.now) (get us.now) (get vs.now) t }
{
    let mut total = t;
    for (i, u) in us.iter().enumerate() {
        total = add_product(total, *u, vs[i])?;
    }
    Ok(total)
}

/// The same sum, where `us` has the entries of `u` alone, by rising place.
///
/// # Errors
///
/// `Refused` exactly where an operation of the script over all places doesn't fit: the first such.
pub fn add_sparse(t: Frac, us: &[Entry], vs: &[Frac]) -> Result<Frac, Refused>
    requires { Rising 0 (length vs.now) us.now }
    ensures { result ≡ add_dot (length vs.now) (at us.now) (get vs.now) t }
{
    let mut total = t;
    for entry in us {
        total = add_product(total, entry.value, vs[entry.place as usize])?;
    }
    Ok(total)
}
