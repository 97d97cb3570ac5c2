//! The checker itself.

ghost use Rattle.std.specs.Prelude.{◌≡◌, ℕ, Option};
ghost use Rattle.pami_model.specs.Contents.{contents};
ghost use Rattle.pami_cert.specs.Sized.{IsSized};
ghost use Rattle.pami_check.specs.Tests.{verdict_by};
ghost use Rattle.pami_check.specs.Verdict.{verdict};
ghost use Rattle.pami_check.specs.Holds.{Holds};
ghost use Rattle.pami_check.specs.Shows.{Shows};
ghost use Rattle.pami_check.specs.declared.verdict.Condition.{Condition};
ghost use Rattle.pami_check.specs.declared.verdict.Verdict.{Verdict};

use crate::direction::dual_infeasible_found;
use crate::infeasible::infeasible_found;
use crate::optimal::optimal_found;
use crate::verdict::Verdict;
use pami_cert::Cert;
use pami_model::Model;

/// The verdict of tests: what they found, and `Valid` where that is nothing.
fn verdict_of<T: Copy>(found: Result<T, Verdict>) -> Verdict
    ensures { result ≡ verdict_by found }
{
    match found {
        Ok(_) => Verdict::Valid,
        Err(verdict) => verdict,
    }
}

/// The verdict of the certificate's tests.
fn judge(model: &Model, cert: &Cert) -> Verdict
    requires { IsSized (contents model.now) cert.now }
    ensures { result ≡ verdict (contents model.now) cert.now }
{
    match cert {
        Cert::Optimal {
            objective,
            x,
            d,
            r,
            y,
        } => verdict_of(optimal_found(
            model,
            *objective,
            x.as_slice(),
            d.as_slice(),
            r.as_slice(),
            y.as_slice(),
        )),
        Cert::Infeasible { y } => verdict_of(infeasible_found(model, y.as_slice())),
        Cert::DualInfeasible { x, r } => {
            verdict_of(dual_infeasible_found(model, x.as_slice(), r.as_slice()))
        }
    }
}

/// Whether the certificate holds against the model. It takes no memory.
///
/// Each list of the certificate has a member for each column (`x` and `d`) or for each row (`r` and `y`) of the model.
/// The tests are made in their order: `Valid` where every one is passed; `Invalid` at the first that isn't, where no
/// operation before it was refused; `Refused` at the first operation that doesn't fit, where every test before it was
/// passed.
pub fn check(model: &Model, cert: &Cert) -> Verdict
    requires { IsSized (contents model.now) cert.now }
    ensures verdict { result ≡ verdict (contents model.now) cert.now }

    // A valid certificate holds over fractions without bound.
    ensures valid { result ≡ Verdict.Valid → Holds (contents model.now) cert.now }

    // One that holds shows what it is a certificate of, whatever the verdict on it.
    ensures shown { Holds (contents model.now) cert.now → Shows (contents model.now) cert.now }

    // An invalid one doesn't hold.
    ensures invalid { (condition : Condition) (variable : Option ℕ)
        → result ≡ Verdict.Invalid condition variable → ¬ Holds (contents model.now) cert.now }
{
    judge(model, cert)
}
