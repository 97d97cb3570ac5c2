//! How a shelf or a sink in memory serves its calls.

ghost use Rattle.std.specs.Prelude.{◌≡◌, IfOk};
ghost use Rattle.pami_edge.specs.Plan.{fails_next, after_call};

use pami_frac::OutOfMemory;
use std::alloc::Global;
use std::marker::Model;

/// The number of calls so far, the greatest length per call, and the numbers, from 1, of the calls that are to fail.
#[derive(Debug, Drop)]
pub struct Plan {
    calls: u64,
    most: u32,
    failing: Vec<u64>,
}

impl Model for Plan {
    ghost use Rattle.pami_edge.specs.Plan.{CallPlan};

    ghost Value = { CallPlan };

    ghost view = { λ p. record { calls = p.calls; most = p.most; failing = p.failing.items } };
}

impl Plan {
    pub fn new(alloc: Global, most: u32, failing: &[u64]) -> Result<Plan, OutOfMemory>
        ensures calls { IfOk result (λ plan. plan.calls ≡ 0) }
        ensures most { IfOk result (λ plan. plan.most ≡ most) }
        ensures failing { IfOk result (λ plan. plan.failing ≡ failing.now) }
    {
        Ok(Plan {
            calls: 0,
            most,
            failing: Vec::from_slice(alloc, failing)?,
        })
    }

    /// The greatest length per call.
    pub fn most(&self) -> u32
        ensures { result ≡ self.now.most }
    {
        self.most
    }

    /// Counts one more call, and says whether it is one of those that are to fail.
    pub fn is_failing(&mut self) -> bool
        ensures failing { result ≡ fails_next self.old }
        ensures counted { self.new ≡ after_call self.old }
    {
        self.calls = self.calls.saturating_add(1);
        self.failing.contains(&self.calls)
    }
}
