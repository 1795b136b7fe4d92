//! The schedules of one period that the policies give a design.

ghost use Rattle.std.specs.Prelude.{◌≡◌, MatchResult};
ghost use Rattle.sdf_plan.specs.Plans.{IsScheduleFault};
ghost use Rattle.sdf_analyze.specs.Periods.{period_in, AreByPolicies};

use sdf_faults::Fault;
use sdf_file::Design;
use sdf_options::Policy;
use sdf_plan::planning::period_by;
use sdf_sched::Period;
use std::alloc::Global;

/// One period of a design by each policy.
#[derive(Drop)]
pub(crate) struct Periods {
    round: Period,
    lean: Period,
    runs: Period,
}

impl Periods {
    /// Returns the periods of `design` by all policies. A design has all of them or none.
    pub(crate) fn of(alloc: Global, design: &Design) -> Result<Periods, Fault>
        ensures { MatchResult result (AreByPolicies design.now) (IsScheduleFault design.now) }
    {
        Ok(Periods {
            round: period_by(alloc, design, Policy::Round)?,
            lean: period_by(alloc, design, Policy::Lean)?,
            runs: period_by(alloc, design, Policy::Runs)?,
        })
    }

    /// Returns the period by `policy`.
    pub(crate) fn by(&self, policy: Policy) -> &Period
        ensures { result.now ≡ period_in self.now policy }
    {
        match policy {
            Policy::Round => &self.round,
            Policy::Lean => &self.lean,
            Policy::Runs => &self.runs,
        }
    }
}
