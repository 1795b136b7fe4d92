//! The costs of a design's firings, for making a table.

ghost use Rattle.std.specs.Prelude.{◌≡◌, MatchResult};
ghost use Rattle.sdf_prec.specs.declared.fault.PrecFault.TheVariants.{OutOfMemory};

use sdf_file::Design;
use sdf_prec::{Costs, PrecFault};
use std::alloc::Global;

/// Returns a copy of the costs of `design`. The only fault is that memory was refused.
pub fn firing_costs(alloc: Global, design: &Design) -> Result<Costs, PrecFault>
    ensures { MatchResult result (λ c. c ≡ design.now.costs) (λ fault. fault ≡ OutOfMemory) }
{
    let costs = Vec::from_slice(alloc, design.costs())?;
    Costs::new(design.net().graph(), costs)
}
