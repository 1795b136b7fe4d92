//! The balance of a channel: the samples that its ends put and take, which may differ.

ghost use Rattle.std.specs.Prelude.{◌≡◌, ◌*◌, ◌≤◌, ◌<◌, length};
ghost use Rattle.sdf_graph.specs.RelativeRates.{IsReduced, IsSmall, IsBalancedAt, AreRatios};
ghost use Rattle.sdf_graph.specs.Balances.{IsBalance};

use crate::graph::Graph;
use crate::repetitions::{Ratio, lowest_terms};
use sdf_limits::MAX_PERIOD;

/// The balance of a channel over the fewest whole cycles of both its ends at their relative rates.
#[derive(Debug, Clone, Copy, PartialEq, Eq)]
pub struct Balance {
    /// Firings of the source.
    pub source: u64,
    /// Samples that these firings put.
    pub puts: u64,
    /// Firings of the target.
    pub target: u64,
    /// Samples that these firings take.
    pub takes: u64,
}

/// Returns the fewest whole cycles of two actors with the relative rates `from` and `to`, as a fraction.
fn cycle_ratio(from: Ratio, to: Ratio) -> Ratio
    requires from_some { (0 < from.num) × (0 < from.den) }
    requires to_some { (0 < to.num) × (0 < to.den) }
    requires from_small { IsSmall from }
    requires to_small { IsSmall to }
    ensures fewest { IsReduced (from.num * to.den) (to.num * from.den) result.num result.den }
    ensures top_small { result.num ≤ MAX_PERIOD * MAX_PERIOD }
    ensures bottom_small { result.den ≤ MAX_PERIOD * MAX_PERIOD }
{
    lowest_terms(from.num * to.den, to.num * from.den)
}

/// Returns the balance of `channel` over the fewest whole cycles of its ends at the relative rates `ratios`.
pub(crate) fn balance_of(graph: &Graph, ratios: &[Ratio], channel: usize) -> Balance
    requires known { channel < length graph.now.channels }
    requires shares { AreRatios graph.now ratios.now }
    ensures balance { (m : IsBalance graph.now channel result) × (m.ratios ≡ ratios.now) }
    ensures even { result.puts ≡ result.takes → IsBalancedAt graph.now ratios.now channel }
{
    let totals = graph.totals_at(channel);
    let turns = cycle_ratio(ratios[totals.from], ratios[totals.to]);
    Balance {
        source: turns.num * u64::from(graph.cycle(totals.from)),
        puts: turns.num * u64::from(totals.put),
        target: turns.den * u64::from(graph.cycle(totals.to)),
        takes: turns.den * u64::from(totals.take),
    }
}
