//! Worked levels: a source of 2 to a sink of 3, a channel whose rates change from firing to firing, and forks of two
//! ways.

ghost use Rattle.std.specs.Prelude.{◌≡◌};
ghost use Rattle.sdf_prec.specs.Blocks.{block};

use crate::graphs::{BLOCKS, FORK, LONGER_FORK, costs_of, fault_of, period_of};
use sdf_graph::Graph;
use sdf_prec::levels::levels;
use sdf_prec::{Costs, Firing, Levels, needed};
use std::alloc::Global;
use std::test::Fail;
use test_actors::graphs::{Row, graph};
use test_texts::says;

/// Returns the level of the firing `number` of `actor` in one period, or 0 if there is none. `times` is the repetition
/// vector.
fn level(of: &Levels, times: &[u32], actor: usize, number: u32) -> u64
    requires { of.now.firings ≡ block 1 times.now }
{
    if actor >= times.len() || number >= times[actor] {
        return 0;
    }
    of.of(Firing { actor, number })
}

/// Returns the level of the firing `number` of each actor, or 0 if it has none. `times` is the repetition vector.
fn numbered(alloc: Global, of: &Levels, times: &[u32], number: u32) -> Result<String, Fail>
    requires { of.now.firings ≡ block 1 times.now }
{
    let mut found = Vec::new(alloc);
    for actor in 0..times.len() {
        found.push(level(of, times, actor, number))?;
    }
    Ok(format!(in alloc; "{found:?}")?)
}

/// Returns the level of the firing `number` of each actor of `graph`, or 0 if it has none.
fn levels_of(alloc: Global, graph: &Graph, costs: &[u32], number: u32) -> Result<String, Fail> {
    let costs = costs_of(alloc, graph, costs)?;
    let period = period_of(alloc, graph)?;
    let of = levels(alloc, graph, &period, 1, &costs)?;
    numbered(alloc, &of, period.repetitions(), number)
}

/// Calls `levels_of` for the graph of `actors` actors with the channels `rows`.
fn told(
    alloc: Global,
    actors: usize,
    rows: &[Row],
    costs: &[u32],
    number: u32,
) -> Result<String, Fail> {
    levels_of(alloc, &graph(alloc, actors, rows)?, costs, number)
}

/// Rows with the number of actors, the channels, the costs, the number of the firings, and their levels.
const LEVELS: &[(usize, &[Row], &[u32], u32, &str)] = &[
    (2, BLOCKS, &[1, 1], 0, "[4, 2]"),
    (2, BLOCKS, &[1, 10], 0, "[22, 20]"),
    (2, BLOCKS, &[1, 1], 1, "[3, 1]"),
    (2, BLOCKS, &[1, 10], 1, "[21, 10]"),
    (2, BLOCKS, &[1, 1], 2, "[2, 0]"),
    (2, BLOCKS, &[1, 10], 2, "[11, 0]"),
    (6, FORK, &[1, 1, 1, 1, 1, 1], 0, "[5, 4, 3, 3, 2, 1]"),
    (
        7,
        LONGER_FORK,
        &[1, 1, 1, 1, 1, 1, 1],
        0,
        "[6, 5, 3, 4, 3, 2, 1]",
    ),
    (
        7,
        LONGER_FORK,
        &[1, 1, 3, 1, 1, 1, 1],
        0,
        "[7, 6, 5, 4, 3, 2, 1]",
    ),
    (
        7,
        LONGER_FORK,
        &[1, 4, 3, 1, 1, 1, 1],
        0,
        "[10, 9, 5, 4, 3, 2, 1]",
    ),
];

/// Returns the number of firings that each of the firings `numbers` waits for on channel 0.
fn needs(alloc: Global, graph: &Graph, numbers: &[u32]) -> Result<String, Fail> {
    let mut needs = Vec::new(alloc);
    if !graph.channels().is_empty() {
        for number in numbers {
            needs.push(needed(graph, 0, *number))?;
        }
    }
    Ok(format!(in alloc; "{needs:?}")?)
}

/// Calls `needs` for the graph of two actors with `channel`.
fn needs_of(alloc: Global, channel: Row, numbers: &[u32]) -> Result<String, Fail> {
    needs(alloc, &graph(alloc, 2, &[channel])?, numbers)
}

/// A channel between two actors, firings of the second, and how many firings of the first each of them waits for.
const NEEDS: &[(Row, &[u32], &str)] = &[
    ((0, &[2], &[3], 1, 0), &[0, 1], "[2, 3]"),
    ((0, &[2], &[3], 1, 1), &[0, 1], "[1, 3]"),
    ((0, &[1, 0, 2], &[1], 1, 0), &[0, 1, 3], "[1, 3, 4]"),
];

/// Tests that a level sums the costs along the most expensive path, and how many firings a firing waits for.
#[test]
fn levels_of_firings(rt: HostRuntime) -> Result<(), Fail> {
    let alloc = rt.alloc();
    for (actors, channels, costs, number, wanted) in LEVELS {
        says(told(alloc, *actors, channels, costs, *number), wanted)?;
    }
    for (channel, numbers, wanted) in NEEDS {
        says(needs_of(alloc, *channel, numbers), wanted)?;
    }
    Ok(())
}

/// Returns the fault of a block of `j` periods at unit costs, or nothing if there is none.
fn refusal(alloc: Global, graph: &Graph, j: u32) -> Result<String, Fail> {
    let costs = Costs::unit(alloc, graph)?;
    let period = period_of(alloc, graph)?;
    fault_of(alloc, levels(alloc, graph, &period, j, &costs))
}

/// Returns the fault of `costs`, or nothing if there is none.
fn costs_refusal(alloc: Global, graph: &Graph, costs: &[u32]) -> Result<String, Fail> {
    fault_of(alloc, Costs::new(graph, Vec::from_slice(alloc, costs)?))
}

/// Checks the faults of too many periods, and of costs that are too few, 0 or too many.
fn has_limits(alloc: Global, short: &Graph) -> Result<(), Fail> {
    says(refusal(alloc, short, 64), "")?;
    says(refusal(alloc, short, 65), "11 BlockingFactor")?;
    says(costs_refusal(alloc, short, &[1]), "62 BadCost actor 1")?;
    says(costs_refusal(alloc, short, &[1, 0]), "62 BadCost actor 1")?;
    says(
        costs_refusal(alloc, short, &[1, 1, 1]),
        "62 BadCost actor 2",
    )
}

/// What the first two of three actors put. The periods have 32,769 and 65,536 firings, so two periods are too long for
/// a block.
const LONG: &[(&[u32], &[u32])] = &[(&[128], &[255]), (&[255], &[256])];

/// Returns the fault of two periods of a graph of three actors, of which the first two put `first` and `second`.
fn refusal_of_long(alloc: Global, first: &[u32], second: &[u32]) -> Result<String, Fail> {
    let long: [Row; 2] = [(0, first, &[1], 1, 0), (1, second, &[1], 2, 0)];
    refusal(alloc, &graph(alloc, 3, &long)?, 2)
}

#[test]
fn limits_of_levels(rt: HostRuntime) -> Result<(), Fail> {
    let alloc = rt.alloc();
    has_limits(alloc, &graph(alloc, 2, BLOCKS)?)?;
    for (first, second) in LONG {
        says(refusal_of_long(alloc, first, second), "13 BlockTooLong")?;
    }
    Ok(())
}
