//! A graph at each limit at once, and tables of it: no function reports refused memory while there is plenty.
//!
//! No contract forbids that report. Versions of `hu`, `Table::by_homes` and `Table::by_homes_in_runs` that give it for
//! blocks of more than 60,000 firings or for 16 workers were seen to fail here. So was a `Table::accept` that gives it
//! for more than 4,000 rows. The rows of `Table::spread`, `block_levels`, `span` and `Times::of` have the same purpose;
//! for them this was not tried.

ghost use Rattle.std.specs.Prelude.{◌≡◌, IfOk};
ghost use Rattle.sdf_graph.specs.Rates.{rates};
ghost use Rattle.sdf_prec.specs.Spread.{AreLoads};
ghost use Rattle.sdf_times.specs.Times.{IsBlockTable};

use crate::graphs::period_of;
use crate::hu_rows::table;
use sdf_graph::{Channel, Graph};
use sdf_prec::levels::block_levels;
use sdf_prec::{Costs, Firing, Table};
use sdf_sched::class_s::class_s;
use sdf_sched::{Lean, Pick, Round, Runs};
use sdf_times::{Times, span};
use std::alloc::{AllocError, Global};
use std::test::Fail;
use test_actors::graphs::{Row, graph};
use test_texts::row_says;

/// Returns the firings of `actor` in a period. Together the 64 actors have 65,536.
fn times(actor: usize) -> u32 {
    match actor {
        20 | 30 => 1023,
        40 => 1026,
        _ => 1024,
    }
}

/// Returns what `actor` moves in each firing of its cycle on a channel between it and `other`.
fn moves(alloc: Global, actor: usize, other: usize) -> Result<Vec<u32>, AllocError> {
    let rate = match (times(actor), times(other)) {
        (1024, 1024) => 1,
        (1024, 1026) => 513,
        (1026, _) => 512,
        (_, often) => often,
    };
    vec![in alloc; rate; if actor == 0 { 64 } else { 1 }]
}

/// Returns a ring of 64 actors, each with a channel to each of the next four. A channel that goes back begins with
/// 65,536 samples. The first actor has a cycle of 64 firings.
fn largest(alloc: Global) -> Result<Graph, Fail> {
    let mut channels = Vec::new(alloc);
    for channel in 0..256usize {
        let from = channel % 64;
        let to = (from + 1 + channel / 64) % 64;
        channels.push(Channel {
            from,
            put: moves(alloc, from, to)?,
            to,
            take: moves(alloc, to, from)?,
            initial: if to < from { 65_536 } else { 0 },
        })?;
    }
    Ok(Graph::new(alloc, 64, channels)?)
}

/// Returns the number of firings in the schedule of a period by the policy `pick`.
fn firings<P: Pick>(alloc: Global, graph: &Graph, pick: &mut P) -> Result<String, Fail> {
    let reps = graph.repetitions(alloc)?;
    let period = class_s(alloc, graph, &reps, pick)?;
    Ok(format!(in alloc; "{}", period.order().len())?)
}

/// Returns the number of firings in `table`.
fn many(alloc: Global, table: &Table) -> Result<String, Fail> {
    Ok(format!(in alloc; "{}", table.order().len())?)
}

/// The maximum cost of a firing, for each actor.
const COSTS: &[u32] = &[1_000_000; 64];

/// Returns the number of firings in a table of `j` periods by Hu's rule on 16 workers.
fn by_rule(
    alloc: Global,
    graph: &Graph,
    j: u32,
    homed: bool,
    costs: &[u32],
) -> Result<String, Fail> {
    many(alloc, &table(alloc, graph, j, 16, homed, costs)?)
}

/// Returns a home for each actor on 16 workers.
fn homes(alloc: Global) -> Result<Vec<Option<usize>>, AllocError> {
    let mut homes = Vec::new(alloc);
    for actor in 0..64 {
        homes.push(Some(actor % 16))?;
    }
    Ok(homes)
}

/// Returns the number of firings in a table by homes, with one firing a row. If `in_runs`, an actor fires as long as it
/// is runnable.
fn at_homes(alloc: Global, graph: &Graph, in_runs: bool) -> Result<String, Fail> {
    let period = period_of(alloc, graph)?;
    let homes = homes(alloc)?;
    let table = if in_runs {
        Table::by_homes_in_runs(alloc, graph, &period, 1, 16, &homes)?
    } else {
        Table::by_homes(alloc, graph, &period, 1, 16, &homes)?
    };
    many(alloc, &table)
}

/// Returns the rows of `table`.
fn rows_of(alloc: Global, table: &Table) -> Result<Vec<Vec<Option<Firing>>>, AllocError> {
    let mut rows = Vec::new(alloc);
    for i in 0..table.rows() {
        rows.push(Vec::from_slice(alloc, table.row(i))?)?;
    }
    Ok(rows)
}

/// Returns the number of firings in the table that is accepted for 16 workers with the rows of `other`.
fn accepted(alloc: Global, graph: &Graph, other: &Table) -> Result<String, Fail> {
    let period = period_of(alloc, graph)?;
    let rows = rows_of(alloc, other)?;
    many(
        alloc,
        &Table::accept(alloc, graph, period.repetitions(), 1, 16, rows)?,
    )
}

/// Returns the number of firings in the table that is accepted with the rows by Hu's rule at unit costs.
fn by_rule_again(alloc: Global, graph: &Graph) -> Result<String, Fail> {
    accepted(alloc, graph, &table(alloc, graph, 1, 16, true, &[1; 64])?)
}

/// Checks the length of a period by each policy.
fn has_periods(alloc: Global, graph: &Graph) -> Result<(), Fail> {
    row_says(
        "by rounds",
        firings(alloc, graph, &mut Round::new()),
        "65536",
    )?;
    row_says("lean", firings(alloc, graph, &mut Lean), "65536")?;
    row_says("by runs", firings(alloc, graph, &mut Runs::new()), "65536")
}

/// Checks tables by Hu's rule, by homes, and as they are given.
fn has_tables(alloc: Global, graph: &Graph) -> Result<(), Fail> {
    row_says(
        "by the rule",
        by_rule(alloc, graph, 1, false, COSTS),
        "65536",
    )?;
    row_says(
        "by the rule, homed",
        by_rule(alloc, graph, 1, true, COSTS),
        "65536",
    )?;
    row_says("by homes", at_homes(alloc, graph, false), "65536")?;
    row_says("by homes in runs", at_homes(alloc, graph, true), "65536")?;
    row_says("as given", by_rule_again(alloc, graph), "65536")
}

/// Returns a load of 1 for each actor.
fn weights(alloc: Global, graph: &Graph) -> Result<Vec<u64>, AllocError>
    ensures { IfOk result (λ v. AreLoads graph.now.actors v.items) }
{
    vec![in alloc; 1u64; graph.actors()]
}

/// Returns the number of firings in `table` and the total load of its 16 workers, at unit costs.
fn done_by(alloc: Global, graph: &Graph, table: &Table) -> Result<String, Fail>
    requires { IsBlockTable (rates graph.now) 16 table.now }
{
    let costs = Costs::unit(alloc, graph)?;
    let times = Times::of(alloc, graph, table, 16, &costs)?;
    let mut all = 0u64;
    for worker in 0..16 {
        all = all.saturating_add(times.load(worker));
    }
    Ok(format!(in alloc; "{} {all}", table.order().len())?)
}

/// Returns the number of firings and the total load of a block of `j` periods spread over 16 workers, or the text of
/// the fault.
fn spread_out(alloc: Global, graph: &Graph, j: u32) -> Result<String, Fail> {
    let period = period_of(alloc, graph)?;
    let weights = weights(alloc, graph)?;
    match Table::spread(alloc, graph, &period, j, 16, &weights) {
        Ok(table) => done_by(alloc, graph, &table),
        Err(fault) => Ok(fault.to_string(alloc)?),
    }
}

/// Returns the length of the longest chain of firings in a block of `j` periods, or the text of the fault. The levels
/// are computed first.
fn longest(alloc: Global, graph: &Graph, j: u32) -> Result<String, Fail> {
    let period = period_of(alloc, graph)?;
    let costs = Costs::unit(alloc, graph)?;
    if let Err(fault) = block_levels(alloc, graph, &period, j, &costs) {
        return Ok(fault.to_string(alloc)?);
    }
    let span = span(alloc, graph, &period, j, &costs)?;
    Ok(format!(in alloc; "{span}")?)
}

/// An actor that feeds itself, so that a period is one firing.
const ALONE: &[Row] = &[(0, &[1], &[1], 0, 1)];

/// Checks blocks with the maximum number of firings, and with one more.
fn has_long_blocks(alloc: Global, graph: &Graph) -> Result<(), Fail> {
    row_says("spread", spread_out(alloc, graph, 65_536), "65536 65536")?;
    row_says(
        "spread, one more",
        spread_out(alloc, graph, 65_537),
        "13 BlockTooLong",
    )?;
    row_says("a chain", longest(alloc, graph, 65_536), "65536")?;
    row_says(
        "a chain, one more",
        longest(alloc, graph, 65_537),
        "13 BlockTooLong",
    )
}

#[test]
fn a_period(rt: HostRuntime) -> Result<(), Fail> {
    has_periods(rt.alloc(), &largest(rt.alloc())?)
}

#[test]
fn a_table(rt: HostRuntime) -> Result<(), Fail> {
    has_tables(rt.alloc(), &largest(rt.alloc())?)
}

#[test]
fn a_spread_table(rt: HostRuntime) -> Result<(), Fail> {
    row_says(
        "the largest graph",
        spread_out(rt.alloc(), &largest(rt.alloc())?, 1),
        "65536 65536",
    )
}

#[test]
fn a_long_block(rt: HostRuntime) -> Result<(), Fail> {
    has_long_blocks(rt.alloc(), &graph(rt.alloc(), 1, ALONE)?)
}

#[test]
fn of_many_periods(rt: HostRuntime) -> Result<(), Fail> {
    let pair = graph(rt.alloc(), 2, &[(0, &[1023], &[1], 1, 0)])?;
    row_says(
        "64 periods",
        by_rule(rt.alloc(), &pair, 64, true, &[1_000_000; 2]),
        "65536",
    )
}
