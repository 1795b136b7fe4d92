//! Compares the times of `sdf_times` with a slow model that is written from the definitions. The graphs are a fork of
//! two ways with three rows of costs, and a source of 2 to a sink of 3.

ghost use Rattle.std.specs.Prelude.{◌<◌, length};
ghost use Rattle.sdf_graph.specs.Rates.{rates};
ghost use Rattle.sdf_prec.specs.declared.firing.Firing.{Firing};
ghost use Rattle.sdf_prec.specs.Costs.{AreCosts};
ghost use Rattle.sdf_times.specs.Times.{IsBlockTable, IsInTable, HasStart};

use crate::graphs::{BLOCKS, LONGER_FORK, costs_of, period_of};
use crate::hu_rows::table;
use sdf_graph::{Channel, Graph};
use sdf_prec::{Costs, Firing, Table};
use sdf_times::{Times, bound, span, work};
use std::alloc::{AllocError, Global};
use std::test::Fail;
use test_actors::graphs::{Row, graph};
use test_texts::row_says;

/// A firing, its row and its column in a table, and its start.
#[derive(Clone, Copy)]
struct Standing {
    firing: Firing,
    row: usize,
    column: usize,
    start: u64,
}

/// Returns the number of samples that the first `firings` firings move. `rates` are the rates of a cycle.
fn moved(rates: &[u32], firings: u64) -> u64 {
    let mut total = 0u64;
    for number in 0..firings {
        let phase = (number as usize).checked_rem(rates.len()).unwrap_or(0);
        total = total.saturating_add(u64::from(rates.get(phase).copied().unwrap_or(0)));
    }
    total
}

/// Checks whether `channel` has too little for `firing` of its target before `other` of its source has fired.
fn lacks(channel: &Channel, firing: Firing, other: Firing) -> bool {
    let held = (channel.initial as u64).saturating_add(moved(
        channel.put.as_slice(),
        u64::from(other.number),
    ));
    let taken = moved(channel.take.as_slice(), u64::from(firing.number) + 1);
    channel.to == firing.actor && channel.from == other.actor && held < taken
}

/// Checks whether `firing` waits for `other`.
fn waits_for(graph: &Graph, firing: Firing, other: Firing) -> bool {
    let same = firing.actor == other.actor;
    let next = u64::from(other.number) + 1 == u64::from(firing.number);
    let mut waits = same && next;
    for channel in graph.channels() {
        waits = waits || lacks(channel, firing, other);
    }
    waits
}

/// Returns the cost of a firing of `actor`.
fn cost(costs: &[u32], actor: usize) -> u64 {
    u64::from(costs.get(actor).copied().unwrap_or(0))
}

/// Returns the time at which the firing `at` ends.
fn end(costs: &[u32], at: Standing) -> u64 {
    at.start.saturating_add(cost(costs, at.firing.actor))
}

/// Returns the latest end of the firings that `at` waits for. If `columns`, the firings before it in its column count
/// too.
fn ready(graph: &Graph, costs: &[u32], all: &[Standing], at: Standing, columns: bool) -> u64 {
    let mut most = 0u64;
    for other in all {
        let above = columns && other.column == at.column && other.row < at.row;
        if above || waits_for(graph, at.firing, other.firing) {
            most = most.max(end(costs, *other));
        }
    }
    most
}

/// Sets the start of each firing from the ends that are known so far.
fn once_more(graph: &Graph, costs: &[u32], all: &mut Vec<Standing>, columns: bool) {
    for i in 0..all.len() {
        let at = all[i];
        let start = ready(graph, costs, all.as_slice(), at, columns);
        all[i] = Standing { start, ..at };
    }
}

/// Updates the starts `all.len()` times, after which nothing changes.
fn settle(graph: &Graph, costs: &[u32], all: &mut Vec<Standing>, columns: bool) {
    for _ in 0..all.len() {
        once_more(graph, costs, all, columns);
    }
}

/// Adds the firings of a row.
fn add_row(table: &Table, row: usize, all: &mut Vec<Standing>) -> Result<(), AllocError>
    requires { row < length table.now.rows }
{
    for (column, cell) in table.row(row).iter().enumerate() {
        if let Some(firing) = cell {
            all.push(Standing {
                firing: *firing,
                row,
                column,
                start: 0,
            })?;
        }
    }
    Ok(())
}

/// Returns the firings of `table` in row order.
fn firings_in(alloc: Global, table: &Table) -> Result<Vec<Standing>, AllocError> {
    let mut all = Vec::new(alloc);
    for row in 0..table.rows() {
        add_row(table, row, &mut all)?;
    }
    Ok(all)
}

/// Returns the time at which the last firing ends.
fn last(costs: &[u32], all: &[Standing]) -> u64 {
    let mut most = 0u64;
    for at in all {
        most = most.max(end(costs, *at));
    }
    most
}

/// Returns the total cost of the firings in `column`, or of all firings if it is `None`.
fn load(costs: &[u32], all: &[Standing], column: Option<usize>) -> u64 {
    let mut load = 0u64;
    for at in all {
        if column.unwrap_or(at.column) == at.column {
            load = load.saturating_add(cost(costs, at.firing.actor));
        }
    }
    load
}

/// Returns the least time in which the longest chain can end and the workers can do the work.
fn least(span: u64, work: u64, workers: u64) -> u64 {
    for time in 0..work {
        if span <= time && work <= time.saturating_mul(workers) {
            return time;
        }
    }
    work
}

/// Adds the starts, in row order.
fn add_starts(all: &[Standing], numbers: &mut Vec<u64>) -> Result<(), AllocError> {
    for at in all {
        numbers.push(at.start)?;
    }
    Ok(())
}

/// Returns the numbers by the model: the starts, the makespan, the loads of two columns, the span, the work and the
/// bound.
fn by_model(alloc: Global, graph: &Graph, table: &Table, costs: &[u32]) -> Result<String, Fail> {
    let mut numbers = Vec::new(alloc);
    let mut all = firings_in(alloc, table)?;
    settle(graph, costs, &mut all, true);
    add_starts(all.as_slice(), &mut numbers)?;
    numbers.push(last(costs, all.as_slice()))?;
    numbers.push(load(costs, all.as_slice(), Some(0)))?;
    numbers.push(load(costs, all.as_slice(), Some(1)))?;
    let mut free = firings_in(alloc, table)?;
    settle(graph, costs, &mut free, false);
    let span = last(costs, free.as_slice());
    let work = load(costs, free.as_slice(), None);
    Ok(format!(in alloc; "{numbers:?} {span} {work} {}", least(span, work, 2))?)
}

/// Adds the starts of a row's firings.
fn add_starts_of(
    times: &Times,
    table: &Table,
    row: usize,
    numbers: &mut Vec<u64>,
) -> Result<(), AllocError>
    requires within { row < length table.now.rows }
    requires has { (f : Firing) → IsInTable table.now.rows f → HasStart times.now.starts f }
{
    for cell in table.row(row) {
        if let Some(firing) = cell {
            numbers.push(times.start(*firing))?;
        }
    }
    Ok(())
}

/// Returns the numbers by `Times`: the starts, the makespan and the loads of two columns.
pub(crate) fn by_times(
    alloc: Global,
    graph: &Graph,
    table: &Table,
    costs: &Costs,
) -> Result<Vec<u64>, Fail>
    requires costs { AreCosts graph.now.actors costs.now }
    requires table { IsBlockTable (rates graph.now) 2 table.now }
{
    let times = Times::of(alloc, graph, table, 2, costs)?;
    let mut numbers = Vec::new(alloc);
    for row in 0..table.rows() {
        add_starts_of(&times, table, row, &mut numbers)?;
    }
    numbers.push(times.makespan())?;
    numbers.push(times.load(0))?;
    numbers.push(times.load(1))?;
    Ok(numbers)
}

/// Returns the span, the work and the bound of one period in two columns.
fn least_of(alloc: Global, graph: &Graph, costs: &Costs) -> Result<String, Fail>
    requires { AreCosts graph.now.actors costs.now }
{
    graph.channels();
    let period = period_of(alloc, graph)?;
    let span = span(alloc, graph, &period, 1, costs)?;
    let work = work(period.repetitions(), 1, costs);
    Ok(format!(in alloc; "{span} {work} {}", bound(span, work, 2))?)
}

/// Returns the numbers by `sdf_times`: the starts, the makespan and the loads of `table`, then the span, the work and
/// the bound of its period.
pub(crate) fn figures(
    alloc: Global,
    graph: &Graph,
    table: &Table,
    costs: &[u32],
) -> Result<String, Fail>
    requires { IsBlockTable (rates graph.now) 2 table.now }
{
    let costs = costs_of(alloc, graph, costs)?;
    let numbers = by_times(alloc, graph, table, &costs)?;
    let least = least_of(alloc, graph, &costs)?;
    Ok(format!(in alloc; "{numbers:?} {least}")?)
}

/// Checks that the model and `sdf_times` give the same numbers for Hu's table of one period in two columns.
fn is_the_same(alloc: Global, name: &str, graph: &Graph, costs: &[u32]) -> Result<(), Fail> {
    let table = table(alloc, graph, 1, 2, false, costs)?;
    let model = by_model(alloc, graph, &table, costs)?;
    row_says(name, figures(alloc, graph, &table, costs), model.as_str())
}

/// Graphs by name: the number of actors, the channels, and the costs of the firings.
const GRAPHS: &[(&str, usize, &[Row], &[u32])] = &[
    ("an even fork", 7, LONGER_FORK, &[1, 1, 1, 1, 1, 1, 1]),
    ("a dear way", 7, LONGER_FORK, &[1, 1, 3, 1, 1, 1, 1]),
    ("a dear fork", 7, LONGER_FORK, &[1, 4, 3, 1, 1, 1, 1]),
    ("dear blocks", 2, BLOCKS, &[1, 10]),
];

#[test]
fn times_are_those_of_the_model(rt: HostRuntime) -> Result<(), Fail> {
    for (name, actors, channels, costs) in GRAPHS {
        is_the_same(
            rt.alloc(),
            name,
            &graph(rt.alloc(), *actors, channels)?,
            costs,
        )?;
    }
    Ok(())
}
