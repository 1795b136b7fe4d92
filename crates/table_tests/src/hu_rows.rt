//! Worked rows of Hu's rule: a source of 2 to a sink of 3, and forks of two ways, with costs of 1 and more.

ghost use Rattle.std.specs.Prelude.{IfOk};
ghost use Rattle.sdf_graph.specs.Rates.{rates};
ghost use Rattle.sdf_prec.specs.Tables.{IsExact};
ghost use Rattle.sdf_times.specs.Times.{IsBlockTable};

use crate::graphs::{BLOCKS, FORK, LONGER_FORK, costs_of, fault_of, period_of};
use sdf_graph::Graph;
use sdf_prec::hu::hu;
use sdf_prec::{Columns, Costs, Table};
use std::alloc::Global;
use std::test::Fail;
use test_actors::graphs::{Row, graph};
use test_texts::says;

/// Returns the table of `j` periods by Hu's rule for `m` workers.
pub(crate) fn table(
    alloc: Global,
    graph: &Graph,
    j: u32,
    m: usize,
    homed: bool,
    costs: &[u32],
) -> Result<Table, Fail>
    ensures exact { IfOk result (IsExact (rates graph.now)) }
    ensures table { IfOk result (IsBlockTable (rates graph.now) m) }
{
    graph.channels();
    let costs = costs_of(alloc, graph, costs)?;
    let period = period_of(alloc, graph)?;
    let team = Columns { workers: m, homed };
    Ok(hu(alloc, graph, &period, j, team, &costs)?)
}

/// Returns the number of rows, the capacity of channel 0, and the actors in the cells, row by row. An empty cell is 9.
fn cells(alloc: Global, graph: &Graph, table: &Table) -> Result<String, Fail>
    requires { IsExact (rates graph.now) table.now }
{
    if graph.channels().is_empty() {
        return Ok(String::new(alloc));
    }
    let mut actors = Vec::new(alloc);
    for i in 0..table.rows() {
        for cell in table.row(i) {
            actors.push(match cell {
                Some(firing) => firing.actor,
                None => 9,
            })?;
        }
    }
    Ok(format!(in alloc; "{} {} {actors:?}", table.rows(), table.cap(0))?)
}

/// Returns the rows, the capacity and the cells of the table of `j` periods for two workers.
fn told(alloc: Global, graph: &Graph, j: u32, homed: bool, costs: &[u32]) -> Result<String, Fail> {
    cells(alloc, graph, &table(alloc, graph, j, 2, homed, costs)?)
}

/// Returns the fault of a table of one period for `m` workers at unit costs, or nothing if there is none.
fn refusal(alloc: Global, graph: &Graph, m: usize) -> Result<String, Fail> {
    let costs = Costs::unit(alloc, graph)?;
    let period = period_of(alloc, graph)?;
    let team = Columns {
        workers: m,
        homed: true,
    };
    fault_of(alloc, hu(alloc, graph, &period, 1, team, &costs))
}

/// Rows with the number of actors, the channels, the number of periods, whether each actor keeps to one worker, the
/// costs, and the table.
const TABLES: &[(usize, &[Row], u32, bool, &[u32], &str)] = &[
    (2, BLOCKS, 1, true, &[1, 1], "4 6 [0, 9, 0, 9, 0, 1, 9, 1]"),
    (2, BLOCKS, 1, false, &[1, 1], "4 6 [0, 9, 0, 9, 0, 1, 1, 9]"),
    (
        2,
        BLOCKS,
        2,
        true,
        &[1, 1],
        "7 6 [0, 9, 0, 9, 0, 1, 0, 1, 0, 9, 0, 1, 9, 1]",
    ),
    (
        6,
        FORK,
        1,
        true,
        &[1, 1, 1, 1, 1, 1],
        "5 1 [0, 9, 9, 1, 2, 3, 4, 9, 9, 5]",
    ),
    (
        7,
        LONGER_FORK,
        1,
        true,
        &[1, 1, 1, 1, 1, 1, 1],
        "6 1 [0, 9, 9, 1, 3, 2, 4, 9, 9, 5, 6, 9]",
    ),
    (
        7,
        LONGER_FORK,
        1,
        true,
        &[1, 1, 3, 1, 1, 1, 1],
        "6 1 [0, 9, 9, 1, 2, 3, 9, 4, 9, 5, 6, 9]",
    ),
    (
        7,
        LONGER_FORK,
        1,
        true,
        &[1, 4, 3, 1, 1, 1, 1],
        "6 1 [0, 9, 9, 1, 2, 3, 9, 4, 5, 9, 6, 9]",
    ),
];

#[test]
fn rows_by_the_rule(rt: HostRuntime) -> Result<(), Fail> {
    let alloc = rt.alloc();
    for (actors, channels, j, homed, costs, wanted) in TABLES {
        let graph = graph(alloc, *actors, channels)?;
        says(told(alloc, &graph, *j, *homed, costs), wanted)?;
    }
    says(
        refusal(alloc, &graph(alloc, 2, BLOCKS)?, 17),
        "12 WorkerCount",
    )
}
