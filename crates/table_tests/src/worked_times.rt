//! Worked times, counted by hand: a fork of two ways with three rows of costs, a table that was made for other costs,
//! and bounds.

ghost use Rattle.std.specs.Prelude.{IfOk};
ghost use Rattle.sdf_graph.specs.Rates.{rates};
ghost use Rattle.sdf_times.specs.Times.{IsBlockTable};

use crate::graphs::{BLOCKS, LONGER_FORK, costs_of, period_of};
use crate::hu_rows::table;
use crate::slow_times::{by_times, figures};
use sdf_graph::Graph;
use sdf_prec::{Firing, Table};
use sdf_times::bound;
use std::alloc::{AllocError, Global};
use std::test::Fail;
use test_actors::graphs::graph;
use test_texts::says;

/// Returns the times of the fork by Hu's homed table in two columns: the starts in row order, the makespan, the loads
/// of both columns, the span, the work and the bound.
fn of_a_fork(alloc: Global, costs: &[u32]) -> Result<String, Fail> {
    let graph = graph(alloc, 7, LONGER_FORK)?;
    let table = table(alloc, &graph, 1, 2, true, costs)?;
    figures(alloc, &graph, &table, costs)
}

/// The cost of each actor, and the figures.
const FORKS: &[(&[u32], &str)] = &[
    (
        &[1, 1, 1, 1, 1, 1, 1],
        "[0, 1, 2, 2, 3, 4, 5, 6, 4, 3] 6 7 6",
    ),
    (
        &[1, 1, 3, 1, 1, 1, 1],
        "[0, 1, 2, 2, 3, 5, 6, 7, 5, 4] 7 9 7",
    ),
    (
        &[1, 4, 3, 1, 1, 1, 1],
        "[0, 1, 5, 5, 6, 8, 9, 10, 6, 6] 10 12 10",
    ),
];

/// Tests the times of forks and of another table, and bounds. A `Times::of` or a `span` that always reports refused
/// memory fails here.
#[test]
fn times_of_a_fork(rt: HostRuntime) -> Result<(), Fail> {
    for (costs, wanted) in FORKS {
        says(of_a_fork(rt.alloc(), costs), wanted)?;
    }
    says(of_other_rows(rt.alloc()), "[0, 1, 2, 2, 12, 22, 3, 20]")?;
    says(bounds(rt.alloc()), "2 5 2")
}

/// Returns three bounds. The first is rounded up.
fn bounds(alloc: Global) -> Result<String, Fail> {
    let (halves, long, even) = (bound(1, 3, 2), bound(5, 3, 2), bound(0, 4, 2));
    Ok(format!(in alloc; "{halves} {long} {even}")?)
}

/// Returns the cells of `row`. An actor from 9 on stands for an empty cell.
fn cells(alloc: Global, row: &[(usize, u32)]) -> Result<Vec<Option<Firing>>, AllocError> {
    let mut cells = Vec::new(alloc);
    for (actor, number) in row {
        cells.push(if *actor < 9 {
            Some(Firing {
                actor: *actor,
                number: *number,
            })
        } else {
            None
        })?;
    }
    Ok(cells)
}

/// Returns the rows of a table of `BLOCKS` in which one worker has the source and the other has the sink.
fn other_rows(alloc: Global) -> Result<Vec<Vec<Option<Firing>>>, AllocError> {
    let mut rows = Vec::new(alloc);
    for row in [
        [(0, 0), (9, 0)],
        [(0, 1), (9, 0)],
        [(0, 2), (1, 0)],
        [(9, 0), (1, 1)],
    ] {
        rows.push(cells(alloc, &row)?)?;
    }
    Ok(rows)
}

/// Returns the table of one period of `graph` with these rows.
fn other_table(alloc: Global, graph: &Graph) -> Result<Table, Fail>
    ensures table { IfOk result (IsBlockTable (rates graph.now) 2) }
{
    let period = period_of(alloc, graph)?;
    let rows = other_rows(alloc)?;
    let table = Table::accept(alloc, graph, period.repetitions(), 1, 2, rows)?;
    Ok(table)
}

/// Returns the times of a table with given rows. Firings don't start by the number of their row: the sink's second one
/// waits for its first, which costs 10.
fn of_other_rows(alloc: Global) -> Result<String, Fail> {
    let graph = graph(alloc, 2, BLOCKS)?;
    let table = other_table(alloc, &graph)?;
    let costs = costs_of(alloc, &graph, &[1, 10])?;
    let numbers = by_times(alloc, &graph, &table, &costs)?;
    Ok(format!(in alloc; "{numbers:?}")?)
}
