//! Worked times by rows and periods, counted by hand: a ring of three actors with two samples, whose period is not
//! whole, and a source whose next firing waits for room.

ghost use Rattle.std.specs.Prelude.{ℕ};
ghost use Rattle.sdf_times.specs.Checks.{IsBlockRun};

use crate::graphs::{costs_of, period_of};
use sdf_graph::Graph;
use sdf_prec::{Costs, Firing, Table};
use sdf_times::by_rows;
use sdf_times::search::period;
use std::alloc::{AllocError, Global};
use std::test::Fail;
use test_actors::graphs::{Row, graph};
use test_texts::says;

/// Three actors in a ring with two samples.
const RING: &[Row] = &[
    (0, &[1], &[1], 1, 0),
    (1, &[1], &[1], 2, 0),
    (2, &[1], &[1], 0, 2),
];

/// A source of 2 samples to a sink of 1.
const PAIRS: &[Row] = &[(0, &[2], &[1], 1, 0)];

/// Returns a table row for each of `firings`, in which the column of each actor is its number.
fn rows_of(
    alloc: Global,
    actors: usize,
    firings: &[(usize, u32)],
) -> Result<Vec<Vec<Option<Firing>>>, AllocError> {
    let mut rows = Vec::new(alloc);
    for (actor, number) in firings {
        let mut row = Vec::new(alloc);
        for column in 0..actors {
            row.push(if column == *actor {
                Some(Firing {
                    actor: *actor,
                    number: *number,
                })
            } else {
                None
            })?;
        }
        rows.push(row)?;
    }
    Ok(rows)
}

/// Returns the time by rows of a block of one period, the period of its self-timed runs and the blocks that it is for,
/// and the number of steps of the cycle.
fn told(
    alloc: Global,
    graph: &Graph,
    table: &Table,
    costs: &Costs,
    reps: &[u32],
) -> Result<String, Fail>
    requires run { (width : ℕ) × IsBlockRun graph.now reps.now 1 width table.now costs.now }
{
    let rows = by_rows(graph, table, costs);
    match period(alloc, graph, table, costs, reps, 1)? {
        Some(found) => {
            let (time, blocks, steps) = (found.time(), found.blocks(), found.steps().len());
            Ok(format!(in alloc; "{rows} {time}/{blocks} {steps}")?)
        }
        None => Ok(format!(in alloc; "{rows} not found")?),
    }
}

/// Returns what `told` does of a table with a column for each actor and a row for each of `firings`.
fn times_of(
    alloc: Global,
    actors: usize,
    channels: &[Row],
    costs: &[u32],
    firings: &[(usize, u32)],
) -> Result<String, Fail> {
    let graph = graph(alloc, actors, channels)?;
    let costs = costs_of(alloc, &graph, costs)?;
    let schedule = period_of(alloc, &graph)?;
    let rows = rows_of(alloc, actors, firings)?;
    let reps = schedule.repetitions();
    let table = Table::accept(alloc, &graph, reps, 1, actors, rows)?;
    told(alloc, &graph, &table, &costs, reps)
}

/// Tests times by rows and periods. A search that never finds a certificate fails here.
#[test]
fn periods_of_a_ring_and_of_pairs(rt: HostRuntime) -> Result<(), Fail> {
    let ring = [(0, 0), (1, 0), (2, 0)];
    says(times_of(rt.alloc(), 3, RING, &[3, 4, 2], &ring), "9 9/2 3")?;
    says(times_of(rt.alloc(), 3, RING, &[3, 5, 2], &ring), "10 5/1 1")?;
    let pairs = [(0, 0), (1, 0), (1, 1)];
    says(
        times_of(rt.alloc(), 2, PAIRS, &[10, 5], &pairs),
        "20 15/1 3",
    )
}
