//! Tables as they are given, and by homes, for a source of 2 to a sink of 3.

ghost use Rattle.std.specs.Prelude.{IfOk};
ghost use Rattle.sdf_graph.specs.Rates.{rates};
ghost use Rattle.sdf_prec.specs.Tables.{IsExact};

use crate::graphs::{BLOCKS, period_of};
use sdf_graph::Graph;
use sdf_prec::{Firing, PrecFault, Table};
use std::alloc::{AllocError, Global};
use std::test::Fail;
use test_actors::graphs::graph;
use test_texts::says;

/// Returns the number of rows, the capacity of channel 0, and the homes of the first two actors.
fn parts_of(alloc: Global, graph: &Graph, table: &Table) -> Result<String, Fail>
    requires { IsExact (rates graph.now) table.now }
{
    if graph.channels().is_empty() || graph.actors() < 2 {
        return Ok(String::new(alloc));
    }
    let homes = (table.home(0), table.home(1));
    Ok(format!(in alloc;
        "{} rows, {} samples, {homes:?}",
        table.rows(),
        table.cap(0)
    )?)
}

/// Returns the parts of a table, or the text and the value of its fault.
fn told(alloc: Global, graph: &Graph, table: &Result<Table, PrecFault>) -> Result<String, Fail>
    requires { IfOk table.now (IsExact (rates graph.now)) }
{
    match table {
        Ok(table) => parts_of(alloc, graph, table),
        Err(fault) => Ok(format!(in alloc; "{fault}: {fault:?}")?),
    }
}

fn given(
    alloc: Global,
    rows: &[&[Option<Firing>]],
) -> Result<Vec<Vec<Option<Firing>>>, AllocError> {
    let mut given = Vec::new(alloc);
    for row in rows {
        given.push(Vec::from_slice(alloc, row)?)?;
    }
    Ok(given)
}

/// Returns the parts or the fault of a table with these `rows` for two workers.
fn accepted(alloc: Global, rows: &[&[Option<Firing>]]) -> Result<String, Fail> {
    let graph = graph(alloc, 2, BLOCKS)?;
    let period = period_of(alloc, &graph)?;
    let rows = given(alloc, rows)?;
    told(
        alloc,
        &graph,
        &Table::accept(alloc, &graph, period.repetitions(), 1, 2, rows),
    )
}

/// The first firing of the source. The source has no firing `A3`, and `B0` and `B1` are the firings of the sink.
const A0: Option<Firing> = Some(Firing {
    actor: 0,
    number: 0,
});

const A1: Option<Firing> = Some(Firing {
    actor: 0,
    number: 1,
});

const A2: Option<Firing> = Some(Firing {
    actor: 0,
    number: 2,
});

const A3: Option<Firing> = Some(Firing {
    actor: 0,
    number: 3,
});

const B0: Option<Firing> = Some(Firing {
    actor: 1,
    number: 0,
});

const B1: Option<Firing> = Some(Firing {
    actor: 1,
    number: 1,
});

/// The rows of a table, and its parts or its fault.
const TABLES: &[(&[&[Option<Firing>]], &str)] = &[
    (
        &[&[A0], &[], &[A1], &[A2, B0], &[None, B1]],
        "4 rows, 6 samples, (Some(0), Some(1))",
    ),
    (
        &[&[A0], &[None, A1], &[A2, B0], &[None, B1]],
        "4 rows, 6 samples, (None, Some(1))",
    ),
    (&[&[A0, A0, A3]], "17 RowTooWide: RowTooWide { row: 0 }"),
    (
        &[&[A0], &[A0]],
        "15 FiringTwice: FiringTwice { row: 1, firing: Firing { actor: 0, number: 0 } }",
    ),
    (
        &[&[A0], &[A3]],
        "16 FiringUnknown: FiringUnknown { row: 1, firing: Firing { actor: 0, number: 3 } }",
    ),
    (
        &[&[A0], &[A1], &[A2, B0]],
        "14 FiringMissing: FiringMissing { firing: Firing { actor: 1, number: 1 } }",
    ),
    (
        &[&[A0, B0], &[A1], &[A2], &[B1]],
        "18 TooEarly: TooEarly { row: 0, firing: Firing { actor: 1, number: 0 }, \
             needs: Firing { actor: 0, number: 1 } }",
    ),
];

/// Returns the parts or the fault of a table by `homes` for `m` workers, with one firing a row.
fn by_homes(alloc: Global, m: usize, homes: &[Option<usize>]) -> Result<String, Fail> {
    let graph = graph(alloc, 2, BLOCKS)?;
    let period = period_of(alloc, &graph)?;
    told(
        alloc,
        &graph,
        &Table::by_homes(alloc, &graph, &period, 1, m, homes),
    )
}

/// The number of workers, the homes, and the parts or the fault of the table.
const HOMES: &[(usize, [Option<usize>; 2], &str)] = &[
    (
        1,
        [Some(0), Some(0)],
        "5 rows, 4 samples, (Some(0), Some(0))",
    ),
    (
        1,
        [Some(0), Some(1)],
        "19 BadHome actor 1: BadHome { actor: 1 }",
    ),
    (17, [Some(0), Some(1)], "12 WorkerCount: WorkerCount"),
];

#[test]
fn tables_as_given_and_by_homes(rt: HostRuntime) -> Result<(), Fail> {
    for (rows, wanted) in TABLES {
        says(accepted(rt.alloc(), rows), wanted)?;
    }
    for (m, homes, wanted) in HOMES {
        says(by_homes(rt.alloc(), *m, homes), wanted)?;
    }
    Ok(())
}
