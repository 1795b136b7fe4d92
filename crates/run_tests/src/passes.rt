//! Tests of the gate: each firing passes it once, on its processor, in its turn, and then fires. If one seat alone has
//! firings, it is worked in the caller's thread.

ghost use Rattle.std.specs.Prelude.{◌≡◌, IfOk};
ghost use Rattle.sdf_graph.specs.Rates.{rates};
ghost use Rattle.sdf_actor.specs.Graphs.{graph_of};
ghost use Rattle.sdf_prec.specs.BlockTables.{IsBlockTableOf};

use crate::nets::{Times, begun, feed_twice, in_runs, list, pair, planned, run_by};
use sdf_actor::{Actor, Net, Node};
use sdf_node::{ActorId, Gate};
use sdf_prec::{BlockTable, Table};
use sdf_run::Mode;
use std::alloc::Global;
use std::path::PathBuf;
use std::process::Abort;
use std::sync::atomic::{AtomicU64, Ordering};
use std::test::Fail;
use std::thread::Threads;
use std::{fs, io};
use test_actors::Watched;
use test_actors::gates::{Hold, Watch};
use test_actors::nets::{sink, source};
use test_texts::row_says;

/// The number of actors: the source, one fired in batches, one of two phases, one with a channel to itself, the sink.
const ACTORS: usize = 5;

/// Returns an actor that reports its firings to `watch`.
fn actor<'a>(watch: &'a Watch<'a>, number: usize, cycle: u32, two: bool) -> Node<Watched<'a>> {
    Node::Inner(Watched {
        cycle,
        two,
        number,
        watch,
    })
}

/// Returns the net whose firings are watched. In a period the source fires twice, the sink once, and the actors between
/// four times each.
fn watched<'a>(alloc: Global, watch: &'a Watch<'a>) -> Result<Net<Watched<'a>>, Fail> {
    let nodes = [
        source(0, 2),
        actor(watch, 1, 1, false),
        actor(watch, 2, 2, false),
        actor(watch, 3, 1, true),
        sink(0, 4),
    ];
    let ends = [
        [0, 0, 1, 0],
        [1, 0, 2, 0],
        [2, 0, 3, 0],
        [3, 0, 4, 0],
        [3, 1, 3, 1],
    ];
    let nodes = Vec::from_array(alloc, nodes)?;
    Ok(Net::new(alloc, nodes, begun(alloc, &ends, 4, &[9])?)?)
}

/// Returns how many firings of `actor` are in a column of `table`.
fn standing(table: &Table, column: usize, actor: usize) -> u64 {
    let mut many: u64 = 0;
    for i in 0..table.rows() {
        if let Some(Some(firing)) = table.row(i).get(column) {
            many = many.wrapping_add(u64::from(firing.actor == actor));
        }
    }
    many
}

/// Checks that each firing of `blocks` blocks passed once, in its turn and in its column.
fn all_passed(rt: &impl Abort, name: &str, watch: &Watch, table: &Table, blocks: u64) {
    assert_eq!(rt; watch.odd(), 0, "{name}");
    for place in 0..3 * ACTORS {
        let (column, actor) = (place / ACTORS, place % ACTORS);
        assert_eq!(rt;
            watch.passed(column, actor),
            standing(table, column, actor).wrapping_mul(blocks),
            "{name}, actor {actor} in column {column}"
        );
    }
}

/// A table for a number of workers, free or homed; or one for three workers, of which this one has all firings, in
/// runs.
#[derive(Clone, Copy)]
enum Kind {
    Free(usize),
    Homed(usize),
    InRuns(usize),
}

/// The name of a row, a table, and how it is run.
type Row = (&'static str, Kind, Mode);

fn table<A: Actor>(alloc: Global, net: &Net<A>, kind: Kind) -> Result<BlockTable, Fail>
    ensures fits { IfOk result (IsBlockTableOf (rates (graph_of A.steps net.now))) }
    ensures blocking { IfOk result (λ table. table.blocking ≡ 2) }
{
    match kind {
        Kind::Free(workers) => planned(alloc, net, 2, workers, false),
        Kind::Homed(workers) => planned(alloc, net, 2, workers, true),
        Kind::InRuns(home) => in_runs(alloc, net, home),
    }
}

/// Checks that each firing passes once: in a run of two blocks, and then in two feeds of two.
fn all_pass_by<R: Abort + Threads + AllocGlobal + Sync, A: Actor<Token = i64>>(
    rt: &R,
    net: &Net<A>,
    table: &BlockTable,
    row: &Row,
    watch: &Watch,
) -> Result<(), Fail>
    requires fits { IsBlockTableOf (rates (graph_of A.steps net.now)) table.now }
{
    let (name, _, mode) = *row;
    let inputs = list(rt.alloc(), &[7; 16])?;
    run_by(rt, net, table, Times { blocks: 2, mode }, &inputs, watch)?;
    all_passed(rt, name, watch, &table.table, 2);
    watch.anew();
    feed_twice(rt, net, table, mode, &inputs, watch)?;
    all_passed(rt, name, watch, &table.table, 6);
    Ok(())
}

/// Calls `all_pass_by` with the table of `row`. A block is two periods.
fn all_pass<R: Abort + Threads + AllocGlobal + Sync, A: Actor<Token = i64>>(
    rt: &R,
    net: &Net<A>,
    row: &Row,
    watch: &Watch,
) -> Result<(), Fail> {
    let table = table(rt.alloc(), net, row.1)?;
    all_pass_by(rt, net, &table, row, watch)
}

fn all_pass_on<R: Abort + Threads + AllocGlobal + Sync>(rt: &R, row: &Row) -> Result<(), Fail> {
    let watch = Watch::new(rt.alloc(), 3, ACTORS, Hold::NONE)?;
    all_pass(rt, &watched(rt.alloc(), &watch)?, row, &watch)
}

const IMPATIENT: Mode = Mode::Rings { patience: 0 };

const PATIENT: Mode = Mode::Rings { patience: 1000 };

const ROWS: &[Row] = &[
    (
        "one worker of three by rows, in runs",
        Kind::InRuns(0),
        Mode::Rows,
    ),
    ("two workers by rows", Kind::Homed(2), Mode::Rows),
    (
        "three workers by rows, without homes",
        Kind::Free(3),
        Mode::Rows,
    ),
    (
        "one worker of three over rings, in runs",
        Kind::InRuns(0),
        IMPATIENT,
    ),
    ("two workers over rings", Kind::Homed(2), IMPATIENT),
    ("three workers over rings", Kind::Homed(3), IMPATIENT),
    (
        "one patient worker of three over rings, in runs",
        Kind::InRuns(0),
        PATIENT,
    ),
    ("two patient workers over rings", Kind::Homed(2), PATIENT),
    ("three patient workers over rings", Kind::Homed(3), PATIENT),
];

/// Tests that each firing passes the gate once. Refuses a gate that is left out, called twice or after its firing, or
/// given another processor, actor or number.
#[test]
fn by_rows_and_over_rings(rt: HostRuntime) -> Result<(), Fail> {
    for row in ROWS {
        all_pass_on(&rt, row)?;
    }
    Ok(())
}

/// A gate that counts the firings that pass in a thread other than `caller`.
#[derive(Drop)]
struct Elsewhere {
    host: HostRuntime,
    caller: PathBuf,
    elsewhere: AtomicU64,
}

/// Returns the system's name of the calling thread.
fn own_thread(host: HostRuntime) -> io::Result<PathBuf> {
    fs::read_link(&host, "/proc/thread-self")
}

impl Gate for Elsewhere {
    fn before(&self, _processor: usize, _actor: ActorId, _firing: u64) {
        match own_thread(self.host) {
            Ok(thread) if thread == self.caller => {}
            _ => {
                self.elsewhere.fetch_add(1, Ordering::SeqCst);
            }
        }
    }
}

/// Runs two blocks over rings with a table of this `kind`, and with `gate`.
fn run_over_rings<R: Threads + AllocGlobal + Sync, A: Actor<Token = i64>, G: Gate>(
    rt: &R,
    net: &Net<A>,
    kind: Kind,
    gate: &G,
) -> Result<(), Fail> {
    let table = table(rt.alloc(), net, kind)?;
    let inputs = list(rt.alloc(), &[7; 24])?;
    let (blocks, mode) = (2, IMPATIENT);
    run_by(rt, net, &table, Times { blocks, mode }, &inputs, gate)?;
    Ok(())
}

/// Returns whether all firings of two blocks pass in the caller's thread, over rings with a table of this `kind`.
fn stays<R: Threads + AllocGlobal + Sync, A: Actor<Token = i64>>(
    rt: &R,
    host: HostRuntime,
    net: &Net<A>,
    kind: Kind,
) -> Result<String, Fail> {
    let gate = Elsewhere {
        host,
        caller: own_thread(host)?,
        elsewhere: AtomicU64::new(0),
    };
    run_over_rings(rt, net, kind, &gate)?;
    let stays = gate.elsewhere.load(Ordering::SeqCst) == 0;
    Ok(format!(in rt.alloc(); "{stays}")?)
}

fn stays_by<R: Threads + AllocGlobal + Sync>(
    rt: &R,
    host: HostRuntime,
    kind: Kind,
) -> Result<String, Fail> {
    stays(rt, host, &pair(rt.alloc(), 2, 3, &[])?, kind)
}

/// The name of a row, a table, and whether all firings pass in the caller's thread.
const SEATS: &[(&str, Kind, &str)] = &[
    ("the first seat of three has all", Kind::InRuns(0), "true"),
    ("the last one has all", Kind::InRuns(2), "true"),
    ("two seats have some", Kind::Homed(2), "false"),
];

/// Tests which thread works a seat. Refuses a round that starts a thread for a seat without firings.
#[test]
fn seats_without_firings(rt: HostRuntime) -> Result<(), Fail> {
    for (name, kind, wanted) in SEATS {
        row_says(name, stays_by(&rt, rt, *kind), wanted)?;
    }
    Ok(())
}
