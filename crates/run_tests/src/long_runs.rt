//! Tests of runs with more firings than 16 bits count: each passes the gate with its number, and memory suffices.

ghost use Rattle.sdf_graph.specs.Rates.{rates};
ghost use Rattle.sdf_sched.specs.Period.{IsPeriodOf};
ghost use Rattle.sdf_actor.specs.Graphs.{graph_of};
ghost use Rattle.sdf_prec.specs.BlockTables.{IsBlockTableOf};

use crate::kits::{PLAIN, Worked};
use crate::nets::{planned, ramp};
use sdf_actor::{Actor, Net};
use sdf_prec::BlockTable;
use sdf_run::{Mode, Session, feed_one, resume_one};
use sdf_sched::Period;
use std::alloc::Global;
use std::test::Fail;
use std::thread::Threads;
use test_actors::gates::{Hold, Watch};
use test_texts::row_says;

const RINGS: Mode = Mode::Rings { patience: 0 };

/// A name, a net that reads 70,000 samples, a mode for one worker, and the wanted text. The text gives the samples
/// made, the firings of the source and of the sink, and the firings out of turn. With no mode one thread runs the net,
/// and the text gives the samples only.
type Row = (&'static str, Worked, Option<Mode>, &'static str);

const ONE_BY_ONE: &[Row] = &[
    (
        "firings one by one, for numbers of 16 bits",
        PLAIN,
        Some(Mode::Rows),
        "70000 70000 70000 0",
    ),
    (
        "the same over rings",
        PLAIN,
        Some(RINGS),
        "70000 70000 70000 0",
    ),
];

const OTHERS: &[Row] = &[
    (
        "two firings of the source in one run",
        Worked::Pair(1, 2, &[]),
        Some(RINGS),
        "70000 70000 35000 0",
    ),
    (
        "the same by rows",
        Worked::Pair(1, 2, &[]),
        Some(Mode::Rows),
        "70000 70000 35000 0",
    ),
    ("on one thread", PLAIN, None, "70000"),
];

/// Returns the length of the first list, or 0 if there is none or its capacity is at least twice its length.
fn first_len(lists: &[Vec<i32>]) -> usize {
    match lists.first() {
        Some(list) if list.capacity() / 2 < list.len() => list.len(),
        _ => 0,
    }
}

/// Feeds all blocks at once to a session with `table` and the gate `watch`. Returns the number of samples made.
fn made_by<R: Threads + AllocGlobal + Sync, A: Actor<Token = i32>>(
    rt: &R,
    net: &Net<A>,
    table: &BlockTable,
    mode: Mode,
    watch: &Watch,
) -> Result<usize, Fail>
    requires fits { IsBlockTableOf (rates (graph_of A.steps net.now)) table.now }
{
    let inputs = ramp(rt.alloc(), 0, 70_000, 0)?;
    let mut session = Session::open(rt.alloc(), net, table, mode)?;
    Ok(first_len(&session.feed(rt, &inputs, watch)?.outputs))
}

/// Makes a table for one worker, and calls `made_by`.
fn made<R: Threads + AllocGlobal + Sync, A: Actor<Token = i32>>(
    rt: &R,
    net: &Net<A>,
    mode: Mode,
    watch: &Watch,
) -> Result<usize, Fail> {
    let table = planned(rt.alloc(), net, 1, 1, true)?;
    made_by(rt, net, &table, mode, watch)
}

/// Feeds all blocks at once to a session of one worker, and reports as a row says.
fn fed<R: Threads + AllocGlobal + Sync, A: Actor<Token = i32>>(
    rt: &R,
    net: &Net<A>,
    mode: Mode,
) -> Result<String, Fail> {
    let watch = Watch::new(rt.alloc(), 1, 2, Hold::NONE)?;
    let made = made(rt, net, mode, &watch)?;
    let (source, sink) = (watch.passed(0, 0), watch.passed(0, 1));
    Ok(format!(in rt.alloc(); "{made} {source} {sink} {}", watch.odd())?)
}

/// Resumes a run of no periods on one thread, for all periods, and returns the number of samples made.
fn resumed_by<A: Actor<Token = i32>>(
    alloc: Global,
    net: &Net<A>,
    period: &Period,
) -> Result<usize, Fail>
    requires { IsPeriodOf (rates (graph_of A.steps net.now)) period.now }
{
    let inputs = ramp(alloc, 0, 70_000, 0)?;
    let (_, rest) = feed_one(alloc, net, period, 0, &inputs)?;
    let (ran, _) = resume_one(alloc, net, period, &rest, 70_000, &inputs)?;
    Ok(first_len(&ran.outputs))
}

/// Reports what `resumed_by` returns.
fn resumed<A: Actor<Token = i32>>(alloc: Global, net: &Net<A>) -> Result<String, Fail> {
    let table = planned(alloc, net, 1, 1, true)?;
    let made = resumed_by(alloc, net, &table.period)?;
    Ok(format!(in alloc; "{made}")?)
}

fn told<R: Threads + AllocGlobal + Sync, A: Actor<Token = i32>>(
    rt: &R,
    net: &Net<A>,
    mode: Option<Mode>,
) -> Result<String, Fail> {
    match mode {
        Some(mode) => fed(rt, net, mode),
        None => resumed(rt.alloc(), net),
    }
}

fn told_of<R: Threads + AllocGlobal + Sync>(
    rt: &R,
    worked: Worked,
    mode: Option<Mode>,
) -> Result<String, Fail> {
    told(rt, &worked.net(rt.alloc())?, mode)
}

fn are_told<R: Threads + AllocGlobal + Sync>(rt: &R, rows: &[Row]) -> Result<(), Fail> {
    for (name, worked, mode, wanted) in rows {
        row_says(name, told_of(rt, *worked, *mode), wanted)?;
    }
    Ok(())
}

#[test]
fn firings_one_by_one(rt: HostRuntime) -> Result<(), Fail> {
    are_told(&rt, ONE_BY_ONE)
}

#[test]
fn firings_in_runs_and_on_one_thread(rt: HostRuntime) -> Result<(), Fail> {
    are_told(&rt, OTHERS)
}
