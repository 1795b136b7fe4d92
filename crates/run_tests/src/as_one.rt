//! Tests of runs in which workers are held up: outputs equal one thread's, and rounds are within their bounds.

ghost use Rattle.sdf_graph.specs.Rates.{rates};
ghost use Rattle.sdf_actor.specs.Graphs.{graph_of};
ghost use Rattle.sdf_prec.specs.BlockTables.{IsBlockTableOf};

use crate::kits::{BLOCKS, Worked};
use crate::nets::{Times, make_as_one, planned, ramp};
use sdf_actor::{Actor, Net};
use sdf_node::{ActorId, Gate};
use sdf_prec::BlockTable;
use sdf_run::Mode;
use std::sync::atomic::{AtomicU64, Ordering};
use std::test::Fail;
use std::thread::Threads;
use test_actors::gates::Delay;

/// A net and its runs: `blocks` blocks of `blocking` periods, with each of `workers` and of `modes`. The input is the
/// numbers of `samples.0..samples.1`, then zeros. Firings whose number is a multiple of `every` are held up for at most
/// `turns` turns. This is longer than a firing takes.
#[derive(Clone, Copy)]
struct Row {
    net: Worked,
    blocking: u32,
    blocks: u32,
    samples: (i32, i32),
    workers: &'static [usize],
    modes: &'static [Mode],
    every: u64,
    turns: u32,
}

const IMPATIENT: Mode = Mode::Rings { patience: 0 };

const PATIENT: Mode = Mode::Rings {
    patience: 1_000_000,
};

const SOON_PATIENT: Mode = Mode::Rings { patience: 1 };

/// Numbers of workers: one, two, three, and more than a small net has actors.
const CREWS: &[usize] = &[1, 2, 3, 16];

/// Two periods of a small net, with short holds.
const SMALL: Row = Row {
    net: BLOCKS,
    blocking: 1,
    blocks: 2,
    samples: (1, 13),
    workers: CREWS,
    modes: &[Mode::Rows, IMPATIENT, SOON_PATIENT, PATIENT],
    every: 1,
    turns: 10_000,
};

const NETS: &[Row] = &[
    SMALL,
    Row {
        net: Worked::Looped,
        ..SMALL
    },
    Row {
        net: Worked::Forked,
        ..SMALL
    },
    Row {
        net: Worked::Branches(2),
        ..SMALL
    },
    Row {
        net: Worked::Turned,
        blocking: 3,
        blocks: 3,
        samples: (1, 19),
        workers: &[2],
        turns: 1000,
        ..SMALL
    },
    // The maximum number of actors, links and workers, with an input sample for each of two blocks.
    Row {
        net: Worked::Large,
        samples: (-1, 1),
        workers: &[16],
        turns: 0,
        ..SMALL
    },
];

/// One period of a small net, with long holds of all firings.
const HELD: Row = Row {
    blocks: 1,
    turns: 1_000_000,
    ..SMALL
};

const BLOCKS_HELD: &[Row] = &[HELD];

const LOOP_HELD: &[Row] = &[Row {
    net: Worked::Looped,
    ..HELD
}];

const FORK_HELD: &[Row] = &[Row {
    net: Worked::Forked,
    ..HELD
}];

/// Two periods of the converter, without holds.
const CONVERTER: Row = Row {
    net: Worked::Converter,
    samples: (0, 294),
    workers: &[1, 3, 16],
    modes: &[IMPATIENT, PATIENT],
    turns: 0,
    ..SMALL
};

/// One period of the converter, with long holds of 9 of its 612 firings, and longer runs without holds.
const CONVERTERS: &[Row] = &[
    Row {
        net: Worked::Converter,
        every: 128,
        ..HELD
    },
    CONVERTER,
    Row {
        blocking: 2,
        blocks: 1,
        samples: (0, 148),
        workers: &[3],
        modes: &[IMPATIENT],
        ..CONVERTER
    },
];

/// A gate that holds each `every`-th firing of an actor until another firing comes, or for `turns` turns.
#[derive(Drop)]
struct UntilAnother {
    every: u64,
    turns: u32,
    /// The number of firings that have come.
    come: AtomicU64,
}

impl Gate for UntilAnother {
    fn before(&self, _processor: usize, _actor: ActorId, firing: u64) {
        let before = self.come.fetch_add(1, Ordering::SeqCst);
        if firing.checked_rem(self.every) != Some(0) {
            return;
        }
        for _ in 0..self.turns {
            if self.come.load(Ordering::SeqCst).saturating_sub(before) > 1 {
                return;
            }
        }
    }
}

/// Checks that a run in `mode` makes what one thread makes. Processor `held` is held up before its firings; if it is
/// `None`, each processor is held until another firing comes.
fn makes<R: Threads + AllocGlobal + Sync, A: Actor<Token = i32>>(
    rt: &R,
    net: &Net<A>,
    table: &BlockTable,
    row: &Row,
    mode: Mode,
    held: Option<usize>,
) -> Result<(), Fail>
    requires fits { IsBlockTableOf (rates (graph_of A.steps net.now)) table.now }
{
    let inputs = ramp(rt.alloc(), row.samples.0, row.samples.1, net.samples_in())?;
    let (blocks, every, turns) = (row.blocks, row.every, row.turns);
    let times = Times { blocks, mode };
    match held {
        Some(processor) => {
            let gate = Delay::new(processor, every, turns);
            make_as_one(rt, net, table, times, &inputs, &gate)
        }
        None => {
            let come = AtomicU64::new(0);
            let gate = UntilAnother { every, turns, come };
            make_as_one(rt, net, table, times, &inputs, &gate)
        }
    }
}

/// Calls `makes` for each mode of `row`.
fn in_each_mode<R: Threads + AllocGlobal + Sync, A: Actor<Token = i32>>(
    rt: &R,
    net: &Net<A>,
    table: &BlockTable,
    row: &Row,
    held: Option<usize>,
) -> Result<(), Fail>
    requires fits { IsBlockTableOf (rates (graph_of A.steps net.now)) table.now }
{
    for mode in row.modes {
        makes(rt, net, table, row, *mode, held)?;
    }
    Ok(())
}

/// Checks runs of `table` with each of the first `held` processors held up in turn, and then with all of them.
/// Processors beyond the number of actors have no firings.
fn by_one_crew<R: Threads + AllocGlobal + Sync, A: Actor<Token = i32>>(
    rt: &R,
    net: &Net<A>,
    table: &BlockTable,
    row: &Row,
    held: usize,
) -> Result<(), Fail>
    requires fits { IsBlockTableOf (rates (graph_of A.steps net.now)) table.now }
{
    for processor in 0..net.len().min(held) {
        in_each_mode(rt, net, table, row, Some(processor))?;
    }
    in_each_mode(rt, net, table, row, None)
}

/// Checks runs with each number of workers of `row`. Each processor is held up in turn, unless `row.turns` is 0.
fn by_each_crew<R: Threads + AllocGlobal + Sync, A: Actor<Token = i32>>(
    rt: &R,
    net: &Net<A>,
    row: &Row,
) -> Result<(), Fail> {
    for workers in row.workers {
        let table = planned(rt.alloc(), net, row.blocking, *workers, true)?;
        let held = if row.turns == 0 { 0 } else { *workers };
        by_one_crew(rt, net, &table, row, held)?;
    }
    Ok(())
}

fn are_as_one<R: Threads + AllocGlobal + Sync>(rt: &R, row: &Row) -> Result<(), Fail> {
    by_each_crew(rt, &row.net.net(rt.alloc())?, row)
}

fn all_are_as_one<R: Threads + AllocGlobal + Sync>(rt: &R, rows: &[Row]) -> Result<(), Fail> {
    for row in rows {
        are_as_one(rt, row)?;
    }
    Ok(())
}

#[test]
fn blocks(rt: HostRuntime) -> Result<(), Fail> {
    all_are_as_one(&rt, BLOCKS_HELD)
}

#[test]
fn a_loop(rt: HostRuntime) -> Result<(), Fail> {
    all_are_as_one(&rt, LOOP_HELD)
}

#[test]
fn a_fork(rt: HostRuntime) -> Result<(), Fail> {
    all_are_as_one(&rt, FORK_HELD)
}

/// Tests small nets and the largest one. Refuses also out-of-memory faults when memory is plentiful, for over 60 actors
/// or for 16 workers: from `Sizes::new`, `places`, `seats`, `make_jobs` or `make_works`.
#[test]
fn nets(rt: HostRuntime) -> Result<(), Fail> {
    all_are_as_one(&rt, NETS)
}

#[test]
fn the_converter(rt: HostRuntime) -> Result<(), Fail> {
    all_are_as_one(&rt, CONVERTERS)
}
