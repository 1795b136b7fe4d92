//! Tests of firings that overlap: a gate holds a firing until others have begun. They show how far a worker runs ahead
//! of its neighbour, and that it runs no further.

ghost use Rattle.sdf_graph.specs.Rates.{rates};
ghost use Rattle.sdf_actor.specs.Graphs.{graph_of};
ghost use Rattle.sdf_prec.specs.BlockTables.{IsBlockTableOf};

use crate::kits::{PLAIN, Worked};
use crate::nets::{Times, feed_twice, make_as_one, planned, ramp};
use sdf_actor::{Actor, Net};
use sdf_node::{ActorId, Gate};
use sdf_prec::BlockTable;
use sdf_run::Mode;
use std::test::Fail;
use std::thread;
use std::thread::Threads;
use test_actors::gates::{Hold, MANY_TURNS, Watch};
use test_texts::row_says;

/// A spin limit that is high enough for a worker to go on once its neighbour has moved.
const PATIENT: Mode = Mode::Rings {
    patience: 1_000_000,
};

const IMPATIENT: Mode = Mode::Rings { patience: 0 };

/// A hold of the dealing actor's second firing until the source has begun its fourth, which is in the next block. For
/// that, the source's worker needs what the dealer's first firing left: room on the source's channel, and samples for
/// the sink that this worker also runs.
const ACROSS: Hold<'static> = Hold {
    held: &[1],
    first: 1,
    many: 1,
    awaited: &[0],
    ahead: 2,
    turns: MANY_TURNS,
};

/// A hold of the sink's first firing, before it takes a sample, until the source has begun its first. With a larger
/// `ahead` it awaits a later firing of the source.
const THE_SINK: Hold<'static> = Hold {
    first: 0,
    ahead: 0,
    ..ACROSS
};

/// A hold of the first three firings of three branches: firings of the same number wait for each other.
const THREE: Hold<'static> = Hold {
    held: &[2, 3, 4],
    first: 0,
    many: 3,
    awaited: &[2, 3, 4],
    ahead: 0,
    turns: MANY_TURNS,
};

/// A hold of the first firings of two branches, until both have begun.
const TWO: Hold<'static> = Hold {
    held: &[2, 3],
    many: 1,
    awaited: &[2, 3],
    ..THREE
};

const FOUR: Hold<'static> = Hold {
    held: &[2, 3, 4, 5],
    awaited: &[2, 3, 4, 5],
    ..THREE
};

/// The branches of a net with sixteen.
const ALL: &[ActorId] = &[2, 3, 4, 5, 6, 7, 8, 9, 10, 11, 12, 13, 14, 15, 16, 17];

const SIXTEEN: Hold<'static> = Hold {
    held: ALL,
    many: 1,
    awaited: ALL,
    ..THREE
};

/// A hold of the second firings of two branches, until both have begun.
const SECOND: Hold<'static> = Hold {
    held: &[2, 3],
    first: 1,
    many: 1,
    awaited: &[2, 3],
    ..THREE
};

/// A hold of the source's second firing until the sink has begun its second. The source's first firing puts samples for
/// two firings of the sink.
const IN_A_ROW: Hold<'static> = Hold {
    held: &[0],
    first: 1,
    many: 1,
    awaited: &[1],
    ..THREE
};

/// A net and its run: `blocks` blocks of `blocking` periods, on the numbers of `samples.0..samples.1`. If `blocks` is
/// `None`, a session is fed these samples twice. `in_vain` says whether `hold` is given up, and `pause` for how many
/// turns the first firing of actor 1 is held, too. `told` gives the firings held in vain, and those out of turn.
#[derive(Clone, Copy)]
struct Row {
    name: &'static str,
    net: Worked,
    blocking: u32,
    workers: usize,
    mode: Mode,
    blocks: Option<u32>,
    samples: (i32, i32),
    hold: Hold<'static>,
    in_vain: bool,
    pause: u32,
    told: &'static str,
}

/// A run of two blocks.
const TWO_BLOCKS: Row = Row {
    name: "",
    net: Worked::Dealt,
    blocking: 1,
    workers: 2,
    mode: PATIENT,
    blocks: Some(2),
    samples: (0, 12),
    hold: ACROSS,
    in_vain: false,
    pause: 0,
    told: "0 in vain, 0 odd",
};

/// A session that is fed two blocks, twice.
const FED: Row = Row {
    blocks: None,
    ..TWO_BLOCKS
};

/// Branches whose firings are at work at once.
const BRANCHES: Row = Row {
    net: Worked::Branches(3),
    workers: 3,
    blocks: Some(3),
    samples: (1, 4),
    hold: THREE,
    ..TWO_BLOCKS
};

/// The maximum number of workers.
const CROWD: Row = Row {
    net: Worked::Branches(16),
    workers: 16,
    blocks: Some(1),
    samples: (1, 2),
    hold: SIXTEEN,
    ..TWO_BLOCKS
};

/// Eight blocks, each of one firing of the source and one of the sink. The ring has room for one sample.
const ONE_BY_ONE: Row = Row {
    net: PLAIN,
    mode: IMPATIENT,
    blocks: Some(8),
    samples: (0, 8),
    hold: THE_SINK,
    ..TWO_BLOCKS
};

/// A session that is fed eight blocks, twice.
const FED_ONE_BY_ONE: Row = Row {
    blocks: None,
    ..ONE_BY_ONE
};

const OVER_RINGS: Row = Row {
    name: "over rings a worker is in the next block while another is in this one",
    ..TWO_BLOCKS
};

const ROWS: &[Row] = &[
    OVER_RINGS,
    OVER_RINGS,
    OVER_RINGS,
    Row {
        name: "by rows none is",
        mode: Mode::Rows,
        in_vain: true,
        told: "1 in vain, 0 odd",
        ..TWO_BLOCKS
    },
    Row {
        name: "in feeds blocks overlap over rings",
        ..FED
    },
    Row {
        name: "in feeds by rows none does",
        mode: Mode::Rows,
        in_vain: true,
        told: "2 in vain, 0 odd",
        ..FED
    },
    Row {
        name: "three meet by rows",
        mode: Mode::Rows,
        ..BRANCHES
    },
    Row {
        name: "three meet over rings",
        ..BRANCHES
    },
    Row {
        name: "the first firings of two meet over rings without patience",
        net: Worked::Branches(2),
        workers: 2,
        mode: IMPATIENT,
        hold: TWO,
        ..BRANCHES
    },
    Row {
        name: "four meet by rows",
        net: Worked::Branches(4),
        workers: 4,
        mode: Mode::Rows,
        hold: FOUR,
        ..BRANCHES
    },
    Row {
        name: "four meet over rings",
        net: Worked::Branches(4),
        workers: 4,
        hold: FOUR,
        ..BRANCHES
    },
    Row {
        name: "sixteen meet by rows: for fewer threads than there are workers",
        mode: Mode::Rows,
        ..CROWD
    },
    Row {
        name: "sixteen meet over rings: for fewer threads than there are workers",
        ..CROWD
    },
    Row {
        name: "in a later round two meet: for workers that work in turn once the first round is over. The fork's first \
               firing is held for so long that the rounds of the branches, which have no patience, have ended",
        net: Worked::Branches(2),
        workers: 6,
        mode: IMPATIENT,
        samples: (1, 3),
        hold: SECOND,
        pause: 50_000,
        ..TWO_BLOCKS
    },
    Row {
        name: "firings in a row go at once, both before the first puts its block: for firings one by one, as by \
               an `in_one_run` that is 0",
        net: Worked::Pair(2, 1, &[]),
        blocking: 2,
        blocks: Some(1),
        samples: (1, 5),
        hold: IN_A_ROW,
        in_vain: true,
        told: "1 in vain, 0 odd",
        ..TWO_BLOCKS
    },
    Row {
        name: "a run takes one block",
        ..ONE_BY_ONE
    },
    Row {
        name: "a run takes no more than one block: for rings of twice the capacity",
        hold: Hold {
            ahead: 1,
            ..THE_SINK
        },
        in_vain: true,
        told: "1 in vain, 0 odd",
        ..ONE_BY_ONE
    },
    Row {
        name: "a feed takes one block",
        ..FED_ONE_BY_ONE
    },
    Row {
        name: "a feed takes no more than one block",
        hold: Hold {
            ahead: 1,
            ..THE_SINK
        },
        in_vain: true,
        told: "2 in vain, 0 odd",
        ..FED_ONE_BY_ONE
    },
];

/// A `Watch` that also holds the first firing of actor 1 for `pause` turns.
#[derive(Drop)]
struct Slow<'a> {
    watch: Watch<'a>,
    pause: u32,
}

impl<'a> Gate for Slow<'a> {
    fn before(&self, processor: usize, actor: ActorId, firing: u64) {
        if actor == 1 && firing == 0 {
            for _ in 0..self.pause {
                thread::yield_now();
            }
        }
        self.watch.before(processor, actor, firing);
    }
}

/// Runs `table` with `gate` and compares the output with one thread's, or feeds it twice, as `row` says.
fn run_by_table<R: Threads + AllocGlobal + Sync, A: Actor<Token = i32>>(
    rt: &R,
    net: &Net<A>,
    table: &BlockTable,
    row: &Row,
    gate: &Slow,
) -> Result<(), Fail>
    requires fits { IsBlockTableOf (rates (graph_of A.steps net.now)) table.now }
{
    let inputs = ramp(rt.alloc(), row.samples.0, row.samples.1, 0)?;
    let mode = row.mode;
    match row.blocks {
        Some(blocks) => make_as_one(rt, net, table, Times { blocks, mode }, &inputs, gate),
        None => Ok(feed_twice(rt, net, table, mode, &inputs, &gate.watch)?),
    }
}

/// Makes the table of `row`, and runs it with `gate`.
fn run<R: Threads + AllocGlobal + Sync, A: Actor<Token = i32>>(
    rt: &R,
    net: &Net<A>,
    row: &Row,
    gate: &Slow,
) -> Result<(), Fail> {
    let table = planned(rt.alloc(), net, row.blocking, row.workers, true)?;
    run_by_table(rt, net, &table, row, gate)
}

/// Runs `row` with its hold. Reports how many firings were held in vain, and how many were out of turn.
fn told<R: Threads + AllocGlobal + Sync, A: Actor<Token = i32>>(
    rt: &R,
    net: &Net<A>,
    row: &Row,
) -> Result<String, Fail> {
    let hold = if row.in_vain {
        row.hold.in_vain()
    } else {
        row.hold
    };
    let gate = Slow {
        watch: Watch::new(rt.alloc(), row.workers, net.len(), hold)?,
        pause: row.pause,
    };
    run(rt, net, row, &gate)?;
    let watch = &gate.watch;
    Ok(format!(in rt.alloc(); "{} in vain, {} odd", watch.missed(), watch.odd())?)
}

fn told_of<R: Threads + AllocGlobal + Sync>(rt: &R, row: &Row) -> Result<String, Fail> {
    told(rt, &row.net.net(rt.alloc())?, row)
}

/// Tests which firings overlap. Refuses fewer threads than seats or than a row has firings, and a round that ends with
/// its block. Refuses also a worker that never looks at its neighbour within a round, rows in place of rings, and rings
/// of another size.
#[test]
fn who_meets_whom(rt: HostRuntime) -> Result<(), Fail> {
    for row in ROWS {
        row_says(row.name, told_of(&rt, row), row.told)?;
    }
    Ok(())
}
