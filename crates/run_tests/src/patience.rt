//! Tests of what runs make and in how many rounds: how often a worker tests again, the tries of a round, and refusals.

ghost use Rattle.sdf_graph.specs.Rates.{rates};
ghost use Rattle.sdf_actor.specs.Graphs.{graph_of};
ghost use Rattle.sdf_prec.specs.BlockTables.{IsBlockTableOf};

use crate::kits::{BLOCKS, PLAIN, Worked};
use crate::nets::{Times, lengths, planned, ramp, run_by};
use sdf_actor::{Actor, Net};
use sdf_node::{ActorId, Gate};
use sdf_prec::BlockTable;
use sdf_run::{Mode, Ran, RunFault};
use std::alloc::Global;
use std::sync::atomic::{AtomicBool, Ordering};
use std::test::Fail;
use std::thread;
use std::thread::Threads;
use test_texts::row_says;

/// The turns after which a firing that waits for another goes on.
const TURNS: u32 = 2_000_000;

/// The turns of one worker in which another one completes a firing that has begun, and tests for the next.
pub(crate) const PAUSE: u32 = 50_000;

/// A pause in which a worker tests at least once, but far fewer times than a patient one may.
pub(crate) const SHORT: u32 = 5_000;

/// A hold of the first `firings` firings of `actor`, each for `turns` turns. If an actor is `awaited`, each is first
/// held until that actor has begun its first firing.
#[derive(Clone, Copy)]
pub(crate) struct Hold {
    pub(crate) actor: ActorId,
    pub(crate) firings: u64,
    pub(crate) awaited: Option<ActorId>,
    pub(crate) turns: u32,
}

/// A hold of the source's first firing until the sink's first has begun, and then for a while. Meanwhile there is
/// nothing more for the sink.
pub(crate) const LATE: Hold = Hold {
    actor: 0,
    firings: 1,
    awaited: Some(1),
    turns: PAUSE,
};

const NOTHING: Hold = Hold {
    actor: 0,
    firings: 0,
    awaited: None,
    turns: 0,
};

#[derive(Drop)]
pub(crate) struct Held {
    hold: Hold,
    pub(crate) begun: AtomicBool,
    pub(crate) missed: AtomicBool,
}

impl Held {
    pub(crate) fn new(hold: Hold) -> Held {
        Held {
            hold,
            begun: AtomicBool::new(false),
            missed: AtomicBool::new(false),
        }
    }

    fn meet(&self) {
        for _ in 0..TURNS {
            if self.begun.load(Ordering::SeqCst) {
                return;
            }
            thread::yield_now();
        }
        self.missed.store(true, Ordering::SeqCst);
    }
}

impl Gate for Held {
    fn before(&self, _processor: usize, actor: ActorId, firing: u64) {
        let hold = self.hold;
        if hold.awaited == Some(actor) {
            self.begun.store(true, Ordering::SeqCst);
        } else if actor == hold.actor && firing < hold.firings {
            if hold.awaited.is_some() {
                self.meet();
            }
            for _ in 0..hold.turns {
                thread::yield_now();
            }
        }
    }
}

/// A net and its run: `blocks` blocks of `blocking` periods, on the numbers of `samples.0..samples.1` and `zeros`
/// zeros. If `homed`, each actor has all its firings on one worker. The report gives the length of each output list and
/// the start of the first, or the fault. It gives the rounds, too, if they are below `rounds.0` or above `rounds.1`.
#[derive(Clone, Copy)]
struct Row {
    name: &'static str,
    net: Worked,
    blocking: u32,
    workers: usize,
    homed: bool,
    mode: Mode,
    blocks: u32,
    samples: (i32, i32),
    zeros: usize,
    hold: Hold,
    rounds: (u64, u64),
    told: &'static str,
}

const IMPATIENT: Mode = Mode::Rings { patience: 0 };

const PATIENT: Mode = Mode::Rings {
    patience: 1_000_000,
};

const LITTLE_PATIENT: Mode = Mode::Rings { patience: 10_000 };

const MORE_PATIENT: Mode = Mode::Rings { patience: 20_000 };

/// A spin limit above the maximum.
const TOO_PATIENT: Mode = Mode::Rings {
    patience: 1_000_001,
};

/// The sample of the sink's first firing is there at the start. The later ones come after it has tested for them.
const TWO_SAMPLES: Row = Row {
    name: "",
    net: Worked::Pair(1, 1, &[7]),
    blocking: 1,
    workers: 2,
    homed: true,
    mode: PATIENT,
    blocks: 2,
    samples: (1, 3),
    zeros: 0,
    hold: LATE,
    rounds: (1, 1),
    told: "[2] [7, 1]",
};

/// A run in which 400 samples are handed on one by one.
const ONE_BY_ONE: Row = Row {
    net: PLAIN,
    blocks: 400,
    samples: (0, 400),
    told: "[400] [0, 1, 2, 3, 4, 5, 6, 7, 8, 9, 10, 11]",
    ..TWO_SAMPLES
};

/// A run of twelve samples by rows, in which any worker does a firing.
const BY_ROWS: Row = Row {
    net: BLOCKS,
    homed: false,
    mode: Mode::Rows,
    samples: (1, 13),
    hold: NOTHING,
    rounds: (8, 8),
    told: "[12] [1, 2, 3, 4, 5, 6, 7, 8, 9, 10, 11, 12]",
    ..TWO_SAMPLES
};

/// A run by one worker, which needs one round: in the table's order each firing finds its samples and its room.
const ALONE: Row = Row {
    net: BLOCKS,
    workers: 1,
    mode: IMPATIENT,
    samples: (0, 0),
    zeros: 294,
    hold: NOTHING,
    told: "[12] [0, 0, 0, 0, 0, 0, 0, 0, 0, 0, 0, 0]",
    ..TWO_SAMPLES
};

/// A run of no block by one worker, which needs no round.
const IDLE: Row = Row {
    blocks: 0,
    zeros: 0,
    rounds: (0, 0),
    told: "[0] []",
    ..ALONE
};

/// A run of two periods of six samples each, with six samples in all.
const SHORT_INPUT: Row = Row {
    net: BLOCKS,
    samples: (1, 7),
    hold: NOTHING,
    told: "29 InputLength",
    ..TWO_SAMPLES
};

const ROWS: &[Row] = &[
    Row {
        name: "without patience a failing test ends a round: the sink's worker, whose second fails, ends it",
        mode: IMPATIENT,
        rounds: (2, 2),
        ..TWO_SAMPLES
    },
    Row {
        name: "with patience a worker tests again until its neighbour has moved, and goes on",
        ..TWO_SAMPLES
    },
    Row {
        name: "and does so once more: for tries that are gone with the first test that fails",
        blocks: 3,
        samples: (1, 4),
        hold: Hold {
            firings: 2,
            turns: SHORT,
            ..LATE
        },
        told: "[3] [7, 1, 2]",
        ..TWO_SAMPLES
    },
    Row {
        name: "each round has its tries: for workers that are patient in the first alone, and want one for each sample",
        mode: MORE_PATIENT,
        hold: Hold {
            actor: 1,
            firings: 1,
            turns: 1_000_000,
            ..NOTHING
        },
        rounds: (1, 50),
        ..ONE_BY_ONE
    },
    Row {
        name: "firings share the tries of a round: for tries that each has anew, and tests that take none",
        mode: LITTLE_PATIENT,
        hold: Hold {
            firings: 400,
            turns: 2_000,
            ..NOTHING
        },
        rounds: (2, 400),
        ..ONE_BY_ONE
    },
    Row {
        name: "blocks of one period",
        ..BY_ROWS
    },
    Row {
        name: "a block of two periods",
        blocking: 2,
        blocks: 1,
        rounds: (7, 7),
        ..BY_ROWS
    },
    Row {
        name: "one round of blocks",
        ..ALONE
    },
    Row {
        name: "one round of a loop",
        net: Worked::Looped,
        told: "[2] [0, 0]",
        ..ALONE
    },
    Row {
        name: "one round of what is dealt",
        net: Worked::Dealt,
        told: "[6, 6] [0, 0, 0, 0, 0, 0]",
        ..ALONE
    },
    Row {
        name: "one round of branches",
        net: Worked::Branches(3),
        told: "[2] [0, 0]",
        ..ALONE
    },
    Row {
        name: "one round of the converter",
        net: Worked::Converter,
        told: "[320] [0, 0, 0, 0, 0, 0, 0, 0, 0, 0, 0, 0]",
        ..ALONE
    },
    Row {
        name: "no round of blocks",
        ..IDLE
    },
    Row {
        name: "no round of a loop",
        net: Worked::Looped,
        ..IDLE
    },
    Row {
        name: "no round of what is dealt",
        net: Worked::Dealt,
        told: "[0, 0] []",
        ..IDLE
    },
    Row {
        name: "no round of branches",
        net: Worked::Branches(3),
        ..IDLE
    },
    Row {
        name: "no round of the converter",
        net: Worked::Converter,
        ..IDLE
    },
    Row {
        name: "how long a block of two periods of the converter is",
        net: Worked::Converter,
        blocking: 2,
        workers: 3,
        mode: IMPATIENT,
        blocks: 1,
        samples: (0, 148),
        zeros: 146,
        hold: NOTHING,
        rounds: (1, 10_000),
        told: "[320] [0, 0, 0, 2, 3, 4, 5, 5, 6, 7, 9, 9]",
        ..TWO_SAMPLES
    },
    Row {
        name: "no homes before too much patience",
        homed: false,
        mode: TOO_PATIENT,
        told: "30 NotHomed",
        ..SHORT_INPUT
    },
    Row {
        name: "too much patience before a short input",
        mode: TOO_PATIENT,
        told: "31 Patience",
        ..SHORT_INPUT
    },
    Row {
        name: "a short input",
        ..SHORT_INPUT
    },
];

/// Returns the lengths of the lists `outputs` and the start of the first, as text.
fn lengths_and_start(alloc: Global, outputs: &[Vec<i32>]) -> Result<String, Fail> {
    let lengths = lengths(alloc, outputs)?;
    let begins = match outputs.first() {
        Some(made) => &made[..made.len().min(12)],
        None => &[],
    };
    Ok(format!(in alloc; "{lengths:?} {begins:?}")?)
}

/// Returns the report on a run: the lengths of its output lists and the start of the first. Adds the rounds if they are
/// outside `row.rounds` or a hold was in vain.
fn made(alloc: Global, row: &Row, ran: &Ran<i32>, held: &Held) -> Result<String, Fail> {
    let told = lengths_and_start(alloc, &ran.outputs)?;
    let rounds = ran.rounds;
    if rounds < row.rounds.0 || rounds > row.rounds.1 || held.missed.load(Ordering::SeqCst) {
        return Ok(format!(in alloc; "{told} in {rounds} rounds, or missed")?);
    }
    Ok(told)
}

/// Returns the report on `answer`, or its fault as text.
fn report(
    alloc: Global,
    row: &Row,
    answer: &Result<Ran<i32>, RunFault>,
    held: &Held,
) -> Result<String, Fail> {
    match answer {
        Ok(ran) => made(alloc, row, ran, held),
        Err(fault) => Ok(fault.to_string(alloc)?),
    }
}

/// Runs `row` by `table`, and returns the report or the fault.
fn told_by<R: Threads + AllocGlobal + Sync, A: Actor<Token = i32>>(
    rt: &R,
    net: &Net<A>,
    table: &BlockTable,
    row: &Row,
) -> Result<String, Fail>
    requires fits { IsBlockTableOf (rates (graph_of A.steps net.now)) table.now }
{
    let inputs = ramp(rt.alloc(), row.samples.0, row.samples.1, row.zeros)?;
    let times = Times {
        blocks: row.blocks,
        mode: row.mode,
    };
    let held = Held::new(row.hold);
    let answer = run_by(rt, net, table, times, &inputs, &held);
    report(rt.alloc(), row, &answer, &held)
}

/// Runs `row` on `net`, and returns the report or the fault.
fn told<R: Threads + AllocGlobal + Sync, A: Actor<Token = i32>>(
    rt: &R,
    net: &Net<A>,
    row: &Row,
) -> Result<String, Fail> {
    let table = planned(rt.alloc(), net, row.blocking, row.workers, row.homed)?;
    told_by(rt, net, &table, row)
}

fn told_of<R: Threads + AllocGlobal + Sync>(rt: &R, row: &Row) -> Result<String, Fail> {
    told(rt, &row.net.net(rt.alloc())?, row)
}

/// Tests outputs, rounds and refusals. Refuses a worker that tests once or at most 10,000 times whatever its spin
/// limit, and one that never looks at its neighbour. Refuses also patience in the first round alone, and a reported
/// number of rounds that is one too low.
#[test]
fn what_runs_make_and_in_how_many_rounds(rt: HostRuntime) -> Result<(), Fail> {
    for row in ROWS {
        row_says(row.name, told_of(&rt, row), row.told)?;
    }
    Ok(())
}
