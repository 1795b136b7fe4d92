//! Tests of workers between an input and an output file, seen by gates. The runner is the one of the options. A worker
//! runs ahead of the others as far as its plan allows, and no further.

use crate::designs::{DEALT, LONG, PAIR, PLAIN, SUM};
use crate::running::Samples::{Counted, These};
use crate::running::{Samples, leave_open, make_file_with_gate, row_makes, sound};
use sdf_options::{Options, Placement, Policy, Runner};
use std::alloc::Global;
use std::test::Fail;
use std::thread::Threads;
use test_actors::gates::{Hold, MANY_TURNS, Watch};
use test_texts::row_says;

/// A hold of no firing.
const NOTHING: Hold<'static> = Hold {
    held: &[],
    first: 0,
    many: 1,
    awaited: &[],
    ahead: 0,
    turns: MANY_TURNS,
};

/// Two workers with a spin limit of 0.
const TWO_WORKERS: Options = Options {
    workers: 2,
    patience: 0,
    ..Options::DEFAULT
};

const PATIENT: Options = Options {
    workers: 2,
    patience: 1_000_000,
    ..Options::DEFAULT
};

const PATIENT_ROWS: Options = Options {
    runner: Runner::Rows,
    ..PATIENT
};

const PATIENT_RINGS: Options = Options {
    runner: Runner::Rings,
    ..PATIENT
};

const BLOCKS_OF_FOUR: Options = Options {
    workers: 2,
    blocking: 4,
    ..Options::DEFAULT
};

/// Two workers over rings, whose actors are spread.
const SPREAD_OUT: Options = Options {
    workers: 2,
    policy: Policy::Runs,
    placement: Placement::Spread,
    runner: Runner::Rings,
    ..Options::DEFAULT
};

/// One worker by rows, with homes by the file and the policy `runs`.
const BY_ROWS_IN_RUNS: Options = Options {
    policy: Policy::Runs,
    placement: Placement::File,
    runner: Runner::Rows,
    ..Options::DEFAULT
};

/// A hold of the sum's first firing, before it takes a sample, until the source has begun its first. With a larger
/// `ahead` it awaits a later firing of the source.
const THE_SUM: Hold<'static> = Hold {
    held: &[2],
    awaited: &[0],
    ..NOTHING
};

/// A design of `actors` actors, how it is run on a sound, what a gate holds, and whether the hold is given up. `told`
/// gives how many firings were held in vain, and how many were out of turn. Then it gives how many firings of each
/// actor passed on the first worker and on the second.
#[derive(Clone, Copy)]
struct Row {
    name: &'static str,
    graph: &'static str,
    actors: usize,
    options: Options,
    channels: u16,
    samples: Samples,
    /// For each run, whether the size of the data is filled in.
    filled: &'static [bool],
    hold: Hold<'static>,
    in_vain: bool,
    told: &'static str,
}

/// Three runs in which the first firings of two gains wait for each other.
const TWO_GAINS: Row = Row {
    name: "",
    graph: PAIR,
    actors: 6,
    options: TWO_WORKERS,
    channels: 1,
    samples: These(&[1, 2, 3]),
    filled: &[true, true, true],
    hold: Hold {
        held: &[2, 3],
        awaited: &[2, 3],
        ..NOTHING
    },
    in_vain: false,
    told: "",
};

/// Two blocks. The second firing of `deal` is held until `in` has begun its fourth. This is in the next block, and
/// needs the first firing of `deal`.
const TWO_BLOCKS: Row = Row {
    graph: DEALT,
    actors: 4,
    options: PATIENT,
    samples: These(&[1, 2, 3, 4, 5, 6, 7, 8, 9, 10, 11, 12]),
    filled: &[true, false],
    hold: Hold {
        held: &[1],
        first: 1,
        awaited: &[0],
        ahead: 2,
        ..NOTHING
    },
    ..TWO_GAINS
};

/// Two blocks and a part of a third, which is filled up.
const THREE_BLOCKS: Row = Row {
    samples: These(&[1, 2, 3, 4, 5, 6, 7, 8, 9, 10, 11, 12, 13]),
    hold: NOTHING,
    ..TWO_BLOCKS
};

/// A sound shorter than a block, which is filled up and run at the end.
const A_LAST_BLOCK: Row = Row {
    samples: These(&[1, 2, 3]),
    ..TWO_BLOCKS
};

/// One sample of a sound whose size was never filled in, in blocks of four periods.
const ONE_SAMPLE: Row = Row {
    graph: PLAIN,
    actors: 2,
    options: BLOCKS_OF_FOUR,
    samples: These(&[7]),
    filled: &[false],
    hold: NOTHING,
    ..TWO_GAINS
};

/// `SUM` with spread actors. The sum's first firing is held, before it takes a sample, until the source has begun the
/// last firing for which there is room. A block has 1,024 periods, and the ring has room for one block.
const SPREAD: Row = Row {
    graph: SUM,
    actors: 4,
    options: SPREAD_OUT,
    channels: 2,
    samples: Counted(8192),
    filled: &[true],
    hold: Hold {
        ahead: 1023,
        ..THE_SUM
    },
    ..TWO_GAINS
};

/// `SUM` with homes by the file, in blocks of 64 periods. The source's last firing with room is its 64th.
const BY_THE_FILE: Row = Row {
    options: Options {
        blocking: 64,
        placement: Placement::File,
        ..SPREAD_OUT
    },
    hold: Hold {
        ahead: 63,
        ..THE_SUM
    },
    ..SPREAD
};

/// Over 1,000,000 frames, which are one block and are all on one link.
const LONG_BLOCK: Row = Row {
    name: "over 1,000,000 samples by rows, for memory that is said to be wanted",
    graph: LONG,
    actors: 2,
    options: BY_ROWS_IN_RUNS,
    samples: Counted(1_047_552),
    filled: &[true],
    hold: NOTHING,
    told: "0 in vain, 0 odd, [[1023, 0], [1024, 0]]",
    ..TWO_GAINS
};

const ROWS: &[Row] = &[
    LONG_BLOCK,
    Row {
        name: "over 1,000,000 samples over rings, for memory that is said to be wanted",
        options: Options {
            runner: Runner::Rings,
            ..BY_ROWS_IN_RUNS
        },
        filled: &[false],
        ..LONG_BLOCK
    },
    Row {
        name: "firings of a row meet",
        options: Options {
            runner: Runner::Rows,
            ..TWO_WORKERS
        },
        told: "0 in vain, 0 odd, [[3, 0], [3, 0], [3, 0], [0, 3], [0, 3], [0, 3]]",
        ..TWO_GAINS
    },
    Row {
        name: "workers over rings meet",
        options: Options {
            runner: Runner::Rings,
            ..TWO_WORKERS
        },
        told: "0 in vain, 0 odd, [[3, 0], [3, 0], [3, 0], [0, 3], [0, 3], [0, 3]]",
        ..TWO_GAINS
    },
    Row {
        name: "over rings a worker is in the next block while another is in this one",
        options: PATIENT_RINGS,
        told: "0 in vain, 0 odd, [[6, 0], [0, 4], [2, 0], [0, 2]]",
        ..TWO_BLOCKS
    },
    Row {
        name: "by rows no worker is in the next block while another is in this one",
        options: PATIENT_ROWS,
        in_vain: true,
        told: "1 in vain, 0 odd, [[6, 0], [0, 4], [2, 0], [0, 2]]",
        ..TWO_BLOCKS
    },
    Row {
        name: "on one thread no firing passes",
        told: "0 in vain, 0 odd, [[0, 0], [0, 0], [0, 0], [0, 0]]",
        ..THREE_BLOCKS
    },
    Row {
        name: "by rows each firing passes on its worker, in feeds, of which the last numbers anew",
        options: PATIENT_ROWS,
        told: "0 in vain, 7 odd, [[9, 0], [0, 6], [3, 0], [0, 3]]",
        ..THREE_BLOCKS
    },
    Row {
        name: "over rings each firing passes on its worker, in feeds, of which the last numbers anew",
        options: PATIENT_RINGS,
        told: "0 in vain, 7 odd, [[9, 0], [0, 6], [3, 0], [0, 3]]",
        ..THREE_BLOCKS
    },
    Row {
        name: "`left` meets the second firing of `deal` in a row",
        options: PATIENT_ROWS,
        hold: Hold {
            held: &[2],
            awaited: &[1],
            ahead: 1,
            ..NOTHING
        },
        told: "0 in vain, 0 odd, [[3, 0], [0, 2], [1, 0], [0, 1]]",
        ..A_LAST_BLOCK
    },
    Row {
        name: "over rings `right` begins after `left`, whose worker looks at its neighbour",
        options: PATIENT_RINGS,
        hold: Hold {
            held: &[3],
            awaited: &[2],
            ..NOTHING
        },
        told: "0 in vain, 0 odd, [[3, 0], [0, 2], [1, 0], [0, 1]]",
        ..A_LAST_BLOCK
    },
    Row {
        name: "one sample on one thread",
        told: "0 in vain, 0 odd, [[0, 0], [0, 0]]",
        ..ONE_SAMPLE
    },
    Row {
        name: "one sample on one thread, by one worker",
        options: Options {
            workers: 1,
            ..BLOCKS_OF_FOUR
        },
        told: "0 in vain, 0 odd, [[0, 0], [0, 0]]",
        ..ONE_SAMPLE
    },
    Row {
        name: "one sample by rows",
        options: Options {
            runner: Runner::Rows,
            ..BLOCKS_OF_FOUR
        },
        told: "0 in vain, 0 odd, [[4, 0], [0, 4]]",
        ..ONE_SAMPLE
    },
    Row {
        name: "one sample by rows, by one worker",
        options: Options {
            runner: Runner::Rows,
            workers: 1,
            ..BLOCKS_OF_FOUR
        },
        told: "0 in vain, 0 odd, [[4, 0], [4, 0]]",
        ..ONE_SAMPLE
    },
    Row {
        name: "one sample over rings",
        options: Options {
            runner: Runner::Rings,
            ..BLOCKS_OF_FOUR
        },
        told: "0 in vain, 0 odd, [[4, 0], [0, 4]]",
        ..ONE_SAMPLE
    },
    Row {
        name: "one sample over rings, by one worker",
        options: Options {
            runner: Runner::Rings,
            workers: 1,
            ..BLOCKS_OF_FOUR
        },
        told: "0 in vain, 0 odd, [[4, 0], [4, 0]]",
        ..ONE_SAMPLE
    },
    Row {
        name: "a worker that is spread runs a long block ahead",
        told: "0 in vain, 0 odd, [[4096, 0], [4096, 0], [0, 4096], [0, 4096]]",
        ..SPREAD
    },
    Row {
        name: "a worker that is spread runs no further ahead",
        hold: Hold {
            ahead: 1024,
            ..THE_SUM
        },
        in_vain: true,
        told: "1 in vain, 0 odd, [[4096, 0], [4096, 0], [0, 4096], [0, 4096]]",
        ..SPREAD
    },
    Row {
        name: "a worker of the file runs a block ahead",
        told: "0 in vain, 0 odd, [[4096, 0], [4096, 0], [0, 4096], [0, 4096]]",
        ..BY_THE_FILE
    },
    Row {
        name: "a worker of the file runs no further ahead",
        hold: Hold {
            ahead: 64,
            ..THE_SUM
        },
        in_vain: true,
        told: "1 in vain, 0 odd, [[4096, 0], [4096, 0], [0, 4096], [0, 4096]]",
        ..BY_THE_FILE
    },
];

/// Checks that a row's run makes of a file what one thread makes. On one thread no firing passes the gate.
fn makes_as_one<T: Threads + AllocGlobal + Sync>(
    rt: &T,
    row: &Row,
    input: &[u8],
    watch: &Watch,
) -> Result<(), Fail> {
    let made = make_file_with_gate(rt, row.graph, &row.options, input, watch)?;
    let one = make_file_with_gate(rt, row.graph, &Options::DEFAULT, input, watch);
    row_makes(row.name, &row.options, one, &made)
}

fn told(alloc: Global, row: &Row, watch: &Watch) -> Result<String, Fail> {
    let mut passed = Vec::new(alloc);
    for actor in 0..row.actors {
        passed.push([watch.passed(0, actor), watch.passed(1, actor)])?;
    }
    let (missed, odd) = (watch.missed(), watch.odd());
    format!(in alloc; "{missed} in vain, {odd} odd, {passed:?}").map_err(Fail::from)
}

/// Runs a row on its sound, with the size filled in or not, and returns the report.
fn told_of<T: Threads + AllocGlobal + Sync>(
    rt: &T,
    row: &Row,
    filled: bool,
) -> Result<String, Fail> {
    let mut input = sound(rt.alloc(), row.channels, row.samples)?;
    if !filled {
        leave_open(&mut input);
    }
    let hold = if row.in_vain {
        row.hold.in_vain()
    } else {
        row.hold
    };
    let watch = Watch::new(rt.alloc(), 2, row.actors, hold)?;
    makes_as_one(rt, row, &input, &watch)?;
    told(rt.alloc(), row, &watch)
}

fn is_told<T: Threads + AllocGlobal + Sync>(rt: &T, row: &Row) -> Result<(), Fail> {
    for filled in row.filled {
        row_says(row.name, told_of(rt, row, *filled), row.told)?;
    }
    Ok(())
}

/// Checks the report on each row.
fn are_told<T: Threads + AllocGlobal + Sync>(rt: &T, rows: &[Row]) -> Result<(), Fail> {
    for row in rows {
        is_told(rt, row)?;
    }
    Ok(())
}

/// Tests what gates see of runs. Refuses one thread in place of workers or of one worker, a block too many, and rings
/// that take more than a block. Refuses an out-of-memory fault when memory is plentiful: for over 1,000,000 frames on
/// one thread or by workers, or for a channel with room for them.
#[test]
fn what_gates_see(rt: HostRuntime) -> Result<(), Fail> {
    are_told(&rt, ROWS)
}
