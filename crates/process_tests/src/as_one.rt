//! Tests of designs run by workers, in blocks or by another policy: the output equals one thread's.

use crate::designs::{BLOCKS, CHAIN, INITIAL, LOOP, SECOND_DOUBLED, SWAP};
use crate::running::Samples::{Counted, These};
use crate::running::{Samples, make_file, row_makes, sound};
use sdf_options::Runner::{Rings, Rows};
use sdf_options::{Options, Placement, Policy, Runner};
use std::test::Fail;
use std::thread::Threads;

/// A runner, its workers, the periods in a block, and the spin limit.
type By = (Runner, usize, u32, u32);

/// A design, the channels and samples that it reads, how many bytes one thread writes, the other options, and its runs.
struct Row {
    name: &'static str,
    graph: &'static str,
    channels: u16,
    samples: Samples,
    len: usize,
    options: Options,
    by: &'static [By],
}

/// Homes that are computed from the actors' loads, in long blocks.
const SPREAD: Options = Options {
    policy: Policy::Runs,
    placement: Placement::Spread,
    ..Options::DEFAULT
};

const LEAN: Options = Options {
    policy: Policy::Lean,
    ..Options::DEFAULT
};

const RUNS: Options = Options {
    policy: Policy::Runs,
    ..Options::DEFAULT
};

const HU: Options = Options {
    placement: Placement::Hu,
    ..Options::DEFAULT
};

/// One thread.
const ONE: &[By] = &[(Runner::One, 1, 1, 1000)];

/// Runs over rings by several numbers of workers, with a high spin limit.
const CREWS: &[By] = &[
    (Rings, 1, 1, 100_000),
    (Rings, 2, 1, 100_000),
    (Rings, 3, 1, 100_000),
    (Rings, 4, 1, 100_000),
    (Rings, 16, 1, 100_000),
];

const TO_NINE: Samples = These(&[1, 2, 3, 4, 5, 6, 7, 8, 9]);

/// Designs that are run by rows and over rings.
const CREWED: &[Row] = &[
    Row {
        name: "as many workers and periods in a block as make no difference, and any patience",
        graph: CHAIN,
        channels: 1,
        samples: Counted(148),
        len: 684,
        options: Options::DEFAULT,
        by: &[
            (Rows, 1, 1, 1000),
            (Rows, 2, 1, 1000),
            (Rows, 3, 1, 1000),
            (Rows, 4, 1, 1000),
            (Rows, 5, 1, 1000),
            (Rows, 2, 2, 1000),
            (Rows, 1, 64, 1000),
            (Rings, 1, 1, 0),
            (Rings, 3, 1, 1000),
            (Rings, 16, 1, 0),
            (Rings, 2, 2, 10),
            (Rings, 1, 64, 0),
        ],
    },
    Row {
        name: "a loop",
        graph: LOOP,
        channels: 1,
        samples: These(&[1, 2, 3]),
        len: 50,
        options: Options::DEFAULT,
        by: &[
            (Rows, 1, 1, 1000),
            (Rows, 2, 1, 1000),
            (Rows, 3, 1, 1000),
            (Rows, 4, 1, 1000),
            (Rows, 5, 1, 1000),
            (Rings, 1, 1, 0),
            (Rings, 2, 1, 0),
            (Rings, 3, 1, 0),
            (Rings, 4, 1, 0),
            (Rings, 5, 1, 0),
        ],
    },
    Row {
        name: "blocks of two and three, each actor with a worker",
        graph: BLOCKS,
        channels: 1,
        samples: These(&[1, 2, 3, 4, 5, 6, 7]),
        len: 68,
        options: Options::DEFAULT,
        by: &[(Rows, 2, 2, 1000), (Rings, 2, 1, 0)],
    },
    Row {
        name: "blocks of two and three, each firing with any worker",
        graph: BLOCKS,
        channels: 1,
        samples: These(&[1, 2, 3, 4, 5, 6, 7]),
        len: 68,
        options: HU,
        by: &[(Rows, 2, 2, 1000)],
    },
    Row {
        name: "dealt and gathered one by one",
        graph: SECOND_DOUBLED,
        channels: 1,
        samples: These(&[1, 2, 3, 4, 5]),
        len: 56,
        options: Options::DEFAULT,
        by: &[
            (Rows, 1, 1, 1000),
            (Rows, 2, 1, 1000),
            (Rows, 2, 2, 1000),
            (Rings, 1, 1, 0),
            (Rings, 2, 1, 0),
            (Rings, 3, 2, 1000),
        ],
    },
];

/// Designs that are run by homes computed from loads.
const SPREAD_OUT: &[Row] = &[
    Row {
        name: "a last block of 6 periods that is cut, behind a whole one: 1,024 samples are moved by three of them",
        graph: CHAIN,
        channels: 1,
        samples: Counted(148),
        len: 684,
        options: SPREAD,
        by: CREWS,
    },
    Row {
        name: "a loop, which stays with one worker",
        graph: LOOP,
        channels: 1,
        samples: These(&[1, 2, 3]),
        len: 50,
        options: SPREAD,
        by: CREWS,
    },
    Row {
        name: "two inputs and two outputs",
        graph: SWAP,
        channels: 2,
        samples: These(&[1, 2, 3, 4, 5, 6]),
        len: 56,
        options: SPREAD,
        by: CREWS,
    },
];

/// Designs that are run in pieces, and by other policies.
const OTHERS: &[Row] = &[
    Row {
        name: "4,096 frames and then 904: whole blocks of each, and a last one",
        graph: CHAIN,
        channels: 1,
        samples: Counted(5000),
        len: 11_244,
        options: Options::DEFAULT,
        by: &[
            (Rows, 1, 1, 1000),
            (Rows, 1, 2, 1000),
            (Rings, 1, 1, 1000),
            (Rings, 1, 2, 1000),
        ],
    },
    Row {
        name: "one thread in blocks of two periods and of 64",
        graph: CHAIN,
        channels: 1,
        samples: Counted(148),
        len: 684,
        options: Options::DEFAULT,
        by: &[(Runner::One, 1, 2, 1000), (Runner::One, 1, 64, 1000)],
    },
    Row {
        name: "blocks by a lean order",
        graph: BLOCKS,
        channels: 1,
        samples: TO_NINE,
        len: 68,
        options: LEAN,
        by: ONE,
    },
    Row {
        name: "blocks in runs",
        graph: BLOCKS,
        channels: 1,
        samples: TO_NINE,
        len: 68,
        options: RUNS,
        by: ONE,
    },
    Row {
        name: "the chain by a lean order",
        graph: CHAIN,
        channels: 1,
        samples: TO_NINE,
        len: 364,
        options: LEAN,
        by: ONE,
    },
    Row {
        name: "the chain in runs",
        graph: CHAIN,
        channels: 1,
        samples: TO_NINE,
        len: 364,
        options: RUNS,
        by: ONE,
    },
    Row {
        name: "initial samples by a lean order",
        graph: INITIAL,
        channels: 1,
        samples: TO_NINE,
        len: 62,
        options: LEAN,
        by: ONE,
    },
    Row {
        name: "initial samples in runs",
        graph: INITIAL,
        channels: 1,
        samples: TO_NINE,
        len: 62,
        options: RUNS,
        by: ONE,
    },
];

/// Checks that a run of `row` makes of `input` the file `one`.
fn run_makes<T: Threads + AllocGlobal + Sync>(
    rt: &T,
    row: &Row,
    (runner, workers, blocking, patience): By,
    input: &[u8],
    one: &[u8],
) -> Result<(), Fail> {
    let options = Options {
        runner,
        workers,
        blocking,
        patience,
        ..row.options
    };
    let made = make_file(rt, row.graph, &options, input);
    row_makes(row.name, &options, made, one)
}

/// Checks that each run of `row` makes of `input` what one thread makes of it.
fn make_as_one<T: Threads + AllocGlobal + Sync>(
    rt: &T,
    row: &Row,
    input: &[u8],
) -> Result<(), Fail> {
    let one = make_file(rt, row.graph, &Options::DEFAULT, input)?;
    if one.len() != row.len {
        return Err(Fail::new(format_args!("{}: {} bytes", row.name, one.len())));
    }
    for by in row.by {
        run_makes(rt, row, *by, input, &one)?;
    }
    Ok(())
}

fn each_makes_as_one<T: Threads + AllocGlobal + Sync>(rt: &T, rows: &[Row]) -> Result<(), Fail> {
    for row in rows {
        make_as_one(rt, row, &sound(rt.alloc(), row.channels, row.samples)?)?;
    }
    Ok(())
}

#[test]
fn by_rows_and_over_rings(rt: HostRuntime) -> Result<(), Fail> {
    each_makes_as_one(&rt, CREWED)
}

#[test]
fn by_homes_that_are_worked_out(rt: HostRuntime) -> Result<(), Fail> {
    each_makes_as_one(&rt, SPREAD_OUT)
}

#[test]
fn in_pieces_and_by_policies(rt: HostRuntime) -> Result<(), Fail> {
    each_makes_as_one(&rt, OTHERS)
}
