//! Tests of sounds that are read, run and written piece by piece: what device calls ask for, how many blocks are fed at
//! a time, and what is written of a sound that is cut off.

use crate::designs::{CHAIN, HALF, SUM};
use crate::devices::seen_moving;
use crate::running::Samples::Counted;
use crate::running::{
    file_of, half_of, make_file, make_file_with_gate, run_to_outcome, samples_of, sound,
};
use sdf_faults::Fault;
use sdf_options::{Options, Placement, Policy, Runner};
use sdf_run::{ActorId, Gate};
use std::alloc::{AllocError, Global};
use std::sync::atomic::{AtomicU64, Ordering};
use std::test::Fail;
use std::thread::Threads;
use test_texts::row_says;

/// The name of a row, the runner of `HALF`, the samples that it reads, and the bytes that the calls of the reader and
/// of the writer ask for. Some rows have more samples than 16 bits count.
const ASKED: &[(&str, Runner, usize, &str)] = &[
    (
        "one thread reads the content whole",
        Runner::One,
        5000,
        "[12, 8, 16, 8, 10000] [44, 10000] true",
    ),
    (
        "rows read 4,096 frames at a time",
        Runner::Rows,
        5000,
        "[12, 8, 16, 8, 8192, 1808] [44, 8192, 1808] true",
    ),
    (
        "workers over rings read 4,096 frames at a time",
        Runner::Rings,
        5000,
        "[12, 8, 16, 8, 8192, 1808] [44, 8192, 1808] true",
    ),
    (
        "one thread and a long sound",
        Runner::One,
        70_000,
        "[12, 8, 16, 8, 16384, 16384, 16384, 16384, 16384, 16384, 16384, 16384, 8928] [44, 16384, 16384, 16384, \
         16384, 16384, 16384, 16384, 16384, 8928] true",
    ),
    (
        "rows and a long sound",
        Runner::Rows,
        70_000,
        "[12, 8, 16, 8, 8192, 8192, 8192, 8192, 8192, 8192, 8192, 8192, 8192, 8192, 8192, 8192, 8192, 8192, \
         8192, 8192, 8192, 736] [44, 8192, 8192, 8192, 8192, 8192, 8192, 8192, 8192, 8192, 8192, 8192, 8192, \
         8192, 8192, 8192, 8192, 8192, 736] true",
    ),
    (
        "workers over rings and a long sound",
        Runner::Rings,
        70_000,
        "[12, 8, 16, 8, 8192, 8192, 8192, 8192, 8192, 8192, 8192, 8192, 8192, 8192, 8192, 8192, 8192, 8192, \
         8192, 8192, 8192, 736] [44, 8192, 8192, 8192, 8192, 8192, 8192, 8192, 8192, 8192, 8192, 8192, 8192, \
         8192, 8192, 8192, 8192, 8192, 736] true",
    ),
];

/// Reports how many bytes the calls ask for while `file` is halved, and whether the output is `half`.
fn half_told<T: Threads + AllocGlobal + Sync>(
    rt: &T,
    runner: Runner,
    file: &[u8],
    half: &[u8],
) -> Result<String, Fail> {
    let seen = seen_moving(rt, HALF, runner, file, usize::MAX)?;
    let same = seen.output.as_slice() == half;
    let (read, written) = (seen.read.as_slice(), seen.written.as_slice());
    format!(in rt.alloc(); "{read:?} {written:?} {same}").map_err(Fail::from)
}

/// Reports how many bytes the calls ask for, and whether the samples are halved.
fn asked_told<T: Threads + AllocGlobal + Sync>(
    rt: &T,
    runner: Runner,
    many: usize,
) -> Result<String, Fail> {
    let samples = samples_of(rt.alloc(), Counted(many))?;
    let file = file_of(rt.alloc(), 44_100, 1, &samples)?;
    let half = half_of(rt.alloc(), &samples)?;
    half_told(rt, runner, &file, &half)
}

/// Tests what device calls ask for: workers write 4,096 frames at a time. Refuses workers that read all frames at a
/// time, or twice 4,096, and one thread in their place.
#[test]
fn what_calls_ask_for(rt: HostRuntime) -> Result<(), Fail> {
    for (name, runner, many, wanted) in ASKED {
        row_says(name, asked_told(&rt, *runner, *many), wanted)?;
    }
    Ok(())
}

/// Firings of the source of `CHAIN`, which fires 147 times in a block. Each is the first of a block.
const NUMBERS: &[u64] = &[0, 147, 882, 1029, 3822, 3969];

/// A gate that counts how often the source begins each of `NUMBERS`. Each feed numbers its firings from 0.
#[derive(Drop)]
struct Starts {
    begun: Vec<AtomicU64>,
}

impl Gate for Starts {
    fn before(&self, _processor: usize, actor: ActorId, firing: u64) {
        if actor == 0 {
            for (count, number) in self.begun.iter().zip(NUMBERS) {
                if firing == *number {
                    count.fetch_add(1, Ordering::SeqCst);
                }
            }
        }
    }
}

/// Returns a gate that has counted nothing.
fn no_starts(alloc: Global) -> Result<Starts, AllocError> {
    let mut begun = Vec::new(alloc);
    for _ in NUMBERS {
        begun.push(AtomicU64::new(0))?;
    }
    Ok(Starts { begun })
}

/// Returns what the gate `starts` has counted.
fn counts_told(alloc: Global, starts: &Starts) -> Result<String, Fail> {
    let mut told = Vec::new(alloc);
    for count in &starts.begun {
        told.push(count.load(Ordering::SeqCst))?;
    }
    format!(in alloc; "{told:?}").map_err(Fail::from)
}

/// Runs `CHAIN` on 5,000 frames, with the gate `starts`.
fn run_chain<T: Threads + AllocGlobal + Sync>(
    rt: &T,
    runner: Runner,
    starts: &Starts,
) -> Result<Vec<u8>, Fault> {
    let input = sound(rt.alloc(), 1, Counted(5000))?;
    let options = Options {
        runner,
        ..Options::DEFAULT
    };
    make_file_with_gate(rt, CHAIN, &options, &input, starts)
}

/// Returns how often each of `NUMBERS` is begun while 5,000 frames are run.
fn begun_told<T: Threads + AllocGlobal + Sync>(rt: &T, runner: Runner) -> Result<String, Fail> {
    let starts = no_starts(rt.alloc())?;
    run_chain(rt, runner, &starts)?;
    counts_told(rt.alloc(), &starts)
}

/// How often each of `NUMBERS` is begun.
const BEGUN: &str = "[3, 2, 2, 1, 1, 0]";

/// Tests how many blocks are fed: 4,096 frames hold 27 blocks. The 127 frames left and 904 more hold 7, and the last 2
/// are filled up to one.
#[test]
fn how_many_blocks_are_fed(rt: HostRuntime) -> Result<(), Fail> {
    row_says("rows", begun_told(&rt, Runner::Rows), BEGUN)?;
    row_says("rings", begun_told(&rt, Runner::Rings), BEGUN)
}

/// A design, and how it is run on a sound that is cut after `kept` bytes. `told` gives how many bytes are written,
/// whether they are a prefix of one thread's output for the whole sound, and how the run ends.
#[derive(Clone, Copy)]
struct Cut {
    name: &'static str,
    graph: &'static str,
    options: Options,
    channels: u16,
    samples: usize,
    kept: usize,
    told: &'static str,
}

/// A sound of 5,000 frames, cut after 4,500. The whole blocks of the 4,096 frames that were read before the fault are
/// written: 27 of one period, or 13 of two.
const CHAINED: Cut = Cut {
    name: "",
    graph: CHAIN,
    options: Options::DEFAULT,
    channels: 1,
    samples: 5000,
    kept: 9044,
    told: "8684 true 4 sdfw: 43 Truncated\n",
};

const SPREAD_OUT: Options = Options {
    workers: 2,
    blocking: 64,
    policy: Policy::Runs,
    placement: Placement::Spread,
    runner: Runner::Rings,
    ..Options::DEFAULT
};

/// A sound of 5,000 frames, for a plan whose actors are spread. A run reads 4,096 frames at a time, four long blocks.
const SPREAD: Cut = Cut {
    graph: SUM,
    options: SPREAD_OUT,
    channels: 2,
    samples: 10_000,
    ..CHAINED
};

/// A sound of 5,000 frames, for a plan by Hu's rule, in blocks of 64 periods.
const BY_HU: Cut = Cut {
    options: Options {
        placement: Placement::Hu,
        runner: Runner::Rows,
        ..SPREAD_OUT
    },
    ..SPREAD
};

const CUTS: &[Cut] = &[
    Cut {
        name: "one thread",
        told: "44 true 4 sdfw: 43 Truncated\n",
        ..CHAINED
    },
    Cut {
        name: "rows",
        options: Options {
            runner: Runner::Rows,
            ..Options::DEFAULT
        },
        ..CHAINED
    },
    Cut {
        name: "rings",
        options: Options {
            runner: Runner::Rings,
            ..Options::DEFAULT
        },
        ..CHAINED
    },
    Cut {
        name: "rows of blocks of two",
        options: Options {
            runner: Runner::Rows,
            blocking: 2,
            ..Options::DEFAULT
        },
        told: "8364 true 4 sdfw: 43 Truncated\n",
        ..CHAINED
    },
    Cut {
        name: "rings and blocks of two",
        options: Options {
            runner: Runner::Rings,
            blocking: 2,
            ..Options::DEFAULT
        },
        told: "8364 true 4 sdfw: 43 Truncated\n",
        ..CHAINED
    },
    Cut {
        name: "spread, a frame short of 4,096",
        kept: 16_424,
        told: "44 true 4 sdfw: 43 Truncated\n",
        ..SPREAD
    },
    Cut {
        name: "spread, 4,096 frames",
        kept: 16_428,
        told: "8236 true 4 sdfw: 43 Truncated\n",
        ..SPREAD
    },
    Cut {
        name: "by Hu's rule, a frame short of 4,096",
        kept: 16_424,
        told: "44 true 4 sdfw: 43 Truncated\n",
        ..BY_HU
    },
    Cut {
        name: "by Hu's rule, 4,096 frames",
        kept: 16_428,
        told: "8236 true 4 sdfw: 43 Truncated\n",
        ..BY_HU
    },
];

fn cut_told<T: Threads + AllocGlobal + Sync>(
    rt: &T,
    row: &Cut,
    cut: &[u8],
    whole: &[u8],
) -> Result<String, Fail> {
    let run = run_to_outcome(rt, row.graph, &row.options, cut)?;
    let front = whole.starts_with(&run.output);
    format!(in rt.alloc(); "{} {front} {}", run.output.len(), run.end).map_err(Fail::from)
}

/// Runs a row on its sound, and reports on it.
fn row_told<T: Threads + AllocGlobal + Sync>(rt: &T, row: &Cut) -> Result<String, Fail> {
    let mut sound = sound(rt.alloc(), row.channels, Counted(row.samples))?;
    let whole = make_file(rt, row.graph, &Options::DEFAULT, &sound)?;
    sound.truncate(row.kept);
    cut_told(rt, row, &sound, &whole)
}

/// Tests that each piece is run and written before more is read. Refuses another value of `FRAMES`, and one thread in
/// place of workers.
#[test]
fn what_was_read_is_written(rt: HostRuntime) -> Result<(), Fail> {
    for row in CUTS {
        row_says(row.name, row_told(&rt, row), row.told)?;
    }
    Ok(())
}
