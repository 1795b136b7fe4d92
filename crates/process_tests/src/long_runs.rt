//! Runs of long sounds that are made as they are read, and of which nothing is kept: what is written, and how many
//! threads are there at once.

ghost use Rattle.std.specs.Prelude.{None};

use crate::designs::{BY_BLOCKS, FAR_BACK, PLAIN};
use crate::long_lists::{FILTER, with_list};
use crate::running::{end_of, process_design};
use sdf_faults::Fault;
use sdf_file::{Design, read_design};
use sdf_options::{Options, Runner};
use sdf_plan::parallel::parallel_plan;
use sdf_process::process::process;
use sdf_run::NoGate;
use sdf_wav::{FromRead, Reader, ToWrite, Writer};
use std::io::{self, Read, sink};
use std::rt::Files;
use std::test::Fail;
use std::thread::Threads;
use test_devices::{Comparing, CountedThreads, LongSound, ThreadCount};
use test_texts::says;

/// How a design is run.
#[derive(Clone, Copy)]
enum Way {
    /// By this runner, with one worker.
    Runner(Runner),
    /// In parts of the sound, by this number of workers, from 1 to 16.
    Parts(usize),
}

/// Runs `design` by `way`, from `reader` to `writer`.
fn run_design<T: Threads + AllocGlobal + Sync, R: Reader, W: Writer>(
    rt: &T,
    design: &Design,
    way: Way,
    reader: &mut R,
    writer: &mut W,
) -> Result<(), Fault> {
    match way {
        Way::Runner(runner) => {
            let options = Options {
                runner,
                ..Options::DEFAULT
            };
            process_design(rt, design, &options, reader, writer, &NoGate)
        }
        Way::Parts(workers) => {
            let plan = parallel_plan(rt.alloc(), design, workers.clamp(1, 16))?.plan;
            process(rt, reader, writer, design, &plan)
        }
    }
}

/// Runs the design `graph` by `way`, from `reader` to `writer`.
fn run_graph<T: Threads + AllocGlobal + Sync, R: Reader, W: Writer>(
    rt: &T,
    graph: &str,
    way: Way,
    reader: &mut R,
    writer: &mut W,
) -> Result<(), Fault> {
    let design = read_design(rt.alloc(), graph.as_bytes(), &[])?;
    run_design(rt, &design, way, reader, writer)
}

/// A long run: a design that copies its input after `silent` frames of silence, how it is run, and on how many frames.
#[derive(Clone, Copy)]
struct Long {
    graph: &'static str,
    way: Way,
    frames: u32,
    silent: u32,
}

/// A sound of 12,001,280 bytes on one thread, which reads it whole.
const ON_ONE_THREAD: Long = Long {
    graph: BY_BLOCKS,
    way: Way::Runner(Runner::One),
    frames: 6_000_640,
    silent: 0,
};

/// By rows, in pieces of 4,096 frames. No other test runs as many frames by rows.
const BY_ROWS: Long = Long {
    way: Way::Runner(Runner::Rows),
    frames: 1_228_800,
    ..ON_ONE_THREAD
};

/// The same over rings.
const OVER_RINGS: Long = Long {
    way: Way::Runner(Runner::Rings),
    ..BY_ROWS
};

/// In parts by three workers, in pieces of 393,216 frames.
const IN_PARTS: Long = Long {
    way: Way::Parts(3),
    ..ON_ONE_THREAD
};

/// A period for each frame: a second whole piece, of 21 parts and 393,216 periods.
const BY_FRAMES: Long = Long {
    graph: PLAIN,
    frames: 1_200_000,
    ..IN_PARTS
};

/// A warm-up of 65,536 periods. Parts have eight times as many, and are run in stretches of 16,384.
const WARMED_UP: Long = Long {
    graph: FAR_BACK,
    silent: 65_536,
    ..IN_PARTS
};

/// Makes the run of `row`. Reports how it ends, and whether the wanted sound is written.
fn told<T: Threads + AllocGlobal + Sync>(rt: &T, row: &Long) -> Result<String, Fail> {
    let alloc = rt.alloc();
    let mut reader = FromRead::new(LongSound::new(alloc, row.frames, 0)?);
    let wanted = LongSound::new(alloc, row.frames, row.silent)?;
    let mut writer = ToWrite::new(Comparing::with(wanted));
    let run = run_graph(rt, row.graph, row.way, &mut reader, &mut writer);
    let same = writer.into_inner().is_same();
    let end = end_of(alloc, run)?;
    format!(in alloc; "{end} {same}").map_err(Fail::from)
}

/// What is reported of each run.
const TOLD: &str = "no fault true";

/// Tests a long run on one thread. Refuses memory that is refused for a long sound, and a reader that ends too soon.
#[test]
fn on_one_thread(rt: HostRuntime) -> Result<(), Fail> {
    says(told(&rt, &ON_ONE_THREAD), TOLD)
}

#[test]
fn by_rows(rt: HostRuntime) -> Result<(), Fail> {
    says(told(&rt, &BY_ROWS), TOLD)
}

#[test]
fn over_rings(rt: HostRuntime) -> Result<(), Fail> {
    says(told(&rt, &OVER_RINGS), TOLD)
}

/// Tests a long run in parts of many periods.
#[test]
fn in_parts(rt: HostRuntime) -> Result<(), Fail> {
    says(told(&rt, &IN_PARTS), TOLD)
}

/// Tests a whole second piece in parts. Refuses a piece of few parts or periods alone.
#[test]
fn in_many_parts(rt: HostRuntime) -> Result<(), Fail> {
    says(told(&rt, &BY_FRAMES), TOLD)
}

/// Tests parts that are longer than a stretch.
#[test]
fn in_stretches(rt: HostRuntime) -> Result<(), Fail> {
    says(told(&rt, &WARMED_UP), TOLD)
}

/// A reader that counts the threads of the program at each call.
#[derive(Drop)]
struct Counting<'a, T> {
    threads: CountedThreads<'a, T>,
    sound: LongSound,
}

impl<T: AllocGlobal + Files> Read for Counting<'_, T> {
    ghost remaining = { λ _. None };

    fn read(&mut self, buf: &mut [u8]) -> io::Result<usize> {
        self.threads.look();
        self.sound.read(buf)
    }
}

/// The calls of the reader that have to see all threads at once. A thread that ends before it takes a part is seen once
/// at most.
const FULL_CALLS: u64 = 8;

/// Runs a filter of 256 taps in parts by `workers` workers on 600,000 frames, with the threads counted in `count`.
fn run_counted<T: Threads + AllocGlobal + Files + Sync>(
    rt: &T,
    workers: usize,
    count: &ThreadCount,
) -> Result<(), Fault> {
    let graph = with_list(rt.alloc(), FILTER, 256)?;
    let mut reader = FromRead::new(Counting {
        threads: CountedThreads { rt, count },
        sound: LongSound::new(rt.alloc(), 600_000, 0)?,
    });
    let mut writer = ToWrite::new(sink());
    run_graph(
        rt,
        graph.as_str(),
        Way::Parts(workers),
        &mut reader,
        &mut writer,
    )
}

/// Runs in parts by `workers` workers until many calls have seen a thread for each and one more, at most 20 times.
/// Reports whether they did, and the greatest number of threads besides the first that was ever seen.
fn threads_told<T: Threads + AllocGlobal + Files + Sync>(
    rt: &T,
    workers: usize,
) -> Result<String, Fail> {
    let count = ThreadCount::of((workers as u64).saturating_add(1));
    for _ in 0..20 {
        run_counted(rt, workers, &count)?;
        if count.full() >= FULL_CALLS {
            break;
        }
    }
    let full = count.full() >= FULL_CALLS;
    let others = count.greatest().saturating_sub(1);
    format!(in rt.alloc(); "{full} {others}").map_err(Fail::from)
}

/// Tests that each worker has a thread of its own, which works beside the others, and that there are no more threads.
#[test]
fn workers_are_threads(rt: HostRuntime) -> Result<(), Fail> {
    for (workers, wanted) in [(2usize, "true 2"), (3, "true 3"), (5, "true 5")] {
        says(threads_told(&rt, workers), wanted)?;
    }
    Ok(())
}
