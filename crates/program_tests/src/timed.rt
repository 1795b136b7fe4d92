//! Tests of a profile by a clock of their own: which actor's firings the time is counted for, and in what figures.

use crate::commands::{expect_text, told};
use crate::costs::MEASURED;
use std::alloc::{AllocError, Global};
use std::sync::atomic::{AtomicBool, AtomicU64, Ordering};
use std::test::Fail;
use std::thread::Threads;
use std::time::{Clock, Duration};
use std::{io, thread};
use test_texts::says;

/// The number of clock readings: before each of the 64 firings of two actors in a block, and at the end.
const READINGS: u64 = 129;

/// The turns that a reading lasts, in which another thread may begin one.
const TURNS: u32 = 200;

/// The readings of a clock.
#[derive(Drop)]
struct Readings {
    read: AtomicU64,
    reading: AtomicBool,
    /// Whether two threads have read the clock at the same time.
    met: AtomicBool,
}

/// Threads with a clock by which a microsecond passes before each reading, and 373 before the last.
#[derive_where(Clone, Copy)]
struct Timed<'a, R> {
    rt: &'a R,
    readings: &'a Readings,
}

impl<R: Threads> Threads for Timed<'_, R> {}

impl<R: AllocGlobal> Alloc for Timed<'_, R> {
    type A = Global;

    fn alloc(&self) -> Global {
        self.rt.alloc()
    }
}

impl<R> Clock for Timed<'_, R> {
    fn monotonic(&self) -> io::Result<Duration> {
        let Readings { read, reading, met } = self.readings;
        if reading.swap(true, Ordering::SeqCst) {
            met.store(true, Ordering::SeqCst);
        }
        let number = read.fetch_add(1, Ordering::SeqCst).wrapping_add(1);
        for _ in 0..TURNS {
            thread::yield_now();
        }
        reading.store(false, Ordering::SeqCst);
        let more = if number < READINGS { 0 } else { 372 };
        Ok(Duration::from_micros(number.wrapping_add(more)))
    }

    fn since_1970(&self) -> io::Result<Duration> {
        Ok(Duration::ZERO)
    }
}

/// Serves `line` by this clock. Returns the report, and whether two threads have read the clock at the same time.
fn told_by_clock<R: Threads + AllocGlobal + Sync>(rt: &R, line: &str) -> Result<String, Fail> {
    let readings = Readings {
        read: AtomicU64::new(0),
        reading: AtomicBool::new(false),
        met: AtomicBool::new(false),
    };
    let timed = Timed {
        rt,
        readings: &readings,
    };
    let told = told(&timed, line)?;
    let met = readings.met.load(Ordering::SeqCst);
    format!(in rt.alloc(); "{told}{met}").map_err(Fail::from)
}

/// Returns the report with the text of `commented.toml` and its costs by this clock.
fn text_by_clock(alloc: Global) -> Result<String, AllocError> {
    let text = MEASURED.replace(alloc, "cost = 20", "cost = 7")?;
    let text = text.as_str().replace(alloc, "cost = 1000000", "cost = 1")?;
    format!(in alloc; "0\n{text}--\n--\n…")
}

/// Tests profiles by a clock. Refuses time that is counted for the actor that begins, a last firing that takes none,
/// and figures in another order. Refuses two workers, whose firings can't be timed like this, and costs of all firings
/// of an actor in place of one. Refuses also the costs 1, 3 and 1, which the graph file has already, in place of
/// measured ones: the last firing of the second actor is the long one.
#[test]
fn profiles_by_a_clock(rt: HostRuntime) -> Result<(), Fail> {
    says(
        told_by_clock(&rt, "profile plain.toml in.wav"),
        "0\nshare in 12.80 %, 64 firings of 1000.0 ns\nshare out 87.20 %, 64 firings of 6812.5 ns\n\
         cost in 1\ncost out 7\n--\n--\nfalse",
    )?;
    says(
        told_by_clock(&rt, "profile blocks.toml in.wav"),
        "0\nshare in 81.50 %, 192 firings of 2937.5 ns\nshare out 18.49 %, 128 firings of 1000.0 ns\n\
         cost in 3\ncost out 1\n--\n--\nfalse",
    )?;
    let wanted = text_by_clock(rt.alloc())?;
    expect_text(
        "costs that are written",
        told_by_clock(&rt, "profile commented.toml in.wav --write -"),
        &wanted,
    )
}
