//! Tests of how far a run has come, at a terminal, by a clock of their own.

use crate::commands::{Around, OPEN_AROUND, expect_text, told_around};
use sdf_io::output::{Output, ProgressLine};
use sdf_io::progress::Progress;
use std::alloc::Global;
use std::io::{self, Write};
use std::sync::atomic::{AtomicU64, Ordering};
use std::test::Fail;
use std::thread::Threads;
use std::time::{Clock, Duration};

/// A sound of six samples at 2 Hz.
const SLOW: &[u8] =
    b"RIFF\x30\0\0\0WAVEfmt \x10\0\0\0\x01\0\x01\0\x02\0\0\0\x04\0\0\0\x02\0\x10\0data\x0C\0\0\0\
    \x01\0\x02\0\x03\0\x04\0\x05\0\x06\0";

/// Standard error is a terminal, and `SLOW` is on standard input.
const SLOW_AT_TERMINAL: &Around<'static> = &Around {
    stdin: SLOW,
    terminal: true,
    ..OPEN_AROUND
};

/// Standard error is a terminal without escape sequences, and `SLOW` is on standard input.
const SLOW_AT_DUMB_TERMINAL: &Around<'static> = &Around {
    stdin: SLOW,
    terminal: true,
    dumb: true,
    ..OPEN_AROUND
};

/// Standard error is a pipe, and `SLOW` is on standard input.
const SLOW_PIPED: &Around<'static> = &Around {
    stdin: SLOW,
    terminal: false,
    ..OPEN_AROUND
};

/// Threads with a clock that goes on by a fixed number of milliseconds before each reading.
#[derive_where(Clone, Copy)]
struct Paced<'a, R> {
    rt: &'a R,
    read: &'a AtomicU64,
    step: u64,
}

impl<R: Threads> Threads for Paced<'_, R> {}

impl<R: AllocGlobal> Alloc for Paced<'_, R> {
    type A = Global;

    fn alloc(&self) -> Global {
        self.rt.alloc()
    }
}

impl<R> Clock for Paced<'_, R> {
    fn monotonic(&self) -> io::Result<Duration> {
        let number = self.read.fetch_add(1, Ordering::SeqCst).wrapping_add(1);
        Ok(Duration::from_millis(number.wrapping_mul(self.step)))
    }

    fn since_1970(&self) -> io::Result<Duration> {
        Ok(Duration::ZERO)
    }
}

/// Returns what a run prints if its clock goes on by `step` milliseconds before each reading.
fn told_at<R: Threads + AllocGlobal + Sync>(
    rt: &R,
    step: u64,
    around: &Around<'_>,
    line: &str,
) -> Result<String, Fail> {
    let read = AtomicU64::new(0);
    let paced = Paced {
        rt,
        read: &read,
        step,
    };
    told_around(&paced, around, line)
}

/// A row: its name, the milliseconds between readings, the words, and the printed text. `…` stands for any text.
type Row = (&'static str, u64, &'static str, &'static str);

/// Runs at a terminal. Refuses a program that shows a short run, or one with `--no-why`, or leaves the line there.
const SHOWN: &[Row] = &[
    (
        "a run of less than two seconds",
        900,
        "run plain.toml - out.wav",
        "0\n--\noutput 0: 6 frames, …",
    ),
    (
        "a run of two seconds",
        1_000,
        "run plain.toml - out.wav",
        "0\n--\n\r3.0 of 3.0 s, 1.5x real time\x1b[K\r\x1b[Koutput 0: 6 frames, …",
    ),
    (
        "a run that is written twice",
        4_000,
        "run plain.toml - out.wav",
        "0\n--\n\r0.0 of 3.0 s, 0.0x real time\x1b[K\r3.0 of 3.0 s, 0.3x real time\x1b[K\r\x1b[K\
         output 0: 6 frames, …",
    ),
    (
        "a run without more",
        4_000,
        "run plain.toml - out.wav --no-why",
        "0\n--\n--\n…",
    ),
];

/// The header of a sound of 2,147,483,647 samples at 1 Hz.
const LONG: &[u8] =
    b"RIFF\x22\0\0\0WAVEfmt \x10\0\0\0\x01\0\x01\0\x01\0\0\0\x02\0\0\0\x02\0\x10\0data\xFE\xFF\xFF\xFF";

/// Returns what stands on a terminal while the header `LONG` and 1,000 samples are written, by a clock that goes on by
/// four seconds before each reading.
fn shown_of_long<R: Threads + AllocGlobal + Sync>(rt: &R) -> Result<String, Fail> {
    let read = AtomicU64::new(0);
    let paced = Paced {
        rt,
        read: &read,
        step: 4_000,
    };
    let mut err = Vec::new(rt.alloc());
    let mut to = Vec::new(rt.alloc());
    let progress_line = ProgressLine {
        alloc: rt.alloc(),
        err: &mut err,
        clock: &paced,
        progress: Some(Progress::new(&paced)),
    };
    let mut output = Output::new(&mut to, progress_line, true)?;
    output.write_all(LONG)?;
    output.write_all(&[0; 2_000])?;
    drop(output);
    String::from_utf8(err).map_err(|_| Fail::new(format_args!("no UTF-8")))
}

/// Tests the width of the line. Refuses a program that needs over 39 columns.
#[test]
fn long_lines_are_cut(rt: HostRuntime) -> Result<(), Fail> {
    expect_text(
        "a long line",
        shown_of_long(&rt),
        "\r0.0 of 2147483647.0 s, 0.0x real time\x1b[K\r106.0 of 2147483647.0 s, 13.2x real tim\x1b[K\
         \r1000.0 of 2147483647.0 s, 83.3x real ti\x1b[K",
    )
}

#[test]
fn long_runs_are_shown(rt: HostRuntime) -> Result<(), Fail> {
    for (name, step, line, wanted) in SHOWN {
        expect_text(name, told_at(&rt, *step, SLOW_AT_TERMINAL, line), wanted)?;
    }
    expect_text(
        "a run at a terminal without escape sequences",
        told_at(
            &rt,
            4_000,
            SLOW_AT_DUMB_TERMINAL,
            "run plain.toml - out.wav",
        ),
        "0\n--\noutput 0: 6 frames, …",
    )?;
    expect_text(
        "a run that is no terminal's",
        told_at(&rt, 4_000, SLOW_PIPED, "run plain.toml - out.wav --why"),
        "0\n--\noutput 0: 6 frames, …",
    )
}
