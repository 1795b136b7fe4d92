//! Tests of the runner that a command uses, seen in what is written of a sound that ends too soon. One thread has
//! written the header alone when it finds this out, and rows and rings all whole pieces of 4,096 frames. A parallel run
//! has written all its whole pieces except the last, which it runs while it reads on. For each worker, the first piece
//! has 65,536 frames, and each other one 131,072.

use crate::commands::{OPEN, Served, serve_line};
use std::alloc::{AllocError, Global};
use std::test::Fail;
use std::thread::Threads;
use std::time::Clock;
use test_texts::row_says;

/// The header of 600,000 frames at 44,100 Hz.
const ANNOUNCED: &[u8] =
    b"RIFF\xA4\x4F\x12\0WAVEfmt \x10\0\0\0\x01\0\x01\0\x44\xAC\0\0\x88\x58\x01\0\x02\0\x10\0data\x80\x4F\x12\0";

/// Returns the header and `frames` of its frames: 0, 1, 2 and so on up to 4,999, then from 0 again.
fn cut(alloc: Global, frames: u32) -> Result<Vec<u8>, AllocError> {
    let mut bytes = Vec::from_slice(alloc, ANNOUNCED)?;
    for frame in 0..frames {
        let sample = (frame % 5000) as u16;
        bytes.extend_from_slice(&sample.to_le_bytes())?;
    }
    Ok(bytes)
}

/// Checks whether the samples of `made` are the first samples of `read`. Both have a header.
fn is_front(made: &[u8], read: &[u8]) -> bool {
    match (made.get(44..), read.get(44..)) {
        (Some(made), Some(read)) => read.starts_with(made),
        _ => made.is_empty(),
    }
}

/// Reports the exit status, how many bytes are written, whether the samples are the first ones of `input`, and standard
/// error.
fn report(alloc: Global, served: &Served, input: &[u8]) -> Result<String, Fail> {
    let made = &served.out;
    let front = is_front(made, input);
    let err = str::from_utf8(&served.err)?;
    format!(in alloc; "{} {} {front} {err}", served.status, made.len()).map_err(Fail::from)
}

/// Serves `line` on `frames` frames, and returns the report. Each design of the rows copies its input.
fn told<T: Threads + AllocGlobal + Clock + Clone + Drop + Sync>(
    rt: &T,
    frames: u32,
    line: &str,
) -> Result<String, Fail> {
    let input = cut(rt.alloc(), frames)?;
    let mut around = *OPEN;
    around.stdin = &input;
    let served = serve_line(rt, &around, line)?;
    report(rt.alloc(), &served, &input)
}

/// The name of a row, how many of 600,000 frames are there, the words after the program's name, and the report.
type Row = (&'static str, u32, &'static str, &'static str);

const ROWS: &[Row] = &[
    (
        "no runner is asked for",
        4096,
        "run plain.toml - -",
        "4 44 true sdfw: 43 Truncated\n",
    ),
    (
        "one thread",
        4096,
        "run plain.toml - - --runner one",
        "4 44 true sdfw: 43 Truncated\n",
    ),
    (
        "rows",
        4096,
        "run plain.toml - - --runner rows",
        "4 8236 true sdfw: 43 Truncated\n",
    ),
    (
        "rows, for which no actor needs a home: 682 periods of six frames",
        4096,
        "run blocks.toml - - --runner rows --workers 2 --placement hu",
        "4 8228 true sdfw: 43 Truncated\n",
    ),
    (
        "rings",
        4096,
        "run plain.toml - - --runner rings --workers 2",
        "4 8236 true sdfw: 43 Truncated\n",
    ),
    (
        "rings, for which each needs one: for rings that go by rows",
        4096,
        "run blocks.toml - - --runner rings --workers 2 --placement hu",
        "3 0 true sdfw: 30 NotHomed\n",
    ),
    (
        "in parallel, less than a piece of two parts",
        65_536,
        "run heavy.toml - - --parallel 2",
        "4 44 true sdfw: 43 Truncated\n",
    ),
    (
        "in parallel, a frame more than a piece, which is run while more is read",
        131_073,
        "run heavy.toml - - --parallel 2",
        "4 44 true sdfw: 43 Truncated\n",
    ),
    (
        "in parallel, a frame less than two pieces",
        393_215,
        "run heavy.toml - - --parallel 2",
        "4 44 true sdfw: 43 Truncated\n",
    ),
    (
        "in parallel, a frame more than two pieces",
        393_217,
        "run heavy.toml - - --parallel 2",
        "4 262188 true sdfw: 43 Truncated\n",
    ),
    (
        "in parallel, one worker alone",
        65_536,
        "run heavy.toml - - --parallel 1",
        "4 44 true sdfw: 43 Truncated\n",
    ),
    (
        "in parallel, what may keep its samples for ever",
        65_536,
        "run lasting.toml - - --parallel 2",
        "4 44 true sdfw: 43 Truncated\n",
    ),
];

/// Tests the runner of each command. Refuses a program that ignores `--runner`, or uses rows in place of rings. Refuses
/// also a parallel run that reads the sound whole, or less than a piece.
#[test]
fn the_runner_is_the_one_asked_for(rt: HostRuntime) -> Result<(), Fail> {
    for (name, frames, line, wanted) in ROWS {
        row_says(name, told(&rt, *frames, line), wanted)?;
    }
    Ok(())
}
