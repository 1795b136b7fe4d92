//! Tests of how runs end, by the bytes of a sound, the options and the length of a design.

use crate::designs::HALF;
use crate::running::{end_of, file_of, make_file, run_to_outcome};
use sdf_options::{Options, Runner};
use std::alloc::Global;
use std::test::Fail;
use std::thread::Threads;
use test_texts::{row_says, says};

/// A run of `graph` with `options` on a file of `samples`. From `place` on, `bytes` replace the file's, and the file is
/// cut after `kept` bytes. `told` gives how many bytes are written, and how the run ends.
#[derive(Clone, Copy)]
struct Row {
    name: &'static str,
    graph: &'static str,
    options: Options,
    samples: &'static [i16],
    place: usize,
    bytes: &'static [u8],
    kept: usize,
    told: &'static str,
}

/// A whole file of one sample.
const ONE: Row = Row {
    name: "",
    graph: HALF,
    options: Options::DEFAULT,
    samples: &[5],
    place: 0,
    bytes: b"",
    kept: 46,
    told: "",
};

/// A file of three samples, whose data ends before its size.
const THREE: Row = Row {
    samples: &[1, 2, 3],
    place: 40,
    ..ONE
};

/// An empty file.
const EMPTY: Row = Row { kept: 0, ..ONE };

const ROWS: &[Row] = &[
    Row {
        name: "no RIFF",
        place: 0,
        bytes: b"RIFX",
        told: "0 4 sdfw: 34 NotRiff\n",
        ..ONE
    },
    Row {
        name: "no WAVE",
        place: 8,
        bytes: b"AVI ",
        told: "0 4 sdfw: 35 NotWave\n",
        ..ONE
    },
    Row {
        name: "no format",
        place: 12,
        bytes: b"data",
        told: "0 4 sdfw: 36 NoFormat\n",
        ..ONE
    },
    Row {
        name: "a short format",
        place: 16,
        bytes: b"\x0e\0\0\0",
        told: "0 4 sdfw: 37 ShortFormat\n",
        ..ONE
    },
    Row {
        name: "other samples",
        place: 20,
        bytes: b"\x03\0",
        told: "0 4 sdfw: 38 NotPcm16\n",
        ..ONE
    },
    Row {
        name: "no channels",
        place: 22,
        bytes: b"\0\0",
        told: "0 4 sdfw: 39 Channels\n",
        ..ONE
    },
    Row {
        name: "nine channels",
        place: 22,
        bytes: b"\x09\0",
        told: "0 4 sdfw: 39 Channels\n",
        ..ONE
    },
    Row {
        name: "no rate",
        place: 24,
        bytes: b"\0\0\0\0",
        told: "0 4 sdfw: 40 RateZero\n",
        ..ONE
    },
    Row {
        name: "a wrong alignment",
        place: 32,
        bytes: b"\x04\0",
        told: "0 4 sdfw: 41 BadAlign\n",
        ..ONE
    },
    Row {
        name: "no data",
        place: 36,
        bytes: b"LIST",
        told: "0 4 sdfw: 42 NoData\n",
        ..ONE
    },
    Row {
        name: "less data than it says",
        place: 40,
        bytes: b"\x04\0\0\0",
        told: "44 4 sdfw: 43 Truncated\n",
        ..ONE
    },
    Row {
        name: "a part of a frame",
        place: 40,
        bytes: b"\x01\0\0\0",
        told: "0 4 sdfw: 44 PartialFrame\n",
        ..ONE
    },
    Row {
        name: "a rate that is too great",
        place: 24,
        bytes: b"\0\0\0\x80",
        told: "0 4 sdfw: 46 RateTooLarge\n",
        ..ONE
    },
    Row {
        name: "a frame short",
        bytes: b"\x06\0\0\0",
        kept: 48,
        told: "44 4 sdfw: 43 Truncated\n",
        ..THREE
    },
    Row {
        name: "an open size and a part of a frame",
        bytes: b"\xFF\xFF\xFF\xFF",
        kept: 47,
        told: "0 4 sdfw: 44 PartialFrame\n",
        ..THREE
    },
    Row {
        name: "a size that is too great",
        bytes: b"\xFE\xFF\xFF\xFF",
        kept: 48,
        told: "0 4 sdfw: 45 TooLong\n",
        ..THREE
    },
    Row {
        name: "no design",
        graph: "",
        told: "0 3 sdfw: 52 MissingKey top key format\n",
        ..EMPTY
    },
    Row {
        name: "a block of too many periods",
        options: Options {
            blocking: 65,
            ..Options::DEFAULT
        },
        told: "0 3 sdfw: 11 BlockingFactor\n",
        ..EMPTY
    },
    Row {
        name: "too many workers",
        options: Options {
            workers: 17,
            ..Options::DEFAULT
        },
        told: "0 3 sdfw: 12 WorkerCount\n",
        ..EMPTY
    },
    Row {
        name: "too much patience before too long a block",
        options: Options {
            runner: Runner::Rings,
            patience: 1_000_001,
            blocking: 65,
            ..Options::DEFAULT
        },
        told: "0 3 sdfw: 31 Patience\n",
        ..EMPTY
    },
];

fn file_with(alloc: Global, row: &Row) -> Result<Vec<u8>, Fail> {
    let mut file = file_of(alloc, 8000, 1, row.samples)?;
    for (slot, byte) in file.iter_mut().skip(row.place).zip(row.bytes) {
        *slot = *byte;
    }
    file.truncate(row.kept);
    Ok(file)
}

fn told<T: Threads + AllocGlobal + Sync>(rt: &T, row: &Row) -> Result<String, Fail> {
    let file = file_with(rt.alloc(), row)?;
    let run = run_to_outcome(rt, row.graph, &row.options, &file)?;
    format!(in rt.alloc(); "{} {}", run.output.len(), run.end).map_err(Fail::from)
}

/// Tests what is written before a fault: the header or nothing. Refuses a run that writes more, or less.
#[test]
fn faults_leave_the_header_or_nothing(rt: HostRuntime) -> Result<(), Fail> {
    for row in ROWS {
        row_says(row.name, told(&rt, row), row.told)?;
    }
    Ok(())
}

/// Returns a design of `links` empty links.
fn linked(alloc: Global, links: usize) -> Result<String, Fail> {
    let mut text = String::from_str(alloc, "format = 1\nactor = [{}]\nlink = [")?;
    for _ in 0..links {
        text.push_str("{},")?;
    }
    text.push_str("]")?;
    Ok(text)
}

#[test]
fn designs_can_be_too_long(rt: HostRuntime) -> Result<(), Fail> {
    let graph = linked(rt.alloc(), 257)?;
    let run = make_file(&rt, &graph, &Options::DEFAULT, b"");
    says(end_of(rt.alloc(), run), "3 sdfw: 3 ChannelCount\n")
}
