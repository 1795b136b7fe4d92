//! Tests of designs run over devices that fail at one call.

use crate::designs::HALF;
use crate::running::{end_of, make_file, process_graph};
use sdf_options::{Options, Runner};
use sdf_wav::{FromRead, ToWrite};
use std::alloc::Global;
use std::test::Fail;
use std::thread::Threads;
use test_devices::files::{CANONICAL, OPEN, Whole};
use test_devices::{Faulty, Slip};
use test_texts::row_says;

/// The trace of a run over devices: how many bytes each call of the reader and of the writer asked for, what is
/// written, and how the run ends.
#[derive(Drop)]
pub(crate) struct Trace {
    pub(crate) read: Vec<usize>,
    pub(crate) written: Vec<usize>,
    pub(crate) output: Vec<u8>,
    pub(crate) end: String,
}

/// Runs a design by `runner` over `input` and `output`, and returns the trace.
fn seen<T: Threads + AllocGlobal + Sync>(
    rt: &T,
    graph: &str,
    runner: Runner,
    input: Faulty<&[u8]>,
    output: Faulty<Vec<u8>>,
) -> Result<Trace, Fail> {
    let options = Options {
        runner,
        ..Options::DEFAULT
    };
    let mut reader = FromRead::new(input);
    let mut writer = ToWrite::new(output);
    let run = process_graph(rt, graph, &options, &mut reader, &mut writer);
    let end = end_of(rt.alloc(), run)?;
    let writer = writer.into_inner();
    Ok(Trace {
        read: reader.into_inner().asked,
        written: writer.asked,
        output: writer.device,
        end,
    })
}

/// Runs a design by `runner` over `bytes` and an output, whose calls move at most `most` bytes, and returns the trace.
pub(crate) fn seen_moving<T: Threads + AllocGlobal + Sync>(
    rt: &T,
    graph: &str,
    runner: Runner,
    bytes: &[u8],
    most: usize,
) -> Result<Trace, Fail> {
    let input = Faulty::moving(rt.alloc(), bytes, most);
    let output = Faulty::moving(rt.alloc(), Vec::new(rt.alloc()), most);
    seen(rt, graph, runner, input, output)
}

/// A file, how many bytes a call moves at most, and the numbers of calls: of the reader before the output is begun, of
/// the reader in all, and of the writer.
#[derive(Clone, Copy)]
struct Trip {
    name: &'static str,
    file: Whole,
    most: usize,
    before: usize,
    reads: usize,
    writes: usize,
}

const TRIPS: &[Trip] = &[
    Trip {
        name: "the canonical file",
        file: CANONICAL,
        most: usize::MAX,
        before: 4,
        reads: 5,
        writes: 2,
    },
    Trip {
        name: "the canonical file, byte by byte",
        file: CANONICAL,
        most: 1,
        before: 44,
        reads: 48,
        writes: 48,
    },
    Trip {
        name: "a file whose size is open",
        file: OPEN,
        most: usize::MAX,
        before: 9,
        reads: 9,
        writes: 2,
    },
    Trip {
        name: "a file whose size is open, byte by byte",
        file: OPEN,
        most: 1,
        before: 87,
        reads: 87,
        writes: 48,
    },
];

#[derive(Clone, Copy, Debug)]
enum Side {
    Reader,
    Writer,
}

use Side::{Reader, Writer};

/// The device that slips, and how.
const SLIPS: &[(Side, Slip)] = &[
    (Reader, Slip::Fails),
    (Reader, Slip::IsInterrupted),
    (Writer, Slip::Fails),
    (Writer, Slip::IsInterrupted),
    (Writer, Slip::MovesNothing),
];

/// The number of calls of the device that slips, whether a prefix of the whole output is written, its length, and the
/// end of the run.
#[derive(Clone, Copy)]
struct Report<'a> {
    calls: usize,
    front: bool,
    len: usize,
    end: &'a str,
}

/// Returns the text of a report on a device that slips at call `at`.
fn report_text(
    alloc: Global,
    (side, slip): (Side, Slip),
    at: usize,
    report: &Report,
) -> Result<String, Fail> {
    let Report {
        calls,
        front,
        len,
        end,
    } = report;
    format!(in alloc; "{side:?} {slip:?} at {at}: {calls} {front} {len} {end}").map_err(Fail::from)
}

/// Runs a trip whose device slips at call `at`, and reports on it.
fn told<T: Threads + AllocGlobal + Sync>(
    rt: &T,
    runner: Runner,
    trip: &Trip,
    (side, slip): (Side, Slip),
    at: usize,
    whole: &[u8],
) -> Result<String, Fail> {
    let alloc = rt.alloc();
    let (reader_at, writer_at) = match side {
        Reader => (at, 0),
        Writer => (0, at),
    };
    let input = Faulty::slipping(alloc, trip.file.bytes, trip.most, slip, reader_at);
    let output = Faulty::slipping(alloc, Vec::new(alloc), trip.most, slip, writer_at);
    let seen = seen(rt, HALF, runner, input, output)?;
    let calls = match side {
        Reader => seen.read.len(),
        Writer => seen.written.len(),
    };
    let report = Report {
        calls,
        front: whole.starts_with(&seen.output),
        len: seen.output.len(),
        end: seen.end.as_str(),
    };
    report_text(alloc, (side, slip), at, &report)
}

/// Returns the wanted report. A device that slips is blamed, and not called again. The header is written if the content
/// was begun and its size is filled in. The header and the samples are written by one call each, if a call takes them.
/// If the slip is past the last call, all is written.
fn wanted(
    alloc: Global,
    trip: &Trip,
    (side, slip): (Side, Slip),
    at: usize,
) -> Result<String, Fail> {
    let (calls, fault) = match side {
        Reader => (trip.reads, "5 sdfw: 47 Read\n"),
        Writer => (trip.writes, "5 sdfw: 48 Write\n"),
    };
    let len = match side {
        Reader if at <= trip.before => 0,
        Reader if at <= trip.reads => 44,
        Writer if trip.most == 1 => at.min(49).saturating_sub(1),
        Writer if at == 1 => 0,
        Writer if at == 2 => 44,
        _ => 48,
    };
    let report = Report {
        calls: calls.min(at),
        front: true,
        len,
        end: if at <= calls { fault } else { "no fault" },
    };
    report_text(alloc, (side, slip), at, &report)
}

/// Checks a slip at each call of a device, and at two calls past the last.
fn calls_are_seen<T: Threads + AllocGlobal + Sync>(
    rt: &T,
    runner: Runner,
    trip: &Trip,
    slip: (Side, Slip),
    whole: &[u8],
) -> Result<(), Fail> {
    let calls = match slip.0 {
        Reader => trip.reads,
        Writer => trip.writes,
    };
    for at in 1..calls.saturating_add(3) {
        let wanted = wanted(rt.alloc(), trip, slip, at)?;
        row_says(trip.name, told(rt, runner, trip, slip, at, whole), &wanted)?;
    }
    Ok(())
}

/// Checks each slip of a trip.
fn slips_are_seen<T: Threads + AllocGlobal + Sync>(
    rt: &T,
    runner: Runner,
    trip: &Trip,
) -> Result<(), Fail> {
    let whole = make_file(rt, HALF, &Options::DEFAULT, trip.file.bytes)?;
    for slip in SLIPS {
        calls_are_seen(rt, runner, trip, *slip, &whole)?;
    }
    Ok(())
}

/// Checks each slip of each trip.
fn trips_are_seen<T: Threads + AllocGlobal + Sync>(rt: &T, runner: Runner) -> Result<(), Fail> {
    for trip in TRIPS {
        slips_are_seen(rt, runner, trip)?;
    }
    Ok(())
}

#[test]
fn on_one_thread(rt: HostRuntime) -> Result<(), Fail> {
    trips_are_seen(&rt, Runner::One)
}

#[test]
fn by_rows(rt: HostRuntime) -> Result<(), Fail> {
    trips_are_seen(&rt, Runner::Rows)
}

#[test]
fn over_rings(rt: HostRuntime) -> Result<(), Fail> {
    trips_are_seen(&rt, Runner::Rings)
}
