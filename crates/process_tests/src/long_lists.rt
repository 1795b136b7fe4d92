//! Tests of lists of the maximum length, in a graph file or in a coefficient file, and of lists with one value more.

use crate::running::{fault_told, file_of, process_design};
use sdf_faults::Fault;
use sdf_file::{CoefficientFile, Design, read_design};
use sdf_options::Options;
use sdf_run::NoGate;
use sdf_wav::{FromRead, ToWrite, Wav, Writer, read_wav};
use std::alloc::{AllocError, Global};
use std::test::Fail;
use std::thread::Threads;
use test_texts::row_says;

/// A filter with values in place of `LIST`. In the designs that follow the values are in a table, on a link, or in a
/// coefficient file of a filter or a table.
pub(crate) const FILTER: &str = r#"format = 1
actor = [{ name = "in", kind = "input", channel = 0 }, { name = "sum", kind = "fir", shift = 0, taps = [LIST] },
    { name = "out", kind = "output", channel = 0 }]
link = [{ from = "in", to = "sum" }, { from = "sum", to = "out" }]"#;

const FILTER_OF_FILE: &str = r#"format = 1
actor = [{ name = "in", kind = "input", channel = 0 },
    { name = "sum", kind = "fir", shift = 0, file = "list.toml" }, { name = "out", kind = "output", channel = 0 }]
link = [{ from = "in", to = "sum" }, { from = "sum", to = "out" }]"#;

const TABLE: &str = r#"format = 1
actor = [{ name = "in", kind = "input", channel = 0 },
    { name = "look", kind = "table", offset = 32768, values = [LIST] }, { name = "out", kind = "output", channel = 0 }]
link = [{ from = "in", to = "look" }, { from = "look", to = "out" }]"#;

const TABLE_OF_FILE: &str = r#"format = 1
actor = [{ name = "in", kind = "input", channel = 0 },
    { name = "look", kind = "table", offset = 32768, file = "list.toml" },
    { name = "out", kind = "output", channel = 0 }]
link = [{ from = "in", to = "look" }, { from = "look", to = "out" }]"#;

const BEGUN: &str = r#"format = 1
actor = [{ name = "in", kind = "input", channel = 0 }, { name = "out", kind = "output", channel = 0 }]
link = [{ from = "in", to = "out", initial = [LIST] }]"#;

/// Returns `text` with `many` values in place of `LIST`: 1, 2, 3 and so on up to 9, then from 1 again.
pub(crate) fn with_list(alloc: Global, text: &str, many: usize) -> Result<String, AllocError> {
    let mut list = String::new(alloc);
    for number in 0..many {
        list.push(char::from(b'1' + (number % 9) as u8))?;
        list.push(',')?;
    }
    text.replace(alloc, "LIST", list.as_str())
}

/// A design with `values` values in its list, run on `frames` samples: `first`, and then zeros. `told` gives how many
/// samples are made, and the last one, which the last value makes.
#[derive(Clone, Copy)]
struct Row {
    name: &'static str,
    graph: &'static str,
    values: usize,
    first: i16,
    frames: usize,
    told: &'static str,
}

/// A sample that passes all taps.
const TAPS: Row = Row {
    name: "",
    graph: FILTER,
    values: 1024,
    first: 1,
    frames: 1024,
    told: "1024 Some(7)",
};

/// A sample that looks up the last value.
const VALUES: Row = Row {
    graph: TABLE,
    values: 65_536,
    first: 32_767,
    frames: 1,
    told: "1 Some(7)",
    ..TAPS
};

/// A frame for each sample on the link.
const SAMPLES: Row = Row {
    graph: BEGUN,
    values: 65_536,
    first: 0,
    frames: 65_536,
    told: "65536 Some(7)",
    ..TAPS
};

const ROWS: &[Row] = &[
    Row {
        name: "taps",
        ..TAPS
    },
    Row {
        name: "a tap more",
        values: 1025,
        told: "3 sdfw: 28 KitValue actor 1 key taps\n",
        ..TAPS
    },
    Row {
        name: "taps in a file",
        graph: FILTER_OF_FILE,
        ..TAPS
    },
    Row {
        name: "a tap more in a file",
        graph: FILTER_OF_FILE,
        values: 1025,
        told: "3 sdfw: 28 KitValue actor 1 key file\n",
        ..TAPS
    },
    Row {
        name: "values",
        ..VALUES
    },
    Row {
        name: "a value more",
        values: 65_537,
        told: "3 sdfw: 28 KitValue actor 1 key values\n",
        ..VALUES
    },
    Row {
        name: "values in a file",
        graph: TABLE_OF_FILE,
        ..VALUES
    },
    Row {
        name: "a value more in a file",
        graph: TABLE_OF_FILE,
        values: 65_537,
        told: "3 sdfw: 28 KitValue actor 1 key file\n",
        ..VALUES
    },
    Row {
        name: "samples on a link",
        ..SAMPLES
    },
    Row {
        name: "a sample more on a link",
        values: 65_537,
        told: "3 sdfw: 6 InitialCount link 0\n",
        ..SAMPLES
    },
];

/// Returns the coefficient file with `values` values.
fn coefficients(alloc: Global, values: usize) -> Result<CoefficientFile, AllocError> {
    let list = with_list(alloc, "format = 1\nvalues = [LIST]", values)?;
    Ok(CoefficientFile {
        name: String::from_str(alloc, "list.toml")?,
        bytes: list.into_bytes(),
    })
}

/// Returns a row's design, which may read the coefficient file.
fn design_of(alloc: Global, row: &Row) -> Result<Design, Fault> {
    let graph = with_list(alloc, row.graph, row.values)?;
    let files = [coefficients(alloc, row.values)?];
    Ok(read_design(alloc, graph.as_bytes(), &files)?)
}

/// Returns the WAV file of a row's samples.
fn sound_of(alloc: Global, row: &Row) -> Result<Vec<u8>, Fault> {
    let mut samples = vec![in alloc; 0i16; row.frames]?;
    if let Some(first) = samples.first_mut() {
        *first = row.first;
    }
    file_of(alloc, 8000, 1, &samples)
}

/// Runs a row's design on its sound, on one thread.
fn run_row<T: Threads + AllocGlobal + Sync, W: Writer>(
    rt: &T,
    row: &Row,
    writer: &mut W,
) -> Result<(), Fault> {
    let input = sound_of(rt.alloc(), row)?;
    let design = design_of(rt.alloc(), row)?;
    let mut reader = FromRead::new(input.as_slice());
    process_design(rt, &design, &Options::DEFAULT, &mut reader, writer, &NoGate)
}

/// Returns what a row's design makes.
fn run_long<T: Threads + AllocGlobal + Sync>(rt: &T, row: &Row) -> Result<Wav, Fault> {
    let mut writer = ToWrite::new(Vec::new(rt.alloc()));
    run_row(rt, row, &mut writer)?;
    let made = writer.into_inner();
    Ok(read_wav(rt.alloc(), &mut FromRead::new(made.as_slice()))?)
}

fn told<T: Threads + AllocGlobal + Sync>(rt: &T, row: &Row) -> Result<String, Fail> {
    match run_long(rt, row) {
        Ok(made) => {
            let samples = made.samples();
            format!(in rt.alloc(); "{} {:?}", samples.len(), samples.last()).map_err(Fail::from)
        }
        Err(fault) => fault_told(rt.alloc(), fault),
    }
}

/// Tests lists of the maximum length. Refuses an out-of-memory fault when memory is plentiful, a list that is cut,
/// and a longer one that is taken.
#[test]
fn as_long_as_they_may_be(rt: HostRuntime) -> Result<(), Fail> {
    for row in ROWS {
        row_says(row.name, told(&rt, row), row.told)?;
    }
    Ok(())
}
