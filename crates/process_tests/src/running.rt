//! Runs of designs over memory, from bytes to bytes, and reports on them.

use sdf_faults::{Fault, fault_text, status};
use sdf_file::{Design, read_design};
use sdf_options::Options;
use sdf_plan::planning::plan;
use sdf_process::process::process_with;
use sdf_run::{Gate, NoGate};
use sdf_wav::{FromRead, Reader, ToWrite, Wav, Writer, write_wav};
use std::alloc::Global;
use std::test::Fail;
use std::thread::Threads;

/// Returns the WAV file of a sound.
pub(crate) fn file_of(
    alloc: Global,
    rate: u32,
    channels: u16,
    samples: &[i16],
) -> Result<Vec<u8>, Fault> {
    let wav = Wav::new(rate, channels, samples.to_vec(alloc)?)?;
    let mut writer = ToWrite::new(Vec::new(alloc));
    write_wav(&mut writer, &wav)?;
    Ok(writer.into_inner())
}

/// The samples of a sound.
#[derive(Clone, Copy)]
pub(crate) enum Samples {
    These(&'static [i16]),
    /// This number of samples: 0, 1, 2 and so on up to 4,999, then from 0 again.
    Counted(usize),
}

pub(crate) fn samples_of(alloc: Global, samples: Samples) -> Result<Vec<i16>, Fault> {
    match samples {
        Samples::These(samples) => Ok(samples.to_vec(alloc)?),
        Samples::Counted(many) => {
            let mut counted = Vec::new(alloc);
            for i in 0..many {
                counted.push((i % 5000) as i16)?;
            }
            Ok(counted)
        }
    }
}

/// Returns the WAV file of samples in `channels` channels, at 44,100 frames a second.
pub(crate) fn sound(alloc: Global, channels: u16, samples: Samples) -> Result<Vec<u8>, Fault> {
    file_of(alloc, 44_100, channels, &samples_of(alloc, samples)?)
}

/// Returns the WAV file of the halves of `samples`, each rounded up.
pub(crate) fn half_of(alloc: Global, samples: &[i16]) -> Result<Vec<u8>, Fault> {
    let mut halves = Vec::new(alloc);
    for sample in samples {
        halves.push(sample.saturating_add(1) >> 1)?;
    }
    file_of(alloc, 44_100, 1, &halves)
}

/// Runs `design` with `options`, from `reader` to `writer`, with the gate `gate`.
pub(crate) fn process_design<T: Threads + AllocGlobal + Sync, R: Reader, W: Writer, G: Gate>(
    rt: &T,
    design: &Design,
    options: &Options,
    reader: &mut R,
    writer: &mut W,
    gate: &G,
) -> Result<(), Fault> {
    let plan = plan(rt.alloc(), design, options)?;
    process_with(rt, reader, writer, design, &plan, gate)
}

/// Runs the design `graph` with `options`, from `reader` to `writer`, with the gate `gate`.
fn process_graph_with_gate<T: Threads + AllocGlobal + Sync, R: Reader, W: Writer, G: Gate>(
    rt: &T,
    graph: &str,
    options: &Options,
    reader: &mut R,
    writer: &mut W,
    gate: &G,
) -> Result<(), Fault> {
    let design = read_design(rt.alloc(), graph.as_bytes(), &[])?;
    process_design(rt, &design, options, reader, writer, gate)
}

/// Runs the design `graph` with `options`, from `reader` to `writer`.
pub(crate) fn process_graph<T: Threads + AllocGlobal + Sync, R: Reader, W: Writer>(
    rt: &T,
    graph: &str,
    options: &Options,
    reader: &mut R,
    writer: &mut W,
) -> Result<(), Fault> {
    process_graph_with_gate(rt, graph, options, reader, writer, &NoGate)
}

/// Returns the file that the design `graph` makes of `input`.
pub(crate) fn make_file<T: Threads + AllocGlobal + Sync>(
    rt: &T,
    graph: &str,
    options: &Options,
    input: &[u8],
) -> Result<Vec<u8>, Fault> {
    make_file_with_gate(rt, graph, options, input, &NoGate)
}

/// Returns the file that the design `graph` makes of `input`, with the gate `gate`.
pub(crate) fn make_file_with_gate<T: Threads + AllocGlobal + Sync, G: Gate>(
    rt: &T,
    graph: &str,
    options: &Options,
    input: &[u8],
    gate: &G,
) -> Result<Vec<u8>, Fault> {
    let mut reader = FromRead::new(input);
    let mut writer = ToWrite::new(Vec::new(rt.alloc()));
    process_graph_with_gate(rt, graph, options, &mut reader, &mut writer, gate)?;
    Ok(writer.into_inner())
}

/// The output of a run, and its end.
#[derive(Drop)]
pub(crate) struct Outcome {
    pub(crate) output: Vec<u8>,
    pub(crate) end: String,
}

/// Runs the design `graph` with `options` on the file `input`. Returns what is written and how the run ends.
pub(crate) fn run_to_outcome<T: Threads + AllocGlobal + Sync>(
    rt: &T,
    graph: &str,
    options: &Options,
    input: &[u8],
) -> Result<Outcome, Fail> {
    let mut reader = FromRead::new(input);
    let mut writer = ToWrite::new(Vec::new(rt.alloc()));
    let run = process_graph(rt, graph, options, &mut reader, &mut writer);
    let end = end_of(rt.alloc(), run)?;
    Ok(Outcome {
        output: writer.into_inner(),
        end,
    })
}

/// Marks the size of the data of `file` as not filled in.
pub(crate) fn leave_open(file: &mut [u8]) {
    if file.len() >= 44 {
        file[40..44].fill(0xFF);
    }
}

/// Returns the exit status of a fault and its line, as text.
pub(crate) fn fault_told(alloc: Global, fault: Fault) -> Result<String, Fail> {
    let text = fault_text(alloc, &fault)?;
    format!(in alloc; "{} {text}", status(&fault)).map_err(Fail::from)
}

/// Returns the exit status of a fault, as text.
pub(crate) fn status_told(alloc: Global, fault: Fault) -> Result<String, Fail> {
    format!(in alloc; "{}", status(&fault)).map_err(Fail::from)
}

/// Returns the exit status and the line of the fault that a run ends with, or `no fault`.
pub(crate) fn end_of<T: Drop>(alloc: Global, run: Result<T, Fault>) -> Result<String, Fail> {
    match run {
        Ok(_) => String::from_str(alloc, "no fault").map_err(Fail::from),
        Err(fault) => fault_told(alloc, fault),
    }
}

/// Fails if `run` did not make the file `wanted`. The message has the row's name and options.
pub(crate) fn row_makes(
    name: &str,
    options: &Options,
    run: Result<Vec<u8>, Fault>,
    wanted: &[u8],
) -> Result<(), Fail> {
    let made = run?;
    if made.as_slice() == wanted {
        return Ok(());
    }
    let made = made.as_slice();
    Err(Fail::new(format_args!("{name}, {options:?}: {made:?} in place of {wanted:?}")))
}
