//! The command that measures a run.

use sdf_commands::printing::show;
use sdf_faults::Fault;
use sdf_file::Design;
use sdf_io::files::{Loaded, Refused, Sources, bytes_of, or_refuse, put, read_at, write_at};
use sdf_io::overwriting::{Paths, refuse_overwriting};
use sdf_io::storage::Storage;
use sdf_io::world::{STANDARD, World};
use sdf_options::plural::plural;
use sdf_options::usage_error;
use sdf_profile::{Measured, Unwritten, costed_text, profile};
use std::alloc::{AllocError, Global};
use std::io::{self, Read, Write};
use std::thread::Threads;
use std::time::Clock;

/// Reads all bytes of the file at `path`, or of standard input.
fn read_input<S: Storage, T: AllocGlobal, I: Read>(
    world: &World<S, T>,
    stdin: &mut I,
    path: &str,
) -> io::Result<Vec<u8>> {
    let alloc = world.threads.alloc();
    if path == STANDARD {
        return bytes_of(alloc, stdin, world.most);
    }
    read_at(alloc, world.storage, path, world.most)
}

/// Reads all bytes of the WAV file at `path`, or of standard input. Notes in `sources` what was read, or how the system
/// refused it.
fn bytes_at<S: Storage, T: AllocGlobal, I: Read>(
    world: &World<S, T>,
    stdin: &mut I,
    path: &str,
    sources: &mut Sources,
) -> Result<Vec<u8>, Fault> {
    let alloc = world.threads.alloc();
    let read = read_input(world, stdin, path);
    let bytes = or_refuse(alloc, &mut sources.refused, path, read, Fault::Read)?;
    sources.trace.name = String::from_str(alloc, path)?;
    sources.trace.note(&bytes);
    Ok(bytes)
}

/// Returns the message for a graph file that needs a line `[[actor]]` for each actor of `design`, but has `lines`.
fn lines_text(alloc: Global, design: &Design, lines: usize) -> Result<String, AllocError> {
    let actors = design.costs().len();
    format!(in alloc;
        "GRAPH has {lines} line{} [[actor]] for {actors} actor{}: costs need one for each",
        plural(lines as u64),
        plural(actors as u64)
    )
}

/// Returns the message for a graph file in which the cost of `actor` has no line of its own.
fn cost_text(alloc: Global, design: &Design, actor: usize) -> Result<String, AllocError> {
    let name = design.name(actor);
    format!(in alloc;
        "the cost of the actor \"{name}\" must be on a line of its own in GRAPH, like `cost = 12`"
    )
}

/// The message for a graph file in which new costs would change more than costs.
const OTHERWISE: &str =
    "new costs would change GRAPH in more than its costs: give each key a line of its own";

/// Returns the usage error for a graph file whose text cannot take costs.
fn unwritten_fault(alloc: Global, design: &Design, fault: Unwritten) -> Result<Fault, AllocError> {
    let text = match fault {
        Unwritten::OutOfMemory => return Ok(Fault::OutOfMemory),
        Unwritten::Tables(lines) => lines_text(alloc, design, lines)?,
        Unwritten::Cost(actor) => cost_text(alloc, design, actor)?,
        Unwritten::Reading => String::from_str(alloc, OTHERWISE)?,
    };
    Ok(Fault::from(usage_error(alloc, text.as_str())))
}

/// Returns the text of the graph file that was read, with these `costs`.
fn text_with_costs(
    alloc: Global,
    sources: &Sources,
    design: &Design,
    costs: &[u32],
) -> Result<Vec<u8>, Fault> {
    match costed_text(alloc, &sources.graph, &sources.files, costs) {
        Ok(text) => Ok(text),
        Err(fault) => Err(unwritten_fault(alloc, design, fault)?),
    }
}

/// A requested measurement: a run of GRAPH on IN. If `write` names a FILE, the graph file is written there with
/// the costs.
#[derive(Clone, Copy)]
pub(crate) struct Profiling<'a> {
    pub(crate) graph: &'a str,
    pub(crate) loaded: &'a Loaded,
    pub(crate) input: &'a str,
    pub(crate) write: Option<&'a str>,
}

/// Writes the text of a graph file to `output`, and prints `profile` unless `output` is standard output.
fn put_written<S: Storage, T: AllocGlobal, O: Write>(
    world: &World<S, T>,
    out: &mut O,
    output: &str,
    written: &[u8],
    profile: &str,
    refused: &mut Vec<Refused>,
) -> Result<(), Fault> {
    if output == STANDARD {
        return put(out, written);
    }
    write_at(
        world.threads.alloc(),
        world.storage,
        output,
        written,
        refused,
    )?;
    show(out, profile)
}

/// Writes the graph file with the `measured` costs to `output`, and prints the profile unless `output` is standard
/// output.
fn write_measured<S: Storage, T: AllocGlobal, O: Write>(
    world: &World<S, T>,
    out: &mut O,
    design: &Design,
    output: &str,
    sources: &mut Sources,
    measured: &Measured,
) -> Result<(), Fault> {
    let written = text_with_costs(world.threads.alloc(), sources, design, &measured.costs)?;
    let profile = measured.text.as_str();
    put_written(world, out, output, &written, profile, &mut sources.refused)
}

/// Errs if `output` is a file that is read, or if costs can't be written into the graph file.
fn test_output<S: Storage, T: AllocGlobal>(
    world: &World<S, T>,
    request: Profiling<'_>,
    output: &str,
    sources: &Sources,
) -> Result<(), Fault> {
    let alloc = world.threads.alloc();
    let paths = Paths {
        graph: request.graph,
        input: request.input,
        output,
    };
    refuse_overwriting(alloc, world.storage, "FILE", paths, &request.loaded.names)?;
    let design = &request.loaded.design;
    text_with_costs(alloc, sources, design, design.costs())?;
    Ok(())
}

/// Measures a run, and writes the graph file with the costs to `output`. Tests `output` before the run.
fn measure_into<S: Storage, T, O: Write>(
    world: &World<S, T>,
    out: &mut O,
    request: Profiling<'_>,
    output: &str,
    sources: &mut Sources,
    bytes: &[u8],
) -> Result<(), Fault>
where
    T: Threads + AllocGlobal + Clock + Clone + Drop + Sync,
{
    test_output(world, request, output, sources)?;
    let design = &request.loaded.design;
    let measured = profile(world.threads, bytes, design)?;
    write_measured(world, out, design, output, sources, &measured)
}

/// Measures a run on `bytes` of the design that was read, and prints or writes the result.
fn measure<S: Storage, T, O: Write>(
    world: &World<S, T>,
    out: &mut O,
    request: Profiling<'_>,
    sources: &mut Sources,
    bytes: &[u8],
) -> Result<(), Fault>
where
    T: Threads + AllocGlobal + Clock + Clone + Drop + Sync,
{
    match request.write {
        Some(output) => measure_into(world, out, request, output, sources, bytes),
        None => {
            let measured = profile(world.threads, bytes, &request.loaded.design)?;
            show(out, measured.text.as_str())
        }
    }
}

/// Prints the part of a run's time that each actor's firings take. If `write` names a FILE, writes the graph file there
/// with the costs. If FILE is standard output, does not print the profile.
pub(crate) fn print_profile<S: Storage, T, I: Read, O: Write>(
    world: &World<S, T>,
    stdin: &mut I,
    out: &mut O,
    request: Profiling<'_>,
    sources: &mut Sources,
) -> Result<(), Fault>
where
    T: Threads + AllocGlobal + Clock + Clone + Drop + Sync,
{
    let bytes = bytes_at(world, stdin, request.input, sources)?;
    measure(world, out, request, sources, &bytes)
}
