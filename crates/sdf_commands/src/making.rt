//! The commands that make filters and converters.

use crate::printing::{show, test_plan};
use sdf_cli::Conversion;
use sdf_faults::Fault;
use sdf_file::{CoefficientFile, Design, read_design};
use sdf_filters::{
    ConverterTexts, FilterFault, FilterSpec, StageFile, USUAL_ATTENUATION, WideSpec,
    converter_texts, filter_texts, wide_converter_texts,
};
use sdf_io::files::{Refused, Sources, make_at, note_left, refuse};
use sdf_io::overwriting::{canonical_path, keep_file};
use sdf_io::storage::Storage;
use sdf_io::world::World;
use sdf_options::printable::printable;
use sdf_options::usage_error;
use std::alloc::{AllocError, Global};
use std::io::{ErrorKind, Write};

/// The name of a converter's graph file.
const GRAPH: &str = "graph.toml";

/// Returns the usage error with the message `text`, or `OutOfMemory` if memory was refused for it.
fn usage_fault(alloc: Global, text: Result<String, AllocError>) -> Fault {
    match text {
        Ok(text) => Fault::from(usage_error(alloc, text.as_str())),
        Err(_) => Fault::OutOfMemory,
    }
}

/// Returns `fault` as a usage error, or `OutOfMemory` if memory was refused.
fn filter_fault(alloc: Global, fault: FilterFault) -> Fault {
    match fault {
        FilterFault::OutOfMemory => Fault::OutOfMemory,
        _ => usage_fault(alloc, fault.to_string(alloc)),
    }
}

/// Returns `fault` of a conversion as a usage error. A conversion has no edges of bands that its user could move.
fn conversion_fault(alloc: Global, fault: FilterFault, fast: bool) -> Fault {
    let remedy = if fast {
        "lower --attenuation"
    } else {
        "lower --attenuation or --pass, or use --fast"
    };
    match fault {
        FilterFault::TooManyTaps { taps } => usage_fault(
            alloc,
            format!(in alloc; "a stage needs {taps} taps, but 1024 is the limit: {remedy}"),
        ),
        _ => filter_fault(alloc, fault),
    }
}

/// Prints the coefficient file of the `wanted` filter to `out`, and the measures of its taps to `err`.
pub fn fir<O: Write, E: Write>(
    alloc: Global,
    out: &mut O,
    err: &mut E,
    wanted: FilterSpec,
) -> Result<(), Fault> {
    match filter_texts(alloc, wanted) {
        Ok(texts) => {
            show(err, texts.summary.as_str())?;
            show(out, texts.file.as_str())
        }
        Err(fault) => Err(filter_fault(alloc, fault)),
    }
}

/// Returns the design that `texts` describe.
fn design_of(alloc: Global, texts: &ConverterTexts) -> Result<Design, Fault> {
    let mut files = Vec::new(alloc);
    for file in &texts.files {
        files.push(CoefficientFile {
            name: file.name.clone()?,
            bytes: Vec::from_slice(alloc, file.text.as_bytes())?,
        })?;
    }
    Ok(read_design(alloc, texts.graph.as_bytes(), &files)?)
}

/// Checks that `folder` does not have any file of a converter, and errs if it does.
fn keep_all<S: Storage>(
    alloc: Global,
    storage: &S,
    folder: &str,
    texts: &ConverterTexts,
) -> Result<(), Fault> {
    for file in &texts.files {
        keep_file(alloc, storage, folder, file.name.as_str())?;
    }
    keep_file(alloc, storage, folder, GRAPH)
}

/// Makes `folder` if it does not exist, or notes in `refused` how the system refused it. Another program may make it at
/// the same time. Returns whether this call made it.
pub fn make_folder<S: Storage>(
    alloc: Global,
    storage: &S,
    folder: &str,
    refused: &mut Vec<Refused>,
) -> Result<bool, Fault> {
    if canonical_path(alloc, storage, folder)?.is_some() {
        return Ok(false);
    }
    match storage.create_folder(folder) {
        Ok(()) => Ok(true),
        Err(error) if error.kind() == ErrorKind::AlreadyExists => Ok(false),
        Err(error) => Err(refuse(alloc, refused, folder, &error, Fault::Write)),
    }
}

/// Writes `text` into the new file `name` of `folder`, and adds its path to `made`.
fn write_into<S: Storage, T: AllocGlobal>(
    world: &World<S, T>,
    folder: &str,
    name: &str,
    text: &str,
    made: &mut Vec<String>,
    refused: &mut Vec<Refused>,
) -> Result<(), Fault> {
    let alloc = world.threads.alloc();
    let path = format!(in alloc; "{folder}/{name}")?;
    made.reserve(1)?;
    make_at(
        alloc,
        world.storage,
        path.as_str(),
        text.as_bytes(),
        refused,
    )?;
    made.push_reserved(path);
    Ok(())
}

/// Adds the line about the delay of a converter, unless there is none.
fn push_delay(text: &mut String, delay: u128) -> Result<(), AllocError> {
    match delay {
        0 => Ok(()),
        1 => text.push_str("late by 1 frame, which is cut off the end\n"),
        _ => writeln!(text, "late by {delay} frames, which are cut off the end"),
    }
}

/// Adds the names of the files of a converter. The first one is its graph file.
fn push_made(text: &mut String, folder: &str, files: &[StageFile]) -> Result<(), AllocError> {
    write!(text, "made {folder}/{GRAPH}")?;
    for file in files {
        text.push_str(", ")?;
        text.push_str(file.name.as_str())?;
    }
    text.push_str("\n")
}

/// Returns the last lines of a conversion: its delay, the files that were made, and the command that runs the design.
fn closing(alloc: Global, folder: &str, texts: &ConverterTexts) -> Result<String, AllocError> {
    let shown = printable(alloc, folder)?;
    let folder = shown.as_str();
    let mut text = String::new(alloc);
    push_delay(&mut text, texts.delay)?;
    push_made(&mut text, folder, &texts.files)?;
    writeln!(text, "run it: sdfw run {folder}/{GRAPH} IN.wav OUT.wav")?;
    Ok(text)
}

/// Writes the files of a converter into `folder`, adds their paths to `made`, and writes the measures of each stage's
/// taps and the closing lines to `err`.
fn write_all<S: Storage, T: AllocGlobal, E: Write>(
    world: &World<S, T>,
    err: &mut E,
    folder: &str,
    texts: &ConverterTexts,
    made: &mut Vec<String>,
    refused: &mut Vec<Refused>,
) -> Result<(), Fault> {
    for file in &texts.files {
        write_into(
            world,
            folder,
            file.name.as_str(),
            file.text.as_str(),
            made,
            refused,
        )?;
        show(err, file.summary.as_str())?;
    }
    write_into(world, folder, GRAPH, texts.graph.as_str(), made, refused)?;
    let closing = closing(world.threads.alloc(), folder, texts)?;
    show(err, closing.as_str())
}

/// Removes the files in `made`. Notes in `refused` which files are left.
fn remove_all<S: Storage>(alloc: Global, storage: &S, made: &[String], refused: &mut Vec<Refused>) {
    for path in made {
        note_left(alloc, refused, path.as_str(), storage.remove(path.as_str()));
    }
}

/// Writes the files of a converter into `folder`. If it fails, removes those that it wrote.
fn write_or_remove<S: Storage, T: AllocGlobal, E: Write>(
    world: &World<S, T>,
    err: &mut E,
    folder: &str,
    texts: &ConverterTexts,
    refused: &mut Vec<Refused>,
) -> Result<(), Fault> {
    let alloc = world.threads.alloc();
    let mut made = Vec::new(alloc);
    let written = write_all(world, err, folder, texts, &mut made, refused);
    if written.is_err() {
        remove_all(alloc, world.storage, &made, refused);
    }
    written
}

/// Checks that the design that `texts` describe can be scheduled.
fn test_texts(alloc: Global, texts: &ConverterTexts) -> Result<(), Fault> {
    let design = design_of(alloc, texts)?;
    test_plan(alloc, &design)
}

/// Writes the files of a converter into `folder`. Tests first that the design can be read and scheduled, and that
/// `folder` has none of its files. If it fails, removes what it wrote, and the folder if it made it.
fn write_design<S: Storage, T: AllocGlobal, E: Write>(
    world: &World<S, T>,
    err: &mut E,
    folder: &str,
    texts: &ConverterTexts,
    refused: &mut Vec<Refused>,
) -> Result<(), Fault> {
    let alloc = world.threads.alloc();
    test_texts(alloc, texts)?;
    keep_all(alloc, world.storage, folder, texts)?;
    let is_new = make_folder(alloc, world.storage, folder, refused)?;
    let written = write_or_remove(world, err, folder, texts, refused);
    if is_new && written.is_err() {
        note_left(alloc, refused, folder, world.storage.remove_folder(folder));
    }
    written
}

/// The attenuation of a fast conversion in dB, unless another is asked for.
const FAST_ATTENUATION: u32 = 96;

/// The least attenuation in dB that a conversion is made with, unless it is fast. With less, what passes would lose more
/// than 0.01 dB.
const LEAST_ATTENUATION: u32 = 80;

/// Returns the texts of the design of `conversion`. If its filters need too many taps, and more attenuation is usual,
/// tries the usual attenuation.
fn texts_of(alloc: Global, conversion: Conversion<'_>) -> Result<ConverterTexts, FilterFault> {
    let Conversion {
        from,
        to,
        channels,
        attenuation,
        pass,
        fast,
        ..
    } = conversion;
    if fast {
        let attenuation = attenuation.unwrap_or(FAST_ATTENUATION);
        return converter_texts(alloc, from, to, channels, attenuation);
    }
    let attenuation = attenuation
        .unwrap_or(USUAL_ATTENUATION)
        .max(LEAST_ATTENUATION);
    let wanted = WideSpec {
        from,
        to,
        channels,
        attenuation,
        pass,
    };
    match wide_converter_texts(alloc, wanted) {
        Err(FilterFault::TooManyTaps { .. }) if attenuation < USUAL_ATTENUATION => {
            let attenuation = USUAL_ATTENUATION;
            wide_converter_texts(
                alloc,
                WideSpec {
                    attenuation,
                    ..wanted
                },
            )
        }
        made => made,
    }
}

/// Writes the design of `conversion`. Notes in `sources` how the system refused a file.
pub fn resample<S: Storage, T: AllocGlobal, E: Write>(
    world: &World<S, T>,
    err: &mut E,
    conversion: Conversion<'_>,
    sources: &mut Sources,
) -> Result<(), Fault> {
    let alloc = world.threads.alloc();
    match texts_of(alloc, conversion) {
        Ok(texts) => write_design(world, err, conversion.folder, &texts, &mut sources.refused),
        Err(fault) => Err(conversion_fault(alloc, fault, conversion.fast)),
    }
}
