//! A batch that is asked for, and the places where its files are written.

use sdf_cli::BatchRequest;
use sdf_faults::Fault;
use sdf_io::files::Loaded;
use sdf_io::replacing::is_part_of;
use sdf_io::world::STANDARD;
use sdf_options::printable::printable;
use sdf_options::usage_error;
use std::alloc::{AllocError, Global};
use std::path::Path;

/// A requested batch, for a design that was read.
#[derive(Clone, Copy)]
pub(crate) struct Batching<'a> {
    pub(crate) graph: &'a str,
    pub(crate) loaded: &'a Loaded,
    pub(crate) request: &'a BatchRequest<'a>,
    /// Whether diagnostics and reports are printed.
    pub(crate) is_verbose: bool,
    /// Whether the number of files that are done is shown.
    pub(crate) is_shown: bool,
}

/// A file that is read, and the path of its output once it is complete.
#[derive(Drop)]
pub(crate) struct Item<'a> {
    pub(crate) input: &'a str,
    pub(crate) output: String,
}

/// Returns the name by which the output of `input` is written, if there is one.
fn name_of(input: &str) -> Option<&str> {
    if input == STANDARD {
        return None;
    }
    Path::new(input).file_name()
}

/// Returns the usage error for a file without a name.
fn unnamed(alloc: Global, input: &str) -> Result<Fault, AllocError> {
    let shown = printable(alloc, input)?;
    let text = format!(in alloc; "IN {} has no name for a file in FOLDER", shown.as_str())?;
    Ok(Fault::from(usage_error(alloc, text.as_str())))
}

/// Returns the usage error for two files with the same name.
fn named_twice(alloc: Global, name: &str) -> Result<Fault, AllocError> {
    let shown = printable(alloc, name)?;
    let text = format!(in alloc; "two IN files have the name {}", shown.as_str())?;
    Ok(Fault::from(usage_error(alloc, text.as_str())))
}

/// Returns the usage error for two files whose names differ only by `.part`.
fn named_as_a_part(alloc: Global, name: &str) -> Result<Fault, AllocError> {
    let shown = printable(alloc, name)?;
    let text = format!(in alloc; "IN {} and another IN differ only by .part", shown.as_str())?;
    Ok(Fault::from(usage_error(alloc, text.as_str())))
}

/// Checks whether one of `items` is written to `output`.
fn is_taken(items: &[Item<'_>], output: &str) -> bool {
    items.iter().any(|item| item.output.as_str() == output)
}

/// Checks whether `output` may be the path of a part of one of `items`, or the other way round. Both are written at the
/// same time.
fn is_part(items: &[Item<'_>], output: &str) -> bool {
    items.iter().any(|item| {
        let other = item.output.as_str();
        is_part_of(output, other) || is_part_of(other, output)
    })
}

/// Returns the item of `input`, whose output has this `name` in `folder`.
fn item_of<'a>(
    alloc: Global,
    folder: &str,
    input: &'a str,
    name: &str,
) -> Result<Item<'a>, AllocError> {
    Ok(Item {
        input,
        output: format!(in alloc; "{folder}/{name}")?,
    })
}

/// Errs if the output of `item`, which has this `name`, or a part of it collides with one of `items`.
fn keep_apart(alloc: Global, items: &[Item<'_>], item: &Item<'_>, name: &str) -> Result<(), Fault> {
    let output = item.output.as_str();
    if is_taken(items, output) {
        return Err(named_twice(alloc, name)?);
    }
    if is_part(items, output) {
        return Err(named_as_a_part(alloc, name)?);
    }
    Ok(())
}

/// Adds the file `input`. Errs if it has no name, or if its output or a part of it collides with an earlier file.
fn push_item<'a>(
    alloc: Global,
    items: &mut Vec<Item<'a>>,
    folder: &str,
    input: &'a str,
) -> Result<(), Fault> {
    let Some(name) = name_of(input) else {
        return Err(unnamed(alloc, input)?);
    };
    let item = item_of(alloc, folder, input, name)?;
    keep_apart(alloc, items, &item, name)?;
    Ok(items.push(item)?)
}

/// Returns the files of a batch.
pub(crate) fn items_of<'a>(
    alloc: Global,
    batch: &BatchRequest<'a>,
) -> Result<Vec<Item<'a>>, Fault> {
    let mut items = Vec::new(alloc);
    for input in &batch.inputs {
        push_item(alloc, &mut items, batch.folder, *input)?;
    }
    Ok(items)
}
