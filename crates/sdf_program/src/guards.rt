//! Guards against overwriting what a batch reads.

use crate::items::{Batching, Item};
use sdf_faults::Fault;
use sdf_io::overwriting::{Paths, canonical_path, refuse_overwriting, same_file};
use sdf_io::storage::Storage;
use sdf_io::world::STANDARD;
use sdf_options::printable::printable;
use std::alloc::Global;
use std::path::PathBuf;

/// Returns the canonical paths of the sounds that a batch reads, if they exist.
fn paths_read<S: Storage>(
    alloc: Global,
    storage: &S,
    items: &[Item<'_>],
) -> Result<Vec<PathBuf>, Fault> {
    let mut paths = Vec::new(alloc);
    for item in items {
        if let Some(path) = canonical_path(alloc, storage, item.input)? {
            paths.push(path)?;
        }
    }
    Ok(paths)
}

/// Refuses an output, called `word`, whose canonical path `out` is in `read`.
fn keep_read(alloc: Global, word: &str, read: &[PathBuf], out: &str) -> Result<(), Fault> {
    if read.iter().any(|path| path.as_str() == out) {
        return Err(same_file(alloc, word, "IN"));
    }
    Ok(())
}

/// Errs if `path`, whose canonical path is `out`, is one of `read`, the graph file or a coefficient file. Names `path`.
fn keep_path<S: Storage>(
    alloc: Global,
    storage: &S,
    batching: Batching<'_>,
    read: &[PathBuf],
    path: &str,
    out: &str,
) -> Result<(), Fault> {
    let shown = printable(alloc, path)?;
    let word = shown.as_str();
    keep_read(alloc, word, read, out)?;
    let paths = Paths {
        graph: batching.graph,
        input: STANDARD,
        output: path,
    };
    refuse_overwriting(alloc, storage, word, paths, &batching.loaded.names)
}

/// Errs if `path` leads to one of `read`, to the graph file or to a coefficient file, and names `path`.
fn keep_inputs_from<S: Storage>(
    alloc: Global,
    storage: &S,
    batching: Batching<'_>,
    read: &[PathBuf],
    path: &str,
) -> Result<(), Fault> {
    match canonical_path(alloc, storage, path)? {
        Some(out) => keep_path(alloc, storage, batching, read, path, out.as_str()),
        None => Ok(()),
    }
}

/// Errs if the output of one of `items` leads to one of `read`, to the graph file or to a coefficient file.
fn keep_inputs_of<S: Storage>(
    alloc: Global,
    storage: &S,
    batching: Batching<'_>,
    read: &[PathBuf],
    items: &[Item<'_>],
) -> Result<(), Fault> {
    for item in items {
        keep_inputs_from(alloc, storage, batching, read, item.output.as_str())?;
    }
    Ok(())
}

/// Errs if a run would write a file that any run of the batch reads, and names that file.
pub(crate) fn keep_inputs<S: Storage>(
    alloc: Global,
    storage: &S,
    batching: Batching<'_>,
    items: &[Item<'_>],
) -> Result<(), Fault> {
    let read = paths_read(alloc, storage, items)?;
    keep_inputs_of(alloc, storage, batching, &read, items)
}
