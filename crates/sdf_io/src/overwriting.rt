//! Guards against overwriting a file. A run may write OUT while it reads IN, so OUT must not be a file that the run
//! reads. The FILE of a profile must not be one either. A design is not written into a folder that already has one of
//! its files.

use crate::storage::Storage;
use crate::world::STANDARD;
use sdf_faults::Fault;
use sdf_options::printable::printable;
use sdf_options::usage_error;
use std::alloc::{AllocError, Global};
use std::io::ErrorKind;
use std::path::{Path, PathBuf};

/// Returns the canonical path of the file at `path`, without dots and symbolic links, if there is a file.
pub fn canonical_path<S: Storage>(
    alloc: Global,
    storage: &S,
    path: &str,
) -> Result<Option<PathBuf>, Fault> {
    match storage.canonical_path(alloc, path) {
        Ok(only) => Ok(Some(only)),
        Err(error) if error.kind() == ErrorKind::OutOfMemory => Err(Fault::OutOfMemory),
        Err(_) => Ok(None),
    }
}

/// Checks whether `path` leads to the file with the canonical path `file`.
fn leads_to<S: Storage>(alloc: Global, storage: &S, path: &str, file: &str) -> Result<bool, Fault> {
    match canonical_path(alloc, storage, path)? {
        Some(only) => Ok(only.as_str() == file),
        None => Ok(false),
    }
}

/// The paths of what a run reads and writes.
#[derive(Clone, Copy)]
pub struct Paths<'a> {
    pub graph: &'a str,
    pub input: &'a str,
    pub output: &'a str,
}

/// Returns the usage error for an output, called `word`, that is the same file as the input `what`.
pub fn same_file(alloc: Global, word: &str, what: &str) -> Fault {
    match format!(in alloc; "{word} is the same file as {what}") {
        Ok(text) => Fault::from(usage_error(alloc, text.as_str())),
        Err(_) => Fault::OutOfMemory,
    }
}

/// Checks whether the coefficient file `name`, in the folder of `graph`, has the canonical path `file`.
fn leads_beside<S: Storage>(
    alloc: Global,
    storage: &S,
    graph: &str,
    name: &str,
    file: &str,
) -> Result<bool, Fault> {
    let path = Path::new(graph).with_file_name(alloc, name)?;
    leads_to(alloc, storage, path.as_str(), file)
}

/// Returns the usage error for an output, called `word`, that is the same file as the coefficient file `name`.
fn same_coefficients(alloc: Global, word: &str, name: &str) -> Result<Fault, AllocError> {
    let shown = printable(alloc, name)?;
    let what = format!(in alloc; "the coefficient file {}", shown.as_str())?;
    Ok(same_file(alloc, word, what.as_str()))
}

/// Refuses an output, called `word`, whose canonical path `out` is a coefficient file in `names`.
fn keep_coefficients<S: Storage>(
    alloc: Global,
    storage: &S,
    word: &str,
    graph: &str,
    names: &[String],
    out: &str,
) -> Result<(), Fault> {
    for name in names {
        if leads_beside(alloc, storage, graph, name.as_str(), out)? {
            return Err(same_coefficients(alloc, word, name.as_str())?);
        }
    }
    Ok(())
}

/// Refuses an output, called `word`, whose canonical path `out` is IN, GRAPH or a coefficient file in `names`.
fn keep_files<S: Storage>(
    alloc: Global,
    storage: &S,
    word: &str,
    paths: Paths<'_>,
    names: &[String],
    out: &str,
) -> Result<(), Fault> {
    let Paths { graph, input, .. } = paths;
    if input != STANDARD && leads_to(alloc, storage, input, out)? {
        return Err(same_file(alloc, word, "IN"));
    }
    if leads_to(alloc, storage, graph, out)? {
        return Err(same_file(alloc, word, "GRAPH"));
    }
    keep_coefficients(alloc, storage, word, graph, names, out)
}

/// Refuses an output, called `word`, that is the same file as IN, GRAPH or a coefficient file in `names`. Standard
/// input and standard output are not files here.
pub fn refuse_overwriting<S: Storage>(
    alloc: Global,
    storage: &S,
    word: &str,
    paths: Paths<'_>,
    names: &[String],
) -> Result<(), Fault> {
    if paths.output == STANDARD {
        return Ok(());
    }
    match canonical_path(alloc, storage, paths.output)? {
        Some(out) => keep_files(alloc, storage, word, paths, names, out.as_str()),
        None => Ok(()),
    }
}

/// Refuses `folder` if it already has a file with this `name`.
pub fn keep_file<S: Storage>(
    alloc: Global,
    storage: &S,
    folder: &str,
    name: &str,
) -> Result<(), Fault> {
    let path = format!(in alloc; "{folder}/{name}")?;
    if canonical_path(alloc, storage, path.as_str())?.is_none() {
        return Ok(());
    }
    let text = format!(in alloc; "FOLDER already has a file {name}")?;
    Err(Fault::from(usage_error(alloc, text.as_str())))
}
