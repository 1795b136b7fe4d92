//! The files of the program: reading a design, writing a file, and noting what the system refused.

ghost use Rattle.std.specs.Prelude.{◌≡◌, ◌≢◌, ◌⊎◌, IfErr, MatchResult, Ok, Err};
ghost use Rattle.std.specs.IoError.{error_kind};
ghost use Rattle.sdf_faults.specs.declared.fault.Fault.TheVariants as faults;
ghost use Rattle.sdf_faults.specs.declared.fault.Fault.TheVariants.{OutOfMemory};

use crate::input::InputTrace;
use crate::storage::Storage;
use sdf_faults::Fault;
use sdf_file::{CoefficientFile, Design, GraphFile, coefficient_files, make_design, parse_graph};
use std::alloc::{AllocError, Global};
use std::io::{self, ErrorKind, Read, Write};
use std::mem;
use std::path::Path;

/// The most bytes of a graph file, a coefficient file or the IN of `profile`.
pub const MAX_BYTES: u32 = 1_073_741_824;

/// Returns the fault for `error`: `OutOfMemory` if memory was refused, and `blamed` otherwise.
fn device_fault(error: &io::Error, blamed: Fault) -> Fault
    ensures memory { error_kind error.now ≡ ErrorKind.OutOfMemory → result ≡ OutOfMemory }
    ensures device { error_kind error.now ≢ ErrorKind.OutOfMemory → result ≡ blamed }
    ensures either { (result ≡ blamed) ⊎ (result ≡ OutOfMemory) }
{
    match error.kind() {
        ErrorKind::OutOfMemory => Fault::OutOfMemory,
        _ => blamed,
    }
}

/// Reads all bytes of `file`. If there are more than `most`, the error is `FileTooLarge`.
pub fn bytes_of<F: Read + Drop>(alloc: Global, file: F, most: u32) -> io::Result<Vec<u8>> {
    let mut bytes = Vec::new(alloc);
    file.take(u64::from(most) + 1).read_to_end(&mut bytes)?;
    if bytes.len() <= most as usize {
        Ok(bytes)
    } else {
        Err(io::Error::from(ErrorKind::FileTooLarge))
    }
}

/// Writes all `bytes`. If the device fails, the fault is `Write`.
pub fn put<W: Write>(to: &mut W, bytes: &[u8]) -> Result<(), Fault>
    ensures { IfErr result (λ fault. (fault ≡ faults.Write) ⊎ (fault ≡ OutOfMemory)) }
{
    match to.write_all(bytes) {
        Ok(()) => Ok(()),
        Err(error) => Err(device_fault(&error, Fault::Write)),
    }
}

/// A file or a folder that the system refused: its name as it was given, and what is said of it.
#[derive(Drop)]
pub struct Refused {
    pub name: String,
    pub said: String,
}

/// Notes in `refused` that the system refused the file `name` with `error`. `before` begins the message.
fn note(
    alloc: Global,
    refused: &mut Vec<Refused>,
    name: &str,
    before: &str,
    error: &io::Error,
) -> Result<(), AllocError> {
    let name = format!(in alloc; "{name}")?;
    let said = format!(in alloc; "{before}{error}")?;
    Ok(refused.push(Refused { name, said })?)
}

/// Notes in `refused` that the system refused the file `name`, and returns its fault.
pub fn refuse(
    alloc: Global,
    refused: &mut Vec<Refused>,
    name: &str,
    error: &io::Error,
    blamed: Fault,
) -> Fault
    ensures memory { error_kind error.now ≡ ErrorKind.OutOfMemory → result ≡ OutOfMemory }
    ensures either { (result ≡ blamed) ⊎ (result ≡ OutOfMemory) }
{
    match note(alloc, refused, name, "", error) {
        Ok(()) => device_fault(error, blamed),
        Err(_) => Fault::OutOfMemory,
    }
}

/// Returns the value of `done`. If the system refused the file `name`, notes that in `refused`, and returns its fault.
pub fn or_refuse<T>(
    alloc: Global,
    refused: &mut Vec<Refused>,
    name: &str,
    done: io::Result<T>,
    blamed: Fault,
) -> Result<T, Fault>
    ensures { MatchResult done (λ value. result ≡ Ok value)
        (λ _. (result ≡ Err blamed) ⊎ (result ≡ Err OutOfMemory)) }
{
    match done {
        Ok(value) => Ok(value),
        Err(error) => Err(refuse(alloc, refused, name, &error, blamed)),
    }
}

/// Notes in `refused` that the file or the folder `name` is left, if the system refused to remove it. Notes nothing if
/// memory is refused for it.
pub fn note_left(alloc: Global, refused: &mut Vec<Refused>, name: &str, removed: io::Result<()>) {
    if let Err(error) = removed {
        let _ = note(
            alloc,
            refused,
            name,
            "is left, since it can't be removed: ",
            &error,
        );
    }
}

/// Creates the file at `path`, or empties it if there is one. Notes in `refused` if the system refuses it.
fn create_at<S: Storage>(
    alloc: Global,
    storage: &S,
    path: &str,
    refused: &mut Vec<Refused>,
) -> Result<S::Sink, Fault> {
    or_refuse(alloc, refused, path, storage.create(path), Fault::Write)
}

/// Writes `bytes` into `file`, and closes it. Notes in `refused` if the system refuses it.
fn fill<F: Write + Drop>(
    alloc: Global,
    mut file: F,
    path: &str,
    bytes: &[u8],
    refused: &mut Vec<Refused>,
) -> Result<(), Fault> {
    or_refuse(alloc, refused, path, file.write_all(bytes), Fault::Write)
}

/// Creates the file at `path` with these `bytes`, or overwrites it. Notes in `refused` if the system refuses it.
pub fn write_at<S: Storage>(
    alloc: Global,
    storage: &S,
    path: &str,
    bytes: &[u8],
    refused: &mut Vec<Refused>,
) -> Result<(), Fault> {
    let file = create_at(alloc, storage, path, refused)?;
    fill(alloc, file, path, bytes, refused)
}

/// Creates the file at `path`, which does not exist, with these `bytes`. If they can't be written, removes it again.
/// Notes in `refused` what the system refuses.
pub fn make_at<S: Storage>(
    alloc: Global,
    storage: &S,
    path: &str,
    bytes: &[u8],
    refused: &mut Vec<Refused>,
) -> Result<(), Fault> {
    let file = create_at(alloc, storage, path, refused)?;
    let filled = fill(alloc, file, path, bytes, refused);
    if filled.is_err() {
        note_left(alloc, refused, path, storage.remove(path));
    }
    filled
}

/// Notes in `refused` that the system refused the open file `name`. Notes nothing if memory is refused for it.
pub fn note_refusal(alloc: Global, refused: &mut Vec<Refused>, name: &str, error: &io::Error) {
    let _ = note(alloc, refused, name, "", error);
}

/// Reads the coefficient file `name` in the folder of `graph`. Returns `None` if it can't be opened, and notes that in
/// `refused`.
fn read_beside<S: Storage>(
    alloc: Global,
    storage: &S,
    graph: &str,
    name: &str,
    most: u32,
    refused: &mut Vec<Refused>,
) -> Result<Option<Vec<u8>>, Fault> {
    let path = Path::new(graph).with_file_name(alloc, name)?;
    match storage.open(path.as_str()) {
        Ok(file) => {
            let bytes = bytes_of(alloc, file, most);
            Ok(Some(or_refuse(alloc, refused, name, bytes, Fault::Read)?))
        }
        Err(error) => match &refuse(alloc, refused, name, &error, Fault::Read) {
            Fault::OutOfMemory => Err(Fault::OutOfMemory),
            _ => Ok(None),
        },
    }
}

/// What was read so far: the graph file, its path, and its coefficient files that can be opened.
/// The trace has what is known of the sound. `refused` has the files that the system refused.
#[derive(Drop)]
pub struct Sources {
    pub path: String,
    pub graph: Vec<u8>,
    pub files: Vec<CoefficientFile>,
    pub trace: InputTrace,
    pub refused: Vec<Refused>,
}

impl Sources {
    /// Returns the sources before anything is read.
    pub fn new(alloc: Global) -> Sources {
        Sources {
            path: String::new(alloc),
            graph: Vec::new(alloc),
            files: Vec::new(alloc),
            trace: InputTrace::new(alloc),
            refused: Vec::new(alloc),
        }
    }

    /// Exchanges the trace of the sound and the refused files with `other`.
    pub fn swap_sound(&mut self, other: &mut Sources)
        ensures trace { (self.new.trace ≡ other.old.trace) × (other.new.trace ≡ self.old.trace) }
        ensures refused { (self.new.refused ≡ other.old.refused) × (other.new.refused ≡ self.old.refused) }
        ensures path { (self.new.path ≡ self.old.path) × (other.new.path ≡ other.old.path) }
        ensures graph { (self.new.graph ≡ self.old.graph) × (other.new.graph ≡ other.old.graph) }
        ensures files { (self.new.files ≡ self.old.files) × (other.new.files ≡ other.old.files) }
    {
        mem::swap(&mut self.trace, &mut other.trace);
        mem::swap(&mut self.refused, &mut other.refused);
    }
}

/// Reads the coefficient files `names` in the folder of `graph`, and skips the ones that can't be opened.
fn read_files<S: Storage>(
    alloc: Global,
    storage: &S,
    graph: &str,
    names: Vec<String>,
    most: u32,
    sources: &mut Sources,
) -> Result<(), Fault> {
    let Sources { files, refused, .. } = sources;
    for name in names {
        if let Some(bytes) = read_beside(alloc, storage, graph, name.as_str(), most, refused)? {
            files.push(CoefficientFile { name, bytes })?;
        }
    }
    Ok(())
}

/// A design, and the names of the coefficient files that it was read with.
#[derive(Drop)]
pub struct Loaded {
    pub design: Design,
    pub names: Vec<String>,
}

/// Returns the names of `files`.
fn names_of(alloc: Global, files: &[CoefficientFile]) -> Result<Vec<String>, AllocError> {
    let mut names = Vec::new(alloc);
    for file in files {
        names.push(file.name.clone()?)?;
    }
    Ok(names)
}

/// Makes the design of `graph` and the coefficient files in `sources`.
fn loaded_from(alloc: Global, graph: &GraphFile, sources: &Sources) -> Result<Loaded, Fault> {
    let names = names_of(alloc, &sources.files)?;
    let design = make_design(alloc, graph, &sources.files)?;
    Ok(Loaded { design, names })
}

/// Reads all bytes of the file at `path`. If there are more than `most`, the error is `FileTooLarge`.
pub fn read_at<S: Storage>(
    alloc: Global,
    storage: &S,
    path: &str,
    most: u32,
) -> io::Result<Vec<u8>> {
    bytes_of(alloc, storage.open(path)?, most)
}

/// Reads the graph file at `graph` into `sources`.
fn read_graph<S: Storage>(
    alloc: Global,
    storage: &S,
    graph: &str,
    most: u32,
    sources: &mut Sources,
) -> Result<(), Fault> {
    sources.path = format!(in alloc; "{graph}")?;
    let bytes = read_at(alloc, storage, graph, most);
    sources.graph = or_refuse(alloc, &mut sources.refused, graph, bytes, Fault::Read)?;
    Ok(())
}

/// Reads the design of the graph file at `graph` and its coefficient files. A file of over `most` bytes is a fault.
/// What was read stays in `sources`, even after a fault.
pub fn load_into<S: Storage>(
    alloc: Global,
    storage: &S,
    graph: &str,
    most: u32,
    sources: &mut Sources,
) -> Result<Loaded, Fault> {
    read_graph(alloc, storage, graph, most, sources)?;
    let parsed = parse_graph(alloc, &sources.graph)?;
    let names = coefficient_files(alloc, &parsed)?;
    read_files(alloc, storage, graph, names, most, sources)?;
    loaded_from(alloc, &parsed, sources)
}
