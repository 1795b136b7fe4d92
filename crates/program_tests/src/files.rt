//! Commands over real files.

use crate::commands::{OPEN, Row, Served, expect_text, given_of, serve_over};
use crate::shelf::SOUND;
use sdf_faults::{Fault, fault_text};
use sdf_io::files::{MAX_BYTES, Sources, bytes_of, load_into};
use sdf_io::storage::{Disk, Storage};
use std::alloc::{AllocError, Global};
use std::io::{self, Error, ErrorKind, Read};
use std::rt::Files;
use std::test::Fail;
use std::thread::Threads;
use std::time::Clock;
use std::{env, fs};
use test_texts::{row_says, says};

/// A gain, and then a filter whose one tap is in a file of its folder.
pub(crate) const FILTERED: &str = r#"format = 1
actor = [{ name = "in", kind = "input", channel = 0 }, { name = "half", kind = "gain", gain = 16384, shift = 15 },
    { name = "same", kind = "fir", shift = 0, file = "one.toml" }, { name = "out", kind = "output", channel = 0 }]
link = [{ from = "in", to = "half" }, { from = "half", to = "same" }, { from = "same", to = "out" }]"#;

/// A design that copies its input and names no other file.
pub(crate) const PLAIN: &str = r#"format = 1
actor = [{ name = "in", kind = "input", channel = 0 }, { name = "out", kind = "output", channel = 0 }]
link = [{ from = "in", to = "out" }]"#;

pub(crate) const TAPS: &str = "format = 1\nvalues = [1]\n";

/// Makes the folder `path`, if it is not there.
pub(crate) fn make_folder(rt: &HostRuntime, path: &str) -> Result<(), Fail> {
    match fs::create_dir(rt, path) {
        Err(error) if error.kind() != ErrorKind::AlreadyExists => Err(Fail::from(error)),
        _ => Ok(()),
    }
}

/// Makes a folder of its own for a test, if it is not there, and returns its path.
pub(crate) fn folder(rt: &HostRuntime, name: &str) -> Result<String, Fail> {
    let above = env::temp_dir(rt)?;
    let path = format!(in rt.alloc(); "{}/sdfw-{name}", above.as_str())?;
    make_folder(rt, &path)?;
    Ok(path)
}

/// Returns the path of the file `name` in a folder.
pub(crate) fn path_in(alloc: Global, folder: &str, name: &str) -> Result<String, AllocError> {
    format!(in alloc; "{folder}/{name}")
}

/// Writes a file into a folder.
pub(crate) fn put(rt: &HostRuntime, folder: &str, name: &str, bytes: &[u8]) -> Result<(), Fail> {
    let path = path_in(rt.alloc(), folder, name)?;
    Ok(fs::write(rt, path.as_str(), bytes)?)
}

/// Writes each of `texts` into `folder`, under its name.
pub(crate) fn put_texts(
    rt: &HostRuntime,
    folder: &str,
    texts: &[(&str, &str)],
) -> Result<(), Fail> {
    for (name, text) in texts {
        put(rt, folder, name, text.as_bytes())?;
    }
    Ok(())
}

/// The design of a run, and its coefficient file.
const DESIGN: &[(&str, &str)] = &[("graph.toml", FILTERED), ("one.toml", TAPS)];

/// Makes a folder with the files of a run, and returns its path.
pub(crate) fn with_files(rt: &HostRuntime, name: &str) -> Result<String, Fail> {
    let folder = folder(rt, name)?;
    put_texts(rt, &folder, DESIGN)?;
    put(rt, &folder, "in.wav", SOUND)?;
    Ok(folder)
}

/// Fails if the `bytes` of the file `name` are not the `wanted` ones, after a line of words.
fn are_bytes(name: &str, bytes: &[u8], wanted: &[u8], line: &str) -> Result<(), Fail> {
    if bytes == wanted {
        return Ok(());
    }
    Err(Fail::new(format_args!("{name} after {line}: {bytes:?}")))
}

/// Checks that the file `name` of a folder has the bytes `wanted`, after a line of words.
pub(crate) fn has_bytes(
    rt: &(impl Files + AllocGlobal),
    folder: &str,
    name: &str,
    wanted: &[u8],
    line: &str,
) -> Result<(), Fail> {
    let path = path_in(rt.alloc(), folder, name)?;
    let bytes = fs::read(rt, path.as_str())?;
    are_bytes(name, &bytes, wanted, line)
}

/// Fails if there is a file or a folder at `path`.
pub(crate) fn is_gone(rt: &HostRuntime, path: &str) -> Result<(), Fail> {
    if fs::metadata(rt, path).is_ok() {
        return Err(Fail::new(format_args!("{path} is left")));
    }
    Ok(())
}

/// Checks that the files of a run are as they were put there.
pub(crate) fn stand(rt: &(impl Files + AllocGlobal), folder: &str, line: &str) -> Result<(), Fail> {
    has_bytes(rt, folder, "graph.toml", FILTERED.as_bytes(), line)?;
    has_bytes(rt, folder, "one.toml", TAPS.as_bytes(), line)?;
    has_bytes(rt, folder, "in.wav", SOUND, line)
}

/// Runs the command `line` on real files, with `folder` in place of `@`, and returns its result.
pub(crate) fn served<S: Storage, T: Threads + AllocGlobal + Clock + Clone + Drop + Sync>(
    storage: &S,
    threads: &T,
    folder: &str,
    line: &str,
) -> Result<Served, Fail> {
    let given = given_of(threads.alloc(), line, folder)?;
    Ok(serve_over(storage, threads, OPEN, Ok(given)))
}

/// Runs the command `line` as `served` does, and returns its exit status and what it prints on standard error.
pub(crate) fn told<S: Storage, T: Threads + AllocGlobal + Clock + Clone + Drop + Sync>(
    storage: &S,
    threads: &T,
    folder: &str,
    line: &str,
) -> Result<String, Fail> {
    let served = served(storage, threads, folder, line)?;
    served.errors(threads.alloc())
}

/// Compares what the line of each row prints in a folder with the wanted text.
pub(crate) fn expect_rows<S: Storage, T: Threads + AllocGlobal + Clock + Clone + Drop + Sync>(
    storage: &S,
    threads: &T,
    folder: &str,
    rows: &[Row],
) -> Result<(), Fail> {
    for (name, line, wanted) in rows {
        expect_text(name, told(storage, threads, folder, line), wanted)?;
    }
    Ok(())
}

/// A sound of the samples 3 and -2 at 44,100 Hz.
pub(crate) const HALVES: &[u8; 48] =
    b"RIFF\x28\0\0\0WAVEfmt \x10\0\0\0\x01\0\x01\0\x44\xAC\0\0\x88\x58\x01\0\x02\0\x10\0data\x04\0\0\0\x03\0\xFE\xFF";

/// Runs a design in `folder` over an old file, and compares the files that it leaves.
fn is_run<T: Threads + AllocGlobal + Clock + Clone + Drop + Sync>(
    rt: &HostRuntime,
    threads: &T,
    folder: &str,
) -> Result<(), Fail> {
    let line = "run @/graph.toml @/in.wav @/out.wav";
    let old = b"RIFF, an old sound that is longer than the one that takes its place";
    put(rt, folder, "out.wav", old)?;
    says(told(&Disk { rt }, threads, folder, line), "0 ")?;
    has_bytes(rt, folder, "in.wav", SOUND, line)?;
    has_bytes(rt, folder, "out.wav", HALVES, line)
}

/// Tests a run over real files. Refuses a program that looks for coefficient files where it runs, not beside GRAPH.
#[test]
fn makes_out_from_in(rt: HostRuntime) -> Result<(), Fail> {
    let folder = with_files(&rt, "runs")?;
    is_run(&rt, &rt, &folder)
}

const LACKING: &[Row] = &[
    (
        "a design that is not there",
        "check /nonexistent/graph.toml",
        "5 sdfw: 47 Read\n",
    ),
    ("a folder", "check @", "5 sdfw: 47 Read\n"),
    (
        "a folder, and the graph file in it",
        "run @/ in out --why",
        "5 sdfw: 47 Read\n  \"…/\": Is a directory (os error 21)\n  GRAPH is a file, such as …/graph.toml\n  sdfw explain 47 \
         says what to do\n",
    ),
    (
        "a coefficient file that is not there",
        "run @/graph.toml @/in.wav @/old.wav",
        "3 sdfw: 58 NoFile file one.toml\n",
    ),
    (
        "a sound that is not there",
        "run @/plain.toml /nonexistent/in.wav @/old.wav",
        "5 sdfw: 47 Read\n",
    ),
    (
        "a file that can't be made, for a program that blames it on the reader",
        "run @/plain.toml @/in.wav /nonexistent/out.wav",
        "5 sdfw: 48 Write\n",
    ),
];

/// Two designs, one without its coefficient file, and a file that no run writes.
const WITHOUT_TAPS: &[(&str, &str)] = &[
    ("graph.toml", FILTERED),
    ("plain.toml", PLAIN),
    ("old.wav", "old"),
];

/// Runs the lines of `LACKING` in `folder`, and checks that the old file is as it was.
fn are_lacking<T: Threads + AllocGlobal + Clock + Clone + Drop + Sync>(
    rt: &HostRuntime,
    threads: &T,
    folder: &str,
) -> Result<(), Fail> {
    put_texts(rt, folder, WITHOUT_TAPS)?;
    put(rt, folder, "in.wav", SOUND)?;
    expect_rows(&Disk { rt }, threads, folder, LACKING)?;
    has_bytes(rt, folder, "old.wav", b"old", "all")
}

#[test]
fn files_that_are_not_there(rt: HostRuntime) -> Result<(), Fail> {
    let folder = folder(&rt, "lacks")?;
    are_lacking(&rt, &rt, &folder)
}

/// A converter that is written into a folder, whether it is there or not, and a check of its design.
const MADE: &[Row] = &[
    (
        "a converter",
        "resample 8000 8000 @",
        "0 made …/graph.toml\nrun it: sdfw run …/graph.toml IN.wav OUT.wav\n",
    ),
    ("its design", "check @/graph.toml", "0 "),
];

/// Makes designs in the folder `path`, which is not there at first, and is empty then.
fn is_made<T: Threads + AllocGlobal + Clock + Clone + Drop + Sync>(
    rt: &HostRuntime,
    threads: &T,
    path: &str,
) -> Result<(), Fail> {
    let _ = fs::remove_dir_all(rt, path);
    expect_rows(&Disk { rt }, threads, path, MADE)?;
    fs::remove_dir_all(rt, path)?;
    fs::create_dir(rt, path)?;
    expect_rows(&Disk { rt }, threads, path, MADE)
}

/// Tests folders of designs. Refuses a folder that is not made or has no design, and one that is there and made again.
#[test]
fn folders_are_made(rt: HostRuntime) -> Result<(), Fail> {
    let above = folder(&rt, "making")?;
    let path = path_in(rt.alloc(), &above, "new")?;
    is_made(&rt, &rt, &path)
}

/// A file that gives `left` bytes, and then is out of memory.
#[derive(Clone, Copy)]
struct Long {
    left: usize,
}

impl Read for Long {
    fn read(&mut self, buf: &mut [u8]) -> io::Result<usize> {
        if self.left == 0 {
            return Err(Error::from(ErrorKind::OutOfMemory));
        }
        let many = buf.len().min(self.left);
        buf[..many].fill(7);
        self.left -= many;
        Ok(many)
    }
}

/// The name of the error for a file past its limit.
const TOO_LARGE: &str = "too large";

/// Returns the text of `fault`.
fn text_of(alloc: Global, fault: Fault) -> Result<String, Fail> {
    fault_text(alloc, &fault).map_err(Fail::from)
}

/// Returns the text of a file of which at most `most` bytes may be read, or `TOO_LARGE`.
fn read_told<F: Read + Drop>(alloc: Global, file: F, most: u32) -> Result<String, Fail> {
    match bytes_of(alloc, file, most) {
        Ok(bytes) => Ok(String::from_utf8(bytes)?),
        Err(error) if error.kind() == ErrorKind::FileTooLarge => Ok(String::from_str(
            alloc, TOO_LARGE,
        )?),
        Err(error) => Err(Fail::from(error)),
    }
}

/// Loads a file that may have `most` bytes, and returns `loaded` or the fault.
fn loaded(rt: &HostRuntime, path: &str, most: u32) -> Result<String, Fail> {
    let mut sources = Sources::new(rt.alloc());
    match load_into(rt.alloc(), &Disk { rt }, path, most, &mut sources) {
        Ok(loaded) => {
            drop(loaded);
            String::from_str(rt.alloc(), "loaded").map_err(Fail::from)
        }
        Err(fault) => text_of(rt.alloc(), fault),
    }
}

/// Returns how many bytes are read of a file of a million.
fn long_told(alloc: Global) -> Result<String, Fail> {
    let file = vec![in alloc; b'x'; 1_000_000]?;
    let read = read_told(alloc, file.as_slice(), MAX_BYTES)?;
    format!(in alloc; "{}", read.len()).map_err(Fail::from)
}

/// How many bytes of `samples` may be read, and the result. Refuses a program that cuts a longer file.
const LIMITS: &[(u32, &str)] = &[
    (0, TOO_LARGE),
    (6, TOO_LARGE),
    (7, "samples"),
    (8, "samples"),
];

/// Loads the graph file at `path`, which is `PLAIN`, with its length as the limit, and with a byte less.
fn is_loaded(rt: &HostRuntime, path: &str) -> Result<(), Fail> {
    let len = u32::try_from(PLAIN.len()).unwrap_or(0);
    row_says("a graph file", loaded(rt, path, len), "loaded")?;
    row_says(
        "a longer one",
        loaded(rt, path, len.saturating_sub(1)),
        "sdfw: 47 Read\n",
    )
}

/// Tests the limit on a file. Refuses a file that is read past its limit before it is refused: it may have no end, and
/// only one byte past the limit is asked for. Refuses also an out-of-memory fault for a long file.
#[test]
fn files_are_read_to_their_limit(rt: HostRuntime) -> Result<(), Fail> {
    let alloc = rt.alloc();
    row_says(
        "a long one",
        read_told(alloc, Long { left: 8 }, 7),
        TOO_LARGE,
    )?;
    row_says("a million bytes", long_told(alloc), "1000000")?;
    for (most, wanted) in LIMITS {
        says(read_told(alloc, b"samples".as_slice(), *most), wanted)?;
    }
    let folder = folder(&rt, "long")?;
    put(&rt, &folder, "graph.toml", PLAIN.as_bytes())?;
    let path = path_in(alloc, &folder, "graph.toml")?;
    is_loaded(&rt, &path)
}
