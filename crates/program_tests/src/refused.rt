//! Tests of opens that are refused, for lack of memory or for another cause.

use crate::files::{told, with_files};
use sdf_io::storage::Disk;
use std::alloc::Allocator;
use std::fs::{File, Metadata, OpenOptions};
use std::io::{self, Error, ErrorKind};
use std::rt::Files;
use std::test::Fail;
use std::thread::Threads;
use std::time::Clock;
use test_texts::row_says;

/// A file system that refuses to open files whose paths end with `ending`.
#[derive(Clone, Copy)]
struct Refusing<'a> {
    host: &'a HostRuntime,
    ending: &'a str,
    kind: ErrorKind,
}

impl Refusing<'_> {
    fn error(&self) -> Error {
        Error::from(self.kind)
    }
}

impl Files for Refusing<'_> {
    type File = File;

    type Dir = File;

    fn open_file(&self, how: &OpenOptions, path: &str) -> io::Result<File> {
        if path.ends_with(self.ending) {
            return Err(self.error());
        }
        how.open(self.host, path)
    }

    fn open_dir(&self, _path: &str) -> io::Result<File> {
        Err(self.error())
    }

    fn metadata(&self, _path: &str) -> io::Result<Metadata> {
        Err(self.error())
    }

    fn symlink_metadata(&self, _path: &str) -> io::Result<Metadata> {
        Err(self.error())
    }

    fn copy(&self, _from: &str, _to: &str) -> io::Result<u64> {
        Err(self.error())
    }

    fn rename(&self, _from: &str, _to: &str) -> io::Result<()> {
        Err(self.error())
    }

    fn remove_file(&self, _path: &str) -> io::Result<()> {
        Err(self.error())
    }

    fn create_dir(&self, _path: &str) -> io::Result<()> {
        Err(self.error())
    }

    fn remove_dir(&self, _path: &str) -> io::Result<()> {
        Err(self.error())
    }

    fn remove_dir_all<B: Allocator>(&self, _alloc: B, _path: &str) -> io::Result<()> {
        Err(self.error())
    }
}

/// The ending of a path, why the file is refused, and how a run ends then.
const ROWS: &[(&str, ErrorKind, &str)] = &[
    (
        "graph.toml",
        ErrorKind::PermissionDenied,
        "5 sdfw: 47 Read\n",
    ),
    (
        "graph.toml",
        ErrorKind::OutOfMemory,
        "6 sdfw: 1 OutOfMemory\n",
    ),
    (
        "one.toml",
        ErrorKind::PermissionDenied,
        "3 sdfw: 58 NoFile file one.toml\n",
    ),
    (
        "one.toml",
        ErrorKind::OutOfMemory,
        "6 sdfw: 1 OutOfMemory\n",
    ),
    ("in.wav", ErrorKind::PermissionDenied, "5 sdfw: 47 Read\n"),
    ("in.wav", ErrorKind::OutOfMemory, "6 sdfw: 1 OutOfMemory\n"),
    ("out.wav", ErrorKind::PermissionDenied, "5 sdfw: 48 Write\n"),
    ("out.wav", ErrorKind::OutOfMemory, "6 sdfw: 1 OutOfMemory\n"),
];

/// Runs a design in `folder` with each of the opens refused.
fn are_refused<T: Threads + AllocGlobal + Clock + Clone + Drop + Sync>(
    host: &HostRuntime,
    threads: &T,
    folder: &str,
) -> Result<(), Fail> {
    let line = "run @/graph.toml @/in.wav @/out.wav";
    for (ending, kind, wanted) in ROWS {
        let refusing = Refusing {
            host,
            ending,
            kind: *kind,
        };
        row_says(
            ending,
            told(&Disk { rt: &refusing }, threads, folder, line),
            wanted,
        )?;
    }
    Ok(())
}

/// Devices that fail, and how a run ends then. Refuses a program that has other words for it than the system.
const DEVICES: &[(&str, &str)] = &[
    (
        "run @/graph.toml /proc/self/mem @/out.wav --why",
        "5 sdfw: 47 Read\n  \"/proc/self/mem\": Input/output error (os error 5)\n  sdfw explain 47 says what to do\n",
    ),
    (
        "run @/graph.toml @/in.wav /dev/full --why",
        "5 sdfw: 48 Write\n  \"/dev/full\": No space left on device (os error 28)\n  sdfw explain 48 says what to do\n",
    ),
];

#[test]
fn words_of_the_system(rt: HostRuntime) -> Result<(), Fail> {
    let folder = with_files(&rt, "devices")?;
    for (line, wanted) in DEVICES {
        row_says(line, told(&Disk { rt: &rt }, &rt, &folder, line), wanted)?;
    }
    Ok(())
}

#[test]
fn refused_opens(rt: HostRuntime) -> Result<(), Fail> {
    let folder = with_files(&rt, "refused")?;
    are_refused(&rt, &rt, &folder)
}
