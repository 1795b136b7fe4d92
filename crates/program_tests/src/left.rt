//! Tests of what `resample` leaves on a disk that is full: nothing, or files that it names. A run leaves an old OUT.

use crate::commands::{TERMINAL, expect_text, given_of, serve_over};
use crate::files::{folder, has_bytes, is_gone, path_in, put, told};
use sdf_io::storage::{Disk, Storage};
use std::alloc::Global;
use std::fs::{self, File};
use std::io::{self, Error, ErrorKind, Write};
use std::path::PathBuf;
use std::test::Fail;
use std::thread::Threads;
use std::time::Clock;

/// A disk that is full for files whose path ends with `ending`: they have room for `room` bytes, or can't be made if
/// it is `None`. If `keeps` is set, nothing can be removed.
#[derive(Clone, Copy)]
pub(crate) struct Full<'a> {
    pub(crate) host: &'a HostRuntime,
    pub(crate) ending: &'a str,
    pub(crate) room: Option<usize>,
    pub(crate) keeps: bool,
}

/// A file that has room for `room` more bytes.
#[derive(Drop)]
pub(crate) struct Short {
    file: File,
    room: usize,
}

impl Write for Short {
    fn write(&mut self, bytes: &[u8]) -> io::Result<usize> {
        if self.room == 0 {
            return Err(Error::from(ErrorKind::StorageFull));
        }
        let many = bytes.len().min(self.room);
        let count = self.file.write(&bytes[..many])?;
        self.room = self.room.saturating_sub(count);
        Ok(count)
    }

    fn flush(&mut self) -> io::Result<()> {
        self.file.flush()
    }
}

impl<'a> Full<'a> {
    /// Returns the disk as it is otherwise.
    fn disk(&self) -> Disk<'a, HostRuntime> {
        Disk { rt: self.host }
    }

    /// Returns the room for the file at `path`, if it can be made.
    fn room_for(&self, path: &str) -> Option<usize> {
        if path.ends_with(self.ending) {
            self.room
        } else {
            Some(usize::MAX)
        }
    }
}

impl Storage for Full<'_> {
    type Source = File;

    type Sink = Short;

    fn open(&self, path: &str) -> io::Result<File> {
        self.disk().open(path)
    }

    fn create(&self, path: &str) -> io::Result<Short> {
        let Some(room) = self.room_for(path) else {
            return Err(Error::from(ErrorKind::StorageFull));
        };
        let file = self.disk().create(path)?;
        Ok(Short { file, room })
    }

    fn create_new(&self, path: &str) -> io::Result<Short> {
        let Some(room) = self.room_for(path) else {
            return Err(Error::from(ErrorKind::StorageFull));
        };
        let file = self.disk().create_new(path)?;
        Ok(Short { file, room })
    }

    fn has_content(&self, path: &str) -> bool {
        self.disk().has_content(path)
    }

    fn test_write(&self, path: &str) -> io::Result<()> {
        self.disk().test_write(path)
    }

    fn copy_permissions(&self, from: &str, to: &str) -> io::Result<()> {
        self.disk().copy_permissions(from, to)
    }

    fn create_folder(&self, path: &str) -> io::Result<()> {
        self.disk().create_folder(path)
    }

    fn rename(&self, from: &str, to: &str) -> io::Result<()> {
        self.disk().rename(from, to)
    }

    fn remove(&self, path: &str) -> io::Result<()> {
        if self.keeps {
            return Err(Error::from(ErrorKind::PermissionDenied));
        }
        self.disk().remove(path)
    }

    fn remove_folder(&self, path: &str) -> io::Result<()> {
        if self.keeps {
            return Err(Error::from(ErrorKind::PermissionDenied));
        }
        self.disk().remove_folder(path)
    }

    fn canonical_path(&self, alloc: Global, path: &str) -> io::Result<PathBuf> {
        self.disk().canonical_path(alloc, path)
    }
}

/// A converter with one coefficient file and a graph file.
const LINE: &str = "resample 8000 16000 @ --attenuation 40 --fast";

/// Files that don't fit on the disk, and the room for each.
const ROWS: &[(&str, Option<usize>)] = &[
    ("stage1.toml", None),
    ("stage1.toml", Some(40)),
    ("graph.toml", None),
    ("graph.toml", Some(40)),
];

/// Checks that a converter is refused if it is written into `path` on the full disk. `name` is the name of the check.
fn is_refused<T: Threads + AllocGlobal + Clock + Clone + Drop + Sync>(
    full: &Full<'_>,
    threads: &T,
    name: &str,
    path: &str,
) -> Result<(), Fail> {
    expect_text(name, told(full, threads, path, LINE), "5 …sdfw: 48 Write\n")
}

/// Writes a converter into `path` on the full disk, and then on one with room.
fn is_tried_again<T: Threads + AllocGlobal + Clock + Clone + Drop + Sync>(
    full: &Full<'_>,
    threads: &T,
    path: &str,
) -> Result<(), Fail> {
    is_refused(full, threads, full.ending, path)?;
    expect_text("again", told(&full.disk(), threads, path, LINE), "0 …")
}

/// Checks that a refused converter leaves nothing: no folder that it made, an empty folder that was there before, and
/// only the old file in one that has a file.
fn leaves_nothing<T: Threads + AllocGlobal + Clock + Clone + Drop + Sync>(
    full: &Full<'_>,
    threads: &T,
    path: &str,
) -> Result<(), Fail> {
    let _ = fs::remove_dir_all(full.host, path);
    is_refused(full, threads, full.ending, path)?;
    is_gone(full.host, path)?;
    fs::create_dir(full.host, path)?;
    is_refused(full, threads, "an empty folder", path)?;
    // This fails if the folder is no longer there.
    put(full.host, path, "notes", b"kept")?;
    is_tried_again(full, threads, path)?;
    has_bytes(full.host, path, "notes", b"kept", LINE)
}

/// Returns the report at a terminal of a converter that is written into the folder `path`.
fn told_at_terminal<T: Threads + AllocGlobal + Clock + Clone + Drop + Sync>(
    full: &Full<'_>,
    threads: &T,
    path: &str,
) -> Result<String, Fail> {
    let given = given_of(threads.alloc(), LINE, path)?;
    let served = serve_over(full, threads, TERMINAL, Ok(given));
    served.errors(threads.alloc())
}

/// Tests a converter on a disk from which nothing can be removed, and that it names what is left.
fn names_what_is_left<T: Threads + AllocGlobal + Clock + Clone + Drop + Sync>(
    rt: &HostRuntime,
    threads: &T,
    path: &str,
) -> Result<(), Fail> {
    let _ = fs::remove_dir_all(rt, path);
    let full = Full {
        host: rt,
        ending: "graph.toml",
        room: Some(40),
        keeps: true,
    };
    expect_text(
        "what is left",
        told_at_terminal(&full, threads, path),
        "5 …sdfw: 48 Write\n  \"…/graph.toml\": no storage space\n  \"…/graph.toml\": is left, since it can't be \
         removed: permission denied\n  \"…/stage1.toml\": is left, since it can't be removed: permission denied\n  \
         \"…/new\": is left, since it can't be removed: permission denied\n  sdfw explain 48 says what to do\n",
    )
}

/// Tests converters that are refused. Refuses a program that leaves a file of them, so that a second try is refused,
/// and one that removes a folder or a file that it did not make. Refuses also one that does not name what it leaves.
#[test]
fn what_a_refused_converter_leaves(rt: HostRuntime) -> Result<(), Fail> {
    let above = folder(&rt, "left")?;
    let path = path_in(rt.alloc(), &above, "new")?;
    for (ending, room) in ROWS {
        let full = Full {
            host: &rt,
            ending,
            room: *room,
            keeps: false,
        };
        leaves_nothing(&full, &rt, &path)?;
    }
    names_what_is_left(&rt, &rt, &path)
}
