//! Tests that a run leaves the files that it reads as they are, by whatever path OUT leads to them.

use crate::commands::expect_text;
use crate::files::{HALVES, has_bytes, make_folder, path_in, put, stand, told, with_files};
use sdf_io::storage::Disk;
use std::fs;
use std::io::ErrorKind;
use std::os::unix::fs::symlink;
use std::test::Fail;
use std::thread::Threads;
use std::time::Clock;

/// Puts a symbolic link `link` to `file` into a folder.
pub(crate) fn put_link(rt: &HostRuntime, folder: &str, file: &str, link: &str) -> Result<(), Fail> {
    let path = path_in(rt.alloc(), folder, link)?;
    match fs::remove_file(rt, path.as_str()) {
        Err(error) if error.kind() != ErrorKind::NotFound => return Err(Fail::from(error)),
        _ => {}
    }
    Ok(symlink(rt, file, path.as_str())?)
}

/// Files and their symbolic links.
const LINKS: &[(&str, &str)] = &[
    ("in.wav", "in-link.wav"),
    ("in-link.wav", "link-link.wav"),
    ("one.toml", "taps-link.toml"),
    (".", "folder-link"),
];

/// Puts the links of `LINKS` into a folder.
fn put_links(rt: &HostRuntime, folder: &str) -> Result<(), Fail> {
    for (file, link) in LINKS {
        put_link(rt, folder, file, link)?;
    }
    Ok(())
}

/// Runs whose OUT is a file that they read, and the reports. Refuses a program that makes OUT before it compares, or
/// that does not protect coefficient files.
const READ: &[(&str, &str)] = &[
    (
        "run @/graph.toml @/in.wav @/in.wav",
        "2 error: OUT is the same file as IN\n…",
    ),
    (
        "run @/graph.toml @/in.wav @/./in.wav",
        "2 error: OUT is the same file as IN\n…",
    ),
    (
        "run @/graph.toml @/in.wav @/../sdfw-same/in.wav",
        "2 error: OUT is the same file as IN\n…",
    ),
    (
        "run @/graph.toml @/in.wav @/in-link.wav",
        "2 error: OUT is the same file as IN\n…",
    ),
    (
        "run @/graph.toml @/in.wav @/link-link.wav",
        "2 error: OUT is the same file as IN\n…",
    ),
    (
        "run @/graph.toml @/in.wav @/folder-link/in.wav",
        "2 error: OUT is the same file as IN\n…",
    ),
    (
        "run @/graph.toml @/in.wav @/graph.toml",
        "2 error: OUT is the same file as GRAPH\n…",
    ),
    (
        "run @/graph.toml @/in.wav @/./graph.toml",
        "2 error: OUT is the same file as GRAPH\n…",
    ),
    (
        "run @/graph.toml @/in.wav @/one.toml",
        "2 error: OUT is the same file as the coefficient file one.toml\n…",
    ),
    (
        "run @/graph.toml @/in.wav @/.//one.toml",
        "2 error: OUT is the same file as the coefficient file one.toml\n…",
    ),
    (
        "run @/graph.toml @/in.wav @/taps-link.toml",
        "2 error: OUT is the same file as the coefficient file one.toml\n…",
    ),
];

/// Runs the lines of `READ` in `folder`.
fn are_kept<T: Threads + AllocGlobal + Clock + Clone + Drop + Sync>(
    rt: &HostRuntime,
    threads: &T,
    folder: &str,
) -> Result<(), Fail> {
    put_links(rt, folder)?;
    for (line, wanted) in READ {
        expect_text(line, told(&Disk { rt }, threads, folder, line), wanted)?;
        stand(rt, folder, line)?;
    }
    Ok(())
}

#[test]
fn what_is_read_is_not_written(rt: HostRuntime) -> Result<(), Fail> {
    let folder = with_files(&rt, "same")?;
    are_kept(&rt, &rt, &folder)
}

/// Runs, and the files that they write. A link to another file is written through. A file is written, too, if only its
/// name is the name of a file that is read.
const OTHERS: &[(&str, &str)] = &[
    ("run @/graph.toml @/in.wav @/old-link.wav", "old.wav"),
    ("run @/graph.toml @/in.wav @/inner/in.wav", "inner/in.wav"),
    (
        "run @/graph.toml @/in.wav @/inner/one.toml",
        "inner/one.toml",
    ),
];

/// Makes the folder `inner` in a folder, if it is not there.
fn put_inner(rt: &HostRuntime, folder: &str) -> Result<(), Fail> {
    let path = path_in(rt.alloc(), folder, "inner")?;
    make_folder(rt, &path)
}

/// Runs the lines of `OTHERS` in `folder`.
fn are_written<T: Threads + AllocGlobal + Clock + Clone + Drop + Sync>(
    rt: &HostRuntime,
    threads: &T,
    folder: &str,
) -> Result<(), Fail> {
    put_inner(rt, folder)?;
    put(rt, folder, "old.wav", b"RIFF")?;
    put_link(rt, folder, "old.wav", "old-link.wav")?;
    for (line, file) in OTHERS {
        expect_text(line, told(&Disk { rt }, threads, folder, line), "0 ")?;
        has_bytes(rt, folder, file, HALVES, line)?;
        stand(rt, folder, line)?;
    }
    Ok(())
}

#[test]
fn other_files_are_written(rt: HostRuntime) -> Result<(), Fail> {
    let folder = with_files(&rt, "others")?;
    are_written(&rt, &rt, &folder)
}
