//! Tests of an OUT that has content: it stays as it was until a run has ended well.

use crate::commands::{Around, OPEN_AROUND, Row, expect_text, given_of, serve_over};
use crate::files::{
    HALVES, PLAIN, expect_rows, has_bytes, is_gone, path_in, put, put_texts, stand, told,
    with_files,
};
use crate::left::Full;
use crate::overwriting::put_link;
use crate::shelf::{HEADER, SOUND};
use sdf_io::files::put as put_all;
use sdf_io::replacing::Part;
use sdf_io::storage::Disk;
use std::alloc::Global;
use std::fs::{self, Permissions};
use std::os::unix::fs::PermissionsExt;
use std::test::Fail;
use std::thread::Threads;
use std::time::Clock;

/// An old sound, longer than what runs of the tests write.
const OLD: &str = "RIFF, an old sound that is longer than the one that takes its place";

/// Files that a run finds beside GRAPH and IN.
const THERE: &[(&str, &str)] = &[
    ("old.wav", OLD),
    ("new.wav", "RF64, and more"),
    ("wave64.wav", "riff, and more"),
    ("mine.wav", OLD),
    ("mine.wav.part", "mine"),
    ("empty.wav", ""),
    ("notes.txt", "notes"),
    ("short.wav", "RIF"),
    ("plain.toml", PLAIN),
];

/// Runs that fail over an old sound. Refuses a program that empties OUT before it knows how the run ends.
const FAILING: &[Row] = &[
    (
        "a sound that ends too soon",
        "run @/graph.toml @/cut.wav @/old.wav",
        "4 sdfw: 43 Truncated\n",
    ),
    (
        "the same over rings",
        "run @/graph.toml @/cut.wav @/old.wav --runner rings",
        "4 sdfw: 43 Truncated\n",
    ),
    (
        "the same in parts",
        "run @/graph.toml @/cut.wav @/old.wav --parallel 2",
        "4 sdfw: 43 Truncated\n",
    ),
    (
        "two designs",
        "run @/graph.toml @/plain.toml @/old.wav",
        "4 sdfw: 34 NotRiff\n",
    ),
    (
        "by a link",
        "run @/graph.toml @/plain.toml @/old-link.wav",
        "4 sdfw: 34 NotRiff\n",
    ),
];

/// Runs whose OUT has content and is not a sound. Refuses a program that takes the place of any file.
const NO_SOUNDS: &[Row] = &[
    (
        "a design in place of OUT",
        "run @/graph.toml @/in.wav @/plain.toml",
        "2 error: OUT is no WAV file: …/plain.toml\n",
    ),
    (
        "a text",
        "run @/graph.toml @/in.wav @/notes.txt",
        "2 error: OUT is no WAV file: …/notes.txt\n",
    ),
    (
        "less than four bytes",
        "run @/graph.toml - @/short.wav",
        "2 error: OUT is no WAV file: …/short.wav\n",
    ),
];

/// Runs that end well, and the files that they write.
const REPLACED: &[(&str, &str)] = &[
    ("run @/graph.toml @/in.wav @/old.wav", "old.wav"),
    ("run @/graph.toml @/in.wav @/new.wav", "new.wav"),
    ("run @/graph.toml @/in.wav @/wave64.wav", "wave64.wav"),
    ("run @/graph.toml @/in.wav @/mine.wav", "mine.wav"),
    ("run @/graph.toml @/in.wav @/empty.wav", "empty.wav"),
    ("run @/graph.toml @/in.wav @/made.wav", "made.wav"),
];

/// Puts the files of `THERE`, and links to `old.wav`, into a folder.
fn put_there(rt: &HostRuntime, folder: &str) -> Result<(), Fail> {
    let _ = fs::remove_file(rt, path_in(rt.alloc(), folder, "made.wav")?.as_str());
    put(rt, folder, "cut.wav", HEADER)?;
    put_texts(rt, folder, THERE)?;
    put_link(rt, folder, "old.wav", "old-link.wav")
}

/// Fails if a file of `THERE` other than `written` is not as it was put there, or if a part of one is left.
fn stay(rt: &HostRuntime, folder: &str, written: &str, line: &str) -> Result<(), Fail> {
    for (name, text) in THERE {
        if *name != written {
            has_bytes(rt, folder, name, text.as_bytes(), line)?;
        }
    }
    for part in ["old.wav.part", "mine.wav.part2", "new.wav.part"] {
        is_gone(rt, path_in(rt.alloc(), folder, part)?.as_str())?;
    }
    stand(rt, folder, line)
}

/// Runs lines that write nothing, and checks that all files are as they were.
fn are_kept<T: Threads + AllocGlobal + Clock + Clone + Drop + Sync>(
    rt: &HostRuntime,
    threads: &T,
    folder: &str,
    rows: &[Row],
) -> Result<(), Fail> {
    for (name, line, wanted) in rows {
        expect_text(name, told(&Disk { rt }, threads, folder, line), wanted)?;
        stay(rt, folder, "", line)?;
    }
    Ok(())
}

/// Runs the lines of `REPLACED`, each over the same files, and checks that only the wanted one is written.
fn are_replaced<T: Threads + AllocGlobal + Clock + Clone + Drop + Sync>(
    rt: &HostRuntime,
    threads: &T,
    folder: &str,
) -> Result<(), Fail> {
    for (line, file) in REPLACED {
        expect_text(line, told(&Disk { rt }, threads, folder, line), "0 ")?;
        has_bytes(rt, folder, file, HALVES, line)?;
        stay(rt, folder, file, line)?;
        put_there(rt, folder)?;
    }
    Ok(())
}

/// Tests files at OUT. Refuses a run that fails and changes one, and one that takes the name of a part that is there.
#[test]
fn old_sounds(rt: HostRuntime) -> Result<(), Fail> {
    let folder = with_files(&rt, "replacing")?;
    put_there(&rt, &folder)?;
    are_kept(&rt, &rt, &folder, FAILING)?;
    are_kept(&rt, &rt, &folder, NO_SOUNDS)?;
    are_replaced(&rt, &rt, &folder)
}

/// Disks that are full for parts, and the reports. The part can't be created, or has room for some bytes.
const ROOMS: &[Option<usize>] = &[None, Some(0), Some(40), Some(46)];

/// Runs over an old sound on disks that are full for its part.
fn are_kept_on_full<T: Threads + AllocGlobal + Clock + Clone + Drop + Sync>(
    rt: &HostRuntime,
    threads: &T,
    folder: &str,
) -> Result<(), Fail> {
    let line = "run @/graph.toml @/in.wav @/old.wav";
    for room in ROOMS {
        let full = Full {
            host: rt,
            ending: "old.wav.part",
            room: *room,
            keeps: false,
        };
        expect_text(
            "a full disk",
            told(&full, threads, folder, line),
            "5 sdfw: 48 Write\n",
        )?;
        stay(rt, folder, "", line)?;
    }
    Ok(())
}

/// Tests a disk that gets full. Refuses a program that leaves the part, or half a sound at OUT.
#[test]
fn old_sounds_on_a_full_disk(rt: HostRuntime) -> Result<(), Fail> {
    let folder = with_files(&rt, "full-disk")?;
    put_there(&rt, &folder)?;
    are_kept_on_full(&rt, &rt, &folder)
}

/// Runs that fail, and an OUT that is empty or not there. It keeps what was written.
const WRITTEN: &[(&str, &str)] = &[
    ("run @/graph.toml @/cut.wav @/empty.wav", "empty.wav"),
    ("run @/graph.toml @/cut.wav @/made.wav", "made.wav"),
];

/// Runs the lines of `WRITTEN`, and checks that OUT has the header.
fn have_headers<T: Threads + AllocGlobal + Clock + Clone + Drop + Sync>(
    rt: &HostRuntime,
    threads: &T,
    folder: &str,
) -> Result<(), Fail> {
    for (line, file) in WRITTEN {
        let failed = "4 sdfw: 43 Truncated\n";
        expect_text(line, told(&Disk { rt }, threads, folder, line), failed)?;
        has_bytes(rt, folder, file, HEADER, line)?;
    }
    Ok(())
}

/// Tests an OUT without content. Refuses a program that writes beside it, so that nothing is left after a fault.
#[test]
fn empty_files(rt: HostRuntime) -> Result<(), Fail> {
    let folder = with_files(&rt, "empty")?;
    put_there(&rt, &folder)?;
    have_headers(&rt, &rt, &folder)
}

/// A sound on standard input.
const GIVEN: &Around<'static> = &Around {
    stdin: SOUND,
    ..OPEN_AROUND
};

/// Runs a design on standard input over the file that it comes from, and returns the report.
fn told_over_itself<T: Threads + AllocGlobal + Clock + Clone + Drop + Sync>(
    rt: &HostRuntime,
    threads: &T,
    folder: &str,
) -> Result<String, Fail> {
    let given = given_of(threads.alloc(), "run @/graph.toml - @/in.wav", folder)?;
    let served = serve_over(&Disk { rt }, threads, GIVEN, Ok(given));
    served.errors(threads.alloc())
}

/// Runs a design over a second hard link to IN, by a symbolic link and over a file with permissions of its own.
fn replaces_by_links<T: Threads + AllocGlobal + Clock + Clone + Drop + Sync>(
    rt: &HostRuntime,
    threads: &T,
    folder: &str,
) -> Result<(), Fail> {
    let rows: &[Row] = &[
        ("a hard link", "run @/graph.toml @/in.wav @/hard.wav", "0 "),
        (
            "a symbolic link",
            "run @/graph.toml @/in.wav @/old-link.wav",
            "0 ",
        ),
    ];
    expect_rows(&Disk { rt }, threads, folder, rows)?;
    for file in ["hard.wav", "old.wav", "old-link.wav"] {
        has_bytes(rt, folder, file, HALVES, "links")?;
    }
    stand(rt, folder, "links")?;
    expect_text("itself", told_over_itself(rt, threads, folder), "0 ")?;
    has_bytes(rt, folder, "in.wav", HALVES, "itself")
}

/// Describes the symbolic link `old-link.wav`, and the permissions of the file that it leads to.
fn link_told(rt: &HostRuntime, folder: &str) -> Result<String, Fail> {
    let link = path_in(rt.alloc(), folder, "old-link.wav")?;
    let is_link = fs::symlink_metadata(rt, link.as_str())?.is_symlink();
    let mode = fs::metadata(rt, link.as_str())?.permissions().mode() & 0o777;
    format!(in rt.alloc(); "{is_link} {mode:o}").map_err(Fail::from)
}

/// Makes a second hard link to IN, and gives the old sound permissions of its own.
fn put_hard_link(rt: &HostRuntime, folder: &str) -> Result<(), Fail> {
    let hard = path_in(rt.alloc(), folder, "hard.wav")?;
    let _ = fs::remove_file(rt, hard.as_str());
    fs::hard_link(
        rt,
        path_in(rt.alloc(), folder, "in.wav")?.as_str(),
        hard.as_str(),
    )?;
    let old = path_in(rt.alloc(), folder, "old.wav")?;
    Ok(fs::set_permissions(rt, old.as_str(), Permissions::from_mode(0o640))?)
}

/// Tests links and permissions. Refuses a program that empties IN by its second name, replaces a link by a file, or
/// lets others read a file that they could not read.
#[test]
fn links_and_permissions(rt: HostRuntime) -> Result<(), Fail> {
    let folder = with_files(&rt, "links")?;
    put_there(&rt, &folder)?;
    put_hard_link(&rt, &folder)?;
    replaces_by_links(&rt, &rt, &folder)?;
    expect_text("the link", link_told(&rt, &folder), "true 640")
}

/// Writes `bytes` twice into a part of `place`, and moves it there.
fn put_part(rt: &HostRuntime, place: &str, bytes: &[u8]) -> Result<(), Fail> {
    let alloc: Global = rt.alloc();
    let mut refused = Vec::new(alloc);
    let storage = Disk { rt };
    let named = String::from_str(alloc, place)?;
    let (part, mut file) = Part::create(alloc, &storage, named, &mut refused)?;
    put_all(&mut file, bytes)?;
    put_all(&mut file, bytes)?;
    drop(file);
    Ok(part.finish(alloc, &storage, Ok(()), &mut refused)?)
}

/// Writes a part of `place`. Another part is written whole and moved there in the middle of it.
fn put_around(rt: &HostRuntime, place: &str) -> Result<(), Fail> {
    let alloc: Global = rt.alloc();
    let mut refused = Vec::new(alloc);
    let storage = Disk { rt };
    let named = String::from_str(alloc, place)?;
    let (part, mut file) = Part::create(alloc, &storage, named, &mut refused)?;
    put_all(&mut file, b"first")?;
    put_part(rt, place, b"second")?;
    put_all(&mut file, b"first")?;
    drop(file);
    Ok(part.finish(alloc, &storage, Ok(()), &mut refused)?)
}

/// Tests two runs over one OUT at once. Refuses parts by one name, in which the bytes of both are mixed.
#[test]
fn parts_at_once(rt: HostRuntime) -> Result<(), Fail> {
    let folder = with_files(&rt, "parts")?;
    let place = path_in(rt.alloc(), &folder, "both.wav")?;
    put_around(&rt, place.as_str())?;
    has_bytes(&rt, &folder, "both.wav", b"firstfirst", "the first")
}
