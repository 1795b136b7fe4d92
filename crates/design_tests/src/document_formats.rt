//! The kinds that only format 2 has, in documents of formats 1 and 2.

use crate::documents::{GAIN, GRAPH, read};
use std::alloc::Global;
use std::test::Fail;
use test_texts::row_says;

/// Reads the graph in format 2, with `kind` in place of its gain.
fn read_second(alloc: Global, kind: &str) -> Result<String, Fail> {
    let text = GRAPH.replace(alloc, "format = 1", "format = 2")?;
    read(alloc, text.as_str(), GAIN, kind, &[])
}

/// A kind that only format 2 has, and what is read.
const KINDS: &[(&str, &str)] = &[
    ("kind = \"deal\"\nways = 2", "Deal { ways: 2, run: 1 }"),
    (
        "kind = \"gather\"\nways = 16\nrun = 64",
        "Gather { ways: 16, run: 64 }",
    ),
    (
        "kind = \"clip\"\ngreatest = -5",
        "Clip { least: -32768, greatest: -5 }",
    ),
    (
        "kind = \"offset\"\nvalue = -32768",
        "Offset { value: -32768 }",
    ),
];

/// A kind of format 1, and then kinds with their faults.
const MORE: &[(&str, &str)] = &[
    (GAIN, "Gain { gain: -32768, shift: 15 }"),
    (
        "kind = \"deal\"\nways = 2\nrun = 0",
        "28 KitValue actor 1 key run",
    ),
    (
        "kind = \"gather\"\nways = 2\nrun = 65",
        "28 KitValue actor 1 key run",
    ),
    (
        "kind = \"deal\"\nways = 17\nrun = 0",
        "28 KitValue actor 1 key ways",
    ),
    (
        "kind = \"gather\"\nways = 1",
        "28 KitValue actor 1 key ways",
    ),
    (
        "kind = \"gather\"\nrun = 0",
        "52 MissingKey actor 1 key ways",
    ),
    (
        "kind = \"deal\"\nways = 2\nrun = 1.0\nprocessor = 16",
        "53 WrongType actor 1 key run",
    ),
    (
        "kind = \"deal\"\nways = 2\nprocessor = 16",
        "28 KitValue actor 1 key processor",
    ),
    (
        "kind = \"fork\"\nways = 2\nrun = 1",
        "51 UnknownKey actor 1 key run",
    ),
    (
        "kind = \"clip\"\nleast = 32768\ngreatest = 32768",
        "28 KitValue actor 1 key least",
    ),
    (
        "kind = \"clip\"\nleast = -4\ngreatest = -5\nprocessor = 16",
        "28 KitValue actor 1 key greatest",
    ),
    (
        "kind = \"clip\"\nleast = -4\ngreatest = 32768",
        "28 KitValue actor 1 key greatest",
    ),
    (
        "kind = \"offset\"\nvalue = -32769",
        "28 KitValue actor 1 key value",
    ),
    (
        "kind = \"offset\"\noffset = 1\nvalue = 1",
        "51 UnknownKey actor 1 key offset",
    ),
    ("kind = \"offset\"", "52 MissingKey actor 1 key value"),
];

#[test]
fn reads_the_kinds_of_format_two(rt: HostRuntime) -> Result<(), Fail> {
    let alloc = rt.alloc();
    for (kind, wanted) in KINDS {
        row_says(
            kind,
            read(alloc, GRAPH, GAIN, kind, &[]),
            "56 UnknownKind actor 1",
        )?;
        row_says(kind, read_second(alloc, kind), wanted)?;
    }
    for (kind, wanted) in MORE {
        row_says(kind, read_second(alloc, kind), wanted)?;
    }
    Ok(())
}
