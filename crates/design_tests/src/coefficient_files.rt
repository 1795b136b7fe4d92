//! Coefficient files of documents: which ones are named, what they say, and their faults.

use crate::documents::{GAIN, GRAPH, read};
use crate::readings::{files, told};
use sdf_document::file_names;
use std::alloc::Global;
use std::test::Fail;
use test_texts::{row_says, says};

const FILED: &str = "kind = \"fir\"\nshift = 15\nfile = \"h.toml\"";

/// Reads the graph with `kind` in place of its gain, and with files of the names and texts in `rows`.
fn read_beside(alloc: Global, rows: &[(&str, &str)], kind: &str) -> Result<String, Fail> {
    let files = files(alloc, rows)?;
    read(alloc, GRAPH, GAIN, kind, files.as_slice())
}

/// Files as names and texts, a kind, and what is read with them, or the fault.
const FILES: &[(&[(&str, &str)], &str, &str)] = &[
    (
        &[
            ("h.toml", "format = 1\nvalues = [1, 2, -3]\n"),
            ("h.toml", "format = 1\nvalues = [4]\n"),
        ],
        FILED,
        "Fir { up: 1, down: 1, shift: 15, taps: ListEntry { file: Some(\"h.toml\"), values: [1, 2, -3] } }",
    ),
    (&[("g.toml", "")], FILED, "58 NoFile file h.toml"),
    (
        &[("h.toml", "format = 1\nvalue = [1]\n")],
        FILED,
        "51 UnknownKey file h.toml key value",
    ),
    (
        &[("h.toml", "format = 1\n")],
        FILED,
        "52 MissingKey file h.toml key values",
    ),
    (
        &[("h.toml", "format = 2\n")],
        FILED,
        "50 Format file h.toml",
    ),
    (&[("h.toml", "[")], FILED, "49 NotToml file h.toml"),
    (
        &[("h.toml", "format = 1\nvalues = [0.5]\n")],
        FILED,
        "53 WrongType file h.toml key values",
    ),
    (
        &[("h.toml", "format = 1\nvalues = [40000]\n")],
        FILED,
        "28 KitValue actor 1 key file",
    ),
    (
        &[("h.toml", "format = 1\nvalues = []\n")],
        FILED,
        "28 KitValue actor 1 key file",
    ),
    (
        &[("h.toml", "")],
        "kind = \"fir\"\nshift = 1\nfile = \"../h\"",
        "54 BadName actor 1 key file",
    ),
    (
        &[("h.toml", "")],
        "kind = \"fir\"\nshift = 1\nfile = 1",
        "53 WrongType actor 1 key file",
    ),
    (
        &[("h.toml", "")],
        "kind = \"fir\"\nshift = 1\nfile = \"h.toml\"\ntaps = [1]",
        "51 UnknownKey actor 1 key file",
    ),
    (
        &[("h.toml", "")],
        "kind = \"fir\"\nshift = 1",
        "52 MissingKey actor 1 key taps",
    ),
    (
        &[("h.toml", "")],
        "kind = \"table\"\noffset = 1",
        "52 MissingKey actor 1 key values",
    ),
];

/// A graph with two filters that name one file, and a table that names another.
const WANTING: &str = "format = 1
[[actor]]
name = \"in\"
kind = \"input\"
channel = 0
[[actor]]
name = \"g\"
kind = \"fir\"
shift = 15
file = \"h.toml\"
[[actor]]
name = \"out\"
kind = \"table\"
offset = 0
file = \"t.toml\"
[[actor]]
name = \"again\"
kind = \"fir\"
shift = 0
file = \"h.toml\"
[[link]]
from = \"in\"
to = \"g:0\"
[[link]]
from = \"g\"
to = \"out\"
initial = [1, -2]
";

#[test]
fn reads_and_names_coefficient_files(rt: HostRuntime) -> Result<(), Fail> {
    let alloc = rt.alloc();
    for (files, kind, wanted) in FILES {
        row_says(kind, read_beside(alloc, files, kind), wanted)?;
    }
    says(
        told(alloc, file_names(alloc, WANTING.as_bytes())),
        "[\"h.toml\", \"t.toml\"]",
    )?;
    says(
        told(alloc, file_names(alloc, b"format = 3")),
        "50 Format top",
    )
}
