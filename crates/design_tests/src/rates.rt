//! The rate of a design: its limits, its faults with their place in the order of tests, and its line in what `check`
//! prints.

use crate::documents::GRAPH;
use sdf_file::{Design, read_design};
use sdf_texts::check_text;
use std::alloc::Global;
use std::test::Fail;
use test_texts::row_says;

/// Returns the rate of `design`, and what `check` prints behind the word `output`.
fn shown(alloc: Global, design: &Design) -> Result<String, Fail> {
    let text = check_text(alloc, design)?;
    let end = match text.as_str().split_once(" output ") {
        Some((_, end)) => end,
        None => "",
    };
    Ok(format!(in alloc; "{:?} {end}", design.rate())?)
}

/// Returns what is shown of the design of `GRAPH` with `new` in place of `old`, or its fault.
fn read(alloc: Global, old: &str, new: &str) -> Result<String, Fail> {
    let text = GRAPH.replace(alloc, old, new)?;
    match read_design(alloc, text.as_bytes(), &[]) {
        Ok(design) => shown(alloc, &design),
        Err(fault) => Ok(fault.to_string(alloc)?),
    }
}

/// The first line of `GRAPH`.
const FIRST: &str = "format = 1";

/// A part of `GRAPH`, the text in its place, and what is shown of the design or its fault.
const ROWS: &[(&str, &str, &str)] = &[
    (FIRST, FIRST, "None 2\n"),
    (FIRST, "format = 1\nrate = 1", "Some(1) 2\nrate 1\n"),
    (
        FIRST,
        "format = 1\nrate = 44100",
        "Some(44100) 2\nrate 44100\n",
    ),
    (
        FIRST,
        "rate = 4294967295\nformat = 1",
        "Some(4294967295) 2\nrate 4294967295\n",
    ),
    (FIRST, "format = 1\nrate = 0", "28 KitValue top key rate"),
    (FIRST, "format = 1\nrate = -1", "28 KitValue top key rate"),
    (
        FIRST,
        "format = 1\nrate = 4294967296",
        "28 KitValue top key rate",
    ),
    (
        FIRST,
        "format = 1\nrate = 44100.0",
        "53 WrongType top key rate",
    ),
    (
        FIRST,
        "format = 1\nrate = [44100]",
        "53 WrongType top key rate",
    ),
    (FIRST, "rate = 44100", "52 MissingKey top key format"),
    (FIRST, "format = 3\nrate = 0", "50 Format top"),
    (
        FIRST,
        "format = 1\nrate = 0\nlate = 1",
        "51 UnknownKey top key late",
    ),
    (
        FIRST,
        "format = 1\nRate = 44100",
        "51 UnknownKey top key Rate",
    ),
    (GRAPH, "format = 1\nrate = 0", "28 KitValue top key rate"),
    (GRAPH, "format = 1\nrate = 1", "52 MissingKey top key actor"),
    (
        "[[actor]]\nname = \"in\"",
        "[[actor]]\nrate = 44100\nname = \"in\"",
        "51 UnknownKey actor 0 key rate",
    ),
];

#[test]
fn designs_have_their_rates(rt: HostRuntime) -> Result<(), Fail> {
    for (old, new, wanted) in ROWS {
        row_says(new, read(rt.alloc(), old, new), wanted)?;
    }
    Ok(())
}
