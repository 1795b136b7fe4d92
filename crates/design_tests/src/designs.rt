//! Designs from files, their texts, and their faults.

use crate::readings::{files, told};
use sdf_file::{Design, FileFault, design_files, read_design};
use sdf_texts::check_text;
use std::alloc::{AllocError, Global};
use std::test::Fail;
use test_texts::{row_says, says};

/// A graph file: its format, the name, the kind and the keys of each actor, and the ends of each link.
struct Graph {
    format: u32,
    actors: &'static [(&'static str, &'static str, &'static str)],
    links: &'static [(&'static str, &'static str)],
}

/// An input and an output with different rates.
const TWO: Graph = Graph {
    format: 1,
    actors: &[
        ("in", "input", "channel = 0\nblock = 2\nprocessor = 3\n"),
        ("out", "output", "channel = 0\nblock = 3\ncost = 7\n"),
    ],
    links: &[("in", "out")],
};

/// A filter with its taps in a file.
const FILTER: Graph = Graph {
    format: 1,
    actors: &[
        ("in", "input", "channel = 0\n"),
        (
            "a",
            "fir",
            "up = 3\ndown = 2\nshift = 14\nfile = \"h.toml\"\n",
        ),
        ("out", "output", "channel = 0\n"),
    ],
    links: &[("in", "a"), ("a", "out")],
};

/// An input that is dealt out to two ways by twos, and gathered by ones.
const TURNS: Graph = Graph {
    format: 2,
    actors: &[
        ("in", "input", "channel = 0\n"),
        ("deal", "deal", "ways = 2\nrun = 2\n"),
        ("gather", "gather", "ways = 2\n"),
        ("out", "output", "channel = 0\n"),
    ],
    links: &[
        ("in", "deal"),
        ("deal:0", "gather:0"),
        ("deal:1", "gather:1"),
        ("gather", "out"),
    ],
};

/// Returns the text of `graph`, with `new` in place of `old`.
fn text_of(alloc: Global, graph: &Graph, old: &str, new: &str) -> Result<String, Fail> {
    let mut text = format!(in alloc; "format = {}\n", graph.format)?;
    for (name, kind, keys) in graph.actors {
        write!(
            text,
            "[[actor]]\nname = \"{name}\"\nkind = \"{kind}\"\n{keys}"
        )?;
    }
    for (from, to) in graph.links {
        write!(text, "[[link]]\nfrom = \"{from}\"\nto = \"{to}\"\n")?;
    }
    Ok(text.replace(alloc, old, new)?)
}

/// Returns the number of actors of a design, the name of the second one, the homes and the costs, and what `check`
/// prints.
fn parts(alloc: Global, design: &Design) -> Result<String, Fail> {
    if design.net().len() < 2 {
        return Ok(String::new(alloc));
    }
    let checked = check_text(alloc, design)?;
    Ok(format!(in alloc;
        "{} {} {:?} {:?}\n{checked}",
        design.net().len(),
        design.name(1),
        design.homes(),
        design.costs()
    )?)
}

/// Returns the parts of the design of `graph`, with `new` in place of `old` and with files of the names and texts in
/// `rows`, or the fault.
fn read(
    alloc: Global,
    graph: &Graph,
    old: &str,
    new: &str,
    rows: &[(&str, &str)],
) -> Result<String, Fail> {
    let text = text_of(alloc, graph, old, new)?;
    let files = files(alloc, rows)?;
    match read_design(alloc, text.as_bytes(), files.as_slice()) {
        Ok(design) => parts(alloc, &design),
        Err(fault) => Ok(fault.to_string(alloc)?),
    }
}

/// A graph, a part of its text, the text in its place, and the design or the fault.
const DESIGNS: &[(Graph, &str, &str, &str)] = &[
    (
        TWO,
        "format = 1",
        "format = 1",
        "2 out [Some(3), None] [1, 7]\nactors 2\nlinks 1\nperiod 5\nq in 3\nq out 2\ninput 6 output 6\n",
    ),
    (TWO, "format = 1", "format = 3", "50 Format top"),
    (
        TWO,
        "channel = 0\nblock = 3",
        "channel = 1\nblock = 3",
        "27 NoOutput channel 0",
    ),
    (TWO, "to = \"out\"", "to = \"out:1\"", "20 NoPort link 0"),
    (
        TWO,
        "kind = \"output\"",
        "kind = \"input\"",
        "20 NoPort link 0",
    ),
    (
        TWO,
        "[[link]]",
        "[[link]]\nfrom = \"in\"\nto = \"out\"\n[[link]]",
        "21 PortTwice link 1",
    ),
    (
        TURNS,
        "format = 2",
        "format = 2",
        "4 deal [None, None, None, None] [1, 1, 1, 1]\n\
         actors 4\nlinks 4\nperiod 14\nq in 4\nq deal 2\nq gather 4\nq out 4\ninput 4 output 4\n",
    ),
    (TURNS, "format = 2", "format = 1", "56 UnknownKind actor 1"),
    (FILTER, "h.toml", "h.toml", "58 NoFile file h.toml"),
];

/// Tests designs and their faults, and the text of the fault that memory was refused.
#[test]
fn reads_and_checks_designs(rt: HostRuntime) -> Result<(), Fail> {
    for (graph, old, new, wanted) in DESIGNS {
        row_says(new, read(rt.alloc(), graph, old, new, &[]), wanted)?;
    }
    let refused: Result<Vec<String>, FileFault> = Err(FileFault::from(AllocError));
    says(told(rt.alloc(), refused), "1 OutOfMemory")
}

/// Returns the names of the files that `graph` needs, with `new` in place of `old`, or the fault.
fn wanted_files(alloc: Global, graph: &Graph, old: &str, new: &str) -> Result<String, Fail> {
    let text = text_of(alloc, graph, old, new)?;
    told(alloc, design_files(alloc, text.as_bytes()))
}

#[test]
fn reads_with_coefficient_files(rt: HostRuntime) -> Result<(), Fail> {
    let alloc = rt.alloc();
    says(
        wanted_files(alloc, &FILTER, "h.toml", "h.toml"),
        "[\"h.toml\"]",
    )?;
    says(
        wanted_files(alloc, &FILTER, "h.toml", "../h"),
        "54 BadName actor 1 key file",
    )?;
    let taps = ("h.toml", "format = 1\nvalues = [16384, 16384, 16384]\n");
    says(
        read(alloc, &FILTER, "h.toml", "h.toml", &[taps]),
        "3 a [None, None, None] [1, 1, 1]\n\
         actors 3\nlinks 2\nperiod 6\nq in 2\nq a 1\nq out 3\ninput 2 output 3\n",
    )
}
