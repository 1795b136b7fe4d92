//! What a fault is about, as values, with its line and its column.

use sdf_document::{CoefficientFile, Place};
use sdf_file::{FileFault, read_design};
use sdf_why::{DesignFiles, Facts, document_facts, home_facts, net_facts};
use std::alloc::{AllocError, Global};
use std::test::Fail;
use test_texts::{row_says, says};

/// Adds a number behind its name, if there is one.
fn push_number(text: &mut String, name: &str, number: Option<usize>) -> Result<(), AllocError> {
    match number {
        Some(number) => write!(text, " {name} {number}"),
        None => Ok(()),
    }
}

/// Adds a text behind its name, if there is one.
fn push_text(text: &mut String, name: &str, said: Option<&str>) -> Result<(), AllocError> {
    match said {
        Some(said) => write!(text, " {name} {said}"),
        None => Ok(()),
    }
}

/// Returns `facts` in words.
fn told(alloc: Global, facts: &Facts) -> Result<String, AllocError> {
    let mut text = match &facts.place {
        Place::File(name) => format!(in alloc; "file {}", name.as_str())?,
        Place::Link(link) => format!(in alloc; "link {link}")?,
        Place::Actor(actor) => format!(in alloc; "actor {actor}")?,
        Place::Top => String::from_str(alloc, "top")?,
    };
    push_number(&mut text, "line", facts.spot.map(|spot| spot.line))?;
    push_number(&mut text, "column", facts.spot.map(|spot| spot.column))?;
    push_number(&mut text, "actor", facts.actor)?;
    push_text(&mut text, "key", facts.key.as_deref())?;
    push_text(&mut text, "value", facts.value.as_deref())?;
    push_text(&mut text, "limits", facts.limits.as_deref())?;
    Ok(text)
}

/// Returns the coefficient file `name` with these bytes.
fn file(alloc: Global, name: &str, text: &str) -> Result<CoefficientFile, AllocError> {
    Ok(CoefficientFile {
        name: String::from_str(alloc, name)?,
        bytes: Vec::from_slice(alloc, text.as_bytes())?,
    })
}

/// Returns what a `fault` of files is about.
fn about(alloc: Global, fault: &FileFault, sources: DesignFiles<'_>) -> Result<String, AllocError> {
    match fault {
        FileFault::OutOfMemory => Err(AllocError),
        FileFault::Document(fault) => told(alloc, &document_facts(alloc, fault, sources)?),
        FileFault::Net(fault) => told(alloc, &net_facts(alloc, *fault, sources)?),
    }
}

/// Returns what the fault of a graph file is about.
fn facts_of(alloc: Global, graph: &str, files: &[CoefficientFile]) -> Result<String, Fail> {
    let sources = DesignFiles {
        graph: graph.as_bytes(),
        files,
    };
    match read_design(alloc, sources.graph, files) {
        Ok(_) => Ok(String::from_str(alloc, "a design")?),
        Err(fault) => Ok(about(alloc, &fault, sources)?),
    }
}

/// A graph file, and what its fault is about.
type Row = (&'static str, &'static str);

/// Faults of graph files. Refuses a line that is counted from 0, the line of another actor or link, of another key, of
/// a key before the tables or in the next table, of a comment, and a column of bytes.
const GRAPHS: &[Row] = &[
    (
        "format = 1\nlink = []\n[[actor]]\nname = \"half\"\nkind = \"fir\"\nup = 147\nshift = 0\ntaps = [1]\n",
        "actor 0 line 6 column 1 actor 0 key up value 147 limits 1..64",
    ),
    (
        "format = 1\nlink = []\n# [[actor]]\n[[actor]]\nname = \"a\"\nkind = \"fork\"\nways = 2\n\
            [[ actor ]]\n\tname = \"b\"\n\tkind = \"fork\"\n\tways = 1.5\r\n[[actor]]\nways = 3\n",
        "actor 1 line 11 column 2 actor 1 key ways value a float limits a whole number, 2..16",
    ),
    (
        "format = 1\nlink = []\n  [[actor]]\nname = \"i\"\nkind = \"gain\"\nshift = 0\n[[actor]]\ngain = 1\n",
        "actor 0 line 3 column 3 actor 0 key gain limits -32768..32767",
    ),
    (
        "format = 3\nactor = []\nlink = []\n",
        "top line 1 column 1 key format value 3 limits 1 or 2",
    ),
    (
        "format = 1\nactor = [{ name = \"a\", kind = \"fork\" }]\n[[kinl]]\nfrom = \"a\"\n",
        "top line 3 column 1 key kinl value a list of 1",
    ),
    (
        "format = 1\nactor = [{ name = \"a\", kind = \"fork\", ways = 2 },\n    { name = \"a\", kind = \"add\", \
            ways = 2 }]\nlink = []\n",
        "actor 1 actor 1 key name value \"a\"",
    ),
    (
        "format = 1\n[[actor]]\nname = \"a\"\nkind = \"resampler\"\n[[link]]\nfrom = \"a\"\n",
        "actor 0 line 4 column 1 actor 0 key kind value \"resampler\"",
    ),
    (
        "format = 1\n[[link]]\nfrom = \"a\"\nto = \"a\"\n[[actor]]\nname = \"a\"\nkind = \"fork\"\nways = 2\n\
            [[link]]\nfrom = \"a\"\nto = \"a:16\"\n",
        "link 1 line 11 column 1 key to value \"a:16\" limits NAME or NAME:PORT, a port of 0..15",
    ),
    (
        "format = 1\n[[link]]\nfrom = \"a\"\nto = \"a\"\n[[actor]]\nname = \"a\"\nkind = \"fork\"\nways = 2\n\
            [[link]]\nfrom = \"a:3\"\nto = \"a\"\n",
        "link 1 line 9 column 1",
    ),
    (
        "format = 1\n\"\u{e4}\u{e4}\" = what\n",
        "top line 2 column 8",
    ),
    (
        "format = 1\nlink = []\n[[actor]]\nname = \"t\"\nkind = \"table\"\noffset = 0\nfile = \"none.toml\"\n",
        "actor 0 line 7 column 1 actor 0 key file value \"none.toml\"",
    ),
];

#[test]
fn facts_of_graph_files(rt: HostRuntime) -> Result<(), Fail> {
    for (graph, wanted) in GRAPHS {
        row_says("graph", facts_of(rt.alloc(), graph, &[]), wanted)?;
    }
    Ok(())
}

/// A graph file whose second actor names a coefficient file.
const NAMING: &str =
    "format = 1\nlink = []\nactor = [{ name = \"i\", kind = \"input\", channel = 0 },\n\
    { name = \"h\", kind = \"fir\", shift = 0, file = \"c.toml\" }]\n";

/// Coefficient files, and what the fault of each is about. Refuses a line of the graph file, and the first actor.
const FILES: &[Row] = &[
    (
        "format = 1\n# taps\nvalues = 3\n",
        "file c.toml line 3 column 1 actor 1 key values value 3 limits a list of whole numbers",
    ),
    (
        "format = 2\nvalues = [1]\n",
        "file c.toml line 1 column 1 actor 1 key format value 2 limits 1",
    ),
    (
        "format = 1\nvalues = [1\ntap = 1",
        "file c.toml line 3 column 1 actor 1",
    ),
    ("format = 1\n", "file c.toml actor 1 key values"),
];

/// Returns what the fault of the coefficient file `text` is about.
fn in_file(alloc: Global, text: &str) -> Result<String, Fail> {
    facts_of(alloc, NAMING, &[file(alloc, "c.toml", text)?])
}

#[test]
fn facts_of_coefficient_files(rt: HostRuntime) -> Result<(), Fail> {
    for (text, wanted) in FILES {
        row_says("file", in_file(rt.alloc(), text), wanted)?;
    }
    Ok(())
}

/// Returns what is known of an actor without a home.
fn home(alloc: Global) -> Result<String, Fail> {
    let sources = DesignFiles {
        graph: b"[[actor]]\nprocessor = 3\n",
        files: &[],
    };
    Ok(told(alloc, &home_facts(alloc, 2, 0, sources)?)?)
}

#[test]
fn facts_of_a_home(rt: HostRuntime) -> Result<(), Fail> {
    says(
        home(rt.alloc()),
        "actor 0 line 2 column 1 actor 0 key processor value 3 limits 0..1",
    )
}
