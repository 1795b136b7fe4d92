//! Documents of format 1: what they say, and each fault with its place.

use sdf_document::{CoefficientFile, Document, ReadFault, read_document};
use std::alloc::Global;
use std::test::Fail;
use test_texts::{row_says, says};

/// An input, a gain and an output.
pub(crate) const GRAPH: &str = "format = 1
[[actor]]
name = \"in\"
kind = \"input\"
channel = 0
block = 2
processor = 0
[[actor]]
name = \"g\"
kind = \"gain\"
gain = -32768
shift = 15
[[actor]]
name = \"out\"
kind = \"output\"
channel = 0
[[link]]
from = \"in\"
to = \"g:0\"
[[link]]
from = \"g\"
to = \"out\"
initial = [1, -2]
";

/// The kind of the gain in `GRAPH`.
pub(crate) const GAIN: &str = "kind = \"gain\"\ngain = -32768\nshift = 15";

/// Returns the kind of the second actor of a document as text, or the fault.
fn told(alloc: Global, answer: Result<Document, ReadFault>) -> Result<String, Fail> {
    let document = match answer {
        Ok(document) => document,
        Err(fault) => return Ok(fault.to_string(alloc)?),
    };
    match document.actors.get(1) {
        Some(actor) => Ok(format!(in alloc; "{:?}", actor.kind)?),
        None => Ok(String::new(alloc)),
    }
}

/// Reads `graph` with `new` in place of `old`, and with `files`. Returns the kind of the second actor as text, or the
/// fault.
pub(crate) fn read(
    alloc: Global,
    graph: &str,
    old: &str,
    new: &str,
    files: &[CoefficientFile],
) -> Result<String, Fail> {
    let text = graph.replace(alloc, old, new)?;
    told(alloc, read_document(alloc, text.as_bytes(), files))
}

/// A text in the graph, its replacement, and the second actor that is read then, or the fault. Kinds at their limits
/// come first, and whole graphs last.
const READ: &[(&str, &str, &str)] = &[
    (GAIN, GAIN, "Gain { gain: -32768, shift: 15 }"),
    (
        GAIN,
        "kind = \"input\"\nchannel = 7",
        "Input { channel: 7, block: 1 }",
    ),
    (
        GAIN,
        "kind = \"output\"\nchannel = 0\nblock = 1024",
        "Output { channel: 0, block: 1024 }",
    ),
    (
        GAIN,
        "kind = \"fir\"\nup = 64\ndown = 64\nshift = 0\ntaps = [-32768, 32767]",
        "Fir { up: 64, down: 64, shift: 0, taps: ListEntry { file: None, values: [-32768, 32767] } }",
    ),
    (
        GAIN,
        "kind = \"decimate\"\nfactor = 64",
        "Decimate { factor: 64 }",
    ),
    (
        GAIN,
        "kind = \"interpolate\"\nfactor = 1",
        "Interpolate { factor: 1 }",
    ),
    (GAIN, "kind = \"add\"\nways = 16", "Add { ways: 16 }"),
    (GAIN, "kind = \"fork\"\nways = 2", "Fork { ways: 2 }"),
    (
        GAIN,
        "kind = \"delay\"\nlength = 65536",
        "Delay { length: 65536 }",
    ),
    (
        GAIN,
        "kind = \"table\"\noffset = -2147483648\nvalues = [2147483647]",
        "Table { offset: -2147483648, values: ListEntry { file: None, values: [2147483647] } }",
    ),
    ("format = 1", "format = 3", "50 Format top"),
    ("format = 1", "format = 0", "50 Format top"),
    ("format = 1", "format = -1", "50 Format top"),
    ("format = 1", "", "52 MissingKey top key format"),
    ("format = 1", "format = 1.0", "53 WrongType top key format"),
    ("format = 1", "format == 1", "49 NotToml top"),
    (
        "format = 1",
        "format = 1\nlinks = 2",
        "51 UnknownKey top key links",
    ),
    (
        "gain = -32768",
        "gain = 0.5",
        "53 WrongType actor 1 key gain",
    ),
    (
        "gain = -32768",
        "gain = 32768",
        "28 KitValue actor 1 key gain",
    ),
    (
        "gain = -32768",
        "gain = 9223372036854775808",
        "49 NotToml top",
    ),
    ("shift = 15", "", "52 MissingKey actor 1 key shift"),
    ("shift = 15", "shift = 16", "28 KitValue actor 1 key shift"),
    (
        "shift = 15",
        "shift = 15\nzeta = 1\nprice = 2",
        "51 UnknownKey actor 1 key price",
    ),
    (
        "processor = 0",
        "processor = 16",
        "28 KitValue actor 0 key processor",
    ),
    (
        "processor = 0",
        "processor = 0\ncost = 1000001",
        "28 KitValue actor 0 key cost",
    ),
    (
        "processor = 0",
        "processor = 16\ncost = \"1\"",
        "28 KitValue actor 0 key processor",
    ),
    (
        "processor = 0",
        "cost = 1.0",
        "53 WrongType actor 0 key cost",
    ),
    (
        "channel = 0\nblock",
        "channel = 8\nblock",
        "28 KitValue actor 0 key channel",
    ),
    ("name = \"out\"", "name = \"in\"", "55 NameTwice actor 2"),
    (
        "name = \"out\"",
        "name = \"0ut\"",
        "54 BadName actor 2 key name",
    ),
    (
        "name = \"out\"",
        "name = \"out\"\ncost = 0",
        "28 KitValue actor 2 key cost",
    ),
    (
        "kind = \"gain\"",
        "kind = \"again\"",
        "56 UnknownKind actor 1",
    ),
    (
        "from = \"in\"",
        "from = \"in:01\"",
        "57 BadPort link 0 key from",
    ),
    (
        "from = \"in\"",
        "from = \"in:16\"",
        "57 BadPort link 0 key from",
    ),
    ("to = \"out\"", "to = \"outer\"", "57 BadPort link 1 key to"),
    (
        "to = \"g:0\"",
        "to = \"g:0\"\ninitial = [1, \"a\"]",
        "53 WrongType link 0 key initial",
    ),
    (
        "initial = [1, -2]",
        "initial = [1, \"a\"]",
        "53 WrongType link 1 key initial",
    ),
    (
        "initial = [1, -2]",
        "initial = [2147483648, \"a\"]",
        "53 WrongType link 1 key initial",
    ),
    (
        "initial = [1, -2]",
        "initial = [2147483648]",
        "28 KitValue link 1 key initial",
    ),
    (
        "initial = [1, -2]",
        "late = 1",
        "51 UnknownKey link 1 key late",
    ),
    (GRAPH, "", "52 MissingKey top key format"),
    (GRAPH, "format = 1", "52 MissingKey top key actor"),
    (GRAPH, "format = 1\nactor = 1", "53 WrongType top key actor"),
    (
        GRAPH,
        "format = 1\nactor = []",
        "52 MissingKey top key link",
    ),
    (GRAPH, "format = 1\nactor = []\nlink = []", "2 ActorCount"),
    (
        GRAPH,
        "format = 1\nactor = [1]\nlink = []",
        "53 WrongType actor 0 key actor",
    ),
];

#[test]
fn says_what_a_graph_is_or_its_fault(rt: HostRuntime) -> Result<(), Fail> {
    for (old, new, wanted) in READ {
        row_says(new, read(rt.alloc(), GRAPH, old, new, &[]), wanted)?;
    }
    Ok(())
}

/// Returns the number of actors of the graph, and its second link.
fn second_link(alloc: Global) -> Result<String, Fail> {
    let document = read_document(alloc, GRAPH.as_bytes(), &[])?;
    let Some(link) = document.links.get(1) else {
        return Ok(String::new(alloc));
    };
    let many = document.actors.len();
    Ok(format!(in alloc;
        "{many} {:?} {:?} {:?}",
        link.from,
        link.to,
        link.initial.as_slice()
    )?)
}

/// Returns the fault of a graph of `actors` actors and `links` links, none of which is a table.
fn fault_of_counts(alloc: Global, actors: usize, links: usize) -> Result<String, Fail> {
    let actors = "0, ".repeat(alloc, actors)?;
    let links = "0, ".repeat(alloc, links)?;
    let text = format!(in alloc; "format = 1\nactor = [{actors}]\nlink = [{links}]\n")?;
    told(alloc, read_document(alloc, text.as_bytes(), &[]))
}

/// Numbers of actors and links, and the fault.
const COUNTS: &[(usize, usize, &str)] = &[
    (0, 257, "2 ActorCount"),
    (65, 257, "2 ActorCount"),
    (64, 257, "3 ChannelCount"),
    (64, 256, "53 WrongType actor 0 key actor"),
];

/// Tests links, counts, bytes that are not text, and a refusal of memory, which is not a fault of a lawful graph.
#[test]
fn reads_links_and_counts(rt: HostRuntime) -> Result<(), Fail> {
    let alloc = rt.alloc();
    says(second_link(alloc), "3 (1, 0) (2, 0) [1, -2]")?;
    for (actors, links, wanted) in COUNTS {
        says(fault_of_counts(alloc, *actors, *links), wanted)?;
    }
    says(
        told(alloc, read_document(alloc, &[0xFF], &[])),
        "49 NotToml top",
    )?;
    says(told(alloc, Err(ReadFault::OutOfMemory)), "1 OutOfMemory")?;
    match read_document(alloc, GRAPH.as_bytes(), &[]) {
        Ok(_) | Err(ReadFault::OutOfMemory) => Ok(()),
        Err(_) => Err(Fail::from("a lawful graph has a fault")),
    }
}
