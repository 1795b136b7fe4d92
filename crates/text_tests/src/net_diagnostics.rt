//! Diagnostics for graph files whose nets are refused.

use sdf_file::read_design;
use sdf_why::{DesignFiles, file_text};
use std::alloc::Global;
use std::test::Fail;
use test_texts::row_says;

/// The actors and links of a graph file, and the line of its fault followed by its diagnostic.
struct Row {
    actors: &'static str,
    links: &'static str,
    told: &'static str,
}

/// An input, a fork of two ways and an output.
const FORKED: &str =
    "{ name = \"in\", kind = \"input\", channel = 0 }, { name = \"two\", kind = \"fork\", ways = 2 },
    { name = \"out\", kind = \"output\", channel = 0 }";

/// An input, a fork of two ways, and two outputs of channel 0.
const RIVALS: &str =
    "{ name = \"in\", kind = \"input\", channel = 0 }, { name = \"two\", kind = \"fork\", ways = 2 },
    { name = \"out\", kind = \"output\", channel = 0 }, { name = \"again\", kind = \"output\", channel = 0 }";

/// An input, and an output of channel 1 without one of channel 0.
const SECOND: &str =
    "{ name = \"in\", kind = \"input\", channel = 0 }, { name = \"out\", kind = \"output\", channel = 1 }";

/// Two pairs that no link joins.
const PAIRS: &str =
    "{ name = \"in\", kind = \"input\", channel = 0 }, { name = \"left\", kind = \"input\", channel = 1 },
    { name = \"out\", kind = \"output\", channel = 0 }, { name = \"right\", kind = \"output\", channel = 1 }";

/// A fork of two ways that are added, with one of them halved.
const HALVED: &str =
    "{ name = \"in\", kind = \"input\", channel = 0 }, { name = \"two\", kind = \"fork\", ways = 2 },
    { name = \"half\", kind = \"decimate\", factor = 2 }, { name = \"sum\", kind = \"add\", ways = 2 },
    { name = \"out\", kind = \"output\", channel = 0 }";

/// A deal in runs of three to two ways that are added, with one of them halved.
const DEALT: &str =
    "{ name = \"in\", kind = \"input\", channel = 0 }, { name = \"two\", kind = \"deal\", ways = 2, run = 3 },
    { name = \"half\", kind = \"decimate\", factor = 2 }, { name = \"sum\", kind = \"add\", ways = 2 },
    { name = \"out\", kind = \"output\", channel = 0 }";

static ROWS: [Row; 11] = [
    Row {
        actors: FORKED,
        links: "{ from = \"in\", to = \"two\" }, { from = \"two:2\", to = \"out\" }",
        told: "20 NoPort link 1\n  \
            link 1 is two:2 -> out:0\n  actor 1 is \"two\", a fork\n  actor 2 is \"out\", an output\n  \
            \"two\" has input 0, outputs 0 and 1\n  \"out\" has input 0, no output\n",
    },
    Row {
        actors: FORKED,
        links: "{ from = \"out\", to = \"in\" }",
        told: "20 NoPort link 0\n  \
            link 0 is out:0 -> in:0\n  actor 2 is \"out\", an output\n  actor 0 is \"in\", an input\n  \
            \"out\" has input 0, no output\n  \"in\" has no input, output 0\n",
    },
    Row {
        actors: DEALT,
        links: "{ from = \"two:1\", to = \"sum:2\" }",
        told: "20 NoPort link 0\n  \
            link 0 is two:1 -> sum:2\n  actor 1 is \"two\", a deal\n  actor 3 is \"sum\", an add\n  \
            \"two\" has input 0, outputs 0 and 1\n  \"sum\" has inputs 0 and 1, output 0\n",
    },
    Row {
        actors: FORKED,
        links: "{ from = \"in\", to = \"two\" }, { from = \"two:0\", to = \"out\" }, { from = \"two\", to = \"out\" }",
        told: "21 PortTwice link 2\n  \
            link 2 is two:0 -> out:0\n  link 1 is two:0 -> out:0\n",
    },
    Row {
        actors: FORKED,
        links: "{ from = \"in\", to = \"two\" }, { from = \"two:0\", to = \"out\" }",
        told: "22 PortOpen actor 1 output 1\n  \
            actor 1 is \"two\", a fork\n  ways = 2\n",
    },
    Row {
        actors: RIVALS,
        links: "{ from = \"in\", to = \"two\" }, { from = \"two:0\", to = \"out\" },
            { from = \"two:1\", to = \"again\" }",
        told: "23 ExtTwice actor 3\n  \
            actor 3 is \"again\", an output\n  channel = 0\n  actor 2 is \"out\", an output\n",
    },
    Row {
        actors: SECOND,
        links: "{ from = \"in\", to = \"out\" }",
        told: "27 NoOutput channel 0\n  \
            actor 1 is \"out\", an output\n  channel = 1\n",
    },
    Row {
        actors: PAIRS,
        links: "{ from = \"in\", to = \"out\" }, { from = \"left\", to = \"right\" }",
        told: "7 NotConnected actor 1\n  \
            actor 1 is \"left\", an input\n  actor 3 is \"right\", an output\n",
    },
    Row {
        actors: PAIRS,
        links: "{ from = \"left\", to = \"out\" }, { from = \"in\", to = \"right\" }",
        told: "7 NotConnected actor 1\n  \
            actor 1 is \"left\", an input\n  actor 2 is \"out\", an output\n",
    },
    Row {
        actors: HALVED,
        links: "{ from = \"in\", to = \"two\" }, { from = \"two:0\", to = \"sum:0\" },
            { from = \"two:1\", to = \"half\" }, { from = \"half\", to = \"sum:1\" },
            { from = \"sum\", to = \"out\" }",
        told: "8 Inconsistent link 3\n  \
            link 3 is half:0 -> sum:1\n  actor 2 is \"half\", a decimate\n  actor 3 is \"sum\", an add\n  \
            firings by the other links: 1 of \"half\", 2 of \"sum\"\n  \
            samples on this link: half:0 puts 1, sum:1 takes 2\n",
    },
    Row {
        actors: DEALT,
        links: "{ from = \"in\", to = \"two\" }, { from = \"two:1\", to = \"half\" },
            { from = \"half\", to = \"sum:1\" }, { from = \"two:0\", to = \"sum:0\" },
            { from = \"sum\", to = \"out\" }",
        told: "8 Inconsistent link 3\n  \
            link 3 is two:0 -> sum:0\n  actor 1 is \"two\", a deal\n  actor 3 is \"sum\", an add\n  \
            firings by the other links: 4 of \"two\", 3 of \"sum\"\n  \
            samples on this link: two:0 puts 6, sum:0 takes 3\n",
    },
];

/// Returns the fault of the graph file of `row`, followed by its diagnostic.
fn told(alloc: Global, row: &Row) -> Result<String, Fail> {
    let (actors, links) = (row.actors, row.links);
    let graph = format!(in alloc; "format = 2\nactor = [{actors}]\nlink = [{links}]\n")?;
    let sources = DesignFiles {
        graph: graph.as_bytes(),
        files: &[],
    };
    let Err(fault) = read_design(alloc, sources.graph, sources.files) else {
        return Ok(String::from_str(alloc, "it is read")?);
    };
    let told = file_text(alloc, &fault, sources)?;
    Ok(format!(in alloc; "{fault}\n{told}")?)
}

#[test]
fn faults_of_nets_are_told(rt: HostRuntime) -> Result<(), Fail> {
    for row in &ROWS {
        row_says(row.links, told(rt.alloc(), row), row.told)?;
    }
    Ok(())
}
