//! The picture of a loop, and its graph for Graphviz.

use sdf_draw::{dot, svg};
use sdf_file::read_design;
use sdf_options::Options;
use std::alloc::Global;
use std::test::Fail;
use test_texts::says;

/// A loop: a sum that is fed its own output, delayed by two samples.
const LOOP: &str = "format = 1
actor = [{ name = \"in\", kind = \"input\", channel = 0 }, { name = \"sum\", kind = \"add\", ways = 2 },
    { name = \"two\", kind = \"fork\", ways = 2 }, { name = \"out\", kind = \"output\", channel = 0, block = 3 }]
link = [{ from = \"in\", to = \"sum:0\" }, { from = \"sum\", to = \"two\" },
    { from = \"two:0\", to = \"sum:1\", initial = [0, 0] }, { from = \"two:1\", to = \"out\" }]";

const LOOP_DOT: &str = "digraph {
  rankdir=LR;
  \"in\" [shape=rarrow];
  \"sum\" [shape=box];
  \"two\" [shape=box];
  \"out\" [shape=larrow];
  \"in\" -> \"sum\" [taillabel=\"1\" headlabel=\"1\"];
  \"sum\" -> \"two\" [taillabel=\"1\" headlabel=\"1\"];
  \"two\" -> \"sum\" [taillabel=\"1\" headlabel=\"1\" label=\"2\"];
  \"two\" -> \"out\" [taillabel=\"1\" headlabel=\"3\"];
}
";

/// Parts of the picture for two workers: the namespace, boxes in three columns, the arrow back below them, its two
/// samples, the last bar, the bound and the makespan.
const PARTS: &[&str] = &[
    "<svg xmlns='http://www.w3.org/2000/svg' ",
    "<polygon class='box s0' points=' 320,86 456,86 470,106 456,126 320,126'/>",
    "<polygon class='box s1' points=' 640,86 790,86 790,156 640,156'/>",
    "<polygon class='box s2' points=' 960,86 1110,86 1110,156 960,156'/>",
    " V182 H",
    "<circle class='dot' r='4' cx='572' cy='136'/>",
    " viewBox='0 0 7 60'>",
    "<rect class='f3' x='6' width='1' y='34' height='22'><title>out 6 to 7</title></rect>",
    ">bound 6<",
    ">makespan 7<",
];

fn loop_graph(alloc: Global) -> Result<String, Fail> {
    let design = read_design(alloc, LOOP.as_bytes(), &[])?;
    Ok(dot(alloc, &design)?)
}

/// Tests the graph for Graphviz. A `dot` that always reports refused memory fails here.
#[test]
fn loop_for_graphviz(rt: HostRuntime) -> Result<(), Fail> {
    says(loop_graph(rt.alloc()), LOOP_DOT)
}

/// Returns the picture of the loop on two workers.
fn loop_picture(alloc: Global) -> Result<String, Fail> {
    let design = read_design(alloc, LOOP.as_bytes(), &[])?;
    let options = Options {
        workers: 2,
        ..Options::DEFAULT
    };
    Ok(svg(alloc, &design, &options)?)
}

/// Returns the parts that the picture lacks, each on a line.
fn missing_parts(alloc: Global) -> Result<String, Fail> {
    let picture = loop_picture(alloc)?;
    let mut missing = String::new(alloc);
    for part in PARTS {
        if !picture.as_str().contains(*part) {
            writeln!(missing, "{part}")?;
        }
    }
    Ok(missing)
}

/// Tests the picture. An `svg` that always reports refused memory fails here, and so does one in another namespace,
/// which no browser shows.
#[test]
fn loop_drawn(rt: HostRuntime) -> Result<(), Fail> {
    says(missing_parts(rt.alloc()), "")
}
