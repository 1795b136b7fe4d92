//! A design's graph as a text for Graphviz.

ghost use Rattle.std.specs.Prelude.{◌≡◌, ◌<◌, ◌≤◌, ◌++◌, IfOk, OnOk, length, string_bytes, codes};
ghost use Rattle.sdf_limits.specs.declared.TheConstants.{MAX_CYCLE};
ghost use Rattle.sdf_actor.specs.Nets.{node};
ghost use Rattle.sdf_draw.specs.Graphviz.{quoted, shape_word, node_line, initial_label};
ghost use Rattle.sdf_draw.specs.Graphviz.{label_text, labels_text, edge_line, nodes_text, edges_text, dot_text};

use crate::ports::{Shape, channel_of, shape_of};
use crate::texts::{Within, push_escaped, push_number, push_rate};
use sdf_file::Design;
use sdf_graph::Channel;
use std::alloc::{AllocError, Global};

/// Adds `word` between quotes.
fn push_quoted(text: &mut String, word: &str) -> Result<(), AllocError>
    ensures { OnOk result (string_bytes text.new ≡ string_bytes text.old ++ quoted word.now) }
{
    text.push_str("\"")?;
    push_escaped(text, Within::Quotes, word)?;
    text.push_str("\"")
}

fn shape_word(shape: Shape) -> &'static str
    ensures { result.now ≡ shape_word shape }
{
    match shape {
        Shape::Source => "rarrow",
        Shape::Sink => "larrow",
        Shape::Filter => "octagon",
        Shape::Plain => "box",
    }
}

/// Adds the line of `actor`.
#[tactic(auto, unfolding(crate::specs::Graphviz::node_line))]
fn push_node(text: &mut String, design: &Design, actor: usize) -> Result<(), AllocError>
    requires { actor < length design.now.net.nodes }
    ensures { OnOk result (string_bytes text.new ≡ string_bytes text.old ++ node_line design.now actor) }
{
    text.push_str("  ")?;
    push_quoted(text, design.name(actor))?;
    text.push_str(" [shape=")?;
    text.push_str(shape_word(shape_of(design, actor)))?;
    text.push_str("];\n")
}

/// Adds `word`, and what firings with these `rates` move.
#[tactic(auto, unfolding(crate::specs::Graphviz::label_text))]
fn push_label(text: &mut String, word: &str, rates: &[u32]) -> Result<(), AllocError>
    requires { length rates.now ≤ MAX_CYCLE }
    ensures { OnOk result (string_bytes text.new ≡ string_bytes text.old ++ label_text word.now rates.now) }
{
    text.push_str(word)?;
    push_rate(text, rates)
}

/// Adds the samples that a link begins with, if there are any.
fn push_initial(text: &mut String, initial: usize) -> Result<(), AllocError>
    ensures { OnOk result (string_bytes text.new ≡ string_bytes text.old ++ initial_label initial) }
{
    if initial == 0 {
        return Ok(());
    }
    push_number(text, "\" label=\"", initial as u64)
}

/// Adds the rates of `channel`, and the samples that it begins with.
#[tactic(auto, unfolding(crate::specs::Graphviz::labels_text))]
fn push_labels(text: &mut String, channel: &Channel) -> Result<(), AllocError>
    requires put { length channel.now.put ≤ MAX_CYCLE }
    requires take { length channel.now.take ≤ MAX_CYCLE }
    ensures { OnOk result (string_bytes text.new ≡ string_bytes text.old ++ labels_text channel.now) }
{
    push_label(text, " [taillabel=\"", channel.put.as_slice())?;
    push_label(text, "\" headlabel=\"", channel.take.as_slice())?;
    push_initial(text, channel.initial)?;
    text.push_str("\"];\n")
}

/// Adds the line of `link`.
#[tactic(auto, unfolding(crate::specs::Graphviz::edge_line))]
fn push_edge(text: &mut String, design: &Design, link: usize) -> Result<(), AllocError>
    requires { link < length design.now.net.wires }
    ensures { OnOk result (string_bytes text.new ≡ string_bytes text.old ++ edge_line design.now link) }
{
    let channel = channel_of(design, link);
    text.push_str("  ")?;
    push_quoted(text, design.name(channel.from))?;
    text.push_str(" -> ")?;
    push_quoted(text, design.name(channel.to))?;
    push_labels(text, channel)
}

/// Adds a line for each actor.
fn push_nodes(text: &mut String, design: &Design) -> Result<(), AllocError>
    ensures { OnOk result (string_bytes text.new ≡ string_bytes text.old ++ nodes_text design.now) }
{
    for actor in 0..design.net().len() {
        push_node(text, design, actor)?;
    }
    Ok(())
}

/// Adds a line for each link.
fn push_edges(text: &mut String, design: &Design) -> Result<(), AllocError>
    ensures { OnOk result (string_bytes text.new ≡ string_bytes text.old ++ edges_text design.now) }
{
    for link in 0..design.net().channels() {
        push_edge(text, design, link)?;
    }
    Ok(())
}

/// Returns the graph of `design` as a text for Graphviz: a line for each actor in file order, then one for each link.
pub fn dot(alloc: Global, design: &Design) -> Result<String, AllocError>
    ensures { IfOk result (λ s. string_bytes s ≡ dot_text design.now) }
{
    let mut text = String::new(alloc);
    text.push_str("digraph {\n  rankdir=LR;\n")?;
    push_nodes(&mut text, design)?;
    push_edges(&mut text, design)?;
    text.push_str("}\n")?;
    Ok(text)
}
