//! The ports that the actors at the ends of a link have.

ghost use Rattle.std.specs.Prelude.{◌≡◌, ◌++◌, IfOk, OnOk, map, string_bytes};
ghost use Rattle.sdf_document.specs.Actors.{actor_view};
ghost use Rattle.sdf_document.specs.Links.{link_view};
ghost use Rattle.sdf_document.specs.Document.{document_view};
ghost use Rattle.sdf_why.specs.Ports.{side_text, sides_text, ports_line, ports_are, actor_ports, link_ports};
ghost use Rattle.sdf_why.specs.Ports.{ports_told};

use crate::channels::ports_of;
use crate::words::{push_numbered, push_quoted};
use sdf_document::{ActorEntry, Document, LinkEntry};
use std::alloc::{AllocError, Global};

/// Adds the `count` ports on one side, by their numbers. `word` is the noun for one of them.
#[tactic(auto, unfolding(crate::specs::Ports::side_text))]
fn push_side(text: &mut String, count: usize, word: &str) -> Result<(), AllocError>
    ensures { OnOk result (string_bytes text.new ≡ string_bytes text.old ++ side_text count word.now) }
{
    if count == 0 {
        write!(text, "no {word}")
    } else {
        push_numbered(text, word, 0, count - 1)
    }
}

#[tactic(auto, unfolding(crate::specs::Ports::sides_text))]
fn push_sides(text: &mut String, inputs: usize, outputs: usize) -> Result<(), AllocError>
    ensures { OnOk result (string_bytes text.new ≡ string_bytes text.old ++ sides_text inputs outputs) }
{
    push_side(text, inputs, "input")?;
    text.push_str(", ")?;
    push_side(text, outputs, "output")
}

/// Adds the line of the actor `name` with its ports.
#[tactic(auto, unfolding(crate::specs::Ports::ports_line))]
fn push_line(
    alloc: Global,
    text: &mut String,
    name: &str,
    inputs: usize,
    outputs: usize,
) -> Result<(), AllocError>
    ensures { OnOk result (string_bytes text.new ≡ string_bytes text.old ++ ports_line name.now inputs outputs) }
{
    text.push_str("  ")?;
    push_quoted(alloc, text, name)?;
    text.push_str(" has ")?;
    push_sides(text, inputs, outputs)?;
    Ok(text.push_str("\n")?)
}

/// Adds the ports of an actor, by its kind.
fn push_ports(alloc: Global, text: &mut String, actor: &ActorEntry) -> Result<(), AllocError>
    ensures { OnOk result (string_bytes text.new ≡ string_bytes text.old ++ ports_are (actor_view actor.now)) }
{
    let ports = ports_of(&actor.kind);
    let inputs = ports.inputs.count();
    let outputs = ports.outputs.count();
    push_line(alloc, text, actor.name.as_str(), inputs, outputs)
}

/// Adds the ports of the actor `number`, if there is one.
#[tactic(auto, unfolding(crate::specs::Ports::actor_ports))]
fn push_ports_at(
    alloc: Global,
    text: &mut String,
    actors: &[ActorEntry],
    number: usize,
) -> Result<(), AllocError>
    ensures { OnOk result (string_bytes text.new ≡ string_bytes text.old
        ++ actor_ports (map actor_view actors.now) number) }
{
    match actors.get(number) {
        Some(actor) => push_ports(alloc, text, actor),
        None => Ok(()),
    }
}

/// Adds the ports of the actors at both ends of a link.
fn push_link_ports(
    alloc: Global,
    text: &mut String,
    actors: &[ActorEntry],
    link: &LinkEntry,
) -> Result<(), AllocError>
    ensures { OnOk result (string_bytes text.new ≡ string_bytes text.old
        ++ link_ports (map actor_view actors.now) (link_view link.now)) }
{
    push_ports_at(alloc, text, actors, link.from.0)?;
    push_ports_at(alloc, text, actors, link.to.0)
}

/// Returns the ports of the actors at the ends of `link`, or nothing if there is no link with this number.
#[tactic(auto, unfolding(crate::specs::Ports::ports_told))]
pub(crate) fn ports_text(
    alloc: Global,
    document: &Document,
    link: usize,
) -> Result<String, AllocError>
    ensures { IfOk result (λ text. string_bytes text ≡ ports_told (document_view document.now) link) }
{
    let mut text = String::new(alloc);
    let Some(link) = document.links.get(link) else {
        return Ok(text);
    };
    push_link_ports(alloc, &mut text, &document.actors, link)?;
    Ok(text)
}
