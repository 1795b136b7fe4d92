//! A loop of links through which a design may keep its samples for ever.

ghost use Rattle.std.specs.Prelude.{◌≡◌, ◌<◌, ◌++◌, ◌↔◌, ℕ, true, false, [], length, slice_index, slice_index_or};
ghost use Rattle.std.specs.Prelude.{None, IfOk, OnOk, MatchOption, string_bytes, List};
ghost use Rattle.std.specs.List.{flat_map, All};
ghost use Rattle.sdf_graph.specs.Marks.{is_marked};
ghost use Rattle.sdf_actor.specs.Graphs.{graph_of};
ghost use Rattle.sdf_kit.specs.Kit.{kit_steps};
ghost use Rattle.sdf_why.specs.Loops.{arrow_to, loop_line, name_at, AreFed, AreTargets, Feeds, HoldsLoops};
ghost use Rattle.sdf_why.specs.Loops.{IsLoop, IsLoopText, IsUnfed};

use crate::cycle::{Halt, cycle_of};
use crate::more::is_marked;
use sdf_file::Design;
use sdf_graph::Graph;
use std::alloc::{AllocError, Global};

/// Returns the first channel from a kept actor to `actor`.
fn feeder(graph: &Graph, kept: &[bool], actor: usize) -> Option<usize>
    ensures { MatchOption result ((c : ℕ) → Feeds graph.now kept.now actor c → ⊥) (Feeds graph.now kept.now actor) }
{
    let channels = graph.channels();
    for number in 0..channels.len() {
        let channel = &channels[number];
        if channel.to == actor && is_marked(kept, channel.from) {
            return Some(number);
        }
    }
    None
}

/// Returns the first kept actor that has no channel from a kept actor.
fn first_unfed(graph: &Graph, kept: &[bool]) -> Option<usize>
    ensures { MatchOption result ((a : ℕ) → IsUnfed graph.now kept.now a → ⊥) (IsUnfed graph.now kept.now) }
{
    for actor in 0..kept.len() {
        if kept[actor] && feeder(graph, kept, actor).is_none() {
            return Some(actor);
        }
    }
    None
}

/// Returns which actors have a channel that leads to them.
fn targets(alloc: Global, graph: &Graph) -> Result<Vec<bool>, AllocError>
    ensures { IfOk result (λ v. AreTargets graph.now (length graph.now.channels) v.items) }
{
    let mut kept = vec![in alloc; false; graph.actors()]?;
    for channel in graph.channels() {
        kept[channel.to] = true;
    }
    Ok(kept)
}

/// Returns the actors that are left after removing, one after another, each actor that no remaining actor feeds.
fn kept_by_loops(alloc: Global, graph: &Graph) -> Result<Vec<bool>, AllocError>
    ensures loops { IfOk result (λ v. HoldsLoops graph.now v.items) }
    ensures fed { IfOk result (λ v. (a : ℕ) → IsUnfed graph.now v.items a → ⊥) }
{
    let mut kept = targets(alloc, graph)?;
    while let Some(actor) = first_unfed(graph, &kept) {
        kept[actor] = false;
    }
    Ok(kept)
}

/// Returns the channel that feeds `actor`, if the actor is kept. It is a `Halt` so that `cycle_of` can follow it.
fn halt_of(graph: &Graph, kept: &[bool], actor: usize) -> Halt
    ensures kept { is_marked kept.now actor ≡ true →
        MatchOption result.short ((c : ℕ) → Feeds graph.now kept.now actor c → ⊥) (Feeds graph.now kept.now actor) }
    ensures gone { is_marked kept.now actor ≡ false → result.short ≡ None }
{
    let short = if is_marked(kept, actor) {
        feeder(graph, kept, actor)
    } else {
        None
    };
    Halt { done: 0, short }
}

/// Returns the channel that feeds each kept actor.
fn halts_of(alloc: Global, graph: &Graph, kept: &[bool]) -> Result<Vec<Halt>, AllocError>
    ensures { IfOk result (λ v. AreFed graph.now kept.now v.items) }
{
    let mut halts = Vec::new(alloc);
    for actor in 0..kept.len() {
        halts.push(halt_of(graph, kept, actor))?;
    }
    Ok(halts)
}

/// Returns the channels of a loop against its flow, if there is one.
fn loop_of(alloc: Global, graph: &Graph) -> Result<Option<Vec<usize>>, AllocError>
    ensures { IfOk result (λ r. MatchOption r ((cs : List ℕ) → IsLoop graph.now cs → ⊥)
        (λ v. IsLoop graph.now v.items)) }
{
    let kept = kept_by_loops(alloc, graph)?;
    let halts = halts_of(alloc, graph, &kept)?;
    let Some(numbers) = cycle_of(alloc, graph, &halts)? else {
        return Ok(None);
    };
    Ok(Some(numbers))
}

/// Adds the name of the source of the channel `number`.
fn push_source(text: &mut String, design: &Design, number: usize) -> Result<(), AllocError>
    requires { number < length (graph_of kit_steps design.now.net).channels }
    ensures { OnOk result (string_bytes text.new ≡ string_bytes text.old
        ++ name_at design.now.names (graph_of kit_steps design.now.net) number) }
{
    let channel = &design.net().graph().channels()[number];
    text.push_str(design.name(channel.from))
}

/// Adds an arrow and the name of the source of the channel `number`.
#[tactic(auto, unfolding(crate::specs::Loops::arrow_to))]
fn push_arrow(text: &mut String, design: &Design, number: usize) -> Result<(), AllocError>
    requires { number < length (graph_of kit_steps design.now.net).channels }
    ensures { OnOk result (string_bytes text.new ≡ string_bytes text.old
        ++ arrow_to design.now.names (graph_of kit_steps design.now.net) number) }
{
    text.push_str(" -> ")?;
    push_source(text, design, number)
}

/// Adds an arrow and the name of the source of each channel in `numbers`.
fn push_arrows(text: &mut String, design: &Design, numbers: &[usize]) -> Result<(), AllocError>
    requires { All (λ c. c < length (graph_of kit_steps design.now.net).channels) numbers.now }
    ensures { OnOk result (string_bytes text.new ≡ string_bytes text.old
        ++ flat_map (arrow_to design.now.names (graph_of kit_steps design.now.net)) numbers.now) }
{
    for number in numbers {
        push_arrow(text, design, *number)?;
    }
    Ok(())
}

/// Adds the names of the sources of the channels in `numbers`, with arrows between them.
fn push_line(text: &mut String, design: &Design, numbers: &[usize]) -> Result<(), AllocError>
    requires { All (λ c. c < length (graph_of kit_steps design.now.net).channels) numbers.now }
    ensures { OnOk result (string_bytes text.new ≡ string_bytes text.old
        ++ loop_line design.now.names (graph_of kit_steps design.now.net) numbers.now) }
{
    let Some((first, others)) = numbers.split_first() else {
        return Ok(());
    };
    push_source(text, design, *first)?;
    push_arrows(text, design, others)
}

/// Returns the names of the actors of a loop of `design`, in the order of its flow, or nothing if there is no loop.
pub fn loop_text(alloc: Global, design: &Design) -> Result<String, AllocError>
    ensures { IfOk result (λ text. IsLoopText (graph_of kit_steps design.now.net) design.now.names
        (string_bytes text)) }
{
    let mut text = String::new(alloc);
    let Some(mut numbers) = loop_of(alloc, design.net().graph())? else {
        return Ok(text);
    };
    numbers.reverse();
    push_line(&mut text, design, &numbers)?;
    Ok(text)
}
