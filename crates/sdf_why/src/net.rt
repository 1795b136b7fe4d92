//! The diagnostic for a net that is refused, from its tables.

ghost use Rattle.std.specs.Prelude.{◌≡◌, ◌++◌, OnOk, option_map, string_bytes};
ghost use Rattle.toml.specs.View.{view};
ghost use Rattle.sdf_why.specs.Nets.{first_of, one_of, all_of, number_at, same_number, same_text, rival, first_rival};
ghost use Rattle.sdf_why.specs.Nets.{rival_lines, differing_blocks, sharing_told, initial_line, graph_told, net_told};

use crate::actors::{push_actor_key, push_actor_of};
use crate::links::{first_sharing, push_ends, push_link_key, push_link_of};
use crate::tables::{actor_text, entry, first_with_text, says, value_at};
use sdf_actor::NetFault;
use sdf_graph::GraphFault;
use sdf_limits::{MAX_ACTORS, MAX_INITIAL};
use std::alloc::{AllocError, Global};
use toml::Value;

/// Adds the first actor of this `kind`, and the line of its `key`.
#[tactic(auto, unfolding(crate::specs::Nets::first_of))]
fn push_first_of(
    alloc: Global,
    text: &mut String,
    graph: &Value,
    kind: &str,
    key: &str,
) -> Result<(), AllocError>
    ensures { OnOk result (string_bytes text.new ≡ string_bytes text.old
        ++ first_of kind.now key.now (view graph.now)) }
{
    match first_with_text(graph, "kind", kind, MAX_ACTORS) {
        Some(actor) => push_actor_key(alloc, text, graph, actor, key, None),
        None => Ok(()),
    }
}

/// Adds `actor` if it is of this `kind`, and the line of its `key`.
#[tactic(auto, unfolding(crate::specs::Nets::one_of))]
fn push_one_of(
    alloc: Global,
    text: &mut String,
    graph: &Value,
    kind: &str,
    key: &str,
    actor: usize,
) -> Result<(), AllocError>
    ensures { OnOk result (string_bytes text.new ≡ string_bytes text.old
        ++ one_of kind.now key.now (view graph.now) actor) }
{
    if says(graph, "kind", kind, actor) {
        push_actor_key(alloc, text, graph, actor, key, None)
    } else {
        Ok(())
    }
}

/// Adds all actors of this `kind`, and the lines of their `key`.
#[tactic(auto, unfolding(crate::specs::Nets::all_of))]
pub(crate) fn push_all_of(
    alloc: Global,
    text: &mut String,
    graph: &Value,
    kind: &str,
    key: &str,
) -> Result<(), AllocError>
    ensures { OnOk result (string_bytes text.new ≡ string_bytes text.old
        ++ all_of kind.now key.now (view graph.now)) }
{
    for actor in 0..MAX_ACTORS {
        push_one_of(alloc, text, graph, kind, key, actor)?;
    }
    Ok(())
}

/// Returns the whole number at `key` of `actor`.
#[tactic(auto, unfolding(crate::specs::Nets::number_at))]
fn number_at(graph: &Value, key: &str, actor: usize) -> Option<i64>
    ensures { result ≡ number_at key.now (view graph.now) actor }
{
    value_at(entry(graph, "actor", actor)?, key)?.as_integer()
}

fn same_number(one: Option<i64>, other: Option<i64>) -> bool
    ensures { result ≡ same_number one other }
{
    match (one, other) {
        (Some(one), Some(other)) => one == other,
        _ => false,
    }
}

fn same_text(one: Option<&str>, other: Option<&str>) -> bool
    ensures { result ≡ same_text (option_map (λ s. s.now) one.entry) (option_map (λ s. s.now) other.entry) }
{
    match (one, other) {
        (Some(one), Some(other)) => one == other,
        _ => false,
    }
}

/// Checks whether two actors have the same kind and the same channel.
#[tactic(auto, unfolding(crate::specs::Nets::rival))]
fn rival(graph: &Value, actor: usize, other: usize) -> bool
    ensures { result ≡ rival (view graph.now) actor other }
{
    same_text(
        actor_text(graph, "kind", actor),
        actor_text(graph, "kind", other),
    ) && same_number(
        number_at(graph, "channel", actor),
        number_at(graph, "channel", other),
    )
}

/// Returns the first of `actors` actors that has the kind and the channel of `actor`.
#[tactic(auto, unfolding(crate::specs::Nets::first_rival))]
fn first_rival(graph: &Value, actor: usize, actors: usize) -> Option<usize>
    ensures { result ≡ first_rival (view graph.now) actor actors }
{
    (0..actors).find(|other| rival(graph, actor, *other))
}

/// Adds `actor`, its channel, and the earlier actor with the same kind and channel.
#[tactic(auto, unfolding(crate::specs::Nets::rival_lines))]
fn push_rivals(
    alloc: Global,
    text: &mut String,
    graph: &Value,
    actor: usize,
) -> Result<(), AllocError>
    ensures { OnOk result (string_bytes text.new ≡ string_bytes text.old
        ++ rival_lines (view graph.now) actor) }
{
    push_actor_key(alloc, text, graph, actor, "channel", None)?;
    match first_rival(graph, actor, actor) {
        Some(earlier) => push_actor_of(alloc, text, graph, earlier),
        None => Ok(()),
    }
}

/// Adds `actor` with its block, and the first actor of this `kind` with its block.
#[tactic(auto, unfolding(crate::specs::Nets::differing_blocks))]
fn push_differing_blocks(
    alloc: Global,
    text: &mut String,
    graph: &Value,
    kind: &str,
    actor: usize,
) -> Result<(), AllocError>
    ensures { OnOk result (string_bytes text.new ≡ string_bytes text.old
        ++ differing_blocks kind.now (view graph.now) actor) }
{
    push_actor_key(alloc, text, graph, actor, "block", None)?;
    push_first_of(alloc, text, graph, kind, "block")
}

/// Adds `link`, and the first link before it that shares an end with it.
#[tactic(auto, unfolding(crate::specs::Nets::sharing_told))]
fn push_sharing(
    alloc: Global,
    text: &mut String,
    graph: &Value,
    link: usize,
) -> Result<(), AllocError>
    ensures { OnOk result (string_bytes text.new ≡ string_bytes text.old ++ sharing_told (view graph.now) link) }
{
    push_link_of(alloc, text, graph, link)?;
    match first_sharing(graph, link, link) {
        Some(earlier) => push_link_of(alloc, text, graph, earlier),
        None => Ok(()),
    }
}

/// Adds `link` and its initial samples, with their limit.
#[tactic(auto, unfolding(crate::specs::Nets::initial_line))]
fn push_initial(
    alloc: Global,
    text: &mut String,
    graph: &Value,
    link: usize,
) -> Result<(), AllocError>
    ensures { OnOk result (string_bytes text.new ≡ string_bytes text.old ++ initial_line (view graph.now) link) }
{
    let most = MAX_INITIAL;
    let limits = format!(in alloc; "at most {most}")?;
    push_link_key(alloc, text, graph, link, "initial", Some(limits.as_str()))
}

/// Adds the lines of a fault of the graph.
fn push_graph(
    alloc: Global,
    text: &mut String,
    graph: &Value,
    fault: GraphFault,
) -> Result<(), AllocError>
    ensures { OnOk result (string_bytes text.new ≡ string_bytes text.old ++ graph_told fault (view graph.now)) }
{
    match fault {
        GraphFault::OutOfMemory
        | GraphFault::ActorCount
        | GraphFault::ChannelCount
        | GraphFault::NotConnected { .. }
        | GraphFault::PeriodTooLong => Ok(()),
        GraphFault::BadEnd { channel }
        | GraphFault::BadRate { channel }
        | GraphFault::CycleLength { channel }
        | GraphFault::Inconsistent { channel, .. } => push_ends(alloc, text, graph, channel),
        GraphFault::InitialCount { channel } => push_initial(alloc, text, graph, channel),
    }
}

/// Adds the lines of a fault of the net.
pub(crate) fn push_net(
    alloc: Global,
    text: &mut String,
    graph: &Value,
    fault: NetFault,
) -> Result<(), AllocError>
    ensures { OnOk result (string_bytes text.new ≡ string_bytes text.old
        ++ net_told fault (view graph.now)) }
{
    match fault {
        NetFault::OutOfMemory | NetFault::NoInput => Ok(()),
        NetFault::Graph(fault) => push_graph(alloc, text, graph, fault),
        NetFault::NoPort { link } => push_ends(alloc, text, graph, link),
        NetFault::PortTwice { link } => push_sharing(alloc, text, graph, link),
        NetFault::PortOpen { actor, .. } => push_actor_key(alloc, text, graph, actor, "ways", None),
        NetFault::ExtTwice { actor } => push_rivals(alloc, text, graph, actor),
        NetFault::InputRates { actor } => push_differing_blocks(alloc, text, graph, "input", actor),
        NetFault::OutputRates { actor } => {
            push_differing_blocks(alloc, text, graph, "output", actor)
        }
        NetFault::NoOutput { .. } => push_all_of(alloc, text, graph, "output", "channel"),
    }
}
