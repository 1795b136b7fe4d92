//! The diagnostic for a deadlock: a cycle of links that hold too little, and the other links for which actors wait.

ghost use Rattle.std.specs.Prelude.{◌≡◌, ℕ, ◌*◌, ◌+◌, ◌-◌, ◌^◌, ◌≤◌, ◌<◌, ◌++◌, Some, length, IfOk, OnOk, MatchOption};
ghost use Rattle.std.specs.Prelude.{string_bytes};
ghost use Rattle.std.specs.List.{All, flat_map};
ghost use Rattle.toml.specs.View.{view};
ghost use Rattle.sdf_why.specs.Cycles.{done_at, short_at, first_waiting, Waits, HasNoCycle, IsCycle, held, wanted};
ghost use Rattle.sdf_why.specs.Cycles.{lack_told, is_among, other_told, others_told, IsCycleText};

use crate::links::push_link_of;
use crate::tables::{entry, text_at};
use crate::words::{Lack, push_lack};
use sdf_graph::{Channel, Graph, moved_by};
use sdf_limits::MAX_INITIAL;
use std::alloc::{AllocError, Global};
use toml::Value;

/// The number of firings of an actor, and the channel that it waits for.
#[derive(Clone, Copy)]
pub struct Halt {
    pub done: u32,
    pub short: Option<usize>,
}

fn done_at(halts: &[Halt], actor: usize) -> u32
    ensures { result ≡ done_at halts.now actor }
{
    match halts.get(actor) {
        Some(halt) => halt.done,
        None => 0,
    }
}

fn short_at(halts: &[Halt], actor: usize) -> Option<usize>
    ensures { result ≡ short_at halts.now actor }
{
    halts.get(actor)?.short
}

/// Returns the first actor that waits.
fn first_waiting(halts: &[Halt]) -> Option<usize>
    ensures { result ≡ first_waiting halts.now }
{
    (0..halts.len()).find(|actor| short_at(halts, *actor).is_some())
}

/// Returns the channel that `actor` waits for, and its source.
fn next(graph: &Graph, halts: &[Halt], actor: usize) -> Option<(usize, usize)>
    ensures { MatchOption result ((c m : ℕ) → Waits graph.now halts.now actor c m → ⊥)
        (λ r. Waits graph.now halts.now actor r.0 r.1) }
{
    let number = short_at(halts, actor)?;
    let channels = graph.channels();
    if number >= channels.len() {
        return None;
    }
    let channel = &channels[number];
    if channel.to == actor {
        Some((number, channel.from))
    } else {
        None
    }
}

/// Returns the channels of the cycle that a walk from `first` reaches. Each actor on the way waits for the next one.
fn cycle_from(
    alloc: Global,
    graph: &Graph,
    halts: &[Halt],
    first: usize,
) -> Result<Option<Vec<usize>>, AllocError>
    requires { first_waiting halts.now ≡ Some first }
    ensures { IfOk result (λ r. MatchOption r (HasNoCycle graph.now halts.now)
        (λ v. IsCycle graph.now halts.now v.items)) }
{
    let mut path = Vec::new(alloc);
    let mut places = vec![in alloc; None; halts.len()]?;
    let mut actor = first;
    while let Some((channel, source)) = next(graph, halts, actor) {
        if let Some(place) = places[actor] {
            return Ok(Some(path.split_off(place)?));
        }
        places[actor] = Some(path.len());
        path.push(channel)?;
        actor = source;
    }
    Ok(None)
}

pub(crate) fn cycle_of(
    alloc: Global,
    graph: &Graph,
    halts: &[Halt],
) -> Result<Option<Vec<usize>>, AllocError>
    ensures { IfOk result (λ r. MatchOption r (HasNoCycle graph.now halts.now)
        (λ v. IsCycle graph.now halts.now v.items)) }
{
    match first_waiting(halts) {
        Some(actor) => cycle_from(alloc, graph, halts, actor),
        None => Ok(None),
    }
}

/// Returns the number of samples that `channel` holds after `put` samples were put and `taken` samples were taken.
fn held(channel: &Channel, put: u64, taken: u64) -> u64
    requires initial { channel.now.initial ≤ MAX_INITIAL }
    requires put { put ≤ 2 ^ 63 }
    ensures { result ≡ channel.now.initial + put - taken }
{
    (channel.initial as u64 + put).saturating_sub(taken)
}

/// Returns what the channel `number` holds, and what the next firing of its target takes.
fn lack_of(graph: &Graph, halts: &[Halt], number: usize) -> Lack
    requires { number < length graph.now.channels }
    ensures holds { result.holds ≡ held graph.now halts.now number }
    ensures needs { result.needs ≡ wanted graph.now halts.now number }
{
    let channel = &graph.channels()[number];
    let put = moved_by(&channel.put, u64::from(done_at(halts, channel.from)));
    let done = done_at(halts, channel.to);
    Lack {
        holds: held(channel, put, moved_by(&channel.take, u64::from(done))),
        needs: channel.takes(done),
    }
}

/// Adds the line of the link `number` of a cycle.
#[tactic(auto, unfolding(crate::specs::Cycles::lack_told))]
fn push_lack_of(
    alloc: Global,
    text: &mut String,
    document: &Value,
    graph: &Graph,
    halts: &[Halt],
    number: usize,
) -> Result<(), AllocError>
    requires { number < length graph.now.channels }
    ensures { OnOk result (string_bytes text.new ≡ string_bytes text.old
        ++ lack_told (view document.now) graph.now halts.now number) }
{
    let Some(link) = entry(document, "link", number) else {
        return Ok(());
    };
    let lack = lack_of(graph, halts, number);
    push_lack(
        alloc,
        text,
        number,
        text_at(link, "from"),
        text_at(link, "to"),
        lack,
    )
}

/// Adds the lines of the `links` of a cycle.
fn push_lacks(
    alloc: Global,
    text: &mut String,
    document: &Value,
    graph: &Graph,
    halts: &[Halt],
    links: &[usize],
) -> Result<(), AllocError>
    requires { All (λ c. c < length graph.now.channels) links.now }
    ensures { OnOk result (string_bytes text.new ≡ string_bytes text.old
        ++ flat_map (lack_told (view document.now) graph.now halts.now) links.now) }
{
    for link in links {
        push_lack_of(alloc, text, document, graph, halts, *link)?;
    }
    Ok(())
}

/// Checks whether `link` is one of `links`.
fn is_among(links: &[usize], link: usize) -> bool
    ensures { result ≡ is_among links.now link }
{
    links.iter().any(|other| *other == link)
}

/// Adds the link that `actor` waits for, unless it is one of the `links` of a cycle.
#[tactic(auto, unfolding(crate::specs::Cycles::other_told))]
fn push_other(
    alloc: Global,
    text: &mut String,
    document: &Value,
    halts: &[Halt],
    links: &[usize],
    actor: usize,
) -> Result<(), AllocError>
    ensures { OnOk result (string_bytes text.new ≡ string_bytes text.old
        ++ other_told (view document.now) halts.now links.now actor) }
{
    match short_at(halts, actor) {
        Some(link) if !is_among(links, link) => push_link_of(alloc, text, document, link),
        _ => Ok(()),
    }
}

/// Adds the links that actors wait for, except the `links` of a cycle.
fn push_others(
    alloc: Global,
    text: &mut String,
    document: &Value,
    halts: &[Halt],
    links: &[usize],
) -> Result<(), AllocError>
    ensures { OnOk result (string_bytes text.new ≡ string_bytes text.old
        ++ others_told (view document.now) halts.now links.now) }
{
    for actor in 0..halts.len() {
        push_other(alloc, text, document, halts, links, actor)?;
    }
    Ok(())
}

/// Returns the diagnostic for a deadlock of `graph` whose actors stopped as in `halts`.
pub(crate) fn cycle_text(
    alloc: Global,
    document: &Value,
    graph: &Graph,
    halts: &[Halt],
) -> Result<String, AllocError>
    ensures { IfOk result (λ text. IsCycleText (view document.now) graph.now halts.now (string_bytes text)) }
{
    let mut text = String::new(alloc);
    let Some(links) = cycle_of(alloc, graph, halts)? else {
        return Ok(text);
    };
    push_lacks(alloc, &mut text, document, graph, halts, &links)?;
    push_others(alloc, &mut text, document, halts, &links)?;
    Ok(text)
}
