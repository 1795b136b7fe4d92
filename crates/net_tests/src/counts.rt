//! The channels of a worked graph, and its counts after some firings.

ghost use Rattle.std.specs.Prelude.{◌≡◌};

use sdf_graph::{Counts, End, Graph};
use std::alloc::Global;
use std::fmt::Write;
use std::process::Abort;
use std::test::Fail;
use test_actors::graphs::{Row, graph};
use test_texts::says;

/// Returns a line for each actor: its cycle, its outgoing channels and its incoming channels. Each list comes from two
/// functions.
fn actors(alloc: Global, graph: &Graph) -> Result<String, Fail> {
    let mut text = String::new(alloc);
    for actor in 0..graph.actors() {
        let cycle = graph.cycle(actor);
        let (outgoing, from) = (graph.outgoing(actor), graph.channels_at(actor, End::Source));
        let (incoming, to) = (graph.incoming(actor), graph.channels_at(actor, End::Target));
        write!(
            text,
            "{cycle}: {outgoing:?} {from:?}, {incoming:?} {to:?}\n"
        )?;
    }
    Ok(text)
}

/// Returns what the firings 2 and 3 put on the channel `number` and take from it.
fn moved(alloc: Global, graph: &Graph, number: usize) -> Result<String, Fail> {
    let Some(channel) = graph.channels().get(number) else {
        return Ok(String::new(alloc));
    };
    if channel.put.is_empty() || channel.take.is_empty() {
        return Ok(String::new(alloc));
    }
    let put = (channel.puts(2), channel.puts(3));
    let taken = (channel.takes(2), channel.takes(3));
    Ok(format!(in alloc; "{put:?} {taken:?}")?)
}

/// Returns the firings of two actors, the samples on two channels, and the channel that each actor is short of.
fn counted(alloc: Global, graph: &Graph, counts: &Counts) -> Result<String, Fail>
    requires { counts.now.graph ≡ graph.now }
{
    if graph.actors() != 2 || graph.channels().len() != 2 {
        return Ok(String::new(alloc));
    }
    let fired = (counts.fired(0), counts.fired(1));
    let held = (counts.tokens(0), counts.tokens(1));
    let short = (counts.short_channel(0), counts.short_channel(1));
    Ok(format!(in alloc; "{fired:?} {held:?} {short:?}")?)
}

/// Fires `actor`, which must be enabled.
fn fire(rt: &impl Abort, graph: &Graph, counts: &mut Counts, actor: usize)
    requires { counts.old.graph ≡ graph.now }
    ensures { counts.new.graph ≡ graph.now }
{
    assert!(rt; actor < graph.actors());
    assert!(rt; counts.enabled(actor));
    assert!(rt; counts.fired(actor) < u32::MAX);
    counts.fire(actor);
}

fn counts_firings(rt: &(impl Abort + AllocGlobal), graph: &Graph) -> Result<(), Fail> {
    let alloc = rt.alloc();
    says(
        actors(alloc, graph),
        "1: [0] [0], [] []\n2: [1] [1], [0, 1] [0, 1]\n",
    )?;
    says(moved(alloc, graph, 1), "(1, 0) (0, 1)")?;
    let mut counts = Counts::new(alloc, graph)?;
    says(
        counted(alloc, graph, &counts),
        "(0, 0) (0, 0) (None, Some(0))",
    )?;
    fire(rt, graph, &mut counts, 0);
    says(counted(alloc, graph, &counts), "(1, 0) (3, 0) (None, None)")?;
    fire(rt, graph, &mut counts, 1);
    says(counted(alloc, graph, &counts), "(1, 1) (1, 1) (None, None)")
}

/// Tests a graph that has an actor with a cycle of two firings. A channel with three samples a firing leads to it, and
/// another channel leads from it to itself.
#[test]
fn channels_and_firings(rt: HostRuntime) -> Result<(), Fail> {
    let rows: [Row; 2] = [(0, &[3], &[2, 0], 1, 0), (1, &[1, 0], &[0, 1], 1, 0)];
    counts_firings(&rt, &graph(rt.alloc(), 2, &rows)?)
}
