//! The graph that the actors and links of a document make.

ghost use Rattle.std.specs.Prelude.{◌≡◌, ℕ, length, map, slice_index_or, IfOk};
ghost use Rattle.std.specs.List.{range_with_len};
ghost use Rattle.sdf_actor.specs.declared.node.Node.TheVariants.{Sink};
ghost use Rattle.sdf_actor.specs.Graphs.{channel_of};
ghost use Rattle.sdf_kit.specs.Ports.{moved};
ghost use Rattle.sdf_kit.specs.Kit.{kit_steps};
ghost use Rattle.sdf_document.specs.Actors.{actor_view};
ghost use Rattle.sdf_document.specs.Links.{link_view};
ghost use Rattle.sdf_file.specs.Designs.{node_of, wire_of};
ghost use Rattle.sdf_why.specs.Channels.{ArePortsOf, nodes_of};

use sdf_document::{ActorEntry, KindEntry, LinkEntry};
use sdf_graph::Channel;
use sdf_kinds::ports as rows;
use sdf_kit::{PortRates, Ports};
use std::alloc::{AllocError, Global};

/// Returns the ports of `kind`. An input and an output move a block at any port, as in the graph of a net.
pub(crate) fn ports_of(kind: &KindEntry) -> Ports
    ensures { ArePortsOf result (node_of kind.now) }
{
    match kind {
        KindEntry::Input { block, .. } => Ports::steady(0, *block, 1, *block),
        KindEntry::Output { block, .. } => Ports::steady(1, *block, 0, *block),
        KindEntry::Fir { up, down, .. } => Ports::of_row(rows::fir(*up, *down, 1)),
        KindEntry::Decimate { factor } => Ports::of_row(rows::decimate(*factor, 1)),
        KindEntry::Interpolate { factor } => Ports::of_row(rows::interpolate(*factor, 1)),
        KindEntry::Add { ways } => Ports::of_row(rows::add(*ways, 1)),
        KindEntry::Fork { ways } => Ports::of_row(rows::fork(*ways, 1)),
        KindEntry::Gain { .. }
        | KindEntry::Delay { .. }
        | KindEntry::Table { .. }
        | KindEntry::Clip { .. }
        | KindEntry::Offset { .. } => Ports::of_row(rows::pointwise(1)),
        KindEntry::Deal { ways, run } => Ports::of_row(rows::deal(*ways, *run, 1)),
        KindEntry::Gather { ways, run } => Ports::of_row(rows::gather(*ways, *run, 1)),
    }
}

/// Returns the ports of an output that moves no samples.
fn no_ports() -> Ports
    ensures { ArePortsOf result (Sink 0 0) }
{
    Ports::steady(1, 0, 0, 0)
}

/// Returns the ports of `actor`, or ports that move no samples if there is no actor with this number.
fn ports_at(actors: &[ActorEntry], actor: usize) -> Ports
    ensures { ArePortsOf result (slice_index_or (nodes_of (map actor_view actors.now)) actor (Sink 0 0)) }
{
    if actor < actors.len() {
        ports_of(&actors[actor].kind)
    } else {
        no_ports()
    }
}

/// Returns the number of samples that each firing of a cycle moves at `port`.
fn rates(alloc: Global, side: PortRates, port: usize, cycle: u32) -> Result<Vec<u32>, AllocError>
    ensures { IfOk result (λ v. v.items ≡ map (moved side port) (range_with_len 0 cycle)) }
{
    let mut rates = Vec::new(alloc);
    for phase in 0..cycle {
        rates.push(side.moved(port, phase))?;
    }
    Ok(rates)
}

/// Returns the channel of `link`.
fn channel_of(alloc: Global, actors: &[ActorEntry], link: &LinkEntry) -> Result<Channel, AllocError>
    ensures { IfOk result (λ c. c ≡
        channel_of kit_steps (nodes_of (map actor_view actors.now)) (wire_of (link_view link.now))) }
{
    let from = ports_at(actors, link.from.0);
    let to = ports_at(actors, link.to.0);
    let put = rates(alloc, from.outputs, link.from.1, from.cycle)?;
    let take = rates(alloc, to.inputs, link.to.1, to.cycle)?;
    Ok(Channel {
        from: link.from.0,
        put,
        to: link.to.0,
        take,
        initial: link.initial.len(),
    })
}

/// Returns the channels of `links`.
pub(crate) fn channels_of(
    alloc: Global,
    actors: &[ActorEntry],
    links: &[LinkEntry],
) -> Result<Vec<Channel>, AllocError>
    ensures { IfOk result (λ v. v.items ≡
        map (channel_of kit_steps (nodes_of (map actor_view actors.now))) (map wire_of (map link_view links.now))) }
{
    let mut channels = Vec::new(alloc);
    for link in links {
        channels.push(channel_of(alloc, actors, link)?)?;
    }
    Ok(channels)
}
