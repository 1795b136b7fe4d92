//! The shapes of actors, their ports, and the links between the ports.

ghost use Rattle.std.specs.Prelude.{◌≡◌, ◌<◌, ◌≤◌, length};
ghost use Rattle.sdf_limits.specs.declared.TheConstants.{MAX_CYCLE, MAX_PORTS};
ghost use Rattle.sdf_actor.specs.Nets.{node, inputs_of, outputs_of};
ghost use Rattle.sdf_kit.specs.Kit.{kit_steps};
ghost use Rattle.sdf_draw.specs.Edges.{edge, from_end, to_end};
ghost use Rattle.sdf_draw.specs.Shapes.{kit_shape, shape_of};

use sdf_actor::Node;
use sdf_file::Design;
use sdf_graph::Channel;
use sdf_kit::Kit;

/// The shape that an actor is drawn as.
#[derive(Clone, Copy, Debug, PartialEq, Eq)]
pub(crate) enum Shape {
    Source,
    Sink,
    Filter,
    Plain,
}

/// The numbers of input and output ports of an actor.
#[derive(Clone, Copy)]
pub(crate) struct PortCounts {
    pub(crate) inputs: usize,
    pub(crate) outputs: usize,
}

fn kit_shape(kit: &Kit) -> Shape
    ensures { result ≡ kit_shape kit.now }
{
    match kit {
        Kit::Fir(_) => Shape::Filter,
        _ => Shape::Plain,
    }
}

pub(crate) fn shape_of(design: &Design, actor: usize) -> Shape
    requires { actor < length design.now.net.nodes }
    ensures { result ≡ shape_of (node design.now.net actor) }
{
    match design.net().node(actor) {
        Node::Source { .. } => Shape::Source,
        Node::Sink { .. } => Shape::Sink,
        Node::Inner(kit) => kit_shape(kit),
    }
}

/// Returns the numbers of ports of `kit`.
fn kit_ports(kit: &Kit) -> PortCounts
    ensures inputs { result.inputs ≡ kit_steps.inputs kit.now }
    ensures outputs { result.outputs ≡ kit_steps.outputs kit.now }
    ensures few { (result.inputs ≤ MAX_PORTS) × (result.outputs ≤ MAX_PORTS) }
{
    let ports = kit.ports();
    PortCounts {
        inputs: ports.inputs.count(),
        outputs: ports.outputs.count(),
    }
}

pub(crate) fn ports_of(design: &Design, actor: usize) -> PortCounts
    requires { actor < length design.now.net.nodes }
    ensures inputs { result.inputs ≡ inputs_of kit_steps (node design.now.net actor) }
    ensures outputs { result.outputs ≡ outputs_of kit_steps (node design.now.net actor) }
    ensures few { (result.inputs ≤ MAX_PORTS) × (result.outputs ≤ MAX_PORTS) }
{
    match design.net().node(actor) {
        Node::Source { .. } => PortCounts {
            inputs: 0,
            outputs: 1,
        },
        Node::Sink { .. } => PortCounts {
            inputs: 1,
            outputs: 0,
        },
        Node::Inner(kit) => kit_ports(kit),
    }
}

/// An end of a link: an actor, its port, and how many ports the actor has on that side.
#[derive(Clone, Copy)]
pub(crate) struct End {
    pub(crate) actor: usize,
    pub(crate) port: usize,
    pub(crate) ports: usize,
}

/// The ends of a link.
#[derive(Clone, Copy)]
pub(crate) struct LinkEnds {
    pub(crate) from: End,
    pub(crate) to: End,
}

/// Returns the ends of `link`.
pub(crate) fn ends_of(design: &Design, link: usize) -> LinkEnds
    requires { link < length design.now.net.wires }
    ensures from { result.from ≡ from_end design.now link }
    ensures to { result.to ≡ to_end design.now link }
    ensures actors { (result.from.actor < length design.now.net.nodes)
        × (result.to.actor < length design.now.net.nodes) }
    ensures ports { (result.from.port < MAX_PORTS) × (result.to.port < MAX_PORTS) }
    ensures few { (result.from.ports ≤ MAX_PORTS) × (result.to.ports ≤ MAX_PORTS) }
{
    let link = design.net().link(link);
    let (from, to) = (link.from, link.to);
    LinkEnds {
        from: End {
            actor: from.0,
            port: from.1,
            ports: ports_of(design, from.0).outputs,
        },
        to: End {
            actor: to.0,
            port: to.1,
            ports: ports_of(design, to.0).inputs,
        },
    }
}

/// Returns the channel of `link`, with what firings put on it and take from it.
pub(crate) fn channel_of(design: &Design, link: usize) -> &Channel
    requires { link < length design.now.net.wires }
    ensures is { result.now ≡ edge design.now link }
    ensures known { (result.now.from < length design.now.net.nodes) × (result.now.to < length design.now.net.nodes) }
    ensures short { (length result.now.put ≤ MAX_CYCLE) × (length result.now.take ≤ MAX_CYCLE) }
{
    &design.net().graph().channels()[link]
}
