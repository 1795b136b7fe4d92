//! The nodes and links of a net, made from entries.
ghost use Rattle.std.specs.Prelude.{◌≡◌, ◌≤◌, ◌+◌, ◌++◌, ◌∷◌, [], true, length, IsTrue, map, Ok, IfOk, OnOk};
ghost use Rattle.std.specs.Prelude.{string_bytes};
ghost use Rattle.std.specs.List.{All};
ghost use Rattle.std.specs.Result.{result_map_both};
ghost use Rattle.sdf_actor.specs.declared.node.Node.TheVariants.{Inner};
ghost use Rattle.sdf_kinds.specs.declared.row.Width.TheVariants as width;
ghost use Rattle.sdf_limits.specs.declared.TheConstants.{MAX_CHANNEL, MAX_FACTOR, MAX_SHIFT, MAX_TAPS};
ghost use Rattle.sdf_document.specs.Lists.{is_list};
ghost use Rattle.sdf_kit.specs.declared.kit.Kit.TheVariants as kits;
ghost use Rattle.sdf_document.specs.Kinds.{IsWithin};
ghost use Rattle.sdf_document.specs.Actors.{ActorValue, actor_view, names_in, IsActorWithin};
ghost use Rattle.sdf_document.specs.Names.{names_of};
ghost use Rattle.sdf_document.specs.Links.{link_view};
ghost use Rattle.sdf_actor.specs.Sides.{list_count};
ghost use Rattle.sdf_actor.specs.declared.sides.Lists.TheVariants.{Inputs, Outputs};
ghost use Rattle.sdf_actor.specs.Wires.{wires, wire_of as wire_of_link};
ghost use Rattle.sdf_file.specs.Designs.{node_of, wire_of, HaveCosts};

use sdf_actor::{Link, Node};
use sdf_document::{ActorEntry, KindEntry, LinkEntry, ListEntry};
use sdf_kit::{Kit, KitFault};
use std::alloc::{AllocError, Global};

/// Moves the values out of `list`.
fn list_values(list: ListEntry) -> Vec<i32>
    ensures { result.items ≡ list.values }
{
    list.values
}

/// Makes a FIR filter. Its values are within their limits, so no test of the kit fails.
fn filter_of(up: u32, down: u32, shift: u32, taps: Vec<i32>) -> Result<Kit, KitFault>
    requires up { (1 ≤ up) × (up ≤ MAX_FACTOR) }
    requires down { (1 ≤ down) × (down ≤ MAX_FACTOR) }
    requires shift { shift ≤ MAX_SHIFT }
    requires taps { IsTrue (is_list MAX_TAPS width.Bits16 taps.items) }
    ensures { result ≡ Ok (kits.Fir (record { up = up; down = down; taps = taps.items; shift = shift })) }
{
    Kit::fir(up, down, taps, shift)
}

/// Wraps `kit` as an inner node.
fn inner_node(kit: Result<Kit, KitFault>) -> Result<Node<Kit>, KitFault>
    ensures { result ≡ result_map_both Inner (λ e. e) kit }
{
    match kit {
        Ok(kit) => Ok(Node::Inner(kit)),
        Err(fault) => Err(fault),
    }
}

/// Makes the node of `kind`. Its values are within their limits, so no test of the kit fails.
fn tested_node(kind: KindEntry) -> Result<Node<Kit>, KitFault>
    requires { IsWithin true kind }
    ensures { result ≡ Ok (node_of kind) }
{
    match kind {
        KindEntry::Input { channel, block } => Ok(Node::Source {
            ext: channel as u8,
            block,
        }),
        KindEntry::Output { channel, block } => Ok(Node::Sink {
            ext: channel as u8,
            block,
        }),
        KindEntry::Fir {
            up,
            down,
            shift,
            taps,
        } => inner_node(filter_of(up, down, shift, list_values(taps))),
        KindEntry::Decimate { factor } => inner_node(Kit::decimate(factor)),
        KindEntry::Interpolate { factor } => inner_node(Kit::interpolate(factor)),
        KindEntry::Add { ways } => inner_node(Kit::add(ways as usize)),
        KindEntry::Fork { ways } => inner_node(Kit::fork(ways as usize)),
        KindEntry::Gain { gain, shift } => inner_node(Kit::gain(gain, shift)),
        KindEntry::Delay { length } => inner_node(Kit::delay(length as usize)),
        KindEntry::Table { offset, values } => inner_node(Kit::table(offset, list_values(values))),
        KindEntry::Deal { ways, run } => inner_node(Kit::deal(ways as usize, run)),
        KindEntry::Gather { ways, run } => inner_node(Kit::gather(ways as usize, run)),
        KindEntry::Clip { least, greatest } => inner_node(Kit::clip(least, greatest)),
        KindEntry::Offset { value } => inner_node(Kit::offset(value)),
    }
}

fn node_of(kind: KindEntry) -> Node<Kit>
    requires { IsWithin true kind }
    ensures { result ≡ node_of kind }
{
    match tested_node(kind) {
        Ok(node) => node,
        Err(_) => unreachable!(),
    }
}

/// The nodes of actors, with their names, home processors and costs.
#[derive(Drop)]
pub(crate) struct DesignParts {
    pub(crate) nodes: Vec<Node<Kit>>,
    pub(crate) names: Vec<String>,
    pub(crate) homes: Vec<Option<usize>>,
    pub(crate) costs: Vec<u32>,
}

impl DesignParts {
    #[tactic(auto, using(std::proofs::lemmas::List::map_push))]
    fn push(&mut self, actor: ActorEntry) -> Result<(), AllocError>
        requires { IsActorWithin true actor }
        ensures nodes { OnOk result (self.new.nodes.items ≡ self.old.nodes.items ++ node_of actor.kind ∷ []) }
        ensures names { OnOk result (names_of self.new.names.items ≡
            names_of self.old.names.items ++ string_bytes actor.name ∷ []) }
        ensures homes { OnOk result (self.new.homes.items ≡ self.old.homes.items ++ actor.processor ∷ []) }
        ensures costs { OnOk result (self.new.costs.items ≡ self.old.costs.items ++ actor.cost ∷ []) }
    {
        self.nodes.push(node_of(actor.kind))?;
        self.names.push(actor.name)?;
        self.homes.push(actor.processor)?;
        Ok(self.costs.push(actor.cost)?)
    }
}

/// Makes the parts of `actors`, in their order.
pub(crate) fn parts_of(alloc: Global, actors: Vec<ActorEntry>) -> Result<DesignParts, AllocError>
    requires within { All (IsActorWithin true) actors.items }
    ensures nodes { IfOk result (λ p. p.nodes.items ≡
        map (λ (a : ActorValue). node_of a.kind) (map actor_view actors.items)) }
    ensures names { IfOk result (λ p. names_of p.names.items ≡ names_in (map actor_view actors.items)) }
    ensures homes { IfOk result (λ p. p.homes.items ≡
        map (λ (a : ActorValue). a.processor) (map actor_view actors.items)) }
    ensures costs { IfOk result (λ p. p.costs.items ≡ map (λ (a : ActorValue). a.cost) (map actor_view actors.items)) }
    ensures priced { IfOk result (λ p. HaveCosts (length actors.items) p.costs.items) }
    ensures inputs { IfOk result (λ p. list_count Inputs p.nodes.items ≤ MAX_CHANNEL + 1) }
    ensures outputs { IfOk result (λ p. list_count Outputs p.nodes.items ≤ MAX_CHANNEL + 1) }
{
    let mut parts = DesignParts {
        nodes: Vec::new(alloc),
        names: Vec::new(alloc),
        homes: Vec::new(alloc),
        costs: Vec::new(alloc),
    };
    for actor in actors {
        parts.push(actor)?;
    }
    Ok(parts)
}

fn link_of(link: LinkEntry) -> Link<i32>
    ensures { wire_of_link result ≡ wire_of (link_view link) }
{
    Link {
        from: link.from,
        to: link.to,
        initial: link.initial,
    }
}

/// Converts `links` to links of a net, in their order.
pub(crate) fn links_of(alloc: Global, links: Vec<LinkEntry>) -> Result<Vec<Link<i32>>, AllocError>
    ensures { IfOk result (λ v. wires v.items ≡ map wire_of (map link_view links.items)) }
{
    let mut made = Vec::new(alloc);
    for link in links {
        made.push(link_of(link))?;
    }
    Ok(made)
}
