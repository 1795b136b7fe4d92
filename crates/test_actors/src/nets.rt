//! Nodes and links, for nets.

ghost use Rattle.std.specs.Prelude.{◌≡◌, IfOk};
ghost use Rattle.sdf_actor.specs.declared.node.Node.TheVariants.{Source, Sink, Inner};
ghost use Rattle.sdf_actor.specs.Wires.{wires};
ghost use Rattle.test_actors.specs.Rows.{empty_wires};

use crate::actors::Regroup;
use sdf_actor::{Link, Node};
use std::alloc::{AllocError, Global};

/// Makes a source of input list `ext`.
pub fn source<A>(ext: u8, block: u32) -> Node<A>
    ensures { result ≡ Source ext block }
{
    Node::Source { ext, block }
}

/// Makes a sink to output list `ext`.
pub fn sink<A>(ext: u8, block: u32) -> Node<A>
    ensures { result ≡ Sink ext block }
{
    Node::Sink { ext, block }
}

/// Makes a `Regroup` of `cycle` phases.
pub fn turning(cycle: u32, first: u16, middle: u16, last: u16) -> Node<Regroup>
    ensures { result ≡ Inner (record { cycle = cycle; first = first; middle = middle; last = last }) }
{
    Node::Inner(Regroup {
        cycle,
        first,
        middle,
        last,
    })
}

/// Makes links without initial samples. Each row of `ends` is a node and its output port, then a node and its input
/// port.
#[tactic(auto, using(std::proofs::lemmas::List::map_push, std::proofs::lemmas::List::map_more))]
pub fn links<T: Drop>(alloc: Global, ends: &[[usize; 4]]) -> Result<Vec<Link<T>>, AllocError>
    ensures { IfOk result (λ links. wires links.items ≡ empty_wires ends.now) }
{
    let mut links = Vec::new(alloc);
    for [from, output, to, input] in ends {
        links.push(Link {
            from: (*from, *output),
            to: (*to, *input),
            initial: Vec::new(alloc),
        })?;
    }
    Ok(links)
}
