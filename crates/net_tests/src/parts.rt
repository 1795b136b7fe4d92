//! Nets made of the parts in the rows of a test.

use sdf_actor::{Link, Net, Node};
use std::alloc::{AllocError, Global};
use std::test::Fail;
use test_actors::Regroup;
use test_actors::nets::{sink, source, turning};

/// A node: a source or a sink with its list and its block, or an actor with its number of phases and its rates.
#[derive(Clone, Copy)]
pub(crate) enum Part {
    In(u8, u32),
    Out(u8, u32),
    Turning(u32, [u16; 3]),
}

pub(crate) fn nodes(alloc: Global, parts: &[Part]) -> Result<Vec<Node<Regroup>>, AllocError> {
    let mut nodes = Vec::new(alloc);
    for part in parts {
        nodes.push(match *part {
            Part::In(ext, block) => source(ext, block),
            Part::Out(ext, block) => sink(ext, block),
            Part::Turning(cycle, rates) => turning(cycle, rates[0], rates[1], rates[2]),
        })?;
    }
    Ok(nodes)
}

/// Returns the text of the fault with which a net is refused, or nothing if the net is made.
pub(crate) fn refusal(
    alloc: Global,
    parts: &[Part],
    links: Vec<Link<i32>>,
) -> Result<String, Fail> {
    match Net::new(alloc, nodes(alloc, parts)?, links) {
        Ok(_) => Ok(String::new(alloc)),
        Err(fault) => Ok(fault.to_string(alloc)?),
    }
}

/// Links from two sources to an actor, and from there to two sinks.
pub(crate) const THROUGH: &[[usize; 4]] = &[[0, 0, 2, 0], [1, 0, 2, 1], [2, 0, 3, 0], [2, 1, 4, 0]];
