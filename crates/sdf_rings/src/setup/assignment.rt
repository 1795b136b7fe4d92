//! The assignment of a table's firings to seats.

ghost use Rattle.std.specs.Prelude.{◌≡◌, ◌==◌, ◌++◌, ◌∷◌, [], if◌then◌else◌, map, IfOk, OnOk};
ghost use Rattle.sdf_graph.specs.Sequences.{repeated};
ghost use Rattle.sdf_rings.specs.Asks.{dealt};
ghost use Rattle.sdf_rings.specs.Begun.{place, IsAssignment};

use crate::seat::firing_list::FiringList;
use std::alloc::{AllocError, Global};

/// Appends a firing to `left`, the list of `seat`, if the `place` of its actor is on that seat.
fn add_if_here(place: (usize, usize), seat: usize, left: &mut Vec<usize>) -> Result<(), AllocError>
    ensures { OnOk result (left.new.items ≡ left.old.items ++ (if place.0 == seat then place.1 ∷ [] else [])) }
{
    if place.0 == seat {
        left.push(place.1)?;
    }
    Ok(())
}

/// The assignment of the firings of all blocks: each seat does the firings of its nodes.
#[derive(Clone, Copy)]
pub(crate) struct Assignment<'a> {
    /// The place of each node: its seat, and its index there.
    pub(crate) places: &'a [(usize, usize)],
    /// The nodes of a block's firings, in order.
    pub(crate) order: &'a [usize],
    pub(crate) blocks: u32,
}

impl<'a> Assignment<'a> {
    /// Returns the firings that `seat` does in one block, by ring node.
    fn block_of(&self, alloc: Global, seat: usize) -> Result<Vec<usize>, AllocError>
        requires { IsAssignment self.now }
        ensures { IfOk result (λ left. left.items ≡ map (λ a. (place self.now.places.now a).1)
            (dealt self.now.places.now self.now.order.now seat)) }
    {
        let mut left = Vec::new(alloc);
        for actor in self.order {
            add_if_here(self.places[*actor], seat, &mut left)?;
        }
        Ok(left)
    }

    /// Returns the firing list of `seat` over all blocks.
    pub(crate) fn list_for(&self, alloc: Global, seat: usize) -> Result<FiringList, AllocError>
        requires { IsAssignment self.now }
        ensures { IfOk result (λ left. left ≡ map (λ a. (place self.now.places.now a).1)
            (dealt self.now.places.now (repeated self.now.blocks self.now.order.now) seat)) }
    {
        let block = self.block_of(alloc, seat)?;
        FiringList::new(block, self.blocks)
    }
}
