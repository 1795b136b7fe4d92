//! A worker's firing list.

ghost use Rattle.std.specs.Prelude.{◌≡◌, ◌+◌, ◌<◌, ◌≤◌, ℕ, length, slice_index, IfOk};
ghost use Rattle.sdf_graph.specs.Sequences.{repeated};

use std::alloc::AllocError;
use std::marker::Model;

/// A worker's firing list: the ring nodes to fire, in order. It repeats the list of one block `blocks` times, but
/// stores it once.
#[derive(Drop)]
pub struct FiringList {
    block: Vec<usize>,
    blocks: u32,
    len: usize,
}

impl Model for FiringList {
    ghost use Rattle.std.specs.Prelude.{◌≡◌, ℕ, List, length};
    ghost use Rattle.sdf_graph.specs.Sequences.{repeated};

    ghost Value = { List ℕ };

    ghost view = { λ c. repeated c.blocks c.block.items };

    ghost invariant = { λ c. length (repeated c.blocks c.block.items) ≡ c.len };
}

impl FiringList {
    /// Returns `blocks` repetitions of the list `block`. Fails with `AllocError` if their length does not fit into a
    /// `usize`.
    #[tactic(auto, using(crate::proofs::ListLaws::long))]
    pub(crate) fn new(block: Vec<usize>, blocks: u32) -> Result<FiringList, AllocError>
        ensures { IfOk result (λ list. list ≡ repeated blocks block.items) }
    {
        match block.len().checked_mul(blocks as usize) {
            Some(len) => Ok(FiringList { block, blocks, len }),
            None => Err(AllocError),
        }
    }

    /// Returns the number of firings.
    pub(crate) fn len(&self) -> usize
        ensures { result ≡ length self.now }
    {
        self.len
    }

    /// Returns the ring node of the firing at `place`.
    #[tactic(auto, using(crate::proofs::ListLaws::some, crate::proofs::ListLaws::here))]
    pub(crate) fn ring_node(&self, place: usize) -> usize
        requires { place < length self.now }
        ensures { result ≡ slice_index self.now place }
    {
        self.block[place % self.block.len()]
    }

    /// Returns how many firings in a row, from `place` on, are of the ring node there: within one block, and at most
    /// `most`.
    #[tactic(auto, using(crate::proofs::ListLaws::some, crate::proofs::ListLaws::row, crate::proofs::ListLaws::inside))]
    pub(crate) fn in_a_row(&self, place: usize, most: usize) -> usize
        requires { place < length self.now }
        ensures within { result ≤ most }
        ensures inside { place + result ≤ length self.now }
        ensures same { (j : ℕ) → j < result → slice_index self.now place ≡ slice_index self.now (place + j) }
    {
        let first = place % self.block.len();
        let many = most.min(self.block.len() - first);
        for j in 0..many {
            if self.block[first + j] != self.block[first] {
                return j;
            }
        }
        many
    }
}
