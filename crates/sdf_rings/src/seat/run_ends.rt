//! The blocks of a batch of firings at the ends of rings. In a working block they are in the order of the firings, and
//! within a firing by port. A ring has the blocks of one port.

ghost use Rattle.std.specs.Prelude.{◌≡◌, ◌≤◌, ◌<◌, ◌+◌, ◌*◌, length, ℕ, take, slice_range, slice_index};
ghost use Rattle.rtrb.specs.Ring.{known_items, known_free};
ghost use Rattle.sdf_node.specs.Many.{nth_block, joined};
ghost use Rattle.sdf_rings.specs.Blocks.{block_of};
ghost use Rattle.sdf_rings.specs.Ends.{Drew, Gave, DrewEach, GaveEach, HoldsEach, HasRoomEach};
ghost use Rattle.sdf_rings.specs.BatchBlocks.{HasPorts, batch_sizes, port_blocks};

use crate::seat::ends::{put_block, put_each, take_block, take_each};
use rtrb::{Consumer, Producer};
use sdf_queues::many_blocks::whole_blocks;
use sdf_queues::parts::{deal_row, gather_row};
use std::alloc::Global;

/// Returns how many blocks every port is known to hold, at most `most`.
pub(crate) fn blocks_held<T>(sizes: &[usize], ends: &[Consumer<T, Global>], most: usize) -> usize
    requires { length ends.now ≡ length sizes.now }
    ensures within { result ≤ most }
    ensures held { HoldsEach (λ i. result * slice_index sizes.now i) ends.now }
{
    let mut many = most;
    for i in 0..ends.len() {
        many = whole_blocks(ends[i].cached_slots(), sizes[i], many);
    }
    many
}

/// Returns for how many blocks every port is known to have room, at most `most`.
pub(crate) fn blocks_free<T>(sizes: &[usize], ends: &[Producer<T, Global>], most: usize) -> usize
    requires { length ends.now ≡ length sizes.now }
    ensures within { result ≤ most }
    ensures free { HasRoomEach (λ i. result * slice_index sizes.now i) ends.now }
{
    let mut many = most;
    for i in 0..ends.len() {
        many = whole_blocks(ends[i].cached_slots(), sizes[i], many);
    }
    many
}

/// The blocks of a batch of a node's firings, at its input ports or at its output ports.
#[derive(Clone, Copy)]
pub(crate) struct BatchBlocks<'a> {
    /// Samples that one firing moves at each port.
    pub(crate) sizes: &'a [usize],
    /// Samples that one firing moves at all ports together.
    pub(crate) size: usize,
    /// Firings in the batch.
    pub(crate) many: usize,
}

impl<'a> BatchBlocks<'a> {
    /// Takes the blocks of one firing into `taken`, from offset `at` on.
    fn take_firing<T: Copy>(&self, ends: &mut [Consumer<T, Global>], taken: &mut [T], at: usize)
        requires ports { HasPorts self.now (length ends.old) }
        requires inside { at + self.now.size ≤ length taken.old }
        requires known { HoldsEach (slice_index self.now.sizes.now) ends.old }
        ensures drew { DrewEach ends.old ends.new (λ p. block_of (slice_index self.now.sizes.now) p
            (slice_range taken.new at (at + self.now.size))) }
        ensures before { (n : ℕ) → n ≤ at → take n taken.new ≡ take n taken.old }
    {
        take_each(self.sizes, ends, &mut taken[at..at + self.size]);
    }

    /// Takes the blocks of all firings, one firing after another.
    fn take_by_firing<T: Copy>(&self, ends: &mut [Consumer<T, Global>], taken: &mut [T])
        requires ports { HasPorts self.now (length ends.old) }
        requires length { length taken.old ≡ self.now.size * self.now.many }
        requires known { HoldsEach (batch_sizes self.now) ends.old }
        ensures { DrewEach ends.old ends.new (port_blocks self.now taken.new) }
    {
        let mut at = 0;
        for _ in 0..self.many {
            self.take_firing(ends, taken, at);
            at += self.size;
        }
    }

    /// Takes the blocks of one port in one call. In `taken` each firing has `size` samples, and this port's `width` of
    /// them begin at offset `at`.
    fn take_part<T: Copy>(
        &self,
        end: &mut Consumer<T, Global>,
        taken: &mut [T],
        scratch: &mut [T],
        at: usize,
        width: usize,
    )
        requires inside { at + width ≤ self.now.size }
        requires length { length taken.old ≡ self.now.size * self.now.many }
        requires long { length taken.old ≤ length scratch.old }
        requires known { self.now.many * width ≤ length (known_items end.old) }
        ensures drew { Drew end.old end.new
            (joined (λ i. slice_range (nth_block self.now.size taken.new i) at (at + width)) self.now.many) }
        ensures before { (i a w : ℕ) → i < self.now.many → a + w ≤ at →
            slice_range (nth_block self.now.size taken.new i) a (a + w) ≡
            slice_range (nth_block self.now.size taken.old i) a (a + w) }
    {
        take_block(end, &mut scratch[..width * self.many]);
        let row = &scratch[..width * self.many];
        deal_row(row, taken, at, width, self.many, self.size);
    }

    /// Takes all blocks with one call for each port. `scratch` holds the blocks of a port until they are dealt out to
    /// `taken`.
    #[tactic(auto, using(crate::proofs::Blocks::block_in))]
    fn take_by_port<T: Copy>(
        &self,
        ends: &mut [Consumer<T, Global>],
        taken: &mut [T],
        scratch: &mut [T],
    )
        requires ports { HasPorts self.now (length ends.old) }
        requires length { length taken.old ≡ self.now.size * self.now.many }
        requires long { length taken.old ≤ length scratch.old }
        requires known { HoldsEach (batch_sizes self.now) ends.old }
        ensures { DrewEach ends.old ends.new (port_blocks self.now taken.new) }
    {
        let mut at = 0;
        for i in 0..ends.len() {
            let width = self.sizes[i];
            self.take_part(&mut ends[i], taken, scratch, at, width);
            at += width;
        }
    }

    /// Takes all blocks into `taken`. Each port takes one call if there is only one port or `scratch` has the room.
    fn take<T: Copy>(&self, ends: &mut [Consumer<T, Global>], taken: &mut [T], scratch: &mut [T])
        requires ports { HasPorts self.now (length ends.old) }
        requires length { length taken.old ≡ self.now.size * self.now.many }
        requires known { HoldsEach (batch_sizes self.now) ends.old }
        ensures { DrewEach ends.old ends.new (port_blocks self.now taken.new) }
    {
        if ends.len() == 1 {
            take_block(&mut ends[0], taken);
        } else if taken.len() <= scratch.len() {
            self.take_by_port(ends, taken, scratch);
        } else {
            self.take_by_firing(ends, taken);
        }
    }

    /// Takes all blocks into the front of `taken`.
    pub(crate) fn take_front<T: Copy>(
        &self,
        ends: &mut [Consumer<T, Global>],
        taken: &mut [T],
        scratch: &mut [T],
    )
        requires ports { HasPorts self.now (length ends.old) }
        requires long { self.now.size * self.now.many ≤ length taken.old }
        requires known { HoldsEach (batch_sizes self.now) ends.old }
        ensures { DrewEach ends.old ends.new
            (port_blocks self.now (take (self.now.size * self.now.many) taken.new)) }
    {
        let (front, _) = taken.split_at_mut(self.size * self.many);
        self.take(ends, front, scratch);
    }

    /// Puts the blocks of one firing, which begin at offset `at` of `put`.
    fn put_firing<T: Copy>(&self, ends: &mut [Producer<T, Global>], put: &[T], at: usize)
        requires ports { HasPorts self.now (length ends.old) }
        requires inside { at + self.now.size ≤ length put.now }
        requires room { HasRoomEach (slice_index self.now.sizes.now) ends.old }
        ensures { GaveEach ends.old ends.new (λ p. block_of (slice_index self.now.sizes.now) p
            (slice_range put.now at (at + self.now.size))) }
    {
        put_each(self.sizes, ends, &put[at..at + self.size]);
    }

    /// Puts the blocks of all firings, one firing after another.
    fn put_by_firing<T: Copy>(&self, ends: &mut [Producer<T, Global>], put: &[T])
        requires ports { HasPorts self.now (length ends.old) }
        requires length { length put.now ≡ self.now.size * self.now.many }
        requires room { HasRoomEach (batch_sizes self.now) ends.old }
        ensures { GaveEach ends.old ends.new (port_blocks self.now put.now) }
    {
        let mut at = 0;
        for _ in 0..self.many {
            self.put_firing(ends, put, at);
            at += self.size;
        }
    }

    /// Puts the blocks of one port in one call. In `put` each firing has `size` samples, and this port's `width` of
    /// them begin at offset `at`.
    fn put_part<T: Copy>(
        &self,
        end: &mut Producer<T, Global>,
        put: &[T],
        scratch: &mut [T],
        at: usize,
        width: usize,
    )
        requires inside { at + width ≤ self.now.size }
        requires length { length put.now ≡ self.now.size * self.now.many }
        requires long { length put.now ≤ length scratch.old }
        requires room { self.now.many * width ≤ known_free end.old }
        ensures { Gave end.old end.new
            (joined (λ i. slice_range (nth_block self.now.size put.now i) at (at + width)) self.now.many) }
    {
        let row = &mut scratch[..width * self.many];
        gather_row(put, row, at, width, self.many, self.size);
        put_block(end, row);
    }

    /// Puts all blocks with one call for each port. The blocks of a port are gathered in `scratch` first.
    #[tactic(auto, using(crate::proofs::Blocks::block_in))]
    fn put_by_port<T: Copy>(&self, ends: &mut [Producer<T, Global>], put: &[T], scratch: &mut [T])
        requires ports { HasPorts self.now (length ends.old) }
        requires length { length put.now ≡ self.now.size * self.now.many }
        requires long { length put.now ≤ length scratch.old }
        requires room { HasRoomEach (batch_sizes self.now) ends.old }
        ensures { GaveEach ends.old ends.new (port_blocks self.now put.now) }
    {
        let mut at = 0;
        for i in 0..ends.len() {
            let width = self.sizes[i];
            self.put_part(&mut ends[i], put, scratch, at, width);
            at += width;
        }
    }

    /// Puts all blocks. Each port takes one call if there is only one port or `scratch` has the room.
    pub(crate) fn put<T: Copy>(
        &self,
        ends: &mut [Producer<T, Global>],
        put: &[T],
        scratch: &mut [T],
    )
        requires ports { HasPorts self.now (length ends.old) }
        requires length { length put.now ≡ self.now.size * self.now.many }
        requires room { HasRoomEach (batch_sizes self.now) ends.old }
        ensures { GaveEach ends.old ends.new (port_blocks self.now put.now) }
    {
        if ends.len() == 1 {
            put_block(&mut ends[0], put);
        } else if put.len() <= scratch.len() {
            self.put_by_port(ends, put, scratch);
        } else {
            self.put_by_firing(ends, put);
        }
    }
}
