//! The blocks of one firing at the ends of rings. The `sizes` of the blocks are in samples, by port.

ghost use Rattle.std.specs.Prelude.{◌≡◌, ◌≤◌, ◌+◌, length, ℕ, [], take, slice_range, slice_index, IsTrue, IsFalse, ◌↔◌};
ghost use Rattle.rtrb.specs.Ring.{known_items, known_free, ConsumerLooked, ProducerLooked};
ghost use Rattle.sdf_rings.specs.Blocks.{start_at, block_of};
ghost use Rattle.sdf_rings.specs.Ends.{Drew, Gave, DrewEach, GaveEach, HoldsEach, HasRoomEach};

use rtrb::{Consumer, Producer};
use std::alloc::Global;

/// Fills `block` from `end`, which is known to hold enough.
pub(crate) fn take_block<T: Copy>(end: &mut Consumer<T, Global>, block: &mut [T])
    requires { length block.old ≤ length (known_items end.old) }
    ensures { Drew end.old end.new block.new }
{
    end.pop_partial_slice(block);
}

/// Puts all of `block`, for which `end` is known to have room.
pub(crate) fn put_block<T: Copy>(end: &mut Producer<T, Global>, block: &[T])
    requires { length block.now ≤ known_free end.old }
    ensures { Gave end.old end.new block.now }
{
    let _ = end.push_entire_slice(block);
}

/// Takes `size` samples into `taken`, from offset `at` on.
fn take_at<T: Copy>(end: &mut Consumer<T, Global>, taken: &mut [T], at: usize, size: usize)
    requires inside { at + size ≤ length taken.old }
    requires known { size ≤ length (known_items end.old) }
    ensures block { Drew end.old end.new (slice_range taken.new at (at + size)) }
    ensures before { (n : ℕ) → n ≤ at → take n taken.new ≡ take n taken.old }
{
    take_block(end, &mut taken[at..at + size]);
}

/// Puts `size` samples of `put`, from offset `at` on.
fn put_at<T: Copy>(end: &mut Producer<T, Global>, put: &[T], at: usize, size: usize)
    requires inside { at + size ≤ length put.now }
    requires room { size ≤ known_free end.old }
    ensures { Gave end.old end.new (slice_range put.now at (at + size)) }
{
    put_block(end, &put[at..at + size]);
}

/// Takes a block at each port into `taken`, in the order of the ports.
#[tactic(auto, using(crate::proofs::Blocks::block_in))]
pub(crate) fn take_each<T: Copy>(sizes: &[usize], ends: &mut [Consumer<T, Global>], taken: &mut [T])
    requires ports { length ends.old ≡ length sizes.now }
    requires length { length taken.old ≡ start_at (slice_index sizes.now) (length ends.old) }
    requires known { HoldsEach (slice_index sizes.now) ends.old }
    ensures { DrewEach ends.old ends.new (λ i. block_of (slice_index sizes.now) i taken.new) }
{
    let mut at = 0;
    for i in 0..ends.len() {
        let many = sizes[i];
        take_at(&mut ends[i], taken, at, many);
        at += many;
    }
}

/// Puts a block of `put` at each port, in the order of the ports.
#[tactic(auto, using(crate::proofs::Blocks::block_in))]
pub(crate) fn put_each<T: Copy>(sizes: &[usize], ends: &mut [Producer<T, Global>], put: &[T])
    requires ports { length ends.old ≡ length sizes.now }
    requires length { length put.now ≡ start_at (slice_index sizes.now) (length ends.old) }
    requires room { HasRoomEach (slice_index sizes.now) ends.old }
    ensures { GaveEach ends.old ends.new (λ i. block_of (slice_index sizes.now) i put.now) }
{
    let mut at = 0;
    for i in 0..ends.len() {
        let many = sizes[i];
        put_at(&mut ends[i], put, at, many);
        at += many;
    }
}

/// Checks whether `end` is known to hold `size` items. It looks at the other end only if it has to.
fn holds<T>(end: &mut Consumer<T, Global>, size: usize) -> bool
    ensures looked { ConsumerLooked end.old end.new }
    ensures value { IsTrue result ↔ (size ≤ length (known_items end.new)) }
{
    size <= end.cached_slots() || size <= end.slots()
}

/// Checks whether `end` is known to have room for `size` items. It looks at the other end only if it has to.
fn has_room<T>(end: &mut Producer<T, Global>, size: usize) -> bool
    ensures looked { ProducerLooked end.old end.new }
    ensures value { IsTrue result ↔ (size ≤ known_free end.new) }
{
    size <= end.cached_slots() || size <= end.slots()
}

/// Checks whether each port is known to hold its block.
pub(crate) fn each_holds<T>(sizes: &[usize], ends: &mut [Consumer<T, Global>]) -> bool
    requires { length ends.old ≡ length sizes.now }
    ensures looked { DrewEach ends.old ends.new (λ _. []) }
    ensures yes { IsTrue result → HoldsEach (slice_index sizes.now) ends.new }
    ensures no { IsFalse result → HoldsEach (slice_index sizes.now) ends.new → ⊥ }
{
    for i in 0..ends.len() {
        if !holds(&mut ends[i], sizes[i]) {
            return false;
        }
    }
    true
}

/// Checks whether each port is known to have room for its block.
pub(crate) fn each_has_room<T>(sizes: &[usize], ends: &mut [Producer<T, Global>]) -> bool
    requires { length ends.old ≡ length sizes.now }
    ensures looked { GaveEach ends.old ends.new (λ _. []) }
    ensures yes { IsTrue result → HasRoomEach (slice_index sizes.now) ends.new }
    ensures no { IsFalse result → HasRoomEach (slice_index sizes.now) ends.new → ⊥ }
{
    for i in 0..ends.len() {
        if !has_room(&mut ends[i], sizes[i]) {
            return false;
        }
    }
    true
}
