//! The blocks of batched firings at their ports: at each port all of them in one piece.

ghost use Rattle.std.specs.Prelude.{◌≡◌, ℕ, ◌+◌, ◌*◌, ◌≤◌, ◌<◌, ◌++◌, length, take, drop, slice_index};
ghost use Rattle.std.specs.List.{sum_by};
ghost use Rattle.sdf_node.specs.Many.{nth_block, joined};
ghost use Rattle.sdf_queues.specs.Blocks.{front_at, dealt, ArePorts, HoldManyBlocks, HaveRoomForMany, AreTaken, ArePut};
ghost use Rattle.sdf_queues.specs.Blocks.{KeepRoom};
ghost use Rattle.sdf_queues.specs.TwoPorts.{ArePairs};
ghost use Rattle.std.specs.Prelude.{IsTrue};

use crate::blocks::Ports;
use crate::pairs::interleave;
use crate::parts::deal_row;
use crate::queue::{Queue, put_pairs};

/// Returns how many whole blocks of `size` samples are in `samples` samples, at most `most`; `most` if `size` is 0.
pub fn whole_blocks(samples: usize, size: usize, most: usize) -> usize
    ensures within { result ≤ most }
    ensures held { result * size ≤ samples }
    ensures greatest { (many : ℕ) → many ≤ most → many * size ≤ samples → many ≤ result }
{
    if size == 0 {
        most
    } else {
        most.min(samples / size)
    }
}

/// Moves the input of `times` firings from `queue` into `blocks` of `size` samples: `width` samples to each block, at
/// offset `at`.
fn take_row<T: Copy>(
    queue: &mut Queue<T>,
    blocks: &mut [T],
    at: usize,
    width: usize,
    times: usize,
    size: usize,
)
    requires inside { at + width ≤ size }
    requires blocks { length blocks.old ≡ times * size }
    requires held { times * width ≤ length queue.old.samples }
    ensures queue { queue.new ≡ record queue.old { samples = drop (times * width) queue.old.samples } }
    ensures blocks { (i : ℕ) → i < times → take (at + width) (nth_block size blocks.new i) ≡
        take at (nth_block size blocks.old i) ++ take width (drop (i * width) queue.old.samples) }
{
    let many = times * width;
    deal_row(queue.oldest(many), blocks, at, width, times, size);
    queue.release(many);
}

/// Checks whether the ports are two channels, and a firing moves one sample on each.
fn are_pairs(ports: &Ports) -> bool
    requires { (n : ℕ) → n < length ports.now.channels.now →
        slice_index ports.now.channels.now n < length ports.now.sizes.now }
    ensures { IsTrue result → ArePairs ports.now.channels.now ports.now.sizes.now }
{
    let channels = ports.channels;
    channels.len() == 2 && ports.sizes[channels[0]] == 1 && ports.sizes[channels[1]] == 1
}

/// Moves the input of `times` firings from two queues into `blocks`, one sample of each queue for a firing.
fn take_pairs<T: Copy>(ports: &Ports, times: usize, queues: &mut [Queue<T>], blocks: &mut [T])
    requires ports { ArePorts ports.now.channels.now ports.now.sizes.now (length queues.old) }
    requires pairs { ArePairs ports.now.channels.now ports.now.sizes.now }
    requires held { HoldManyBlocks times ports.now.channels.now ports.now.sizes.now queues.old }
    requires length { length blocks.old ≡ 2 * times }
    ensures blocks { blocks.new ≡ joined (front_at ports.now.sizes.now ports.now.channels.now queues.old) times }
    ensures queues { AreTaken ports.now.channels.now (λ c. times * slice_index ports.now.sizes.now c)
        queues.old queues.new }
    ensures rooms { KeepRoom queues.old queues.new }
{
    let first = ports.channels[0];
    let second = ports.channels[1];
    interleave(
        queues[first].oldest(times),
        queues[second].oldest(times),
        blocks,
        times,
    );
    queues[first].release(times);
    queues[second].release(times);
}

/// Puts the output of `times` firings on two channels, one sample of a firing on each.
fn put_on_pairs<T: Copy>(ports: &Ports, times: usize, block: &[T], queues: &mut [Queue<T>])
    requires ports { ArePorts ports.now.channels.now ports.now.sizes.now (length queues.old) }
    requires pairs { ArePairs ports.now.channels.now ports.now.sizes.now }
    requires room { HaveRoomForMany times ports.now.channels.now ports.now.sizes.now queues.old }
    requires length { length block.now ≡ 2 * times }
    ensures queues { ArePut (λ c. dealt ports.now.sizes.now ports.now.channels.now 2 block.now c times)
        queues.old queues.new }
    ensures rooms { KeepRoom queues.old queues.new }
{
    let first = ports.channels[0];
    let second = ports.channels[1];
    let mut target = queues[second].take_out();
    put_pairs(&mut queues[first], &mut target, block, times);
    queues[second] = target;
}

/// Moves the input of `times` firings from the queues at the ports into `blocks`: `size` samples for each firing, one
/// firing after another.
pub fn take_blocks<T: Copy>(
    ports: &Ports,
    times: usize,
    size: usize,
    queues: &mut [Queue<T>],
    blocks: &mut [T],
)
    requires ports { ArePorts ports.now.channels.now ports.now.sizes.now (length queues.old) }
    requires held { HoldManyBlocks times ports.now.channels.now ports.now.sizes.now queues.old }
    requires size { size ≡ sum_by (slice_index ports.now.sizes.now) ports.now.channels.now }
    requires length { length blocks.old ≡ times * size }
    ensures blocks { blocks.new ≡ joined (front_at ports.now.sizes.now ports.now.channels.now queues.old) times }
    ensures queues { AreTaken ports.now.channels.now (λ c. times * slice_index ports.now.sizes.now c)
        queues.old queues.new }
    ensures rooms { KeepRoom queues.old queues.new }
{
    if are_pairs(ports) {
        take_pairs(ports, times, queues, blocks);
        return;
    }
    let mut at = 0;
    for c in ports.channels {
        let width = ports.sizes[*c];
        take_row(&mut queues[*c], blocks, at, width, times, size);
        at += width;
    }
}

/// Puts the output of `times` firings on the channels of the ports. `block` has `size` samples for each firing.
pub fn put_blocks<T: Copy>(
    ports: &Ports,
    times: usize,
    size: usize,
    block: &[T],
    queues: &mut [Queue<T>],
)
    requires ports { ArePorts ports.now.channels.now ports.now.sizes.now (length queues.old) }
    requires room { HaveRoomForMany times ports.now.channels.now ports.now.sizes.now queues.old }
    requires size { size ≡ sum_by (slice_index ports.now.sizes.now) ports.now.channels.now }
    requires length { length block.now ≡ times * size }
    ensures queues { ArePut (λ c. dealt ports.now.sizes.now ports.now.channels.now size block.now c times)
        queues.old queues.new }
    ensures rooms { KeepRoom queues.old queues.new }
{
    if are_pairs(ports) {
        put_on_pairs(ports, times, block, queues);
        return;
    }
    let mut at = 0;
    for c in ports.channels {
        let width = ports.sizes[*c];
        queues[*c].put_row(block, at, width, times, size);
        at += width;
    }
}
