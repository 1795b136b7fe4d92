//! Blocks of samples, a part for each port.

ghost use Rattle.std.specs.Prelude.{◌≡◌, ◌+◌, ◌≤◌, ◌++◌, length, slice_index, vec_len, vec_capacity};
ghost use Rattle.std.specs.List.{sum_by};
ghost use Rattle.sdf_actor.specs.Histories.{spread};
ghost use Rattle.sdf_queues.specs.Blocks.{front, ArePorts, HoldBlocks, HaveRoom, AreTaken, ArePut, KeepRoom};

use crate::queue::Queue;
use sdf_node::append;

/// The channels at a node's ports on one side, and the samples that a firing moves on each channel of the net.
#[derive(Clone, Copy)]
pub struct Ports<'a> {
    pub channels: &'a [usize],
    pub sizes: &'a [usize],
}

/// Copies the oldest samples at each port to the end of `block`, which has room for them. `ports.sizes` says how many.
pub fn read_fronts<T: Copy>(ports: &Ports, queues: &[Queue<T>], block: &mut Vec<T>)
    requires ports { ArePorts ports.now.channels.now ports.now.sizes.now (length queues.now) }
    requires held { HoldBlocks ports.now.channels.now ports.now.sizes.now queues.now }
    requires room { vec_len block.old + sum_by (slice_index ports.now.sizes.now) ports.now.channels.now ≤
        vec_capacity block.old }
    ensures block { block.new.items ≡ block.old.items ++ front ports.now.sizes.now ports.now.channels.now queues.now }
    ensures capacity { vec_capacity block.new ≡ vec_capacity block.old }
{
    for c in ports.channels {
        append(block, queues[*c].oldest(ports.sizes[*c]));
    }
}

/// Drops the oldest samples at each port. `ports.sizes` says how many.
pub fn skip_fronts<T: Copy>(ports: &Ports, queues: &mut [Queue<T>])
    requires ports { ArePorts ports.now.channels.now ports.now.sizes.now (length queues.old) }
    requires held { HoldBlocks ports.now.channels.now ports.now.sizes.now queues.old }
    ensures queues { AreTaken ports.now.channels.now (slice_index ports.now.sizes.now) queues.old queues.new }
    ensures rooms { KeepRoom queues.old queues.new }
{
    for c in ports.channels {
        queues[*c].release(ports.sizes[*c]);
    }
}

/// Moves the oldest samples at each port to the end of `block`, which has room for them. `ports.sizes` says how many.
pub fn take_block<T: Copy>(ports: &Ports, queues: &mut [Queue<T>], block: &mut Vec<T>)
    requires ports { ArePorts ports.now.channels.now ports.now.sizes.now (length queues.old) }
    requires held { HoldBlocks ports.now.channels.now ports.now.sizes.now queues.old }
    requires room { vec_len block.old + sum_by (slice_index ports.now.sizes.now) ports.now.channels.now ≤
        vec_capacity block.old }
    ensures block { block.new.items ≡ block.old.items ++ front ports.now.sizes.now ports.now.channels.now queues.old }
    ensures capacity { vec_capacity block.new ≡ vec_capacity block.old }
    ensures queues { AreTaken ports.now.channels.now (slice_index ports.now.sizes.now) queues.old queues.new }
    ensures rooms { KeepRoom queues.old queues.new }
{
    for c in ports.channels {
        queues[*c].take(ports.sizes[*c], block);
    }
}

/// Splits `block` over the channels of the ports. `ports.sizes` says how many samples each channel gets.
pub fn put_block<T: Copy>(ports: &Ports, block: &[T], queues: &mut [Queue<T>])
    requires ports { ArePorts ports.now.channels.now ports.now.sizes.now (length queues.old) }
    requires room { HaveRoom ports.now.channels.now ports.now.sizes.now queues.old }
    requires length { length block.now ≡ sum_by (slice_index ports.now.sizes.now) ports.now.channels.now }
    ensures queues { ArePut (spread (slice_index ports.now.sizes.now) ports.now.channels.now block.now)
        queues.old queues.new }
    ensures rooms { KeepRoom queues.old queues.new }
{
    let mut rest = block;
    for c in ports.channels {
        let (now, later) = rest.split_at(ports.sizes[*c]);
        queues[*c].put(now);
        rest = later;
    }
}
