//! The queue of samples on a channel.

ghost use Rattle.std.specs.Prelude.{◌≡◌, ◌+◌, ◌-◌, ◌*◌, ◌≤◌, ◌<◌, ◌++◌, IfOk, length, map, take, drop, slice_range};
ghost use Rattle.std.specs.Prelude.{◌^◌, vec_len, vec_capacity};
ghost use Rattle.std.specs.List.{between};
ghost use Rattle.sdf_actor.specs.Steps.{sum_in, sum_out, state_at, puts_to};
ghost use Rattle.sdf_actor.specs.Wires.{lists};
ghost use Rattle.sdf_node.specs.Many.{nth_block, joined};
ghost use Rattle.sdf_queues.specs.QueueValue.{QueueValue};

use crate::pairs::deinterleave;
use crate::parts::gather_row;
use sdf_actor::Actor;
use sdf_node::append;
use std::alloc::{AllocError, Global};
use std::marker::Model;
use std::mem;

/// The samples on a channel, oldest first. Once it is made it allocates no memory.
///
/// The samples are in one piece of a buffer of twice the room, so that actors read and write them in place. Samples
/// that are taken are dropped at the front. The rest moves there when the end of the buffer is reached: at most one
/// move for each sample put.
#[derive(Drop)]
pub struct Queue<T> {
    /// The buffer. The channel's samples are from `start` to `end`; the rest of the buffer does not count.
    items: Vec<T>,
    start: usize,
    end: usize,
    room: usize,
}

impl<T> Model for Queue<T> {
    ghost Value = { QueueValue T };

    ghost view = { λ q. record { samples = between q.start q.end q.items.items; room = q.room } };

    ghost invariant = { λ q. (q.start ≤ q.end) × (q.end ≤ vec_len q.items) × (q.room + q.room ≤ vec_len q.items) };
}

/// Lengthens `list` with fillers to `len`, within its capacity, if it is shorter.
pub fn lengthen<T: Copy>(list: &mut Vec<T>, len: usize, filler: T)
    requires { len ≤ vec_capacity list.old }
    ensures front { take (vec_len list.old) list.new.items ≡ list.old.items }
    ensures more { vec_len list.old ≤ vec_len list.new }
    ensures long { len ≤ vec_len list.new }
    ensures capacity { vec_capacity list.new ≡ vec_capacity list.old }
{
    while list.len() < len {
        list.push_reserved(filler);
    }
}

/// Makes room for `more` samples behind the part of `list` from `start` to `end`, and returns where that part then
/// begins and ends. The part moves to the front if the room behind it is too small. An empty part also begins at the
/// front, so that a queue that is emptied often uses little of its buffer.
fn make_room<T: Copy>(list: &mut Vec<T>, start: usize, end: usize, more: usize) -> (usize, usize)
    requires rise { start ≤ end }
    requires within { end ≤ vec_len list.old }
    requires room { end - start + more ≤ vec_len list.old }
    ensures same { between result.0 result.1 list.new.items ≡ between start end list.old.items }
    ensures rise { result.0 ≤ result.1 }
    ensures within { result.1 + more ≤ vec_len list.new }
    ensures len { vec_len list.new ≡ vec_len list.old }
{
    if start == end {
        return (0, 0);
    }
    if list.len() - end >= more {
        return (start, end);
    }
    list.copy_within(start..end, 0);
    (0, end - start)
}

/// Consecutive firings of an actor: `times` of them, the first at `phase`.
#[derive_where(Clone, Copy)]
pub struct Batch<'a, A> {
    pub actor: &'a A,
    pub phase: u32,
    pub times: usize,
}

impl<T: Copy> Queue<T> {
    /// Makes a queue of the samples `initial`, with room for `room` samples in all. `filler` may be any sample.
    pub fn new(alloc: Global, initial: &[T], room: usize, filler: T) -> Result<Queue<T>, AllocError>
        requires initial { length initial.now ≤ room }
        requires room { room ≤ 4_611_686_018_427_387_904 }
        ensures { IfOk result (λ q. q ≡ record { samples = initial.now; room = room }) }
    {
        let mut items = Vec::with_capacity(alloc, room + room)?;
        items.extend_from_slice(initial)?;
        items.resize(room + room, filler)?;
        Ok(Queue {
            items,
            start: 0,
            end: initial.len(),
            room,
        })
    }

    /// Drops the samples and begins anew with `initial` and `room`. The buffer is used again if it has the length of a
    /// new one.
    pub fn reset(self, initial: &[T], room: usize, filler: T) -> Result<Queue<T>, AllocError>
        requires initial { length initial.now ≤ room }
        requires room { room ≤ 4_611_686_018_427_387_904 }
        ensures { IfOk result (λ q. q ≡ record { samples = initial.now; room = room }) }
    {
        let items = self.items;
        if items.len() != room + room {
            let alloc = *items.allocator();
            drop(items);
            return Queue::new(alloc, initial, room, filler);
        }
        let mut queue = Queue {
            items,
            start: 0,
            end: 0,
            room,
        };
        queue.put(initial);
        Ok(queue)
    }

    /// Returns the number of samples.
    pub fn len(&self) -> usize
        ensures { result ≡ length self.now.samples }
    {
        self.end - self.start
    }

    /// Returns how many samples it has room for.
    pub fn room(&self) -> usize
        ensures { result ≡ self.now.room }
    {
        self.room
    }

    /// Puts `block` behind the samples.
    pub fn put(&mut self, block: &[T])
        requires { length self.old.samples + length block.now ≤ self.old.room }
        ensures { self.new ≡ record self.old { samples = self.old.samples ++ block.now } }
    {
        let place = make_room(&mut self.items, self.start, self.end, block.len());
        let last = place.1 + block.len();
        self.items[place.1..last].copy_from_slice(block);
        self.start = place.0;
        self.end = last;
    }

    /// Moves the `many` oldest samples to the end of `list`, which has room for them.
    pub fn take(&mut self, many: usize, list: &mut Vec<T>)
        requires held { many ≤ length self.old.samples }
        requires room { vec_len list.old + many ≤ vec_capacity list.old }
        ensures queue { self.new ≡ record self.old { samples = drop many self.old.samples } }
        ensures list { list.new.items ≡ list.old.items ++ take many self.old.samples }
        ensures len { vec_len list.new ≡ vec_len list.old + many }
        ensures capacity { vec_capacity list.new ≡ vec_capacity list.old }
    {
        append(list, self.oldest(many));
        self.release(many);
    }

    /// Returns the `many` oldest samples, in place.
    pub fn oldest(&self, many: usize) -> &[T]
        requires { many ≤ length self.now.samples }
        ensures { result.now ≡ take many self.now.samples }
    {
        let end = self.start + many;
        &self.items[self.start..end]
    }

    /// Returns the `times` oldest blocks of `size` samples, in place.
    pub fn oldest_blocks(&self, times: usize, size: usize) -> &[T]
        requires { times * size ≤ length self.now.samples }
        ensures { result.now ≡ take (times * size) self.now.samples }
    {
        let last = self.start + times * size;
        &self.items[self.start..last]
    }

    /// Drops the `many` oldest samples.
    pub fn release(&mut self, many: usize)
        requires { many ≤ length self.old.samples }
        ensures { self.new ≡ record self.old { samples = drop many self.old.samples } }
    {
        self.start += many;
    }

    /// Fires an actor in one batch, which writes `many` blocks of `size` samples in place, behind the samples of the
    /// queue: a block for each firing, for each cycle of phases, or one for all.
    pub fn put_fired<A: Actor<Token = T>>(
        &mut self,
        batch: Batch<'_, A>,
        state: &mut A::State,
        taken: &[T],
        many: usize,
        size: usize,
    )
        requires phase { batch.phase < A.steps.cycle batch.actor.now }
        requires taken { length taken.now ≡ sum_in A.steps batch.actor.now batch.phase batch.times }
        requires made { many * size ≡ sum_out A.steps batch.actor.now batch.phase batch.times }
        requires room { length self.old.samples + many * size ≤ self.old.room }
        ensures state { state.new ≡ state_at A.steps batch.entry.actor.now batch.entry.phase state.old taken.now
            batch.entry.times }
        ensures queue { self.new ≡ record self.old {
          samples = self.old.samples
              ++ puts_to A.steps batch.entry.actor.now batch.entry.phase state.old taken.now batch.entry.times;
        } }
        ensures long { length (puts_to A.steps batch.entry.actor.now batch.entry.phase state.old taken.now
            batch.entry.times) ≡ many * size }
    {
        let Batch {
            actor,
            phase,
            times,
        } = batch;
        let place = make_room(&mut self.items, self.start, self.end, many * size);
        let end = place.1 + many * size;
        actor.fire_many(phase, times, state, taken, &mut self.items[place.1..end]);
        self.start = place.0;
        self.end = end;
    }

    /// Puts a row behind the samples, gathered from `many` blocks of `size` samples: from each block `width` samples at
    /// offset `at`.
    pub fn put_row(&mut self, blocks: &[T], at: usize, width: usize, many: usize, size: usize)
        requires inside { at + width ≤ size }
        requires blocks { length blocks.now ≡ size * many }
        requires room { length self.old.samples + width * many ≤ self.old.room }
        ensures { self.new ≡ record self.old {
          samples = self.old.samples
              ++ joined (λ i. slice_range (nth_block size blocks.now i) at (at + width)) many;
        } }
    {
        let made = width * many;
        let place = make_room(&mut self.items, self.start, self.end, made);
        let last = place.1 + made;
        let row = &mut self.items[place.1..last];
        gather_row(blocks, row, at, width, many, size);
        self.start = place.0;
        self.end = last;
    }

    /// Takes the queue out, and leaves one with no room in its place.
    pub fn take_out(&mut self) -> Queue<T>
        ensures { result ≡ self.old }
    {
        let alloc = *self.items.allocator();
        let empty = Queue {
            items: Vec::new(alloc),
            start: 0,
            end: 0,
            room: 0,
        };
        mem::replace(self, empty)
    }
}

/// Splits the interleaved samples of `pairs` over two queues, `many` behind the samples of each.
pub fn put_pairs<T: Copy>(first: &mut Queue<T>, second: &mut Queue<T>, pairs: &[T], many: usize)
    requires pairs { length pairs.now ≡ 2 * many }
    requires first { length first.old.samples + many ≤ first.old.room }
    requires second { length second.old.samples + many ≤ second.old.room }
    ensures first { first.new ≡ record first.old {
      samples = first.old.samples ++ joined (λ i. slice_range (nth_block 2 pairs.now i) 0 1) many;
    } }
    ensures second { second.new ≡ record second.old {
      samples = second.old.samples ++ joined (λ i. slice_range (nth_block 2 pairs.now i) 1 2) many;
    } }
{
    let place = make_room(&mut first.items, first.start, first.end, many);
    let other = make_room(&mut second.items, second.start, second.end, many);
    let last = place.1 + many;
    let end = other.1 + many;
    let left = &mut first.items[place.1..last];
    deinterleave(pairs, left, &mut second.items[other.1..end], many);
    first.start = place.0;
    first.end = last;
    second.start = other.0;
    second.end = end;
}

/// Returns copies of the samples in each queue.
pub fn held<T: Copy>(alloc: Global, queues: &[Queue<T>]) -> Result<Vec<Vec<T>>, AllocError>
    ensures { IfOk result (λ v. lists v.items ≡ map (λ q. q.samples) queues.now) }
{
    let mut held = Vec::new(alloc);
    for queue in queues {
        held.push(Vec::from_slice(alloc, queue.oldest(queue.len()))?)?;
    }
    Ok(held)
}
