//! Workers that run the parts of a sound, and their memory.

ghost use Rattle.std.specs.Prelude.{◌≡◌, ◌≤◌, ◌<◌, ◌+◌, ◌-◌, length, slice_index, IfOk, IfSome, OnOk};
ghost use Rattle.sdf_warm_up.specs.Laws.{WasLeft};
ghost use Rattle.sdf_parallel.specs.Bounds.{AreBounds};
ghost use Rattle.sdf_parallel.specs.Parts.{AreFinished, IsSplit};

use crate::bounds::part_bounds;
use crate::part::{Memory, PartResult, Split, Stretch, run_part};
use crate::part_io::PartIo;
use sdf_actor::{Actor, NetState};
use sdf_queues::RunFault;
use std::alloc::{AllocError, Global};
use std::sync::atomic::{AtomicUsize, Ordering};

/// A queue of the parts of a split run, from which workers take one part after another.
#[derive(Drop)]
pub(crate) struct PartQueue {
    /// The period at which each part begins, and the end of the last one.
    pub(crate) bounds: Vec<u32>,
    taken: AtomicUsize,
}

impl PartQueue {
    /// Begins before the first part of `split`.
    pub(crate) fn of_split<A: Actor>(
        alloc: Global,
        split: Split<'_, A>,
    ) -> Result<PartQueue, AllocError>
        requires least { 0 < split.least }
        requires stretch { 0 < split.stretch }
        ensures { IfOk result (λ queue. AreBounds split.entry queue.bounds.items) }
    {
        let bounds = part_bounds(alloc, split)?;
        Ok(PartQueue {
            bounds,
            taken: AtomicUsize::new(0),
        })
    }

    /// Returns the number of parts.
    pub(crate) fn count(&self) -> usize
        ensures { result ≡ length self.now.bounds.items - 1 }
    {
        self.bounds.len().saturating_sub(1)
    }

    /// Takes the number of the next part, if one is left.
    fn take(&self) -> Option<usize>
        ensures { IfSome result (λ number. number + 1 < length self.now.bounds.items) }
    {
        let number = self.taken.fetch_add(1, Ordering::SeqCst);
        if number < self.count() {
            Some(number)
        } else {
            None
        }
    }

    /// Returns where the part `number` begins and ends.
    fn part(&self, number: usize) -> Stretch
        requires { number + 1 < length self.now.bounds.items }
        ensures from { result.from ≡ slice_index self.now.bounds.items number }
        ensures to { result.to ≡ slice_index self.now.bounds.items (number + 1) }
    {
        Stretch {
            from: self.bounds[number],
            to: self.bounds[number + 1],
        }
    }
}

/// A part that was run: its number and its result.
#[derive(Drop)]
pub(crate) struct FinishedPart<M, T, S> {
    pub(crate) number: usize,
    pub(crate) made: Result<PartResult<M, T, S>, RunFault>,
}

/// A worker: its memory, and the parts of a piece that it ran.
#[derive(Drop)]
pub(crate) struct Worker<M, T, S> {
    memory: Memory<M, T>,
    pub(crate) done: Vec<FinishedPart<M, T, S>>,
}

impl<M: Drop, T: Copy, S: Drop> Worker<M, T, S> {
    /// Begins with no memory.
    fn new(alloc: Global) -> Worker<M, T, S> {
        Worker {
            memory: Memory::none(alloc),
            done: Vec::new(alloc),
        }
    }

    /// Tops up its own spares from `spares`, to at most `most`.
    fn top_up(&mut self, spares: &mut Vec<M>, most: usize) -> Result<(), AllocError> {
        for _ in self.memory.spares.len()..most {
            if let Some(spare) = spares.pop() {
                self.memory.spares.push(spare)?;
            }
        }
        Ok(())
    }
}

/// Runs parts of a split run, one after another, until none is left. It takes a part only after it has reserved memory
/// for the result.
pub(crate) fn work<A: Actor, E: PartIo<A::Token>>(
    alloc: Global,
    io: &E,
    split: Split<'_, A>,
    rest: &NetState<A::Token, A::State>,
    queue: &PartQueue,
    worker: &mut Worker<E::StretchResult, A::Token, A::State>,
)
    requires split { IsSplit A.steps (E.inputs io.now) split }
    requires rest { WasLeft A.steps split.net.now split.period.now.repetitions rest.now }
    requires queue { AreBounds split queue.now.bounds.items }
    ensures { AreFinished A.steps (E.inputs io.now) (E.makes io.now) split.entry queue.now.bounds.items rest.now
        worker.new.done.items }
{
    worker.done.clear();
    for _ in 0..queue.count() {
        if worker.done.reserve(1).is_err() {
            return;
        }
        let Some(number) = queue.take() else {
            return;
        };
        let part = queue.part(number);
        let made = run_part(alloc, io, split, rest, part, &mut worker.memory);
        worker.done.push_reserved(FinishedPart { number, made });
    }
}

/// The workers of a sound, whose memory lasts from piece to piece.
#[derive(Drop)]
pub struct PartWorkers<M, T, S> {
    pub(crate) alloc: Global,
    pub(crate) all: Vec<Worker<M, T, S>>,
    /// What the outputs of stretches became, given back for reuse.
    spares: Vec<M>,
}

impl<M: Drop, T: Copy, S: Drop> PartWorkers<M, T, S> {
    /// Begins without workers, and takes no memory. Runs take it from `alloc`.
    pub fn none(alloc: Global) -> PartWorkers<M, T, S> {
        PartWorkers {
            alloc,
            all: Vec::new(alloc),
            spares: Vec::new(alloc),
        }
    }

    /// Keeps the memory of what the outputs of stretches became. The parts of the next piece reuse it.
    pub fn give_back(&mut self, made: Vec<M>) {
        self.spares = made;
    }

    /// Adds workers until there are at least `count`. Hands each its share of the memory that was given back.
    pub(crate) fn add_workers(&mut self, count: usize) -> Result<(), AllocError>
        ensures { OnOk result (count ≤ length self.new.all.items) }
    {
        for _ in self.all.len()..count {
            self.all.push(Worker::new(self.alloc))?;
        }
        let most = self.spares.len().div_ceil(self.all.len().max(1));
        for i in 0..self.all.len() {
            self.all[i].top_up(&mut self.spares, most)?;
        }
        Ok(())
    }
}
