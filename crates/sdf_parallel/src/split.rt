//! Runs that are split in time.

ghost use Rattle.std.specs.Prelude.{◌≡◌, ◌<◌, ◌-◌, ℕ, List, length, slice_index_or, MatchResult, IfOk};
ghost use Rattle.sdf_actor.specs.NetStates.{IsNetState};
ghost use Rattle.sdf_queues.specs.RunResults.{periods_of};
ghost use Rattle.sdf_queues.specs.declared.fault.RunFault.TheVariants.{OutOfMemory};
ghost use Rattle.sdf_warm_up.specs.Laws.{WasLeft};
ghost use Rattle.sdf_parallel.specs.Bounds.{AreBounds};
ghost use Rattle.sdf_parallel.specs.Parts.{AllAreFinished, AreFinished, AreResults, IsSplit, GoesOnInParts};

use crate::beside::for_each_beside;
use crate::part::{PartResult, Split};
use crate::part_io::PartIo;
use crate::part_workers::{FinishedPart, PartQueue, PartWorkers, Worker, work};
use sdf_actor::{Actor, NetState};
use sdf_queues::RunFault;
use sdf_queues::laws::nets_have_periods;
use std::alloc::{AllocError, Global};
use std::mem;
use std::thread::Threads;

/// Returns a place for the result of each part. Each holds `OutOfMemory` until a worker's result is put there.
fn empty_places<A: Actor, E: PartIo<A::Token>>(
    alloc: Global,
    io: &E,
    split: Split<'_, A>,
    rest: &NetState<A::Token, A::State>,
    queue: &PartQueue,
) -> Result<Vec<Result<PartResult<E::StretchResult, A::Token, A::State>, RunFault>>, AllocError>
    requires { IsSplit A.steps (E.inputs io.now) split }
    ensures made { IfOk result (λ v. AreResults A.steps (E.inputs io.now) (E.makes io.now) split.entry
        queue.now.bounds.items rest.now v.items) }
    ensures all { IfOk result (λ v. length v.items ≡ length queue.now.bounds.items - 1) }
{
    let mut places = Vec::new(alloc);
    for _ in 0..queue.count() {
        places.push(Err(RunFault::OutOfMemory))?;
    }
    Ok(places)
}

/// Moves the results in `done`, of one worker, to the places of their parts.
fn place<A: Actor, E: PartIo<A::Token>>(
    io: &E,
    split: Split<'_, A>,
    rest: &NetState<A::Token, A::State>,
    queue: &PartQueue,
    done: &mut Vec<FinishedPart<E::StretchResult, A::Token, A::State>>,
    places: &mut [Result<PartResult<E::StretchResult, A::Token, A::State>, RunFault>],
)
    requires done { AreFinished A.steps (E.inputs io.now) (E.makes io.now) split queue.now.bounds.items rest.now
        done.old.items }
    requires made { AreResults A.steps (E.inputs io.now) (E.makes io.now) split queue.now.bounds.items rest.now
        places.old }
    requires all { length places.old ≡ length queue.now.bounds.items - 1 }
    ensures made { AreResults A.steps (E.inputs io.now) (E.makes io.now) split.entry queue.now.bounds.items rest.now
        places.new }
    ensures count { length places.new ≡ length places.old }
{
    for _ in 0..done.len() {
        if let Some(FinishedPart { number, made }) = done.pop() {
            places[number] = made;
        }
    }
}

/// Moves the results of all workers to the places of their parts.
fn place_all<A: Actor, E: PartIo<A::Token>>(
    io: &E,
    split: Split<'_, A>,
    rest: &NetState<A::Token, A::State>,
    queue: &PartQueue,
    workers: &mut [Worker<E::StretchResult, A::Token, A::State>],
    places: &mut [Result<PartResult<E::StretchResult, A::Token, A::State>, RunFault>],
)
    requires done { AllAreFinished A.steps (E.inputs io.now) (E.makes io.now) split queue.now.bounds.items rest.now
        workers.old }
    requires made { AreResults A.steps (E.inputs io.now) (E.makes io.now) split queue.now.bounds.items rest.now
        places.old }
    requires all { length places.old ≡ length queue.now.bounds.items - 1 }
    ensures made { AreResults A.steps (E.inputs io.now) (E.makes io.now) split.entry queue.now.bounds.items rest.now
        places.new }
    ensures count { length places.new ≡ length places.old }
{
    for i in 0..workers.len() {
        place(io, split, rest, queue, &mut workers[i].done, places);
    }
}

/// Takes out what the outputs of all stretches became, in order, and the state in which the last part leaves the net.
fn take_results<A: Actor, E: PartIo<A::Token>>(
    alloc: Global,
    io: &E,
    split: Split<'_, A>,
    rest: &NetState<A::Token, A::State>,
    queue: &PartQueue,
    places: &mut [Result<PartResult<E::StretchResult, A::Token, A::State>, RunFault>],
) -> Result<(Vec<E::StretchResult>, NetState<A::Token, A::State>), RunFault>
    requires split { IsSplit A.steps (E.inputs io.now) split }
    requires queue { AreBounds split queue.now.bounds.items }
    requires made { AreResults A.steps (E.inputs io.now) (E.makes io.now) split queue.now.bounds.items rest.now
        places.old }
    requires all { length places.old ≡ length queue.now.bounds.items - 1 }
    ensures { MatchResult result
        (λ r. GoesOnInParts A.steps split.entry.net.now split.entry.period.now.repetitions (E.inputs io.now)
        (E.makes io.now) rest.now split.entry.periods r.0.items r.1)
        (λ fault. fault ≡ OutOfMemory) }
{
    nets_have_periods(split.net);
    let mut all = Vec::new(alloc);
    let mut last = None;
    for i in 0..places.len() {
        let part = mem::replace(&mut places[i], Err(RunFault::OutOfMemory));
        let PartResult { mut made, rest } = part?;
        all.append(&mut made)?;
        last = Some(rest);
    }
    Ok((all, last.unwrap()))
}

/// Collects what the outputs of all stretches became, in order, and the state in which the last part leaves the net.
fn gather<A: Actor, E: PartIo<A::Token>>(
    alloc: Global,
    io: &E,
    split: Split<'_, A>,
    rest: &NetState<A::Token, A::State>,
    queue: &PartQueue,
    workers: &mut [Worker<E::StretchResult, A::Token, A::State>],
) -> Result<(Vec<E::StretchResult>, NetState<A::Token, A::State>), RunFault>
    requires split { IsSplit A.steps (E.inputs io.now) split }
    requires queue { AreBounds split queue.now.bounds.items }
    requires done { AllAreFinished A.steps (E.inputs io.now) (E.makes io.now) split queue.now.bounds.items rest.now
        workers.old }
    ensures { MatchResult result
        (λ r. GoesOnInParts A.steps split.entry.net.now split.entry.period.now.repetitions (E.inputs io.now)
        (E.makes io.now) rest.now split.entry.periods r.0.items r.1)
        (λ fault. fault ≡ OutOfMemory) }
{
    let mut places = empty_places(alloc, io, split, rest, queue)?;
    place_all(io, split, rest, queue, workers, &mut places);
    take_results(alloc, io, split, rest, queue, &mut places)
}

/// Runs all parts on `workers` in parallel, and `meanwhile` beside them. Returns the results of both.
fn run_parts<R: Threads + Sync, A: Actor, E: PartIo<A::Token>, G: FnMut() -> B, B>(
    rt: &R,
    alloc: Global,
    io: &E,
    split: Split<'_, A>,
    rest: &NetState<A::Token, A::State>,
    queue: &PartQueue,
    workers: &mut [Worker<E::StretchResult, A::Token, A::State>],
    meanwhile: &mut G,
) -> (
    Result<(Vec<E::StretchResult>, NetState<A::Token, A::State>), RunFault>,
    B,
)
    requires split { IsSplit A.steps (E.inputs io.now) split }
    requires rest { WasLeft A.steps split.net.now split.period.now.repetitions rest.now }
    requires queue { AreBounds split queue.now.bounds.items }
    requires meanwhile { G.pre meanwhile.old }
    ensures ran { MatchResult result.0
        (λ r. GoesOnInParts A.steps split.entry.net.now split.entry.period.now.repetitions (E.inputs io.now)
        (E.makes io.now) rest.now split.entry.periods r.0.items r.1)
        (λ fault. fault ≡ OutOfMemory) }
    ensures meanwhile { G.step meanwhile.old result.1 meanwhile.new }
{
    let done = for_each_beside(
        rt,
        workers,
        &|_: usize, worker: &mut Worker<E::StretchResult, A::Token, A::State>|
            requires { IsSplit A.steps (E.inputs io.now) split
                × WasLeft A.steps split.net.now split.period.now.repetitions rest.now
                × AreBounds split queue.now.bounds.items }
            ensures { AreFinished A.steps (E.inputs io.entry.now) (E.makes io.entry.now) split.entry
                queue.entry.now.bounds.items rest.entry.now worker.exit.now.done.items }
        { work(alloc, io, split, rest, queue, worker) },
        meanwhile,
    );
    (gather(alloc, io, split, rest, queue, workers), done)
}

/// Runs the parts in `queue` on up to `split.workers` workers, which are made if they are missing, and `meanwhile`
/// beside them. Returns the results of both.
fn run_queue<R: Threads + Sync, A: Actor, E: PartIo<A::Token>, G: FnMut() -> B, B>(
    rt: &R,
    io: &E,
    split: Split<'_, A>,
    rest: &NetState<A::Token, A::State>,
    queue: &PartQueue,
    workers: &mut PartWorkers<E::StretchResult, A::Token, A::State>,
    meanwhile: &mut G,
) -> (
    Result<(Vec<E::StretchResult>, NetState<A::Token, A::State>), RunFault>,
    B,
)
    requires split { IsSplit A.steps (E.inputs io.now) split }
    requires rest { WasLeft A.steps split.net.now split.period.now.repetitions rest.now }
    requires queue { AreBounds split queue.now.bounds.items }
    requires meanwhile { G.pre meanwhile.old }
    ensures ran { MatchResult result.0
        (λ r. GoesOnInParts A.steps split.entry.net.now split.entry.period.now.repetitions (E.inputs io.now)
        (E.makes io.now) rest.now split.entry.periods r.0.items r.1)
        (λ fault. fault ≡ OutOfMemory) }
    ensures meanwhile { G.step meanwhile.old result.1 meanwhile.new }
{
    let threads = queue.count().min(split.workers.max(1) as usize);
    match workers.add_workers(threads) {
        Ok(()) => {
            let alloc = workers.alloc;
            let all = &mut workers.all[..threads];
            run_parts(rt, alloc, io, split, rest, queue, all, meanwhile)
        }
        Err(refused) => (Err(refused.into()), meanwhile()),
    }
}

/// Resumes a net from its state `rest` as `resume_one` does, in parts that up to `split.workers` workers run in
/// parallel. Each part is run in stretches, and each except the first after a warm-up on the periods before it. Returns
/// what the outputs of the stretches became, in order, and the state that the run leaves. Reuses the memory of
/// `workers`.
///
/// Each worker has a thread of its own if one can be made. It takes one part after another, so a worker on a slow
/// processor runs fewer. `meanwhile` is run once in this thread, even if memory is refused.
pub fn resume_split<R: Threads + Sync, A: Actor, E: PartIo<A::Token>, G: FnMut() -> B, B>(
    rt: &R,
    io: &E,
    split: Split<'_, A>,
    rest: &NetState<A::Token, A::State>,
    workers: &mut PartWorkers<E::StretchResult, A::Token, A::State>,
    meanwhile: &mut G,
) -> (
    Result<(Vec<E::StretchResult>, NetState<A::Token, A::State>), RunFault>,
    B,
)
    requires split { IsSplit A.steps (E.inputs io.now) split }
    requires rest { (first : List (List A.Token)) × (few : ℕ)
        × IsNetState A.steps split.net.now first (periods_of split.period.now.repetitions few) rest.now }
    requires meanwhile { G.pre meanwhile.old }
    ensures ran { MatchResult result.0
        (λ r. GoesOnInParts A.steps split.entry.net.now split.entry.period.now.repetitions (E.inputs io.now)
        (E.makes io.now) rest.now split.entry.periods r.0.items r.1)
        (λ fault. fault ≡ OutOfMemory) }
    ensures meanwhile { G.step meanwhile.old result.1 meanwhile.new }
{
    nets_have_periods(split.net);
    match PartQueue::of_split(workers.alloc, split) {
        Ok(queue) => run_queue(rt, io, split, rest, &queue, workers, meanwhile),
        Err(refused) => (Err(refused.into()), meanwhile()),
    }
}
