//! The state of a run before its first firing.

ghost use Rattle.std.specs.Prelude.{◌≡◌, ◌+◌, ◌≤◌, ◌<◌, ℕ, length, slice_index, vec_len, IfOk};
ghost use Rattle.std.specs.List.{sum_by};
ghost use Rattle.sdf_actor.specs.Nets.{node, IsNet};
ghost use Rattle.sdf_graph.specs.Rates.{sum_to};
ghost use Rattle.sdf_one.specs.Cycles.{AreRowsAt};
ghost use Rattle.sdf_one.specs.Runs.{BeginsWork, AllBeginWork};
ghost use Rattle.sdf_queues.specs.Sizes.{AreSizes, at_phase, rows_on};

use crate::work::Work;
use sdf_actor::{Actor, Net, Node, Side};
use sdf_queues::Sizes;
use std::alloc::{AllocError, Global};

/// Appends a filler to `block` for each sample that a firing moves at `ports`.
fn extend_by<T: Copy>(
    block: &mut Vec<T>,
    ports: &[usize],
    sizes: &[usize],
    filler: T,
) -> Result<(), AllocError>
    requires { (i : ℕ) → i < length ports.now → slice_index ports.now i < length sizes.now }
    ensures { IfOk result (λ _. vec_len block.new ≡ vec_len block.old + sum_by (slice_index sizes.now) ports.now) }
{
    for port in ports {
        extend(block, sizes[*port], filler)?;
    }
    Ok(())
}

/// Appends `many` fillers to `block`.
fn extend<T: Copy>(block: &mut Vec<T>, many: usize, filler: T) -> Result<(), AllocError>
    ensures { IfOk result (λ _. vec_len block.new ≡ vec_len block.old + many) }
{
    block.reserve(many)?;
    let len = block.len() + many;
    block.resize(len, filler)
}

/// Samples of working space beyond one cycle, so that cycles can be batched.
const EXTRA_SAMPLES: usize = 1024;

/// The contents of an actor's blocks: a sample to fill them with, and the number of samples beyond one cycle.
#[derive(Clone, Copy)]
struct Blank<T> {
    filler: T,
    more: usize,
}

impl<T: Copy> Blank<T> {
    /// Describes the blocks of an actor between the channels `ins` and `outs`. An actor with one phase and one channel
    /// on each side fires from channel to channel, so its blocks need no space beyond one cycle.
    fn new(filler: T, cycle: u32, ins: &[usize], outs: &[usize]) -> Blank<T>
        ensures few { result.more ≤ 1024 }
    {
        let is_direct = cycle == 1 && ins.len() == 1 && outs.len() == 1;
        Blank {
            filler,
            more: if is_direct { 0 } else { EXTRA_SAMPLES },
        }
    }
}

/// Makes a block with a place for each sample that a cycle moves at `ports`, and `blank.more` places beyond them.
fn make_block<T: Copy>(
    alloc: Global,
    ports: &[usize],
    sizes: &Sizes,
    side: Side,
    cycle: u32,
    blank: Blank<T>,
) -> Result<Vec<T>, AllocError>
    requires rows { AreRowsAt ports.now (rows_on side sizes.now) cycle }
    requires few { blank.more ≤ 1024 }
    ensures { IfOk result (λ b. sum_to (λ j. sum_by (slice_index (at_phase (rows_on side sizes.now) j))
        ports.now) cycle ≤
        vec_len b) }
{
    let mut block = Vec::with_capacity(alloc, 2 * blank.more)?;
    for phase in 0..cycle {
        extend_by(&mut block, ports, sizes.on(side, phase), blank.filler)?;
    }
    extend(&mut block, blank.more, blank.filler)?;
    Ok(block)
}

/// Makes the runtime of node `a` before its first firing.
fn make_work<'a, A: Actor>(
    alloc: Global,
    net: &'a Net<A>,
    a: usize,
    sizes: &Sizes,
    filler: A::Token,
) -> Result<Work<'a, A>, AllocError>
    requires known { a < length net.now.nodes }
    requires net { IsNet A.steps net.now }
    requires sizes { AreSizes A.steps net.now sizes.now }
    ensures { IfOk result (BeginsWork A.steps (node net.now a)) }
{
    match net.node(a) {
        Node::Source { ext, block } => Ok(Work::Source {
            ext: usize::from(*ext),
            next: 0,
            block: *block as usize,
        }),
        Node::Sink { ext, .. } => Ok(Work::Sink {
            ext: usize::from(*ext),
        }),
        Node::Inner(actor) => {
            let cycle = actor.cycle();
            let state = actor.start(alloc)?;
            let ins = net.channels_in(a);
            let outs = net.channels_out(a);
            let blank = Blank::new(filler, cycle, ins, outs);
            let taken = make_block(alloc, ins, sizes, Side::Input, cycle, blank)?;
            let put = make_block(alloc, outs, sizes, Side::Output, cycle, blank)?;
            Ok(Work::Inner {
                actor,
                phase: 0,
                state,
                taken,
                put,
            })
        }
    }
}

/// Makes the runtimes of all nodes before the first firing.
pub(crate) fn make_works<'a, A: Actor>(
    alloc: Global,
    net: &'a Net<A>,
    sizes: &Sizes,
    filler: A::Token,
) -> Result<Vec<Work<'a, A>>, AllocError>
    requires net { IsNet A.steps net.now }
    requires sizes { AreSizes A.steps net.now sizes.now }
    ensures { IfOk result (λ v. (vec_len v ≡ length net.now.nodes) × AllBeginWork A.steps net.now v.items) }
{
    let mut works = Vec::with_capacity(alloc, net.len())?;
    for a in 0..net.len() {
        works.push(make_work(alloc, net, a, sizes, filler)?)?;
    }
    Ok(works)
}
