//! Actors of the tests at work, fired through the bound of the trait.

ghost use Rattle.std.specs.Prelude.{◌≡◌, ◌<◌};
ghost use Rattle.sdf_actor.specs.Steps.{sum_in, sum_out};

use sdf_actor::Actor;
use sdf_kit::Kit;
use std::alloc::AllocError;
use std::fmt::Write;
use std::process::Abort;
use std::test::Fail;

/// Returns the number of samples that `many` firings take, and the number that they put, at all ports.
fn moved<A: Actor>(rt: &impl Abort, actor: &A, many: u32) -> (usize, usize)
    requires { 0 < A.steps.cycle actor.now }
    ensures taken { result.0 ≡ sum_in A.steps actor.now 0 many }
    ensures put { result.1 ≡ sum_out A.steps actor.now 0 many }
{
    let mut taken = 0usize;
    let mut put = 0usize;
    for firing in 0..many {
        let phase = firing % actor.cycle();
        let reads = actor.samples_in(phase);
        let writes = actor.samples_out(phase);
        assert!(rt; taken <= 65_536 && put <= 65_536 && reads <= 65_536 && writes <= 65_536);
        taken += reads;
        put += writes;
    }
    (taken, put)
}

/// Returns the index at which the samples of the output `port` begin in a block that a firing puts.
fn start_of<A: Actor>(rt: &impl Abort, actor: &A, port: usize, phase: u32) -> usize
    requires phase { phase < A.steps.cycle actor.now }
    requires port { port < A.steps.outputs actor.now }
{
    let mut start = 0usize;
    for before in 0..port {
        assert!(rt; start <= 65_536);
        start += actor.put(before, phase) as usize;
    }
    start
}

/// Moves what a firing takes from the fronts of `lists`, one for each input port, into `block`. Returns false if a list
/// has too few samples.
fn take_block<A: Actor>(
    rt: &impl Abort,
    actor: &A,
    phase: u32,
    lists: &mut [&[A::Token]],
    block: &mut Vec<A::Token>,
) -> Result<bool, AllocError>
    requires { phase < A.steps.cycle actor.now }
{
    assert!(rt; lists.len() == actor.inputs());
    for (port, list) in lists.iter_mut().enumerate() {
        let rate = actor.take(port, phase) as usize;
        if list.len() < rate {
            return Ok(false);
        }
        let (front, rest) = list.split_at(rate);
        block.extend_from_slice(front)?;
        *list = rest;
    }
    Ok(true)
}

/// Fires `actor` once at `phase`, and returns the block that it puts.
fn put_once<A: Actor>(
    rt: &(impl Abort + AllocGlobal),
    actor: &A,
    phase: u32,
    state: &mut A::State,
    taken: &[A::Token],
    blank: A::Token,
) -> Result<Vec<A::Token>, AllocError>
    requires { phase < A.steps.cycle actor.now }
{
    assert!(rt; taken.len() == actor.samples_in(phase));
    let mut put = vec![in rt.alloc(); blank; actor.samples_out(phase)]?;
    actor.fire(phase, state, taken, &mut put);
    Ok(put)
}

/// Appends the samples of the output `port` in the block `put` to `all`.
fn keep_port<A: Actor>(
    rt: &(impl Abort + AllocGlobal),
    actor: &A,
    port: usize,
    phase: u32,
    put: &[A::Token],
    all: &mut Vec<A::Token>,
) -> Result<(), AllocError>
    requires phase { phase < A.steps.cycle actor.now }
    requires port { port < A.steps.outputs actor.now }
{
    let start = start_of(rt, actor, port, phase);
    let rate = actor.put(port, phase) as usize;
    assert!(rt; start <= put.len() && rate <= put.len() - start);
    all.extend_from_slice(&put[start..start + rate])
}

/// Fires `actor` on `lists`, one for each input port, as long as they last, and at most 1,024 times. Returns all that
/// it puts at the output `port`.
pub(crate) fn put_at<A: Actor>(
    rt: &(impl Abort + AllocGlobal),
    actor: &A,
    port: usize,
    lists: &[&[A::Token]],
    blank: A::Token,
) -> Result<Vec<A::Token>, AllocError> {
    let cycle = actor.cycle();
    assert!(rt; 0 < cycle && port < actor.outputs());
    let mut lists = Vec::from_slice(rt.alloc(), lists)?;
    let mut state = actor.start(rt.alloc())?;
    let mut all = Vec::new(rt.alloc());
    for firing in 0..1024u32 {
        let phase = firing % cycle;
        let mut taken = Vec::new(rt.alloc());
        if !take_block(rt, actor, phase, &mut lists, &mut taken)? {
            break;
        }
        let put = put_once(rt, actor, phase, &mut state, &taken, blank)?;
        keep_port(rt, actor, port, phase, &put, &mut all)?;
    }
    Ok(all)
}

/// Fires an actor with one phase `many` times in one batch, and returns what it puts.
fn put_run<A: Actor>(
    rt: &(impl Abort + AllocGlobal),
    actor: &A,
    many: u32,
    state: &mut A::State,
    rest: &mut &[A::Token],
    blank: A::Token,
) -> Result<Vec<A::Token>, AllocError>
    requires { A.steps.cycle actor.now ≡ 1 }
{
    let (reads, writes) = moved(rt, actor, many);
    assert!(rt; reads <= rest.len());
    let (now, later) = rest.split_at(reads);
    *rest = later;
    let mut put = vec![in rt.alloc(); blank; writes]?;
    actor.fire_many(0, many as usize, state, now, &mut put);
    Ok(put)
}

/// Fires an actor with one phase in batches of the sizes in `runs`. Returns all that it puts, batch after batch.
pub(crate) fn put_in_runs<A: Actor>(
    rt: &(impl Abort + AllocGlobal),
    actor: &A,
    runs: &[u32],
    taken: &[A::Token],
    blank: A::Token,
) -> Result<Vec<A::Token>, AllocError> {
    assert!(rt; actor.cycle() == 1);
    let mut state = actor.start(rt.alloc())?;
    let mut all = Vec::new(rt.alloc());
    let mut rest = taken;
    for many in runs {
        let put = put_run(rt, actor, *many, &mut state, &mut rest, blank)?;
        all.extend_from_slice(&put)?;
    }
    Ok(all)
}

/// Checks that `kit` puts `want` if it fires in batches of the sizes in `runs`.
fn check_run(
    rt: &(impl Abort + AllocGlobal),
    kit: &Kit,
    runs: &[u32],
    taken: &[i32],
    want: &[i32],
) -> Result<(), Fail> {
    let put = put_in_runs(rt, kit, runs, taken, 0)?;
    assert_eq!(rt; put.as_slice(), want, "in runs of {runs:?}");
    Ok(())
}

/// Checks that a kit with one port on each side puts `want` in one batch and in two.
fn check_runs(
    rt: &(impl Abort + AllocGlobal),
    kit: &Kit,
    taken: &[i32],
    want: &[i32],
) -> Result<(), Fail> {
    assert!(rt; kit.cycle() == 1);
    let rate = kit.samples_in(0);
    assert!(rt; 0 < rate && rate <= taken.len() && taken.len() <= 65_536);
    let many = (taken.len() / rate) as u32;
    check_run(rt, kit, &[many], taken, want)?;
    check_run(rt, kit, &[many / 2, many - many / 2], taken, want)
}

/// Adds what `kit` puts at the output `port`, firing by firing. If the kit has one port on each side, checks that it
/// puts the same in batches.
fn add_put(
    rt: &(impl Abort + AllocGlobal),
    kit: &Kit,
    port: usize,
    lists: &[&[i32]],
    text: &mut String,
) -> Result<(), Fail> {
    let put = put_at(rt, kit, port, lists, 0)?;
    if let ([taken], 1) = (lists, kit.outputs()) {
        check_runs(rt, kit, taken, &put)?;
    }
    Ok(write!(text, "{put:?};")?)
}

/// Returns what `kit` puts at each of its output ports.
pub(crate) fn puts(
    rt: &(impl Abort + AllocGlobal),
    kit: &Kit,
    lists: &[&[i32]],
) -> Result<String, Fail> {
    let mut text = String::new(rt.alloc());
    for port in 0..kit.outputs() {
        add_put(rt, kit, port, lists, &mut text)?;
    }
    Ok(text)
}
