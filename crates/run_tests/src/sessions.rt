//! Tests of sessions that are fed in pieces.

ghost use Rattle.sdf_graph.specs.Rates.{rates};
ghost use Rattle.sdf_actor.specs.Graphs.{graph_of};
ghost use Rattle.sdf_prec.specs.BlockTables.{IsBlockTableOf};

use crate::kits::Worked;
use crate::nets::{by_one, chain, one_list, pair, planned, ramp};
use crate::patience::{Held, LATE};
use sdf_actor::{Actor, Net};
use sdf_prec::BlockTable;
use sdf_run::{Mode, NoGate, Ran, RunFault, Session};
use std::alloc::{AllocError, Global};
use std::test::Fail;
use std::thread::Threads;
use test_actors::Watched;
use test_actors::gates::{Hold, Watch};
use test_texts::row_says;

/// Appends the samples of `lists` to `joined`.
fn append(joined: &mut Vec<i32>, lists: &[Vec<i32>]) -> Result<(), AllocError> {
    for list in lists {
        joined.extend_from_slice(list)?;
    }
    Ok(())
}

/// Appends the output of `answer` to `joined`, and its new length, or the fault, to `told`.
fn add(
    answer: &Result<Ran<i32>, RunFault>,
    joined: &mut Vec<i32>,
    told: &mut String,
) -> Result<(), Fail> {
    match answer {
        Ok(ran) => {
            append(joined, &ran.outputs)?;
            Ok(write!(told, "{} ", joined.len())?)
        }
        Err(fault) => Ok(write!(told, "{fault} ")?),
    }
}

/// Feeds the numbers of `from..to`. Appends the output to `joined`, and its new length, or the fault, to `told`.
fn feed<R: Threads + AllocGlobal + Sync, A: Actor<Token = i32>>(
    rt: &R,
    session: &mut Session<A>,
    (from, to): (i32, i32),
    joined: &mut Vec<i32>,
    told: &mut String,
) -> Result<(), Fail> {
    let inputs = ramp(rt.alloc(), from, to, 0)?;
    let answer = session.feed(rt, &inputs, &NoGate);
    add(&answer, joined, told)
}

/// Pieces of two blocks of the converter, with an empty piece and a short one between them. A feed that is not a block
/// leaves a session as it was.
const PIECES: &[(i32, i32)] = &[(0, 147), (147, 147), (147, 293), (147, 294)];

/// Feeds `PIECES` one after another, as `feed` does.
fn feed_all<R: Threads + AllocGlobal + Sync, A: Actor<Token = i32>>(
    rt: &R,
    session: &mut Session<A>,
    joined: &mut Vec<i32>,
    told: &mut String,
) -> Result<(), Fail> {
    for piece in PIECES {
        feed(rt, session, *piece, joined, told)?;
    }
    Ok(())
}

/// Feeds `PIECES` to a session with `table`, appends as `feed` does, and returns the number of blocks run.
fn blocks_fed<R: Threads + AllocGlobal + Sync, A: Actor<Token = i32>>(
    rt: &R,
    net: &Net<A>,
    table: &BlockTable,
    mode: Mode,
    joined: &mut Vec<i32>,
    told: &mut String,
) -> Result<u64, Fail>
    requires fits { IsBlockTableOf (rates (graph_of A.steps net.now)) table.now }
{
    let mut session = Session::open(rt.alloc(), net, table, mode)?;
    feed_all(rt, &mut session, joined, told)?;
    Ok(session.close()?.blocks)
}

/// Feeds `PIECES`, and reports the length of the output after each, the number of blocks run, and the output.
fn fed<R: Threads + AllocGlobal + Sync, A: Actor<Token = i32>>(
    rt: &R,
    net: &Net<A>,
    mode: Mode,
) -> Result<String, Fail> {
    let table = planned(rt.alloc(), net, 1, 2, true)?;
    let mut joined = Vec::new(rt.alloc());
    let mut told = String::new(rt.alloc());
    let blocks = blocks_fed(rt, net, &table, mode, &mut joined, &mut told)?;
    Ok(format!(in rt.alloc(); "{told}{blocks} [{joined:?}]")?)
}

/// Returns the text that `fed` must return, with the output of one run of both blocks.
fn wanted<A: Actor<Token = i32>>(alloc: Global, net: &Net<A>) -> Result<String, Fail> {
    let table = planned(alloc, net, 1, 2, true)?;
    let inputs = ramp(alloc, 0, 294, 0)?;
    let one = by_one(alloc, net, &table.period, 2, &inputs)?;
    Ok(format!(in alloc; "160 160 29 InputLength 320 2 {one}")?)
}

const RINGS: Mode = Mode::Rings { patience: 0 };

const MODES: &[(&str, Mode)] = &[("by rows", Mode::Rows), ("over rings", RINGS)];

/// Checks that feeds in pieces make what one run makes, in each mode.
fn pieces_are_one<R: Threads + AllocGlobal + Sync, A: Actor<Token = i32>>(
    rt: &R,
    net: &Net<A>,
) -> Result<(), Fail> {
    let wanted = wanted(rt.alloc(), net)?;
    for (name, mode) in MODES {
        row_says(name, fed(rt, net, *mode), wanted.as_str())?;
    }
    Ok(())
}

/// Feeds two blocks by `table` while the source's first firing is held up. Returns the rounds of the feed, and the
/// rounds that its session sums.
fn rounds_by<R: Threads + AllocGlobal + Sync, A: Actor<Token = i32>>(
    rt: &R,
    net: &Net<A>,
    table: &BlockTable,
) -> Result<(u64, u64), Fail>
    requires fits { IsBlockTableOf (rates (graph_of A.steps net.now)) table.now }
{
    let inputs = ramp(rt.alloc(), 1, 3, 0)?;
    let mut session = Session::open(rt.alloc(), net, table, RINGS)?;
    let rounds = session.feed(rt, &inputs, &Held::new(LATE))?.rounds;
    Ok((rounds, session.close()?.rounds))
}

/// Reports what `rounds_by` returns.
fn rounds_of_a_feed<R: Threads + AllocGlobal + Sync, A: Actor<Token = i32>>(
    rt: &R,
    net: &Net<A>,
) -> Result<String, Fail> {
    let table = planned(rt.alloc(), net, 1, 2, true)?;
    let (fed, summed) = rounds_by(rt, net, &table)?;
    Ok(format!(in rt.alloc(); "{fed} {summed}")?)
}

/// Tests feeds in pieces. Refuses a feed over rings that reports one round whatever it did, which no contract can.
#[test]
fn fed_in_pieces(rt: HostRuntime) -> Result<(), Fail> {
    pieces_are_one(&rt, &Worked::Converter.net(rt.alloc())?)?;
    row_says(
        "a feed whose sink finds nothing more at first, without patience, takes two rounds",
        rounds_of_a_feed(&rt, &Worked::Pair(1, 1, &[7]).net(rt.alloc())?),
        "2 2",
    )
}

/// Returns `many` ones, in one list.
fn ones(alloc: Global, many: usize) -> Result<Vec<Vec<i64>>, AllocError> {
    one_list(alloc, vec![in alloc; 1i64; many]?)
}

/// Returns the number of samples in the first of `lists`, the first of them, and `rounds`, as text.
fn report(alloc: Global, lists: &[Vec<i64>], rounds: u64) -> Result<String, Fail> {
    match lists.first() {
        Some(made) => Ok(format!(in alloc; "{} {:?} {rounds}", made.len(), made.first())?),
        None => Ok(String::new(alloc)),
    }
}

/// Feeds a block of ones to a session with `table`. Reports the number of samples made, the first of them, and the
/// rounds.
fn made_by<R: Threads + AllocGlobal + Sync, A: Actor<Token = i64>>(
    rt: &R,
    net: &Net<A>,
    table: &BlockTable,
    mode: Mode,
) -> Result<String, Fail>
    requires fits { IsBlockTableOf (rates (graph_of A.steps net.now)) table.now }
{
    let many = net.samples_in().wrapping_mul(table.blocking as usize);
    let inputs = ones(rt.alloc(), many)?;
    let mut session = Session::open(rt.alloc(), net, table, mode)?;
    let ran = session.feed(rt, &inputs, &NoGate)?;
    report(rt.alloc(), &ran.outputs, session.close()?.rounds)
}

/// Calls `made_by` for a block of `blocking` periods and a session of `workers` workers.
fn made_of_a_block<R: Threads + AllocGlobal + Sync, A: Actor<Token = i64>>(
    rt: &R,
    net: &Net<A>,
    blocking: u32,
    workers: usize,
    mode: Mode,
) -> Result<String, Fail> {
    let table = planned(rt.alloc(), net, blocking, workers, true)?;
    made_by(rt, net, &table, mode)
}

/// A name, the samples that source and sink move a firing, the periods of a block, the mode, and the wanted report.
const BEGUN: &[(&str, u32, u32, Mode, &str)] = &[
    ("over rings", 1, 1, RINGS, "1 Some(7) 1"),
    (
        "over rings, in a long block",
        1024,
        64,
        RINGS,
        "65536 Some(7) 1",
    ),
    ("by rows", 1, 1, Mode::Rows, "1 Some(7) 2"),
    (
        "by rows, in a long block",
        1024,
        64,
        Mode::Rows,
        "65536 Some(7) 128",
    ),
];

/// Calls `made_of_a_block` with one worker, for a source and a sink that move `block` samples a firing. Their channel
/// begins with 65,536 samples, the maximum.
fn made_of_begun<R: Threads + AllocGlobal + Sync>(
    rt: &R,
    block: u32,
    blocking: u32,
    mode: Mode,
) -> Result<String, Fail> {
    let many = vec![in rt.alloc(); 7i64; 65_536]?;
    made_of_a_block(
        rt,
        &pair(rt.alloc(), block, block, &many)?,
        blocking,
        1,
        mode,
    )
}

/// Tests channels that begin with the maximum number of samples. Refuses an out-of-memory fault without an allocation,
/// as from a `room_of` or a `make_queues` that errs above 66,000. Refuses also a number of rounds that is one too high.
#[test]
fn channels_of_many_samples(rt: HostRuntime) -> Result<(), Fail> {
    for (name, block, blocking, mode, wanted) in BEGUN {
        row_says(name, made_of_begun(&rt, *block, *blocking, *mode), wanted)?;
    }
    Ok(())
}

/// Calls `made_of_a_block` with one worker, for a chain whose inner actor has a cycle of 64 firings.
fn made_of_a_cycle<R: Threads + AllocGlobal + Sync>(rt: &R, mode: Mode) -> Result<String, Fail> {
    let watch = Watch::new(rt.alloc(), 1, 3, Hold::NONE)?;
    let actor = Watched {
        cycle: 64,
        two: false,
        number: 1,
        watch: &watch,
    };
    made_of_a_block(rt, &chain(rt.alloc(), actor)?, 1, 1, mode)
}

/// Tests an actor with the longest cycle: by rows its firings are done one by one, and over rings in one round. Refuses
/// an out-of-memory fault without an allocation, as from a `Sizes::new` that errs for over 32 firings.
#[test]
fn a_long_cycle(rt: HostRuntime) -> Result<(), Fail> {
    row_says(
        "by rows",
        made_of_a_cycle(&rt, Mode::Rows),
        "64 Some(1) 192",
    )?;
    row_says("over rings", made_of_a_cycle(&rt, RINGS), "64 Some(1) 1")
}
