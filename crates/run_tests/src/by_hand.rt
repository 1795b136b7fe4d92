//! Rounds by hand over rings, mostly with a source that puts two samples and a sink that takes three.

ghost use Rattle.std.specs.Prelude.{◌≡◌};
ghost use Rattle.sdf_rings.specs.Rests.{HaveMet};

use crate::kits::{BLOCKS, Worked};
use crate::nets::{planned, ramp};
use crate::patience::{Held, Hold, LATE, PAUSE, SHORT};
use sdf_actor::{Actor, Net};
use sdf_node::NoGate;
use sdf_rings::{Rings, Workers};
use std::alloc::{AllocError, Global};
use std::process::Abort;
use std::sync::atomic::Ordering;
use std::test::Fail;
use std::thread::Threads;
use test_actors::gates;
use test_actors::gates::Watch;
use test_texts::row_says;

/// The work that a row does by hand.
#[derive(Clone, Copy)]
enum ByHand {
    /// Two rounds of the two seats, for one period.
    Seats,
    /// `rounds` rounds for `blocks` blocks, with the seats worked in the order `turn`. `homed` says whether the table's
    /// actors have homes.
    Rounds {
        homed: bool,
        blocks: u32,
        rounds: u32,
        turn: [usize; 2],
    },
    /// Rounds of one seat each, with a gate.
    Gate,
    /// A round of both seats at once: its spin limit, and the turns by which the source's first firing is late.
    AtOnce(u32, u32),
    /// The number of blocks, each of 4,228 firings and one input sample: in all more firings than 32 bits count.
    Many(u32),
}

/// Works both seats in the order `turn` with a spin limit of 0, and ends the round.
fn both_and_meet<A: Actor>(rt: &impl Abort, rings: &mut Rings<A>, turn: [usize; 2])
    ensures met { HaveMet rings.new.net rings.new.seats rings.new.places }
{
    for seat in turn {
        assert!(rt; seat < rings.seats());
        rings.work_one(seat, 0, &NoGate);
    }
    rings.meet().unwrap();
}

/// Prepares rings for `blocks` blocks of one period, on `inputs`, with a table for `workers` workers.
fn prepared<'a, A: Actor<Token = i32>>(
    alloc: Global,
    net: &'a Net<A>,
    workers: usize,
    blocks: u32,
    inputs: &'a [Vec<i32>],
) -> Result<Rings<'a, A>, Fail> {
    let table = planned(alloc, net, 1, workers, true)?;
    Ok(Rings::prepare(alloc, net, &table, blocks, inputs)?)
}

/// Works the sink's seat, then the source's, and a second round. Reports the firings left before, each seat's firings,
/// the channel's samples after the first round, and the firings left at the end.
fn work_seats<A: Actor<Token = i32>>(
    rt: &(impl Abort + AllocGlobal),
    net: &Net<A>,
    rings: &mut Rings<A>,
) -> Result<String, Fail>
    requires same { rings.old.net ≡ net.now }
{
    let left = rings.left();
    assert!(rt; rings.seats() == 2 && net.channels() == 1);
    let sunk = rings.work_one(1, 0, &NoGate);
    let put = rings.work_one(0, 0, &NoGate);
    rings.meet()?;
    let held = rings.held(0);
    both_and_meet(rt, rings, [1, 0]);
    Ok(format!(in rt.alloc(); "{left} {sunk} {put} {held} {}", rings.left())?)
}

/// Prepares rings for one block of six samples, and calls `work_seats`.
fn seats<A: Actor<Token = i32>>(
    rt: &(impl Abort + AllocGlobal),
    net: &Net<A>,
) -> Result<String, Fail> {
    let table = planned(rt.alloc(), net, 1, 2, true)?;
    let inputs = ramp(rt.alloc(), 1, 7, 0)?;
    let mut rings = Rings::prepare(rt.alloc(), net, &table, 1, &inputs)?;
    work_seats(rt, net, &mut rings)
}

/// Works `rounds` rounds, and returns the firings left after each.
fn left_after_each<A: Actor<Token = i32>>(
    rt: &(impl Abort + AllocGlobal),
    rings: &mut Rings<A>,
    rounds: u32,
    turn: [usize; 2],
) -> Result<Vec<u64>, AllocError> {
    let mut left = Vec::new(rt.alloc());
    for _ in 0..rounds {
        both_and_meet(rt, rings, turn);
        left.push(rings.left())?;
    }
    Ok(left)
}

/// Works `rounds` rounds, after which nothing may be left. Returns the firings left after each, and the output lists.
fn work_rounds<A: Actor<Token = i32>>(
    rt: &(impl Abort + AllocGlobal),
    mut rings: Rings<'_, A>,
    rounds: u32,
    turn: [usize; 2],
) -> Result<String, Fail> {
    let left = left_after_each(rt, &mut rings, rounds, turn)?;
    assert!(rt; rings.left() == 0);
    Ok(format!(in rt.alloc(); "{left:?} {:?}", rings.finish())?)
}

/// Returns the firings left after each of `rounds` rounds, and the output lists; or the fault if `prepare` refuses.
fn rounds<A: Actor<Token = i32>>(
    rt: &(impl Abort + AllocGlobal),
    net: &Net<A>,
    homed: bool,
    (blocks, rounds): (u32, u32),
    turn: [usize; 2],
) -> Result<String, Fail> {
    let table = planned(rt.alloc(), net, 1, 2, homed)?;
    let inputs = ramp(rt.alloc(), 1, 13, 0)?;
    match Rings::prepare(rt.alloc(), net, &table, blocks, &inputs) {
        Ok(rings) => work_rounds(rt, rings, rounds, turn),
        Err(fault) => Ok(fault.to_string(rt.alloc())?),
    }
}

/// Returns how many firings passed of the source on processor 0, of the sink on processor 1, and out of turn.
fn counts(watch: &Watch) -> (u64, u64, u64) {
    (watch.passed(0, 0), watch.passed(1, 1), watch.odd())
}

/// Reports `counts` after the sink's seat, which finds nothing, after the source's seat, which fills the ring, and
/// after the sink's seat again.
fn work_gated<A: Actor<Token = i32>>(
    rt: &(impl Abort + AllocGlobal),
    rings: &mut Rings<A>,
) -> Result<String, Fail> {
    let watch = Watch::new(rt.alloc(), 2, 2, gates::Hold::NONE)?;
    assert!(rt; rings.seats() == 2);
    rings.work_one(1, 7, &watch);
    let first = counts(&watch);
    rings.work_one(0, 7, &watch);
    let second = counts(&watch);
    rings.work_one(1, 7, &watch);
    Ok(format!(in rt.alloc(); "{first:?} {second:?} {:?}", counts(&watch))?)
}

/// Prepares rings for two blocks, and calls `work_gated`.
fn passed<A: Actor<Token = i32>>(
    rt: &(impl Abort + AllocGlobal),
    net: &Net<A>,
) -> Result<String, Fail> {
    let inputs = ramp(rt.alloc(), 1, 13, 0)?;
    let mut rings = prepared(rt.alloc(), net, 2, 2, &inputs)?;
    work_gated(rt, &mut rings)
}

/// Reports `left`, whether the awaited actor began, and whether it was awaited in vain.
fn state(alloc: Global, left: u64, held: &Held) -> Result<String, Fail> {
    let begun = held.begun.load(Ordering::SeqCst);
    let missed = held.missed.load(Ordering::SeqCst);
    Ok(format!(in alloc; "{left} left, {begun}, {missed}")?)
}

/// Reports how many of four firings are left after one round of both seats at once. Then it reports whether the sink
/// began, and whether the source waited for that in vain.
fn at_once<R: Abort + Threads + AllocGlobal + Sync, A: Actor<Token = i32>>(
    rt: &R,
    net: &Net<A>,
    patience: u32,
    turns: u32,
) -> Result<String, Fail> {
    let inputs = ramp(rt.alloc(), 1, 3, 0)?;
    let held = Held::new(Hold { turns, ..LATE });
    let mut rings = prepared(rt.alloc(), net, 2, 2, &inputs)?;
    rings.work_all(Workers {
        rt,
        gate: &held,
        patience,
    });
    state(rt.alloc(), rings.left(), &held)
}

/// Returns the number of firings that the seat of one worker has for `blocks` blocks.
fn firings<A: Actor<Token = i32>>(alloc: Global, net: &Net<A>, blocks: u32) -> Result<u64, Fail> {
    let inputs = ramp(alloc, 0, 0, blocks as usize)?;
    Ok(prepared(alloc, net, 1, blocks, &inputs)?.left())
}

/// Reports what `firings` returns.
fn many<A: Actor<Token = i32>>(alloc: Global, net: &Net<A>, blocks: u32) -> Result<String, Fail> {
    Ok(format!(in alloc; "{}", firings(alloc, net, blocks)?)?)
}

/// Returns the net on which `by_hand` works.
fn net_of(by_hand: ByHand) -> Worked {
    match by_hand {
        ByHand::AtOnce(..) => Worked::Pair(1, 1, &[7]),
        ByHand::Many(_) => Worked::Wide,
        ByHand::Seats | ByHand::Rounds { .. } | ByHand::Gate => BLOCKS,
    }
}

fn told<R: Abort + Threads + AllocGlobal + Sync, A: Actor<Token = i32>>(
    rt: &R,
    net: &Net<A>,
    by_hand: ByHand,
) -> Result<String, Fail> {
    match by_hand {
        ByHand::Seats => seats(rt, net),
        ByHand::Rounds {
            homed,
            blocks,
            rounds: many,
            turn,
        } => rounds(rt, net, homed, (blocks, many), turn),
        ByHand::Gate => passed(rt, net),
        ByHand::AtOnce(patience, turns) => at_once(rt, net, patience, turns),
        ByHand::Many(blocks) => many(rt.alloc(), net, blocks),
    }
}

fn told_of<R: Abort + Threads + AllocGlobal + Sync>(
    rt: &R,
    by_hand: ByHand,
) -> Result<String, Fail> {
    told(rt, &net_of(by_hand).net(rt.alloc())?, by_hand)
}

/// Names, work and wanted reports. For two blocks, too, the ring has room for one block: three firings of the source.
/// Sink first: the sink does nothing and the source fires three times; then the sink fires twice and the source three
/// times; then the sink twice. Source first: three firings and two, twice.
const ROWS: &[(&str, ByHand, &str)] = &[
    ("seats", ByHand::Seats, "5 0 3 6 0"),
    (
        "few rounds, the sink first",
        ByHand::Rounds {
            homed: true,
            blocks: 1,
            rounds: 5,
            turn: [1, 0],
        },
        "[2, 0, 0, 0, 0] [[1, 2, 3, 4, 5, 6]]",
    ),
    (
        "two blocks, the sink first",
        ByHand::Rounds {
            homed: true,
            blocks: 2,
            rounds: 3,
            turn: [1, 0],
        },
        "[7, 2, 0] [[1, 2, 3, 4, 5, 6, 7, 8, 9, 10, 11, 12]]",
    ),
    (
        "two blocks, the source first",
        ByHand::Rounds {
            homed: true,
            blocks: 2,
            rounds: 3,
            turn: [0, 1],
        },
        "[5, 0, 0] [[1, 2, 3, 4, 5, 6, 7, 8, 9, 10, 11, 12]]",
    ),
    (
        "two rounds make all of a block",
        ByHand::Rounds {
            homed: true,
            blocks: 1,
            rounds: 2,
            turn: [1, 0],
        },
        "[2, 0] [[1, 2, 3, 4, 5, 6]]",
    ),
    (
        "free tables have no seats: the sink fires in both columns",
        ByHand::Rounds {
            homed: false,
            blocks: 1,
            rounds: 0,
            turn: [0, 1],
        },
        "30 NotHomed",
    ),
    (
        "no firing passes before it is known to be possible",
        ByHand::Gate,
        "(0, 0, 0) (3, 0, 0) (3, 2, 0)",
    ),
    (
        "all seats at once: for seats that are worked in turn, without a gate or without patience",
        ByHand::AtOnce(1_000_000, SHORT),
        "0 left, true, false",
    ),
    (
        "all seats at once, without patience",
        ByHand::AtOnce(0, PAUSE),
        "1 left, true, false",
    ),
    (
        "a list of many blocks: for memory that is not asked for, as by a length of 32 bits in `Course`",
        ByHand::Many(1_016_000),
        "4295648000",
    ),
];

/// Tests rounds by hand. Refuses a `work_all` that works the seats in turn or ignores the spin limit, and a gate that
/// is left out.
#[test]
fn rounds_by_hand(rt: HostRuntime) -> Result<(), Fail> {
    for (name, by_hand, wanted) in ROWS {
        row_says(name, told_of(&rt, *by_hand), wanted)?;
    }
    Ok(())
}
