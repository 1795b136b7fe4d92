//! Tests of rounds by hand, with seats worked in any order: what channels hold after each, and that none is in vain.

ghost use Rattle.std.specs.Prelude.{◌≡◌, length};
ghost use Rattle.sdf_graph.specs.Rates.{rates};
ghost use Rattle.sdf_actor.specs.Graphs.{graph_of};
ghost use Rattle.sdf_prec.specs.BlockTables.{IsBlockTableOf};
ghost use Rattle.sdf_rings.specs.Rests.{HaveMet};

use crate::kits::{BLOCKS, Worked};
use crate::nets::{by_one, planned, ramp};
use sdf_actor::{Actor, Net};
use sdf_node::NoGate;
use sdf_prec::{BlockTable, Table};
use sdf_rings::Rings;
use std::process::Abort;
use std::test::Fail;
use test_texts::row_says;

/// The order in which the seats are worked in a round, from the first or from the last.
#[derive(Clone, Copy)]
enum Turns {
    Rising,
    Falling,
    Alternating,
    /// Rising, but this seat is worked in every third round alone.
    Without(usize),
}

impl Turns {
    fn falls(self, round: u64) -> bool {
        match self {
            Turns::Falling => true,
            Turns::Alternating => round % 2 == 1,
            _ => false,
        }
    }

    fn leaves_out(self, round: u64, seat: usize) -> bool {
        match self {
            Turns::Without(out) => seat == out && round % 3 != 2,
            _ => false,
        }
    }
}

/// Works a round with a spin limit of 0, and ends it. Returns whether each seat was worked.
fn round<A: Actor>(
    rt: &impl Abort,
    rings: &mut Rings<A>,
    net: &Net<A>,
    turns: Turns,
    round: u64,
) -> bool
    requires same { rings.old.net ≡ net.now }
    ensures same { rings.new.net ≡ net.now }
    ensures met { HaveMet rings.new.net rings.new.seats rings.new.places }
{
    let seats = rings.seats();
    let mut all = true;
    for i in 0..seats {
        let seat = if turns.falls(round) { seats - 1 - i } else { i };
        if turns.leaves_out(round, seat) {
            all = false;
        } else {
            assert!(rt; seat < rings.seats());
            rings.work_one(seat, 0, &NoGate);
        }
    }
    rings.meet().unwrap();
    all
}

/// Returns the rate of a channel at one of its ends, which has one phase.
fn rate(rates: &[u32]) -> u64 {
    match rates.first() {
        Some(rate) => u64::from(*rate),
        None => 0,
    }
}

/// Checks that each channel holds what the firings at its ends leave there, and no more than its capacity.
fn held_by_count<A: Actor>(rt: &impl Abort, rings: &Rings<A>, net: &Net<A>, table: &Table)
    requires same { rings.now.net ≡ net.now }
    requires met { HaveMet rings.now.net rings.now.seats rings.now.places }
    requires caps { length table.now.caps ≡ length net.now.wires }
{
    let channels = net.graph().channels();
    for c in 0..net.channels() {
        assert!(rt; c < channels.len());
        let channel = &channels[c];
        assert!(rt; channel.from < net.len());
        assert!(rt; channel.to < net.len());
        let held = rings.held(c);
        let put = rings.done(channel.from).wrapping_mul(rate(&channel.put));
        let taken = rings.done(channel.to).wrapping_mul(rate(&channel.take));
        let begun = channel.initial as u64;
        assert_eq!(rt; held, begun.wrapping_add(put).wrapping_sub(taken));
        assert!(rt; held <= table.cap(c));
    }
}

/// Works rounds until nothing is left, and checks the channels after each. A round in which all seats are worked must
/// do some firing.
fn rounds<A: Actor>(
    rt: &impl Abort,
    rings: &mut Rings<A>,
    net: &Net<A>,
    table: &Table,
    turns: Turns,
)
    requires same { rings.old.net ≡ net.now }
    requires caps { length table.now.caps ≡ length net.now.wires }
{
    let firings = rings.left();
    for number in 0..firings.wrapping_mul(3) {
        let before = rings.left();
        if before == 0 {
            return;
        }
        let all = round(rt, rings, net, turns, number);
        held_by_count(rt, rings, net, table);
        assert!(rt; rings.left() < before || !all);
    }
}

/// Runs `periods` periods by rounds in the order `turns`, and returns the outputs as text.
fn done_by<A: Actor<Token = i32>>(
    rt: &(impl Abort + AllocGlobal),
    net: &Net<A>,
    table: &BlockTable,
    periods: u32,
    inputs: &[Vec<i32>],
    turns: Turns,
) -> Result<String, Fail>
    requires fits { IsBlockTableOf (rates (graph_of A.steps net.now)) table.now }
{
    let mut rings = Rings::prepare(rt.alloc(), net, table, periods, inputs)?;
    rounds(rt, &mut rings, net, &table.table, turns);
    assert!(rt; rings.left() == 0);
    Ok(format!(in rt.alloc(); "{:?}", rings.finish())?)
}

/// The orders and their names.
const TURNS: &[(&str, Turns)] = &[
    ("rising", Turns::Rising),
    ("falling", Turns::Falling),
    ("alternating", Turns::Alternating),
    ("without the first", Turns::Without(0)),
    ("without the second", Turns::Without(1)),
];

/// Checks that each order makes what one thread makes.
fn done_by_each<A: Actor<Token = i32>>(
    rt: &(impl Abort + AllocGlobal),
    net: &Net<A>,
    table: &BlockTable,
    periods: u32,
) -> Result<(), Fail>
    requires fits { IsBlockTableOf (rates (graph_of A.steps net.now)) table.now }
{
    let inputs = ramp(rt.alloc(), 1, 13, net.samples_in())?;
    let one = by_one(rt.alloc(), net, &table.period, periods, &inputs)?;
    for (name, turns) in TURNS {
        row_says(
            name,
            done_by(rt, net, table, periods, &inputs, *turns),
            one.as_str(),
        )?;
    }
    Ok(())
}

/// Checks each order with one, two, three and 16 workers.
fn done_by_workers<A: Actor<Token = i32>>(
    rt: &(impl Abort + AllocGlobal),
    net: &Net<A>,
    periods: u32,
) -> Result<(), Fail> {
    for workers in [1, 2, 3, 16] {
        done_by_each(
            rt,
            net,
            &planned(rt.alloc(), net, 1, workers, true)?,
            periods,
        )?;
    }
    Ok(())
}

/// Checks each order with each number of workers, for the net `worked`.
fn done_on(rt: &(impl Abort + AllocGlobal), worked: Worked, periods: u32) -> Result<(), Fail> {
    done_by_workers(rt, &worked.net(rt.alloc())?, periods)
}

/// Tests seats worked in any order. Refuses rings that hold more than their table says: one sample more, or double.
#[test]
fn in_any_order(rt: HostRuntime) -> Result<(), Fail> {
    done_on(&rt, BLOCKS, 2)?;
    done_on(&rt, Worked::Looped, 2)?;
    done_on(&rt, Worked::Branches(2), 2)?;
    done_on(&rt, Worked::Converter, 1)
}
