//! Compares runs on one thread in the memory of earlier runs with runs in new memory, across nets and lengths.

use crate::kits::{BLOCKS, PLAIN, Worked};
use crate::nets::ramp;
use sdf_actor::{Actor, Net, NetState};
use sdf_run::{Ran, RunFault, RunInputs, SpareMemory, feed_one, resume_one, resume_one_in};
use sdf_sched::Round;
use sdf_sched::class_s::class_s;
use std::alloc::Global;
use std::test::Fail;
use test_texts::row_says;

/// A name, a net, a number of periods, and the wanted text. Each row runs twice, in the memory of the runs before.
type Row = (&'static str, Worked, u32, &'static str);

const ROWS: &[Row] = &[
    ("no memory yet", PLAIN, 100, "alike"),
    ("longer lists", Worked::Converter, 100, "alike"),
    ("shorter ones", BLOCKS, 7, "alike"),
    ("two sinks", Worked::Dealt, 50, "alike"),
    ("more than the inputs hold", PLAIN, 65_000, "29 InputLength"),
    ("channels that begin full", Worked::Turned, 50, "alike"),
    ("the same, shorter", Worked::Turned, 3, "alike"),
    ("a loop with a state", Worked::Looped, 40, "alike"),
    ("no periods", PLAIN, 0, "alike"),
    ("after none", Worked::Converter, 30, "alike"),
    ("longer than before", Worked::Converter, 130, "alike"),
];

/// Compares the outputs of two resumed runs, and the samples that they leave on the channels.
fn report<S>(
    alloc: Global,
    reused: &Result<(Ran<i32>, NetState<i32, S>), RunFault>,
    apart: &Result<(Ran<i32>, NetState<i32, S>), RunFault>,
) -> Result<String, Fail> {
    match (reused, apart) {
        (Ok((made, left)), Ok((ran, last))) => {
            let alike = made.outputs == ran.outputs && left.held == last.held;
            Ok(if alike { "alike" } else { "other samples" }.to_string(alloc)?)
        }
        (Err(fault), Err(_)) => Ok(fault.to_string(alloc)?),
        _ => Ok("one was refused".to_string(alloc)?),
    }
}

/// Resumes a run in new memory and in `spares`, and reports whether both made the same. Gives back the outputs of the
/// second.
fn compare<A: Actor<Token = i32>>(
    alloc: Global,
    net: &Net<A>,
    periods: u32,
    spares: &mut SpareMemory<i32>,
) -> Result<String, Fail> {
    let period = class_s(alloc, net.graph(), net.repetitions(), &mut Round::new())?;
    let inputs = ramp(alloc, -10_000, 10_000, 0)?;
    let (_ran, rest) = feed_one(alloc, net, &period, 2, &inputs)?;
    let run_inputs = RunInputs {
        net,
        period: &period,
        periods,
        inputs: &inputs,
    };
    let apart = resume_one(alloc, net, &period, &rest, periods, &inputs);
    let reused = resume_one_in(alloc, run_inputs, &rest, spares);
    let text = report(alloc, &reused, &apart);
    if let Ok((made, _left)) = reused {
        spares.give_back(made.outputs);
    }
    text
}

/// Compares the runs of a row twice, in the same memory.
fn compare_twice(alloc: Global, row: &Row, spares: &mut SpareMemory<i32>) -> Result<(), Fail> {
    let (name, worked, periods, wanted) = row;
    let net = worked.net(alloc)?;
    row_says(name, compare(alloc, &net, *periods, spares), wanted)?;
    row_says(name, compare(alloc, &net, *periods, spares), wanted)
}

#[test]
fn runs_in_the_memory_of_others(rt: HostRuntime) -> Result<(), Fail> {
    let alloc = rt.alloc();
    let mut spares = SpareMemory::none(alloc);
    for row in ROWS {
        compare_twice(alloc, row, &mut spares)?;
    }
    Ok(())
}
