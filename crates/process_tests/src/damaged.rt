//! Tests of WAV files that are cut, and of sizes that lie, with each runner.

use crate::designs::HALF;
use crate::devices::seen_moving;
use crate::running::half_of;
use sdf_options::Runner;
use std::alloc::Global;
use std::test::Fail;
use std::thread::Threads;
use test_devices::files::{Answer, FILES, LIES, Whole};
use test_texts::row_says;

/// A design that keeps every second sample: the output for the longest file fits into a file.
const SECONDS: &str = r#"format = 1
actor = [{ name = "in", kind = "input", channel = 0 }, { name = "dec", kind = "decimate", factor = 2 },
    { name = "out", kind = "output", channel = 0 }]
link = [{ from = "in", to = "dec" }, { from = "dec", to = "out" }]"#;

/// The runner of a design, and how many bytes a call of a device moves at most.
type By = (Runner, usize);

/// Returns the file that a design makes of `bytes`, or the fault, as text.
fn told<T: Threads + AllocGlobal + Sync>(
    rt: &T,
    graph: &str,
    (runner, most): By,
    bytes: &[u8],
) -> Result<String, Fail> {
    let seen = seen_moving(rt, graph, runner, bytes, most)?;
    if seen.end.as_str() == "no fault" {
        return format!(in rt.alloc(); "{:?}", seen.output.as_slice()).map_err(Fail::from);
    }
    Ok(seen.end)
}

/// Returns the wanted text: the file of the halves of the samples, or the fault.
fn wanted(alloc: Global, answer: Answer) -> Result<String, Fail> {
    match answer {
        Ok(samples) => {
            let half = half_of(alloc, samples)?;
            format!(in alloc; "{:?}", half.as_slice()).map_err(Fail::from)
        }
        Err(fault) => format!(in alloc; "4 sdfw: {fault}\n").map_err(Fail::from),
    }
}

/// Checks that a design makes of `bytes` what `answer` says.
fn is_answered<T: Threads + AllocGlobal + Sync>(
    rt: &T,
    graph: &str,
    by: By,
    bytes: &[u8],
    answer: Answer,
) -> Result<(), Fail> {
    let name = format!(in rt.alloc(); "{} bytes, {by:?}", bytes.len())?;
    let wanted = wanted(rt.alloc(), answer)?;
    row_says(&name, told(rt, graph, by, bytes), &wanted)
}

/// Checks that each prefix of a file has its answer.
fn fronts_are_answered<T: Threads + AllocGlobal + Sync>(
    rt: &T,
    by: By,
    file: &Whole,
) -> Result<(), Fail> {
    for kept in 0..=file.bytes.len() {
        match file.answer(kept) {
            Some(answer) => is_answered(rt, HALF, by, file.front(kept), answer)?,
            None => return Err(Fail::from("no row")),
        }
    }
    Ok(())
}

/// Checks that each size that lies has its answer.
fn lies_are_answered<T: Threads + AllocGlobal + Sync>(rt: &T, by: By) -> Result<(), Fail> {
    for lie in &LIES {
        is_answered(rt, SECONDS, by, lie.bytes, Err(lie.fault))?;
    }
    Ok(())
}

/// Checks the prefixes of the three files, and the sizes that lie.
fn damage_is_answered<T: Threads + AllocGlobal + Sync>(rt: &T, by: By) -> Result<(), Fail> {
    for file in &FILES {
        fronts_are_answered(rt, by, file)?;
    }
    lies_are_answered(rt, by)
}

#[test]
fn on_one_thread(rt: HostRuntime) -> Result<(), Fail> {
    damage_is_answered(&rt, (Runner::One, usize::MAX))?;
    damage_is_answered(&rt, (Runner::One, 1))
}

#[test]
fn by_rows(rt: HostRuntime) -> Result<(), Fail> {
    damage_is_answered(&rt, (Runner::Rows, usize::MAX))?;
    damage_is_answered(&rt, (Runner::Rows, 1))
}

#[test]
fn over_rings(rt: HostRuntime) -> Result<(), Fail> {
    damage_is_answered(&rt, (Runner::Rings, usize::MAX))?;
    damage_is_answered(&rt, (Runner::Rings, 1))
}
