//! The texts of faults.

use sdf_prec::PrecFault;
use sdf_run::RunFault;
use std::alloc::{AllocError, Global};
use std::fmt::Display;
use std::test::Fail;
use test_texts::says;

fn told<F: Display + Drop>(alloc: Global, fault: F) -> Result<String, Fail> {
    Ok(format!(in alloc; "{fault}")?)
}

/// Checks that the text of `fault` is `wanted`.
fn is_told<F: Display + Drop>(alloc: Global, fault: F, wanted: &str) -> Result<(), Fail> {
    says(told(alloc, fault), wanted)
}

/// Checks the text of each fault of `rows`.
fn are_told<F: Display + Copy>(alloc: Global, rows: &[(F, &str)]) -> Result<(), Fail> {
    for (fault, wanted) in rows {
        is_told(alloc, *fault, wanted)?;
    }
    Ok(())
}

const OF_RUNS: &[(RunFault, &str)] = &[
    (RunFault::InputLength, "29 InputLength"),
    (RunFault::NotHomed, "30 NotHomed"),
    (RunFault::Patience, "31 Patience"),
    (RunFault::NoWorker, "32 NoWorker"),
    (RunFault::SessionFailed, "33 SessionFailed"),
];

const OF_PLANS: &[(PrecFault, &str)] = &[
    (PrecFault::BlockingFactor, "11 BlockingFactor"),
    (PrecFault::WorkerCount, "12 WorkerCount"),
    (PrecFault::BlockTooLong, "13 BlockTooLong"),
    (PrecFault::BadHome { actor: 3 }, "19 BadHome actor 3"),
    (PrecFault::BadCost { actor: 4 }, "62 BadCost actor 4"),
];

#[test]
fn of_runs_and_plans(rt: HostRuntime) -> Result<(), Fail> {
    let alloc = rt.alloc();
    is_told(alloc, RunFault::from(AllocError), "1 OutOfMemory")?;
    are_told(alloc, OF_RUNS)?;
    is_told(alloc, PrecFault::from(AllocError), "1 OutOfMemory")?;
    are_told(alloc, OF_PLANS)
}
