//! Calls that run a whole net, and the samples of their runs.

ghost use Rattle.sdf_graph.specs.Rates.{rates};
ghost use Rattle.sdf_actor.specs.Graphs.{graph_of};
ghost use Rattle.sdf_kit.specs.Kit.{kit_steps};
ghost use Rattle.sdf_prec.specs.BlockTables.{IsBlockTableOf};
ghost use Rattle.sdf_plan.specs.Plans.{Suits};

use crate::{TURNS, print_turn};
use anyhow::Result;
use sdf_actor::Net;
use sdf_kit::Kit;
use sdf_plan::{Execution, Plan};
use sdf_prec::BlockTable;
use sdf_run::{Gate, NoGate, Ran, RunFault, Workers, run_one, run_rings, run_rows};
use std::alloc::{AllocError, Global};
use std::io;
use std::thread::Threads;

/// The number of blocks of a run.
pub(crate) const BLOCKS: u32 = 2;

/// Returns a list of samples for each input of `net`, as long as `periods` periods need. The samples are 0, 1, 2 and so
/// on up to 29,999, then from 0 again.
pub(crate) fn inputs_of(
    alloc: Global,
    net: &Net<Kit>,
    periods: u32,
) -> Result<Vec<Vec<i32>>, AllocError> {
    let many = (periods as usize).saturating_mul(net.samples_in());
    let mut lists = Vec::new(alloc);
    for _ in 0..net.inputs() {
        let mut samples = Vec::new(alloc);
        for n in 0..many {
            samples.push((n % 30_000) as i32)?;
        }
        lists.push(samples)?;
    }
    Ok(lists)
}

pub(crate) fn show_ran(rt: &impl Print, answer: Result<Ran<i32>, RunFault>) -> io::Result<()> {
    match answer {
        Ok(ran) => {
            let outputs = ran.outputs;
            println!(rt; "made {outputs:?}")
        }
        Err(fault) => println!(rt; "{fault}"),
    }
}

/// Returns the spin limit of a plan over rings. Other plans have none.
pub(crate) fn patience_of(plan: &Plan) -> Option<u32> {
    match plan.way() {
        Execution::Rings(_) => Some(plan.patience()),
        Execution::One { .. } | Execution::Parts { .. } | Execution::Rows(_) => None,
    }
}

/// Runs a net by rows, or over rings if `patience`, the spin limit, is given.
pub(crate) fn run_by_workers<R: AllocGlobal + Sync + Threads, G: Gate>(
    rt: &R,
    net: &Net<Kit>,
    table: &BlockTable,
    inputs: &[Vec<i32>],
    patience: Option<u32>,
    gate: &G,
) -> Result<Ran<i32>, RunFault>
    requires fits { IsBlockTableOf (rates (graph_of kit_steps net.now)) table.now }
{
    match patience {
        Some(patience) => {
            let workers = Workers { rt, gate, patience };
            run_rings(workers, net, table, BLOCKS, inputs)
        }
        None => run_rows(rt, net, table, BLOCKS, inputs, gate),
    }
}

/// Returns the periods of a block.
fn blocking(plan: &Plan) -> u32 {
    match plan.way() {
        Execution::One { blocking, .. } | Execution::Parts { blocking, .. } => *blocking,
        Execution::Rows(table) | Execution::Rings(table) => table.blocking,
    }
}

/// Runs a net by the plan's runner, twice.
pub(crate) fn run_twice<R: AllocGlobal + Print + Sync + Threads>(
    rt: &R,
    net: &Net<Kit>,
    plan: &Plan,
) -> Result<()>
    requires { Suits net.now plan.now }
{
    let periods = BLOCKS.saturating_mul(blocking(plan));
    let patience = patience_of(plan);
    let inputs = inputs_of(rt.alloc(), net, periods)?;
    for turn in TURNS {
        print_turn(rt, turn)?;
        match plan.table() {
            Some(table) => show_ran(
                rt,
                run_by_workers(rt, net, table, &inputs, patience, &NoGate),
            )?,
            None => show_ran(
                rt,
                run_one(rt.alloc(), net, plan.period(), periods, &inputs),
            )?,
        }
    }
    Ok(())
}
