//! The blocks of a run by rows: its plan, and the firings of all its blocks.

ghost use Rattle.std.specs.Prelude.{◌≡◌, ◌*◌, ◌≤◌, ◌<◌, ℕ, length, map, IfOk};
ghost use Rattle.sdf_graph.specs.Rates.{rates};
ghost use Rattle.sdf_actor.specs.Graphs.{graph_of};
ghost use Rattle.sdf_actor.specs.Wires.{lists};
ghost use Rattle.sdf_limits.specs.declared.TheConstants.{MAX_BLOCK};
ghost use Rattle.sdf_prec.specs.Tables.{row, firings};
ghost use Rattle.sdf_queues.specs.RunResults.{HasInputs};
ghost use Rattle.sdf_prec.specs.BlockTables.{IsBlockTableOf};
ghost use Rattle.sdf_rows.specs.Blocks.{IsOver};

use crate::row_state::RowState;
use crate::runs::{Timetable, run_blocks};
use crate::scene::Scene;
use crate::setup::{make_jobs, make_states};
use sdf_actor::{Actor, Net};
use sdf_node::Gate;
use sdf_prec::{BlockTable, Table};
use sdf_queues::Sizes;
use sdf_queues::rooms::make_queues;
use sdf_queues::sizes::samples_of_blocks;
use std::alloc::{AllocError, Global};
use std::thread::Threads;

/// The plan of a run: a table, and how many of its blocks are run.
#[derive(Clone, Copy)]
pub struct TableBlocks<'a> {
    pub table: &'a BlockTable,
    pub blocks: u32,
}

/// Returns the firing counts of all nodes before a run, which are 0.
fn zero_counts(alloc: Global, repetitions: &[u32]) -> Result<Vec<u64>, AllocError>
    ensures { IfOk result (λ v. v.items ≡ map (λ _. 0) repetitions.now) }
{
    repetitions.iter().map(|_| 0u64).collect(alloc)
}

/// Fires all blocks, and returns the state after them.
pub(crate) fn fire<R: Threads + AllocGlobal + Sync, A: Actor, G: Gate>(
    rt: &R,
    net: &Net<A>,
    plan: &TableBlocks,
    inputs: &[Vec<A::Token>],
    filler: A::Token,
    gate: &G,
) -> Result<RowState<A>, AllocError>
    requires fits { IsBlockTableOf (rates (graph_of A.steps net.now)) plan.now.table.now }
    requires inputs { HasInputs net.now plan.now.table.now.period.repetitions
        (plan.now.blocks * plan.now.table.now.blocking) (lists inputs.now) }
    ensures { let t = plan.now.table.now in IfOk result (λ run_state. IsOver A.steps net.now (lists inputs.now)
        t.period.repetitions t.blocking plan.now.blocks run_state.states.items run_state.queues.items) }
{
    let alloc = rt.alloc();
    let table = plan.table;
    let repetitions = table.period.repetitions();
    let room = samples_of_blocks(plan.blocks, table.blocking, net.samples_out());
    let mut run_state = RowState {
        states: make_states(alloc, net, room)?,
        queues: make_queues(alloc, net, repetitions, table.blocking, filler)?,
        done: zero_counts(alloc, repetitions)?,
    };
    let mut jobs = make_jobs(alloc, net, table.table.columns(), filler)?;
    let scene = Scene {
        net,
        inputs,
        sizes: Sizes::new(alloc, net)?,
        gate,
    };
    let timetable = Timetable {
        table: &table.table,
        repetitions,
        blocking: table.blocking,
    };
    run_blocks(
        rt,
        &scene,
        &timetable,
        plan.blocks,
        &mut jobs,
        &mut run_state,
    );
    Ok(run_state)
}

/// Returns how many rows are fired in `blocks` blocks of `rows` rows.
pub(crate) fn rounds_of(blocks: u32, rows: usize) -> u64
    requires { rows ≤ MAX_BLOCK }
    ensures { result ≡ blocks * rows }
{
    u64::from(blocks) * rows as u64
}
