//! Rows and blocks of a table, one after another.

ghost use Rattle.std.specs.Prelude.{◌≡◌, ◌≤◌, ◌<◌, ℕ, length, slice_index};
ghost use Rattle.sdf_graph.specs.Rates.{rates};
ghost use Rattle.sdf_graph.specs.Periods.{IsLeastPeriod};
ghost use Rattle.sdf_actor.specs.Graphs.{graph_of};
ghost use Rattle.sdf_actor.specs.Wires.{lists};
ghost use Rattle.sdf_prec.specs.Tables.{row, firings};
ghost use Rattle.sdf_prec.specs.BlockTables.{IsTableOf};
ghost use Rattle.sdf_rows.specs.RowStates.{HaveBlocks, KeepBlocks, IsBetween, IsScene};
ghost use Rattle.sdf_rows.specs.Blocks.{IsRound, IsResting, block_after};

use crate::row_firing::RowFiring;
use crate::row_state::{RowState, run_row};
use crate::scene::Scene;
use sdf_actor::Actor;
use sdf_node::Gate;
use sdf_prec::Table;
use std::thread::Threads;

/// A table for a block of `blocking` periods, and the repetition vector of a period.
#[derive(Drop)]
pub(crate) struct Timetable<'a> {
    pub(crate) table: &'a Table,
    pub(crate) repetitions: &'a [u32],
    pub(crate) blocking: u32,
}

/// Fires the rows of one block.
pub(crate) fn run_block<R: Threads + Sync, A: Actor, G: Gate>(
    rt: &R,
    scene: &Scene<A, G>,
    timetable: &Timetable,
    jobs: &mut [RowFiring<A>],
    run_state: &mut RowState<A>,
)
    requires scene { IsScene A.steps scene.now.net.now scene.now.sizes }
    requires table { IsTableOf (rates (graph_of A.steps scene.now.net.now)) timetable.now.repetitions.now
        timetable.now.blocking timetable.now.table.now }
    requires start { (many : ℕ → ℕ) × IsBetween A.steps scene.now.net.now (lists scene.now.inputs.now) many
        (slice_index run_state.old.done.items) (block_after timetable.now.repetitions.now timetable.now.blocking
        (slice_index run_state.old.done.items))
        (slice_index run_state.old.done.items) run_state.old.states.items run_state.old.queues.items }
    requires round { IsRound A.steps scene.now.net.now (slice_index run_state.old.done.items) }
    requires counted { length run_state.old.done.items ≡ length scene.now.net.now.nodes }
    requires blocks { HaveBlocks A.steps scene.now.net.now jobs.old }
    requires wide { (i : ℕ) → i < length timetable.now.table.now.rows →
        length (firings (row timetable.now.table.now.rows i)) ≤ length jobs.old }
    ensures over { (many : ℕ → ℕ) → IsBetween A.steps scene.now.net.now (lists scene.now.inputs.now) many
        (slice_index run_state.old.done.items) (block_after timetable.now.repetitions.now timetable.now.blocking
        (slice_index run_state.old.done.items))
        (slice_index run_state.old.done.items) run_state.old.states.items run_state.old.queues.items →
        IsBetween A.steps scene.now.net.now (lists scene.now.inputs.now) many (slice_index run_state.old.done.items)
        (block_after timetable.now.repetitions.now timetable.now.blocking (slice_index run_state.old.done.items))
        (slice_index run_state.new.done.items)
        run_state.new.states.items run_state.new.queues.items }
    ensures done { (a : ℕ) → a < length scene.now.net.now.nodes →
        slice_index run_state.new.done.items a ≡ block_after timetable.now.repetitions.now timetable.now.blocking
        (slice_index run_state.old.done.items) a }
    ensures counts { length run_state.new.done.items ≡ length run_state.old.done.items }
    ensures blocks { KeepBlocks jobs.old jobs.new }
{
    for i in 0..timetable.table.rows() {
        run_row(rt, scene, timetable.table.row(i), jobs, run_state);
    }
}

/// Fires the rows of all blocks.
pub(crate) fn run_blocks<R: Threads + Sync, A: Actor, G: Gate>(
    rt: &R,
    scene: &Scene<A, G>,
    timetable: &Timetable,
    blocks: u32,
    jobs: &mut [RowFiring<A>],
    run_state: &mut RowState<A>,
)
    requires scene { IsScene A.steps scene.now.net.now scene.now.sizes }
    requires period { IsLeastPeriod (rates (graph_of A.steps scene.now.net.now)) timetable.now.repetitions.now }
    requires table { IsTableOf (rates (graph_of A.steps scene.now.net.now)) timetable.now.repetitions.now
        timetable.now.blocking timetable.now.table.now }
    requires start { IsResting A.steps scene.now.net.now (lists scene.now.inputs.now) timetable.now.repetitions.now
        timetable.now.blocking blocks 0 (slice_index run_state.old.done.items) run_state.old.states.items
        run_state.old.queues.items }
    requires counted { length run_state.old.done.items ≡ length scene.now.net.now.nodes }
    requires blocks { HaveBlocks A.steps scene.now.net.now jobs.old }
    requires wide { (i : ℕ) → i < length timetable.now.table.now.rows →
        length (firings (row timetable.now.table.now.rows i)) ≤ length jobs.old }
    ensures over { IsResting A.steps scene.now.net.now (lists scene.now.inputs.now) timetable.now.repetitions.now
        timetable.now.blocking blocks blocks (slice_index run_state.new.done.items) run_state.new.states.items
        run_state.new.queues.items }
{
    for _ in 0..blocks {
        run_block(rt, scene, timetable, jobs, run_state);
    }
}
