//! The test of a schedule in which each block starts a fixed time after the one before.

ghost use Rattle.std.specs.Prelude.{◌≡◌, ℕ, ◌*◌, ◌≤◌, ◌<◌, ◌↔◌, length, slice_index, IsTrue, Some};
ghost use Rattle.sdf_graph.specs.Rates.{channel};
ghost use Rattle.sdf_prec.specs.declared.firing.Firing.{Firing};
ghost use Rattle.sdf_prec.specs.Blocks.{block};
ghost use Rattle.sdf_prec.specs.Tables.{row, cell};
ghost use Rattle.sdf_times.specs.Times.{HasStart};
ghost use Rattle.sdf_times.specs.SelfTimed.{IsPeriodic};
ghost use Rattle.sdf_times.specs.Checks.{plan_of, schedule_of, line, AreInTurn, IsColumnInTurn, IsChannelInTime};
ghost use Rattle.sdf_times.specs.Checks.{IsTried, IsBlockRun, IsFull, IsInTime};

use crate::columns::{column_in_turn, pause_of};
use crate::links::channel_in_time;
use crate::starts::Starts;
use sdf_graph::Graph;
use sdf_prec::{Costs, Firing, Table};

/// Checks whether the firings of each actor end before its next one starts.
fn actors_in_turn(costs: &Costs, starts: &[Starts], t: u64, q: u64) -> bool
    requires { length starts.now ≡ length costs.now }
    ensures { IsTrue result ↔ ((a : ℕ) → a < length starts.now →
        AreInTurn (line starts.now a) (q * slice_index costs.now a) t) }
{
    for actor in 0..starts.len() {
        if !starts[actor].are_in_turn(pause_of(costs, actor, q), t) {
            return false;
        }
    }
    true
}

/// Checks whether the firings of each column end before its next one starts.
fn columns_in_turn(table: &Table, costs: &Costs, starts: &[Starts], t: u64, q: u64) -> bool
    requires wide { (width : ℕ) × ((i : ℕ) → i < length table.now.rows → length (row table.now.rows i) ≡ width) }
    requires has { (i j : ℕ) (f : Firing) → cell table.now.rows i j ≡ Some f → HasStart starts.now f }
    requires known { (i j : ℕ) (f : Firing) → cell table.now.rows i j ≡ Some f → f.actor < length costs.now }
    ensures { IsTrue result ↔ ((j : ℕ) →
        IsColumnInTurn table.now.rows (slice_index costs.now) starts.now t q j) }
{
    for column in 0..table.columns() {
        if !column_in_turn(table, starts, costs, t, q, column) {
            return false;
        }
    }
    true
}

/// Checks whether the firings at both ends of each channel wait for those at the other end.
fn channels_in_time(
    graph: &Graph,
    table: &Table,
    costs: &Costs,
    starts: &[Starts],
    t: u64,
    q: u64,
) -> bool
    requires tried { IsTried graph.now table.now costs.now starts.now }
    ensures { IsTrue result ↔ ((c : ℕ) → c < length graph.now.channels →
        IsChannelInTime (channel graph.now c) (slice_index table.now.caps c) (slice_index costs.now) starts.now t q) }
{
    for number in 0..graph.channels().len() {
        if !channel_in_time(graph, table, costs, starts, t, q, number) {
            return false;
        }
    }
    true
}

/// Checks whether no firing starts sooner than the firings that hold it back allow, if each block starts `t` after the
/// one before, in units of `1/q`.
fn schedule_in_time(
    graph: &Graph,
    table: &Table,
    costs: &Costs,
    starts: &[Starts],
    t: u64,
    q: u64,
) -> bool
    requires tried { IsTried graph.now table.now costs.now starts.now }
    ensures { IsTrue result ↔ IsInTime graph.now table.now (slice_index costs.now) starts.now t q }
{
    graph.channels();
    actors_in_turn(costs, starts, t, q)
        && columns_in_turn(table, costs, starts, t, q)
        && channels_in_time(graph, table, costs, starts, t, q)
}

/// Checks whether there is a start for each firing of the block.
fn is_full(reps: &[u32], j: u32, starts: &[Starts]) -> bool
    ensures { IsTrue result ↔ IsFull (block j reps.now) starts.now }
{
    if starts.len() != reps.len() {
        return false;
    }
    for actor in 0..reps.len() {
        if starts[actor].len() as u64 != u64::from(j) * u64::from(reps[actor]) {
            return false;
        }
    }
    true
}

/// Checks whether there are starts for all firings of a block of `j` periods, and whether they are a schedule in which
/// each block starts `t` after the one before, and no firing sooner than the firings that hold it back allow, in units
/// of `1/q`. It takes time linear in the cells, and for each firing in the links at its actor.
pub(crate) fn is_periodic(
    graph: &Graph,
    table: &Table,
    costs: &Costs,
    reps: &[u32],
    j: u32,
    starts: &[Starts],
    t: u64,
    q: u64,
) -> bool
    requires run { (width : ℕ) × IsBlockRun graph.now reps.now j width table.now costs.now }
    ensures { IsTrue result ↔ (IsFull (block j reps.now) starts.now ×
        IsPeriodic (plan_of graph.now (block j reps.now) table.now costs.now) t q (schedule_of t starts.now)) }
{
    graph.channels();
    is_full(reps, j, starts) && schedule_in_time(graph, table, costs, starts, t, q)
}
