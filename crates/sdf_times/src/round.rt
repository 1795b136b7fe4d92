//! The test of a chain of firings that comes round.

ghost use Rattle.std.specs.Prelude.{◌≡◌, ℕ, ◌+◌, ◌*◌, ◌^◌, ◌≤◌, ◌<◌, ◌↔◌, length, slice_index, IsTrue, Some};
ghost use Rattle.sdf_graph.specs.Rates.{rates, rate_at, sum_to};
ghost use Rattle.sdf_prec.specs.Costs.{AreCosts};
ghost use Rattle.sdf_prec.specs.declared.firing.Firing.{Firing};
ghost use Rattle.sdf_times.specs.declared.step.Hold.TheVariants.{Samples, Room};
ghost use Rattle.sdf_prec.specs.Blocks.{block};
ghost use Rattle.sdf_prec.specs.Tables.{cell};
ghost use Rattle.sdf_times.specs.Checks.{plan_of, IsBlockRun};
ghost use Rattle.sdf_times.specs.Rounds.{IsHeld, IsStep, IsRound, wait_of};
ghost use Rattle.sdf_times.specs.SelfTimed.{IsSooner};

use crate::links::channel_at;
use crate::step::{Hold, Step};
use sdf_graph::{Graph, moved_by};
use sdf_limits::{MAX_BLOCK, MAX_COST, MAX_RATE};
use sdf_prec::{Costs, Firing, Table};

/// Checks whether `firing` stands in column `column` of row `i`.
fn stands(table: &Table, i: usize, column: usize, firing: Firing) -> bool
    ensures { IsTrue result ↔ (cell table.now.rows i column ≡ Some firing) }
{
    if i >= table.rows() {
        return false;
    }
    let cells = table.row(i);
    if column >= cells.len() {
        return false;
    }
    match cells[column] {
        Some(here) => here.actor == firing.actor && here.number == firing.number,
        None => false,
    }
}

/// Returns what the first `number + 1` firings at the end with these rates move, `blocks` blocks of `many` firings
/// later.
fn samples_to(rates: &[u32], many: u64, number: u32, blocks: u32) -> u128
    requires some { 0 < length rates.now }
    requires rates { (i : ℕ) → slice_index rates.now i ≤ MAX_RATE }
    requires many { many < 2 ^ 20 }
    ensures is { result ≡ blocks * sum_to (rate_at rates.now) many + sum_to (rate_at rates.now) (number + 1) }
    ensures small { result < 2 ^ 80 }
{
    let whole = moved_by(rates, many);
    u128::from(blocks) * u128::from(whole) + u128::from(moved_by(rates, u64::from(number) + 1))
}

/// Returns how often `actor` fires in a block of `j` periods.
fn firings_of(reps: &[u32], j: u32, actor: usize) -> u64
    requires { actor < length reps.now }
    ensures { result ≡ slice_index (block j reps.now) actor }
{
    u64::from(j) * u64::from(reps[actor])
}

/// Checks whether `firing`, `blocks` blocks later, needs what `before` puts on channel `number`.
fn lacks_samples(
    graph: &Graph,
    table: &Table,
    costs: &Costs,
    reps: &[u32],
    j: u32,
    number: usize,
    before: Firing,
    firing: Firing,
    blocks: u32,
) -> bool
    requires run { (width : ℕ) × IsBlockRun graph.now reps.now j width table.now costs.now }
    ensures { IsTrue result ↔ IsHeld (plan_of graph.now (block j reps.now) table.now costs.now) before firing blocks
        (Samples number) }
{
    if number >= graph.channels().len() {
        return false;
    }
    let channel = channel_at(graph, number);
    if channel.to != firing.actor || channel.from != before.actor {
        return false;
    }
    let many = firings_of(reps, j, channel.to);
    let there = channel.initial as u128
        + u128::from(moved_by(&channel.put, u64::from(before.number)));
    there < samples_to(&channel.take, many, firing.number, blocks)
}

/// Checks whether `firing`, `blocks` blocks later, needs the room of what `before` takes from channel `number`.
fn lacks_room(
    graph: &Graph,
    table: &Table,
    costs: &Costs,
    reps: &[u32],
    j: u32,
    number: usize,
    before: Firing,
    firing: Firing,
    blocks: u32,
) -> bool
    requires run { (width : ℕ) × IsBlockRun graph.now reps.now j width table.now costs.now }
    ensures { IsTrue result ↔ IsHeld (plan_of graph.now (block j reps.now) table.now costs.now) before firing blocks
        (Room number) }
{
    if number >= graph.channels().len() {
        return false;
    }
    let channel = channel_at(graph, number);
    if channel.from != firing.actor || channel.to != before.actor || channel.from == channel.to {
        return false;
    }
    let many = firings_of(reps, j, channel.from);
    let room = u128::from(table.cap(number))
        + u128::from(moved_by(&channel.take, u64::from(before.number)));
    room < channel.initial as u128 + samples_to(&channel.put, many, firing.number, blocks)
}

/// Checks whether both firings stand in `column`, `before` in row `from` and `firing` in row `to`, and `before` ahead.
fn is_ahead(
    table: &Table,
    column: usize,
    from: usize,
    to: usize,
    before: Firing,
    firing: Firing,
    blocks: u32,
) -> bool
    ensures { IsTrue result ↔ ((cell table.now.rows from column ≡ Some before)
        × (cell table.now.rows to column ≡ Some firing) × IsSooner 0 from blocks to) }
{
    stands(table, from, column, before)
        && stands(table, to, column, firing)
        && (blocks > 0 || from < to)
}

/// Checks whether `firing`, `blocks` blocks later, waits for `before` for the reason `hold`.
fn is_held(
    graph: &Graph,
    table: &Table,
    costs: &Costs,
    reps: &[u32],
    j: u32,
    before: Firing,
    firing: Firing,
    blocks: u32,
    hold: Hold,
) -> bool
    requires run { (width : ℕ) × IsBlockRun graph.now reps.now j width table.now costs.now }
    ensures { IsTrue result ↔ IsHeld (plan_of graph.now (block j reps.now) table.now costs.now) before firing blocks
        hold }
{
    match hold {
        Hold::Worker { column, from, to } => {
            is_ahead(table, column, from, to, before, firing, blocks)
        }
        Hold::Samples { channel } => {
            lacks_samples(
                graph, table, costs, reps, j, channel, before, firing, blocks,
            )
        }
        Hold::Room { channel } => {
            lacks_room(
                graph, table, costs, reps, j, channel, before, firing, blocks,
            )
        }
    }
}

/// Checks a step after `before`.
fn is_step(
    graph: &Graph,
    table: &Table,
    costs: &Costs,
    reps: &[u32],
    j: u32,
    before: Firing,
    step: Step,
) -> bool
    requires run { (width : ℕ) × IsBlockRun graph.now reps.now j width table.now costs.now }
    ensures { IsTrue result ↔ IsStep (plan_of graph.now (block j reps.now) table.now costs.now) before step }
{
    before.actor < graph.actors()
        && step.firing.actor < graph.actors()
        && is_held(
            graph,
            table,
            costs,
            reps,
            j,
            before,
            step.firing,
            step.blocks,
            step.hold,
        )
}

/// Returns the time from the start of `before` to the start of a firing that waits for it.
fn wait_of(costs: &Costs, before: Firing, hold: Hold) -> u64
    requires { before.actor < length costs.now }
    ensures is { result ≡ wait_of (slice_index costs.now) before hold }
    ensures small { result ≤ MAX_COST }
{
    match hold {
        Hold::Room { channel: _ } => 0,
        _ => u64::from(costs.of(before.actor)),
    }
}

/// Returns a number of blocks as a wider number.
fn widen(blocks: u32) -> u64
    ensures is { result ≡ blocks }
    ensures small { result < 2 ^ 32 }
{
    u64::from(blocks)
}

/// Checks whether each firing of a chain waits for the one before, and the first for the last, and whether this takes
/// `t/q` a block.
pub(crate) fn is_round(
    graph: &Graph,
    table: &Table,
    costs: &Costs,
    reps: &[u32],
    j: u32,
    steps: &[Step],
    t: u64,
    q: u64,
) -> bool
    requires run { (width : ℕ) × IsBlockRun graph.now reps.now j width table.now costs.now }
    ensures { IsTrue result ↔ IsRound (plan_of graph.now (block j reps.now) table.now costs.now) steps.now t q }
{
    if steps.is_empty() || steps.len() > MAX_BLOCK as usize {
        return false;
    }
    let mut before = steps[steps.len() - 1].firing;
    let mut time = 0u64;
    let mut blocks = 0u64;
    for i in 0..steps.len() {
        let step = steps[i];
        if !is_step(graph, table, costs, reps, j, before, step) {
            return false;
        }
        time += wait_of(costs, before, step.hold);
        blocks += widen(step.blocks);
        before = step.firing;
    }
    blocks > 0 && u128::from(q) * u128::from(time) == u128::from(t) * u128::from(blocks)
}
