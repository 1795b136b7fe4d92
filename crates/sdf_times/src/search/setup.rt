//! A search before its first sweep.

ghost use Rattle.std.specs.Prelude.{◌≡◌, ℕ, ◌<◌, List, length, IfOk, Some};
ghost use Rattle.sdf_limits.specs.declared.TheConstants.{MAX_BLOCK, MAX_RATE};
ghost use Rattle.sdf_prec.specs.Blocks.{block, IsShort};
ghost use Rattle.sdf_prec.specs.Costs.{AreCosts};
ghost use Rattle.sdf_prec.specs.Numbers.{InBlock};
ghost use Rattle.sdf_prec.specs.Tables.{row, cell};
ghost use Rattle.sdf_prec.specs.declared.firing.Firing.{Firing};
ghost use Rattle.sdf_times.specs.Checks.{IsBlockRun};

use super::counter::Counter;
use super::events::Events;
use super::sweep::{Last, Sweep};
use crate::columns::cell_of;
use crate::links::channel_at;
use sdf_graph::{Graph, moved_by};
use sdf_prec::{Costs, Firing, Table};
use std::alloc::{AllocError, Global};

/// Returns how often each actor fires in a block of `blocking` periods.
fn firings_of(alloc: Global, reps: &[u32], blocking: u32) -> Result<Vec<u32>, AllocError>
    requires { IsShort blocking reps.now }
    ensures { IfOk result (λ firings. firings.items ≡ block blocking reps.now) }
{
    let mut firings = Vec::new(alloc);
    for one in reps {
        firings.push(blocking * *one)?;
    }
    Ok(firings)
}

/// Returns what the source of channel `number` puts in a block.
fn samples_of(graph: &Graph, events: &Events, number: usize) -> u64
    requires known { number < length graph.now.channels }
    requires actors { graph.now.actors ≡ length events.now.firings }
{
    let channel = channel_at(graph, number);
    moved_by(&channel.put, u64::from(events.count(channel.from)))
}

/// Returns counters for the samples on the channels.
fn sample_counters(
    alloc: Global,
    graph: &Graph,
    events: &Events,
) -> Result<Vec<Counter>, AllocError>
    requires { graph.now.actors ≡ length events.now.firings }
    ensures { IfOk result (λ list. length list.items ≡ length graph.now.channels) }
{
    let mut counters = Vec::new(alloc);
    for number in 0..graph.channels().len() {
        let initial = channel_at(graph, number).initial as u64;
        counters.push(Counter::new(initial, samples_of(graph, events, number)))?;
    }
    Ok(counters)
}

/// Returns counters for the room on the channels: what the capacities are above the initial samples.
fn room_counters(
    alloc: Global,
    graph: &Graph,
    table: &Table,
    events: &Events,
) -> Result<Vec<Counter>, AllocError>
    requires actors { graph.now.actors ≡ length events.now.firings }
    requires caps { length table.now.caps ≡ length graph.now.channels }
    ensures { IfOk result (λ list. length list.items ≡ length graph.now.channels) }
{
    let mut counters = Vec::new(alloc);
    for number in 0..graph.channels().len() {
        let initial = channel_at(graph, number).initial as u64;
        let room = table.cap(number).saturating_sub(initial);
        counters.push(Counter::new(room, samples_of(graph, events, number)))?;
    }
    Ok(counters)
}

impl Sweep {
    /// Gives `firing` its cell. It is the last of its column so far.
    fn place_firing(&mut self, firing: Firing, row: usize, column: usize)
        requires firing { InBlock self.old.events.firings firing }
        requires column { column < self.old.columns }
        ensures { self.new ≡ self.old }
    {
        self.events.place(firing, row, column);
        self.lasts[column] = Last {
            index: self.events.index(firing),
            actor: firing.actor,
            row,
        };
    }

    /// Gives the firings in row `i` of `table` their cells.
    fn place_row(&mut self, table: &Table, i: usize)
        requires row { i < length table.now.rows }
        requires wide { (k : ℕ) → k < length table.now.rows → length (row table.now.rows k) ≡ self.old.columns }
        requires cells { (k j : ℕ) (f : Firing) → cell table.now.rows k j ≡ Some f → InBlock self.old.events.firings f }
        ensures { self.new ≡ self.old }
    {
        for column in 0..self.columns() {
            if let Some(firing) = cell_of(table, i, column) {
                self.place_firing(firing, i, column);
            }
        }
    }

    /// Gives the firings of `table` their cells.
    fn place(&mut self, table: &Table)
        requires wide { (i : ℕ) → i < length table.now.rows → length (row table.now.rows i) ≡ self.old.columns }
        requires cells { (i j : ℕ) (f : Firing) → cell table.now.rows i j ≡ Some f → InBlock self.old.events.firings f }
        ensures { self.new ≡ self.old }
    {
        for i in 0..table.rows() {
            self.place_row(table, i);
        }
    }

    /// Returns how many actors the graph has.
    fn actors(&self) -> usize
        ensures { result ≡ length self.now.events.firings }
    {
        self.waits.len()
    }

    /// Sets what a firing of `actor` takes to `cost`, in units of 1 / `blocks`.
    fn set_wait(&mut self, actor: usize, cost: u32, blocks: u64)
        requires { actor < length self.old.events.firings }
        ensures { self.new ≡ self.old }
    {
        self.waits[actor] = blocks.saturating_mul(u64::from(cost));
    }

    /// Sets all starts back to 0, and the period to `time`.
    fn reset(&mut self, time: u64)
        ensures { self.new ≡ self.old }
    {
        self.events.reset();
        self.period = time;
    }

    /// Begins anew with a period of `time` for `blocks` blocks.
    pub(crate) fn begin(&mut self, costs: &Costs, time: u64, blocks: u64)
        requires { AreCosts (length self.old.events.firings) costs.now }
        ensures { self.new ≡ self.old }
    {
        self.reset(time);
        for actor in 0..self.actors() {
            self.set_wait(actor, costs.of(actor), blocks);
        }
    }
}

/// Returns the sweep of a table of blocks of `blocking` periods before its first candidate.
pub(crate) fn new_sweep(
    alloc: Global,
    graph: &Graph,
    table: &Table,
    reps: &[u32],
    blocking: u32,
) -> Result<Sweep, AllocError>
    requires run { (width : ℕ) × (costs : List ℕ) × IsBlockRun graph.now reps.now blocking width table.now costs }
    ensures firings { IfOk result (λ s. s.events.firings ≡ block blocking reps.now) }
    ensures columns { IfOk result (λ s. (i : ℕ) → i < length table.now.rows →
        length (row table.now.rows i) ≡ s.columns) }
    ensures channels { IfOk result (λ s. s.channels ≡ length graph.now.channels) }
{
    let actors = graph.actors();
    let events = Events::new(alloc, firings_of(alloc, reps, blocking)?)?;
    let samples = sample_counters(alloc, graph, &events)?;
    let room = room_counters(alloc, graph, table, &events)?;
    let waits = vec![in alloc; 0u64; actors]?;
    let first = Last {
        index: 0,
        actor: 0,
        row: 0,
    };
    let lasts = vec![in alloc; first; table.columns()]?;
    let mut sweep = Sweep {
        events,
        waits,
        period: 0,
        lasts,
        samples,
        room,
    };
    sweep.place(table);
    Ok(sweep)
}
