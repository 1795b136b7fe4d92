//! Sweeps over the rows of a table: longest paths among the firings of its blocks.

ghost use Rattle.std.specs.Prelude.{◌≡◌, ℕ, ◌≤◌, ◌<◌, length, sum, slice_index, IfOk, Some};
ghost use Rattle.sdf_limits.specs.declared.TheConstants.{MAX_BLOCK};
ghost use Rattle.sdf_graph.specs.Rates.{channel};
ghost use Rattle.sdf_prec.specs.Numbers.{InBlock};
ghost use Rattle.sdf_prec.specs.declared.firing.Firing.{Firing};
ghost use Rattle.sdf_prec.specs.Tables.{row, cell};

use super::counter::{Counter, opposite};
use super::events::{Cause, Events, Wait};
use crate::columns::cell_of;
use crate::links::channel_at;
use sdf_graph::{End, Graph};
use sdf_prec::{Firing, Table};
use std::marker::Model;

/// The last event of a column so far, its actor and its row.
#[derive(Clone, Copy)]
pub(crate) struct Last {
    pub(crate) index: usize,
    pub(crate) actor: usize,
    pub(crate) row: usize,
}

/// The events of a block, and what a sweep over them needs: what a firing of each actor takes and the period, in units
/// of 1 / blocks, the last event of each column, and for each channel the samples and the room.
#[derive(Drop)]
pub(crate) struct Sweep {
    pub(crate) events: Events,
    pub(crate) waits: Vec<u64>,
    pub(crate) period: u64,
    pub(crate) lasts: Vec<Last>,
    pub(crate) samples: Vec<Counter>,
    pub(crate) room: Vec<Counter>,
}

impl Model for Sweep {
    ghost use Rattle.std.specs.Prelude.{length};
    ghost use Rattle.sdf_times.specs.Searches.{SweepValue, IsSweep};

    ghost Value = { SweepValue };

    ghost view = { λ s. record {
      events = s.events;
      columns = length s.lasts.items;
      channels = length s.samples.items;
    } };

    ghost invariant = { λ s.
        IsSweep s.events s.waits.items (length s.samples.items) (length s.room.items) s.lasts.items };
}

impl Sweep {
    /// Returns how many columns the table has.
    pub(crate) fn columns(&self) -> usize
        ensures { result ≡ self.now.columns }
    {
        self.lasts.len()
    }

    /// Delays the event at `index` until `wait` after the event that `cause` names.
    fn relax(&mut self, index: usize, cause: Cause, wait: u64) -> bool
        requires index { index < self.old.events.total }
        requires from { cause.from < self.old.events.total }
        ensures { self.new ≡ self.old }
    {
        let end = self.events.at(cause.from).start.saturating_add(wait);
        let earlier = self.period.saturating_mul(u64::from(cause.blocks));
        self.events.delay(index, end.saturating_sub(earlier), cause)
    }

    /// Delays `firing`, in `row` and `column`, until the firing before it in its column has ended.
    fn relax_worker(&mut self, firing: Firing, row: usize, column: usize) -> bool
        requires firing { InBlock self.old.events.firings firing }
        requires column { column < self.old.columns }
        ensures { self.new ≡ self.old }
    {
        let index = self.events.index(firing);
        let last = self.lasts[column];
        self.lasts[column] = Last {
            index,
            actor: firing.actor,
            row,
        };
        let cause = Cause {
            from: last.index,
            blocks: if last.row < row { 0 } else { 1 },
            wait: Wait::Worker,
        };
        let wait = self.waits[last.actor];
        self.relax(index, cause, wait)
    }

    /// Delays `firing` until the firing at the other end of channel `number` has put the samples that it needs.
    fn relax_samples(&mut self, graph: &Graph, number: usize, firing: Firing) -> bool
        requires graph { graph.now.actors ≡ length self.old.events.firings }
        requires channels { length graph.now.channels ≡ self.old.channels }
        requires number { number < self.old.channels }
        requires firing { InBlock self.old.events.firings firing }
        ensures { self.new ≡ self.old }
    {
        let channel = channel_at(graph, number);
        if channel.from == channel.to {
            return false;
        }
        let count = self.events.count(channel.from);
        let counter = self.samples[number].after(channel, End::Target, firing.number, 2 * count);
        self.samples[number] = counter;
        let cause = Cause {
            from: self.events.index(Firing {
                actor: channel.from,
                number: counter.last() % count,
            }),
            blocks: counter.blocks(count),
            wait: Wait::Samples { channel: number },
        };
        let wait = self.waits[channel.from];
        let index = self.events.index(firing);
        self.relax(index, cause, wait)
    }

    /// Delays `firing` until the firing at the other end of channel `number` has taken what leaves it room.
    fn relax_room(&mut self, graph: &Graph, number: usize, firing: Firing) -> bool
        requires graph { graph.now.actors ≡ length self.old.events.firings }
        requires channels { length graph.now.channels ≡ self.old.channels }
        requires number { number < self.old.channels }
        requires firing { InBlock self.old.events.firings firing }
        ensures { self.new ≡ self.old }
    {
        let channel = channel_at(graph, number);
        if channel.from == channel.to {
            return false;
        }
        let count = self.events.count(channel.to);
        let counter = self.room[number].after(channel, End::Source, firing.number, 2 * count);
        self.room[number] = counter;
        let cause = Cause {
            from: self.events.index(Firing {
                actor: channel.to,
                number: counter.last() % count,
            }),
            blocks: counter.blocks(count),
            wait: Wait::Room { channel: number },
        };
        let index = self.events.index(firing);
        self.relax(index, cause, 0)
    }

    /// Delays `firing` for the samples on all channels to its actor.
    fn relax_inputs(&mut self, graph: &Graph, firing: Firing) -> bool
        requires graph { graph.now.actors ≡ length self.old.events.firings }
        requires channels { length graph.now.channels ≡ self.old.channels }
        requires firing { InBlock self.old.events.firings firing }
        ensures { self.new ≡ self.old }
    {
        let mut delayed = false;
        for number in graph.incoming(firing.actor) {
            delayed |= self.relax_samples(graph, *number, firing);
        }
        delayed
    }

    /// Delays `firing` for the room on all channels from its actor.
    fn relax_outputs(&mut self, graph: &Graph, firing: Firing) -> bool
        requires graph { graph.now.actors ≡ length self.old.events.firings }
        requires channels { length graph.now.channels ≡ self.old.channels }
        requires firing { InBlock self.old.events.firings firing }
        ensures { self.new ≡ self.old }
    {
        let mut delayed = false;
        for number in graph.outgoing(firing.actor) {
            delayed |= self.relax_room(graph, *number, firing);
        }
        delayed
    }

    /// Delays `firing`, in `row` and `column`, for all that it waits for.
    fn relax_firing(&mut self, graph: &Graph, firing: Firing, row: usize, column: usize) -> bool
        requires graph { graph.now.actors ≡ length self.old.events.firings }
        requires channels { length graph.now.channels ≡ self.old.channels }
        requires firing { InBlock self.old.events.firings firing }
        requires column { column < self.old.columns }
        ensures { self.new ≡ self.old }
    {
        let worker = self.relax_worker(firing, row, column);
        let inputs = self.relax_inputs(graph, firing);
        let outputs = self.relax_outputs(graph, firing);
        worker || inputs || outputs
    }

    /// Delays the firings in row `i` of `table`.
    fn relax_row(&mut self, graph: &Graph, table: &Table, i: usize) -> bool
        requires graph { graph.now.actors ≡ length self.old.events.firings }
        requires channels { length graph.now.channels ≡ self.old.channels }
        requires row { i < length table.now.rows }
        requires wide { (k : ℕ) → k < length table.now.rows → length (row table.now.rows k) ≡ self.old.columns }
        requires cells { (k j : ℕ) (f : Firing) → cell table.now.rows k j ≡ Some f → InBlock self.old.events.firings f }
        ensures { self.new ≡ self.old }
    {
        let mut delayed = false;
        for column in 0..self.columns() {
            if let Some(firing) = cell_of(table, i, column) {
                delayed |= self.relax_firing(graph, firing, i, column);
            }
        }
        delayed
    }

    /// Returns how many channels the graph has.
    fn channels(&self) -> usize
        ensures { result ≡ self.now.channels }
    {
        self.samples.len()
    }

    /// Sets the counters of channel `number` back to the begin of a block.
    fn restart_at(&mut self, number: usize)
        requires { number < self.old.channels }
        ensures { self.new ≡ self.old }
    {
        self.samples[number] = self.samples[number].restarted();
        self.room[number] = self.room[number].restarted();
    }

    /// Sets the counters of all channels back to the begin of a block.
    fn restart(&mut self)
        ensures { self.new ≡ self.old }
    {
        for number in 0..self.channels() {
            self.restart_at(number);
        }
    }

    /// Goes over the rows of `table` once and delays each firing for all that it waits for. Returns whether any was.
    pub(crate) fn run(&mut self, graph: &Graph, table: &Table) -> bool
        requires graph { graph.now.actors ≡ length self.old.events.firings }
        requires channels { length graph.now.channels ≡ self.old.channels }
        requires wide { (i : ℕ) → i < length table.now.rows → length (row table.now.rows i) ≡ self.old.columns }
        requires cells { (i j : ℕ) (f : Firing) → cell table.now.rows i j ≡ Some f → InBlock self.old.events.firings f }
        ensures { self.new ≡ self.old }
    {
        self.restart();
        let mut delayed = false;
        for i in 0..table.rows() {
            delayed |= self.relax_row(graph, table, i);
        }
        delayed
    }
}
