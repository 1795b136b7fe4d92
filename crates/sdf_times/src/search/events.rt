//! The firings of a block as the vertices of a search, each with the earliest start that is known.

ghost use Rattle.std.specs.Prelude.{◌≡◌, ℕ, ◌≤◌, ◌<◌, length, sum, slice_index, IfOk};
ghost use Rattle.sdf_limits.specs.declared.TheConstants.{MAX_BLOCK};
ghost use Rattle.sdf_prec.specs.Numbers.{InBlock};
ghost use Rattle.sdf_times.specs.Searches.{IsEvent};

use crate::starts::Starts;
use sdf_prec::Firing;
use std::alloc::{AllocError, Global};
use std::marker::Model;

/// What a firing waits for.
#[derive(Clone, Copy)]
pub(crate) enum Wait {
    Nothing,
    Worker,
    Samples { channel: usize },
    Room { channel: usize },
}

/// The firing, by its index, that sets the start of another one, and how many blocks it is before that.
#[derive(Clone, Copy)]
pub(crate) struct Cause {
    pub(crate) from: usize,
    pub(crate) blocks: u32,
    pub(crate) wait: Wait,
}

/// A firing of the block, its cell in the table, its earliest start and what sets it.
#[derive(Clone, Copy)]
pub(crate) struct Event {
    pub(crate) firing: Firing,
    pub(crate) row: usize,
    pub(crate) column: usize,
    pub(crate) start: u64,
    pub(crate) cause: Cause,
}

const NO_CAUSE: Cause = Cause {
    from: 0,
    blocks: 0,
    wait: Wait::Nothing,
};

const NO_EVENT: Event = Event {
    firing: Firing {
        actor: 0,
        number: 0,
    },
    row: 0,
    column: 0,
    start: 0,
    cause: NO_CAUSE,
};

/// The firings of a block, by index: actor by actor, and then by number.
#[derive(Drop)]
pub(crate) struct Events {
    firings: Vec<u32>,
    offsets: Vec<usize>,
    events: Vec<Event>,
}

impl Model for Events {
    ghost use Rattle.std.specs.Prelude.{length};
    ghost use Rattle.sdf_times.specs.Searches.{EventsValue, AreEvents};

    ghost Value = { EventsValue };

    ghost view = { λ e. record { firings = e.firings.items; total = length e.events.items } };

    ghost invariant = { λ e. AreEvents e.firings.items e.offsets.items e.events.items };
}

impl Events {
    /// Returns the events of a block in which the actors fire `firings` times each. All start at 0.
    pub(crate) fn new(alloc: Global, firings: Vec<u32>) -> Result<Events, AllocError>
        requires few { sum firings.items ≤ MAX_BLOCK }
        requires fires { (a : ℕ) → a < length firings.items → 0 < slice_index firings.items a }
        ensures { IfOk result (λ e. e.firings ≡ firings.items) }
    {
        let mut offsets = Vec::new(alloc);
        let mut total = 0usize;
        for count in &firings {
            offsets.push(total)?;
            total += *count as usize;
        }
        let events = vec![in alloc; NO_EVENT; total]?;
        Ok(Events {
            firings,
            offsets,
            events,
        })
    }

    /// Returns how many firings the block has.
    pub(crate) fn len(&self) -> usize
        ensures { result ≡ self.now.total }
    {
        self.events.len()
    }

    /// Returns how often `actor` fires in the block.
    pub(crate) fn count(&self, actor: usize) -> u32
        requires { actor < length self.now.firings }
        ensures is { result ≡ slice_index self.now.firings actor }
        ensures fires { 0 < result }
        ensures few { result ≤ MAX_BLOCK }
    {
        self.firings[actor]
    }

    /// Returns the index of `firing`.
    pub(crate) fn index(&self, firing: Firing) -> usize
        requires { InBlock self.now.firings firing }
        ensures { result < self.now.total }
    {
        self.offsets[firing.actor] + firing.number as usize
    }

    /// Returns the event at `index`.
    pub(crate) fn at(&self, index: usize) -> Event
        requires { index < self.now.total }
        ensures { IsEvent self.now result }
    {
        self.events[index]
    }

    /// Gives `firing` its cell.
    pub(crate) fn place(&mut self, firing: Firing, row: usize, column: usize)
        requires { InBlock self.old.firings firing }
        ensures { self.new ≡ self.old }
    {
        let index = self.index(firing);
        self.events[index] = Event {
            firing,
            row,
            column,
            start: 0,
            cause: self.events[index].cause,
        };
    }

    /// Delays the event at `index` to `start`, which `cause` sets, if it was earlier. Returns whether it was.
    pub(crate) fn delay(&mut self, index: usize, start: u64, cause: Cause) -> bool
        requires index { index < self.old.total }
        requires from { cause.from < self.old.total }
        ensures { self.new ≡ self.old }
    {
        let event = self.events[index];
        if start <= event.start {
            return false;
        }
        self.events[index] = Event {
            firing: event.firing,
            row: event.row,
            column: event.column,
            start,
            cause,
        };
        true
    }

    /// Sets the start of the event at `index` back to 0.
    fn reset_at(&mut self, index: usize)
        requires { index < self.old.total }
        ensures { self.new ≡ self.old }
    {
        let event = self.events[index];
        self.events[index] = Event {
            firing: event.firing,
            row: event.row,
            column: event.column,
            start: 0,
            cause: Cause {
                from: index,
                blocks: 0,
                wait: Wait::Nothing,
            },
        };
    }

    /// Sets all starts back to 0.
    pub(crate) fn reset(&mut self)
        ensures { self.new ≡ self.old }
    {
        for index in 0..self.len() {
            self.reset_at(index);
        }
    }

    /// Returns the starts of `actor`.
    fn starts_of(&self, alloc: Global, actor: usize) -> Result<Starts, AllocError>
        requires { actor < length self.now.firings }
    {
        let mut starts = Starts::new(alloc);
        for number in 0..self.count(actor) {
            starts.push(self.at(self.index(Firing { actor, number })).start)?;
        }
        Ok(starts)
    }

    /// Returns the starts, actor by actor.
    pub(crate) fn starts(&self, alloc: Global) -> Result<Vec<Starts>, AllocError> {
        let mut starts = Vec::new(alloc);
        for actor in 0..self.firings.len() {
            starts.push(self.starts_of(alloc, actor)?)?;
        }
        Ok(starts)
    }
}
