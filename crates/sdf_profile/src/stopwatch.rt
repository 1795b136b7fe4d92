//! The time of each actor's firings.

ghost use Rattle.std.specs.Prelude.{◌≡◌, length, IfOk};

use sdf_run::Gate;
use std::alloc::{AllocError, Global};
use std::sync::atomic::{AtomicU64, Ordering};
use std::time::Clock;

/// The nanoseconds of an actor's firings, and their number.
#[derive(Clone, Copy)]
pub(crate) struct Spent {
    pub(crate) nanoseconds: u64,
    pub(crate) firings: u64,
}

/// Makes `many` counts of 0.
fn counts(alloc: Global, many: usize) -> Result<Vec<AtomicU64>, AllocError> {
    let mut counts = Vec::new(alloc);
    for _ in 0..many {
        counts.push(AtomicU64::new(0))?;
    }
    Ok(counts)
}

fn add(counts: &[AtomicU64], place: usize, more: u64) {
    if let Some(count) = counts.get(place) {
        count.fetch_add(more, Ordering::SeqCst);
    }
}

fn count(counts: &[AtomicU64], place: usize) -> u64 {
    match counts.get(place) {
        Some(count) => count.load(Ordering::SeqCst),
        None => 0,
    }
}

/// A stopwatch that adds the time between two readings of a clock to the actor that fired in between. Only one thread
/// works at a time.
#[derive(Drop)]
pub(crate) struct Stopwatch<C> {
    clock: C,
    /// The last reading, in nanoseconds.
    read: AtomicU64,
    /// The actor that fires.
    firing: AtomicU64,
    spent: Vec<AtomicU64>,
    begun: Vec<AtomicU64>,
}

impl<C: Clock + Drop> Stopwatch<C> {
    /// Makes a stopwatch for `actors` actors, before the first firing.
    pub(crate) fn new(alloc: Global, clock: C, actors: usize) -> Result<Stopwatch<C>, AllocError> {
        Ok(Stopwatch {
            clock,
            read: AtomicU64::new(0),
            firing: AtomicU64::new(u64::MAX),
            spent: counts(alloc, actors)?,
            begun: counts(alloc, actors)?,
        })
    }

    /// Returns the clock's time in nanoseconds, or its last reading if it can't be read.
    fn now(&self) -> u64 {
        match self.clock.monotonic() {
            Ok(time) => u64::try_from(time.as_nanos()).unwrap_or(u64::MAX),
            Err(_) => self.read.load(Ordering::SeqCst),
        }
    }

    /// Ends the firing of the actor before. From here on `actor` fires, or no actor if its number is out of range.
    pub(crate) fn pass_to(&self, actor: usize) {
        let now = self.now();
        let before = self.read.swap(now, Ordering::SeqCst);
        let fired = self.firing.swap(actor as u64, Ordering::SeqCst);
        add(&self.spent, fired as usize, now.saturating_sub(before));
    }

    /// Returns the time and number of the firings of each of the first `actors` actors.
    pub(crate) fn spent(&self, alloc: Global, actors: usize) -> Result<Vec<Spent>, AllocError>
        ensures { IfOk result (λ all. length all.items ≡ actors) }
    {
        let mut all = Vec::new(alloc);
        for actor in 0..actors {
            let nanoseconds = count(&self.spent, actor);
            let firings = count(&self.begun, actor);
            all.push(Spent {
                nanoseconds,
                firings,
            })?;
        }
        Ok(all)
    }
}

impl<C: Clock + Drop + Sync> Gate for Stopwatch<C> {
    fn before(&self, _processor: usize, actor: usize, _firing: u64) {
        self.pass_to(actor);
        add(&self.begun, actor, 1);
    }
}
