//! Gates that count the firings that pass, and hold some of them.
//!
//! None hangs: a held firing goes on after a number of turns, and then counts as missed.

use sdf_node::{ActorId, Gate};
use std::alloc::{AllocError, Global};
use std::sync::atomic::{AtomicU64, Ordering};
use std::thread;

/// The most turns of a firing that is held until others have begun. They begin sooner, however busy the machine is.
pub const MANY_TURNS: u32 = 2_000_000;

/// The turns of a firing that is held in vain.
const FEW_TURNS: u32 = 20_000;

/// The firings to hold: `many` of each actor in `held`, from firing `first` on. Each is held until all actors in
/// `awaited` have begun their firing of its number plus `ahead`. It waits up to `turns` turns for each of them.
#[derive(Drop, Clone, Copy)]
pub struct Hold<'a> {
    pub held: &'a [ActorId],
    pub first: u64,
    pub many: u64,
    pub awaited: &'a [ActorId],
    pub ahead: u64,
    pub turns: u32,
}

impl<'a> Hold<'a> {
    /// A hold of no firings.
    pub const NONE: Hold<'static> = Hold {
        held: &[],
        first: 0,
        many: 0,
        awaited: &[],
        ahead: 0,
        turns: 0,
    };

    /// Makes a hold of the first `many` firings of each of `actors`, each until all of them have begun their firing of
    /// that number.
    pub fn meeting(actors: &'a [ActorId], many: u64) -> Hold<'a> {
        Hold {
            held: actors,
            first: 0,
            many,
            awaited: actors,
            ahead: 0,
            turns: MANY_TURNS,
        }
    }

    /// Makes a hold that is given up soon, for a run in which the awaited actors do not begin.
    pub fn in_vain(self) -> Hold<'a> {
        Hold {
            turns: FEW_TURNS,
            ..self
        }
    }

    fn holds(&self, actor: ActorId, firing: u64) -> bool {
        self.held.contains(&actor) && firing >= self.first && firing - self.first < self.many
    }
}

/// A gate that counts firings by processor and actor, and the firings that pass out of turn.
#[derive(Drop)]
pub struct Watch<'a> {
    hold: Hold<'a>,
    /// Firings that have passed, by processor, then by actor.
    passed: Vec<Vec<AtomicU64>>,
    /// Firings begun in the run that is watched, by actor.
    begun: Vec<AtomicU64>,
    fired: Vec<AtomicU64>,
    odd: AtomicU64,
    missed: AtomicU64,
}

/// Returns `many` counts of 0.
fn counts(alloc: Global, many: usize) -> Result<Vec<AtomicU64>, AllocError> {
    let mut counts = Vec::new(alloc);
    for _ in 0..many {
        counts.push(AtomicU64::new(0))?;
    }
    Ok(counts)
}

/// Sets `counts` to 0.
fn clear(counts: &[AtomicU64]) {
    for count in counts {
        count.store(0, Ordering::SeqCst);
    }
}

/// Adds 1 to the count at `place`, and returns the count before. Outside `counts`, returns a count that no run reaches.
fn add(counts: &[AtomicU64], place: usize) -> u64 {
    match counts.get(place) {
        Some(count) => count.fetch_add(1, Ordering::SeqCst),
        None => u64::MAX,
    }
}

/// Returns the count at `place`, or 0 outside `counts`.
fn count(counts: &[AtomicU64], place: usize) -> u64 {
    match counts.get(place) {
        Some(count) => count.load(Ordering::SeqCst),
        None => 0,
    }
}

impl<'a> Watch<'a> {
    /// Makes a gate for runs of `actors` actors on `processors` processors.
    pub fn new(
        alloc: Global,
        processors: usize,
        actors: usize,
        hold: Hold<'a>,
    ) -> Result<Watch<'a>, AllocError> {
        let mut passed = Vec::new(alloc);
        for _ in 0..processors {
            passed.push(counts(alloc, actors)?)?;
        }
        Ok(Watch {
            hold,
            passed,
            begun: counts(alloc, actors)?,
            fired: counts(alloc, actors)?,
            odd: AtomicU64::new(0),
            missed: AtomicU64::new(0),
        })
    }

    /// Begins another run, whose firings are numbered from 0 again. Counts by processor go on.
    pub fn anew(&self) {
        clear(&self.begun);
        clear(&self.fired);
    }

    /// Returns the number of firings of `actor` that have passed on `processor`.
    pub fn passed(&self, processor: usize, actor: ActorId) -> u64 {
        match self.passed.get(processor) {
            Some(counts) => count(counts, actor),
            None => 0,
        }
    }

    /// Returns the number of odd firings: they passed out of order or on a processor that does not exist, or fired
    /// before they passed.
    pub fn odd(&self) -> u64 {
        self.odd.load(Ordering::SeqCst)
    }

    /// Returns the number of firings that were held in vain.
    pub fn missed(&self) -> u64 {
        self.missed.load(Ordering::SeqCst)
    }

    /// Notes that `actor` fires.
    pub fn fires(&self, actor: ActorId) {
        if add(&self.fired, actor) >= count(&self.begun, actor) {
            self.odd.fetch_add(1, Ordering::SeqCst);
        }
    }

    /// Waits until `actor` begins its firing number `firing`. Returns false if it does not within the turns.
    fn begins(&self, actor: ActorId, firing: u64) -> bool {
        for _ in 0..self.hold.turns {
            if count(&self.begun, actor) > firing {
                return true;
            }
            thread::yield_now();
        }
        false
    }

    /// Waits until all awaited actors begin their firing number `firing`. Returns false if one does not within its
    /// turns.
    fn all_begin(&self, firing: u64) -> bool {
        for actor in self.hold.awaited {
            if !self.begins(*actor, firing) {
                return false;
            }
        }
        true
    }

    /// Counts a firing, and returns whether it is in its turn.
    fn passes(&self, processor: usize, actor: ActorId, firing: u64) -> bool {
        let Some(counts) = self.passed.get(processor) else {
            return false;
        };
        add(counts, actor);
        add(&self.begun, actor) == firing
    }
}

impl<'a> Gate for Watch<'a> {
    fn before(&self, processor: usize, actor: ActorId, firing: u64) {
        if !self.passes(processor, actor, firing) {
            self.odd.fetch_add(1, Ordering::SeqCst);
        }
        if self.hold.holds(actor, firing)
            && !self.all_begin(firing.saturating_add(self.hold.ahead))
        {
            self.missed.fetch_add(1, Ordering::SeqCst);
        }
    }
}

/// A gate that holds `processor` for `turns` turns before each firing whose number is a multiple of `every`.
#[derive(Drop)]
pub struct Delay {
    processor: usize,
    every: u64,
    turns: u32,
    /// A number that is read once a turn.
    read: AtomicU64,
}

impl Delay {
    pub fn new(processor: usize, every: u64, turns: u32) -> Delay {
        Delay {
            processor,
            every,
            turns,
            read: AtomicU64::new(0),
        }
    }
}

impl Gate for Delay {
    fn before(&self, processor: usize, _actor: ActorId, firing: u64) {
        if processor == self.processor && firing.checked_rem(self.every) == Some(0) {
            for _ in 0..self.turns {
                let _ = self.read.load(Ordering::SeqCst);
            }
        }
    }
}
