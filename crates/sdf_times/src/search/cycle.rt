//! Cycles among the events that set each other's starts.

ghost use Rattle.std.specs.Prelude.{◌≡◌, ◌<◌, length, IfOk, IfSome};
ghost use Rattle.sdf_prec.specs.Costs.{AreCosts};

use super::candidate::Candidate;
use super::events::{Event, Events, Wait};
use crate::step::{Hold, Step};
use sdf_prec::Costs;
use std::alloc::{AllocError, Global};

/// Sets all `marks` to 0.
fn clear(marks: &mut Vec<usize>)
    ensures { length marks.new.items ≡ length marks.old.items }
{
    for index in 0..marks.len() {
        marks[index] = 0;
    }
}

impl Events {
    /// Goes from cause to cause from the event at `root` on, and marks the events until one that has a mark or no
    /// cause. Returns that event if it is one of this walk.
    fn walk(&self, marks: &mut Vec<usize>, root: usize) -> Option<usize>
        requires all { length marks.old.items ≡ self.now.total }
        requires root { root < self.now.total }
        ensures all { length marks.new.items ≡ self.now.total }
        ensures known { IfSome result (λ at. at < self.now.total) }
    {
        let mut at = root;
        for _ in 0..self.len() {
            if marks[at] != 0 {
                break;
            }
            let cause = self.at(at).cause;
            if let Wait::Nothing = cause.wait {
                return None;
            }
            marks[at] = root + 1;
            at = cause.from;
        }
        if marks[at] == root + 1 {
            Some(at)
        } else {
            None
        }
    }

    /// Returns an event on a cycle of causes, if there is one. `marks` has a number for each event.
    pub(crate) fn cycle(&self, marks: &mut Vec<usize>) -> Option<usize>
        requires { length marks.old.items ≡ self.now.total }
        ensures all { length marks.new.items ≡ self.now.total }
        ensures known { IfSome result (λ at. at < self.now.total) }
    {
        clear(marks);
        for root in 0..self.len() {
            if let Some(at) = self.walk(marks, root) {
                return Some(at);
            }
        }
        None
    }

    /// Returns the step to `event` from its cause, or nothing if it has no cause.
    fn step(&self, event: Event) -> Option<Step>
        requires { event.cause.from < self.now.total }
    {
        let hold = match event.cause.wait {
            Wait::Nothing => return None,
            Wait::Worker => Hold::Worker {
                column: event.column,
                from: self.at(event.cause.from).row,
                to: event.row,
            },
            Wait::Samples { channel } => Hold::Samples { channel },
            Wait::Room { channel } => Hold::Room { channel },
        };
        Some(Step {
            firing: event.firing,
            blocks: event.cause.blocks,
            hold,
        })
    }

    /// Returns what the step to `event` takes from the start of its cause on.
    fn time_of(&self, costs: &Costs, event: Event) -> u64
        requires costs { AreCosts (length self.now.firings) costs.now }
        requires from { event.cause.from < self.now.total }
    {
        match event.cause.wait {
            Wait::Room { channel: _ } => 0,
            _ => u64::from(costs.of(self.at(event.cause.from).firing.actor)),
        }
    }

    /// Returns the cycle of causes on which the event at `start` is, as the next candidate.
    pub(crate) fn candidate(
        &self,
        alloc: Global,
        costs: &Costs,
        start: usize,
    ) -> Result<Candidate, AllocError>
        requires costs { AreCosts (length self.now.firings) costs.now }
        requires start { start < self.now.total }
    {
        let mut steps = Vec::new(alloc);
        let mut time = 0u64;
        let mut blocks = 0u64;
        let mut at = start;
        for _ in 0..self.len() {
            let event = self.at(at);
            if let Some(step) = self.step(event) {
                steps.push(step)?;
            }
            time = time.saturating_add(self.time_of(costs, event));
            blocks = blocks.saturating_add(u64::from(event.cause.blocks));
            at = event.cause.from;
            if at == start {
                break;
            }
        }
        steps.reverse();
        Ok(Candidate::new(time, blocks, steps))
    }
}
