//! The desk of a batch: workers hand over the outcomes of its files, which are reported in file order.

use crate::count::Count;
use crate::items::Batching;
use crate::outcome::Outcome;
use sdf_faults::Fault;
use sdf_io::files::Sources;
use std::alloc::{AllocError, Global};
use std::io::Write;

/// A finished file: its number and its outcome.
#[derive(Drop)]
pub(crate) struct FinishedFile<'a> {
    pub(crate) number: usize,
    pub(crate) outcome: Outcome<'a>,
}

/// The outcomes of the files of a batch, reported in file order.
#[derive(Drop)]
pub(crate) struct Desk<'d, 'a, O, E> {
    out: &'d mut O,
    err: &'d mut E,
    sources: &'d mut Sources,
    batching: Batching<'d>,
    /// The outcome of each file that is done and not reported.
    outcomes: Vec<Option<Outcome<'a>>>,
    reported: usize,
    count: Count,
    /// The greatest exit status so far, or the fault of a report.
    worst: Result<u8, Fault>,
}

impl<'d, 'a, O: Write, E: Write> Desk<'d, 'a, O, E> {
    /// Begins a batch of `files` files. None of them is done yet.
    pub(crate) fn new(
        alloc: Global,
        out: &'d mut O,
        err: &'d mut E,
        batching: Batching<'d>,
        files: usize,
        sources: &'d mut Sources,
    ) -> Result<Desk<'d, 'a, O, E>, AllocError> {
        let mut outcomes = Vec::new(alloc);
        for _ in 0..files {
            outcomes.push(None)?;
        }
        let mut count = Count::new(files, batching.is_shown);
        count.show(alloc, err);
        Ok(Desk {
            out,
            err,
            sources,
            batching,
            outcomes,
            reported: 0,
            count,
            worst: Ok(0),
        })
    }

    /// Moves outcomes out of `done`, reports all that can be reported, and shows how many files are done. Returns false
    /// if a report fails.
    pub(crate) fn take_over(&mut self, alloc: Global, done: &mut Vec<FinishedFile<'a>>) -> bool {
        if done.is_empty() {
            return self.worst.is_ok();
        }
        self.count.hide(self.err);
        self.report_all(alloc, done);
        if self.worst.is_err() {
            return false;
        }
        self.count.show(alloc, self.err);
        true
    }

    /// Removes the line that shows how many files are done.
    pub(crate) fn hide_count(&mut self) {
        self.count.hide(self.err);
    }

    /// Moves outcomes out of `done`, and reports all that can be reported.
    pub(crate) fn report_all(&mut self, alloc: Global, done: &mut Vec<FinishedFile<'a>>) {
        for _ in 0..done.len() {
            if let Some(done) = done.pop() {
                self.put(done);
            }
        }
        self.report_ready(alloc);
    }

    /// Puts the outcome `done` in the place of its file.
    fn put(&mut self, done: FinishedFile<'a>) {
        let FinishedFile { number, outcome } = done;
        if let Some(place) = self.outcomes.get_mut(number) {
            *place = Some(outcome);
        }
        self.count.done = self.count.done.saturating_add(1);
    }

    /// Reports files in order, up to the first one that is not done.
    fn report_ready(&mut self, alloc: Global) {
        for _ in 0..self.outcomes.len() {
            let Some(mut outcome) = self.take_next() else {
                return;
            };
            self.report(alloc, &mut outcome);
        }
    }

    /// Takes out the outcome of the next file, if it is done.
    fn take_next(&mut self) -> Option<Outcome<'a>> {
        let outcome = self.outcomes.get_mut(self.reported)?.take()?;
        self.reported = self.reported.saturating_add(1);
        Some(outcome)
    }

    /// Reports `outcome`, unless an earlier report failed.
    fn report(&mut self, alloc: Global, outcome: &mut Outcome<'a>) {
        if let Ok(worst) = &mut self.worst {
            match outcome.report(alloc, self.out, self.err, self.batching, self.sources) {
                Ok(status) => *worst = (*worst).max(status),
                Err(fault) => self.worst = Err(fault),
            }
        }
    }

    /// Returns the greatest exit status, or the fault of a report.
    pub(crate) fn worst(self) -> Result<u8, Fault> {
        let Desk { worst, .. } = self;
        worst
    }
}
