//! The number of files of a batch that are done, on one line of a terminal.

use sdf_io::progress::ERASE_LINE;
use sdf_options::plural::plural;
use std::alloc::{AllocError, Global};
use std::io::Write;

/// The number of files of a batch that are done, and whether it is shown.
#[derive(Clone, Copy)]
pub(crate) struct Count {
    pub(crate) done: usize,
    all: usize,
    /// Whether there is a terminal to show it on.
    is_shown: bool,
    /// Whether the line is on the terminal now.
    is_there: bool,
}

impl Count {
    /// Begins a batch of `all` files. None of them is done yet.
    pub(crate) fn new(all: usize, is_shown: bool) -> Count {
        Count {
            done: 0,
            all,
            is_shown,
            is_there: false,
        }
    }

    /// Returns the line.
    fn line(self, alloc: Global) -> Result<String, AllocError> {
        let Count { done, all, .. } = self;
        format!(in alloc; "\r{done} of {all} file{} done\x1b[K", plural(all as u64))
    }

    /// Shows how many files are done if others are not, unless memory is refused for it.
    pub(crate) fn show<E: Write>(&mut self, alloc: Global, err: &mut E) {
        if !self.is_shown || self.done >= self.all {
            return;
        }
        if let Ok(line) = self.line(alloc) {
            let _ = err.write_all(line.as_bytes());
            self.is_there = true;
        }
    }

    /// Removes the line, if it is on the terminal.
    pub(crate) fn hide<E: Write>(&mut self, err: &mut E) {
        if self.is_there {
            let _ = err.write_all(ERASE_LINE);
            self.is_there = false;
        }
    }
}
