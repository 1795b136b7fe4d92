//! The progress of a run, on one line of a terminal.

use crate::levels::WrittenFrames;
use std::alloc::{AllocError, Global};
use std::time::Clock;

/// The milliseconds that pass before a run is shown.
const SHORT: u64 = 2_000;

/// The milliseconds between two updates of the line.
const PAUSE: u64 = 200;

/// The most characters of the line. A terminal of 40 columns has it on one line.
const WIDTH: usize = 39;

/// The bytes that erase the line.
pub const ERASE_LINE: &[u8] = b"\r\x1b[K";

/// Returns the time of `clock` in milliseconds, or 0 if it can't be read.
fn now<C: Clock>(clock: &C) -> u64 {
    match clock.monotonic() {
        Ok(time) => u64::try_from(time.as_millis()).unwrap_or(u64::MAX),
        Err(_) => 0,
    }
}

/// The time when a run began and the time when it was last shown, in milliseconds.
#[derive(Clone, Copy)]
pub struct Progress {
    begun: u64,
    shown: Option<u64>,
}

impl Progress {
    /// Returns the progress of a run that begins.
    pub fn new<C: Clock>(clock: &C) -> Progress {
        Progress {
            begun: now(clock),
            shown: None,
        }
    }

    /// Checks whether the run was shown on the line.
    pub(crate) fn is_shown(&self) -> bool {
        self.shown.is_some()
    }

    /// Checks whether the line is due at `time`.
    fn is_due(&self, time: u64) -> bool {
        match self.shown {
            None => time.saturating_sub(self.begun) >= SHORT,
            Some(shown) => time.saturating_sub(shown) >= PAUSE,
        }
    }

    /// Returns the line to write now, or an empty text if it is not due.
    pub(crate) fn line<C: Clock>(
        &mut self,
        alloc: Global,
        clock: &C,
        written_frames: WrittenFrames,
    ) -> Result<String, AllocError> {
        let time = now(clock);
        if !self.is_due(time) {
            return Ok(String::new(alloc));
        }
        self.shown = Some(time);
        line_of(alloc, written_frames, time.saturating_sub(self.begun))
    }
}

/// Returns `number / by` in tenths, or 0 if `by` is 0.
fn tenths(number: u64, by: u64) -> u64 {
    number.saturating_mul(10).checked_div(by).unwrap_or(0)
}

/// Adds a number of `tenths` as a decimal number.
fn push_tenths(text: &mut String, tenths: u64) -> Result<(), AllocError> {
    let (whole, tenth) = (tenths / 10, tenths % 10);
    write!(text, "{whole}.{tenth}")
}

/// Returns the line of a sound that was written as far as `written_frames` in `milliseconds`.
fn line_of(
    alloc: Global,
    written_frames: WrittenFrames,
    milliseconds: u64,
) -> Result<String, AllocError> {
    let WrittenFrames { frames, all, rate } = written_frames;
    let mut text = String::new(alloc);
    push_tenths(&mut text, tenths(frames, rate))?;
    text.push_str(" of ")?;
    push_tenths(&mut text, tenths(all, rate))?;
    text.push_str(" s, ")?;
    let played = frames.saturating_mul(1_000);
    push_tenths(&mut text, tenths(played, rate.saturating_mul(milliseconds)))?;
    text.push_str("x real time")?;
    let shown = text.get(..WIDTH).unwrap_or(text.as_str());
    format!(in alloc; "\r{shown}\x1b[K")
}
