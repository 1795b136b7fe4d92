//! A writer of a sound that counts what it writes and shows its progress.

ghost use Rattle.std.specs.Prelude.{◌≡◌, ◌⊎◌, Err};
ghost use Rattle.std.specs.Io.KnownBytes.{append_known, Keeps};
ghost use Rattle.sdf_faults.specs.declared.fault.Fault.TheVariants as faults;

use crate::held::HeldStart;
use crate::levels::SoundLevels;
use crate::progress::{ERASE_LINE, Progress};
use sdf_faults::Fault;
use std::alloc::{AllocError, Global};
use std::io::{self, Write};
use std::time::Clock;

/// The progress line of a sound that is written, on standard error and timed by a clock.
#[derive(Drop)]
pub struct ProgressLine<'a, E, C> {
    pub alloc: Global,
    pub err: &'a mut E,
    pub clock: &'a C,
    /// The progress of the run, if it is shown.
    pub progress: Option<Progress>,
}

impl<E: Write, C: Clock> ProgressLine<'_, E, C> {
    /// Shows the progress line, if it is due.
    fn show(&mut self, levels: &SoundLevels) {
        let (Some(progress), Some(written_frames)) = (&mut self.progress, levels.written_frames())
        else {
            return;
        };
        if let Ok(line) = progress.line(self.alloc, self.clock, written_frames) {
            let _ = self.err.write_all(line.as_bytes());
        }
    }

    /// Removes the progress line, if there is one.
    pub fn hide(&mut self) {
        if let Some(progress) = &self.progress {
            if progress.is_shown() {
                let _ = self.err.write_all(ERASE_LINE);
            }
        }
    }
}

/// A writer that passes on to `to` what it is given, the first bytes together. If there are levels, it counts them and
/// shows the progress.
#[derive(Drop)]
pub struct Output<'a, W, E, C> {
    to: HeldStart<'a, W>,
    pub progress_line: ProgressLine<'a, E, C>,
    pub levels: Option<SoundLevels>,
    /// The error with which the system last refused to write.
    pub refused: Option<io::Error>,
}

impl<'a, W: Write, E: Write, C: Clock> Output<'a, W, E, C> {
    /// Returns a writer at the start of a sound. `counts` is whether its levels are counted.
    pub fn new(
        to: &'a mut W,
        progress_line: ProgressLine<'a, E, C>,
        counts: bool,
    ) -> Result<Output<'a, W, E, C>, AllocError> {
        Ok(Output {
            to: HeldStart::new(progress_line.alloc, to)?,
            progress_line,
            levels: if counts {
                Some(SoundLevels::new())
            } else {
                None
            },
            refused: None,
        })
    }

    /// Writes what is still held back after a run that `ended`. If the device refuses it, the fault is `Write`. Writes
    /// nothing if the run ended with this fault.
    pub fn finish(&mut self, ended: Result<(), Fault>) -> Result<(), Fault>
        ensures bytes { Keeps (append_known (W.contents self.old.to.to.now) self.old.to.held.items)
            (append_known (W.contents self.new.to.to.now) self.new.to.held.items) }
        ensures fault { (result ≡ ended) ⊎ (result ≡ Err faults.Write) }
    {
        if let Err(Fault::Write) = &ended {
            return ended;
        }
        match self.to.hand_on() {
            Ok(()) => ended,
            Err(error) => {
                self.refused = Some(error);
                Err(Fault::Write)
            }
        }
    }
}

impl<W: Write, E: Write, C: Clock> Write for Output<'_, W, E, C> {
    ghost contents = { λ output. append_known (W.contents output.to.to.now) output.to.held.items };

    fn write(&mut self, bytes: &[u8]) -> io::Result<usize> {
        match self.to.write(bytes) {
            Ok(count) => {
                if let Some(levels) = &mut self.levels {
                    levels.note(&bytes[..count]);
                    self.progress_line.show(levels);
                }
                Ok(count)
            }
            Err(error) => {
                self.refused = Some(error);
                Err(error)
            }
        }
    }

    fn flush(&mut self) -> io::Result<()> {
        self.to.flush()
    }
}
