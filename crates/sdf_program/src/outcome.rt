//! The outcome of a file in a batch, and how it is reported.

ghost use Rattle.std.specs.Prelude.{◌≡◌, MatchResult};
ghost use Rattle.sdf_faults.specs.Statuses.{status_of};

use crate::items::Batching;
use sdf_commands::diagnostics::why;
use sdf_faults::{Fault, fault_text, status};
use sdf_io::files::{Sources, put};
use sdf_options::printable::printable;
use std::alloc::{AllocError, Global};
use std::io::Write;

/// The outcome of the file `input`: the messages of its run, the result, and what is known about the WAV file.
#[derive(Drop)]
pub(crate) struct Outcome<'a> {
    pub(crate) input: &'a str,
    pub(crate) messages: Vec<u8>,
    pub(crate) ended: Result<(), Fault>,
    pub(crate) sound_sources: Sources,
}

/// Returns the first line of a text.
fn first_line(text: &str) -> &str {
    match text.split_once('\n') {
        Some((first, _)) => first,
        None => text,
    }
}

/// Returns the line of a fault without the program's name.
fn without_prefix(line: &str) -> &str {
    match line.strip_prefix("sdfw: ") {
        Some(rest) => rest,
        None => line,
    }
}

/// Adds the lines of `messages`, with `name` before each of them.
fn push_named(text: &mut String, name: &str, messages: &str) -> Result<(), AllocError> {
    for line in messages.lines() {
        writeln!(text, "{name}: {line}")?;
    }
    Ok(())
}

impl Outcome<'_> {
    /// Returns the outcome in a line.
    fn text(&self, alloc: Global) -> Result<String, AllocError> {
        match &self.ended {
            Ok(()) => String::from_str(alloc, "done"),
            Err(fault) => {
                let text = fault_text(alloc, fault)?;
                String::from_str(alloc, without_prefix(first_line(text.as_str())))
            }
        }
    }

    /// Prints the line of the file.
    fn show<O: Write>(&self, alloc: Global, out: &mut O) -> Result<(), Fault> {
        let shown = printable(alloc, self.input)?;
        let text = self.text(alloc)?;
        let line = format!(in alloc; "{}: {}\n", shown.as_str(), text.as_str())?;
        put(out, line.as_bytes())
    }

    /// Returns the messages of the run, with the name of the file before each line.
    fn named_messages(&self, alloc: Global) -> Result<String, AllocError> {
        let mut text = String::new(alloc);
        if let Ok(messages) = str::from_utf8(&self.messages) {
            let shown = printable(alloc, self.input)?;
            push_named(&mut text, shown.as_str(), messages)?;
        }
        Ok(text)
    }

    /// Writes the messages of a run that ended well, or the diagnostic of the fault, to `err`.
    fn write_details<E: Write>(
        &self,
        alloc: Global,
        err: &mut E,
        batching: Batching<'_>,
        sources: &Sources,
    ) {
        let text = match &self.ended {
            Ok(()) => self.named_messages(alloc),
            Err(fault) => why(alloc, fault, &batching.request.options, sources),
        };
        if let Ok(text) = text {
            let _ = err.write_all(text.as_bytes());
        }
    }

    /// Returns the exit status of the run.
    fn status(&self) -> u8
        ensures { MatchResult self.now.ended (λ _. result ≡ 0) (λ fault. result ≡ status_of fault) }
    {
        match &self.ended {
            Ok(()) => 0,
            Err(fault) => status(fault),
        }
    }

    /// Reports the outcome, with diagnostics if they are asked for, and returns the exit status of the run. Leaves what
    /// is known about the WAV file in `sources`.
    pub(crate) fn report<O: Write, E: Write>(
        &mut self,
        alloc: Global,
        out: &mut O,
        err: &mut E,
        batching: Batching<'_>,
        sources: &mut Sources,
    ) -> Result<u8, Fault> {
        sources.swap_sound(&mut self.sound_sources);
        self.show(alloc, out)?;
        if batching.is_verbose {
            self.write_details(alloc, err, batching, sources);
        }
        Ok(self.status())
    }
}
