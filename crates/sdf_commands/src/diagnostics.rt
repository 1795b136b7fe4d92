//! The diagnostics of faults.

use crate::details::details_of;
use crate::remedies::remedy_text;
use crate::sounds::{format_text, header_of, unsuited_text};
use sdf_cli::{DesignCommand, Format, Words};
use sdf_document::DocumentFault;
use sdf_faults::{Fault, Stalled, fault_text};
use sdf_file::FileFault;
use sdf_io::files::Sources;
use sdf_io::input::InputTrace;
use sdf_json::{Details, fault_json};
use sdf_options::Options;
use sdf_options::printable::printable;
use sdf_prec::PrecFault;
use sdf_why::{
    DesignFiles, Halt, block_text, channels_text, deadlock_text, device_text, file_text, home_text,
    rate_text, toml_text,
};
use std::alloc::{AllocError, Global};
use std::io::Write;

/// Returns how far each actor got before a deadlock.
fn halts_of(alloc: Global, stalled: &Stalled) -> Result<Vec<Halt>, AllocError> {
    let mut halts = Vec::new(alloc);
    for actor in &stalled.actors {
        halts.push(Halt {
            done: actor.done,
            short: actor.short,
        })?;
    }
    Ok(halts)
}

/// Returns what the system reported about the files that it refused.
fn refusals(alloc: Global, sources: &Sources) -> Result<String, AllocError> {
    let mut text = String::new(alloc);
    for refused in &sources.refused {
        let line = device_text(alloc, refused.name.as_str(), refused.said.as_str())?;
        text.push_str(line.as_str())?;
    }
    Ok(text)
}

/// Returns whether the system refused GRAPH since it is a folder.
fn is_folder(sources: &Sources) -> bool {
    sources.refused.iter().any(|refused| {
        refused.name == sources.path && refused.said.as_str().contains("s a directory")
    })
}

/// Returns what the system reported about a file that was not read. If GRAPH is a folder, names a graph file in it.
fn unread(alloc: Global, sources: &Sources) -> Result<String, AllocError> {
    let mut text = refusals(alloc, sources)?;
    if is_folder(sources) {
        let folder = printable(alloc, sources.path.as_str().trim_end_matches('/'))?;
        let folder = folder.as_str();
        writeln!(text, "  GRAPH is a file, such as {folder}/graph.toml")?;
    }
    Ok(text)
}

/// Returns what the TOML reader reported about the files that are not TOML.
fn no_documents(alloc: Global, sources: &Sources) -> Result<String, AllocError> {
    let mut text = toml_text(alloc, sources.path.as_str(), &sources.graph)?;
    for file in &sources.files {
        let line = toml_text(alloc, file.name.as_str(), &file.bytes)?;
        text.push_str(line.as_str())?;
    }
    Ok(text)
}

/// Returns the diagnostic for the first test that files fail, with the reports of the system and the TOML reader.
fn design_text(
    alloc: Global,
    fault: &FileFault,
    sources: &Sources,
    given: DesignFiles<'_>,
) -> Result<String, AllocError> {
    let told = file_text(alloc, fault, given)?;
    let said = match fault {
        FileFault::Document(DocumentFault::NotToml(_)) => no_documents(alloc, sources)?,
        FileFault::Document(DocumentFault::NoFile(_)) => refusals(alloc, sources)?,
        _ => String::new(alloc),
    };
    let (told, said) = (told.as_str(), said.as_str());
    format!(in alloc; "{told}{said}")
}

/// Returns the diagnostic for a WAV file that does not suit a design: the line of the file, then the reason `told`.
fn unsuited_sound(alloc: Global, trace: &InputTrace, told: &str) -> Result<String, AllocError> {
    let mut text = unsuited_text(alloc, trace)?;
    text.push_str(told)?;
    Ok(text)
}

/// Returns the diagnostic for a WAV file that is refused or does not suit a design.
fn sound_text(
    alloc: Global,
    fault: &Fault,
    trace: &InputTrace,
    given: DesignFiles<'_>,
) -> Result<String, AllocError> {
    match (fault, header_of(trace)) {
        (Fault::Wav(fault), _) => format_text(alloc, *fault, trace),
        (Fault::ChannelsMissing, Some(header)) => {
            unsuited_sound(alloc, trace, channels_text(alloc, header, given)?.as_str())
        }
        (Fault::RateNotWhole, Some(header)) => {
            unsuited_sound(alloc, trace, rate_text(alloc, header, given)?.as_str())
        }
        _ => Ok(String::new(alloc)),
    }
}

/// Returns the diagnostic for `fault` from the files that were read, or no text if they do not explain it.
fn diagnostic_of(
    alloc: Global,
    fault: &Fault,
    options: &Options,
    sources: &Sources,
) -> Result<String, AllocError> {
    let given = DesignFiles {
        graph: sources.graph.as_slice(),
        files: sources.files.as_slice(),
    };
    match fault {
        Fault::File(fault) => design_text(alloc, fault, sources, given),
        Fault::Read => unread(alloc, sources),
        Fault::Write => refusals(alloc, sources),
        Fault::Deadlock(stalled) => deadlock_text(alloc, &halts_of(alloc, stalled)?, given),
        Fault::Table(PrecFault::BadHome { actor }) => {
            home_text(alloc, options.workers, *actor, given.graph)
        }
        Fault::Table(PrecFault::BlockTooLong) => block_text(alloc, given),
        _ => sound_text(alloc, fault, &sources.trace, given),
    }
}

/// Returns the lines behind a fault's line: the diagnostic from the files that were read, then the command that helps.
pub fn why(
    alloc: Global,
    fault: &Fault,
    options: &Options,
    sources: &Sources,
) -> Result<String, AllocError> {
    let mut text = diagnostic_of(alloc, fault, options, sources)?;
    let last = remedy_text(alloc, fault, sources.trace.name.as_str())?;
    text.push_str(last.as_str())?;
    Ok(text)
}

/// The form of a fault's report: its line, its line with a diagnostic for these options, or JSON with the same.
#[derive(Clone, Copy)]
enum ReportForm {
    Line,
    Why(Options),
    Json(Options),
}

/// Returns the options of `task`, which the diagnostics of its faults use.
fn options_of(task: &DesignCommand<'_>) -> Options {
    match task {
        DesignCommand::Schedule { options, .. }
        | DesignCommand::Analyze { options, .. }
        | DesignCommand::Compare { options, .. }
        | DesignCommand::Draw { options, .. } => *options,
        DesignCommand::Run(run) => run.options,
        DesignCommand::Check { .. } | DesignCommand::Profile { .. } => Options::DEFAULT,
    }
}

/// Returns the format in which faults of `task` are reported.
fn format_of(task: &DesignCommand<'_>) -> Format {
    match task {
        DesignCommand::Check { format }
        | DesignCommand::Schedule { format, .. }
        | DesignCommand::Analyze { format, .. }
        | DesignCommand::Compare { format, .. } => *format,
        DesignCommand::Run(run) => run.format,
        DesignCommand::Draw { .. } | DesignCommand::Profile { .. } => Format::Text,
    }
}

/// Returns the form in which faults of `task` are reported. Diagnostics need `is_verbose`.
fn form_of(task: &DesignCommand<'_>, is_verbose: bool) -> ReportForm {
    match format_of(task) {
        Format::Json => ReportForm::Json(options_of(task)),
        Format::Text if is_verbose => ReportForm::Why(options_of(task)),
        Format::Text => ReportForm::Line,
    }
}

/// The background of a fault: what was read, and the form of the report.
#[derive(Drop)]
pub struct Background {
    pub sources: Sources,
    form: ReportForm,
}

impl Background {
    /// Returns the background before anything is read or asked for.
    pub fn new(alloc: Global) -> Background {
        Background {
            sources: Sources::new(alloc),
            form: ReportForm::Line,
        }
    }

    /// Sets the form of the report that `words` ask for. `terminal` says whether diagnostics are printed by default, as
    /// at a terminal.
    pub fn set_form(&mut self, words: &Words<'_>, terminal: bool) {
        match words {
            Words::Design { task, why, .. } => {
                self.form = form_of(task, why.is_verbose(terminal));
            }
            Words::Batch { batch, why, .. } if why.is_verbose(terminal) => {
                self.form = ReportForm::Why(batch.options);
            }
            Words::Kinds {
                format: Format::Json,
            } => self.form = ReportForm::Json(Options::DEFAULT),
            Words::Batch { .. } => {}
            Words::Fir { why, .. } | Words::Resample { why, .. } if !why.is_verbose(terminal) => {}
            Words::Fir { .. } | Words::Resample { .. } => {
                self.form = ReportForm::Why(Options::DEFAULT);
            }
            _ if terminal => self.form = ReportForm::Why(Options::DEFAULT),
            _ => {}
        }
    }

    /// Sets the form of the report to JSON if `line`, which has a usage error, asks for JSON.
    pub fn set_form_of_mistake(&mut self, line: &[&str]) {
        if line.iter().any(|word| *word == "--json") {
            self.form = ReportForm::Json(Options::DEFAULT);
        }
    }

    /// Returns the text of `fault`, for standard error. In JSON, what is known of it is left out if memory is refused
    /// for that.
    pub fn text(&self, alloc: Global, fault: &Fault) -> Result<String, AllocError> {
        match self.form {
            ReportForm::Json(options) => match details_of(alloc, fault, &options, &self.sources) {
                Ok(details) => fault_json(alloc, fault, &details),
                Err(_) => fault_json(alloc, fault, &Details::new(alloc)),
            },
            ReportForm::Line | ReportForm::Why(_) => fault_text(alloc, fault),
        }
    }

    /// Returns the text of the fault `OutOfMemory`. It needs no allocation.
    pub fn text_without_memory(&self) -> &'static [u8] {
        match self.form {
            ReportForm::Json(_) => b"{\"fault\":1,\"name\":\"OutOfMemory\"}\n",
            ReportForm::Line | ReportForm::Why(_) => b"sdfw: 1 OutOfMemory\n",
        }
    }

    /// Writes the diagnostic of `fault` to `err` if diagnostics are asked for, unless memory is refused for it.
    pub fn report<E: Write>(&self, alloc: Global, err: &mut E, fault: &Fault) {
        let ReportForm::Why(options) = self.form else {
            return;
        };
        if let Ok(text) = why(alloc, fault, &options, &self.sources) {
            let _ = err.write_all(text.as_bytes());
        }
    }
}
