//! The commands, as a command line asks for them.

ghost use Rattle.std.specs.Prelude.{◌≡◌, true, false};

use sdf_filters::FilterSpec;
use sdf_options::Options;

/// The highest number of a fault.
pub const MAX_FAULT: u32 = 63;

/// A conversion between two rates in Hz, whose design is written into `folder`. The stopband attenuation is in dB; if
/// it is absent, the usual one is meant. If `fast`, the taps have 16 bits. `pass` is the part of half the lower rate
/// that passes, in thousandths, and has no effect on a fast conversion.
#[derive(Clone, Copy, Debug, PartialEq, Eq)]
pub struct Conversion<'a> {
    pub from: u32,
    pub to: u32,
    pub folder: &'a str,
    pub channels: u32,
    pub attenuation: Option<u32>,
    pub pass: u32,
    pub fast: bool,
}

/// The number of workers of a parallel run.
#[derive(Clone, Copy, Debug, PartialEq, Eq)]
pub enum ParallelWorkers {
    /// One for each processor, at most 16.
    Processors,
    /// A number from 1 to 16.
    Workers(usize),
}

/// When a diagnostic follows the line of a fault, and when a run that ends well reports on its outputs.
#[derive(Clone, Copy, Debug, PartialEq, Eq)]
pub enum Why {
    /// If standard error is a terminal.
    AtTerminal,
    Always,
    Never,
}

impl Why {
    /// Returns whether diagnostics and reports are printed. `terminal` is whether standard error is a terminal.
    pub fn is_verbose(self, terminal: bool) -> bool
        ensures terminal { self ≡ Why.AtTerminal → result ≡ terminal }
        ensures always { self ≡ Why.Always → result ≡ true }
        ensures never { self ≡ Why.Never → result ≡ false }
    {
        match self {
            Why::AtTerminal => terminal,
            Why::Always => true,
            Why::Never => false,
        }
    }
}

/// A run from one file to another. If `parallel` is given, the options have no effect. If `open_ended`, the samples are
/// read to the end of the input. In JSON the levels of the outputs are printed, and then the output is a file.
#[derive(Clone, Copy, Debug, PartialEq, Eq)]
pub struct RunRequest<'a> {
    pub input: &'a str,
    pub output: &'a str,
    pub options: Options,
    pub parallel: Option<ParallelWorkers>,
    pub open_ended: bool,
    pub format: Format,
}

/// Runs from each of `inputs` to a file with its name in `folder`. The other fields are as in `RunRequest`.
#[derive(Debug, Drop)]
pub struct BatchRequest<'a> {
    pub inputs: Vec<&'a str>,
    pub folder: &'a str,
    pub options: Options,
    pub parallel: Option<ParallelWorkers>,
    pub open_ended: bool,
}

/// The format of what a command prints, and of the report of its fault.
#[derive(Clone, Copy, Debug, PartialEq, Eq)]
pub enum Format {
    Text,
    Json,
}

/// What is drawn of a design.
#[derive(Clone, Copy, Debug, PartialEq, Eq)]
pub enum Picture {
    /// The design and its schedule, as SVG.
    Svg,
    /// The graph alone, for Graphviz.
    Dot,
}

/// A command for a design: the task to do. Its files are named by their paths.
#[derive(Clone, Copy, Debug, PartialEq, Eq)]
pub enum DesignCommand<'a> {
    Check {
        format: Format,
    },
    /// The schedule of a design. The runner and the spin limit in the options have no effect.
    Schedule {
        options: Options,
        format: Format,
    },
    /// The times of a schedule. The runner and the spin limit in the options have no effect.
    Analyze {
        options: Options,
        format: Format,
    },
    /// The schedules by each policy, each placement, and 1, 2, 4 and so on up to `options.workers` workers, compared.
    /// The policy, the placement, the runner and the spin limit in the options have no effect.
    Compare {
        options: Options,
        format: Format,
    },
    /// The picture of a design. The runner and the spin limit in the options have no effect, and for `Picture::Dot` no
    /// option has.
    Draw {
        options: Options,
        picture: Picture,
    },
    Run(RunRequest<'a>),
    /// Each actor's share of the time of a run. With `write` the graph file with the measured costs is written to that
    /// path.
    Profile {
        input: &'a str,
        write: Option<&'a str>,
    },
}

/// A command.
#[derive(Debug, Drop)]
pub enum Words<'a> {
    /// A task for the design of the graph file at `graph`.
    Design {
        graph: &'a str,
        task: DesignCommand<'a>,
        why: Why,
    },
    /// Runs of the design of the graph file at `graph`.
    Batch {
        graph: &'a str,
        batch: BatchRequest<'a>,
        why: Why,
    },
    /// The coefficient file of a filter.
    Fir {
        wanted: FilterSpec,
        why: Why,
    },
    /// The design of a conversion.
    Resample {
        conversion: Conversion<'a>,
        why: Why,
    },
    /// The table of kinds.
    Kinds {
        format: Format,
    },
    /// The meaning of the fault `number`, 1 to 63.
    Explain {
        number: u32,
    },
    /// The overview of all commands.
    Overview,
}
