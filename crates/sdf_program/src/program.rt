//! The whole program, over a file system, streams and threads.

ghost use Rattle.std.specs.Prelude.{◌≡◌, ◌⊎◌, IfSome};
ghost use Rattle.sdf_faults.specs.Statuses.{status_of};
ghost use Rattle.sdf_faults.specs.declared.fault.Fault.TheVariants.{OutOfMemory};
ghost use Rattle.sdf_options.specs.Limits.{AreWithinLimits};
ghost use Rattle.sdf_cli.specs.Limits.{IsParallelWorkers, IsCommandWithinLimits, IsWithinLimits};

use crate::batch::run_batch;
use crate::items::Batching;
use crate::profiling::{Profiling, print_profile};
use crate::running::{Running, run};
use sdf_cli::arguments::Arguments;
use sdf_cli::{BatchRequest, DesignCommand, Format, RunRequest, Why, Words};
use sdf_commands::comparing::print_comparison;
use sdf_commands::diagnostics::Background;
use sdf_commands::making::{fir, resample};
use sdf_commands::printing::{
    print_analysis, print_check, print_kinds, print_meaning, print_overview, print_picture,
    print_schedule, show,
};
use sdf_faults::{Fault, status};
use sdf_io::files::{Loaded, Sources, load_into};
use sdf_io::storage::Storage;
use sdf_io::world::{STANDARD, World};
use sdf_json::comparison_json;
use sdf_options::{Options, WordFault};
use std::alloc::{AllocError, Global};
use std::io::{Read, Write};
use std::thread::Threads;
use std::time::Clock;

/// A requested task for a design, and when diagnostics and reports are printed.
#[derive(Clone, Copy)]
struct DesignRequest<'a> {
    graph: &'a str,
    task: DesignCommand<'a>,
    why: Why,
}

/// A task for a design that was read.
#[derive(Clone, Copy)]
struct Job<'a> {
    graph: &'a str,
    task: DesignCommand<'a>,
    loaded: &'a Loaded,
    /// Whether diagnostics and reports are printed.
    is_verbose: bool,
}

impl<'a> Job<'a> {
    /// Returns the run that `request` asks for. Its progress is shown if reports are printed and `can_show` is true.
    /// JSON takes the place of the other reports.
    fn running(self, request: RunRequest<'a>, can_show: bool) -> Running<'a>
        ensures loaded { result.loaded ≡ self.entry.loaded }
        ensures request { result.request ≡ request.entry }
    {
        Running {
            graph: self.graph,
            loaded: self.loaded,
            request,
            sound: if request.input == STANDARD {
                "standard input"
            } else {
                request.input
            },
            is_verbose: self.is_verbose && request.format == Format::Text,
            is_shown: self.is_verbose && can_show,
            is_beside: false,
        }
    }

    /// Returns the request to measure a run on `input`, and to write its costs to `write` if that is given.
    fn profiling(self, input: &'a str, write: Option<&'a str>) -> Profiling<'a> {
        Profiling {
            graph: self.graph,
            loaded: self.loaded,
            input,
            write,
        }
    }
}

/// Prints the comparison of the schedules of a design.
fn compare<O: Write, E: Write>(
    alloc: Global,
    out: &mut O,
    err: &mut E,
    job: Job<'_>,
    options: &Options,
    format: Format,
) -> Result<(), Fault>
    requires { AreWithinLimits options.now }
{
    let design = &job.loaded.design;
    match format {
        Format::Text => print_comparison(alloc, out, err, design, options, job.is_verbose),
        Format::Json => show(out, comparison_json(alloc, design, options)?.as_str()),
    }
}

/// Does a task for a design that was read.
fn do_task<
    S: Storage,
    T: Threads + AllocGlobal + Clock + Clone + Drop + Sync,
    I: Read,
    O: Write,
    E: Write,
>(
    world: &World<S, T>,
    stdin: &mut I,
    out: &mut O,
    err: &mut E,
    job: Job<'_>,
    sources: &mut Sources,
) -> Result<(), Fault>
    requires { IsCommandWithinLimits job.task }
{
    let alloc = world.threads.alloc();
    let design = &job.loaded.design;
    match job.task {
        DesignCommand::Check { format } => print_check(alloc, out, design, format),
        DesignCommand::Schedule { options, format } => print_schedule(
            alloc, out, design, &options, format,
        ),
        DesignCommand::Analyze { options, format } => print_analysis(
            alloc, out, design, &options, format,
        ),
        DesignCommand::Compare { options, format } => compare(
            alloc, out, err, job, &options, format,
        ),
        DesignCommand::Draw { options, picture } => print_picture(
            alloc, out, design, &options, picture,
        ),
        DesignCommand::Run(request) => {
            let running = job.running(request, world.can_show_progress());
            run(world, stdin, out, err, running, sources)
        }
        DesignCommand::Profile { input, write } => {
            let request = job.profiling(input, write);
            print_profile(world, stdin, out, request, sources)
        }
    }
}

/// Reads a design, and does a task for it. Leaves what was read in `sources`.
fn load_and_do<
    S: Storage,
    T: Threads + AllocGlobal + Clock + Clone + Drop + Sync,
    I: Read,
    O: Write,
    E: Write,
>(
    world: &World<S, T>,
    stdin: &mut I,
    out: &mut O,
    err: &mut E,
    request: DesignRequest<'_>,
    sources: &mut Sources,
) -> Result<(), Fault>
    requires { IsCommandWithinLimits request.task }
{
    let DesignRequest { graph, task, why } = request;
    let alloc = world.threads.alloc();
    let loaded = load_into(alloc, world.storage, graph, world.most, sources)?;
    let job = Job {
        graph,
        task,
        loaded: &loaded,
        is_verbose: why.is_verbose(world.is_verbose()),
    };
    do_task(world, stdin, out, err, job, sources)
}

/// The requested runs of a design, and when diagnostics and reports are printed.
#[derive(Clone, Copy)]
struct DesignBatch<'a> {
    graph: &'a str,
    batch: &'a BatchRequest<'a>,
    why: Why,
}

/// Reads a design, and runs it on several files. Leaves what was read in `sources`, and returns the exit status.
fn load_and_run<
    S: Storage,
    T: Threads + AllocGlobal + Clock + Sync,
    O: Write + Send,
    E: Write + Send,
>(
    world: &World<S, T>,
    out: &mut O,
    err: &mut E,
    request: DesignBatch<'_>,
    sources: &mut Sources,
) -> Result<u8, Fault>
    requires { IfSome request.batch.now.parallel IsParallelWorkers }
{
    let DesignBatch { graph, batch, why } = request;
    let alloc = world.threads.alloc();
    let loaded = load_into(alloc, world.storage, graph, world.most, sources)?;
    let is_verbose = why.is_verbose(world.is_verbose());
    let batching = Batching {
        graph,
        loaded: &loaded,
        request: batch,
        is_verbose,
        is_shown: is_verbose && world.can_show_progress(),
    };
    run_batch(world, out, err, batching, sources)
}

/// Returns the exit status 0 if `done` ended well, otherwise its fault.
fn status_or_fault(done: Result<(), Fault>) -> Result<u8, Fault> {
    done?;
    Ok(0)
}

/// Executes what is asked for, and returns the exit status. Leaves what was read in `sources`.
fn execute<
    S: Storage,
    T: Threads + AllocGlobal + Clock + Clone + Drop + Sync,
    I: Read,
    O: Write + Send,
    E: Write + Send,
>(
    world: &World<S, T>,
    stdin: &mut I,
    out: &mut O,
    err: &mut E,
    request: Words<'_>,
    sources: &mut Sources,
) -> Result<u8, Fault>
    requires { IsWithinLimits request }
{
    let alloc = world.threads.alloc();
    match request {
        Words::Design { graph, task, why } => {
            let request = DesignRequest { graph, task, why };
            status_or_fault(load_and_do(world, stdin, out, err, request, sources))
        }
        Words::Batch { graph, batch, why } => {
            let request = DesignBatch {
                graph,
                batch: &batch,
                why,
            };
            load_and_run(world, out, err, request, sources)
        }
        Words::Fir { wanted, .. } => status_or_fault(fir(alloc, out, err, wanted)),
        Words::Resample { conversion, .. } => status_or_fault(resample(
            world, err, conversion, sources,
        )),
        Words::Kinds { format } => status_or_fault(print_kinds(alloc, out, format)),
        Words::Explain { number } => status_or_fault(print_meaning(alloc, out, number)),
        Words::Overview => status_or_fault(print_overview(out)),
    }
}

/// Prints help or the version.
fn show_help<O: Write>(alloc: Global, out: &mut O, told: &clap::Error) -> Result<(), Fault> {
    let text = format!(in alloc; "{told}")?;
    show(out, text.as_str())
}

/// Prints help or the version if the words ask for that, otherwise returns `fault`.
fn help_or_fault<O: Write>(alloc: Global, out: &mut O, fault: WordFault) -> Result<(), Fault> {
    match &fault {
        WordFault::Usage(told) if !told.use_stderr() => show_help(alloc, out, told),
        _ => Err(Fault::from(fault)),
    }
}

/// Reports `fault` and its diagnostic on standard error, and returns its exit status. If there is no memory for the
/// text, reports `OutOfMemory` and returns its status instead.
fn report<E: Write>(alloc: Global, err: &mut E, fault: &Fault, background: &Background) -> u8
    ensures { (result ≡ status_of fault.now) ⊎ (result ≡ status_of OutOfMemory) }
{
    match background.text(alloc, fault) {
        Ok(text) => {
            let _ = err.write_all(text.as_bytes());
            background.report(alloc, err, fault);
            status(fault)
        }
        Err(_) => {
            let _ = err.write_all(background.text_without_memory());
            status(&Fault::OutOfMemory)
        }
    }
}

/// Returns the words of a command line as slices.
fn line_of(alloc: Global, arguments: &[String]) -> Result<Vec<&str>, AllocError> {
    let mut line = Vec::new(alloc);
    for word in arguments {
        line.push(word.as_str())?;
    }
    Ok(line)
}

/// Parses the words of `arguments`, executes what they ask for, and returns the exit status. Leaves in `background`
/// what the report of a fault needs.
fn parse_and_execute<
    S: Storage,
    T: Threads + AllocGlobal + Clock + Clone + Drop + Sync,
    I: Read,
    O: Write + Send,
    E: Write + Send,
>(
    world: &World<S, T>,
    stdin: &mut I,
    out: &mut O,
    err: &mut E,
    arguments: &Arguments,
    background: &mut Background,
) -> Result<u8, Fault> {
    let alloc = world.threads.alloc();
    let line = line_of(alloc, &arguments.words)?;
    match arguments.read(alloc, line.as_slice()) {
        Ok(request) => {
            background.set_form(&request, world.is_verbose());
            execute(world, stdin, out, err, request, &mut background.sources)
        }
        Err(fault) => {
            background.set_form_of_mistake(&line);
            status_or_fault(help_or_fault(alloc, out, fault))
        }
    }
}

/// Returns the exit status of what was done. Reports a fault on standard error.
fn exit_status<E: Write>(
    alloc: Global,
    err: &mut E,
    done: Result<u8, Fault>,
    background: &Background,
) -> u8 {
    match done {
        Ok(status) => status,
        Err(fault) => report(alloc, err, &fault, background),
    }
}

/// Runs the whole program on its command line `arguments`, and returns its exit status. It works on `world` and
/// `stdin`, and prints to `out` and `err`.
pub fn serve<
    S: Storage,
    T: Threads + AllocGlobal + Clock + Clone + Drop + Sync,
    I: Read,
    O: Write + Send,
    E: Write + Send,
>(
    world: &World<S, T>,
    stdin: &mut I,
    out: &mut O,
    err: &mut E,
    arguments: Result<Arguments, WordFault>,
) -> u8 {
    let alloc = world.threads.alloc();
    let mut background = Background::new(alloc);
    let done = match arguments {
        Ok(arguments) => parse_and_execute(world, stdin, out, err, &arguments, &mut background),
        Err(fault) => Err(Fault::from(fault)),
    };
    exit_status(alloc, err, done, &background)
}
