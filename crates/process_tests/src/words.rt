//! Tests of the command line: the field that each word sets, words that one command has and another does not, and words
//! after the last one of a command.

use crate::running::status_told;
use sdf_cli::{DesignCommand, Format, ParallelWorkers, RunRequest, Why, Words, words};
use sdf_faults::Fault;
use sdf_options::Options;
use std::alloc::{AllocError, Global};
use std::test::Fail;
use test_texts::{row_says, says};

/// The name of a row, the words after the program's name, and what is read.
type Row = (&'static str, &'static str, &'static str);

/// Runs: the options, and the workers in parallel.
const RUNS: &[Row] = &[
    ("defaults", "run g i o", "1 1 Round Homed One 1000 None"),
    (
        "a policy",
        "run g i o --policy round",
        "1 1 Round Homed One 1000 None",
    ),
    (
        "a policy",
        "run g i o --policy lean",
        "1 1 Lean Homed One 1000 None",
    ),
    (
        "a policy",
        "run g i o --policy runs",
        "1 1 Runs Homed One 1000 None",
    ),
    (
        "a placement",
        "run g i o --placement hu",
        "1 1 Round Hu One 1000 None",
    ),
    (
        "a placement",
        "run g i o --placement homed",
        "1 1 Round Homed One 1000 None",
    ),
    (
        "a placement",
        "run g i o --placement file",
        "1 1 Round File One 1000 None",
    ),
    (
        "a placement",
        "run g i o --placement spread",
        "1 1 Round Spread One 1000 None",
    ),
    (
        "a runner",
        "run g i o --runner one",
        "1 1 Round Homed One 1000 None",
    ),
    (
        "a runner",
        "run g i o --runner rows",
        "1 1 Round Homed Rows 1000 None",
    ),
    (
        "a runner",
        "run g i o --runner rings",
        "1 1 Round Homed Rings 1000 None",
    ),
    (
        "periods in a block",
        "run g i o --blocking 1",
        "1 1 Round Homed One 1000 None",
    ),
    (
        "periods in a block",
        "run g i o --blocking 2",
        "2 1 Round Homed One 1000 None",
    ),
    (
        "periods in a block",
        "run g i o --blocking 64",
        "64 1 Round Homed One 1000 None",
    ),
    (
        "workers",
        "run g i o --workers 1",
        "1 1 Round Homed One 1000 None",
    ),
    (
        "workers",
        "run g i o --workers 3",
        "1 3 Round Homed One 1000 None",
    ),
    (
        "workers",
        "run g i o --workers 16",
        "1 16 Round Homed One 1000 None",
    ),
    (
        "patience",
        "run g i o --patience 0",
        "1 1 Round Homed One 0 None",
    ),
    (
        "patience",
        "run g i o --patience 1",
        "1 1 Round Homed One 1 None",
    ),
    (
        "patience",
        "run g i o --patience 1000000",
        "1 1 Round Homed One 1000000 None",
    ),
    (
        "a crew",
        "run g i o --parallel",
        "1 1 Round Homed One 1000 Some(Processors)",
    ),
    (
        "a crew of one",
        "run g i o --parallel 1",
        "1 1 Round Homed One 1000 Some(Workers(1))",
    ),
    (
        "a crew before the files",
        "run --parallel=16 g i o",
        "1 1 Round Homed One 1000 Some(Workers(16))",
    ),
];

/// Other commands, in full. Refuses defaults that differ from the help's.
const COMMANDS: &[Row] = &[
    ("kinds", "kinds", "Kinds { format: Text }"),
    ("kinds in JSON", "kinds --json", "Kinds { format: Json }"),
    ("a number", "explain 1", "Explain { number: 1 }"),
    ("a number", "explain 10", "Explain { number: 10 }"),
    ("a number", "explain 63", "Explain { number: 63 }"),
    ("a name", "explain Deadlock", "Explain { number: 10 }"),
    (
        "a number and its name",
        "explain 47 Read",
        "Explain { number: 47 }",
    ),
    ("help", "--help", "Overview"),
    ("help", "-h", "Overview"),
    ("help", "help", "Overview"),
    (
        "more",
        "check g --why",
        "Design { graph: \"g\", task: Check { format: Text }, why: Always }",
    ),
    (
        "a comparison",
        "analyze g --compare --json",
        "Design { graph: \"g\", task: Compare { options: Options { blocking: 1, workers: 1, policy: Round, \
         placement: Homed, runner: One, patience: 1000 }, format: Json }, why: AtTerminal }",
    ),
    (
        "a graph for Graphviz",
        "draw g --dot",
        "Design { graph: \"g\", task: Draw { options: Options { blocking: 1, workers: 1, policy: Round, \
         placement: Homed, runner: One, patience: 1000 }, picture: Dot }, why: AtTerminal }",
    ),
    (
        "no more",
        "profile g i --no-why",
        "Design { graph: \"g\", task: Profile { input: \"i\", write: None }, why: Never }",
    ),
    (
        "a run to the end",
        "run g i o --open-ended",
        "Design { graph: \"g\", task: Run(RunRequest { input: \"i\", output: \"o\", options: Options { blocking: 1, \
         workers: 1, policy: Round, placement: Homed, runner: One, patience: 1000 }, parallel: None, open_ended: \
         true, format: Text }), why: AtTerminal }",
    ),
    (
        "a run in JSON",
        "run g i o --json --why",
        "Design { graph: \"g\", task: Run(RunRequest { input: \"i\", output: \"o\", options: Options { blocking: 1, \
         workers: 1, policy: Round, placement: Homed, runner: One, patience: 1000 }, parallel: None, open_ended: \
         false, format: Json }), why: Always }",
    ),
    (
        "several files, with each option of a run",
        "run g --into f i j --blocking 2 --workers 3 --policy lean --placement hu --runner rows --patience 7 \
         --open-ended --no-why",
        "Batch { graph: \"g\", batch: BatchRequest { inputs: [\"i\", \"j\"], folder: \"f\", options: Options { \
         blocking: 2, workers: 3, policy: Lean, placement: Hu, runner: Rows, patience: 7 }, parallel: None, \
         open_ended: true }, why: Never }",
    ),
    (
        "several files in parallel",
        "run g i --into f --parallel 2 --why",
        "Batch { graph: \"g\", batch: BatchRequest { inputs: [\"i\"], folder: \"f\", options: Options { blocking: 1, \
         workers: 1, policy: Round, placement: Homed, runner: One, patience: 1000 }, parallel: Some(Workers(2)), \
         open_ended: false }, why: Always }",
    ),
    (
        "a band-pass from its defaults",
        "fir bandpass --rate 9 --pass 1 --stop 2",
        "Fir { wanted: FilterSpec { rate: 9, band: Middle { low_stop: 0, low_pass: 0, pass: 1, stop: 2 }, \
         attenuation: 96, up: 1, shift: 15 }, why: AtTerminal }",
    ),
    (
        "a conversion by its defaults",
        "resample 1 2 f",
        "Resample { conversion: Conversion { from: 1, to: 2, folder: \"f\", channels: 1, attenuation: None, \
         pass: 907, fast: false }, why: AtTerminal }",
    ),
    (
        "a conversion by taps of 16 bits, and its other words",
        "resample 1 2 f --fast --channels 3 --attenuation 80 --pass 950",
        "Resample { conversion: Conversion { from: 1, to: 2, folder: \"f\", channels: 3, attenuation: Some(80), \
         pass: 950, fast: true }, why: AtTerminal }",
    ),
];

/// Words that an option or a command does not have, with the exit status.
const OTHER_WORDS: &[Row] = &[
    ("a number past its limits", "run g i o --blocking 0", "2"),
    ("a number past its limits", "run g i o --blocking 65", "2"),
    ("a number past its limits", "run g i o --workers 0", "2"),
    ("a number past its limits", "run g i o --workers 17", "2"),
    (
        "a number past its limits",
        "run g i o --patience 1000001",
        "2",
    ),
    ("a word that there is not", "run g i o --policy Round", "2"),
    (
        "a word that there is not",
        "run g i o --placement home",
        "2",
    ),
    ("a word that there is not", "run g i o --runner two", "2"),
    ("an option that there is not", "run g i o --speed 1", "2"),
    ("a crew past its limits", "run g i o --parallel 0", "2"),
    ("a crew past its limits", "run g i o --parallel 17", "2"),
    ("a number that there is not", "explain 0", "2"),
    ("a number that there is not", "explain 64", "2"),
    ("a number that there is not", "explain -1", "2"),
    ("no number", "explain x", "2"),
    ("a front of a name", "explain Dead", "2"),
    ("another fault's name", "explain 10 Read", "2"),
    ("a name that there is not", "explain 10 Dead", "2"),
    ("a name and more", "explain Deadlocks", "2"),
    ("no number", "explain ", "2"),
];

/// Lines that are not commands, with the exit status. Refuses a command that takes the options of another one, and a
/// name that is explained whatever follows it.
const MISTAKES: &[Row] = &[
    ("a command that there is not", "play", "2"),
    ("too few words", "check", "2"),
    ("too few words", "run g i", "2"),
    ("too few words", "explain", "2"),
    ("a word too many", "kinds fir", "2"),
    ("a word too many", "help play", "2"),
    ("more than a name", "explain Deadlock Read", "2"),
    ("more than a number", "explain 10 47", "2"),
    ("a check by workers", "check g --workers 2", "2"),
    ("a schedule by a runner", "schedule g --runner rows", "2"),
    ("a schedule with patience", "schedule g --patience 1", "2"),
    ("an analysis by a runner", "analyze g --runner rings", "2"),
    ("a picture in JSON", "draw g --json", "2"),
    ("more and no more", "draw g --why --no-why", "2"),
    ("a check to the end", "check g --open-ended", "2"),
    ("a run in JSON to standard output", "run g i - --json", "2"),
    ("runs in JSON", "run g --into o i --json", "2"),
    ("a profile by workers", "profile g i --workers 2", "2"),
    ("a profile with an OUT", "profile g i o", "2"),
    ("a flag with a value", "check g --why=yes", "2"),
    ("a flag that stands twice", "check g --why --why", "2"),
    (
        "a number that stands twice",
        "schedule g --workers 2 --workers 2",
        "2",
    ),
    (
        "a shape that there is not",
        "fir low --rate 8000 --pass 1 --stop 2",
        "2",
    ),
    (
        "a filter without a rate",
        "fir lowpass --pass 1 --stop 2",
        "2",
    ),
];

/// Lines that ask for help, which is not a mistake, with the exit status.
const HELP: &[Row] = &[
    ("help", "run -h", "0"),
    ("help", "help run", "0"),
    ("a version", "--version", "0"),
];

/// Returns a run's options and parallel workers.
fn run_told(
    alloc: Global,
    options: &Options,
    parallel: Option<ParallelWorkers>,
) -> Result<String, AllocError> {
    format!(in alloc;
        "{} {} {:?} {:?} {:?} {} {parallel:?}",
        options.blocking,
        options.workers,
        options.policy,
        options.placement,
        options.runner,
        options.patience
    )
}

/// Returns a run's options and parallel workers, or another command in full.
fn command_told(alloc: Global, read: &Words) -> Result<String, Fail> {
    let told = match read {
        Words::Design {
            graph: "g",
            task: DesignCommand::Run(
                RunRequest {
                    input: "i",
                    output: "o",
                    options,
                    parallel,
                    open_ended: false,
                    format: Format::Text,
                },
            ),
            why: Why::AtTerminal,
        } => run_told(alloc, options, *parallel),
        _ => format!(in alloc; "{read:?}"),
    };
    told.map_err(Fail::from)
}

/// Returns what is read of a line: a run's options and parallel workers, another command in full, or the exit status.
fn told<'a>(alloc: Global, line: &'a [&'a str]) -> Result<String, Fail> {
    match words(alloc, line) {
        Ok(read) => command_told(alloc, &read),
        Err(fault) => status_told(alloc, Fault::from(fault)),
    }
}

fn are_read(alloc: Global, rows: &[Row]) -> Result<(), Fail> {
    for (name, line, wanted) in rows {
        let mut words = Vec::new(alloc);
        words.push("sdfw")?;
        for word in line.split(' ') {
            words.push(word)?;
        }
        let name = format!(in alloc; "{name}, {line}")?;
        row_says(&name, told(alloc, &words), wanted)?;
    }
    Ok(())
}

#[test]
fn words_mean_their_fields(rt: HostRuntime) -> Result<(), Fail> {
    let alloc = rt.alloc();
    are_read(alloc, RUNS)?;
    are_read(alloc, COMMANDS)?;
    are_read(alloc, OTHER_WORDS)?;
    are_read(alloc, MISTAKES)?;
    are_read(alloc, HELP)
}

/// Tests a word with a blank, a line without words, and the default options.
#[test]
fn other_lines_and_defaults(rt: HostRuntime) -> Result<(), Fail> {
    let alloc = rt.alloc();
    says(told(alloc, &["sdfw"]), "Overview")?;
    says(
        told(alloc, &["sdfw", "check", "a b"]),
        "Design { graph: \"a b\", task: Check { format: Text }, why: AtTerminal }",
    )?;
    says(
        told(alloc, &["sdfw", "schedule", "a b", "--workers", "2"]),
        "Design { graph: \"a b\", task: Schedule { options: Options { blocking: 1, workers: 2, policy: Round, \
         placement: Homed, runner: One, patience: 1000 }, format: Text }, why: AtTerminal }",
    )?;
    says(
        format!(in alloc; "{:?}", Options::DEFAULT).map_err(Fail::from),
        "Options { blocking: 1, workers: 1, policy: Round, placement: Homed, runner: One, patience: 1000 }",
    )
}
