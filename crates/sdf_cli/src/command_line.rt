//! Reading a command line.

ghost use Rattle.std.specs.Prelude.{◌≡◌, [], codes, map, option_map, unwrap_or, IfOk, IfErr, IfSome};
ghost use Rattle.clap.specs.Words.{found_of, matched_of, raw_values};
ghost use Rattle.sdf_options.specs.Limits.{IsUsage};
ghost use Rattle.sdf_cli.specs.Batches.{AskForBatch};
ghost use Rattle.sdf_cli.specs.Limits.{IsCommandWithinLimits, IsWithinLimits};
ghost use Rattle.sdf_cli.specs.declared.requests.TheConstants.{MAX_FAULT};

use crate::commands::{batch_command, sdfw_command};
use crate::explained::{explain, explain_both, is_name};
use crate::requests::{
    BatchRequest, Conversion, DesignCommand, Format, MAX_FAULT, RunRequest, Words,
};
use crate::values::{
    any_number_of, band_of, format_of, number_of, options_of, parallel_of, picture_of,
    plan_options_of, why_of,
};
use clap::error::ErrorKind;
use clap::{ArgMatches, Command};
use sdf_filters::FilterSpec;
use sdf_options::{WordFault, usage_error};
use std::alloc::{AllocError, Global};

/// Reads the task of the command `schedule`.
fn schedule_of<'a>(matches: &ArgMatches<'a>) -> Option<DesignCommand<'a>>
    ensures { IfSome result IsCommandWithinLimits }
{
    Some(DesignCommand::Schedule {
        options: plan_options_of(matches)?,
        format: format_of(matches),
    })
}

/// Reads the task of the command `analyze`.
fn analyze_of<'a>(matches: &ArgMatches<'a>) -> Option<DesignCommand<'a>>
    ensures { IfSome result IsCommandWithinLimits }
{
    let options = plan_options_of(matches)?;
    let format = format_of(matches);
    if matches.get_flag("compare") {
        Some(DesignCommand::Compare { options, format })
    } else {
        Some(DesignCommand::Analyze { options, format })
    }
}

/// Reads the task of the command `draw`.
fn draw_of<'a>(matches: &ArgMatches<'a>) -> Option<DesignCommand<'a>>
    ensures { IfSome result IsCommandWithinLimits }
{
    Some(DesignCommand::Draw {
        options: plan_options_of(matches)?,
        picture: picture_of(matches),
    })
}

/// Reads the task of the command `profile`.
fn profile_of<'a>(matches: &ArgMatches<'a>) -> Option<DesignCommand<'a>>
    ensures { IfSome result IsCommandWithinLimits }
{
    Some(DesignCommand::Profile {
        input: matches.get_str("IN")?,
        write: matches.get_str("write"),
    })
}

/// Reads the task of the command `run` for one file.
fn run_of<'a>(matches: &ArgMatches<'a>) -> Option<DesignCommand<'a>>
    ensures { IfSome result IsCommandWithinLimits }
{
    Some(DesignCommand::Run(RunRequest {
        input: matches.get_str("IN")?,
        output: matches.get_str("OUT")?,
        options: options_of(matches)?,
        parallel: parallel_of(matches),
        open_ended: matches.get_flag("open-ended"),
        format: format_of(matches),
    }))
}

/// Reads the task of a design for the command `name`.
fn design_command_of<'a>(name: &str, matches: &ArgMatches<'a>) -> Option<DesignCommand<'a>>
    ensures { IfSome result IsCommandWithinLimits }
{
    match name {
        "check" => Some(DesignCommand::Check {
            format: format_of(matches),
        }),
        "schedule" => schedule_of(matches),
        "analyze" => analyze_of(matches),
        "draw" => draw_of(matches),
        "profile" => profile_of(matches),
        "run" => run_of(matches),
        _ => None,
    }
}

/// Reads the command `name` of a design: the graph file, the task, and when a diagnostic is printed.
fn design_of<'a>(name: &str, matches: &ArgMatches<'a>) -> Option<Words<'a>>
    ensures { IfSome result IsWithinLimits }
{
    Some(Words::Design {
        graph: matches.get_str("GRAPH")?,
        task: design_command_of(name, matches)?,
        why: why_of(matches),
    })
}

/// Reads the parameters of the command `fir`.
fn fir_of<'a>(matches: &ArgMatches<'a>) -> Option<Words<'a>>
    ensures { IfSome result IsWithinLimits }
{
    let wanted = FilterSpec {
        rate: any_number_of(matches, "rate")?,
        band: band_of(matches)?,
        attenuation: any_number_of(matches, "attenuation")?,
        up: any_number_of(matches, "up")?,
        shift: any_number_of(matches, "shift")?,
    };
    Some(Words::Fir {
        wanted,
        why: why_of(matches),
    })
}

/// Reads the parameters of the command `resample`.
fn resample_of<'a>(matches: &ArgMatches<'a>) -> Option<Words<'a>>
    ensures { IfSome result IsWithinLimits }
{
    let conversion = Conversion {
        from: any_number_of(matches, "FROM")?,
        to: any_number_of(matches, "TO")?,
        folder: matches.get_str("FOLDER")?,
        channels: any_number_of(matches, "channels")?,
        attenuation: any_number_of(matches, "attenuation"),
        pass: any_number_of(matches, "pass")?,
        fast: matches.get_flag("fast"),
    };
    Some(Words::Resample {
        conversion,
        why: why_of(matches),
    })
}

/// Reads the arguments of the command `name`.
fn words_for<'a>(name: &str, matches: &ArgMatches<'a>) -> Option<Words<'a>>
    ensures { IfSome result IsWithinLimits }
{
    match name {
        "fir" => fir_of(matches),
        "resample" => resample_of(matches),
        "kinds" => Some(Words::Kinds {
            format: format_of(matches),
        }),
        "explain" => Some(Words::Explain {
            number: number_of(matches, "NUMBER", 1, MAX_FAULT)?,
        }),
        _ => design_of(name, matches),
    }
}

/// Returns the usage error for a missing argument.
fn missing(command: &mut Command<'_>) -> WordFault
    ensures { IsUsage result }
{
    match command.error(ErrorKind::MissingRequiredArgument, "an argument is missing") {
        Ok(error) => WordFault::from(error),
        Err(_) => WordFault::OutOfMemory,
    }
}

fn words_of<'a>(matches: &ArgMatches<'a>) -> Option<Words<'a>>
    ensures { IfSome result IsWithinLimits }
{
    let (name, inner) = matches.subcommand()?;
    words_for(name, inner)
}

/// Parses `words` by `command`. The first word is the program's name.
fn read_by<'a>(command: &mut Command<'a>, words: &'a [&'a str]) -> Result<Words<'a>, WordFault>
    ensures within { IfOk result IsWithinLimits }
    ensures usage { IfErr result IsUsage }
{
    let matches = command.try_get_matches_from_mut(words)?;
    match words_of(&matches) {
        Some(read) => Ok(read),
        None => Err(missing(command)),
    }
}

/// Checks whether a run would print both its sound and JSON on standard output.
fn is_mixed(task: DesignCommand<'_>) -> bool {
    match task {
        DesignCommand::Run(
            RunRequest {
                output,
                format: Format::Json,
                ..
            },
        ) => output == "-",
        _ => false,
    }
}

/// Errs if a run would print both its sound and JSON on standard output.
fn keep_apart<'a>(alloc: Global, read: Words<'a>) -> Result<Words<'a>, WordFault>
    requires { IsWithinLimits read }
    ensures within { IfOk result IsWithinLimits }
    ensures usage { IfErr result IsUsage }
{
    match &read {
        Words::Design { task, .. } if is_mixed(*task) => Err(usage_error(
            alloc,
            "--json prints to standard output, so OUT can't be `-`",
        )),
        _ => Ok(read),
    }
}

/// Parses `words`, whose first one is the program's name.
fn read<'a>(alloc: Global, words: &'a [&'a str]) -> Result<Words<'a>, WordFault>
    ensures within { IfOk result IsWithinLimits }
    ensures usage { IfErr result IsUsage }
{
    let mut command = sdfw_command(alloc)?;
    let read = read_by(&mut command, words)?;
    keep_apart(alloc, read)
}

/// Returns whether `words`, which follow `run`, name a folder to write into.
fn is_batch(words: &[&str]) -> bool {
    for word in words {
        if *word == "--" {
            return false;
        }
        if *word == "--into" || word.starts_with("--into=") {
            return true;
        }
    }
    false
}

/// Returns the paths of the files that a batch reads.
fn inputs_of<'a>(alloc: Global, matches: &ArgMatches<'a>) -> Result<Vec<&'a str>, AllocError>
    ensures { IfOk result (λ inputs. map (λ input. input.now) inputs.items
        ≡ unwrap_or (option_map raw_values (matched_of (found_of matches.now) (codes "IN"))) []) }
{
    match matches.get_strs("IN") {
        Some(paths) => Vec::from_slice(alloc, paths),
        None => Ok(Vec::new(alloc)),
    }
}

/// Returns the batch that reads `inputs`, if no argument is missing.
fn batch_of<'a>(matches: &ArgMatches<'a>, inputs: Vec<&'a str>) -> Option<Words<'a>>
    ensures within { IfSome result IsWithinLimits }
    ensures fields { IfSome result (AskForBatch (found_of matches.now) (map (λ input. input.now) inputs.entry.items)) }
{
    let graph = matches.get_str("GRAPH")?;
    let folder = matches.get_str("into")?;
    let options = options_of(matches)?;
    Some(Words::Batch {
        graph,
        batch: BatchRequest {
            inputs,
            folder,
            options,
            parallel: parallel_of(matches),
            open_ended: matches.get_flag("open-ended"),
        },
        why: why_of(matches),
    })
}

/// Reads a batch, if no argument is missing.
fn batch_in<'a>(alloc: Global, matches: &ArgMatches<'a>) -> Result<Option<Words<'a>>, AllocError>
    ensures { IfOk result (λ read. IfSome read IsWithinLimits) }
{
    let Some(inner) = matches.subcommand_matches("run") else {
        return Ok(None);
    };
    let inputs = inputs_of(alloc, inner)?;
    Ok(batch_of(inner, inputs))
}

/// Parses `words` by `command`, which is a `run` of several files. The first word is the program's name.
fn read_batch_by<'a>(
    alloc: Global,
    command: &mut Command<'a>,
    words: &'a [&'a str],
) -> Result<Words<'a>, WordFault>
    ensures within { IfOk result IsWithinLimits }
    ensures usage { IfErr result IsUsage }
{
    let matches = command.try_get_matches_from_mut(words)?;
    match batch_in(alloc, &matches)? {
        Some(read) => Ok(read),
        None => Err(missing(command)),
    }
}

/// Parses `words` as a `run` of several files. The first word is the program's name.
fn read_batch<'a>(alloc: Global, words: &'a [&'a str]) -> Result<Words<'a>, WordFault>
    ensures within { IfOk result IsWithinLimits }
    ensures usage { IfErr result IsUsage }
{
    let mut command = batch_command(alloc)?;
    read_batch_by(alloc, &mut command, words)
}

/// Returns whether `word` would be the value of the option before it, but is not a number.
fn is_path(word: &str) -> bool {
    word == "-" || !(word.starts_with('-') || word.bytes().all(|byte| byte.is_ascii_digit()))
}

/// Returns whether `words`, which follow `run`, have a path where `--parallel` takes a number.
fn has_path_for_number(words: &[&str]) -> bool {
    let mut takes_number = false;
    for word in words {
        if *word == "--" {
            return false;
        }
        if takes_number && is_path(word) {
            return true;
        }
        takes_number = *word == "--parallel";
    }
    false
}

/// The message for a path behind `--parallel`.
const PATH_FOR_NUMBER: &str =
    "--parallel takes the number after it: put it last, or write --parallel=4";

/// Returns the first line of clap's message `told`, without its head.
fn message_in(told: &str) -> &str {
    let first = match told.split_once('\n') {
        Some((first, _)) => first,
        None => told,
    };
    first.strip_prefix("error: ").unwrap_or(first)
}

/// Returns the message for a run with a word too many, if clap's error `told` is about that word.
fn too_many_text(alloc: Global, told: &clap::Error) -> Result<Option<String>, AllocError> {
    let text = format!(in alloc; "{told}")?;
    let message = message_in(text.as_str());
    if told.kind() != ErrorKind::UnknownArgument || message.starts_with("unexpected argument '-") {
        return Ok(None);
    }
    let tip = "several files go into a folder: '--into out'";
    Ok(Some(format!(in alloc; "{message}\n\n  tip: {tip}")?))
}

/// Returns the usage error for a `run` of one file that clap refused with `told`. If there is a word too many, it names
/// `--into`.
fn run_fault(alloc: Global, told: clap::Error) -> WordFault
    ensures { IsUsage result }
{
    match too_many_text(alloc, &told) {
        Ok(Some(text)) => usage_error(alloc, text.as_str()),
        Ok(None) => WordFault::from(told),
        Err(_) => WordFault::OutOfMemory,
    }
}

/// Parses `words` as a `run` of one file. The first word is the program's name.
fn read_run<'a>(alloc: Global, words: &'a [&'a str]) -> Result<Words<'a>, WordFault>
    ensures within { IfOk result IsWithinLimits }
    ensures usage { IfErr result IsUsage }
{
    match read(alloc, words) {
        Err(WordFault::Usage(told)) => Err(run_fault(alloc, told)),
        read => read,
    }
}

/// Parses the words of a `run`, which are `rest` behind the program's name and `run`.
fn run_words<'a>(alloc: Global, words: &'a [&'a str], rest: &[&str]) -> Result<Words<'a>, WordFault>
    ensures within { IfOk result IsWithinLimits }
    ensures usage { IfErr result IsUsage }
{
    if has_path_for_number(rest) {
        Err(usage_error(alloc, PATH_FOR_NUMBER))
    } else if is_batch(rest) {
        read_batch(alloc, words)
    } else {
        read_run(alloc, words)
    }
}

/// Returns whether `words`, which follow the program's name, ask for the overview of all commands. A bare call does.
fn is_overview(words: &[&str]) -> bool {
    matches!(words, [] | ["help"] | ["-h" | "--help", ..])
}

/// Parses a command line, whose first word is the program's name.
pub fn words<'a>(alloc: Global, words: &'a [&'a str]) -> Result<Words<'a>, WordFault>
    ensures within { IfOk result IsWithinLimits }
    ensures usage { IfErr result IsUsage }
{
    match words {
        [] => Ok(Words::Overview),
        [_, rest @ ..] if is_overview(rest) => Ok(Words::Overview),
        [_, "explain", name] if is_name(name) => explain(alloc, name),
        [_, "explain", number, name] if is_name(name) => explain_both(alloc, number, name),
        [_, "run", rest @ ..] => run_words(alloc, words, rest),
        _ => read(alloc, words),
    }
}
