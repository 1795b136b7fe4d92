//! The commands: the parser is built from the rows of their tables.

mod designs;
mod filters;
mod groups;
mod reference;
mod views;

use clap::builder::ValueParser;
use clap::{Arg, ArgAction, Command};
pub use groups::OVERVIEW;
use std::alloc::{AllocError, Global};

/// The head of a run's options for its schedule and its workers.
const SCHEDULING: &str = "Options for the schedule";

/// The type and the range of a value.
#[derive(Clone, Copy)]
enum Values {
    Text,
    /// A path, which is optional.
    Path,
    /// A number from the first limit to the second, parsed as a signed one.
    Signed(i64, i64),
    /// A number from the first limit to the second.
    Unsigned(u64, u64),
    OneOf(&'static [&'static str]),
}

/// An option that works without a value, and the options that it conflicts with. If it may also have a value, `value`
/// has the name of the value in the help, and its type.
#[derive(Clone, Copy)]
struct Switch {
    against: &'static [&'static str],
    value: Option<(&'static str, Values)>,
}

/// How an argument is given on the command line.
#[derive(Clone, Copy)]
enum Syntax {
    /// Required, by its position.
    Place(Values),
    /// Required, by its position, once or several times.
    Places(Values),
    /// By its name: the name of its value in the help, the type, and the default. Without a default it is required,
    /// unless it is a path.
    Choice(&'static str, Values, Option<&'static str>),
    /// By its name: the name of its value in the help, and the type. It is not required, and has no default.
    Free(&'static str, Values),
    Switch(Switch),
}

/// A flag without a value that conflicts with no other option.
const PLAIN: Syntax = Syntax::Switch(Switch {
    against: &[],
    value: None,
});

/// An argument of a command. `-h` prints `help`, and `--help` prints `more`.
#[derive(Clone, Copy)]
struct Argument {
    name: &'static str,
    help: &'static str,
    more: &'static str,
    syntax: Syntax,
}

/// A command and its arguments. The arguments in `scheduling` have a head of their own. `-h` prints `help`, and
/// `--help` prints `more`. The help ends with the examples.
#[derive(Clone, Copy)]
struct CommandRow {
    name: &'static str,
    help: &'static str,
    more: &'static str,
    arguments: &'static [Argument],
    scheduling: &'static [Argument],
    examples: &'static str,
}

fn parser_of<'a>(values: Values) -> ValueParser<'a> {
    match values {
        Values::Text | Values::Path => ValueParser::String,
        Values::Signed(least, most) => ValueParser::Signed(least, most),
        Values::Unsigned(least, most) => ValueParser::Unsigned(least, most),
        Values::OneOf(words) => ValueParser::Names(words),
    }
}

fn chosen<'a>(
    named: Arg<'a>,
    value_name: &'static str,
    values: Values,
    default: Option<&'static str>,
) -> Arg<'a> {
    let named = named.value_name(value_name).value_parser(parser_of(values));
    match default {
        Some(default) => named.default_value(default),
        None => named.required(!matches!(values, Values::Path)),
    }
}

fn switched<'a>(named: Arg<'a>, switch: Switch) -> Result<Arg<'a>, AllocError> {
    let flag = match switch.value {
        Some((value_name, values)) => named
            .value_name(value_name)
            .num_args(0..=1)
            .value_parser(parser_of(values)),
        None => named.action(ArgAction::SetTrue),
    };
    flag.conflicts_with_all(switch.against)
}

fn arg_of<'a>(alloc: Global, argument: Argument) -> Result<Arg<'a>, AllocError> {
    let arg = Arg::new(alloc, argument.name)
        .help(argument.help)
        .long_help(argument.more);
    match argument.syntax {
        Syntax::Place(values) => Ok(arg.required(true).value_parser(parser_of(values))),
        Syntax::Places(values) => Ok(
            arg.required(true)
                .num_args(1..)
                .value_parser(parser_of(values)),
        ),
        Syntax::Choice(value_name, values, default) => {
            let named = arg.long(argument.name);
            Ok(chosen(named, value_name, values, default))
        }
        Syntax::Free(value_name, values) => Ok(
            arg.long(argument.name)
                .value_name(value_name)
                .value_parser(parser_of(values)),
        ),
        Syntax::Switch(switch) => switched(arg.long(argument.name), switch),
    }
}

fn with_argument<'a>(
    alloc: Global,
    command: Command<'a>,
    argument: Argument,
) -> Result<Command<'a>, AllocError> {
    command.arg(arg_of(alloc, argument)?)
}

fn with_arguments<'a>(
    alloc: Global,
    mut command: Command<'a>,
    arguments: &[Argument],
) -> Result<Command<'a>, AllocError> {
    for argument in arguments {
        command = with_argument(alloc, command, *argument)?;
    }
    Ok(command)
}

fn command_of<'a>(alloc: Global, row: CommandRow) -> Result<Command<'a>, AllocError> {
    let command = Command::new(alloc, row.name)
        .about(row.help)
        .long_about(row.more)
        .after_help(row.examples);
    let command = with_arguments(alloc, command, row.arguments)?;
    with_arguments(alloc, command.next_help_heading(SCHEDULING), row.scheduling)
}

fn with_command<'a>(
    alloc: Global,
    command: Command<'a>,
    row: CommandRow,
) -> Result<Command<'a>, AllocError> {
    command.subcommand(command_of(alloc, row)?)
}

fn with_commands<'a>(
    alloc: Global,
    mut command: Command<'a>,
    rows: &[CommandRow],
) -> Result<Command<'a>, AllocError> {
    for row in rows {
        command = with_command(alloc, command, *row)?;
    }
    Ok(command)
}

/// Returns the program's command without subcommands.
fn program<'a>(alloc: Global) -> Command<'a> {
    Command::new(alloc, "sdfw")
        .version("0.1.0")
        .subcommand_required(true)
}

/// Returns the program's command with `run` for several files.
pub(crate) fn batch_command<'a>(alloc: Global) -> Result<Command<'a>, AllocError> {
    with_command(alloc, program(alloc), designs::BATCH)
}

/// Returns the program's command with all its subcommands.
pub(crate) fn sdfw_command<'a>(alloc: Global) -> Result<Command<'a>, AllocError> {
    groups::with_all(alloc, program(alloc))
}
