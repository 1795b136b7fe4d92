//! The commands in the order in which a user meets them, and the overview of them that `sdfw --help` prints.

use super::{designs, filters, reference, views, with_command};
use clap::Command;
use std::alloc::{AllocError, Global};

fn with_run<'a>(alloc: Global, command: Command<'a>) -> Result<Command<'a>, AllocError> {
    with_command(alloc, command, designs::RUN)
}

fn with_resample<'a>(alloc: Global, command: Command<'a>) -> Result<Command<'a>, AllocError> {
    with_command(alloc, command, filters::RESAMPLE)
}

fn with_fir<'a>(alloc: Global, command: Command<'a>) -> Result<Command<'a>, AllocError> {
    with_command(alloc, command, filters::FIR)
}

fn with_check<'a>(alloc: Global, command: Command<'a>) -> Result<Command<'a>, AllocError> {
    with_command(alloc, command, designs::CHECK)
}

fn with_explain<'a>(alloc: Global, command: Command<'a>) -> Result<Command<'a>, AllocError> {
    with_command(alloc, command, reference::EXPLAIN)
}

fn with_kinds<'a>(alloc: Global, command: Command<'a>) -> Result<Command<'a>, AllocError> {
    with_command(alloc, command, reference::KINDS)
}

fn with_schedule<'a>(alloc: Global, command: Command<'a>) -> Result<Command<'a>, AllocError> {
    with_command(alloc, command, designs::SCHEDULE)
}

fn with_analyze<'a>(alloc: Global, command: Command<'a>) -> Result<Command<'a>, AllocError> {
    with_command(alloc, command, views::ANALYZE)
}

fn with_draw<'a>(alloc: Global, command: Command<'a>) -> Result<Command<'a>, AllocError> {
    with_command(alloc, command, views::DRAW)
}

fn with_profile<'a>(alloc: Global, command: Command<'a>) -> Result<Command<'a>, AllocError> {
    with_command(alloc, command, views::PROFILE)
}

/// Adds the commands that process sound.
fn with_sound<'a>(alloc: Global, command: Command<'a>) -> Result<Command<'a>, AllocError> {
    let command = with_run(alloc, command)?;
    let command = with_resample(alloc, command)?;
    with_fir(alloc, command)
}

/// Adds the commands that say what a design is.
fn with_design<'a>(alloc: Global, command: Command<'a>) -> Result<Command<'a>, AllocError> {
    let command = with_check(alloc, command)?;
    let command = with_explain(alloc, command)?;
    with_kinds(alloc, command)
}

/// Adds the commands that schedule a design.
fn with_schedules<'a>(alloc: Global, command: Command<'a>) -> Result<Command<'a>, AllocError> {
    let command = with_schedule(alloc, command)?;
    let command = with_analyze(alloc, command)?;
    let command = with_draw(alloc, command)?;
    with_profile(alloc, command)
}

/// Adds all commands. A function names the row of one command alone, since it is proved with all texts of the row.
pub(super) fn with_all<'a>(alloc: Global, command: Command<'a>) -> Result<Command<'a>, AllocError> {
    let command = with_sound(alloc, command)?;
    let command = with_design(alloc, command)?;
    with_schedules(alloc, command)
}

/// The overview of all commands. It says of each what its row says in short.
pub const OVERVIEW: &str = "A workbench for synchronous dataflow graphs over WAV files

Usage: sdfw <COMMAND>

Process sound:
  run       Processes a WAV file, or several
  resample  Writes a design that converts between two rates
  fir       Prints a coefficient file for an actor of kind fir

Understand a design:
  check     Checks a graph file and prints its period
  explain   Says what a fault means and what to do about it
  kinds     Lists the kinds of actors, their keys and limits

Schedule a design:
  schedule  Prints a schedule of a graph file for some workers
  analyze   Prints how long a schedule takes and what its links hold
  draw      Draws a graph and its schedule
  profile   Measures each actor's share of the time of a run

Options:
  -h, --help     Print help
  -V, --version  Print version

Examples:
  sdfw resample 44100 48000 converter --channels 2
  sdfw run converter/graph.toml in.wav out.wav
  sdfw run converter/graph.toml --into out in/*.wav

Exit status:
  0  success
  2  a mistake on the command line
  3  a fault of a design or of its schedule
  4  a fault of a WAV file
  5  a file or a stream that can't be read or written
  6  out of memory

More:
  `sdfw COMMAND --help` describes a command, and `sdfw COMMAND -h` in short.
  README.md, docs/TUTORIAL.md and docs/FORMATS.md are in the sources, and in share/doc/sdfw once it is installed.
";
