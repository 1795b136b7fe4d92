//! Makes one call of the libraries, prints its result, and makes the call again.
//!
//! `hostile_calls CALL run GRAPH IN OUT [OPTIONS]` calls with the files and the options of a run of `sdfw`; OUT is not
//! written. The program prints a line `call` before the call and a line `again` before the repetition.
//! `hostile/calls.py` refuses memory or threads from the line `call` to the next one, so the second call has both.
//!
//! `hostile_calls disturb RUNS SEED GRAPH..` runs designs on workers that gates delay, and counts the runs that make
//! what one thread makes. `hostile_calls hold GRAPH..` delays one worker at a time, and then each until another goes
//! on.
//!
//! `hostile_calls count RUNNER WORKERS PERIODS BLOCKS`, or a policy in place of the runner, makes one run or one
//! schedule between two lines, for `scripts/allocations`.
//!
//! A plan, the words of a line and an answer with a fault of a design end by `drop(value)`, which is proved once. At
//! the end of a scope each of their variants would be proved again.
//!
//! It depends on `sdf_cli` and `sdf_options` for the words of a call, and on `sdf_file` and `sdf_texts` for designs
//! and their texts. `sdf_plan`, `sdf_faults`, `sdf_process` and `sdf_wav` run files. Calls of single layers
//! also use `sdf_run`, `sdf_rings`, `sdf_prec`, `sdf_sched`, `sdf_kit`, `sdf_actor` and `sdf_graph`.
//! Begin at `main`, then `calls`, which names every call. `designs` has the calls that make a design or a plan.
//! `runs`, `sessions`, `by_hand` and `sounds` have the calls that begin with a plan. `disturbing` has the gates, and
//! `counting` the runs whose memory requests are counted.
#![tactic(auto)]

mod by_hand;
mod calls;
mod counting;
mod designs;
mod disturbing;
mod files;
mod runs;
mod sessions;
mod sounds;

use anyhow::{Context, Result, bail};
use calls::make;
use counting::count;
use disturbing::{disturb, hold_each};
use files::load;
use sdf_cli::arguments::read_arguments;
use sdf_cli::{DesignCommand, RunRequest, Words, words};
use std::alloc::{AllocError, Global};
use std::rt::Files;
use std::thread::Threads;

const USAGE: &str =
    "hostile_calls CALL run GRAPH IN OUT [OPTIONS]\nhostile_calls disturb RUNS SEED GRAPH..\n\
    hostile_calls hold GRAPH..\nhostile_calls count RUNNER WORKERS PERIODS BLOCKS";

/// The lines before a call and before its repetition.
pub(crate) const TURNS: [&str; 2] = ["call", "again"];

/// Prints the line before a call or before its repetition.
pub(crate) fn print_turn(rt: &impl Print, turn: &str) -> Result<()> {
    Ok(println!(rt; "{turn}")?)
}

/// Disturbs runs of `graphs`, with the numbers that the words `runs` and `seed` give.
fn obey_disturb<R: AllocGlobal + Files + Print + Sync + Threads>(
    rt: &R,
    runs: &str,
    seed: &str,
    graphs: &[&str],
) -> Result<()> {
    let runs = runs.parse::<usize>().context("the number of runs")?;
    let seed = seed.parse::<u64>().context("the seed")?;
    disturb(rt, runs, seed, graphs)
}

/// Makes the call named `call` with the files and the options of the run that `words` describe.
fn make_by<R: AllocGlobal + Files + Print + Sync + Threads>(
    rt: &R,
    call: &str,
    words: &Words<'_>,
) -> Result<()> {
    match words {
        Words::Design {
            graph,
            task: DesignCommand::Run(RunRequest { input, options, .. }),
            ..
        } => make(rt, call, &load(rt, graph)?, input, options),
        _ => bail!("these are no words of a run"),
    }
}

/// Makes the call named `call`, which is the first word of `line`.
fn obey_call<R: AllocGlobal + Files + Print + Sync + Threads>(
    rt: &R,
    call: &str,
    line: &[&str],
) -> Result<()> {
    let words = words(rt.alloc(), line)?;
    let made = make_by(rt, call, &words);
    drop(words);
    made
}

/// Does what the words of `line` ask for. The first word is the name of a call.
fn obey<R: AllocGlobal + Files + Print + Sync + Threads>(rt: &R, line: &[&str]) -> Result<()> {
    let [call, rest @ ..] = line else {
        bail!("no call is named");
    };
    match (*call, rest) {
        ("disturb", [runs, seed, graphs @ ..]) => obey_disturb(rt, runs, seed, graphs),
        ("hold", graphs) => hold_each(rt, graphs),
        ("count", [what, workers, blocking, blocks]) => count(
            rt,
            what,
            [workers, blocking, blocks],
        ),
        ("--help", []) => Ok(println!(rt; "{USAGE}")?),
        _ => obey_call(rt, call, line),
    }
}

/// Returns the words of `given` behind the program's name as a line.
fn line_of(alloc: Global, given: &[String]) -> Result<Vec<&str>, AllocError> {
    let mut line = Vec::new(alloc);
    for word in given.iter().skip(1) {
        line.push(word.as_str())?;
    }
    Ok(line)
}

fn main(rt: HostRuntime) -> Result<()> {
    let given = read_arguments(&rt, rt.alloc())?;
    if given.unread.is_some() {
        bail!("a word is not UTF-8");
    }
    obey(&rt, &line_of(rt.alloc(), &given.words)?)
}
