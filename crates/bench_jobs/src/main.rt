//! Runs the jobs that users wait for, on inputs that a seed makes. `bench/run` times it.
//!
//! `bench_jobs JOB SEED SIZE` does one job and prints a digest of each result. The jobs `convert`, `filters`, `actors`
//! and `workers` play designs on noise of SIZE seconds, or a part of it; `tables` schedules designs whose periods have
//! about SIZE firings, or a part of them; `making` makes SIZE filters of each kind, converters and long documents.
//! `bench_jobs small SEED` does a little of every job that reads no file. Designs are read from the folder `designs`
//! where the program runs.
//!
//! It depends on `bench_inputs` for graphs and noise. `sdf_process`, `sdf_plan`, `sdf_file`, `sdf_wav` and
//! `sdf_options` play a design, or end with a fault of `sdf_faults`. `sdf_texts`, `sdf_analyze`, `sdf_draw` and
//! `sdf_json` report on designs and schedules. `sdf_filters` and `sdf_profile` make texts. Begin with `main`, then
//! `playing`, `tables` and `making`.
#![tactic(auto)]

mod files;
mod making;
mod playing;
mod tables;

use anyhow::{Context, Result, bail};
use bench_inputs::noise::Length;
use bench_inputs::numbers::Numbers;
use making::make;
use playing::Playing;
use std::alloc::{AllocError, Global};
use std::env;
use std::rt::Files;
use std::thread::Threads;
use tables::print_reports;

const USAGE: &str =
    "bench_jobs convert|filters|actors|workers SEED SECONDS\nbench_jobs tables SEED FIRINGS\n\
    bench_jobs making SEED FILTERS\nbench_jobs small SEED";

const UNKNOWN: &str = "these are no words of a job: see --help";

/// Reads a number of 32 bits.
fn number(word: &str) -> Result<u32> {
    Ok(word.parse::<u32>().context("this is no number of 32 bits")?)
}

/// Does a little of every job that reads no file.
fn do_little<R: AllocGlobal + Files + Print + Sync + Threads>(rt: &R, seed: u32) -> Result<()> {
    little_playing(&mut Playing::new(rt, seed, Length::Frames(2000)))?;
    print_reports(rt, &mut Numbers::new(seed), 700)
}

/// Plays and makes a little.
fn little_playing<R: AllocGlobal + Files + Print + Sync + Threads>(
    playing: &mut Playing<'_, R>,
) -> Result<()> {
    playing.play_bank(8)?;
    playing.play_small()?;
    playing.share_bank(8)?;
    make(playing, 1)
}

/// A job that has a seed and a size.
#[derive(Clone, Copy)]
enum Job {
    Convert,
    Filters,
    Actors,
    Workers,
    Tables,
    Making,
}

impl Job {
    /// Returns the job that a word names.
    fn named(word: &str) -> Option<Job> {
        match word {
            "convert" => Some(Job::Convert),
            "filters" => Some(Job::Filters),
            "actors" => Some(Job::Actors),
            "workers" => Some(Job::Workers),
            "tables" => Some(Job::Tables),
            "making" => Some(Job::Making),
            _ => None,
        }
    }

    /// Does the job, with the numbers of a seed.
    fn run<R: AllocGlobal + Files + Print + Sync + Threads>(
        self,
        rt: &R,
        seed: u32,
        size: u32,
    ) -> Result<()> {
        let length = match self {
            Job::Tables => return print_reports(rt, &mut Numbers::new(seed), size),
            Job::Making => Length::Frames(70_000),
            _ => Length::Seconds(size),
        };
        self.play(&mut Playing::new(rt, seed, length), size)
    }

    /// Does a job that plays.
    fn play<R: AllocGlobal + Files + Print + Sync + Threads>(
        self,
        playing: &mut Playing<'_, R>,
        size: u32,
    ) -> Result<()> {
        match self {
            Job::Convert => playing.convert(),
            Job::Filters => playing.filter(),
            Job::Actors => playing.play_actors(),
            Job::Workers => playing.share(),
            _ => make(playing, size),
        }
    }
}

/// Does the job that the words name.
fn obey<R: AllocGlobal + Files + Print + Sync + Threads>(rt: &R, line: &[&str]) -> Result<()> {
    match line {
        [job, seed, size] => match Job::named(job) {
            Some(job) => job.run(rt, number(seed)?, number(size)?),
            None => bail!("{UNKNOWN}"),
        },
        ["small", seed] => do_little(rt, number(seed)?),
        ["--help"] => Ok(println!(rt; "{USAGE}")?),
        _ => bail!("{UNKNOWN}"),
    }
}

/// Returns the words as a line.
fn line_of(alloc: Global, given: &[String]) -> Result<Vec<&str>, AllocError> {
    let mut line = Vec::new(alloc);
    for word in given {
        line.push(word.as_str())?;
    }
    Ok(line)
}

fn main(rt: HostRuntime) -> Result<()> {
    let mut given = Vec::new(rt.alloc());
    for word in env::args(&rt)?.skip(1) {
        given.push(word)?;
    }
    obey(&rt, &line_of(rt.alloc(), &given)?)
}
