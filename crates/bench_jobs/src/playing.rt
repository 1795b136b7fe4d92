//! Runs of designs on noise.

ghost use Rattle.std.specs.Prelude.{IfOk};
ghost use Rattle.sdf_plan.specs.Plans.{Suits};

use crate::files::{design_at, design_in, design_of};
use anyhow::Result;
use bench_inputs::graphs::Graph;
use bench_inputs::noise::{Length, Level, Noise};
use bench_inputs::numbers::{Numbers, show};
use sdf_faults::Fault;
use sdf_file::{CoefficientFile, Design};
use sdf_options::{Options, Runner};
use sdf_plan::Plan;
use sdf_plan::parallel::parallel_plan;
use sdf_plan::planning::plan;
use sdf_process::process::process;
use sdf_wav::{FromRead, ToWrite};
use std::alloc::Global;
use std::rt::Files;
use std::thread::Threads;

/// Output bytes for each input byte, at most.
const MAX_OUTPUTS: usize = 8;

/// A design that a seed makes, that is shipped in a folder, or that is read from a text and coefficient files.
#[derive(Clone, Copy)]
pub(crate) enum Source<'a> {
    Made(Graph),
    Shipped(&'a str, &'a str),
    Text(&'a [u8], &'a [CoefficientFile]),
}

/// How a design is run.
#[derive(Clone, Copy)]
pub(crate) enum Way {
    OneThread,
    /// On one thread at half scale and at full scale, which are its names.
    TwoLevels,
    Rings,
    FourWorkers,
}

impl Way {
    /// Returns the plan by which a design is run in this way.
    fn plan(self, alloc: Global, design: &Design) -> Result<Plan, Fault>
        ensures { IfOk result (λ plan. Suits design.now.net plan) }
    {
        match self {
            Way::OneThread | Way::TwoLevels => plan(alloc, design, &Options::DEFAULT),
            Way::Rings => plan(alloc, design, &OVER_RINGS),
            Way::FourWorkers => Ok(parallel_plan(alloc, design, 4)?.plan),
        }
    }
}

/// The shipped converter.
const CONVERTER: Source<'static> = Source::Shipped("44100-to-48000", "graph.toml");

const OVER_RINGS: Options = Options {
    runner: Runner::Rings,
    ..Options::DEFAULT
};

/// Runs designs, each on new noise.
#[derive(Drop)]
pub(crate) struct Playing<'a, R> {
    pub(crate) rt: &'a R,
    pub(crate) numbers: Numbers,
    pub(crate) length: Length,
}

impl<'a, R: AllocGlobal + Files + Print + Sync + Threads> Playing<'a, R> {
    /// Begins with the noise of a seed.
    pub(crate) fn new(rt: &'a R, seed: u32, length: Length) -> Playing<'a, R> {
        Playing {
            rt,
            numbers: Numbers::new(seed),
            length,
        }
    }

    /// Describes the noise of a run.
    pub(crate) fn noise(&self, channels: u16, level: Level) -> Noise {
        Noise {
            length: self.length,
            channels,
            level,
        }
    }

    /// Runs a design by a plan on noise.
    fn play_by(&mut self, name: &str, design: &Design, plan: &Plan, noise: Noise) -> Result<()>
        requires { Suits design.now.net plan.now }
    {
        let file = noise.file(self.rt.alloc(), &mut self.numbers)?;
        self.play_file(name, design, plan, &file)
    }

    /// Runs a design by a plan on a WAV file.
    fn play_file(&self, name: &str, design: &Design, plan: &Plan, file: &[u8]) -> Result<()>
        requires { Suits design.now.net plan.now }
    {
        let made = made_of(self.rt, file, design, plan)?;
        Ok(show(self.rt, name, &made)?)
    }

    /// Runs a design of one channel by a plan at half scale and at full scale.
    fn play_levels(&mut self, design: &Design, plan: &Plan) -> Result<()>
        requires { Suits design.now.net plan.now }
    {
        self.play_by("half scale", design, plan, self.noise(1, Level::Half))?;
        self.play_by("full scale", design, plan, self.noise(1, Level::Full))
    }

    /// Runs a design by the plan of a way.
    fn play_by_way(
        &mut self,
        name: &str,
        design: &Design,
        plan: &Plan,
        way: Way,
        noise: Noise,
    ) -> Result<()>
        requires { Suits design.now.net plan.now }
    {
        match way {
            Way::TwoLevels => self.play_levels(design, plan),
            _ => self.play_by(name, design, plan, noise),
        }
    }

    /// Runs a design in a way.
    fn play(&mut self, name: &str, design: &Design, way: Way, noise: Noise) -> Result<()> {
        let plan = way.plan(self.rt.alloc(), design)?;
        self.play_by_way(name, design, &plan, way, noise)
    }

    /// Makes or reads a design.
    fn design(&mut self, source: Source<'_>) -> Result<Design> {
        match source {
            Source::Made(graph) => design_of(self.rt.alloc(), graph, &mut self.numbers),
            Source::Shipped(folder, graph) => design_at(self.rt, folder, graph),
            Source::Text(graph, files) => design_in(self.rt.alloc(), graph, files),
        }
    }

    /// Makes or reads a design, and runs it.
    pub(crate) fn run(
        &mut self,
        name: &str,
        source: Source<'_>,
        way: Way,
        noise: Noise,
    ) -> Result<()> {
        let design = self.design(source)?;
        self.play(name, &design, way, noise)
    }

    /// Runs the shipped converter on one channel and on two.
    pub(crate) fn convert(&mut self) -> Result<()> {
        let noise = self.noise(1, Level::Half);
        self.run("", CONVERTER, Way::TwoLevels, noise)?;
        let stereo = Source::Shipped("44100-to-48000", "graph-stereo.toml");
        let noise = self.noise(2, Level::Half);
        self.run("stereo", stereo, Way::OneThread, noise)
    }

    /// Runs the shipped crossover, and a bank of 32 filters.
    pub(crate) fn filter(&mut self) -> Result<()> {
        let crossover = Source::Shipped("crossover", "graph.toml");
        let noise = self.noise(1, Level::Half);
        self.run("", crossover, Way::TwoLevels, noise)?;
        self.length = self.length.part(10);
        self.play_bank(32)
    }

    /// Runs a bank of `filters` filters on one thread.
    pub(crate) fn play_bank(&mut self, filters: u32) -> Result<()> {
        let noise = self.noise(1, Level::Half);
        let bank = Source::Made(Graph::Bank { filters });
        self.run("bank", bank, Way::OneThread, noise)
    }

    /// Runs the shipped echo, and small actors.
    pub(crate) fn play_actors(&mut self) -> Result<()> {
        let echo = Source::Shipped("echo", "graph.toml");
        let noise = self.noise(1, Level::Half);
        self.run("echo", echo, Way::OneThread, noise)?;
        self.play_small()
    }

    /// Gathers two channels into one and deals them out again, and runs a long chain of small actors.
    pub(crate) fn play_small(&mut self) -> Result<()> {
        let noise = self.noise(2, Level::Full);
        let gathered = Source::Made(Graph::Gathered);
        self.run("gathered", gathered, Way::OneThread, noise)?;
        self.length = self.length.part(2);
        let noise = self.noise(1, Level::Half);
        self.run("chain", Source::Made(Graph::Chain), Way::OneThread, noise)
    }

    /// Runs a bank of 32 filters by four workers, and the converter over rings with the default options.
    pub(crate) fn share(&mut self) -> Result<()> {
        self.share_bank(32)?;
        let noise = self.noise(1, Level::Half);
        self.run("over rings", CONVERTER, Way::Rings, noise)
    }

    /// Runs a bank of `filters` filters by four workers.
    pub(crate) fn share_bank(&mut self, filters: u32) -> Result<()> {
        let noise = self.noise(1, Level::Half);
        let bank = Source::Made(Graph::Bank { filters });
        self.run("by four workers", bank, Way::FourWorkers, noise)
    }
}

/// Writes what a design makes of a WAV file by a plan.
fn write_made<R: AllocGlobal + Sync + Threads>(
    rt: &R,
    file: &[u8],
    writer: &mut ToWrite<Vec<u8>>,
    design: &Design,
    plan: &Plan,
) -> Result<()>
    requires { Suits design.now.net plan.now }
{
    Ok(process(rt, &mut FromRead::new(file), writer, design, plan)?)
}

/// Returns what a design makes of a WAV file by a plan.
fn made_of<R: AllocGlobal + Sync + Threads>(
    rt: &R,
    file: &[u8],
    design: &Design,
    plan: &Plan,
) -> Result<Vec<u8>>
    requires { Suits design.now.net plan.now }
{
    let room = file.len().saturating_mul(MAX_OUTPUTS);
    let mut writer = ToWrite::new(Vec::with_capacity(rt.alloc(), room)?);
    write_made(rt, file, &mut writer, design, plan)?;
    Ok(writer.into_inner())
}
