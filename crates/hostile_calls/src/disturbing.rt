//! Runs whose workers are delayed, compared with runs on one thread.

ghost use Rattle.sdf_graph.specs.Rates.{rates};
ghost use Rattle.sdf_actor.specs.Graphs.{graph_of};
ghost use Rattle.sdf_kit.specs.Kit.{kit_steps};
ghost use Rattle.sdf_prec.specs.BlockTables.{IsBlockTableOf};
ghost use Rattle.sdf_plan.specs.Plans.{Suits};

use crate::files::design_at;
use crate::runs::{BLOCKS, inputs_of, run_by_workers};
use anyhow::{Context, Result};
use rand_core::{Rng, SeedableRng};
use rand_xoshiro::SplitMix64;
use sdf_actor::Net;
use sdf_file::Design;
use sdf_kit::Kit;
use sdf_options::{Options, Runner};
use sdf_plan::Plan;
use sdf_plan::planning::plan;
use sdf_prec::BlockTable;
use sdf_run::{ActorId, Gate, Ran, RunFault, run_one};
use std::rt::Files;
use std::sync::atomic::{AtomicU64, Ordering};
use std::thread::Threads;

/// The turns for which one worker is delayed, and the most for which each worker waits for another.
const MANY_TURNS: u64 = 1_000_000;

/// The firings of a run that are delayed, and for how many turns. A turn reads a shared counter.
#[derive(Clone, Copy)]
enum Hold {
    /// Each firing, for a number of turns that is seeded by this, its processor, its actor and its number.
    Seeded(u64),
    /// The firings of one processor, for a million turns.
    Processor(usize),
    /// Each firing, until a firing of another worker comes or for a million turns.
    UntilAnother,
}

/// A gate that delays firings.
#[derive(Drop)]
struct Holding {
    hold: Hold,
    /// The number of firings that have come.
    come: AtomicU64,
    /// The turns for which firings were delayed.
    held: AtomicU64,
}

/// Returns a seeded number of turns: mostly a small one, and at most 65,535.
fn seeded_turns(seed: u64, processor: usize, actor: ActorId, firing: u64) -> u64 {
    let place = (processor as u64) << 48 | (actor as u64) << 32;
    let word = SplitMix64::seed_from_u64(seed ^ place ^ firing).next_u64();
    let most = 1u64 << (word % 17);
    (word >> 8) % most
}

impl Holding {
    fn new(hold: Hold) -> Self {
        Self {
            hold,
            come: AtomicU64::new(0),
            held: AtomicU64::new(0),
        }
    }

    /// Waits for `turns` turns, or until `until` firings have come.
    fn wait(&self, turns: u64, until: u64) {
        let mut waited = 0u64;
        for turn in 0..turns {
            if self.come.load(Ordering::SeqCst) >= until {
                break;
            }
            waited = turn.saturating_add(1);
        }
        self.held.fetch_add(waited, Ordering::SeqCst);
    }
}

impl Gate for Holding {
    fn before(&self, processor: usize, actor: ActorId, firing: u64) {
        let next = self.come.fetch_add(1, Ordering::SeqCst).saturating_add(2);
        match self.hold {
            Hold::Seeded(seed) => {
                self.wait(seeded_turns(seed, processor, actor, firing), u64::MAX);
            }
            Hold::Processor(held) if held == processor => self.wait(MANY_TURNS, u64::MAX),
            Hold::Processor(_) => {}
            Hold::UntilAnother => self.wait(MANY_TURNS, next),
        }
    }
}

/// The delays of the runs by a table, one run after another.
#[derive(Drop)]
enum Holds {
    /// Turns that are seeded anew for each run.
    Seeded(SplitMix64),
    /// A delay of each of this many processors, for one run with each of `PATIENCES`. In the last runs every firing
    /// waits for another worker.
    OneByOne(usize),
}

impl Holds {
    fn of_run(&mut self, number: usize) -> Hold {
        match self {
            Holds::Seeded(seeds) => Hold::Seeded(seeds.next_u64()),
            Holds::OneByOne(workers) => {
                let processor = number / PATIENCES.len();
                if processor < *workers {
                    Hold::Processor(processor)
                } else {
                    Hold::UntilAnother
                }
            }
        }
    }
}

/// The runners in turn: by rows, or over rings with this spin limit.
const PATIENCES: [Option<u32>; 4] = [None, Some(0), Some(1), Some(1_000_000)];

/// Checks whether a run made `lists`, in at least one round and at most `firings` rounds.
fn is_right(ran: &Ran<i32>, lists: &[Vec<i32>], firings: u64) -> bool {
    ran.outputs.as_slice() == lists && 1 <= ran.rounds && ran.rounds <= firings
}

/// Counts over several runs.
#[derive(Clone, Copy)]
struct Counts {
    runs: u64,
    /// The runs that made what one thread makes.
    same: u64,
    /// The runs that were refused.
    refused: u64,
    /// The turns for which firings were delayed.
    held: u64,
}

impl Counts {
    const NONE: Counts = Counts {
        runs: 0,
        same: 0,
        refused: 0,
        held: 0,
    };

    /// Counts a run, which is compared with `one`, the run on one thread.
    fn add(&mut self, answer: Result<Ran<i32>, RunFault>, one: &Ran<i32>, firings: u64) {
        self.runs = self.runs.saturating_add(1);
        match answer {
            Ok(ran) => {
                let right = is_right(&ran, &one.outputs, firings);
                self.same = self.same.saturating_add(u64::from(right));
            }
            Err(_) => self.refused = self.refused.saturating_add(1),
        }
    }
}

/// Runs a net `runs` times by `table`, each time with new delays, and compares the runs with one on one thread.
fn disturb_table<R: AllocGlobal + Sync + Threads>(
    rt: &R,
    net: &Net<Kit>,
    table: &BlockTable,
    runs: usize,
    holds: &mut Holds,
) -> Result<Counts>
    requires fits { IsBlockTableOf (rates (graph_of kit_steps net.now)) table.now }
{
    let periods = BLOCKS.saturating_mul(table.blocking);
    let firings = (table.period.order().len() as u64).saturating_mul(u64::from(periods));
    let inputs = inputs_of(rt.alloc(), net, periods)?;
    let one = run_one(rt.alloc(), net, &table.period, periods, &inputs)?;
    let mut counts = Counts::NONE;
    for number in 0..runs {
        let patience = PATIENCES[number % PATIENCES.len()];
        let gate = Holding::new(holds.of_run(number));
        let ran = run_by_workers(rt, net, table, &inputs, patience, &gate);
        counts.add(ran, &one, firings);
        counts.held = counts.held.saturating_add(gate.held.load(Ordering::SeqCst));
    }
    Ok(counts)
}

/// Runs a net `runs` times by the table of `plan`.
fn disturb_plan<R: AllocGlobal + Sync + Threads>(
    rt: &R,
    net: &Net<Kit>,
    plan: &Plan,
    runs: usize,
    holds: &mut Holds,
) -> Result<Counts>
    requires { Suits net.now plan.now }
{
    let table = plan.table().context("a plan of workers has a table")?;
    disturb_table(rt, net, table, runs, holds)
}

/// Runs a design `runs` times on `workers` workers.
fn disturb_design<R: AllocGlobal + Sync + Threads>(
    rt: &R,
    design: &Design,
    workers: usize,
    runs: usize,
    holds: &mut Holds,
) -> Result<Counts> {
    let options = Options {
        runner: Runner::Rings,
        workers,
        ..Options::DEFAULT
    };
    let plan = plan(rt.alloc(), design, &options)?;
    let counts = disturb_plan(rt, design.net(), &plan, runs, holds);
    drop(plan);
    counts
}

/// Prints the counts of the runs on `workers` workers.
fn print_counts(rt: &impl Print, graph: &str, workers: usize, counts: Counts) -> Result<()> {
    let Counts {
        runs,
        same,
        refused,
        held,
    } = counts;
    Ok(println!(rt;
        "{graph} {workers}: {runs} runs, {same} same, {refused} refused, {held} turns"
    )?)
}

/// Runs a design `runs` times on `workers` workers, and prints a line with the counts.
fn disturb_on<R: AllocGlobal + Print + Sync + Threads>(
    rt: &R,
    (graph, design): (&str, &Design),
    workers: usize,
    runs: usize,
    holds: &mut Holds,
) -> Result<()> {
    let counts = disturb_design(rt, design, workers, runs, holds)?;
    print_counts(rt, graph, workers, counts)
}

/// Runs a design `runs` times on each number of workers from 1 to 16.
fn disturb_each<R: AllocGlobal + Print + Sync + Threads>(
    rt: &R,
    (graph, design): (&str, &Design),
    runs: usize,
    holds: &mut Holds,
) -> Result<()> {
    for workers in 1..17 {
        disturb_on(rt, (graph, design), workers, runs, holds)?;
    }
    Ok(())
}

/// Reads the design of the graph file `graph`, and runs it `runs` times on each number of workers from 1 to 16.
fn disturb_at<R: AllocGlobal + Files + Print + Sync + Threads>(
    rt: &R,
    graph: &str,
    runs: usize,
    holds: &mut Holds,
) -> Result<()> {
    let design = design_at(rt, graph)?;
    disturb_each(rt, (graph, &design), runs, holds)
}

/// Runs each design `runs` times on each number of workers from 1 to 16.
pub(crate) fn disturb<R: AllocGlobal + Files + Print + Sync + Threads>(
    rt: &R,
    runs: usize,
    seed: u64,
    graphs: &[&str],
) -> Result<()> {
    let mut holds = Holds::Seeded(SplitMix64::seed_from_u64(seed));
    for graph in graphs {
        disturb_at(rt, graph, runs, &mut holds)?;
    }
    Ok(())
}

/// Runs a design on 1, 2, 3 and 16 workers, with the delays of `Holds::OneByOne`.
fn hold_workers<R: AllocGlobal + Print + Sync + Threads>(
    rt: &R,
    (graph, design): (&str, &Design),
) -> Result<()> {
    for workers in [1usize, 2, 3, 16] {
        let runs = PATIENCES.len().saturating_mul(workers.saturating_add(1));
        let mut holds = Holds::OneByOne(workers);
        disturb_on(rt, (graph, design), workers, runs, &mut holds)?;
    }
    Ok(())
}

/// Reads the design of the graph file `graph`, and runs it with the delays of `Holds::OneByOne`.
fn hold_at<R: AllocGlobal + Files + Print + Sync + Threads>(rt: &R, graph: &str) -> Result<()> {
    let design = design_at(rt, graph)?;
    hold_workers(rt, (graph, &design))
}

/// Runs each design on 1, 2, 3 and 16 workers. One worker at a time is delayed before all of its firings, and then each
/// waits until another goes on.
pub(crate) fn hold_each<R: AllocGlobal + Files + Print + Sync + Threads>(
    rt: &R,
    graphs: &[&str],
) -> Result<()> {
    for graph in graphs {
        hold_at(rt, graph)?;
    }
    Ok(())
}
