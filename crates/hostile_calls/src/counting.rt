//! One run in memory of a chain of all kinds of actors, or one schedule, between the lines `begin` and `end`. The
//! memory that is requested between them is the run's own. `scripts/allocations` counts it.

ghost use Rattle.sdf_graph.specs.Rates.{rates};
ghost use Rattle.sdf_actor.specs.Graphs.{graph_of};
ghost use Rattle.sdf_kit.specs.Kit.{kit_steps};
ghost use Rattle.sdf_prec.specs.BlockTables.{IsBlockTableOf};

use anyhow::{Context, Result, bail};
use sdf_actor::Net;
use sdf_file::{Design, read_design};
use sdf_kit::Kit;
use sdf_prec::hu::hu;
use sdf_prec::{BlockTable, Columns, Costs};
use sdf_run::{NoGate, Ran, RunFault, Workers, run_one, run_rings, run_rows};
use sdf_sched::class_s::class_s;
use sdf_sched::{Lean, Pick, Round, Runs};
use std::alloc::Global;
use std::thread::Threads;

/// A chain of actors of all kinds, with filters between different rates.
const CHAIN: &str = r#"format = 2
actor = [
    { name = "in", kind = "input", channel = 0 },
    { name = "gain", kind = "gain", gain = -3, shift = 1 },
    { name = "offset", kind = "offset", value = 9 },
    { name = "clip", kind = "clip", least = -20000, greatest = 20000 },
    { name = "delay", kind = "delay", length = 5 },
    { name = "table", kind = "table", offset = 2, values = [1, 2, 4, 8, 16] },
    { name = "up", kind = "interpolate", factor = 2 },
    { name = "short", kind = "fir", shift = 1, taps = [1, 2, 1] },
    { name = "down", kind = "decimate", factor = 2 },
    { name = "long", kind = "fir", up = 3, down = 2, shift = 0, taps = [1, 2, 3, 4, 5, 6, 7, 8, 9, 10, 11, 12] },
    { name = "back", kind = "fir", up = 2, down = 3, shift = 0, taps = [1, 1] },
    { name = "fork", kind = "fork", ways = 2 },
    { name = "add", kind = "add", ways = 2 },
    { name = "deal", kind = "deal", ways = 2 },
    { name = "gather", kind = "gather", ways = 2 },
    { name = "out", kind = "output", channel = 0 },
]
link = [
    { from = "in", to = "gain" },
    { from = "gain", to = "offset" },
    { from = "offset", to = "clip" },
    { from = "clip", to = "delay" },
    { from = "delay", to = "table" },
    { from = "table", to = "up" },
    { from = "up", to = "short" },
    { from = "short", to = "down" },
    { from = "down", to = "long" },
    { from = "long", to = "back" },
    { from = "back", to = "fork" },
    { from = "fork:0", to = "add:0" },
    { from = "fork:1", to = "add:1" },
    { from = "add", to = "deal" },
    { from = "deal:0", to = "gather:0" },
    { from = "deal:1", to = "gather:1" },
    { from = "gather", to = "out" },
]
"#;

/// The size of a run: its workers, its periods in a block, and its blocks.
#[derive(Clone, Copy)]
struct Sizes {
    workers: usize,
    blocking: u32,
    blocks: u32,
}

/// The runner of a counted run.
#[derive(Clone, Copy)]
enum CountedRunner {
    One,
    Rows,
    Rings,
}

/// Runs `net` by `runner` on `inputs`.
fn run_by<R: AllocGlobal + Sync + Threads>(
    rt: &R,
    runner: CountedRunner,
    net: &Net<Kit>,
    table: &BlockTable,
    blocks: u32,
    inputs: &[Vec<i32>],
) -> Result<Ran<i32>, RunFault>
    requires fits { IsBlockTableOf (rates (graph_of kit_steps net.now)) table.now }
{
    match runner {
        CountedRunner::One => {
            let periods = table.blocking.saturating_mul(blocks);
            run_one(rt.alloc(), net, &table.period, periods, inputs)
        }
        CountedRunner::Rows => run_rows(rt, net, table, blocks, inputs, &NoGate),
        CountedRunner::Rings => {
            let workers = Workers {
                rt,
                gate: &NoGate,
                patience: 1000,
            };
            run_rings(workers, net, table, blocks, inputs)
        }
    }
}

/// Runs `net` by `runner` between the lines, and returns the number of samples in its first output.
fn run_counted<R: AllocGlobal + Print + Sync + Threads>(
    rt: &R,
    runner: CountedRunner,
    net: &Net<Kit>,
    table: &BlockTable,
    blocks: u32,
    inputs: &[Vec<i32>],
) -> Result<usize>
    requires fits { IsBlockTableOf (rates (graph_of kit_steps net.now)) table.now }
{
    println!(rt; "begin")?;
    let ran = run_by(rt, runner, net, table, blocks, inputs)?;
    println!(rt; "end")?;
    Ok(ran.outputs.first().context("an output")?.len())
}

/// Makes the inputs of `blocks` blocks of `table`, and runs `net` on them by `runner`.
fn run_blocks<R: AllocGlobal + Print + Sync + Threads>(
    rt: &R,
    runner: CountedRunner,
    net: &Net<Kit>,
    table: &BlockTable,
    blocks: u32,
) -> Result<usize>
    requires fits { IsBlockTableOf (rates (graph_of kit_steps net.now)) table.now }
{
    let alloc = rt.alloc();
    let periods = table.blocking.saturating_mul(blocks);
    let samples = net.samples_in().saturating_mul(periods as usize);
    let inputs = vec![in alloc; vec![in alloc; 7; samples]?]?;
    run_counted(rt, runner, net, table, blocks, &inputs)
}

/// Schedules `net` on homed workers, and runs it by `runner`. Returns the number of samples in its first output.
fn run<R: AllocGlobal + Print + Sync + Threads>(
    rt: &R,
    runner: CountedRunner,
    net: &Net<Kit>,
    sizes: Sizes,
) -> Result<usize> {
    let alloc = rt.alloc();
    let Sizes {
        workers,
        blocking,
        blocks,
    } = sizes;
    let graph = net.graph();
    let period = class_s(alloc, graph, net.repetitions(), &mut Round::new())?;
    let costs = Costs::unit(alloc, graph)?;
    let team = Columns {
        workers,
        homed: true,
    };
    let table = hu(alloc, graph, &period, blocking, team, &costs)?;
    let table = BlockTable {
        period,
        blocking,
        table,
    };
    // The answer in `proofs/counting/run` names `made`.
    let made = run_blocks(rt, runner, net, &table, blocks);
    drop(table);
    made
}

/// Reads the chain and runs it by `runner`.
fn run_chain<R: AllocGlobal + Print + Sync + Threads>(
    rt: &R,
    runner: CountedRunner,
    sizes: Sizes,
) -> Result<usize> {
    let design = read_design(rt.alloc(), CHAIN.as_bytes(), &[])?;
    run(rt, runner, design.net(), sizes)
}

/// Returns the design of a chain whose second actor fires `blocks` times for each firing of the first.
fn widening_chain(alloc: Global, blocks: u32) -> Result<Design> {
    let text = format!(in alloc;
        "format = 1
actor = [{{ name = \"in\", kind = \"input\", channel = 0, block = {blocks} }},
    {{ name = \"up\", kind = \"interpolate\", factor = 64 }}, {{ name = \"out\", kind = \"output\", channel = 0 }}]
link = [{{ from = \"in\", to = \"up\" }}, {{ from = \"up\", to = \"out\" }}]
"
    )?;
    Ok(read_design(alloc, text.as_bytes(), &[])?)
}

/// Schedules `net` between the lines, and returns the length of its period.
fn schedule_counted<R: AllocGlobal + Print, P: Pick>(
    rt: &R,
    net: &Net<Kit>,
    pick: &mut P,
) -> Result<usize> {
    println!(rt; "begin")?;
    let period = class_s(rt.alloc(), net.graph(), net.repetitions(), pick)?;
    println!(rt; "end")?;
    Ok(period.order().len())
}

/// Schedules a chain whose second actor fires `blocks` times for each firing of the first. Returns the length of its
/// period.
fn schedule<R: AllocGlobal + Print, P: Pick>(rt: &R, blocks: u32, pick: &mut P) -> Result<usize> {
    let design = widening_chain(rt.alloc(), blocks)?;
    schedule_counted(rt, design.net(), pick)
}

/// Reads the numbers of workers, of periods in a block, and of blocks.
fn sizes_of([workers, blocking, blocks]: [&str; 3]) -> Result<Sizes> {
    Ok(Sizes {
        workers: workers.parse::<usize>().context("workers")?,
        blocking: blocking.parse::<u32>().context("periods")?,
        blocks: blocks.parse::<u32>().context("blocks")?,
    })
}

/// Makes what `what` names: a run by a runner, or a schedule by a policy. `words` are the numbers of workers, of
/// periods in a block, and of blocks.
pub(crate) fn count<R: AllocGlobal + Print + Sync + Threads>(
    rt: &R,
    what: &str,
    words: [&str; 3],
) -> Result<()> {
    let sizes = sizes_of(words)?;
    let made = match what {
        "round" => schedule(rt, sizes.blocks, &mut Round::new()),
        "lean" => schedule(rt, sizes.blocks, &mut Lean),
        "runs" => schedule(rt, sizes.blocks, &mut Runs::new()),
        "one" => run_chain(rt, CountedRunner::One, sizes),
        "rows" => run_chain(rt, CountedRunner::Rows, sizes),
        "rings" => run_chain(rt, CountedRunner::Rings, sizes),
        _ => bail!("there is no such runner or policy"),
    }?;
    Ok(println!(rt; "{made}")?)
}
