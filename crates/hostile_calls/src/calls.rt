//! The choice of a call by its name.

ghost use Rattle.sdf_graph.specs.Rates.{rates};
ghost use Rattle.sdf_actor.specs.Graphs.{graph_of};
ghost use Rattle.sdf_kit.specs.Kit.{kit_steps};
ghost use Rattle.sdf_prec.specs.BlockTables.{IsBlockTableOf};
ghost use Rattle.sdf_plan.specs.Plans.{Suits};

use crate::by_hand::finish_twice;
use crate::designs::{files_twice, plan_twice, read_twice};
use crate::files::DesignFiles;
use crate::runs::run_twice;
use crate::sessions::{feed_twice, open_twice};
use crate::sounds::process_twice;
use anyhow::{Result, bail};
use sdf_actor::Net;
use sdf_file::{Design, read_design};
use sdf_kit::Kit;
use sdf_options::Options;
use sdf_plan::Plan;
use sdf_plan::planning::plan;
use sdf_prec::BlockTable;
use std::fs;
use std::rt::Files;
use std::thread::Threads;

/// Makes the call named `call`, which needs a table.
fn make_tabled<R: AllocGlobal + Print + Sync + Threads>(
    rt: &R,
    call: &str,
    net: &Net<Kit>,
    plan: &Plan,
    table: &BlockTable,
) -> Result<()>
    requires fits { IsBlockTableOf (rates (graph_of kit_steps net.now)) table.now }
{
    match call {
        "open" => open_twice(rt, net, plan, table),
        "feed" => feed_twice(rt, net, plan, table),
        "finish" => finish_twice(rt, net, table),
        _ => bail!("there is no such call"),
    }
}

/// Makes the call named `call`, which needs a plan.
fn make_planned<R: AllocGlobal + Files + Print + Sync + Threads>(
    rt: &R,
    call: &str,
    design: &Design,
    plan: &Plan,
    input: &str,
) -> Result<()>
    requires { Suits design.now.net plan.now }
{
    match call {
        "run" => return run_twice(rt, design.net(), plan),
        "process" => return process_twice(rt, design, plan, &fs::read(rt, input)?),
        _ => {}
    }
    match plan.table() {
        Some(table) => make_tabled(rt, call, design.net(), plan, table),
        None => bail!("this call needs workers"),
    }
}

/// Makes the call named `call` on `design`, which it plans by `options`.
fn make_on<R: AllocGlobal + Files + Print + Sync + Threads>(
    rt: &R,
    call: &str,
    design: &Design,
    input: &str,
    options: &Options,
) -> Result<()> {
    let plan = plan(rt.alloc(), design, options)?;
    let made = make_planned(rt, call, design, &plan, input);
    drop(plan);
    made
}

/// Makes the call named `call` with the files and the options of a run.
pub(crate) fn make<R: AllocGlobal + Files + Print + Sync + Threads>(
    rt: &R,
    call: &str,
    sources: &DesignFiles,
    input: &str,
    options: &Options,
) -> Result<()> {
    match call {
        "design_files" => return files_twice(rt, sources),
        "read_design" => return read_twice(rt, sources),
        "plan" => return plan_twice(rt, sources, options),
        _ => {}
    }
    let design = read_design(rt.alloc(), &sources.graph, &sources.files)?;
    make_on(rt, call, &design, input, options)
}
