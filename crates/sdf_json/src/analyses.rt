//! Analyses as lines.

ghost use Rattle.std.specs.Prelude.{◌≡◌, ◌<◌, ◌≤◌, ◌∷◌, ◌++◌, [], IfOk, OnOk, MatchResult, length, map, take, codes};
ghost use Rattle.std.specs.Prelude.{string_bytes};
ghost use Rattle.serde_json.specs.View.{view, members_view};
ghost use Rattle.sdf_plan.specs.Schedules.{IsDesignScheduleFault};
ghost use Rattle.sdf_json.specs.Values.{natural, with};
ghost use Rattle.sdf_json.specs.Analyses.{times_of, analysis_value, IsAnalysisJson};

use crate::schedules::options_of;
use crate::tables::capacities;
use crate::values::{Members, line_of, put_number};
use sdf_analyze::{Analysis, Figures, analysis_of};
use sdf_faults::Fault;
use sdf_file::Design;
use sdf_options::Options;
use sdf_prec::Table;
use serde_json::{Value, put};
use std::alloc::{AllocError, Global};

/// Returns the loads of the workers.
fn loads(alloc: Global, figures: &Figures, workers: usize) -> Result<Vec<Value>, AllocError>
    requires { workers ≡ length figures.now.loads }
    ensures { IfOk result (λ list. map view list.items ≡ map natural figures.now.loads) }
{
    let mut list = Vec::new(alloc);
    for worker in 0..workers {
        list.push(Value::from(figures.load(worker)))?;
    }
    Ok(list)
}

/// Adds the makespan, the work, the span, the bound and the speedup in hundredths.
fn put_times(members: &mut Members, alloc: Global, figures: &Figures) -> Result<(), AllocError>
    ensures { OnOk result (members_view members.new.entries ≡
        with (members_view members.old.entries) (times_of figures.now)) }
{
    put_number(members, alloc, "makespan", figures.makespan())?;
    put_number(members, alloc, "work", figures.work())?;
    put_number(members, alloc, "span", figures.span())?;
    put_number(members, alloc, "bound", figures.bound())?;
    put_number(members, alloc, "speedup_hundredths", figures.speedup())
}

fn analysis_value(
    alloc: Global,
    design: &Design,
    options: &Options,
    table: &Table,
    figures: &Figures,
) -> Result<Value, AllocError>
    requires capacities { length table.now.caps ≡ length design.now.net.wires }
    requires workers { options.now.workers ≡ length figures.now.loads }
    ensures { IfOk result (λ v. view v ≡ analysis_value design.now options.now table.now figures.now) }
{
    let loads = loads(alloc, figures, options.workers)?;
    let links = capacities(alloc, design, table)?;
    let mut members = options_of(alloc, options)?;
    put_times(&mut members, alloc, figures)?;
    put(&mut members, alloc, "loads", Value::Array(loads))?;
    put_number(&mut members, alloc, "samples", figures.held())?;
    put(&mut members, alloc, "links", Value::Array(links))?;
    Ok(Value::Object(members))
}

/// Returns the figures of a design's schedule as a line of JSON. They are the options, the makespan, the work, the
/// span, the bound, the speedup in hundredths and the load of each worker. Then come the sum of the links' capacities,
/// in samples, and the links. The tests are listed at `sdf_plan::schedule::design_schedule`.
pub fn analysis_json(alloc: Global, design: &Design, options: &Options) -> Result<String, Fault>
    ensures { MatchResult result (λ text. IsAnalysisJson design.now options.now (string_bytes text))
        (IsDesignScheduleFault design.now options.now) }
{
    let Analysis { block, figures } = analysis_of(alloc, design, options)?;
    let placed = options.with_blocking(block.blocking);
    let value = analysis_value(alloc, design, &placed, &block.table, &figures)?;
    Ok(line_of(alloc, &value)?)
}
