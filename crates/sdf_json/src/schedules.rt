//! Schedules as lines.

ghost use Rattle.std.specs.Prelude.{◌≡◌, IfOk, MatchResult, length, string_bytes};
ghost use Rattle.serde_json.specs.Data.{no_members};
ghost use Rattle.serde_json.specs.View.{view, members_view};
ghost use Rattle.sdf_plan.specs.Schedules.{IsDesignScheduleFault};
ghost use Rattle.sdf_json.specs.Values.{with};
ghost use Rattle.sdf_json.specs.Schedules.{options_of, schedule_value, IsScheduleJson};

use crate::tables::{capacities, homed_actors, order_items, rows};
use crate::values::{Members, line_of, put_number, put_text};
use sdf_faults::Fault;
use sdf_file::Design;
use sdf_options::Options;
use sdf_plan::schedule::{DesignSchedule, design_schedule};
use sdf_prec::Table;
use sdf_sched::Period;
use serde_json::{Map, Value, put};
use std::alloc::{AllocError, Global};

/// Returns the members of the `options` that a schedule was asked for with. `analysis_json` and `schedule_json` set
/// their `blocking` to the periods of the block.
pub(crate) fn options_of(alloc: Global, options: &Options) -> Result<Members, AllocError>
    ensures { IfOk result (λ m. members_view m.entries ≡ with no_members (options_of options.now)) }
{
    let mut members = Map::new(alloc);
    put_text(&mut members, alloc, "policy", options.policy.word())?;
    put_text(&mut members, alloc, "placement", options.placement.word())?;
    put_number(&mut members, alloc, "blocking", u64::from(options.blocking))?;
    put_number(&mut members, alloc, "workers", options.workers as u64)?;
    Ok(members)
}

fn schedule_value(
    alloc: Global,
    design: &Design,
    options: &Options,
    period: &Period,
    table: &Table,
) -> Result<Value, AllocError>
    requires fire { length period.now.repetitions ≡ length design.now.net.nodes }
    requires stand { length table.now.homes ≡ length design.now.net.nodes }
    requires capacities { length table.now.caps ≡ length design.now.net.wires }
    ensures { IfOk result (λ v. view v ≡ schedule_value design.now options.now period.now table.now) }
{
    let actors = homed_actors(alloc, design, period, table)?;
    let order = order_items(alloc, design, period.order())?;
    let rows = rows(alloc, design, table)?;
    let links = capacities(alloc, design, table)?;
    let mut members = options_of(alloc, options)?;
    put_number(&mut members, alloc, "period", period.order().len() as u64)?;
    put(&mut members, alloc, "actors", Value::Array(actors))?;
    put(&mut members, alloc, "order", Value::Array(order))?;
    put(&mut members, alloc, "rows", Value::Array(rows))?;
    put(&mut members, alloc, "links", Value::Array(links))?;
    Ok(Value::Object(members))
}

/// Returns the schedule of `design` as a line of JSON: the options, the period with its actors and its order, and the
/// table with its rows and links. The tests are listed at `sdf_plan::schedule::design_schedule`.
pub fn schedule_json(alloc: Global, design: &Design, options: &Options) -> Result<String, Fault>
    ensures { MatchResult result (λ text. IsScheduleJson design.now options.now (string_bytes text))
        (IsDesignScheduleFault design.now options.now) }
{
    let DesignSchedule { period, block } = design_schedule(alloc, design, options)?;
    let placed = options.with_blocking(block.blocking);
    let value = schedule_value(alloc, design, &placed, &period, &block.table)?;
    Ok(line_of(alloc, &value)?)
}
