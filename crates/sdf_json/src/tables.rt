//! The parts of a table, as values.

ghost use Rattle.std.specs.Prelude.{◌≡◌, ◌<◌, ◌+◌, ◌≤◌, ◌∷◌, IfOk, length, map, drop, slice_index};
ghost use Rattle.serde_json.specs.View.{view};
ghost use Rattle.sdf_texts.specs.Schedules.{stretches};
ghost use Rattle.sdf_json.specs.Values.{each_to};
ghost use Rattle.sdf_json.specs.Tables.{stretch_value, cell_value, row_value, homed_value, capacity_value};

use crate::designs::ends_of;
use crate::values::{or_null, put_number, put_text};
use sdf_file::Design;
use sdf_prec::{Firing, Table};
use sdf_sched::Period;
use sdf_texts::stretch_at;
use serde_json::{Map, Value, put};
use std::alloc::{AllocError, Global};

fn stretch_value(
    alloc: Global,
    design: &Design,
    actor: usize,
    firings: usize,
) -> Result<Value, AllocError>
    ensures { IfOk result (λ v. view v ≡ stretch_value design.now (record { actor = actor; firings = firings })) }
{
    let mut members = Map::new(alloc);
    put_text(&mut members, alloc, "actor", design.name(actor))?;
    put_number(&mut members, alloc, "firings", firings as u64)?;
    Ok(Value::Object(members))
}

/// Returns an item for each longest stretch of one actor in `order`.
pub(crate) fn order_items(
    alloc: Global,
    design: &Design,
    order: &[usize],
) -> Result<Vec<Value>, AllocError>
    ensures { IfOk result (λ list. map view list.items ≡ map (stretch_value design.now) (stretches order.now)) }
{
    let mut list = Vec::new(alloc);
    let mut at = 0;
    while at < order.len() {
        let firings = stretch_at(order, at);
        list.push(stretch_value(alloc, design, order[at], firings)?)?;
        at += firings;
    }
    Ok(list)
}

fn cell_value(alloc: Global, design: &Design, cell: Option<Firing>) -> Result<Value, AllocError>
    ensures { IfOk result (λ v. view v ≡ cell_value design.now cell) }
{
    let Some(Firing { actor, number }) = cell else {
        return Ok(Value::Null);
    };
    let mut members = Map::new(alloc);
    put_text(&mut members, alloc, "actor", design.name(actor))?;
    put_number(&mut members, alloc, "firing", u64::from(number))?;
    Ok(Value::Object(members))
}

fn cells(alloc: Global, design: &Design, cells: &[Option<Firing>]) -> Result<Vec<Value>, AllocError>
    ensures { IfOk result (λ list. map view list.items ≡ map (cell_value design.now) cells.now) }
{
    let mut list = Vec::new(alloc);
    for cell in cells {
        list.push(cell_value(alloc, design, *cell)?)?;
    }
    Ok(list)
}

pub(crate) fn rows(alloc: Global, design: &Design, table: &Table) -> Result<Vec<Value>, AllocError>
    ensures { IfOk result (λ list. map view list.items ≡ map (row_value design.now) table.now.rows) }
{
    let mut list = Vec::new(alloc);
    for row in 0..table.rows() {
        let cells = cells(alloc, design, table.row(row))?;
        list.push(Value::Array(cells))?;
    }
    Ok(list)
}

/// Returns `actor`, with its firings in a period and its worker.
fn homed_value(
    alloc: Global,
    design: &Design,
    period: &Period,
    table: &Table,
    actor: usize,
) -> Result<Value, AllocError>
    requires fires { actor < length period.now.repetitions }
    requires stands { actor < length table.now.homes }
    ensures { IfOk result (λ v. view v ≡ homed_value design.now period.now table.now actor) }
{
    let firings = period.repetitions()[actor];
    let mut members = Map::new(alloc);
    put_text(&mut members, alloc, "name", design.name(actor))?;
    put_number(&mut members, alloc, "firings", u64::from(firings))?;
    put(&mut members, alloc, "worker", or_null(table.home(actor)))?;
    Ok(Value::Object(members))
}

/// Returns the actors with their firings and workers, in file order.
pub(crate) fn homed_actors(
    alloc: Global,
    design: &Design,
    period: &Period,
    table: &Table,
) -> Result<Vec<Value>, AllocError>
    requires fire { length period.now.repetitions ≡ length design.now.net.nodes }
    requires stand { length table.now.homes ≡ length design.now.net.nodes }
    ensures { IfOk result (λ list. map view list.items ≡
        each_to (homed_value design.now period.now table.now) (length design.now.net.nodes)) }
{
    let mut list = Vec::new(alloc);
    for actor in 0..design.net().len() {
        list.push(homed_value(alloc, design, period, table, actor)?)?;
    }
    Ok(list)
}

/// Returns `link` and its capacity.
fn capacity_value(
    alloc: Global,
    design: &Design,
    table: &Table,
    link: usize,
) -> Result<Value, AllocError>
    requires link { link < length design.now.net.wires }
    requires capacities { length table.now.caps ≡ length design.now.net.wires }
    ensures { IfOk result (λ v. view v ≡ capacity_value design.now table.now.caps link) }
{
    let mut members = ends_of(alloc, design, link)?;
    put_number(&mut members, alloc, "capacity", table.cap(link))?;
    Ok(Value::Object(members))
}

/// Returns the links and their capacities, in file order.
pub(crate) fn capacities(
    alloc: Global,
    design: &Design,
    table: &Table,
) -> Result<Vec<Value>, AllocError>
    requires { length table.now.caps ≡ length design.now.net.wires }
    ensures { IfOk result (λ list. map view list.items ≡
        each_to (capacity_value design.now table.now.caps) (length design.now.net.wires)) }
{
    let mut list = Vec::new(alloc);
    for link in 0..design.net().channels() {
        list.push(capacity_value(alloc, design, table, link)?)?;
    }
    Ok(list)
}
