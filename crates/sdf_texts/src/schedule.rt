//! The text of a schedule.
ghost use Rattle.std.specs.Prelude.{◌≡◌, ◌+◌, ◌≤◌, ◌<◌, ◌++◌, ◌∷◌, IfOk, OnOk, length, drop, slice_index, string_bytes};
ghost use Rattle.std.specs.Prelude.{codes, MatchResult};
ghost use Rattle.std.specs.List.{flat_map, range_with_len};
ghost use Rattle.sdf_actor.specs.Nets.{wire};
ghost use Rattle.sdf_texts.specs.Schedules.{stretches, stretch_text, order_items, order_line, cell_text};
ghost use Rattle.sdf_texts.specs.Schedules.{row_line, end_text, link_text, capacity_line, blocking_of, workers_of};
ghost use Rattle.sdf_texts.specs.Schedules.{size_lines, table_text, schedule_text, IsScheduleText};
ghost use Rattle.sdf_texts.specs.Schedules.{IsShown};
ghost use Rattle.sdf_plan.specs.Schedules.{IsDesignScheduleFault};

use crate::texts::push_period;
use sdf_faults::Fault;
use sdf_file::Design;
use sdf_graph::Repetitions;
use sdf_options::Options;
use sdf_plan::schedule::{DesignSchedule, design_schedule};
use sdf_prec::{Firing, Table};
use sdf_sched::Period;
use std::alloc::{AllocError, Global};

/// Returns the number of consecutive firings of one actor in `order`, from position `at` on.
pub fn stretch_at(order: &[usize], at: usize) -> usize
    requires { at < length order.now }
    ensures stretch { stretches (drop at order.now) ≡
        record { actor = slice_index order.now at; firings = result } ∷ stretches (drop (at + result) order.now) }
    ensures some { 0 < result }
    ensures within { at + result ≤ length order.now }
{
    let actor = order[at];
    let mut past = at + 1;
    while past < order.len() && actor == order[past] {
        past += 1;
    }
    past - at
}

fn push_stretch(
    text: &mut String,
    design: &Design,
    actor: usize,
    firings: usize,
) -> Result<(), AllocError>
    ensures { OnOk result (string_bytes text.new ≡
        string_bytes text.old ++ codes " " ++ stretch_text design.now (record { actor = actor; firings = firings })) }
{
    let name = design.name(actor);
    if firings == 1 {
        write!(text, " {name}")?;
    } else {
        write!(text, " {firings}*{name}")?;
    }
    Ok(())
}

/// Adds an item for each longest stretch of firings of one actor.
fn push_items(text: &mut String, design: &Design, order: &[usize]) -> Result<(), AllocError>
    ensures { OnOk result (string_bytes text.new ≡ string_bytes text.old ++ order_items design.now order.now) }
{
    let mut at = 0;
    while at < order.len() {
        let firings = stretch_at(order, at);
        push_stretch(text, design, order[at], firings)?;
        at += firings;
    }
    Ok(())
}

/// Adds the line of `order`.
fn push_order(text: &mut String, design: &Design, order: &[usize]) -> Result<(), AllocError>
    ensures { OnOk result (string_bytes text.new ≡ string_bytes text.old ++ order_line design.now order.now) }
{
    text.push_str("order")?;
    push_items(text, design, order)?;
    text.push_str("\n")
}

fn push_cell(text: &mut String, design: &Design, cell: Option<Firing>) -> Result<(), AllocError>
    ensures { OnOk result (string_bytes text.new ≡ string_bytes text.old ++ codes " " ++ cell_text design.now cell) }
{
    match cell {
        Some(Firing { actor, number }) => {
            let name = design.name(actor);
            write!(text, " {name}.{number}")?;
        }
        None => text.push_str(" -")?,
    }
    Ok(())
}

/// Adds the line of a row with these `cells`.
fn push_row(text: &mut String, design: &Design, cells: &[Option<Firing>]) -> Result<(), AllocError>
    ensures { OnOk result (string_bytes text.new ≡ string_bytes text.old ++ row_line design.now cells.now) }
{
    text.push_str("row")?;
    for cell in cells {
        push_cell(text, design, *cell)?;
    }
    text.push_str("\n")
}

/// Adds a line for each row of `table`.
fn push_rows(text: &mut String, design: &Design, table: &Table) -> Result<(), AllocError>
    ensures { OnOk result (string_bytes text.new ≡
        string_bytes text.old ++ flat_map (row_line design.now) table.now.rows) }
{
    for row in 0..table.rows() {
        push_row(text, design, table.row(row))?;
    }
    Ok(())
}

/// Returns the ends of `link`, each an actor and a port.
fn ends_of(design: &Design, link: usize) -> ((usize, usize), (usize, usize))
    requires { link < length design.now.net.wires }
    ensures from { result.0 ≡ (wire design.now.net link).from }
    ensures to { result.1 ≡ (wire design.now.net link).to }
{
    let link = design.net().link(link);
    (link.from, link.to)
}

/// Adds an end of a link: its actor's name and its port.
fn push_end(text: &mut String, design: &Design, end: (usize, usize)) -> Result<(), AllocError>
    ensures { OnOk result (string_bytes text.new ≡ string_bytes text.old ++ end_text design.now end) }
{
    let (actor, port) = end;
    let name = design.name(actor);
    write!(text, "{name}:{port}")?;
    Ok(())
}

/// Adds the ends of `link`, its source first, each as its actor's name and its port.
pub fn push_link(text: &mut String, design: &Design, link: usize) -> Result<(), AllocError>
    requires { link < length design.now.net.wires }
    ensures { OnOk result (string_bytes text.new ≡ string_bytes text.old ++ link_text design.now link) }
{
    let (from, to) = ends_of(design, link);
    push_end(text, design, from)?;
    text.push_str(" ")?;
    push_end(text, design, to)
}

/// Adds the line of the capacity of `link`.
fn push_capacity(
    text: &mut String,
    design: &Design,
    table: &Table,
    link: usize,
) -> Result<(), AllocError>
    requires link { link < length design.now.net.wires }
    requires capacities { length table.now.caps ≡ length design.now.net.wires }
    ensures { OnOk result (string_bytes text.new ≡
        string_bytes text.old ++ capacity_line design.now table.now.caps link) }
{
    let capacity = table.cap(link);
    text.push_str("capacity ")?;
    push_link(text, design, link)?;
    writeln!(text, " {capacity}")?;
    Ok(())
}

/// Adds a line for the capacity of each link, in file order.
fn push_capacities(text: &mut String, design: &Design, table: &Table) -> Result<(), AllocError>
    requires { length table.now.caps ≡ length design.now.net.wires }
    ensures { OnOk result (string_bytes text.new ≡
        string_bytes text.old ++ flat_map (capacity_line design.now table.now.caps)
        (range_with_len 0 (length design.now.net.wires))) }
{
    for link in 0..design.net().channels() {
        push_capacity(text, design, table, link)?;
    }
    Ok(())
}

/// Returns the number of periods in the block of `table`, by the length of a period's `order`.
fn blocking_of(order: &[usize], table: &Table) -> usize
    ensures { result ≡ blocking_of order.now table.now }
{
    table.order().len().checked_div(order.len()).unwrap_or(0)
}

/// Returns the number of processors of `table`: the cells of its first row, or 0 if it has no rows.
fn workers_of(table: &Table) -> usize
    ensures { result ≡ workers_of table.now }
{
    if table.rows() == 0 {
        return 0;
    }
    table.row(0).len()
}

/// Adds the sizes of `table`: the periods of its block, its processors and its rows.
fn push_sizes(text: &mut String, order: &[usize], table: &Table) -> Result<(), AllocError>
    ensures { OnOk result (string_bytes text.new ≡ string_bytes text.old ++ size_lines order.now table.now) }
{
    let blocking = blocking_of(order, table);
    let workers = workers_of(table);
    let rows = table.rows();
    writeln!(text, "blocking {blocking}\nworkers {workers}\nrows {rows}")?;
    Ok(())
}

/// Adds `table`: its sizes, its rows and the capacities of the links.
fn push_table(
    text: &mut String,
    design: &Design,
    order: &[usize],
    table: &Table,
) -> Result<(), AllocError>
    requires { length table.now.caps ≡ length design.now.net.wires }
    ensures { OnOk result (string_bytes text.new ≡ string_bytes text.old ++ table_text design.now order.now table.now) }
{
    push_sizes(text, order, table)?;
    push_rows(text, design, table)?;
    push_capacities(text, design, table)
}

fn text_with(
    alloc: Global,
    design: &Design,
    repetitions: &Repetitions,
    order: &[usize],
    table: &Table,
) -> Result<String, AllocError>
    requires all { length repetitions.now ≡ length design.now.net.nodes }
    requires capacities { length table.now.caps ≡ length design.now.net.wires }
    ensures { IfOk result (λ s. string_bytes s ≡ schedule_text design.now repetitions.now order.now table.now) }
{
    let mut text = String::new(alloc);
    push_period(&mut text, design, repetitions)?;
    push_order(&mut text, design, order)?;
    push_table(&mut text, design, order, table)?;
    Ok(text)
}

/// Returns the text of a schedule: the repetition vector, the order of a period's firings, and `table`.
///
/// The text of the table has the periods of its block, its processors, the firings of each row, and the capacity of
/// each link.
pub fn schedule_text(
    alloc: Global,
    design: &Design,
    period: &Period,
    table: &Table,
) -> Result<String, AllocError>
    requires { length table.now.caps ≡ length design.now.net.wires }
    ensures { IfOk result (λ s. IsScheduleText design.now period.now.order table.now (string_bytes s)) }
{
    let repetitions = design.net().repetitions();
    Ok(text_with(alloc, design, repetitions, period.order(), table)?)
}

/// Returns what the command `schedule` prints: the order by the policy, and the table by the placement. Its tests are
/// the tests of `design_schedule`.
pub fn schedule(alloc: Global, design: &Design, options: &Options) -> Result<String, Fault>
    ensures { MatchResult result (λ s. IsShown design.now options.now (string_bytes s))
        (IsDesignScheduleFault design.now options.now) }
{
    let DesignSchedule { period, block } = design_schedule(alloc, design, options)?;
    Ok(schedule_text(alloc, design, &period, &block.table)?)
}
