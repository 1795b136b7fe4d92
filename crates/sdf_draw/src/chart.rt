//! The text of a table against time.

ghost use Rattle.std.specs.Prelude.{◌≡◌, ℕ, ◌<◌, ◌≤◌, ◌*◌, ◌++◌, OnOk, length, string_bytes, codes};
ghost use Rattle.std.specs.List.{flat_map};
ghost use Rattle.sdf_limits.specs.declared.TheConstants.{MAX_WORKERS};
ghost use Rattle.sdf_prec.specs.declared.firing.Firing.{Firing};
ghost use Rattle.sdf_prec.specs.Tables.{row};
ghost use Rattle.sdf_times.specs.Times.{IsInTable};
ghost use Rattle.sdf_draw.specs.Bars.{IsDrawable, AreDrawable, scaled};
ghost use Rattle.sdf_draw.specs.Charts.{rect_text, title_text, bar_text, lane_text, frame_text, rows_text};
ghost use Rattle.sdf_draw.specs.Charts.{lanes_text, worker_text, workers_text, mark_text, label_text, bound_text};
ghost use Rattle.sdf_draw.specs.Charts.{rules_text, makespan_text, axis_text, chart_text};

use crate::bars::{Bar, bars_in};
use crate::texts::{COLOURS, push_name, push_number, push_pair};
use sdf_analyze::Figures;
use sdf_file::Design;
use sdf_prec::Table;
use std::alloc::{AllocError, Global};

/// The width of the makespan.
pub(crate) const CHART: u64 = 1100;

/// The distance from one worker's lane to the next.
pub(crate) const ROW: u64 = 30;

/// The most firings of a table that are drawn as separate bars. If it has more, adjacent bars of an actor are joined.
const MAX_BARS: usize = 400;

/// Returns the distance of `time` from the left, when the makespan is as wide as the chart.
fn scaled(time: u64, makespan: u64) -> u128
    ensures { result ≡ scaled time makespan }
{
    (u128::from(time) * u128::from(CHART))
        .checked_div(u128::from(makespan))
        .unwrap_or(0)
}

/// Adds the beginning of a bar in `colour`: its `start` and its `width` as times, and its `y`. Its title follows.
#[tactic(auto, unfolding(crate::specs::Charts::rect_text))]
fn push_rect(
    text: &mut String,
    colour: usize,
    start: u64,
    width: u64,
    y: u64,
) -> Result<(), AllocError>
    ensures { OnOk result (string_bytes text.new ≡ string_bytes text.old ++ rect_text colour start width y) }
{
    push_number(text, "<rect class='f", colour as u64)?;
    push_number(text, "' x='", start)?;
    push_number(text, "' width='", width)?;
    push_number(text, "' y='", y)?;
    text.push_str("' height='22'><title>")
}

/// Adds the title of a bar, which is the name of its actor and its times, and ends the bar.
#[tactic(auto, unfolding(crate::specs::Charts::title_text))]
fn push_title(
    text: &mut String,
    design: &Design,
    actor: usize,
    start: u64,
    end: u64,
) -> Result<(), AllocError>
    ensures { OnOk result (string_bytes text.new ≡ string_bytes text.old ++ title_text design.now actor start end) }
{
    push_name(text, design, actor)?;
    push_pair(text, " ", start, " to ", end)?;
    text.push_str("</title></rect>\n")
}

/// Adds a bar of `worker`. Its position and its width are times.
fn push_bar(text: &mut String, design: &Design, worker: usize, bar: Bar) -> Result<(), AllocError>
    requires { worker < MAX_WORKERS }
    ensures { OnOk result (string_bytes text.new ≡ string_bytes text.old ++ bar_text design.now worker bar) }
{
    let Bar { actor, start, end } = bar;
    let y = ROW * worker as u64 + 4;
    push_rect(text, actor % COLOURS, start, end.saturating_sub(start), y)?;
    push_title(text, design, actor, start, end)
}

/// Adds these `bars` of `worker`.
fn push_bars(
    text: &mut String,
    design: &Design,
    worker: usize,
    bars: &[Bar],
) -> Result<(), AllocError>
    requires { worker < MAX_WORKERS }
    ensures { OnOk result (string_bytes text.new ≡
        string_bytes text.old ++ flat_map (bar_text design.now worker) bars.now) }
{
    for bar in bars {
        push_bar(text, design, worker, *bar)?;
    }
    Ok(())
}

/// Adds the bars of all firings of `worker`.
#[tactic(auto, unfolding(crate::specs::Charts::lane_text))]
fn push_lane(
    alloc: Global,
    text: &mut String,
    design: &Design,
    table: &Table,
    figures: &Figures,
    worker: usize,
) -> Result<(), AllocError>
    requires few { worker < MAX_WORKERS }
    requires wide { (i : ℕ) → i < length table.now.rows → worker < length (row table.now.rows i) }
    requires each { (f : Firing) → IsInTable table.now.rows f →
        IsDrawable design.now.costs figures.now.starts f }
    ensures { OnOk result (string_bytes text.new ≡
        string_bytes text.old ++ lane_text design.now table.now figures.now.starts worker) }
{
    let joined = table.order().len() > MAX_BARS;
    let bars = bars_in(alloc, table, figures, design.costs(), worker, joined)?;
    push_bars(text, design, worker, bars.as_slice())
}

/// Adds the beginning of the bars' frame, which scales the makespan to the width of the chart.
#[tactic(auto, unfolding(crate::specs::Charts::frame_text))]
fn push_frame(text: &mut String, makespan: u64, end: u64) -> Result<(), AllocError>
    ensures { OnOk result (string_bytes text.new ≡ string_bytes text.old ++ frame_text makespan end) }
{
    push_number(text, "<svg preserveAspectRatio='none' width='", CHART)?;
    push_number(text, "' height='", end)?;
    push_number(text, "' viewBox='0 0 ", makespan)?;
    push_number(text, " ", end)?;
    text.push_str("'>\n")
}

/// Adds the bars of each worker.
fn push_rows(
    alloc: Global,
    text: &mut String,
    design: &Design,
    table: &Table,
    figures: &Figures,
    workers: usize,
) -> Result<(), AllocError>
    requires few { workers ≤ MAX_WORKERS }
    requires bars { AreDrawable design.now workers table.now figures.now.starts }
    ensures { OnOk result (string_bytes text.new ≡
        string_bytes text.old ++ rows_text design.now table.now figures.now.starts workers) }
{
    for worker in 0..workers {
        push_lane(alloc, text, design, table, figures, worker)?;
    }
    Ok(())
}

/// Adds the bars of all workers, in units of time.
fn push_lanes(
    alloc: Global,
    text: &mut String,
    design: &Design,
    table: &Table,
    figures: &Figures,
    workers: usize,
) -> Result<(), AllocError>
    requires few { workers ≤ MAX_WORKERS }
    requires bars { AreDrawable design.now workers table.now figures.now.starts }
    ensures { OnOk result (string_bytes text.new ≡
        string_bytes text.old ++ lanes_text design.now table.now figures.now workers) }
{
    push_frame(text, figures.makespan(), ROW * workers as u64)?;
    push_rows(alloc, text, design, table, figures, workers)?;
    text.push_str("</svg>\n")
}

/// Adds the name of the lane of `worker`, and a line under it.
#[tactic(auto, unfolding(crate::specs::Charts::worker_text))]
fn push_worker(text: &mut String, worker: usize) -> Result<(), AllocError>
    requires { worker < MAX_WORKERS }
    ensures { OnOk result (string_bytes text.new ≡ string_bytes text.old ++ worker_text worker) }
{
    let below = ROW * worker as u64 + ROW;
    push_number(text, "<text class='end' x='-10' y='", below - 10)?;
    push_number(text, "'>worker ", worker as u64)?;
    push_number(text, "</text><path class='rule' d='M0 ", below)?;
    push_number(text, " H", CHART)?;
    text.push_str("'/>\n")
}

/// Adds the names of all lanes.
fn push_workers(text: &mut String, workers: usize) -> Result<(), AllocError>
    requires { workers ≤ MAX_WORKERS }
    ensures { OnOk result (string_bytes text.new ≡ string_bytes text.old ++ workers_text workers) }
{
    for worker in 0..workers {
        push_worker(text, worker)?;
    }
    Ok(())
}

/// Adds a vertical line at x `place`, down to y `end`.
#[tactic(auto, unfolding(crate::specs::Charts::mark_text))]
fn push_mark(text: &mut String, place: u128, end: u64) -> Result<(), AllocError>
    ensures { OnOk result (string_bytes text.new ≡ string_bytes text.old ++ mark_text place end) }
{
    write!(text, "<path class='bound' d='M{place} -8 V{end}'/>")
}

/// Adds the `bound` above its line.
#[tactic(auto, unfolding(crate::specs::Charts::label_text))]
fn push_label(text: &mut String, place: u128, bound: u64) -> Result<(), AllocError>
    ensures { OnOk result (string_bytes text.new ≡ string_bytes text.old ++ label_text place bound) }
{
    write!(text, "<text class='end' x='{place}")?;
    push_number(text, "' y='-12'>bound ", bound)?;
    text.push_str("</text>\n")
}

/// Adds the line of the bound, with its number.
fn push_bound(text: &mut String, figures: &Figures, end: u64) -> Result<(), AllocError>
    ensures { OnOk result (string_bytes text.new ≡ string_bytes text.old ++ bound_text figures.now end) }
{
    let place = scaled(figures.bound(), figures.makespan());
    push_mark(text, place, end)?;
    push_label(text, place, figures.bound())
}

/// Adds a line at each end of the times.
#[tactic(auto, unfolding(crate::specs::Charts::rules_text))]
fn push_rules(text: &mut String, end: u64) -> Result<(), AllocError>
    ensures { OnOk result (string_bytes text.new ≡ string_bytes text.old ++ rules_text end) }
{
    write!(
        text,
        "<path class='rule' d='M0 0 V{end} M{CHART} 0 V{end}'/>"
    )
}

/// Adds the `makespan` at the right end of the times.
#[tactic(auto, unfolding(crate::specs::Charts::makespan_text))]
fn push_makespan(text: &mut String, makespan: u64, y: u64) -> Result<(), AllocError>
    ensures { OnOk result (string_bytes text.new ≡ string_bytes text.old ++ makespan_text makespan y) }
{
    write!(
        text,
        "<text class='end' x='{CHART}' y='{y}'>makespan {makespan}</text>\n"
    )
}

/// Adds the times at both ends.
fn push_axis(text: &mut String, makespan: u64, end: u64) -> Result<(), AllocError>
    requires { end < 100000 }
    ensures { OnOk result (string_bytes text.new ≡ string_bytes text.old ++ axis_text makespan end) }
{
    push_rules(text, end)?;
    let below = end + 16;
    write!(text, "<text y='{below}'>0</text>")?;
    push_makespan(text, makespan, below)
}

/// Adds the chart of `table` against time.
pub(crate) fn push_chart(
    alloc: Global,
    text: &mut String,
    design: &Design,
    table: &Table,
    figures: &Figures,
    workers: usize,
) -> Result<(), AllocError>
    requires few { workers ≤ MAX_WORKERS }
    requires bars { AreDrawable design.now workers table.now figures.now.starts }
    ensures { OnOk result (string_bytes text.new ≡
        string_bytes text.old ++ chart_text design.now table.now figures.now workers) }
{
    let end = ROW * workers as u64;
    push_workers(text, workers)?;
    push_lanes(alloc, text, design, table, figures, workers)?;
    push_axis(text, figures.makespan(), end)?;
    push_bound(text, figures, end)
}
