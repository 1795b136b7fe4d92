//! The bars of a table against time.

ghost use Rattle.std.specs.Prelude.{◌≡◌, ℕ, ◌++◌, ◌<◌, length, slice_index, IfOk, Some};
ghost use Rattle.sdf_prec.specs.declared.firing.Firing.{Firing};
ghost use Rattle.sdf_prec.specs.Tables.{row, cell};
ghost use Rattle.sdf_times.specs.Times.{start_in};
ghost use Rattle.sdf_draw.specs.Bars.{IsDrawable, bar_of, is_continued_by, two_bars, with_bar, with_cell, bars_to};

use sdf_analyze::Figures;
use sdf_prec::{Firing, Table};
use std::alloc::{AllocError, Global};

/// A firing of an actor, or several back to back, from its start to its end.
#[derive(Clone, Copy, Debug, PartialEq, Eq)]
pub(crate) struct Bar {
    pub(crate) actor: usize,
    pub(crate) start: u64,
    pub(crate) end: u64,
}

impl Bar {
    /// Checks whether `other` is of the same actor and begins when this bar ends.
    fn is_continued_by(self, other: Bar) -> bool
        ensures { result ≡ is_continued_by self other }
    {
        self.actor == other.actor && self.end == other.start
    }
}

/// Returns the bar of `firing`.
fn bar_of(figures: &Figures, costs: &[u32], firing: Firing) -> Bar
    requires { IsDrawable costs.now figures.now.starts firing }
    ensures { result ≡ bar_of (slice_index costs.now) (start_in figures.now.starts) firing }
{
    let start = figures.start(firing);
    Bar {
        actor: firing.actor,
        start,
        end: start + u64::from(costs[firing.actor]),
    }
}

/// Adds `last` and `bar`, as one bar if `joined` is set and `bar` goes on with `last`.
fn add_two(bars: &mut Vec<Bar>, joined: bool, last: Bar, bar: Bar) -> Result<(), AllocError>
    ensures { IfOk result (λ _. bars.new.items ≡ bars.old.items ++ two_bars joined last bar) }
{
    if joined && last.is_continued_by(bar) {
        let Bar { actor, start, .. } = last;
        bars.push(Bar {
            actor,
            start,
            end: bar.end,
        })?;
    } else {
        bars.push(last)?;
        bars.push(bar)?;
    }
    Ok(())
}

/// Adds `bar`, or lengthens the last bar if `joined` is set and `bar` goes on with it.
#[tactic(auto, using(crate::proofs::Joined::with_bar_last))]
fn add_bar(bars: &mut Vec<Bar>, joined: bool, bar: Bar) -> Result<(), AllocError>
    ensures { IfOk result (λ _. bars.new.items ≡ with_bar joined bars.old.items bar) }
{
    match bars.pop() {
        Some(last) => add_two(bars, joined, last, bar),
        None => Ok(bars.push(bar)?),
    }
}

/// Adds the bar of the firing in `cell`, if there is one.
fn add_cell(
    bars: &mut Vec<Bar>,
    joined: bool,
    figures: &Figures,
    costs: &[u32],
    cell: Option<Firing>,
) -> Result<(), AllocError>
    requires { (f : Firing) → cell ≡ Some f → IsDrawable costs.now figures.now.starts f }
    ensures { IfOk result (λ _. bars.new.items ≡ with_cell joined
        (bar_of (slice_index costs.now) (start_in figures.now.starts)) bars.old.items cell) }
{
    match cell {
        Some(firing) => add_bar(bars, joined, bar_of(figures, costs, firing)),
        None => Ok(()),
    }
}

/// Returns the bars of `column`.
pub(crate) fn bars_in(
    alloc: Global,
    table: &Table,
    figures: &Figures,
    costs: &[u32],
    column: usize,
    joined: bool,
) -> Result<Vec<Bar>, AllocError>
    requires wide { (i : ℕ) → i < length table.now.rows → column < length (row table.now.rows i) }
    requires each { (i : ℕ) (f : Firing) → cell table.now.rows i column ≡ Some f →
        IsDrawable costs.now figures.now.starts f }
    ensures { IfOk result (λ v. v.items ≡ bars_to joined
        (bar_of (slice_index costs.now) (start_in figures.now.starts)) table.now.rows column (length table.now.rows)) }
{
    let mut bars = Vec::new(alloc);
    for i in 0..table.rows() {
        add_cell(&mut bars, joined, figures, costs, table.row(i)[column])?;
    }
    Ok(bars)
}
