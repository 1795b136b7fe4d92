//! The columns of a comparison.

ghost use Rattle.std.specs.Prelude.{◌≡◌, ◌++◌, ◌-◌, IfOk, OnOk, length, string_bytes, codes};
ghost use Rattle.std.specs.List.{flat_map};
ghost use Rattle.sdf_analyze.specs.Columns.{spaces, left, right, value_in, is_better, is_unbeaten};
ghost use Rattle.sdf_analyze.specs.Columns.{is_best, value_text, width_of, heading, cell, outcome_text, way_text};
ghost use Rattle.sdf_analyze.specs.Columns.{cells_text, blocking_text, made_text, refused_text, entry_line, head_line};
ghost use Rattle.sdf_analyze.specs.Columns.{headings_text, comparison_text};

use crate::lines::push_with_point;
use sdf_options::Options;
use std::alloc::{AllocError, Global};

/// A column of the comparison of schedules.
#[derive(Clone, Copy)]
pub(crate) enum Column {
    Makespan,
    Speedup,
    Rows,
    Samples,
}

/// The periods of a block, and its schedule's value in each column. The speedup is in hundredths.
#[derive(Clone, Copy)]
pub struct Measures {
    pub blocking: u32,
    pub makespan: u64,
    pub speedup: u64,
    pub rows: usize,
    pub held: u64,
}

/// The values of a schedule, or the number of the fault that refuses it.
#[derive(Clone, Copy)]
pub enum Outcome {
    Made(Measures),
    Refused(u32),
}

/// A line of a comparison: options, and the outcome of the schedule that they ask for.
#[derive(Clone, Copy)]
pub struct Entry {
    pub options: Options,
    pub outcome: Outcome,
}

impl Column {
    /// Returns the value of a schedule with these `measures` in this column.
    fn value_in(self, measures: Measures) -> u64
        ensures { result ≡ value_in self measures }
    {
        match self {
            Column::Makespan => measures.makespan,
            Column::Speedup => measures.speedup,
            Column::Rows => measures.rows as u64,
            Column::Samples => measures.held,
        }
    }

    /// Checks whether schedule `one` is better in this column than schedule `other`. Except for speedups, blocks are
    /// compared only if they have equal numbers of periods.
    fn is_better(self, one: Measures, other: Measures) -> bool
        ensures { result ≡ is_better self one other }
    {
        match self {
            Column::Speedup => other.speedup < one.speedup,
            _ => one.blocking == other.blocking && self.value_in(one) < self.value_in(other),
        }
    }

    /// Checks whether an entry's schedule, if it has one, is not better in this column than `measures`.
    fn is_unbeaten(self, measures: Measures, outcome: Outcome) -> bool
        ensures { result ≡ is_unbeaten self measures outcome }
    {
        match outcome {
            Outcome::Made(other) => !self.is_better(other, measures),
            Outcome::Refused(_) => true,
        }
    }

    /// Checks whether no schedule among `entries` is better in this column than `measures`.
    fn is_best(self, entries: &[Entry], measures: Measures) -> bool
        ensures { result ≡ is_best entries.now self measures }
    {
        entries
            .iter()
            .all(|entry| self.is_unbeaten(measures, entry.outcome))
    }

    fn width(self) -> usize
        ensures { result ≡ width_of self }
    {
        match self {
            Column::Makespan => 13,
            Column::Speedup => 9,
            Column::Rows => 8,
            Column::Samples => 15,
        }
    }

    fn heading(self) -> &'static str
        ensures { result.now ≡ heading self }
    {
        match self {
            Column::Makespan => "makespan",
            Column::Speedup => "speedup",
            Column::Rows => "rows",
            Column::Samples => "samples",
        }
    }
}

/// The columns in their order.
const COLUMNS: [Column; 4] = [
    Column::Makespan,
    Column::Speedup,
    Column::Rows,
    Column::Samples,
];

fn push_spaces(text: &mut String, count: usize) -> Result<(), AllocError>
    ensures { OnOk result (string_bytes text.new ≡ string_bytes text.old ++ spaces count) }
{
    for _ in 0..count {
        text.push_str(" ")?;
    }
    Ok(())
}

/// Adds `word`, padded with spaces on its right to `width` bytes.
fn push_left(text: &mut String, width: usize, word: &str) -> Result<(), AllocError>
    ensures { OnOk result (string_bytes text.new ≡ string_bytes text.old ++ left width word.now) }
{
    text.push_str(word)?;
    push_spaces(text, width.saturating_sub(word.len()))
}

/// Adds `word`, padded with spaces on its left to `width` bytes.
fn push_right(text: &mut String, width: usize, word: &str) -> Result<(), AllocError>
    ensures { OnOk result (string_bytes text.new ≡ string_bytes text.old ++ right width word.now) }
{
    push_spaces(text, width.saturating_sub(word.len()))?;
    text.push_str(word)
}

/// Adds the value of `measures` in `column`.
fn push_value(text: &mut String, measures: Measures, column: Column) -> Result<(), AllocError>
    ensures { OnOk result (string_bytes text.new ≡ string_bytes text.old ++ value_text column measures) }
{
    match column {
        Column::Speedup => push_with_point(text, measures.speedup),
        _ => {
            let value = column.value_in(measures);
            write!(text, "{value}")?;
            Ok(())
        }
    }
}

/// Adds the cell of `column` for `measures`, with a star if no entry is better.
#[tactic(auto, unfolding(crate::specs::Columns::cell))]
fn push_cell(
    alloc: Global,
    text: &mut String,
    entries: &[Entry],
    measures: Measures,
    column: Column,
) -> Result<(), AllocError>
    ensures { OnOk result (string_bytes text.new ≡ string_bytes text.old ++ cell entries.now measures column) }
{
    let mut word = String::new(alloc);
    if column.is_best(entries, measures) {
        word.push_str("*")?;
    }
    push_value(&mut word, measures, column)?;
    push_right(text, column.width(), word.as_str())
}

/// Adds the cells of all columns for `measures`.
fn push_cells(
    alloc: Global,
    text: &mut String,
    entries: &[Entry],
    measures: Measures,
) -> Result<(), AllocError>
    ensures { OnOk result (string_bytes text.new ≡ string_bytes text.old ++ cells_text entries.now measures) }
{
    for column in COLUMNS {
        push_cell(alloc, text, entries, measures, column)?;
    }
    Ok(())
}

/// Adds `word` in the column of a block's periods.
fn push_blocking(text: &mut String, word: &str) -> Result<(), AllocError>
    ensures { OnOk result (string_bytes text.new ≡ string_bytes text.old ++ blocking_text word.now) }
{
    push_right(text, 9, word)
}

/// Adds the periods of a schedule's block, and its cells.
#[tactic(auto, unfolding(crate::specs::Columns::made_text))]
fn push_made(
    alloc: Global,
    text: &mut String,
    entries: &[Entry],
    measures: Measures,
) -> Result<(), AllocError>
    ensures { OnOk result (string_bytes text.new ≡ string_bytes text.old ++ made_text entries.now measures) }
{
    let blocking = measures.blocking;
    let word = format!(in alloc; "{blocking}")?;
    push_blocking(text, word.as_str())?;
    push_cells(alloc, text, entries, measures)
}

/// Adds a refused schedule: no periods, `word` in the column of the makespan, and then the `number` of the fault.
#[tactic(auto, unfolding(crate::specs::Columns::refused_text))]
fn push_refused(text: &mut String, word: &str, number: u32) -> Result<(), AllocError>
    ensures { OnOk result (string_bytes text.new ≡ string_bytes text.old ++ refused_text word.now number) }
{
    push_blocking(text, "")?;
    push_right(text, Column::Makespan.width(), word)?;
    write!(text, " {number}")?;
    Ok(())
}

/// Adds the part of a line behind its options.
fn push_outcome(
    alloc: Global,
    text: &mut String,
    entries: &[Entry],
    outcome: Outcome,
) -> Result<(), AllocError>
    ensures { OnOk result (string_bytes text.new ≡ string_bytes text.old ++ outcome_text entries.now outcome) }
{
    match outcome {
        Outcome::Made(measures) => push_made(alloc, text, entries, measures),
        Outcome::Refused(number) => push_refused(text, "refused", number),
    }
}

/// Adds the part of a line that names its options.
fn push_way(
    text: &mut String,
    policy: &str,
    placement: &str,
    workers: &str,
) -> Result<(), AllocError>
    ensures { OnOk result (string_bytes text.new ≡
        string_bytes text.old ++ way_text policy.now placement.now workers.now) }
{
    push_left(text, 7, policy)?;
    push_left(text, 10, placement)?;
    push_right(text, 7, workers)
}

/// Adds the line of `entry`.
#[tactic(auto, unfolding(crate::specs::Columns::entry_line))]
fn push_entry(
    alloc: Global,
    text: &mut String,
    entries: &[Entry],
    entry: Entry,
) -> Result<(), AllocError>
    ensures { OnOk result (string_bytes text.new ≡ string_bytes text.old ++ entry_line entries.now entry) }
{
    let Entry { options, outcome } = entry;
    let workers = options.workers;
    let workers = format!(in alloc; "{workers}")?;
    push_way(
        text,
        options.policy.word(),
        options.placement.word(),
        workers.as_str(),
    )?;
    push_outcome(alloc, text, entries, outcome)?;
    text.push_str("\n")
}

/// Adds the headings of the columns.
fn push_headings(text: &mut String) -> Result<(), AllocError>
    ensures { OnOk result (string_bytes text.new ≡ string_bytes text.old ++ headings_text) }
{
    for column in COLUMNS {
        push_right(text, column.width(), column.heading())?;
    }
    Ok(())
}

/// Adds the line of headings.
fn push_head(text: &mut String) -> Result<(), AllocError>
    ensures { OnOk result (string_bytes text.new ≡ string_bytes text.old ++ head_line) }
{
    push_way(text, "policy", "placement", "workers")?;
    push_blocking(text, "blocking")?;
    push_headings(text)?;
    text.push_str("\n")
}

/// Returns a table with a line for each of `entries`. A star marks the best of each column, or each of them if several
/// are equally good. Makespans, rows and samples are compared only among blocks of equally many periods.
pub fn comparison_text(alloc: Global, entries: &[Entry]) -> Result<String, AllocError>
    ensures { IfOk result (λ s. string_bytes s ≡ comparison_text entries.now) }
{
    let mut text = String::new(alloc);
    push_head(&mut text)?;
    for entry in entries {
        push_entry(alloc, &mut text, entries, *entry)?;
    }
    Ok(text)
}
