//! The lines of a table's figures.

ghost use Rattle.std.specs.Prelude.{◌≡◌, ◌++◌, ◌<◌, IfOk, OnOk, length, slice_index, string_bytes, codes};
ghost use Rattle.sdf_analyze.specs.Texts.{hundredths, with_point, number_line, time_lines, speedup_line, worker_line};
ghost use Rattle.sdf_analyze.specs.Texts.{lines_to, samples_text, link_held_line, held_line, analysis_text};

use crate::figures::Figures;
use sdf_file::Design;
use sdf_prec::Table;
use sdf_texts::push_link;
use std::alloc::{AllocError, Global};

/// The bytes of a sample on a link. Samples have 32 bits.
pub const SAMPLE_BYTES: u32 = 4;

/// Returns `part` in hundredths of `whole`, rounded down, or 0 if `whole` is 0.
fn hundredths(part: u64, whole: u64) -> u128
    ensures { result ≡ hundredths part whole }
{
    (u128::from(part) * 100)
        .checked_div(u128::from(whole))
        .unwrap_or(0)
}

/// Adds a number of `hundredths` as a decimal number with two digits behind the point.
pub(crate) fn push_with_point(text: &mut String, hundredths: u64) -> Result<(), AllocError>
    ensures { OnOk result (string_bytes text.new ≡ string_bytes text.old ++ with_point hundredths) }
{
    let whole = hundredths / 100;
    let tenths = hundredths / 10 % 10;
    let rest = hundredths % 10;
    write!(text, "{whole}.{tenths}{rest}")?;
    Ok(())
}

/// Adds a line of `word` and `number`.
fn push_number(text: &mut String, word: &str, number: u64) -> Result<(), AllocError>
    ensures { OnOk result (string_bytes text.new ≡ string_bytes text.old ++ number_line word.now number) }
{
    writeln!(text, "{word} {number}")?;
    Ok(())
}

/// Adds the lines of the makespan, the work, the span and the bound.
#[tactic(auto, unfolding(crate::specs::Texts::time_lines))]
fn push_times(text: &mut String, figures: &Figures) -> Result<(), AllocError>
    ensures { OnOk result (string_bytes text.new ≡ string_bytes text.old ++ time_lines figures.now) }
{
    push_number(text, "makespan", figures.makespan())?;
    push_number(text, "work", figures.work())?;
    push_number(text, "span", figures.span())?;
    push_number(text, "bound", figures.bound())
}

/// Adds the line of the speedup on `workers` workers.
#[tactic(auto, unfolding(crate::specs::Texts::speedup_line))]
fn push_speedup(text: &mut String, figures: &Figures, workers: usize) -> Result<(), AllocError>
    requires { workers ≡ length figures.now.loads }
    ensures { OnOk result (string_bytes text.new ≡ string_bytes text.old ++ speedup_line figures.now) }
{
    text.push_str("speedup ")?;
    push_with_point(text, figures.speedup())?;
    writeln!(text, " of {workers}")?;
    Ok(())
}

/// Adds the line of `worker`: the part of the makespan in which it fires, in percent.
fn push_worker(text: &mut String, figures: &Figures, worker: usize) -> Result<(), AllocError>
    requires { worker < length figures.now.loads }
    ensures { OnOk result (string_bytes text.new ≡ string_bytes text.old ++ worker_line figures.now worker) }
{
    let share = hundredths(figures.load(worker), figures.makespan());
    writeln!(text, "worker {worker} {share} %")?;
    Ok(())
}

/// Adds the lines of the workers.
fn push_workers(text: &mut String, figures: &Figures, workers: usize) -> Result<(), AllocError>
    requires { workers ≡ length figures.now.loads }
    ensures { OnOk result (string_bytes text.new ≡
        string_bytes text.old ++ lines_to (worker_line figures.now) (length figures.now.loads)) }
{
    for worker in 0..workers {
        push_worker(text, figures, worker)?;
    }
    Ok(())
}

/// Adds a number of `samples` and their size in bytes.
fn push_samples(text: &mut String, samples: u64) -> Result<(), AllocError>
    ensures { OnOk result (string_bytes text.new ≡ string_bytes text.old ++ samples_text samples) }
{
    let bytes = u128::from(samples) * u128::from(SAMPLE_BYTES);
    writeln!(text, "{samples}, {bytes} bytes")?;
    Ok(())
}

/// Adds the line of the samples that all links can hold together.
#[tactic(auto, unfolding(crate::specs::Texts::held_line))]
fn push_held(text: &mut String, figures: &Figures) -> Result<(), AllocError>
    ensures { OnOk result (string_bytes text.new ≡ string_bytes text.old ++ held_line figures.now) }
{
    text.push_str("samples held ")?;
    push_samples(text, figures.held())
}

/// Adds the line of the samples that `link` can hold.
#[tactic(auto, unfolding(crate::specs::Texts::link_held_line))]
fn push_link_held(
    text: &mut String,
    design: &Design,
    table: &Table,
    link: usize,
) -> Result<(), AllocError>
    requires link { link < length design.now.net.wires }
    requires capacities { length table.now.caps ≡ length design.now.net.wires }
    ensures { OnOk result (string_bytes text.new ≡
        string_bytes text.old ++ link_held_line design.now table.now.caps link) }
{
    text.push_str("capacity ")?;
    push_link(text, design, link)?;
    text.push_str(" ")?;
    push_samples(text, table.cap(link))
}

/// Adds the lines of the samples that each link can hold, in file order.
fn push_links_held(text: &mut String, design: &Design, table: &Table) -> Result<(), AllocError>
    requires { length table.now.caps ≡ length design.now.net.wires }
    ensures { OnOk result (string_bytes text.new ≡
        string_bytes text.old ++ lines_to (link_held_line design.now table.now.caps) (length design.now.net.wires)) }
{
    for link in 0..design.net().channels() {
        push_link_held(text, design, table, link)?;
    }
    Ok(())
}

/// Returns the text of the figures of `table` for `workers` workers, and of its capacities.
pub(crate) fn analysis_text(
    alloc: Global,
    design: &Design,
    table: &Table,
    figures: &Figures,
    workers: usize,
) -> Result<String, AllocError>
    requires capacities { length table.now.caps ≡ length design.now.net.wires }
    requires workers { workers ≡ length figures.now.loads }
    ensures { IfOk result (λ s. string_bytes s ≡ analysis_text design.now figures.now table.now.caps) }
{
    let mut text = String::new(alloc);
    push_times(&mut text, figures)?;
    push_speedup(&mut text, figures, workers)?;
    push_workers(&mut text, figures, workers)?;
    push_held(&mut text, figures)?;
    push_links_held(&mut text, design, table)?;
    Ok(text)
}
