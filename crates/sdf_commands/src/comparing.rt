//! The command that compares schedules.

ghost use Rattle.std.specs.Prelude.{◌≡◌, ◌++◌, ◌≤◌, IfOk, OnOk, MatchResult, string_bytes};
ghost use Rattle.sdf_options.specs.Limits.{AreWithinLimits};
ghost use Rattle.sdf_plan.specs.Plans.{IsScheduleFault};
ghost use Rattle.sdf_cli.specs.declared.requests.TheConstants.{MAX_FAULT};
ghost use Rattle.sdf_commands.specs.Refusals.{is_by, is_refused, pointer, refusal_line, refusal_of};
ghost use Rattle.sdf_commands.specs.Refusals.{refusals_text, IsExplainedComparison};

use crate::printing::show;
use sdf_analyze::{Entry, Outcome, comparison_entries, comparison_text};
use sdf_cli::{MAX_FAULT, fault_name};
use sdf_faults::Fault;
use sdf_file::Design;
use sdf_options::Options;
use std::alloc::{AllocError, Global};
use std::io::Write;

/// Checks whether `outcome` is a refusal by the fault of this `number`.
fn is_by(number: u32, outcome: Outcome) -> bool
    ensures { result ≡ is_by number outcome }
{
    match outcome {
        Outcome::Made(_) => false,
        Outcome::Refused(other) => other == number,
    }
}

/// Checks whether one of `entries` is refused by the fault of this `number`.
fn is_refused(entries: &[Entry], number: u32) -> bool
    ensures { result ≡ is_refused entries.now number }
{
    entries.iter().any(|entry| is_by(number, entry.outcome))
}

/// Adds the command that explains the fault of this `number`.
#[tactic(auto, unfolding(crate::specs::Refusals::pointer))]
fn push_pointer(text: &mut String, number: u32) -> Result<(), AllocError>
    ensures { OnOk result (string_bytes text.new ≡ string_bytes text.old ++ pointer number) }
{
    writeln!(text, "sdfw explain {number} says what to do")
}

/// Adds the line of a fault, with its `number` and its `name`.
#[tactic(auto, unfolding(crate::specs::Refusals::refusal_line))]
fn push_line(text: &mut String, number: u32, name: &str) -> Result<(), AllocError>
    ensures { OnOk result (string_bytes text.new ≡ string_bytes text.old ++ refusal_line number name.now) }
{
    write!(text, "  {number} is {name}: ")?;
    push_pointer(text, number)
}

/// Adds the line of the fault of this `number`, if it refuses a schedule.
#[tactic(auto, unfolding(crate::specs::Refusals::refusal_of))]
fn push_refusal(text: &mut String, entries: &[Entry], number: u32) -> Result<(), AllocError>
    requires some { 1 ≤ number }
    requires known { number ≤ MAX_FAULT }
    ensures { OnOk result (string_bytes text.new ≡ string_bytes text.old ++ refusal_of entries.now number) }
{
    match fault_name(number) {
        Some(name) if is_refused(entries, number) => push_line(text, number, name),
        _ => Ok(()),
    }
}

/// Returns the lines that name the faults of a comparison.
fn refusals_text(alloc: Global, entries: &[Entry]) -> Result<String, AllocError>
    ensures { IfOk result (λ s. string_bytes s ≡ refusals_text entries.now) }
{
    let mut text = String::new(alloc);
    for number in 0..MAX_FAULT {
        push_refusal(&mut text, entries, number + 1)?;
    }
    Ok(text)
}

/// A comparison of schedules: its table, and the lines that explain the fault numbers in it.
#[derive(Drop)]
struct ComparedTexts {
    table: String,
    refusals: String,
}

/// Returns the texts of the comparison of the schedules of `design`.
fn compared_texts(alloc: Global, design: &Design, options: &Options) -> Result<ComparedTexts, Fault>
    requires { AreWithinLimits options.now }
    ensures { MatchResult result (λ c. IsExplainedComparison design.now options.now
        (string_bytes c.table) (string_bytes c.refusals)) (IsScheduleFault design.now) }
{
    let entries = comparison_entries(alloc, design, options)?;
    Ok(ComparedTexts {
        table: comparison_text(alloc, &entries)?,
        refusals: refusals_text(alloc, &entries)?,
    })
}

/// Prints the comparison of the schedules of `design` to `out`. If `is_verbose` is set, prints the lines that explain
/// its fault numbers to `err`.
pub fn print_comparison<O: Write, E: Write>(
    alloc: Global,
    out: &mut O,
    err: &mut E,
    design: &Design,
    options: &Options,
    is_verbose: bool,
) -> Result<(), Fault>
    requires { AreWithinLimits options.now }
{
    let ComparedTexts { table, refusals } = compared_texts(alloc, design, options)?;
    show(out, table.as_str())?;
    if is_verbose {
        let _ = err.write_all(refusals.as_bytes());
    }
    Ok(())
}
