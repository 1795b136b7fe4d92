//! Comparison of schedules.

ghost use Rattle.std.specs.Prelude.{◌≡◌, ◌↔◌, MatchResult, IfSome, IsTrue, map, string_bytes};
ghost use Rattle.std.specs.List.{All, Contains};
ghost use Rattle.sdf_actor.specs.Graphs.{graph_of};
ghost use Rattle.sdf_kit.specs.Kit.{kit_steps};
ghost use Rattle.sdf_prec.specs.declared.fault.PrecFault.{PrecFault};
ghost use Rattle.sdf_faults.specs.declared.fault.Fault.TheVariants as faults;
ghost use Rattle.sdf_plan.specs.Plans.{AreSizes, IsScheduleBy, IsScheduleFault};
ghost use Rattle.sdf_plan.specs.Schedules.{IsDesignScheduleFault};
ghost use Rattle.sdf_analyze.specs.declared.columns.Entry.{Entry};
ghost use Rattle.sdf_analyze.specs.declared.columns.Outcome.TheVariants.{Refused};
ghost use Rattle.sdf_analyze.specs.Comparisons.{measures_of, number_of, IsMade, IsOutcome, AreCompared, IsComparison};
ghost use Rattle.sdf_analyze.specs.Periods.{AreByPolicies};
ghost use Rattle.sdf_analyze.specs.Sharing.{ShareTable};
ghost use Rattle.sdf_analyze.specs.Spans.{AreSpans};

use crate::columns::{Entry, Measures, Outcome, comparison_text};
use crate::figures::Figures;
use crate::periods::Periods;
use crate::spans::{BlockSpan, span_once};
use crate::ways::ways;
use sdf_faults::Fault;
use sdf_file::Design;
use sdf_options::{Options, Placement};
use sdf_plan::schedule::{Block, tabled};
use sdf_prec::PrecFault;
use sdf_sched::Period;
use std::alloc::Global;

/// Returns the compared values of `block` and the `figures` of its table.
fn measures_of(block: &Block, figures: &Figures) -> Measures
    ensures { result ≡ measures_of block.now.blocking block.now.table figures.now }
{
    Measures {
        blocking: block.blocking,
        makespan: figures.makespan(),
        speedup: figures.speedup(),
        rows: block.table.rows(),
        held: figures.held(),
    }
}

/// Returns the number that the text of `fault` begins with.
fn number_of(fault: PrecFault) -> u32
    ensures { result ≡ number_of fault }
{
    match fault {
        PrecFault::OutOfMemory => 1,
        PrecFault::BlockingFactor => 11,
        PrecFault::WorkerCount => 12,
        PrecFault::BlockTooLong => 13,
        PrecFault::FiringMissing { .. } => 14,
        PrecFault::FiringTwice { .. } => 15,
        PrecFault::FiringUnknown { .. } => 16,
        PrecFault::RowTooWide { .. } => 17,
        PrecFault::TooEarly { .. } => 18,
        PrecFault::BadHome { .. } => 19,
        PrecFault::BadCost { .. } => 62,
    }
}

/// Returns the number of `fault` if it is a fault of the table, otherwise `fault` itself.
fn refusal(fault: Fault) -> Result<Outcome, Fault>
    ensures { MatchResult result
        (λ o. (p : PrecFault) × (fault ≡ faults.Table p) × (o ≡ Refused (number_of p)))
        (λ f. (f ≡ fault) × ((p : PrecFault) → fault ≡ faults.Table p → ⊥)) }
{
    match &fault {
        Fault::Table(table) => Ok(Outcome::Refused(number_of(*table))),
        _ => Err(fault),
    }
}

/// Returns the values of the table that `options` give `period`, which is by their policy. Adds the span of its block
/// to `spans` if it is not there yet.
#[tactic(auto, using(crate::proofs::Refusals::memory_shows))]
fn measure(
    alloc: Global,
    design: &Design,
    options: &Options,
    period: &Period,
    spans: &mut Vec<BlockSpan>,
) -> Result<Measures, Fault>
    requires spans { AreSpans design.now spans.old.items }
    requires sizes { AreSizes options.now }
    requires by_policy { IsScheduleBy options.now.policy (graph_of kit_steps design.now.net) period.now }
    ensures spans { AreSpans design.now spans.new.items }
    ensures made { MatchResult result (IsMade design.now options.now)
        (IsDesignScheduleFault design.now options.now) }
{
    let block = tabled(alloc, design, options, period)?;
    let blocking = block.blocking;
    let placed = options.with_blocking(blocking);
    let span = span_once(alloc, design, spans, blocking, period)?;
    let figures = Figures::with_span(alloc, design, &placed, period, &block.table, span)?;
    Ok(measures_of(&block, &figures))
}

/// Returns the outcome of the schedule that `options` give `period`, which is by their policy.
fn outcome_of(
    alloc: Global,
    design: &Design,
    options: &Options,
    period: &Period,
    spans: &mut Vec<BlockSpan>,
) -> Result<Outcome, Fault>
    requires spans { AreSpans design.now spans.old.items }
    requires sizes { AreSizes options.now }
    requires by_policy { IsScheduleBy options.now.policy (graph_of kit_steps design.now.net) period.now }
    ensures spans { AreSpans design.now spans.new.items }
    ensures outcome { MatchResult result (IsOutcome design.now options.now) (IsScheduleFault design.now) }
{
    match measure(alloc, design, options, period, spans) {
        Ok(measures) => Ok(Outcome::Made(measures)),
        Err(fault) => refusal(fault),
    }
}

/// Checks whether both options give the same table: they differ only in the policy, and their placement does not depend
/// on the order of firings.
fn share_table(options: &Options, other: &Options) -> bool
    ensures { IsTrue result ↔ ShareTable options.now other.now }
{
    let by_policy = Options {
        policy: other.policy,
        ..*options
    };
    options.placement != Placement::File && by_policy == *other
}

/// Returns the outcome of the first entry that has the table of `options`, if one has. No clause says that it is found.
fn known_outcome(entries: &[Entry], options: &Options) -> Option<Outcome>
    ensures { IfSome result (λ w. (e : Entry) × Contains entries.now e × ShareTable e.options options.now
        × (w ≡ e.outcome)) }
{
    for entry in entries {
        if share_table(&entry.options, options) {
            return Some(entry.outcome);
        }
    }
    None
}

/// Returns the outcome of the schedule that `options` ask for, taken from `entries` if one of them has its table.
fn outcome_once(
    alloc: Global,
    design: &Design,
    periods: &Periods,
    entries: &[Entry],
    options: &Options,
    spans: &mut Vec<BlockSpan>,
) -> Result<Outcome, Fault>
    requires spans { AreSpans design.now spans.old.items }
    requires sizes { AreSizes options.now }
    requires periods { AreByPolicies design.now periods.now }
    requires known { All (λ (e : Entry). IsOutcome design.now e.options e.outcome) entries.now }
    ensures spans { AreSpans design.now spans.new.items }
    ensures outcome { MatchResult result (IsOutcome design.now options.now) (IsScheduleFault design.now) }
{
    let period = periods.by(options.policy);
    match known_outcome(entries, options) {
        Some(outcome) => Ok(outcome),
        None => outcome_of(alloc, design, options, period, spans),
    }
}

/// Returns an entry for each of `ways`. A table that several of them share is made only once, and so is the span of a
/// block.
fn entries_of(alloc: Global, design: &Design, ways: &[Options]) -> Result<Vec<Entry>, Fault>
    requires { All AreSizes ways.now }
    ensures { MatchResult result
        (λ v. (map (λ (e : Entry). e.options) v.items ≡ ways.now)
        × All (λ (e : Entry). IsOutcome design.now e.options e.outcome) v.items)
        (IsScheduleFault design.now) }
{
    let periods = Periods::of(alloc, design)?;
    let mut entries = Vec::new(alloc);
    let mut spans = Vec::new(alloc);
    for options in ways {
        let outcome = outcome_once(alloc, design, &periods, &entries, options, &mut spans)?;
        entries.push(Entry {
            options: *options,
            outcome,
        })?;
    }
    Ok(entries)
}

/// Returns the schedules of `design` by each policy and each placement, for 1, 2, 4, .. workers up to the workers of
/// `options`. Each entry has the periods of its block, the makespan, the speedup, the rows and the samples held. An
/// entry without a schedule has the number of the fault. A design without a schedule has none by any policy, so its
/// fault is returned instead.
#[tactic(auto, using(crate::proofs::WorkerCounts::sizes_of_ways))]
pub fn comparison_entries(
    alloc: Global,
    design: &Design,
    options: &Options,
) -> Result<Vec<Entry>, Fault>
    requires { AreSizes options.now }
    ensures { MatchResult result (λ v. AreCompared design.now options.now v.items) (IsScheduleFault design.now) }
{
    let ways = ways(alloc, options)?;
    entries_of(alloc, design, &ways)
}

/// Returns the text that the command `analyze --compare` prints: a table with a line for each compared schedule. A star
/// marks the best speedup, and the best of each other column among blocks of equally many periods. If several are
/// equally good, each of them has a star.
pub fn compare(alloc: Global, design: &Design, options: &Options) -> Result<String, Fault>
    requires { AreSizes options.now }
    ensures { MatchResult result (λ s. IsComparison design.now options.now (string_bytes s))
        (IsScheduleFault design.now) }
{
    let entries = comparison_entries(alloc, design, options)?;
    Ok(comparison_text(alloc, &entries)?)
}
