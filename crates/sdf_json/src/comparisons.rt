//! Comparisons of schedules as lines.

ghost use Rattle.std.specs.Prelude.{◌≡◌, ◌++◌, IfOk, OnOk, MatchResult, map, take, string_bytes};
ghost use Rattle.serde_json.specs.View.{view, members_view};
ghost use Rattle.sdf_plan.specs.Plans.{AreSizes, IsScheduleFault};
ghost use Rattle.sdf_json.specs.Values.{with};
ghost use Rattle.sdf_json.specs.Comparisons.{measures_of, outcome_of, entry_value, comparison_value};
ghost use Rattle.sdf_json.specs.Comparisons.{IsComparisonJson};

use crate::schedules::options_of;
use crate::values::{Members, line_of, put_number};
use sdf_analyze::{Entry, Measures, Outcome, comparison_entries};
use sdf_faults::Fault;
use sdf_file::Design;
use sdf_options::Options;
use serde_json::Value;
use std::alloc::{AllocError, Global};

/// Adds the compared values of a schedule. The periods of its block replace the number that was asked for.
fn put_measures(members: &mut Members, alloc: Global, measures: Measures) -> Result<(), AllocError>
    ensures { OnOk result (members_view members.new.entries ≡
        with (members_view members.old.entries) (measures_of measures)) }
{
    put_number(members, alloc, "blocking", u64::from(measures.blocking))?;
    put_number(members, alloc, "makespan", measures.makespan)?;
    put_number(members, alloc, "speedup_hundredths", measures.speedup)?;
    put_number(members, alloc, "rows", measures.rows as u64)?;
    put_number(members, alloc, "samples", measures.held)
}

/// Adds the compared values of a schedule, or the number of the fault that refuses it.
fn put_outcome(members: &mut Members, alloc: Global, outcome: Outcome) -> Result<(), AllocError>
    ensures { OnOk result (members_view members.new.entries ≡
        with (members_view members.old.entries) (outcome_of outcome)) }
{
    match outcome {
        Outcome::Made(measures) => put_measures(members, alloc, measures),
        Outcome::Refused(number) => put_number(members, alloc, "fault", u64::from(number)),
    }
}

fn entry_value(alloc: Global, entry: Entry) -> Result<Value, AllocError>
    ensures { IfOk result (λ v. view v ≡ entry_value entry) }
{
    let mut members = options_of(alloc, &entry.options)?;
    put_outcome(&mut members, alloc, entry.outcome)?;
    Ok(Value::Object(members))
}

/// Returns the values of `entries`, in their order.
fn entry_values(alloc: Global, entries: &[Entry]) -> Result<Vec<Value>, AllocError>
    ensures { IfOk result (λ list. map view list.items ≡ map entry_value entries.now) }
{
    let mut list = Vec::new(alloc);
    for entry in entries {
        list.push(entry_value(alloc, *entry)?)?;
    }
    Ok(list)
}

fn comparison_value(alloc: Global, entries: &[Entry]) -> Result<Value, AllocError>
    ensures { IfOk result (λ v. view v ≡ comparison_value entries.now) }
{
    Ok(Value::Array(entry_values(alloc, entries)?))
}

/// Returns a comparison of schedules as a line of JSON: an array of the schedules that
/// `sdf_analyze::comparison_entries` compares. Each has its options, and either the number of a fault or its values.
/// The values are the periods of its block, the makespan, the speedup in hundredths, the rows, and the sum of the
/// links' capacities, in samples.
pub fn comparison_json(alloc: Global, design: &Design, options: &Options) -> Result<String, Fault>
    requires { AreSizes options.now }
    ensures { MatchResult result (λ text. IsComparisonJson design.now options.now (string_bytes text))
        (IsScheduleFault design.now) }
{
    let entries = comparison_entries(alloc, design, options)?;
    let value = comparison_value(alloc, &entries)?;
    Ok(line_of(alloc, &value)?)
}
