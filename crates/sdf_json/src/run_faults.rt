//! The faults of tables and of WAV files as values.

ghost use Rattle.std.specs.Prelude.{◌≡◌, ◌∷◌, ◌++◌, [], IfOk, codes};
ghost use Rattle.serde_json.specs.Data.{object};
ghost use Rattle.serde_json.specs.View.{view, members_view};
ghost use Rattle.sdf_json.specs.Values.{natural, with};
ghost use Rattle.sdf_json.specs.FaultMembers.{told};
ghost use Rattle.sdf_json.specs.RunFaults.{in_row_members, row_fault, firing_value, prec_value, format_value};

use crate::fault_members::{at, number_and_name, plain_fault};
use crate::values::{Members, put_number};
use sdf_prec::{Firing, PrecFault};
use sdf_wav::FormatFault;
use serde_json::{Map, Value, put};
use std::alloc::{AllocError, Global};

fn firing_value(alloc: Global, firing: Firing) -> Result<Value, AllocError>
    ensures { IfOk result (λ v. view v ≡ firing_value firing) }
{
    let mut members = Map::new(alloc);
    put_number(&mut members, alloc, "actor", firing.actor as u64)?;
    put_number(&mut members, alloc, "number", u64::from(firing.number))?;
    Ok(Value::Object(members))
}

/// Returns the value of the fault that `firing` is missing in a table.
fn missing_value(alloc: Global, firing: Firing) -> Result<Value, AllocError>
    ensures { IfOk result (λ v. view v ≡
        told 14 (codes "FiringMissing") ((codes "firing", firing_value firing) ∷ [])) }
{
    let mut members = number_and_name(alloc, 14, "FiringMissing")?;
    put(&mut members, alloc, "firing", firing_value(alloc, firing)?)?;
    Ok(Value::Object(members))
}

/// Returns the members of a fault of `firing` in `row`.
fn row_fault(
    alloc: Global,
    number: u32,
    name: &str,
    row: usize,
    firing: Firing,
) -> Result<Members, AllocError>
    ensures { IfOk result (λ m. members_view m.entries ≡ in_row_members number name.now row firing) }
{
    let mut members = number_and_name(alloc, number, name)?;
    put_number(&mut members, alloc, "row", row as u64)?;
    put(&mut members, alloc, "firing", firing_value(alloc, firing)?)?;
    Ok(members)
}

fn early_value(
    alloc: Global,
    row: usize,
    firing: Firing,
    needs: Firing,
) -> Result<Value, AllocError>
    ensures { IfOk result (λ v. view v ≡
        row_fault 18 (codes "TooEarly") row firing ((codes "needs", firing_value needs) ∷ [])) }
{
    let mut members = row_fault(alloc, 18, "TooEarly", row, firing)?;
    put(&mut members, alloc, "needs", firing_value(alloc, needs)?)?;
    Ok(Value::Object(members))
}

fn row_value(
    alloc: Global,
    number: u32,
    name: &str,
    row: usize,
    firing: Firing,
) -> Result<Value, AllocError>
    ensures { IfOk result (λ v. view v ≡ row_fault number name.now row firing []) }
{
    Ok(Value::Object(row_fault(alloc, number, name, row, firing)?))
}

pub(crate) fn prec_value(alloc: Global, fault: &PrecFault) -> Result<Value, AllocError>
    ensures { IfOk result (λ v. view v ≡ prec_value fault.now) }
{
    match fault {
        PrecFault::OutOfMemory => plain_fault(alloc, 1, "OutOfMemory"),
        PrecFault::BlockingFactor => plain_fault(alloc, 11, "BlockingFactor"),
        PrecFault::WorkerCount => plain_fault(alloc, 12, "WorkerCount"),
        PrecFault::BlockTooLong => plain_fault(alloc, 13, "BlockTooLong"),
        PrecFault::FiringMissing { firing } => missing_value(alloc, *firing),
        PrecFault::FiringTwice { row, firing } => {
            row_value(alloc, 15, "FiringTwice", *row, *firing)
        }
        PrecFault::FiringUnknown { row, firing } => {
            row_value(alloc, 16, "FiringUnknown", *row, *firing)
        }
        PrecFault::RowTooWide { row } => at(alloc, 17, "RowTooWide", "row", *row),
        PrecFault::TooEarly { row, firing, needs } => early_value(alloc, *row, *firing, *needs),
        PrecFault::BadHome { actor } => at(alloc, 19, "BadHome", "actor", *actor),
        PrecFault::BadCost { actor } => at(alloc, 62, "BadCost", "actor", *actor),
    }
}

pub(crate) fn format_value(alloc: Global, fault: &FormatFault) -> Result<Value, AllocError>
    ensures { IfOk result (λ v. view v ≡ format_value fault.now) }
{
    match fault {
        FormatFault::NotRiff => plain_fault(alloc, 34, "NotRiff"),
        FormatFault::NotWave => plain_fault(alloc, 35, "NotWave"),
        FormatFault::NoFormat => plain_fault(alloc, 36, "NoFormat"),
        FormatFault::ShortFormat => plain_fault(alloc, 37, "ShortFormat"),
        FormatFault::NotPcm16 => plain_fault(alloc, 38, "NotPcm16"),
        FormatFault::Channels => plain_fault(alloc, 39, "Channels"),
        FormatFault::RateZero => plain_fault(alloc, 40, "RateZero"),
        FormatFault::BadAlign => plain_fault(alloc, 41, "BadAlign"),
        FormatFault::NoData => plain_fault(alloc, 42, "NoData"),
        FormatFault::Truncated => plain_fault(alloc, 43, "Truncated"),
        FormatFault::PartialFrame => plain_fault(alloc, 44, "PartialFrame"),
        FormatFault::TooLong => plain_fault(alloc, 45, "TooLong"),
        FormatFault::RateTooLarge => plain_fault(alloc, 46, "RateTooLarge"),
    }
}
