//! Faults as lines.

ghost use Rattle.std.specs.Prelude.{◌≡◌, ◌∷◌, [], IfOk, map, take, codes, string_bytes};
ghost use Rattle.serde_json.specs.Data.{string, array};
ghost use Rattle.serde_json.specs.View.{view, items_view};
ghost use Rattle.sdf_json.specs.Values.{list_of};
ghost use Rattle.sdf_json.specs.Faults.{progress_value, stalled_value, usage_value, IsWordsValue, IsFaultValue};
ghost use Rattle.sdf_json.specs.Faults.{IsFaultJson};

use crate::design_faults::file_value;
use crate::details::{Details, detailed};
use crate::fault_members::{number_and_name, plain_fault};
use crate::run_faults::{format_value, prec_value};
use crate::values::{line_of, or_null, put_number, put_text};
use sdf_faults::{Fault, Progress, Stalled};
use sdf_options::WordFault;
use serde_json::{Map, Value, put};
use std::alloc::{AllocError, Global};

fn progress_value(alloc: Global, progress: &Progress) -> Result<Value, AllocError>
    ensures { IfOk result (λ v. view v ≡ progress_value progress.now) }
{
    let mut members = Map::new(alloc);
    put_text(&mut members, alloc, "name", progress.name.as_str())?;
    put_number(&mut members, alloc, "done", u64::from(progress.done))?;
    put_number(&mut members, alloc, "of", u64::from(progress.of))?;
    put(&mut members, alloc, "short", or_null(progress.short))?;
    Ok(Value::Object(members))
}

/// Returns how far each actor got before a deadlock.
fn progresses(alloc: Global, actors: &[Progress]) -> Result<Vec<Value>, AllocError>
    ensures { IfOk result (λ list. map view list.items ≡ map progress_value actors.now) }
{
    let mut list = Vec::new(alloc);
    for actor in actors {
        list.push(progress_value(alloc, actor)?)?;
    }
    Ok(list)
}

fn stalled_value(alloc: Global, stalled: &Stalled) -> Result<Value, AllocError>
    ensures { IfOk result (λ v. view v ≡ stalled_value stalled.now.actors.items) }
{
    let actors = progresses(alloc, &stalled.actors)?;
    let mut members = number_and_name(alloc, 10, "Deadlock")?;
    put(&mut members, alloc, "actors", Value::Array(actors))?;
    Ok(Value::Object(members))
}

/// Returns the value of a usage error, with the parser's own text.
fn usage_value(alloc: Global, text: &str) -> Result<Value, AllocError>
    ensures { IfOk result (λ v. view v ≡ usage_value text.now) }
{
    let mut members = number_and_name(alloc, 0, "Usage")?;
    put_text(&mut members, alloc, "text", text)?;
    Ok(Value::Object(members))
}

fn words_value(alloc: Global, fault: &WordFault) -> Result<Value, AllocError>
    ensures { IfOk result (λ v. IsWordsValue fault.now (view v)) }
{
    match fault {
        WordFault::OutOfMemory => plain_fault(alloc, 1, "OutOfMemory"),
        WordFault::Usage(error) => {
            let text = format!(in alloc; "{error}")?;
            usage_value(alloc, text.as_str())
        }
    }
}

/// Returns the value of `fault`: its number, its name, and everything that it carries.
fn fault_value(alloc: Global, fault: &Fault) -> Result<Value, AllocError>
    ensures { IfOk result (λ v. IsFaultValue fault.now (view v)) }
{
    match fault {
        Fault::OutOfMemory => plain_fault(alloc, 1, "OutOfMemory"),
        Fault::Words(fault) => words_value(alloc, fault),
        Fault::File(fault) => file_value(alloc, fault),
        Fault::Deadlock(stalled) => stalled_value(alloc, stalled),
        Fault::BlockingFactor => plain_fault(alloc, 11, "BlockingFactor"),
        Fault::WorkerCount => plain_fault(alloc, 12, "WorkerCount"),
        Fault::Table(fault) => prec_value(alloc, fault),
        Fault::InputLength => plain_fault(alloc, 29, "InputLength"),
        Fault::NotHomed => plain_fault(alloc, 30, "NotHomed"),
        Fault::Patience => plain_fault(alloc, 31, "Patience"),
        Fault::NoWorker => plain_fault(alloc, 32, "NoWorker"),
        Fault::SessionFailed => plain_fault(alloc, 33, "SessionFailed"),
        Fault::Wav(fault) => format_value(alloc, fault),
        Fault::Read => plain_fault(alloc, 47, "Read"),
        Fault::Write => plain_fault(alloc, 48, "Write"),
        Fault::ChannelsMissing => plain_fault(alloc, 59, "ChannelsMissing"),
        Fault::RateNotWhole => plain_fault(alloc, 60, "RateNotWhole"),
    }
}

/// Returns the line that the program prints about `fault` on standard error when it prints JSON. It reads as the
/// fault's number, its name, everything that the fault carries, and what `details` say, each under its own name.
pub fn fault_json(alloc: Global, fault: &Fault, details: &Details) -> Result<String, AllocError>
    ensures { IfOk result (λ text. IsFaultJson fault.now details.now (string_bytes text)) }
{
    let plain = fault_value(alloc, fault)?;
    let value = detailed(alloc, plain, details)?;
    line_of(alloc, &value)
}
