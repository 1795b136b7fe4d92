//! The levels of a run as a line.

ghost use Rattle.std.specs.Prelude.{◌≡◌, ◌∷◌, [], IfOk, codes, map, take, string_bytes};
ghost use Rattle.serde_json.specs.View.{view};
ghost use Rattle.sdf_json.specs.Values.{list_of, object_of, IsLineOf};
ghost use Rattle.sdf_json.specs.Runs.{output_value, run_value};

use crate::values::{line_of, put_number};
use serde_json::{Map, Value, put};
use std::alloc::{AllocError, Global};

/// The levels of an output of a run.
#[derive(Clone, Copy)]
pub struct OutputLevels {
    pub frames: u64,
    /// The greatest absolute value of a sample, at most 32768.
    pub peak: u16,
    /// The number of samples that are -32768 or 32767.
    pub full_scale: u64,
}

fn output_value(alloc: Global, output: OutputLevels) -> Result<Value, AllocError>
    ensures { IfOk result (λ v. view v ≡ output_value output) }
{
    let mut members = Map::new(alloc);
    put_number(&mut members, alloc, "frames", output.frames)?;
    put_number(&mut members, alloc, "peak", u64::from(output.peak))?;
    put_number(&mut members, alloc, "full_scale", output.full_scale)?;
    Ok(Value::Object(members))
}

fn output_values(alloc: Global, outputs: &[OutputLevels]) -> Result<Vec<Value>, AllocError>
    ensures { IfOk result (λ list. map view list.items ≡ map output_value outputs.now) }
{
    let mut list = Vec::new(alloc);
    for output in outputs {
        list.push(output_value(alloc, *output)?)?;
    }
    Ok(list)
}

fn run_value(alloc: Global, outputs: &[OutputLevels]) -> Result<Value, AllocError>
    ensures { IfOk result (λ v. view v ≡ run_value outputs.now) }
{
    let mut members = Map::new(alloc);
    let list = output_values(alloc, outputs)?;
    put(&mut members, alloc, "outputs", Value::Array(list))?;
    Ok(Value::Object(members))
}

/// Returns the line that a run prints if it prints JSON: the levels of its outputs.
pub fn run_json(alloc: Global, outputs: &[OutputLevels]) -> Result<String, AllocError>
    ensures { IfOk result (λ text. IsLineOf (run_value outputs.now) (string_bytes text)) }
{
    let value = run_value(alloc, outputs)?;
    line_of(alloc, &value)
}
