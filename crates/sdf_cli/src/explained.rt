//! Reading which fault is to be explained, if the words have its name.

ghost use Rattle.std.specs.Prelude.{IfOk, IfErr};
ghost use Rattle.sdf_options.specs.Limits.{IsUsage};
ghost use Rattle.sdf_cli.specs.Limits.{IsWithinLimits};

use crate::explain::{NAMES, number_named};
use crate::requests::Words;
use sdf_options::printable::printable;
use sdf_options::{WordFault, usage_error};
use sdf_similar::nearest;
use std::alloc::{AllocError, Global};

/// Checks whether `word` begins with a letter, like the name of a fault.
pub(crate) fn is_name(word: &str) -> bool {
    matches!(word.as_bytes(), [b'A'..=b'Z' | b'a'..=b'z', ..])
}

/// Returns the message for a `name` that no fault has, with the most similar name if there is one.
fn unknown_name_text(alloc: Global, name: &str) -> Result<String, AllocError> {
    let shown = printable(alloc, name)?;
    let shown = shown.as_str();
    match nearest(alloc, NAMES, name)? {
        Some(near) => {
            format!(in alloc; "no fault has the name '{shown}'\n\n  tip: did you mean '{near}'?")
        }
        None => format!(in alloc; "no fault has the name '{shown}'"),
    }
}

/// Returns the usage error for a `name` that no fault has.
fn unknown_name(alloc: Global, name: &str) -> WordFault
    ensures { IsUsage result }
{
    match unknown_name_text(alloc, name) {
        Ok(text) => usage_error(alloc, text.as_str()),
        Err(_) => WordFault::OutOfMemory,
    }
}

/// Returns the command that explains the fault with this `name`.
pub(crate) fn explain<'a>(alloc: Global, name: &str) -> Result<Words<'a>, WordFault>
    ensures within { IfOk result IsWithinLimits }
    ensures usage { IfErr result IsUsage }
{
    match number_named(name) {
        Some(number) => Ok(Words::Explain { number }),
        None => Err(unknown_name(alloc, name)),
    }
}

/// Returns the usage error for a `name` that is given with the number of another fault.
fn other_number(alloc: Global, name: &str, number: u32) -> WordFault
    ensures { IsUsage result }
{
    match format!(in alloc; "the fault {name} has the number {number}") {
        Ok(text) => usage_error(alloc, text.as_str()),
        Err(_) => WordFault::OutOfMemory,
    }
}

/// Returns the command that explains the fault with this `number` and this `name`.
pub(crate) fn explain_both<'a>(
    alloc: Global,
    number: &str,
    name: &str,
) -> Result<Words<'a>, WordFault>
    ensures within { IfOk result IsWithinLimits }
    ensures usage { IfErr result IsUsage }
{
    match number_named(name) {
        Some(known) if number.parse::<u32>().ok() == Some(known) => Ok(Words::Explain {
            number: known,
        }),
        Some(known) => Err(other_number(alloc, name, known)),
        None => Err(unknown_name(alloc, name)),
    }
}
