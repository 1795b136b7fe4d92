//! What the faults mean.

ghost use Rattle.std.specs.Prelude.{◌≡◌, ◌≤◌, ◌<◌, ℕ, List, [], length, map, get_or, true, false, ◌++◌, IfOk, IfSome};
ghost use Rattle.std.specs.Prelude.{IfNone, IsSome, OnOk, string_bytes};
ghost use Rattle.sdf_cli.specs.declared.requests.TheConstants.{MAX_FAULT};
ghost use Rattle.sdf_cli.specs.Names.{heading, IsNamed, Explains};

mod documents;
mod graphs;
mod names;
mod repairs;
mod sounds;
mod tables;

use crate::requests::MAX_FAULT;
pub(crate) use names::NAMES;
use repairs::REPAIRS;
use std::alloc::{AllocError, Global};

/// The meaning of a fault, the limits within which it does not occur, and a remedy if it can occur. `place` is the rest
/// of the fault's line.
#[derive(Clone, Copy)]
struct Meaning {
    place: &'static str,
    means: &'static str,
    limits: &'static str,
    remedy: &'static str,
}

/// Returns the meaning of the fault `number`.
fn meaning_of(number: u32) -> Option<Meaning>
    ensures { 1 ≤ number → number ≤ MAX_FAULT → IsSome result }
{
    let number = number as usize;
    match number {
        1..=12 => graphs::MEANINGS.get(number - 1).copied(),
        13..=33 => tables::MEANINGS.get(number - 13).copied(),
        34..=48 => sounds::MEANINGS.get(number - 34).copied(),
        49..=63 => documents::MEANINGS.get(number - 49).copied(),
        _ => None,
    }
}

/// Returns the word at `place`, if there is one.
fn word_at<'a>(words: &[&'a str], place: usize) -> Option<&'a str>
    ensures found { IfSome result (λ word. (place < length words.now)
        × (get_or (map (λ w. w.now) words.now) place [] ≡ word.now)) }
    ensures none { IfNone result (length words.now ≤ place) }
{
    if place < words.len() {
        Some(words[place])
    } else {
        None
    }
}

/// Returns the name of the fault `number`.
pub fn fault_name(number: u32) -> Option<&'static str>
    ensures named { IfSome result (λ name. IsNamed number name.now) }
    ensures some { 1 ≤ number → number ≤ MAX_FAULT → IsSome result }
    ensures none { IfNone result ((name : List ℕ) → IsNamed number name → ⊥) }
{
    if number == 0 {
        return None;
    }
    word_at(NAMES, number as usize - 1)
}

/// Checks whether `name` is the whole name of the fault `number`.
fn is_named(number: u32, name: &str) -> bool
    ensures named { result ≡ true → IsNamed number name.now }
    ensures other { result ≡ false → IsNamed number name.now → ⊥ }
{
    match fault_name(number) {
        Some(known) => known == name,
        None => false,
    }
}

/// Returns the number of the fault whose whole name is `name`.
pub(crate) fn number_named(name: &str) -> Option<u32>
    ensures within { IfSome result (λ number. (1 ≤ number) × (number ≤ MAX_FAULT)) }
    ensures named { IfSome result (λ number. IsNamed number name.now) }
    ensures none { IfNone result ((number : ℕ) → IsNamed number name.now → ⊥) }
{
    for number in 1..=MAX_FAULT {
        if is_named(number, name) {
            return Some(number);
        }
    }
    None
}

/// Adds the line with this `label` to an explanation, if `said` is not empty.
fn push_line(text: &mut String, label: &str, said: &str) -> Result<(), AllocError> {
    if said.is_empty() {
        return Ok(());
    }
    writeln!(text, "{label}: {said}")
}

/// Adds the first line of an explanation.
#[tactic(auto, unfolding(crate::specs::Names::heading))]
fn push_heading(text: &mut String, number: u32, name: &str) -> Result<(), AllocError>
    ensures { OnOk result (string_bytes text.new ≡ string_bytes text.old ++ heading number name.now) }
{
    writeln!(text, "{number} {name}")
}

/// Adds lines of a graph file before and after the fault `number` is mended, if there are some.
fn push_repair(text: &mut String, number: u32) -> Result<(), AllocError> {
    for repair in &REPAIRS {
        if repair.number == number {
            let (before, after) = (repair.before, repair.after);
            return write!(text, "before:\n{before}after:\n{after}");
        }
    }
    Ok(())
}

/// Returns the lines below the first one of an explanation.
fn lines(alloc: Global, number: u32, meaning: Meaning) -> Result<String, AllocError> {
    let mut text = String::new(alloc);
    push_line(&mut text, "where", meaning.place)?;
    push_line(&mut text, "means", meaning.means)?;
    push_line(&mut text, "limits", meaning.limits)?;
    push_line(&mut text, "remedy", meaning.remedy)?;
    push_repair(&mut text, number)?;
    Ok(text)
}

/// Returns the explanation of the fault `number`, line by line; empty if no fault has it.
pub fn explanation(alloc: Global, number: u32) -> Result<String, AllocError>
    ensures { 1 ≤ number → number ≤ MAX_FAULT → IfOk result (λ text. Explains number (string_bytes text)) }
{
    let mut text = String::new(alloc);
    let (Some(name), Some(meaning)) = (fault_name(number), meaning_of(number)) else {
        return Ok(text);
    };
    push_heading(&mut text, number, name)?;
    text.push_str(lines(alloc, number, meaning)?.as_str())?;
    Ok(text)
}
