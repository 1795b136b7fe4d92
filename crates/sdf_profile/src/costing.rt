//! A graph file's text with measured costs in it.

ghost use Rattle.std.specs.Prelude.{◌≡◌, ◌⊎◌, IfOk, IsOk, MatchResult, Ok, Err};
ghost use Rattle.sdf_document.specs.Lists.{files_view};
ghost use Rattle.sdf_document.specs.Document.{document_of, document_view};
ghost use Rattle.sdf_profile.specs.declared.unwritten.Unwritten.TheVariants.{OutOfMemory, Reading};
ghost use Rattle.sdf_profile.specs.Places.{costed_text_of};
ghost use Rattle.sdf_profile.specs.Written.{DifferInCosts, SaysWithCosts, IsUnwritten};

use crate::places::places_of;
use crate::replaced::text_with;
use crate::same::is_costed;
use crate::unwritten::Unwritten;
use sdf_document::{CoefficientFile, Document, ReadFault, read_document};
use std::alloc::Global;

/// Reads a graph file with its coefficient `files`.
fn document(alloc: Global, graph: &[u8], files: &[CoefficientFile]) -> Result<Document, Unwritten>
    ensures { MatchResult result
        (λ d. document_of graph.now (files_view files.now) ≡ Ok (document_view d))
        (λ fault. (fault ≡ OutOfMemory)
        ⊎ ((fault ≡ Reading) × ¬ IsOk (document_of graph.now (files_view files.now)))) }
{
    match read_document(alloc, graph, files) {
        Ok(document) => Ok(document),
        Err(ReadFault::OutOfMemory) => Err(Unwritten::OutOfMemory),
        Err(ReadFault::Document(_)) => Err(Unwritten::Reading),
    }
}

/// Checks that `text` says what `graph` says, except that it has `costs`.
fn test_costed(
    alloc: Global,
    graph: &[u8],
    text: &[u8],
    files: &[CoefficientFile],
    costs: &[u32],
) -> Result<(), Unwritten>
    ensures { MatchResult result
        (λ _. SaysWithCosts costs.now graph.now text.now (files_view files.now))
        (λ fault. (fault ≡ OutOfMemory)
        ⊎ ((fault ≡ Reading) × ¬ SaysWithCosts costs.now graph.now text.now (files_view files.now))) }
{
    let old = document(alloc, graph, files)?;
    let new = document(alloc, text, files)?;
    if is_costed(&old, &new, costs) {
        Ok(())
    } else {
        Err(Unwritten::Reading)
    }
}

/// Returns the text of `graph` with `costs`, before it is read again.
#[tactic(auto, unfolding(crate::specs::Places::costed_text_of))]
fn unchecked_text(alloc: Global, graph: &[u8], costs: &[u32]) -> Result<Vec<u8>, Unwritten>
    ensures exactly { MatchResult result
        (λ text. costed_text_of costs.now graph.now ≡ Ok text.items)
        (λ fault. (fault ≡ OutOfMemory) ⊎ (costed_text_of costs.now graph.now ≡ Err fault)) }
    ensures differs { IfOk result (λ text. DifferInCosts costs.now graph.now text.items) }
{
    let places = places_of(alloc, graph)?;
    text_with(alloc, graph, &places, costs)
}

/// Returns the text of `graph`, a graph file, with `costs` in place of the costs of its actors. Each line stays as it
/// is, except the numbers behind `cost = `. If an actor has no cost, a line is added behind the last key of its table.
///
/// Each actor's table must begin with a line that begins with `[[actor]]`. A cost must be written as `cost = 12` at
/// the beginning of its line.
pub fn costed_text(
    alloc: Global,
    graph: &[u8],
    files: &[CoefficientFile],
    costs: &[u32],
) -> Result<Vec<u8>, Unwritten>
    ensures text { IfOk result (λ text. DifferInCosts costs.now graph.now text.items) }
    ensures says { IfOk result (λ text. SaysWithCosts costs.now graph.now text.items (files_view files.now)) }
    ensures exactly { MatchResult result
        (λ text. costed_text_of costs.now graph.now ≡ Ok text.items)
        (IsUnwritten costs.now graph.now (files_view files.now)) }
{
    let text = unchecked_text(alloc, graph, costs)?;
    match test_costed(alloc, graph, &text, files, costs) {
        Ok(()) => Ok(text),
        Err(fault) => Err(fault),
    }
}
