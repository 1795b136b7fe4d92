//! A graph file's text with other costs in it.

ghost use Rattle.std.specs.Prelude.{◌≡◌, ◌≤◌, ◌∷◌, ◌⊎◌, [], IsTrue, IfOk, IfSome, ◌++◌, string_bytes, length, take, ℕ};
ghost use Rattle.std.specs.Prelude.{List, option_map, MatchOption, MatchResult, Some, None, Ok, Err};
ghost use Rattle.sdf_profile.specs.declared.unwritten.Unwritten.TheVariants.{OutOfMemory};
ghost use Rattle.std.specs.List.{All, list_all};
ghost use Rattle.std.specs.Char.{IsAsciiDigit, is_ascii_digit};
ghost use Rattle.sdf_profile.specs.Places.{is_cost, before, text_for, piece, costed_in};
ghost use Rattle.sdf_profile.specs.Written.{IsCost, IsBefore, IsReplaced, DifferInCosts};

use crate::places::{CostPlace, KEY};
use crate::unwritten::Unwritten;
use std::alloc::{AllocError, Global};

/// Returns whether `text` has only digits.
fn are_digits(text: &[u8]) -> bool
    ensures exactly { result ≡ list_all is_ascii_digit text.now }
    ensures means { IsTrue result → All IsAsciiDigit text.now }
{
    text.iter().all(|digit| digit.is_ascii_digit())
}

/// Returns whether `text` is the key `cost = ` and a number.
#[tactic(auto, unfolding(crate::specs::Places::is_cost))]
fn is_cost(text: &[u8]) -> bool
    ensures exactly { result ≡ is_cost text.now }
    ensures means { IsTrue result → IsCost text.now }
{
    match text.strip_prefix(KEY) {
        Some(digits) => are_digits(digits),
        None => false,
    }
}

/// Returns what comes before a cost that replaces `old`: nothing or a line end; `None` if `old` may not be replaced.
#[tactic(auto, unfolding(crate::specs::Places::before))]
fn before(old: &[u8], long: bool) -> Option<&'static str>
    ensures exactly { option_map (λ before. before.now) result ≡ before old.now long }
    ensures means { IfSome result (λ before. IsBefore old.now before.now) }
{
    if is_cost(old) {
        Some("")
    } else if !old.is_empty() {
        None
    } else if long {
        Some("\r\n")
    } else {
        Some("\n")
    }
}

/// Returns the text of `cost` that replaces `old`, if `old` may be replaced.
#[tactic(auto, unfolding(crate::specs::Places::text_for))]
fn text_for(alloc: Global, old: &[u8], long: bool, cost: u32) -> Result<Option<String>, AllocError>
    ensures exactly { IfOk result (λ text. option_map string_bytes text ≡ text_for cost old.now long) }
    ensures means { IfOk result (λ text. IfSome text (λ new. IsReplaced cost old.now (string_bytes new))) }
{
    match before(old, long) {
        Some(before) => Ok(Some(format!(in alloc; "{before}cost = {cost}")?)),
        None => Ok(None),
    }
}

/// Adds to `text` the bytes of `graph` from `read` to `place`, and `cost` there. Returns the end of `place`, or `None`
/// if a cost may not be written there.
#[tactic(auto, unfolding(crate::specs::Places::piece))]
fn push_cost(
    alloc: Global,
    text: &mut Vec<u8>,
    graph: &[u8],
    read: usize,
    place: CostPlace,
    cost: u32,
) -> Result<Option<usize>, AllocError>
    requires { read ≤ length graph.now }
    ensures within { IfOk result (λ end. IfSome end (λ end. end ≤ length graph.now)) }
    ensures exactly { IfOk result (λ end. MatchOption end
        (piece graph.now read place cost ≡ None)
        (λ end. (new : List ℕ) × (piece graph.now read place cost ≡ Some (record { new = new; end = end }))
        × (text.new.items ≡ text.old.items ++ new))) }
    ensures cost { (ns : List ℕ) → DifferInCosts ns (take read graph.now) text.old.items →
        IfOk result (λ end. IfSome end (λ end. DifferInCosts (ns ++ cost ∷ []) (take end graph.now) text.new.items)) }
{
    let CostPlace {
        start,
        length,
        long,
    } = place;
    let end = start.saturating_add(length);
    let Some(kept) = graph.get(read..start) else {
        return Ok(None);
    };
    let Some(old) = graph.get(start..end) else {
        return Ok(None);
    };
    let Some(new) = text_for(alloc, old, long, cost)? else {
        return Ok(None);
    };
    text.extend_from_slice(kept)?;
    text.extend_from_slice(new.as_bytes())?;
    Ok(Some(end))
}

/// Returns the text of `graph` with `costs` at `places`, one each.
#[tactic(auto, unfolding(crate::specs::Places::costed_in))]
pub(crate) fn text_with(
    alloc: Global,
    graph: &[u8],
    places: &[CostPlace],
    costs: &[u32],
) -> Result<Vec<u8>, Unwritten>
    ensures exactly { MatchResult result
        (λ text. costed_in graph.now places.now costs.now ≡ Ok text.items)
        (λ fault. (fault ≡ OutOfMemory) ⊎ (costed_in graph.now places.now costs.now ≡ Err fault)) }
    ensures differs { IfOk result (λ text. DifferInCosts costs.now graph.now text.items) }
{
    if places.len() != costs.len() {
        return Err(Unwritten::Tables(places.len()));
    }
    let mut text = Vec::new(alloc);
    let mut read = 0;
    for (actor, cost) in costs.iter().enumerate() {
        let Some(end) = push_cost(alloc, &mut text, graph, read, places[actor], *cost)? else {
            return Err(Unwritten::Cost(actor));
        };
        read = end;
    }
    text.extend_from_slice(&graph[read..])?;
    Ok(text)
}
