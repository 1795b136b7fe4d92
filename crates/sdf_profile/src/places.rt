//! Places in a graph file's text where costs are written, or may be written.

ghost use Rattle.std.specs.Prelude.{◌≡◌, ◌≤◌, ◌<◌, ◌+◌, ◌⊎◌, length, Ok, Err, OnOk, MatchResult};
ghost use Rattle.sdf_profile.specs.Places.{line_length, end_length, unindented, says_nothing, names_cost, digits};
ghost use Rattle.sdf_profile.specs.Places.{cost_length, place_behind, found_view, closed, head_found, entry_found};
ghost use Rattle.sdf_profile.specs.Places.{line_found};
ghost use Rattle.sdf_profile.specs.Places.{places_of};
ghost use Rattle.sdf_profile.specs.declared.unwritten.Unwritten.TheVariants.{OutOfMemory};

use crate::unwritten::Unwritten;
use std::alloc::{AllocError, Global};

/// The first line of an actor's table.
const HEAD: &[u8] = b"[[actor]]";

/// The text before a cost.
pub(crate) const KEY: &[u8] = b"cost = ";

/// The place of an actor's cost: a key and a number, `length` bytes in all, or 0 bytes at the end of a line.
#[derive(Clone, Copy)]
pub(crate) struct CostPlace {
    pub(crate) start: usize,
    pub(crate) length: usize,
    /// Whether a line end that is added has a carriage return, as the line end of `[[actor]]` has.
    pub(crate) long: bool,
}

/// Returns the length of the first line of `text`, its end included.
#[tactic(auto, using(crate::proofs::FirstLines::line_within, crate::proofs::FirstLines::line_some))]
fn line_length(text: &[u8]) -> usize
    ensures exactly { result ≡ line_length text.now }
    ensures within { result ≤ length text.now }
    ensures some { 0 < length text.now → 0 < result }
{
    for (place, byte) in text.iter().enumerate() {
        if *byte == b'\n' {
            return place + 1;
        }
    }
    text.len()
}

/// Returns the length of the line end of `line`.
fn end_length(line: &[u8]) -> usize
    ensures { result ≡ end_length line.now }
{
    if line.ends_with(b"\r\n") {
        2
    } else if line.ends_with(b"\n") {
        1
    } else {
        0
    }
}

/// Returns `line` without the blanks at its front.
fn unindented(line: &[u8]) -> &[u8]
    ensures { result.now ≡ unindented line.now }
{
    line.trim_ascii_start()
}

/// Returns whether `line` is blank or only a comment.
#[tactic(auto, unfolding(crate::specs::Places::says_nothing))]
fn says_nothing(line: &[u8]) -> bool
    ensures { result ≡ says_nothing line.now }
{
    let text = unindented(line);
    text.is_empty() || text.starts_with(b"#")
}

/// Returns whether `line` begins with the key `cost`, bare or quoted, without escapes. No other key begins with it.
#[tactic(auto, unfolding(crate::specs::Places::names_cost))]
fn names_cost(line: &[u8]) -> bool
    ensures { result ≡ names_cost line.now }
{
    let text = unindented(line);
    text.starts_with(b"cost") || text.starts_with(b"\"cost") || text.starts_with(b"'cost")
}

/// Returns the number of digits at the front of `text`.
fn digits(text: &[u8]) -> usize
    ensures exactly { result ≡ digits text.now }
    ensures within { result ≤ length text.now }
{
    for (place, byte) in text.iter().enumerate() {
        if !byte.is_ascii_digit() {
            return place;
        }
    }
    text.len()
}

/// Returns the number of bytes of `line` that are the key and its number, if it says nothing more.
#[tactic(auto, unfolding(crate::specs::Places::cost_length))]
fn cost_length(line: &[u8]) -> Option<usize>
    ensures { result ≡ cost_length line.now }
{
    if !line.starts_with(KEY) {
        return None;
    }
    let (_key, value) = line.split_at(KEY.len());
    let digits = digits(value);
    let (_number, rest) = value.split_at(digits);
    if digits > 0 && says_nothing(rest) {
        Some(KEY.len() + digits)
    } else {
        None
    }
}

/// Returns the place at the end of `line`, before its line end. `line` begins at `start`.
fn place_behind(start: usize, line: &[u8], long: bool) -> CostPlace
    requires { start + length line.now ≤ usize.MAX }
    ensures { result ≡ place_behind start line.now long }
{
    CostPlace {
        start: start + line.len().saturating_sub(end_length(line)),
        length: 0,
        long,
    }
}

/// Places of costs, found line by line.
#[derive(Drop)]
struct Found {
    places: Vec<CostPlace>,
    /// The place in the current table, if that is an actor's.
    table: Option<CostPlace>,
}

impl Found {
    /// Ends the current table.
    fn close(&mut self) -> Result<(), AllocError>
        ensures { OnOk result (self.new.places.items ≡ closed (found_view self.old)) }
    {
        if let Some(place) = self.table {
            self.places.push(place)?;
        }
        Ok(())
    }

    /// Reads a line that heads a table.
    #[tactic(auto, unfolding(crate::specs::Places::head_found))]
    fn head(&mut self, start: usize, line: &[u8]) -> Result<(), AllocError>
        requires { start + length line.now ≤ usize.MAX }
        ensures { OnOk result (found_view self.new ≡ head_found start line.now (found_view self.old)) }
    {
        self.close()?;
        self.table = if line.starts_with(HEAD) {
            Some(place_behind(start, line, line.ends_with(b"\r\n")))
        } else {
            None
        };
        Ok(())
    }

    /// Reads a line of an actor's table that has a key. `place` is the place in this table so far.
    #[tactic(auto, unfolding(crate::specs::Places::entry_found))]
    fn key(&mut self, start: usize, line: &[u8], place: CostPlace) -> Result<(), Unwritten>
        requires { start + length line.now ≤ usize.MAX }
        ensures { MatchResult result
            (λ _. entry_found start line.now place (found_view self.old) ≡ Ok (found_view self.new))
            (λ fault. entry_found start line.now place (found_view self.old) ≡ Err fault) }
    {
        if names_cost(line) {
            let Some(length) = cost_length(line) else {
                return Err(Unwritten::Cost(self.places.len()));
            };
            self.table = Some(CostPlace {
                start,
                length,
                long: false,
            });
        } else if place.length == 0 {
            self.table = Some(place_behind(start, line, place.long));
        }
        Ok(())
    }

    /// Reads `line`, which begins at `start`.
    #[tactic(auto, unfolding(crate::specs::Places::line_found))]
    fn line(&mut self, start: usize, line: &[u8]) -> Result<(), Unwritten>
        requires { start + length line.now ≤ usize.MAX }
        ensures { MatchResult result
            (λ _. line_found start line.now (found_view self.old) ≡ Ok (found_view self.new))
            (λ fault. (fault ≡ OutOfMemory) ⊎ (line_found start line.now (found_view self.old) ≡ Err fault)) }
    {
        if line.starts_with(b"[") {
            self.head(start, line)?;
            return Ok(());
        }
        if says_nothing(line) {
            return Ok(());
        }
        match self.table {
            Some(place) => self.key(start, line, place),
            None => Ok(()),
        }
    }
}

/// Returns the place of each actor's cost in the text of a graph file: at the key `cost` of its table or, if there is
/// none, at the end of the table's last key.
#[tactic(auto, unfolding(crate::specs::Places::places_of))]
pub(crate) fn places_of(alloc: Global, graph: &[u8]) -> Result<Vec<CostPlace>, Unwritten>
    ensures { MatchResult result
        (λ places. places_of graph.now ≡ Ok places.items)
        (λ fault. (fault ≡ OutOfMemory) ⊎ (places_of graph.now ≡ Err fault)) }
{
    let mut found = Found {
        places: Vec::new(alloc),
        table: None,
    };
    let mut start = 0;
    let mut rest = graph;
    'lines: while !rest.is_empty() {
        let (line, behind) = rest.split_at(line_length(rest));
        found.line(start, line)?;
        start += line.len();
        rest = behind;
    }
    found.close()?;
    Ok(found.places)
}
