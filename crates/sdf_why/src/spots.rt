//! The line and the column of a key, a table or a syntax error in a file.

ghost use Rattle.std.specs.Prelude.{◌≡◌, length, map, option_map};
ghost use Rattle.sdf_why.specs.Spots.{line_at, is_table, behind_brackets, begins, has_key, next_table, table_end};
ghost use Rattle.sdf_why.specs.Spots.{key_line, line_behind};

use crate::diagnostics::DesignFiles;
use crate::marks::{after_mark, before, has_mark};
use sdf_document::{Place, file_named};
use std::alloc::{AllocError, Global};

/// A line and a column, both from 1. A column counts characters.
#[derive(Clone, Copy, Debug, PartialEq, Eq)]
pub struct Spot {
    pub line: usize,
    pub column: usize,
}

/// Returns the spot behind `bytes`.
fn spot_behind(bytes: &[u8]) -> Spot {
    let mut spot = Spot { line: 1, column: 1 };
    for byte in bytes {
        if *byte == b'\n' {
            spot.line = spot.line.saturating_add(1);
            spot.column = 1;
        } else if *byte & 0xC0 != 0x80 {
            spot.column = spot.column.saturating_add(1);
        }
    }
    spot
}

/// Returns the spot of the error of the TOML parser in `bytes`, if there is one.
fn error_spot(alloc: Global, bytes: &[u8]) -> Result<Option<Spot>, AllocError> {
    match toml::table_from_slice(alloc, bytes) {
        Ok(_) => Ok(None),
        Err(error) => match error.span() {
            Some(span) => Ok(bytes.get(..span.start).map(spot_behind)),
            None => Err(AllocError),
        },
    }
}

/// Returns the lines of `text`.
fn lines_of<'a>(alloc: Global, text: &'a str) -> Result<Vec<&'a str>, AllocError> {
    let mut lines = Vec::new(alloc);
    for line in text.lines() {
        lines.push(line)?;
    }
    Ok(lines)
}

/// Returns line `at`, counted from 0.
#[tactic(auto, unfolding(crate::specs::Spots::line_at))]
fn line_at<'a>(lines: &[&'a str], at: usize) -> &'a str
    ensures { result.now ≡ line_at (map (λ s. s.now) lines.now) at }
{
    match lines.get(at) {
        Some(line) => *line,
        None => "",
    }
}

/// Checks whether `line` begins a table.
#[tactic(auto, unfolding(crate::specs::Spots::is_table))]
fn is_table(line: &str) -> bool
    ensures { result ≡ is_table line.now }
{
    match line.trim_start().as_bytes().first() {
        Some(b'[') => true,
        _ => false,
    }
}

/// Returns the text behind the first one or two brackets of `text`.
#[tactic(auto, unfolding(crate::specs::Spots::behind_brackets))]
fn behind_brackets(text: &str) -> &str
    ensures { result.now ≡ behind_brackets text.now }
{
    let inner = after_mark(text, '[');
    if has_mark(inner, '[') {
        after_mark(inner, '[')
    } else {
        inner
    }
}

/// Checks whether `line` begins a table of this `name`, as `[[actor]]` does for `actor`.
#[tactic(auto, unfolding(crate::specs::Spots::begins))]
fn begins(line: &str, name: &str) -> bool
    ensures { result ≡ begins name.now line.now }
{
    is_table(line) && behind_brackets(before(line, ']')).trim() == name
}

/// Checks whether `line` begins with `key`.
#[tactic(auto, unfolding(crate::specs::Spots::has_key))]
fn has_key(line: &str, key: &str) -> bool
    ensures { result ≡ has_key key.now line.now }
{
    has_mark(line, '=') && before(line, '=').trim() == key
}

/// Returns the line that begins the table `number` of this `name`.
fn table_line(lines: &[&str], name: &str, number: usize) -> Option<usize> {
    (0..lines.len())
        .filter(|at| begins(line_at(lines, *at), name))
        .nth(number)
}

/// Returns the first line from `from` on that begins a table.
fn next_table(lines: &[&str], from: usize) -> Option<usize>
    ensures { result ≡ next_table from (length lines.now) (map (λ s. s.now) lines.now) }
{
    (from..lines.len()).find(|at| is_table(line_at(lines, *at)))
}

/// Returns the first line from `from` on that begins a table, or the number of lines.
fn table_end(lines: &[&str], from: usize) -> usize
    ensures { result ≡ table_end from (length lines.now) (map (λ s. s.now) lines.now) }
{
    match next_table(lines, from) {
        Some(at) => at,
        None => lines.len(),
    }
}

/// Returns the line with `key` in the table whose lines begin at `from`.
fn key_line(lines: &[&str], from: usize, key: &str) -> Option<usize>
    ensures { result ≡ key_line key.now from (length lines.now) (map (λ s. s.now) lines.now) }
{
    (from..table_end(lines, from)).find(|at| has_key(line_at(lines, *at), key))
}

/// Returns the line with `key` in the table whose first line is `begin`, or that line if there is none.
fn line_behind(lines: &[&str], begin: usize, key: Option<&str>) -> usize
    ensures { result ≡ line_behind (option_map (λ s. s.now) key.entry) (length lines.now)
        (map (λ s. s.now) lines.now) begin }
{
    let Some(key) = key else {
        return begin;
    };
    let next = begin.saturating_add(1).min(lines.len());
    match key_line(lines, next, key) {
        Some(line) => line,
        None => begin,
    }
}

/// Returns the line with `key` in the table `number` of this `name`, or the line that begins the table.
fn line_in_table(lines: &[&str], name: &str, number: usize, key: Option<&str>) -> Option<usize> {
    let begin = table_line(lines, name, number)?;
    Some(line_behind(lines, begin, key))
}

/// Returns the line with `key` at the top of a file, or the one that begins the first table of that name.
fn line_at_top(lines: &[&str], key: &str) -> Option<usize> {
    match key_line(lines, 0, key) {
        Some(line) => Some(line),
        None => table_line(lines, key, 0),
    }
}

/// Returns the line with `key` at `place`, counted from 0.
fn line_of(lines: &[&str], place: &Place, key: Option<&str>) -> Option<usize> {
    match place {
        Place::Top | Place::File(_) => line_at_top(lines, key?),
        Place::Actor(number) => line_in_table(lines, "actor", *number, key),
        Place::Link(number) => line_in_table(lines, "link", *number, key),
    }
}

/// Returns the spot of the first character of line `at` that is not blank.
fn spot_of_line(lines: &[&str], at: usize) -> Spot {
    let line = line_at(lines, at);
    let blanks = line.len().saturating_sub(line.trim_start().len());
    Spot {
        line: at.saturating_add(1),
        column: blanks.saturating_add(1),
    }
}

/// Returns the spot of `key` at `place` of `bytes`, which are TOML.
fn key_spot(
    alloc: Global,
    bytes: &[u8],
    place: &Place,
    key: Option<&str>,
) -> Result<Option<Spot>, AllocError> {
    let Ok(text) = str::from_utf8(bytes) else {
        return Ok(None);
    };
    let lines = lines_of(alloc, text)?;
    match line_of(&lines, place, key) {
        Some(at) => Ok(Some(spot_of_line(&lines, at))),
        None => Ok(None),
    }
}

/// Returns the bytes of the file of `place`.
fn bytes_of<'a>(sources: DesignFiles<'a>, place: &Place) -> Option<&'a [u8]> {
    match place {
        Place::File(name) => file_named(name.as_str(), sources.files),
        Place::Top | Place::Actor(_) | Place::Link(_) => Some(sources.graph),
    }
}

/// Returns the spot of the syntax error in the file of `place`. If it is TOML, returns the spot of `key` at `place`, or
/// of the table if it lacks the key.
pub(crate) fn spot_of(
    alloc: Global,
    sources: DesignFiles<'_>,
    place: &Place,
    key: Option<&str>,
) -> Result<Option<Spot>, AllocError> {
    let Some(bytes) = bytes_of(sources, place) else {
        return Ok(None);
    };
    match error_spot(alloc, bytes)? {
        Some(spot) => Ok(Some(spot)),
        None => key_spot(alloc, bytes, place, key),
    }
}
