//! The type that a key needs, for a value of another type.

ghost use Rattle.std.specs.Prelude.{◌≡◌, ◌++◌, IfOk, OnOk, None, codes, option_map, option_and_then, string_bytes};
ghost use Rattle.toml.specs.View.{view};
ghost use Rattle.sdf_document.specs.Fault.{place_view};
ghost use Rattle.sdf_document.specs.Lists.{files_view};
ghost use Rattle.toml.specs.Data.{get};
ghost use Rattle.sdf_why.specs.Tables.{file_root, entry};
ghost use Rattle.sdf_why.specs.Actors.{lines_of};
ghost use Rattle.sdf_why.specs.Values.{unfit_at_key};
ghost use Rattle.sdf_why.specs.Types.{is_text_key, is_list_key, type_of, limits_behind, type_within};
ghost use Rattle.sdf_why.specs.Types.{place_type, non_integer_told, half_line, half_told, value_told, type_told};

use crate::places::{limits_at, push_place_key};
use crate::tables::{Source, entry, file_root, value_at};
use crate::values::push_unfit_at_key;
use sdf_document::{CoefficientFile, Place};
use std::alloc::{AllocError, Global};
use toml::Value;

fn is_text_key(key: &str) -> bool
    ensures { result ≡ is_text_key key.now }
{
    key == "name" || key == "kind" || key == "file" || key == "from" || key == "to"
}

fn is_list_key(key: &str) -> bool
    ensures { result ≡ is_list_key key.now }
{
    key == "taps" || key == "values" || key == "initial"
}

/// Returns the type that `key` needs, in words.
#[tactic(auto, unfolding(crate::specs::Types::type_of))]
fn type_of(key: &str) -> &'static str
    ensures { result.now ≡ type_of key.now }
{
    if key == "actor" {
        "double brackets: [[actor]]"
    } else if key == "link" {
        "double brackets: [[link]]"
    } else if is_text_key(key) {
        "a text in quotes"
    } else if is_list_key(key) {
        "a list of whole numbers"
    } else {
        "a whole number"
    }
}

/// Adds the `limits` of a key behind its type, if it has some.
fn push_limits_behind(text: &mut String, limits: Option<&str>) -> Result<(), AllocError>
    ensures { OnOk result (string_bytes text.new ≡ string_bytes text.old
        ++ limits_behind (option_map (λ s. s.now) limits.entry)) }
{
    match limits {
        Some(limits) => write!(text, ", {limits}"),
        None => Ok(()),
    }
}

/// Returns the type that `key` needs, and its `limits` if it has some and is not a text.
pub(crate) fn type_within(
    alloc: Global,
    key: &str,
    limits: Option<&str>,
) -> Result<String, AllocError>
    ensures { IfOk result (λ text. string_bytes text ≡ type_within key.now (option_map (λ s. s.now) limits.entry)) }
{
    let mut text = String::from_str(alloc, type_of(key))?;
    if !is_text_key(key) {
        push_limits_behind(&mut text, limits)?;
    }
    Ok(text)
}

/// Adds what `place` is, and the line of its `key` with the type that it needs and the limits.
fn push_place(
    alloc: Global,
    text: &mut String,
    source: Source<'_>,
    place: &Place,
    key: &str,
) -> Result<(), AllocError>
    ensures { OnOk result (string_bytes text.new ≡ string_bytes text.old ++ place_type
        (place_view place.now) key.now (view source.entry.graph.now) (files_view source.entry.files.now)) }
{
    let limits = limits_at(alloc, source.graph, place, key)?;
    let wanted = type_within(alloc, key, limits.as_deref())?;
    push_place_key(alloc, text, source, place, key, Some(wanted.as_str()))
}

/// Adds the first value that is not a whole number in the list at `key` of `table`, if there is a table.
fn push_non_integer_at(
    alloc: Global,
    text: &mut String,
    key: &str,
    table: Option<&Value>,
) -> Result<(), AllocError>
    ensures { OnOk result (string_bytes text.new ≡ string_bytes text.old
        ++ lines_of (unfit_at_key key.now None) (option_map (λ t. view t.now) table.entry)) }
{
    match table {
        Some(table) => push_unfit_at_key(alloc, text, key, None, table),
        None => Ok(()),
    }
}

/// Adds the first value that is not a whole number in the list at `key` of the file `name`.
fn push_non_integer_in_file(
    alloc: Global,
    text: &mut String,
    files: &[CoefficientFile],
    name: &str,
    key: &str,
) -> Result<(), AllocError>
    ensures { OnOk result (string_bytes text.new ≡ string_bytes text.old
        ++ lines_of (unfit_at_key key.now None) (file_root name.now (files_view files.now))) }
{
    match file_root(alloc, files, name)? {
        Some(table) => push_unfit_at_key(alloc, text, key, None, &table),
        None => Ok(()),
    }
}

/// Adds the first value that is not a whole number in the list at `key` of `place`.
fn push_non_integer(
    alloc: Global,
    text: &mut String,
    source: Source<'_>,
    place: &Place,
    key: &str,
) -> Result<(), AllocError>
    ensures { OnOk result (string_bytes text.new ≡ string_bytes text.old ++ non_integer_told
        (place_view place.now) key.now (view source.entry.graph.now) (files_view source.entry.files.now)) }
{
    let graph = source.graph;
    match place {
        Place::Top => push_non_integer_at(alloc, text, key, Some(graph)),
        Place::Actor(number) => push_non_integer_at(
            alloc,
            text,
            key,
            entry(graph, "actor", *number),
        ),
        Place::Link(number) => push_non_integer_at(alloc, text, key, entry(graph, "link", *number)),
        Place::File(name) => push_non_integer_in_file(
            alloc,
            text,
            source.files,
            name.as_str(),
            key,
        ),
    }
}

/// Returns the gain of `actor`.
fn gain_of(graph: &Value, actor: usize) -> Option<&Value>
    ensures { option_map (λ v. view v.now) result ≡
        option_and_then (get (codes "gain")) (entry (codes "actor") actor (view graph.now)) }
{
    value_at(entry(graph, "actor", actor)?, "gain")
}

/// Adds how a half is written, if `value` is a number with a point.
#[tactic(auto, unfolding(crate::specs::Types::half_line))]
fn push_half_line(text: &mut String, value: &Value) -> Result<(), AllocError>
    ensures { OnOk result (string_bytes text.new ≡ string_bytes text.old ++ half_line (view value.now)) }
{
    if value.type_str() == "float" {
        text.push_str("  a half is gain = 1, shift = 1\n")
    } else {
        Ok(())
    }
}

/// Adds how a half is written, if the gain of `place` is a number with a point.
fn push_half(text: &mut String, graph: &Value, place: &Place) -> Result<(), AllocError>
    ensures { OnOk result (string_bytes text.new ≡ string_bytes text.old
        ++ half_told (place_view place.now) (view graph.now)) }
{
    let Place::Actor(number) = place else {
        return Ok(());
    };
    match gain_of(graph, *number) {
        Some(gain) => push_half_line(text, gain),
        None => Ok(()),
    }
}

/// Adds what follows the line of a `key`: for a list its first value that is not a whole number, for a gain how a half
/// is written.
fn push_value(
    alloc: Global,
    text: &mut String,
    source: Source<'_>,
    place: &Place,
    key: &str,
) -> Result<(), AllocError>
    ensures { OnOk result (string_bytes text.new ≡ string_bytes text.old ++ value_told
        (place_view place.now) key.now (view source.entry.graph.now) (files_view source.entry.files.now)) }
{
    if is_list_key(key) {
        push_non_integer(alloc, text, source, place, key)
    } else if key == "gain" {
        push_half(text, source.graph, place)
    } else {
        Ok(())
    }
}

/// Adds the line of a `key` of another type, and what follows it.
pub(crate) fn push_type(
    alloc: Global,
    text: &mut String,
    source: Source<'_>,
    place: &Place,
    key: &str,
) -> Result<(), AllocError>
    ensures { OnOk result (string_bytes text.new ≡ string_bytes text.old ++ type_told
        (place_view place.now) key.now (view source.entry.graph.now) (files_view source.entry.files.now)) }
{
    push_place(alloc, text, source, place, key)?;
    push_value(alloc, text, source, place, key)
}
