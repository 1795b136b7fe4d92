//! The tables of a graph file.

ghost use Rattle.std.specs.Prelude.{◌≡◌, IfOk, option_map};
ghost use Rattle.toml.specs.View.{view};
ghost use Rattle.toml.specs.Data.{get};
ghost use Rattle.sdf_document.specs.Lists.{files_view};
ghost use Rattle.sdf_why.specs.Tables.{root, file_root, text_at, entry, actor_text, says, first_with_text};

use sdf_document::{CoefficientFile, file_named};
use std::alloc::{AllocError, Global};
use toml::Value;

/// The sources of a diagnostic: the graph file and its coefficient files.
#[derive(Clone, Copy)]
pub(crate) struct Source<'a> {
    pub(crate) graph: &'a Value,
    pub(crate) files: &'a [CoefficientFile],
}

/// Parses `bytes` as a TOML document, if they are one.
#[tactic(auto, using(crate::proofs::Roots::root_found, crate::proofs::Roots::root_missing))]
pub(crate) fn root(alloc: Global, bytes: &[u8]) -> Result<Option<Value>, AllocError>
    ensures { IfOk result (λ r. option_map view r ≡ root bytes.now) }
{
    match toml::table_from_slice(alloc, bytes) {
        Ok(table) => Ok(Some(Value::Table(table))),
        Err(error) if error.is_memory() => Err(AllocError),
        Err(_) => Ok(None),
    }
}

/// Parses the coefficient file `name` as a TOML document, if there is one.
pub(crate) fn file_root(
    alloc: Global,
    files: &[CoefficientFile],
    name: &str,
) -> Result<Option<Value>, AllocError>
    ensures { IfOk result (λ r. option_map view r ≡ file_root name.now (files_view files.now)) }
{
    match file_named(name, files) {
        Some(bytes) => root(alloc, bytes),
        None => Ok(None),
    }
}

/// Returns the value at `key`.
pub(crate) fn value_at<'a>(value: &'a Value, key: &str) -> Option<&'a Value>
    ensures { option_map (λ v. view v.now) result ≡ get key.now (view value.now) }
{
    value.get(key)
}

/// Returns the text at `key`.
#[tactic(auto, unfolding(crate::specs::Tables::text_at))]
pub(crate) fn text_at<'a>(value: &'a Value, key: &str) -> Option<&'a str>
    ensures { option_map (λ s. s.now) result ≡ text_at key.now (view value.now) }
{
    value_at(value, key)?.as_str()
}

/// Returns the table `number` of `array`.
#[tactic(auto, unfolding(crate::specs::Tables::entry))]
pub(crate) fn entry<'a>(value: &'a Value, array: &str, number: usize) -> Option<&'a Value>
    ensures { option_map (λ v. view v.now) result ≡ entry array.now number (view value.now) }
{
    value_at(value, array)?.get(number)
}

/// Returns the text at `key` of `actor`.
#[tactic(auto, unfolding(crate::specs::Tables::actor_text))]
pub(crate) fn actor_text<'a>(value: &'a Value, key: &str, actor: usize) -> Option<&'a str>
    ensures { option_map (λ s. s.now) result ≡ actor_text key.now (view value.now) actor }
{
    text_at(entry(value, "actor", actor)?, key)
}

/// Checks whether `actor` has `text` at `key`.
#[tactic(auto, unfolding(crate::specs::Tables::says))]
pub(crate) fn says(value: &Value, key: &str, text: &str, actor: usize) -> bool
    ensures { result ≡ says key.now text.now (view value.now) actor }
{
    match actor_text(value, key, actor) {
        Some(said) => text == said,
        None => false,
    }
}

/// Returns the first of `actors` actors that has `text` at `key`.
#[tactic(auto, unfolding(crate::specs::Tables::first_with_text))]
pub(crate) fn first_with_text(value: &Value, key: &str, text: &str, actors: usize) -> Option<usize>
    ensures { result ≡ first_with_text key.now text.now (view value.now) actors }
{
    (0..actors).find(|actor| says(value, key, text, *actor))
}
