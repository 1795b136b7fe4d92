//! The lines about a coefficient file, and what is outside the limits in a list.

ghost use Rattle.std.specs.Prelude.{◌≡◌, ◌++◌, IfOk, OnOk, codes, option_map, string_bytes};
ghost use Rattle.toml.specs.Data.{get};
ghost use Rattle.toml.specs.View.{view};
ghost use Rattle.sdf_document.specs.Fault.{place_view};
ghost use Rattle.sdf_document.specs.Lists.{files_view};
ghost use Rattle.sdf_why.specs.Actors.{lines_of};
ghost use Rattle.sdf_why.specs.Coefficients.{file_key, values_in, count_text, most_text, count_line, items_told};
ghost use Rattle.sdf_why.specs.Coefficients.{list_told, file_told, named_told, list_of, table_told, listed_told};
ghost use Rattle.sdf_why.specs.Coefficients.{actor_values, values_told};

use crate::limits::kind_limits;
use crate::tables::{Source, entry, file_root, text_at, value_at};
use crate::values::{push_unfit, push_unfit_at_key};
use crate::words::{push_key, push_quoted};
use sdf_document::{CoefficientFile, Limits, Place};
use sdf_kinds::Width;
use std::alloc::{AllocError, Global};
use toml::Value;

/// Adds the line of `key` in the coefficient file `name`.
#[tactic(auto, unfolding(crate::specs::Coefficients::file_key))]
pub(crate) fn push_file_key(
    alloc: Global,
    text: &mut String,
    files: &[CoefficientFile],
    name: &str,
    key: &str,
    limits: Option<&str>,
) -> Result<(), AllocError>
    ensures { OnOk result (string_bytes text.new ≡ string_bytes text.old
        ++ file_key name.now key.now (option_map (λ s. s.now) limits.entry) (files_view files.now)) }
{
    match file_root(alloc, files, name)? {
        Some(table) => push_key(alloc, text, key, value_at(&table, key), limits),
        None => Ok(()),
    }
}

/// Returns the label of the values in the file `name`.
#[tactic(auto, unfolding(crate::specs::Coefficients::values_in))]
fn values_label(alloc: Global, name: &str) -> Result<String, AllocError>
    ensures { IfOk result (λ label. string_bytes label ≡ values_in name.now) }
{
    let mut label = String::new(alloc);
    label.push_str("  ")?;
    push_quoted(alloc, &mut label, name)?;
    label.push_str(": values")?;
    Ok(label)
}

#[tactic(auto, unfolding(crate::specs::Coefficients::count_text))]
fn push_count(text: &mut String, count: usize) -> Result<(), AllocError>
    ensures { OnOk result (string_bytes text.new ≡ string_bytes text.old ++ count_text count) }
{
    write!(text, " = a list of {count}")
}

#[tactic(auto, unfolding(crate::specs::Coefficients::most_text))]
fn push_most(text: &mut String, most: usize) -> Result<(), AllocError>
    ensures { OnOk result (string_bytes text.new ≡ string_bytes text.old ++ most_text most) }
{
    writeln!(text, ", needs 1..{most}")
}

/// Adds the line of a list that has `count` values and may have at most `most`.
#[tactic(auto, unfolding(crate::specs::Coefficients::count_line))]
fn push_count_line(
    text: &mut String,
    label: &str,
    count: usize,
    most: usize,
) -> Result<(), AllocError>
    ensures { OnOk result (string_bytes text.new ≡ string_bytes text.old ++ count_line label.now count most) }
{
    text.push_str(label)?;
    push_count(text, count)?;
    push_most(text, most)
}

/// Adds the number of items of `list` if it is outside the limits, and otherwise the first item that does not fit.
fn push_items(
    alloc: Global,
    text: &mut String,
    label: &str,
    limits: Limits,
    list: &Value,
    count: usize,
) -> Result<(), AllocError>
    ensures { OnOk result (string_bytes text.new ≡ string_bytes text.old
        ++ items_told label.now limits (view list.now) count) }
{
    if count < 1 || count > limits.most {
        return push_count_line(text, label, count, limits.most);
    }
    push_unfit(alloc, text, label, Some(limits.width), list, count)
}

#[tactic(auto, unfolding(crate::specs::Coefficients::list_told), using(crate::proofs::Items::item_count_view))]
fn push_list(
    alloc: Global,
    text: &mut String,
    name: &str,
    limits: Limits,
    list: &Value,
) -> Result<(), AllocError>
    ensures { OnOk result (string_bytes text.new ≡ string_bytes text.old
        ++ list_told name.now limits (view list.now)) }
{
    let Some(items) = list.as_array() else {
        return Ok(());
    };
    let label = values_label(alloc, name)?;
    push_items(alloc, text, label.as_str(), limits, list, items.len())
}

fn push_list_of(
    alloc: Global,
    text: &mut String,
    name: &str,
    limits: Limits,
    table: &Value,
) -> Result<(), AllocError>
    ensures { OnOk result (string_bytes text.new ≡ string_bytes text.old
        ++ lines_of (list_told name.now limits) (get (codes "values") (view table.now))) }
{
    match value_at(table, "values") {
        Some(list) => push_list(alloc, text, name, limits, list),
        None => Ok(()),
    }
}

/// Adds what is outside the limits in the list of the file `name`.
#[tactic(auto, unfolding(crate::specs::Coefficients::file_told))]
fn push_file(
    alloc: Global,
    text: &mut String,
    files: &[CoefficientFile],
    limits: Limits,
    name: &str,
) -> Result<(), AllocError>
    ensures { OnOk result (string_bytes text.new ≡ string_bytes text.old
        ++ file_told (files_view files.now) limits name.now) }
{
    match file_root(alloc, files, name)? {
        Some(table) => push_list_of(alloc, text, name, limits, &table),
        None => Ok(()),
    }
}

/// Adds what is outside the limits in the file that an actor's table names.
fn push_named(
    alloc: Global,
    text: &mut String,
    files: &[CoefficientFile],
    actor: &Value,
    limits: Limits,
) -> Result<(), AllocError>
    ensures { OnOk result (string_bytes text.new ≡ string_bytes text.old
        ++ named_told (files_view files.now) (view actor.now) limits) }
{
    match text_at(actor, "file") {
        Some(name) => push_file(alloc, text, files, limits, name),
        None => Ok(()),
    }
}

/// Returns the limits of the list that the kind of `actor` has.
fn limits_of(actor: &Value) -> Option<Limits>
    ensures { result ≡ list_of (view actor.now) }
{
    kind_limits(text_at(actor, "kind")?)
}

#[tactic(auto, unfolding(crate::specs::Coefficients::table_told))]
fn push_table(
    alloc: Global,
    text: &mut String,
    files: &[CoefficientFile],
    actor: &Value,
) -> Result<(), AllocError>
    ensures { OnOk result (string_bytes text.new ≡ string_bytes text.old
        ++ table_told (files_view files.now) (view actor.now)) }
{
    match limits_of(actor) {
        Some(limits) => push_named(alloc, text, files, actor, limits),
        None => Ok(()),
    }
}

/// Adds the first value that does not fit in the list at `key` of an actor's table.
#[tactic(auto, unfolding(crate::specs::Coefficients::listed_told))]
fn push_listed(alloc: Global, text: &mut String, key: &str, actor: &Value) -> Result<(), AllocError>
    ensures { OnOk result (string_bytes text.new ≡ string_bytes text.old
        ++ listed_told key.now (view actor.now)) }
{
    match limits_of(actor) {
        Some(limits) => push_unfit_at_key(alloc, text, key, Some(limits.width), actor),
        None => Ok(()),
    }
}

#[tactic(auto, unfolding(crate::specs::Coefficients::actor_values))]
fn push_actor_values(
    alloc: Global,
    text: &mut String,
    files: &[CoefficientFile],
    key: &str,
    actor: &Value,
) -> Result<(), AllocError>
    ensures { OnOk result (string_bytes text.new ≡ string_bytes text.old
        ++ actor_values key.now (files_view files.now) (view actor.now)) }
{
    if key == "file" {
        push_table(alloc, text, files, actor)
    } else {
        push_listed(alloc, text, key, actor)
    }
}

/// Adds what is outside the limits in the list at `key` of `place`, or in the file that an actor's key `file` names.
pub(crate) fn push_values(
    alloc: Global,
    text: &mut String,
    source: Source<'_>,
    place: &Place,
    key: &str,
) -> Result<(), AllocError>
    ensures { OnOk result (string_bytes text.new ≡ string_bytes text.old ++ values_told
        (place_view place.now) key.now (view source.entry.graph.now) (files_view source.entry.files.now)) }
{
    match place {
        Place::Top | Place::File(_) => Ok(()),
        Place::Actor(number) => match entry(source.graph, "actor", *number) {
            Some(actor) => push_actor_values(alloc, text, source.files, key, actor),
            None => Ok(()),
        },
        Place::Link(number) => match entry(source.graph, "link", *number) {
            Some(link) => push_unfit_at_key(alloc, text, key, Some(Width::Bits32), link),
            None => Ok(()),
        },
    }
}
