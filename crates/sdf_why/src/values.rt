//! The first value of a list that does not fit.

ghost use Rattle.std.specs.Prelude.{◌≡◌, ◌++◌, IfOk, OnOk, option_and_then, string_bytes};
ghost use Rattle.toml.specs.Data.{at, as_integer};
ghost use Rattle.toml.specs.View.{view};
ghost use Rattle.sdf_why.specs.Values.{is_within, is_unfit, first_unfit, width_text, place_text, width_needed};
ghost use Rattle.sdf_why.specs.Values.{value_line, value_told, unfit_told, key_label, unfit_in_list, unfit_at_key};

use crate::tables::value_at;
use crate::words::push_value;
use sdf_document::fit_width;
use sdf_kinds::Width;
use std::alloc::{AllocError, Global};
use toml::Value;

/// Returns the whole number at the index `place` of `list`.
fn number_at(list: &Value, place: usize) -> Option<i64>
    ensures { result ≡ option_and_then as_integer (at place (view list.now)) }
{
    list.get(place)?.as_integer()
}

/// Checks whether `number` is of this `width`. Without a width, each number is.
fn is_within(width: Option<Width>, number: i64) -> bool
    ensures { result ≡ is_within width number }
{
    match width {
        Some(width) => fit_width(width, number).is_some(),
        None => true,
    }
}

/// Checks whether the item at the index `place` of `list` is not a whole number, or not of this `width`.
#[tactic(auto, unfolding(crate::specs::Values::is_unfit))]
fn is_unfit(width: Option<Width>, list: &Value, place: usize) -> bool
    ensures { result ≡ is_unfit width (view list.now) place }
{
    match number_at(list, place) {
        Some(number) => !is_within(width, number),
        None => true,
    }
}

/// Returns the first index below `count` whose item in `list` is not a whole number, or not of this `width`.
#[tactic(auto, unfolding(crate::specs::Values::first_unfit))]
fn first_unfit(width: Option<Width>, list: &Value, count: usize) -> Option<usize>
    ensures { result ≡ first_unfit width (view list.now) count }
{
    (0..count).find(|place| is_unfit(width, list, *place))
}

/// Returns the range of `width`. Without a width, returns the type.
fn width_text(width: Option<Width>) -> &'static str
    ensures { result.now ≡ width_text width }
{
    match width {
        None => "a whole number",
        Some(Width::Bits16) => "-32768..32767",
        Some(Width::Bits32) => "-2147483648..2147483647",
    }
}

#[tactic(auto, unfolding(crate::specs::Values::place_text))]
fn push_place(text: &mut String, place: usize) -> Result<(), AllocError>
    ensures { OnOk result (string_bytes text.new ≡ string_bytes text.old ++ place_text place) }
{
    write!(text, "[{place}] = ")
}

fn push_width(text: &mut String, width: Option<Width>) -> Result<(), AllocError>
    ensures { OnOk result (string_bytes text.new ≡ string_bytes text.old ++ width_needed width) }
{
    let wanted = width_text(width);
    writeln!(text, ", needs {wanted}")
}

/// Adds the line of a `value` that does not fit, with the `label` of its list and its index `place`.
#[tactic(auto, unfolding(crate::specs::Values::value_line))]
fn push_line(
    alloc: Global,
    text: &mut String,
    label: &str,
    width: Option<Width>,
    place: usize,
    value: &Value,
) -> Result<(), AllocError>
    ensures { OnOk result (string_bytes text.new ≡ string_bytes text.old
        ++ value_line label.now width place (view value.now)) }
{
    text.push_str(label)?;
    push_place(text, place)?;
    push_value(alloc, text, value)?;
    push_width(text, width)
}

/// Adds the line of the value at the index `place` of `list`.
#[tactic(auto, unfolding(crate::specs::Values::value_told))]
fn push_value_at(
    alloc: Global,
    text: &mut String,
    label: &str,
    width: Option<Width>,
    list: &Value,
    place: usize,
) -> Result<(), AllocError>
    ensures { OnOk result (string_bytes text.new ≡ string_bytes text.old
        ++ value_told label.now width (view list.now) place) }
{
    match list.get(place) {
        Some(value) => push_line(alloc, text, label, width, place, value),
        None => Ok(()),
    }
}

/// Adds the first of the `count` items of `list` that is not a whole number, or not of this `width`.
#[tactic(auto, unfolding(crate::specs::Values::unfit_told))]
pub(crate) fn push_unfit(
    alloc: Global,
    text: &mut String,
    label: &str,
    width: Option<Width>,
    list: &Value,
    count: usize,
) -> Result<(), AllocError>
    ensures { OnOk result (string_bytes text.new ≡ string_bytes text.old
        ++ unfit_told label.now width (view list.now) count) }
{
    match first_unfit(width, list, count) {
        Some(place) => push_value_at(alloc, text, label, width, list, place),
        None => Ok(()),
    }
}

/// Returns the label of the list at `key`.
#[tactic(auto, unfolding(crate::specs::Values::key_label))]
fn key_label(alloc: Global, key: &str) -> Result<String, AllocError>
    ensures { IfOk result (λ label. string_bytes label ≡ key_label key.now) }
{
    format!(in alloc; "  {key}")
}

#[tactic(auto, unfolding(crate::specs::Values::unfit_in_list), using(crate::proofs::Items::item_count_view))]
fn push_unfit_in_list(
    alloc: Global,
    text: &mut String,
    key: &str,
    width: Option<Width>,
    list: &Value,
) -> Result<(), AllocError>
    ensures { OnOk result (string_bytes text.new ≡ string_bytes text.old
        ++ unfit_in_list key.now width (view list.now)) }
{
    let Some(items) = list.as_array() else {
        return Ok(());
    };
    let label = key_label(alloc, key)?;
    push_unfit(alloc, text, label.as_str(), width, list, items.len())
}

/// Adds the first value that is not a whole number, or not of this `width`, in the list at `key` of `table`.
#[tactic(auto, unfolding(crate::specs::Values::unfit_at_key))]
pub(crate) fn push_unfit_at_key(
    alloc: Global,
    text: &mut String,
    key: &str,
    width: Option<Width>,
    table: &Value,
) -> Result<(), AllocError>
    ensures { OnOk result (string_bytes text.new ≡ string_bytes text.old
        ++ unfit_at_key key.now width (view table.now)) }
{
    match value_at(table, key) {
        Some(list) => push_unfit_in_list(alloc, text, key, width, list),
        None => Ok(()),
    }
}
