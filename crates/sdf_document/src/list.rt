//! Lists of whole numbers: in an array of their own, or in a coefficient file.
ghost use Rattle.std.specs.Prelude.{◌≡◌, ◌&&◌, map, option_map, length, nat_le, int_le, Some, None, IfOk, IsTrue};
ghost use Rattle.std.specs.Prelude.{if◌then◌else◌};
ghost use Rattle.std.specs.List.{list_all};
ghost use Rattle.toml.specs.View.{table_view, view};
ghost use Rattle.sdf_document.specs.Fault.{Gives};
ghost use Rattle.sdf_document.specs.Lists.{lookup_of, are_read, fits, all_of, is_list, list_within, name_in};
ghost use Rattle.sdf_document.specs.Lists.{file_values};
ghost use Rattle.sdf_document.specs.Lists.{list_in_file, array_in, list_at, IsListed};

use crate::entry::ListEntry;
use crate::fault::{BorrowedPlace, DocumentFault, Place, ReadFault};
use crate::file::{Files, coefficients, file_named};
use crate::name::is_file_name;
use crate::value::{at, integers_at};
use sdf_kinds::Width;
use std::alloc::{AllocError, Global};
use toml::{Table, Value};

/// The greatest length of a list, and the width of its numbers.
#[derive(Clone, Copy)]
pub struct Limits {
    pub most: usize,
    pub width: Width,
}

/// Returns `number` if it fits `width`.
pub fn fit_width(width: Width, number: i64) -> Option<i32>
    ensures { result ≡ (if fits width number then Some number else None) }
{
    match width {
        Width::Bits16 if -32768 <= number && number <= 32767 => Some(number as i32),
        Width::Bits32 if -2147483648 <= number && number <= 2147483647 => Some(number as i32),
        _ => None,
    }
}

/// Returns `numbers` if each of them fits `width`.
pub(crate) fn all_of(
    alloc: Global,
    width: Width,
    numbers: &[i64],
) -> Result<Option<Vec<i32>>, AllocError>
    ensures { IfOk result (λ r. option_map (λ v. v.items) r ≡ all_of width numbers.now) }
{
    let mut values = Vec::new(alloc);
    for number in numbers {
        match fit_width(width, *number) {
            Some(value) => values.push(value)?,
            None => return Ok(None),
        }
    }
    Ok(Some(values))
}

fn list_of(alloc: Global, limits: Limits, numbers: &[i64]) -> Result<Option<Vec<i32>>, AllocError>
    ensures { IfOk result (λ r. option_map (λ v. v.items) r ≡
        (if is_list limits.most limits.width numbers.now then Some numbers.now else None)) }
{
    if numbers.is_empty() || numbers.len() > limits.most {
        return Ok(None);
    }
    all_of(alloc, limits.width, numbers)
}

/// Returns `numbers` as a list within `limits`, or a fault at `key` of the actor.
fn list_within(
    alloc: Global,
    actor: usize,
    key: &'static str,
    limits: Limits,
    numbers: &[i64],
) -> Result<Vec<i32>, ReadFault>
    ensures given { Gives (λ v. v.items) result (list_within actor key.now limits.most limits.width numbers.now) }
    ensures within { IfOk result (λ v. IsTrue (is_list limits.most limits.width v.items)) }
{
    match list_of(alloc, limits, numbers)? {
        Some(list) => Ok(list),
        None => Err(DocumentFault::KitValue(Place::Actor(actor), key).into()),
    }
}

#[tactic(auto, unfolding(crate::specs::Lists::name_in))]
fn name_in(actor: usize, value: &Value) -> Result<&str, ReadFault>
    ensures { Gives (λ s. s.now) result (name_in actor (view value.now)) }
{
    let Some(name) = value.as_str() else {
        return Err(DocumentFault::WrongType(Place::Actor(actor), "file").into());
    };
    if is_file_name(name) {
        Ok(name)
    } else {
        Err(DocumentFault::BadName(Place::Actor(actor), "file").into())
    }
}

/// Returns the values of the coefficient file `name`, or no values if `files` are not looked into.
#[tactic(auto, unfolding(crate::specs::Lists::file_values))]
fn file_values(
    alloc: Global,
    actor: usize,
    limits: Limits,
    files: Files<'_>,
    name: &str,
) -> Result<Vec<i32>, ReadFault>
    ensures given { Gives (λ v. v.items) result (file_values actor limits.most limits.width
        (lookup_of files.entry) name.now) }
    ensures within { IfOk result (λ v. IsListed (are_read files.entry) limits.most limits.width v.items) }
{
    let Files::Given(files) = files else {
        return Ok(Vec::new(alloc));
    };
    let Some(bytes) = file_named(name, files) else {
        return Err(DocumentFault::NoFile(String::from_str(alloc, name)?).into());
    };
    let numbers = coefficients(alloc, name, bytes)?;
    list_within(alloc, actor, "file", limits, numbers.as_slice())
}

#[tactic(auto, unfolding(crate::specs::Lists::list_in_file))]
fn list_in_file(
    alloc: Global,
    actor: usize,
    limits: Limits,
    files: Files<'_>,
    value: &Value,
) -> Result<ListEntry, ReadFault>
    ensures given { Gives (λ l. l) result (list_in_file actor limits.most limits.width (lookup_of files.entry)
        (view value.now)) }
    ensures within { IfOk result (λ l. IsListed (are_read files.entry) limits.most limits.width l.values) }
{
    let name = name_in(actor, value)?;
    let values = file_values(alloc, actor, limits, files, name)?;
    Ok(ListEntry {
        file: Some(String::from_str(alloc, name)?),
        values,
    })
}

#[tactic(auto, unfolding(crate::specs::Lists::array_in))]
fn array_in(
    alloc: Global,
    actor: usize,
    key: &'static str,
    limits: Limits,
    value: &Value,
) -> Result<ListEntry, ReadFault>
    ensures given { Gives (λ l. l) result (array_in actor key.now limits.most limits.width (view value.now)) }
    ensures within { IfOk result (λ l. IsTrue (is_list limits.most limits.width l.values)) }
{
    let numbers = integers_at(alloc, BorrowedPlace::Actor(actor), key, value)?;
    let values = list_within(alloc, actor, key, limits, numbers.as_slice())?;
    Ok(ListEntry { file: None, values })
}

/// Reads the list of an actor, at `key` if it is there, otherwise from the file that the key `file` names.
#[tactic(auto, unfolding(crate::specs::Lists::list_at))]
pub(crate) fn list_at(
    alloc: Global,
    actor: usize,
    key: &'static str,
    limits: Limits,
    files: Files<'_>,
    table: &Table,
) -> Result<ListEntry, ReadFault>
    ensures given { Gives (λ l. l) result (list_at actor key.now limits.most limits.width (lookup_of files.entry)
        (table_view table.now)) }
    ensures within { IfOk result (λ l. IsListed (are_read files.entry) limits.most limits.width l.values) }
{
    if let Some(value) = at(table, key) {
        return array_in(alloc, actor, key, limits, value);
    }
    match at(table, "file") {
        Some(value) => list_in_file(alloc, actor, limits, files, value),
        None => Err(DocumentFault::MissingKey(Place::Actor(actor), key).into()),
    }
}
