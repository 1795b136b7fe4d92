//! Values of the keys of a row: one reader for all kinds.
ghost use Rattle.std.specs.Prelude.{◌≡◌, ◌++◌, ◌≤◌, ◌≤ℤ◌, map, IfOk, OnOk};
ghost use Rattle.std.specs.Vec.Iter.{into_iter_items};
ghost use Rattle.toml.specs.Data.{get_member};
ghost use Rattle.toml.specs.View.{table_view};
ghost use Rattle.sdf_document.specs.Fault.{Gives};
ghost use Rattle.sdf_document.specs.Tables.{texts_of};
ghost use Rattle.sdf_document.specs.Lists.{lookup_of, are_read};
ghost use Rattle.sdf_kinds.specs.Rows.{keys_view};
ghost use Rattle.sdf_document.specs.Kinds.{used_key, names_of_keys, actor_keys, natural_at, integer_at};
ghost use Rattle.sdf_document.specs.Kinds.{key_value_at, values_at, HasForm, HaveForms};

use crate::entry::ListEntry;
use crate::fault::{DocumentFault, Place, ReadFault};
use crate::file::Files;
use crate::list::{Limits, list_at};
use crate::value::{at, integer_in, natural_in, optional_at};
use sdf_kinds::{Form, KeyForm, shared_keys};
use std::alloc::{AllocError, Global};
use toml::Table;

/// The value of a key, by its form.
#[derive(Debug, Drop)]
pub enum KeyValue {
    Natural(u32),
    Optional(Option<u32>),
    Integer(i32),
    List(ListEntry),
}

/// Returns the key that `table` uses for `name`: `file` for a list that is not at `name`, otherwise `name`.
fn used_key(table: &Table, name: &'static str, form: Form) -> &'static str
    ensures { result.now ≡ used_key (table_view table.now) name.now form }
{
    match form {
        Form::List(_, _) if at(table, name).is_none() => "file",
        _ => name,
    }
}

#[tactic(auto, using(std::proofs::lemmas::List::map_push, std::proofs::lemmas::List::map_more))]
fn push_names(
    names: &mut Vec<&'static str>,
    keys: &[KeyForm],
    table: &Table,
) -> Result<(), AllocError>
    ensures { OnOk result (texts_of names.new.items ≡
        texts_of names.old.items ++ names_of_keys (table_view table.now) (keys_view keys.now)) }
{
    for key in keys {
        names.push(used_key(table, key.0.name(), key.1))?;
    }
    Ok(())
}

/// Returns the keys that an actor's table may have: `name`, `kind`, the `keys` of its kind, and the shared keys.
pub(crate) fn actor_keys(
    alloc: Global,
    keys: &[KeyForm],
    table: &Table,
) -> Result<Vec<&'static str>, AllocError>
    ensures { IfOk result (λ v. texts_of v.items ≡ actor_keys (keys_view keys.now) (table_view table.now)) }
{
    let mut names: Vec<&'static str> = Vec::new(alloc);
    names.push("name")?;
    names.push("kind")?;
    push_names(&mut names, keys, table)?;
    push_names(&mut names, shared_keys(), table)?;
    Ok(names)
}

fn natural_at(
    actor: usize,
    key: &'static str,
    least: u32,
    most: u32,
    absent: Option<u32>,
    table: &Table,
) -> Result<u32, ReadFault>
    ensures given { Gives (λ n. n) result (natural_at actor key.now least most absent
        (get_member key.now (table_view table.now))) }
    ensures within { IfOk result (λ n. (least ≤ n) × (n ≤ most)) }
{
    if let Some(value) = at(table, key) {
        return natural_in(Place::Actor(actor), key, least, most, value);
    }
    match absent {
        Some(number) if least <= number && number <= most => Ok(number),
        Some(_) => Err(DocumentFault::KitValue(Place::Actor(actor), key).into()),
        None => Err(DocumentFault::MissingKey(Place::Actor(actor), key).into()),
    }
}

fn integer_at(
    actor: usize,
    key: &'static str,
    least: i32,
    most: i32,
    absent: Option<i32>,
    table: &Table,
) -> Result<i32, ReadFault>
    ensures given { Gives (λ n. n) result (integer_at actor key.now least most absent
        (get_member key.now (table_view table.now))) }
    ensures within { IfOk result (λ n. (least ≤ℤ n) × (n ≤ℤ most)) }
{
    if let Some(value) = at(table, key) {
        return integer_in(actor, key, least, most, value);
    }
    match absent {
        Some(number) if least <= number && number <= most => Ok(number),
        Some(_) => Err(DocumentFault::KitValue(Place::Actor(actor), key).into()),
        None => Err(DocumentFault::MissingKey(Place::Actor(actor), key).into()),
    }
}

/// Reads the value at `key` of an actor, in the given `form`.
fn key_value_at(
    alloc: Global,
    actor: usize,
    files: Files<'_>,
    key: &'static str,
    form: Form,
    table: &Table,
) -> Result<KeyValue, ReadFault>
    ensures given { Gives (λ v. v) result (key_value_at actor (lookup_of files.entry) key.now form
        (table_view table.now)) }
    ensures within { IfOk result (λ v. HasForm (are_read files.entry) form v) }
{
    match form {
        Form::Natural(least, most, absent) => {
            let number = natural_at(actor, key, least, most, absent, table)?;
            Ok(KeyValue::Natural(number))
        }
        Form::Optional(least, most) => {
            let number = optional_at(Place::Actor(actor), key, least, most, table)?;
            Ok(KeyValue::Optional(number))
        }
        Form::Integer(least, most, absent) => {
            let number = integer_at(actor, key, least, most, absent, table)?;
            Ok(KeyValue::Integer(number))
        }
        Form::FromLeast(least, most, absent) => {
            let number = integer_at(actor, key, least, most, absent, table)?;
            Ok(KeyValue::Integer(number))
        }
        Form::List(most, width) => {
            let limits = Limits { most, width };
            let list = list_at(alloc, actor, key, limits, files, table)?;
            Ok(KeyValue::List(list))
        }
    }
}

/// Reads the values of `keys` from an actor's `table`, in the order of `keys`.
pub(crate) fn values_at(
    alloc: Global,
    actor: usize,
    files: Files<'_>,
    keys: &[KeyForm],
    table: &Table,
) -> Result<Vec<KeyValue>, ReadFault>
    ensures given { Gives (λ v. v.items) result (values_at actor (lookup_of files.entry) (keys_view keys.now)
        (table_view table.now)) }
    ensures within { IfOk result (λ v. HaveForms (are_read files.entry) (keys_view keys.now) v.items) }
{
    let mut values = Vec::new(alloc);
    for key in keys {
        let value = key_value_at(alloc, actor, files, key.0.name(), key.1, table)?;
        values.push(value)?;
    }
    Ok(values)
}
