//! The parts of a fault's value: its number, its name, and where it is.

ghost use Rattle.std.specs.Prelude.{◌≡◌, ◌∷◌, [], IfOk, OnOk, codes};
ghost use Rattle.serde_json.specs.Data.{string, put as with_member};
ghost use Rattle.serde_json.specs.View.{view, members_view};
ghost use Rattle.sdf_json.specs.Values.{natural, with};
ghost use Rattle.sdf_json.specs.FaultMembers.{number_and_name, told, plain_fault, at, place_member, at_place, at_key};

use crate::values::{Members, put_number, put_text};
use sdf_document::Place;
use serde_json::{Map, Value, put};
use std::alloc::{AllocError, Global};

/// Returns the members that every fault has: its number and its name.
pub(crate) fn number_and_name(alloc: Global, number: u32, name: &str) -> Result<Members, AllocError>
    ensures { IfOk result (λ m. members_view m.entries ≡ number_and_name number name.now) }
{
    let mut members = Map::new(alloc);
    put_number(&mut members, alloc, "fault", u64::from(number))?;
    put_text(&mut members, alloc, "name", name)?;
    Ok(members)
}

/// Returns the value of a fault that has only its number and name.
pub(crate) fn plain_fault(alloc: Global, number: u32, name: &str) -> Result<Value, AllocError>
    ensures { IfOk result (λ v. view v ≡ plain_fault number name.now) }
{
    Ok(Value::Object(number_and_name(alloc, number, name)?))
}

/// Returns the value of a fault with `index` under the key `word`.
pub(crate) fn at(
    alloc: Global,
    number: u32,
    name: &str,
    word: &str,
    index: usize,
) -> Result<Value, AllocError>
    ensures { IfOk result (λ v. view v ≡ at number name.now word.now index) }
{
    let mut members = number_and_name(alloc, number, name)?;
    put_number(&mut members, alloc, word, index as u64)?;
    Ok(Value::Object(members))
}

/// Adds `place` under its key.
fn put_place(members: &mut Members, alloc: Global, place: &Place) -> Result<(), AllocError>
    ensures { OnOk result (members_view members.new.entries ≡
        with (members_view members.old.entries) (place_member place.now ∷ [])) }
{
    match place {
        Place::Top => put(members, alloc, "top", Value::Bool(true)),
        Place::Actor(number) => put_number(members, alloc, "actor", *number as u64),
        Place::Link(number) => put_number(members, alloc, "link", *number as u64),
        Place::File(name) => put_text(members, alloc, "file", name.as_str()),
    }
}

/// Returns a fault at `place`.
pub(crate) fn at_place(
    alloc: Global,
    number: u32,
    name: &str,
    place: &Place,
) -> Result<Value, AllocError>
    ensures { IfOk result (λ v. view v ≡ at_place number name.now place.now) }
{
    let mut members = number_and_name(alloc, number, name)?;
    put_place(&mut members, alloc, place)?;
    Ok(Value::Object(members))
}

/// Returns a fault of `key` at `place`.
pub(crate) fn at_key(
    alloc: Global,
    number: u32,
    name: &str,
    place: &Place,
    key: &str,
) -> Result<Value, AllocError>
    ensures { IfOk result (λ v. view v ≡ at_key number name.now place.now key.now) }
{
    let mut members = number_and_name(alloc, number, name)?;
    put_place(&mut members, alloc, place)?;
    put_text(&mut members, alloc, "key", key)?;
    Ok(Value::Object(members))
}
