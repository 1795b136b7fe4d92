//! Values at single keys.
ghost use Rattle.std.specs.Prelude.{◌≡◌, ◌≤◌, ◌≤ℤ◌, option_map, IfOk, IfSome};
ghost use Rattle.toml.specs.Data.{get_member};
ghost use Rattle.toml.specs.View.{table_view, view, items_view};
ghost use Rattle.sdf_document.specs.Fault.{Gives, place_view, borrowed_view};
ghost use Rattle.sdf_document.specs.Values.{text_at, natural_in, optional_at, integer_in, integers_in, integers_at};

use crate::fault::{BorrowedPlace, DocumentFault, Place, ReadFault};
use std::alloc::{AllocError, Global};
use toml::{Table, Value};

/// Returns the value at `key`, if `table` has one.
pub(crate) fn at<'a>(table: &'a Table, key: &str) -> Option<&'a Value>
    ensures { option_map (λ v. view v.now) result ≡ get_member key.now (table_view table.now) }
{
    table.get(key)
}

/// Returns the text at `key`, which must be there.
#[tactic(auto, unfolding(crate::specs::Values::text_at))]
pub(crate) fn text_at<'a>(
    place: Place,
    key: &'static str,
    table: &'a Table,
) -> Result<&'a str, ReadFault>
    ensures { Gives (λ s. s.now) result (text_at (place_view place) key.now (table_view table.now)) }
{
    let Some(value) = at(table, key) else {
        return Err(DocumentFault::MissingKey(place, key).into());
    };
    match value.as_str() {
        Some(text) => Ok(text),
        None => Err(DocumentFault::WrongType(place, key).into()),
    }
}

/// Reads `value`, at `key`, as a whole number from `least` to `most`.
#[tactic(auto, unfolding(crate::specs::Values::natural_in))]
pub(crate) fn natural_in(
    place: Place,
    key: &'static str,
    least: u32,
    most: u32,
    value: &Value,
) -> Result<u32, ReadFault>
    ensures given { Gives (λ n. n) result (natural_in (place_view place) key.now least most (view value.now)) }
    ensures within { IfOk result (λ n. (least ≤ n) × (n ≤ most)) }
{
    let Some(number) = value.as_integer() else {
        return Err(DocumentFault::WrongType(place, key).into());
    };
    if i64::from(least) <= number && number <= i64::from(most) {
        Ok(number as u32)
    } else {
        Err(DocumentFault::KitValue(place, key).into())
    }
}

/// Reads the value at `key` as a whole number from `least` to `most`, if `table` has the key.
pub(crate) fn optional_at(
    place: Place,
    key: &'static str,
    least: u32,
    most: u32,
    table: &Table,
) -> Result<Option<u32>, ReadFault>
    ensures given { Gives (λ n. n) result (optional_at (place_view place) key.now least most
        (get_member key.now (table_view table.now))) }
    ensures within { IfOk result (λ o. IfSome o (λ n. (least ≤ n) × (n ≤ most))) }
{
    match at(table, key) {
        Some(value) => Ok(Some(natural_in(place, key, least, most, value)?)),
        None => Ok(None),
    }
}

/// Reads `value`, at `key` of an actor, as a whole number of either sign from `least` to `most`.
#[tactic(auto, unfolding(crate::specs::Values::integer_in))]
pub(crate) fn integer_in(
    actor: usize,
    key: &'static str,
    least: i32,
    most: i32,
    value: &Value,
) -> Result<i32, ReadFault>
    ensures given { Gives (λ n. n) result (integer_in actor key.now least most (view value.now)) }
    ensures within { IfOk result (λ n. (least ≤ℤ n) × (n ≤ℤ most)) }
{
    let Some(number) = value.as_integer() else {
        return Err(DocumentFault::WrongType(Place::Actor(actor), key).into());
    };
    if i64::from(least) <= number && number <= i64::from(most) {
        Ok(number as i32)
    } else {
        Err(DocumentFault::KitValue(Place::Actor(actor), key).into())
    }
}

/// Returns the numbers of `items`, or `None` if an item is not a whole number.
fn integers_in(alloc: Global, items: &[Value]) -> Result<Option<Vec<i64>>, AllocError>
    ensures { IfOk result (λ r. option_map (λ v. v.items) r ≡ integers_in (items_view items.now)) }
{
    let mut numbers = Vec::new(alloc);
    for item in items {
        match item.as_integer() {
            Some(number) => numbers.push(number)?,
            None => return Ok(None),
        }
    }
    Ok(Some(numbers))
}

/// Reads `value`, at `key`, as an array of whole numbers.
#[tactic(auto, unfolding(crate::specs::Values::integers_at))]
pub(crate) fn integers_at(
    alloc: Global,
    borrowed: BorrowedPlace<'_>,
    key: &'static str,
    value: &Value,
) -> Result<Vec<i64>, ReadFault>
    ensures { Gives (λ v. v.items) result (integers_at (borrowed_view borrowed.entry) key.now (view value.now)) }
{
    let Some(array) = value.as_array() else {
        let place = borrowed.place(alloc)?;
        return Err(DocumentFault::WrongType(place, key).into());
    };
    match integers_in(alloc, array.as_slice())? {
        Some(numbers) => Ok(numbers),
        None => {
            let place = borrowed.place(alloc)?;
            Err(DocumentFault::WrongType(place, key).into())
        }
    }
}
