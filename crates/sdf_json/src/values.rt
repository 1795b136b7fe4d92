//! The parts of values, and the line of a value.

ghost use Rattle.std.specs.Prelude.{◌≡◌, ◌++◌, ◌∷◌, ◌≤◌, [], IfOk, OnOk, string_bytes};
ghost use Rattle.serde_json.specs.Data.{no_members, put as with_member, depth, string, object, array};
ghost use Rattle.serde_json.specs.Read.{max_depth};
ghost use Rattle.serde_json.specs.View.{view, members_view, items_view};
ghost use Rattle.sdf_json.specs.Values.{natural, or_null, IsLineOf};

use serde_json::{Map, Value, put};
use std::alloc::{AllocError, Global};

/// The members of an object, by their keys.
pub(crate) type Members = Map<String, Value>;

/// Adds a member that is a text.
pub(crate) fn put_text(
    members: &mut Members,
    alloc: Global,
    key: &str,
    text: &str,
) -> Result<(), AllocError>
    ensures { OnOk result (members_view members.new.entries ≡
        with_member key.now (string text.now) (members_view members.old.entries)) }
{
    let value = Value::try_from_str(alloc, text)?;
    put(members, alloc, key, value)
}

/// Adds a member that is a number.
pub(crate) fn put_number(
    members: &mut Members,
    alloc: Global,
    key: &str,
    number: u64,
) -> Result<(), AllocError>
    ensures { OnOk result (members_view members.new.entries ≡
        with_member key.now (natural number) (members_view members.old.entries)) }
{
    put(members, alloc, key, Value::from(number))
}

/// Returns a number, or null if there is none.
pub(crate) fn or_null(number: Option<usize>) -> Value
    ensures { view result ≡ or_null number }
{
    match number {
        Some(number) => Value::from(number),
        None => Value::Null,
    }
}

/// Returns the line of `value`.
pub(crate) fn line_of(alloc: Global, value: &Value) -> Result<String, AllocError>
    requires { depth (view value.now) ≤ max_depth }
    ensures { IfOk result (λ text. IsLineOf (view value.now) (string_bytes text)) }
{
    let mut text = value.to_string(alloc)?;
    text.push_str("\n")?;
    Ok(text)
}
