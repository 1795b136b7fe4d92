//! The table of kinds as a line.

ghost use Rattle.std.specs.Prelude.{◌≡◌, IfOk, OnOk, map, string_bytes};
ghost use Rattle.serde_json.specs.Data.{put as with_member};
ghost use Rattle.serde_json.specs.View.{view, members_view};
ghost use Rattle.sdf_kinds.specs.Rows.{key_view, keys_view, kinds};
ghost use Rattle.sdf_json.specs.Values.{with, IsLineOf};
ghost use Rattle.sdf_json.specs.Ports.{ports_of};
ghost use Rattle.sdf_json.specs.Kinds.{amount_value, port_members, needed, optional, range_of, absent, range_members};
ghost use Rattle.sdf_json.specs.Kinds.{more_members, key_value, kind_value, kinds_value};

use crate::ports::{Amount, ports_of};
use crate::values::{Members, line_of, put_number, put_text};
use sdf_kinds::{Form, KeyForm, Kind, Width, kinds, row_of, shared_keys};
use serde_json::{Map, Value, put};
use std::alloc::{AllocError, Global};

/// Returns a number, or the name of the key that gives it.
fn amount_value(alloc: Global, amount: Amount) -> Result<Value, AllocError>
    ensures { IfOk result (λ v. view v ≡ amount_value amount) }
{
    match amount {
        Amount::Zero => Ok(Value::from(0u64)),
        Amount::One => Ok(Value::from(1u64)),
        Amount::Block => Value::try_from_str(alloc, "block"),
        Amount::Up => Value::try_from_str(alloc, "up"),
        Amount::Down => Value::try_from_str(alloc, "down"),
        Amount::Factor => Value::try_from_str(alloc, "factor"),
        Amount::Ways => Value::try_from_str(alloc, "ways"),
        Amount::Run => Value::try_from_str(alloc, "run"),
    }
}

fn put_amount(
    members: &mut Members,
    alloc: Global,
    key: &str,
    amount: Amount,
) -> Result<(), AllocError>
    ensures { OnOk result (members_view members.new.entries ≡
        with_member key.now (amount_value amount) (members_view members.old.entries)) }
{
    let value = amount_value(alloc, amount)?;
    put(members, alloc, key, value)
}

/// Adds the ports of a kind.
fn put_ports(members: &mut Members, alloc: Global, kind: Kind) -> Result<(), AllocError>
    ensures { OnOk result (members_view members.new.entries ≡
        with (members_view members.old.entries) (port_members (ports_of kind))) }
{
    let ports = ports_of(kind);
    put_amount(members, alloc, "inputs", ports.inputs.ports())?;
    put_amount(members, alloc, "takes", ports.inputs.samples())?;
    put_amount(members, alloc, "outputs", ports.outputs.ports())?;
    put_amount(members, alloc, "puts", ports.outputs.samples())?;
    put_amount(members, alloc, "cycle", ports.cycle)
}

/// The limits of the numbers at a key, the number if the key is absent, and whether the key is needed.
#[derive(Clone, Copy, Debug, PartialEq, Eq)]
pub struct Range {
    pub least: i64,
    pub most: i64,
    pub default: Option<i64>,
    pub needed: bool,
}

/// Returns the range of a key that is needed.
fn needed(least: i64, most: i64) -> Range
    ensures { result ≡ needed least most }
{
    Range {
        least,
        most,
        default: None,
        needed: true,
    }
}

/// Returns the range of a key that may be absent.
fn optional(least: i64, most: i64, default: Option<i64>) -> Range
    ensures { result ≡ optional least most default }
{
    Range {
        least,
        most,
        default,
        needed: false,
    }
}

/// Returns the range of the numbers that have this form.
fn range_of(form: Form) -> Range
    ensures { result ≡ range_of form }
{
    match form {
        Form::Natural(least, most, None) => needed(i64::from(least), i64::from(most)),
        Form::Natural(least, most, Some(default)) => optional(
            i64::from(least),
            i64::from(most),
            Some(i64::from(default)),
        ),
        Form::Optional(least, most) => optional(i64::from(least), i64::from(most), None),
        Form::Integer(least, most, None) | Form::FromLeast(least, most, None) => {
            needed(i64::from(least), i64::from(most))
        }
        Form::Integer(least, most, Some(default)) | Form::FromLeast(least, most, Some(default)) => {
            optional(i64::from(least), i64::from(most), Some(i64::from(default)))
        }
        Form::List(_, Width::Bits16) => needed(-32768, 32767),
        Form::List(_, Width::Bits32) => needed(-2147483648, 2147483647),
    }
}

/// Returns a number, or null if there is none.
fn absent(number: Option<i64>) -> Value
    ensures { view result ≡ absent number }
{
    match number {
        Some(number) => Value::from(number),
        None => Value::Null,
    }
}

/// Adds the members of `range`.
fn put_range(members: &mut Members, alloc: Global, range: Range) -> Result<(), AllocError>
    ensures { OnOk result (members_view members.new.entries ≡
        with (members_view members.old.entries) (range_members range)) }
{
    put(members, alloc, "least", Value::from(range.least))?;
    put(members, alloc, "most", Value::from(range.most))?;
    put(members, alloc, "default", absent(range.default))?;
    put(members, alloc, "needed", Value::Bool(range.needed))
}

/// Adds the key that a number may not be below, or the most numbers that a list may have.
fn put_more(members: &mut Members, alloc: Global, form: Form) -> Result<(), AllocError>
    ensures { OnOk result (members_view members.new.entries ≡
        with (members_view members.old.entries) (more_members form)) }
{
    match form {
        Form::FromLeast(_, _, _) => put_text(members, alloc, "from", "least"),
        Form::List(most, _) => put_number(members, alloc, "values", most as u64),
        Form::Natural(_, _, _) | Form::Optional(_, _) | Form::Integer(_, _, _) => Ok(()),
    }
}

fn key_value(alloc: Global, key: &KeyForm) -> Result<Value, AllocError>
    ensures { IfOk result (λ v. view v ≡ key_value (key_view key.now)) }
{
    let mut members = Map::new(alloc);
    put_text(&mut members, alloc, "name", key.0.name())?;
    put_range(&mut members, alloc, range_of(key.1))?;
    put_more(&mut members, alloc, key.1)?;
    Ok(Value::Object(members))
}

/// Returns the values of `keys`, in their order.
#[tactic(auto, using(std::proofs::lemmas::List::map_more))]
fn key_values(alloc: Global, keys: &[KeyForm]) -> Result<Vec<Value>, AllocError>
    ensures { IfOk result (λ list. map view list.items ≡ map key_value (keys_view keys.now)) }
{
    let mut list = Vec::new(alloc);
    for key in keys {
        list.push(key_value(alloc, key)?)?;
    }
    Ok(list)
}

fn kind_value(alloc: Global, kind: Kind) -> Result<Value, AllocError>
    ensures { IfOk result (λ v. view v ≡ kind_value kind) }
{
    let row = row_of(kind);
    let keys = key_values(alloc, row.keys)?;
    let mut members = Map::new(alloc);
    put(&mut members, alloc, "keys", Value::Array(keys))?;
    put_text(&mut members, alloc, "name", row.word)?;
    put_number(&mut members, alloc, "since", u64::from(row.since))?;
    put_ports(&mut members, alloc, kind)?;
    Ok(Value::Object(members))
}

/// Returns the values of all kinds, in the order of the table.
fn kind_values(alloc: Global) -> Result<Vec<Value>, AllocError>
    ensures { IfOk result (λ list. map view list.items ≡ map kind_value kinds) }
{
    let mut list = Vec::new(alloc);
    let all = kinds();
    for kind in all {
        list.push(kind_value(alloc, *kind)?)?;
    }
    Ok(list)
}

fn kinds_value(alloc: Global) -> Result<Value, AllocError>
    ensures { IfOk result (λ v. view v ≡ kinds_value) }
{
    let kinds = kind_values(alloc)?;
    let keys = key_values(alloc, shared_keys())?;
    let mut members = Map::new(alloc);
    put(&mut members, alloc, "kinds", Value::Array(kinds))?;
    put(&mut members, alloc, "keys", Value::Array(keys))?;
    Ok(Value::Object(members))
}

/// Returns the table of kinds as a line of JSON: each kind with its keys, their limits and its ports, and the keys that
/// every actor may have.
pub fn kinds_json(alloc: Global) -> Result<String, AllocError>
    ensures { IfOk result (λ text. IsLineOf kinds_value (string_bytes text)) }
{
    let value = kinds_value(alloc)?;
    line_of(alloc, &value)
}
