//! What a diagnostic says about a fault, as members.

ghost use Rattle.std.specs.Prelude.{◌≡◌, IfOk, OnOk, None, [], map, option_map, take, string_bytes, is_some};
ghost use Rattle.serde_json.specs.Data.{string, object};
ghost use Rattle.serde_json.specs.View.{view, members_view};
ghost use Rattle.serde_json.specs.Find.{get};
ghost use Rattle.sdf_json.specs.Details.{perhaps_number, perhaps_text, held_in, perhaps_hint, with_subject};
ghost use Rattle.sdf_json.specs.Details.{with_details};
ghost use Rattle.sdf_json.specs.Details.{detailed};

use crate::values::{Members, put_number, put_text};
use serde_json::{Value, put};
use std::alloc::{AllocError, Global};

/// What a diagnostic says about a fault. Each member is absent if nothing is known.
pub struct Details {
    /// The file that has the fault, as a path.
    pub path: Option<String>,
    /// The line and the column in that file, from 1.
    pub line: Option<usize>,
    pub column: Option<usize>,
    pub actor: Option<usize>,
    pub link: Option<usize>,
    pub key: Option<String>,
    /// The value of the key, as diagnostics write it, and what the key needs.
    pub value: Option<String>,
    pub limits: Option<String>,
    /// The lines of the diagnostic.
    pub hint: Vec<String>,
}

/// Not derived: a derived drop is expanded wherever details may be dropped.
impl Drop for Details {
    fn drop(self) {
        let Details {
            path: _,
            line: _,
            column: _,
            actor: _,
            link: _,
            key: _,
            value: _,
            limits: _,
            hint: _,
        } = self;
    }
}

impl Details {
    /// Returns details that say nothing.
    pub fn new(alloc: Global) -> Details
        ensures numbers { (result.line ≡ None) × (result.column ≡ None) × (result.actor ≡ None) × (result.link ≡ None) }
        ensures texts { (result.path ≡ None) × (result.key ≡ None) × (result.value ≡ None) × (result.limits ≡ None) }
        ensures hint { result.hint.items ≡ [] }
    {
        Details {
            path: None,
            line: None,
            column: None,
            actor: None,
            link: None,
            key: None,
            value: None,
            limits: None,
            hint: Vec::new(alloc),
        }
    }
}

/// Adds a member that is a number, if there is one.
fn put_perhaps_number(
    members: &mut Members,
    alloc: Global,
    key: &str,
    number: Option<usize>,
) -> Result<(), AllocError>
    ensures { OnOk result (members_view members.new.entries ≡
        perhaps_number key.now number (members_view members.old.entries)) }
{
    match number {
        Some(number) => put_number(members, alloc, key, number as u64),
        None => Ok(()),
    }
}

/// Adds a member that is a text, if there is one.
fn put_perhaps_text(
    members: &mut Members,
    alloc: Global,
    key: &str,
    text: Option<&str>,
) -> Result<(), AllocError>
    ensures { OnOk result (members_view members.new.entries ≡
        perhaps_text key.now (option_map (λ s. s.now) text.entry) (members_view members.old.entries)) }
{
    match text {
        Some(text) => put_text(members, alloc, key, text),
        None => Ok(()),
    }
}

/// Returns the lines of a diagnostic as values.
fn hint_values(alloc: Global, lines: &[String]) -> Result<Vec<Value>, AllocError>
    ensures { IfOk result (λ list. map view list.items ≡ map (λ line. string (string_bytes line)) lines.now) }
{
    let mut list = Vec::new(alloc);
    for line in lines {
        list.push(Value::try_from_str(alloc, line.as_str())?)?;
    }
    Ok(list)
}

/// Adds the lines of a diagnostic, if there are any.
fn put_perhaps_hint(
    members: &mut Members,
    alloc: Global,
    lines: &[String],
) -> Result<(), AllocError>
    ensures { OnOk result (members_view members.new.entries ≡
        perhaps_hint lines.now (members_view members.old.entries)) }
{
    if lines.is_empty() {
        return Ok(());
    }
    put(
        members,
        alloc,
        "hint",
        Value::Array(hint_values(alloc, lines)?),
    )
}

/// Whether the value of a fault has an actor, a link and a key of its own.
#[derive(Clone, Copy)]
struct Held {
    actor: bool,
    link: bool,
    key: bool,
}

fn has(value: &Value, key: &str) -> bool
    ensures { result ≡ is_some (get key.now (view value.now)) }
{
    value.get(key).is_some()
}

fn held_in(value: &Value) -> Held
    ensures { result ≡ held_in (view value.now) }
{
    Held {
        actor: has(value, "actor"),
        link: has(value, "link"),
        key: has(value, "key"),
    }
}

/// Adds the actor, the link and the key, unless they are `held`.
fn put_subject(
    members: &mut Members,
    alloc: Global,
    details: &Details,
    held: Held,
) -> Result<(), AllocError>
    ensures { OnOk result (members_view members.new.entries ≡
        with_subject details.now held (members_view members.old.entries)) }
{
    if !held.actor {
        put_perhaps_number(members, alloc, "actor", details.actor)?;
    }
    if !held.link {
        put_perhaps_number(members, alloc, "link", details.link)?;
    }
    if held.key {
        return Ok(());
    }
    put_perhaps_text(members, alloc, "key", details.key.as_deref())
}

/// Adds what `details` say. The actor, the link and the key stay as they are if they are `held`.
fn put_details(
    members: &mut Members,
    alloc: Global,
    details: &Details,
    held: Held,
) -> Result<(), AllocError>
    ensures { OnOk result (members_view members.new.entries ≡
        with_details details.now held (members_view members.old.entries)) }
{
    put_subject(members, alloc, details, held)?;
    put_perhaps_text(members, alloc, "path", details.path.as_deref())?;
    put_perhaps_number(members, alloc, "line", details.line)?;
    put_perhaps_number(members, alloc, "column", details.column)?;
    put_perhaps_text(members, alloc, "value", details.value.as_deref())?;
    put_perhaps_text(members, alloc, "limits", details.limits.as_deref())?;
    put_perhaps_hint(members, alloc, &details.hint)
}

/// Returns an object of `members` with what `details` say.
fn detailed_object(
    alloc: Global,
    mut members: Members,
    details: &Details,
    held: Held,
) -> Result<Value, AllocError>
    ensures { IfOk result (λ v. view v ≡ object (with_details details.now held (members_view members.entries))) }
{
    put_details(&mut members, alloc, details, held)?;
    Ok(Value::Object(members))
}

/// Returns the `value` of a fault with what `details` say beside it.
pub(crate) fn detailed(alloc: Global, value: Value, details: &Details) -> Result<Value, AllocError>
    ensures { IfOk result (λ v. view v ≡ detailed details.now (view value)) }
{
    let held = held_in(&value);
    match value {
        Value::Object(members) => detailed_object(alloc, members, details, held),
        Value::Null => Ok(Value::Null),
        Value::Bool(is) => Ok(Value::Bool(is)),
        Value::Number(number) => Ok(Value::Number(number)),
        Value::String(text) => Ok(Value::String(text)),
        Value::Array(items) => Ok(Value::Array(items)),
    }
}
