//! The limits of a key, as the rows of kinds have them.

ghost use Rattle.std.specs.Prelude.{◌≡◌, IfOk, option_map, option_and_then, string_bytes};
ghost use Rattle.sdf_kinds.specs.Rows.{key_view, keys_view};
ghost use Rattle.sdf_why.specs.Limits.{keys_of, list_limits, keys_limits, kind_limits, has_name, form_among};
ghost use Rattle.sdf_why.specs.Limits.{form_of, limits_of};

use sdf_document::{Limits, kind_named};
use sdf_kinds::{Form, KeyForm, limits_text, row_of, shared_keys};
use std::alloc::{AllocError, Global};

/// Returns the keys of the kind `word`, in any format.
pub(crate) fn keys_of(word: &str) -> Option<&'static [KeyForm]>
    ensures { option_map (λ s. keys_view s.now) result ≡ keys_of word.now }
{
    let kind = kind_named(u32::MAX, word)?;
    Some(row_of(kind).keys)
}

fn list_limits(form: Form) -> Option<Limits>
    ensures { result ≡ list_limits form }
{
    match form {
        Form::List(most, width) => Some(Limits { most, width }),
        Form::Natural(_, _, _)
        | Form::Optional(_, _)
        | Form::Integer(_, _, _)
        | Form::FromLeast(_, _, _) => None,
    }
}

/// Returns the limits of the first list among `keys`.
#[tactic(auto, unfolding(crate::specs::Limits::keys_limits))]
fn keys_limits(keys: &[KeyForm]) -> Option<Limits>
    ensures { result ≡ keys_limits (keys_view keys.now) }
{
    for key in keys {
        if let Some(limits) = list_limits(key.1) {
            return Some(limits);
        }
    }
    None
}

/// Returns the limits of the list that the kind `word` has, if it has one.
#[tactic(auto, unfolding(crate::specs::Limits::kind_limits))]
pub(crate) fn kind_limits(word: &str) -> Option<Limits>
    ensures { result ≡ kind_limits word.now }
{
    keys_limits(keys_of(word)?)
}

/// Checks whether `name` is the name of `key`, or `file` in place of its list.
#[tactic(auto, unfolding(crate::specs::Limits::has_name))]
fn has_name(name: &str, key: &KeyForm) -> bool
    ensures { result ≡ has_name name.now (key_view key.now) }
{
    name == key.0.name() || name == "file" && list_limits(key.1).is_some()
}

/// Returns the form of the first of `keys` that has this `name`.
#[tactic(auto, unfolding(crate::specs::Limits::form_among))]
fn form_among(name: &str, keys: &[KeyForm]) -> Option<Form>
    ensures { result ≡ form_among name.now (keys_view keys.now) }
{
    for key in keys {
        if has_name(name, key) {
            return Some(key.1);
        }
    }
    None
}

fn form_in_kind(word: &str, key: &str) -> Option<Form>
    ensures { result ≡ option_and_then (form_among key.now) (keys_of word.now) }
{
    form_among(key, keys_of(word)?)
}

/// Returns the form of `key` of the kind `word`, or its form as a key that every kind has.
fn form_of(word: &str, key: &str) -> Option<Form>
    ensures { result ≡ form_of word.now key.now }
{
    match form_in_kind(word, key) {
        Some(form) => Some(form),
        None => form_among(key, shared_keys()),
    }
}

/// Returns the limits of `key` of the kind `word`, or its limits as a key that every kind has.
pub(crate) fn limits_of(alloc: Global, word: &str, key: &str) -> Result<Option<String>, AllocError>
    ensures { IfOk result (λ o. option_map string_bytes o ≡ limits_of word.now key.now) }
{
    match form_of(word, key) {
        Some(form) => Ok(Some(limits_text(alloc, form)?)),
        None => Ok(None),
    }
}
