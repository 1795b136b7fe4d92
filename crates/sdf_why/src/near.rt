//! What the user may have meant: a known name that is like an unknown one.

ghost use Rattle.std.specs.Prelude.{◌≡◌, ◌++◌, IfOk, OnOk, map, option_map, string_bytes};
ghost use Rattle.std.specs.List.{flat_map};
ghost use Rattle.toml.specs.View.{view};
ghost use Rattle.sdf_document.specs.Fault.{place_view};
ghost use Rattle.sdf_kinds.specs.Rows.{key_view, keys_view};
ghost use Rattle.sdf_why.specs.Near.{other_told, near_told, key_names, kind_keys, actor_keys, near_key};
ghost use Rattle.sdf_why.specs.Near.{near_actor_key, name_in, actor_names, near_end};

use crate::limits::keys_of;
use crate::links::end_at;
use crate::marks::before;
use crate::tables::actor_text;
use crate::words::push_hint;
use sdf_document::{Place, file_keys, link_keys, top_keys};
use sdf_kinds::{Form, KeyForm, shared_keys};
use sdf_limits::MAX_ACTORS;
use sdf_similar::nearest;
use std::alloc::{AllocError, Global};
use toml::Value;

/// Adds the question whether `name` was meant, unless it is `word` itself.
pub(crate) fn push_other(
    alloc: Global,
    text: &mut String,
    word: &str,
    name: Option<&str>,
) -> Result<(), AllocError>
    ensures { OnOk result (string_bytes text.new ≡ string_bytes text.old
        ++ other_told word.now (option_map (λ s. s.now) name.entry)) }
{
    match name {
        Some(name) if name != word => push_hint(alloc, text, name),
        _ => Ok(()),
    }
}

/// Adds the name in `names` that is most like `word`, if there is one and it is not the word itself.
#[tactic(auto, unfolding(crate::specs::Near::near_told))]
fn push_near(alloc: Global, text: &mut String, names: &[&str], word: &str) -> Result<(), AllocError>
    ensures { OnOk result (string_bytes text.new ≡ string_bytes text.old
        ++ near_told (map (λ name. name.now) names.now) word.now) }
{
    let name = nearest(alloc, names, word)?;
    push_other(alloc, text, word, name)
}

/// Adds the name of `key`, and for a list also `file`, which may replace it.
fn push_key_names(names: &mut Vec<&str>, key: &KeyForm) -> Result<(), AllocError>
    ensures { OnOk result (map (λ name. name.now) names.new.items ≡
        map (λ name. name.now) names.old.items ++ key_names (key_view key.now)) }
{
    names.push(key.0.name())?;
    if let Form::List(_, _) = key.1 {
        names.push("file")?;
    }
    Ok(())
}

#[tactic(auto, using(std::proofs::lemmas::List::map_more, std::proofs::lemmas::List::flat_map_more))]
fn push_keys(names: &mut Vec<&str>, keys: &[KeyForm]) -> Result<(), AllocError>
    ensures { OnOk result (map (λ name. name.now) names.new.items ≡
        map (λ name. name.now) names.old.items ++ flat_map key_names (keys_view keys.now)) }
{
    for key in keys {
        push_key_names(names, key)?;
    }
    Ok(())
}

/// Adds the names of the keys of the kind `word`, in any format.
fn push_kind_keys<'a>(names: &mut Vec<&'a str>, word: &str) -> Result<(), AllocError>
    ensures { OnOk result (map (λ name. name.now) names.new.items ≡
        map (λ name. name.now) names.old.items ++ kind_keys word.now) }
{
    match keys_of(word) {
        Some(keys) => push_keys(names, keys),
        None => Ok(()),
    }
}

/// Returns the names of the keys that an actor of the kind `word` may have.
#[tactic(auto, unfolding(crate::specs::Near::actor_keys))]
fn actor_keys(alloc: Global, word: &str) -> Result<Vec<&'static str>, AllocError>
    ensures { IfOk result (λ names. map (λ name. name.now) names.items ≡ actor_keys word.now) }
{
    let mut names: Vec<&'static str> = Vec::new(alloc);
    names.push("name")?;
    names.push("kind")?;
    push_kind_keys(&mut names, word)?;
    push_keys(&mut names, shared_keys())?;
    Ok(names)
}

/// Adds the key that may have been meant by `key` in the table of `actor`.
#[tactic(auto, unfolding(crate::specs::Near::near_actor_key))]
fn push_near_actor_key(
    alloc: Global,
    text: &mut String,
    graph: &Value,
    actor: usize,
    key: &str,
) -> Result<(), AllocError>
    ensures { OnOk result (string_bytes text.new ≡ string_bytes text.old
        ++ near_actor_key actor key.now (view graph.now)) }
{
    let Some(word) = actor_text(graph, "kind", actor) else {
        return Ok(());
    };
    let names = actor_keys(alloc, word)?;
    push_near(alloc, text, &names, key)
}

/// Adds the key that may have been meant by `key` at `place`.
pub(crate) fn push_near_key(
    alloc: Global,
    text: &mut String,
    graph: &Value,
    place: &Place,
    key: &str,
) -> Result<(), AllocError>
    ensures { OnOk result (string_bytes text.new ≡ string_bytes text.old
        ++ near_key (place_view place.now) key.now (view graph.now)) }
{
    match place {
        Place::Top => push_near(alloc, text, top_keys(), key),
        Place::Actor(actor) => push_near_actor_key(alloc, text, graph, *actor, key),
        Place::Link(_) => push_near(alloc, text, link_keys(), key),
        Place::File(_) => push_near(alloc, text, file_keys(), key),
    }
}

/// Adds the name of `actor`, if it has one.
#[tactic(auto, unfolding(crate::specs::Near::name_in))]
fn push_name_of<'a>(
    names: &mut Vec<&'a str>,
    graph: &'a Value,
    actor: usize,
) -> Result<(), AllocError>
    ensures { OnOk result (map (λ name. name.now) names.new.items ≡
        map (λ name. name.now) names.old.items ++ name_in (view graph.now) actor) }
{
    if let Some(name) = actor_text(graph, "name", actor) {
        names.push(name)?;
    }
    Ok(())
}

/// Returns the names of all actors.
fn actor_names<'a>(alloc: Global, graph: &'a Value) -> Result<Vec<&'a str>, AllocError>
    ensures { IfOk result (λ names. map (λ name. name.now) names.items ≡ actor_names (view graph.now)) }
{
    let mut names = Vec::new(alloc);
    for actor in 0..MAX_ACTORS {
        push_name_of(&mut names, graph, actor)?;
    }
    Ok(names)
}

/// Adds the actor that may have been meant by the end `key` of `link`.
#[tactic(auto, unfolding(crate::specs::Near::near_end))]
pub(crate) fn push_near_end(
    alloc: Global,
    text: &mut String,
    graph: &Value,
    link: usize,
    key: &str,
) -> Result<(), AllocError>
    ensures { OnOk result (string_bytes text.new ≡ string_bytes text.old
        ++ near_end link key.now (view graph.now)) }
{
    let Some(end) = end_at(graph, key, link) else {
        return Ok(());
    };
    let names = actor_names(alloc, graph)?;
    push_near(alloc, text, &names, before(end, ':'))
}
