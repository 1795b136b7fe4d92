//! Actors, read from their tables.
ghost use Rattle.std.specs.Prelude.{◌≡◌, ◌∷◌, [], IfOk, string_bytes};
ghost use Rattle.std.specs.Vec.Iter.{into_iter_items};
ghost use Rattle.toml.specs.View.{table_view, view};
ghost use Rattle.sdf_document.specs.Fault.{Gives};
ghost use Rattle.sdf_document.specs.Names.{names_of, IsNamed};
ghost use Rattle.sdf_document.specs.Lists.{lookup_of, are_read};
ghost use Rattle.sdf_document.specs.declared.key.KeyValue.TheVariants.{Natural, Optional};
ghost use Rattle.sdf_document.specs.Kinds.{first, rest, optional, HaveForms};
ghost use Rattle.sdf_document.specs.Actors.{name_at, keys_at, shared_at, actor_at, actor_view, IsActorWithin};
ghost use Rattle.sdf_kinds.specs.Rows.{shared_keys};

use crate::entry::ActorEntry;
use crate::fault::{BorrowedPlace, DocumentFault, Place, ReadFault};
use crate::file::Files;
use crate::key::{KeyValue, actor_keys, values_at};
use crate::kind::{kind_at, natural, optional, word_at};
use crate::name::{is_name, is_taken, put_name};
use crate::table::test_keys;
use crate::value::text_at;
use indexmap::IndexSet;
use sdf_kinds::{Kind, row_of, shared_keys};
use std::alloc::Global;
use std::vec;
use toml::{Table, Value};

/// Reads the name of an actor, and adds it to `names`, the names of the actors before it.
#[tactic(auto, unfolding(crate::specs::Actors::name_at))]
fn name_at<'a>(
    alloc: Global,
    actor: usize,
    names: &mut IndexSet<String>,
    table: &'a Table,
) -> Result<&'a str, ReadFault>
    ensures given { Gives (λ s. s.now) result (name_at actor (names_of names.old.keys) (table_view table.now)) }
    ensures named { IfOk result (λ s. IsNamed (names_of names.old.keys) s.now (names_of names.new.keys)) }
{
    let name = text_at(Place::Actor(actor), "name", table)?;
    if !is_name(name) {
        return Err(DocumentFault::BadName(Place::Actor(actor), "name").into());
    }
    if is_taken(names, name) {
        return Err(DocumentFault::NameTwice(actor).into());
    }
    put_name(alloc, names, name)?;
    Ok(name)
}

/// Checks that an actor of this `kind` has only keys that it may have. The fault names the first other key in byte
/// order.
fn test_actor_keys(alloc: Global, actor: usize, kind: Kind, table: &Table) -> Result<(), ReadFault>
    ensures { Gives (λ x. x) result (keys_at actor kind (table_view table.now)) }
{
    let known = actor_keys(alloc, row_of(kind).keys, table)?;
    test_keys(alloc, BorrowedPlace::Actor(actor), known.as_slice(), table)
}

/// Takes the next value as a processor, or `None` if its key is absent.
fn processor(values: &mut vec::IntoIter<KeyValue>) -> Option<usize>
    ensures value { result ≡ optional (first (into_iter_items values.old)) }
    ensures left { into_iter_items values.new ≡ rest (into_iter_items values.old) }
{
    let number = optional(values)?;
    Some(number as usize)
}

/// Reads the values that every actor has: its processor, if it has one, and its cost.
#[tactic(auto, unfolding(crate::specs::Actors::shared_at))]
fn shared_at(
    alloc: Global,
    actor: usize,
    files: Files<'_>,
    table: &Table,
) -> Result<(Option<usize>, u32), ReadFault>
    ensures given { Gives (λ v. v) result (shared_at actor (lookup_of files.entry) (table_view table.now)) }
    ensures within { IfOk result (λ v. HaveForms (are_read files.entry) shared_keys
        (Optional v.0 ∷ Natural v.1 ∷ [])) }
{
    let mut values = values_at(alloc, actor, files, shared_keys(), table)?.into_iter();
    let processor = processor(&mut values);
    Ok((processor, natural(&mut values)))
}

/// Reads actor number `actor`, and adds its name to `names`, the names of the actors before it.
#[tactic(auto, unfolding(crate::specs::Actors::actor_at))]
pub(crate) fn actor_at(
    alloc: Global,
    actor: usize,
    format: u32,
    files: Files<'_>,
    names: &mut IndexSet<String>,
    value: &Value,
) -> Result<ActorEntry, ReadFault>
    ensures given { Gives actor_view result (actor_at actor format (lookup_of files.entry) (names_of names.old.keys)
        (view value.now)) }
    ensures named { IfOk result (λ a. IsNamed (names_of names.old.keys) (string_bytes a.name)
        (names_of names.new.keys)) }
    ensures within { IfOk result (IsActorWithin (are_read files.entry)) }
{
    let Some(table) = value.as_table() else {
        return Err(DocumentFault::WrongType(Place::Actor(actor), "actor").into());
    };
    let name = name_at(alloc, actor, names, table)?;
    let kind = word_at(actor, format, table)?;
    test_actor_keys(alloc, actor, kind, table)?;
    let entry = kind_at(alloc, actor, files, kind, table)?;
    let (processor, cost) = shared_at(alloc, actor, files, table)?;
    Ok(ActorEntry {
        name: String::from_str(alloc, name)?,
        kind: entry,
        processor,
        cost,
    })
}
