//! Kinds of actors, with their values.
ghost use Rattle.std.specs.Prelude.{◌≡◌, IfOk};
ghost use Rattle.std.specs.Vec.Iter.{into_iter_items};
ghost use Rattle.toml.specs.View.{table_view};
ghost use Rattle.sdf_document.specs.Fault.{Gives};
ghost use Rattle.sdf_document.specs.Lists.{lookup_of, are_read};
ghost use Rattle.sdf_kinds.specs.Rows.{row_of};
ghost use Rattle.sdf_document.specs.Kinds.{is_kind, kind_named, word_at, natural, optional, integer, list, first, rest};
ghost use Rattle.sdf_document.specs.Kinds.{entry_of, is_ordered, kind_at, HaveForms, IsWithin};

use crate::entry::{KindEntry, ListEntry};
use crate::fault::{DocumentFault, Place, ReadFault};
use crate::file::Files;
use crate::key::{KeyValue, values_at};
use crate::value::text_at;
use sdf_kinds::{Kind, kinds, row_of};
use std::alloc::Global;
use std::vec;
use toml::Table;

fn is_kind(format: u32, text: &str, kind: Kind) -> bool
    ensures { result ≡ is_kind format text.now kind }
{
    let row = row_of(kind);
    text == row.word && row.since <= format
}

/// Returns the kind with the word `text`, if a format up to `format` has it.
pub fn kind_named(format: u32, text: &str) -> Option<Kind>
    ensures { result ≡ kind_named format text.now }
{
    kinds()
        .iter()
        .copied()
        .find(|kind| is_kind(format, text, *kind))
}

/// Returns the kind that an actor's table names, if `format` has it.
#[tactic(auto, unfolding(crate::specs::Kinds::word_at))]
pub(crate) fn word_at(actor: usize, format: u32, table: &Table) -> Result<Kind, ReadFault>
    ensures { Gives (λ k. k) result (word_at actor format (table_view table.now)) }
{
    let text = text_at(Place::Actor(actor), "kind", table)?;
    match kind_named(format, text) {
        Some(kind) => Ok(kind),
        None => Err(DocumentFault::UnknownKind(actor).into()),
    }
}

/// Takes the next value, a whole number that is not negative, or 0 if it has another form.
pub(crate) fn natural(values: &mut vec::IntoIter<KeyValue>) -> u32
    ensures value { result ≡ natural (first (into_iter_items values.old)) }
    ensures left { into_iter_items values.new ≡ rest (into_iter_items values.old) }
{
    match values.next() {
        Some(KeyValue::Natural(number)) => number,
        _ => 0,
    }
}

/// Takes the next value, an optional number, or `None` if it has another form.
pub(crate) fn optional(values: &mut vec::IntoIter<KeyValue>) -> Option<u32>
    ensures value { result ≡ optional (first (into_iter_items values.old)) }
    ensures left { into_iter_items values.new ≡ rest (into_iter_items values.old) }
{
    match values.next() {
        Some(KeyValue::Optional(number)) => number,
        _ => None,
    }
}

/// Takes the next value, a whole number of either sign, or 0 if it has another form.
fn integer(values: &mut vec::IntoIter<KeyValue>) -> i32
    ensures value { result ≡ integer (first (into_iter_items values.old)) }
    ensures left { into_iter_items values.new ≡ rest (into_iter_items values.old) }
{
    match values.next() {
        Some(KeyValue::Integer(number)) => number,
        _ => 0,
    }
}

/// Takes the next value, a list, or an empty list if it has another form.
fn list(alloc: Global, values: &mut vec::IntoIter<KeyValue>) -> ListEntry
    ensures value { result ≡ list (first (into_iter_items values.old)) }
    ensures left { into_iter_items values.new ≡ rest (into_iter_items values.old) }
{
    match values.next() {
        Some(KeyValue::List(list)) => list,
        _ => ListEntry {
            file: None,
            values: Vec::new(alloc),
        },
    }
}

/// Makes an entry of `kind` from `left`, the values of its keys in the order of its row.
fn entry_of(alloc: Global, kind: Kind, mut left: vec::IntoIter<KeyValue>) -> KindEntry
    ensures { result ≡ entry_of kind (into_iter_items left) }
{
    let values = &mut left;
    match kind {
        Kind::Input => KindEntry::Input {
            channel: natural(values),
            block: natural(values),
        },
        Kind::Output => KindEntry::Output {
            channel: natural(values),
            block: natural(values),
        },
        Kind::Fir => KindEntry::Fir {
            up: natural(values),
            down: natural(values),
            shift: natural(values),
            taps: list(alloc, values),
        },
        Kind::Decimate => KindEntry::Decimate {
            factor: natural(values),
        },
        Kind::Interpolate => KindEntry::Interpolate {
            factor: natural(values),
        },
        Kind::Add => KindEntry::Add {
            ways: natural(values),
        },
        Kind::Fork => KindEntry::Fork {
            ways: natural(values),
        },
        Kind::Gain => KindEntry::Gain {
            gain: integer(values),
            shift: natural(values),
        },
        Kind::Delay => KindEntry::Delay {
            length: natural(values),
        },
        Kind::Table => KindEntry::Table {
            offset: integer(values),
            values: list(alloc, values),
        },
        Kind::Deal => KindEntry::Deal {
            ways: natural(values),
            run: natural(values),
        },
        Kind::Gather => KindEntry::Gather {
            ways: natural(values),
            run: natural(values),
        },
        Kind::Clip => KindEntry::Clip {
            least: integer(values),
            greatest: integer(values),
        },
        Kind::Offset => KindEntry::Offset {
            value: integer(values),
        },
    }
}

/// Returns whether a clip's `least` is at most its `greatest`, and `true` for all other kinds.
fn is_ordered(kind: &KindEntry) -> bool
    ensures { result ≡ is_ordered kind.now }
{
    match kind {
        KindEntry::Clip { least, greatest } => least <= greatest,
        _ => true,
    }
}

/// Reads the values of `kind` from an actor's table, and checks that the bounds of a clip are in order.
#[tactic(auto, using(crate::proofs::Within::entry_within), unfolding(crate::specs::Kinds::kind_at))]
pub(crate) fn kind_at(
    alloc: Global,
    actor: usize,
    files: Files<'_>,
    kind: Kind,
    table: &Table,
) -> Result<KindEntry, ReadFault>
    ensures given { Gives (λ k. k) result (kind_at actor (lookup_of files.entry) kind (table_view table.now)) }
    ensures within { IfOk result (λ k. IsWithin (are_read files.entry) k) }
{
    let values = values_at(alloc, actor, files, row_of(kind).keys, table)?;
    let entry = entry_of(alloc, kind, values.into_iter());
    if is_ordered(&entry) {
        Ok(entry)
    } else {
        Err(DocumentFault::KitValue(Place::Actor(actor), "greatest").into())
    }
}
