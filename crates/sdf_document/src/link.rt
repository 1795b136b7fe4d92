//! Links, read from their tables.
ghost use Rattle.std.specs.Prelude.{◌≡◌, codes, option_map, bytes_eq};
ghost use Rattle.std.specs.List.{position};
ghost use Rattle.toml.specs.View.{table_view, view};
ghost use Rattle.sdf_document.specs.Fault.{Gives};
ghost use Rattle.sdf_document.specs.Names.{names_of};
ghost use Rattle.sdf_document.specs.Tables.{texts_of};
ghost use Rattle.sdf_document.specs.Links.{named, port_of, port_texts, end_of, end_at, initial_at, link_at, link_view};
ghost use Rattle.sdf_document.specs.Links.{link_keys};

use crate::entry::LinkEntry;
use crate::fault::{BorrowedPlace, DocumentFault, Place, ReadFault};
use crate::list::all_of;
use crate::table::test_keys;
use crate::value::{at, integers_at, text_at};
use indexmap::IndexSet;
use sdf_kinds::Width;
use std::alloc::Global;
use toml::{Table, Value};

static PORTS: [&str; 16] = [
    "0", "1", "2", "3", "4", "5", "6", "7", "8", "9", "10", "11", "12", "13", "14", "15",
];

fn position_of(texts: &[&str], text: &str) -> Option<usize>
    ensures { result ≡ position (λ t. bytes_eq text.now t.now) texts.now }
{
    texts.iter().position(|t| text == *t)
}

fn ports() -> &'static [&'static str]
    ensures { texts_of result.now ≡ port_texts }
{
    PORTS.as_slice()
}

fn port_of(text: &str) -> Option<usize>
    ensures { result ≡ port_of text.now }
{
    position_of(ports(), text)
}

#[tactic(auto, using(crate::proofs::Names::position_names))]
fn named(names: &IndexSet<String>, text: &str) -> Option<usize>
    ensures { result ≡ named (names_of names.now.keys) text.now }
{
    names.get_index_of(text)
}

#[tactic(auto, using(std::proofs::lemmas::Str::Pattern::split_once_first), unfolding(crate::specs::Links::end_of))]
fn end_of(names: &IndexSet<String>, text: &str) -> Option<(usize, usize)>
    ensures { result ≡ end_of (names_of names.now.keys) text.now }
{
    match text.split_once(':') {
        Some((name, port)) => {
            let actor = named(names, name)?;
            Some((actor, port_of(port)?))
        }
        None => Some((named(names, text)?, 0)),
    }
}

#[tactic(auto, unfolding(crate::specs::Links::end_at))]
fn end_at(
    link: usize,
    key: &'static str,
    names: &IndexSet<String>,
    table: &Table,
) -> Result<(usize, usize), ReadFault>
    ensures { Gives (λ e. e) result (end_at link key.now (names_of names.now.keys) (table_view table.now)) }
{
    let text = text_at(Place::Link(link), key, table)?;
    match end_of(names, text) {
        Some(end) => Ok(end),
        None => Err(DocumentFault::BadPort(link, key).into()),
    }
}

#[tactic(auto, unfolding(crate::specs::Links::initial_at))]
fn initial_at(alloc: Global, link: usize, table: &Table) -> Result<Vec<i32>, ReadFault>
    ensures { Gives (λ v. v.items) result (initial_at link (table_view table.now)) }
{
    let Some(value) = at(table, "initial") else {
        return Ok(Vec::new(alloc));
    };
    let numbers = integers_at(alloc, BorrowedPlace::Link(link), "initial", value)?;
    match all_of(alloc, Width::Bits32, numbers.as_slice())? {
        Some(samples) => Ok(samples),
        None => Err(DocumentFault::KitValue(Place::Link(link), "initial").into()),
    }
}

static LINK_KEYS: [&str; 3] = ["from", "to", "initial"];

/// Returns the keys of a link.
pub fn link_keys() -> &'static [&'static str]
    ensures { texts_of result.now ≡ link_keys }
{
    LINK_KEYS.as_slice()
}

/// Reads link number `link`. `names` are the names of all actors.
#[tactic(auto, unfolding(crate::specs::Links::link_at))]
pub(crate) fn link_at(
    alloc: Global,
    link: usize,
    names: &IndexSet<String>,
    value: &Value,
) -> Result<LinkEntry, ReadFault>
    ensures { Gives link_view result (link_at link (names_of names.now.keys) (view value.now)) }
{
    let Some(table) = value.as_table() else {
        return Err(DocumentFault::WrongType(Place::Link(link), "link").into());
    };
    test_keys(alloc, BorrowedPlace::Link(link), link_keys(), table)?;
    let from = end_at(link, "from", names, table)?;
    let to = end_at(link, "to", names, table)?;
    let initial = initial_at(alloc, link, table)?;
    Ok(LinkEntry { from, to, initial })
}
