//! What a fault is about, as values: its place, the key there, the value of the key and what it needs.

ghost use Rattle.std.specs.Prelude.{◌≡◌, ◌-◌, IfOk, None, Some, codes, option_map, option_and_then, string_bytes};
ghost use Rattle.toml.specs.View.{view};
ghost use Rattle.toml.specs.Data.{get};
ghost use Rattle.sdf_document.specs.Fault.{place_view, fault_view, actor};
ghost use Rattle.sdf_document.specs.Lists.{files_view};
ghost use Rattle.sdf_why.specs.Tables.{root};
ghost use Rattle.sdf_why.specs.Words.{value_text};
ghost use Rattle.sdf_why.specs.Documents.{up_to};
ghost use Rattle.sdf_why.specs.Facts.{user_of, actor_at, table_at, value_in, value_told, place_of, key_of, type_limits};
ghost use Rattle.sdf_why.specs.Facts.{format_limits, limits_in, graph_place, net_place};

use crate::diagnostics::DesignFiles;
use crate::places::limits_at;
use crate::spots::{Spot, spot_of};
use crate::tables::{entry, file_root, first_with_text, root, value_at};
use crate::types::type_within;
use crate::words::push_value;
use sdf_actor::NetFault;
use sdf_document::{CoefficientFile, DocumentFault, Place};
use sdf_graph::GraphFault;
use sdf_limits::{MAX_ACTORS, MAX_LINKS};
use std::alloc::{AllocError, Global};
use toml::Value;

/// What a fault is about.
pub struct Facts {
    pub place: Place,
    /// The line and the column of the key, of the table at the place, or of what is not TOML.
    pub spot: Option<Spot>,
    /// The actor at the place, or the first one that names the coefficient file.
    pub actor: Option<usize>,
    pub key: Option<String>,
    /// The value of the key, as diagnostics write it, and what the key needs.
    pub value: Option<String>,
    pub limits: Option<String>,
}

/// Not derived: a derived drop is expanded wherever facts may be dropped.
impl Drop for Facts {
    fn drop(self) {
        let Facts {
            place: _,
            spot: _,
            actor: _,
            key: _,
            value: _,
            limits: _,
        } = self;
    }
}

/// Returns the first actor that names the coefficient file `name`.
fn user_of(graph: Option<&Value>, name: &str) -> Option<usize>
    ensures { result ≡ option_and_then (user_of name.now) (option_map (λ v. view v.now) graph.entry) }
{
    first_with_text(graph?, "file", name, MAX_ACTORS)
}

/// Returns the actor at `place`, or the first one that names the coefficient file there.
fn actor_at(graph: Option<&Value>, place: &Place) -> Option<usize>
    ensures { result ≡ actor_at (place_view place.now) (option_map (λ v. view v.now) graph.entry) }
{
    match place {
        Place::Actor(number) => Some(*number),
        Place::File(name) => user_of(graph, name.as_str()),
        Place::Top | Place::Link(_) => None,
    }
}

/// Returns the table at `place` in the graph file.
fn table_at<'a>(graph: Option<&'a Value>, place: &Place) -> Option<&'a Value>
    ensures { option_map (λ v. view v.now) result ≡
        table_at (place_view place.now) (option_map (λ v. view v.now) graph.entry) }
{
    match place {
        Place::Top => graph,
        Place::Actor(number) => entry(graph?, "actor", *number),
        Place::Link(number) => entry(graph?, "link", *number),
        Place::File(_) => None,
    }
}

/// Returns `value` as diagnostics write it.
fn spelled(alloc: Global, value: &Value) -> Result<String, AllocError>
    ensures { IfOk result (λ text. string_bytes text ≡ value_text (view value.now)) }
{
    let mut text = String::new(alloc);
    push_value(alloc, &mut text, value)?;
    Ok(text)
}

/// Returns the value of `key` in `table` as diagnostics write it.
fn spelled_in(alloc: Global, table: Option<&Value>, key: &str) -> Result<Option<String>, AllocError>
    ensures { IfOk result (λ o. option_map string_bytes o ≡ option_map value_text
        (option_and_then (get key.now) (option_map (λ v. view v.now) table.entry))) }
{
    let Some(table) = table else {
        return Ok(None);
    };
    match value_at(table, key) {
        Some(value) => Ok(Some(spelled(alloc, value)?)),
        None => Ok(None),
    }
}

/// Returns the value of `key` at `place` as diagnostics write it.
fn value_in(
    alloc: Global,
    files: &[CoefficientFile],
    graph: Option<&Value>,
    place: &Place,
    key: &str,
) -> Result<Option<String>, AllocError>
    ensures { IfOk result (λ o. option_map string_bytes o ≡ option_map value_text (value_in (place_view place.now)
        (option_map (λ v. view v.now) graph.entry) (files_view files.now) key.now)) }
{
    match place {
        Place::File(name) => {
            let table = file_root(alloc, files, name.as_str())?;
            spelled_in(alloc, table.as_ref(), key)
        }
        _ => spelled_in(alloc, table_at(graph, place), key),
    }
}

/// Returns the value of `key` at `place`, if there is a key.
fn value_told(
    alloc: Global,
    files: &[CoefficientFile],
    graph: Option<&Value>,
    place: &Place,
    key: Option<&str>,
) -> Result<Option<String>, AllocError>
    ensures { IfOk result (λ o. option_map string_bytes o ≡ value_told (place_view place.now)
        (option_map (λ v. view v.now) graph.entry) (files_view files.now) (option_map (λ s. s.now) key.entry)) }
{
    match key {
        Some(key) => value_in(alloc, files, graph, place, key),
        None => Ok(None),
    }
}

/// Returns `text`, if there is one, as a text of its own.
fn owned(alloc: Global, text: Option<&str>) -> Result<Option<String>, AllocError>
    ensures { IfOk result (λ o. option_map string_bytes o ≡ option_map (λ s. s.now) text.entry) }
{
    match text {
        Some(text) => Ok(Some(String::from_str(alloc, text)?)),
        None => Ok(None),
    }
}

/// Returns the facts about `key` at `place`, which needs `limits`.
fn facts_at(
    alloc: Global,
    sources: DesignFiles<'_>,
    graph: Option<&Value>,
    place: Place,
    key: Option<&str>,
    limits: Option<String>,
) -> Result<Facts, AllocError>
    ensures place { IfOk result (λ f. f.place ≡ place) }
    ensures actor { IfOk result (λ f. f.actor ≡
        actor_at (place_view place) (option_map (λ v. view v.now) graph.entry)) }
    ensures key { IfOk result (λ f. option_map string_bytes f.key ≡ option_map (λ s. s.now) key.entry) }
    ensures value { IfOk result (λ f. option_map string_bytes f.value ≡ value_told (place_view place)
        (option_map (λ v. view v.now) graph.entry) (files_view sources.entry.files.now)
        (option_map (λ s. s.now) key.entry)) }
    ensures limits { IfOk result (λ f. f.limits ≡ limits) }
{
    let value = value_told(alloc, sources.files, graph, &place, key)?;
    let spot = spot_of(alloc, sources, &place, key)?;
    Ok(Facts {
        spot,
        actor: actor_at(graph, &place),
        key: owned(alloc, key)?,
        value,
        limits,
        place,
    })
}

/// Returns a copy of `place`.
fn copied(alloc: Global, place: &Place) -> Result<Place, AllocError>
    ensures { IfOk result (λ p. place_view p ≡ place_view place.now) }
{
    match place {
        Place::Top => Ok(Place::Top),
        Place::Actor(number) => Ok(Place::Actor(*number)),
        Place::Link(number) => Ok(Place::Link(*number)),
        Place::File(name) => Ok(Place::File(String::from_str(alloc, name.as_str())?)),
    }
}

/// Returns the place of `fault`. A file that is missing is the fault of the first actor that names it.
fn place_of(
    alloc: Global,
    fault: &DocumentFault,
    graph: Option<&Value>,
) -> Result<Place, AllocError>
    ensures { IfOk result (λ p. place_view p ≡
        place_of (fault_view fault.now) (option_map (λ v. view v.now) graph.entry)) }
{
    match fault {
        DocumentFault::ActorCount | DocumentFault::ChannelCount => Ok(Place::Top),
        DocumentFault::KitValue(place, _)
        | DocumentFault::MissingKey(place, _)
        | DocumentFault::WrongType(place, _)
        | DocumentFault::BadName(place, _) => copied(alloc, place),
        DocumentFault::UnknownKey(place, _) => copied(alloc, place),
        DocumentFault::NotToml(place) | DocumentFault::Format(place) => copied(alloc, place),
        DocumentFault::NameTwice(actor) | DocumentFault::UnknownKind(actor) => Ok(Place::Actor(
            *actor,
        )),
        DocumentFault::BadPort(link, _) => Ok(Place::Link(*link)),
        DocumentFault::NoFile(name) => match user_of(graph, name.as_str()) {
            Some(actor) => Ok(Place::Actor(actor)),
            None => Ok(Place::Top),
        },
    }
}

/// Returns the key that `fault` is about.
fn key_of(fault: &DocumentFault) -> Option<&str>
    ensures { option_map (λ s. s.now) result ≡ key_of (fault_view fault.now) }
{
    match fault {
        DocumentFault::ActorCount => Some("actor"),
        DocumentFault::ChannelCount => Some("link"),
        DocumentFault::KitValue(_, key)
        | DocumentFault::MissingKey(_, key)
        | DocumentFault::WrongType(_, key)
        | DocumentFault::BadName(_, key)
        | DocumentFault::BadPort(_, key) => Some(*key),
        DocumentFault::UnknownKey(_, key) => Some(key.as_str()),
        DocumentFault::NotToml(_) => None,
        DocumentFault::Format(_) => Some("format"),
        DocumentFault::NameTwice(_) => Some("name"),
        DocumentFault::UnknownKind(_) => Some("kind"),
        DocumentFault::NoFile(_) => Some("file"),
    }
}

/// Returns the limits from `least` to `most`.
fn up_to(alloc: Global, least: usize, most: usize) -> Result<String, AllocError>
    ensures { IfOk result (λ text. string_bytes text ≡ up_to least most) }
{
    let mut text = String::new(alloc);
    write!(text, "{least}..{most}")?;
    Ok(text)
}

/// Returns the type that `key` at `place` needs, with its limits.
fn type_limits(alloc: Global, graph: &Value, place: &Place, key: &str) -> Result<String, AllocError>
    ensures { IfOk result (λ text. string_bytes text ≡
        type_limits (place_view place.now) key.now (view graph.now)) }
{
    let limits = limits_at(alloc, graph, place, key)?;
    type_within(alloc, key, limits.as_deref())
}

/// Returns the formats that a file at `place` may have.
fn format_limits(place: &Place) -> &'static str
    ensures { result.now ≡ format_limits (place_view place.now) }
{
    match place {
        Place::File(_) => "1",
        _ => "1 or 2",
    }
}

/// Returns what the key of `fault` needs, if that can be said in a few words.
fn limits_in(
    alloc: Global,
    fault: &DocumentFault,
    graph: &Value,
) -> Result<Option<String>, AllocError>
    ensures { IfOk result (λ o. option_map string_bytes o ≡ limits_in (fault_view fault.now) (view graph.now)) }
{
    match fault {
        DocumentFault::ActorCount => Ok(Some(up_to(alloc, 1, MAX_ACTORS)?)),
        DocumentFault::ChannelCount => Ok(Some(up_to(alloc, 0, MAX_LINKS)?)),
        DocumentFault::KitValue(place, key) | DocumentFault::MissingKey(place, key) => {
            limits_at(alloc, graph, place, key)
        }
        DocumentFault::WrongType(place, key) => Ok(Some(type_limits(alloc, graph, place, key)?)),
        DocumentFault::Format(place) => owned(alloc, Some(format_limits(place))),
        DocumentFault::BadPort(_, _) => owned(alloc, Some("NAME or NAME:PORT, a port of 0..15")),
        DocumentFault::NotToml(_)
        | DocumentFault::UnknownKey(_, _)
        | DocumentFault::BadName(_, _)
        | DocumentFault::NameTwice(_)
        | DocumentFault::UnknownKind(_)
        | DocumentFault::NoFile(_) => Ok(None),
    }
}

/// Returns what the key of `fault` needs, if there is a graph.
fn limits_of(
    alloc: Global,
    fault: &DocumentFault,
    graph: Option<&Value>,
) -> Result<Option<String>, AllocError>
    ensures { IfOk result (λ o. option_map string_bytes o ≡ option_and_then (limits_in (fault_view fault.now))
        (option_map (λ v. view v.now) graph.entry)) }
{
    match graph {
        Some(graph) => limits_in(alloc, fault, graph),
        None => Ok(None),
    }
}

/// Returns what a `fault` of a graph file or one of its coefficient files is about.
pub fn document_facts(
    alloc: Global,
    fault: &DocumentFault,
    sources: DesignFiles<'_>,
) -> Result<Facts, AllocError>
    ensures place { IfOk result (λ f. place_view f.place ≡
        place_of (fault_view fault.now) (root sources.entry.graph.now)) }
    ensures actor { IfOk result (λ f. f.actor ≡ actor_at (place_view f.place) (root sources.entry.graph.now)) }
    ensures key { IfOk result (λ f. option_map string_bytes f.key ≡ key_of (fault_view fault.now)) }
    ensures value { IfOk result (λ f. option_map string_bytes f.value ≡ value_told (place_view f.place)
        (root sources.entry.graph.now) (files_view sources.entry.files.now) (key_of (fault_view fault.now))) }
    ensures limits { IfOk result (λ f. option_map string_bytes f.limits ≡
        option_and_then (limits_in (fault_view fault.now)) (root sources.entry.graph.now)) }
{
    let graph = root(alloc, sources.graph)?;
    let graph = graph.as_ref();
    let place = place_of(alloc, fault, graph)?;
    let limits = limits_of(alloc, fault, graph)?;
    facts_at(alloc, sources, graph, place, key_of(fault), limits)
}

fn graph_place(fault: GraphFault) -> Place
    ensures { place_view result ≡ graph_place fault }
{
    match fault {
        GraphFault::BadEnd { channel }
        | GraphFault::BadRate { channel }
        | GraphFault::InitialCount { channel }
        | GraphFault::CycleLength { channel }
        | GraphFault::Inconsistent { channel, .. } => Place::Link(channel),
        GraphFault::NotConnected { actor } => Place::Actor(actor),
        GraphFault::OutOfMemory
        | GraphFault::ActorCount
        | GraphFault::ChannelCount
        | GraphFault::PeriodTooLong => Place::Top,
    }
}

/// Returns the place of a `fault` of a net.
fn net_place(fault: NetFault) -> Place
    ensures { place_view result ≡ net_place fault }
{
    match fault {
        NetFault::Graph(fault) => graph_place(fault),
        NetFault::NoPort { link } | NetFault::PortTwice { link } => Place::Link(link),
        NetFault::PortOpen { actor, .. }
        | NetFault::ExtTwice { actor }
        | NetFault::InputRates { actor }
        | NetFault::OutputRates { actor } => Place::Actor(actor),
        NetFault::OutOfMemory | NetFault::NoInput | NetFault::NoOutput { .. } => Place::Top,
    }
}

/// Returns what a `fault` of a net is about: an actor or a link.
pub fn net_facts(
    alloc: Global,
    fault: NetFault,
    sources: DesignFiles<'_>,
) -> Result<Facts, AllocError>
    ensures place { IfOk result (λ f. place_view f.place ≡ net_place fault) }
    ensures actor { IfOk result (λ f. f.actor ≡ actor_at (net_place fault) None) }
    ensures key { IfOk result (λ f. (f.key ≡ None) × (f.value ≡ None) × (f.limits ≡ None)) }
{
    facts_at(alloc, sources, None, net_place(fault), None, None)
}

/// Returns what is known of the actor `number`, which has no home among `workers` workers: its key `processor`.
pub fn home_facts(
    alloc: Global,
    workers: usize,
    number: usize,
    sources: DesignFiles<'_>,
) -> Result<Facts, AllocError>
    ensures place { IfOk result (λ f. (f.place ≡ Place.Actor number) × (f.actor ≡ Some number)) }
    ensures key { IfOk result (λ f. option_map string_bytes f.key ≡ Some (codes "processor")) }
    ensures value { IfOk result (λ f. option_map string_bytes f.value ≡ value_told (actor number)
        (root sources.entry.graph.now) (files_view sources.entry.files.now) (Some (codes "processor"))) }
    ensures limits { IfOk result (λ f. option_map string_bytes f.limits ≡ Some (up_to 0 (workers - 1))) }
{
    let graph = root(alloc, sources.graph)?;
    let limits = up_to(alloc, 0, workers.saturating_sub(1))?;
    let place = Place::Actor(number);
    facts_at(
        alloc,
        sources,
        graph.as_ref(),
        place,
        Some("processor"),
        Some(limits),
    )
}
