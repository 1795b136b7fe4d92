//! Whole graph files.
ghost use Rattle.std.specs.Prelude.{◌≡◌, ◌++◌, [], map, IfOk, OnOk, Some, true, is_some, None, option_map};
ghost use Rattle.std.specs.Prelude.{string_bytes, length, List};
ghost use Rattle.std.specs.List.{All, filter_map};
ghost use Rattle.toml.specs.View.{items_view, table_view, view};
ghost use Rattle.sdf_document.specs.Fault.{Gives};
ghost use Rattle.sdf_document.specs.Names.{names_of};
ghost use Rattle.sdf_document.specs.Tables.{texts_of};
ghost use Rattle.sdf_document.specs.Lists.{files_view, lookup_of, are_read, unread};
ghost use Rattle.sdf_document.specs.Actors.{actor_view, names_in, IsActorWithin};
ghost use Rattle.sdf_document.specs.Links.{link_view};
ghost use Rattle.sdf_document.specs.Document.{actors_in, links_in, array_at, item_count, top_keys, rate_at, parts_at};
ghost use Rattle.sdf_document.specs.Document.{parts_view, document_view, document_of, kind_file, actor_file};
ghost use Rattle.sdf_document.specs.Document.{entries_at, first_seen, file_names_of, AreDistinct};
ghost use Rattle.sdf_document.specs.Document.{graph_table, document_in, file_names_in, IsRated};

use crate::actor::actor_at;
use crate::entry::{ActorEntry, Document, KindEntry, LinkEntry};
use crate::fault::{BorrowedPlace, DocumentFault, Place, ReadFault};
use crate::file::{CoefficientFile, Files};
use crate::link::link_at;
use crate::name::put_name;
use crate::table::{format_at, table_in, test_keys};
use crate::value::{at, optional_at};
use indexmap::IndexSet;
use sdf_limits::{MAX_ACTORS, MAX_LINKS};
use std::alloc::{AllocError, Global};
use std::marker::Model;
use toml::{Table, Value};

/// Reads the actors from the tables `items`, and puts their names into `names`.
fn actors_in(
    alloc: Global,
    format: u32,
    files: Files<'_>,
    names: &mut IndexSet<String>,
    items: &[Value],
) -> Result<Vec<ActorEntry>, ReadFault>
    requires { names_of names.old.keys ≡ [] }
    ensures given { Gives (λ v. map actor_view v.items) result
        (actors_in format (lookup_of files.entry) (items_view items.now)) }
    ensures named { IfOk result (λ v. names_of names.new.keys ≡ names_in (map actor_view v.items)) }
    ensures distinct { IfOk result (λ v. AreDistinct (names_in (map actor_view v.items))) }
    ensures within { IfOk result (λ v. All (IsActorWithin (are_read files.entry)) v.items) }
{
    let mut actors = Vec::new(alloc);
    for (number, value) in items.iter().enumerate() {
        let actor = actor_at(alloc, number, format, files, names, value)?;
        actors.push(actor)?;
    }
    Ok(actors)
}

fn links_in(
    alloc: Global,
    names: &IndexSet<String>,
    items: &[Value],
) -> Result<Vec<LinkEntry>, ReadFault>
    ensures { Gives (λ v. map link_view v.items) result (links_in (names_of names.now.keys) (items_view items.now)) }
{
    let mut links = Vec::new(alloc);
    for (number, value) in items.iter().enumerate() {
        let link = link_at(alloc, number, names, value)?;
        links.push(link)?;
    }
    Ok(links)
}

#[tactic(auto, unfolding(crate::specs::Document::array_at))]
fn array_at<'a>(key: &'static str, table: &'a Table) -> Result<&'a [Value], ReadFault>
    ensures { Gives (λ s. items_view s.now) result (array_at key.now (table_view table.now)) }
{
    let Some(value) = at(table, key) else {
        return Err(DocumentFault::MissingKey(Place::Top, key).into());
    };
    match value.as_array() {
        Some(array) => Ok(array.as_slice()),
        None => Err(DocumentFault::WrongType(Place::Top, key).into()),
    }
}

/// Rate of the sound of a design in Hz: 1 to this.
pub const MAX_HZ: u32 = u32::MAX;

static TOP_KEYS: [&str; 4] = ["format", "rate", "actor", "link"];

/// Returns the keys at the top of a graph file.
pub fn top_keys() -> &'static [&'static str]
    ensures { texts_of result.now ≡ top_keys }
{
    TOP_KEYS.as_slice()
}

/// Returns the rate in Hz of the sound that a design is made for, if `table` has it.
#[tactic(auto, unfolding(crate::specs::Document::rate_at))]
fn rate_at(table: &Table) -> Result<Option<u32>, ReadFault>
    ensures given { Gives (λ n. n) result (rate_at (table_view table.now)) }
    ensures rated { IfOk result IsRated }
{
    optional_at(Place::Top, "rate", 1, MAX_HZ, table)
}

/// The format of a graph file, its rate, and the items of its two arrays.
#[derive(Clone, Copy)]
struct FileParts<'a> {
    format: u32,
    rate: Option<u32>,
    actors: &'a [Value],
    links: &'a [Value],
}

#[tactic(auto, using(crate::proofs::Turns::item_count_view), unfolding(crate::specs::Document::parts_at))]
fn parts_at(alloc: Global, table: &Table) -> Result<FileParts<'_>, ReadFault>
    ensures given { Gives parts_view result (parts_at (table_view table.now)) }
    ensures rated { IfOk result (λ p. IsRated p.rate) }
{
    let format = format_at(alloc, BorrowedPlace::Top, 2, table)?;
    test_keys(alloc, BorrowedPlace::Top, top_keys(), table)?;
    let rate = rate_at(table)?;
    let actors = array_at("actor", table)?;
    let links = array_at("link", table)?;
    if actors.is_empty() || actors.len() > MAX_ACTORS {
        return Err(DocumentFault::ActorCount.into());
    }
    if links.len() > MAX_LINKS {
        return Err(DocumentFault::ChannelCount.into());
    }
    Ok(FileParts {
        format,
        rate,
        actors,
        links,
    })
}

/// Reads the rate, the actors and the links of a graph file, and puts the names of its actors into `names`.
fn document_in(
    alloc: Global,
    parts: FileParts<'_>,
    files: &[CoefficientFile],
    names: &mut IndexSet<String>,
) -> Result<Document, ReadFault>
    requires named { names_of names.old.keys ≡ [] }
    requires rated { IsRated parts.rate }
    ensures given { Gives document_view result (entries_at (files_view files.now) (parts_view parts.entry)) }
    ensures rated { IfOk result (λ d. IsRated d.rate) }
    ensures distinct { IfOk result (λ d. AreDistinct (names_in (map actor_view d.actors.items))) }
    ensures within { IfOk result (λ d. All (IsActorWithin true) d.actors.items) }
{
    let actors = actors_in(
        alloc,
        parts.format,
        Files::Given(files),
        names,
        parts.actors,
    )?;
    let links = links_in(alloc, names, parts.links)?;
    Ok(Document {
        rate: parts.rate,
        actors,
        links,
    })
}

/// Returns the name of the coefficient file of `kind`, if its list has one.
fn file_of(kind: &KindEntry) -> Option<&str>
    ensures { option_map (λ s. s.now) result ≡ kind_file kind.now }
{
    let list = match kind {
        KindEntry::Fir { taps, .. } => taps,
        KindEntry::Table { values, .. } => values,
        _ => return None,
    };
    list.file.as_deref()
}

/// Puts the names of the coefficient files of `actors` into `names`, each once.
#[tactic(auto, using(crate::proofs::FirstSeen::wanted_more, crate::proofs::FirstSeen::wanted_same))]
fn put_files(
    alloc: Global,
    names: &mut IndexSet<String>,
    actors: &[ActorEntry],
) -> Result<(), AllocError>
    requires { names_of names.old.keys ≡ [] }
    ensures { OnOk result (names_of names.new.keys ≡ first_seen (filter_map actor_file (map actor_view actors.now))) }
{
    for actor in actors {
        if let Some(name) = file_of(&actor.kind) {
            put_name(alloc, names, name)?;
        }
    }
    Ok(())
}

/// Returns the names of the coefficient files of `actors`, each once, in first-seen order.
fn names_wanted(alloc: Global, actors: &[ActorEntry]) -> Result<Vec<String>, AllocError>
    ensures { IfOk result (λ v. names_of v.items ≡ first_seen (filter_map actor_file (map actor_view actors.now))) }
{
    let mut names = IndexSet::new(alloc);
    put_files(alloc, &mut names, actors)?;
    Vec::from_iter(alloc, names)
}

/// Reads the actors of a graph file, without a look into coefficient files.
fn actors_without_files(alloc: Global, parts: FileParts<'_>) -> Result<Vec<ActorEntry>, ReadFault>
    ensures { Gives (λ v. map actor_view v.items) result
        (actors_in parts.entry.format unread (items_view parts.entry.actors.now)) }
{
    let mut names = IndexSet::new(alloc);
    actors_in(alloc, parts.format, Files::Unread, &mut names, parts.actors)
}

/// A parsed graph file: its TOML table, before any other test.
#[derive(Drop)]
pub struct GraphFile {
    table: Table,
}

impl Model for GraphFile {
    ghost use Rattle.std.specs.Prelude.{String};
    ghost use Rattle.std.specs.BTreeMap.{BTreeMap};
    ghost use Rattle.std.specs.declared.alloc.Global.{Global};
    ghost use Rattle.toml.specs.declared.value.Value.{Value as TomlValue};
    ghost use Rattle.toml.specs.Rows.{table_row};

    ghost Value = { BTreeMap (String Global) TomlValue };

    ghost coded = { table_row.coded };

    ghost view = { λ g. g.table };
}

impl GraphFile {
    /// Parses `graph`, the bytes of a graph file, for `file_names` and `document`. Errs with `49 NotToml` if they are
    /// not a TOML document.
    #[tactic(auto, unfolding(crate::specs::Document::graph_table))]
    pub fn parse(alloc: Global, graph: &[u8]) -> Result<GraphFile, ReadFault>
        ensures { Gives table_view result (graph_table graph.now) }
    {
        let table = table_in(alloc, BorrowedPlace::Top, graph)?;
        Ok(GraphFile { table })
    }

    /// Returns the names of the coefficient files, each once, in first-seen order, or the first failed test.
    ///
    /// Links and coefficient files are not tested.
    #[tactic(auto, unfolding(crate::specs::Document::file_names_in))]
    pub fn file_names(&self, alloc: Global) -> Result<Vec<String>, ReadFault>
        ensures { Gives (λ v. names_of v.items) result (file_names_in (table_view self.now)) }
    {
        let parts = parts_at(alloc, &self.table)?;
        let actors = actors_without_files(alloc, parts)?;
        Ok(names_wanted(alloc, actors.as_slice())?)
    }

    /// Reads the rate, the actors and the links of the graph file with its coefficient `files`, or returns the first
    /// failed test.
    ///
    /// If two of `files` have the same name, the first counts.
    #[tactic(auto, unfolding(crate::specs::Document::document_in))]
    pub fn document(&self, alloc: Global, files: &[CoefficientFile]) -> Result<Document, ReadFault>
        ensures given { Gives document_view result (document_in (table_view self.now) (files_view files.now)) }
        ensures rated { IfOk result (λ d. IsRated d.rate) }
        ensures distinct { IfOk result (λ d. AreDistinct (names_in (map actor_view d.actors.items))) }
        ensures within { IfOk result (λ d. All (IsActorWithin true) d.actors.items) }
    {
        let parts = parts_at(alloc, &self.table)?;
        let mut names = IndexSet::new(alloc);
        document_in(alloc, parts, files, &mut names)
    }
}

/// Reads `graph`, the bytes of a graph file, with its coefficient `files`, or returns the first failed test.
///
/// If two of `files` have the same name, the first counts.
#[tactic(auto, unfolding(crate::specs::Document::document_of))]
pub fn read_document(
    alloc: Global,
    graph: &[u8],
    files: &[CoefficientFile],
) -> Result<Document, ReadFault>
    ensures given { Gives document_view result (document_of graph.now (files_view files.now)) }
    ensures rated { IfOk result (λ d. IsRated d.rate) }
    ensures distinct { IfOk result (λ d. AreDistinct (names_in (map actor_view d.actors.items))) }
    ensures within { IfOk result (λ d. All (IsActorWithin true) d.actors.items) }
{
    let graph = GraphFile::parse(alloc, graph)?;
    graph.document(alloc, files)
}

/// Returns the names of the coefficient files of `graph`, each once, in first-seen order, or the first failed test.
///
/// Links and coefficient files are not tested.
#[tactic(auto, unfolding(crate::specs::Document::file_names_of))]
pub fn file_names(alloc: Global, graph: &[u8]) -> Result<Vec<String>, ReadFault>
    ensures { Gives (λ v. names_of v.items) result (file_names_of graph.now) }
{
    let graph = GraphFile::parse(alloc, graph)?;
    graph.file_names(alloc)
}
