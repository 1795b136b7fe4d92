//! Designs.
ghost use Rattle.std.specs.Prelude.{◌≡◌, ◌<◌, [], true, map, slice_index_or};
ghost use Rattle.std.specs.Prelude.{MatchResult, Ok};
ghost use Rattle.std.specs.List.{All};
ghost use Rattle.sdf_document.specs.Lists.{files_view};
ghost use Rattle.sdf_document.specs.Actors.{actor_view, names_in, IsActorWithin};
ghost use Rattle.sdf_document.specs.Document.{document_view, AreDistinct, IsRated};
ghost use Rattle.sdf_document.specs.Document.{table_view, graph_table, document_in, file_names_in};
ghost use Rattle.sdf_document.specs.Names.{names_of};
ghost use Rattle.sdf_actor.specs.NetFaults.{WasAccepted};
ghost use Rattle.sdf_kit.specs.Kit.{kit_steps};
ghost use Rattle.sdf_file.specs.Designs.{design_of, IsDesign, IsDesignOf, IsFileFault, IsMadeFault, AreFileNames};
ghost use Rattle.sdf_file.specs.Designs.{IsNamesFault, IsDesignFrom, IsFaultFrom, IsReadFault};

use crate::fault::FileFault;
use crate::parts::{links_of, parts_of};
use sdf_actor::Net;
use sdf_document::{CoefficientFile, Document, GraphFile};
use sdf_kit::Kit;
use std::alloc::Global;
use std::marker::Model;

/// A design: the rate that it is made for, if it has one, and a net, with the name, the home processor and the cost of
/// a firing of each actor.
pub struct Design {
    rate: Option<u32>,
    net: Net<Kit>,
    names: Vec<String>,
    homes: Vec<Option<usize>>,
    costs: Vec<u32>,
}

impl Model for Design {
    ghost use Rattle.sdf_document.specs.Names.{names_of};
    ghost use Rattle.sdf_file.specs.Designs.{DesignValue, IsDesign};

    ghost Value = { DesignValue };

    ghost view = { λ d. record {
      rate = d.rate;
      net = d.net;
      names = names_of d.names.items;
      homes = d.homes.items;
      costs = d.costs.items;
    } };

    ghost invariant = { λ d. IsDesign (record {
      rate = d.rate;
      net = d.net;
      names = names_of d.names.items;
      homes = d.homes.items;
      costs = d.costs.items;
    }) };
}

/// Not derived: a derived drop is expanded, with all lists of the net, wherever a design may be dropped.
impl Drop for Design {
    fn drop(self) {
        let Design {
            rate: _,
            net: _,
            names: _,
            homes: _,
            costs: _,
        } = self;
    }
}

impl Design {
    /// Returns the rate in Hz of the sound that the design is made for, or `None` if its key `rate` is absent.
    pub fn rate(&self) -> Option<u32>
        ensures value { result ≡ self.now.rate }
        ensures rated { IsRated result }
    {
        self.rate
    }

    /// Returns the net. Its nodes and links have the numbers of the actors and links in the graph file.
    pub fn net(&self) -> &Net<Kit>
        ensures value { result.now ≡ self.now.net }
        ensures whole { IsDesign self.now }
    {
        &self.net
    }

    /// Returns the name of actor number `actor`, or an empty text if the net has fewer actors.
    pub fn name(&self, actor: usize) -> &str
        ensures { result.now ≡ slice_index_or self.now.names actor [] }
    {
        match self.names.get(actor) {
            Some(name) => name.as_str(),
            None => "",
        }
    }

    /// Returns the home processor of each actor, or `None` if its key `processor` is absent.
    pub fn homes(&self) -> &[Option<usize>]
        ensures { result.now ≡ self.now.homes }
    {
        &self.homes
    }

    /// Returns the cost of a firing of each actor, from its key `cost`: 1 to 1,000,000.
    pub fn costs(&self) -> &[u32]
        ensures { result.now ≡ self.now.costs }
    {
        &self.costs
    }
}

/// Parses `graph`, the bytes of a graph file, for `coefficient_files` and `make_design`. Errs with `49 NotToml` if they
/// are not a TOML document.
pub fn parse_graph(alloc: Global, graph: &[u8]) -> Result<GraphFile, FileFault>
    ensures { MatchResult result (λ g. graph_table graph.now ≡ Ok (table_view g))
        (IsReadFault (graph_table graph.now)) }
{
    Ok(GraphFile::parse(alloc, graph)?)
}

/// Returns the names of the coefficient files of `graph`, each once, in first-seen order, or the first test that it
/// fails.
///
/// Links, coefficient files and the net are not tested.
pub fn coefficient_files(alloc: Global, graph: &GraphFile) -> Result<Vec<String>, FileFault>
    ensures { MatchResult result (λ v. file_names_in (table_view graph.now) ≡ Ok (names_of v.items))
        (IsReadFault (file_names_in (table_view graph.now))) }
{
    Ok(graph.file_names(alloc)?)
}

/// Returns the names of the coefficient files of `graph`, the bytes of a graph file, or the first failed test.
///
/// Each name is there once, in first-seen order. Links, coefficient files and the net are not tested.
#[tactic(auto, using(crate::proofs::Parsed::names_parsed, crate::proofs::Parsed::names_unparsed))]
pub fn design_files(alloc: Global, graph: &[u8]) -> Result<Vec<String>, FileFault>
    ensures { MatchResult result (λ v. AreFileNames graph.now (names_of v.items)) (IsNamesFault graph.now) }
{
    let graph = parse_graph(alloc, graph)?;
    coefficient_files(alloc, &graph)
}

/// Makes the design of `document`, or returns the first test that its net fails.
fn design_of(alloc: Global, document: Document) -> Result<Design, FileFault>
    requires rated { IsRated document.rate }
    requires distinct { AreDistinct (names_in (map actor_view document.actors.items)) }
    requires within { All (IsActorWithin true) document.actors.items }
    ensures { MatchResult result
        (λ d. (d ≡ design_of (document_view document)) × WasAccepted kit_steps d.net)
        (IsMadeFault (design_of (document_view document)).net) }
{
    let Document {
        rate,
        actors,
        links,
    } = document;
    let parts = parts_of(alloc, actors)?;
    let links = links_of(alloc, links)?;
    let net = Net::new(alloc, parts.nodes, links)?;
    Ok(Design {
        rate,
        net,
        names: parts.names,
        homes: parts.homes,
        costs: parts.costs,
    })
}

/// Makes the design of `graph` and its coefficient `files`, or returns the first test that they fail.
///
/// If two of `files` have the same name, the first counts. Files that `graph` does not name are not read.
pub fn make_design(
    alloc: Global,
    graph: &GraphFile,
    files: &[CoefficientFile],
) -> Result<Design, FileFault>
    ensures { MatchResult result (IsDesignFrom (document_in (table_view graph.now) (files_view files.now)))
        (IsFaultFrom (document_in (table_view graph.now) (files_view files.now))) }
{
    let document = graph.document(alloc, files)?;
    design_of(alloc, document)
}

/// Reads the design of `graph`, the bytes of a graph file, with its coefficient `files`, or returns the first test
/// that they fail.
///
/// If two of `files` have the same name, the first counts. Files that the graph file does not name are not read.
#[tactic(auto, using(crate::proofs::Parsed::document_parsed, crate::proofs::Parsed::document_unparsed))]
pub fn read_design(
    alloc: Global,
    graph: &[u8],
    files: &[CoefficientFile],
) -> Result<Design, FileFault>
    ensures { MatchResult result (IsDesignOf graph.now (files_view files.now))
        (IsFileFault graph.now (files_view files.now)) }
{
    let graph = parse_graph(alloc, graph)?;
    make_design(alloc, &graph, files)
}
