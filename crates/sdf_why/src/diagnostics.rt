//! The diagnostic for each fault, from the files of the design.

ghost use Rattle.std.specs.Prelude.{◌≡◌, ◌++◌, None, IfOk, OnOk, MatchOption, string_bytes};
ghost use Rattle.toml.specs.View.{view};
ghost use Rattle.sdf_document.specs.Lists.{files_view};
ghost use Rattle.sdf_file.specs.declared.fault.FileFault.TheVariants.{OutOfMemory};
ghost use Rattle.sdf_file.specs.Designs.{IsDesignOf};
ghost use Rattle.sdf_actor.specs.declared.sides.Lists.TheVariants.{Inputs};
ghost use Rattle.sdf_actor.specs.Sides.{list_count};
ghost use Rattle.sdf_actor.specs.Graphs.{graph_of};
ghost use Rattle.sdf_kit.specs.Kit.{kit_steps};
ghost use Rattle.sdf_why.specs.Sounds.{channels_told};
ghost use Rattle.sdf_why.specs.Cycles.{IsCycleText};
ghost use Rattle.sdf_why.specs.Diagnostics.{net_text, IsNetText, IsFileText, processor_line, home_is, home_text, Give};
ghost use Rattle.sdf_why.specs.Diagnostics.{GiveNone};
ghost use Rattle.sdf_why.specs.Diagnostics.{IsDeadlockText, IsChannelsText, IsRateOf, IsRateText, IsBlockOf};
ghost use Rattle.sdf_why.specs.Diagnostics.{IsBlockText};

use crate::actors::push_actor_table;
use crate::block::push_block;
use crate::cycle::{Halt, cycle_text};
use crate::document::{document_text, push_counted};
use crate::more::more_text;
use crate::net::push_net;
use crate::sound::{Header, push_channels, push_rate};
use crate::tables::{entry, root};
use sdf_actor::NetFault;
use sdf_file::{CoefficientFile, Design, FileFault, read_design};
use std::alloc::{AllocError, Global};
use toml::Value;

/// The files of a design: its graph file, and its coefficient files.
#[derive(Clone, Copy)]
pub struct DesignFiles<'a> {
    pub graph: &'a [u8],
    pub files: &'a [CoefficientFile],
}

/// Returns the part of a net's diagnostic that needs only the tables of the graph file.
#[tactic(auto, unfolding(crate::specs::Diagnostics::net_text))]
fn tables_text(alloc: Global, fault: NetFault, graph: &[u8]) -> Result<String, AllocError>
    ensures { IfOk result (λ text. string_bytes text ≡ net_text fault graph.now) }
{
    let mut text = String::new(alloc);
    if let Some(graph) = root(alloc, graph)? {
        push_net(alloc, &mut text, &graph, fault)?;
    }
    Ok(text)
}

/// Returns the diagnostic for a `fault` of a net.
fn net_text(alloc: Global, fault: NetFault, sources: DesignFiles<'_>) -> Result<String, AllocError>
    ensures { IfOk result (λ text. IsNetText fault sources.entry.graph.now (files_view sources.entry.files.now)
        (string_bytes text)) }
{
    let mut text = tables_text(alloc, fault, sources.graph)?;
    let more = more_text(alloc, fault, sources)?;
    text.push_str(more.as_str())?;
    Ok(text)
}

/// Returns the diagnostic for a `fault` of the files of a design.
pub fn file_text(
    alloc: Global,
    fault: &FileFault,
    sources: DesignFiles<'_>,
) -> Result<String, AllocError>
    ensures { IfOk result (λ text. IsFileText fault.now sources.entry.graph.now (files_view sources.entry.files.now)
        (string_bytes text)) }
{
    match fault {
        FileFault::OutOfMemory => Ok(String::new(alloc)),
        FileFault::Document(fault) => document_text(alloc, fault, sources.graph, sources.files),
        FileFault::Net(fault) => net_text(alloc, *fault, sources),
    }
}

/// Adds the key `processor` of `actor`, with its limits for `workers` workers.
#[tactic(auto, unfolding(crate::specs::Diagnostics::processor_line))]
fn push_processor(
    alloc: Global,
    text: &mut String,
    workers: usize,
    actor: &Value,
) -> Result<(), AllocError>
    ensures { OnOk result (string_bytes text.new ≡ string_bytes text.old ++ processor_line workers (view actor.now)) }
{
    push_counted(
        alloc,
        text,
        actor,
        "processor",
        0,
        workers.saturating_sub(1),
    )
}

/// Adds the actor `number`, which has no home among `workers` workers.
fn push_home(
    alloc: Global,
    text: &mut String,
    workers: usize,
    number: usize,
    actor: &Value,
) -> Result<(), AllocError>
    ensures { OnOk result (string_bytes text.new ≡ string_bytes text.old
        ++ home_is workers number (view actor.now)) }
{
    push_actor_table(alloc, text, number, actor)?;
    push_processor(alloc, text, workers, actor)
}

/// Returns the diagnostic for the actor `number`, which has no home among `workers` workers.
#[tactic(auto, unfolding(crate::specs::Diagnostics::home_text))]
pub fn home_text(
    alloc: Global,
    workers: usize,
    number: usize,
    graph: &[u8],
) -> Result<String, AllocError>
    ensures { IfOk result (λ text. string_bytes text ≡ home_text workers number graph.now) }
{
    let mut text = String::new(alloc);
    let Some(graph) = root(alloc, graph)? else {
        return Ok(text);
    };
    let Some(actor) = entry(&graph, "actor", number) else {
        return Ok(text);
    };
    push_home(alloc, &mut text, workers, number, actor)?;
    Ok(text)
}

/// The tables of a graph file, and the design that it makes with its coefficient files.
struct Basis {
    document: Value,
    design: Design,
}

/// Not derived: a derived drop is expanded, with each kind of value, wherever a basis may be dropped.
impl Drop for Basis {
    fn drop(self) {
        let Basis {
            document: _,
            design: _,
        } = self;
    }
}

/// Returns no design for `fault`, and errs if it is a refused allocation.
fn no_design(fault: &FileFault) -> Result<Option<Design>, AllocError>
    ensures { IfOk result (λ r. (r ≡ None) × (fault.now ≡ OutOfMemory → ⊥)) }
{
    match fault {
        FileFault::OutOfMemory => Err(AllocError),
        _ => Ok(None),
    }
}

/// Returns the design of `sources`, if they give one.
fn design_of(alloc: Global, sources: DesignFiles<'_>) -> Result<Option<Design>, AllocError>
    ensures { IfOk result (λ r. MatchOption r (GiveNone sources.entry.graph.now (files_view sources.entry.files.now))
        (IsDesignOf sources.entry.graph.now (files_view sources.entry.files.now))) }
{
    match read_design(alloc, sources.graph, sources.files) {
        Ok(design) => Ok(Some(design)),
        Err(fault) => no_design(&fault),
    }
}

/// Returns the tables and the design of `sources`, if they give one.
fn read_basis(alloc: Global, sources: DesignFiles<'_>) -> Result<Option<Basis>, AllocError>
    ensures { IfOk result (λ r. MatchOption r (GiveNone sources.entry.graph.now (files_view sources.entry.files.now))
        (λ x. Give sources.entry.graph.now (files_view sources.entry.files.now) (view x.document) x.design)) }
{
    let Some(document) = root(alloc, sources.graph)? else {
        return Ok(None);
    };
    match design_of(alloc, sources)? {
        Some(design) => Ok(Some(Basis { document, design })),
        None => Ok(None),
    }
}

/// Returns the lines of a deadlocked design: a cycle, and the other links that actors wait for.
fn deadlock_lines(
    alloc: Global,
    halts: &[Halt],
    document: &Value,
    design: &Design,
) -> Result<String, AllocError>
    ensures { IfOk result (λ text. IsCycleText (view document.now) (graph_of kit_steps design.now.net) halts.now
        (string_bytes text)) }
{
    cycle_text(alloc, document, design.net().graph(), halts)
}

/// Returns the diagnostic for a deadlock whose actors stopped as in `halts`.
pub fn deadlock_text(
    alloc: Global,
    halts: &[Halt],
    sources: DesignFiles<'_>,
) -> Result<String, AllocError>
    ensures { IfOk result (λ text. IsDeadlockText sources.entry.graph.now (files_view sources.entry.files.now) halts.now
        (string_bytes text)) }
{
    let Some(basis) = read_basis(alloc, sources)? else {
        return Ok(String::new(alloc));
    };
    deadlock_lines(alloc, halts, &basis.document, &basis.design)
}

/// Returns the lines about the channels of a design and of a sound.
fn channels_of(
    alloc: Global,
    header: Header,
    document: &Value,
    design: &Design,
) -> Result<String, AllocError>
    ensures { IfOk result (λ text. string_bytes text ≡ channels_told (view document.now)
        (list_count Inputs design.now.net.nodes) header.channels) }
{
    let mut text = String::new(alloc);
    push_channels(alloc, &mut text, document, design.net().inputs(), header)?;
    Ok(text)
}

/// Returns the diagnostic for a sound that lacks a channel of the design.
pub fn channels_text(
    alloc: Global,
    header: Header,
    sources: DesignFiles<'_>,
) -> Result<String, AllocError>
    ensures { IfOk result (λ text. IsChannelsText sources.entry.graph.now (files_view sources.entry.files.now) header
        (string_bytes text)) }
{
    let Some(basis) = read_basis(alloc, sources)? else {
        return Ok(String::new(alloc));
    };
    channels_of(alloc, header, &basis.document, &basis.design)
}

/// Returns the line about the rate of a design's output.
fn rate_of(alloc: Global, header: Header, design: &Design) -> Result<String, AllocError>
    ensures { IfOk result (λ text. IsRateOf design.now header (string_bytes text)) }
{
    let mut text = String::new(alloc);
    let net = design.net();
    push_rate(&mut text, header.rate, net.samples_out(), net.samples_in())?;
    Ok(text)
}

/// Returns the diagnostic for a sound for which the rate of the output is not a whole number.
pub fn rate_text(
    alloc: Global,
    header: Header,
    sources: DesignFiles<'_>,
) -> Result<String, AllocError>
    ensures { IfOk result (λ text. IsRateText sources.entry.graph.now (files_view sources.entry.files.now) header
        (string_bytes text)) }
{
    let Some(basis) = read_basis(alloc, sources)? else {
        return Ok(String::new(alloc));
    };
    rate_of(alloc, header, &basis.design)
}

/// Returns the line about the longest block of a design.
fn block_of(alloc: Global, design: &Design) -> Result<String, AllocError>
    ensures { IfOk result (λ text. IsBlockOf design.now (string_bytes text)) }
{
    let mut text = String::new(alloc);
    push_block(&mut text, design.net().repetitions().period())?;
    Ok(text)
}

/// Returns the firings of a period and the greatest `--blocking`, or no text if the files give no design.
pub fn block_text(alloc: Global, sources: DesignFiles<'_>) -> Result<String, AllocError>
    ensures { IfOk result (λ text. IsBlockText sources.entry.graph.now (files_view sources.entry.files.now)
        (string_bytes text)) }
{
    let Some(basis) = read_basis(alloc, sources)? else {
        return Ok(String::new(alloc));
    };
    block_of(alloc, &basis.design)
}
