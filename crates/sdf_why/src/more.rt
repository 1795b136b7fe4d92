//! The part of a net's diagnostic that needs more than the tables: actors that are not connected, the channel balance
//! at a link, and numbers of ports.

ghost use Rattle.std.specs.Prelude.{◌≡◌, ℕ, ◌++◌, [], None, IfOk, OnOk, option_map};
ghost use Rattle.std.specs.Prelude.{string_bytes};
ghost use Rattle.std.specs.List.{flat_map, range_with_len};
ghost use Rattle.toml.specs.View.{view};
ghost use Rattle.sdf_graph.specs.Rates.{GraphValue};
ghost use Rattle.sdf_graph.specs.Faults.{numbers_fault};
ghost use Rattle.sdf_graph.specs.Marks.{is_marked};
ghost use Rattle.sdf_document.specs.Document.{document_view};
ghost use Rattle.sdf_document.specs.Lists.{files_view};
ghost use Rattle.sdf_why.specs.Channels.{graph_in};
ghost use Rattle.sdf_why.specs.More.{unlinked_told, IsUnlinkedText, count_of, firings_line, moves_text};
ghost use Rattle.sdf_why.specs.More.{samples_line, firings_told, samples_told, balance_told, IsGraphMore, IsMoreOf};
ghost use Rattle.sdf_why.specs.More.{IsMore};

use crate::actors::push_actor_of;
use crate::channels::channels_of;
use crate::diagnostics::DesignFiles;
use crate::links::end_at;
use crate::ports::ports_text;
use crate::tables::{actor_text, root};
use crate::words::{push_end, push_name};
use sdf_actor::NetFault;
use sdf_document::{Document, ReadFault, read_document};
use sdf_graph::{Balance, Channel, GraphFault, joined};
use std::alloc::{AllocError, Global};
use toml::Value;

/// Checks whether `actor` is marked.
pub(crate) fn is_marked(marked: &[bool], actor: usize) -> bool
    ensures { result ≡ is_marked marked.now actor }
{
    match marked.get(actor) {
        Some(mark) => *mark,
        None => false,
    }
}

/// Adds the line of `actor`, if it has no mark.
#[tactic(auto, unfolding(crate::specs::More::unlinked_told))]
fn push_unlinked(
    alloc: Global,
    text: &mut String,
    tables: &Value,
    marked: &[bool],
    actor: usize,
) -> Result<(), AllocError>
    ensures { OnOk result (string_bytes text.new ≡ string_bytes text.old
        ++ unlinked_told (view tables.now) marked.now actor) }
{
    if is_marked(marked, actor) {
        Ok(())
    } else {
        push_actor_of(alloc, text, tables, actor)
    }
}

/// Adds the lines of the actors without a mark among the first `actors` actors.
fn push_all_unlinked(
    alloc: Global,
    text: &mut String,
    tables: &Value,
    marked: &[bool],
    actors: usize,
) -> Result<(), AllocError>
    ensures { OnOk result (string_bytes text.new ≡ string_bytes text.old
        ++ flat_map (unlinked_told (view tables.now) marked.now) (range_with_len 0 actors)) }
{
    for actor in 0..actors {
        push_unlinked(alloc, text, tables, marked, actor)?;
    }
    Ok(())
}

/// Returns the lines of all actors that links do not join to actor 0.
fn unlinked_text(
    alloc: Global,
    tables: &Value,
    actors: usize,
    channels: &[Channel],
) -> Result<String, AllocError>
    ensures { let shape : GraphValue = record { actors = actors; channels = channels.now } in
        IfOk result (λ text. numbers_fault shape ≡ None → IsUnlinkedText (view tables.now) shape (string_bytes text)) }
{
    let mut text = String::new(alloc);
    let Ok(marked) = joined(actors, channels) else {
        return Ok(text);
    };
    push_all_unlinked(alloc, &mut text, tables, &marked, actors)?;
    Ok(text)
}

/// Adds `count` and the `name` of what is counted.
#[tactic(auto, unfolding(crate::specs::More::count_of))]
fn push_count_of(
    alloc: Global,
    text: &mut String,
    count: u64,
    name: Option<&str>,
) -> Result<(), AllocError>
    ensures { OnOk result (string_bytes text.new ≡ string_bytes text.old
        ++ count_of count (option_map (λ s. s.now) name.entry)) }
{
    write!(text, "{count} of ")?;
    push_name(alloc, text, name)
}

/// Adds the line with the firings of a link's two actors, as the other links set them.
#[tactic(auto, unfolding(crate::specs::More::firings_line))]
fn push_firings(
    alloc: Global,
    text: &mut String,
    balance: Balance,
    source: Option<&str>,
    target: Option<&str>,
) -> Result<(), AllocError>
    ensures { OnOk result (string_bytes text.new ≡ string_bytes text.old ++ firings_line balance
        (option_map (λ s. s.now) source.entry) (option_map (λ s. s.now) target.entry)) }
{
    text.push_str("  firings by the other links: ")?;
    push_count_of(alloc, text, balance.source, source)?;
    text.push_str(", ")?;
    push_count_of(alloc, text, balance.target, target)?;
    Ok(text.push_str("\n")?)
}

/// Adds the `samples` that an `end` of a link moves, with the `verb` for it.
#[tactic(auto, unfolding(crate::specs::More::moves_text))]
fn push_moves(
    alloc: Global,
    text: &mut String,
    end: Option<&str>,
    verb: &str,
    samples: u64,
) -> Result<(), AllocError>
    ensures { OnOk result (string_bytes text.new ≡ string_bytes text.old
        ++ moves_text (option_map (λ s. s.now) end.entry) verb.now samples) }
{
    push_end(alloc, text, end)?;
    write!(text, "{verb}{samples}")
}

/// Adds the line with the samples that the firings of `balance` put on a link and take from it.
#[tactic(auto, unfolding(crate::specs::More::samples_line))]
fn push_samples(
    alloc: Global,
    text: &mut String,
    balance: Balance,
    from: Option<&str>,
    to: Option<&str>,
) -> Result<(), AllocError>
    ensures { OnOk result (string_bytes text.new ≡ string_bytes text.old ++ samples_line balance
        (option_map (λ s. s.now) from.entry) (option_map (λ s. s.now) to.entry)) }
{
    text.push_str("  samples on this link: ")?;
    push_moves(alloc, text, from, " puts ", balance.puts)?;
    text.push_str(", ")?;
    push_moves(alloc, text, to, " takes ", balance.takes)?;
    Ok(text.push_str("\n")?)
}

#[tactic(auto, unfolding(crate::specs::More::firings_told))]
fn push_firings_of(
    alloc: Global,
    text: &mut String,
    tables: &Value,
    channel: &Channel,
    balance: Balance,
) -> Result<(), AllocError>
    ensures { OnOk result (string_bytes text.new ≡ string_bytes text.old
        ++ firings_told (view tables.now) channel.now balance) }
{
    let source = actor_text(tables, "name", channel.from);
    let target = actor_text(tables, "name", channel.to);
    push_firings(alloc, text, balance, source, target)
}

#[tactic(auto, unfolding(crate::specs::More::samples_told))]
fn push_samples_of(
    alloc: Global,
    text: &mut String,
    tables: &Value,
    link: usize,
    balance: Balance,
) -> Result<(), AllocError>
    ensures { OnOk result (string_bytes text.new ≡ string_bytes text.old
        ++ samples_told (view tables.now) link balance) }
{
    let from = end_at(tables, "from", link);
    let to = end_at(tables, "to", link);
    push_samples(alloc, text, balance, from, to)
}

/// Returns the lines about the channel balance at `link`, or nothing if there is no link with this number.
#[tactic(auto, unfolding(crate::specs::More::balance_told))]
fn balance_text(
    alloc: Global,
    tables: &Value,
    channels: &[Channel],
    link: usize,
    balance: Balance,
) -> Result<String, AllocError>
    ensures { IfOk result (λ text. string_bytes text ≡ balance_told (view tables.now) channels.now link balance) }
{
    let mut text = String::new(alloc);
    if link < channels.len() {
        push_firings_of(alloc, &mut text, tables, &channels[link], balance)?;
        push_samples_of(alloc, &mut text, tables, link, balance)?;
    }
    Ok(text)
}

/// Returns the rest of the diagnostic for a `fault` of the graph of `document`.
fn graph_more(
    alloc: Global,
    fault: GraphFault,
    tables: &Value,
    document: &Document,
) -> Result<String, AllocError>
    ensures { IfOk result (λ text. IsGraphMore (view tables.now) (graph_in (document_view document.now)) fault
        (string_bytes text)) }
{
    let actors = document.actors.len();
    let channels = channels_of(alloc, &document.actors, &document.links)?;
    match fault {
        GraphFault::NotConnected { .. } => unlinked_text(alloc, tables, actors, &channels),
        GraphFault::Inconsistent { channel, balance } => {
            balance_text(alloc, tables, &channels, channel, balance)
        }
        _ => Ok(String::new(alloc)),
    }
}

/// Returns the rest of the diagnostic for a `fault` of the net of `document`.
fn net_more(
    alloc: Global,
    fault: NetFault,
    tables: &Value,
    document: &Document,
) -> Result<String, AllocError>
    ensures { IfOk result (λ text. IsMoreOf (view tables.now) (document_view document.now) fault
        (string_bytes text)) }
{
    match fault {
        NetFault::Graph(fault) => graph_more(alloc, fault, tables, document),
        NetFault::NoPort { link } => ports_text(alloc, document, link),
        _ => Ok(String::new(alloc)),
    }
}

/// Returns the rest of the diagnostic for a `fault` of a net, or nothing if the files give no document.
pub(crate) fn more_text(
    alloc: Global,
    fault: NetFault,
    sources: DesignFiles<'_>,
) -> Result<String, AllocError>
    ensures { IfOk result (λ text. IsMore fault sources.entry.graph.now (files_view sources.entry.files.now)
        (string_bytes text)) }
{
    let Some(tables) = root(alloc, sources.graph)? else {
        return Ok(String::new(alloc));
    };
    match read_document(alloc, sources.graph, sources.files) {
        Ok(document) => Ok(net_more(alloc, fault, &tables, &document)?),
        Err(ReadFault::OutOfMemory) => Err(AllocError),
        Err(ReadFault::Document(_)) => Ok(String::new(alloc)),
    }
}
