//! The lines about a link, from its table.

ghost use Rattle.std.specs.Prelude.{◌≡◌, ◌++◌, OnOk, option_map, string_bytes};
ghost use Rattle.toml.specs.View.{view};
ghost use Rattle.sdf_why.specs.Links.{link_is, link_told, link_key, end_at, end_told, ends_told, port_of, same_port};
ghost use Rattle.sdf_why.specs.Links.{same_end, share_end, first_sharing};

use crate::actors::push_first;
use crate::marks::{after_mark, before, has_mark};
use crate::tables::{entry, text_at, value_at};
use crate::words::{push_key, push_link};
use std::alloc::{AllocError, Global};
use toml::Value;

/// Adds the line of the link `number`, whose table is `link`.
fn push_link_table(
    alloc: Global,
    text: &mut String,
    number: usize,
    link: &Value,
) -> Result<(), AllocError>
    ensures { OnOk result (string_bytes text.new ≡ string_bytes text.old ++ link_is number (view link.now)) }
{
    push_link(
        alloc,
        text,
        number,
        text_at(link, "from"),
        text_at(link, "to"),
    )
}

/// Adds the line of the link `number`, if there is one.
#[tactic(auto, unfolding(crate::specs::Links::link_told))]
pub(crate) fn push_link_of(
    alloc: Global,
    text: &mut String,
    graph: &Value,
    number: usize,
) -> Result<(), AllocError>
    ensures { OnOk result (string_bytes text.new ≡ string_bytes text.old ++ link_told (view graph.now) number) }
{
    match entry(graph, "link", number) {
        Some(link) => push_link_table(alloc, text, number, link),
        None => Ok(()),
    }
}

/// Adds the line of the link `number`, and the line of its `key`.
#[tactic(auto, unfolding(crate::specs::Links::link_key))]
pub(crate) fn push_link_key(
    alloc: Global,
    text: &mut String,
    graph: &Value,
    number: usize,
    key: &str,
    limits: Option<&str>,
) -> Result<(), AllocError>
    ensures { OnOk result (string_bytes text.new ≡ string_bytes text.old
        ++ link_key number key.now (option_map (λ s. s.now) limits.entry) (view graph.now)) }
{
    let Some(link) = entry(graph, "link", number) else {
        return Ok(());
    };
    push_link_table(alloc, text, number, link)?;
    push_key(alloc, text, key, value_at(link, key), limits)
}

/// Returns the text of the end `key` of `link`. The key is `from` or `to`.
#[tactic(auto, unfolding(crate::specs::Links::end_at))]
pub(crate) fn end_at<'a>(graph: &'a Value, key: &str, link: usize) -> Option<&'a str>
    ensures { option_map (λ s. s.now) result ≡ end_at key.now (view graph.now) link }
{
    text_at(entry(graph, "link", link)?, key)
}

/// Adds the actor at the end `key` of `link`.
#[tactic(auto, unfolding(crate::specs::Links::end_told))]
fn push_end_of(
    alloc: Global,
    text: &mut String,
    graph: &Value,
    key: &str,
    link: usize,
) -> Result<(), AllocError>
    ensures { OnOk result (string_bytes text.new ≡ string_bytes text.old ++ end_told key.now (view graph.now) link) }
{
    match end_at(graph, key, link) {
        Some(end) => push_first(alloc, text, graph, "name", before(end, ':')),
        None => Ok(()),
    }
}

/// Adds `link` and the actors at its ends.
#[tactic(auto, unfolding(crate::specs::Links::ends_told))]
pub(crate) fn push_ends(
    alloc: Global,
    text: &mut String,
    graph: &Value,
    link: usize,
) -> Result<(), AllocError>
    ensures { OnOk result (string_bytes text.new ≡ string_bytes text.old ++ ends_told (view graph.now) link) }
{
    push_link_of(alloc, text, graph, link)?;
    push_end_of(alloc, text, graph, "from", link)?;
    push_end_of(alloc, text, graph, "to", link)
}

/// Returns the port of `end`, 0 if it names none.
#[tactic(auto, unfolding(crate::specs::Links::port_of))]
fn port_of(end: &str) -> &str
    ensures { result.now ≡ port_of end.now }
{
    if has_mark(end, ':') {
        after_mark(end, ':')
    } else {
        "0"
    }
}

/// Checks whether two ends are the same port.
#[tactic(auto, unfolding(crate::specs::Links::same_port))]
fn same_port(one: &str, other: &str) -> bool
    ensures { result ≡ same_port one.now other.now }
{
    before(one, ':') == before(other, ':') && port_of(one) == port_of(other)
}

/// Checks whether both ends exist and are the same port.
fn same_end(one: Option<&str>, other: Option<&str>) -> bool
    ensures { result ≡ same_end (option_map (λ s. s.now) one.entry) (option_map (λ s. s.now) other.entry) }
{
    match (one, other) {
        (Some(one), Some(other)) => same_port(one, other),
        _ => false,
    }
}

/// Checks whether `link` and `other` share an end.
#[tactic(auto, unfolding(crate::specs::Links::share_end))]
fn share_end(graph: &Value, link: usize, other: usize) -> bool
    ensures { result ≡ share_end (view graph.now) link other }
{
    same_end(end_at(graph, "from", link), end_at(graph, "from", other))
        || same_end(end_at(graph, "to", link), end_at(graph, "to", other))
}

/// Returns the first of `links` links that shares an end with `link`.
#[tactic(auto, unfolding(crate::specs::Links::first_sharing))]
pub(crate) fn first_sharing(graph: &Value, link: usize, links: usize) -> Option<usize>
    ensures { result ≡ first_sharing (view graph.now) link links }
{
    (0..links).find(|other| share_end(graph, link, *other))
}
