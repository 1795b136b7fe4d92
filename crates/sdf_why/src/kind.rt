//! The diagnostic for a word that is not a kind of the graph file's format.

ghost use Rattle.std.specs.Prelude.{◌≡◌, ◌++◌, IfOk, OnOk, map, option_map, string_bytes};
ghost use Rattle.toml.specs.View.{view};
ghost use Rattle.sdf_similar.specs.Similar.{nearest};
ghost use Rattle.sdf_why.specs.Kinds.{kind_words, kinds_line, format_of, is_format_one, kind_format, format_for};
ghost use Rattle.sdf_why.specs.Kinds.{meant_told, purpose_told, word_told, kind_told};

use crate::near::push_other;
use crate::synonyms::{Purpose, advice_of, kind_of, purpose_of};
use crate::tables::{actor_text, value_at};
use crate::words::{push_hint, push_key};
use sdf_document::kind_named;
use sdf_kinds::{kinds, row_of};
use sdf_similar::nearest;
use std::alloc::{AllocError, Global};
use toml::Value;

/// Returns the words of all kinds.
fn kind_words(alloc: Global) -> Result<Vec<&'static str>, AllocError>
    ensures { IfOk result (λ words. map (λ word. word.now) words.items ≡ kind_words) }
{
    let mut words = Vec::new(alloc);
    let all = kinds();
    for kind in all {
        words.push(kind.word())?;
    }
    Ok(words)
}

/// Returns the line with all kinds.
fn kinds_line() -> &'static str
    ensures { result.now ≡ kinds_line }
{
    "  kinds: input, output, fir, decimate, interpolate, add, fork, gain, delay, table, deal, gather, clip and offset\n"
}

/// Returns the whole number at the key `format` of `graph`.
fn format_of(graph: &Value) -> Option<i64>
    ensures { result ≡ format_of (view graph.now) }
{
    value_at(graph, "format")?.as_integer()
}

fn is_format_one(graph: &Value) -> bool
    ensures { result ≡ is_format_one (view graph.now) }
{
    match format_of(graph) {
        Some(format) => format == 1,
        None => false,
    }
}

/// Adds the line of the key `format` with `kind`, which needs format 2, if `graph` is of format 1.
#[tactic(auto, unfolding(crate::specs::Kinds::kind_format))]
fn push_kind_format(
    alloc: Global,
    text: &mut String,
    graph: &Value,
    kind: &str,
) -> Result<(), AllocError>
    ensures { OnOk result (string_bytes text.new ≡ string_bytes text.old ++ kind_format kind.now (view graph.now)) }
{
    if !is_format_one(graph) {
        return Ok(());
    }
    let wanted = format!(in alloc; "2 for {kind}")?;
    let format = value_at(graph, "format");
    push_key(alloc, text, "format", format, Some(wanted.as_str()))
}

/// Adds the format that `kind` needs, unless format 1 has it.
fn push_format_for(
    alloc: Global,
    text: &mut String,
    graph: &Value,
    kind: &str,
) -> Result<(), AllocError>
    ensures { OnOk result (string_bytes text.new ≡ string_bytes text.old ++ format_for (view graph.now) kind.now) }
{
    if kind_named(1, kind).is_some() {
        return Ok(());
    }
    push_kind_format(alloc, text, graph, kind)
}

/// Adds the kind `meant` by `word`, and the format that it needs. Without a kind, adds all kinds.
fn push_meant(
    alloc: Global,
    text: &mut String,
    graph: &Value,
    word: &str,
    meant: Option<&str>,
) -> Result<(), AllocError>
    ensures { OnOk result (string_bytes text.new ≡ string_bytes text.old
        ++ meant_told (view graph.now) word.now (option_map (λ s. s.now) meant.entry)) }
{
    let Some(kind) = meant else {
        return Ok(text.push_str(kinds_line())?);
    };
    push_other(alloc, text, word, Some(kind))?;
    push_format_for(alloc, text, graph, kind)
}

/// Adds the kind that serves `purpose`, how it does so, the format that it needs, and all kinds.
#[tactic(auto, unfolding(crate::specs::Kinds::purpose_told))]
fn push_purpose(
    alloc: Global,
    text: &mut String,
    graph: &Value,
    purpose: Purpose,
) -> Result<(), AllocError>
    ensures { OnOk result (string_bytes text.new ≡ string_bytes text.old ++ purpose_told (view graph.now) purpose) }
{
    let kind = row_of(kind_of(purpose)).word;
    push_hint(alloc, text, kind)?;
    text.push_str(advice_of(purpose))?;
    push_format_for(alloc, text, graph, kind)?;
    Ok(text.push_str(kinds_line())?)
}

/// Adds the kind that is most like `word`, and the format that it needs. Without one, adds all kinds.
fn push_nearest(
    alloc: Global,
    text: &mut String,
    graph: &Value,
    word: &str,
) -> Result<(), AllocError>
    ensures { OnOk result (string_bytes text.new ≡ string_bytes text.old
        ++ meant_told (view graph.now) word.now (nearest word.now kind_words)) }
{
    let words = kind_words(alloc)?;
    let meant = nearest(alloc, &words, word)?;
    push_meant(alloc, text, graph, word, meant)
}

#[tactic(auto, unfolding(crate::specs::Kinds::word_told))]
fn push_word(alloc: Global, text: &mut String, graph: &Value, word: &str) -> Result<(), AllocError>
    ensures { OnOk result (string_bytes text.new ≡ string_bytes text.old ++ word_told (view graph.now) word.now) }
{
    match purpose_of(word) {
        Some(purpose) => push_purpose(alloc, text, graph, purpose),
        None => push_nearest(alloc, text, graph, word),
    }
}

/// Adds the kind that may have been meant for `actor`, and the format that it needs.
#[tactic(auto, unfolding(crate::specs::Kinds::kind_told))]
pub(crate) fn push_kind(
    alloc: Global,
    text: &mut String,
    graph: &Value,
    actor: usize,
) -> Result<(), AllocError>
    ensures { OnOk result (string_bytes text.new ≡ string_bytes text.old ++ kind_told actor (view graph.now)) }
{
    match actor_text(graph, "kind", actor) {
        Some(word) => push_word(alloc, text, graph, word),
        None => Ok(()),
    }
}
