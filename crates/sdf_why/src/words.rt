//! The wording of diagnostics.

ghost use Rattle.std.specs.Prelude.{◌≡◌, ◌++◌, OnOk, option_map, string_bytes};
ghost use Rattle.toml.specs.View.{view};
ghost use Rattle.sdf_why.specs.Words.{quoted, value_text, article, name_text, kind_text, end_text, actor_line};
ghost use Rattle.sdf_why.specs.Words.{link_words, hint_line};
ghost use Rattle.sdf_why.specs.Words.{link_line, lack_line, limits_text, key_line, is_vowel, numbered, message_line};
ghost use Rattle.sdf_options.specs.Printable.{printable_text};

use crate::marks::has_mark;
use sdf_options::printable::printable;
use std::alloc::{AllocError, Global};
use toml::Value;

/// Adds `said`, a text from the user's file, with its control characters escaped.
pub(crate) fn push_printable(alloc: Global, text: &mut String, said: &str) -> Result<(), AllocError>
    ensures { OnOk result (string_bytes text.new ≡ string_bytes text.old ++ printable_text said.now) }
{
    let shown = printable(alloc, said)?;
    Ok(text.push_str(shown.as_str())?)
}

/// Adds `said`, a text from the user's file, in quotes.
pub(crate) fn push_quoted(alloc: Global, text: &mut String, said: &str) -> Result<(), AllocError>
    ensures { OnOk result (string_bytes text.new ≡ string_bytes text.old ++ quoted said.now) }
{
    text.push_str("\"")?;
    push_printable(alloc, text, said)?;
    Ok(text.push_str("\"")?)
}

/// Adds a value: a text in quotes, a whole number in digits, a list by its length, and anything else by its type.
#[tactic(auto, using(crate::proofs::Items::item_count_view))]
pub(crate) fn push_value(alloc: Global, text: &mut String, value: &Value) -> Result<(), AllocError>
    ensures { OnOk result (string_bytes text.new ≡ string_bytes text.old ++ value_text (view value.now)) }
{
    if let Some(said) = value.as_str() {
        return push_quoted(alloc, text, said);
    }
    if let Some(number) = value.as_integer() {
        write!(text, "{number}")?;
        return Ok(());
    }
    match value.as_array() {
        Some(items) => {
            let count = items.len();
            write!(text, "a list of {count}")?;
        }
        None => {
            let other = value.type_str();
            write!(text, "a {other}")?;
        }
    }
    Ok(())
}

/// Returns the indefinite article of `word`.
fn article(word: &str) -> &'static str
    ensures { result.now ≡ article word.now }
{
    match word.as_bytes().first() {
        Some(b'a' | b'e' | b'i' | b'o' | b'u') => "an ",
        _ => "a ",
    }
}

/// Adds `name` in quotes, or that there is none.
pub(crate) fn push_name(
    alloc: Global,
    text: &mut String,
    name: Option<&str>,
) -> Result<(), AllocError>
    ensures { OnOk result (string_bytes text.new ≡
        string_bytes text.old ++ name_text (option_map (λ s. s.now) name.entry)) }
{
    match name {
        Some(name) => push_quoted(alloc, text, name),
        None => Ok(text.push_str("without a name")?),
    }
}

fn push_kind(alloc: Global, text: &mut String, kind: Option<&str>) -> Result<(), AllocError>
    ensures { OnOk result (string_bytes text.new ≡
        string_bytes text.old ++ kind_text (option_map (λ s. s.now) kind.entry)) }
{
    match kind {
        Some(kind) => {
            text.push_str(article(kind))?;
            push_printable(alloc, text, kind)
        }
        None => Ok(text.push_str("of no kind")?),
    }
}

/// Adds an `end` of a link, with port 0 if it names no port.
pub(crate) fn push_end(
    alloc: Global,
    text: &mut String,
    end: Option<&str>,
) -> Result<(), AllocError>
    ensures { OnOk result (string_bytes text.new ≡ string_bytes text.old
        ++ end_text (option_map (λ s. s.now) end.entry)) }
{
    match end {
        Some(end) => {
            push_printable(alloc, text, end)?;
            Ok(text.push_str(if has_mark(end, ':') { "" } else { ":0" })?)
        }
        None => Ok(text.push_str("?")?),
    }
}

/// Adds the line of an actor.
#[tactic(auto, unfolding(crate::specs::Words::actor_line))]
pub(crate) fn push_actor(
    alloc: Global,
    text: &mut String,
    number: usize,
    name: Option<&str>,
    kind: Option<&str>,
) -> Result<(), AllocError>
    ensures { OnOk result (string_bytes text.new ≡ string_bytes text.old
        ++ actor_line number (option_map (λ s. s.now) name.entry) (option_map (λ s. s.now) kind.entry)) }
{
    write!(text, "  actor {number} is ")?;
    push_name(alloc, text, name)?;
    text.push_str(", ")?;
    push_kind(alloc, text, kind)?;
    Ok(text.push_str("\n")?)
}

/// Adds the number and the ends of a link.
#[tactic(auto, unfolding(crate::specs::Words::link_words))]
fn push_link_words(
    alloc: Global,
    text: &mut String,
    number: usize,
    from: Option<&str>,
    to: Option<&str>,
) -> Result<(), AllocError>
    ensures { OnOk result (string_bytes text.new ≡ string_bytes text.old
        ++ link_words number (option_map (λ s. s.now) from.entry) (option_map (λ s. s.now) to.entry)) }
{
    write!(text, "  link {number} is ")?;
    push_end(alloc, text, from)?;
    text.push_str(" -> ")?;
    push_end(alloc, text, to)
}

/// Adds the line of a link.
pub(crate) fn push_link(
    alloc: Global,
    text: &mut String,
    number: usize,
    from: Option<&str>,
    to: Option<&str>,
) -> Result<(), AllocError>
    ensures { OnOk result (string_bytes text.new ≡ string_bytes text.old
        ++ link_line number (option_map (λ s. s.now) from.entry) (option_map (λ s. s.now) to.entry)) }
{
    push_link_words(alloc, text, number, from, to)?;
    Ok(text.push_str("\n")?)
}

/// The number of samples that a link holds, and the number that the next firing of its target takes.
#[derive(Clone, Copy)]
pub(crate) struct Lack {
    pub(crate) holds: u64,
    pub(crate) needs: u32,
}

/// Adds the line of a link that holds too little.
pub(crate) fn push_lack(
    alloc: Global,
    text: &mut String,
    number: usize,
    from: Option<&str>,
    to: Option<&str>,
    lack: Lack,
) -> Result<(), AllocError>
    ensures { OnOk result (string_bytes text.new ≡ string_bytes text.old ++ lack_line number
        (option_map (λ s. s.now) from.entry) (option_map (λ s. s.now) to.entry) lack.holds lack.needs) }
{
    push_link_words(alloc, text, number, from, to)?;
    let Lack { holds, needs } = lack;
    writeln!(text, ", holds {holds}, needs {needs}")?;
    Ok(())
}

fn push_limits(text: &mut String, limits: Option<&str>) -> Result<(), AllocError>
    ensures { OnOk result (string_bytes text.new ≡
        string_bytes text.old ++ limits_text (option_map (λ s. s.now) limits.entry)) }
{
    match limits {
        Some(limits) => write!(text, ", needs {limits}"),
        None => Ok(()),
    }
}

/// Adds the line of `key`, with its value and its limits.
#[tactic(auto, unfolding(crate::specs::Words::key_line))]
pub(crate) fn push_key(
    alloc: Global,
    text: &mut String,
    key: &str,
    value: Option<&Value>,
    limits: Option<&str>,
) -> Result<(), AllocError>
    ensures { OnOk result (string_bytes text.new ≡ string_bytes text.old
        ++ key_line key.now (option_map (λ v. view v.now) value.entry) (option_map (λ s. s.now) limits.entry)) }
{
    if value.is_none() && limits.is_none() {
        return Ok(());
    }
    text.push_str("  ")?;
    push_printable(alloc, text, key)?;
    match (value, limits) {
        (Some(value), _) => {
            text.push_str(" = ")?;
            push_value(alloc, text, value)?;
            push_limits(text, limits)?;
        }
        (None, Some(limits)) => write!(text, " needs {limits}")?,
        (None, None) => {}
    }
    Ok(text.push_str("\n")?)
}

/// Adds a name that may have been meant.
pub(crate) fn push_hint(alloc: Global, text: &mut String, name: &str) -> Result<(), AllocError>
    ensures { OnOk result (string_bytes text.new ≡ string_bytes text.old ++ hint_line name.now) }
{
    text.push_str("  did you mean ")?;
    push_quoted(alloc, text, name)?;
    text.push_str("?")?;
    Ok(text.push_str("\n")?)
}

/// Adds numbered things from `first` to `last`. `word` is the noun for one of them.
#[tactic(auto, unfolding(crate::specs::Words::numbered))]
pub(crate) fn push_numbered(
    text: &mut String,
    word: &str,
    first: usize,
    last: usize,
) -> Result<(), AllocError>
    ensures { OnOk result (string_bytes text.new ≡ string_bytes text.old ++ numbered word.now first last) }
{
    if first == last {
        return write!(text, "{word} {first}");
    }
    write!(text, "{word}s {first}")?;
    text.push_str(if first.saturating_add(1) == last {
        " and "
    } else {
        " to "
    })?;
    write!(text, "{last}")
}

/// Adds the line of the file `name` with the message `said`.
#[tactic(auto, unfolding(crate::specs::Words::message_line))]
pub(crate) fn push_message(
    alloc: Global,
    text: &mut String,
    name: &str,
    said: &str,
) -> Result<(), AllocError>
    ensures { OnOk result (string_bytes text.new ≡ string_bytes text.old ++ message_line name.now said.now) }
{
    text.push_str("  ")?;
    push_quoted(alloc, text, name)?;
    text.push_str(": ")?;
    push_printable(alloc, text, said)?;
    Ok(text.push_str("\n")?)
}
