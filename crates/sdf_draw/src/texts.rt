//! Parts of the texts.

ghost use Rattle.std.specs.Prelude.{◌≡◌, ◌++◌, ◌≤◌, length, string_bytes, sum, OnOk};
ghost use Rattle.sdf_limits.specs.declared.TheConstants.{MAX_CYCLE};
ghost use Rattle.sdf_draw.specs.Texts.{number_text, pair_text, escaped_char, escaped, name_text, rate_text};

use sdf_file::Design;
use std::alloc::AllocError;

/// The number of colours.
pub(crate) const COLOURS: usize = 7;

/// Adds `word` and `number`.
pub(crate) fn push_number(text: &mut String, word: &str, number: u64) -> Result<(), AllocError>
    ensures { OnOk result (string_bytes text.new ≡ string_bytes text.old ++ number_text word.now number) }
{
    write!(text, "{word}{number}")?;
    Ok(())
}

/// Adds `one` with `x` behind it, and `other` with `y` behind it.
#[tactic(auto, unfolding(crate::specs::Texts::pair_text))]
pub(crate) fn push_pair(
    text: &mut String,
    one: &str,
    x: u64,
    other: &str,
    y: u64,
) -> Result<(), AllocError>
    ensures { OnOk result (string_bytes text.new ≡ string_bytes text.old ++ pair_text one.now x other.now y) }
{
    push_number(text, one, x)?;
    push_number(text, other, y)
}

/// The context that a name is escaped for: markup, or a text between quotes.
#[derive(Clone, Copy)]
pub(crate) enum Within {
    Marks,
    Quotes,
}

/// Adds `character`, escaped for `within`.
fn push_character(text: &mut String, within: Within, character: char) -> Result<(), AllocError>
    ensures { OnOk result (string_bytes text.new ≡ string_bytes text.old ++ escaped_char within character) }
{
    match (within, character) {
        (Within::Marks, '&') => text.push_str("&amp;"),
        (Within::Marks, '<') => text.push_str("&lt;"),
        (Within::Marks, '>') => text.push_str("&gt;"),
        (Within::Marks, '"') => text.push_str("&quot;"),
        (Within::Marks, '\'') => text.push_str("&#39;"),
        (Within::Quotes, '"') => text.push_str("\\\""),
        (Within::Quotes, '\\') => text.push_str("\\\\"),
        (_, other) => text.push(other),
    }
}

/// Adds `word`, escaped for `within`.
pub(crate) fn push_escaped(text: &mut String, within: Within, word: &str) -> Result<(), AllocError>
    ensures { OnOk result (string_bytes text.new ≡ string_bytes text.old ++ escaped within word.now) }
{
    for character in word.chars() {
        push_character(text, within, character)?;
    }
    Ok(())
}

/// Adds the name of `actor`, escaped for markup.
#[tactic(auto, unfolding(crate::specs::Texts::name_text))]
pub(crate) fn push_name(text: &mut String, design: &Design, actor: usize) -> Result<(), AllocError>
    ensures { OnOk result (string_bytes text.new ≡ string_bytes text.old ++ name_text design.now actor) }
{
    push_escaped(text, Within::Marks, design.name(actor))
}

/// Returns the sum of the `rates` of a cycle.
fn total(rates: &[u32]) -> u64
    requires { length rates.now ≤ MAX_CYCLE }
    ensures { result ≡ sum rates.now }
{
    let mut total = 0;
    for rate in rates {
        total += u64::from(*rate);
    }
    total
}

/// Adds the samples that a cycle with these `rates` moves, and its number of firings if it has several.
#[tactic(auto, unfolding(crate::specs::Texts::rate_text))]
pub(crate) fn push_rate(text: &mut String, rates: &[u32]) -> Result<(), AllocError>
    requires { length rates.now ≤ MAX_CYCLE }
    ensures { OnOk result (string_bytes text.new ≡ string_bytes text.old ++ rate_text rates.now) }
{
    push_number(text, "", total(rates))?;
    if rates.len() == 1 {
        return Ok(());
    }
    push_number(text, "/", rates.len() as u64)
}
