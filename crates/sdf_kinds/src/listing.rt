//! The table of kinds as a text.

ghost use Rattle.std.specs.Prelude.{◌≡◌, ◌++◌, IfOk, OnOk, string_bytes};
ghost use Rattle.sdf_kinds.specs.Rows.{key_view, keys_view};
ghost use Rattle.sdf_kinds.specs.Listing.{integers, from_least, absent_text, width_text, values_text, limits_text};
ghost use Rattle.sdf_kinds.specs.Listing.{lead_text, default_text, key_text, keys_text, since_text, line_of};
ghost use Rattle.sdf_kinds.specs.Listing.{kinds_text};

use crate::row::{Form, KeyForm, Kind, Width, kinds, row_of, shared_keys};
use std::alloc::{AllocError, Global};

/// Appends the range from `least` to `most`, or `of 32 bits` for all values of an `i32`.
#[tactic(auto, unfolding(crate::specs::Listing::integers))]
fn push_integers(text: &mut String, least: i32, most: i32) -> Result<(), AllocError>
    ensures { OnOk result (string_bytes text.new ≡ string_bytes text.old ++ integers least most) }
{
    if least == i32::MIN && most == i32::MAX {
        text.push_str("of 32 bits")
    } else {
        write!(text, "{least}..{most}")
    }
}

/// Appends the range from the value of the key `least` to `most`.
#[tactic(auto, unfolding(crate::specs::Listing::from_least))]
fn push_to(text: &mut String, most: i32) -> Result<(), AllocError>
    ensures { OnOk result (string_bytes text.new ≡ string_bytes text.old ++ from_least most) }
{
    write!(text, "least..{most}")
}

/// Returns the range of a list's values, in words.
fn width_text(width: Width) -> &'static str
    ensures { result.now ≡ width_text width }
{
    match width {
        Width::Bits16 => "of -32768..32767",
        Width::Bits32 => "of 32 bits",
    }
}

/// Appends the limit of a list's length and the range of its values.
fn push_values(text: &mut String, most: usize, width: Width) -> Result<(), AllocError>
    ensures { OnOk result (string_bytes text.new ≡ string_bytes text.old ++ values_text most width) }
{
    write!(text, "1..{most} values ")?;
    text.push_str(width_text(width))?;
    Ok(())
}

/// Appends the limits of a value of this `form`.
fn push_limits(text: &mut String, form: Form) -> Result<(), AllocError>
    ensures { OnOk result (string_bytes text.new ≡ string_bytes text.old ++ limits_text form) }
{
    match form {
        Form::Natural(least, most, _) => write!(text, "{least}..{most}"),
        Form::Optional(least, most) => write!(text, "{least}..{most} or absent"),
        Form::Integer(least, most, _) => push_integers(text, least, most),
        Form::FromLeast(_, most, _) => push_to(text, most),
        Form::List(most, width) => push_values(text, most, width),
    }
}

/// Returns what is between a key's name and its limits. A file may be given instead of a list.
fn lead_text(form: Form) -> &'static str
    ensures { result.now ≡ lead_text form }
{
    match form {
        Form::List(_, _) => " or file: ",
        _ => " ",
    }
}

/// Appends the default in parentheses, if `absent` has one.
#[tactic(auto, unfolding(crate::specs::Listing::absent_text))]
fn push_absent(text: &mut String, absent: Option<i32>) -> Result<(), AllocError>
    ensures { OnOk result (string_bytes text.new ≡ string_bytes text.old ++ absent_text absent) }
{
    match absent {
        Some(number) => write!(text, " ({number})"),
        None => Ok(()),
    }
}

/// Appends the default in parentheses, if a key of this `form` has one.
fn push_default(text: &mut String, form: Form) -> Result<(), AllocError>
    ensures { OnOk result (string_bytes text.new ≡ string_bytes text.old ++ default_text form) }
{
    match form {
        Form::Natural(_, _, Some(absent)) => write!(text, " ({absent})"),
        Form::Integer(_, _, absent) | Form::FromLeast(_, _, absent) => push_absent(text, absent),
        _ => Ok(()),
    }
}

/// Appends the name of `key`, its limits and its default.
fn push_key(text: &mut String, key: &KeyForm) -> Result<(), AllocError>
    ensures { OnOk result (string_bytes text.new ≡ string_bytes text.old ++ key_text (key_view key.now)) }
{
    text.push_str(key.0.name())?;
    text.push_str(lead_text(key.1))?;
    push_limits(text, key.1)?;
    push_default(text, key.1)
}

/// Appends `keys` in their order.
#[tactic(auto, using(std::proofs::lemmas::List::map_more, std::proofs::lemmas::List::flat_map_more))]
fn push_keys(text: &mut String, keys: &[KeyForm]) -> Result<(), AllocError>
    ensures { OnOk result (string_bytes text.new ≡ string_bytes text.old ++ keys_text (keys_view keys.now)) }
{
    let [first, rest @ ..] = keys else {
        return Ok(());
    };
    push_key(text, first)?;
    for key in rest {
        text.push_str(", ")?;
        push_key(text, key)?;
    }
    Ok(())
}

/// Appends the first format that has a kind, unless it is format 1.
fn push_since(text: &mut String, since: u32) -> Result<(), AllocError>
    ensures { OnOk result (string_bytes text.new ≡ string_bytes text.old ++ since_text since) }
{
    if since == 1 {
        return Ok(());
    }
    write!(text, ", format {since}")
}

/// Appends the line of `kind`.
fn push_line(text: &mut String, kind: Kind) -> Result<(), AllocError>
    ensures { OnOk result (string_bytes text.new ≡ string_bytes text.old ++ line_of kind) }
{
    let row = row_of(kind);
    text.push_str(row.word)?;
    push_since(text, row.since)?;
    text.push_str(": ")?;
    push_keys(text, row.keys)?;
    text.push_str("\n")?;
    Ok(())
}

/// Returns the limits of a value of this `form`, as the table of kinds lists them.
pub fn limits_text(alloc: Global, form: Form) -> Result<String, AllocError>
    ensures { IfOk result (λ text. string_bytes text ≡ limits_text form) }
{
    let mut text = String::new(alloc);
    push_limits(&mut text, form)?;
    Ok(text)
}

/// Returns `keys` with their limits and defaults, as the table of kinds lists them.
pub fn keys_text(alloc: Global, keys: &[KeyForm]) -> Result<String, AllocError>
    ensures { IfOk result (λ text. string_bytes text ≡ keys_text (keys_view keys.now)) }
{
    let mut text = String::new(alloc);
    push_keys(&mut text, keys)?;
    Ok(text)
}

/// Returns the table of kinds, a line for each. It lists each kind's keys with their limits, and the defaults in
/// parentheses. The last line has the keys that every actor may have.
pub fn kinds_text(alloc: Global) -> Result<String, AllocError>
    ensures { IfOk result (λ text. string_bytes text ≡ kinds_text) }
{
    let mut text = String::new(alloc);
    let all = kinds();
    for kind in all {
        push_line(&mut text, *kind)?;
    }
    text.push_str("every kind: ")?;
    push_keys(&mut text, shared_keys())?;
    text.push_str("\n")?;
    Ok(text)
}
