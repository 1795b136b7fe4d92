//! A chain of small actors.

use crate::forms::{push_array, push_form};
use crate::numbers::Numbers;
use std::alloc::AllocError;

/// The stages of a chain.
const CHAIN: u32 = 60;

const ENDS: &str = "
[[actor]]
name = \"in\"
kind = \"input\"
channel = 0

[[actor]]
name = \"out\"
kind = \"output\"
channel = 0

[[link]]
from = \"in\"
to = \"a0\"
";

/// Adds the chain, its input and its output.
pub(crate) fn push_chain(text: &mut String, numbers: &mut Numbers) -> Result<(), AllocError> {
    text.push_str(ENDS)?;
    for stage in 0..CHAIN {
        push_form(text, "\n[[actor]]\nname = \"a{0}\"\n", &[stage])?;
        push_kind(text, numbers, stage)?;
        push_next(text, stage)?;
    }
    Ok(())
}

/// Adds the link from an actor of a chain to the next one, or to the output.
fn push_next(text: &mut String, stage: u32) -> Result<(), AllocError> {
    let next = stage.saturating_add(1);
    let form = if next < CHAIN {
        "\n[[link]]\nfrom = \"a{0}\"\nto = \"a{1}\"\n"
    } else {
        "\n[[link]]\nfrom = \"a{0}\"\nto = \"out\"\n"
    };
    push_form(text, form, &[stage, next])
}

/// Adds the kind and the keys of an actor of a chain.
fn push_kind(text: &mut String, numbers: &mut Numbers, stage: u32) -> Result<(), AllocError> {
    let (form, number) = match stage % 7 {
        0 | 3 => (
            "kind = \"gain\"\nshift = 14\ngain = {0}\n",
            numbers.between(15_000, 32_000),
        ),
        1 => return push_offset(text, numbers.around(300)),
        2 | 4 => (
            "kind = \"clip\"\nleast = -{0}\ngreatest = {0}\n",
            numbers.between(20_000, 32_000),
        ),
        5 => return push_table(text, numbers),
        _ => ("kind = \"delay\"\nlength = {0}\n", numbers.between(1, 600)),
    };
    push_form(text, form, &[number])
}

/// Adds the kind and the keys of an offset.
fn push_offset(text: &mut String, value: i64) -> Result<(), AllocError> {
    write!(text, "kind = \"offset\"\nvalue = {value}\n")
}

/// Adds the kind and the keys of a table.
fn push_table(text: &mut String, numbers: &mut Numbers) -> Result<(), AllocError> {
    text.push_str("kind = \"table\"\noffset = 128\nvalues = ")?;
    push_array(text, numbers, 256, 20_000)
}
