//! Stages whose periods have many firings.

use crate::forms::push_form;
use crate::numbers::Numbers;
use std::alloc::AllocError;

/// How many stages have sixteen links side by side, and how many have two different branches.
const WIDE: u32 = 10;

const SPLIT: u32 = 10;

/// The factor by which the stages' rate is above that of the input and the output.
const FACTOR: u32 = 3;

/// Firings in a period for each sample of an input's block.
const FIRINGS: u32 = 2 + FACTOR * (2 * WIDE + 4 * SPLIT);

/// An input and an output, and the actors that change the rate.
const ENDS: &str = "
[[actor]]
name = \"in\"
kind = \"input\"
channel = 0
block = {0}

[[actor]]
name = \"up\"
kind = \"interpolate\"
factor = {1}

[[actor]]
name = \"down\"
kind = \"decimate\"
factor = {1}

[[actor]]
name = \"out\"
kind = \"output\"
channel = 0
block = {0}

[[link]]
from = \"in\"
to = \"up\"

[[link]]
from = \"up\"
to = \"a0\"

[[link]]
from = \"down\"
to = \"out\"
";

/// A fork and an add.
const PAIR: &str = "
[[actor]]
name = \"a{0}\"
kind = \"fork\"
ways = {1}
cost = {2}

[[actor]]
name = \"z{0}\"
kind = \"add\"
ways = {1}
cost = {3}
";

/// Links from a fork, a gain and a delay on its two branches, and links to an add.
const BRANCHES: &str = "
[[link]]
from = \"a{0}:0\"
to = \"g{0}\"

[[link]]
from = \"a{0}:1\"
to = \"d{0}\"

[[actor]]
name = \"g{0}\"
kind = \"gain\"
gain = 3
shift = 2
cost = {1}

[[actor]]
name = \"d{0}\"
kind = \"delay\"
length = 9
cost = {2}

[[link]]
from = \"g{0}\"
to = \"z{0}:0\"

[[link]]
from = \"d{0}\"
to = \"z{0}:1\"
";

/// Adds a fork and an add with sixteen links between them.
fn push_wide(text: &mut String, numbers: &mut Numbers, stage: u32) -> Result<(), AllocError> {
    let (one, other) = (numbers.between(1, 1000), numbers.between(1, 1000));
    push_form(text, PAIR, &[stage, 16, one, other])?;
    for port in 0..16 {
        push_form(
            text,
            "\n[[link]]\nfrom = \"a{0}:{1}\"\nto = \"z{0}:{1}\"\n",
            &[stage, port],
        )?;
    }
    Ok(())
}

/// Adds a fork, a gain and a delay on its two branches, and an add.
fn push_split(text: &mut String, numbers: &mut Numbers, stage: u32) -> Result<(), AllocError> {
    let (one, other) = (numbers.between(1, 1000), numbers.between(1, 1000));
    push_form(text, PAIR, &[stage, 2, one, other])?;
    let (one, other) = (numbers.between(1, 1000), numbers.between(1, 1000));
    push_form(text, BRANCHES, &[stage, one, other])
}

/// Adds the link from a stage to the next one, or to the end.
fn push_next(text: &mut String, stage: u32) -> Result<(), AllocError> {
    let next = stage.saturating_add(1);
    let form = if next < WIDE + SPLIT {
        "\n[[link]]\nfrom = \"z{0}\"\nto = \"a{1}\"\n"
    } else {
        "\n[[link]]\nfrom = \"z{0}\"\nto = \"down\"\n"
    };
    push_form(text, form, &[stage, next])
}

/// Adds the stages, an input and an output, for periods of about `firings` firings.
pub(crate) fn push_staged(
    text: &mut String,
    numbers: &mut Numbers,
    firings: u32,
) -> Result<(), AllocError> {
    push_form(text, ENDS, &[(firings / FIRINGS).max(1), FACTOR])?;
    push_stages(text, numbers)
}

/// Adds the stages, wide ones and split ones in random order.
fn push_stages(text: &mut String, numbers: &mut Numbers) -> Result<(), AllocError> {
    let mut wide = WIDE;
    for stage in 0..WIDE + SPLIT {
        let left = (WIDE + SPLIT).saturating_sub(stage);
        if numbers.between(1, left) <= wide {
            push_wide(text, numbers, stage)?;
            wide = wide.saturating_sub(1);
        } else {
            push_split(text, numbers, stage)?;
        }
        push_next(text, stage)?;
    }
    Ok(())
}
