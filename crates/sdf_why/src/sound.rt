//! The diagnostic for a sound that a design does not take.

ghost use Rattle.std.specs.Prelude.{◌≡◌, ◌++◌, ◌*◌, ◌<◌, ◌≤◌, OnOk, string_bytes};
ghost use Rattle.toml.specs.View.{view};
ghost use Rattle.sdf_limits.specs.declared.TheConstants.{MAX_PERIOD, MAX_RATE};
ghost use Rattle.sdf_why.specs.Sounds.{needs_text, has_text, channels_told, product_text, quotient_text, rate_line};

use crate::net::push_all_of;
use std::alloc::{AllocError, Global};
use toml::Value;

/// The rate in Hz and the number of channels in the header of a sound.
#[derive(Clone, Copy, Debug, PartialEq, Eq)]
pub struct Header {
    pub rate: u32,
    pub channels: u32,
}

/// Adds how many channels a design needs.
#[tactic(auto, unfolding(crate::specs::Sounds::needs_text))]
fn push_needs(text: &mut String, wanted: usize) -> Result<(), AllocError>
    ensures { OnOk result (string_bytes text.new ≡ string_bytes text.old ++ needs_text wanted) }
{
    write!(text, "  the design needs {wanted} channels")?;
    Ok(())
}

/// Adds how many channels a sound has.
#[tactic(auto, unfolding(crate::specs::Sounds::has_text))]
fn push_has(text: &mut String, channels: u32) -> Result<(), AllocError>
    ensures { OnOk result (string_bytes text.new ≡ string_bytes text.old ++ has_text channels) }
{
    writeln!(text, ", the sound has {channels}")?;
    Ok(())
}

/// Adds how many channels a design needs and a sound has, and the inputs of the design.
#[tactic(auto, unfolding(crate::specs::Sounds::channels_told))]
pub(crate) fn push_channels(
    alloc: Global,
    text: &mut String,
    graph: &Value,
    wanted: usize,
    header: Header,
) -> Result<(), AllocError>
    ensures { OnOk result (string_bytes text.new ≡ string_bytes text.old
        ++ channels_told (view graph.now) wanted header.channels) }
{
    push_needs(text, wanted)?;
    push_has(text, header.channels)?;
    push_all_of(alloc, text, graph, "input", "channel")
}

/// Adds the formula for the output's rate: `rate` times `made` over `taken`.
#[tactic(auto, unfolding(crate::specs::Sounds::product_text))]
fn push_product(text: &mut String, rate: u32, made: usize, taken: usize) -> Result<(), AllocError>
    ensures { OnOk result (string_bytes text.new ≡ string_bytes text.old ++ product_text rate made taken) }
{
    write!(text, "  {rate} * {made} / {taken} = ")?;
    Ok(())
}

/// Adds `all` over `by` as a whole number and a fraction.
#[tactic(auto, unfolding(crate::specs::Sounds::quotient_text))]
fn push_quotient(text: &mut String, all: u64, by: u64) -> Result<(), AllocError>
    requires { 0 < by }
    ensures { OnOk result (string_bytes text.new ≡ string_bytes text.old ++ quotient_text all by) }
{
    let whole = all / by;
    let rest = all % by;
    writeln!(text, "{whole} and {rest}/{by}")?;
    Ok(())
}

/// Adds the rate of the output. In a period the design makes `made` samples of an output from `taken` samples of an
/// input.
#[tactic(auto, unfolding(crate::specs::Sounds::rate_line))]
pub(crate) fn push_rate(
    text: &mut String,
    rate: u32,
    made: usize,
    taken: usize,
) -> Result<(), AllocError>
    requires made { made ≤ MAX_RATE * MAX_PERIOD }
    requires taken { 0 < taken }
    ensures { OnOk result (string_bytes text.new ≡ string_bytes text.old ++ rate_line rate made taken) }
{
    push_product(text, rate, made, taken)?;
    push_quotient(text, u64::from(rate) * made as u64, taken as u64)
}
