//! The text of the graph file of a converter with wide taps.
//!
//! Each stage is a fork, two filters and their sum. The filter of the large taps is behind a delay. From the second
//! stage on, the other filter is behind a gain, which takes the bits back that stages keep between them. `wide_links`
//! has the links.

ghost use Rattle.std.specs.Prelude.{◌≡◌, ◌++◌, ◌<◌, ◌≤◌, IfOk, OnOk, length, slice_get, string_bytes};
ghost use Rattle.sdf_filters.specs.Graphs.{texts_to};
ghost use Rattle.sdf_filters.specs.WideGraphs.{fork_part, wait_part, high_part, less_part, low_part, both_part};
ghost use Rattle.sdf_filters.specs.WideGraphs.{fir_keys, high_shift, low_shift, wide_stage_text, wide_stages_text};
ghost use Rattle.sdf_filters.specs.WideGraphs.{high_branch, low_branch, round_text, wide_actors, wide_links};
ghost use Rattle.sdf_filters.specs.WideGraphs.{wide_graph_text};

use crate::ends::{End, Part, push_actor, push_part_name};
use crate::graph::{push_channel_key, push_fork, push_join, push_title};
use crate::stage::{Stage, WideStage};
use crate::wide_links::push_wide_links;
use std::alloc::{AllocError, Global};

/// Returns the key `shift` of the filter of a stage's large taps.
fn high_shift(number: usize, bits: u32) -> u32
    requires { bits ≤ 7 }
    ensures { result ≡ high_shift number bits }
{
    if number == 1 { 15 - bits } else { 21 - bits }
}

/// Returns the key `shift` of a stage's other filter.
fn low_shift(number: usize) -> u32
    ensures { result ≡ low_shift number }
{
    if number == 1 { 15 } else { 14 }
}

/// Adds the fork of a stage.
#[tactic(auto, unfolding(crate::specs::WideGraphs::fork_part))]
fn push_fork_part(
    text: &mut String,
    channels: u32,
    channel: u32,
    number: usize,
) -> Result<(), AllocError>
    ensures { OnOk result (string_bytes text.new ≡ string_bytes text.old ++ fork_part channels channel number) }
{
    let part = Part::Fork;
    push_actor(
        text,
        channels,
        End::Part {
            part,
            number,
            channel,
        },
        "fork",
    )?;
    text.push_str("ways = 2\n")
}

/// Adds the delay of a stage.
#[tactic(auto, unfolding(crate::specs::WideGraphs::wait_part))]
fn push_wait_part(
    text: &mut String,
    channels: u32,
    channel: u32,
    number: usize,
    wait: usize,
) -> Result<(), AllocError>
    ensures { OnOk result (string_bytes text.new ≡ string_bytes text.old ++ wait_part channels channel number wait) }
{
    let part = Part::Wait;
    push_actor(
        text,
        channels,
        End::Part {
            part,
            number,
            channel,
        },
        "delay",
    )?;
    writeln!(text, "length = {wait}")?;
    Ok(())
}

/// Adds the keys of a filter, and its file.
#[tactic(auto, unfolding(crate::specs::WideGraphs::fir_keys))]
fn push_fir_keys(
    text: &mut String,
    part: Part,
    number: usize,
    stage: Stage,
    shift: u32,
) -> Result<(), AllocError>
    ensures { OnOk result (string_bytes text.new ≡ string_bytes text.old ++ fir_keys part number stage shift) }
{
    let up = stage.up;
    let down = stage.down;
    write!(text, "up = {up}\ndown = {down}\nshift = {shift}\nfile = \"")?;
    push_part_name(text, part, number)?;
    text.push_str(".toml\"\n")
}

/// Adds the filter of the large taps of a stage.
#[tactic(auto, unfolding(crate::specs::WideGraphs::high_part))]
fn push_high_part(
    text: &mut String,
    channels: u32,
    channel: u32,
    number: usize,
    wide: WideStage,
) -> Result<(), AllocError>
    ensures { OnOk result (string_bytes text.new ≡ string_bytes text.old ++ high_part channels channel number wide) }
{
    let part = Part::High;
    push_actor(
        text,
        channels,
        End::Part {
            part,
            number,
            channel,
        },
        "fir",
    )?;
    push_fir_keys(
        text,
        part,
        number,
        wide.stage,
        high_shift(number, wide.bits),
    )
}

/// Adds the gain before the other filter, which the first stage does not have. It takes back the 6 bits that stages
/// keep between them, and one more for samples of twice full scale.
#[tactic(auto, unfolding(crate::specs::WideGraphs::less_part))]
fn push_less_part(
    text: &mut String,
    channels: u32,
    channel: u32,
    number: usize,
) -> Result<(), AllocError>
    ensures { OnOk result (string_bytes text.new ≡ string_bytes text.old ++ less_part channels channel number) }
{
    if number == 1 {
        return Ok(());
    }
    let part = Part::Less;
    push_actor(
        text,
        channels,
        End::Part {
            part,
            number,
            channel,
        },
        "gain",
    )?;
    text.push_str("gain = 1\nshift = 7\n")
}

/// Adds the other filter of a stage.
#[tactic(auto, unfolding(crate::specs::WideGraphs::low_part))]
fn push_low_part(
    text: &mut String,
    channels: u32,
    channel: u32,
    number: usize,
    stage: Stage,
) -> Result<(), AllocError>
    ensures { OnOk result (string_bytes text.new ≡ string_bytes text.old ++ low_part channels channel number stage) }
{
    let part = Part::Low;
    push_actor(
        text,
        channels,
        End::Part {
            part,
            number,
            channel,
        },
        "fir",
    )?;
    push_fir_keys(text, part, number, stage, low_shift(number))
}

/// Adds the sum of a stage.
#[tactic(auto, unfolding(crate::specs::WideGraphs::both_part))]
fn push_both_part(
    text: &mut String,
    channels: u32,
    channel: u32,
    number: usize,
) -> Result<(), AllocError>
    ensures { OnOk result (string_bytes text.new ≡ string_bytes text.old ++ both_part channels channel number) }
{
    let part = Part::Both;
    push_actor(
        text,
        channels,
        End::Part {
            part,
            number,
            channel,
        },
        "add",
    )?;
    text.push_str("ways = 2\n")
}

/// Adds the fork of a stage, and the filter of the large taps behind its delay.
#[tactic(auto, unfolding(crate::specs::WideGraphs::high_branch))]
fn push_high_branch(
    text: &mut String,
    channels: u32,
    channel: u32,
    number: usize,
    wide: WideStage,
) -> Result<(), AllocError>
    ensures { OnOk result (string_bytes text.new ≡ string_bytes text.old ++ high_branch channels channel number wide) }
{
    push_fork_part(text, channels, channel, number)?;
    push_wait_part(text, channels, channel, number, wide.wait)?;
    push_high_part(text, channels, channel, number, wide)
}

/// Adds the other filter of a stage behind its gain, and the sum.
#[tactic(auto, unfolding(crate::specs::WideGraphs::low_branch))]
fn push_low_branch(
    text: &mut String,
    channels: u32,
    channel: u32,
    number: usize,
    stage: Stage,
) -> Result<(), AllocError>
    ensures { OnOk result (string_bytes text.new ≡ string_bytes text.old ++ low_branch channels channel number stage) }
{
    push_less_part(text, channels, channel, number)?;
    push_low_part(text, channels, channel, number, stage)?;
    push_both_part(text, channels, channel, number)
}

/// Adds the stage at `place` of a channel.
fn push_wide_stage(
    text: &mut String,
    channels: u32,
    channel: u32,
    stages: &[WideStage],
    place: usize,
) -> Result<(), AllocError>
    requires { place < length stages.now }
    ensures { OnOk result (string_bytes text.new ≡
        string_bytes text.old ++ wide_stage_text channels channel place (slice_get stages.now place)) }
{
    let number = place + 1;
    let wide = stages[place];
    push_high_branch(text, channels, channel, number, wide)?;
    push_low_branch(text, channels, channel, number, wide.stage)
}

/// Adds the stages of a channel.
fn push_wide_stages(
    text: &mut String,
    channels: u32,
    channel: u32,
    stages: &[WideStage],
) -> Result<(), AllocError>
    ensures { OnOk result (string_bytes text.new ≡
        string_bytes text.old ++ wide_stages_text channels channel stages.now) }
{
    for place in 0..stages.len() {
        push_wide_stage(text, channels, channel, stages, place)?;
    }
    Ok(())
}

/// Adds the gain that rounds the samples of a channel, if it has any stages.
#[tactic(auto, unfolding(crate::specs::WideGraphs::round_text))]
fn push_round(
    text: &mut String,
    channels: u32,
    channel: u32,
    stages: usize,
) -> Result<(), AllocError>
    ensures { OnOk result (string_bytes text.new ≡ string_bytes text.old ++ round_text channels channel stages) }
{
    if stages == 0 {
        return Ok(());
    }
    push_actor(text, channels, End::Round { channel }, "gain")?;
    text.push_str("gain = 1\nshift = 6\n")
}

/// Adds the actors of a channel.
#[tactic(auto, unfolding(crate::specs::WideGraphs::wide_actors))]
fn push_wide_channel(
    text: &mut String,
    channels: u32,
    channel: u32,
    stages: &[WideStage],
) -> Result<(), AllocError>
    ensures { OnOk result (string_bytes text.new ≡
        string_bytes text.old ++ wide_actors channels stages.now channel) }
{
    push_actor(text, channels, End::Input { channel }, "input")?;
    push_channel_key(text, channel)?;
    push_join(text, channels, channel)?;
    push_wide_stages(text, channels, channel, stages)?;
    push_round(text, channels, channel, stages.len())?;
    push_actor(text, channels, End::Output { channel }, "output")?;
    push_channel_key(text, channel)
}

/// Adds the actors of all channels.
fn push_wide_channels(
    text: &mut String,
    channels: u32,
    stages: &[WideStage],
) -> Result<(), AllocError>
    ensures { OnOk result (string_bytes text.new ≡
        string_bytes text.old ++ texts_to (wide_actors channels stages.now) channels) }
{
    for channel in 0..channels {
        push_wide_channel(text, channels, channel, stages)?;
    }
    Ok(())
}

/// Adds the links of all channels.
fn push_all_wide_links(text: &mut String, channels: u32, stages: usize) -> Result<(), AllocError>
    ensures { OnOk result (string_bytes text.new ≡
        string_bytes text.old ++ texts_to (wide_links channels stages) channels) }
{
    for channel in 0..channels {
        push_wide_links(text, channels, channel, stages)?;
    }
    Ok(())
}

/// Returns the graph file of a converter with `stages`. As in a graph of narrow taps, the samples of the first channel
/// are added to each other channel, with gain 0.
pub(crate) fn wide_graph_text(
    alloc: Global,
    from: u32,
    to: u32,
    channels: u32,
    stages: &[WideStage],
) -> Result<String, AllocError>
    ensures { IfOk result (λ text. string_bytes text ≡ wide_graph_text from to channels stages.now) }
{
    let mut text = String::new(alloc);
    push_title(&mut text, from, to, channels)?;
    push_fork(&mut text, channels)?;
    push_wide_channels(&mut text, channels, stages)?;
    push_all_wide_links(&mut text, channels, stages.len())?;
    Ok(text)
}
