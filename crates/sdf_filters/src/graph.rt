//! The text of a converter's graph file.

ghost use Rattle.std.specs.Prelude.{◌≡◌, ◌++◌, ◌<◌, IfOk, OnOk, length, slice_get, string_bytes, codes};
ghost use Rattle.sdf_filters.specs.Graphs.{texts_to, link_text, actor_text};
ghost use Rattle.sdf_filters.specs.Graphs.{channel_text, keys_text, stage_text, stages_text, silence_text, sum_text};
ghost use Rattle.sdf_filters.specs.Graphs.{join_text, channel_actors, source, joining_text, end_after, step_text};
ghost use Rattle.sdf_filters.specs.Graphs.{channel_links, fork_text, note, rates_text, rate_text, title, graph_text};

use crate::ends::{End, push_actor, push_link, push_stage_name};
use crate::stage::Stage;
use std::alloc::{AllocError, Global};

/// The key `shift` of each stage.
pub(crate) const STAGE_SHIFT: u32 = 15;

/// Adds the key `channel`.
pub(crate) fn push_channel_key(text: &mut String, channel: u32) -> Result<(), AllocError>
    ensures { OnOk result (string_bytes text.new ≡ string_bytes text.old ++ channel_text channel) }
{
    writeln!(text, "channel = {channel}")?;
    Ok(())
}

/// Adds the keys of a stage, and its file.
#[tactic(auto, unfolding(crate::specs::Graphs::keys_text))]
fn push_keys(text: &mut String, number: usize, stage: Stage) -> Result<(), AllocError>
    ensures { OnOk result (string_bytes text.new ≡ string_bytes text.old ++ keys_text number stage) }
{
    let up = stage.up;
    let down = stage.down;
    write!(
        text,
        "up = {up}\ndown = {down}\nshift = {STAGE_SHIFT}\nfile = \""
    )?;
    push_stage_name(text, number)?;
    text.push_str(".toml\"\n")
}

/// Adds the stage at `place` of a channel.
fn push_stage(
    text: &mut String,
    channels: u32,
    channel: u32,
    stages: &[Stage],
    place: usize,
) -> Result<(), AllocError>
    requires { place < length stages.now }
    ensures { OnOk result (string_bytes text.new ≡
        string_bytes text.old ++ stage_text channels channel place (slice_get stages.now place)) }
{
    let number = place + 1;
    push_actor(text, channels, End::Filter { number, channel }, "fir")?;
    push_keys(text, number, stages[place])
}

/// Adds the stages of a channel.
fn push_stages(
    text: &mut String,
    channels: u32,
    channel: u32,
    stages: &[Stage],
) -> Result<(), AllocError>
    ensures { OnOk result (string_bytes text.new ≡
        string_bytes text.old ++ stages_text channels channel stages.now) }
{
    for place in 0..stages.len() {
        push_stage(text, channels, channel, stages, place)?;
    }
    Ok(())
}

/// Adds the actor that passes on the first channel's samples with gain 0.
#[tactic(auto, unfolding(crate::specs::Graphs::silence_text))]
fn push_silence(text: &mut String, channels: u32, channel: u32) -> Result<(), AllocError>
    ensures { OnOk result (string_bytes text.new ≡ string_bytes text.old ++ silence_text channels channel) }
{
    push_actor(text, channels, End::Silence { channel }, "gain")?;
    text.push_str("gain = 0\nshift = 0\n")
}

/// Adds the actor that adds the samples of `push_silence` to a channel.
#[tactic(auto, unfolding(crate::specs::Graphs::sum_text))]
fn push_sum(text: &mut String, channels: u32, channel: u32) -> Result<(), AllocError>
    ensures { OnOk result (string_bytes text.new ≡ string_bytes text.old ++ sum_text channels channel) }
{
    push_actor(text, channels, End::Sum { channel }, "add")?;
    text.push_str("ways = 2\n")
}

/// Adds the actors that join a channel to the first one.
pub(crate) fn push_join(text: &mut String, channels: u32, channel: u32) -> Result<(), AllocError>
    ensures { OnOk result (string_bytes text.new ≡ string_bytes text.old ++ join_text channels channel) }
{
    if channel == 0 {
        return Ok(());
    }
    push_silence(text, channels, channel)?;
    push_sum(text, channels, channel)
}

/// Adds the actors of a channel.
#[tactic(auto, unfolding(crate::specs::Graphs::channel_actors))]
fn push_channel(
    text: &mut String,
    channels: u32,
    channel: u32,
    stages: &[Stage],
) -> Result<(), AllocError>
    ensures { OnOk result (string_bytes text.new ≡
        string_bytes text.old ++ channel_actors channels stages.now channel) }
{
    push_actor(text, channels, End::Input { channel }, "input")?;
    push_channel_key(text, channel)?;
    push_join(text, channels, channel)?;
    push_stages(text, channels, channel, stages)?;
    push_actor(text, channels, End::Output { channel }, "output")?;
    push_channel_key(text, channel)
}

/// Returns the end from which the stages of a channel take their samples.
pub(crate) fn source(channels: u32, channel: u32) -> End
    ensures { result ≡ source channels channel }
{
    if channels == 1 {
        End::Input { channel }
    } else if channel == 0 {
        End::Branch { channel }
    } else {
        End::Sum { channel }
    }
}

/// Adds the links before a channel's stages.
#[tactic(auto, unfolding(crate::specs::Graphs::joining_text))]
pub(crate) fn push_joining(text: &mut String, channels: u32, channel: u32) -> Result<(), AllocError>
    ensures { OnOk result (string_bytes text.new ≡ string_bytes text.old ++ joining_text channels channel) }
{
    if channels == 1 {
        return Ok(());
    }
    if channel == 0 {
        return push_link(text, channels, End::Input { channel }, End::Fork);
    }
    push_link(text, channels, End::Input { channel }, End::Sum { channel })?;
    push_link(
        text,
        channels,
        End::Branch { channel },
        End::Silence { channel },
    )?;
    push_link(
        text,
        channels,
        End::Silence { channel },
        End::SumSecond { channel },
    )
}

/// Returns the end after `number` stages of a channel.
fn end_after(channels: u32, channel: u32, number: usize) -> End
    ensures { result ≡ end_after channels channel number }
{
    if number == 0 {
        source(channels, channel)
    } else {
        End::Filter { number, channel }
    }
}

/// Adds the links into the stages of a channel.
#[tactic(auto, unfolding(crate::specs::Graphs::step_text))]
fn push_steps(
    text: &mut String,
    channels: u32,
    channel: u32,
    stages: usize,
) -> Result<(), AllocError>
    ensures { OnOk result (string_bytes text.new ≡
        string_bytes text.old ++ texts_to (step_text channels channel) stages) }
{
    for place in 0..stages {
        let from = end_after(channels, channel, place);
        let number = place + 1;
        push_link(text, channels, from, End::Filter { number, channel })?;
    }
    Ok(())
}

/// Adds the links of a channel with `stages` stages.
#[tactic(auto, unfolding(crate::specs::Graphs::channel_links))]
fn push_links(
    text: &mut String,
    channels: u32,
    channel: u32,
    stages: usize,
) -> Result<(), AllocError>
    ensures { OnOk result (string_bytes text.new ≡
        string_bytes text.old ++ channel_links channels stages channel) }
{
    push_joining(text, channels, channel)?;
    push_steps(text, channels, channel, stages)?;
    let from = end_after(channels, channel, stages);
    push_link(text, channels, from, End::Output { channel })
}

/// Adds the fork of several channels.
#[tactic(auto, unfolding(crate::specs::Graphs::fork_text))]
pub(crate) fn push_fork(text: &mut String, channels: u32) -> Result<(), AllocError>
    ensures { OnOk result (string_bytes text.new ≡ string_bytes text.old ++ fork_text channels) }
{
    if channels == 1 {
        return Ok(());
    }
    push_actor(text, channels, End::Fork, "fork")?;
    writeln!(text, "ways = {channels}")?;
    Ok(())
}

/// Adds the actors of all channels.
fn push_channels(text: &mut String, channels: u32, stages: &[Stage]) -> Result<(), AllocError>
    ensures { OnOk result (string_bytes text.new ≡
        string_bytes text.old ++ texts_to (channel_actors channels stages.now) channels) }
{
    for channel in 0..channels {
        push_channel(text, channels, channel, stages)?;
    }
    Ok(())
}

/// Adds the links of all channels.
fn push_all_links(text: &mut String, channels: u32, stages: usize) -> Result<(), AllocError>
    ensures { OnOk result (string_bytes text.new ≡
        string_bytes text.old ++ texts_to (channel_links channels stages) channels) }
{
    for channel in 0..channels {
        push_links(text, channels, channel, stages)?;
    }
    Ok(())
}

/// Adds a comment line with `word` and `number`.
#[tactic(auto, unfolding(crate::specs::Graphs::note))]
fn push_note(text: &mut String, word: &str, number: u32) -> Result<(), AllocError>
    ensures { OnOk result (string_bytes text.new ≡ string_bytes text.old ++ note word.now number) }
{
    writeln!(text, "# {word} {number}")?;
    Ok(())
}

/// Adds the comment lines with the two rates.
#[tactic(auto, unfolding(crate::specs::Graphs::rates_text))]
fn push_rates(text: &mut String, from: u32, to: u32) -> Result<(), AllocError>
    ensures { OnOk result (string_bytes text.new ≡ string_bytes text.old ++ rates_text from to) }
{
    push_note(text, "from", from)?;
    push_note(text, "to", to)
}

/// Adds the key of the rate that the design is made for.
#[tactic(auto, unfolding(crate::specs::Graphs::rate_text))]
fn push_rate(text: &mut String, rate: u32) -> Result<(), AllocError>
    ensures { OnOk result (string_bytes text.new ≡ string_bytes text.old ++ rate_text rate) }
{
    writeln!(text, "rate = {rate}")?;
    Ok(())
}

/// Adds the first lines of the file. The design is made for a sound of `from` Hz.
#[tactic(auto, unfolding(crate::specs::Graphs::title))]
pub(crate) fn push_title(
    text: &mut String,
    from: u32,
    to: u32,
    channels: u32,
) -> Result<(), AllocError>
    ensures { OnOk result (string_bytes text.new ≡ string_bytes text.old ++ title from to channels) }
{
    push_rates(text, from, to)?;
    push_note(text, "channels", channels)?;
    text.push_str("format = 1\n")?;
    push_rate(text, from)
}

/// Returns the graph file of a converter with `stages`. A graph must be connected, so the samples of the first channel
/// are added to each other channel, with gain 0.
pub(crate) fn graph_text(
    alloc: Global,
    from: u32,
    to: u32,
    channels: u32,
    stages: &[Stage],
) -> Result<String, AllocError>
    ensures { IfOk result (λ text. string_bytes text ≡ graph_text from to channels stages.now) }
{
    let mut text = String::new(alloc);
    push_title(&mut text, from, to, channels)?;
    push_fork(&mut text, channels)?;
    push_channels(&mut text, channels, stages)?;
    push_all_links(&mut text, channels, stages.len())?;
    Ok(text)
}
