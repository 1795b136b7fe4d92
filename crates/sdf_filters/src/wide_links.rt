//! The links of a converter with wide taps.

ghost use Rattle.std.specs.Prelude.{◌≡◌, ◌++◌, ◌<◌, OnOk, string_bytes};
ghost use Rattle.sdf_filters.specs.Graphs.{texts_to};
ghost use Rattle.sdf_filters.specs.WideGraphs.{wide_end, high_links, low_links, both_links, wide_step, last_links};
ghost use Rattle.sdf_filters.specs.WideGraphs.{wide_links};

use crate::ends::{End, Part, push_link};
use crate::graph::{push_joining, source};
use std::alloc::AllocError;

/// Returns the end after `number` stages of a channel.
fn wide_end(channels: u32, channel: u32, number: usize) -> End
    ensures { result ≡ wide_end channels channel number }
{
    let part = Part::Both;
    if number == 0 {
        source(channels, channel)
    } else {
        End::Part {
            part,
            number,
            channel,
        }
    }
}

/// Adds the links of the filter of the large taps.
#[tactic(auto, unfolding(crate::specs::WideGraphs::high_links))]
fn push_high_links(
    text: &mut String,
    channels: u32,
    channel: u32,
    number: usize,
) -> Result<(), AllocError>
    ensures { OnOk result (string_bytes text.new ≡ string_bytes text.old ++ high_links channels channel number) }
{
    let fork = End::Part {
        part: Part::Fork,
        number,
        channel,
    };
    let wait = End::Part {
        part: Part::Wait,
        number,
        channel,
    };
    let high = End::Part {
        part: Part::High,
        number,
        channel,
    };
    push_link(text, channels, fork, wait)?;
    push_link(text, channels, wait, high)
}

/// Adds the links of the other filter.
#[tactic(auto, unfolding(crate::specs::WideGraphs::low_links))]
fn push_low_links(
    text: &mut String,
    channels: u32,
    channel: u32,
    number: usize,
) -> Result<(), AllocError>
    ensures { OnOk result (string_bytes text.new ≡ string_bytes text.old ++ low_links channels channel number) }
{
    let fork = End::PartSecond {
        part: Part::Fork,
        number,
        channel,
    };
    let less = End::Part {
        part: Part::Less,
        number,
        channel,
    };
    let low = End::Part {
        part: Part::Low,
        number,
        channel,
    };
    if number == 1 {
        return push_link(text, channels, fork, low);
    }
    push_link(text, channels, fork, less)?;
    push_link(text, channels, less, low)
}

/// Adds the links of the sum.
#[tactic(auto, unfolding(crate::specs::WideGraphs::both_links))]
fn push_both_links(
    text: &mut String,
    channels: u32,
    channel: u32,
    number: usize,
) -> Result<(), AllocError>
    ensures { OnOk result (string_bytes text.new ≡ string_bytes text.old ++ both_links channels channel number) }
{
    let high = End::Part {
        part: Part::High,
        number,
        channel,
    };
    let low = End::Part {
        part: Part::Low,
        number,
        channel,
    };
    let both = End::Part {
        part: Part::Both,
        number,
        channel,
    };
    let second = End::PartSecond {
        part: Part::Both,
        number,
        channel,
    };
    push_link(text, channels, high, both)?;
    push_link(text, channels, low, second)
}

/// Adds the links of the stage at `place` of `stages` stages.
#[tactic(auto, unfolding(crate::specs::WideGraphs::wide_step))]
fn push_wide_step(
    text: &mut String,
    channels: u32,
    channel: u32,
    place: usize,
    stages: usize,
) -> Result<(), AllocError>
    requires { place < stages }
    ensures { OnOk result (string_bytes text.new ≡ string_bytes text.old ++ wide_step channels channel place) }
{
    let from = wide_end(channels, channel, place);
    let next = place + 1;
    push_link(
        text,
        channels,
        from,
        End::Part {
            part: Part::Fork,
            number: next,
            channel,
        },
    )?;
    push_high_links(text, channels, channel, next)?;
    push_low_links(text, channels, channel, next)?;
    push_both_links(text, channels, channel, next)
}

/// Adds the links of all stages of a channel.
fn push_wide_steps(
    text: &mut String,
    channels: u32,
    channel: u32,
    stages: usize,
) -> Result<(), AllocError>
    ensures { OnOk result (string_bytes text.new ≡
        string_bytes text.old ++ texts_to (wide_step channels channel) stages) }
{
    for place in 0..stages {
        push_wide_step(text, channels, channel, place, stages)?;
    }
    Ok(())
}

/// Adds the links after the stages of a channel.
#[tactic(auto, unfolding(crate::specs::WideGraphs::last_links))]
fn push_last_links(
    text: &mut String,
    channels: u32,
    channel: u32,
    stages: usize,
) -> Result<(), AllocError>
    ensures { OnOk result (string_bytes text.new ≡ string_bytes text.old ++ last_links channels channel stages) }
{
    let from = wide_end(channels, channel, stages);
    if stages == 0 {
        return push_link(text, channels, from, End::Output { channel });
    }
    push_link(text, channels, from, End::Round { channel })?;
    push_link(
        text,
        channels,
        End::Round { channel },
        End::Output { channel },
    )
}

/// Adds the links of a channel with `stages` stages.
#[tactic(auto, unfolding(crate::specs::WideGraphs::wide_links))]
pub(crate) fn push_wide_links(
    text: &mut String,
    channels: u32,
    channel: u32,
    stages: usize,
) -> Result<(), AllocError>
    ensures { OnOk result (string_bytes text.new ≡ string_bytes text.old ++ wide_links channels stages channel) }
{
    push_joining(text, channels, channel)?;
    push_wide_steps(text, channels, channel, stages)?;
    push_last_links(text, channels, channel, stages)
}
