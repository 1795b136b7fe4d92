//! The ends of links in a converter's graph, which are its actors and their ports, and the texts of links.

ghost use Rattle.std.specs.Prelude.{◌≡◌, ◌++◌, OnOk, string_bytes, codes};
ghost use Rattle.sdf_filters.specs.declared.ends.End.TheVariants.{SumSecond};
ghost use Rattle.sdf_filters.specs.Graphs.{mark, stage_name, part_word, part_name, end_text, key_text, link_text};
ghost use Rattle.sdf_filters.specs.Graphs.{actor_text};

use std::alloc::AllocError;

/// An end of a link in a converter's graph: an actor, or a port of one.
#[derive(Clone, Copy)]
pub(crate) enum End {
    Input {
        channel: u32,
    },
    Fork,
    /// A port of the fork.
    Branch {
        channel: u32,
    },
    Silence {
        channel: u32,
    },
    Sum {
        channel: u32,
    },
    /// The second port of a sum.
    SumSecond {
        channel: u32,
    },
    /// A stage, counted from 1.
    Filter {
        number: usize,
        channel: u32,
    },
    /// A part of a stage of wide taps, counted from 1.
    Part {
        part: Part,
        number: usize,
        channel: u32,
    },
    /// The second port of a part.
    PartSecond {
        part: Part,
        number: usize,
        channel: u32,
    },
    /// The actor that rounds the samples of a channel.
    Round {
        channel: u32,
    },
    Output {
        channel: u32,
    },
}

/// A part of a stage of wide taps.
#[derive(Clone, Copy)]
pub(crate) enum Part {
    Fork,
    /// The delay before the filter of the large taps.
    Wait,
    High,
    /// The gain before the filter of the other taps.
    Less,
    Low,
    /// The sum of both filters.
    Both,
}

/// Adds the mark after the names of a channel's actors. A single channel has no mark.
fn push_mark(text: &mut String, channels: u32, channel: u32) -> Result<(), AllocError>
    ensures { OnOk result (string_bytes text.new ≡ string_bytes text.old ++ mark channels channel) }
{
    if channels == 1 {
        return Ok(());
    }
    write!(text, "-{channel}")
}

/// Adds the name of a stage.
pub(crate) fn push_stage_name(text: &mut String, number: usize) -> Result<(), AllocError>
    ensures { OnOk result (string_bytes text.new ≡ string_bytes text.old ++ stage_name number) }
{
    write!(text, "stage{number}")
}

/// Adds `word` and the mark of a channel.
fn push_marked(text: &mut String, word: &str, channels: u32, channel: u32) -> Result<(), AllocError>
    ensures { OnOk result (string_bytes text.new ≡ string_bytes text.old ++ (word.now ++ mark channels channel)) }
{
    text.push_str(word)?;
    push_mark(text, channels, channel)
}

/// Adds the second port of a channel's sum.
fn push_second(text: &mut String, channels: u32, channel: u32) -> Result<(), AllocError>
    ensures { OnOk result (string_bytes text.new ≡ string_bytes text.old ++ end_text channels (SumSecond channel)) }
{
    push_marked(text, "add", channels, channel)?;
    text.push_str(":1")
}

/// Adds the name of a channel's stage.
fn push_filter(
    text: &mut String,
    channels: u32,
    channel: u32,
    number: usize,
) -> Result<(), AllocError>
    ensures { OnOk result (string_bytes text.new ≡
        string_bytes text.old ++ (stage_name number ++ mark channels channel)) }
{
    push_stage_name(text, number)?;
    push_mark(text, channels, channel)
}

/// Returns the word of a part.
fn part_word(part: Part) -> &'static str
    ensures { result.now ≡ part_word part }
{
    match part {
        Part::Fork => "fork",
        Part::Wait => "wait",
        Part::High => "high",
        Part::Less => "less",
        Part::Low => "low",
        Part::Both => "both",
    }
}

/// Adds the word of a part and the number of its stage.
pub(crate) fn push_part_name(text: &mut String, part: Part, number: usize) -> Result<(), AllocError>
    ensures { OnOk result (string_bytes text.new ≡ string_bytes text.old ++ part_name part number) }
{
    let word = part_word(part);
    write!(text, "{word}{number}")
}

/// Adds the name of a part of a channel's stage.
fn push_part(
    text: &mut String,
    channels: u32,
    channel: u32,
    part: Part,
    number: usize,
) -> Result<(), AllocError>
    ensures { OnOk result (string_bytes text.new ≡
        string_bytes text.old ++ (part_name part number ++ mark channels channel)) }
{
    push_part_name(text, part, number)?;
    push_mark(text, channels, channel)
}

/// Adds the second port of a part of a channel's stage.
fn push_part_second(
    text: &mut String,
    channels: u32,
    channel: u32,
    part: Part,
    number: usize,
) -> Result<(), AllocError>
    ensures { OnOk result (string_bytes text.new ≡
        string_bytes text.old ++ (part_name part number ++ mark channels channel ++ codes ":1")) }
{
    push_part(text, channels, channel, part, number)?;
    text.push_str(":1")
}

/// Adds an end.
fn push_end(text: &mut String, channels: u32, end: End) -> Result<(), AllocError>
    ensures { OnOk result (string_bytes text.new ≡ string_bytes text.old ++ end_text channels end) }
{
    match end {
        End::Input { channel } => push_marked(text, "in", channels, channel),
        End::Fork => text.push_str("fork"),
        End::Branch { channel } => write!(text, "fork:{channel}"),
        End::Silence { channel } => push_marked(text, "silence", channels, channel),
        End::Sum { channel } => push_marked(text, "add", channels, channel),
        End::SumSecond { channel } => push_second(text, channels, channel),
        End::Filter { number, channel } => push_filter(text, channels, channel, number),
        End::Part {
            part,
            number,
            channel,
        } => push_part(text, channels, channel, part, number),
        End::PartSecond {
            part,
            number,
            channel,
        } => push_part_second(text, channels, channel, part, number),
        End::Round { channel } => push_marked(text, "round", channels, channel),
        End::Output { channel } => push_marked(text, "out", channels, channel),
    }
}

/// Adds a key and an end.
#[tactic(auto, unfolding(crate::specs::Graphs::key_text))]
fn push_key(text: &mut String, channels: u32, word: &str, end: End) -> Result<(), AllocError>
    ensures { OnOk result (string_bytes text.new ≡ string_bytes text.old ++ key_text channels word.now end) }
{
    text.push_str(word)?;
    text.push_str(" = \"")?;
    push_end(text, channels, end)?;
    text.push_str("\"\n")
}

/// Adds a link.
#[tactic(auto, unfolding(crate::specs::Graphs::link_text))]
pub(crate) fn push_link(
    text: &mut String,
    channels: u32,
    from: End,
    to: End,
) -> Result<(), AllocError>
    ensures { OnOk result (string_bytes text.new ≡ string_bytes text.old ++ link_text channels from to) }
{
    text.push_str("\n[[link]]\n")?;
    push_key(text, channels, "from", from)?;
    push_key(text, channels, "to", to)
}

/// Adds an actor's name and kind.
#[tactic(auto, unfolding(crate::specs::Graphs::actor_text))]
pub(crate) fn push_actor(
    text: &mut String,
    channels: u32,
    end: End,
    kind: &str,
) -> Result<(), AllocError>
    ensures { OnOk result (string_bytes text.new ≡ string_bytes text.old ++ actor_text channels end kind.now) }
{
    text.push_str("\n[[actor]]\n")?;
    push_key(text, channels, "name", end)?;
    text.push_str("kind = \"")?;
    text.push_str(kind)?;
    text.push_str("\"\n")
}
