//! The notes on a run that ended well: what of the sound was not read.

ghost use Rattle.std.specs.Prelude.{◌≡◌, ◌++◌, IfOk, OnOk, string_bytes};
ghost use Rattle.sdf_why.specs.Notes.{inputs_words, reads_words, resample_words, unread_line, channels_note, size_note};
ghost use Rattle.sdf_why.specs.Notes.{last_words, cut_line, cut_note};

use crate::words::{push_numbered, push_printable};
use std::alloc::{AllocError, Global};

/// Adds what the channels from `first` to `last` need to be read.
#[tactic(auto, unfolding(crate::specs::Notes::inputs_words))]
fn push_inputs(text: &mut String, first: usize, last: usize) -> Result<(), AllocError>
    ensures { OnOk result (string_bytes text.new ≡ string_bytes text.old ++ inputs_words first last) }
{
    push_numbered(text, "channel", first, last)?;
    text.push_str(if first == last {
        " needs an input"
    } else {
        " need inputs"
    })
}

/// Adds how many `channels` a `sound` has, and which of them a design with these `inputs` reads.
#[tactic(auto, unfolding(crate::specs::Notes::reads_words))]
fn push_reads(
    alloc: Global,
    text: &mut String,
    sound: &str,
    inputs: usize,
    channels: usize,
) -> Result<(), AllocError>
    ensures { OnOk result (string_bytes text.new ≡ string_bytes text.old
        ++ reads_words sound.now inputs channels) }
{
    push_printable(alloc, text, sound)?;
    write!(text, " has {channels} channels, but the design reads only ")?;
    push_numbered(text, "channel", 0, inputs.saturating_sub(1))
}

/// Adds how `resample` makes a design for all `channels`.
#[tactic(auto, unfolding(crate::specs::Notes::resample_words))]
fn push_resample(text: &mut String, channels: usize) -> Result<(), AllocError>
    ensures { OnOk result (string_bytes text.new ≡ string_bytes text.old ++ resample_words channels) }
{
    write!(text, " (resample: --channels {channels})\n")
}

/// Adds the line of a `sound` with more `channels` than a design has `inputs`.
#[tactic(auto, unfolding(crate::specs::Notes::unread_line))]
fn push_unread(
    alloc: Global,
    text: &mut String,
    sound: &str,
    inputs: usize,
    channels: usize,
) -> Result<(), AllocError>
    ensures { OnOk result (string_bytes text.new ≡ string_bytes text.old
        ++ unread_line sound.now inputs channels) }
{
    push_reads(alloc, text, sound, inputs, channels)?;
    text.push_str(": ")?;
    push_inputs(text, inputs, channels.saturating_sub(1))?;
    push_resample(text, channels)
}

/// Returns the note on the channels of a `sound` that a design with these `inputs` does not read, or no text if it
/// reads all `channels`.
pub fn channels_note(
    alloc: Global,
    sound: &str,
    inputs: usize,
    channels: usize,
) -> Result<String, AllocError>
    ensures { IfOk result (λ text. string_bytes text ≡ channels_note sound.now inputs channels) }
{
    let mut text = String::new(alloc);
    if inputs < channels {
        push_unread(alloc, &mut text, sound, inputs, channels)?;
    }
    Ok(text)
}

/// Returns the note on a `sound` whose header says that there are no samples, although bytes follow.
#[tactic(auto, unfolding(crate::specs::Notes::size_note))]
pub fn size_note(alloc: Global, sound: &str) -> Result<String, AllocError>
    ensures { IfOk result (λ text. string_bytes text ≡ size_note sound.now) }
{
    let mut text = String::from_str(alloc, "the header of ")?;
    push_printable(alloc, &mut text, sound)?;
    text.push_str(" says 0 bytes of samples, but more follow: --open-ended reads them\n")?;
    Ok(text)
}

/// Adds the `bytes` that are left out.
#[tactic(auto, unfolding(crate::specs::Notes::last_words))]
fn push_last(text: &mut String, bytes: usize) -> Result<(), AllocError>
    ensures { OnOk result (string_bytes text.new ≡ string_bytes text.old ++ last_words bytes) }
{
    if bytes == 1 {
        text.push_str("its last byte is")
    } else {
        write!(text, "its last {bytes} bytes are")
    }
}

/// Adds the line of a `sound` whose last frame is cut off after `bytes` bytes.
#[tactic(auto, unfolding(crate::specs::Notes::cut_line))]
fn push_cut(alloc: Global, text: &mut String, sound: &str, bytes: usize) -> Result<(), AllocError>
    ensures { OnOk result (string_bytes text.new ≡ string_bytes text.old ++ cut_line sound.now bytes) }
{
    push_printable(alloc, text, sound)?;
    text.push_str(" ends within a frame: ")?;
    push_last(text, bytes)?;
    text.push_str(" left out\n")
}

/// Returns the note on the last frame of a `sound`, of which `bytes` bytes are left out, or no text if none are.
pub fn cut_note(alloc: Global, sound: &str, bytes: usize) -> Result<String, AllocError>
    ensures { IfOk result (λ text. string_bytes text ≡ cut_note sound.now bytes) }
{
    let mut text = String::new(alloc);
    if bytes > 0 {
        push_cut(alloc, &mut text, sound, bytes)?;
    }
    Ok(text)
}
