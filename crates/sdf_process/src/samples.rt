//! Conversion of samples between a sound and the lists of a net.

ghost use Rattle.std.specs.Prelude.{◌≡◌, ◌≢◌, ◌*◌, ◌+◌, ◌≤◌, ◌<◌, ◌^◌, ℕ, length, map, take, IfOk};
ghost use Rattle.std.specs.Prelude.{slice_index_or, pos};
ghost use Rattle.std.specs.Int.{saturate_signed, w16};
ghost use Rattle.std.specs.List.{range_with_len};
ghost use Rattle.sdf_actor.specs.Wires.{lists as items_of};
ghost use Rattle.sdf_process.specs.Output.{channel_samples_from, interleaved};

use sdf_queues::outputs::take_spare;
use sdf_wav::Wav;
use std::alloc::{AllocError, Global};

/// Fills `list` with every `channels`-th sample from `start` on, and with zeros past the end of `samples`.
fn fill_channel(samples: &[i16], start: usize, channels: usize, list: &mut [i32])
    requires channels { 1 ≤ channels }
    ensures copied { (at : ℕ) → at < length list.old → slice_index_or list.new at (pos 0) ≡
        slice_index_or samples.now (start + at * channels) (pos 0) }
    ensures count { length list.new ≡ length list.old }
{
    let left = samples.len().saturating_sub(start);
    let many = left.div_ceil(channels).min(list.len());
    silence(list, many);
    // If the stride is known to be 1, the compiler copies several samples at a time.
    if channels == 1 {
        copy_channel(samples, start, 1, list, many);
    } else {
        copy_channel(samples, start, channels, list, many);
    }
}

/// Fills `list` with zeros from index `from` on.
fn silence(list: &mut [i32], from: usize)
    requires { from ≤ length list.old }
    ensures silent { (at : ℕ) → from ≤ at → slice_index_or list.new at (pos 0) ≡ pos 0 }
    ensures count { length list.new ≡ length list.old }
{
    list[from..].fill(0);
}

/// Copies `many` samples to the front of `list`: every `channels`-th sample from `start` on.
#[inline(always)]
fn copy_channel(samples: &[i16], start: usize, channels: usize, list: &mut [i32], many: usize)
    requires room { many ≤ length list.old }
    requires within { (at : ℕ) → at < many → start + at * channels < length samples.now }
    ensures copied { (at : ℕ) → at < many → slice_index_or list.new at (pos 0) ≡
        slice_index_or samples.now (start + at * channels) (pos 0) }
    ensures kept { (at : ℕ) → many ≤ at → slice_index_or list.new at (pos 0) ≡ slice_index_or list.old at (pos 0) }
    ensures count { length list.new ≡ length list.old }
{
    for at in 0..many {
        list[at] = i32::from(samples[start + at * channels]);
    }
}

/// Makes the list of `len` samples of `channel` from frame `from` on, with zeros past the end, in the memory of
/// `spare`.
fn channel_list(
    input: &Wav,
    from: usize,
    len: usize,
    channel: usize,
    spare: Vec<i32>,
) -> Result<Vec<i32>, AllocError>
    requires channel { channel < 2 ^ 32 }
    requires len { from + len < 2 ^ 59 }
    ensures { IfOk result (λ list. list.items ≡ channel_samples_from input.now from len channel) }
{
    let channels = usize::from(input.channels());
    let start = from * channels + channel;
    let mut list = spare;
    list.resize(len, 0)?;
    fill_channel(input.samples(), start, channels, &mut list);
    Ok(list)
}

/// Makes a list of `len` samples from frame `from` on for each of the lowest `channels` channels, in the memory of
/// `spares`. There are zeros past the end.
pub(crate) fn channel_lists(
    alloc: Global,
    input: &Wav,
    from: usize,
    len: usize,
    channels: usize,
    spares: &mut [Vec<i32>],
) -> Result<Vec<Vec<i32>>, AllocError>
    requires channels { channels < 2 ^ 32 }
    requires len { from + len < 2 ^ 59 }
    ensures { IfOk result (λ found. items_of found.items ≡
        map (channel_samples_from input.now from len) (range_with_len 0 channels)) }
{
    let mut all = Vec::new(alloc);
    for channel in 0..channels {
        let spare = take_spare(alloc, spares, channel);
        all.push(channel_list(input, from, len, channel, spare)?)?;
    }
    Ok(all)
}

/// Clamps `sample` to 16 bits.
fn clamp_sample(sample: i32) -> i16
    ensures { result ≡ saturate_signed w16 sample }
{
    sample.clamp(-32_768, 32_767) as i16
}

/// Returns the first `many` samples of `list`, or all of them if there are fewer.
fn first_samples(list: &[i32], many: usize) -> &[i32]
    ensures { result.now ≡ take many list.now }
{
    &list[..many.min(list.len())]
}

/// Puts the samples of `list` into `channel` of frames that are silent there, each sample clamped to 16 bits.
fn put_channel(list: &[i32], channel: usize, channels: usize, samples: &mut [i16])
    requires channel { channel < channels }
    requires room { length list.now * channels ≤ length samples.old }
    requires silent { (at : ℕ) → slice_index_or samples.old (at * channels + channel) (pos 0) ≡ pos 0 }
    ensures put { (at : ℕ) → slice_index_or samples.new (at * channels + channel) (pos 0) ≡
        saturate_signed w16 (slice_index_or list.now at (pos 0)) }
    ensures kept { (at other : ℕ) → other < channels → other ≢ channel →
        slice_index_or samples.new (at * channels + other) (pos 0) ≡
        slice_index_or samples.old (at * channels + other) (pos 0) }
    ensures count { length samples.new ≡ length samples.old }
{
    // If the stride is known to be 1, the compiler puts several samples at a time.
    if channels == 1 {
        put_samples(list, channel, 1, samples);
    } else {
        put_samples(list, channel, channels, samples);
    }
}

/// Puts the samples of `list` into `channel` of frames that are silent there, each sample clamped to 16 bits.
#[inline(always)]
fn put_samples(list: &[i32], channel: usize, channels: usize, samples: &mut [i16])
    requires channel { channel < channels }
    requires room { length list.now * channels ≤ length samples.old }
    requires silent { (at : ℕ) → slice_index_or samples.old (at * channels + channel) (pos 0) ≡ pos 0 }
    ensures put { (at : ℕ) → slice_index_or samples.new (at * channels + channel) (pos 0) ≡
        saturate_signed w16 (slice_index_or list.now at (pos 0)) }
    ensures kept { (at other : ℕ) → other < channels → other ≢ channel →
        slice_index_or samples.new (at * channels + other) (pos 0) ≡
        slice_index_or samples.old (at * channels + other) (pos 0) }
    ensures count { length samples.new ≡ length samples.old }
{
    for (at, sample) in list.iter().enumerate() {
        samples[at * channels + channel] = clamp_sample(*sample);
    }
}

/// Fills `samples` with the first `frames` frames of `lists`, each sample clamped to 16 bits.
fn fill_frames(lists: &[Vec<i32>], frames: usize, samples: &mut [i16])
    requires { length samples.old ≡ frames * length lists.now }
    ensures { samples.new ≡ interleaved frames (items_of lists.now) }
{
    samples.fill(0);
    for (channel, list) in lists.iter().enumerate() {
        let part = first_samples(list, frames);
        put_channel(part, channel, lists.len(), samples);
    }
}

/// Makes the first `frames` frames of `lists`, each sample clamped to 16 bits, in the memory of `spare`.
pub(crate) fn make_frames(
    lists: &[Vec<i32>],
    frames: usize,
    spare: Vec<i16>,
) -> Result<Vec<i16>, AllocError>
    ensures { IfOk result (λ v. v.items ≡ interleaved frames (items_of lists.now)) }
{
    let mut samples = spare;
    let count = frames.checked_mul(lists.len()).ok_or(AllocError)?;
    samples.resize(count, 0)?;
    fill_frames(lists, frames, &mut samples);
    Ok(samples)
}
