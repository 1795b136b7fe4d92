//! Samples of 16 bits with their rate.

ghost use Rattle.std.specs.Prelude.{◌≡◌, ◌≤◌, ◌<◌, ◌+◌, ◌*◌, ◌%◌, length, slice_get, Some};
ghost use Rattle.sdf_wav.specs.Format.{IsFormat};
ghost use Rattle.sdf_wav.specs.Sound.{Sound, sound_of, frames_of};

use crate::fault::{FormatFault, WavFault};
use crate::format::Format;
use std::marker::Model;

/// The most channels of a sound. It has at least one.
pub const MAX_CHANNELS: u16 = 8;

/// A sound: at least one frame a second, 1 to 8 channels, and whole frames of one sample for each channel.
#[derive(Debug, Drop)]
pub struct Wav {
    rate: u32,
    channels: u16,
    samples: Vec<i16>,
}

impl Model for Wav {
    ghost use Rattle.std.specs.Prelude.{◌≡◌, ◌≤◌, ◌%◌, length};
    ghost use Rattle.sdf_wav.specs.Sound.{Sound};
    ghost use Rattle.sdf_wav.specs.declared.wav.TheConstants.{MAX_CHANNELS};

    ghost Value = { Sound };

    ghost view = { λ w. record { rate = w.rate; channels = w.channels; samples = w.samples.items } };

    ghost invariant = { λ w. (1 ≤ w.rate) × (1 ≤ w.channels) × (w.channels ≤ MAX_CHANNELS)
        × (length w.samples.items % w.channels ≡ 0) };
}

impl Wav {
    /// Returns the sound of `samples`, interleaved by frame, at `rate` frames a second. Fails with `Channels`,
    /// `RateZero` or `PartialFrame`, tested in this order.
    pub fn new(rate: u32, channels: u16, samples: Vec<i16>) -> Result<Wav, WavFault>
        ensures { result ≡ sound_of rate channels samples.items }
    {
        if channels == 0 || channels > MAX_CHANNELS {
            return Err(WavFault::Format(FormatFault::Channels));
        }
        if rate == 0 {
            return Err(WavFault::Format(FormatFault::RateZero));
        }
        if !samples.len().is_multiple_of(channels as usize) {
            return Err(WavFault::Format(FormatFault::PartialFrame));
        }
        Ok(Wav {
            rate,
            channels,
            samples,
        })
    }

    /// Returns the sound of `samples` that were read in `format`.
    pub(crate) fn of_format(format: Format, samples: Vec<i16>) -> Wav
        requires format { IsFormat format }
        requires whole { length samples.items % format.channels ≡ 0 }
        ensures { result ≡ record { rate = format.rate; channels = format.channels; samples = samples.items } }
    {
        Wav {
            rate: format.rate,
            channels: format.channels,
            samples,
        }
    }

    /// Returns the rate in frames a second.
    pub fn rate(&self) -> u32
        ensures value { result ≡ self.now.rate }
        ensures above_0 { 1 ≤ result }
    {
        self.rate
    }

    /// Returns the number of channels: the samples in a frame.
    pub fn channels(&self) -> u16
        ensures value { result ≡ self.now.channels }
        ensures above_0 { 1 ≤ result }
        ensures few { result ≤ MAX_CHANNELS }
    {
        self.channels
    }

    /// Returns the number of frames.
    pub fn frames(&self) -> usize
        ensures value { result ≡ frames_of self.now }
        ensures whole { result * self.now.channels ≡ length self.now.samples }
    {
        self.samples.len() / self.channels as usize
    }

    /// Returns the sample of `channel` in `frame`, both counted from 0.
    pub fn sample(&self, frame: usize, channel: u16) -> i16
        requires frame { frame < frames_of self.now }
        requires channel { channel < self.now.channels }
        ensures { slice_get self.now.samples (frame * self.now.channels + channel) ≡ Some result }
    {
        self.samples[frame * self.channels as usize + channel as usize]
    }

    /// Returns all samples, interleaved by frame.
    pub fn samples(&self) -> &[i16]
        ensures value { result.now ≡ self.now.samples }
        ensures whole { length self.now.samples % self.now.channels ≡ 0 }
    {
        self.samples.as_slice()
    }
}
