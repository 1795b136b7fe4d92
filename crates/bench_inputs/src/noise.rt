//! Noise as WAV files.

use crate::numbers::Numbers;
use std::alloc::{AllocError, Global};

/// Frames a second.
const RATE: u32 = 44_100;

/// The length of a sound.
#[derive(Clone, Copy)]
pub enum Length {
    Seconds(u32),
    Frames(u32),
}

impl Length {
    /// Returns the length in frames.
    fn frames(self) -> u32 {
        match self {
            Length::Seconds(seconds) => seconds.saturating_mul(RATE),
            Length::Frames(frames) => frames,
        }
    }

    /// Returns the length divided by `parts`.
    pub fn part(self, parts: u32) -> Length {
        Length::Frames(self.frames().checked_div(parts).unwrap_or(0))
    }
}

/// The level of noise.
#[derive(Clone, Copy)]
pub enum Level {
    /// Uniform over all 16-bit values.
    Full,
    /// 6 dB below that.
    Half,
}

/// White noise of 16 bits.
#[derive(Clone, Copy)]
pub struct Noise {
    pub length: Length,
    pub channels: u16,
    pub level: Level,
}

impl Noise {
    /// Returns the size of its samples in bytes.
    fn data(self) -> u32 {
        let samples = self
            .length
            .frames()
            .saturating_mul(u32::from(self.channels));
        samples.saturating_mul(2)
    }

    /// Returns the header of its WAV file, as words of 32 bits, least byte first.
    fn header(self) -> [u32; 11] {
        let (data, channels) = (self.data(), u32::from(self.channels));
        let frame = channels.saturating_mul(2);
        [
            u32::from_le_bytes(*b"RIFF"),
            data.saturating_add(36),
            u32::from_le_bytes(*b"WAVE"),
            u32::from_le_bytes(*b"fmt "),
            16,
            channels << 16 | 1,
            RATE,
            RATE.saturating_mul(frame),
            16 << 16 | frame,
            u32::from_le_bytes(*b"data"),
            data,
        ]
    }

    /// Returns its WAV file.
    pub fn file(self, alloc: Global, numbers: &mut Numbers) -> Result<Vec<u8>, AllocError> {
        let room = (self.data() as usize).saturating_add(64);
        let mut file = Vec::with_capacity(alloc, room)?;
        self.push_header(&mut file)?;
        self.push_samples(&mut file, numbers)?;
        Ok(file)
    }

    /// Adds its header.
    fn push_header(self, file: &mut Vec<u8>) -> Result<(), AllocError> {
        for word in &self.header() {
            file.extend_from_slice(&word.to_le_bytes())?;
        }
        Ok(())
    }

    /// Adds its samples.
    fn push_samples(self, file: &mut Vec<u8>, numbers: &mut Numbers) -> Result<(), AllocError> {
        let data = self.data() as usize;
        for _ in 0..data / 8 {
            file.extend_from_slice(&self.levelled(numbers.word()).to_le_bytes())?;
        }
        let last = self.levelled(numbers.word()).to_le_bytes();
        file.extend_from_slice(&last[..data % 8])
    }

    /// Scales the four samples of a word to the noise's level.
    fn levelled(self, word: u64) -> u64 {
        match self.level {
            Level::Full => word,
            Level::Half => (word >> 1) & 0x7fff_7fff_7fff_7fff | word & 0x8000_8000_8000_8000,
        }
    }
}
