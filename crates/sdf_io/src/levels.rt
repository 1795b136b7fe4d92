//! The levels of a sound while it is written.

ghost use Rattle.std.specs.Prelude.{◌≤◌, ◌<◌, length};

use crate::lanes::{LANES, Lane, Lanes};
use byteorder::{ByteOrder, LittleEndian};
use sdf_options::plural::plural;
use sdf_wav::{HEADER_BYTES, MAX_CHANNELS};
use std::alloc::{AllocError, Global};
use std::num::saturating_f64_to_u64;

/// The most bytes of samples that are counted in one batch.
const PIECE: usize = 65_536;

/// `MAX_CHANNELS` as a length.
const MAX_OUTPUTS: usize = MAX_CHANNELS as usize;

/// The levels of an output.
#[derive(Clone, Copy)]
pub struct Level {
    pub frames: u64,
    /// The greatest absolute value of a sample.
    pub peak: u16,
    /// The number of samples at full scale, -32768 or 32767.
    pub full: u64,
}

impl Level {
    const NONE: Level = Level {
        frames: 0,
        peak: 0,
        full: 0,
    };

    /// Counts a sample.
    fn count(&mut self, sample: i16) {
        self.frames = self.frames.saturating_add(1);
        self.peak = self.peak.max(sample.unsigned_abs());
        if sample == i16::MIN || sample == i16::MAX {
            self.full = self.full.saturating_add(1);
        }
    }

    /// Counts the samples of `lane`, one from each of `blocks` blocks.
    fn count_lane(&mut self, blocks: usize, lane: Lane) {
        let Lane {
            least,
            greatest,
            full,
        } = lane;
        self.frames = self.frames.saturating_add(blocks as u64);
        self.peak = self
            .peak
            .max(least.unsigned_abs())
            .max(greatest.unsigned_abs());
        self.full = self.full.saturating_add(u64::from(full.unsigned_abs()));
    }
}

/// The progress of a sound that is written: its frames so far, its frames in all, and its frames per second.
#[derive(Clone, Copy)]
pub(crate) struct WrittenFrames {
    pub(crate) frames: u64,
    pub(crate) all: u64,
    pub(crate) rate: u64,
}

/// The header of a sound, as far as it is written, and the levels of its outputs.
#[derive(Clone, Copy)]
pub struct SoundLevels {
    header: [u8; HEADER_BYTES],
    written: usize,
    /// The first byte of a sample whose second byte is not written yet.
    low: Option<u8>,
    /// The output of the next sample.
    next: usize,
    outputs: [Level; MAX_OUTPUTS],
}

impl SoundLevels {
    /// Returns the levels before anything is written.
    pub(crate) fn new() -> SoundLevels {
        SoundLevels {
            header: [0; HEADER_BYTES],
            written: 0,
            low: None,
            next: 0,
            outputs: [Level::NONE; MAX_OUTPUTS],
        }
    }

    /// Returns the number of outputs in the header.
    fn channels(&self) -> usize
        ensures { result ≤ MAX_OUTPUTS }
    {
        usize::from(self.header[22]).min(MAX_OUTPUTS)
    }

    /// Checks whether the header is written whole.
    fn has_header(&self) -> bool {
        self.written >= HEADER_BYTES
    }

    /// Counts a sample of the next output.
    fn count(&mut self, sample: i16) {
        if let Some(level) = self.outputs.get_mut(self.next) {
            level.count(sample);
        }
        self.next = self.next.saturating_add(1);
        if self.next >= self.channels() {
            self.next = 0;
        }
    }

    /// Takes the next byte of the samples.
    fn take(&mut self, byte: u8) {
        match self.low {
            None => self.low = Some(byte),
            Some(low) => {
                self.low = None;
                self.count(LittleEndian::read_i16(&[low, byte]));
            }
        }
    }

    /// Takes the next byte, which belongs to the header or to the samples.
    fn note_byte(&mut self, byte: u8) {
        match self.header.get_mut(self.written) {
            Some(place) => {
                *place = byte;
                self.written = self.written.saturating_add(1);
            }
            None => self.take(byte),
        }
    }

    /// Takes the next `bytes`, one after the other.
    fn note_each(&mut self, bytes: &[u8]) {
        for byte in bytes {
            self.note_byte(*byte);
        }
    }

    /// Counts whole blocks of samples at the front of `bytes`, and returns how many bytes they have. Counts nothing if
    /// the number of outputs does not divide 8, since a lane would have samples of several outputs.
    fn note_blocks(&mut self, bytes: &[u8]) -> usize
        requires { length bytes.now < 524288 }
        ensures { result ≤ length bytes.now }
    {
        let channels = self.channels();
        if channels == 0 || LANES % channels != 0 {
            return 0;
        }
        let lanes = Lanes::of(bytes);
        for lane in 0..LANES {
            let output = self.next.saturating_add(lane) % channels;
            if let Some(level) = self.outputs.get_mut(output) {
                level.count_lane(lanes.blocks, lanes.lane(lane));
            }
        }
        lanes.bytes()
    }

    /// Takes `bytes` that were written: the rest of the header and of a sample byte by byte, then whole blocks.
    pub(crate) fn note(&mut self, bytes: &[u8]) {
        let begun = HEADER_BYTES.saturating_sub(self.written) + usize::from(self.low.is_some());
        let (front, samples) = bytes.split_at(begun.min(bytes.len()));
        self.note_each(front);
        for piece in samples.chunks(PIECE) {
            let blocks = self.note_blocks(piece);
            self.note_each(&piece[blocks..]);
        }
    }

    /// Returns the 32-bit number at byte `at` of the header.
    fn number(&self, at: usize) -> u64
        requires { at < 41 }
    {
        u64::from(LittleEndian::read_u32(&self.header[at..]))
    }

    /// Returns how far the sound is written, once its header is whole.
    pub(crate) fn written_frames(&self) -> Option<WrittenFrames> {
        if !self.has_header() {
            return None;
        }
        let frame = (self.channels() as u64).max(1) * 2;
        Some(WrittenFrames {
            frames: self.frames(),
            all: self.number(40) / frame,
            rate: self.number(24),
        })
    }

    /// Returns how many frames are written.
    pub fn frames(&self) -> u64 {
        self.outputs[0].frames
    }

    /// Returns the levels of each output, or none before the header is whole.
    pub fn outputs(&self) -> &[Level] {
        if self.has_header() {
            &self.outputs[..self.channels()]
        } else {
            &[]
        }
    }

    /// Returns a line with the levels of each output, or nothing before the header is whole.
    pub fn text(&self, alloc: Global) -> Result<String, AllocError> {
        let mut text = String::new(alloc);
        for (output, level) in self.outputs().iter().enumerate() {
            push_level(&mut text, output, *level)?;
        }
        Ok(text)
    }
}

/// Adds `count` and the noun `thing`, in the plural if `count` is not 1.
fn push_count(text: &mut String, count: u64, thing: &str) -> Result<(), AllocError> {
    write!(text, "{count} {thing}{}", plural(count))
}

/// Adds the line of an output.
fn push_level(text: &mut String, output: usize, level: Level) -> Result<(), AllocError> {
    let Level { frames, peak, full } = level;
    write!(text, "output {output}: ")?;
    push_count(text, frames, "frame")?;
    text.push_str(", ")?;
    push_peak(text, peak)?;
    text.push_str(", ")?;
    push_count(text, full, "sample")?;
    text.push_str(" at full scale\n")
}

/// Returns how far `peak` is below full scale, in tenths of a dB.
fn tenths_below(peak: u16) -> u64 {
    let part = f64::from(peak) / 32768.0;
    saturating_f64_to_u64((-200.0 * part.log10()).round())
}

/// Adds `peak` in dB relative to full scale.
fn push_peak(text: &mut String, peak: u16) -> Result<(), AllocError> {
    if peak == 0 {
        return text.push_str("no peak");
    }
    let tenths = tenths_below(peak);
    let (whole, tenth) = (tenths / 10, tenths % 10);
    let sign = if tenths == 0 { "" } else { "-" };
    write!(text, "peak {sign}{whole}.{tenth} dB")
}
