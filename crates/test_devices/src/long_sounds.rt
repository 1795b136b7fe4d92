//! A long sound whose bytes are made as they are read, and a writer that compares what it takes with such a sound.
//! Neither keeps what passes.

ghost use Rattle.std.specs.Prelude.{None};

use std::alloc::{AllocError, Global};
use std::io::{self, Read, Write};

/// The bytes of the header of a sound.
const HEADER: u64 = 44;

/// The samples of a block of noise. As a prime number it divides no piece of a sound.
const BLOCK: u32 = 4093;

/// Zeros, for silence.
const ZEROS: &[u8; 4096] = &[0; 4096];

/// The WAV file of a sound of one channel at 44,100 frames a second, as a reader: silence, and then a noise.
#[derive(Drop)]
pub struct LongSound {
    header: Vec<u8>,
    /// The bytes before the noise.
    silent: u64,
    /// All bytes.
    size: u64,
    /// The bytes that were read.
    at: u64,
    block: Vec<u8>,
}

impl LongSound {
    /// Returns a reader of `frames` frames, the first `silent` of them silent, before the first byte.
    pub fn new(alloc: Global, frames: u32, silent: u32) -> Result<LongSound, AllocError> {
        let content = frames.saturating_mul(2);
        let mut header = Vec::new(alloc);
        header.extend_from_slice(b"RIFF")?;
        header.extend_from_slice(&content.saturating_add(36).to_le_bytes())?;
        header.extend_from_slice(
            b"WAVEfmt \x10\0\0\0\x01\0\x01\0\x44\xAC\0\0\x88\x58\x01\0\x02\0\x10\0data",
        )?;
        header.extend_from_slice(&content.to_le_bytes())?;
        let mut block = Vec::new(alloc);
        for number in 1..BLOCK {
            let noise = number.wrapping_mul(0x9E37_79B9) >> 16;
            block.extend_from_slice(&(noise as u16).to_le_bytes())?;
        }
        Ok(LongSound {
            header,
            silent: HEADER.saturating_add(u64::from(silent).saturating_mul(2)),
            size: HEADER.saturating_add(u64::from(content)),
            at: 0,
            block,
        })
    }

    /// Returns the next bytes, and none only at the end.
    fn next(&self) -> &[u8] {
        let left = self.size.saturating_sub(self.at);
        let part = if self.at < HEADER {
            self.header.get(self.at as usize..)
        } else if self.at < self.silent {
            let zeros = self.silent.saturating_sub(self.at).min(4096);
            ZEROS.get(..zeros as usize)
        } else {
            let at = self.at.saturating_sub(self.silent);
            self.block.get(at.checked_rem(self.block.len() as u64).unwrap_or(0) as usize..)
        };
        let part = part.unwrap_or(&[]);
        part.get(..left as usize).unwrap_or(part)
    }

    /// Moves on by `count` bytes.
    fn pass(&mut self, count: usize) {
        self.at = self.at.saturating_add(count as u64);
    }
}

impl Read for LongSound {
    ghost remaining = { λ _. None };

    fn read(&mut self, buf: &mut [u8]) -> io::Result<usize> {
        let part = self.next();
        let count = part.len().min(buf.len());
        buf[..count].copy_from_slice(&part[..count]);
        self.pass(count);
        Ok(count)
    }
}

/// A writer that takes a sound, and notes whether it is the wanted one.
#[derive(Drop)]
pub struct Comparing {
    wanted: LongSound,
    differs: bool,
}

impl Comparing {
    /// Returns a writer that has taken nothing.
    pub fn with(wanted: LongSound) -> Comparing {
        Comparing {
            wanted,
            differs: false,
        }
    }

    /// Returns whether exactly the wanted sound was written.
    pub fn is_same(&self) -> bool {
        !self.differs && self.wanted.at == self.wanted.size
    }
}

impl Write for Comparing {
    ghost contents = { λ _. None };

    fn write(&mut self, bytes: &[u8]) -> io::Result<usize> {
        let part = self.wanted.next();
        let count = part.len().min(bytes.len());
        if count == 0 {
            self.differs = self.differs || !bytes.is_empty();
            return Ok(bytes.len());
        }
        self.differs = self.differs || part[..count] != bytes[..count];
        self.wanted.pass(count);
        Ok(count)
    }

    fn flush(&mut self) -> io::Result<()> {
        Ok(())
    }
}
