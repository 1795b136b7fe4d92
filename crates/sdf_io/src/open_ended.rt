//! A sound that is read to the end of the input, whatever size its header gives.

ghost use Rattle.std.specs.Prelude.{◌≤◌, IfOk, length};

use crate::opening::Opening;
use sdf_wav::MAX_CHANNELS;
use std::io::{self, Read};

/// The most bytes of a frame: 2 for each channel.
const MAX_FRAME: usize = 2 * MAX_CHANNELS as usize;

/// A frame that is not read whole yet, or not passed on whole.
#[derive(Clone, Copy)]
struct PendingFrame {
    bytes: [u8; MAX_FRAME],
    read: usize,
    passed: usize,
}

impl PendingFrame {
    /// Adds `bytes`, which were read.
    fn add(&mut self, bytes: &[u8]) {
        for byte in bytes {
            if let Some(place) = self.bytes.get_mut(self.read) {
                *place = *byte;
                self.read = self.read.saturating_add(1);
            }
        }
    }

    /// Moves bytes to the front of `buf`, and returns how many.
    fn pass(&mut self, buf: &mut [u8]) -> usize
        ensures { result ≤ length buf.new }
    {
        let count = self.read.saturating_sub(self.passed).min(buf.len());
        let bytes = self.bytes.iter().skip(self.passed).take(count);
        for (place, byte) in buf.iter_mut().zip(bytes) {
            *place = *byte;
        }
        self.passed = self.passed.saturating_add(count);
        if self.passed >= self.read {
            self.read = 0;
            self.passed = 0;
        }
        count
    }
}

/// How far a sound was read: its header, then whole frames. The front of a last frame that is cut off is left out.
#[derive(Clone, Copy)]
pub(crate) struct OpenEnded {
    opening: Opening,
    pending: PendingFrame,
}

impl OpenEnded {
    /// Returns the start of a sound.
    pub(crate) fn new() -> OpenEnded {
        OpenEnded {
            opening: Opening::new(),
            pending: PendingFrame {
                bytes: [0; MAX_FRAME],
                read: 0,
                passed: 0,
            },
        }
    }

    /// Returns the number of bytes of a frame that is not whole.
    pub(crate) fn unpassed(&self) -> usize {
        self.pending.read
    }

    /// Reads into `buf`, at most to the end of the next header.
    fn read_header<R: Read>(&mut self, from: &mut R, buf: &mut [u8]) -> io::Result<usize>
        ensures { IfOk result (λ count. count ≤ length buf.new) }
    {
        let most = self.opening.bytes_left().min(buf.len());
        let count = from.read(&mut buf[..most])?;
        self.opening.open(&mut buf[..count]);
        Ok(count)
    }

    /// Reads whole frames of `size` bytes into `buf`, and keeps the front of the frame behind them.
    fn read_frames<R: Read>(
        &mut self,
        from: &mut R,
        size: usize,
        buf: &mut [u8],
    ) -> io::Result<usize>
        requires { 1 ≤ size }
        ensures { IfOk result (λ count. count ≤ length buf.new) }
    {
        let count = from.read(buf)?;
        let whole = count - count % size;
        self.pending.add(&buf[whole..count]);
        Ok(whole)
    }

    /// Reads on until a frame of `size` bytes is whole or the input ends.
    fn fill<R: Read>(&mut self, from: &mut R, size: usize) -> io::Result<()> {
        let mut bytes = [0; MAX_FRAME];
        for _ in 0..size {
            let room = size.saturating_sub(self.pending.read).min(MAX_FRAME);
            let count = from.read(&mut bytes[..room])?;
            if count == 0 {
                return Ok(());
            }
            self.pending.add(&bytes[..count]);
        }
        Ok(())
    }

    /// Reads into `buf`: a part of the header, or whole frames, except the last one of a short `buf`.
    pub(crate) fn read<R: Read>(&mut self, from: &mut R, buf: &mut [u8]) -> io::Result<usize>
        ensures { IfOk result (λ count. count ≤ length buf.new) }
    {
        let Some(size) = self.opening.frame() else {
            return self.read_header(from, buf);
        };
        if self.pending.read == 0 && buf.len() >= size {
            let count = self.read_frames(from, size, buf)?;
            if count > 0 {
                return Ok(count);
            }
        }
        self.fill(from, size)?;
        if self.pending.read < size {
            return Ok(0);
        }
        Ok(self.pending.pass(buf))
    }
}
