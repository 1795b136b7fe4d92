//! The reader and the writer of a profile, which never fail.

ghost use Rattle.std.specs.Prelude.{None, Some};

use sdf_wav::{DeviceFault, Reader, Writer};

/// A reader of a sound in memory, with the bytes that are still to be read.
#[derive(Clone, Copy)]
pub(crate) struct MemoryReader<'a> {
    pub(crate) left: &'a [u8],
}

impl<'a> Reader for MemoryReader<'a> {
    ghost state = { λ s. record { remaining = Some s.left.now; failures = 0 } };

    fn read(&mut self, buf: &mut [u8]) -> Result<usize, DeviceFault> {
        let count = self.left.len().min(buf.len());
        let (front, rest) = self.left.split_at(count);
        buf[..count].copy_from_slice(front);
        self.left = rest;
        Ok(count)
    }
}

/// A writer that drops the output of a run.
#[derive(Clone, Copy)]
pub(crate) struct NullWriter;

impl Writer for NullWriter {
    ghost state = { λ _. record { contents = None; failures = 0 } };

    fn write(&mut self, bytes: &[u8]) -> Result<usize, DeviceFault> {
        Ok(bytes.len())
    }
}
