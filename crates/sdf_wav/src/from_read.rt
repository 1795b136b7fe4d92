//! Readers of std as readers of files.

ghost use Rattle.std.specs.Prelude.{◌≡◌};
ghost use Rattle.sdf_wav.specs.Adapters.{read_inner, read_failures};

use crate::device::{DeviceFault, Reader, counted};
use std::io;

/// A reader over a reader of std. Every error counts as a failed call, an interrupted one too.
#[derive(Drop)]
pub struct FromRead<R> {
    inner: R,
    failed: u64,
}

impl<R> FromRead<R> {
    /// Returns a reader over `inner` that has not failed yet.
    pub fn new(inner: R) -> FromRead<R>
        ensures inner { read_inner result ≡ inner }
        ensures fresh { read_failures result ≡ 0 }
    {
        FromRead { inner, failed: 0 }
    }

    /// Returns how many calls failed, at most `u64::MAX`.
    pub fn failed(&self) -> u64
        ensures { result ≡ read_failures self.now }
    {
        self.failed
    }

    /// Returns the reader inside.
    pub fn into_inner(self) -> R
        ensures { result ≡ read_inner self }
    {
        self.inner
    }
}

impl<R: io::Read> Reader for FromRead<R> {
    ghost state = { λ s. record { remaining = R.remaining s.inner; failures = s.failed } };

    fn read(&mut self, buf: &mut [u8]) -> Result<usize, DeviceFault> {
        counted(self.inner.read(buf), &mut self.failed)
    }
}
