//! Writers of std as writers of files.

ghost use Rattle.std.specs.Prelude.{◌≡◌};
ghost use Rattle.sdf_wav.specs.Adapters.{write_inner, write_failures};

use crate::device::{DeviceFault, Writer, counted};
use std::io;

/// A writer over a writer of std. Every error counts as a failed call, an interrupted one too.
#[derive(Drop)]
pub struct ToWrite<W> {
    inner: W,
    failed: u64,
}

impl<W> ToWrite<W> {
    /// Returns a writer over `inner` that has not failed yet.
    pub fn new(inner: W) -> ToWrite<W>
        ensures inner { write_inner result ≡ inner }
        ensures fresh { write_failures result ≡ 0 }
    {
        ToWrite { inner, failed: 0 }
    }

    /// Returns how many calls failed, at most `u64::MAX`.
    pub fn failed(&self) -> u64
        ensures { result ≡ write_failures self.now }
    {
        self.failed
    }

    /// Returns the writer inside.
    pub fn into_inner(self) -> W
        ensures { result ≡ write_inner self }
    {
        self.inner
    }
}

impl<W: io::Write> Writer for ToWrite<W> {
    ghost state = { λ s. record { contents = W.contents s.inner; failures = s.failed } };

    fn write(&mut self, bytes: &[u8]) -> Result<usize, DeviceFault> {
        let taken = counted(self.inner.write(bytes), &mut self.failed)?;
        if taken == 0 && !bytes.is_empty() {
            self.failed = self.failed.saturating_add(1);
        }
        Ok(taken)
    }
}
