//! Readers and writers of bytes, which count their failed calls.

ghost use Rattle.std.specs.Prelude.{◌≡◌};
ghost use Rattle.std.specs.Io.{ReadsAtMost, WritesAtMost};
ghost use Rattle.std.specs.Io.KnownBytes.{ReadConsumes, WriteAppends};
ghost use Rattle.sdf_wav.specs.Device.{device_result, failures_after_read, failures_after_write, ReaderState};
ghost use Rattle.sdf_wav.specs.Device.{WriterState};

use std::io;
use thiserror::Error;

/// The failure of a device.
#[derive(Clone, Copy, Debug, PartialEq, Eq, Error)]
#[error("a device failed")]
pub struct DeviceFault;

/// A source of bytes, like std's `Read`, that counts its failed calls.
pub trait Reader {
    // The bytes that it has still to give, and how many of its calls failed.
    ghost state: { Self → ReaderState };

    /// Moves bytes to the front of `buf`, and returns how many: none only at the end of the input, or if `buf` is
    /// empty.
    fn read(&mut self, buf: &mut [u8]) -> Result<usize, DeviceFault>
        ensures bound { ReadsAtMost result buf.new }
        ensures bytes { ReadConsumes (state self.old).remaining (state self.new).remaining result buf.new }
        ensures counted { (state self.new).failures ≡ failures_after_read result (state self.old).failures };
}

/// A sink of bytes, like std's `Write`, that counts its failed calls.
pub trait Writer {
    // The bytes that it has taken, and how many of its calls failed.
    ghost state: { Self → WriterState };

    /// Takes bytes from the front of `bytes`, and returns how many. Taking none counts as a failure if there are any.
    fn write(&mut self, bytes: &[u8]) -> Result<usize, DeviceFault>
        ensures bound { WritesAtMost result bytes.now }
        ensures bytes { WriteAppends (state self.old).contents (state self.new).contents result bytes.now }
        ensures counted { (state self.new).failures ≡ failures_after_write result bytes.now (state self.old).failures };
}

/// Converts the result of a call of std to a device's result, and counts an error in `failed`. An interrupted call is
/// an error too.
pub(crate) fn counted(answer: io::Result<usize>, failed: &mut u64) -> Result<usize, DeviceFault>
    ensures value { result ≡ device_result answer }
    ensures count { failed.new ≡ failures_after_read answer failed.old }
{
    match answer {
        Ok(count) => Ok(count),
        Err(_) => {
            *failed = failed.saturating_add(1);
            Err(DeviceFault)
        }
    }
}
