//! The content of a file that is written in pieces.

ghost use Rattle.std.specs.Prelude.{◌≡◌, ◌≤◌, ◌*◌, ◌%◌, ◌⊎◌, Bool, true, false, length, IfOk, IfErr, IsErrOf};
ghost use Rattle.sdf_wav.specs.Canonical.{sample_bytes, Writes};
ghost use Rattle.sdf_wav.specs.Device.{failures_after, Failed};
ghost use Rattle.sdf_wav.specs.PiecesOut.{start_fault, file_header, Puts, owed_after, end_result};

use crate::device::Writer;
use crate::fault::{FormatFault, WavFault};
use crate::moving::put_all;
use crate::wav::MAX_CHANNELS;
use crate::writing::{MAX_BYTES_A_SECOND, MAX_DATA_BYTES, header, put_samples};
use std::marker::Model;

/// What is still to be written of a file after its header, and whether its writer failed. It holds no writer: each call
/// gets the writer that took the header.
#[derive(Debug, Drop)]
pub struct ContentOut {
    channels: u16,
    missing: u64,
    spent: bool,
}

impl Model for ContentOut {
    ghost use Rattle.std.specs.Prelude.{◌≤◌};
    ghost use Rattle.sdf_wav.specs.PiecesOut.{ContentOutValue};

    ghost Value = { ContentOutValue };

    ghost view = { λ c. record { channels = c.channels; missing = c.missing; spent = c.spent } };

    ghost invariant = { λ c. 1 ≤ c.channels };
}

impl ContentOut {
    /// Writes the header of a file of `frames` frames, at `rate` frames a second. All frames are missing then. Fails
    /// with `Channels`, `RateZero`, `RateTooLarge` or `TooLong`, tested in this order before the first byte. After
    /// `Write`, a prefix of the header is written.
    pub fn start<W: Writer>(
        writer: &mut W,
        rate: u64,
        channels: u16,
        frames: u64,
    ) -> Result<ContentOut, WavFault>
        ensures writes { Writes (W.state writer.old).contents (W.state writer.new).contents
            (start_fault rate channels frames)
            (file_header rate channels frames) result }
        ensures owed { IfOk result (λ c. c ≡ record { channels = channels; missing = frames; spent = false }) }
        ensures counted { (W.state writer.new).failures ≡ failures_after result (W.state writer.old).failures }
        ensures device { IsErrOf result WavFault.Write →
            Failed (W.state writer.old).failures (W.state writer.new).failures }
    {
        if channels == 0 || channels > MAX_CHANNELS {
            return Err(WavFault::Format(FormatFault::Channels));
        }
        if rate == 0 {
            return Err(WavFault::Format(FormatFault::RateZero));
        }
        if rate.saturating_mul(2 * u64::from(channels)) > MAX_BYTES_A_SECOND {
            return Err(WavFault::Format(FormatFault::RateTooLarge));
        }
        let samples = frames.saturating_mul(u64::from(channels));
        if samples > MAX_DATA_BYTES / 2 {
            return Err(WavFault::Format(FormatFault::TooLong));
        }
        let header = header(rate as u32, channels, (2 * samples) as u32);
        match put_all(writer, &header) {
            Ok(()) => Ok(ContentOut {
                channels,
                missing: frames,
                spent: false,
            }),
            Err(_) => Err(WavFault::Write),
        }
    }

    /// Returns how many frames are still to be written.
    pub fn missing(&self) -> u64
        ensures { result ≡ self.now.missing }
    {
        self.missing
    }

    /// Writes the next frames, interleaved in `samples`. Once the writer has failed, this writes nothing more and fails
    /// with `Write` again.
    pub fn put<W: Writer>(&mut self, writer: &mut W, samples: &[i16]) -> Result<(), WavFault>
        requires whole { length samples.now % self.old.channels ≡ 0 }
        requires missing { length samples.now ≤ self.old.missing * self.old.channels }

        // The samples are written, or a prefix of their bytes if the writer fails.
        ensures writes { self.old.spent ≡ false → Puts (W.state writer.old).contents (W.state writer.new).contents
            (sample_bytes samples.now) result }
        ensures counted { self.old.spent ≡ false → (W.state writer.new).failures ≡
            failures_after result (W.state writer.old).failures }

        // A failure is repeated, and the writer is not touched again.
        ensures repeats { self.old.spent ≡ true → (result ≡ Err WavFault.Write) × (writer.new ≡ writer.old) }
        ensures owed { self.new ≡ owed_after self.old (length samples.now) result }
        ensures fault { IfErr result (λ e. e ≡ WavFault.Write) }
    {
        if self.spent {
            return Err(WavFault::Write);
        }
        match put_samples(writer, samples) {
            Ok(()) => {
                self.missing -= (samples.len() / self.channels as usize) as u64;
                Ok(())
            }
            Err(_) => {
                self.spent = true;
                Err(WavFault::Write)
            }
        }
    }

    /// Ends the file, and fails with `Write` if its writer failed.
    pub fn end(self) -> Result<(), WavFault>
        requires { (self.missing ≡ 0) ⊎ (self.spent ≡ true) }
        ensures { result ≡ end_result self.spent }
    {
        if self.spent {
            Err(WavFault::Write)
        } else {
            Ok(())
        }
    }
}
