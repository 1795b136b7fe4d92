//! A file that is written in pieces.

ghost use Rattle.std.specs.Prelude.{◌≡◌, ◌≤◌, ◌*◌, ◌%◌, ◌⊎◌, Some, None, true, false, length, IfOk, IfErr, IsErrOf};
ghost use Rattle.std.specs.Io.KnownBytes.{Appends};
ghost use Rattle.sdf_wav.specs.Canonical.{sample_bytes};
ghost use Rattle.sdf_wav.specs.Device.{failures_after, one_more};
ghost use Rattle.sdf_wav.specs.PiecesOut.{start_fault, file_header, Puts, owed_after, end_result};
ghost use Rattle.sdf_wav.specs.WavOut.{writer_of, writer_name, owed, StartFails};

use crate::content_out::ContentOut;
use crate::device::Writer;
use crate::fault::WavFault;

/// A file that is being written: its header is written, and [`WavOut::missing`] frames are still to be written.
#[derive(Drop)]
pub struct WavOut<'a, W> {
    writer: &'a mut W,
    content: ContentOut,
}

impl<'a, W: Writer> WavOut<'a, W> {
    /// Writes the header of a file of `frames` frames, at `rate` frames a second. Fails with `Channels`, `RateZero`,
    /// `RateTooLarge` or `TooLong`, tested in this order before the first byte, and with `Write`. To know what the
    /// writer took before `Write`, call [`ContentOut::start`], which writes the same, and then [`WavOut::over`].
    pub fn start(
        writer: &'a mut W,
        rate: u64,
        channels: u16,
        frames: u64,
    ) -> Result<WavOut<'a, W>, WavFault>
        ensures same_writer { IfOk result (λ o. writer_name o ≡ writer.entry.ghost_name) }
        ensures header { IfOk result (λ o. Appends (W.state writer.old).contents (W.state (writer_of o)).contents
            (file_header rate channels frames)) }
        ensures counted { IfOk result (λ o. (W.state (writer_of o)).failures ≡ (W.state writer.old).failures) }
        ensures owed { IfOk result (λ o. owed o ≡ record { channels = channels; missing = frames; spent = false }) }
        ensures fits { IfOk result (λ _. start_fault rate channels frames ≡ None) }
        ensures fault { IfErr result (StartFails rate channels frames) }

        // If the fault is `Write`, some writer was left that had failed once more: a body that writes nothing has none.
        ensures device { IsErrOf result WavFault.Write →
            (left : W) × ((W.state left).failures ≡ one_more (W.state writer.old).failures) }
    {
        let content = ContentOut::start(writer, rate, channels, frames)?;
        Ok(WavOut::over(writer, content))
    }

    /// Returns a file whose `content` goes on to `writer`.
    pub fn over(writer: &'a mut W, content: ContentOut) -> WavOut<'a, W>
        ensures same_writer { writer_name result ≡ writer.entry.ghost_name }
        ensures writer { writer_of result ≡ writer.old }
        ensures owed { owed result ≡ content }
    {
        WavOut { writer, content }
    }

    /// Returns how many frames are still to be written.
    pub fn missing(&self) -> u64
        ensures { result ≡ (owed self.now).missing }
    {
        self.content.missing()
    }

    /// Writes the next frames, interleaved in `samples`. Once the writer has failed, this writes nothing more and fails
    /// with `Write` again.
    pub fn put(&mut self, samples: &[i16]) -> Result<(), WavFault>
        requires whole { length samples.now % (owed self.old).channels ≡ 0 }
        requires missing { length samples.now ≤ (owed self.old).missing * (owed self.old).channels }
        ensures same_writer { writer_name self.new ≡ writer_name self.old }

        // The samples are written, or a prefix of their bytes if the writer fails.
        ensures writes { (owed self.old).spent ≡ false →
            Puts (W.state (writer_of self.old)).contents (W.state (writer_of self.new)).contents
            (sample_bytes samples.now) result }
        ensures counted { (owed self.old).spent ≡ false →
            (W.state (writer_of self.new)).failures ≡ failures_after result (W.state (writer_of self.old)).failures }

        // A failure is repeated, and the writer is not touched again.
        ensures repeats { (owed self.old).spent ≡ true →
            (result ≡ Err WavFault.Write) × (writer_of self.new ≡ writer_of self.old) }
        ensures owed { owed self.new ≡ owed_after (owed self.old) (length samples.now) result }
        ensures fault { IfErr result (λ e. e ≡ WavFault.Write) }
    {
        self.content.put(self.writer, samples)
    }

    /// Ends the file, and fails with `Write` if its writer failed. Nothing is written.
    pub fn end(self) -> Result<(), WavFault>
        requires { ((owed self).missing ≡ 0) ⊎ ((owed self).spent ≡ true) }
        ensures value { result ≡ end_result (owed self.entry).spent }
        ensures unwritten { self.exit.0.now ≡ writer_of self.entry }
    {
        let WavOut {
            writer: _writer,
            content,
        } = self;
        content.end()
    }
}
