//! The content of a file that is read in pieces.

ghost use Rattle.std.specs.Prelude.{◌≡◌, ◌≢◌, ◌≤◌, ◌+◌, ◌*◌, ◌%◌, ℕ, List, Option, Some, None, length, IfOk, IfErr};
ghost use Rattle.std.specs.Prelude.{IsErrOf, Err};
ghost use Rattle.sdf_wav.specs.declared.fault.FormatFault.{FormatFault};
ghost use Rattle.sdf_wav.specs.declared.fault.WavFault.{WavFault};
ghost use Rattle.sdf_wav.specs.declared.format.Format.{Format};
ghost use Rattle.sdf_wav.specs.declared.wav.TheConstants.{MAX_CHANNELS};
ghost use Rattle.sdf_wav.specs.Device.{failures_after, widened, Failed};
ghost use Rattle.sdf_wav.specs.Fault.{HasFault, IsOpeningFault, IsReadingFault};
ghost use Rattle.sdf_wav.specs.PiecesIn.{IsReading, IsPiece, IsWithin, IsSizedFault, Opens, AnswersOpening, OpensTo};
ghost use Rattle.sdf_wav.specs.PiecesIn.{RefusesToOpen, AnswersBy, known_frames, next_at};
ghost use Rattle.sdf_wav.specs.Steps.{Reads};

use crate::chunks::open_data;
use crate::content::{UNKNOWN_SIZE, read_sized, read_unsized};
use crate::device::Reader;
use crate::fault::{ReadFault, WavFault};
use crate::format::Format;
use std::alloc::Global;
use std::marker::Model;

/// How far the content of a file was read, and the fault that occurred. It holds no reader: each call gets the reader
/// that the file was opened from.
#[derive(Debug, Drop)]
pub struct ContentIn {
    format: Format,
    size: u32,
    gone: u64,
    fault: Option<WavFault>,
}

impl Model for ContentIn {
    ghost use Rattle.sdf_wav.specs.PiecesIn.{ContentInValue, IsReading};

    ghost Value = { ContentInValue };

    ghost view = { λ c. record {
      rate = c.format.rate;
      channels = c.format.channels;
      size = c.size;
      gone = c.gone;
      fault = c.fault;
    } };

    ghost invariant = { λ c. IsReading (record {
      rate = c.format.rate;
      channels = c.format.channels;
      size = c.size;
      gone = c.gone;
      fault = c.fault;
    }) };
}

/// More samples than any content has.
const OVER_ALL_SAMPLES: u64 = 2_147_483_648;

impl ContentIn {
    /// Reads a file up to the size of its data, and leaves the content unread. Fails with any fault before the content,
    /// and with `PartialFrame` if the size is known and not a whole number of frames.
    pub fn open<R: Reader>(reader: &mut R) -> Result<ContentIn, WavFault>
        // The result is true of the input: it opens and its content is left, or it has this fault before its content.
        ensures answers { AnswersOpening (R.state reader.old).remaining (R.state reader.new).remaining result }

        // Conversely, the opening or the fault of the input is returned, unless the reader failed.
        ensures accepts { (input : List ℕ) (f : Format) (size : ℕ) (rest : List ℕ) →
            (R.state reader.old).remaining ≡ Some input → Opens input f size rest →
            OpensTo (R.state reader.new).remaining f size rest result }
        ensures refuses { (input : List ℕ) (f : FormatFault) → (R.state reader.old).remaining ≡ Some input →
            HasFault input f →
            ((g : Format) (size : ℕ) (rest : List ℕ) → Opens input g size rest → ⊥) → RefusesToOpen f result }

        // Whatever is known of the bytes, the content is at its start, and no other fault is returned. It takes no
        // memory.
        ensures start { IfOk result (λ c. (c.gone ≡ 0) × (c.fault ≡ None)) }
        ensures sound { IfOk result IsReading }
        ensures fault { IfErr result IsOpeningFault }

        // A failure of the reader is returned at once: no other call of it failed.
        ensures counted { (R.state reader.new).failures ≡ failures_after result (R.state reader.old).failures }
        ensures device { IsErrOf result WavFault.Read →
            Failed (R.state reader.old).failures (R.state reader.new).failures }
    {
        let start = open_data(reader)?;
        Ok(ContentIn {
            format: start.format,
            size: start.size,
            gone: 0,
            fault: None,
        })
    }

    /// Returns the rate in frames a second.
    pub fn rate(&self) -> u32
        ensures value { result ≡ self.now.rate }
        ensures above_0 { 1 ≤ result }
    {
        self.format.rate
    }

    /// Returns the number of channels: the samples in a frame.
    pub fn channels(&self) -> u16
        ensures value { result ≡ self.now.channels }
        ensures above_0 { 1 ≤ result }
        ensures few { result ≤ MAX_CHANNELS }
    {
        self.format.channels
    }

    /// Returns how many frames the whole content has, or `None` if the size of the data was never filled in.
    pub fn frames(&self) -> Option<usize>
        ensures { result ≡ known_frames self.now }
    {
        if self.size == UNKNOWN_SIZE {
            return None;
        }
        Some((self.size / u32::from(2 * self.format.channels)) as usize)
    }

    /// Returns the rate and the number of channels.
    pub(crate) fn format(&self) -> Format
        ensures value { result ≡ record { rate = self.now.rate; channels = self.now.channels } }
        ensures sound { IsReading self.now }
    {
        self.format
    }

    /// Reads the next `frames` frames, or all that are left if they are fewer.
    fn read<R: Reader>(
        &self,
        alloc: Global,
        reader: &mut R,
        frames: usize,
    ) -> Result<Vec<i16>, ReadFault>
        ensures bytes { Reads (λ v. v.items) (R.state reader.old).remaining (R.state reader.new).remaining
            (next_at self.now frames) result }
        ensures piece { IfOk result (λ v. IsPiece self.now frames (length v.items)) }
        ensures within { IfOk result (λ v. IsWithin (2 * self.now.channels) self.now.size
            (self.now.gone + 2 * length v.items)) }
        ensures counted { (R.state reader.new).failures ≡
            failures_after (widened result) (R.state reader.old).failures }
        ensures fault { IfErr (widened result) IsReadingFault }
        ensures cut { self.now.size ≢ 0xFFFFFFFF → IfErr (widened result) IsSizedFault }
    {
        let samples = (frames as u64).saturating_mul(u64::from(self.format.channels));
        let asked = 2 * samples.min(OVER_ALL_SAMPLES);
        if self.size == UNKNOWN_SIZE {
            return read_unsized(alloc, reader, self.format.channels, self.gone, asked);
        }
        let left = u64::from(self.size) - self.gone;
        read_sized(alloc, reader, asked.min(left))
    }

    /// Reads the next `frames` frames and returns their samples, interleaved: fewer only at the content's end, and none
    /// after it. After a fault nothing more is read, and every call fails with that fault.
    ///
    /// Fails with `Truncated` if the size of the data is known and the input ends within these frames. If the size is
    /// not known, it fails with `TooLong` if a byte of these frames is past the first 4,294,967,294 bytes of the
    /// content. Otherwise it fails with `PartialFrame` if the input ends within one of them.
    pub fn next<R: Reader>(
        &mut self,
        alloc: Global,
        reader: &mut R,
        frames: usize,
    ) -> Result<Vec<i16>, WavFault>
        // These are the samples before the reader, or the fault among them. What is behind them is left.
        ensures bytes { self.old.fault ≡ None → AnswersBy (λ v. v.items) (R.state reader.old).remaining
            (R.state reader.new).remaining (next_at self.old frames) result }
        ensures counted { self.old.fault ≡ None → (R.state reader.new).failures ≡
            failures_after result (R.state reader.old).failures }
        ensures piece { IfOk result (λ v. IsPiece self.old frames (length v.items)) }

        // A fault is repeated, and the reader is not touched again.
        ensures repeats { (e : WavFault) → self.old.fault ≡ Some e → (result ≡ Err e) × (reader.new ≡ reader.old) }

        // The bytes that were read are gone, and a fault stays.
        ensures goes_on { IfOk result (λ v. self.new ≡ record self.old { gone = self.old.gone + 2 * length v.items }) }
        ensures stops { IfErr result (λ e. self.new ≡ record self.old { fault = Some e }) }
        ensures fault { IfErr result IsReadingFault }
        ensures cut { self.old.fault ≡ None → self.old.size ≢ 0xFFFFFFFF → IfErr result IsSizedFault }
        ensures sound { IsReading self.new }
    {
        if let Some(fault) = self.fault {
            return Err(fault);
        }
        match self.read(alloc, reader, frames) {
            Ok(samples) => {
                self.gone += 2 * samples.len() as u64;
                Ok(samples)
            }
            Err(fault) => {
                let fault = WavFault::from(fault);
                self.fault = Some(fault);
                Err(fault)
            }
        }
    }
}
