//! A file that is read in pieces.

ghost use Rattle.std.specs.Prelude.{◌≡◌, ◌≢◌, ◌≤◌, ◌+◌, ◌*◌, ◌%◌, ℕ, List, Option, Some, None, [], length, IfOk, IfErr};
ghost use Rattle.std.specs.Prelude.{IsErrOf, Err};
ghost use Rattle.sdf_wav.specs.declared.fault.WavFault.{WavFault};
ghost use Rattle.sdf_wav.specs.declared.wav.TheConstants.{MAX_CHANNELS};
ghost use Rattle.sdf_wav.specs.Device.{failures_after, one_more, Known, LosesFront};
ghost use Rattle.sdf_wav.specs.Fault.{IsOpeningFault, IsReadingFault};
ghost use Rattle.sdf_wav.specs.PiecesIn.{IsReading, IsPiece, IsReadTo, IsSizedFault, OpenFails, AnswersBy};
ghost use Rattle.sdf_wav.specs.PiecesIn.{known_frames, next_at};
ghost use Rattle.sdf_wav.specs.WavIn.{reader_of, reader_name, reading};

use crate::content_in::ContentIn;
use crate::device::Reader;
use crate::fault::WavFault;
use std::alloc::Global;

/// A file that is being read: its parts up to the size of its data were read, and its content is read in pieces.
#[derive(Drop)]
pub struct WavIn<'a, R> {
    alloc: Global,
    reader: &'a mut R,
    content: ContentIn,
}

impl<'a, R: Reader> WavIn<'a, R> {
    /// Reads a file up to the size of its data, and fails as [`ContentIn::open`] does. To know what the reader lost
    /// before a fault, call [`ContentIn::open`], which reads the same, and then [`WavIn::over`]. Memory for the pieces
    /// is taken from `alloc` later, and none here.
    pub fn open(alloc: Global, reader: &'a mut R) -> Result<WavIn<'a, R>, WavFault>
        ensures same_reader { IfOk result (λ w. reader_name w ≡ reader.entry.ghost_name) }
        ensures opens { IfOk result (λ w. Known (R.state reader.old).remaining (R.state (reader_of w)).remaining
            (λ input left. IsReadTo input (reading w) [] left × LosesFront input left)) }
        ensures start { IfOk result (λ w. ((reading w).gone ≡ 0) × ((reading w).fault ≡ None)) }
        ensures counted { IfOk result (λ w. (R.state (reader_of w)).failures ≡ (R.state reader.old).failures) }
        ensures sound { IfOk result (λ w. IsReading (reading w)) }
        ensures refuses { IfErr result (OpenFails (R.state reader.old).remaining) }
        ensures fault { IfErr result IsOpeningFault }

        // If the fault is `Read`, some reader was left that had failed once more: a body that reads nothing has none.
        ensures device { IsErrOf result WavFault.Read →
            (left : R) × ((R.state left).failures ≡ one_more (R.state reader.old).failures) }
    {
        let content = ContentIn::open(reader)?;
        Ok(WavIn::over(alloc, reader, content))
    }

    /// Returns a file whose `content` goes on in `reader`.
    pub fn over(alloc: Global, reader: &'a mut R, content: ContentIn) -> WavIn<'a, R>
        ensures same_reader { reader_name result ≡ reader.entry.ghost_name }
        ensures reader { reader_of result ≡ reader.old }
        ensures reading { reading result ≡ content }
    {
        WavIn {
            alloc,
            reader,
            content,
        }
    }

    /// Returns the rate in frames a second.
    pub fn rate(&self) -> u32
        ensures value { result ≡ (reading self.now).rate }
        ensures above_0 { 1 ≤ result }
    {
        self.content.rate()
    }

    /// Returns the number of channels: the samples in a frame.
    pub fn channels(&self) -> u16
        ensures value { result ≡ (reading self.now).channels }
        ensures above_0 { 1 ≤ result }
        ensures few { result ≤ MAX_CHANNELS }
    {
        self.content.channels()
    }

    /// Returns how many frames the whole content has, or `None` if the size of the data was never filled in.
    pub fn frames(&self) -> Option<usize>
        ensures { result ≡ known_frames (reading self.now) }
    {
        self.content.frames()
    }

    /// Reads the next `frames` frames and returns their samples, interleaved: fewer only at the content's end, and none
    /// after it. Fails as [`ContentIn::next`] does, and then with that fault at every call.
    pub fn next(&mut self, frames: usize) -> Result<Vec<i16>, WavFault>
        ensures same_reader { reader_name self.new ≡ reader_name self.old }

        // These are the samples before the reader, or the fault among them. What is behind them is left.
        ensures bytes { (reading self.old).fault ≡ None →
            AnswersBy (λ v. v.items) (R.state (reader_of self.old)).remaining (R.state (reader_of self.new)).remaining
            (next_at (reading self.old) frames) result }
        ensures counted { (reading self.old).fault ≡ None →
            (R.state (reader_of self.new)).failures ≡ failures_after result (R.state (reader_of self.old)).failures }
        ensures piece { IfOk result (λ v. IsPiece (reading self.old) frames (length v.items)) }

        // A fault is repeated, and the reader is not touched again.
        ensures repeats { (e : WavFault) → (reading self.old).fault ≡ Some e →
            (result ≡ Err e) × (reader_of self.new ≡ reader_of self.old) }

        // The bytes that were read are gone, and a fault stays.
        ensures goes_on { IfOk result (λ v. reading self.new ≡
            record (reading self.old) { gone = (reading self.old).gone + 2 * length v.items }) }
        ensures stops { IfErr result (λ e. reading self.new ≡ record (reading self.old) { fault = Some e }) }
        ensures fault { IfErr result IsReadingFault }
        ensures cut { (reading self.old).fault ≡ None → (reading self.old).size ≢ 0xFFFFFFFF →
            IfErr result IsSizedFault }
        ensures sound { IsReading (reading self.new) }
    {
        self.content.next(self.alloc, self.reader, frames)
    }
}
