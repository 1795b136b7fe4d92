//! The input and output of a run: the frames of a source, and the frames that are made of them.

ghost use Rattle.std.specs.Prelude.{◌≡◌, ◌≤◌, ◌%◌, length, MatchResult, Err};
ghost use Rattle.sdf_wav.specs.declared.wav.TheConstants.{MAX_CHANNELS};
ghost use Rattle.sdf_wav.specs.Device.{ReaderState, WriterState};
ghost use Rattle.sdf_process.specs.Flows.{CanFlow, CanTurn, Flows, IsAhead, Progress, Start, StreamsFrom, TakesNext};
ghost use Rattle.sdf_process.specs.Flows.{TurnsAll, Writes};

use crate::source::Source;
use crate::writing::put_in_turn;
use sdf_faults::Fault;
use sdf_wav::{ContentOut, Reader, Wav, Writer};
use std::alloc::Global;
use std::mem;

/// The input and output of a run.
#[derive(Drop)]
pub(crate) struct Flow {
    pub(crate) source: Source,
    /// Frames that are still to be taken.
    pub(crate) left: usize,
    /// The most frames that are taken at a time.
    pub(crate) most: usize,
    /// Samples that were taken and not run yet.
    pub(crate) kept: Vec<i16>,
    /// Frames that were made and not written yet, as lists in their order.
    pub(crate) made: Vec<Vec<i16>>,
    /// Lists of frames that were written, kept for their memory.
    pub(crate) spare: Vec<Vec<i16>>,
    pub(crate) output: ContentOut,
}

impl Flow {
    /// Takes the kept samples out, as a sound of `rate` frames a second.
    pub(crate) fn take_kept(&mut self, alloc: Global, rate: u32, channels: u16) -> Wav
        requires rate { 1 ≤ rate }
        requires one { 1 ≤ channels }
        requires few { channels ≤ MAX_CHANNELS }
        requires whole { length self.old.kept.items % channels ≡ 0 }
        ensures sound { result ≡ record { rate = rate; channels = channels; samples = self.old.kept.items } }
        ensures stays { self.new ≡ record self.old { kept = self.new.kept } }
    {
        let kept = mem::replace(&mut self.kept, Vec::new(alloc));
        Wav::new(rate, channels, kept).unwrap()
    }

    /// Writes the frames that were made.
    pub(crate) fn write<W: Writer>(&mut self, alloc: Global, writer: &mut W) -> Result<(), Fault>
        requires { (b : Start) × (g : Progress) × (r : ReaderState) × CanFlow b
            × IsAhead b g self.old r (W.state writer.old) }
        ensures { (b : Start) (g : Progress) (r : ReaderState) → CanFlow b →
            IsAhead b g self.old r (W.state writer.old) →
            MatchResult result
            (λ x. Writes b g self.old self.new r (W.state writer.new))
            (λ f. StreamsFrom b r (W.state writer.new) (Err f)) }
    {
        put_in_turn(writer, &mut self.output, &self.made)?;
        self.spare = mem::replace(&mut self.made, Vec::new(alloc));
        Ok(())
    }

    /// Takes the next frames, at most `most` of them.
    fn take<R: Reader>(&mut self, alloc: Global, reader: &mut R) -> Result<(), Fault>
        requires { (b : Start) × (g : Progress) × (w : WriterState) × CanFlow b
            × Flows b g self.old.left self.old.source self.old.output (R.state reader.old) w }
        ensures { (b : Start) (g : Progress) (w : WriterState) → CanFlow b →
            Flows b g self.old.left self.old.source self.old.output (R.state reader.old) w →
            MatchResult result
            (λ x. TakesNext b g self.old self.new (R.state reader.new) w)
            (λ f. StreamsFrom b (R.state reader.new) w (Err f)) }
    {
        let many = self.most.min(self.left);
        let kept = mem::replace(&mut self.kept, Vec::new(alloc));
        self.kept = self.source.take(alloc, reader, many, kept)?;
        self.left -= many;
        Ok(())
    }

    /// Writes the frames that were made, and takes the next ones.
    pub(crate) fn write_and_take<R: Reader, W: Writer>(
        &mut self,
        alloc: Global,
        reader: &mut R,
        writer: &mut W,
    ) -> Result<(), Fault>
        requires { CanTurn self.old (R.state reader.old) (W.state writer.old) }
        ensures { TurnsAll self.old self.new (R.state reader.old) (R.state reader.new) (W.state writer.old)
            (W.state writer.new) result }
    {
        self.write(alloc, writer)?;
        self.take(alloc, reader)
    }
}
