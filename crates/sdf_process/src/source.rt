//! The source of a sound's frames.

ghost use Rattle.std.specs.Prelude.{◌≡◌, ◌≢◌, ◌+◌, ◌*◌, ◌≤◌, ℤ, List, length, Ok, Err, MatchResult, None};
ghost use Rattle.sdf_wav.specs.Device.{ReaderState};
ghost use Rattle.sdf_wav.specs.PiecesIn.{ContentInValue};
ghost use Rattle.sdf_wav.specs.declared.wav.TheConstants.{MAX_CHANNELS};
ghost use Rattle.sdf_process.specs.Sources.{reading_of, source_behind, ReadsBy, ReadsMore, Takes, TakesAll, TakesMore};

use crate::stages::read_content;
use sdf_faults::Fault;
use sdf_wav::{ContentIn, Reader, Wav};
use std::alloc::Global;

/// The source of a sound's frames.
#[derive(Drop)]
pub(crate) enum Source {
    /// The content of a file, which is next in the reader.
    Content(ContentIn),
    /// A sound that was read before. `taken` of its samples were taken.
    Decoded { sound: Wav, taken: usize },
}

/// Reads the next `frames` frames of `content`, and adds them to `kept`.
fn read_more<R: Reader>(
    alloc: Global,
    reader: &mut R,
    content: &mut ContentIn,
    frames: usize,
    mut kept: Vec<i16>,
) -> Result<Vec<i16>, Fault>
    requires unspoilt { content.old.fault ≡ None }
    requires sized { content.old.size ≢ 0xFFFFFFFF }
    requires enough { content.old.gone + 2 * (frames * content.old.channels) ≤ content.old.size }
    ensures { (c : ContentInValue) (before : List ℤ) (r : ReaderState) →
        content.old ≡ record c { gone = c.gone + 2 * length before } →
        ReadsBy c before r.remaining (R.state reader.old).remaining → (R.state reader.old).failures ≡ r.failures →
        MatchResult result
        (λ all. ReadsMore c before frames kept.items r (R.state reader.new) content.new (Ok all.items))
        (λ f. ReadsMore c before frames kept.items r (R.state reader.new) content.new (Err f)) }
{
    let samples = content.next(alloc, reader, frames)?;
    if kept.is_empty() {
        return Ok(samples);
    }
    kept.extend_from_slice(&samples)?;
    Ok(kept)
}

impl Source {
    /// Returns the sound's rate, in frames a second.
    pub(crate) fn rate(&self) -> u32
        ensures value { result ≡ (reading_of self.now).rate }
        ensures above_0 { 1 ≤ result }
    {
        match self {
            Source::Content(content) => content.rate(),
            Source::Decoded { sound, .. } => sound.rate(),
        }
    }

    /// Returns the samples in a frame.
    pub(crate) fn channels(&self) -> u16
        ensures value { result ≡ (reading_of self.now).channels }
        ensures above_0 { 1 ≤ result }
        ensures few { result ≤ MAX_CHANNELS }
    {
        match self {
            Source::Content(content) => content.channels(),
            Source::Decoded { sound, .. } => sound.channels(),
        }
    }

    /// Takes the next `frames` frames, and adds them to `kept`.
    pub(crate) fn take<R: Reader>(
        &mut self,
        alloc: Global,
        reader: &mut R,
        frames: usize,
        mut kept: Vec<i16>,
    ) -> Result<Vec<i16>, Fault>
        requires unspoilt { (reading_of self.old).fault ≡ None }
        requires sized { (reading_of self.old).size ≢ 0xFFFFFFFF }
        requires short { (reading_of self.old).size ≤ 0xFFFFFFFF }
        requires enough { let c = reading_of self.old in c.gone + 2 * (frames * c.channels) ≤ c.size }
        ensures { (first : Source) (before : List ℤ) (r : ReaderState) → self.old ≡ source_behind first before →
            Takes first before r.remaining (R.state reader.old).remaining →
            (R.state reader.old).failures ≡ r.failures →
            MatchResult result
            (λ all. TakesMore first before frames kept.items r (R.state reader.new) self.new (Ok all.items))
            (λ f. TakesMore first before frames kept.items r (R.state reader.new) self.new (Err f)) }
    {
        match self {
            Source::Content(content) => read_more(alloc, reader, content, frames, kept),
            Source::Decoded { sound, taken } => {
                let end = *taken + frames * usize::from(sound.channels());
                kept.extend_from_slice(&sound.samples()[*taken..end])?;
                *taken = end;
                Ok(kept)
            }
        }
    }

    /// Takes the whole sound.
    pub(crate) fn take_all<R: Reader>(self, alloc: Global, reader: &mut R) -> Result<Wav, Fault>
        requires unread { (reading_of self).gone ≡ 0 }
        requires unspoilt { (reading_of self).fault ≡ None }
        ensures { TakesAll self (R.state reader.old) (R.state reader.new) result }
    {
        match self {
            Source::Content(content) => read_content(alloc, reader, content),
            Source::Decoded { sound, .. } => Ok(sound),
        }
    }
}
