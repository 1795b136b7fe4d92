//! Reading a WAV file.

ghost use Rattle.std.specs.Prelude.{◌≡◌, ℕ, List, Some, None, IfOk, IfErr, IsErrOf};
ghost use Rattle.sdf_wav.specs.declared.fault.FormatFault.{FormatFault};
ghost use Rattle.sdf_wav.specs.Device.{failures_after, Failed};
ghost use Rattle.sdf_wav.specs.Fault.{HasFault, Answers, Accepts, Refuses, IsReadingFault};
ghost use Rattle.sdf_wav.specs.Grammar.{IsWav};
ghost use Rattle.sdf_wav.specs.Sound.{Sound};
ghost use Rattle.sdf_wav.specs.PiecesIn.{AnswersBy, next_at};

use crate::content_in::ContentIn;
use crate::device::Reader;
use crate::fault::WavFault;
use crate::wav::Wav;
use crate::wav_in::WavIn;
use std::alloc::Global;

/// Reads a whole content in one piece.
fn read_content<R: Reader>(
    alloc: Global,
    reader: &mut R,
    content: ContentIn,
) -> Result<Wav, WavFault>
    requires { content.fault ≡ None }
    ensures bytes { AnswersBy (λ w. w.samples) (R.state reader.old).remaining (R.state reader.new).remaining
        (next_at content 18446744073709551615) result }
    ensures format { IfOk result (λ w. (w.rate ≡ content.rate) × (w.channels ≡ content.channels)) }
    ensures counted { (R.state reader.new).failures ≡ failures_after result (R.state reader.old).failures }
    ensures fault { IfErr result IsReadingFault }
{
    let format = content.format();
    let mut input = WavIn::over(alloc, reader, content);
    let samples = input.next(usize::MAX)?;
    Ok(Wav::of_format(format, samples))
}

/// Reads a WAV file up to the end of its data, and leaves the rest unread. After a fault, a prefix of the input was
/// read. Memory grows with the samples that have arrived, whatever size the file announces.
///
/// The format is RIFF/WAVE with 16-bit PCM samples, under the plain tag or the extensible one. A data size of
/// 0xFFFFFFFF was never filled in by its writer: that data goes to the end of the input.
pub fn read_wav<R: Reader>(alloc: Global, reader: &mut R) -> Result<Wav, WavFault>
    // The result is true of the input: it is a file of this sound and the rest is left, or it has this fault.
    ensures answers { Answers (R.state reader.old).remaining (R.state reader.new).remaining result }

    // Conversely, the sound or the fault of the input is returned, unless memory or the reader failed.
    ensures accepts { (input : List ℕ) (s : Sound) (rest : List ℕ) → (R.state reader.old).remaining ≡ Some input →
        IsWav input s rest → Accepts (R.state reader.new).remaining s rest result }
    ensures refuses { (input : List ℕ) (f : FormatFault) → (R.state reader.old).remaining ≡ Some input →
        HasFault input f →
        Refuses f result }

    // Whatever is known of the bytes, no other fault is returned.
    ensures fault { IfErr result IsReadingFault }

    // A failure of the reader is returned at once: no other call of it failed.
    ensures counted { (R.state reader.new).failures ≡ failures_after result (R.state reader.old).failures }
    ensures device { IsErrOf result WavFault.Read → Failed (R.state reader.old).failures (R.state reader.new).failures }
{
    let content = ContentIn::open(reader)?;
    read_content(alloc, reader, content)
}
