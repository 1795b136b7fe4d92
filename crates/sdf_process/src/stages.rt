//! Stages of a run: writing the header of its output, and reading a whole content.

ghost use Rattle.std.specs.Prelude.{◌≡◌, ◌*◌, ◌≤◌, ◌<◌, false, length, None, IfOk};
ghost use Rattle.sdf_wav.specs.PiecesOut.{file_header};
ghost use Rattle.sdf_process.specs.Output.{AreIoRates};
ghost use Rattle.sdf_process.specs.Stages.{PutsBytes, ReadsContent};

use crate::io_rates::{IoRates, OutputSize};
use sdf_faults::Fault;
use sdf_wav::{ContentIn, ContentOut, Reader, Wav, Writer};
use std::alloc::Global;

/// Writes the header of an output.
pub(crate) fn write_header<W: Writer>(
    writer: &mut W,
    io: IoRates,
    output_size: OutputSize,
) -> Result<ContentOut, Fault>
    requires limits { AreIoRates io }
    requires some_rate { 0 < output_size.rate }
    requires few_bytes_a_second { output_size.rate * (2 * io.outputs) ≤ 4294967295 }
    requires few_bytes { 2 * (output_size.periods * io.made * io.outputs) ≤ 4294967259 }
    ensures puts { PutsBytes (W.state writer.old) (W.state writer.new)
        (file_header output_size.rate io.outputs (output_size.periods * io.made)) result }
    ensures owed { IfOk result (λ o. o ≡ record {
      channels = io.outputs;
      missing = output_size.periods * io.made;
      spent = false;
    }) }
{
    let frames = u64::from(output_size.periods) * io.made as u64;
    Ok(ContentOut::start(
        writer,
        u64::from(output_size.rate),
        io.outputs as u16,
        frames,
    )?)
}

/// Reads a whole content.
pub(crate) fn read_content<R: Reader>(
    alloc: Global,
    reader: &mut R,
    mut content: ContentIn,
) -> Result<Wav, Fault>
    requires unread { content.gone ≡ 0 }
    requires unspoilt { content.fault ≡ None }
    ensures reads { ReadsContent content (R.state reader.old) (R.state reader.new) result }
    ensures few { IfOk result (λ s. 2 * length s.samples ≤ 0xFFFFFFFF) }
{
    let samples = content.next(alloc, reader, usize::MAX)?;
    Ok(Wav::new(content.rate(), content.channels(), samples)?)
}
