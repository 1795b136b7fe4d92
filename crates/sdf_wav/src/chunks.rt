//! The chunks of a WAV file, read from left to right up to its samples.

ghost use Rattle.std.specs.Prelude.{◌≡◌, ◌≤◌, ◌*◌, ◌%◌, ℕ, Option, Some, None, length, IfOk, IfErr};
ghost use Rattle.sdf_wav.specs.Device.{failures_after, widened};
ghost use Rattle.sdf_wav.specs.Fault.{IsOpeningFault};
ghost use Rattle.sdf_wav.specs.Format.{IsFormat, IsKnown, IsStep};
ghost use Rattle.sdf_wav.specs.Steps.{Reads, riff_at, header_at, front_at, skip_at, pad_at, skipped_at, looked_at};
ghost use Rattle.sdf_wav.specs.Steps.{pcm_at, format_at, passed_at, is_some, step_at, last_at, data_at, open_at};
ghost use Rattle.sdf_wav.specs.PiecesIn.{IsWithin};

use crate::content::UNKNOWN_SIZE;
use crate::device::Reader;
use crate::fault::{FormatFault, ReadFault};
use crate::format::Format;
use crate::moving::{fill, skip};
use crate::parts::{ChunkHeader, ChunkKind, DataStart, data_start, format_of, header_of, riff_of};

/// Reads the first twelve bytes and checks them.
fn read_riff<R: Reader>(reader: &mut R) -> Result<(), ReadFault>
    ensures bytes { Reads (λ x. x) (R.state reader.old).remaining (R.state reader.new).remaining riff_at result }
    ensures counted { (R.state reader.new).failures ≡ failures_after (widened result) (R.state reader.old).failures }
    ensures fault { IfErr (widened result) IsOpeningFault }
{
    let mut front = [0u8; 12];
    let n = fill(reader, &mut front)?;
    riff_of(&front[..n])?;
    Ok(())
}

/// Reads the header of a chunk, eight bytes. Fails with `Truncated` if the input ends within them. If it ends before
/// them, the fault is `NoData` if `has_format`, otherwise `NoFormat`.
fn read_header<R: Reader>(reader: &mut R, has_format: bool) -> Result<ChunkHeader, ReadFault>
    ensures bytes { Reads (λ x. x) (R.state reader.old).remaining (R.state reader.new).remaining
        (header_at has_format) result }
    ensures counted { (R.state reader.new).failures ≡ failures_after (widened result) (R.state reader.old).failures }
    ensures fault { IfErr (widened result) IsOpeningFault }
{
    let mut front = [0u8; 8];
    let n = fill(reader, &mut front)?;
    Ok(header_of(has_format, &front[..n])?)
}

/// Fills `buf`. Fails with `Truncated` if the input ends.
fn read_front<R: Reader>(reader: &mut R, buf: &mut [u8]) -> Result<(), ReadFault>
    ensures bytes { Reads (λ _. buf.new) (R.state reader.old).remaining (R.state reader.new).remaining
        (front_at (length buf.old)) result }
    ensures counted { (R.state reader.new).failures ≡ failures_after (widened result) (R.state reader.old).failures }
    ensures fault { IfErr (widened result) IsOpeningFault }
{
    let n = fill(reader, buf)?;
    if n < buf.len() {
        return Err(ReadFault::Format(FormatFault::Truncated));
    }
    Ok(())
}

/// Skips `size` bytes. Fails with `Truncated` if the input ends.
fn skip_exactly<R: Reader>(reader: &mut R, size: u64) -> Result<(), ReadFault>
    ensures bytes { Reads (λ x. x) (R.state reader.old).remaining (R.state reader.new).remaining (skip_at size) result }
    ensures counted { (R.state reader.new).failures ≡ failures_after (widened result) (R.state reader.old).failures }
    ensures fault { IfErr (widened result) IsOpeningFault }
{
    let n = skip(reader, size)?;
    if n < size {
        return Err(ReadFault::Format(FormatFault::Truncated));
    }
    Ok(())
}

/// Skips the pad byte behind a content of `size` bytes if the size is odd. At the end of the input it may be missing.
fn skip_pad<R: Reader>(reader: &mut R, size: u32) -> Result<(), ReadFault>
    ensures bytes { Reads (λ x. x) (R.state reader.old).remaining (R.state reader.new).remaining (pad_at size) result }
    ensures counted { (R.state reader.new).failures ≡ failures_after (widened result) (R.state reader.old).failures }
    ensures fault { IfErr result (λ e. e ≡ ReadFault.Device) }
{
    skip(reader, u64::from(size % 2))?;
    Ok(())
}

/// Skips a content of `size` bytes, and its pad byte.
fn skip_content<R: Reader>(reader: &mut R, size: u32) -> Result<(), ReadFault>
    ensures bytes { Reads (λ x. x) (R.state reader.old).remaining (R.state reader.new).remaining
        (skipped_at size) result }
    ensures counted { (R.state reader.new).failures ≡ failures_after (widened result) (R.state reader.old).failures }
    ensures fault { IfErr (widened result) IsOpeningFault }
{
    skip_exactly(reader, u64::from(size))?;
    skip_pad(reader, size)
}

/// Reads a content of `size` bytes. Its first bytes fill `front`, and the others are skipped.
#[tactic(auto, unfolding(crate::specs::Steps::looked_at))]
fn read_and_skip<R: Reader>(reader: &mut R, front: &mut [u8], size: u32) -> Result<(), ReadFault>
    requires { length front.old ≤ size }
    ensures bytes { Reads (λ _. front.new) (R.state reader.old).remaining (R.state reader.new).remaining
        (looked_at (length front.old) size) result }
    ensures counted { (R.state reader.new).failures ≡ failures_after (widened result) (R.state reader.old).failures }
    ensures fault { IfErr (widened result) IsOpeningFault }
{
    let len = front.len() as u64;
    read_front(reader, front)?;
    skip_exactly(reader, u64::from(size) - len)
}

/// Maximum bytes of a format chunk that are looked at.
const LONGEST_FORMAT: u32 = 40;

/// Reads the content of a format chunk.
#[tactic(auto, unfolding(crate::specs::Steps::pcm_at))]
fn read_pcm<R: Reader>(reader: &mut R, size: u32) -> Result<Format, ReadFault>
    requires { 16 ≤ size }
    ensures bytes { Reads (λ x. x) (R.state reader.old).remaining (R.state reader.new).remaining (pcm_at size) result }
    ensures counted { (R.state reader.new).failures ≡ failures_after (widened result) (R.state reader.old).failures }
    ensures fault { IfErr (widened result) IsOpeningFault }
    ensures valid { IfOk result IsFormat }
{
    let mut front = [0u8; 40];
    let len = size.min(LONGEST_FORMAT);
    let content = &mut front[..len as usize];
    read_and_skip(reader, content, size)?;
    Ok(format_of(content)?)
}

/// Reads the content of a format chunk, and its pad byte.
#[tactic(auto, unfolding(crate::specs::Steps::format_at))]
fn read_format<R: Reader>(reader: &mut R, size: u32) -> Result<Format, ReadFault>
    ensures bytes { Reads (λ x. x) (R.state reader.old).remaining (R.state reader.new).remaining
        (format_at size) result }
    ensures counted { (R.state reader.new).failures ≡ failures_after (widened result) (R.state reader.old).failures }
    ensures fault { IfErr (widened result) IsOpeningFault }
    ensures valid { IfOk result IsFormat }
{
    if size < 16 {
        return Err(ReadFault::Format(FormatFault::ShortFormat));
    }
    let format = read_pcm(reader, size)?;
    skip_pad(reader, size)?;
    Ok(format)
}

/// Passes a chunk before the data: reads the first format chunk, and skips any other. Returns the format known after
/// it.
fn read_or_skip<R: Reader>(
    reader: &mut R,
    header: ChunkHeader,
    seen: Option<Format>,
) -> Result<Option<Format>, ReadFault>
    requires { IsKnown seen }
    ensures bytes { Reads (λ x. x) (R.state reader.old).remaining (R.state reader.new).remaining
        (passed_at header.kind header.size seen) result }
    ensures counted { (R.state reader.new).failures ≡ failures_after (widened result) (R.state reader.old).failures }
    ensures fault { IfErr (widened result) IsOpeningFault }
    ensures valid { IfOk result IsKnown }
{
    match (header.kind, seen) {
        (ChunkKind::Format, None) => {
            let format = read_format(reader, header.size)?;
            Ok(Some(format))
        }
        _ => {
            skip_content(reader, header.size)?;
            Ok(seen)
        }
    }
}

/// What is at the place of a chunk: the data, or another chunk.
#[derive(Clone, Copy, Debug, PartialEq, Eq)]
enum Step {
    Data(DataStart),
    Passed(Option<Format>),
}

/// Reads what is at the place of a chunk. If it is the data, this stops before the samples.
#[tactic(auto, unfolding(crate::specs::Steps::step_at))]
fn read_chunk<R: Reader>(reader: &mut R, seen: Option<Format>) -> Result<Step, ReadFault>
    requires { IsKnown seen }
    ensures bytes { Reads (λ x. x) (R.state reader.old).remaining (R.state reader.new).remaining (step_at seen) result }
    ensures counted { (R.state reader.new).failures ≡ failures_after (widened result) (R.state reader.old).failures }
    ensures fault { IfErr (widened result) IsOpeningFault }
    ensures valid { IfOk result IsStep }
{
    let header = read_header(reader, seen.is_some())?;
    match header.kind {
        ChunkKind::Data => {
            let start = data_start(seen, header.size)?;
            Ok(Step::Data(start))
        }
        _ => {
            let now = read_or_skip(reader, header, seen)?;
            Ok(Step::Passed(now))
        }
    }
}

/// Reads the header of the data at a place where no other chunk is accepted. Fails with `TooLong` at another chunk.
#[tactic(auto, unfolding(crate::specs::Steps::last_at))]
fn read_data_header<R: Reader>(reader: &mut R, seen: Option<Format>) -> Result<DataStart, ReadFault>
    requires { IsKnown seen }
    ensures bytes { Reads (λ x. x) (R.state reader.old).remaining (R.state reader.new).remaining (last_at seen) result }
    ensures counted { (R.state reader.new).failures ≡ failures_after (widened result) (R.state reader.old).failures }
    ensures fault { IfErr (widened result) IsOpeningFault }
    ensures valid { IfOk result (λ start. IsFormat start.format) }
{
    let header = read_header(reader, seen.is_some())?;
    match header.kind {
        ChunkKind::Data => Ok(data_start(seen, header.size)?),
        _ => Err(ReadFault::Format(FormatFault::TooLong)),
    }
}

/// The most chunks before the data.
const MAX_CHUNKS: u32 = 65_536;

/// Reads up to the samples.
fn find_data<R: Reader>(reader: &mut R) -> Result<DataStart, ReadFault>
    ensures bytes { Reads (λ x. x) (R.state reader.old).remaining (R.state reader.new).remaining
        (data_at 65536 None) result }
    ensures counted { (R.state reader.new).failures ≡ failures_after (widened result) (R.state reader.old).failures }
    ensures fault { IfErr (widened result) IsOpeningFault }
    ensures valid { IfOk result (λ start. IsFormat start.format) }
{
    let mut seen = None;
    for _ in 0..MAX_CHUNKS {
        match read_chunk(reader, seen)? {
            Step::Data(start) => return Ok(start),
            Step::Passed(now) => seen = now,
        }
    }
    read_data_header(reader, seen)
}

/// Reads a file up to the size of its data. A known size must be whole frames.
#[tactic(auto, unfolding(crate::specs::Steps::open_at))]
pub(crate) fn open_data<R: Reader>(reader: &mut R) -> Result<DataStart, ReadFault>
    ensures bytes { Reads (λ x. x) (R.state reader.old).remaining (R.state reader.new).remaining open_at result }
    ensures counted { (R.state reader.new).failures ≡ failures_after (widened result) (R.state reader.old).failures }
    ensures fault { IfErr (widened result) IsOpeningFault }
    ensures valid { IfOk result (λ start. IsFormat start.format) }
    ensures whole { IfOk result (λ start. IsWithin (2 * start.format.channels) start.size 0) }
{
    read_riff(reader)?;
    let start = find_data(reader)?;
    if start.size != UNKNOWN_SIZE && start.size % u32::from(2 * start.format.channels) != 0 {
        return Err(ReadFault::Format(FormatFault::PartialFrame));
    }
    Ok(start)
}
