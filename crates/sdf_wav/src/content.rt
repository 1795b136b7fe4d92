//! The samples of a data chunk.

ghost use Rattle.std.specs.Prelude.{◌≡◌, ◌≤◌, ◌*◌, ◌/◌, ◌%◌, ◌++◌, ◌+◌, ◌⊎◌, min, length, OnOk, OnErr, IfOk, IfErr};
ghost use Rattle.sdf_wav.specs.Content.{Holds};
ghost use Rattle.sdf_wav.specs.PiecesIn.{IsSizedFault, open_piece, sized_piece};
ghost use Rattle.sdf_wav.specs.Device.{failures_after, widened, Known, LosesFront};
ghost use Rattle.sdf_wav.specs.Fault.{IsReadingFault};
ghost use Rattle.sdf_wav.specs.Sound.{pcm_samples};
ghost use Rattle.sdf_wav.specs.Steps.{Reads};

use crate::device::Reader;
use crate::fault::{FormatFault, ReadFault};
use crate::moving::fill;
use crate::wav::MAX_CHANNELS;
use byteorder::{ByteOrder, LittleEndian};
use std::alloc::{AllocError, Global};

/// Appends the samples of `bytes` to `samples`, one for two bytes. An odd last byte gives none.
fn push_samples(samples: &mut Vec<i16>, bytes: &[u8]) -> Result<(), AllocError>
    ensures ok { OnOk result (samples.new.items ≡ samples.old.items ++ pcm_samples bytes.now) }
    ensures count { OnOk result (length samples.new.items ≡ length samples.old.items + length bytes.now / 2) }
{
    let start = samples.len();
    let count = bytes.len() / 2;
    samples.resize(start + count, 0)?;
    LittleEndian::read_i16_into(&bytes[..2 * count], &mut samples[start..]);
    Ok(())
}

/// What was read of a content: the number of bytes, and their samples.
#[derive(Drop)]
struct Content {
    samples: Vec<i16>,
    bytes: u64,
}

/// Bytes read at a time.
const READ_PIECE: usize = 16_384;

/// Reads at most `limit` bytes in pieces, fewer only if the input ends. Memory grows only with the bytes that have
/// arrived.
fn read_samples<R: Reader>(alloc: Global, reader: &mut R, limit: u64) -> Result<Content, ReadFault>
    requires { limit % 2 ≡ 0 }
    ensures ok { IfOk result (λ x. Known (R.state reader.old).remaining (R.state reader.new).remaining
        (λ input left. Holds input left limit x.bytes x.samples.items)) }
    ensures err { OnErr result (Known (R.state reader.old).remaining (R.state reader.new).remaining LosesFront) }
    ensures fits { IfOk result (λ x. x.bytes ≤ limit) }
    ensures count { IfOk result (λ x. length x.samples.items ≡ x.bytes / 2) }
    ensures counted { (R.state reader.new).failures ≡ failures_after (widened result) (R.state reader.old).failures }
    ensures fault { IfErr result (λ e. (e ≡ ReadFault.Device) ⊎ (e ≡ ReadFault.OutOfMemory)) }
{
    let mut samples = Vec::new(alloc);
    let mut bytes = 0u64;
    let mut piece = [0u8; READ_PIECE];
    while bytes < limit {
        let want = (limit - bytes).min(READ_PIECE as u64) as usize;
        let part = &mut piece[..want];
        let got = fill(reader, part)?;
        push_samples(&mut samples, &part[..got])?;
        bytes += got as u64;
        if got < want {
            return Ok(Content { samples, bytes });
        }
    }
    Ok(Content { samples, bytes })
}

/// The data size of a file whose writer never filled it in. The data then goes to the end of the input.
pub const UNKNOWN_SIZE: u32 = 0xFFFF_FFFF;

/// The most bytes of data whose size was never filled in.
const MAX_BYTES: u64 = 4_294_967_294;

/// One sample more than `MAX_BYTES`.
const LIMIT: u64 = 4_294_967_296;

/// Reads at most `asked` bytes of data that goes to the end of the input. `gone` bytes of it were read before.
pub(crate) fn read_unsized<R: Reader>(
    alloc: Global,
    reader: &mut R,
    channels: u16,
    gone: u64,
    asked: u64,
) -> Result<Vec<i16>, ReadFault>
    requires low { 1 ≤ channels }
    requires high { channels ≤ MAX_CHANNELS }
    requires within { gone ≤ 4294967294 }
    requires whole { gone % 2 ≡ 0 }
    requires even { asked % 2 ≡ 0 }
    ensures bytes { Reads (λ v. v.items) (R.state reader.old).remaining (R.state reader.new).remaining
        (λ bytes. open_piece (2 * channels) gone (min asked (length bytes)) bytes) result }
    ensures whole { IfOk result (λ v. length v.items % channels ≡ 0) }
    ensures most { IfOk result (λ v. 2 * length v.items ≤ asked) }
    ensures fits { IfOk result (λ v. gone + 2 * length v.items ≤ 4294967294) }
    ensures counted { (R.state reader.new).failures ≡ failures_after (widened result) (R.state reader.old).failures }
    ensures fault { IfErr (widened result) IsReadingFault }
{
    let content = read_samples(alloc, reader, asked.min(LIMIT - gone))?;
    if gone + content.bytes > MAX_BYTES {
        return Err(ReadFault::Format(FormatFault::TooLong));
    }
    if content.bytes % u64::from(2 * channels) != 0 {
        return Err(ReadFault::Format(FormatFault::PartialFrame));
    }
    Ok(content.samples)
}

/// Reads `size` bytes of data of a known size.
pub(crate) fn read_sized<R: Reader>(
    alloc: Global,
    reader: &mut R,
    size: u64,
) -> Result<Vec<i16>, ReadFault>
    requires { size % 2 ≡ 0 }
    ensures bytes { Reads (λ v. v.items) (R.state reader.old).remaining (R.state reader.new).remaining
        (sized_piece size) result }
    ensures count { IfOk result (λ v. 2 * length v.items ≡ size) }
    ensures counted { (R.state reader.new).failures ≡ failures_after (widened result) (R.state reader.old).failures }
    ensures fault { IfErr (widened result) IsReadingFault }
    ensures cut { IfErr (widened result) IsSizedFault }
{
    let content = read_samples(alloc, reader, size)?;
    if content.bytes < size {
        return Err(ReadFault::Format(FormatFault::Truncated));
    }
    Ok(content.samples)
}
