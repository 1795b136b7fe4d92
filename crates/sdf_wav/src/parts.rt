//! The parts of a WAV file, each read from its first bytes.

ghost use Rattle.std.specs.Prelude.{◌≡◌, ◌≤◌, Bool, length, IfOk, IfErr};
ghost use Rattle.sdf_wav.specs.declared.parts.ChunkKind.{ChunkKind};
ghost use Rattle.sdf_wav.specs.declared.parts.ChunkHeader.{ChunkHeader};
ghost use Rattle.sdf_wav.specs.Fault.{IsInputFault};
ghost use Rattle.sdf_wav.specs.Format.{IsFormat, IsKnown};
ghost use Rattle.sdf_wav.specs.Parts.{riff_of, kind_of, header_of, fields_of, is_pcm16, format_of, data_start};

use crate::fault::FormatFault;
use crate::format::Format;
use crate::wav::MAX_CHANNELS;
use byteorder::{ByteOrder, LittleEndian};

/// What a chunk is for.
#[derive(Clone, Copy, Debug, PartialEq, Eq)]
pub(crate) enum ChunkKind {
    Format,
    Data,
    Other,
}

/// The first eight bytes of a chunk.
#[derive(Clone, Copy, Debug, PartialEq, Eq)]
pub(crate) struct ChunkHeader {
    pub(crate) kind: ChunkKind,
    pub(crate) size: u32,
}

/// Where the data begins: its format, and the size that its chunk gives.
#[derive(Clone, Copy, Debug, PartialEq, Eq)]
pub(crate) struct DataStart {
    pub(crate) format: Format,
    pub(crate) size: u32,
}

/// The tag of an extensible format, whose real tag is later, in a longer chunk.
pub const EXTENSIBLE_TAG: u16 = 0xFFFE;

const PCM: u16 = 1;

const PCM_GUID: [u8; 16] = [
    0x01, 0x00, 0x00, 0x00, 0x00, 0x00, 0x10, 0x00, 0x80, 0x00, 0x00, 0xAA, 0x00, 0x38, 0x9B, 0x71,
];

/// Checks the first twelve bytes of a file, or all of them if it has fewer.
pub(crate) fn riff_of(front: &[u8]) -> Result<(), FormatFault>
    ensures value { result ≡ riff_of front.now }
    ensures fault { IfErr result IsInputFault }
{
    if front.len() < 4 {
        return Err(FormatFault::Truncated);
    }
    if &front[..4] != b"RIFF".as_slice() {
        return Err(FormatFault::NotRiff);
    }
    if front.len() < 12 {
        return Err(FormatFault::Truncated);
    }
    if &front[8..12] != b"WAVE".as_slice() {
        return Err(FormatFault::NotWave);
    }
    Ok(())
}

fn kind_of(id: &[u8]) -> ChunkKind
    ensures { result ≡ kind_of id.now }
{
    if id == b"data".as_slice() {
        ChunkKind::Data
    } else if id == b"fmt ".as_slice() {
        ChunkKind::Format
    } else {
        ChunkKind::Other
    }
}

/// Returns the chunk header in `front`: the first eight bytes at the place of a chunk, or all that are left. Fails with
/// `Truncated` if some are left, but fewer than eight. If none is left, the fault is `NoData` if there was a format
/// (`has_format`), otherwise `NoFormat`.
pub(crate) fn header_of(has_format: bool, front: &[u8]) -> Result<ChunkHeader, FormatFault>
    ensures value { result ≡ header_of has_format front.now }
    ensures fault { IfErr result IsInputFault }
{
    if front.is_empty() {
        return Err(if has_format {
            FormatFault::NoData
        } else {
            FormatFault::NoFormat
        });
    }
    if front.len() < 8 {
        return Err(FormatFault::Truncated);
    }
    Ok(ChunkHeader {
        kind: kind_of(&front[..4]),
        size: LittleEndian::read_u32(&front[4..]),
    })
}

/// The numbers of a format chunk that are looked at.
#[derive(Clone, Copy, Debug, PartialEq, Eq)]
struct Fields {
    tag: u16,
    channels: u16,
    rate: u32,
    align: u16,
    bits: u16,
}

fn fields_of(content: &[u8]) -> Fields
    requires { 16 ≤ length content.now }
    ensures { result ≡ fields_of content.now }
{
    Fields {
        tag: LittleEndian::read_u16(content),
        channels: LittleEndian::read_u16(&content[2..]),
        rate: LittleEndian::read_u32(&content[4..]),
        align: LittleEndian::read_u16(&content[12..]),
        bits: LittleEndian::read_u16(&content[14..]),
    }
}

fn is_pcm16(fields: Fields, content: &[u8]) -> bool
    requires { fields.tag ≡ 0xFFFE → 40 ≤ length content.now }
    ensures { result ≡ is_pcm16 fields content.now }
{
    fields.bits == 16
        && (fields.tag == PCM
            || fields.tag == EXTENSIBLE_TAG && &content[24..40] == PCM_GUID.as_slice())
}

/// Returns the format in `content`: the content of a format chunk, or its first 40 bytes.
#[tactic(auto, unfolding(crate::specs::Parts::format_of))]
pub(crate) fn format_of(content: &[u8]) -> Result<Format, FormatFault>
    requires { 16 ≤ length content.now }
    ensures value { result ≡ format_of content.now }
    ensures valid { IfOk result IsFormat }
    ensures fault { IfErr result IsInputFault }
{
    let fields = fields_of(content);
    if fields.tag == EXTENSIBLE_TAG && content.len() < 40 {
        return Err(FormatFault::ShortFormat);
    }
    if !is_pcm16(fields, content) {
        return Err(FormatFault::NotPcm16);
    }
    if fields.channels == 0 || fields.channels > MAX_CHANNELS {
        return Err(FormatFault::Channels);
    }
    if fields.rate == 0 {
        return Err(FormatFault::RateZero);
    }
    if fields.align != 2 * fields.channels {
        return Err(FormatFault::BadAlign);
    }
    Ok(Format {
        rate: fields.rate,
        channels: fields.channels,
    })
}

/// Returns where the data begins, in a chunk of `size` bytes behind the format `seen`. Fails with `NoFormat` if there
/// was none.
pub(crate) fn data_start(seen: Option<Format>, size: u32) -> Result<DataStart, FormatFault>
    requires { IsKnown seen }
    ensures value { result ≡ data_start seen size }
    ensures valid { IfOk result (λ start. IsFormat start.format) }
    ensures fault { IfErr result IsInputFault }
{
    match seen {
        None => Err(FormatFault::NoFormat),
        Some(format) => Ok(DataStart { format, size }),
    }
}
