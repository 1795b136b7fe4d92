//! The diagnostics of WAV files that are refused, from their first bytes.

use byteorder::{ByteOrder, LittleEndian};
use sdf_io::input::InputTrace;
use sdf_options::plural::plural;
use sdf_wav::{EXTENSIBLE_TAG, FormatFault, MAX_DATA_BYTES, UNKNOWN_SIZE};
use sdf_why::{Header, device_text};
use std::alloc::{AllocError, Global};

/// The first bytes of a WAV file.
#[derive(Clone, Copy)]
struct Front<'a> {
    bytes: &'a [u8],
    /// Whether the size of the samples does not count.
    open_ended: bool,
}

/// A chunk: the position of its content, and the size that its header gives.
#[derive(Clone, Copy)]
struct Chunk {
    at: usize,
    size: u32,
}

impl<'a> Front<'a> {
    /// Returns the 16-bit little-endian number at `at`.
    fn u16_at(self, at: usize) -> Option<u32> {
        let bytes = self.bytes.get(at..at.checked_add(2)?)?;
        Some(u32::from(LittleEndian::read_u16(bytes)))
    }

    /// Returns the 32-bit little-endian number at `at`.
    fn u32_at(self, at: usize) -> Option<u32> {
        let bytes = self.bytes.get(at..at.checked_add(4)?)?;
        Some(LittleEndian::read_u32(bytes))
    }

    /// Returns the 4 bytes at `at`.
    fn id(self, at: usize) -> Option<&'a [u8]> {
        self.bytes.get(at..at.checked_add(4)?)
    }

    /// Returns the first chunk with this `id`, if its header is among the first bytes.
    fn chunk(self, id: &[u8]) -> Option<Chunk> {
        let mut at = 12usize;
        for _ in 0..self.bytes.len() {
            let size = self.u32_at(at.checked_add(4)?)?;
            let content = at.checked_add(8)?;
            if self.id(at)? == id {
                return Some(Chunk { at: content, size });
            }
            at = content
                .checked_add(size as usize)?
                .checked_add(size as usize % 2)?;
        }
        None
    }

    /// Returns the chunk of the format.
    fn format(self) -> Option<Chunk> {
        self.chunk(b"fmt ".as_slice())
    }

    /// Returns the chunk of the samples.
    fn data(self) -> Option<Chunk> {
        let Chunk { at, size } = self.chunk(b"data".as_slice())?;
        let size = if self.open_ended { UNKNOWN_SIZE } else { size };
        Some(Chunk { at, size })
    }

    /// Returns the 16-bit number at `at` in the chunk of the format.
    fn format_field(self, at: usize) -> Option<u32> {
        self.u16_at(self.format()?.at.checked_add(at)?)
    }

    /// Returns the channels and the rate.
    fn header(self) -> Option<Header> {
        let format = self.format()?;
        Some(Header {
            channels: self.u16_at(format.at.checked_add(2)?)?,
            rate: self.u32_at(format.at.checked_add(4)?)?,
        })
    }

    /// Returns the format tag of the samples. An extensible format has it later in its chunk.
    fn tag(self) -> Option<u32> {
        let tag = self.format_field(0)?;
        if tag == u32::from(EXTENSIBLE_TAG) {
            self.format_field(24)
        } else {
            Some(tag)
        }
    }
}

/// Returns the first bytes of the WAV file of `trace`.
fn front_of(trace: &InputTrace) -> Front<'_> {
    Front {
        bytes: trace.front.as_slice(),
        open_ended: trace.open_ended,
    }
}

/// Returns the channels and the rate of a WAV file, if they are among its first bytes.
pub(crate) fn header_of(trace: &InputTrace) -> Option<Header> {
    front_of(trace).header()
}

/// Returns the text for a WAV file that has other bytes than `wanted` at `at`.
fn id_text(alloc: Global, front: Front<'_>, at: usize, wanted: &str) -> Result<String, AllocError> {
    let Some(bytes) = front.id(at) else {
        return Ok(String::new(alloc));
    };
    format!(in alloc;
        "has \"{}\" at byte {at}, needs \"{wanted}\"",
        bytes.escape_ascii()
    )
}

/// Returns the text for a WAV file without a chunk of the format before its samples.
fn missing_text(alloc: Global, front: Front<'_>, bytes: u64) -> Result<String, AllocError> {
    match front.data() {
        Some(Chunk { at, .. }) => {
            let begin = at.saturating_sub(8);
            format!(in alloc;
                "has its chunk \"data\" at byte {begin}, and no chunk \"fmt \" before it"
            )
        }
        None if front.bytes.len() as u64 == bytes => {
            format!(in alloc; "ends after {bytes} bytes, without a chunk \"fmt \"")
        }
        None => String::from_str(alloc, "has no chunk \"fmt \" before its samples"),
    }
}

/// Returns the text for a chunk of the format that is too short.
fn short_text(alloc: Global, front: Front<'_>) -> Result<String, AllocError> {
    let Some(Chunk { size, .. }) = front.format() else {
        return Ok(String::new(alloc));
    };
    let wanted = if size < 16 { 16 } else { 40 };
    format!(in alloc;
        "has a chunk \"fmt \" of {size} byte{}, needs {wanted}",
        plural(u64::from(size))
    )
}

/// Returns the name of the format with this `tag` if it is a common one, otherwise an empty text.
fn format_name(tag: u32) -> &'static str {
    match tag {
        1 => " (PCM)",
        2 => " (ADPCM)",
        3 => " (floating point)",
        6 => " (A-law)",
        7 => " (mu-law)",
        17 => " (IMA ADPCM)",
        85 => " (MP3)",
        _ => "",
    }
}

/// Returns the text for samples that are not 16-bit PCM.
fn samples_text(alloc: Global, front: Front<'_>) -> Result<String, AllocError> {
    let (Some(tag), Some(bits)) = (front.tag(), front.format_field(14)) else {
        return Ok(String::new(alloc));
    };
    if tag == 1 && bits == 16 {
        return String::from_str(
            alloc,
            "has samples of 16 bits in an extensible format other than PCM, needs 16 bits in format 1",
        );
    }
    let name = format_name(tag);
    format!(in alloc;
        "has samples of {bits} bit{} in format {tag}{name}, needs 16 bits in format 1",
        plural(u64::from(bits))
    )
}

/// Returns the text of the channels and the rate.
fn header_text(alloc: Global, front: Front<'_>) -> Result<String, AllocError> {
    let Some(Header { rate, channels }) = front.header() else {
        return Ok(String::new(alloc));
    };
    format!(in alloc;
        "has {rate} sample{} a second in {channels} channel{}",
        plural(u64::from(rate)),
        plural(u64::from(channels))
    )
}

/// Returns the text of the channels and the rate, followed by `wanted`.
fn wanted_text(alloc: Global, front: Front<'_>, wanted: &str) -> Result<String, AllocError> {
    let said = header_text(alloc, front)?;
    if said.is_empty() {
        return Ok(said);
    }
    let said = said.as_str();
    format!(in alloc; "{said}, {wanted}")
}

/// Returns the text for a size of frames that does not match the channels.
fn align_text(alloc: Global, front: Front<'_>) -> Result<String, AllocError> {
    let (Some(align), Some(channels)) = (front.format_field(12), front.format_field(2)) else {
        return Ok(String::new(alloc));
    };
    let wanted = channels.saturating_mul(2);
    format!(in alloc;
        "has frames of {align} byte{}, needs {wanted} for {channels} channel{}",
        plural(u64::from(align)),
        plural(u64::from(channels))
    )
}

/// The least data size that is taken for a placeholder, written by a program that does not know the size yet.
const STREAMED: u32 = 0x7FFF_0000;

/// Returns the end of a text about samples of `size` bytes, if that may be a placeholder.
fn streamed_hint(size: u32) -> &'static str {
    if size < STREAMED {
        ""
    } else {
        "; `run --open-ended` reads to the end"
    }
}

/// Checks whether the header of a sound says that it has no samples, and nothing behind them. A size that may be a
/// placeholder says nothing.
pub(crate) fn says_empty(trace: &InputTrace) -> bool {
    let front = front_of(trace);
    let (Some(all), Some(Chunk { at, size })) = (front.u32_at(4), front.data()) else {
        return false;
    };
    let end = u64::from(all).saturating_add(8);
    size == 0 && (end <= at as u64 || all >= STREAMED)
}

/// Returns the text for a WAV file that ends too early.
fn end_text(alloc: Global, front: Front<'_>, bytes: u64) -> Result<String, AllocError> {
    match front.data() {
        Some(Chunk { at, size }) if size != UNKNOWN_SIZE => {
            let whole = (at as u64).saturating_add(u64::from(size));
            format!(in alloc;
                "ends after {bytes} bytes, needs {whole}; `run --open-ended` reads to the end"
            )
        }
        _ => format!(in alloc; "ends after {bytes} byte{}", plural(bytes)),
    }
}

/// Returns the text for samples that are not whole frames.
fn frames_text(alloc: Global, front: Front<'_>, bytes: u64) -> Result<String, AllocError> {
    let (Some(data), Some(channels)) = (front.data(), front.format_field(2)) else {
        return Ok(String::new(alloc));
    };
    let samples = match data.size {
        UNKNOWN_SIZE => bytes.saturating_sub(data.at as u64),
        size => u64::from(size),
    };
    let frame = channels.saturating_mul(2);
    format!(in alloc;
        "has {samples} byte{} of samples, needs frames of {frame} bytes{}",
        plural(samples),
        streamed_hint(data.size)
    )
}

/// Returns the text for a WAV file that is too long, has too many chunks, or whose output would be too long.
fn length_text(alloc: Global, front: Front<'_>, bytes: u64) -> Result<String, AllocError> {
    match front.data() {
        Some(Chunk { size, .. }) if size != UNKNOWN_SIZE => {
            format!(in alloc;
                "has {size} bytes of samples, and an output has at most {MAX_DATA_BYTES}{}",
                streamed_hint(size)
            )
        }
        Some(_) => format!(in alloc; "has at least {bytes} bytes"),
        None => String::from_str(
            alloc,
            "has too many bytes of samples, or over 65,536 chunks before them",
        ),
    }
}

/// Returns the text about the contents of a WAV file with this `fault`, or no text if they are not known.
fn content_text(
    alloc: Global,
    fault: FormatFault,
    front: Front<'_>,
    bytes: u64,
) -> Result<String, AllocError> {
    match fault {
        FormatFault::NotRiff => id_text(alloc, front, 0, "RIFF"),
        FormatFault::NotWave => id_text(alloc, front, 8, "WAVE"),
        FormatFault::NoFormat => missing_text(alloc, front, bytes),
        FormatFault::ShortFormat => short_text(alloc, front),
        FormatFault::NotPcm16 => samples_text(alloc, front),
        FormatFault::BadAlign => align_text(alloc, front),
        FormatFault::NoData => format!(in alloc;
            "ends after {bytes} bytes, without a chunk \"data\""
        ),
        FormatFault::Truncated => end_text(alloc, front, bytes),
        FormatFault::PartialFrame => frames_text(alloc, front, bytes),
        FormatFault::TooLong => length_text(alloc, front, bytes),
        FormatFault::Channels => wanted_text(alloc, front, "needs 1 to 8 channels"),
        FormatFault::RateZero => wanted_text(alloc, front, "needs at least 1 a second"),
        FormatFault::RateTooLarge => wanted_text(
            alloc,
            front,
            "and an output has at most 4294967295 bytes a second",
        ),
    }
}

/// Returns the line of the file `name`, or no line if `said` is empty.
fn line_of(alloc: Global, name: &str, said: &str) -> Result<String, AllocError> {
    if said.is_empty() {
        return Ok(String::new(alloc));
    }
    device_text(alloc, name, said)
}

/// Returns the line of a WAV file with this `fault`: its name and what it contains.
pub(crate) fn format_text(
    alloc: Global,
    fault: FormatFault,
    trace: &InputTrace,
) -> Result<String, AllocError> {
    let said = content_text(alloc, fault, front_of(trace), trace.bytes)?;
    line_of(alloc, trace.name.as_str(), said.as_str())
}

/// Returns the line of a WAV file that does not suit a design: its name, its rate and its channels.
pub(crate) fn unsuited_text(alloc: Global, trace: &InputTrace) -> Result<String, AllocError> {
    let said = header_text(alloc, front_of(trace))?;
    line_of(alloc, trace.name.as_str(), said.as_str())
}
