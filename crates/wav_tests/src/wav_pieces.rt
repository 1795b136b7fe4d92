//! WAV files in pieces.

ghost use Rattle.std.specs.Prelude.{◌≡◌, length};

use crate::wav_answers::file_of;
use crate::wav_files::written;
use sdf_wav::{FromRead, Reader, ToWrite, WavFault, WavIn, WavOut, Writer};
use std::alloc::Global;
use std::fmt::Write;
use std::test::Fail;
use test_devices::{Faulty, Slip};
use test_texts::says;

/// Six frames of two channels.
pub(crate) const FRAMES: [i16; 12] = [1, -1, 2, -2, 3, -3, 4, -4, 5, -5, 6, -6];

/// The file of `FRAMES` at 8,000 frames a second.
pub(crate) const SIX: &[u8] =
    b"RIFF\x3C\0\0\0WAVEfmt \x10\0\0\0\x01\0\x02\0\x40\x1F\0\0\0\x7D\0\0\x04\0\x10\0data\x18\0\0\0\
    \x01\0\xFF\xFF\x02\0\xFE\xFF\x03\0\xFD\xFF\x04\0\xFC\xFF\x05\0\xFB\xFF\x06\0\xFA\xFF";

/// Writes six frames in pieces of one, two and three.
pub(crate) fn put_pieces<W: Writer>(writer: &mut W, samples: &[i16]) -> Result<(), WavFault>
    requires { length samples.now ≡ 12 }
{
    let mut out = WavOut::start(writer, 8_000, 2, 6)?;
    out.put(&samples[..2])?;
    out.put(&samples[2..6])?;
    out.put(&samples[6..])?;
    out.end()
}

/// Writes `FRAMES` whole and in pieces. Returns for each whether the file is `SIX`.
fn both_files(alloc: Global) -> Result<String, Fail> {
    let whole = written(alloc, 8_000, 2, FRAMES.as_slice().to_vec(alloc)?)?;
    let mut writer = ToWrite::new(Vec::new(alloc));
    put_pieces(&mut writer, FRAMES.as_slice())?;
    let pieces = writer.into_inner();
    Ok(format!(in alloc; "{} {}", whole.as_slice() == SIX, pieces.as_slice() == SIX)?)
}

/// Starts a file. Returns how many bytes were written, and the fault if there is one.
fn header(alloc: Global, rate: u64, channels: u16, frames: u64) -> Result<String, Fail> {
    let mut writer = ToWrite::new(Vec::new(alloc));
    let fault = WavOut::start(&mut writer, rate, channels, frames).err();
    let len = writer.into_inner().len();
    match fault {
        None => Ok(format!(in alloc; "{len} bytes")?),
        Some(fault) => Ok(format!(in alloc; "{len} bytes, {fault}")?),
    }
}

/// A rate, channels, frames, and the text of `header`.
const HEADERS: &[(u64, u16, u64, &str)] = &[
    (0, 0, u64::MAX, "0 bytes, 39 Channels"),
    (0, 9, 0, "0 bytes, 39 Channels"),
    (0, 8, u64::MAX, "0 bytes, 40 RateZero"),
    (2_147_483_648, 1, u64::MAX, "0 bytes, 46 RateTooLarge"),
    (u64::MAX, 8, 0, "0 bytes, 46 RateTooLarge"),
    (268_435_455, 8, 268_435_454, "0 bytes, 45 TooLong"),
    (2_147_483_647, 1, 2_147_483_630, "0 bytes, 45 TooLong"),
    (44_100, 1, u64::MAX, "0 bytes, 45 TooLong"),
    (44_100, 1, 2_147_483_629, "44 bytes"),
    (268_435_455, 8, 268_435_453, "44 bytes"),
];

/// Puts two frames three times, the last two times the same ones. Returns the three results, and the frames missing
/// after the first, or an empty text if the second put succeeds.
fn three_puts<W: Writer>(alloc: Global, writer: &mut W, samples: &[i16]) -> Result<String, Fail>
    requires { length samples.now ≡ 12 }
{
    let mut out = WavOut::start(writer, 8_000, 2, 6)?;
    let first = out.put(&samples[..4]);
    let missing = out.missing();
    let second = out.put(&samples[4..8]);
    if second.is_ok() {
        return Ok(String::new(alloc));
    }
    let third = out.put(&samples[4..8]);
    Ok(format!(in alloc; "{first:?} {missing} {second:?} {third:?}")?)
}

/// Returns the text of `three_puts` for a writer that is full at its call 56. It is followed by how often the writer
/// failed, how many bytes it took, and how many calls it had.
fn puts_of_full(alloc: Global) -> Result<String, Fail> {
    let device = Faulty::slipping(alloc, Vec::new(alloc), 1, Slip::MovesNothing, 56);
    let mut writer = ToWrite::new(device);
    let puts = three_puts(alloc, &mut writer, FRAMES.as_slice())?;
    let failed = writer.failed();
    let device = writer.into_inner();
    Ok(format!(in alloc;
        "{puts} {failed} {} {}",
        device.device.len(),
        device.asked.len()
    )?)
}

/// Tests files and headers that are written in pieces, and a writer that is full: it fails once, and is not called
/// again.
#[test]
fn written_in_pieces(rt: HostRuntime) -> Result<(), Fail> {
    let alloc = rt.alloc();
    says(both_files(alloc), "true true")?;
    for (rate, channels, frames, wanted) in HEADERS {
        says(header(alloc, *rate, *channels, *frames), wanted)?;
    }
    says(
        puts_of_full(alloc),
        "Ok(()) 4 Err(Write) Err(Write) 1 55 56",
    )
}

/// The parts before the data of a file of one channel at 8,000 frames a second.
const MONO: &[u8] =
    b"RIFF\0\0\0\0WAVEfmt \x10\0\0\0\x01\0\x01\0\x40\x1F\0\0\x80\x3E\0\0\x02\0\x10\0";

/// Data of three samples, and two bytes that are not part of it.
const THREE: &[u8] = b"data\x06\0\0\0\x01\0\xFF\xFF\x02\0LI";

/// Opens a file and reads six pieces of `frames` frames. Returns the rate, the channels and the frames, and for each
/// piece its samples or a fault.
fn six_pieces<R: Reader>(alloc: Global, reader: &mut R, frames: usize) -> Result<String, Fail> {
    let mut input = match WavIn::open(alloc, reader) {
        Ok(input) => input,
        Err(fault) => return Ok(fault.to_string(alloc)?),
    };
    let (rate, channels, known) = (input.rate(), input.channels(), input.frames());
    let mut text = format!(in alloc; "{rate} {channels} {known:?}:")?;
    for _ in 0..6 {
        match input.next(frames) {
            Ok(samples) => write!(text, " {samples:?}")?,
            Err(fault) => write!(text, " {fault}")?,
        }
    }
    Ok(text)
}

/// Returns the text of `six_pieces` for a file of `front` and `data`, if a call gives at most `most` bytes.
fn read(
    alloc: Global,
    front: &[u8],
    data: &[u8],
    frames: usize,
    most: usize,
) -> Result<String, Fail> {
    let bytes = file_of(alloc, &[(front, 1), (data, 1)])?;
    let mut reader = FromRead::new(Faulty::moving(alloc, bytes.as_slice(), most));
    six_pieces(alloc, &mut reader, frames)
}

/// A front of a file, its data, the frames of a piece, and the text of `six_pieces`.
const PIECES: &[(&[u8], &[u8], usize, &str)] = &[
    (MONO, THREE, 1, "8000 1 Some(3): [1] [-1] [2] [] [] []"),
    (MONO, THREE, 2, "8000 1 Some(3): [1, -1] [2] [] [] [] []"),
    (MONO, THREE, 3, "8000 1 Some(3): [1, -1, 2] [] [] [] [] []"),
    (
        MONO,
        THREE,
        usize::MAX,
        "8000 1 Some(3): [1, -1, 2] [] [] [] [] []",
    ),
    (MONO, THREE, 0, "8000 1 Some(3): [] [] [] [] [] []"),
    (
        MONO,
        b"data\x05\0\0\0\x01\0\xFF\xFF\x02",
        1,
        "44 PartialFrame",
    ),
    (
        MONO,
        b"data\x08\0\0\0\x01\0\xFF\xFF\x02",
        1,
        "8000 1 Some(4): [1] [-1] 43 Truncated 43 Truncated 43 Truncated 43 Truncated",
    ),
    (
        MONO,
        b"data\xFE\xFF\xFF\xFF\x01\0\xFF\xFF",
        2,
        "8000 1 Some(2147483647): [1, -1] 43 Truncated 43 Truncated 43 Truncated 43 Truncated 43 Truncated",
    ),
    (
        MONO,
        b"data\xFF\xFF\xFF\xFF\x01\0\xFF\xFF",
        1,
        "8000 1 None: [1] [-1] [] [] [] []",
    ),
    (
        MONO,
        b"data\xFF\xFF\xFF\xFF\x01\0\xFF",
        1,
        "8000 1 None: [1] 44 PartialFrame 44 PartialFrame 44 PartialFrame 44 PartialFrame 44 PartialFrame",
    ),
    (
        MONO,
        b"data\xFF\xFF\xFF\xFF\x01\0\xFF",
        2,
        "8000 1 None: 44 PartialFrame 44 PartialFrame 44 PartialFrame 44 PartialFrame 44 PartialFrame \
         44 PartialFrame",
    ),
    (MONO, b"", 1, "42 NoData"),
    (
        SIX,
        b"",
        1,
        "8000 2 Some(6): [1, -1] [2, -2] [3, -3] [4, -4] [5, -5] [6, -6]",
    ),
    (
        SIX,
        b"",
        2,
        "8000 2 Some(6): [1, -1, 2, -2] [3, -3, 4, -4] [5, -5, 6, -6] [] [] []",
    ),
    (
        SIX,
        b"",
        3,
        "8000 2 Some(6): [1, -1, 2, -2, 3, -3] [4, -4, 5, -5, 6, -6] [] [] [] []",
    ),
    (
        SIX,
        b"",
        4,
        "8000 2 Some(6): [1, -1, 2, -2, 3, -3, 4, -4] [5, -5, 6, -6] [] [] [] []",
    ),
    (
        SIX,
        b"",
        5,
        "8000 2 Some(6): [1, -1, 2, -2, 3, -3, 4, -4, 5, -5] [6, -6] [] [] [] []",
    ),
    (
        SIX,
        b"",
        6,
        "8000 2 Some(6): [1, -1, 2, -2, 3, -3, 4, -4, 5, -5, 6, -6] [] [] [] [] []",
    ),
    (
        SIX,
        b"",
        7,
        "8000 2 Some(6): [1, -1, 2, -2, 3, -3, 4, -4, 5, -5, 6, -6] [] [] [] [] []",
    ),
];

/// Returns the text of `six_pieces` for three samples and a reader that fails at call `at`, or never if it is 0. It is
/// followed by how often the reader failed and was called, and by the bytes left.
fn read_until(alloc: Global, frames: usize, at: usize) -> Result<String, Fail> {
    let bytes = file_of(alloc, &[(MONO, 1), (THREE, 1)])?;
    let device = Faulty::slipping(alloc, bytes.as_slice(), usize::MAX, Slip::Fails, at);
    let mut reader = FromRead::new(device);
    let texts = six_pieces(alloc, &mut reader, frames)?;
    let failed = reader.failed();
    let device = reader.into_inner();
    Ok(format!(in alloc;
        "{texts} {failed} {} {:?}",
        device.asked.len(),
        device.device
    )?)
}

/// Tests reading in pieces when a call gives all bytes, or at most 1 to 7. The bytes behind the content are left, and a
/// reader that has failed is not called again.
#[test]
fn read_in_pieces(rt: HostRuntime) -> Result<(), Fail> {
    let alloc = rt.alloc();
    for (front, data, frames, wanted) in PIECES {
        for most in [usize::MAX, 1, 2, 3, 4, 5, 6, 7] {
            says(read(alloc, front, data, *frames, most), wanted)?;
        }
    }
    says(
        read_until(alloc, 2, 0),
        "8000 1 Some(3): [1, -1] [2] [] [] [] [] 0 6 [76, 73]",
    )?;
    says(
        read_until(alloc, 1, 6),
        "8000 1 Some(3): [1] 47 Read 47 Read 47 Read 47 Read 47 Read 1 6 [255, 255, 2, 0, 76, 73]",
    )
}
