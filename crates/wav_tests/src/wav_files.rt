//! Whole WAV files, read and written.

use crate::wav_answers::{answers, file_of};
use sdf_wav::{FromRead, ToWrite, Wav, read_wav, write_wav};
use std::alloc::{AllocError, Global};
use std::test::Fail;
use test_texts::says;

/// The canonical file of the samples 3 and -2, mono at 44,100.
pub(crate) const CANONICAL: &[u8; 48] =
    b"RIFF\x28\0\0\0WAVEfmt \x10\0\0\0\x01\0\x01\0\x44\xAC\0\0\x88\x58\x01\0\x02\0\x10\0data\x04\0\0\0\x03\0\xFE\xFF";

/// The first twelve bytes of a file, with an arbitrary size.
pub(crate) const RIFF: &[u8] = b"RIFF\x01\x02\x03\x04WAVE";

/// A list of odd size with its pad byte, and the extensible format of mono at 44,100.
const EXTENSIBLE: &[u8] = b"LIST\x05\0\0\0\x01\x02\x03\x04\x05\0\
        fmt \x28\0\0\0\xFE\xFF\x01\0\x44\xAC\0\0\x88\x58\x01\0\x02\0\x10\0\x16\0\x10\0\x04\0\0\0\
        \x01\0\0\0\0\0\x10\0\x80\0\0\xAA\0\x38\x9B\x71";

/// The plain format of mono at 44,100.
pub(crate) const FORMAT: &[u8] =
    b"fmt \x10\0\0\0\x01\0\x01\0\x44\xAC\0\0\x88\x58\x01\0\x02\0\x10\0";

/// Data of two samples.
const DATA: &[u8] = b"data\x04\0\0\0\x01\0\xFE\xFF";

/// Chunks, the bytes behind them, and the result of reading the file.
const FILES: &[(&[u8], &[u8], &str)] = &[
    (
        EXTENSIBLE,
        b"data\xFF\xFF\xFF\xFF\x01\0\xFE\xFF",
        "44100 [1, -2]",
    ),
    (
        EXTENSIBLE,
        b"data\xFF\xFF\xFF\xFF\x01\0\xFE",
        "44 PartialFrame",
    ),
    (
        EXTENSIBLE,
        b"data\x04\0\0\0\x01\0\xFE\xFFmore",
        "44100 [1, -2]",
    ),
    (EXTENSIBLE, b"data\x04\0\0\0\x01\0\xFE", "43 Truncated"),
    (EXTENSIBLE, b"data\x03\0\0\0\x01\0\xFE", "44 PartialFrame"),
    (EXTENSIBLE, b"", "42 NoData"),
    (b"", b"", "36 NoFormat"),
    (b"", DATA, "36 NoFormat"),
    (FORMAT, b"LIST\x01\0\0\0\x07", "42 NoData"),
    (
        b"fmt \x12\0\0\0\xFE\xFF\x01\0\x44\xAC\0\0\x88\x58\x01\0\x02\0\x10\0\0\0",
        DATA,
        "37 ShortFormat",
    ),
    (
        b"fmt \x11\0\0\0\x01\0\x01\0\x44\xAC\0\0\x88\x58\x01\0\x02\0\x10\0\0\0",
        DATA,
        "44100 [1, -2]",
    ),
    (
        FORMAT,
        b"fmt \x10\0\0\0\x01\0\x01\0\x40\x1F\0\0\x80\x3E\0\0\x02\0\x10\0data\x02\0\0\0\x05\0",
        "44100 [5]",
    ),
    (
        b"fmt \x10\0\0\0\x01\0\x02\0\x44\xAC\0\0\x10\xB1\x02\0\x04\0\x10\0",
        b"data\x06\0\0\0\x01\0\x02\0\x03\0",
        "44 PartialFrame",
    ),
    (
        b"fmt \x10\0\0\0\x01\0\x01\0\x44\xAC\0\0\x44\xAC\0\0\x01\0\x08\0",
        b"data\x02\0\0\0\x80\x80",
        "38 NotPcm16",
    ),
    (
        b"fmt \x10\0\0\0\x01\0\x09\0\x44\xAC\0\0\xC8\x1C\x0C\0\x12\0\x10\0",
        DATA,
        "39 Channels",
    ),
    (
        b"fmt \x10\0\0\0\x01\0\x01\0\0\0\0\0\0\0\0\0\x02\0\x10\0",
        DATA,
        "40 RateZero",
    ),
    (
        b"fmt \x10\0\0\0\x01\0\x01\0\x44\xAC\0\0\x88\x58\x01\0\x04\0\x10\0",
        DATA,
        "41 BadAlign",
    ),
];

/// The header of a list of 5,001 bytes.
const LIST: &[u8] = b"LIST\x89\x13\0\0";

/// Tests files of chunks, files that are not WAV files, and the maximum number of chunks before the data. Also tests a
/// list that is cut off or whole.
#[test]
fn files(rt: HostRuntime) -> Result<(), Fail> {
    let alloc = rt.alloc();
    for (chunks, more, answer) in FILES {
        answers(alloc, &[(RIFF, 1), (chunks, 1), (more, 1)], answer)?;
    }
    answers(alloc, &[(b"RIF", 1)], "43 Truncated")?;
    answers(alloc, &[(b"RIFX", 1)], "34 NotRiff")?;
    answers(alloc, &[(b"RIFF1234WAVI", 1)], "35 NotWave")?;
    let empty = b"LIST\0\0\0\0";
    answers(
        alloc,
        &[(RIFF, 1), (empty, 65_535), (FORMAT, 1), (DATA, 1)],
        "44100 [1, -2]",
    )?;
    answers(
        alloc,
        &[(RIFF, 1), (empty, 65_536), (FORMAT, 1), (DATA, 1)],
        "45 TooLong",
    )?;
    answers(
        alloc,
        &[(RIFF, 1), (FORMAT, 1), (LIST, 1), (&[7], 4_500)],
        "43 Truncated",
    )?;
    answers(
        alloc,
        &[(RIFF, 1), (LIST, 1), (&[7], 5_002), (FORMAT, 1), (DATA, 1)],
        "44100 [1, -2]",
    )
}

/// Reads `bytes` and writes the sound again. Returns the rate, the channels, the frames, the samples and the bytes left
/// behind the file. Adds how often the writer failed, and whether it took `CANONICAL`.
fn both_ways(alloc: Global, bytes: &[u8]) -> Result<String, Fail> {
    let mut reader = FromRead::new(bytes);
    let wav = read_wav(alloc, &mut reader)?;
    let left = reader.into_inner();
    let mut writer = ToWrite::new(Vec::new(alloc));
    write_wav(&mut writer, &wav)?;
    let failed = writer.failed();
    let same = writer.into_inner().as_slice() == CANONICAL.as_slice();
    let (rate, channels, frames) = (wav.rate(), wav.channels(), wav.frames());
    Ok(format!(in alloc;
        "{rate} {channels} {frames} {:?} {left:?} {failed} {same}",
        wav.samples()
    )?)
}

/// Returns the text of `both_ways` for `CANONICAL` in front of a list.
fn before_a_list(alloc: Global) -> Result<String, Fail> {
    both_ways(alloc, &file_of(alloc, &[(CANONICAL, 1), (LIST, 1)])?)
}

/// Writes a sound. Returns its frames, its channels and a sample, or the fault.
fn sound(alloc: Global, rate: u32, channels: u16, samples: &[i16]) -> Result<String, Fail> {
    let wav = match Wav::new(rate, channels, samples.to_vec(alloc)?) {
        Ok(wav) => wav,
        Err(fault) => return Ok(fault.to_string(alloc)?),
    };
    if let Err(fault) = write_wav(&mut ToWrite::new(Vec::new(alloc)), &wav) {
        return Ok(fault.to_string(alloc)?);
    }
    let (frames, channels) = (wav.frames(), wav.channels());
    if frames < 2 {
        return Ok(String::from_str(alloc, "written")?);
    }
    Ok(format!(in alloc; "{frames} {channels} {}", wav.sample(1, 0))?)
}

/// A rate, channels, samples, and the text of `sound`.
const SOUNDS: &[(u32, u16, &[i16], &str)] = &[
    (8_000, 3, &[1, 2, 3, -4, 5, 6], "2 3 -4"),
    (44_100, 0, &[1, 2, 3], "39 Channels"),
    (0, 9, &[1, 2, 3], "39 Channels"),
    (0, 2, &[1, 2, 3], "40 RateZero"),
    (44_100, 2, &[1, 2, 3], "44 PartialFrame"),
    (2_147_483_647, 1, &[], "written"),
    (2_147_483_648, 1, &[], "46 RateTooLarge"),
    (268_435_455, 8, &[], "written"),
    (268_435_456, 8, &[], "46 RateTooLarge"),
];

/// Returns the file of `samples`.
pub(crate) fn written(
    alloc: Global,
    rate: u32,
    channels: u16,
    samples: Vec<i16>,
) -> Result<Vec<u8>, Fail> {
    let mut writer = ToWrite::new(Vec::new(alloc));
    write_wav(&mut writer, &Wav::new(rate, channels, samples)?)?;
    Ok(writer.into_inner())
}

/// Returns 20,000 samples and their bytes.
fn long_sound(alloc: Global) -> Result<(Vec<i16>, Vec<u8>), AllocError> {
    let mut samples = Vec::new(alloc);
    let mut bytes = Vec::new(alloc);
    for sample in -10_000..10_000i16 {
        samples.push(sample)?;
        bytes.extend_from_slice(&sample.to_le_bytes())?;
    }
    Ok((samples, bytes))
}

/// Writes more samples than are converted at a time. Returns the length of the file, and whether it ends with their
/// bytes.
fn long_file(alloc: Global) -> Result<String, Fail> {
    let (samples, bytes) = long_sound(alloc)?;
    let file = written(alloc, 44_100, 1, samples)?;
    Ok(format!(in alloc; "{} {}", file.len(), file.ends_with(&bytes))?)
}

#[test]
fn sounds_both_ways(rt: HostRuntime) -> Result<(), Fail> {
    let alloc = rt.alloc();
    says(both_ways(alloc, CANONICAL), "44100 1 2 [3, -2] [] 0 true")?;
    says(
        before_a_list(alloc),
        "44100 1 2 [3, -2] [76, 73, 83, 84, 137, 19, 0, 0] 0 true",
    )?;
    says(long_file(alloc), "40044 true")?;
    for (rate, channels, samples, wanted) in SOUNDS {
        says(sound(alloc, *rate, *channels, samples), wanted)?;
    }
    Ok(())
}
