//! The results of each way of reading a WAV file, and test files that are made of parts.

use sdf_wav::{FromRead, Reader, Wav, WavFault, WavIn, read_wav};
use std::alloc::{AllocError, Global};
use std::test::Fail;
use test_devices::Faulty;

/// Bytes, and how often they are repeated.
pub(crate) type Part<'a> = (&'a [u8], usize);

/// Returns the `parts` joined.
pub(crate) fn file_of(alloc: Global, parts: &[Part]) -> Result<Vec<u8>, AllocError> {
    let mut bytes = Vec::new(alloc);
    for (part, many) in parts {
        bytes.extend_from_slice(&part.repeat(alloc, *many)?)?;
    }
    Ok(bytes)
}

/// How a file is read.
#[derive(Clone, Copy, Debug)]
pub(crate) enum Way {
    Whole,
    /// In pieces of this number of frames.
    Pieces(usize),
}

pub(crate) const WAYS: [Way; 3] = [Way::Whole, Way::Pieces(1), Way::Pieces(2)];

/// How many bytes a call moves at most: what is asked for, or one.
const MOVES: [usize; 2] = [usize::MAX, 1];

/// Reads a file in pieces of `frames` frames, up to its end.
fn read_pieces<R: Reader>(alloc: Global, reader: &mut R, frames: usize) -> Result<Wav, WavFault> {
    let mut input = WavIn::open(alloc, reader)?;
    let mut samples = Vec::new(alloc);
    for _ in 0..u64::MAX {
        let piece = input.next(frames)?;
        if piece.is_empty() {
            break;
        }
        if samples.extend_from_slice(&piece).is_err() {
            return Err(WavFault::OutOfMemory);
        }
    }
    Wav::new(input.rate(), input.channels(), samples)
}

/// Reads a file whole or in pieces.
pub(crate) fn read_by<R: Reader>(alloc: Global, reader: &mut R, way: Way) -> Result<Wav, WavFault> {
    match way {
        Way::Whole => read_wav(alloc, reader),
        Way::Pieces(frames) => read_pieces(alloc, reader, frames),
    }
}

/// Returns the rate and the samples of a file as one text, or the text of its fault.
pub(crate) fn text_of(alloc: Global, answer: Result<Wav, WavFault>) -> Result<String, Fail> {
    match answer {
        Ok(wav) => Ok(format!(in alloc; "{} {:?}", wav.rate(), wav.samples())?),
        Err(fault) => Ok(format!(in alloc; "{fault}")?),
    }
}

/// Checks that reading `bytes` by `way` gives the text `answer`, if a call gives at most `most` bytes.
fn answers_at(
    alloc: Global,
    way: Way,
    bytes: &[u8],
    most: usize,
    answer: &str,
) -> Result<(), Fail> {
    let mut reader = FromRead::new(Faulty::moving(alloc, bytes, most));
    let text = text_of(alloc, read_by(alloc, &mut reader, way))?;
    if text.as_str() == answer {
        return Ok(());
    }
    let len = bytes.len();
    Err(Fail::new(format_args!(
        "{len} bytes, {way:?}, {most} a call: {text:?} in place of {answer:?}"
    )))
}

/// Checks that reading `bytes` by `way` gives the text `answer`, also if a call gives one byte.
pub(crate) fn answers_by(alloc: Global, way: Way, bytes: &[u8], answer: &str) -> Result<(), Fail> {
    for most in MOVES {
        answers_at(alloc, way, bytes, most, answer)?;
    }
    Ok(())
}

/// Checks that reading a file of `parts` gives the text `answer`, whole and in pieces.
pub(crate) fn answers(alloc: Global, parts: &[Part], answer: &str) -> Result<(), Fail> {
    let bytes = file_of(alloc, parts)?;
    for way in WAYS {
        answers_by(alloc, way, &bytes, answer)?;
    }
    Ok(())
}
