//! Tests of the levels of a sound that is written in pieces of different lengths.

use sdf_io::output::{Output, ProgressLine};
use std::alloc::{AllocError, Global};
use std::io::{self, Write};
use std::test::Fail;
use test_texts::says;

/// A writer that takes `most` bytes at a time, and keeps none.
#[derive(Drop)]
struct Narrow {
    most: usize,
}

impl Write for Narrow {
    fn write(&mut self, bytes: &[u8]) -> io::Result<usize> {
        Ok(bytes.len().min(self.most))
    }

    fn flush(&mut self) -> io::Result<()> {
        Ok(())
    }
}

/// Returns sample `number` of a noise with `outputs` outputs. Each output is quieter than the one before; some samples
/// are at full scale.
fn sample_at(state: u32, number: u32, outputs: u32) -> i16 {
    match number % 131 {
        7 => i16::MIN,
        60 => i16::MAX,
        _ => {
            let sample = (state >> 17) as i32 - 16_384;
            let quieter = number.checked_rem(outputs).unwrap_or(0).saturating_add(1);
            (sample >> quieter.min(15)) as i16
        }
    }
}

/// Returns a WAV file with `outputs` outputs and `samples` samples in all.
fn sound_of(alloc: Global, outputs: u8, samples: u32) -> Result<Vec<u8>, AllocError> {
    let mut sound = Vec::new(alloc);
    sound.extend_from_slice(b"RIFF\0\0\0\0WAVEfmt \x10\0\0\0\x01\0")?;
    sound.extend_from_slice(&[outputs, 0])?;
    sound.extend_from_slice(b"\x44\xAC\0\0\x10\xB1\x02\0\x04\0\x10\0data\0\0\0\0")?;
    let mut state = 1u32;
    for number in 0..samples {
        state = state.wrapping_mul(1_664_525).wrapping_add(1_013_904_223);
        let sample = sample_at(state, number, u32::from(outputs));
        sound.extend_from_slice(&sample.to_le_bytes())?;
    }
    Ok(sound)
}

/// Returns the lines of levels for `sound`, given and written at most `most` bytes at a time.
fn levels_of(rt: &HostRuntime, sound: &[u8], most: usize) -> Result<String, Fail> {
    let mut to = Narrow { most };
    let mut err = Vec::new(rt.alloc());
    let progress_line = ProgressLine {
        alloc: rt.alloc(),
        err: &mut err,
        clock: rt,
        progress: None,
    };
    let mut output = Output::new(&mut to, progress_line, true)?;
    for piece in sound.chunks(most.max(1)) {
        output.write_all(piece)?;
    }
    match &output.levels {
        Some(levels) => levels.text(rt.alloc()).map_err(Fail::from),
        None => Err(Fail::new(format_args!("nothing is counted"))),
    }
}

/// Compares the levels of a sound that is written in pieces with the `wanted` ones.
fn are_levels(rt: &HostRuntime, sound: &[u8], wanted: &str) -> Result<(), Fail> {
    for most in [2, 7, 16, 45, 59, 4_096, 100_000] {
        says(levels_of(rt, sound, most), wanted)?;
    }
    Ok(())
}

/// Compares the levels of a sound that is written in pieces with its levels if it is written byte by byte.
fn is_counted(rt: &HostRuntime, outputs: u8, samples: u32) -> Result<(), Fail> {
    let sound = sound_of(rt.alloc(), outputs, samples)?;
    let plain = levels_of(rt, &sound, 1)?;
    are_levels(rt, &sound, plain.as_str())
}

/// Returns a sound with two outputs and 1,000 samples: one has only samples of -16,384, the other of 8,192.
fn steady(alloc: Global) -> Result<Vec<u8>, AllocError> {
    let mut sound = sound_of(alloc, 2, 0)?;
    for _ in 0..500 {
        sound.extend_from_slice(&(-16_384i16).to_le_bytes())?;
        sound.extend_from_slice(&8_192i16.to_le_bytes())?;
    }
    Ok(sound)
}

/// Returns the lines of levels for `steady`, given and written at most `most` bytes at a time.
fn steady_levels(rt: &HostRuntime, most: usize) -> Result<String, Fail> {
    let sound = steady(rt.alloc())?;
    levels_of(rt, &sound, most)
}

/// The levels of `steady`.
const STEADY: &str = "output 0: 500 frames, peak -6.0 dB, 0 samples at full scale\n\
     output 1: 500 frames, peak -12.0 dB, 0 samples at full scale\n";

/// The levels of two outputs, each with eight samples at full scale.
const FULL: &str = "output 0: 500 frames, peak 0.0 dB, 8 samples at full scale\n\
     output 1: 500 frames, peak 0.0 dB, 8 samples at full scale\n";

/// Tests levels. Refuses a block whose samples are counted for another output, left out or counted twice. Refuses also
/// a piece that begins within a sample or a frame but is counted from its first byte, and a peak of one sign alone.
#[test]
fn levels_in_pieces(rt: HostRuntime) -> Result<(), Fail> {
    for outputs in 1..=8 {
        is_counted(&rt, outputs, 1_000)?;
    }
    is_counted(&rt, 2, 40_000)?;
    for most in [16, 59, 4_096] {
        says(steady_levels(&rt, most), STEADY)?;
    }
    let sound = sound_of(rt.alloc(), 2, 1_000)?;
    says(levels_of(&rt, &sound, 4_096), FULL)
}
