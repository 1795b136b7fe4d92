//! WAV files over devices that fail at one call, the adapters of std, and the texts of their faults.

use crate::wav_answers::{Way, read_by, text_of};
use crate::wav_files::CANONICAL;
use crate::wav_pieces::{FRAMES, SIX, put_pieces};
use sdf_wav::{FromRead, Reader, ToWrite, Wav, WavFault, Writer, write_wav};
use std::alloc::Global;
use std::test::Fail;
use test_devices::files::{self, Whole};
use test_devices::{Faulty, Slip};
use test_texts::{row_says, says};

/// A file, how it is read, how many bytes a call gives at most, and how many calls that takes.
#[derive(Clone, Copy)]
struct Reading {
    file: Whole,
    way: Way,
    most: usize,
    calls: usize,
}

const READINGS: &[Reading] = &[
    Reading {
        file: files::CANONICAL,
        way: Way::Whole,
        most: usize::MAX,
        calls: 5,
    },
    Reading {
        file: files::CANONICAL,
        way: Way::Whole,
        most: 1,
        calls: 48,
    },
    Reading {
        file: files::CANONICAL,
        way: Way::Pieces(1),
        most: usize::MAX,
        calls: 6,
    },
    Reading {
        file: files::CANONICAL,
        way: Way::Pieces(1),
        most: 1,
        calls: 48,
    },
    Reading {
        file: files::CANONICAL,
        way: Way::Pieces(2),
        most: usize::MAX,
        calls: 5,
    },
    Reading {
        file: files::CANONICAL,
        way: Way::Pieces(2),
        most: 1,
        calls: 48,
    },
    Reading {
        file: files::OPEN,
        way: Way::Whole,
        most: usize::MAX,
        calls: 9,
    },
    Reading {
        file: files::OPEN,
        way: Way::Whole,
        most: 1,
        calls: 87,
    },
    Reading {
        file: files::OPEN,
        way: Way::Pieces(1),
        most: usize::MAX,
        calls: 10,
    },
    Reading {
        file: files::OPEN,
        way: Way::Pieces(1),
        most: 1,
        calls: 87,
    },
    Reading {
        file: files::OPEN,
        way: Way::Pieces(2),
        most: usize::MAX,
        calls: 9,
    },
    Reading {
        file: files::OPEN,
        way: Way::Pieces(2),
        most: 1,
        calls: 87,
    },
];

/// Checks that a reading that slips at call `at` fails with `Read`, and does not call its reader again. Past the last
/// call the file is read.
fn slips_once(alloc: Global, reading: &Reading, slip: Slip, at: usize) -> Result<(), Fail> {
    let device = Faulty::slipping(alloc, reading.file.bytes, reading.most, slip, at);
    let mut reader = FromRead::new(device);
    let fault = read_by(alloc, &mut reader, reading.way).err();
    let failed = reader.failed();
    let calls = reader.into_inner().asked.len();
    let wanted = if at <= reading.calls {
        (Some(WavFault::Read), 1, at)
    } else {
        (None, 0, reading.calls)
    };
    if (fault, failed, calls) == wanted {
        return Ok(());
    }
    let way = reading.way;
    Err(Fail::new(format_args!("{way:?}, {slip:?} at {at}: {fault:?} {failed} {calls}")))
}

/// Checks `slips_once` at each call and past the last one.
fn slips_anywhere(alloc: Global, reading: &Reading, slip: Slip) -> Result<(), Fail> {
    for at in 1..reading.calls.saturating_add(3) {
        slips_once(alloc, reading, slip, at)?;
    }
    Ok(())
}

/// How the file of `FRAMES` is written: whole or in pieces, by at most `most` bytes a call, in `calls` calls. `fronts`
/// has the number of bytes written before each call, and is empty if a call takes one byte.
#[derive(Clone, Copy)]
struct Writing {
    in_pieces: bool,
    most: usize,
    calls: usize,
    fronts: &'static [usize],
}

const WRITINGS: &[Writing] = &[
    Writing {
        in_pieces: false,
        most: usize::MAX,
        calls: 2,
        fronts: &[0, 44],
    },
    Writing {
        in_pieces: true,
        most: usize::MAX,
        calls: 4,
        fronts: &[0, 44, 48, 56],
    },
    Writing {
        in_pieces: false,
        most: 1,
        calls: 68,
        fronts: &[],
    },
    Writing {
        in_pieces: true,
        most: 1,
        calls: 68,
        fronts: &[],
    },
];

/// Writes the file of `FRAMES`, whole or in pieces.
fn write_by<W: Writer>(writer: &mut W, wav: &Wav, in_pieces: bool) -> Result<(), WavFault> {
    if in_pieces {
        put_pieces(writer, FRAMES.as_slice())
    } else {
        write_wav(writer, wav)
    }
}

/// Returns how many of the 68 bytes are written before call `at`.
fn front_before(writing: &Writing, at: usize) -> usize {
    if writing.most == 1 {
        return at.min(69).saturating_sub(1);
    }
    match writing.fronts.get(at.saturating_sub(1)) {
        Some(front) => *front,
        None => 68,
    }
}

/// Checks that a writing that slips at call `at` fails with `Write`, and does not call its writer again. The writer has
/// taken what it was given before. Past the last call the file is written.
fn writes_until(alloc: Global, writing: &Writing, slip: Slip, at: usize) -> Result<(), Fail> {
    let wav = Wav::new(8_000, 2, FRAMES.as_slice().to_vec(alloc)?)?;
    let device = Faulty::slipping(alloc, Vec::new(alloc), writing.most, slip, at);
    let mut writer = ToWrite::new(device);
    let answer = write_by(&mut writer, &wav, writing.in_pieces);
    let failed = writer.failed();
    let device = writer.into_inner();
    let (taken, calls) = (device.device.len(), device.asked.len());
    let wanted = if at <= writing.calls {
        (Err(WavFault::Write), 1, at)
    } else {
        (Ok(()), 0, writing.calls)
    };
    let is_front = SIX.starts_with(&device.device) && taken == front_before(writing, at);
    if is_front && (answer, failed, calls) == wanted {
        return Ok(());
    }
    Err(Fail::new(format_args!("{slip:?} at {at}: {answer:?} {failed} {calls} {is_front} {taken}")))
}

/// Checks `writes_until` at each call and past the last one.
fn writes_anywhere(alloc: Global, writing: &Writing, slip: Slip) -> Result<(), Fail> {
    for at in 1..writing.calls.saturating_add(3) {
        writes_until(alloc, writing, slip, at)?;
    }
    Ok(())
}

#[test]
fn devices_that_fail(rt: HostRuntime) -> Result<(), Fail> {
    for reading in READINGS {
        slips_anywhere(rt.alloc(), reading, Slip::Fails)?;
        slips_anywhere(rt.alloc(), reading, Slip::IsInterrupted)?;
    }
    for writing in WRITINGS {
        writes_anywhere(rt.alloc(), writing, Slip::Fails)?;
        writes_anywhere(rt.alloc(), writing, Slip::IsInterrupted)?;
        writes_anywhere(rt.alloc(), writing, Slip::MovesNothing)?;
    }
    Ok(())
}

/// Reads four bytes twice: the first call slips. Returns both results, each with how often the reader has failed
/// then, whether the bytes are right, and how many bytes each call asked for.
fn read_twice(alloc: Global, slip: Slip) -> Result<String, Fail> {
    let text = CANONICAL.as_slice();
    let mut reader = FromRead::new(Faulty::slipping(alloc, text, usize::MAX, slip, 1));
    let mut bytes = [0u8; 4];
    let first = reader.read(&mut bytes);
    let failed = reader.failed();
    let second = reader.read(&mut bytes);
    let both = reader.failed();
    let asked = reader.into_inner().asked;
    let same = &bytes == b"RIFF";
    Ok(format!(in alloc; "{first:?} {failed} {second:?} {both} {same} {asked:?}")?)
}

/// Writes four bytes twice: the first call slips. Returns both results, each with how often the writer has failed
/// then, whether the bytes are right, and how many bytes each call gave.
fn write_twice(alloc: Global, slip: Slip) -> Result<String, Fail> {
    let taken = Vec::new(alloc);
    let mut writer = ToWrite::new(Faulty::slipping(alloc, taken, usize::MAX, slip, 1));
    let first = writer.write(b"RIFF");
    let failed = writer.failed();
    let second = writer.write(b"RIFF");
    let both = writer.failed();
    let device = writer.into_inner();
    let same = device.device.as_slice() == b"RIFF".as_slice();
    let asked = &device.asked;
    Ok(format!(in alloc; "{first:?} {failed} {second:?} {both} {same} {asked:?}")?)
}

/// A slip at the first call, the text of `read_twice`, and the text of `write_twice`.
const ADAPTED: &[(Slip, &str, &str)] = &[
    (
        Slip::Fails,
        "Err(DeviceFault) 1 Ok(4) 1 true [4, 4]",
        "Err(DeviceFault) 1 Ok(4) 1 true [4, 4]",
    ),
    (
        Slip::IsInterrupted,
        "Err(DeviceFault) 1 Ok(4) 1 true [4, 4]",
        "Err(DeviceFault) 1 Ok(4) 1 true [4, 4]",
    ),
    (
        Slip::MovesNothing,
        "Ok(0) 0 Ok(4) 0 true [4, 4]",
        "Ok(0) 1 Ok(4) 1 true [4, 4]",
    ),
];

/// Tests that an adapter calls its device once for each of its own calls, whatever the result, and goes on at the next
/// one. Also tests the texts of faults.
#[test]
fn adapters_ask_once(rt: HostRuntime) -> Result<(), Fail> {
    let alloc = rt.alloc();
    for (slip, read, written) in ADAPTED {
        row_says("read", read_twice(alloc, *slip), read)?;
        row_says("written", write_twice(alloc, *slip), written)?;
    }
    says(text_of(alloc, Err(WavFault::OutOfMemory)), "1 OutOfMemory")?;
    says(text_of(alloc, Err(WavFault::Read)), "47 Read")?;
    says(text_of(alloc, Err(WavFault::Write)), "48 Write")
}
