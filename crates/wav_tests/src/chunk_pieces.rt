//! How many bytes are asked for at a time when a chunk is skipped and when a content is read. How much memory is taken
//! when less arrives than is announced, or when no size is known.

use crate::wav_answers::{Part, file_of};
use crate::wav_files::{FORMAT, RIFF};
use sdf_wav::{DeviceFault, FromRead, Reader, read_wav};
use std::alloc::Global;
use std::fs;
use std::test::Fail;
use test_devices::Faulty;
use test_texts::says;

/// The header of a list of 10,000 bytes.
const LIST: Part = (b"LIST\x10\x27\0\0", 1);

/// Returns how many frames a file has, and how many bytes each call asks for.
fn asked(alloc: Global, bytes: &[u8]) -> Result<String, Fail> {
    let mut reader = FromRead::new(Faulty::moving(alloc, bytes, usize::MAX));
    let frames = read_wav(alloc, &mut reader)?.frames();
    Ok(format!(in alloc; "{frames} {:?}", reader.into_inner().asked)?)
}

/// Returns the text of `asked` for a file of a list and then 40,000 bytes of data.
fn asked_of_much(alloc: Global) -> Result<String, Fail> {
    let data: Part = (b"data\x40\x9C\0\0", 1);
    let parts = [
        (RIFF, 1),
        (FORMAT, 1),
        LIST,
        (&[0], 10_000),
        data,
        (&[0], 40_000),
    ];
    asked(alloc, &file_of(alloc, &parts)?)
}

/// Returns how many pages of memory this program has, as the system reports, or 0 if it does not.
fn pages(rt: &HostRuntime) -> u64 {
    match fs::read_to_string(rt, "/proc/self/statm") {
        Ok(text) => match text.split(' ').next().map(|word| word.parse::<u64>()) {
            Some(Ok(count)) => count,
            _ => 0,
        },
        Err(_) => 0,
    }
}

/// A reader that records the maximum memory of the program at any call, in pages.
#[derive(Drop)]
struct Watching<'a, R> {
    reader: R,
    rt: &'a HostRuntime,
    most: u64,
}

impl<R: Reader> Reader for Watching<'_, R> {
    ghost state = { λ s. R.state s.reader };

    fn read(&mut self, buf: &mut [u8]) -> Result<usize, DeviceFault> {
        self.most = self.most.max(pages(self.rt));
        self.reader.read(buf)
    }
}

/// Reads a file of `parts`. Returns its frames or the fault, and whether the program took fewer than 4,096 pages more.
fn memory(rt: &HostRuntime, parts: &[Part]) -> Result<String, Fail> {
    let bytes = file_of(rt.alloc(), parts)?;
    let before = pages(rt);
    let mut reader = Watching {
        reader: FromRead::new(bytes.as_slice()),
        rt,
        most: 0,
    };
    let frames = match read_wav(rt.alloc(), &mut reader) {
        Ok(wav) => Ok(wav.frames()),
        Err(fault) => Err(fault),
    };
    let few = reader.most < before.saturating_add(4_096);
    Ok(format!(in rt.alloc(); "{frames:?} {few}")?)
}

/// Tests that a chunk is skipped by 4,096 bytes, and a content read by 16,384. Tests the memory when four bytes arrive
/// and no size is known, or 4,294,967,294 bytes are announced.
#[test]
fn pieces_of_chunks(rt: HostRuntime) -> Result<(), Fail> {
    says(
        asked_of_much(rt.alloc()),
        "20000 [12, 8, 16, 8, 4096, 4096, 1808, 8, 16384, 16384, 7232]",
    )?;
    let open: Part = (b"data\xFF\xFF\xFF\xFF\0\0\0\0", 1);
    let parts = [(RIFF, 1), (FORMAT, 1), LIST, (&[0], 10_000), open];
    says(memory(&rt, &parts), "Ok(2) true")?;
    let announced: Part = (b"data\xFE\xFF\xFF\xFF\x03\0\xFE\xFF", 1);
    says(
        memory(&rt, &[(RIFF, 1), (FORMAT, 1), announced]),
        "Err(Format(Truncated)) true",
    )
}
