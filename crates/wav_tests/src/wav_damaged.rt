//! WAV files that are cut off, and sizes that lie.

use crate::wav_answers::{WAYS, Way, answers_by};
use std::alloc::Global;
use std::test::Fail;
use test_devices::files::{Answer, FILES, LIES, Whole};

/// Checks that reading `bytes` by `way` has the result `answer`.
fn has(alloc: Global, way: Way, bytes: &[u8], answer: Option<Answer>) -> Result<(), Fail> {
    let text = match answer {
        Some(Ok(samples)) => format!(in alloc; "44100 {samples:?}")?,
        Some(Err(fault)) => format!(in alloc; "{fault}")?,
        None => return Err(Fail::from("no row")),
    };
    answers_by(alloc, way, bytes, text.as_str())
}

/// Checks that each front of `file` has its result.
fn fronts_of(alloc: Global, way: Way, file: &Whole) -> Result<(), Fail> {
    for kept in 0..=file.bytes.len() {
        has(alloc, way, file.front(kept), file.answer(kept))?;
    }
    Ok(())
}

/// Tests the fronts of each file, and each file whose sizes lie.
#[test]
fn damaged_files(rt: HostRuntime) -> Result<(), Fail> {
    for way in WAYS {
        for file in &FILES {
            fronts_of(rt.alloc(), way, file)?;
        }
        for lie in &LIES {
            has(rt.alloc(), way, lie.bytes, Some(Err(lie.fault)))?;
        }
    }
    Ok(())
}
