//! Prints what `read_wav` returns for each WAV file that is named: the rate, the channels, the frames and the SHA-256
//! of the samples, or the fault.
//!
//! It depends on `sdf_wav`. Begin at `main`.
#![tactic(auto)]

use anyhow::{Context, Result};
use sdf_wav::{FromRead, ToWrite, Wav, read_wav, write_wav};
use sha2::{Digest, Sha256};
use std::alloc::Global;
use std::{env, fs};

/// Returns the SHA-256 of the samples, 16-bit little-endian and interleaved: of the bytes behind the header of the
/// canonical file.
fn digest_of(alloc: Global, wav: &Wav) -> Result<[u8; 32]> {
    let mut writer = ToWrite::new(Vec::new(alloc));
    write_wav(&mut writer, wav)?;
    let file = writer.into_inner();
    let samples = file.get(44..).context("the header is cut off")?;
    Ok(Sha256::digest(samples))
}

fn main(rt: HostRuntime) -> Result<()> {
    for name in env::args(&rt)?.skip(1) {
        let file = fs::open(&rt, &name)?;
        match read_wav(rt.alloc(), &mut FromRead::new(file)) {
            Ok(wav) => {
                let (rate, channels, frames) = (wav.rate(), wav.channels(), wav.frames());
                print!(rt; "{name} | {rate} {channels} {frames} ")?;
                for byte in digest_of(rt.alloc(), &wav)? {
                    print!(rt; "{byte:02x}")?;
                }
                println!(rt; "")?;
            }
            Err(fault) => println!(rt; "{name} | {fault}")?,
        }
    }
    Ok(())
}
