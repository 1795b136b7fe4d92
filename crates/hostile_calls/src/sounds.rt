//! Calls that run a design on a WAV file.

ghost use Rattle.sdf_plan.specs.Plans.{Suits};

use crate::{TURNS, print_turn};
use anyhow::Result;
use sdf_faults::Fault;
use sdf_file::Design;
use sdf_plan::Plan;
use sdf_process::process::process;
use sdf_wav::{FromRead, ToWrite};
use std::io;
use std::thread::Threads;

/// The capacity for what is written, so that the writer does not request memory.
const MAX_WRITTEN: usize = 65_536;

fn print_end(rt: &impl Print, answer: &Result<(), Fault>, written: &[u8]) -> io::Result<()> {
    match answer {
        Ok(()) => println!(rt; "done")?,
        Err(fault) => println!(rt; "{fault}")?,
    }
    println!(rt; "wrote {written:?}")
}

/// Runs a design from one WAV file in memory to another, twice.
pub(crate) fn process_twice<R: AllocGlobal + Print + Sync + Threads>(
    rt: &R,
    design: &Design,
    plan: &Plan,
    sound: &[u8],
) -> Result<()>
    requires { Suits design.now.net plan.now }
{
    for turn in TURNS {
        let mut reader = FromRead::new(sound);
        let mut writer = ToWrite::new(Vec::with_capacity(rt.alloc(), MAX_WRITTEN)?);
        print_turn(rt, turn)?;
        let ended = process(rt, &mut reader, &mut writer, design, plan);
        print_end(rt, &ended, writer.into_inner().as_slice())?;
    }
    Ok(())
}
