//! The program `sdfw`: synchronous dataflow graphs over 16-bit PCM WAV files.
//!
//! `main` provides the streams, the arguments, the environment, the threads and the files of the system. It depends on
//! `sdf_cli`, which reads the arguments, on `sdf_io` for the system's files, and on `sdf_program`, which does the rest.
//! Begin there, at `program::serve`.
#![tactic(auto)]

use sdf_cli::arguments::read_arguments;
use sdf_io::files::MAX_BYTES;
use sdf_io::storage::Disk;
use sdf_io::world::{World, is_variable};
use sdf_program::program::serve;
use std::io::IsTerminal;
use std::process::ExitCode;

fn main(rt: HostRuntime) -> ExitCode {
    let arguments = read_arguments(&rt, rt.alloc());
    let world = World {
        storage: &Disk { rt: &rt },
        threads: &rt,
        most: MAX_BYTES,
        terminal: rt.stderr().is_terminal(),
        dumb: is_variable(&rt, "TERM", "dumb"),
        why: is_variable(&rt, "SDFW_WHY", "1"),
    };
    ExitCode::from(serve(
        &world,
        &mut rt.stdin(),
        &mut rt.stdout(),
        &mut rt.stderr(),
        arguments,
    ))
}
