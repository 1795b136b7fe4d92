//! Devices for tests, which move few bytes a call or fail at one call, and damaged WAV files. Also a long sound of
//! which nothing is kept, and the threads of the program that runs a test, as the system reports them.
//!
//! It depends on `sdf_wav`, and has no tests: the crates of tests use it, so that the devices are proved once. Begin at
//! `devices`.
#![tactic(auto)]

pub mod devices;
pub mod files;
pub mod long_sounds;
pub mod running_program;

pub use devices::{Faulty, Slip};
pub use long_sounds::{Comparing, LongSound};
pub use running_program::{CountedThreads, ThreadCount};
