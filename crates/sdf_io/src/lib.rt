//! The files and streams of the program `sdfw`: it reads and writes them, notes what passes, guards files against
//! overwriting, and replaces them by complete ones.
//!
//! It depends on `sdf_file`, which reads a design, on `sdf_wav` for the sizes of headers, on `sdf_faults`, and on
//! `sdf_options` for texts that are safe to print and for usage errors. `byteorder` reads numbers in a sound's bytes.
//! Begin at `storage`, then `files`, `overwriting` and `replacing`. A run reads through `input`. There `open_ended`
//! reads to the end, and `opening` hides the size of the samples. A run writes through `output`, with `progress` and
//! `levels`; `held` keeps the header until samples follow it. `lanes` counts the samples by SIMD. `world` has what the
//! commands work with.
#![tactic(auto)]

pub mod files;
mod held;
pub mod input;
mod lanes;
mod levels;
mod open_ended;
mod opening;
pub mod output;
pub mod overwriting;
pub mod progress;
pub mod replacing;
pub mod storage;
pub mod world;

pub use levels::{Level, SoundLevels};
