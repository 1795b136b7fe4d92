//! Tests of what no contract states about the program: commands over files in memory and over real ones, what each
//! prints on which stream, and devices that refuse.
//!
//! It depends on `sdf_program` and `sdf_io`, on `sdf_cli` for the words that are given, on `sdf_profile` for the
//! text with costs, on `sdf_faults`, on `sdf_options` for faults of words, on `test_texts`, and on `test_devices` to
//! count threads and for long sounds. It contains tests only: testing a crate proves its functions once more, so the
//! tests have a crate of their own. Begin at `commands`, which has the call that most tests make, and `shelf`, the
//! files in memory.
#![tactic(auto)]

#[cfg(test)]
mod answers;
#[cfg(test)]
mod batch;
#[cfg(test)]
mod commands;
#[cfg(test)]
mod costs;
#[cfg(test)]
mod faults;
#[cfg(test)]
mod files;
#[cfg(test)]
mod filters;
#[cfg(test)]
mod left;
#[cfg(test)]
mod levels;
#[cfg(test)]
mod long_sounds;
#[cfg(test)]
mod notes;
#[cfg(test)]
mod overwriting;
#[cfg(test)]
mod parallel;
#[cfg(test)]
mod progress;
#[cfg(test)]
mod refused;
#[cfg(test)]
mod replacing;
#[cfg(test)]
mod runners;
#[cfg(test)]
mod shelf;
#[cfg(test)]
mod streams;
#[cfg(test)]
mod terminal;
#[cfg(test)]
mod timed;
