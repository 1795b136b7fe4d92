//! Inputs of the program `bench_jobs`, made by a seed: texts of graph files, and noise as WAV files. They have a crate
//! of their own, so that they are proved without the libraries of that program.
//!
//! It depends on std, `rand_core` and `rand_xoshiro`. Begin with `graphs`, then `noise` and `numbers`.
#![tactic(auto)]

mod chain;
mod forms;
pub mod graphs;
pub mod long;
pub mod noise;
pub mod numbers;
mod staged;
