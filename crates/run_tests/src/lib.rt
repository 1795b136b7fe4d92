//! Tests of what no contract states about runs of nets: worked nets, run by each runner, by hand and in pieces.
//!
//! It depends on the libraries up to `sdf_run`, on `sdf_kit`, `test_actors` and `test_texts`. It contains tests only:
//! testing a crate proves its functions once more, so the tests have a crate of their own. Begin at `nets` and `kits`,
//! which have the nets of the tests, their tables and their runs.
#![tactic(auto)]

#[cfg(test)]
mod as_one;
#[cfg(test)]
mod by_hand;
#[cfg(test)]
mod faults;
#[cfg(test)]
mod kits;
#[cfg(test)]
mod long_runs;
#[cfg(test)]
mod meetings;
#[cfg(test)]
mod nets;
#[cfg(test)]
mod passes;
#[cfg(test)]
mod patience;
#[cfg(test)]
mod sessions;
#[cfg(test)]
mod small_nets;
#[cfg(test)]
mod spare_memory;
#[cfg(test)]
mod turns;
