//! Tests of what no contract states: worked designs from bytes to bytes, schedules and faults as they are printed, and
//! the words of the command line.
//!
//! It depends on the libraries below the program. It contains tests only: testing a crate proves its functions once
//! more, so the tests have a crate of their own. Begin at `running`, which runs a design over memory, and `designs`.
#![tactic(auto)]

#[cfg(test)]
mod arguments;
#[cfg(test)]
mod as_one;
#[cfg(test)]
mod damaged;
#[cfg(test)]
mod designs;
#[cfg(test)]
mod devices;
#[cfg(test)]
mod fault_rows;
#[cfg(test)]
mod faults;
#[cfg(test)]
mod long_lists;
#[cfg(test)]
mod long_runs;
#[cfg(test)]
mod made;
#[cfg(test)]
mod meetings;
#[cfg(test)]
mod pieces;
#[cfg(test)]
mod plans;
#[cfg(test)]
mod running;
#[cfg(test)]
mod schedules;
#[cfg(test)]
mod small_patience;
#[cfg(test)]
mod texts;
#[cfg(test)]
mod words;
