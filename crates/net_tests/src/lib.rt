//! Tests of graphs, schedules, nets and kinds of actor, for what no contract covers: worked ones, and the texts of
//! their faults.
//!
//! It depends on `sdf_graph`, `sdf_sched`, `sdf_actor`, `sdf_kit`, `test_actors` and `test_texts`. It has no functions:
//! tests are in a crate of their own because the functions of a crate are proved again with its tests. Begin at
//! `graphs`.
#![tactic(auto)]

#[cfg(test)]
mod counts;
#[cfg(test)]
mod firing;
#[cfg(test)]
mod graphs;
#[cfg(test)]
mod kinds;
#[cfg(test)]
mod laws;
#[cfg(test)]
mod net_faults;
#[cfg(test)]
mod nets;
#[cfg(test)]
mod parts;
#[cfg(test)]
mod schedules;
