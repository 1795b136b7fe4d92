//! Tests of tables, for what no contract covers: worked graphs, their levels, their tables by homes and by Hu's rule,
//! and what `accept` refuses.
//!
//! It depends on `sdf_graph`, `sdf_sched`, `sdf_prec`, `sdf_times`, `test_actors` and `test_texts`. It has no
//! functions: tests are in a crate of their own because the functions of a crate are proved again with its tests. Begin
//! at `graphs`, the graphs of the tests.
#![tactic(auto)]

#[cfg(test)]
mod graphs;
#[cfg(test)]
mod hu_rows;
#[cfg(test)]
mod levels;
#[cfg(test)]
mod limits;
#[cfg(test)]
mod slow_times;
#[cfg(test)]
mod tables;
#[cfg(test)]
mod worked_periods;
#[cfg(test)]
mod worked_times;
