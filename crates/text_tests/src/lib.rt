//! Tests of the texts about designs, for what no contract covers: that analyses, pictures, JSON and diagnostics are
//! written at all, and how they look line by line.
//!
//! It depends on `sdf_analyze`, `sdf_draw`, `sdf_json`, `sdf_why` and `test_texts`, and for designs and faults on
//! `sdf_faults`, `sdf_options`, `sdf_file`, `sdf_document`, `sdf_actor`, `sdf_graph`, `sdf_prec` and `sdf_wav`. It has
//! no functions: tests are in a crate of their own because the functions of a crate are proved again with its tests.
//! Begin at `analyses`.
#![tactic(auto)]

#[cfg(test)]
mod analyses;
#[cfg(test)]
mod designs;
#[cfg(test)]
mod document_diagnostics;
#[cfg(test)]
mod facts;
#[cfg(test)]
mod faults;
#[cfg(test)]
mod net_diagnostics;
#[cfg(test)]
mod pictures;
#[cfg(test)]
mod sound_diagnostics;
