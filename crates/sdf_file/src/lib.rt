//! Designs from files.
//!
//! It depends on `sdf_document`, which reads the files as entries within the limits of `sdf_kinds`. It makes a net of
//! the entries, with the types of `sdf_actor` and `sdf_kit`. Begin at `design`; the definitions are in
//! `specs/Designs.antt`.
#![tactic(auto)]

pub mod design;
pub mod fault;
mod parts;

pub use design::{Design, coefficient_files, design_files, make_design, parse_graph, read_design};
pub use fault::FileFault;
pub use sdf_document::{CoefficientFile, DocumentFault, GraphFile, Place};
