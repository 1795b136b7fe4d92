//! A profile: the time that each actor's firings take in a run, as a text and as the costs of a graph file.
//!
//! It depends on `sdf_plan`, which plans a design, and on `sdf_process`, which runs it and calls a gate before each
//! firing. The gate is from `sdf_run`, and readers and writers are from `sdf_wav`. `sdf_file` has the names of actors
//! and `sdf_actor` their number. `sdf_graph` and `sdf_kit` have the length of a period, and `sdf_document` reads a
//! graph file. The crate also needs `sdf_faults`, `sdf_options` and `sdf_limits`. Begin with `measuring`. `stopwatch`
//! measures, `lines` and `costs` make the report, and `costing` writes the costs into a graph file's text. No contract
//! says what the times or the numbers of firings are. The definitions are in `specs/Profiles.antt`, `specs/Times.antt`,
//! `specs/Costs.antt`, `specs/Places.antt` and `specs/Written.antt`.
#![tactic(auto)]

mod costing;
mod costs;
mod lines;
mod measuring;
mod memory;
mod places;
mod replaced;
mod same;
mod stopwatch;
mod unwritten;

pub use costing::costed_text;
pub use measuring::{Measured, profile};
pub use unwritten::Unwritten;
