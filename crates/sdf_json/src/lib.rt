//! The JSON that the commands print: a design, its schedule, its analysis, a comparison of schedules, the levels of a
//! run, the kinds of actors, and a fault with what a diagnostic says about it.
//!
//! It depends on `sdf_plan`, which schedules a design, and on `sdf_analyze`, which computes the figures of a schedule.
//! `sdf_file` and `sdf_document` read designs, `sdf_kinds` has the rows of the kinds, and `sdf_faults` gathers the
//! faults of the program. `sdf_texts` finds the stretches of an order. The values printed belong to `sdf_options`,
//! `sdf_wav`, `sdf_kit`, `sdf_actor`, `sdf_prec`, `sdf_sched` and `sdf_graph`. Begin at `designs`, then `schedules`,
//! `analyses`, `comparisons`, `runs`, `kinds`, `faults` and `details`. The values are in `specs/Designs.antt`,
//! `specs/Schedules.antt`, `specs/Analyses.antt`, `specs/Comparisons.antt`, `specs/Runs.antt`, `specs/Kinds.antt`,
//! `specs/Ports.antt`, `specs/Faults.antt` and `specs/Details.antt`.
//! `IsLineOf` of `specs/Values.antt` says that a text is one compact line that reads as its value.
#![tactic(auto)]

mod analyses;
mod comparisons;
mod design_faults;
mod designs;
mod details;
mod fault_members;
mod faults;
mod kinds;
pub mod ports;
mod run_faults;
mod runs;
mod schedules;
mod tables;
mod values;

pub use analyses::analysis_json;
pub use comparisons::comparison_json;
pub use designs::check_json;
pub use details::Details;
pub use faults::fault_json;
pub use kinds::kinds_json;
pub use runs::{OutputLevels, run_json};
pub use schedules::schedule_json;
