//! Figures of a design's schedule, and a comparison of schedules, as numbers and as texts.
//!
//! It depends on `sdf_plan`, which schedules a design, and on `sdf_times`, which computes the times of a schedule.
//! `sdf_options` has the options, and `sdf_faults` the faults of a schedule. `sdf_file` has the names of actors,
//! `sdf_texts` the texts of links, and `sdf_limits` the limits. Designs and tables are values of `sdf_kit`,
//! `sdf_actor`, `sdf_prec`, `sdf_sched` and `sdf_graph`. Begin at `figures` and `analysis`, then `comparison`. The
//! definitions are in `specs/Figures.antt`, `specs/Texts.antt`, `specs/Ways.antt` and `specs/Columns.antt`.
//! `specs/Analyses.antt` and `specs/Comparisons.antt` define what the two calls promise.
#![tactic(auto)]

pub mod analysis;
mod columns;
pub mod comparison;
pub mod figures;
pub mod lines;
mod periods;
mod spans;
mod ways;

pub use analysis::{Analysis, analysis_of, analyze};
pub use columns::{Entry, Measures, Outcome, comparison_text};
pub use comparison::{compare, comparison_entries};
pub use figures::Figures;
