//! Plans of runs, by options or for several workers if these can be faster, and the schedule of a design.
//!
//! It depends on `sdf_options` for the options, and on `sdf_file`, `sdf_kit`, `sdf_actor` and `sdf_graph` for the
//! design. `sdf_sched` orders the firings of a period, and `sdf_prec` makes the table of a block, which workers follow.
//! `sdf_warm_up` finds the warm-up of a part, and `sdf_faults` has the faults of a plan. No call of this crate runs a
//! net. Begin at `planning`; then `parallel` and `schedule`. The definitions are in `specs/Plans.antt`,
//! `specs/Placements.antt`, `specs/ParallelPlans.antt` and `specs/Schedules.antt`.
#![tactic(auto)]

pub mod costs;
pub mod parallel;
mod placement;
mod plan;
pub mod planning;
pub mod schedule;
mod weights;

pub use plan::{Execution, Plan};
