//! The start and end times of a table's firings, the loads of its columns, and lower bounds for any table of its block.
//!
//! It depends on `sdf_graph`, `sdf_sched`, `sdf_prec` and `sdf_limits`. Begin at `times`, then `bounds`. `laws` has
//! what is true of all tables. The definitions are in `specs/Times.antt`, the statements in `specs/Laws.antt`.
//!
//! `rows` has the time of a block row by row. `search` finds the period of self-timed runs, and `certificate` checks
//! what it finds. The definitions are in `specs/ByRows.antt`, `specs/SelfTimed.antt` and `specs/Certificates.antt`, the
//! statements in `specs/Periods.antt`.
#![tactic(auto)]

pub mod bounds;
pub mod certificate;
mod columns;
pub mod laws;
mod links;
mod loads;
mod needs;
mod round;
pub mod rows;
pub mod samples;
mod schedules;
pub mod search;
mod starts;
pub mod step;
pub mod times;
mod walk;

pub use bounds::{bound, span, work};
pub use rows::by_rows;
pub use samples::held;
pub use times::Times;
