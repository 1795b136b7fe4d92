//! The texts that describe a design and its schedule.
//!
//! It depends on `sdf_file`, `sdf_kit`, `sdf_actor` and `sdf_graph` for the design, and on `sdf_sched` and `sdf_prec`
//! for its period and its table. `sdf_plan` makes both by the options of `sdf_options`, or returns a fault of
//! `sdf_faults`. Begin at `texts`; then `schedule`. The definitions are in `specs/Texts.antt` and
//! `specs/Schedules.antt`.
#![tactic(auto)]

pub mod schedule;
pub mod texts;

pub use schedule::{push_link, schedule_text, stretch_at};
pub use texts::check_text;
