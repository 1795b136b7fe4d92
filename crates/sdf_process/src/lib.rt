//! The run of a design by its plan on a WAV file, from bytes to bytes.
//!
//! It depends on `sdf_plan` for the plan, and on `sdf_faults`. `sdf_file`, `sdf_kit`, `sdf_actor`, `sdf_graph`,
//! `sdf_sched` and `sdf_prec` have the design, its period and its table. `sdf_run`, `sdf_parallel`, `sdf_warm_up` and
//! `sdf_queues` do the run. `sdf_wav` reads and writes the files, and `sdf_limits` has the limits. Begin with
//! `process`, whose contract states the purpose of the project; then `laws`. `running` opens the input and writes the
//! header of the output. `opened_output` runs the rest by the plan: `streaming` takes the frames of a `source` a piece
//! at a time, and feeds them to a session or a `player`, which may cut them in time (`part_sizes`). The definitions are
//! in `specs/Output.antt`, `specs/Run.antt` and `specs/Cuts.antt`.
#![tactic(auto)]

mod flow;
mod io_rates;
pub mod laws;
mod opened_output;
pub mod part_sizes;
mod planned_net;
mod player;
mod portion;
pub mod process;
mod runner;
mod running;
mod samples;
mod source;
mod stages;
mod streaming;
mod writing;
