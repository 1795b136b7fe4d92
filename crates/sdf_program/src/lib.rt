//! The program `sdfw`: its commands, over a file system, streams and threads that the caller provides.
//!
//! It depends on `sdf_cli`, which reads the command line into the options of `sdf_options`, and on `sdf_io` for
//! files and streams. `sdf_commands` has the commands that do not run a net. It also reports faults, and so do
//! `sdf_why` and `sdf_json`. `sdf_file` and `sdf_plan` read and plan a design, `sdf_process` runs it, and `sdf_profile`
//! measures a run. `sdf_faults` has the faults. The project's main promise is the contract of `sdf_process::process`.
//! Devices of `sdf_wav` read and write the bytes of a WAV file. Begin at `program::serve`, then `running`, `batch` and
//! `profiling`, which have the commands that run a net. `plans` makes the plan of a run. `items` has the places where
//! the files of a batch are written, and `guards` refuses places that would overwrite what the batch reads. `desk`
//! reports their outcomes (`outcome`) in file order, and `count` shows how many are done.
#![tactic(auto)]

mod batch;
mod count;
mod desk;
mod guards;
mod items;
mod outcome;
mod plans;
mod profiling;
pub mod program;
mod running;
