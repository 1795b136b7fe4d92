//! The faults of the program: all layers' faults in one type, with their numbers, texts and exit statuses.
//!
//! It depends on the layers whose faults it gathers: `sdf_options` for mistakes on the command line and for texts that
//! are safe to print, `sdf_file` for designs, `sdf_prec` for tables, `sdf_queues` for runs and `sdf_wav` for WAV files.
//! Begin at `Fault`; the definitions are in `specs/Faults.antt` and `specs/Statuses.antt`.
#![tactic(auto)]

mod fault;

pub use fault::{Fault, Progress, Stalled, fault_text, status};
