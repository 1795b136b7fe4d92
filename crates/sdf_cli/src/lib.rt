//! The command line of the program, and what its faults mean.
//!
//! It depends on `clap` and `sdf_limits`, on `sdf_options` for the options of a run, on `sdf_filters` for a filter's
//! parameters, and on `sdf_similar` for suggestions. It knows neither graphs nor audio. Begin at `requests`, the
//! commands after parsing, then `commands`, their arguments and help texts, and `command_line`, the parser. `explained`
//! reads the name of a fault, and `explain` has what each fault means. The definitions are in `specs/Limits.antt` and
//! `specs/Names.antt`.
#![tactic(auto)]

pub mod arguments;
mod command_line;
mod commands;
mod explain;
mod explained;
mod requests;
mod values;

pub use command_line::words;
pub use commands::OVERVIEW;
pub use explain::{explanation, fault_name};
pub use requests::{
    BatchRequest, Conversion, DesignCommand, Format, MAX_FAULT, ParallelWorkers, Picture,
    RunRequest, Why, Words,
};
