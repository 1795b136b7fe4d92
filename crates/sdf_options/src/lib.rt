//! Options of a schedule or a run, faults of reading a command line, texts that are safe to print, and plurals.
//!
//! It depends on `clap`, whose errors it carries, and on `sdf_limits`. It does not know any command. Begin at
//! `options`. The definitions are in `specs/Limits.antt`, `specs/Words.antt` and `specs/Printable.antt`.
#![tactic(auto)]

mod fault;
mod options;
pub mod plural;
pub mod printable;

pub use fault::{WordFault, usage_error};
pub use options::{
    Options, PLACEMENT_WORDS, PLACEMENTS, POLICIES, POLICY_WORDS, Placement, Policy, RUNNER_WORDS,
    RUNNERS, Runner,
};
