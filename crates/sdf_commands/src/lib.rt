//! The commands of the program `sdfw` that do not run a net, and its diagnostics of faults.
//!
//! It depends on `sdf_io` for files and streams, and on `sdf_cli` and `sdf_options` for what is asked.
//! `sdf_file`, `sdf_plan`, `sdf_texts`, `sdf_analyze`, `sdf_draw`, `sdf_json` and `sdf_kinds` make what is printed,
//! and `sdf_filters` makes filters and converters. `sdf_faults` has the faults. `sdf_why` has their diagnostics, also
//! for faults of `sdf_document` and `sdf_prec`. Begin at `printing`, `comparing` and `making`, which have the commands.
//! `diagnostics` chooses the diagnostic of a fault, and `sounds` has those for faults of `sdf_wav`. `details` has the
//! same for JSON, and `remedies` the command that helps against a fault. `notes` has what of a sound a run did not
//! read. `specs/Refusals.antt` defines the lines behind a comparison.
#![tactic(auto)]

pub mod comparing;
mod details;
pub mod diagnostics;
pub mod making;
pub mod notes;
pub mod printing;
mod remedies;
mod sounds;
