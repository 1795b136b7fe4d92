//! Reads graph files and coefficient files, which are TOML, as tested entries.
//!
//! `read_document` returns the entries of a graph file, or the first test that it fails. `file_names` returns the
//! coefficient files that it names. A caller of both parses once with `GraphFile::parse`. The rows of `sdf_kinds`
//! list the keys of each kind. The crate also depends on `sdf_limits`, `toml` and `indexmap`. Begin at `entry` and
//! `document`. The definitions, in the order of the tests, are in `specs/Document.antt`, `specs/Actors.antt`,
//! `specs/Kinds.antt` and `specs/Links.antt`.
#![tactic(auto)]

mod actor;
mod document;
mod entry;
mod fault;
mod file;
mod key;
mod kind;
mod link;
mod list;
mod name;
mod table;
mod value;

pub use document::{GraphFile, MAX_HZ, file_names, read_document, top_keys};
pub use entry::{ActorEntry, Document, KindEntry, LinkEntry, ListEntry};
pub use fault::{DocumentFault, Place, ReadFault};
pub use file::{CoefficientFile, file_keys, file_named};
pub use kind::kind_named;
pub use link::link_keys;
pub use list::{Limits, fit_width};
