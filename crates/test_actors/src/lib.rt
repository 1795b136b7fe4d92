//! Actors for tests, gates that count firings and hold some of them, and makers of small nets and graphs.
//!
//! It depends on `sdf_actor`, `sdf_node` and `sdf_graph`, and has no tests of its own. The test crates above it share
//! it, so that each actor is proved once. Begin at `actors`, then read `gates`.
#![tactic(auto)]

pub mod actors;
pub mod gates;
pub mod graphs;
pub mod nets;
pub mod watched;

pub use actors::{Regroup, Sum, Swap, Twice};
pub use watched::Watched;
