//! The inputs and outputs of a net's run, whatever runs it.
//!
//! It depends on `sdf_graph`, `sdf_sched`, `sdf_actor`, `sdf_node` and `sdf_limits`, and every runner depends on it.
//! Begin at `specs/RunResults.antt`: the inputs of a run, and its outputs as lists of the histories. Then read `inputs`
//! and `outputs`, the tests and the lists of a run; `sizes`, the samples that firings move; `queue`, the samples on a
//! channel; `blocks`, the samples that a firing moves at its ports; `many_blocks`, the samples of batched firings
//! (`parts`: at one port; `pairs`: at two); and `rooms`, how many samples fit on a channel. Every runner's proof uses
//! `laws`.
#![tactic(auto)]

pub mod blocks;
pub mod fault;
pub mod inputs;
pub mod laws;
pub mod many_blocks;
pub mod outputs;
pub mod pairs;
pub mod parts;
pub mod queue;
pub mod rooms;
pub mod sizes;

pub use fault::RunFault;
pub use outputs::Ran;
pub use queue::Queue;
pub use sizes::Sizes;
