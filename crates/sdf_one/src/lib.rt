//! Runs of nets on one thread.
//!
//! It depends on `sdf_queues`, `sdf_graph`, `sdf_sched`, `sdf_actor` and `sdf_node`. Begin with `feed`: a run and the
//! net state that it leaves. Another run can go on from there, and use the same memory (`spare_memory`). `one` is the
//! run alone. Then read `run_inputs` (its inputs and firings), `lengths` (how many periods its blocks have), `run` (its
//! state), `work` (the runtime of a node), `block` (the blocks of its firings), and `cycles` (the samples that whole
//! cycles of a node move).
#![tactic(auto)]

mod block;
mod cycles;
pub mod feed;
mod lengths;
pub mod one;
mod run;
mod run_inputs;
mod setup;
mod spare_memory;
mod work;

pub use feed::{feed_one, resume_one, resume_one_in};
pub use one::run_one;
pub use run_inputs::RunInputs;
pub use spare_memory::SpareMemory;
