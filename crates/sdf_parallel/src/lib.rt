//! Runs that are split in time: the parts of one run, computed in parallel.
//!
//! It depends on `sdf_warm_up`, `sdf_one`, `sdf_queues`, `sdf_actor`, `sdf_graph` and `sdf_sched`. Begin with `split`:
//! a run in parts goes on from a net's state as a run on one thread does (`sdf_one::resume_one`). Then read `part_io`,
//! what parts read and what their outputs become, and `part_workers`, which run the parts in memory that lasts.
//! `beside` starts them, `bounds` says where parts begin, `part` is one of them, in stretches, and `size` says how long
//! it is at least.
#![tactic(auto)]

mod beside;
mod bounds;
mod part;
pub mod part_io;
mod part_workers;
mod size;
pub mod split;

pub use part::Split;
pub use part_io::PartIo;
pub use part_workers::PartWorkers;
pub use size::part_size;
pub use split::resume_split;
