//! Self-timed execution over bounded rings: each actor fires when it can, and the laws cover every order of the moves.
//!
//! It depends on `sdf_graph`, `sdf_sched`, `sdf_prec`, `sdf_actor`, `sdf_node`, `sdf_queues`, `sdf_limits` and the
//! rings of `rtrb`. Begin at `specs/Machine.antt`, the ring machine. `specs/MachineLaws.antt` states its laws,
//! `specs/Laws.antt` the laws of rounds, and `specs/Pair.antt` shows one ring at work.
//!
//! The code begins at `seat`, where `work` is one worker's round through its `firing_list`. In its folder `ring_node`
//! is a node with its ring ends, and `batch` fires batches of one node. `specs/RingNodes.antt`, `specs/Batches.antt`
//! and `specs/Seats.antt` say what a node knows of its own channels, and when its firings are batched. `ends` moves the
//! blocks of one firing, and `run_ends` the blocks of a batch. `own_rings` is about the channels from a node to itself.
//!
//! `rings` makes rounds by hand or until nothing is left. In its folder `round` runs all workers (`workers`) in
//! parallel: of those with firings left, the last in the caller's thread, each other in a new one (`busy`). `meet`
//! synchronizes all ends, `finish` moves out the lists of the sinks, and `leave` takes what else the seats hold.
//! `prepare` makes the seats of a run, with what `setup` has. `runner` does all of it (`specs/Asks.antt`,
//! `specs/Outcome.antt`). `feed` makes runs that another run can resume.
#![tactic(auto)]

pub mod feed;
pub mod laws;
pub mod pair;
mod prepare;
pub mod rings;
pub mod runner;
pub mod seat;
mod setup;
mod workers;

pub use feed::{feed_rings, resume_rings};
pub use rings::Rings;
pub use runner::run_rings;
pub use seat::firing_list::FiringList;
pub use seat::ring_node::RingNode;
pub use seat::{Seat, work};
pub use workers::Workers;
