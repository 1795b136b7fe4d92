//! All runners of nets under one name, and runs that are fed in pieces.
//!
//! It depends on `sdf_queues`, `sdf_one`, `sdf_rows`, `sdf_rings`, `sdf_graph`, `sdf_sched`, `sdf_prec`, `sdf_actor`,
//! `sdf_node` and `sdf_limits`. Begin with `session`, a run that is fed in pieces, by rows (`sdf_rows`) or over rings
//! (`sdf_rings`), as its `mode` says. The runner on one thread is in `sdf_one`. The inputs and outputs of all runners
//! are defined in `sdf_queues`.
#![tactic(auto)]

pub mod mode;
pub mod session;

pub use mode::Mode;
pub use sdf_node::{ActorId, Gate, NoGate};
pub use sdf_one::{RunInputs, SpareMemory, feed_one, resume_one, resume_one_in, run_one};
pub use sdf_prec::BlockTable;
pub use sdf_queues::{Ran, RunFault, laws};
pub use sdf_rings::{Rings, Workers, run_rings};
pub use sdf_rows::run_rows;
pub use session::{Closed, Session, SessionTerms};
