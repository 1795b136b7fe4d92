//! Nets that forget: after enough periods on the last part of its input, a net is where it would be after all of it.
//!
//! It depends on `sdf_queues`, `sdf_kit`, `sdf_actor`, `sdf_graph`, `sdf_sched` and `sdf_limits`. Begin with
//! `specs/Warm.antt`. It defines what an actor remembers. It also defines from which firing an actor of a net started
//! late does what it does in a run from the start. Then read `laws`, `memory` (what actors remember) and `warm_up` (the
//! periods that a net needs, or why it has none).
#![tactic(auto)]

pub mod laws;
pub mod memory;
pub mod warm_up;
