//! What the runners with workers share: node runtimes, and the gate that each firing passes.
//!
//! It depends on `sdf_graph` and `sdf_actor`. Begin at `node`, then `many`, batched firings, then `gate`. The
//! definitions are in `specs/Nodes.antt` and `specs/Many.antt`. `IsLocal` in `sdf_actor` says what a node knows of its
//! own channels, whatever the other nodes do; `laws` has its laws too.
#![tactic(auto)]

pub mod collect;
pub mod gate;
pub mod laws;
pub mod many;
pub mod node;
pub mod node_states;

pub use collect::collect_at;
pub use gate::{ActorId, Gate, NoGate};
pub use many::step_many;
pub use node::{NodeState, append, begin, max_samples, puts, step, takes};
pub use node_states::kept;
