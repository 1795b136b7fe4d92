//! What a run over rings holds before its first firing: rings with their initial samples, and seats. Each worker has a
//! seat, with its nodes and its firing list.
//!
//! `places` has the place of each node, `firing_counts` the firings asked of it, and `openings` the rings. `ring_nodes`
//! makes the nodes, `assignment` the firing lists, and `seats` the seats.

pub(crate) mod assignment;
pub(crate) mod firing_counts;
pub(crate) mod openings;
pub(crate) mod places;
pub(crate) mod ring_nodes;
pub(crate) mod seats;
