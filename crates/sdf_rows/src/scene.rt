//! The data that all firings of a run share.

use sdf_actor::{Actor, Net};
use sdf_queues::Sizes;

/// The data that all firings of a run share.
#[derive(Drop)]
pub(crate) struct Scene<'a, A: Actor, G> {
    pub(crate) net: &'a Net<A>,
    pub(crate) inputs: &'a [Vec<A::Token>],
    pub(crate) sizes: Sizes,
    pub(crate) gate: &'a G,
}
