//! A planned net: a net and its plan.

use sdf_actor::Net;
use sdf_kit::Kit;
use sdf_plan::Plan;

/// A net, and the plan that runs it.
#[derive(Clone, Copy)]
pub(crate) struct PlannedNet<'a> {
    pub(crate) net: &'a Net<Kit>,
    pub(crate) plan: &'a Plan,
}
