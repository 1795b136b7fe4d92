//! Laws over the definitions, each the contract of a function that does nothing.

ghost use Rattle.sdf_warm_up.specs.Laws.{StatesAgree, WarmRunsLeave, WarmRunsGoOn, PartsGoOn};

use sdf_actor::Actor;

/// Shows that a run started late leaves what the run from the start leaves, once the net has forgotten the difference.
pub fn states_agree<A: Actor>()
    ensures { StatesAgree A.steps }
{}

/// Shows that parts of one run can be computed separately and joined. If the last periods of an input warm the net up,
/// a run on them leaves what the run from the start leaves. A later run goes on from either in the same way.
pub fn warm_runs_go_on<A: Actor>()
    ensures leave { WarmRunsLeave A.steps }
    ensures go_on { WarmRunsGoOn A.steps }
    ensures parts { PartsGoOn A.steps }
{}
