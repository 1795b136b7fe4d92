//! Laws of the ring machine and of rounds. Each is the contract of a function that does nothing except call laws.

ghost use Rattle.sdf_rings.specs.MachineLaws.{RunsPutPrefixes, RunsKeepWithin, RunsGoOn, RunsMoveBlocks};
ghost use Rattle.sdf_rings.specs.MachineLaws.{RunsEndInHistories, OwnNeverWaits, QuiescentReached, QuiescentIsReached};
ghost use Rattle.sdf_rings.specs.Laws.{SomeSeatGoesOn, RoundsFire};

use sdf_actor::Actor;

/// States that what a run has put on each channel is a prefix of the channel's history.
pub fn runs_put_prefixes<A: Actor>()
    ensures { RunsPutPrefixes A.steps }
{}

/// States that no channel exceeds its capacity in a run.
pub fn runs_keep_within<A: Actor>()
    ensures { RunsKeepWithin A.steps }
{
    sdf_actor::laws::one_history::<A>();
}

/// States that a run that is not over can go on.
pub fn runs_go_on<A: Actor>()
    ensures { RunsGoOn A.steps }
{}

/// States that each event of a run moves one of its blocks. When all blocks have moved, each channel was given its
/// history.
pub fn runs_end<A: Actor>()
    ensures count { RunsMoveBlocks A.steps }
    ensures histories { RunsEndInHistories A.steps }
{}

/// States that no actor ever waits for a channel to itself.
pub fn own_never_waits<A: Actor>()
    ensures { OwnNeverWaits A.steps }
{}

/// States that a run leads from one quiescent state to the next, and from the start to each quiescent state.
pub fn quiescent_reached<A: Actor>()
    ensures next { QuiescentReached A.steps }
    ensures from_start { QuiescentIsReached A.steps }
{}

/// States that some seat can do its first firing if all ends are synchronized and firings of a plan are left. A round
/// of all seats, also one made by hand, then does at least one firing.
pub fn rounds_go_on<A: Actor>()
    ensures some { SomeSeatGoesOn A.steps }
    ensures fires { RoundsFire A.steps }
{}
