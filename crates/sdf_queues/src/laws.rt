//! Laws of runs. Each law is the contract of a function that computes nothing.

ghost use Rattle.std.specs.Prelude.{◌<◌, ℕ, length};
ghost use Rattle.sdf_graph.specs.Rates.{rates, IsShape, IsAlike};
ghost use Rattle.sdf_sched.specs.Period.{Schedule, IsPeriodOf};
ghost use Rattle.sdf_actor.specs.Graphs.{graph_of};
ghost use Rattle.sdf_actor.specs.Nets.{node, wiring, cycle_of, IsNet};
ghost use Rattle.sdf_actor.specs.NetFaults.{WasAccepted};
ghost use Rattle.sdf_queues.specs.Feeds.{FeedsGoOn, ResumedNetsNeed, ResumedNetsMake, SinksMakeRuns, NothingRuns};
ghost use Rattle.sdf_queues.specs.Feeds.{PeriodsMayLeave, ResumedRunsGoOn, ResumedRunsFail};
ghost use Rattle.sdf_queues.specs.Periods.{HasPeriod, HasSinks, AreBlocksSmall};
ghost use Rattle.sdf_queues.specs.Laws.{RunsGoOn, NetsCanRun, HistoriesBegin, SinksTakeAll, SinksMakeOutputs};
ghost use Rattle.sdf_queues.specs.Laws.{NothingMakesNothing};
ghost use Rattle.sdf_queues.specs.Laws.{BlocksAreCounted, NodesTakeTheirs, PlansFit, BlocksStand, FiringsMoveOn};

use sdf_actor::laws::{history_grows_by_firing, one_history};
use sdf_actor::{Actor, Net};

/// States the facts that every run depends on.
pub fn net_facts<A: Actor>(net: &Net<A>)
    ensures net { IsNet A.steps net.now }
    ensures graph { IsShape (graph_of A.steps net.now) }
    ensures alike { IsAlike (rates (graph_of A.steps net.now)) (wiring A.steps net.now).rates }
    ensures accepted { WasAccepted A.steps net.now }
    ensures phases { (a : ℕ) → a < length net.now.nodes → 0 < cycle_of A.steps (node net.now a) }
    ensures sinks { HasSinks net.now }
{
    let _ = net.graph();
}

/// States that a net and any period of it have what the laws of runs need.
pub fn nets_have_periods<A: Actor>(net: &Net<A>)
    ensures { (p : Schedule) → IsPeriodOf (rates (graph_of A.steps net.now)) p → HasPeriod A.steps net.now p }
{
    net_facts(net);
}

/// States that a block of few firings reads and makes few samples.
pub fn blocks_are_small<A: Actor>(net: &Net<A>)
    ensures { AreBlocksSmall A.steps net.now }
{
    net_facts(net);
}

/// States that a net with a period can be run for any number of periods that its inputs reach.
pub fn nets_can_run<A: Actor>()
    ensures { NetsCanRun A.steps }
{}

/// States that the outputs of a run begin with the outputs of a run of fewer periods.
pub fn runs_go_on<A: Actor>()
    ensures { RunsGoOn A.steps }
{
    one_history::<A>();
}

/// States that a run fed in pieces makes, joined, the outputs of one run, and leaves the same net state.
pub fn feeds_go_on<A: Actor, B: Actor<Token = A::Token, State = A::State>>()
    ensures runs { FeedsGoOn A.steps B.steps }
    ensures inputs { ResumedNetsNeed A.steps B.steps }
    ensures outputs { ResumedNetsMake A.steps B.steps }
{}

/// States that a net that begins with what whole periods left can be run in place of the first net, from there on.
pub fn resumed_nets_go_on<A: Actor, B: Actor<Token = A::Token, State = A::State>>()
    ensures whole { PeriodsMayLeave A.steps }
    ensures runs { ResumedRunsGoOn A.steps B.steps }
    ensures faults { ResumedRunsFail A.steps B.steps }
{}

/// States that a history begins with the initial samples of the channels, and that what its sinks took is the outputs.
pub fn histories_make_outputs<A: Actor>()
    ensures begin { HistoriesBegin A.steps }
    ensures took { SinksTakeAll A.steps }
    ensures outputs { SinksMakeOutputs A.steps }
    ensures nothing { NothingMakesNothing A.steps }
{}

/// States that what a history's sinks took, with what is left, is a run.
pub fn histories_make_runs<A: Actor>()
    ensures runs { SinksMakeRuns A.steps }
    ensures nothing { NothingRuns A.steps }
{}

/// States that a node takes from the channels that lead to it, each at one of its ports, and from no other.
pub fn nodes_take_theirs<A: Actor>()
    ensures { NodesTakeTheirs A.steps }
{}

/// States that the sizes of a firing fit its node's ports.
pub fn plans_fit<A: Actor>()
    ensures { PlansFit A.steps }
{}

/// States that a firing of an enabled node takes its block from the front of its channels, and leads from one history
/// to the next.
pub fn firings_move_on<A: Actor>()
    ensures counts { BlocksAreCounted A.steps }
    ensures stand { BlocksStand A.steps }
    ensures moves { FiringsMoveOn A.steps }
{
    history_grows_by_firing::<A>();
}
