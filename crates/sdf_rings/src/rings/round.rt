//! A round: all workers with firings left run in parallel.

ghost use Rattle.std.specs.Prelude.{All};
ghost use Rattle.sdf_actor.specs.Nets.{IsNet};
ghost use Rattle.sdf_actor.specs.Wires.{lists};
ghost use Rattle.sdf_rings.specs.Changes.{AllBecame};
ghost use Rattle.sdf_rings.specs.Seats.{IsSeat, HasRounded};

use crate::rings::busy::for_each_busy;
use crate::seat::{Seat, work};
use crate::workers::Workers;
use sdf_actor::{Actor, Net};
use sdf_node::Gate;
use std::thread::Threads;

/// Runs one round of each worker. Of those with firings left, the last runs in this thread, each other in a new one.
pub(crate) fn run_round<R: Threads + Sync, A: Actor, G: Gate>(
    workers: Workers<'_, R, G>,
    net: &Net<A>,
    inputs: &[Vec<A::Token>],
    seats: &mut [Seat<A>],
)
    requires net { IsNet A.steps net.now }
    requires seats { All (IsSeat A.steps net.now (lists inputs.now)) seats.old }
    ensures { AllBecame (HasRounded A.steps net.now (lists inputs.now)) seats.old seats.new }
{
    let Workers { rt, gate, patience } = workers;
    for_each_busy(
        rt,
        &|_: usize, seat: &mut Seat<A>|
            requires { IsNet A.steps net.now × IsSeat A.steps net.now (lists inputs.now) seat.now }
            ensures { HasRounded A.steps net.entry.now (lists inputs.entry.now) seat.entry.now seat.exit.now }
        {
            work(net, inputs, seat, patience, gate);
        },
        0,
        seats,
    );
}
