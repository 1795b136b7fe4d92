//! A ring at work: two actors that move blocks of 2 and of 3 samples, and a capacity of 6.

ghost use Rattle.sdf_rings.specs.Pair.{PairIsPlanned, PairFills, PairGoesOn};

use sdf_actor::Actor;

/// States that three blocks of 2 fill the ring, and that taking a block of 3 makes room for the next.
pub fn pair_at_work<A: Actor>()
    ensures fills { PairFills A.steps }
    ensures goes_on { PairGoesOn A.steps }
{}

/// States that the example's table is valid, so that the laws apply. Each actor is at home on a processor of its own.
pub fn pair_is_planned<A: Actor>()
    ensures { PairIsPlanned A.steps }
{}
