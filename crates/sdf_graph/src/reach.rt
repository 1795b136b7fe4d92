//! The actors that channels, walked both ways, join to actor 0.

ghost use Rattle.std.specs.Prelude.{◌≡◌, ℕ, ◌<◌, Some, None, length, slice_index_or, MatchOption, MatchResult};
ghost use Rattle.sdf_graph.specs.Rates.{GraphValue, no_channel};
ghost use Rattle.sdf_graph.specs.Faults.{IsConnected, IsLowestUnreached, numbers_fault};
ghost use Rattle.sdf_graph.specs.Marks.{AreJoined, AreReached, IsClosed, IsBorder, IsJoin};

use crate::channel::Channel;
use crate::fault::GraphFault;
use crate::graph::numbers_fault;
use sdf_limits::MAX_ACTORS;

/// Marks the actors that channels, walked both ways, join to actor 0. It errs with the first fault of the graph's
/// numbers, if they have one.
pub fn joined(actors: usize, channels: &[Channel]) -> Result<[bool; MAX_ACTORS], GraphFault>
    ensures { let shape : GraphValue = record { actors = actors; channels = channels.now } in
        MatchResult result (λ marked. (numbers_fault shape ≡ None) × AreJoined shape marked)
        (λ fault. numbers_fault shape ≡ Some fault) }
{
    match numbers_fault(actors, channels) {
        Some(fault) => Err(fault),
        None => Ok(reached(actors, channels)),
    }
}

/// Returns the lowest actor that channels, walked both ways, do not join to actor 0.
pub(crate) fn lowest_unreached(actors: usize, channels: &[Channel]) -> Option<usize>
    requires { numbers_fault (record { actors = actors; channels = channels.now }) ≡ None }
    ensures { let shape : GraphValue = record { actors = actors; channels = channels.now } in
        MatchOption result (IsConnected shape) (IsLowestUnreached shape) }
{
    let marked = reached(actors, channels);
    for actor in 0..actors {
        if !marked[actor] {
            return Some(actor);
        }
    }
    None
}

/// Marks the actors that channels, walked both ways, join to actor 0.
fn reached(actors: usize, channels: &[Channel]) -> [bool; MAX_ACTORS]
    requires { numbers_fault (record { actors = actors; channels = channels.now }) ≡ None }
    ensures marked { AreReached (record { actors = actors; channels = channels.now }) result }
    ensures closed { IsClosed channels.now result }
{
    let mut marked = [false; MAX_ACTORS];
    marked[0] = true;
    while let Some((_, actor)) = border(channels, &marked) {
        marked[actor] = true;
    }
    marked
}

/// Finds a channel with one marked end and one unmarked end. It returns the channel's number and the unmarked actor.
pub(crate) fn border(channels: &[Channel], marked: &[bool]) -> Option<(usize, usize)>
    requires { (c : ℕ) → c < length channels.now →
        IsJoin (length marked.now) (slice_index_or channels.now c no_channel).from
        (slice_index_or channels.now c no_channel).to }
    ensures { MatchOption result (IsClosed channels.now marked.now)
        (λ found. IsBorder channels.now marked.now found.0 found.1) }
{
    for (number, channel) in channels.iter().enumerate() {
        if marked[channel.from] && !marked[channel.to] {
            return Some((number, channel.to));
        }
        if marked[channel.to] && !marked[channel.from] {
            return Some((number, channel.from));
        }
    }
    None
}
