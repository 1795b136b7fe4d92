//! The test that the firings at one end of a channel wait for those at the other: for their samples, or for their room.

ghost use Rattle.std.specs.Prelude.{◌≡◌, ℕ, ◌+◌, ◌-◌, ◌*◌, ◌/◌, ◌%◌, ◌^◌, ◌≤◌, ◌<◌, ◌↔◌, length, slice_index, IsTrue};
ghost use Rattle.sdf_graph.specs.Rates.{sum_to};
ghost use Rattle.sdf_graph.specs.Moved.{moves};
ghost use Rattle.sdf_graph.specs.declared.channel.End.{End};
ghost use Rattle.sdf_graph.specs.Rates.{channel, IsShape};
ghost use Rattle.sdf_graph.specs.declared.channel.End.TheVariants.{Source};
ghost use Rattle.sdf_times.specs.Checks.{IsLeastWith, IsLinkInTime, IsLink, IsTried, IsChannelInTime, line};
ghost use Rattle.sdf_times.specs.Checks.{AreSamplesInTime, IsRoomInTime};

use crate::columns::pause_of;
use crate::starts::Starts;
use sdf_graph::{Channel, End, Graph, moved_by};
use sdf_limits::MAX_RATE;
use sdf_prec::{Costs, Table};

/// Firings at one end of a channel, and the samples with them.
#[derive(Clone, Copy)]
pub(crate) struct Moved {
    pub(crate) firings: u32,
    pub(crate) samples: u64,
}

/// Goes on from `from` to the least number of firings at `end` with which there are `wanted` samples, which is at most
/// `most`. There are `lead` samples before the first.
fn advance(channel: &Channel, end: End, lead: u64, from: Moved, wanted: u64, most: u32) -> Moved
    requires put { 0 < length channel.now.put }
    requires take { 0 < length channel.now.take }
    requires small { (i : ℕ) → moves end channel.now i ≤ MAX_RATE }
    requires samples { from.samples ≡ lead + sum_to (moves end channel.now) from.firings }
    requires few { wanted < 2 ^ 50 }
    requires below { 0 < from.firings → lead + sum_to (moves end channel.now) (from.firings - 1) < wanted }
    requires within { from.firings ≤ most }
    requires enough { wanted ≤ lead + sum_to (moves end channel.now) most }
    requires fits { most < 2 ^ 31 }
    requires early { from.samples < 2 ^ 51 }
    ensures samples { result.samples ≡ lead + sum_to (moves end channel.now) result.firings }
    ensures least { IsLeastWith (moves end channel.now) lead wanted result.firings }
    ensures within { result.firings ≤ most }
    ensures early { result.samples < 2 ^ 51 }
{
    let mut firings = from.firings;
    let mut samples = from.samples;
    while samples < wanted {
        samples += u64::from(channel.moves(end, firings));
        firings += 1;
    }
    Moved { firings, samples }
}

/// Checks whether no firing at the end `waits` of a channel, in a schedule that repeats itself every `t`, starts sooner
/// than `pause` after the last firing at `other` for which it waits. Each block moves `whole` samples, and what `first`
/// firings move is there from the beginning.
fn link_in_time(
    channel: &Channel,
    waits: End,
    other: End,
    first: u64,
    whole: u64,
    waiting: &Starts,
    there: &Starts,
    pause: u128,
    t: u64,
) -> bool
    requires link { IsLink channel.now waits other whole waiting.now there.now }
    requires first { first < 2 ^ 40 }
    requires pause { pause < 2 ^ 96 }
    ensures { IsTrue result ↔ IsLinkInTime (moves waits channel.now) (moves other channel.now) (first % whole) whole
        (first / whole) waiting.now there.now pause t }
{
    let lead = first % whole;
    let back = first / whole;
    let most = 2 * there.len() as u32;
    let mut moved = Moved {
        firings: 0,
        samples: lead,
    };
    let mut wanted = whole;
    for number in 0..waiting.len() {
        wanted += u64::from(channel.moves(waits, number as u32));
        moved = advance(channel, other, lead, moved, wanted, most);
        let start = u128::from(waiting.of(number)) + u128::from(t) * u128::from(1 + back);
        if there.repeating(moved.firings - 1, t) + pause > start {
            return false;
        }
    }
    true
}

/// Returns channel `number`.
pub(crate) fn channel_at(graph: &Graph, number: usize) -> &Channel
    requires { number < length graph.now.channels }
    ensures is { result.now ≡ channel graph.now number }
    ensures shape { IsShape graph.now }
{
    &graph.channels()[number]
}

/// Returns the starts of `actor`.
fn line_of(starts: &[Starts], actor: usize) -> &Starts
    requires { actor < length starts.now }
    ensures { result.now ≡ line starts.now actor }
{
    &starts[actor]
}

/// Returns the samples that a block moves on `channel`, whose source has these starts in a block.
fn whole_of(channel: &Channel, from: &Starts) -> u64
    requires some { 0 < length channel.now.put }
    requires small { (i : ℕ) → slice_index channel.now.put i ≤ MAX_RATE }
    requires few { length from.now < 2 ^ 33 }
    ensures { result ≡ sum_to (moves Source channel.now) (length from.now) }
{
    moved_by(&channel.put, from.len() as u64)
}

/// Checks whether the firings of the target of channel `number` wait for their samples. Times are in units of `1/q`.
fn samples_in_time(
    graph: &Graph,
    table: &Table,
    costs: &Costs,
    starts: &[Starts],
    t: u64,
    q: u64,
    number: usize,
) -> bool
    requires known { number < length graph.now.channels }
    requires tried { IsTried graph.now table.now costs.now starts.now }
    ensures { IsTrue result ↔ AreSamplesInTime (channel graph.now number) (slice_index costs.now) starts.now t q }
{
    let _rows = table.rows();
    let channel = channel_at(graph, number);
    let from = line_of(starts, channel.from);
    let to = line_of(starts, channel.to);
    let whole = whole_of(channel, from);
    let pause = pause_of(costs, channel.from, q);
    link_in_time(
        channel,
        End::Target,
        End::Source,
        channel.initial as u64,
        whole,
        to,
        from,
        pause,
        t,
    )
}

/// Checks whether the firings of the source of channel `number` wait for room.
fn room_in_time(
    graph: &Graph,
    table: &Table,
    costs: &Costs,
    starts: &[Starts],
    t: u64,
    number: usize,
) -> bool
    requires known { number < length graph.now.channels }
    requires tried { IsTried graph.now table.now costs.now starts.now }
    ensures { IsTrue result ↔ IsRoomInTime (channel graph.now number) (slice_index table.now.caps number) starts.now t }
{
    let channel = channel_at(graph, number);
    let from = line_of(starts, channel.from);
    let to = line_of(starts, channel.to);
    let whole = whole_of(channel, from);
    let room = table.cap(number) - channel.initial as u64;
    link_in_time(
        channel,
        End::Source,
        End::Target,
        room,
        whole,
        from,
        to,
        0,
        t,
    )
}

/// Checks whether the firings at both ends of channel `number` wait for those at the other end: the target for samples,
/// and the source for room. Times are in units of `1/q`.
pub(crate) fn channel_in_time(
    graph: &Graph,
    table: &Table,
    costs: &Costs,
    starts: &[Starts],
    t: u64,
    q: u64,
    number: usize,
) -> bool
    requires known { number < length graph.now.channels }
    requires tried { IsTried graph.now table.now costs.now starts.now }
    ensures { IsTrue result ↔ IsChannelInTime (channel graph.now number) (slice_index table.now.caps number)
        (slice_index costs.now) starts.now t q }
{
    if !samples_in_time(graph, table, costs, starts, t, q, number) {
        return false;
    }
    let channel = channel_at(graph, number);
    channel.from == channel.to || room_in_time(graph, table, costs, starts, t, number)
}
