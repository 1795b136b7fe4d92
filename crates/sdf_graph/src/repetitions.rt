// The repetition vector. A walk over the channels finds the rates of the actors relative to actor 0 as fractions.

ghost use Rattle.std.specs.Prelude.{◌≡◌, ℕ, ◌*◌, ◌≤◌, ◌<◌, ◌≢◌, ◌↔◌, List, length, map, sum, sum_by, slice_index};
ghost use Rattle.std.specs.Prelude.{slice_index_or, set, IsTrue, MatchOption, MatchResult, IfOk};
ghost use Rattle.std.specs.Int.{IsGcd};
ghost use Rattle.sdf_graph.specs.Rates.{GraphValue, IsShape, rates};
ghost use Rattle.sdf_graph.specs.Periods.{Divides, IsLeastPeriod};
ghost use Rattle.sdf_graph.specs.Faults.{IsPeriodFault};
ghost use Rattle.std.specs.List.{range_with_len};
ghost use Rattle.sdf_graph.specs.Marks.{IsBorder};
ghost use Rattle.sdf_graph.specs.RelativeRates.{ratio, IsReduced, IsRatio, IsSmall, IsWalk, AreRatios, IsBalanced};
ghost use Rattle.sdf_graph.specs.RelativeRates.{IsCommon};
ghost use Rattle.sdf_graph.specs.RelativeRates.{firings, IsBalancedAt, IsScaleFault, no_totals};

use crate::balance::balance_of;
use crate::channel::Totals;
use crate::fault::GraphFault;
use crate::graph::Graph;
use crate::reach::border;
use sdf_limits::{MAX_ACTORS, MAX_CYCLE, MAX_PERIOD, MAX_RATE};
use std::alloc::Global;
use std::marker::Model;

/// An actor's relative firing rate: its cycles for each cycle of actor 0, as a fraction.
#[derive(Clone, Copy)]
pub(crate) struct Ratio {
    pub(crate) num: u64,
    pub(crate) den: u64,
}

/// Returns the greatest common divisor of `a` and `b`, which scales as they do.
fn gcd(a: u64, b: u64) -> u64
    requires { 0 < a }
    ensures some { 0 < result }
    ensures divides { (c : ℕ) → IsGcd (a * c) (b * c) (result * c) }
{
    let mut x = a;
    let mut y = b;
    while y != 0 {
        let rest = x % y;
        x = y;
        y = rest;
    }
    x
}

/// Returns the fraction of `num` and `den` in lowest terms.
pub(crate) fn lowest_terms(num: u64, den: u64) -> Ratio
    requires top { 0 < num }
    requires bottom { 0 < den }
    ensures { IsReduced num den result.num result.den }
{
    let both = gcd(num, den);
    Ratio {
        num: num / both,
        den: den / both,
    }
}

/// Returns the lowest channel that the relative rates `ratios` do not balance.
fn unbalanced_channel(channels: &[Totals], ratios: &[Ratio]) -> Option<usize>
    requires from_in { (c : ℕ) → c < length channels.now →
        (slice_index_or channels.now c no_totals).from < length ratios.now }
    requires to_in { (c : ℕ) → c < length channels.now →
        (slice_index_or channels.now c no_totals).to < length ratios.now }
    requires small { (a : ℕ) → a < length ratios.now → IsSmall (ratio ratios.now a) }
    requires put_small { (c : ℕ) → c < length channels.now →
        (slice_index_or channels.now c no_totals).put ≤ MAX_RATE * MAX_CYCLE }
    requires take_small { (c : ℕ) → c < length channels.now →
        (slice_index_or channels.now c no_totals).take ≤ MAX_RATE * MAX_CYCLE }
    ensures { MatchOption result
        ((c : ℕ) → c < length channels.now → IsBalanced ratios.now (slice_index_or channels.now c no_totals))
        (λ c. (c < length channels.now) × (IsBalanced ratios.now (slice_index_or channels.now c no_totals) → ⊥)
        × ((d : ℕ) → d < c → IsBalanced ratios.now (slice_index_or channels.now d no_totals))) }
{
    for (i, channel) in channels.iter().enumerate() {
        let from = ratios[channel.from];
        let to = ratios[channel.to];
        if !is_balanced(channel, from, to) {
            return Some(i);
        }
    }
    None
}

/// Checks whether the relative rates `from` and `to` balance `channel`.
fn is_balanced(channel: &Totals, from: Ratio, to: Ratio) -> bool
    requires from_small { IsSmall from }
    requires to_small { IsSmall to }
    requires put_small { channel.now.put ≤ MAX_RATE * MAX_CYCLE }
    requires take_small { channel.now.take ≤ MAX_RATE * MAX_CYCLE }
    ensures { IsTrue result ↔ (from.num * channel.now.put * to.den ≡ to.num * channel.now.take * from.den) }
{
    from.num * u64::from(channel.put) * to.den == to.num * u64::from(channel.take) * from.den
}

/// Returns the relative rate of a channel's unreached end. `near` is the rate of the reached end, which moves `gives`
/// samples in a cycle; the unreached end moves `takes`.
fn rate_across(near: Ratio, gives: u32, takes: u32) -> Ratio
    requires small { IsSmall near }
    requires gives_small { gives ≤ MAX_RATE * MAX_CYCLE }
    requires takes_small { takes ≤ MAX_RATE * MAX_CYCLE }
    requires top { (0 < near.num) × (0 < gives) }
    requires bottom { (0 < near.den) × (0 < takes) }
    ensures { IsReduced (near.num * gives) (near.den * takes) result.num result.den }
{
    lowest_terms(near.num * u64::from(gives), near.den * u64::from(takes))
}

/// Returns the least common multiple of the denominators of `ratios`, unless it is over `MAX_PERIOD`.
fn common_denominator(ratios: &[Ratio]) -> Option<u64>
    requires { (a : ℕ) → a < length ratios.now → (0 < (ratio ratios.now a).den) × IsSmall (ratio ratios.now a) }
    ensures { MatchOption result
        ((n : ℕ) → 0 < n → ((a : ℕ) → a < length ratios.now → Divides (ratio ratios.now a).den n) → MAX_PERIOD < n)
        (λ m. (m ≤ MAX_PERIOD) × IsCommon ratios.now (length ratios.now) m) }
{
    let mut all = 1;
    for part in ratios {
        let rest = lowest_terms(all, part.den);
        all *= rest.den;
        if all > MAX_PERIOD {
            return None;
        }
    }
    Some(all)
}

/// Returns the firings of each actor in `all` cycles of actor 0, unless their sum is over `MAX_PERIOD`.
fn repetitions_in(
    alloc: Global,
    cycles: &[u32],
    ratios: &[Ratio],
    all: u64,
) -> Result<Repetitions, GraphFault>
    requires limit { all ≤ MAX_PERIOD }
    requires same { length cycles.now ≡ length ratios.now }
    requires short { (a : ℕ) → slice_index cycles.now a ≤ MAX_CYCLE }
    requires each { (a : ℕ) → a < length ratios.now → (0 < (ratio ratios.now a).den) × IsSmall (ratio ratios.now a) }
    ensures { MatchResult result
        (λ q. (q ≡ map (firings cycles.now ratios.now all) (range_with_len 0 (length ratios.now)))
        × (sum q ≤ MAX_PERIOD))
        (IsScaleFault cycles.now ratios.now all) }
{
    let mut of = Vec::with_capacity(alloc, ratios.len())?;
    let mut period = 0;
    for (actor, part) in ratios.iter().enumerate() {
        let turns = all / part.den * part.num;
        let firings = u64::from(cycles[actor]) * turns;
        period += firings;
        if period > MAX_PERIOD {
            return Err(GraphFault::PeriodTooLong);
        }
        of.push_reserved(firings as u32);
    }
    Ok(Repetitions {
        of,
        period: period as u32,
    })
}

/// Returns the relative rate of the unmarked end of `channel`. Its other end must be marked.
fn unmarked_rate(graph: &Graph, ratios: &[Ratio], marked: &[bool], channel: usize) -> Ratio
    requires walk { IsWalk graph.now ratios.now marked.now }
    requires border { (a : ℕ) × IsBorder graph.now.channels marked.now channel a }
    ensures share { (a : ℕ) → IsBorder graph.now.channels marked.now channel a → IsRatio graph.now a result }
    ensures even { (a : ℕ) → IsBorder graph.now.channels marked.now channel a →
        IsBalancedAt graph.now (set ratios.now a result) channel }
{
    let totals = graph.totals_at(channel);
    if marked[totals.from] {
        rate_across(ratios[totals.from], totals.put, totals.take)
    } else {
        rate_across(ratios[totals.to], totals.take, totals.put)
    }
}

/// Returns the relative rates of all actors. It walks the channels from actor 0.
fn walk(graph: &Graph, alloc: Global) -> Result<Vec<Ratio>, GraphFault>
    ensures { MatchResult result (λ v. AreRatios graph.now v.items) (IsPeriodFault graph.now) }
{
    let mut ratios = vec![in alloc; Ratio { num: 1, den: 1 }; graph.actors]?;
    let mut marked = [false; MAX_ACTORS];
    marked[0] = true;
    while let Some((channel, actor)) = border(&graph.channels, &marked) {
        let part = unmarked_rate(graph, &ratios, &marked, channel);
        if part.num > MAX_PERIOD || part.den > MAX_PERIOD {
            return Err(GraphFault::PeriodTooLong);
        }
        ratios[actor] = part;
        marked[actor] = true;
    }
    Ok(ratios)
}

/// The firings of each actor in a period: a repetition vector, whose sum is at most 65,536.
#[derive(Drop)]
pub struct Repetitions {
    of: Vec<u32>,
    period: u32,
}

impl Model for Repetitions {
    ghost use Rattle.std.specs.Prelude.{◌≡◌, ℕ, ◌≤◌, List, sum};
    ghost use Rattle.sdf_limits.specs.declared.TheConstants.{MAX_PERIOD};

    ghost Value = { List ℕ };

    ghost view = { λ s. s.of.items };

    ghost invariant = { λ s. (sum s.of.items ≡ s.period) × (s.period ≤ MAX_PERIOD) };
}

impl Repetitions {
    /// Returns how often `actor` fires in a period.
    pub fn of(&self, actor: usize) -> u32
        requires { actor < length self.now }
        ensures { result ≡ slice_index self.now actor }
    {
        self.of[actor]
    }

    /// Returns the firings of each actor in a period, by actor.
    pub fn as_slice(&self) -> &[u32]
        ensures { result.now ≡ self.now }
    {
        self.of.as_slice()
    }

    /// Returns how many actors there are.
    pub fn len(&self) -> usize
        ensures { result ≡ length self.now }
    {
        self.of.len()
    }

    /// Returns how many firings a period has.
    pub fn period(&self) -> u32
        ensures sum { result ≡ sum self.now }
        ensures within { sum self.now ≤ MAX_PERIOD }
    {
        self.period
    }
}

impl Graph {
    /// Returns the least repetition vector: the least positive vector in the null space of the topology matrix (Lee and
    /// Messerschmitt 1987).
    ///
    /// It errs with `Inconsistent` if no vector balances the channels, and with `PeriodTooLong` if the least vector has
    /// a sum over 65,536. For an inconsistent graph it may err with `PeriodTooLong` instead, if the walk finds a
    /// relative rate beyond the limit.
    pub fn repetitions(&self, alloc: Global) -> Result<Repetitions, GraphFault>
        ensures { MatchResult result
            (λ q. IsLeastPeriod (rates self.now) q × (sum q ≤ MAX_PERIOD))
            (IsPeriodFault self.now) }
    {
        let ratios = walk(self, alloc)?;
        if let Some(channel) = unbalanced_channel(&self.totals, &ratios) {
            let balance = balance_of(self, &ratios, channel);
            return Err(GraphFault::Inconsistent { channel, balance });
        }
        let Some(all) = common_denominator(&ratios) else {
            return Err(GraphFault::PeriodTooLong);
        };
        repetitions_in(alloc, &self.cycles, &ratios, all)
    }
}
