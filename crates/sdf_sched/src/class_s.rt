//! Class S: while some actor is runnable, one of them fires.

ghost use Rattle.std.specs.Prelude.{◌≡◌, ℕ, ◌+◌, ◌≤◌, ◌<◌, List, length, sum, slice_index, slice_set, IfOk, IfErr};
ghost use Rattle.std.specs.Prelude.{MatchResult, vec_capacity, IsTrue, ◌↔◌, [], slice_index_or};
ghost use Rattle.std.specs.Prelude.{Some, None, ⊤};
ghost use Rattle.std.specs.List.{Contains};
ghost use Rattle.std.specs.List.Sorted.{IsStrictlyIncreasing};
ghost use Rattle.sdf_graph.specs.Rates.{rates};
ghost use Rattle.sdf_graph.specs.Sequences.{IsRunnable, IsPass};
ghost use Rattle.sdf_graph.specs.Periods.{IsLeastPeriod};
ghost use Rattle.sdf_sched.specs.Pick.{IsPicked};
ghost use Rattle.sdf_sched.specs.Period.{IsPeriodOf};
ghost use Rattle.sdf_sched.specs.Stuck.{IsShortList, IsSchedFault};
ghost use Rattle.sdf_sched.specs.ClassS.{IsGoing, IsUpdated, IsShortOf, IsTested, AreCandidates};

use crate::fault::SchedFault;
use crate::period::Period;
use crate::pick::Pick;
use crate::stuck::Stuck;
use sdf_graph::{Counts, Graph, Repetitions};
use sdf_limits::MAX_PERIOD;
use std::alloc::{AllocError, Global};

/// The runnable actors in file order, and for each other actor with firings left the channel that it waits for.
#[derive(Drop)]
struct Candidates {
    runnable: Vec<usize>,
    awaited: Vec<Option<usize>>,
}

/// Returns the lowest channel that `actor` lacks samples on, if its firings are not over.
fn short_of(counts: &Counts, firings: &[u32], actor: usize) -> Option<usize>
    requires all { length firings.now ≡ counts.now.graph.actors }
    requires known { actor < length firings.now }
    ensures { IsShortOf (rates counts.now.graph) (slice_index firings.now) (slice_index counts.now.fired) actor result }
{
    if counts.fired(actor) >= firings[actor] {
        return None;
    }
    counts.short_channel(actor)
}

/// Checks whether `actor` is runnable. Stores the channel that it waits for, or `None` if it is runnable or its firings
/// are over.
fn check_runnable(
    counts: &Counts,
    firings: &[u32],
    actor: usize,
    awaited: &mut [Option<usize>],
) -> bool
    requires all { length firings.now ≡ counts.now.graph.actors }
    requires known { actor < length firings.now }
    requires each { length awaited.old ≡ length firings.now }
    ensures fires { IsTrue result ↔
        IsRunnable (rates counts.now.graph) (slice_index firings.now) (slice_index counts.now.fired) actor }
    ensures here { IsShortOf (rates counts.now.graph) (slice_index firings.now) (slice_index counts.now.fired) actor
        (slice_index_or awaited.new actor None) }
    ensures each { length awaited.new ≡ length awaited.old }
    ensures others { (b : ℕ) → (b ≡ actor → ⊥) →
        slice_index_or awaited.new b None ≡ slice_index_or awaited.old b None }
{
    let short = short_of(counts, firings, actor);
    awaited[actor] = short;
    short.is_none() && counts.fired(actor) < firings[actor]
}

/// Puts `actor` into the rising list `runnable`, if it is not there.
fn insert(actor: usize, runnable: &mut Vec<usize>)
    requires known { actor < vec_capacity runnable.old }
    requires rising { IsStrictlyIncreasing runnable.old.items }
    requires below { (a : ℕ) → Contains runnable.old.items a → a < vec_capacity runnable.old }
    ensures list { IsUpdated runnable.old.items actor ⊤ runnable.new.items }
    ensures capacity { vec_capacity runnable.new ≡ vec_capacity runnable.old }
{
    if let Err(at) = runnable.binary_search(&actor) {
        runnable.insert(at, actor).unwrap();
    }
}

/// Puts `actor` into the list of runnable actors if it is runnable.
fn admit(counts: &Counts, firings: &[u32], actor: usize, candidates: &mut Candidates)
    requires all { length firings.now ≡ counts.now.graph.actors }
    requires known { actor < length firings.now }
    requires each { length candidates.old.awaited.items ≡ length firings.now }
    requires rising { IsStrictlyIncreasing candidates.old.runnable.items }
    requires below { (a : ℕ) → Contains candidates.old.runnable.items a → a < length firings.now }
    requires room { length firings.now ≤ vec_capacity candidates.old.runnable }
    requires listed { Contains candidates.old.runnable.items actor →
        IsRunnable (rates counts.now.graph) (slice_index firings.now) (slice_index counts.now.fired) actor }
    ensures tested { IsTested (rates counts.now.graph) (slice_index firings.now) (slice_index counts.now.fired) actor
        candidates.old.runnable.items candidates.old.awaited.items
        candidates.new.runnable.items candidates.new.awaited.items }
    ensures capacity { vec_capacity candidates.new.runnable ≡ vec_capacity candidates.old.runnable }
{
    if check_runnable(counts, firings, actor, &mut candidates.awaited) {
        insert(actor, &mut candidates.runnable);
    }
}

/// Takes the actor at place `at` out of the list if it is no longer runnable.
fn dismiss(counts: &Counts, firings: &[u32], at: usize, candidates: &mut Candidates)
    requires all { length firings.now ≡ counts.now.graph.actors }
    requires place { at < length candidates.old.runnable.items }
    requires known { slice_index candidates.old.runnable.items at < length firings.now }
    requires each { length candidates.old.awaited.items ≡ length firings.now }
    requires rising { IsStrictlyIncreasing candidates.old.runnable.items }
    ensures tested { IsTested (rates counts.now.graph) (slice_index firings.now) (slice_index counts.now.fired)
        (slice_index candidates.old.runnable.items at)
        candidates.old.runnable.items candidates.old.awaited.items
        candidates.new.runnable.items candidates.new.awaited.items }
    ensures capacity { vec_capacity candidates.new.runnable ≡ vec_capacity candidates.old.runnable }
{
    let actor = candidates.runnable[at];
    if !check_runnable(counts, firings, actor, &mut candidates.awaited) {
        candidates.runnable.remove(at);
    }
}

/// Collects the actors that are runnable before the first firing.
fn collect_candidates(counts: &Counts, firings: &[u32], candidates: &mut Candidates)
    requires all { length firings.now ≡ counts.now.graph.actors }
    requires each { length candidates.old.awaited.items ≡ length firings.now }
    requires empty { candidates.old.runnable.items ≡ [] }
    requires room { length firings.now ≤ vec_capacity candidates.old.runnable }
    ensures list { AreCandidates (rates counts.now.graph) (slice_index firings.now) (slice_index counts.now.fired)
        candidates.new.runnable.items candidates.new.awaited.items }
    ensures capacity { vec_capacity candidates.new.runnable ≡ vec_capacity candidates.old.runnable }
{
    for actor in 0..firings.len() {
        admit(counts, firings, actor, candidates);
    }
}

/// Fires the actor at place `at` of the list. Apart from this actor, only actors that wait for a channel that it feeds
/// are tested.
fn fire(graph: &Graph, firings: &[u32], at: usize, counts: &mut Counts, candidates: &mut Candidates)
    requires same { counts.old.graph ≡ graph.now }
    requires all { length firings.now ≡ graph.now.actors }
    requires each { length counts.old.fired ≡ graph.now.actors }
    requires short { sum firings.now ≤ MAX_PERIOD }
    requires room { length firings.now ≤ vec_capacity candidates.old.runnable }
    requires list { AreCandidates (rates graph.now) (slice_index firings.now) (slice_index counts.old.fired)
        candidates.old.runnable.items candidates.old.awaited.items }
    requires place { at < length candidates.old.runnable.items }
    ensures fired { let actor = slice_index candidates.old.runnable.items at in counts.new ≡ record counts.old
        { fired = slice_set counts.old.fired actor (slice_index counts.old.fired actor + 1) } }
    ensures list { AreCandidates (rates graph.now) (slice_index firings.now) (slice_index counts.new.fired)
        candidates.new.runnable.items candidates.new.awaited.items }
    ensures capacity { vec_capacity candidates.new.runnable ≡ vec_capacity candidates.old.runnable }
{
    let channels = graph.channels();
    let actor = candidates.runnable[at];
    counts.fire(actor);
    dismiss(counts, firings, at, candidates);
    for channel in graph.outgoing(actor) {
        let fed = &channels[*channel];
        if awaits(&candidates.awaited, fed.to, *channel) {
            admit(counts, firings, fed.to, candidates);
        }
    }
}

/// Checks whether `channel` is the one that `actor` waits for.
fn awaits(awaited: &[Option<usize>], actor: usize, channel: usize) -> bool
    requires { actor < length awaited.now }
    ensures { IsTrue result ↔ (slice_index_or awaited.now actor None ≡ Some channel) }
{
    awaited[actor] == Some(channel)
}

/// Fires the actors that `pick` chooses while some actor is runnable.
fn fire_all<P: Pick>(
    graph: &Graph,
    firings: &[u32],
    counts: &mut Counts,
    order: &mut Vec<usize>,
    candidates: &mut Candidates,
    pick: &mut P,
)
    requires all { length firings.now ≡ graph.now.actors }
    requires short { sum firings.now ≤ MAX_PERIOD }
    requires room { sum firings.now ≤ vec_capacity order.old }
    requires places { length firings.now ≤ vec_capacity candidates.old.runnable }
    requires begun { IsGoing P.chooses graph.now firings.now pick.old counts.old order.old.items pick.old
        candidates.old.runnable.items }
    requires list { AreCandidates (rates graph.now) (slice_index firings.now) (slice_index counts.old.fired)
        candidates.old.runnable.items candidates.old.awaited.items }
    ensures { IsGoing P.chooses graph.now firings.now pick.old counts.new order.new.items pick.new [] }
{
    while !candidates.runnable.is_empty() {
        let at = pick.choose(graph, counts, &candidates.runnable);
        order.push_reserved(candidates.runnable[at]);
        fire(graph, firings, at, counts, candidates);
    }
}

/// Collects the unfinished actors, each with its lowest channel that holds too little.
fn collect_short(counts: &Counts, firings: &[u32], short: &mut Vec<(usize, usize)>)
    requires all { length firings.now ≡ counts.now.graph.actors }
    requires empty { short.old.items ≡ [] }
    requires room { length firings.now ≤ vec_capacity short.old }
    requires stopped { (a : ℕ) → IsRunnable (rates counts.now.graph) (slice_index firings.now)
        (slice_index counts.now.fired) a → ⊥ }
    ensures { IsShortList (rates counts.now.graph) (slice_index firings.now) (slice_index counts.now.fired)
        short.new.items }
{
    for actor in 0..firings.len() {
        if let Some(channel) = short_of(counts, firings, actor) {
            short.push_reserved((actor, channel));
        }
    }
}

/// Collects how often each actor has fired.
fn collect_done(counts: &Counts, reps: &Repetitions, done: &mut Vec<u32>)
    requires all { length reps.now ≡ counts.now.graph.actors }
    requires same { length counts.now.fired ≡ length reps.now }
    requires empty { done.old.items ≡ [] }
    requires room { length reps.now ≤ vec_capacity done.old }
    ensures { done.new.items ≡ counts.now.fired }
{
    for actor in 0..reps.len() {
        done.push_reserved(counts.fired(actor));
    }
}

/// Returns the number of firings of all actors.
fn total(firings: &[u32]) -> usize
    requires { sum firings.now ≤ MAX_PERIOD }
    ensures { result ≡ sum firings.now }
{
    let mut total = 0;
    for many in firings {
        total += *many as usize;
    }
    total
}

/// Fires the actors that `pick` chooses, from the start until no actor is runnable. All memory is allocated before the
/// first choice.
fn fire_greedily<'a, P: Pick>(
    alloc: Global,
    graph: &'a Graph,
    firings: &[u32],
    pick: &mut P,
) -> Result<(Counts<'a>, Vec<usize>), AllocError>
    requires all { length firings.now ≡ graph.now.actors }
    requires short { sum firings.now ≤ MAX_PERIOD }
    ensures { MatchResult result
        (λ made. IsGoing P.chooses graph.now firings.now pick.old made.0 made.1.items pick.new [])
        (λ _. pick.new ≡ pick.old) }
{
    let mut counts = Counts::new(alloc, graph)?;
    let mut order = Vec::with_capacity(alloc, total(firings))?;
    let runnable = Vec::with_capacity(alloc, firings.len())?;
    let awaited = vec![in alloc; None; firings.len()]?;
    let mut candidates = Candidates { runnable, awaited };
    collect_candidates(&counts, firings, &mut candidates);
    fire_all(
        graph,
        firings,
        &mut counts,
        &mut order,
        &mut candidates,
        pick,
    );
    Ok((counts, order))
}

/// Returns a schedule of one period, made by the choices of `pick` among the runnable actors. It errs with `Deadlock`
/// if no schedule exists.
///
/// All memory is allocated before the first choice. After an error `pick` is in the state that its last choice left.
///
/// (Lee and Messerschmitt 1987: every class S algorithm finds a schedule if one exists.)
pub fn class_s<P: Pick>(
    alloc: Global,
    graph: &Graph,
    reps: &Repetitions,
    pick: &mut P,
) -> Result<Period, SchedFault>
    requires { IsLeastPeriod (rates graph.now) reps.now }
    ensures { MatchResult result
        (λ s. IsPeriodOf (rates graph.now) s × (s.repetitions ≡ reps.now)
        × IsPicked P.chooses graph.now (slice_index reps.now) pick.old s.order pick.new)
        (IsSchedFault P.chooses graph.now (slice_index reps.now) pick.old pick.new) }
{
    // the graph is within the limits, so its rates are sound, and stuck counts mean a deadlock
    graph.channels();
    reps.period();
    let mut done = Vec::with_capacity(alloc, reps.len())?;
    let mut short = Vec::with_capacity(alloc, reps.len())?;
    let (counts, order) = fire_greedily(alloc, graph, reps.as_slice(), pick)?;
    collect_short(&counts, reps.as_slice(), &mut short);
    collect_done(&counts, reps, &mut done);
    if !short.is_empty() {
        return Err(SchedFault::Deadlock(Stuck { done, short }));
    }
    Ok(Period {
        order,
        repetitions: done,
    })
}

/// Returns a schedule in which each actor fires the number of times in `firings`, for example in several periods.
/// `pick` makes the choices. Some sequence of enabled firings must do them all.
pub fn class_s_of<P: Pick>(
    alloc: Global,
    graph: &Graph,
    firings: &[u32],
    pick: &mut P,
) -> Result<Vec<usize>, AllocError>
    requires all { length firings.now ≡ graph.now.actors }
    requires short { sum firings.now ≤ MAX_PERIOD }
    requires some { (v : List ℕ) × IsPass (rates graph.now) (slice_index firings.now) v }
    ensures pass { IfOk result (λ order. IsPass (rates graph.now) (slice_index firings.now) order.items) }
    ensures all { IfOk result (λ order. length order.items ≡ sum firings.now) }
    ensures picked { IfOk result (λ order. IsPicked P.chooses graph.now (slice_index firings.now) pick.old
        order.items pick.new) }
    ensures unmoved { IfErr result (λ _. pick.new ≡ pick.old) }
{
    graph.channels();
    let (_, order) = fire_greedily(alloc, graph, firings, pick)?;
    Ok(order)
}
