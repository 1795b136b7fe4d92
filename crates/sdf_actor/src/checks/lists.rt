//! 23 ExtTwice, 26 NoInput, 27 NoOutput: the numbers of input and output lists.

ghost use Rattle.std.specs.Prelude.{◌≡◌, ◌<◌, ◌≤◌, ◌↔◌, ℕ, length, IsTrue, MatchBool, MatchOption, MatchResult};
ghost use Rattle.sdf_actor.specs.declared.sides.Lists.TheVariants.{Inputs, Outputs};
ghost use Rattle.sdf_actor.specs.Sides.{list_count};
ghost use Rattle.sdf_actor.specs.NetFaults.{HasList, HasLists, Repeats, RepeatsOn, ListFault};

use crate::fault::NetFault;
use crate::node::Node;
use crate::sides::Lists;

/// Returns how many input and output lists there are, or the fault of the first test that fails.
pub(crate) fn list_counts<A>(nodes: &[Node<A>]) -> Result<(usize, usize), NetFault>
    ensures { MatchResult result
        (λ k. HasLists nodes.now × (k.0 ≡ list_count Inputs nodes.now) × (k.1 ≡ list_count Outputs nodes.now))
        (ListFault nodes.now) }
{
    if let Some(actor) = first_repeated(nodes) {
        return Err(NetFault::ExtTwice { actor });
    }
    let inputs = list_count(nodes, Lists::Inputs);
    if inputs == 0 {
        return Err(NetFault::NoInput);
    }
    let outputs = list_count(nodes, Lists::Outputs);
    for channel in 0..outputs.max(1) {
        if !has_list(nodes, nodes.len(), Lists::Outputs, channel) {
            return Err(NetFault::NoOutput { channel });
        }
    }
    Ok((inputs, outputs))
}

/// Returns the first node whose list an earlier node has too.
fn first_repeated<A>(nodes: &[Node<A>]) -> Option<usize>
    ensures { MatchOption result
        ((a : ℕ) → a < length nodes.now → Repeats nodes.now a → ⊥)
        (λ a. (a < length nodes.now) × Repeats nodes.now a × ((b : ℕ) → b < a → Repeats nodes.now b → ⊥)) }
{
    for a in 0..nodes.len() {
        if repeats(nodes, a, Lists::Inputs) || repeats(nodes, a, Lists::Outputs) {
            return Some(a);
        }
    }
    None
}

/// Checks whether a node before `a` has the list of node `a`, among `lists`.
fn repeats<A>(nodes: &[Node<A>], a: usize, lists: Lists) -> bool
    requires { a < length nodes.now }
    ensures { IsTrue result ↔ RepeatsOn nodes.now lists a }
{
    match nodes[a].list(lists) {
        Some(list) => has_list(nodes, a, lists, list),
        None => false,
    }
}

/// Checks whether one of the first `m` nodes has the list of number `list`, among `lists`.
fn has_list<A>(nodes: &[Node<A>], m: usize, lists: Lists, list: usize) -> bool
    requires { m ≤ length nodes.now }
    ensures { IsTrue result ↔ HasList nodes.now lists m list }
{
    for a in 0..m {
        if nodes[a].list(lists) == Some(list) {
            return true;
        }
    }
    false
}

/// Returns one more than the highest number of a list among `lists`, or 0 if there is none.
fn list_count<A>(nodes: &[Node<A>], lists: Lists) -> usize
    ensures { result ≡ list_count lists nodes.now }
{
    let mut count: usize = 0;
    for node in nodes {
        if let Some(list) = node.list(lists) {
            count = count.max(list + 1);
        }
    }
    count
}
