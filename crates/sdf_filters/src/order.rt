//! The choice of the tap of a phase that is moved next. Clauses say only that it is one of the phase.

ghost use Rattle.std.specs.Prelude.{◌≡◌, ◌<◌, ◌≤◌, ◌+◌, ◌*◌, ◌/◌, ◌%◌, ◌⊎◌, length};
ghost use Rattle.std.specs.List.{All};
ghost use Rattle.sdf_filters.specs.declared.order.TheConstants.{NODES};

use crate::sinc::overshoot;
use sdf_limits::MAX_TAPS;

/// The greatest number of nodes in a tree of the taps of a phase, the taps included.
const NODES: usize = 2 * MAX_TAPS;

/// A phase, the number of its first taps that can be moved, and whether they are moved up.
#[derive(Clone, Copy)]
pub(crate) struct TapMove {
    pub(crate) up: usize,
    pub(crate) phase: usize,
    pub(crate) turns: usize,
    pub(crate) rise: bool,
}

/// The rank of a tap in the order of moves: how far it is beyond its real value in the direction of the step, its
/// distance from the middle in half places, and its turn.
#[derive(Clone, Copy)]
struct Rank {
    late: f64,
    away: usize,
    turn: usize,
}

/// Returns the place of the tap with this `turn` among `count` taps.
pub(crate) fn place_of(count: usize, way: TapMove, turn: usize) -> usize
    requires phase { way.phase < way.up }
    requires turn { turn < count / way.up }
    ensures within { result < count }
    ensures is { result ≡ turn * way.up + way.phase }
    ensures of { result % way.up ≡ way.phase }
{
    turn * way.up + way.phase
}

/// Returns the rank of the tap with this `turn`.
fn rank_of(taps: &[i32], reals: &[f64], way: TapMove, turn: usize) -> Rank
    requires same { length reals.now ≡ length taps.now }
    requires few { length taps.now ≤ MAX_TAPS }
    requires phase { way.phase < way.up }
    requires turns { way.turns ≤ length taps.now / way.up }
    requires turn { turn < way.turns }
    ensures { result.turn ≡ turn }
{
    let place = place_of(taps.len(), way, turn);
    let late = overshoot(f64::from(taps[place]), reals[place], way.rise);
    let away = (taps.len() - 1).abs_diff(2 * place);
    Rank { late, away, turn }
}

/// Returns the rank of the tap that is moved before the other: the less late one. Of two that are equally late, it is
/// the one nearer to the middle, and of two that are equally near, the earlier one.
fn sooner(one: Rank, other: Rank) -> Rank
    ensures { (result.turn ≡ one.turn) ⊎ (result.turn ≡ other.turn) }
{
    let is_before = if one.late == other.late {
        one.away < other.away || one.away == other.away && one.turn < other.turn
    } else {
        one.late < other.late
    };
    if is_before { one } else { other }
}

/// Returns the turn of the tap that is moved first.
pub(crate) fn first_turn(taps: &[i32], reals: &[f64], way: TapMove) -> usize
    requires same { length reals.now ≡ length taps.now }
    requires few { length taps.now ≤ MAX_TAPS }
    requires phase { way.phase < way.up }
    requires turns { way.turns ≤ length taps.now / way.up }
    requires some { 0 < way.turns }
    ensures { result < way.turns }
{
    let mut first = rank_of(taps, reals, way, 0);
    for turn in 1..way.turns {
        first = sooner(rank_of(taps, reals, way, turn), first);
    }
    first.turn
}

/// Returns whether each tap of a phase is less late now than any of them is after one more step. Each is then moved
/// once before any is moved twice. That can also be true if this function returns false.
pub(crate) fn is_round(taps: &[i32], reals: &[f64], way: TapMove) -> bool
    requires same { length reals.now ≡ length taps.now }
    requires phase { way.phase < way.up }
    requires turns { way.turns ≤ length taps.now / way.up }
{
    let step = if way.rise { 1.0 } else { -1.0 };
    let mut latest = f64::NEG_INFINITY;
    let mut soonest = f64::INFINITY;
    for turn in 0..way.turns {
        let place = place_of(taps.len(), way, turn);
        let tap = f64::from(taps[place]);
        latest = latest.max(overshoot(tap, reals[place], way.rise));
        soonest = soonest.min(overshoot(tap + step, reals[place], way.rise));
    }
    latest < soonest
}

/// Compares the taps of the two branches of `node`, and puts the turn of the sooner one at the node.
fn update_node(tree: &mut [usize], taps: &[i32], reals: &[f64], way: TapMove, node: usize)
    requires room { length tree.old ≡ NODES }
    requires same { length reals.now ≡ length taps.now }
    requires few { length taps.now ≤ MAX_TAPS }
    requires phase { way.phase < way.up }
    requires turns { way.turns ≤ length taps.now / way.up }
    requires node { node < way.turns }
    requires tree { All (λ turn. turn < way.turns) tree.old }
    ensures { All (λ turn. turn < way.turns) tree.new }
{
    let one = rank_of(taps, reals, way, tree[2 * node]);
    let other = rank_of(taps, reals, way, tree[2 * node + 1]);
    tree[node] = sooner(one, other).turn;
}

/// Returns a tournament tree of the taps of a phase. Its leaves are the turns, after the inner nodes. At node 1 is the
/// turn of the tap that is moved first.
pub(crate) fn tree_of(taps: &[i32], reals: &[f64], way: TapMove) -> [usize; NODES]
    requires same { length reals.now ≡ length taps.now }
    requires few { length taps.now ≤ MAX_TAPS }
    requires phase { way.phase < way.up }
    requires turns { way.turns ≤ length taps.now / way.up }
    requires some { 0 < way.turns }
    ensures { All (λ turn. turn < way.turns) result }
{
    let many = way.turns;
    let mut tree = [0; NODES];
    for turn in 0..many {
        tree[many + turn] = turn;
    }
    for back in 1..many {
        update_node(&mut tree, taps, reals, way, many - back);
    }
    tree
}

/// Updates the tree after the tap with this `turn` was moved.
pub(crate) fn update_tree(
    tree: &mut [usize],
    taps: &[i32],
    reals: &[f64],
    way: TapMove,
    turn: usize,
)
    requires room { length tree.old ≡ NODES }
    requires same { length reals.now ≡ length taps.now }
    requires few { length taps.now ≤ MAX_TAPS }
    requires phase { way.phase < way.up }
    requires turns { way.turns ≤ length taps.now / way.up }
    requires turn { turn < way.turns }
    requires tree { All (λ turn. turn < way.turns) tree.old }
    ensures { All (λ turn. turn < way.turns) tree.new }
{
    let mut node = way.turns + turn;
    while node > 1 {
        node /= 2;
        update_node(tree, taps, reals, way, node);
    }
}
