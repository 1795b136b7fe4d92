//! Calls at each element of a slice, in parallel for elements with work left.

ghost use Rattle.std.specs.Prelude.{◌<◌, ◌↔◌, length, IsTrue};
ghost use Rattle.std.specs.Fork.{AcceptsAt, ChangesAt};
ghost use Rattle.sdf_rings.specs.Busy.{SomeHolds, HoldsFrom, BecameFrom};
ghost use denote.Param.Send.{IsSync, IsSend};

use std::thread::{Threads, join_mut};

/// A value that may have work left.
pub trait Busy {
    /// What it means that work is left.
    ghost busy: { Self → Type 0 };

    /// Checks whether it has work left.
    fn is_busy(&self) -> bool
        ensures { IsTrue result ↔ busy self.now };
}

/// Checks whether an element of `s` has work left.
fn some_busy<T: Busy>(s: &[T]) -> bool
    ensures { IsTrue result ↔ SomeHolds T.busy s.now }
{
    for it in s {
        if it.is_busy() {
            return true;
        }
    }
    false
}

/// Calls `f` with `i` and one element.
fn call_at<T, F: Fn(usize, &mut T)>(f: &F, i: usize, it: &mut T)
    requires { AcceptsAt F.Fn f.now i it.old }
    ensures { ChangesAt F.Fn f.now i it.old it.new }
{
    f(i, it);
}

/// Calls `f` at each element, one after another. The first is number `base`.
fn call_each<T, F: Fn(usize, &mut T)>(f: &F, base: usize, s: &mut [T])
    requires { HoldsFrom (AcceptsAt F.Fn f.now) base s.old }
    ensures { BecameFrom (ChangesAt F.Fn f.now) base s.old s.new }
{
    for k in 0..s.len() {
        call_at(f, base + k, &mut s[k]);
    }
}

/// Calls `f` at each element of `s`. The first is number `base`.
///
/// Busy elements run at once: a thread is started for each of them except the last, which runs in the caller's.
/// Elements without work start none.
#[cycle(halves)]
pub fn for_each_busy<R: Threads + Sync, T: Send + Busy, F: Fn(usize, &mut T) + Sync>(
    rt: &R,
    f: &F,
    base: usize,
    s: &mut [T],
)
    requires { HoldsFrom (AcceptsAt F.Fn f.now) base s.old }
    ensures { BecameFrom (ChangesAt F.Fn f.now) base s.old s.new }
{
    if s.len() < 2 {
        call_each(f, base, s);
        return;
    }
    let mid = s.len() / 2;
    let (front, back) = s.split_at_mut(mid);
    if some_busy(front) && some_busy(back) {
        join_halves(rt, f, base, front, base + mid, back);
    } else {
        for_each_busy(rt, f, base, front);
        for_each_busy(rt, f, base + mid, back);
    }
}

/// Calls `f` at each element of `front` and of `back`, both slices at once. Their first elements are numbers `base` and
/// `up`.
#[cycle(halves)]
fn join_halves<R: Threads + Sync, T: Send + Busy, F: Fn(usize, &mut T) + Sync>(
    rt: &R,
    f: &F,
    base: usize,
    front: &mut [T],
    up: usize,
    back: &mut [T],
)
    requires some { (0 < length front.old) × (0 < length back.old) }
    requires front { HoldsFrom (AcceptsAt F.Fn f.now) base front.old }
    requires back { HoldsFrom (AcceptsAt F.Fn f.now) up back.old }
    ensures front { BecameFrom (ChangesAt F.Fn f.now) base front.old front.new }
    ensures back { BecameFrom (ChangesAt F.Fn f.now) up back.old back.new }
{
    let mut first = ||
        requires { IsSync R.row × IsSync F.row × IsSend T.row × HoldsFrom (AcceptsAt F.Fn f.now) base front.now }
        ensures { BecameFrom (ChangesAt F.Fn f.entry.now) base front.entry.now front.exit.now }
    { for_each_busy(rt, f, base, front) };
    let mut second = ||
        requires { IsSync R.row × IsSync F.row × IsSend T.row × HoldsFrom (AcceptsAt F.Fn f.now) up back.now }
        ensures { BecameFrom (ChangesAt F.Fn f.entry.now) up back.entry.now back.exit.now }
    { for_each_busy(rt, f, up, back) };
    join_mut(rt, &mut first, &mut second);
}
