//! Parallel calls of one function, beside a call of another.
//!
//! `thread::for_each_mut` halves a list, so threads start threads. Here one thread starts all others and then does work
//! of its own. If a new thread at first shares the processor of the thread that made it, the last worker begins sooner.

ghost use Rattle.std.specs.Prelude.{◌≡◌, ◌+◌, ◌<◌, ◌^◌, length};
ghost use denote.Param.Send.{IsSync, IsSend};
ghost use Rattle.std.specs.Fork.{AcceptsAt, AcceptsEach, ChangesAt, ChangesEach};
ghost use Rattle.sdf_parallel.specs.Beside.{AcceptsFrom, ChangesFrom};

use std::thread::{Threads, join_mut};

/// Calls `f` with each number and element of `s`, each in a thread of its own if one can be made. Calls `meanwhile` in
/// this thread.
pub(crate) fn for_each_beside<
    R: Threads + Sync,
    T: Send,
    F: Fn(usize, &mut T) + Sync,
    G: FnMut() -> B,
    B,
>(rt: &R, s: &mut [T], f: &F, meanwhile: &mut G) -> B
    requires accepts { AcceptsEach F.Fn f.now s.old }
    requires meanwhile { G.pre meanwhile.old }
    ensures each { ChangesEach F.Fn f.now s.old s.new }
    ensures meanwhile { G.step meanwhile.old result meanwhile.new }
{
    for_each_from(rt, f, 0, s, meanwhile)
}

/// Calls `f` with the element `it`, whose number is `i`.
fn call_with<T, F: Fn(usize, &mut T)>(f: &F, i: usize, it: &mut T)
    requires { AcceptsAt F.Fn f.now i it.old }
    ensures { ChangesAt F.Fn f.now i it.old it.new }
{
    f(i, it);
}

/// Calls `f` with the one element of `s`, whose number is `i`.
fn call_at<T, F: Fn(usize, &mut T)>(f: &F, i: usize, s: &mut [T])
    requires one { length s.old ≡ 1 }
    requires accepts { AcceptsFrom F.Fn f.now i s.old }
    ensures { ChangesFrom F.Fn f.now i s.old s.new }
{
    call_with(f, i, &mut s[0]);
}

/// Calls `f` with each element of `s`, numbered from `i`, and `meanwhile` beside them.
#[cycle(places)]
fn for_each_from<R: Threads + Sync, T: Send, F: Fn(usize, &mut T) + Sync, G: FnMut() -> B, B>(
    rt: &R,
    f: &F,
    i: usize,
    s: &mut [T],
    meanwhile: &mut G,
) -> B
    requires room { i + length s.old < 2 ^ 64 }
    requires accepts { AcceptsFrom F.Fn f.now i s.old }
    requires meanwhile { G.pre meanwhile.old }
    ensures each { ChangesFrom F.Fn f.now i s.old s.new }
    ensures meanwhile { G.step meanwhile.old result meanwhile.new }
{
    if s.is_empty() {
        return meanwhile();
    }
    let (first, others) = s.split_at_mut(1);
    first_beside(rt, f, i, first, others, meanwhile)
}

/// Calls `f` with the element of `first`, whose number is `i`, and with each of `others`, and `meanwhile` beside them.
#[cycle(places)]
fn first_beside<R: Threads + Sync, T: Send, F: Fn(usize, &mut T) + Sync, G: FnMut() -> B, B>(
    rt: &R,
    f: &F,
    i: usize,
    first: &mut [T],
    others: &mut [T],
    meanwhile: &mut G,
) -> B
    requires one { length first.old ≡ 1 }
    requires room { i + 1 + length others.old < 2 ^ 64 }
    requires first { AcceptsFrom F.Fn f.now i first.old }
    requires others { AcceptsFrom F.Fn f.now (i + 1) others.old }
    requires meanwhile { G.pre meanwhile.old }
    ensures first { ChangesFrom F.Fn f.now i first.old first.new }
    ensures others { ChangesFrom F.Fn f.now (i + 1) others.old others.new }
    ensures meanwhile { G.step meanwhile.old result meanwhile.new }
{
    let (_, done) = join_mut(
        rt,
        &mut ||
            requires { IsSync F.row × IsSend T.row × (length first.now ≡ 1) × AcceptsFrom F.Fn f.now i first.now }
            ensures { ChangesFrom F.Fn f.entry.now i first.entry.now first.exit.now }
        { call_at(f, i, first) },
        &mut || -> B
            requires { IsSync R.row × IsSync F.row × IsSend T.row × (i + 1 + length others.now < 2 ^ 64)
                × AcceptsFrom F.Fn f.now (i + 1) others.now × G.pre meanwhile.now }
            ensures { ChangesFrom F.Fn f.entry.now (i + 1) others.entry.now others.exit.now
                × G.step meanwhile.entry.now result meanwhile.exit.now }
        { for_each_from(rt, f, i + 1, others, meanwhile) },
    );
    done
}
