//! Calls at each place of a list.

ghost use denote.Param.Send.{IsSync, IsSend};
ghost use Rattle.std.specs.Prelude.{◌+◌, ◌^◌, ◌<◌, length};
ghost use Rattle.std.specs.Fork.{AcceptsAt, ChangesAt, AcceptsEach, ChangesEach};
ghost use Rattle.hd_threads.specs.Places.{AcceptsFrom, ChangesFrom};

use std::thread::{Threads, join_mut};

/// Calls `f` at one place.
fn at_one<T, F: Fn(usize, &mut T)>(f: &F, i: usize, item: &mut T)
    requires { AcceptsAt F.Fn f.now i item.old }
    ensures { ChangesAt F.Fn f.now i item.old item.new }
{
    f(i, item);
}

/// Calls `f` at each place from `base` on, one after the other.
fn in_turn<T, F: Fn(usize, &mut T)>(f: &F, base: usize, s: &mut [T])
    requires room { base + length s.old < 2 ^ 64 }
    requires accepts { AcceptsFrom F.Fn f.now base s.old }
    ensures { ChangesFrom F.Fn f.now base s.old s.new }
{
    for k in 0..s.len() {
        at_one(f, base + k, &mut s[k]);
    }
}

/// Calls `f` at each place from `base` on, `size` places to a thread.
#[cycle(stretches)]
fn stretches_from<R: Threads + Sync, T: Send, F: Fn(usize, &mut T) + Sync>(
    rt: &R,
    f: &F,
    base: usize,
    size: usize,
    s: &mut [T],
)
    requires size { 0 < size }
    requires room { base + length s.old < 2 ^ 64 }
    requires accepts { AcceptsFrom F.Fn f.now base s.old }
    ensures { ChangesFrom F.Fn f.now base s.old s.new }
{
    if s.is_empty() {
        return;
    }
    let mid = size.min(s.len());
    let (a, b) = s.split_at_mut(mid);
    stretch_and_rest(rt, f, base, a, base + mid, size, b);
}

/// Calls `f` at the places of the first list in a thread of their own, and at those of the second in further ones.
#[cycle(stretches)]
fn stretch_and_rest<R: Threads + Sync, T: Send, F: Fn(usize, &mut T) + Sync>(
    rt: &R,
    f: &F,
    base: usize,
    a: &mut [T],
    up: usize,
    size: usize,
    b: &mut [T],
)
    requires size { 0 < size }
    requires front_room { base + length a.old < 2 ^ 64 }
    requires back_room { up + length b.old < 2 ^ 64 }
    requires front { AcceptsFrom F.Fn f.now base a.old }
    requires back { AcceptsFrom F.Fn f.now up b.old }
    ensures front { ChangesFrom F.Fn f.now base a.old a.new }
    ensures back { ChangesFrom F.Fn f.now up b.old b.new }
{
    let mut stretch = ||
        requires { IsSync F.row × IsSend T.row × (base + length a.now < 2 ^ 64) × AcceptsFrom F.Fn f.now base a.now }
        ensures { ChangesFrom F.Fn f.entry.now base a.entry.now a.exit.now }
    { in_turn(f, base, a) };
    let mut rest = ||
        requires { IsSync R.row × IsSync F.row × IsSend T.row × (0 < size) × (up + length b.now < 2 ^ 64) × AcceptsFrom F.Fn f.now up b.now }
        ensures { ChangesFrom F.Fn f.entry.now up b.entry.now b.exit.now }
    { stretches_from(rt, f, up, size, b) };
    join_mut(rt, &mut stretch, &mut rest);
}

/// Calls `f(i, &mut s[i])` at each place `i`, in at most `threads` threads beside the calling one, which only waits, or in the
/// calling thread alone where `threads` is 1. Where the system refuses a thread, the calling one does its part.
pub fn for_each_mut<R: Threads + Sync, T: Send, F: Fn(usize, &mut T) + Sync>(
    rt: &R,
    s: &mut [T],
    threads: usize,
    f: &F,
)
    requires threads { 0 < threads }
    requires accepts { AcceptsEach F.Fn f.now s.old }
    ensures { ChangesEach F.Fn f.now s.old s.new }
{
    if threads == 1 || s.is_empty() {
        in_turn(f, 0, s);
        return;
    }
    let size = s.len().div_ceil(threads);
    stretches_from(rt, f, 0, size, s);
}
