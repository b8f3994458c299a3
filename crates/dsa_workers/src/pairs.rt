//! Two calls at once, and what each wrote.
ghost use Rattle.std.specs.Fork.{AcceptsAt, ChangesAt};

use std::marker::{Send, Sync};
use std::thread::{Threads, join_mut};

/// Calls `f(0, a)` in a new thread and `h(0, b)` in this one. Where no thread can be made, one runs
/// after the other.
pub fn join_pair<
    R: Threads + Sync,
    T: Send,
    U: Send,
    F: Fn(usize, &mut T) + Sync,
    H: Fn(usize, &mut U) + Sync,
>(rt: &R, f: &F, a: &mut T, h: &H, b: &mut U)
    requires first { AcceptsAt F.Fn f.now 0 a.old }
    requires second { AcceptsAt H.Fn h.now 0 b.old }
    ensures first { ChangesAt F.Fn f.now 0 a.old a.new }
    ensures second { ChangesAt H.Fn h.now 0 b.old b.new }
{
    let mut front = ||
        requires { AcceptsAt F.Fn f.now 0 a.now }
        ensures { ChangesAt F.Fn f.entry.now 0 a.entry.now a.exit.now }
    { at_one(f, a) };
    let mut back = ||
        requires { AcceptsAt H.Fn h.now 0 b.now }
        ensures { ChangesAt H.Fn h.entry.now 0 b.entry.now b.exit.now }
    { at_one(h, b) };
    join_mut(rt, &mut front, &mut back);
}

fn at_one<T, F: Fn(usize, &mut T)>(f: &F, it: &mut T)
    requires { AcceptsAt F.Fn f.now 0 it.old }
    ensures { ChangesAt F.Fn f.now 0 it.old it.new }
{
    f(0, it);
}
