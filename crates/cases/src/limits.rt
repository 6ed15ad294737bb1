// At the limits: the finished result is judged, never a step between; and an output that is one byte short.
ghost use Rattle.std.specs.Prelude.{◌≤◌};

use crate::held::{Held, added, applied, dot, e, empty, merged, one, removed};
use crate::say;
use clocks::VClock;
use orswot::{Op, apply, merge, reset_remove};
use std::io;

// V of so many actors, each with counter 1, and member 5 with all their dots.
fn of_actors(many: u32) -> Held
    requires { many ≤ 17 }
{
    let mut h = empty();
    for actor in 1..=many {
        h = added(&h, actor, 1, 5);
    }
    h
}

pub fn actors(rt: &impl Print) -> io::Result<()> {
    let full = of_actors(16);
    say::short(rt, "16 actors: ", &full)?;
    say::short(rt, "a 17th: ", &added(&full, 17, 1, 5))?;
    say::short(
        rt,
        "merged with a 17th: ",
        &merged(&full, &added(&empty(), 17, 1, 5)),
    )
}

// An operation on the members from 1 on.
fn on_first(h: &Held, op: Op, clock: VClock, many: usize) -> Held
    requires { many ≤ 65 }
{
    let mut list = [0u32; 65];
    for (i, member) in list.iter_mut().enumerate() {
        *member = i as u32 + 1;
    }
    applied(h, op, clock, &list[..many])
}

// V {1:1} and members from 1 on, each {1:1}.
fn of_members(many: usize) -> Held
    requires { many ≤ 65 }
{
    on_first(&empty(), Op::Add(dot(1, 1)), VClock::new(), many)
}

pub fn members(rt: &impl Print) -> io::Result<()> {
    let full = of_members(64);
    say::short(rt, "64 members: ", &full)?;
    say::short(rt, "65 at once: ", &of_members(65))?;
    say::short(rt, "a 65th: ", &added(&full, 1, 2, 65))?;
    say::short(
        rt,
        "merged with a 65th: ",
        &merged(&full, &added(&empty(), 2, 1, 65)),
    )?;
    say::short(
        rt,
        "a 65th that a waiting remove kills at once: ",
        &added(&removed(&full, one(1, 2), 65), 1, 2, 65),
    )
}

// Removes that wait, by {1:1} and on.
fn of_waits(many: u64) -> Held
    requires { many ≤ 17 }
{
    let mut h = empty();
    for counter in 1..=many {
        h = removed(&h, one(1, counter), 5);
    }
    h
}

pub fn waiting(rt: &impl Print) -> io::Result<()> {
    say::short(rt, "16 waiting removes: ", &of_waits(16))?;
    say::short(rt, "a 17th: ", &of_waits(17))?;
    say::short(
        rt,
        "a waiting remove of 32 members: ",
        &on_first(&empty(), Op::Remove, one(1, 1), 32),
    )?;
    say::short(
        rt,
        "of 33: ",
        &on_first(&empty(), Op::Remove, one(1, 1), 33),
    )
}

// The 59 bytes that are lent, as they are after a call whose result is E's 60.
pub fn short_outputs(rt: &impl Print) -> io::Result<()> {
    let empty = empty();
    let e = e();
    let mut out = [170u8; 59];
    let added = apply(
        empty.image(),
        Op::Add(dot(1, 1)),
        VClock::new(),
        &[5],
        &mut out,
    );
    say::lent(rt, "add into 59 bytes: ", added, &out)?;
    let mut out = [170u8; 59];
    let merged = merge(e.image(), e.image(), &mut out);
    say::lent(rt, "merge into 59 bytes: ", merged, &out)?;
    let mut out = [170u8; 59];
    let reset = reset_remove(e.image(), VClock::new(), &mut out);
    say::lent(rt, "reset into 59 bytes: ", reset, &out)
}
