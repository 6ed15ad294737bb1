// The in-place calls, on a clock that this program holds.
ghost use Rattle.std.specs.Prelude.{◌≡◌};
ghost use Rattle.clocks.specs.Calls.{apply_call, merge_call};
ghost use Rattle.in_place.specs.Kept.{kept, done};

use crate::samples::{dot, one, two};
use crate::say::Said;
use crate::{samples, say};
use clocks::VClock;
use dots::{Dot, Refused};
use std::io;

// The answer of `apply_in_place`, and the clock after it. Two functions: one over a closure would be as long, and need a clause on the closure.
fn applied(mut c: VClock, d: Dot) -> (Result<(), Refused>, VClock)
    ensures { (result.0 ≡ done (apply_call c d)) × (result.1 ≡ kept c (apply_call c d)) }
{
    let said = in_place::apply_in_place(&mut c, d);
    (said, c)
}

// The answer of `merge_in_place`, and the clock after it.
fn merged(mut c: VClock, other: VClock) -> (Result<(), Refused>, VClock)
    ensures { (result.0 ≡ done (merge_call c other)) × (result.1 ≡ kept c (merge_call c other)) }
{
    let said = in_place::merge_in_place(&mut c, other);
    (said, c)
}

// The number of an answer, and the clock that is held after it.
fn held_line(rt: &impl Print, w: &str, (said, c): (Result<(), Refused>, VClock)) -> io::Result<()> {
    print!(rt; "{w}{} ", say::number(said))?;
    c.say(rt)?;
    say::end(rt)
}

pub fn good(rt: &impl Print) -> io::Result<()> {
    held_line(
        rt,
        "apply 1.5 in place to <1:2, 2:3>: ",
        applied(two(1, 2, 2, 3), dot(1, 5)),
    )?;
    held_line(
        rt,
        "merge <1:1, 3:1> in place into <1:2, 2:3>: ",
        merged(two(1, 2, 2, 3), two(1, 1, 3, 1)),
    )
}

// The number of an answer, and the record beside it by its length and first two places, since a bad one has no text.
fn record_line(
    rt: &impl Print,
    w: &str,
    (said, c): (Result<(), Refused>, VClock),
) -> io::Result<()> {
    print!(rt; "{w}{} length {}, ", say::number(said), c.len)?;
    c.dots[0].say(rt)?;
    say::words(rt, " and ")?;
    c.dots[1].say(rt)?;
    say::end(rt)
}

pub fn bad(rt: &impl Print) -> io::Result<()> {
    let c = samples::not_ascending();
    record_line(
        rt,
        "apply 3.1 in place to a record with actors not ascending: ",
        applied(c, dot(3, 1)),
    )?;
    record_line(rt, "merge <1:1> in place into it: ", merged(c, one(1, 1)))?;
    held_line(rt, "merge it in place into <1:1>: ", merged(one(1, 1), c))
}

pub fn crowded(rt: &impl Print) -> io::Result<()> {
    let c = samples::actors(1, 16, 1);
    held_line(
        rt,
        "apply 17.1 in place to 16 actors: ",
        applied(c, dot(17, 1)),
    )?;
    held_line(
        rt,
        "merge <17:1> in place into 16 actors: ",
        merged(c, one(17, 1)),
    )
}
