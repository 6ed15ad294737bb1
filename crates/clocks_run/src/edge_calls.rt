// The calls on bad records and at the limits; text and contexts.
use crate::clock_calls::{merge_validation, nth, validation};
use crate::samples::{dot, one};
use crate::say::Said;
use crate::{samples, say};
use clocks::VClock;
use contexts::ReadCtx;
use dots::Actor;
use std::io;

fn bad_record(rt: &impl Print, w: &str, c: VClock) -> io::Result<()> {
    say::words(rt, w)?;
    c.is_normalised().say(rt)?;
    say::end(rt)?;
    bad_reading(rt, c)?;
    bad_change(rt, c)?;
    bad_common(rt, c)?;
    bad_order(rt, c)?;
    shown(rt, "display: ", c, &mut [0u8; 528])
}

fn bad_reading(rt: &impl Print, c: VClock) -> io::Result<()> {
    say::line(rt, "get: ", c.get(Actor(1)))?;
    say::line(rt, "dot: ", c.dot(Actor(1)))?;
    say::line(rt, "inc: ", c.inc(Actor(1)))?;
    say::line(rt, "is_empty: ", c.is_empty())
}

fn bad_change(rt: &impl Print, c: VClock) -> io::Result<()> {
    say::line(rt, "apply: ", c.apply(dot(1, 5)))?;
    say::line(rt, "merge into it: ", c.merge(one(1, 1)))?;
    say::line(rt, "merge with it: ", one(1, 1).merge(c))?;
    say::line(rt, "reset by it: ", one(1, 1).reset_remove(c))
}

fn bad_common(rt: &impl Print, c: VClock) -> io::Result<()> {
    say::line(rt, "without it: ", one(1, 1).clone_without(c))?;
    say::line(rt, "intersection: ", one(1, 1).intersection(c))?;
    say::line(rt, "glb: ", c.glb(one(1, 1)))
}

fn bad_order(rt: &impl Print, c: VClock) -> io::Result<()> {
    say::line(rt, "compare: ", c.compare(one(1, 1)))?;
    say::line(rt, "concurrent: ", one(1, 1).concurrent(c))?;
    validation(rt, "validate_op: ", c.validate_op(dot(1, 9)))?;
    merge_validation(rt, "validate_merge: ", one(1, 1).validate_merge(c))?;
    nth(rt, "nth: ", c.nth(0))
}

fn shown(rt: &impl Print, w: &str, c: VClock, out: &mut [u8]) -> io::Result<()> {
    let len = display::display(c, out);
    say::line(rt, w, len.map(|n| n as u64))
}

pub fn bad_records(rt: &impl Print) -> io::Result<()> {
    bad_record(
        rt,
        "a record with length 17 is normalised: ",
        samples::too_long(),
    )?;
    bad_record(
        rt,
        "a record with actors not ascending is normalised: ",
        samples::not_ascending(),
    )?;
    bad_record(
        rt,
        "a record with a zero counter is normalised: ",
        samples::zero_counter(),
    )?;
    bad_record(
        rt,
        "a record with an unused place not zero is normalised: ",
        samples::unused_not_zero(),
    )
}

pub fn crowded(rt: &impl Print) -> io::Result<()> {
    let c = samples::actors(1, 16, 1);
    say::line(rt, "apply 16.2 to 16 actors: ", c.apply(dot(16, 2)))?;
    say::line(rt, "apply 17.1 to 16 actors: ", c.apply(dot(17, 1)))?;
    say::line(rt, "apply 17.0 to 16 actors: ", c.apply(dot(17, 0)))?;
    say::line(rt, "merge 16 actors with themselves: ", c.merge(c))?;
    say::line(rt, "merge 16 actors with <17:1>: ", c.merge(one(17, 1)))
}

pub fn texts(rt: &impl Print) -> io::Result<()> {
    let c = samples::actors(4294967280, 16, 18446744073709551615);
    shown(
        rt,
        "display of <> into 2 bytes: ",
        VClock::new(),
        &mut [0u8; 2],
    )?;
    shown(
        rt,
        "display of <1:1> into 2 bytes: ",
        one(1, 1),
        &mut [0u8; 2],
    )?;
    shown(
        rt,
        "display of the longest clock into 528 bytes: ",
        c,
        &mut [0u8; 528],
    )?;
    shown(
        rt,
        "display of the longest clock into 527 bytes: ",
        c,
        &mut [0u8; 527],
    )
}

fn context(
    rt: &impl Print,
    w: &str,
    add_clock: VClock,
    rm_clock: VClock,
    actor: u32,
) -> io::Result<()> {
    let x = ReadCtx {
        add_clock,
        rm_clock,
        answer: true,
    };
    say::words(rt, w)?;
    say::answer(rt, x.derive_add_ctx(Actor(actor)))?;
    say::words(rt, "; remove: ")?;
    say::answer(rt, x.derive_rm_ctx())?;
    say::words(rt, "; split: ")?;
    say::answer(rt, x.split().map(|(answer, _)| answer))?;
    say::end(rt)
}

pub fn contexts(rt: &impl Print) -> io::Result<()> {
    context(
        rt,
        "context of actor 1 by <1:1> and <2:2>: ",
        one(1, 1),
        one(2, 2),
        1,
    )?;
    context(rt, "of actor 3: ", one(1, 1), one(2, 2), 3)?;
    context(
        rt,
        "at the largest counter: ",
        one(1, 18446744073709551615),
        one(2, 2),
        1,
    )?;
    context(
        rt,
        "of a 17th actor: ",
        samples::actors(1, 16, 1),
        one(2, 2),
        17,
    )?;
    context(
        rt,
        "with a bad add clock: ",
        samples::too_long(),
        one(2, 2),
        1,
    )?;
    context(
        rt,
        "with a bad remove clock: ",
        one(1, 1),
        samples::zero_counter(),
        1,
    )
}
