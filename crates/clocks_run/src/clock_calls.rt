// The calls on clocks, on good values.
use crate::samples::{dot, one, two};
use crate::say;
use crate::say::Said;
use clocks::VClock;
use dots::{Actor, Dot, OpRefused, Refused};
use std::io;

pub fn readings(rt: &impl Print) -> io::Result<()> {
    let c = two(1, 2, 2, 3);
    say::words(rt, "a clock of two dots: ")?;
    c.say(rt)?;
    say::end(rt)?;
    say::line(rt, "get 1: ", c.get(Actor(1)))?;
    say::line(rt, "get 3: ", c.get(Actor(3)))?;
    say::line(rt, "dot 2: ", c.dot(Actor(2)))
}

pub fn emptiness(rt: &impl Print) -> io::Result<()> {
    let c = two(1, 2, 2, 3);
    say::line(rt, "is_empty: ", c.is_empty())?;
    say::line(rt, "is_empty of <>: ", VClock::new().is_empty())
}

pub fn successors(rt: &impl Print) -> io::Result<()> {
    let c = two(1, 2, 2, 3);
    say::line(rt, "inc 1: ", c.inc(Actor(1)))?;
    say::line(rt, "inc 7: ", c.inc(Actor(7)))?;
    say::line(
        rt,
        "inc 1 of <1:18446744073709551615>: ",
        one(1, 18446744073709551615).inc(Actor(1)),
    )
}

pub fn places(rt: &impl Print) -> io::Result<()> {
    let c = two(1, 2, 2, 3);
    nth(rt, "nth 1: ", c.nth(1))?;
    nth(rt, "nth 2: ", c.nth(2))
}

pub fn nth(rt: &impl Print, w: &str, n: Result<Option<Dot>, Refused>) -> io::Result<()> {
    say::words(rt, w)?;
    match n {
        Ok(Some(d)) => d.say(rt),
        Ok(None) => say::words(rt, "past"),
        Err(refused) => rt.print(refused.number()),
    }?;
    say::end(rt)
}

pub fn applies(rt: &impl Print) -> io::Result<()> {
    let c = two(1, 2, 2, 3);
    say::line(rt, "apply 1.1 to <1:2, 2:3>: ", c.apply(dot(1, 1)))?;
    say::line(rt, "apply 1.5 to <1:2, 2:3>: ", c.apply(dot(1, 5)))?;
    say::line(rt, "apply 3.0 to <1:2, 2:3>: ", c.apply(dot(3, 0)))?;
    say::line(rt, "apply 0.4 to <1:2, 2:3>: ", c.apply(dot(0, 4)))
}

pub fn resets(rt: &impl Print) -> io::Result<()> {
    let c = two(1, 2, 2, 3);
    say::line(
        rt,
        "merge <1:2, 2:3> with <1:1, 3:1>: ",
        c.merge(two(1, 1, 3, 1)),
    )?;
    say::line(
        rt,
        "reset <1:1, 2:1> by <1:1, 3:9>: ",
        two(1, 1, 2, 1).reset_remove(two(1, 1, 3, 9)),
    )?;
    say::line(
        rt,
        "reset <1:2> by <1:1>: ",
        one(1, 2).reset_remove(one(1, 1)),
    )
}

pub fn commons(rt: &impl Print) -> io::Result<()> {
    let c = two(1, 2, 2, 3);
    say::line(rt, "<1:2, 2:3> without <2:3>: ", c.clone_without(one(2, 3)))?;
    say::line(
        rt,
        "intersection of <1:2, 2:3> and <1:2, 2:4>: ",
        c.intersection(two(1, 2, 2, 4)),
    )?;
    say::line(
        rt,
        "glb of <1:2, 2:3> and <1:1, 3:1>: ",
        c.glb(two(1, 1, 3, 1)),
    )
}

pub fn orders(rt: &impl Print) -> io::Result<()> {
    let none = VClock::new();
    say::line(rt, "<1:1> against <>: ", one(1, 1).compare(none))?;
    say::line(rt, "<> against <1:1>: ", none.compare(one(1, 1)))?;
    say::line(rt, "<1:1> against <1:1>: ", one(1, 1).compare(one(1, 1)))?;
    say::line(rt, "<1:1> against <2:1>: ", one(1, 1).compare(one(2, 1)))
}

pub fn rivals(rt: &impl Print) -> io::Result<()> {
    let none = VClock::new();
    say::line(
        rt,
        "concurrent <1:1> and <2:1>: ",
        one(1, 1).concurrent(one(2, 1)),
    )?;
    say::line(rt, "concurrent <1:1> and <>: ", one(1, 1).concurrent(none))
}

pub fn validation(rt: &impl Print, w: &str, v: Result<(), OpRefused>) -> io::Result<()> {
    say::words(rt, w)?;
    match v {
        Ok(()) => say::words(rt, "0"),
        Err(OpRefused::Refused(refused)) => rt.print(refused.number()),
        Err(OpRefused::Gap(g)) => {
            print!(rt;
                "11 of actor {}, start {}, end {}",
                g.actor.0, g.start, g.end
            )
        }
    }?;
    say::end(rt)
}

pub fn merge_validation(rt: &impl Print, w: &str, v: Result<(), Refused>) -> io::Result<()> {
    println!(rt; "{w}{}", say::number(v))
}

pub fn validations(rt: &impl Print) -> io::Result<()> {
    validation(
        rt,
        "validate 1.2 by <1:1>: ",
        one(1, 1).validate_op(dot(1, 2)),
    )?;
    validation(
        rt,
        "validate 1.3 by <1:1>: ",
        one(1, 1).validate_op(dot(1, 3)),
    )?;
    validation(
        rt,
        "validate the largest counter by itself: ",
        one(1, 18446744073709551615).validate_op(dot(1, 18446744073709551615)),
    )?;
    merge_validation(
        rt,
        "validate_merge <1:1> with <2:1>: ",
        one(1, 1).validate_merge(one(2, 1)),
    )
}
