// The calls on dots.
use crate::samples::dot;
use crate::say;
use crate::say::Said;
use dots::{Dot, OrdDot};
use std::io;

pub fn successors(rt: &impl Print) -> io::Result<()> {
    say::line(rt, "inc of 1.0: ", dot(1, 0).inc())?;
    say::line(
        rt,
        "inc of 1.18446744073709551614: ",
        dot(1, 18446744073709551614).inc(),
    )?;
    say::line(
        rt,
        "inc of 1.18446744073709551615: ",
        dot(1, 18446744073709551615).inc(),
    )
}

// a.m against b.n
fn against(rt: &impl Print, w: &str, a: u32, m: u64, b: u32, n: u64) -> io::Result<()> {
    say::words(rt, w)?;
    compared(rt, dot(a, m), dot(b, n))
}

fn compared(rt: &impl Print, a: Dot, b: Dot) -> io::Result<()> {
    a.compare(b).say(rt)?;
    say::words(rt, ", the same: ")?;
    a.same(b).say(rt)?;
    say::words(rt, ", ordered: ")?;
    Some(OrdDot::from(a).compare(OrdDot::from(b))).say(rt)?;
    say::end(rt)
}

pub fn comparisons(rt: &impl Print) -> io::Result<()> {
    against(rt, "1.1 against 1.2: ", 1, 1, 1, 2)?;
    against(rt, "1.2 against 1.2: ", 1, 2, 1, 2)?;
    against(rt, "1.3 against 1.2: ", 1, 3, 1, 2)?;
    against(rt, "1.9 against 2.1: ", 1, 9, 2, 1)?;
    against(rt, "2.1 against 1.9: ", 2, 1, 1, 9)?;
    say::words(rt, "4294967295.7 as an ordered dot and back: ")?;
    Dot::from(OrdDot::from(dot(4294967295, 7))).say(rt)?;
    say::end(rt)
}
