// Replays stored answers of the Rust crate: makes each line's call and compares the answer and every byte of the output. Prints how many lines of each
// call agree. oracle/write-answers wrote the two files, whose heads say how to read a line.
#![tactic(auto)]

mod clock_calls;
mod room;
mod set_calls;
mod text;

use crate::clock_calls::{Said, judged, order, put_context, put_counter, put_dot};
use clocks::VClock;
use dots::{OrdDot, Refused};
use fields::put_clock;
use std::fmt::{self, Display};
use std::io::{Read, Seek};
use std::rt::Files;
use std::{fs, io};

// How many lines of a call there are, and how many of them agree.
#[derive(Clone, Copy, Default)]
struct Tally {
    agreed: u64,
    lines: u64,
}

impl Tally {
    // The lines of both.
    fn and(self, other: Tally) -> Tally {
        Tally {
            agreed: self.agreed.wrapping_add(other.agreed),
            lines: self.lines.wrapping_add(other.lines),
        }
    }
}

impl Display for Tally {
    fn fmt<W: fmt::Write>(&self, f: &mut fmt::Formatter<W>) -> fmt::Result {
        write!(f, "{} of {} agree", self.agreed, self.lines)
    }
}

// The lines of one call among some.
fn in_lines<F: Fn(&[u8]) -> bool>(lines: &[u8], name: &str, agrees: &F) -> Tally
    requires { F.IsAlwaysCallable agrees.now }
{
    let mut t = Tally::default();
    for line in lines.split(|b| *b == b'\n') {
        if text::field(line, 0) == name.as_bytes() {
            t = t.and(Tally {
                agreed: u64::from(agrees(line)),
                lines: 1,
            });
        }
    }
    t
}

// The lines of one call in a file, which is read part by part: each part ends with a line, so they differ in length.
fn in_file<R: Files, F: Fn(&[u8]) -> bool>(rt: &R, path: &str, name: &str, agrees: &F) -> Tally
    requires { F.IsAlwaysCallable agrees.now }
{
    let mut t = Tally::default();
    let Ok(mut file) = fs::open(rt, path) else {
        return t;
    };
    let mut part = [0u8; 65536];
    let mut at: u32 = 0;
    while at < 1000000000 {
        let n = text::lines_from(&mut file, at, &mut part);
        t = t.and(in_lines(&part[..n], name, agrees));
        if n == 0 {
            break;
        }
        at += n as u32;
    }
    t
}

// Replays one call's lines, prints its count, and adds it to the sum.
fn replay<R: Files + Print, F: Fn(&[u8]) -> bool>(
    rt: &R,
    sum: &mut Tally,
    path: &str,
    name: &str,
    agrees: &F,
) -> io::Result<()>
    requires { F.IsAlwaysCallable agrees.now }
{
    let t = in_file(rt, path, name, agrees);
    *sum = sum.and(t);
    println!(rt; "{name}: {t}")
}

// A call over images.
fn image_call<R: Files + Print, F: Fn(&set_calls::Arguments<'_>, &mut [u8]) -> u64>(
    rt: &R,
    sum: &mut Tally,
    name: &str,
    call: F,
) -> io::Result<()>
    requires { F.IsAlwaysCallable call }
{
    replay(
        rt,
        sum,
        "answers.txt",
        name,
        &|line: &[u8]| set_calls::agrees(line, &call),
    )
}

// A call of dots or clocks.
fn clock_call<R: Files + Print, F: Fn(&clock_calls::Arguments<'_>, &mut [u8]) -> Said>(
    rt: &R,
    sum: &mut Tally,
    name: &str,
    call: F,
) -> io::Result<()>
    requires { F.IsAlwaysCallable call }
{
    replay(
        rt,
        sum,
        "clock-answers.txt",
        name,
        &|line: &[u8]| clock_calls::agrees(line, &call),
    )
}

// A call that makes one clock of two.
fn clock_of_two<R: Files + Print, F: Fn(VClock, VClock) -> Result<VClock, Refused>>(
    rt: &R,
    sum: &mut Tally,
    name: &str,
    call: F,
) -> io::Result<()>
    requires { F.IsAlwaysCallable call }
{
    clock_call(rt, sum, name, |a, out| {
        Ok(put_clock(out, 0, call(a.clock(), a.other_clock())?))
    })
}

// The calls that write an image.
fn writes<R: Files + Print>(rt: &R, sum: &mut Tally) -> io::Result<()> {
    image_call(rt, sum, "empty", |_a, out| exports::gatelichen_empty(out))?;
    image_call(rt, sum, "add", |a, out| {
        exports::gatelichen_add(a.image, a.number, a.counter, a.members, out)
    })?;
    image_call(rt, sum, "remove", |a, out| {
        exports::gatelichen_remove(a.image, a.other, a.members, out)
    })?;
    image_call(rt, sum, "merge", |a, out| {
        exports::gatelichen_merge(a.image, a.other, out)
    })?;
    image_call(rt, sum, "reset", |a, out| {
        exports::gatelichen_reset(a.image, a.other, out)
    })
}

// The calls that ask of an image, and those that judge.
fn reads<R: Files + Print>(rt: &R, sum: &mut Tally) -> io::Result<()> {
    image_call(
        rt,
        sum,
        "check",
        |a, _out| exports::gatelichen_check(a.image),
    )?;
    image_call(rt, sum, "contains", |a, out| {
        exports::gatelichen_contains(a.image, a.number, out)
    })?;
    image_call(
        rt,
        sum,
        "read",
        |a, out| exports::gatelichen_read(a.image, out),
    )?;
    image_call(
        rt,
        sum,
        "clock",
        |a, out| exports::gatelichen_clock(a.image, out),
    )?;
    image_call(rt, sum, "validate_add", |a, out| {
        exports::gatelichen_validate_add(a.image, a.number, a.counter, a.members, out)
    })?;
    image_call(rt, sum, "validate_remove", |a, _out| {
        exports::gatelichen_validate_remove(a.image, a.other, a.members)
    })?;
    image_call(rt, sum, "validate_merge", |a, out| {
        exports::gatelichen_validate_merge(a.image, a.other, out)
    })
}

// The calls of dots.
fn dots<R: Files + Print>(rt: &R, sum: &mut Tally) -> io::Result<()> {
    clock_call(rt, sum, "dot_inc", |a, out| Ok(put_dot(out, a.dot.inc()?)))?;
    clock_call(rt, sum, "dot_compare", |a, _out| {
        Ok(order(a.first_dot().compare(a.second_dot())))
    })?;
    clock_call(rt, sum, "ord_dot_compare", |a, _out| {
        let first = OrdDot::from(a.first_dot());
        Ok(order(Some(first.compare(OrdDot::from(a.second_dot())))))
    })
}

// The calls of one clock.
fn clocks<R: Files + Print>(rt: &R, sum: &mut Tally) -> io::Result<()> {
    clock_call(rt, sum, "clock_get", |a, out| {
        Ok(put_counter(out, a.clock().get(a.dot.actor)?))
    })?;
    clock_call(rt, sum, "clock_is_empty", |a, _out| {
        Ok(usize::from(a.clock().is_empty()?))
    })?;
    clock_call(rt, sum, "clock_inc", |a, out| {
        Ok(put_dot(out, a.clock().inc(a.dot.actor)?))
    })?;
    clock_call(rt, sum, "clock_apply", |a, out| {
        Ok(put_clock(out, 0, a.clock().apply(a.dot)?))
    })?;
    clock_call(rt, sum, "clock_validate_op", |a, out| {
        judged(out, a.clock().validate_op(a.dot))
    })?;
    clock_call(
        rt,
        sum,
        "clock_display",
        |a, out| Ok(display::display(a.clock(), out)?),
    )
}

// The calls of two clocks.
fn pairs<R: Files + Print>(rt: &R, sum: &mut Tally) -> io::Result<()> {
    clock_of_two(rt, sum, "clock_merge", VClock::merge)?;
    clock_of_two(rt, sum, "clock_reset_remove", VClock::reset_remove)?;
    clock_of_two(rt, sum, "clock_clone_without", VClock::clone_without)?;
    clock_of_two(rt, sum, "clock_intersection", VClock::intersection)?;
    clock_of_two(rt, sum, "clock_glb", VClock::glb)?;
    clock_call(rt, sum, "clock_compare", |a, _out| {
        Ok(order(a.clock().compare(a.other_clock())?))
    })?;
    clock_call(rt, sum, "clock_concurrent", |a, _out| {
        Ok(usize::from(a.clock().concurrent(a.other_clock())?))
    })?;
    clock_call(rt, sum, "derive_add_ctx", |a, out| {
        let next = a.context().derive_add_ctx(a.dot.actor)?;
        Ok(put_context(out, next.dot, next.clock))
    })
}

fn main(rt: HostRuntime) -> io::Result<()> {
    let mut sum = Tally::default();
    writes(&rt, &mut sum)?;
    reads(&rt, &mut sum)?;
    dots(&rt, &mut sum)?;
    clocks(&rt, &mut sum)?;
    pairs(&rt, &mut sum)?;
    println!(rt; "all: {sum}")
}
