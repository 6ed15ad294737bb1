// The calls of dots, clocks and contexts, which C doesn't have.
use crate::room::{LENT, ZEROS, left};
use crate::text::{bytes, field, number, number_up_to, number32};
use clocks::VClock;
use contexts::ReadCtx;
use dots::{Actor, Dot, OpRefused};
use fields::{clock_at, put_clock, put_u32, put_u64, u32_at, u64_at};
use std::cmp::Ordering;

// What a line says of a call's arguments: two clocks, or two dots, in bytes, and a dot or its actor.
#[derive(Clone, Copy)]
pub(crate) struct Arguments<'a> {
    first: &'a [u8],
    second: &'a [u8],
    pub(crate) dot: Dot,
}

impl Arguments<'_> {
    pub(crate) fn clock(&self) -> VClock {
        clock_at(self.first, 0)
    }

    pub(crate) fn other_clock(&self) -> VClock {
        clock_at(self.second, 0)
    }

    pub(crate) fn first_dot(&self) -> Dot {
        dot_at(self.first)
    }

    pub(crate) fn second_dot(&self) -> Dot {
        dot_at(self.second)
    }

    // The context of a read that gave the two clocks.
    pub(crate) fn context(&self) -> ReadCtx {
        ReadCtx {
            add_clock: self.clock(),
            rm_clock: self.other_clock(),
            answer: false,
        }
    }
}

// The dot that 12 bytes say.
fn dot_at(s: &[u8]) -> Dot {
    Dot::new(Actor(u32_at(s, 0)), u64_at(s, 4))
}

// The length of what a call wrote, or what a comparison or a yes or no says; or what it refuses with.
pub(crate) type Said = Result<usize, OpRefused>;

pub(crate) fn put_counter(out: &mut [u8], n: u64) -> usize {
    put_u64(out, 0, n);
    8
}

pub(crate) fn put_dot(out: &mut [u8], d: Dot) -> usize {
    put_u32(out, 0, d.actor.0);
    put_u64(out, 4, d.counter);
    12
}

// The dot, then the clock.
pub(crate) fn put_context(out: &mut [u8], d: Dot, c: VClock) -> usize {
    let n = put_dot(out, d);
    put_clock(out, n, c).saturating_add(n)
}

// The number that stands for an order.
pub(crate) fn order(o: Option<Ordering>) -> usize {
    match o {
        Some(Ordering::Less) => 0,
        Some(Ordering::Equal) => 1,
        Some(Ordering::Greater) => 2,
        None => 3,
    }
}

// A gap is written, where it is what an operation is refused with.
pub(crate) fn judged(out: &mut [u8], verdict: Result<(), OpRefused>) -> Said {
    if let Err(OpRefused::Gap(gap)) = verdict {
        put_u64(out, 0, gap.start);
        put_u64(out, 8, gap.end);
    }
    verdict.map(|()| 0)
}

// Makes a line's call: `name first second actor counter - room refusal length output`.
pub(crate) fn agrees<F: Fn(&Arguments<'_>, &mut [u8]) -> Said>(line: &[u8], call: &F) -> bool
    requires { F.IsAlwaysCallable call.now }
{
    let mut first = ZEROS;
    let n = bytes(field(line, 1), &mut first);
    let mut second = ZEROS;
    let m = bytes(field(line, 2), &mut second);
    let arguments = Arguments {
        first: &first[..n],
        second: &second[..m],
        dot: Dot::new(Actor(number32(field(line, 3))), number(field(line, 4))),
    };
    let mut out = LENT;
    let room = number_up_to(field(line, 6), 8192);
    let (refusal, length) = match call(&arguments, &mut out[..room]) {
        Ok(length) => (0, length),
        Err(refused) => (refused.number(), 0),
    };
    let mut expected = ZEROS;
    let e = bytes(field(line, 9), &mut expected);
    refusal == number32(field(line, 7))
        && length == number_up_to(field(line, 8), 4096)
        && left(&out, &expected[..e])
}
