// The clocks that the calls are run on, good and bad.
ghost use Rattle.std.specs.Prelude.{◌+◌, ◌≤◌};

use clocks::VClock;
use dots::{Actor, Dot};

pub fn dot(actor: u32, counter: u64) -> Dot {
    Dot::new(Actor(actor), counter)
}

// {actor:counter}
pub fn one(actor: u32, counter: u64) -> VClock {
    VClock::from(dot(actor, counter))
}

// {a:m, b:n}
pub fn two(a: u32, m: u64, b: u32, n: u64) -> VClock {
    one(a, m).merge(one(b, n)).unwrap_or(VClock::new())
}

// `many` actors from `first` on, each with the counter.
pub(crate) fn actors(first: u32, many: u32, counter: u64) -> VClock
    requires { first + many ≤ 4294967296 }
{
    let mut c = VClock::new();
    for i in 0..many {
        c = c.apply(dot(first + i, counter)).unwrap_or(VClock::new());
    }
    c
}

// A record whose length is over 16.
pub fn too_long() -> VClock {
    let mut c = actors(1, 16, 1);
    c.len = 17;
    c
}

// {2:1, 1:1} as it must not stand.
pub fn not_ascending() -> VClock {
    let mut c = VClock::new();
    c.dots[0] = dot(2, 1);
    c.dots[1] = dot(1, 1);
    c.len = 2;
    c
}

// {1:0} as it must not stand.
pub fn zero_counter() -> VClock {
    let mut c = VClock::new();
    c.dots[0] = dot(1, 0);
    c.len = 1;
    c
}

// {1:1} with a dot left behind in a place that is not in use.
pub fn unused_not_zero() -> VClock {
    let mut c = one(1, 1);
    c.dots[9] = dot(9, 9);
    c
}
