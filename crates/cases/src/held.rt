// Replicas as a caller holds them: what a call wrote, and what it answered. Each function hands images on to a public call.
use clocks::VClock;
use dots::{Actor, Dot, Refused};
use orswot::{Op, apply, merge, reset_remove};

// The bytes that were lent to a call, and how many it wrote there, or why it refused.
#[derive(Clone, Copy)]
pub struct Held {
    pub answer: Result<usize, Refused>,
    pub bytes: [u8; 1536],
}

impl Held {
    // The image that the call wrote: no bytes where it refused.
    pub fn image(&self) -> &[u8] {
        let len = self.answer.unwrap_or(0);
        self.bytes.get(..len).unwrap_or(&[])
    }
}

// What a call leaves in bytes that are lent to it.
fn written<F: FnOnce(&mut [u8]) -> Result<usize, Refused>>(call: F) -> Held
    requires { F.IsAlwaysCallable call }
{
    let mut bytes = [0u8; 1536];
    let answer = call(&mut bytes);
    Held { answer, bytes }
}

// Like `dot`, `one` and `two` of clocks_run's samples: that program is of clocks alone, and a crate for three lines would be no plainer.
pub fn dot(actor: u32, counter: u64) -> Dot {
    Dot::new(Actor(actor), counter)
}

// {actor:counter}
pub fn one(actor: u32, counter: u64) -> VClock {
    VClock::from(dot(actor, counter))
}

// {a:m, b:n}
pub fn two(a: u32, m: u64, b: u32, n: u64) -> VClock {
    one(a, m).merge(one(b, n)).unwrap_or(VClock::new())
}

pub fn empty() -> Held {
    written(|out| orswot::empty(out))
}

// An operation on a replica.
pub fn applied(h: &Held, op: Op, clock: VClock, members: &[u32]) -> Held {
    written(|out| apply(h.image(), op, clock, members, out))
}

// The add of one member.
pub fn added(h: &Held, actor: u32, counter: u64, member: u32) -> Held {
    applied(h, Op::Add(dot(actor, counter)), VClock::new(), &[member])
}

// The add of no members, which moves the clock.
pub fn moved(h: &Held, actor: u32, counter: u64) -> Held {
    applied(h, Op::Add(dot(actor, counter)), VClock::new(), &[])
}

// The remove of one member.
pub fn removed(h: &Held, clock: VClock, member: u32) -> Held {
    applied(h, Op::Remove, clock, &[member])
}

pub fn merged(a: &Held, b: &Held) -> Held {
    written(|out| merge(a.image(), b.image(), out))
}

pub fn reset(h: &Held, clock: VClock) -> Held {
    written(|out| reset_remove(h.image(), clock, out))
}

// E of document 01.
pub fn e() -> Held {
    added(&empty(), 1, 1, 5)
}
