// Prints words, values and answers.
use clocks::VClock;
use contexts::{AddCtx, RmCtx};
use dots::{Actor, Dot, Refused};
use std::cmp::Ordering;
use std::io;

// A value that a call answers: how it is printed, and what stands beside the number of a refusal.
pub trait Said: Copy {
    fn nothing() -> Self;

    fn say(self, rt: &impl Print) -> io::Result<()>;
}

impl Said for u64 {
    fn nothing() -> u64 {
        0
    }

    fn say(self, rt: &impl Print) -> io::Result<()> {
        rt.print(self)
    }
}

impl Said for bool {
    fn nothing() -> bool {
        false
    }

    fn say(self, rt: &impl Print) -> io::Result<()> {
        words(rt, if self { "yes" } else { "no" })
    }
}

impl Said for Dot {
    fn nothing() -> Dot {
        Dot::new(Actor(0), 0)
    }

    fn say(self, rt: &impl Print) -> io::Result<()> {
        print!(rt; "{}.{}", self.actor.0, self.counter)
    }
}

impl Said for Option<Ordering> {
    fn nothing() -> Option<Ordering> {
        None
    }

    fn say(self, rt: &impl Print) -> io::Result<()> {
        match self {
            Some(Ordering::Less) => words(rt, "less"),
            Some(Ordering::Equal) => words(rt, "equal"),
            Some(Ordering::Greater) => words(rt, "greater"),
            None => words(rt, "none"),
        }
    }
}

impl Said for VClock {
    fn nothing() -> VClock {
        VClock::new()
    }

    fn say(self, rt: &impl Print) -> io::Result<()> {
        rt.print(self)
    }
}

impl Said for AddCtx {
    fn nothing() -> AddCtx {
        AddCtx {
            clock: VClock::nothing(),
            dot: Dot::nothing(),
        }
    }

    fn say(self, rt: &impl Print) -> io::Result<()> {
        self.dot.say(rt)?;
        words(rt, " ")?;
        self.clock.say(rt)
    }
}

impl Said for RmCtx {
    fn nothing() -> RmCtx {
        RmCtx {
            clock: VClock::nothing(),
        }
    }

    fn say(self, rt: &impl Print) -> io::Result<()> {
        self.clock.say(rt)
    }
}

pub fn words(rt: &impl Print, w: &str) -> io::Result<()> {
    rt.print(w)
}

pub fn end(rt: &impl Print) -> io::Result<()> {
    words(rt, "\n")
}

// The number of an answer, as this program prints it: 0 where it is granted.
pub fn number<T: Copy>(a: Result<T, Refused>) -> u32 {
    match a {
        Ok(_) => 0,
        Err(refused) => refused.number(),
    }
}

// An answer's number and its value.
pub fn answer<T: Said>(rt: &impl Print, a: Result<T, Refused>) -> io::Result<()> {
    print!(rt; "{} ", number(a))?;
    a.unwrap_or(T::nothing()).say(rt)
}

pub fn line<T: Said>(rt: &impl Print, w: &str, a: Result<T, Refused>) -> io::Result<()> {
    words(rt, w)?;
    answer(rt, a)?;
    end(rt)
}
