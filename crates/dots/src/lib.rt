// Dots: one actor's events by number (src/dot.rs of the crate), and what a call refuses with. A clock as a list of dots stands in specs/.
#![tactic(auto)]

mod refusals;

ghost use Rattle.std.specs.Prelude.{◌≡◌, Some};
ghost use Rattle.dots.specs.Answers.{number, op_number};
ghost use Rattle.dots.specs.Dot.{dot};
ghost use Rattle.dots.specs.Calls.{inc_of, means, standing, at_least, ord_at_least, same_dot, dot_of, ord_of};

pub use refusals::{OpRefused, Refused};
use std::cmp::Ordering;

#[derive(Clone, Copy, Debug, PartialEq, Eq, PartialOrd, Ord)]
pub struct Actor(pub u32);

#[derive(Clone, Copy, Debug, PartialEq, Eq, PartialOrd, Ord)]
pub struct Member(pub u32);

#[derive(Clone, Copy, Debug, PartialEq, Eq)]
pub struct Dot {
    pub actor: Actor,
    pub counter: u64,
}

// A dot under the order by actor, then counter.
#[derive(Clone, Copy, Debug, PartialEq, Eq, PartialOrd, Ord)]
pub struct OrdDot {
    pub actor: Actor,
    pub counter: u64,
}

// The dots of one actor from `start` on, `end` excluded.
#[derive(Clone, Copy, Debug, PartialEq, Eq)]
pub struct DotRange {
    pub actor: Actor,
    pub start: u64,
    pub end: u64,
}

impl Dot {
    // The dot of an actor with a counter.
    pub fn new(actor: Actor, counter: u64) -> Dot
        ensures { result ≡ dot actor.0 counter }
    {
        Dot { actor, counter }
    }

    // The next dot of the same actor. Refuses 5.
    pub fn inc(self) -> Result<Dot, Refused>
        ensures { result ≡ inc_of self }
    {
        if self.counter == 18446744073709551615 {
            Err(Refused::LastCounter)
        } else {
            Ok(Dot::new(self.actor, self.counter + 1))
        }
    }

    // Dots of one actor by counter; of different actors `None`, which no derived order gives.
    pub fn compare(self, other: Dot) -> Option<Ordering>
        ensures { means result ≡ standing (at_least self other) (at_least other self) }
    {
        if self.actor == other.actor {
            Some(self.counter.cmp(&other.counter))
        } else {
            None
        }
    }

    // Whether actor and counter are the same.
    #[tactic(auto, unfolding(crate::specs::Calls::same_dot))]
    pub fn same(self, other: Dot) -> bool
        ensures { result ≡ same_dot self other }
    {
        self == other
    }
}

impl OrdDot {
    // By actor, then counter.
    pub fn compare(self, other: OrdDot) -> Ordering
        ensures { means (Some result) ≡ standing (ord_at_least self other) (ord_at_least other self) }
    {
        self.cmp(&other)
    }
}

impl From<OrdDot> for Dot {
    ghost from_gives = { λ d e. e ≡ dot_of d };

    fn from(d: OrdDot) -> Dot {
        Dot::new(d.actor, d.counter)
    }
}

impl From<Dot> for OrdDot {
    ghost from_gives = { λ d e. e ≡ ord_of d };

    fn from(d: Dot) -> OrdDot {
        OrdDot {
            actor: d.actor,
            counter: d.counter,
        }
    }
}
