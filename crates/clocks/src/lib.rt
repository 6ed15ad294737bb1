// Vector clocks: at most 16 dots by ascending actor (src/vclock.rs of the crate). Each call judges every clock that it is given, `self`
// included, and refuses with 3 where one isn't normalised.
#![tactic(auto)]

mod text;

ghost use Rattle.std.specs.Prelude.{◌≡◌, true, [], ◌∷◌};
ghost use Rattle.tables.specs.Table.{every};
ghost use Rattle.dots.specs.Calls.{named, standing};
ghost use Rattle.dots.specs.Clock.{applied, count, covers};
ghost use Rattle.clocks.specs.VClock.{dots_of, vclock, normalised};
ghost use Rattle.clocks.specs.Calls.{zipped, judged, get_call, dot_call, empty_call, inc_call, join_call, apply_call, merge_call, reset_call, intersection_call, glb_call, compare_call, concurrent_call, validate_op_call, validate_merge_call, nth_call};

use dots::{Actor, Dot, DotRange, OpRefused, Refused};
use places::Rule;
use std::cmp::Ordering;

// Fixed memory: 16 places, and how many of them are in use.
#[derive(Clone, Copy)]
pub struct VClock {
    pub dots: [Dot; 16],
    pub len: usize,
}

impl VClock {
    // The clock of no dots.
    pub fn new() -> VClock
        ensures { result ≡ vclock [] }
    {
        VClock {
            dots: [Dot {
                actor: Actor(0),
                counter: 0,
            }; 16],
            len: 0,
        }
    }

    // Whether the clock is normalised.
    pub fn is_normalised(self) -> bool
        ensures { result ≡ normalised self }
    {
        let dots = self.dots;
        places::normal(dots, self.len)
    }

    // The counter of an actor, 0 where it is missing. Refuses 3.
    pub fn get(self, actor: Actor) -> Result<u64, Refused>
        ensures { result ≡ get_call self actor.0 }
    {
        Ok(self.judged()?.counter(actor.0))
    }

    // The dot of an actor, with counter 0 where it is missing. Refuses 3.
    pub fn dot(self, actor: Actor) -> Result<Dot, Refused>
        ensures { result ≡ dot_call self actor.0 }
    {
        Ok(Dot::new(actor, self.get(actor)?))
    }

    // Whether the clock has no dots. Refuses 3.
    pub fn is_empty(self) -> Result<bool, Refused>
        ensures { result ≡ empty_call self }
    {
        Ok(self.judged()?.len == 0)
    }

    // The next dot of an actor. Refuses 3; then 5.
    pub fn inc(self, actor: Actor) -> Result<Dot, Refused>
        ensures { result ≡ inc_call self actor.0 }
    {
        self.dot(actor)?.inc()
    }

    // The clock with the actor's counter raised to the dot's, if that is larger. Refuses 3; then 6.
    pub fn apply(self, d: Dot) -> Result<VClock, Refused>
        ensures { result ≡ apply_call self d }
    {
        VClock::joined(Rule::Larger, self, VClock::from(d))
    }

    // The larger counter per actor. Refuses 3; then 6.
    pub fn merge(self, other: VClock) -> Result<VClock, Refused>
        ensures { result ≡ merge_call self other }
    {
        VClock::joined(Rule::Larger, self, other)
    }

    // The clock without the actors whose counter c covers. Refuses 3.
    pub fn reset_remove(self, c: VClock) -> Result<VClock, Refused>
        ensures { result ≡ reset_call self c }
    {
        VClock::joined(Rule::Beyond, self, c)
    }

    // A new clock without the actors whose counter c covers. Refuses 3.
    pub fn clone_without(self, c: VClock) -> Result<VClock, Refused>
        ensures { result ≡ reset_call self c }
    {
        self.reset_remove(c)
    }

    // The dots that are equal in both. Refuses 3.
    pub fn intersection(self, other: VClock) -> Result<VClock, Refused>
        ensures { result ≡ intersection_call self other }
    {
        VClock::joined(Rule::Same, self, other)
    }

    // The smaller counter per actor, zeros dropped. Refuses 3.
    pub fn glb(self, other: VClock) -> Result<VClock, Refused>
        ensures { result ≡ glb_call self other }
    {
        VClock::joined(Rule::Smaller, self, other)
    }

    // How the clock stands to another (partial_cmp). Refuses 3, so it can't be a `PartialOrd`.
    pub fn compare(self, other: VClock) -> Result<Option<Ordering>, Refused>
        ensures { result ≡ compare_call self other }
    {
        self.validate_merge(other)?;
        Ok(by_covering(self.covers(other), other.covers(self)))
    }

    // Whether neither clock covers the other. Refuses 3.
    pub fn concurrent(self, other: VClock) -> Result<bool, Refused>
        ensures { result ≡ concurrent_call self other }
    {
        Ok(self.compare(other)?.is_none())
    }

    // Whether a dot is the actor's next at most; the gap before it otherwise (11). Refuses 3.
    pub fn validate_op(self, d: Dot) -> Result<(), OpRefused>
        ensures { result ≡ validate_op_call self d }
    {
        let last = self.get(d.actor)?;
        if d.counter <= last {
            return Ok(());
        }
        let next = last + 1;
        if next < d.counter {
            return Err(OpRefused::Gap(DotRange {
                actor: d.actor,
                start: next,
                end: d.counter,
            }));
        }
        Ok(())
    }

    // Any two normalised clocks may be merged. Refuses 3.
    pub fn validate_merge(self, other: VClock) -> Result<(), Refused>
        ensures { result ≡ validate_merge_call self other }
    {
        if self.is_normalised() && other.is_normalised() {
            Ok(())
        } else {
            Err(Refused::BadClock)
        }
    }

    // The dot at place i, by ascending actor: a loop over i from 0 is the Rust's iteration. Refuses 3.
    pub fn nth(self, i: usize) -> Result<Option<Dot>, Refused>
        ensures { result ≡ nth_call self i }
    {
        let c = self.judged()?;
        Ok(c.dots[..c.len].get(i).copied())
    }

    // The clock, where it is normalised. Refuses 3.
    fn judged(self) -> Result<VClock, Refused>
        ensures { result ≡ judged (self ∷ []) self }
    {
        self.is_normalised()
            .then_some(self)
            .ok_or(Refused::BadClock)
    }

    // The counter of an actor.
    fn counter(self, a: u32) -> u64
        ensures { result ≡ count (dots_of self) a }
    {
        let dots = self.dots;
        places::counter(dots, self.len, a)
    }

    // Both clocks under a rule. Refuses 3; then 6, on the finished result.
    fn joined(rule: Rule, a: VClock, b: VClock) -> Result<VClock, Refused>
        ensures { result ≡ join_call rule a b }
    {
        a.validate_merge(b)?;
        let clock = zip(rule, a, b);
        if clock.len > 16 {
            Err(Refused::ManyActors)
        } else {
            Ok(clock)
        }
    }

    // Whether the clock covers another.
    fn covers(self, other: VClock) -> bool
        requires { every normalised (self ∷ other ∷ []) ≡ true }
        ensures { result ≡ covers (dots_of self) (dots_of other) }
    {
        let dots = self.dots;
        let others = other.dots;
        places::covers(dots, self.len, others, other.len)
    }
}

// The clock of one dot; the empty clock where its counter is 0.
impl From<Dot> for VClock {
    ghost from_gives = { λ d c. c ≡ vclock (applied [] d) };

    fn from(d: Dot) -> VClock {
        let mut c = VClock::new();
        if d.counter == 0 {
            return c;
        }
        c.dots[0] = d;
        c.len = 1;
        c
    }
}

// The order of two values of which the first covers the second, or the second the first.
fn by_covering(second: bool, first: bool) -> Option<Ordering>
    ensures { result ≡ named (standing second first) }
{
    match (second, first) {
        (true, true) => Some(Ordering::Equal),
        (true, false) => Some(Ordering::Greater),
        (false, true) => Some(Ordering::Less),
        (false, false) => None,
    }
}

// Both clocks walked together: each actor with what the rule makes of its two counters, zeros dropped. The result's length may pass 16;
// dots from place 16 on are counted and not stored.
fn zip(rule: Rule, a: VClock, b: VClock) -> VClock
    requires { every normalised (a ∷ b ∷ []) ≡ true }
    ensures { result ≡ vclock (zipped rule (dots_of a) (dots_of b)) }
{
    let x = a.dots;
    let y = b.dots;
    let z = places::zip(rule, x, a.len, y, b.len);
    let dots = z.dots;
    VClock { dots, len: z.len }
}
