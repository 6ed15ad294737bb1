// Dots in 16 places, of which the first n stand for a clock (all 16 where n is larger). Nothing is asked of them: what isn't a clock has an
// answer too. The walks along one and along two such lists. An array comes with its length since a `VClock` keeps them so: fixed memory.
#![tactic(auto)]

ghost use Rattle.std.specs.Prelude.{◌≡◌, ◌&&◌, ◌+◌, ◌<◌, min, leb, length, take, drop};
ghost use Rattle.std.specs.List.{list_all};
ghost use Rattle.tables.specs.Table.{every};
ghost use Rattle.tables.specs.Zip.{front, said, past};
ghost use Rattle.dots.specs.Dot.{dots};
ghost use Rattle.dots.specs.Clock.{count, normal};
ghost use Rattle.dots.specs.Covering.{cover_of};
ghost use Rattle.dots.specs.Rising.{rising};
ghost use Rattle.places.specs.Places.{unused, joined};
ghost use Rattle.places.specs.Turn.{rule_of};
ghost use Rattle.places.specs.Walked.{walked};

use dots::{Actor, Dot};

// What becomes of an actor's two counters: the larger; the smaller; the counter where both are the same; the first where it is beyond the second.
// A value and not a closure: `join_call` of clocks, on which merge, glb and the resets rest, names the rule.
#[derive(Clone, Copy)]
pub enum Rule {
    Larger,
    Smaller,
    Same,
    Beyond,
}

// A list of dots in places, zero where there is none, and how many dots it has: from place 16 on they are counted and not stored.
#[derive(Clone, Copy)]
pub struct Joined {
    pub dots: [Dot; 16],
    pub len: usize,
}

// Whether the first n are a normalised clock, n is 16 at most, and the other places are zero.
pub fn normal(dots: [Dot; 16], n: usize) -> bool
    ensures { result ≡ (leb n 16 && (normal (take n dots) && every unused (drop n dots))) }
{
    n <= 16 && ascending(&dots[..n]) && clear(&dots[n..])
}

// The counter of an actor, 0 where it is missing.
pub fn counter(dots: [Dot; 16], n: usize, a: u32) -> u64
    ensures { result ≡ count (take n dots) a }
{
    for d in &dots[..n.min(16)] {
        if d.actor.0 == a {
            return d.counter;
        }
    }
    0
}

// Whether the first n of a cover the first m of b: along a's actors, with what is left of b.
pub fn covers(a: [Dot; 16], n: usize, b: [Dot; 16], m: usize) -> bool
    ensures { result ≡ cover_of (take n a) (take m b) }
{
    let mut left = &b[..m.min(16)];
    for d in &a[..n.min(16)] {
        if d.counter < held(left, d.actor.0) {
            return false;
        }
        left = after(left, d.actor.0);
    }
    left.is_empty()
}

// Both walked together: each actor with what the rule makes of its two counters, zeros dropped.
pub fn zip(rule: Rule, a: [Dot; 16], n: usize, b: [Dot; 16], m: usize) -> Joined
    ensures { result ≡ joined (walked (rule_of rule) (take n a) (take m b)) }
{
    let mut xs = &a[..n.min(16)];
    let mut ys = &b[..m.min(16)];
    let mut dots = [Dot {
        actor: Actor(0),
        counter: 0,
    }; 16];
    let mut len: usize = 0;
    while xs.len() + ys.len() > 0 {
        let actor = lowest(xs, ys);
        let counter = ruled(rule, held(xs, actor), held(ys, actor));
        if counter != 0 {
            if len < 16 {
                dots[len] = Dot {
                    actor: Actor(actor),
                    counter,
                };
            }
            len += 1;
        }
        xs = after(xs, actor);
        ys = after(ys, actor);
    }
    Joined { dots, len }
}

// The lower of the first actors of two lists.
fn lowest(xs: &[Dot], ys: &[Dot]) -> u32
    requires { 0 < length xs.now + length ys.now }
    ensures { result ≡ min (front dots 4294967296 xs.now) (front dots 4294967296 ys.now) }
{
    match (xs, ys) {
        ([x, ..], [y, ..]) => x.actor.0.min(y.actor.0),
        ([x, ..], []) => x.actor.0,
        ([], [y, ..]) => y.actor.0,
        ([], []) => unreachable!(),
    }
}

// The counter of an actor where its dot is the first, else 0.
fn held(ahead: &[Dot], actor: u32) -> u64
    ensures { result ≡ said dots actor ahead.now }
{
    match ahead {
        [d, ..] if d.actor.0 == actor => d.counter,
        _ => 0,
    }
}

// What is left after an actor's dot, where that is the first.
fn after(ahead: &[Dot], actor: u32) -> &[Dot]
    ensures { result.now ≡ past dots actor ahead.now }
{
    match ahead {
        [d, rest @ ..] if d.actor.0 == actor => rest,
        _ => ahead,
    }
}

// Whether the actors ascend strictly and no counter is zero.
fn ascending(dots: &[Dot]) -> bool
    ensures { result ≡ rising 0 dots.now }
{
    let mut low: u64 = 0;
    for d in dots {
        let a = u64::from(d.actor.0);
        if a < low || d.counter == 0 {
            return false;
        }
        low = a + 1;
    }
    true
}

// Whether places that are not in use are zero.
#[tactic(auto, unfolding(crate::specs::Places::unused))]
fn clear(dots: &[Dot]) -> bool
    ensures { result ≡ list_all unused dots.now }
{
    dots.iter().all(|d| d.actor.0 == 0 && d.counter == 0)
}

#[tactic(auto, unfolding(crate::specs::Turn::rule_of, dots::specs::Ruled::same, dots::specs::Ruled::beyond))]
fn ruled(rule: Rule, x: u64, y: u64) -> u64
    ensures { result ≡ rule_of rule x y }
{
    match rule {
        Rule::Larger => x.max(y),
        Rule::Smaller => x.min(y),
        Rule::Same => if x == y { x } else { 0 },
        Rule::Beyond => if x <= y { 0 } else { x },
    }
}
