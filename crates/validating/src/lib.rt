// Whether two replicas may be merged (`validate_merge` of src/orswot.rs): a dot that both hold, each for another member, is reported.
#![tactic(auto)]

ghost use Rattle.std.specs.Prelude.{◌≡◌, true, not, ◌&&◌, map, ◌+◌, ◌*◌, ◌<◌, ◌≤◌, eqb, length, take};
ghost use Rattle.std.proofs.lemmas.List.Edits.{sets};
ghost use Rattle.dots.specs.Rising.{rising};
ghost use Rattle.replica.specs.Validate.{first};
ghost use Rattle.layout.specs.Fields.{u32_at, u64_at};
ghost use Rattle.layout.specs.Clock.{dot_at, dots_at, clock_at};
ghost use Rattle.layout.specs.Rows.{row_at};
ghost use Rattle.validating.specs.declared.MergeRefused.TheVariants.{Refused as RefusedWith};
ghost use Rattle.validating.specs.Calls.{merge_number, validate_merge_call};
ghost use Rattle.validating.specs.Search.{reportable, spotted, sights_of, spent_is, verdict, key_of, keys_of, Listed, Keyed, Apart, Walked};

use dots::{Actor, Dot, Member, Refused};
use fields::{index, u32_at, u64_at};
use image::check;

// A dot, the member that holds it with us, and the one that holds it with them.
#[derive(Clone, Copy, Debug, PartialEq, Eq)]
pub struct Spent {
    pub dot: Dot,
    pub our: Member,
    pub their: Member,
}

// Why two replicas may not be merged: one of them is refused (1 or 2), or a dot is double-spent (12).
#[derive(Clone, Copy, Debug, PartialEq, Eq)]
pub enum MergeRefused {
    Refused(Refused),
    DoubleSpent(Spent),
}

impl MergeRefused {
    // The refusal's number; 12 for a double-spent dot.
    pub fn number(self) -> u32
        ensures { result ≡ merge_number self }
    {
        match self {
            MergeRefused::Refused(refused) => refused.number(),
            MergeRefused::DoubleSpent(_) => 12,
        }
    }
}

impl From<Refused> for MergeRefused {
    ghost from_gives = { λ r e. e ≡ RefusedWith r };

    fn from(refused: Refused) -> MergeRefused {
        MergeRefused::Refused(refused)
    }
}

// The first dot that an entry of a and an entry of b with another member both hold: our members ascending, then theirs, then actors.
// Refuses 1, 2.
pub fn validate_merge(a: &[u8], b: &[u8]) -> Result<(), MergeRefused>
    ensures { result ≡ validate_merge_call a.now b.now }
{
    let x = check(a).ok_or(Refused::BadImage)?;
    let y = check(b).ok_or(Refused::BadSecond)?;
    let ours = &x.places[..x.entries];
    let theirs = &y.places[..y.entries];
    first_spent(a, ours, b, theirs)
}

// The 32-bit number at a place that lies inside: of a part of known length, nothing is tested when the code runs. It stands in each crate that needs it,
// since a public function asks nothing of its callers.
fn u32_in(s: &[u8], at: usize) -> u32
    requires { at + 4 ≤ length s.now }
    ensures { result ≡ u32_at s.now at }
{
    u32_at(&s[at..at + 4], 0)
}

// The 64-bit number there.
fn u64_in(s: &[u8], at: usize) -> u64
    requires { at + 8 ≤ length s.now }
    ensures { result ≡ u64_at s.now at }
{
    u64_at(&s[at..at + 8], 0)
}

// Dots that stand from a place on, and how far those before count the actor that was asked for.
// The count is no Option: a clock counts an actor that it lacks as 0 (`count`, of which `Walked` speaks).
#[derive(Clone, Copy)]
struct Ahead {
    place: usize,
    left: usize,
    count: u64,
}

// The dots of the entry at a place.
fn dots_of(s: &[u8], p: usize) -> Ahead
    requires { p + 8 ≤ length s.now }
    ensures { (result.place ≡ p + 8) × (result.left ≡ u32_at s.now (p + 4)) }
{
    Ahead {
        place: p + 8,
        left: index(u32_in(s, p + 4)),
        count: 0,
    }
}

// Walks along the dots, past those of an actor up to a. Where none is left, any place will do: one that is at hand.
fn walk_past(s: &[u8], from: Ahead, a: u32) -> Ahead
    requires { from.place + 12 * from.left ≤ length s.now }
    ensures { Walked (dots_at s.now from.place from.left) (dots_at s.now result.place result.left) a result.count × (result.place + 12 * result.left ≤ from.place + 12 * from.left) }
{
    for k in 0..from.left {
        let place = from.place + 12 * k;
        let actor = u32_in(s, place);
        if a < actor {
            return Ahead {
                place,
                left: from.left - k,
                count: 0,
            };
        }
        if actor == a {
            return Ahead {
                place: place + 12,
                left: from.left - k - 1,
                count: u64_in(s, place + 4),
            };
        }
    }
    Ahead {
        place: from.place,
        left: 0,
        count: 0,
    }
}

// The key of a counter: its lowest 16 bits, and `missing` for an actor that isn't there. Equal dots have equal keys; `missing` is another
// number for ours than for theirs, so that an actor which neither has seldom makes a pair look alike.
fn key(count: u64, missing: u16) -> u16
    ensures { result ≡ key_of missing count }
{
    if count == 0 {
        return missing;
    }
    (count % 65536) as u16
}

// Puts the keys of the entry at p, one for each of the n actors of the clock of the image v, from a place on.
fn put_keys(s: &[u8], p: usize, v: &[u8], n: usize, missing: u16, out: &mut [u16], at: usize)
    requires { (p + 8 + 12 * u32_at s.now (p + 4) ≤ length s.now) × (28 + 12 * n ≤ length v.now) × (rising 0 (dots_at v.now 28 n) ≡ true) × (at + n ≤ length out.old) }
    ensures { out.new ≡ sets out.old at (keys_of missing (dots_at v.now 28 n) (clock_at s.now (p + 4))) }
{
    let mut ahead = dots_of(s, p);
    for k in 0..n {
        ahead = walk_past(s, ahead, u32_in(v, 28 + 12 * k));
        out[at + k] = key(ahead.count, missing);
    }
}

// Puts the keys of each of the entries at places into its line, 16 numbers, along the m actors of the clock of v.
fn put_lines(s: &[u8], places: &[u32], v: &[u8], m: usize, out: &mut [u16; 1024])
    requires { (length out.old ≡ 1024) × Listed s.now places.now (length places.now) × (m ≤ 16) × (28 + 12 * m ≤ length v.now) × (rising 0 (dots_at v.now 28 m) ≡ true) }
    ensures { Keyed (dots_at v.now 28 m) s.now places.now out.new (length places.now) m }
{
    for (j, place) in places.iter().enumerate() {
        put_keys(s, index(*place), v, m, 0, out, 16 * j);
    }
}

// Whether two keys differ, and those before did.
fn still_apart(before: bool, x: u16, y: u16) -> bool
    ensures { result ≡ (not (eqb x y) && before) }
{
    if x == y { false } else { before }
}

// Whether our keys and those of line j differ everywhere: such entries hold no dot in common. All 16 are looked at, without a branch.
// By index: theirs is a part of one array that starts at another place, so a zip would need a slice first and be no shorter.
fn apart(ours: &[u16; 16], theirs: &[u16; 1024], j: usize) -> bool
    requires { (j < 64) × (length ours.now ≡ 16) × (length theirs.now ≡ 1024) }
    ensures { result ≡ true → Apart ours.now theirs.now j 16 }
{
    let mut differ = true;
    for k in 0..16 {
        differ = still_apart(differ, ours[k], theirs[16 * j + k]);
    }
    differ
}

// The dot at a place that lies inside.
fn dot_in(s: &[u8], at: usize) -> Dot
    requires { at + 12 ≤ length s.now }
    ensures { result ≡ dot_at s.now at }
{
    Dot {
        actor: Actor(u32_in(s, at)),
        counter: u64_in(s, at + 4),
    }
}

// Whether a dot of our member with this counter, whose actor their member counts so far, is double-spent.
fn reportable(our: u32, their: u32, counter: u64, reached: u64) -> bool
    ensures { result ≡ reportable our their counter reached }
{
    if our == their {
        return false;
    }
    reached == counter
}

fn double_spent(d: Dot, our: u32, their: u32) -> MergeRefused
    ensures { result ≡ spent_is d our their }
{
    MergeRefused::DoubleSpent(Spent {
        dot: d,
        our: Member(our),
        their: Member(their),
    })
}

// Refuses the first double-spent dot of the entries at places of a and of b. Only where a key is shared are the dots looked at:
// a place in their clock moves along with our actors.
fn first_spent(a: &[u8], ours: &[u32], b: &[u8], theirs: &[u32]) -> Result<(), MergeRefused>
    requires { Listed a.now ours.now (length ours.now) × Listed b.now theirs.now (length theirs.now) }
    ensures { result ≡ verdict (first spotted (sights_of (map (row_at a.now) ours.now) (map (row_at b.now) theirs.now))) }
{
    let m = index(u32_at(a, 24));
    let mut lines = [0u16; 1024];
    put_lines(b, theirs, a, m, &mut lines);
    'search: for our_place in ours {
        let p = index(*our_place);
        let our = u32_at(a, p);
        let n = index(u32_at(a, p + 4));
        let mut keys = [65535u16; 16];
        put_keys(a, p, a, m, 65535, &mut keys, 0);
        'theirs: for (j, their_place) in theirs.iter().enumerate() {
            if apart(&keys, &lines, j) {
                continue 'theirs;
            }
            let q = index(*their_place);
            let their = u32_at(b, q);
            let mut ahead = dots_of(b, q);
            'actors: for k in 0..n {
                let d = dot_in(a, p + 8 + 12 * k);
                ahead = walk_past(b, ahead, d.actor.0);
                if reportable(our, their, d.counter, ahead.count) {
                    return Err(double_spent(d, our, their));
                }
            }
        }
    }
    Ok(())
}
