// Kill lines: for each entry and each actor of a clock, up to which counter the waiting removes that name the entry's member cover the actor's dots.
#![tactic(auto)]

ghost use Rattle.std.specs.Prelude.{◌≡◌, map, ◌+◌, ◌*◌, ◌<◌, ◌≤◌, min, length, take};
ghost use Rattle.std.proofs.lemmas.List.Edits.{sets};
ghost use Rattle.dots.specs.Dot.{dots, dot, actor_of};
ghost use Rattle.clocks.specs.VClock.{dots_of};
ghost use Rattle.replica.specs.Replica.{member_rows};
ghost use Rattle.layout.specs.Fields.{u32_at};
ghost use Rattle.layout.specs.Clock.{dots_at};
ghost use Rattle.layout.specs.Rows.{members_at};
ghost use Rattle.fields.specs.Read.{clock_read};
ghost use Rattle.kills.specs.Lines.{along, raise_from, raised, top_line, spread, kill_table, members_of, wait_read, waits_of};
ghost use Rattle.kills.specs.Posts.{Padded, numbers_by, lines_by, UpTo, Compared, Founded};

use clocks::VClock;
use fields::{index, u32_at, u64_at};

// The actors of v, each with the largest counter that any of the first 16 waiting removes at places has for it.
pub fn top_line(t: &[u8], waits: &[u32], v: VClock) -> [u64; 16]
    ensures { result ≡ top_line (dots_of v) (waits_of t.now waits.now 16) }
{
    let width = v.len.min(16);
    let all = actors_of(v);
    let actors = &all[..width];
    let mut top = [0u64; 16];
    for at in &waits[..waits.len().min(16)] {
        raise_at(t, *at, actors, &mut top);
    }
    top
}

// The actors of a clock's 16 places.
pub fn actors_of(v: VClock) -> [u32; 16]
    ensures { result ≡ map (λ d. actor_of d) v.dots }
{
    let mut actors = [0u32; 16];
    for (i, d) in v.dots.iter().enumerate() {
        actors[i] = d.actor.0;
    }
    actors
}

// Raises a line to the counters that the clock at a place has for the actors. A clock that reaches past the end is read from a copy that does not.
fn raise_at(t: &[u8], at: u32, actors: &[u32], line: &mut [u64; 16])
    requires { length actors.now ≤ 16 }
    ensures { line.new ≡ raise_from line.old 0 (along dots actors.now (clock_read t.now at)) }
{
    let q = index(at);
    let from = q + 4;
    let count = index(u32_at(t, q)).min(16);
    if t.len() < from + 12 * count {
        let copy = padded(t, from);
        raise_in(&copy, 0, count, actors, line);
    } else {
        raise_in(t, from, count, actors, line);
    }
}

// Raises a line to the counters that the dots from a place on have for the actors: one walk along both. The dots lie inside, so no read is tested when the code runs.
fn raise_in(t: &[u8], from: usize, count: usize, actors: &[u32], line: &mut [u64; 16])
    requires { (from + 12 * count ≤ length t.now) × (length actors.now ≤ 16) }
    ensures { line.new ≡ raise_from line.old 0 (along dots actors.now (dots_at t.now from count)) }
{
    let mut i: usize = 0;
    for k in 0..count {
        let p = from + 12 * k;
        let here = &t[p..p + 12];
        i = raise_actor(actors, i, u32_at(here, 0), u64_at(here, 4), line);
    }
}

// From number i on, raises those of the actor a to a counter, up to the first actor above a, whose place is the answer.
fn raise_actor(actors: &[u32], from: usize, a: u32, counter: u64, line: &mut [u64; 16]) -> usize
    requires { length actors.now ≤ 16 }
    ensures { UpTo dots (numbers_by actors.now) (dot a counter) from line.old result line.new }
{
    for i in from..actors.len() {
        if a < actors[i] {
            return i;
        }
        if a == actors[i] {
            line[i] = line[i].max(counter);
        }
    }
    actors.len()
}

// The 192 bytes from a place on, with zeros past the end.
fn padded(t: &[u8], from: usize) -> [u8; 192]
    ensures { Padded t.now from result }
{
    let mut copy = [0u8; 192];
    let n = t.len().saturating_sub(from).min(192);
    if 0 < n {
        copy[..n].copy_from_slice(&t[from..from + n]);
    }
    copy
}

// Whether a line is somewhere above the floor.
fn above(line: &[u64; 16], floor: &[u64; 16]) -> bool
    ensures { Compared line.now floor.now result }
{
    line.iter().zip(floor).any(|(x, y)| *y < *x)
}

// Raises line i of the table to a line.
fn raise_line(out: &mut [u64; 1024], i: usize, line: &[u64; 16])
    requires { (i < 64) × (length line.now ≡ 16) }
    ensures { out.new ≡ raise_from out.old (16 * i) line.now }
{
    for j in 0..16 {
        out[16 * i + j] = out[16 * i + j].max(line[j]);
    }
}

// From line i on, raises those of the member m, up to the first member above m, whose place is the answer. raise_actor walks so too, and raises
// one number by a dot's counter: one walk for both, over a closure that writes, would be longer than the two.
fn raise_same(ms: &[u32], from: usize, m: u32, line: &[u64; 16], out: &mut [u64; 1024]) -> usize
    requires { (length ms.now ≤ 64) × (length line.now ≡ 16) }
    ensures { UpTo member_rows (lines_by ms.now line.now) m from out.old result out.new }
{
    for i in from..ms.len() {
        if m < ms[i] {
            return i;
        }
        if m == ms[i] {
            raise_line(out, i, line);
        }
    }
    ms.len()
}

// Raises the lines of those of the members that stand after their count at a place: one walk along both.
fn raise_named(ms: &[u32], t: &[u8], at: usize, line: &[u64; 16], out: &mut [u64; 1024])
    requires { (length ms.now ≤ 64) × (length line.now ≡ 16) × (at < 70368744177664) }
    ensures { out.new ≡ raised out.old 0 (along member_rows ms.now (members_at t.now (at + 4) (min (u32_at t.now at) 64))) line.now }
{
    let count = index(u32_at(t, at)).min(64);
    let mut i: usize = 0;
    for k in 0..count {
        i = raise_same(ms, i, u32_at(t, at + 4 + 4 * k), line, out);
    }
}

// Raises the lines of those of the members that the waiting remove at a place names, where its line is above the floor: where it is nowhere, they stand as high.
fn raise_by(
    ms: &[u32],
    t: &[u8],
    at: u32,
    line: &[u64; 16],
    floor: &[u64; 16],
    out: &mut [u64; 1024],
)
    requires { (length ms.now ≤ 64) × (length line.now ≡ 16) × Founded floor.now (length ms.now) out.old }
    ensures { out.new ≡ raised out.old 0 (along member_rows ms.now (wait_read t.now at).members) line.now }
{
    if above(line, floor) {
        let q = index(at);
        let members = q + 4 + 12 * index(u32_at(t, q));
        raise_named(ms, t, members, line, out);
    }
}

// The first n lines of the table are the floor.
fn lay(floor: &[u64; 16], n: usize, out: &mut [u64; 1024])
    requires { (n ≤ 64) × (length floor.now ≡ 16) }
    ensures { out.new ≡ sets out.old 0 (spread n floor.now) }
{
    for i in 0..n {
        out[16 * i..16 * i + 16].copy_from_slice(floor);
    }
}

// The members of the entries at places, in their order. A loop of its own beside that of `actors_of`: one over a size and a closure would be
// longer than the two.
fn members_at(s: &[u8], places: &[u32]) -> [u32; 64]
    requires { length places.now ≤ 64 }
    ensures { take (length places.now) result ≡ map (λ p. u32_at s.now p) places.now }
{
    let mut ms = [0u32; 64];
    for (i, p) in places.iter().enumerate() {
        ms[i] = u32_at(s, index(*p));
    }
    ms
}

// Makes line i of the table, 16 numbers from 16 i on, of the i-th of the first 64 entries at places of s: the floor, raised by each of the first 16
// waiting removes at places of t that names the entry's member. Number j is the counter that the waiting remove has for actor j of v.
// One flat table, as the list `kill_table` is: its callers read single lines and the whole through one slice.
pub fn kill_lines(
    s: &[u8],
    places: &[u32],
    t: &[u8],
    waits: &[u32],
    v: VClock,
    floor: &[u64; 16],
    out: &mut [u64; 1024],
)
    ensures { out.new ≡ kill_table (dots_of v) (members_of s.now places.now 64) (waits_of t.now waits.now 16) floor.now out.old }
{
    let entries = places.len().min(64);
    let found = members_at(s, &places[..entries]);
    let members = &found[..entries];
    lay(floor, entries, out);
    let width = v.len.min(16);
    let all = actors_of(v);
    let actors = &all[..width];
    for at in &waits[..waits.len().min(16)] {
        let mut line = [0u64; 16];
        raise_at(t, *at, actors, &mut line);
        raise_by(members, t, *at, &line, floor, out);
    }
}
