// Waiting removes of two sides in bytes, joined by equal clock, less those that a clock covers.
ghost use Rattle.std.specs.Prelude.{◌≡◌, true, length};
ghost use Prim.Native.Nat.{◌+◌, ◌*◌, ◌<◌, ◌≤◌};
ghost use Rattle.tables.specs.Order.{lex};
ghost use Rattle.tables.specs.Zip.{turn_of};
ghost use Rattle.dots.specs.Calls.{ordered};
ghost use Rattle.dots.specs.Dot.{cmp_dot};
ghost use Rattle.dots.specs.Covering.{cover_of};
ghost use Rattle.clocks.specs.VClock.{dots_of};
ghost use Rattle.replica.specs.Replica.{waits};
ghost use Rattle.layout.specs.Clock.{dot_at, dots_at, clock_at, clock_end};
ghost use Rattle.layout.specs.Rows.{members_at, waits_at};
ghost use Rattle.layout.specs.Image.{image_of, good_image};
ghost use Rattle.changing.specs.KeptWaits.{both_sets, kept_waits};
ghost use Rattle.merging.specs.Waiting.{of_side, Named, MembersReady, WroteMembers, PartAt, Whole, Next, PutWait, WaitsAhead, MergedWait, WaitsReady, WroteWaits};

use crate::ahead::{lowest, meets};
use crate::entries::{Dots, u32_in, u64_in};
use clocks::VClock;
use fields::index;
use std::cmp::Ordering;

// Which of two dots in bytes is first, by actor, then counter. It and the next stand here for two images and in scan for one: both ask that the dots
// lie inside, and a public function asks nothing.
fn dot_order(s: &[u8], p: usize, t: &[u8], q: usize) -> Ordering
    requires { (p + 12 ≤ length s.now) × (q + 12 ≤ length t.now) }
    ensures { result ≡ ordered (cmp_dot (dot_at s.now p) (dot_at t.now q)) }
{
    (u32_in(s, p), u64_in(s, p + 4)).cmp(&(u32_in(t, q), u64_in(t, q + 4)))
}

// Which of two clocks in bytes is first: the n dots at p of s, or the m at q of t.
fn order(s: &[u8], p: usize, n: usize, t: &[u8], q: usize, m: usize) -> Ordering
    requires { (p + 12 * n ≤ length s.now) × (q + 12 * m ≤ length t.now) }
    ensures { result ≡ ordered (lex cmp_dot (dots_at s.now p n) (dots_at t.now q m)) }
{
    for i in 0..n.min(m) {
        let d = dot_order(s, p + 12 * i, t, q + 12 * i);
        if d.is_ne() {
            return d;
        }
    }
    n.cmp(&m)
}

// Which of the waiting removes ahead is next: the one at p of s, where m are left, or the one at q of t, where k are; or both at once.
fn next_wait(s: &[u8], p: usize, m: usize, t: &[u8], q: usize, k: usize) -> Ordering
    requires { (0 < m + k) × (0 < m → clock_end s.now p ≤ length s.now) × (0 < k → clock_end t.now q ≤ length t.now) }
    ensures { result ≡ ordered (turn_of waits (waits_at s.now p m) (waits_at t.now q k)) }
{
    if k == 0 {
        return Ordering::Less;
    }
    if m == 0 {
        return Ordering::Greater;
    }
    let n = index(fields::u32_at(s, p));
    let l = index(fields::u32_at(t, q));
    order(s, p + 4, n, t, q + 4, l)
}

// Whether a clock covers the n dots at p: one walk along its actors.
fn covered(s: &[u8], p: usize, n: usize, v: &VClock) -> bool
    requires { (p + 12 * n ≤ length s.now) × (v.now.len ≤ 16) }
    ensures { result ≡ cover_of (dots_of v.now) (dots_at s.now p n) }
{
    let mut ahead = Dots { at: p, left: n };
    for d in &v.dots[..v.len] {
        if d.counter < ahead.take(s, d.actor.0) {
            return false;
        }
    }
    ahead.left == 0
}

// Where a walk along two lists of members stands: the next of each, how many are left, and how many were written.
#[derive(Clone, Copy)]
pub(crate) struct Names {
    p: usize,
    m: usize,
    q: usize,
    k: usize,
    n: usize,
}

// The next member of either, written after the n that stand from `at` on.
fn name(s: &[u8], t: &[u8], out: &mut [u8], at: usize, w: Names) -> Names
    requires { (0 < w.m + w.k) × MembersReady s.now w.p w.m t.now w.q w.k × (at + 4 * w.n < 1099511627776) }
    ensures { Named s.now t.now out.old at w out.new result }
{
    let low = lowest(s, w.p, w.m, t, w.q, w.k);
    let i = meets(s, w.p, w.m, low);
    let j = meets(t, w.q, w.k, low);
    fields::put_u32(out, at + 4 * w.n, low);
    Names {
        p: w.p + 4 * i,
        m: w.m - i,
        q: w.q + 4 * j,
        k: w.k - j,
        n: w.n + 1,
    }
}

// The members of two lists, each once, written from `at` on: s has m from p on, t has k from q on. Returns how many they are.
fn unite(
    s: &[u8],
    p: usize,
    m: usize,
    t: &[u8],
    q: usize,
    k: usize,
    out: &mut [u8],
    at: usize,
) -> usize
    requires { MembersReady s.now p m t.now q k × (at < 549755813888) }
    ensures { WroteMembers out.old at (both_sets (members_at s.now p m) (members_at t.now q k)) out.new (m + k) result }
{
    let mut w = Names { p, m, q, k, n: 0 };
    while w.m + w.k > 0 {
        w = name(s, t, out, at, w);
    }
    w.n
}

// The waiting remove at a place: where it starts, its members, and where it ends; none, and the start itself, where it isn't taken.
#[derive(Clone, Copy)]
pub(crate) struct Part {
    start: usize,
    pub(crate) names: usize,
    count: usize,
    pub(crate) end: usize,
}

// `taken` is 0 or 1: the walk counts by it too.
pub(crate) fn part_at(s: &[u8], p: usize, taken: usize) -> Part
    requires { p < 4294967296 }
    ensures { PartAt s.now p taken result }
{
    let e = p + 4 + 12 * index(fields::u32_at(s, p));
    if taken == 0 {
        return Part {
            start: p,
            names: e + 4,
            count: 0,
            end: p,
        };
    }
    let count = index(fields::u32_at(s, e));
    Part {
        start: p,
        names: e + 4,
        count,
        end: e + 4 + 4 * count,
    }
}

// What a turn wrote: how many bytes, how many waiting removes, and how many members it names. Zeros and no option where it wrote nothing: the walk adds
// two of them up and keeps the largest of the third.
#[derive(Clone, Copy)]
pub(crate) struct Put {
    long: usize,
    count: usize,
    names: usize,
}

// A waiting remove of s, written as it stands from `at` on; nothing where the clock covers it.
fn copy_wait(s: &[u8], x: Part, v: &VClock, out: &mut [u8], at: usize) -> Put
    requires { Whole s.now x.start x × (x.start < 4294967296) × (v.now.len ≤ 16) }
    ensures { PutWait (cover_of (dots_of v.now) (clock_at s.now x.start)) (clock_at s.now x.start) (members_at s.now x.names x.count) x.count out.old at out.new result }
{
    let p = x.start;
    let n = index(fields::u32_at(s, p));
    if covered(s, p + 4, n, v) {
        return Put {
            long: 0,
            count: 0,
            names: 0,
        };
    }
    results::copy(s, p, x.end, out, at);
    Put {
        long: x.end - p,
        count: 1,
        names: x.count,
    }
}

// A waiting remove of s with the members of both parts, written from `at` on; nothing where the clock covers it.
fn put_wait(s: &[u8], x: Part, t: &[u8], y: Part, v: &VClock, out: &mut [u8], at: usize) -> Put
    requires { Whole s.now x.start x × (x.start < 4294967296) × (v.now.len ≤ 16) × (at < 274877906944) × (y.count ≤ 512) × MembersReady s.now x.names x.count t.now y.names y.count }
    ensures { PutWait (cover_of (dots_of v.now) (clock_at s.now x.start)) (clock_at s.now x.start) (both_sets (members_at s.now x.names x.count) (members_at t.now y.names y.count)) (x.count + y.count) out.old at out.new result }
{
    let p = x.start;
    let n = index(fields::u32_at(s, p));
    if covered(s, p + 4, n, v) {
        return Put {
            long: 0,
            count: 0,
            names: 0,
        };
    }
    let long = 4 + 12 * n;
    results::copy(s, p, p + long, out, at);
    let e = at + long;
    let names = unite(s, x.names, x.count, t, y.names, y.count, out, e + 4);
    fields::put_u32(out, e, names as u32);
    Put {
        long: long + 4 + 4 * names,
        count: 1,
        names,
    }
}

// Where the walk along the waiting removes of two images stands: the next of each, how many are left; the place in the output, how many were kept,
// and the most members that one names.
#[derive(Clone, Copy)]
pub(crate) struct Waits {
    p: usize,
    m: usize,
    q: usize,
    k: usize,
    at: usize,
    n: usize,
    most: usize,
}

// Whether the members of two parts are the same.
fn same_members(s: &[u8], x: Part, t: &[u8], y: Part) -> bool
    requires { (x.names + 4 * x.count ≤ length s.now) × (y.names + 4 * y.count ≤ length t.now) }
    ensures { result ≡ true → members_at s.now x.names x.count ≡ members_at t.now y.names y.count }
{
    s[x.names..x.names + 4 * x.count] == t[y.names..y.names + 4 * y.count]
}

// The waiting remove that is next, with the members of each side that has it: copied, unless both have it and name other members.
fn put_next(
    side: Ordering,
    s: &[u8],
    x: Part,
    t: &[u8],
    y: Part,
    v: &VClock,
    out: &mut [u8],
    at: usize,
) -> Put
    requires { Next side s.now x t.now y × (v.now.len ≤ 16) × (at < 274877906944) }
    ensures { PutWait (cover_of (dots_of v.now) (of_side side (clock_at s.now x.start) (clock_at t.now y.start))) (of_side side (clock_at s.now x.start) (clock_at t.now y.start)) (both_sets (members_at s.now x.names x.count) (members_at t.now y.names y.count)) (x.count + y.count) out.old at out.new result }
{
    match side {
        Ordering::Less => copy_wait(s, x, v, out, at),
        Ordering::Greater => copy_wait(t, y, v, out, at),
        Ordering::Equal => {
            if same_members(s, x, t, y) {
                copy_wait(s, x, v, out, at)
            } else {
                put_wait(s, x, t, y, v, out, at)
            }
        }
    }
}

// The next waiting remove: written, unless it is covered, and stepped past.
fn merge_wait(s: &[u8], t: &[u8], v: &VClock, out: &mut [u8], w: Waits) -> Waits
    requires { WaitsAhead s.now t.now w × (v.now.len ≤ 16) × (w.at < 274877906944) × (w.n ≤ 64) }
    ensures { MergedWait (dots_of v.now) s.now t.now out.old w out.new result }
{
    let side = next_wait(s, w.p, w.m, t, w.q, w.k);
    let i = usize::from(side.is_le());
    let j = usize::from(side.is_ge());
    let x = part_at(s, w.p, i);
    let y = part_at(t, w.q, j);
    let r = put_next(side, s, x, t, y, v, out, w.at);
    Waits {
        p: x.end,
        m: w.m - i,
        q: y.end,
        k: w.k - j,
        at: w.at + r.long,
        n: w.n + r.count,
        most: w.most.max(r.names),
    }
}

// What was written of waiting removes: where they end, how many they are, and the most members that one names; or 0, where none names over 32.
#[derive(Clone, Copy)]
pub(crate) struct WaitsDone {
    pub(crate) at: usize,
    pub(crate) n: usize,
    pub(crate) most: usize,
}

// The walk before its first step: m waiting removes from p on, and k from q on, to be written from `at` on.
pub(crate) fn ahead(p: usize, m: usize, q: usize, k: usize, at: usize) -> Waits
    ensures { result ≡ record { p = p; m = m; q = q; k = k; at = at; n = 0; most = 0 } }
{
    Waits {
        p,
        m,
        q,
        k,
        at,
        n: 0,
        most: 0,
    }
}

// The waiting removes that two images keep, from the start of a walk along them on.
pub(crate) fn merge_waits(s: &[u8], t: &[u8], v: &VClock, out: &mut [u8], start: Waits) -> WaitsDone
    requires { WaitsReady (dots_of v.now) s.now start.p start.m t.now start.q start.k × (v.now.len ≤ 16) × (start.at < 4294967296) × (start.n ≡ 0) × (start.most ≡ 0) }
    ensures { WroteWaits out.old start.at (kept_waits (dots_of v.now) (waits_at s.now start.p start.m) (waits_at t.now start.q start.k)) out.new result }
{
    let mut w = start;
    while w.m + w.k > 0 {
        w = merge_wait(s, t, v, out, w);
    }
    WaitsDone {
        at: w.at,
        n: w.n,
        most: w.most,
    }
}

// The waiting removes of an image, its last part, copied as they stand: written from `at` on.
pub(crate) fn copy_waits(img: &[u8], out: &mut [u8], at: usize) -> WaitsDone
    requires { (good_image img.now ≡ true) × (at < 4294967296) }
    ensures { WroteWaits out.old at (image_of img.now).waiting out.new result }
{
    let q = index(fields::u32_at(img, 16));
    results::copy(img, q, img.len(), out, at);
    WaitsDone {
        at: at + (img.len() - q),
        n: index(fields::u32_at(img, 20)),
        most: 0,
    }
}
