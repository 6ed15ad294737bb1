// The parts of an image, checked where they stand: clocks, entries, waiting removes, of any bytes. Each answer is the place after what stands there, and none where it doesn't stand.
#![tactic(auto)]

ghost use Rattle.std.specs.Prelude.{◌≡◌, ◌+◌, ◌*◌, ◌<◌, ◌≤◌, length, IfSome};
ghost use Rattle.tables.specs.Ascending.{is_lt};
ghost use Rattle.tables.specs.Order.{lex};
ghost use Rattle.dots.specs.Dot.{cmp_dot};
ghost use Rattle.dots.specs.Calls.{ordered};
ghost use Rattle.dots.specs.Clock.{cmp_clock};
ghost use Rattle.dots.specs.Rising.{rising};
ghost use Rattle.layout.specs.Fields.{u32_at, u64_at};
ghost use Rattle.layout.specs.Clock.{dot_at, dots_at, clock_at};
ghost use Rattle.layout.specs.Rows.{members_at};
ghost use Rattle.layout.specs.Good.{rising_members};
ghost use Rattle.scan.specs.Scan.{DotsIn, counted, clock_ends, members_end, row_ends, wait_ends, rows_table, waits_table};

use fields::{index, u32_at, u64_at};
use std::cmp::Ordering;

// Things that stand one after the other, at most N: where the last ends, and where each stands.
#[derive(Clone, Copy)]
pub struct Table<const N: usize> {
    pub next: usize,
    pub places: [u32; N],
}

// The 32-bit number at a place that lies inside: of a part of known length, nothing is tested when the code runs. It stands in each crate that needs it,
// since a public function asks nothing of its callers.
fn u32_in(s: &[u8], at: usize) -> u32
    requires { at + 4 ≤ length s.now }
    ensures { result ≡ u32_at s.now at }
{
    u32_at(&s[at..at + 4], 0)
}

// The 64-bit number there.
fn u64_in(s: &[u8], at: usize) -> u64
    requires { at + 8 ≤ length s.now }
    ensures { result ≡ u64_at s.now at }
{
    u64_at(&s[at..at + 8], 0)
}

// Whether the dots from a place on rise, with no zero counter.
fn dots_rise(s: &[u8], from: usize, count: usize) -> bool
    requires { from + 12 * count ≤ length s.now }
    ensures { result ≡ rising 0 (dots_at s.now from count) }
{
    let mut low: usize = 0;
    for i in 0..count {
        let p = from + 12 * i;
        let actor = index(u32_in(s, p));
        if actor < low {
            return false;
        }
        if u64_in(s, p + 4) == 0 {
            return false;
        }
        low = actor + 1;
    }
    true
}

// Whether the members from a place on rise. A dot has a counter to test as well, so dots_rise stands beside it; both are told places and not
// a slice, as dots_at and members_at are.
fn members_rise(s: &[u8], from: usize, count: usize) -> bool
    requires { from + 4 * count ≤ length s.now }
    ensures { result ≡ rising_members 0 (members_at s.now from count) }
{
    let mut low: usize = 0;
    for i in 0..count {
        let member = index(u32_in(s, from + 4 * i));
        if member < low {
            return false;
        }
        low = member + 1;
    }
    true
}

// How many things of `width` bytes stand after their count at a place: at most `most`, and inside.
fn counted(s: &[u8], at: usize, width: usize, most: usize) -> Option<usize>
    requires { (width ≤ 12) × (most ≤ 32) }
    ensures is { result ≡ counted s.now at width most }
    ensures room { IfSome result (λ n. at + (4 + width * n) ≤ length s.now) }
{
    if s.len() < at {
        return None;
    }
    let left = s.len() - at;
    if left < 4 {
        return None;
    }
    let n = index(u32_at(s, at));
    if most < n {
        return None;
    }
    if left < 4 + width * n {
        return None;
    }
    Some(n)
}

// The place after the normalised clock of at most 16 dots that stands at a place.
pub fn clock_ends(s: &[u8], at: usize) -> Option<usize>
    ensures { result ≡ clock_ends s.now at }
{
    let n = counted(s, at, 12, 16)?;
    dots_rise(s, at + 4, n).then_some(at + (4 + 12 * n))
}

// The place after the members at a place: ascending, at most 32, after their count. Only two lines, and they call what clock_ends doesn't.
pub fn members_end(s: &[u8], at: usize) -> Option<usize>
    ensures { result ≡ members_end s.now at }
{
    let n = counted(s, at, 4, 32)?;
    members_rise(s, at + 4, n).then_some(at + (4 + 4 * n))
}

// Which of the dots at p and q is first, by actor, then counter.
fn dot_order(s: &[u8], p: usize, q: usize) -> Ordering
    requires { (p + 12 ≤ length s.now) × (q + 12 ≤ length s.now) }
    ensures { result ≡ ordered (cmp_dot (dot_at s.now p) (dot_at s.now q)) }
{
    (u32_in(s, p), u64_in(s, p + 4)).cmp(&(u32_in(s, q), u64_in(s, q + 4)))
}

// Which of two clocks is first: the n dots at p, or the m at q. merging has the same of two images, since a public function asks nothing of its callers.
fn dots_order(s: &[u8], p: usize, n: usize, q: usize, m: usize) -> Ordering
    requires { (0 < n → p + 12 * n ≤ length s.now) × (0 < m → q + 12 * m ≤ length s.now) }
    ensures { result ≡ ordered (lex cmp_dot (dots_at s.now p n) (dots_at s.now q m)) }
{
    for i in 0..n.min(m) {
        let order = dot_order(s, p + 12 * i, q + 12 * i);
        if order.is_ne() {
            return order;
        }
    }
    n.cmp(&m)
}

// Whether the clock at p is before the clock at q.
fn clock_less(s: &[u8], p: usize, q: usize) -> bool
    requires { (p < 70368744177664) × (q < 70368744177664) × DotsIn s.now p × DotsIn s.now q }
    ensures { result ≡ is_lt (cmp_clock (clock_at s.now p) (clock_at s.now q)) }
{
    let n = index(u32_at(s, p));
    let m = index(u32_at(s, q));
    dots_order(s, p + 4, n, q + 4, m).is_lt()
}

// The place after the entry at a place, whose member is at least low: whether its dots rise is not looked at.
fn row_ends(s: &[u8], p: usize, low: usize) -> Option<usize>
    requires { p < 70368744177664 }
    ensures { result ≡ row_ends s.now p low }
{
    if index(u32_at(s, p)) < low {
        return None;
    }
    let dots = index(u32_at(s, p + 4));
    if dots == 0 {
        return None;
    }
    if 16 < dots {
        return None;
    }
    let end = p + 8 + 12 * dots;
    (end <= s.len()).then_some(end)
}

// The place after the waiting remove at a place, whose clock is after the one at `last`.
fn wait_ends(s: &[u8], p: usize, last: usize) -> Option<usize>
    requires { (p < 70368744177664) × (last < 70368744177664) × DotsIn s.now last }
    ensures { result ≡ wait_ends s.now p (clock_at s.now last) }
{
    let q = clock_ends(s, p)?;
    if clock_less(s, last, p) {
        members_end(s, q)
    } else {
        None
    }
}

// Where `count` entries stand, at most 64, from a place on, in bytes that 32 bits can count.
pub fn check_rows(s: &[u8], at: usize, count: usize) -> Option<Table<64>>
    ensures { result ≡ rows_table s.now at count }
{
    if 64 < count {
        return None;
    }
    if 4294967295 < s.len() {
        return None;
    }
    if s.len() < at {
        return None;
    }
    let mut places = [0u32; 64];
    let mut p = at;
    let mut low: usize = 0;
    for i in 0..count {
        let next = row_ends(s, p, low)?;
        places[i] = p as u32;
        low = index(u32_at(s, p)) + 1;
        p = next;
    }
    Some(Table { next: p, places })
}

// Where `count` waiting removes stand, at most 16, from a place on, in bytes that 32 bits can count. What one hands to the next is its place, where an
// entry hands on its member, as waits_table and rows_table say: so it is no twin of check_rows.
pub fn check_waits(s: &[u8], at: usize, count: usize) -> Option<Table<16>>
    ensures { result ≡ waits_table s.now at count }
{
    if 16 < count {
        return None;
    }
    if 4294967295 < s.len() {
        return None;
    }
    if s.len() < at {
        return None;
    }
    let mut places = [0u32; 16];
    let mut p = at;
    let mut last = s.len();
    for i in 0..count {
        let next = wait_ends(s, p, last)?;
        places[i] = p as u32;
        last = p;
        p = next;
    }
    Some(Table { next: p, places })
}
