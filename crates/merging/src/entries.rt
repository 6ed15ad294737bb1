// The entries of two images, merged along the actors of the merged clock.
ghost use Rattle.std.specs.Prelude.{◌≡◌, true, ◌⊎◌, [], ◌++◌, ℕ, ◌+◌, ◌*◌, ◌<◌, ◌≤◌, min, eqb, length, get_or};
ghost use Rattle.std.proofs.lemmas.List.Edits.{sets};
ghost use Rattle.tables.specs.Table.{pick};
ghost use Rattle.layout.specs.Fields.{u32_at, u64_at, le32};
ghost use Rattle.layout.specs.Clock.{encode_dots};
ghost use Rattle.layout.specs.Image.{image_of};
ghost use Rattle.changing.specs.Kept.{keep_of, kept_entries, met_along};
ghost use Rattle.merging.specs.Ahead.{key_ahead};
ghost use Rattle.merging.specs.Keeping.{dots_in, Inside, dot_list, Took, KeptDot, KeptDots, lines_from, kept_along, Above, Stays};
ghost use Rattle.merging.specs.Rowing.{RowsInside, TookRow, starts, RowsAhead, Ready, MergedRow, WroteRows};

use crate::ahead::lowest;
use fields::index;

// The 32-bit number at a place that lies inside: of a part of known length, nothing is tested when the code runs. It stands in each crate that needs it,
// since a public function asks nothing of its callers.
pub(crate) fn u32_in(s: &[u8], at: usize) -> u32
    requires { at + 4 ≤ length s.now }
    ensures { result ≡ u32_at s.now at }
{
    fields::u32_at(&s[at..at + 4], 0)
}

// The 64-bit number there.
pub(crate) fn u64_in(s: &[u8], at: usize) -> u64
    requires { at + 8 ≤ length s.now }
    ensures { result ≡ u64_at s.now at }
{
    fields::u64_at(&s[at..at + 8], 0)
}

// Dots in bytes, as a walk along some actors goes: the place of the next one, and how many are left.
#[derive(Clone, Copy)]
pub(crate) struct Dots {
    pub(crate) at: usize,
    pub(crate) left: usize,
}

impl Dots {
    // The counter of the next dot, where it is the actor's: the walk is past it then. 0 where it is another's, or none is left.
    pub(crate) fn take(&mut self, s: &[u8], actor: u32) -> u64
        requires { Inside s.now self.old }
        ensures { Took s.now actor self.old self.new result }
    {
        if self.left == 0 || u32_in(s, self.at) != actor {
            return 0;
        }
        let counter = u64_in(s, self.at + 4);
        self.at += 12;
        self.left -= 1;
        counter
    }
}

// Where a walk along the dots of two entries stands: the dots ahead of each, and how many were kept.
#[derive(Clone, Copy)]
pub(crate) struct Places {
    pub(crate) x: Dots,
    pub(crate) y: Dots,
    pub(crate) n: usize,
}

// What stays of the counters u and w that two entries have for an actor, each beside the other side's line.
fn keep(la: u64, lb: u64, u: u64, w: u64) -> u64
    ensures { result ≡ keep_of la lb u w }
{
    if u == w {
        return u;
    }
    if lb < u {
        return u;
    }
    if la < w { w } else { 0 }
}

// Writes a dot, where its counter isn't 0, and returns how many dots that are.
fn put_dot(out: &mut [u8], p: usize, actor: u32, counter: u64) -> usize
    requires { p < 1099511627776 }
    ensures { (result ≤ 1) × (result ≡ length (dot_list actor counter)) × (out.new ≡ sets out.old p (encode_dots (dot_list actor counter))) }
{
    if counter == 0 {
        return 0;
    }
    fields::put_u32(out, p, actor);
    fields::put_u64(out, p + 4, counter);
    1
}

// One actor: writes what is kept of its dots, and steps past it.
pub(crate) fn keep_dot(
    s: &[u8],
    t: &[u8],
    actor: u32,
    la: u64,
    lb: u64,
    out: &mut [u8],
    p: usize,
    k: Places,
) -> Places
    requires { Inside s.now k.x × Inside t.now k.y × (p + 12 * k.n < 1099511627776) }
    ensures { KeptDot s.now t.now actor la lb out.old p k out.new result }
{
    let mut x = k.x;
    let mut y = k.y;
    let u = x.take(s, actor);
    let w = y.take(t, actor);
    let c = put_dot(out, p + 12 * k.n, actor, keep(la, lb, u, w));
    Places { x, y, n: k.n + c }
}

// The dots that two entries keep, judged one actor after the other and written from p on.
fn judged(
    s: &[u8],
    t: &[u8],
    start: Places,
    actors: &[u32],
    ka: &[u64],
    kb: &[u64],
    out: &mut [u8],
    p: usize,
) -> usize
    requires { Inside s.now start.x × Inside t.now start.y × (start.n ≡ 0) × (p < 1099511627) × (length actors.now ≤ 16) × (length actors.now ≤ length ka.now) × (length actors.now ≤ length kb.now) }
    ensures { (result ≤ length actors.now) × KeptDots out.old p (kept_along (lines_from actors.now ka.now 0 kb.now 0 0 (length actors.now)) (dots_in s.now start.x) (dots_in t.now start.y)) out.new result }
{
    let mut k = start;
    for i in 0..actors.len() {
        k = keep_dot(s, t, actors[i], ka[i], kb[i], out, p, k);
    }
    k.n
}

// Whether a line has only zeros: all its numbers are read, with one test at the end.
pub(crate) fn clear(line: &[u64]) -> bool
    ensures { result ≡ true → (i : ℕ) → i < length line.now → get_or line.now i 0 ≡ 0 }
{
    let mut any: u64 = 0;
    for number in line {
        any |= *number;
    }
    any == 0
}

// Whether a counter, if there is one, is above a line.
fn passes(line: u64, counter: u64) -> bool
    ensures { result ≡ true → (counter ≡ 0) ⊎ (line < counter) }
{
    if counter == 0 {
        return true;
    }
    line < counter
}

// Whether each of the dots x is above what the line has for its actor.
pub(crate) fn above(s: &[u8], x: Dots, actors: &[u32], line: &[u64]) -> bool
    requires { Inside s.now x × (length actors.now ≤ length line.now) }
    ensures { result ≡ true → Above actors.now line.now 0 0 (length actors.now) (dots_in s.now x) }
{
    let mut ahead = x;
    for i in 0..actors.len() {
        if !passes(line[i], ahead.take(s, actors[i])) {
            return false;
        }
    }
    true
}

// Whether the dots x are the dots y.
fn same(s: &[u8], x: Dots, t: &[u8], y: Dots) -> bool
    requires { Inside s.now x × Inside t.now y }
    ensures { result ≡ true → dots_in t.now y ≡ dots_in s.now x }
{
    s[x.at..x.at + 12 * x.left] == t[y.at..y.at + 12 * y.left]
}

// Whether the entry of the dots x stays whole beside the one of the dots y: there is none, and each dot is above the other side's line; or the two
// are the same.
fn whole(s: &[u8], x: Dots, t: &[u8], y: Dots, actors: &[u32], line: &[u64]) -> bool
    requires { Inside s.now x × Inside t.now y × (length actors.now ≤ length line.now) }
    ensures { result ≡ true → Stays actors.now line.now 0 (length actors.now) (dots_in s.now x) (dots_in t.now y) }
{
    if y.left == 0 {
        if clear(line) {
            return true;
        }
        return above(s, x, actors, line);
    }
    same(s, x, t, y)
}

// The dots that two entries keep, written from p on. For each of the actors, ka and kb have the lines of the two sides. Returns how many dots are
// kept.
fn kept(
    s: &[u8],
    t: &[u8],
    start: Places,
    actors: &[u32],
    ka: &[u64],
    kb: &[u64],
    out: &mut [u8],
    p: usize,
) -> usize
    requires { Inside s.now start.x × Inside t.now start.y × (start.n ≡ 0) × (p < 1099511627) × (length actors.now ≤ 16) × (length actors.now ≤ length ka.now) × (length actors.now ≤ length kb.now) × (met_along actors.now (dots_in s.now start.x) ≡ dots_in s.now start.x) × (met_along actors.now (dots_in t.now start.y) ≡ dots_in t.now start.y) }
    ensures { (result ≤ length actors.now) × KeptDots out.old p (kept_along (lines_from actors.now ka.now 0 kb.now 0 0 (length actors.now)) (dots_in s.now start.x) (dots_in t.now start.y)) out.new result }
{
    let x = start.x;
    let y = start.y;
    if whole(s, x, t, y, actors, kb) {
        results::copy(s, x.at, x.at + 12 * x.left, out, p);
        return x.left;
    }
    if whole(t, y, s, x, actors, ka) {
        results::copy(t, y.at, y.at + 12 * y.left, out, p);
        return y.left;
    }
    judged(s, t, start, actors, ka, kb, out, p)
}

// Rows in bytes, as a walk along members goes: the place of the next one, how many are left, and how many went before.
#[derive(Clone, Copy)]
pub(crate) struct Hand {
    pub(crate) at: usize,
    pub(crate) left: usize,
    pub(crate) gone: usize,
}

impl Hand {
    // The dots of the next row: the walk is past it then.
    pub(crate) fn next(&mut self, s: &[u8]) -> Dots
        requires { (0 < self.old.left) × RowsInside s.now self.old }
        ensures { (result.at ≡ self.old.at + 8) × (result.left ≡ u32_at s.now (self.old.at + 4)) × (self.new.at ≡ self.old.at + 8 + 12 * result.left) × (self.new.left + 1 ≡ self.old.left) × (self.new.gone ≡ self.old.gone + 1) }
    {
        let dots = Dots {
            at: self.at + 8,
            left: index(u32_in(s, self.at + 4)),
        };
        self.at = dots.at + 12 * dots.left;
        self.left -= 1;
        self.gone += 1;
        dots
    }

    // The dots of the next row, where it is the member's: the walk is past it then. None where it is another's, or no row is left.
    fn take(&mut self, s: &[u8], member: u32) -> Dots
        requires { RowsInside s.now self.old }
        ensures { TookRow s.now member self.old self.new result }
    {
        if self.left == 0 || fields::u32_at(s, self.at) != member {
            return Dots {
                at: self.at,
                left: 0,
            };
        }
        self.next(s)
    }
}

// Where the walk along the entries of two images stands: the rows ahead of each, the place in the output, and how many rows were kept.
#[derive(Clone, Copy)]
pub(crate) struct Rows {
    pub(crate) x: Hand,
    pub(crate) y: Hand,
    pub(crate) at: usize,
    pub(crate) n: usize,
}

impl Rows {
    // Where the walk starts: m rows of the one image from p on, k of the other from q on; it writes from `at` on.
    pub(crate) fn start(p: usize, m: usize, q: usize, k: usize, at: usize) -> Rows
        ensures { result ≡ starts p m q k at }
    {
        Rows {
            x: Hand {
                at: p,
                left: m,
                gone: 0,
            },
            y: Hand {
                at: q,
                left: k,
                gone: 0,
            },
            at,
            n: 0,
        }
    }
}

// Ends a member's row, whose dots were written 8 bytes past the place of w: writes its head, and goes on after it. A member of no dots has no row.
pub(crate) fn put_row(out: &mut [u8], member: u32, dots: usize, w: Rows) -> Rows
    requires { (w.at < 1099511627776) × (dots ≤ 16) × (w.n ≤ 128) }
    ensures { (result.x ≡ w.x) × (result.y ≡ w.y) × (result.at ≡ w.at + pick (eqb dots 0) 0 (8 + 12 * dots)) × (result.n ≡ w.n + pick (eqb dots 0) 0 1) × (out.new ≡ sets out.old w.at (pick (eqb dots 0) [] (le32 member ++ le32 dots))) }
{
    if dots == 0 {
        return w;
    }
    fields::put_u32(out, w.at, member);
    fields::put_u32(out, w.at + 4, dots as u32);
    Rows {
        at: w.at + (8 + 12 * dots),
        n: w.n + 1,
        ..w
    }
}

// The next member: writes what is kept of its entries, and steps past it.
fn merge_row(
    s: &[u8],
    t: &[u8],
    actors: &[u32],
    ka: &[u64; 1024],
    kb: &[u64; 1024],
    out: &mut [u8],
    w: Rows,
) -> Rows
    requires { (0 < w.x.left + w.y.left) × RowsAhead s.now w.x.at w.x.left actors.now × RowsAhead t.now w.y.at w.y.left actors.now × (w.at < 1000000000) × (w.x.gone + w.x.left ≤ 64) × (w.y.gone + w.y.left ≤ 64) × (w.n ≤ 128) × (length actors.now ≤ 16) }
    ensures { MergedRow s.now t.now actors.now ka.now kb.now (min (key_ahead s.now w.x.at w.x.left) (key_ahead t.now w.y.at w.y.left)) out.old w out.new result }
{
    let mut x = w.x;
    let mut y = w.y;
    let member = lowest(s, x.at, x.left, t, y.at, y.left);
    // Of a side with no row left none is met: any line will do.
    let ja = 16 * (y.gone % 64);
    let ib = 16 * (x.gone % 64);
    let ours = x.take(s, member);
    let theirs = y.take(t, member);
    let start = Places {
        x: ours,
        y: theirs,
        n: 0,
    };
    let c = kept(
        s,
        t,
        start,
        actors,
        &ka[ja..ja + 16],
        &kb[ib..ib + 16],
        out,
        w.at + 8,
    );
    put_row(out, member, c, Rows { x, y, ..w })
}

// The entries that two images keep along some actors. The walk starts before the entries of both.
pub(crate) fn merge_entries(
    s: &[u8],
    t: &[u8],
    actors: &[u32],
    ka: &[u64; 1024],
    kb: &[u64; 1024],
    out: &mut [u8],
    start: Rows,
) -> Rows
    requires { Ready (image_of s.now) (image_of t.now) s.now t.now actors.now ka.now kb.now start × (start.at < 65536) }
    ensures { WroteRows out.old start.at (kept_entries actors.now (image_of s.now) (image_of t.now)) out.new result.n result.at }
{
    let mut w = start;
    // no `for`: rows differ in length, and a step takes one from either side or from both
    while w.x.left + w.y.left > 0 {
        w = merge_row(s, t, actors, ka, kb, out, w);
    }
    w
}
