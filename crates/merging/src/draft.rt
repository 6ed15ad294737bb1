// A result as a draft: the entries and waiting removes that stay of two sides, where they stand in the result's image.
ghost use Rattle.std.specs.Prelude.{◌≡◌, true, map, ◌+◌, ◌*◌, ◌<◌, ◌≤◌, ltb, length, take};
ghost use Rattle.tables.specs.Zip.{Rise};
ghost use Rattle.dots.specs.Dot.{dots, actor_of};
ghost use Rattle.dots.specs.Clock.{count};
ghost use Rattle.clocks.specs.VClock.{dots_of};
ghost use Rattle.layout.specs.Clock.{dots_at};
ghost use Rattle.layout.specs.Rows.{waits_at};
ghost use Rattle.layout.specs.Image.{image_of, good_image, waits_start_at, waits_count};
ghost use Rattle.changing.specs.Kept.{kept_entries};
ghost use Rattle.changing.specs.KeptWaits.{kept_waits};
ghost use Rattle.merging.specs.Rowing.{Goes, WroteRows};
ghost use Rattle.merging.specs.Waiting.{WaitsReady, WroteWaits};
ghost use Rattle.merging.specs.Draft.{Counts, Held, DraftOf};

use crate::entries::{Rows, merge_entries};
use crate::sifting::sift_rows;
use crate::waits::{WaitsDone, ahead, copy_waits, merge_waits};
use clocks::VClock;
use fields::index;
use image::Image;
use results::Draft;

// The counter of an actor in the clock of n dots at p; 0 where it has none.
fn count_of(s: &[u8], p: usize, n: usize, actor: u32) -> u64
    requires { p + 12 * n < 1099511627776 }
    ensures { result ≡ count (dots_at s.now p n) actor }
{
    for i in 0..n {
        if fields::u32_at(s, p + 12 * i) == actor {
            return fields::u64_at(s, p + 12 * i + 4);
        }
    }
    0
}

// The counters that the clock of m dots at p has for each of the actors.
fn counts(s: &[u8], p: usize, m: usize, actors: &[u32]) -> [u64; 16]
    requires { (p + 12 * m < 1099511627776) × (length actors.now ≤ 16) }
    ensures { Counts (dots_at s.now p m) actors.now result }
{
    let mut line = [0u64; 16];
    for (i, actor) in actors.iter().enumerate() {
        line[i] = count_of(s, p, m, *actor);
    }
    line
}

// A count for the draft: itself, or 33 where it is more.
fn capped(most: usize) -> u32
    ensures { ltb 32 result ≡ ltb 32 most }
{
    most.min(33) as u32
}

// The draft of the entries and the waiting removes that were written: how many they are, and where they end.
pub(crate) fn draft_of(e: Rows, w: WaitsDone) -> Draft
    requires { (e.n < 4294967296) × (e.at < 4294967296) × (w.n < 4294967296) × (w.at < 4294967296) }
    ensures { (result.entries ≡ e.n) × (result.waits ≡ w.n) × (ltb 32 result.most ≡ ltb 32 w.most) × (result.middle ≡ e.at) × (result.end ≡ w.at) }
{
    Draft {
        entries: e.n as u32,
        waits: w.n as u32,
        most: capped(w.most),
        middle: e.at as u32,
        end: w.at as u32,
    }
}

// Where the waiting removes stand that count for n entries: all, or none where there are no entries.
fn counting(n: usize, starts: &[u32; 16], waits: usize) -> &[u32]
    ensures { (length result.now ≤ 16) × (0 < n → result.now ≡ take waits starts.now) }
{
    if n == 0 {
        &starts[..0]
    } else {
        &starts[..waits.min(16)]
    }
}

// The entries that stay of two sides along the actors of v, written from `at` on. Each side's entries are judged by the other's clock and waiting
// removes.
pub(crate) fn keep_entries(
    a: &[u8],
    x: &Image,
    b: &[u8],
    y: &Image,
    v: VClock,
    out: &mut [u8],
    at: usize,
) -> Rows
    requires { Held a.now x.now × Held b.now y.now × (v.len ≤ 16) × Rise dots (dots_of v) × (at < 65536) × Goes (map (λ d. actor_of d) (dots_of v)) (image_of a.now).entries × Goes (map (λ d. actor_of d) (dots_of v)) (image_of b.now).entries }
    ensures { WroteRows out.old at (kept_entries (map (λ d. actor_of d) (dots_of v)) (image_of a.now) (image_of b.now)) out.new result.n result.at }
{
    if y.entries == 0 {
        if y.waits == 0 {
            keep_above(a, x, b, y, v, out, at)
        } else {
            keep_unkilled(a, x, b, y, v, out, at)
        }
    } else {
        keep_both(a, x, b, y, v, out, at)
    }
}

// The same where both have entries. Here and in `keep_unkilled` a function of its own begins with its tables, so that they are cleared only where they
// are needed.
fn keep_both(a: &[u8], x: &Image, b: &[u8], y: &Image, v: VClock, out: &mut [u8], at: usize) -> Rows
    requires { Held a.now x.now × Held b.now y.now × (v.len ≤ 16) × Rise dots (dots_of v) × (at < 65536) × Goes (map (λ d. actor_of d) (dots_of v)) (image_of a.now).entries × Goes (map (λ d. actor_of d) (dots_of v)) (image_of b.now).entries }
    ensures { WroteRows out.old at (kept_entries (map (λ d. actor_of d) (dots_of v)) (image_of a.now) (image_of b.now)) out.new result.n result.at }
{
    let mut ka = [0u64; 1024];
    let mut kb = [0u64; 1024];
    let all = kills::actors_of(v);
    let actors = &all[..v.len];
    let va = counts(a, 28, index(fields::u32_at(a, 24)), actors);
    let vb = counts(b, 28, index(fields::u32_at(b, 24)), actors);
    let xw = counting(y.entries, &x.starts, x.waits);
    kills::kill_lines(b, &y.places[..y.entries], a, xw, v, &va, &mut ka);
    let yw = counting(x.entries, &y.starts, y.waits);
    kills::kill_lines(a, &x.places[..x.entries], b, yw, v, &vb, &mut kb);
    let p = index(fields::u32_at(a, 8));
    let q = index(fields::u32_at(b, 8));
    let start = Rows::start(p, x.entries, q, y.entries, at);
    merge_entries(a, b, actors, &ka, &kb, out, start)
}

// The same where the second side has neither entries nor waiting removes: what stays of the first's is above the second's clock.
fn keep_above(
    a: &[u8],
    x: &Image,
    b: &[u8],
    y: &Image,
    v: VClock,
    out: &mut [u8],
    at: usize,
) -> Rows
    requires { (y.now.entries ≡ 0) × (y.now.waits ≡ 0) × Held a.now x.now × Held b.now y.now × (v.len ≤ 16) × Rise dots (dots_of v) × (at < 65536) × Goes (map (λ d. actor_of d) (dots_of v)) (image_of a.now).entries }
    ensures { WroteRows out.old at (kept_entries (map (λ d. actor_of d) (dots_of v)) (image_of a.now) (image_of b.now)) out.new result.n result.at }
{
    let all = kills::actors_of(v);
    let actors = &all[..v.len];
    let line = counts(b, 28, index(fields::u32_at(b, 24)), actors);
    let start = Rows::start(index(fields::u32_at(a, 8)), x.entries, 0, 0, at);
    sift_rows(a, actors, &line, false, out, start)
}

// The same where the second side has no entries: what stays of the first's is above the second's clock and waiting removes.
fn keep_unkilled(
    a: &[u8],
    x: &Image,
    b: &[u8],
    y: &Image,
    v: VClock,
    out: &mut [u8],
    at: usize,
) -> Rows
    requires { (y.now.entries ≡ 0) × Held a.now x.now × Held b.now y.now × (v.len ≤ 16) × Rise dots (dots_of v) × (at < 65536) × Goes (map (λ d. actor_of d) (dots_of v)) (image_of a.now).entries }
    ensures { WroteRows out.old at (kept_entries (map (λ d. actor_of d) (dots_of v)) (image_of a.now) (image_of b.now)) out.new result.n result.at }
{
    let mut lines = [0u64; 1024];
    let all = kills::actors_of(v);
    let actors = &all[..v.len];
    let line = counts(b, 28, index(fields::u32_at(b, 24)), actors);
    let start = Rows::start(index(fields::u32_at(a, 8)), x.entries, 0, 0, at);
    let waits = counting(x.entries, &y.starts, y.waits);
    kills::kill_lines(a, &x.places[..x.entries], b, waits, v, &line, &mut lines);
    sift_rows(a, actors, &lines, true, out, start)
}

// The waiting removes of two sides, m of the image a and l of b, joined by equal clock, less those that v covers: written from `at` on. Where b
// brings none and v is empty they all stay.
fn keep_waits(
    a: &[u8],
    m: usize,
    b: &[u8],
    l: usize,
    v: VClock,
    out: &mut [u8],
    at: usize,
) -> WaitsDone
    requires { WaitsReady (dots_of v) a.now (waits_start_at a.now) m b.now (waits_start_at b.now) l × (v.len ≤ 16) × (at < 4294967296) × (good_image a.now ≡ true) × (m ≡ waits_count a.now) }
    ensures { WroteWaits out.old at (kept_waits (dots_of v) (waits_at a.now (waits_start_at a.now) m) (waits_at b.now (waits_start_at b.now) l)) out.new result }
{
    let n = v.len;
    if l + n == 0 {
        return copy_waits(a, out, at);
    }
    let p = index(fields::u32_at(a, 16));
    let q = index(fields::u32_at(b, 16));
    merge_waits(a, b, &v, out, ahead(p, m, q, l, at))
}

// The entries that stay of two sides along the actors of v, the result's clock, written from where they stand beside it; then the waiting removes of
// the first and l of the second, less those that `settled` covers.
pub(crate) fn drafted(
    a: &[u8],
    x: &Image,
    b: &[u8],
    y: &Image,
    v: VClock,
    l: usize,
    settled: VClock,
    out: &mut [u8],
) -> Draft
    requires { Held a.now x.now × Held b.now y.now × WaitsReady (dots_of settled) a.now (waits_start_at a.now) x.now.waits b.now (waits_start_at b.now) l × (v.len ≤ 16) × (settled.len ≤ 16) × Rise dots (dots_of v) × Goes (map (λ d. actor_of d) (dots_of v)) (image_of a.now).entries × Goes (map (λ d. actor_of d) (dots_of v)) (image_of b.now).entries × (good_image a.now ≡ true) × (x.now.waits ≡ waits_count a.now) }
    ensures { DraftOf (kept_entries (map (λ d. actor_of d) (dots_of v)) (image_of a.now) (image_of b.now)) (kept_waits (dots_of settled) (waits_at a.now (waits_start_at a.now) x.now.waits) (waits_at b.now (waits_start_at b.now) l)) (28 + 12 * v.len) result out.old out.new }
{
    let e = keep_entries(a, x, b, y, v, out, 28 + 12 * v.len);
    let w = keep_waits(a, x.waits, b, l, settled, out, e.at);
    draft_of(e, w)
}
