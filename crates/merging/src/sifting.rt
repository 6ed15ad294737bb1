// What stays of the entries of one image beside a side that has none: the dots above that side's line.
ghost use Rattle.std.specs.Prelude.{◌≡◌, true, ◌+◌, ◌*◌, ◌<◌, ◌≤◌, length, take, drop};
ghost use Rattle.std.specs.Option.{is_none};
ghost use Rattle.tables.specs.Table.{pick};
ghost use Rattle.layout.specs.Rows.{rows_at};
ghost use Rattle.changing.specs.Kept.{met_along};
ghost use Rattle.merging.specs.Keeping.{dots_in, Inside, KeptDots};
ghost use Rattle.merging.specs.Rowing.{RowsAhead, WroteRows};
ghost use Rattle.merging.specs.Sifting.{line_for, Lined, Reach, Shared, sifted, sifted_rows, SiftReady, Passed, Sifted};

use crate::entries::{Dots, Places, Rows, above, clear, keep_dot, put_row, u32_in};

// How many of the first n numbers of a line it takes to reach the last that isn't 0.
fn height(line: &[u64], n: usize) -> usize
    requires { n ≤ length line.now }
    ensures { Reach line.now 0 n result }
{
    line[..n].iter().rposition(|x| *x != 0).map_or(0, |h| h + 1)
}

// How many of its first n numbers count, where there is one line for all entries; none where each has its own.
fn shared(lines: &[u64], own: bool, n: usize) -> Option<usize>
    requires { n ≤ length lines.now }
    ensures { (is_none result ≡ own) × Shared lines.now n result }
{
    if own { None } else { Some(height(lines, n)) }
}

// The line of entry i: its own 16 numbers, or the one for all.
fn line_at(lines: &[u64], one: Option<usize>, i: usize) -> &[u64]
    requires { (i < 64) × (pick (is_none one) 1024 16 ≤ length lines.now) }
    ensures { result.now ≡ take 16 (drop (line_for (is_none one) i) lines.now) }
{
    match one {
        Some(_) => &lines[..16],
        None => &lines[16 * i..16 * i + 16],
    }
}

// How many of the first n numbers of an entry's line count: all or none where each has its own.
fn reach(line: &[u64], one: Option<usize>, n: usize) -> usize
    requires { (n ≤ length line.now) × Shared line.now n one }
    ensures { Reach line.now 0 n result }
{
    match one {
        Some(h) => h,
        None => { if clear(line) { 0 } else { n } }
    }
}

// Whether the entry of the dots x stays as it is: h of its line's numbers count.
fn stays(s: &[u8], x: Dots, actors: &[u32], line: &[u64], h: usize) -> bool
    requires { Inside s.now x × (length actors.now ≤ length line.now) × Reach line.now 0 (length actors.now) h × (met_along actors.now (dots_in s.now x) ≡ dots_in s.now x) }
    ensures { result ≡ true → (0 < x.left) × (sifted actors.now line.now 0 (dots_in s.now x) ≡ dots_in s.now x) }
{
    if x.left == 0 {
        return false;
    }
    above(s, x, &actors[..h], line)
}

// What stays of the entry of the dots x, written from p on: h of its line's numbers count. Returns how many dots that are.
fn sift(
    s: &[u8],
    x: Dots,
    actors: &[u32],
    line: &[u64],
    h: usize,
    out: &mut [u8],
    p: usize,
) -> usize
    requires { Inside s.now x × (length actors.now ≤ 16) × (length actors.now ≤ length line.now) × Reach line.now 0 (length actors.now) h × (met_along actors.now (dots_in s.now x) ≡ dots_in s.now x) × (p < 1099511627) }
    ensures { (result ≤ length actors.now) × KeptDots out.old p (sifted actors.now line.now 0 (dots_in s.now x)) out.new result }
{
    let mut k = Places {
        x,
        y: Dots { at: 0, left: 0 },
        n: 0,
    };
    for j in 0..h {
        k = keep_dot(s, s, actors[j], line[j], line[j], out, p, k);
    }
    let rest = k.x;
    results::copy(s, rest.at, rest.at + 12 * rest.left, out, p + 12 * k.n);
    k.n + rest.left
}

// Steps past the entries ahead that stay as they are.
fn run(s: &[u8], actors: &[u32], lines: &[u64], one: Option<usize>, w: Rows) -> Rows
    requires { SiftReady s.now actors.now lines.now one w }
    ensures { Passed s.now actors.now lines.now (is_none one) w result }
{
    let mut r = w;
    // no `for`: rows differ in length, so a row's place is known after the one before it
    while r.x.left > 0 {
        let line = line_at(lines, one, r.x.gone);
        let h = reach(line, one, actors.len());
        let mut x = r.x;
        let dots = x.next(s);
        if stays(s, dots, actors, line, h) {
            r = Rows {
                x,
                at: r.at + (8 + 12 * dots.left),
                n: r.n + 1,
                ..r
            };
        } else {
            return r;
        }
    }
    r
}

// Copies the entries ahead that stay as they are, in one go.
fn copy_run(
    s: &[u8],
    actors: &[u32],
    lines: &[u64],
    one: Option<usize>,
    out: &mut [u8],
    w: Rows,
) -> Rows
    requires { SiftReady s.now actors.now lines.now one w }
    ensures { Sifted s.now actors.now lines.now (is_none one) out.old w out.new result }
{
    let r = run(s, actors, lines, one, w);
    results::copy(s, w.x.at, r.x.at, out, w.at);
    r
}

// The next entry: writes what stays of it, and steps past it.
fn sift_row(
    s: &[u8],
    actors: &[u32],
    lines: &[u64],
    one: Option<usize>,
    out: &mut [u8],
    w: Rows,
) -> Rows
    requires { (0 < w.x.left) × SiftReady s.now actors.now lines.now one w }
    ensures { (w.x.gone < result.x.gone) × Sifted s.now actors.now lines.now (is_none one) out.old w out.new result }
{
    let member = u32_in(s, w.x.at);
    let line = line_at(lines, one, w.x.gone);
    let h = reach(line, one, actors.len());
    let mut x = w.x;
    let dots = x.next(s);
    let c = sift(s, dots, actors, line, h, out, w.at + 8);
    put_row(out, member, c, Rows { x, ..w })
}

// What stays of the entries ahead as the walk starts. Each entry has its own line of 16 numbers, or there is one for all.
pub(crate) fn sift_rows(
    s: &[u8],
    actors: &[u32],
    lines: &[u64],
    own: bool,
    out: &mut [u8],
    start: Rows,
) -> Rows
    requires { Lined actors.now lines.now own × RowsAhead s.now start.x.at start.x.left actors.now × (start.x.left ≤ 64) × (start.at < 65536) × (start.x.gone ≡ 0) × (start.n ≡ 0) }
    ensures { WroteRows out.old start.at (sifted_rows actors.now lines.now own 0 (rows_at s.now start.x.at start.x.left)) out.new result.n result.at }
{
    let one = shared(lines, own, actors.len());
    let mut w = copy_run(s, actors, lines, one, out, start);
    // no `for`: each step takes one row, and then as many as stay as they are
    while w.x.left > 0 {
        let r = sift_row(s, actors, lines, one, out, w);
        w = copy_run(s, actors, lines, one, out, r);
    }
    w
}
