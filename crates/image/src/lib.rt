// Replica images: the check of any bytes, and what the calls go by.
#![tactic(auto)]

ghost use Rattle.std.specs.Prelude.{◌≡◌, true, ◌+◌, ◌*◌, ◌<◌, ◌≤◌, length, take};
ghost use Rattle.tables.specs.Table.{pick};
ghost use Rattle.layout.specs.Clock.{dot_at, dots_at, clock_at};
ghost use Rattle.layout.specs.Good.{good_contents};
ghost use Rattle.layout.specs.Kit.{Stands};
ghost use Rattle.image.specs.Image.{check_image, parts_image, check_call, clock_call};
ghost use Rattle.image.specs.Fits.{met_of, fits, line_for, fit_all, EachInside};

use clocks::VClock;
use dots::Refused;
use fields::{clock_at, index, u16_at, u32_at, u64_at};

// What the image of a well-formed replica holds: its clock, how many entries and waiting removes, and where each stands. Arrays with a count beside
// them: memory is fixed, there is no heap.
#[derive(Clone, Copy)]
pub struct Image {
    pub clock: VClock,
    pub entries: usize,
    pub places: [u32; 64],
    pub waits: usize,
    pub starts: [u32; 16],
}

// How a dot meets a dot of the clock: it is of another actor; or it is covered, and above the line; or it is not.
#[derive(Clone, Copy)]
enum Meeting {
    Another,
    Within,
    Outside,
}

// Whether the contents are right: version, zero, total length (which 32 bits can count), and counts within the limits.
fn contents_good(s: &[u8]) -> bool
    ensures { (result ≡ good_contents s.now) × (result ≡ true → length s.now ≤ 4294967295) }
{
    if s.len() < 24 {
        return false;
    }
    if u16_at(s, 0) != 1 {
        return false;
    }
    if u16_at(s, 2) != 0 {
        return false;
    }
    if index(u32_at(s, 4)) != s.len() {
        return false;
    }
    if 64 < u32_at(s, 12) {
        return false;
    }
    u32_at(s, 20) <= 16
}

// The parts, one after the other, with no gap, up to the end.
fn parts(s: &[u8]) -> Option<Image>
    ensures { result ≡ parts_image s.now }
{
    if !contents_good(s) {
        return None;
    }
    let start = scan::clock_ends(s, 24)?;
    if index(u32_at(s, 8)) != start {
        return None;
    }
    let entries = index(u32_at(s, 12));
    let rows = scan::check_rows(s, start, entries)?;
    if index(u32_at(s, 16)) != rows.next {
        return None;
    }
    let waits = index(u32_at(s, 20));
    let removes = scan::check_waits(s, rows.next, waits)?;
    if removes.next != s.len() {
        return None;
    }
    let clock = clock_at(s, 24);
    let places = rows.places;
    let starts = removes.places;
    Some(Image {
        clock,
        entries,
        places,
        waits,
        starts,
    })
}

// The dot at p against the clock's dot at q and the line.
fn met(s: &[u8], p: usize, q: usize, line: u64) -> Meeting
    requires { (p + 12 ≤ length s.now) × (q + 12 ≤ length s.now) }
    ensures { result ≡ met_of (dot_at s.now p) (dot_at s.now q) line }
{
    use Meeting::{Another, Outside, Within};
    let here = &s[p..p + 12];
    let known = &s[q..q + 12];
    if u32_at(here, 0) != u32_at(known, 0) {
        return Another;
    }
    let c = u64_at(here, 4);
    if u64_at(known, 4) < c {
        return Outside;
    }
    if c <= line { Outside } else { Within }
}

// Whether each of k dots from a place on meets the clock's dot in the same place. As many dots as the clock has fit in no other way.
fn in_step(s: &[u8], from: usize, k: usize, lines: &[u64], line: usize) -> bool
    requires { (from + 12 * k ≤ length s.now) × (28 + 12 * k ≤ length s.now) × (line + k ≤ length lines.now) }
    ensures { result ≡ fits lines.now line (dots_at s.now 28 k) (dots_at s.now from k) }
{
    for j in 0..k {
        match met(s, from + 12 * j, 28 + 12 * j, lines[line + j]) {
            Meeting::Within => {}
            _ => return false,
        }
    }
    true
}

// Whether the clock, whose k dots stand from 28 on, covers the dots from a place on, and each is above its number of the line: one walk
// along the clock. Dots that meet it rise, as it does.
fn row_fits(s: &[u8], from: usize, count: usize, k: usize, lines: &[u64], line: usize) -> bool
    requires { (from + 12 * count ≤ length s.now) × (28 + 12 * k ≤ length s.now) × (line + k ≤ length lines.now) }
    ensures { result ≡ fits lines.now line (dots_at s.now 28 k) (dots_at s.now from count) }
{
    if count == k {
        return in_step(s, from, k, lines, line);
    }
    let mut p = from;
    let mut left = count;
    for j in 0..k {
        if left == 0 {
            return true;
        }
        match met(s, p, 28 + 12 * j, lines[line + j]) {
            Meeting::Another => {}
            Meeting::Within => {
                p += 12;
                left -= 1;
            }
            Meeting::Outside => return false,
        }
    }
    left == 0
}

// Where the line of entry i stands: each has its own, or there is one for all. Which of the two is a flag in `fit_all` too.
fn line_for(own: bool, i: usize) -> usize
    requires { i < 64 }
    ensures { result ≡ line_for own i }
{
    if own { 16 * i } else { 0 }
}

// Whether the image's clock covers each of the entries at places, and each of their dots is above its number of the entry's line.
fn entries_fit(s: &[u8], places: &[u32], lines: &[u64], own: bool) -> bool
    requires { (length places.now ≤ 64) × Stands s.now 24 × (pick own 1024 16 ≤ length lines.now) × EachInside s.now places.now (length places.now) }
    ensures { result ≡ fit_all lines.now s.now (clock_at s.now 24) own 0 places.now }
{
    let k = index(u32_at(s, 24));
    for (i, place) in places.iter().enumerate() {
        let at = index(*place) + 4;
        let count = index(u32_at(s, at));
        if !row_fits(s, at + 4, count, k, lines, line_for(own, i)) {
            return false;
        }
    }
    true
}

// Any bytes of any length: what they hold, if they are the image of a well-formed replica. Entries above all waiting removes need no table.
pub fn check(img: &[u8]) -> Option<Image>
    ensures { result ≡ check_image img.now }
{
    let x = parts(img)?;
    let places = &x.places[..x.entries];
    let starts = &x.starts[..x.waits];
    let top = kills::top_line(img, starts, x.clock);
    if entries_fit(img, places, &top, false) {
        return Some(x);
    }
    let mut lines = [0u64; 1024];
    kills::kill_lines(img, places, img, starts, x.clock, &[0u64; 16], &mut lines);
    if entries_fit(img, places, &lines, true) {
        Some(x)
    } else {
        None
    }
}

// Whether the bytes are the image of a well-formed replica. Refuses 1.
pub fn check_image(img: &[u8]) -> Result<(), Refused>
    ensures { result ≡ check_call img.now }
{
    check(img).ok_or(Refused::BadImage)?;
    Ok(())
}

// The replica's clock. Refuses 1.
pub fn clock(img: &[u8]) -> Result<VClock, Refused>
    ensures { result ≡ clock_call img.now }
{
    let x = check(img).ok_or(Refused::BadImage)?;
    Ok(x.clock)
}
