// The clock's text, written into a lent output. It is written by hand, and not by `write!` over the clock's `Display`: no clause of `write!` says that
// it succeeds where there is room.
#![tactic(auto)]

ghost use Rattle.std.specs.Prelude.{◌≡◌, ◌++◌, ◌≤◌, length};
ghost use Rattle.display.specs.Text.{width, digits, decimal, dot_text, item, items, text, shown, shown_in};
ghost use Rattle.display.specs.Put.{Room, Put};

use clocks::VClock;
use dots::{Dot, Refused};

// Writes the clock as text from byte 0, leaves the later bytes, and returns how many were written. Refuses 3; then 10 where the output is shorter
// than the text. A refusal writes nothing.
pub fn display(c: VClock, out: &mut [u8]) -> Result<usize, Refused>
    ensures says { result ≡ shown c (length out.old) }
    ensures written { out.new ≡ shown_in c out.old }
{
    if !c.is_normalised() {
        return Err(Refused::BadClock);
    }
    let dots = &c.dots[..c.len];
    let n = text_len(dots);
    if out.len() < n {
        return Err(Refused::ShortOutput);
    }
    put_text(out, dots);
    Ok(n)
}

// How long the text of a clock's dots is.
fn text_len(dots: &[Dot]) -> usize
    requires { length dots.now ≤ 16 }
    ensures { result ≡ length (text dots.now) }
{
    let mut t: usize = 2;
    for (i, d) in dots.iter().enumerate() {
        t += item_len(i, *d);
    }
    t
}

// How long the i-th dot's text is.
fn item_len(i: usize, d: Dot) -> usize
    ensures { (result ≡ length (item i d)) × (result ≤ 43) }
{
    let n = width_of(d.actor.0 as u64) + 1 + width_of(d.counter);
    if i == 0 {
        return n;
    }
    n + 2
}

// How many decimal digits n has.
fn width_of(n: u64) -> usize
    ensures { (result ≡ width n) × (result ≤ 20) }
{
    n.max(1).ilog10() as usize + 1
}

// Writes the text of a clock's dots. This and each `put` below return the place after what they write. The place is lent beside the output: a slice
// from it on would be cut anew at each call, and its start added to the answer.
fn put_text(out: &mut [u8], dots: &[Dot]) -> usize
    requires { Room 0 (text dots.now) out.old }
    ensures { Put out.old 0 (text dots.now) result out.new }
{
    let p = put(out, 0, b"<");
    let q = put_items(out, p, dots);
    put(out, q, b">")
}

// Writes the dots of a clock.
fn put_items(out: &mut [u8], at: usize, dots: &[Dot]) -> usize
    requires { Room at (items 0 dots.now) out.old }
    ensures { Put out.old at (items 0 dots.now) result out.new }
{
    let mut p = at;
    for (i, d) in dots.iter().enumerate() {
        p = put_item(out, p, i, *d);
    }
    p
}

// Writes the i-th dot, after a comma where it is not the first.
fn put_item(out: &mut [u8], at: usize, i: usize, d: Dot) -> usize
    requires { Room at (item i d) out.old }
    ensures { Put out.old at (item i d) result out.new }
{
    if i == 0 {
        return put_dot(out, at, b"", d);
    }
    put_dot(out, at, b", ", d)
}

// Writes the bytes before a dot and the dot.
fn put_dot(out: &mut [u8], at: usize, before: &[u8], d: Dot) -> usize
    requires { Room at (before.now ++ dot_text d) out.old }
    ensures { Put out.old at (before.now ++ dot_text d) result out.new }
{
    let p = put_number(out, at, before, d.actor.0 as u64);
    put_number(out, p, b":", d.counter)
}

// Writes the bytes before a number and the number in decimal.
fn put_number(out: &mut [u8], at: usize, before: &[u8], n: u64) -> usize
    requires { Room at (before.now ++ decimal n) out.old }
    ensures { Put out.old at (before.now ++ decimal n) result out.new }
{
    let p = put(out, at, before);
    let k = width_of(n);
    put_digits(out, p, k, n)
}

// Writes the bytes of s.
fn put(out: &mut [u8], at: usize, s: &[u8]) -> usize
    requires { Room at s.now out.old }
    ensures { Put out.old at s.now result out.new }
{
    let end = at + s.len();
    out[at..end].copy_from_slice(s);
    end
}

// Writes the last k digits of n, from the right.
fn put_digits(out: &mut [u8], at: usize, k: usize, n: u64) -> usize
    requires { Room at (digits k n) out.old }
    ensures { Put out.old at (digits k n) result out.new }
{
    let mut m = n;
    for i in (0..k).rev() {
        out[at + i] = (48 + m % 10) as u8;
        m /= 10;
    }
    at + k
}
