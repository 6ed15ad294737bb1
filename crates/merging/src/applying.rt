// An operation applied to a replica image.
ghost use Rattle.std.specs.Prelude.{◌≡◌, true, Some, map, ◌<◌, ◌≤◌, length, take};
ghost use Rattle.tables.specs.Table.{Normal, pick};
ghost use Rattle.dots.specs.Dot.{actor_of, clocks};
ghost use Rattle.dots.specs.Calls.{means};
ghost use Rattle.clocks.specs.VClock.{dots_of, normalised};
ghost use Rattle.replica.specs.Rules.{add as added, remove as removed};
ghost use Rattle.replica.specs.Limits.{full};
ghost use Rattle.layout.specs.Image.{image_of};
ghost use Rattle.changing.specs.Kept.{Along, kept_entries};
ghost use Rattle.changing.specs.KeptWaits.{kept_waits};
ghost use Rattle.results.specs.Call.{Meets};
ghost use Rattle.image.specs.Image.{check_image};
ghost use Rattle.operations.specs.Calls.{apply_call};
ghost use Rattle.merging.specs.Side.{side_of, SideReady};
ghost use Rattle.merging.specs.Apply.{FinishedOf, granted};

use crate::draft::drafted;
use crate::side::{Carried, put_side};
use clocks::VClock;
use dots::{Dot, Refused};
use image::Image;
use lists::members_of;
use operations::Op;
use std::cmp::Ordering;

// Applies an add or a remove and writes the changed replica from byte 0. Refuses 1, 3, 4; then 6, 7, 8, 9 on the finished result; then 10.
pub fn apply(
    img: &[u8],
    op: Op,
    clock: VClock,
    members: &[u32],
    out: &mut [u8],
) -> Result<usize, Refused>
    ensures { Meets full (apply_call img.now op clock members.now) out.old result out.new }
{
    let x = image::check(img).ok_or(Refused::BadImage)?;
    if !clock.is_normalised() {
        return Err(Refused::BadClock);
    }
    if members.len() > 64 {
        return Err(Refused::LongList);
    }
    match op {
        Op::Add(d) => add(img, &x, d, members, out),
        Op::Remove => remove(img, &x, clock, members, out),
    }
}

// An add: the listed members have its dot alone, and take the older ones of its actor with them. Where the clock covers the dot nothing changes,
// as by a remove without a clock.
fn add(img: &[u8], x: &Image, d: Dot, members: &[u32], out: &mut [u8]) -> Result<usize, Refused>
    requires { (Some x.now ≡ check_image img.now) × (length members.now ≤ 64) }
    ensures { Meets full (granted (added d members.now (image_of img.now))) out.old result out.new }
{
    let v = x.clock;
    let last = v.get(d.actor)?;
    if d.counter <= last {
        return remove(img, x, VClock::new(), members, out);
    }
    let new = v.apply(d)?;
    let m = members_of(members);
    let brings = Carried {
        clock: VClock::from(d),
        members: m,
        rows: m.len,
    };
    changed(img, x, brings, new, 0, new, out)
}

// A remove: it waits where the clock doesn't cover its own, and settles no other.
fn remove(
    img: &[u8],
    x: &Image,
    c: VClock,
    members: &[u32],
    out: &mut [u8],
) -> Result<usize, Refused>
    requires { (Some x.now ≡ check_image img.now) × (normalised c ≡ true) × (length members.now ≤ 64) }
    ensures { Meets full (granted (removed (dots_of c) members.now (image_of img.now))) out.old result out.new }
{
    let v = x.clock;
    let order = v.compare(c)?;
    let l = waits(order);
    let brings = Carried {
        clock: c,
        members: members_of(members),
        rows: 0,
    };
    let none = VClock::new();
    changed(img, x, brings, v, l, none, out)
}

// How many removes wait: 1 where the first of two clocks that stand so doesn't cover the second, and so a remove by the second waits.
fn waits(order: Option<Ordering>) -> usize
    ensures { result ≡ pick (means order).first_at_least 0 1 }
{
    match order {
        Some(Ordering::Equal) => 0,
        Some(Ordering::Greater) => 0,
        Some(Ordering::Less) => 1,
        None => 1,
    }
}

// The replica beside what an operation carries. What stays of the entries goes along the actors of v, its new clock; its waiting removes, and l of
// those that are carried, stay where `settled` doesn't cover them.
fn changed(
    img: &[u8],
    x: &Image,
    o: Carried,
    v: VClock,
    l: usize,
    settled: VClock,
    out: &mut [u8],
) -> Result<usize, Refused>
    requires { (Some x.now ≡ check_image img.now) × SideReady o.clock o.members o.rows × (v.len ≤ 16) × Normal clocks (dots_of v) × (l ≤ 1) × (settled.len ≤ 16) × Normal clocks (dots_of settled) × Along (dots_of v) (image_of img.now).clock × (0 < o.rows → Along (dots_of v) (dots_of o.clock)) }
    ensures { FinishedOf (kept_entries (map (λ d. actor_of d) (dots_of v)) (image_of img.now) (side_of o.clock o.members o.rows)) (kept_waits (dots_of settled) (image_of img.now).waiting (take l (side_of o.clock o.members o.rows).waiting)) v out.old result out.new }
{
    let mut side = [0u8; 1584];
    let y = put_side(&mut side, o);
    let long = 36 + 20 * o.rows + 12 * o.clock.len + 4 * o.members.len;
    let mut body = [0u8; 18268];
    let d = drafted(img, x, &side[..long], &y, v, l, settled, &mut body);
    results::finish(v, d, &body, out)
}
