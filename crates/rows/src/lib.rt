// What stands at a place of an image: an entry, a waiting remove; and a waiting remove written. A byte past the end reads as 0, and is not
// written: no call asks for room or for a good place.
#![tactic(auto)]

ghost use Rattle.std.specs.Prelude.{◌≡◌, ◌+◌, ◌≤◌, ◌<◌, min, length, take};
ghost use Rattle.layout.specs.Clock.{clock_end};
ghost use Rattle.layout.specs.Rows.{encode_wait};
ghost use Rattle.fields.specs.Read.{Put};
ghost use Rattle.rows.specs.Rows.{row_read, wait_read, named_read, counted, wait_of};

use clocks::VClock;
use dots::Member;
use fields::{clock_at, index, put_clock, put_members, u32_at};

// An entry.
#[derive(Clone, Copy)]
pub struct Row {
    pub member: Member,
    pub clock: VClock,
}

// A waiting remove: its clock, and how many members its count says.
#[derive(Clone, Copy)]
pub struct WaitRow {
    pub clock: VClock,
    pub count: u32,
}

// The entry at a place.
pub fn row_at(s: &[u8], at: usize) -> Row
    ensures { result ≡ row_read s.now at }
{
    if s.len() <= at {
        return Row {
            member: Member(0),
            clock: VClock::new(),
        };
    }
    Row {
        member: Member(u32_at(s, at)),
        clock: clock_at(s, at + 4),
    }
}

// The place after the clock at a place.
fn clock_end(s: &[u8], at: usize) -> usize
    requires { at < length s.now }
    ensures { (result ≡ clock_end s.now at) × (result < length s.now + 51539607556) }
{
    at + 4 + 12 * index(u32_at(s, at))
}

// The waiting remove at a place.
pub fn wait_at(s: &[u8], at: usize) -> WaitRow
    ensures { result ≡ wait_read s.now at }
{
    if s.len() <= at {
        return WaitRow {
            clock: VClock::new(),
            count: 0,
        };
    }
    WaitRow {
        clock: clock_at(s, at),
        count: u32_at(s, clock_end(s, at)),
    }
}

// Whether the waiting remove at a place names a member among its first 32.
pub fn names(s: &[u8], at: usize, member: Member) -> bool
    ensures { result ≡ named_read s.now at member }
{
    if s.len() <= at {
        return false;
    }
    let q = clock_end(s, at);
    let n = index(u32_at(s, q)).min(32);
    for i in 0..n {
        let p = q + 4 + 4 * i;
        if u32_at(s, p) == member.0 {
            return true;
        }
    }
    false
}

// Writes a waiting remove of a clock and the first 32 members of a list, in the list's order, and returns how many bytes that takes.
pub fn put_wait(out: &mut [u8], at: usize, clock: VClock, members: &[u32]) -> usize
    ensures { Put out.old at (encode_wait (wait_of clock members.now)) out.new result }
{
    let named = &members[..members.len().min(32)];
    let r = put_clock(out, at, clock);
    if out.len() <= at {
        return r + put_members(out, at, named);
    }
    r + put_members(out, at + r, named)
}
