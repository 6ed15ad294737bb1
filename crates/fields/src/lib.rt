// Fields of a byte image: clocks, entries and contents, beside numbers. A byte past the end reads as 0, and is not written: no reader or writer asks for room.
#![tactic(auto)]

ghost use Rattle.std.specs.Prelude.{◌≡◌, ◌+◌, ◌*◌, ◌<◌, ◌≤◌, ◌++◌, length, take};
ghost use Rattle.std.proofs.lemmas.List.Edits.{sets};
ghost use Rattle.clocks.specs.VClock.{dots_of, vclock};
ghost use Rattle.layout.specs.Fields.{u32_at, u64_at, le32};
ghost use Rattle.layout.specs.Clock.{encode_clock};
ghost use Rattle.layout.specs.Rows.{encode_row, encode_members};
ghost use Rattle.layout.specs.Image.{contents};
ghost use Rattle.fields.specs.Read.{clock_read, entry_of, Put};

use clocks::VClock;
use dots::{Actor, Dot};
pub use numbers::{index, put_u32, put_u64, u16_at, u32_at, u64_at};

// The clock at a place: the first 16 dots where its count is more, and no dots past the end.
pub fn clock_at(s: &[u8], at: usize) -> VClock
    ensures { result ≡ vclock (clock_read s.now at) }
{
    if s.len() <= at {
        return VClock::new();
    }
    let n = index(u32_at(s, at)).min(16);
    let mut dots = [Dot {
        actor: Actor(0),
        counter: 0,
    }; 16];
    let mut p = at + 4;
    for i in 0..n {
        dots[i] = Dot {
            actor: Actor(u32_at(s, p)),
            counter: u64_at(s, p + 4),
        };
        p += 12;
    }
    VClock { dots, len: n }
}

// Writes a clock, and returns how many bytes it takes.
pub fn put_clock(s: &mut [u8], at: usize, c: VClock) -> usize
    ensures { Put s.old at (encode_clock (dots_of c)) s.new result }
{
    let n = c.len.min(16);
    if s.len() <= at {
        return 4 + 12 * n;
    }
    put_u32(s, at, n as u32);
    let mut p = at + 4;
    for d in &c.dots[..n] {
        put_u32(s, p, d.actor.0);
        put_u64(s, p + 4, d.counter);
        p += 12;
    }
    4 + 12 * n
}

// Writes how many the first 64 members of a list are, then these members, and returns how many bytes that takes.
pub fn put_members(s: &mut [u8], at: usize, members: &[u32]) -> usize
    ensures { Put s.old at (le32 (length (take 64 members.now)) ++ encode_members (take 64 members.now)) s.new result }
{
    put_few(s, at, &members[..members.len().min(64)])
}

// The same of members that 32 bits can count.
fn put_few(s: &mut [u8], at: usize, members: &[u32]) -> usize
    requires { length members.now < 4294967296 }
    ensures { Put s.old at (le32 (length members.now) ++ encode_members members.now) s.new result }
{
    let n = members.len();
    if s.len() <= at {
        return 4 + 4 * n;
    }
    put_u32(s, at, n as u32);
    let mut place = at + 4;
    for member in members {
        put_u32(s, place, *member);
        place += 4;
    }
    4 + 4 * n
}

// Writes an entry, and returns how many bytes it takes.
pub fn put_row(s: &mut [u8], at: usize, member: u32, c: VClock) -> usize
    ensures { Put s.old at (encode_row (entry_of member c)) s.new result }
{
    if s.len() <= at {
        return 8 + 12 * c.len.min(16);
    }
    put_u32(s, at, member);
    4 + put_clock(s, at + 4, c)
}

// Writes the contents of an image: 24 bytes.
pub fn put_contents(s: &mut [u8], total: u32, start: u32, count: u32, wstart: u32, wcount: u32)
    ensures { s.new ≡ sets s.old 0 (contents total start count wstart wcount) }
{
    put_u32(s, 0, 1);
    put_u32(s, 4, total);
    put_u32(s, 8, start);
    put_u32(s, 12, count);
    put_u32(s, 16, wstart);
    put_u32(s, 20, wcount);
}
