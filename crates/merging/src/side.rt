// What an operation brings, in bytes: a second side, laid out as the image of a replica is.
ghost use Rattle.std.specs.Prelude.{◌≡◌, [], ◌∷◌, ◌+◌, ◌*◌, ◌<◌, ◌≤◌, length, take};
ghost use Rattle.std.proofs.lemmas.List.Edits.{sets};
ghost use Rattle.clocks.specs.VClock.{dots_of};
ghost use Rattle.layout.specs.Rows.{encode_row, encode_rows};
ghost use Rattle.layout.specs.Image.{encode};
ghost use Rattle.changing.specs.Brought.{brought};
ghost use Rattle.merging.specs.Side.{places_of, side_of, SideReady, Brings};

use clocks::VClock;
use dots::Dot;
use image::Image;
use lists::Members;

// What an operation carries: a clock, members, and how many of these have the clock as entries.
#[derive(Clone, Copy)]
pub(crate) struct Carried {
    pub(crate) clock: VClock,
    pub(crate) members: Members,
    pub(crate) rows: usize,
}

// Writes an entry of one dot.
fn put_one(s: &mut [u8], p: usize, member: u32, d: Dot)
    requires { p < 65536 }
    ensures { s.new ≡ sets s.old p (encode_row (record { member = member; clock = d ∷ [] })) }
{
    fields::put_u32(s, p, member);
    fields::put_u32(s, p + 4, 1);
    fields::put_u32(s, p + 8, d.actor.0);
    fields::put_u64(s, p + 12, d.counter);
}

// Writes the first n members from byte 28 on, each as an entry with the one dot of c, and returns where they stand.
fn put_rows(s: &mut [u8], m: Members, n: usize, c: VClock) -> [u32; 64]
    requires { (n ≤ 64) × (0 < n → c.len ≡ 1) }
    ensures { (s.new ≡ sets s.old 28 (encode_rows (brought (dots_of c) (take n m.at)))) × (take n result ≡ places_of n) }
{
    let d = c.dots[0];
    let mut places = [0u32; 64];
    for i in 0..n {
        let p = 28 + 20 * i;
        places[i] = p as u32;
        put_one(s, p, m.at[i], d);
    }
    places
}

// The first members with the clock as entries, and the members' remove by the clock as one that waits. Returns where they stand.
pub(crate) fn put_side(s: &mut [u8], o: Carried) -> Image
    requires { SideReady o.clock o.members o.rows }
    ensures { (s.new ≡ sets s.old 0 (encode (side_of o.clock o.members o.rows))) × Brings (side_of o.clock o.members o.rows) (encode (side_of o.clock o.members o.rows)) result × (length (encode (side_of o.clock o.members o.rows)) ≡ 36 + 20 * o.rows + 12 * o.clock.len + 4 * o.members.len) }
{
    let c = o.clock;
    let m = o.members;
    let n = o.rows;
    let q = 28 + 20 * n;
    let total = q + 8 + 12 * c.len + 4 * m.len;
    fields::put_contents(s, total as u32, 28, n as u32, q as u32, 1);
    fields::put_u32(s, 24, 0);
    let places = put_rows(s, m, n, c);
    fields::put_clock(s, q, c);
    brought::put_members(s, q + 4 + 12 * c.len, m);
    let mut starts = [0u32; 16];
    starts[0] = q as u32;
    let clock = VClock::new();
    Image {
        clock,
        entries: n,
        places,
        waits: 1,
        starts,
    }
}
