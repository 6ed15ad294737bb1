// What is asked of a replica without changing it: `contains`, `read` and `read_ctx` of src/orswot.rs; and the empty replica (`new`).
#![tactic(auto)]

ghost use Rattle.std.specs.Prelude.{◌≡◌, map, eqb, ◌*◌, ◌^◌, ◌<◌, ◌≤◌, length, take};
ghost use Rattle.std.proofs.lemmas.List.Edits.{sets};
ghost use Rattle.replica.specs.Limits.{full};
ghost use Rattle.layout.specs.Fields.{u32_at};
ghost use Rattle.layout.specs.Rows.{encode_members};
ghost use Rattle.results.specs.Call.{Meets};
ghost use Rattle.std.specs.List.{position};
ghost use Rattle.reading.specs.Calls.{empty_call, twice, contains_call, read_ctx_call, ReadMeets};

use clocks::VClock;
use contexts::ReadCtx;
use dots::{Member, Refused};
use fields::{clock_at, index, put_contents, put_u32, u32_at};
use image::check;

// Whether a member is there: V as add clock, its entry's clock or an empty one as remove clock. Refuses 1.
pub fn contains(img: &[u8], member: Member) -> Result<ReadCtx, Refused>
    ensures { result ≡ contains_call img.now member.0 }
{
    let x = check(img).ok_or(Refused::BadImage)?;
    let places = &x.places[..x.entries];
    if let Some(i) = seat(img, places, member.0) {
        let rm_clock = clock_at(img, index(places[i]) + 4);
        Ok(ReadCtx {
            add_clock: x.clock,
            rm_clock,
            answer: true,
        })
    } else {
        let rm_clock = VClock::new();
        let answer = false;
        Ok(ReadCtx {
            add_clock: x.clock,
            rm_clock,
            answer,
        })
    }
}

// V twice. Refuses 1.
pub fn read_ctx(img: &[u8]) -> Result<ReadCtx, Refused>
    ensures { result ≡ read_ctx_call img.now }
{
    let x = check(img).ok_or(Refused::BadImage)?;
    Ok(twice(x.clock))
}

// V twice, the members written ascending, 4 bytes each, and how many they are. Refuses 1, then 10.
pub fn read(img: &[u8], out: &mut [u8]) -> Result<(ReadCtx, usize), Refused>
    ensures { ReadMeets img.now out.old result out.new }
{
    let x = check(img).ok_or(Refused::BadImage)?;
    let count = x.entries;
    if out.len() < 4 * count {
        return Err(Refused::ShortOutput);
    }
    let places = &x.places[..count];
    put_members(img, places, out);
    Ok((twice(x.clock), count))
}

// The empty replica, 28 bytes. Refuses 10.
pub fn empty(out: &mut [u8]) -> Result<usize, Refused>
    ensures { Meets full empty_call out.old result out.new }
{
    if out.len() < 28 {
        return Err(Refused::ShortOutput);
    }
    put_contents(out, 28, 28, 0, 28, 0);
    put_u32(out, 24, 0);
    Ok(28)
}

// What a read of all carries: V twice.
fn twice(v: VClock) -> ReadCtx
    ensures { result ≡ twice v }
{
    ReadCtx {
        add_clock: v,
        rm_clock: v,
        answer: false,
    }
}

// Which of the entries at places is the member's.
fn seat(s: &[u8], places: &[u32], member: u32) -> Option<usize>
    ensures { result ≡ position (λ p. eqb (u32_at s.now p) member) places.now }
{
    places
        .iter()
        .position(|place| u32_at(s, index(*place)) == member)
}

// Writes the members of the entries at places, 4 bytes each.
fn put_members(s: &[u8], places: &[u32], out: &mut [u8])
    requires { length places.now ≤ 64 }
    ensures { out.new ≡ sets out.old 0 (encode_members (map (u32_at s.now) places.now)) }
{
    for (i, place) in places.iter().enumerate() {
        put_u32(out, 4 * i, u32_at(s, index(*place)));
    }
}
