// What a call that writes a replica answers, and how its result is finished.
#![tactic(auto)]

ghost use Rattle.std.specs.Prelude.{◌≡◌, ◌-◌, ◌<◌, min};
ghost use Rattle.std.proofs.lemmas.List.Edits.{sets};
ghost use Rattle.std.proofs.Math.Seq.{slice};
ghost use Rattle.results.specs.Finish.{Finished};

use clocks::VClock;
use dots::Refused;
use fields::index;

// A result without contents and clock: how many entries and waiting removes it has, the most members that a waiting remove names, where the
// waiting removes start and where they end.
#[derive(Clone, Copy)]
pub struct Draft {
    pub entries: u32,
    pub waits: u32,
    pub most: u32,
    pub middle: u32,
    pub end: u32,
}

// Writes the bytes of s from a place up to an end to the output, from `at` on: those that s has, as far as the output goes.
pub fn copy(s: &[u8], from: usize, end: usize, out: &mut [u8], at: usize)
    ensures { out.new ≡ sets out.old at (slice from end s.now) }
{
    let given = end.min(s.len()).saturating_sub(from);
    let n = given.min(out.len().saturating_sub(at));
    // byte by byte: `copy_from_slice` would ask C for memmove
    for i in 0..n {
        out[at + i] = s[from + i];
    }
}

// The result with clock v whose entries and waiting removes stand in the body, where they do in the image: written from byte 0. Refuses 6, 7, 8, 9
// by the counts, then 10 where the output is shorter than the end.
pub fn finish(v: VClock, d: Draft, body: &[u8], out: &mut [u8]) -> Result<usize, Refused>
    ensures { Finished v d body.now out.old result out.new }
{
    if 16 < v.len {
        return Err(Refused::ManyActors);
    }
    if 64 < d.entries {
        return Err(Refused::ManyEntries);
    }
    if 16 < d.waits {
        return Err(Refused::ManyWaits);
    }
    if 32 < d.most {
        return Err(Refused::ManyNamed);
    }
    let end = index(d.end);
    if out.len() < end {
        return Err(Refused::ShortOutput);
    }
    let start = 28 + 12 * v.len;
    if end < start {
        return Err(Refused::ShortOutput);
    }
    fields::put_contents(out, d.end, start as u32, d.entries, d.middle, d.waits);
    fields::put_clock(out, 24, v);
    copy(body, start, end, out, start);
    Ok(end)
}
