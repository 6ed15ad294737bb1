// What C is answered: one number of 64 bits and bytes; and a clock that C lends.
#![tactic(auto)]

ghost use Rattle.std.specs.Prelude.{◌≡◌, ◌+◌, ◌*◌, length};
ghost use Rattle.std.proofs.lemmas.List.Edits.{sets};
ghost use Rattle.clocks.specs.VClock.{dots_of};
ghost use Rattle.layout.specs.Clock.{encode_clock};
ghost use Rattle.dots.specs.Answers.{op_number_in};
ghost use Rattle.operations.specs.Calls.{gap_named};
ghost use Rattle.replies.specs.Reply.{fitted, if_room, Replies};
ghost use Rattle.replies.specs.Named.{named_gap, spent_bytes, spent_of};
ghost use Rattle.replies.specs.Lent.{unfit_clock, clock_lent};
ghost use Rattle.replies.specs.Given.{clock_given};

use clocks::VClock;
use dots::{OpRefused, Refused};
use fields::{index, put_u32, put_u64};
use validating::Spent;

// The refusal number in the upper half, the length or count in the lower: C is answered numbers (include/gatelichen.h).
pub fn packed(no: u32, low: u32) -> u64
    ensures { result ≡ no * 4294967296 + low }
{
    (no as u64) * 4294967296 + (low as u64)
}

// The clock that the bytes are. Bytes that are no normalised clock of at most 16 actors, or not exactly one, become a record that every call refuses
// with 3, in its turn.
pub fn clock_lent(bytes: &[u8]) -> VClock
    ensures { result ≡ clock_lent bytes.now }
{
    if scan::clock_ends(bytes, 0) == Some(bytes.len()) {
        fields::clock_at(bytes, 0)
    } else {
        unfit_clock()
    }
}

// How many bytes a clock takes.
pub fn bytes_of(c: VClock) -> u32
    ensures { result ≡ length (encode_clock (dots_of c)) }
{
    4 + 12 * (c.len.min(16) as u32)
}

// A clock that is given with a number beside it, written where it fits, or the refusal. Refuses 10 where it doesn't fit.
pub fn put(given: Result<(u32, VClock), Refused>, out: &mut [u8]) -> u64
    ensures { Replies (clock_given (length out.old) given) out.old result out.new }
{
    match given {
        Ok((low, c)) => put_numbered(0, low, c, out),
        Err(refused) => packed(refused.number(), 0),
    }
}

// The same by a refusal's number, of which 11 and 12 are none of `Refused`: 0 gives the clock.
pub fn put_numbered(no: u32, low: u32, c: VClock, out: &mut [u8]) -> u64
    ensures { Replies (fitted (length out.old) no low (encode_clock (dots_of c))) out.old result out.new }
{
    if no != 0 {
        return packed(no, 0);
    }
    if out.len() < index(bytes_of(c)) {
        return packed(Refused::ShortOutput.number(), 0);
    }
    fields::put_clock(out, 0, c);
    packed(0, low)
}

// Writes a double-spent dot and its two members, where 20 bytes fit.
pub fn put_spent(x: Spent, out: &mut [u8])
    ensures { out.new ≡ sets out.old 0 (if_room (length out.old) (spent_bytes (spent_of x))) }
{
    if out.len() < 20 {
        return;
    }
    put_u32(out, 0, x.dot.actor.0);
    put_u64(out, 4, x.dot.counter);
    put_u32(out, 12, x.our.0);
    put_u32(out, 16, x.their.0);
}

// The number of a verdict.
pub fn number_of(v: Result<(), OpRefused>) -> u32
    ensures { result ≡ op_number_in v }
{
    match v {
        Ok(()) => 0,
        Err(refused) => refused.number(),
    }
}

// Writes the gap that a verdict names, start and end, where 16 bytes fit. The two kinds of refusal are told apart in a match: `if let` with a pattern of
// two layers leaves the proof no name for what a verdict without a gap is.
pub fn put_gap(v: Result<(), OpRefused>, out: &mut [u8])
    ensures { out.new ≡ sets out.old 0 (if_room (length out.old) (named_gap (gap_named v))) }
{
    let Err(refused) = v else {
        return;
    };
    match refused {
        OpRefused::Refused(_) => {}
        OpRefused::Gap(g) => {
            if out.len() < 16 {
                return;
            }
            put_u64(out, 0, g.start);
            put_u64(out, 8, g.end);
        }
    }
}

// A record with 17 actors.
fn unfit_clock() -> VClock
    ensures { result ≡ unfit_clock }
{
    VClock {
        len: 17,
        ..VClock::new()
    }
}
