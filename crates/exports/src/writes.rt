// The calls that write a replica.
ghost use Rattle.std.specs.Prelude.{◌≡◌, ◌+◌, ◌*◌, ◌<◌, length, []};
ghost use Rattle.dots.specs.Dot.{dot};
ghost use Rattle.dots.specs.Answers.{number_in};
ghost use Rattle.results.specs.Call.{length_in};
ghost use Rattle.clocks.specs.VClock.{vclock};
ghost use Rattle.operations.specs.Calls.{apply_call, reset_call};
ghost use Rattle.merging.specs.Merge.{merge_call};
ghost use Rattle.reading.specs.Calls.{empty_call};
ghost use Rattle.replies.specs.Reply.{Replies};
ghost use Rattle.exports.specs.Calls.{replica_reply};
ghost use Rattle.replies.specs.Lent.{clock_lent};

use clocks::VClock;
use dots::{Actor, Dot, Refused};
use operations::Op;
use replies::{clock_lent, packed};

// Writes the empty replica. Refuses 10.
pub fn gatelichen_empty(out: &mut [u8]) -> u64
    ensures { Replies (replica_reply empty_call (length out.old)) out.old result out.new }
{
    written(reading::empty(out))
}

// Merges two replicas and writes the result. Refuses 1, 2, 6, 7, 8, 9, 10.
pub fn gatelichen_merge(a: &[u8], b: &[u8], out: &mut [u8]) -> u64
    ensures { Replies (replica_reply (merge_call a.now b.now) (length out.old)) out.old result out.new }
{
    written(merging::merge(a, b, out))
}

// Adds the members under the dot and writes the result. Refuses 1, 4, 6, 7, 10.
pub fn gatelichen_add(
    image: &[u8],
    actor: u32,
    counter: u64,
    members: &[u32],
    out: &mut [u8],
) -> u64
    ensures { Replies (replica_reply (apply_call image.now (Op.Add (dot actor counter)) (vclock []) members.now) (length out.old)) out.old result out.new }
{
    let dot = Dot {
        actor: Actor(actor),
        counter,
    };
    written(merging::apply(image, Op::Add(dot), VClock::new(), members, out))
}

// Removes what the clock covers of the members and writes the result. Refuses 1, 3, 4, 8, 9, 10.
pub fn gatelichen_remove(image: &[u8], clock: &[u8], members: &[u32], out: &mut [u8]) -> u64
    ensures { Replies (replica_reply (apply_call image.now Op.Remove (clock_lent clock.now) members.now) (length out.old)) out.old result out.new }
{
    written(merging::apply(image, Op::Remove, clock_lent(clock), members, out))
}

// Forgets what the clock covers and writes the result. Refuses 1, 3, 9, 10.
pub fn gatelichen_reset(image: &[u8], clock: &[u8], out: &mut [u8]) -> u64
    ensures { Replies (replica_reply (reset_call image.now (clock_lent clock.now)) (length out.old)) out.old result out.new }
{
    written(merging::reset_remove(image, clock_lent(clock), out))
}

// What a call answered, a length or a count, as one number.
pub(crate) fn written(w: Result<usize, Refused>) -> u64
    requires { length_in w < 4294967296 }
    ensures { result ≡ number_in w * 4294967296 + length_in w }
{
    match w {
        Ok(len) => packed(0, len as u32),
        Err(refused) => packed(refused.number(), 0),
    }
}
