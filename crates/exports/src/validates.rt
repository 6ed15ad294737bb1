// The calls that judge and change nothing.
ghost use Rattle.std.specs.Prelude.{◌≡◌, length};
ghost use Rattle.dots.specs.Dot.{dot};
ghost use Rattle.replies.specs.Reply.{one_number, Replies};
ghost use Rattle.exports.specs.Calls.{validate_add_reply, validate_remove_reply, validate_merge_reply};

use clocks::VClock;
use dots::{Actor, Dot};
use operations::Op;
use replies::{clock_lent, number_of, packed, put_gap, put_spent};
use validating::MergeRefused;

// Whether an add under the dot follows what the replica has seen of the actor: 11 where not, and the gap is written where it fits. Refuses 1, 4.
pub fn gatelichen_validate_add(
    image: &[u8],
    actor: u32,
    counter: u64,
    members: &[u32],
    out: &mut [u8],
) -> u64
    ensures { Replies (validate_add_reply image.now (dot actor counter) members.now (length out.old)) out.old result out.new }
{
    let dot = Dot {
        actor: Actor(actor),
        counter,
    };
    let v = proposing::validate_op(image, Op::Add(dot), VClock::new(), members);
    put_gap(v, out);
    packed(number_of(v), 0)
}

// Whether the arguments of a remove are good ones. Refuses 1, 3, 4.
pub fn gatelichen_validate_remove(image: &[u8], clock: &[u8], members: &[u32]) -> u64
    ensures { result ≡ one_number (validate_remove_reply image.now clock.now members.now) }
{
    let v = proposing::validate_op(image, Op::Remove, clock_lent(clock), members);
    packed(number_of(v), 0)
}

// Whether a dot is held for one member by a and for another by b: 12, and the first such is written where it fits. Refuses 1, 2.
pub fn gatelichen_validate_merge(a: &[u8], b: &[u8], out: &mut [u8]) -> u64
    ensures { Replies (validate_merge_reply a.now b.now (length out.old)) out.old result out.new }
{
    let Err(refused) = validating::validate_merge(a, b) else {
        return packed(0, 0);
    };
    match refused {
        MergeRefused::Refused(first) => packed(first.number(), 0),
        MergeRefused::DoubleSpent(spent) => {
            put_spent(spent, out);
            packed(refused.number(), 0)
        }
    }
}
