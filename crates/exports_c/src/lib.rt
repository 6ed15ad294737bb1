// The library as C calls it: the functions of include/gatelichen.h, each the call of the same name in `exports`, whose promise it repeats. A slice is lent by
// C as a pointer and how many elements it points to. Nothing is asked of a caller but what the header asks: any content of any input is judged.
#![tactic(auto)]

ghost use Rattle.std.specs.Prelude.{◌≡◌, length, []};
ghost use Rattle.dots.specs.Dot.{dot};
ghost use Rattle.clocks.specs.VClock.{vclock};
ghost use Rattle.operations.specs.Calls.{apply_call, reset_call};
ghost use Rattle.merging.specs.Merge.{merge_call};
ghost use Rattle.reading.specs.Calls.{empty_call};
ghost use Rattle.replies.specs.Reply.{one_number, Replies};
ghost use Rattle.replies.specs.Lent.{clock_lent};
ghost use Rattle.exports.specs.Calls.{check_reply, replica_reply, contains_reply, read_reply, clock_reply, validate_add_reply, validate_remove_reply, validate_merge_reply};

use operations::Op;

// Whether the bytes are a well-formed image. Refuses 1.
#[unsafe(no_mangle)]
pub extern "C" fn gatelichen_check(image: &[u8]) -> u64
    ensures { result ≡ one_number (check_reply image.now) }
{
    exports::gatelichen_check(image)
}

// Writes the empty replica. Refuses 10.
#[unsafe(no_mangle)]
pub extern "C" fn gatelichen_empty(out: &mut [u8]) -> u64
    ensures { Replies (replica_reply empty_call (length out.old)) out.old result out.new }
{
    exports::gatelichen_empty(out)
}

// Adds the members under the dot and writes the result. Refuses 1, 4, 6, 7, 10.
#[unsafe(no_mangle)]
pub extern "C" fn gatelichen_add(
    image: &[u8],
    actor: u32,
    counter: u64,
    members: &[u32],
    out: &mut [u8],
) -> u64
    ensures { Replies (replica_reply (apply_call image.now (Op.Add (dot actor counter)) (vclock []) members.now) (length out.old)) out.old result out.new }
{
    exports::gatelichen_add(image, actor, counter, members, out)
}

// Removes what the clock covers of the members and writes the result. Refuses 1, 3, 4, 8, 9, 10.
#[unsafe(no_mangle)]
pub extern "C" fn gatelichen_remove(
    image: &[u8],
    clock: &[u8],
    members: &[u32],
    out: &mut [u8],
) -> u64
    ensures { Replies (replica_reply (apply_call image.now Op.Remove (clock_lent clock.now) members.now) (length out.old)) out.old result out.new }
{
    exports::gatelichen_remove(image, clock, members, out)
}

// Merges two replicas and writes the result. Refuses 1, 2, 6, 7, 8, 9, 10.
#[unsafe(no_mangle)]
pub extern "C" fn gatelichen_merge(a: &[u8], b: &[u8], out: &mut [u8]) -> u64
    ensures { Replies (replica_reply (merge_call a.now b.now) (length out.old)) out.old result out.new }
{
    exports::gatelichen_merge(a, b, out)
}

// Forgets what the clock covers and writes the result. Refuses 1, 3, 9, 10.
#[unsafe(no_mangle)]
pub extern "C" fn gatelichen_reset(image: &[u8], clock: &[u8], out: &mut [u8]) -> u64
    ensures { Replies (replica_reply (reset_call image.now (clock_lent clock.now)) (length out.old)) out.old result out.new }
{
    exports::gatelichen_reset(image, clock, out)
}

// Whether the member is there, 1 or 0; writes the clock by which it can be removed. Refuses 1, 10.
#[unsafe(no_mangle)]
pub extern "C" fn gatelichen_contains(image: &[u8], member: u32, out: &mut [u8]) -> u64
    ensures { Replies (contains_reply image.now member (length out.old)) out.old result out.new }
{
    exports::gatelichen_contains(image, member, out)
}

// Writes the members, ascending; the lower half is how many they are. Refuses 1, 10.
#[unsafe(no_mangle)]
pub extern "C" fn gatelichen_read(image: &[u8], out: &mut [u8]) -> u64
    ensures { Replies (read_reply image.now (length out.old)) out.old result out.new }
{
    exports::gatelichen_read(image, out)
}

// Writes the replica's clock; the lower half is its length. Refuses 1, 10.
#[unsafe(no_mangle)]
pub extern "C" fn gatelichen_clock(image: &[u8], out: &mut [u8]) -> u64
    ensures { Replies (clock_reply image.now (length out.old)) out.old result out.new }
{
    exports::gatelichen_clock(image, out)
}

// Whether an add under the dot follows what the replica has seen of the actor: 11 where not, and the gap is written where it fits. Refuses 1, 4.
#[unsafe(no_mangle)]
pub extern "C" fn gatelichen_validate_add(
    image: &[u8],
    actor: u32,
    counter: u64,
    members: &[u32],
    out: &mut [u8],
) -> u64
    ensures { Replies (validate_add_reply image.now (dot actor counter) members.now (length out.old)) out.old result out.new }
{
    exports::gatelichen_validate_add(image, actor, counter, members, out)
}

// Whether the arguments of a remove are good ones. Refuses 1, 3, 4.
#[unsafe(no_mangle)]
pub extern "C" fn gatelichen_validate_remove(image: &[u8], clock: &[u8], members: &[u32]) -> u64
    ensures { result ≡ one_number (validate_remove_reply image.now clock.now members.now) }
{
    exports::gatelichen_validate_remove(image, clock, members)
}

// Whether a dot is held for one member by a and for another by b: 12, and the first such is written where it fits. Refuses 1, 2.
#[unsafe(no_mangle)]
pub extern "C" fn gatelichen_validate_merge(a: &[u8], b: &[u8], out: &mut [u8]) -> u64
    ensures { Replies (validate_merge_reply a.now b.now (length out.old)) out.old result out.new }
{
    exports::gatelichen_validate_merge(a, b, out)
}
