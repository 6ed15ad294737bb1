// What is asked of a replica: the check, contains, read and the replica's clock.
ghost use Rattle.std.specs.Prelude.{◌≡◌, length};
ghost use Rattle.replies.specs.Reply.{one_number, Replies};
ghost use Rattle.exports.specs.Calls.{check_reply, contains_reply, read_reply, clock_reply};

use crate::writes::written;
use dots::Member;
use replies::{bytes_of, packed, put};

// Whether the bytes are a well-formed image. Refuses 1.
pub fn gatelichen_check(image: &[u8]) -> u64
    ensures { result ≡ one_number (check_reply image.now) }
{
    match image::check_image(image) {
        Ok(()) => packed(0, 0),
        Err(refused) => packed(refused.number(), 0),
    }
}

// Whether the member is there, 1 or 0; writes the clock by which it can be removed. Refuses 1, 10.
pub fn gatelichen_contains(image: &[u8], member: u32, out: &mut [u8]) -> u64
    ensures { Replies (contains_reply image.now member (length out.old)) out.old result out.new }
{
    let x = reading::contains(image, Member(member));
    match x {
        Ok(ctx) => {
            let clock = ctx.rm_clock;
            if ctx.answer {
                put(Ok((1, clock)), out)
            } else {
                put(Ok((0, clock)), out)
            }
        }
        Err(refused) => put(Err(refused), out),
    }
}

// Writes the members, ascending; the lower half is how many they are. Refuses 1, 10.
pub fn gatelichen_read(image: &[u8], out: &mut [u8]) -> u64
    ensures { Replies (read_reply image.now (length out.old)) out.old result out.new }
{
    let x = reading::read(image, out);
    match x {
        Ok(read) => written(Ok(read.1)),
        Err(refused) => written(Err(refused)),
    }
}

// Writes the replica's clock; the lower half is its length. Refuses 1, 10.
pub fn gatelichen_clock(image: &[u8], out: &mut [u8]) -> u64
    ensures { Replies (clock_reply image.now (length out.old)) out.old result out.new }
{
    let x = image::clock(image);
    match x {
        Ok(clock) => put(Ok((bytes_of(clock), clock)), out),
        Err(refused) => put(Err(refused), out),
    }
}
