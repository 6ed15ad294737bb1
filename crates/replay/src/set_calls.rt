// The calls over images, as C makes them.
use crate::room::{LENT, ZEROS, left};
use crate::text::{bytes, field, members, number, number_up_to, number32};

// What a line says of a call's arguments: two images, or an image and a clock, an actor or a member, a counter and members.
#[derive(Clone, Copy)]
pub(crate) struct Arguments<'a> {
    pub(crate) image: &'a [u8],
    pub(crate) other: &'a [u8],
    pub(crate) number: u32,
    pub(crate) counter: u64,
    pub(crate) members: &'a [u32],
}

// Makes a line's call: `name image other number counter members room refusal length output`. The output is lent full of one byte, so that a byte that the
// call shouldn't write is seen.
pub(crate) fn agrees<F: Fn(&Arguments<'_>, &mut [u8]) -> u64>(line: &[u8], call: &F) -> bool
    requires { F.IsAlwaysCallable call.now }
{
    let mut image = ZEROS;
    let n = bytes(field(line, 1), &mut image);
    let mut other = ZEROS;
    let m = bytes(field(line, 2), &mut other);
    let mut list = [0u32; 128];
    let k = members(field(line, 5), &mut list);
    let arguments = Arguments {
        image: &image[..n],
        other: &other[..m],
        number: number32(field(line, 3)),
        counter: number(field(line, 4)),
        members: &list[..k],
    };
    let mut out = LENT;
    let room = number_up_to(field(line, 6), 8192);
    let answer = call(&arguments, &mut out[..room]);
    let mut expected = ZEROS;
    let e = bytes(field(line, 9), &mut expected);
    answer / 4294967296 == number(field(line, 7))
        && answer % 4294967296 == number(field(line, 8))
        && left(&out, &expected[..e])
}
