// Prints words, numbers and images.
use crate::held::Held;
use dots::{OpRefused, Refused};
use std::io;

// The number that stands for an answer, and the length: 0 where a call refused.
fn figures(rt: &impl Print, w: &str, answer: Result<usize, Refused>) -> io::Result<()> {
    match answer {
        Ok(len) => print!(rt; "{w}0 {len}"),
        Err(refused) => print!(rt; "{w}{} 0", refused.number()),
    }
}

// Two digits a byte, in groups of four bytes.
fn hex(rt: &impl Print, s: &[u8]) -> io::Result<()> {
    for group in s.chunks(4) {
        rt.print(" ")?;
        for byte in group {
            print!(rt; "{byte:02x}")?;
        }
    }
    Ok(())
}

// The number and the length alone.
pub fn short(rt: &impl Print, w: &str, h: &Held) -> io::Result<()> {
    figures(rt, w, h.answer)?;
    rt.print("\n")
}

// The number, the length and the image.
pub fn whole(rt: &impl Print, w: &str, h: &Held) -> io::Result<()> {
    lent(rt, w, h.answer, h.image())
}

// The number, the length and the bytes that were lent to a call.
pub fn lent(
    rt: &impl Print,
    w: &str,
    answer: Result<usize, Refused>,
    bytes: &[u8],
) -> io::Result<()> {
    figures(rt, w, answer)?;
    hex(rt, bytes)?;
    rt.print("\n")
}

// What `validate_op` says of an operation.
pub fn validation(rt: &impl Print, w: &str, v: Result<(), OpRefused>) -> io::Result<()> {
    match v {
        Ok(()) => println!(rt; "{w}0"),
        Err(OpRefused::Refused(refused)) => println!(rt; "{w}{}", refused.number()),
        Err(OpRefused::Gap(gap)) => println!(rt; "{w}11, start {}, end {}", gap.start, gap.end),
    }
}
