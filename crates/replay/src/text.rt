// A file's lines: fields parted by one space, each in hex, or - for what is empty.
ghost use Rattle.std.specs.Prelude.{◌<◌, ◌≤◌, length};
ghost use Rattle.std.specs.Counts.{IsPrefixLen};

use std::io::{Read, Seek, SeekFrom};

// Reads a file from a place on, as far as the buffer goes, and answers how many bytes of whole lines there are.
pub(crate) fn lines_from<F: Read + Seek>(file: &mut F, at: u32, buf: &mut [u8]) -> usize
    ensures { IsPrefixLen result buf.new }
{
    if file.seek(SeekFrom::Start(u64::from(at))).is_err() {
        return 0;
    }
    match file.read(buf) {
        Ok(got) => whole(&buf[..got]),
        Err(_) => 0,
    }
}

// The place after the last line end.
fn whole(s: &[u8]) -> usize
    ensures { result ≤ length s.now }
{
    let rest = s.iter().rev().position(|b| *b == b'\n');
    rest.map_or(0, |rest| s.len() - rest)
}

// The field of a line that so many others stand before; empty where there are fewer.
pub(crate) fn field(line: &[u8], before: usize) -> &[u8] {
    line.split(|b| *b == b' ').nth(before).unwrap_or(&[])
}

fn digit(b: u8) -> u8
    ensures { result < 16 }
{
    match b {
        b'0'..=b'9' => b - b'0',
        b'a'..=b'f' => b - b'a' + 10,
        _ => 0,
    }
}

// The number that hex digits say, of 64 bits.
pub(crate) fn number(hex: &[u8]) -> u64 {
    hex.iter().fold(
        0,
        |n: u64, b| n % 1152921504606846976 * 16 + u64::from(digit(*b)),
    )
}

// The same of 32 bits.
pub(crate) fn number32(hex: &[u8]) -> u32 {
    (number(hex) % 4294967296) as u32
}

// The same, or `most` where it is more.
pub(crate) fn number_up_to(hex: &[u8], most: usize) -> usize
    ensures { result ≤ most }
{
    most.min(number(hex) as usize)
}

// Writes the bytes that hex digits say, as far as the output goes, and answers how many they are.
pub(crate) fn bytes(hex: &[u8], out: &mut [u8]) -> usize
    ensures { IsPrefixLen result out.new }
{
    let (pairs, _) = hex.as_chunks::<2>();
    for (byte, [high, low]) in out.iter_mut().zip(pairs) {
        *byte = digit(*high) * 16 + digit(*low);
    }
    out.len().min(pairs.len())
}

// Writes the 32-bit numbers that 8 hex digits each say.
pub(crate) fn members(hex: &[u8], out: &mut [u32]) -> usize
    ensures { IsPrefixLen result out.new }
{
    for (member, digits) in out.iter_mut().zip(hex.chunks_exact(8)) {
        *member = number32(digits);
    }
    out.len().min(hex.len() / 8)
}

// Whether the first bytes are these, and each later one is the mark.
pub(crate) fn holds(s: &[u8], first: &[u8], mark: u8) -> bool {
    match s.strip_prefix(first) {
        Some(rest) => rest.iter().all(|b| *b == mark),
        None => false,
    }
}
