// Little-endian numbers in bytes. A byte past the end reads as 0, and is not written: no reader or writer asks for room.
#![tactic(auto)]

ghost use Rattle.std.specs.Prelude.{◌≡◌, ◌+◌, ◌*◌, ◌<◌, ◌≤◌, leb, length, get_or, set};
ghost use Rattle.std.proofs.lemmas.List.Edits.{sets};
ghost use Rattle.layout.specs.Fields.{u16_at, u32_at, u64_at, le32, le64};

// A 32-bit number as a place or a count. Its callers learn that it is below 2^32.
pub fn index(x: u32) -> usize
    ensures { (result ≡ x) × (result < 4294967296) }
{
    x as usize
}

// Whether n bytes from a place on lie inside. The first test is of the length alone, so that a loop that reads asks it once.
fn room(s: &[u8], at: usize, n: usize) -> bool
    ensures { result ≡ leb (at + n) (length s.now) }
{
    n <= s.len() && at <= s.len() - n
}

// The byte k after a place; 0 past the end.
fn byte_after(s: &[u8], at: usize, k: usize) -> u8
    ensures { result ≡ get_or s.now (at + k) 0 }
{
    s.get(at.saturating_add(k)).copied().unwrap_or(0)
}

// Four bytes that lie inside.
fn load(s: &[u8], at: usize) -> u32
    requires { at + 4 ≤ length s.now }
    ensures { result ≡ u32_at s.now at }
{
    u32::from_le_bytes([s[at], s[at + 1], s[at + 2], s[at + 3]])
}

// Four bytes that may lie past the end.
fn load_edge(s: &[u8], at: usize, k: usize) -> u32
    requires { k ≤ 4 }
    ensures { result ≡ u32_at s.now (at + k) }
{
    u32::from_le_bytes([
        byte_after(s, at, k),
        byte_after(s, at, k + 1),
        byte_after(s, at, k + 2),
        byte_after(s, at, k + 3),
    ])
}

// The 16-bit number at a place.
pub fn u16_at(s: &[u8], at: usize) -> u32
    ensures { result ≡ u16_at s.now at }
{
    u32::from(u16::from_le_bytes([byte_after(s, at, 0), byte_after(s, at, 1)]))
}

// The 32-bit number at a place.
pub fn u32_at(s: &[u8], at: usize) -> u32
    ensures { result ≡ u32_at s.now at }
{
    if room(s, at, 4) {
        load(s, at)
    } else {
        load_edge(s, at, 0)
    }
}

// The 64-bit number at a place.
pub fn u64_at(s: &[u8], at: usize) -> u64
    ensures { result ≡ u64_at s.now at }
{
    if room(s, at, 8) {
        (load(s, at) as u64) + (load(s, at + 4) as u64) * 4294967296
    } else {
        (load_edge(s, at, 0) as u64) + (load_edge(s, at, 4) as u64) * 4294967296
    }
}

// Writes the byte k after a place.
fn put_after(s: &mut [u8], at: usize, k: usize, v: u8)
    ensures { s.new ≡ set s.old (at + k) v }
{
    let place = at.saturating_add(k);
    if place < s.len() {
        s[place] = v;
    }
}

// Writes four bytes that lie inside.
fn store(s: &mut [u8], at: usize, v: u32)
    requires { at + 4 ≤ length s.old }
    ensures { s.new ≡ sets s.old at (le32 v) }
{
    s[at..at + 4].copy_from_slice(&v.to_le_bytes());
}

// Writes four bytes that may lie past the end.
fn store_edge(s: &mut [u8], at: usize, k: usize, v: u32)
    requires { k ≤ 4 }
    ensures { s.new ≡ sets s.old (at + k) (le32 v) }
{
    let [a, b, c, d] = v.to_le_bytes();
    put_after(s, at, k, a);
    put_after(s, at, k + 1, b);
    put_after(s, at, k + 2, c);
    put_after(s, at, k + 3, d);
}

// Writes a 32-bit number.
pub fn put_u32(s: &mut [u8], at: usize, v: u32)
    ensures { s.new ≡ sets s.old at (le32 v) }
{
    if room(s, at, 4) {
        store(s, at, v);
    } else {
        store_edge(s, at, 0, v);
    }
}

// Writes a 64-bit number.
pub fn put_u64(s: &mut [u8], at: usize, v: u64)
    ensures { s.new ≡ sets s.old at (le64 v) }
{
    if room(s, at, 8) {
        store(s, at, (v % 4294967296) as u32);
        store(s, at + 4, (v / 4294967296) as u32);
    } else {
        store_edge(s, at, 0, (v % 4294967296) as u32);
        store_edge(s, at, 4, (v / 4294967296) as u32);
    }
}
