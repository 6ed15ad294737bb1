// Rows in bytes, as two hands walk along them: the place of the next one, and how many are left.
ghost use Rattle.std.specs.Prelude.{◌≡◌, ◌+◌, ◌<◌, min};
ghost use Rattle.merging.specs.Ahead.{key_ahead, Met};

// How many rows a walk steps past at a key: 1 where the next has it, and 0 where it hasn't or nothing is left. The step is added to the place and
// taken off what is left, and so it is a number.
pub(crate) fn meets(s: &[u8], at: usize, left: usize, key: u32) -> usize
    ensures { Met s.now at left key result }
{
    if left == 0 {
        return 0;
    }
    if fields::u32_at(s, at) == key { 1 } else { 0 }
}

// The lower of the keys ahead of two hands, of which one at least has rows left.
pub(crate) fn lowest(s: &[u8], p: usize, m: usize, t: &[u8], q: usize, k: usize) -> u32
    requires { 0 < m + k }
    ensures { (result ≡ min (key_ahead s.now p m) (key_ahead t.now q k)) × (result < 4294967296) }
{
    if k == 0 {
        return fields::u32_at(s, p);
    }
    if m == 0 {
        return fields::u32_at(t, q);
    }
    fields::u32_at(s, p).min(fields::u32_at(t, q))
}
