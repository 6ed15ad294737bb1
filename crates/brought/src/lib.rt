// What an operation brings, in bytes.
#![tactic(auto)]

ghost use Rattle.std.specs.Prelude.{◌≡◌};
ghost use Rattle.fields.specs.Read.{Put};
ghost use Rattle.brought.specs.Brought.{counted_members};

use lists::Members;

// Writes how many the members are, then the members, and returns how many bytes that takes.
pub fn put_members(s: &mut [u8], at: usize, m: Members) -> usize
    ensures { Put s.old at (counted_members m) s.new result }
{
    fields::put_members(s, at, &m.at[..m.len.min(64)])
}
