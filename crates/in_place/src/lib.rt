// A clock that the caller holds, brought forward in place by one dot or by another clock: the by-value calls, stored.
// The two bodies are one but for the call; over a closure, each would be as long and need a clause of the closure besides.
#![tactic(auto)]

ghost use Rattle.std.specs.Prelude.{◌≡◌};
ghost use Rattle.clocks.specs.Calls.{apply_call, merge_call};
ghost use Rattle.in_place.specs.Kept.{kept, done};

use clocks::VClock;
use dots::{Dot, Refused};

// Applies a dot to the clock. Refuses 3, 6; the record then stays as it was, even a bad one.
pub fn apply_in_place(c: &mut VClock, d: Dot) -> Result<(), Refused>
    ensures says { result ≡ done (apply_call c.old d) }
    ensures clock { c.new ≡ kept c.old (apply_call c.old d) }
{
    *c = c.apply(d)?;
    Ok(())
}

// Merges another clock into the clock. Refuses 3, 6; the record then stays as it was, even a bad one.
pub fn merge_in_place(c: &mut VClock, other: VClock) -> Result<(), Refused>
    ensures says { result ≡ done (merge_call c.old other) }
    ensures clock { c.new ≡ kept c.old (merge_call c.old other) }
{
    *c = c.merge(other)?;
    Ok(())
}
