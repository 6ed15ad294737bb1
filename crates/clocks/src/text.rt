// A clock's text: its dots by ascending actor.
ghost use Rattle.std.specs.Prelude.{◌≡◌, [], eqb, Some};
ghost use Rattle.tables.specs.Table.{pick};
ghost use Rattle.clocks.specs.VClock.{dots_of};
ghost use Rattle.clocks.specs.Text.{comma, text};

use crate::VClock;
use std::fmt;

impl fmt::Display for VClock {
    ghost output = { λ c. Some (text (dots_of c)) };

    fn fmt<W: fmt::Write>(&self, f: &mut fmt::Formatter<W>) -> fmt::Result {
        write!(f, "<")?;
        for (i, d) in self.dots[..self.len.min(16)].iter().enumerate() {
            let actor = d.actor.0;
            let counter = d.counter;
            write!(f, "{}{actor}:{counter}", before(i))?;
        }
        write!(f, ">")
    }
}

// What stands before the i-th dot.
fn before(i: usize) -> &'static str
    ensures { result.now ≡ pick (eqb i 0) [] comma }
{
    if i == 0 { "" } else { ", " }
}
