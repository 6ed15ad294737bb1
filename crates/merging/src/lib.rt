// Replica images: two merged, one changed by an operation, one reset.
#![tactic(auto)]

ghost use Rattle.replica.specs.Limits.{full};
ghost use Rattle.results.specs.Call.{Meets};
ghost use Rattle.merging.specs.Merge.{merge_call};

use crate::draft::drafted;
use dots::Refused;

mod ahead;
mod applying;
mod draft;
mod entries;
mod reset;
mod side;
mod sifting;
mod waits;

pub use applying::apply;
pub use reset::reset_remove;

// The merge of two replicas, written from byte 0. Refuses 1, 2; then 6, 7, 8, 9 on the finished result; then 10.
pub fn merge(a: &[u8], b: &[u8], out: &mut [u8]) -> Result<usize, Refused>
    ensures { Meets full (merge_call a.now b.now) out.old result out.new }
{
    let x = image::check(a).ok_or(Refused::BadImage)?;
    let y = image::check(b).ok_or(Refused::BadSecond)?;
    let v = x.clock.merge(y.clock)?;
    let mut body = [0u8; 18268];
    let d = drafted(a, &x, b, &y, v, y.waits, v, &mut body);
    results::finish(v, d, &body, out)
}
