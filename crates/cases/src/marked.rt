// The marked cases.
use crate::held::{Held, added, dot, e, empty, merged, moved, one, removed, reset, two};
use crate::say;
use clocks::VClock;
use orswot::Op;
use std::io;

pub fn first_cases(rt: &impl Print) -> io::Result<()> {
    let e = e();
    say::whole(rt, "5. Empty replica, add 1.1 of 5: ", &e)?;
    judged(rt, &e)?;
    say::whole(rt, "6. E, add 1.3 of 6: ", &added(&e, 1, 3, 6))
}

// What `validate_op` says of case 6's add.
fn judged(rt: &impl Print, h: &Held) -> io::Result<()> {
    let v = orswot::validate_op(h.image(), Op::Add(dot(1, 3)), VClock::new(), &[6]);
    say::validation(rt, "6. validate_op had said: ", v)
}

fn seven() -> Held {
    removed(&e(), two(1, 1, 2, 2), 5)
}

fn eight() -> Held {
    added(&seven(), 2, 1, 5)
}

pub fn waiting_cases(rt: &impl Print) -> io::Result<()> {
    say::whole(rt, "7. E, remove 5 by {1:1,2:2}: ", &seven())?;
    say::whole(rt, "8. Then add 2.1 of 5: ", &eight())?;
    say::whole(rt, "9. Then add 2.3 of 5: ", &added(&eight(), 2, 3, 5))
}

// V {1:1,2:1} with 5 {1:1}.
fn ours() -> Held {
    moved(&e(), 2, 1)
}

// The same V and 5 {2:1}.
fn theirs() -> Held {
    added(&moved(&empty(), 1, 1), 2, 1, 5)
}

pub fn merge_cases(rt: &impl Print) -> io::Result<()> {
    say::whole(
        rt,
        "10. V {1:1,2:1} with 5 {1:1}, merged with the same V and 5 {2:1}: ",
        &merged(&ours(), &theirs()),
    )?;
    say::whole(
        rt,
        "11. E merged with V {2:1}, 5 {2:1}: ",
        &merged(&e(), &added(&empty(), 2, 1, 5)),
    )
}

// V {2:5}, waiting {1:2,2:3} on 5, reset by {1:2}.
fn twelve() -> Held {
    let waiting = removed(&moved(&empty(), 2, 5), two(1, 2, 2, 3), 5);
    reset(&waiting, one(1, 2))
}

// V {}, waiting {1:1,2:2} on 5 and {1:2,2:2} on 6, reset by {1:2}.
fn thirteen() -> Held {
    let first = removed(&empty(), two(1, 1, 2, 2), 5);
    reset(&removed(&first, two(1, 2, 2, 2), 6), one(1, 2))
}

pub fn reset_cases(rt: &impl Print) -> io::Result<()> {
    say::whole(
        rt,
        "12. V {2:5}, waiting {1:2,2:3} on 5, reset by {1:2}: ",
        &twelve(),
    )?;
    say::whole(
        rt,
        "12. merged with itself: ",
        &merged(&twelve(), &twelve()),
    )?;
    say::whole(
        rt,
        "13. V {}, waiting {1:1,2:2} on 5 and {1:2,2:2} on 6, reset by {1:2}: ",
        &thirteen(),
    )
}
