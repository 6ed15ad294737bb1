// Operations made as a caller makes them: from the context of a read, never from a dot or a clock of one's own.
use crate::held::{Held, applied, e, empty};
use crate::say;
use dots::{Actor, Member, Refused};
use orswot::ProposedOne;
use std::io;

// The add of 5 by actor 1, from what a read of the replica handed out.
fn add_made(h: &Held) -> Result<ProposedOne, Refused> {
    let ctx = orswot::read_ctx(h.image())?;
    orswot::add(Member(5), ctx.derive_add_ctx(Actor(1))?)
}

// The remove of 5, from what `contains` handed out.
fn rm_made(h: &Held) -> Result<ProposedOne, Refused> {
    let ctx = orswot::contains(h.image(), Member(5))?;
    orswot::rm(Member(5), ctx.derive_rm_ctx()?)
}

// What was made, applied; a refusal to make it is the answer.
fn done(h: &Held, made: Result<ProposedOne, Refused>) -> Held {
    match made {
        Ok(made) => applied(h, made.op, made.clock, &made.members),
        Err(refused) => Held {
            answer: Err(refused),
            bytes: [0; 1536],
        },
    }
}

pub fn cases(rt: &impl Print) -> io::Result<()> {
    let empty = empty();
    let e = e();
    say::whole(
        rt,
        "5 added by the context of a read: ",
        &done(&empty, add_made(&empty)),
    )?;
    say::whole(
        rt,
        "5 removed by the context of contains: ",
        &done(&e, rm_made(&e)),
    )
}
