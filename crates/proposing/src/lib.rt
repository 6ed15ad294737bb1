// Operations before they are applied (src/orswot.rs of the crate): made from a context by `add`, `add_all`, `rm` and `rm_all`, and judged against a
// replica by `validate_op`. What is made is what `apply` takes: the operation, the clock beside it, and where it is of one member the list of it.
#![tactic(auto)]

ghost use Rattle.std.specs.Prelude.{◌≡◌};
ghost use Rattle.operations.specs.Calls.{validate_op_call};
ghost use Rattle.dots.specs.Answers.{answer};
ghost use Rattle.proposing.specs.Calls.{number, of_one, add_call, add_all_call, rm_call, rm_all_call};

use clocks::VClock;
use contexts::{AddCtx, RmCtx};
use dots::{Member, OpRefused, Refused};
use image::check;
use operations::Op;

// An operation whose members the caller lists, with the clock beside it.
#[derive(Clone, Copy)]
pub struct Proposed {
    pub op: Op,
    pub clock: VClock,
}

// The same for an operation of one member.
#[derive(Clone, Copy)]
pub struct ProposedOne {
    pub op: Op,
    pub clock: VClock,
    pub members: [u32; 1],
}

// The add of one member by the context's dot. Refuses 3.
pub fn add(member: Member, ctx: AddCtx) -> Result<ProposedOne, Refused>
    ensures { result ≡ add_call member.0 ctx }
{
    Ok(of_one(member, add_all(ctx)?))
}

// The add of members, listed beside it, by the context's dot. Refuses 3.
pub fn add_all(ctx: AddCtx) -> Result<Proposed, Refused>
    ensures { result ≡ add_all_call ctx }
{
    let op = Op::Add(ctx.dot);
    let clock = VClock::new();
    where_fit(ctx.clock, Proposed { op, clock })
}

// The remove of one member by the context's clock. Refuses 3.
pub fn rm(member: Member, ctx: RmCtx) -> Result<ProposedOne, Refused>
    ensures { result ≡ rm_call member.0 ctx }
{
    Ok(of_one(member, rm_all(ctx)?))
}

// The remove of members, listed beside it, by the context's clock. Refuses 3.
pub fn rm_all(ctx: RmCtx) -> Result<Proposed, Refused>
    ensures { result ≡ rm_all_call ctx }
{
    let op = Op::Remove;
    let clock = ctx.clock;
    where_fit(clock, Proposed { op, clock })
}

// What is made, where the clock of its context is a good one. Refuses 3.
fn where_fit(known: VClock, made: Proposed) -> Result<Proposed, Refused>
    ensures { result ≡ answer (number known) made }
{
    if known.is_normalised() {
        Ok(made)
    } else {
        Err(Refused::BadClock)
    }
}

// An operation of one member.
fn of_one(member: Member, a: Proposed) -> ProposedOne
    ensures { result ≡ of_one member.0 a }
{
    ProposedOne {
        op: a.op,
        clock: a.clock,
        members: [member.0],
    }
}

// Whether an operation may be applied: an add's dot is judged against the replica's clock, and every remove is granted. Refuses 1, 3, 4; then 11.
pub fn validate_op(img: &[u8], op: Op, clock: VClock, members: &[u32]) -> Result<(), OpRefused>
    ensures { result ≡ validate_op_call img.now op clock members.now }
{
    let x = check(img).ok_or(Refused::BadImage)?;
    if !clock.is_normalised() {
        return Err(Refused::BadClock.into());
    }
    if members.len() > 64 {
        return Err(Refused::LongList.into());
    }
    match op {
        Op::Add(d) => x.clock.validate_op(d),
        Op::Remove => Ok(()),
    }
}
