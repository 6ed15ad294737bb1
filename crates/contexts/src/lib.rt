// Contexts (src/ctx.rs of the crate): what a read hands out, and what an add or a remove is made from. Each call judges both clocks of a read context, used or not.
#![tactic(auto)]

ghost use Rattle.std.specs.Prelude.{◌≡◌, [], ◌∷◌};
ghost use Rattle.clocks.specs.Calls.{judged};
ghost use Rattle.contexts.specs.Contexts.{add_ctx_call, rm_ctx_call, split_call};

use clocks::VClock;
use dots::{Actor, Dot, Refused};

// Where a read stands: the clock that an add goes by, the clock that a remove goes by, and whether the member asked for is there.
#[derive(Clone, Copy)]
pub struct ReadCtx {
    pub add_clock: VClock,
    pub rm_clock: VClock,
    pub answer: bool,
}

#[derive(Clone, Copy)]
pub struct AddCtx {
    pub clock: VClock,
    pub dot: Dot,
}

#[derive(Clone, Copy)]
pub struct RmCtx {
    pub clock: VClock,
}

impl ReadCtx {
    // The actor's next dot by the add clock, and the add clock with it applied. Refuses 3, 5, 6.
    pub fn derive_add_ctx(self, actor: Actor) -> Result<AddCtx, Refused>
        ensures { result ≡ add_ctx_call self actor.0 }
    {
        let clock = self.judged()?.add_clock;
        let dot = clock.inc(actor)?;
        let clock = clock.apply(dot)?;
        Ok(AddCtx { clock, dot })
    }

    // The remove clock. Refuses 3.
    pub fn derive_rm_ctx(self) -> Result<RmCtx, Refused>
        ensures { result ≡ rm_ctx_call self }
    {
        let clock = self.judged()?.rm_clock;
        Ok(RmCtx { clock })
    }

    // The answer, and the context without it. Refuses 3.
    pub fn split(self) -> Result<(bool, ReadCtx), Refused>
        ensures { result ≡ split_call self }
    {
        let ctx = self.judged()?;
        let rest = ReadCtx {
            answer: false,
            ..ctx
        };
        Ok((ctx.answer, rest))
    }

    // The context, where both clocks are normalised. Refuses 3.
    fn judged(self) -> Result<ReadCtx, Refused>
        ensures { result ≡ judged (self.add_clock ∷ self.rm_clock ∷ []) self }
    {
        if self.add_clock.is_normalised() && self.rm_clock.is_normalised() {
            Ok(self)
        } else {
            Err(Refused::BadClock)
        }
    }
}
