// What a call refuses with: the refusals by number, and the gap, which `validate_op` alone gives.

ghost use Rattle.std.specs.Prelude.{◌≡◌, Some};
ghost use Rattle.dots.specs.Answers.{number, op_number};
ghost use Rattle.dots.specs.Words.{refused_text, op_refused_text};
ghost use Rattle.dots.specs.declared.refusals.OpRefused.TheVariants.{Refused as RefusedWith};

use crate::DotRange;
use std::error::Error;
use std::fmt;

// The refusals in the order in which they are judged: the lowest number that applies is given.
#[derive(Clone, Copy, Debug, PartialEq, Eq)]
pub enum Refused {
    BadImage,
    BadSecond,
    BadClock,
    LongList,
    LastCounter,
    ManyActors,
    ManyEntries,
    ManyWaits,
    ManyNamed,
    ShortOutput,
}

// What `validate_op` says of an operation that may not be applied: a refusal, or the dots that are missing before it.
#[derive(Clone, Copy, Debug, PartialEq, Eq)]
pub enum OpRefused {
    Refused(Refused),
    Gap(DotRange),
}

impl Refused {
    // The refusal's number, from 1 to 10.
    pub fn number(self) -> u32
        ensures { result ≡ number self }
    {
        match self {
            Refused::BadImage => 1,
            Refused::BadSecond => 2,
            Refused::BadClock => 3,
            Refused::LongList => 4,
            Refused::LastCounter => 5,
            Refused::ManyActors => 6,
            Refused::ManyEntries => 7,
            Refused::ManyWaits => 8,
            Refused::ManyNamed => 9,
            Refused::ShortOutput => 10,
        }
    }
}

impl OpRefused {
    // The refusal's number; 11 for a gap.
    pub fn number(self) -> u32
        ensures { result ≡ op_number self }
    {
        match self {
            OpRefused::Refused(refused) => refused.number(),
            OpRefused::Gap(_) => 11,
        }
    }
}

impl From<Refused> for OpRefused {
    ghost from_gives = { λ r e. e ≡ RefusedWith r };

    fn from(refused: Refused) -> OpRefused {
        OpRefused::Refused(refused)
    }
}

impl fmt::Display for Refused {
    ghost output = { λ r. Some (refused_text r) };

    fn fmt<W: fmt::Write>(&self, f: &mut fmt::Formatter<W>) -> fmt::Result {
        f.write_str(match self {
            Refused::BadImage => "the image is not one of a replica",
            Refused::BadSecond => "the second image is not one of a replica",
            Refused::BadClock => "a clock is not normalised or has over 16 actors",
            Refused::LongList => "a list of members is too long",
            Refused::LastCounter => "the last counter has no successor",
            Refused::ManyActors => "the clock would have over 16 actors",
            Refused::ManyEntries => "the replica would have over 64 entries",
            Refused::ManyWaits => "over 16 removes would wait",
            Refused::ManyNamed => "the waiting removes would name too many members",
            Refused::ShortOutput => "the output is too short",
        })
    }
}

// The missing dots are a range as Rust writes it: its end isn't one of them.
impl fmt::Display for OpRefused {
    ghost output = { λ r. Some (op_refused_text r) };

    fn fmt<W: fmt::Write>(&self, f: &mut fmt::Formatter<W>) -> fmt::Result {
        match self {
            OpRefused::Refused(refused) => write!(f, "{}", refused),
            OpRefused::Gap(range) => write!(
                f,
                "dots {}..{} of actor {} are missing",
                range.start, range.end, range.actor.0
            ),
        }
    }
}

impl Error for Refused {}

impl Error for OpRefused {}
