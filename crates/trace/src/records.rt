// What one record of a trace says, and why one is refused.
ghost use Rattle.std.proofs.Common.{arith};
ghost use Rattle.std.specs.Prelude.{◌≡◌, Some};
ghost use Rattle.trace.specs.declared.records.ReadFault.TheVariants.{BadLetter};
ghost use Rattle.trace.specs.Names.{reason};
ghost use Rattle.trace.specs.Refusals.{number as refusal};

use crate::letters::{CriterionChoice, Level, ObjectChoice, UnknownLetter};
use faults::Fault;
use std::error::Error;
use std::fmt;

// One record, with its fields as they stand in the trace.
#[derive(Clone, Copy, Debug)]
pub enum Record<'a> {
    // A thread makes a call of some kind with arguments a and b, after the operations whose bits are set.
    Call {
        thread: u8,
        kind: u8,
        a: u16,
        b: u16,
        after: u16,
    },
    // A thread gets the reply to its call.
    Reply {
        thread: u8,
        tag: u8,
        value: u16,
    },
    // The calls are on this object.
    Object(ObjectChoice),
    // The check is against this criterion.
    Criterion(CriterionChoice),
    // Calls of this kind have this level.
    Level {
        kind: u8,
        level: Level,
    },
    // A text for people, borrowed from the trace.
    Note(&'a [u8]),
}

// A record, with the place of its first byte.
#[derive(Clone, Copy, Debug)]
pub struct Placed<'a> {
    pub at: usize,
    pub record: Record<'a>,
}

// Why a place of a trace is refused, in checking order.
#[derive(Clone, Copy, Debug, PartialEq, Eq)]
pub enum ReadFault {
    OneByteLeft,
    UnknownMark,
    PastEnd,
    BadLetter,
}

impl Fault for ReadFault {
    ghost number_of = { refusal };

    ghost distinct = { λ f g e. Prim.grind arith };

    fn number(self) -> u8 {
        match self {
            ReadFault::OneByteLeft => 3,
            ReadFault::UnknownMark => 4,
            ReadFault::PastEnd => 5,
            ReadFault::BadLetter => 6,
        }
    }
}

impl ReadFault {
    // The reason in words.
    fn words(self) -> &'static str
        ensures { result.now ≡ reason self }
    {
        match self {
            ReadFault::OneByteLeft => "a single byte is left",
            ReadFault::UnknownMark => "no record has this mark",
            ReadFault::PastEnd => "the trace ends inside this record",
            ReadFault::BadLetter => "an unknown letter, or a level for a kind above 7",
        }
    }
}

impl fmt::Display for ReadFault {
    ghost output = { λ f. Some (reason f) };

    fn fmt<W: fmt::Write>(&self, f: &mut fmt::Formatter<W>) -> fmt::Result {
        f.write_str(self.words())
    }
}

impl Error for ReadFault {}

impl From<UnknownLetter> for ReadFault {
    ghost from_gives = { λ _ f. f ≡ BadLetter };

    fn from(_letter: UnknownLetter) -> ReadFault {
        Self::BadLetter
    }
}

// A refusal, with the place that was refused.
#[derive(Clone, Copy, Debug, PartialEq, Eq)]
pub struct Refusal {
    pub at: usize,
    pub fault: ReadFault,
}
