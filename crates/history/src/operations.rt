// What is recorded: calls, operations, and what may be done to a history.
ghost use Rattle.std.proofs.Common.{arith};
ghost use Rattle.std.specs.Prelude.{◌≡◌};
ghost use Rattle.history.specs.declared.operations.HistoryFault.TheVariants.{BadReply};
ghost use Rattle.history.specs.Refusals.{number as refusal};

use crate::answers::UnknownAnswer;
use crate::opset::OpSet;
use faults::Fault;

// A call by a thread: its kind, its arguments, and the operations that it names as having ended before it.
#[derive(Clone, Copy, Debug, Default, PartialEq)]
pub struct Call {
    pub thread: u8,
    pub kind: u8,
    pub a: u16,
    pub b: u16,
    pub after: OpSet,
}

// A call with its reply, a tag and a value; it is open while it has none.
#[derive(Clone, Copy, Debug, Default, PartialEq)]
pub struct Operation {
    pub call: Call,
    pub reply: Option<(u8, u16)>,
}

// What can be done to a history.
#[derive(Clone, Copy, Debug, PartialEq)]
pub enum Action {
    Call(Call),
    Reply { thread: u8, reply: (u8, u16) },
    Clear,
}

// Why a call or a reply is refused, in checking order.
#[derive(Clone, Copy, Debug, PartialEq, Eq)]
pub enum HistoryFault {
    UnknownThread,
    Full,
    ThreadBusy,
    AfterAbsent,
    AfterOpen,
    NoOpenCall,
    BadReply,
}

impl Fault for HistoryFault {
    ghost number_of = { refusal };

    ghost distinct = { λ f g e. Prim.grind arith };

    fn number(self) -> u8 {
        match self {
            HistoryFault::UnknownThread => 7,
            HistoryFault::Full => 8,
            HistoryFault::ThreadBusy => 9,
            HistoryFault::AfterAbsent => 10,
            HistoryFault::AfterOpen => 11,
            HistoryFault::NoOpenCall => 12,
            HistoryFault::BadReply => 13,
        }
    }
}

impl From<UnknownAnswer> for HistoryFault {
    ghost from_gives = { λ _ f. f ≡ BadReply };

    fn from(_reply: UnknownAnswer) -> HistoryFault {
        Self::BadReply
    }
}

// An action, and the answer to it once it has been taken.
#[derive(Clone, Copy, Debug, PartialEq)]
pub struct Attempt {
    pub action: Action,
    pub answer: Option<Result<(), HistoryFault>>,
}
