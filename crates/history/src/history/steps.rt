// Recording calls and replies.
ghost use Rattle.std.specs.Prelude.{◌≡◌, ◌<◌, ◌≤◌, [], ◌∷◌, ◌++◌, length, OnErr, slice_set};
ghost use Rattle.history.specs.declared.operations.Action.TheVariants.{Call as calling, Reply as replying};
ghost use Rattle.history.specs.declared.operations.HistoryFault.{HistoryFault};
ghost use Rattle.history.specs.Limits.{limit};
ghost use Rattle.history.specs.Log.{at, opened, answered};
ghost use Rattle.history.specs.Order.{Precedes, Lawful};
ghost use Rattle.history.specs.Recorded.{log};
ghost use Rattle.history.specs.Refusals.{CallMeets};
ghost use Rattle.history.specs.Steps.{Step};

use crate::bounded::BoundedList;
use crate::history::History;
use crate::limits::LIMIT;
use crate::operations::{Call, HistoryFault, Operation};
use crate::opset::OpSet;

impl History {
    // A history without operations.
    #[tactic(auto, using(crate::proofs::Keeping::none_kept))]
    pub fn new() -> History
        ensures { log result ≡ [] }
    {
        History {
            operations: BoundedList::new(),
            before: [OpSet::default(); LIMIT],
        }
    }

    // The operations, in the order of their numbers.
    #[tactic(auto, using(crate::proofs::Orders::lawful))]
    pub fn operations(&self) -> &[Operation]
        ensures all { result.now ≡ log self.now }
        ensures few { length result.now ≤ limit }
        ensures lawful { Lawful (log self.now) }
    {
        self.operations.as_slice()
    }

    // The set of the operations that happen before operation y; empty where there is no operation y.
    pub fn before(&self, y: usize) -> OpSet
        ensures { Precedes (log self.now) y result.bits }
    {
        self.kept(y)
    }

    // Records a call, unless it is refused; then nothing changes.
    pub fn call(&mut self, call: Call) -> Result<(), HistoryFault>
        ensures step { Step (log self.old) (calling call) result (log self.new) }
        ensures whole { OnErr result (self.new ≡ self.old) }
    {
        self.may_call(call)?;
        *self = self.with_call(call);
        Ok(())
    }

    // Records the reply, a tag and a value, to the open call of a thread, unless it is refused; then nothing changes.
    pub fn reply(&mut self, thread: u8, reply: (u8, u16)) -> Result<(), HistoryFault>
        ensures step { Step (log self.old) (replying thread reply) result (log self.new) }
        ensures whole { OnErr result (self.new ≡ self.old) }
    {
        let x = self.may_reply(thread, reply)?;
        *self = self.with_reply(x, reply);
        Ok(())
    }

    // Forgets all operations.
    pub fn clear(&mut self)
        ensures { log self.new ≡ [] }
    {
        *self = History::new();
    }

    // The history with a call more.
    fn with_call(self, call: Call) -> History
        requires { (f : HistoryFault) → CallMeets limit (log self) call f → ⊥ }
        ensures { log result ≡ log self ++ opened call ∷ [] }
    {
        let mut before = self.before;
        before[self.operations().len()] = self.before_call(call);
        History {
            operations: self.operations.with(Operation { call, reply: None }),
            before,
        }
    }

    // The history with the reply of operation x.
    fn with_reply(self, x: usize, reply: (u8, u16)) -> History
        requires { x < length (log self) }
        ensures { log result ≡ slice_set (log self) x (answered (at (log self) x) reply) }
    {
        let answered = Operation {
            reply: Some(reply),
            ..self.operations()[x]
        };
        History {
            operations: self.operations.replaced(x, answered),
            before: self.before,
        }
    }
}
