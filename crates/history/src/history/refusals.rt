// Whether a call or a reply is refused, and why.
ghost use Rattle.std.specs.Prelude.{◌<◌, ◌≤◌, length, Decides, MatchOption};
ghost use Rattle.history.specs.Limits.{limit, last_thread};
ghost use Rattle.history.specs.Log.{By, Open, Busy};
ghost use Rattle.history.specs.Recorded.{log};
ghost use Rattle.history.specs.Refusals.{CallMeets, Judged, JudgedOpen, NamesAbsent, NamesOpen};

use crate::answers::Answer;
use crate::history::History;
use crate::limits::{LAST_THREAD, LIMIT};
use crate::operations::{Call, HistoryFault};
use crate::opset::OpSet;

// Whether there is no such thread.
fn is_unknown(thread: u8) -> bool
    ensures { Decides result (last_thread < thread) }
{
    thread > LAST_THREAD
}

impl History {
    // Whether there is no place for another operation.
    fn is_full(&self) -> bool
        ensures { Decides result (limit ≤ length (log self.now)) }
    {
        self.operations().len() >= LIMIT
    }

    // The open operation of a thread.
    fn open_operation(&self, thread: u8) -> Option<usize>
        ensures { MatchOption result (Busy (log self.now) thread → ⊥) (λ x. By (log self.now) thread x × Open (log self.now) x) }
    {
        self.open_operations()
            .intersection(self.operations_of(thread))
            .iter()
            .next()
    }

    // Whether an after field names a number that no operation has.
    fn names_absent(&self, after: OpSet) -> bool
        ensures { Decides result (NamesAbsent (log self.now) after) }
    {
        after.iter_from(self.operations().len()).next().is_some()
    }

    // Whether an after field names an open operation.
    fn names_open(&self, after: OpSet) -> bool
        ensures { Decides result (NamesOpen (log self.now) after) }
    {
        after
            .intersection(self.open_operations())
            .iter()
            .next()
            .is_some()
    }

    // Whether a call is accepted; else the first reason against it.
    pub(super) fn may_call(&self, call: Call) -> Result<(), HistoryFault>
        ensures { Judged (CallMeets limit (log self.now) call) result }
    {
        if is_unknown(call.thread) {
            return Err(HistoryFault::UnknownThread);
        }
        if self.is_full() {
            return Err(HistoryFault::Full);
        }
        if self.open_operation(call.thread).is_some() {
            return Err(HistoryFault::ThreadBusy);
        }
        if self.names_absent(call.after) {
            return Err(HistoryFault::AfterAbsent);
        }
        if self.names_open(call.after) {
            return Err(HistoryFault::AfterOpen);
        }
        Ok(())
    }

    // The operation that a reply answers; else the first reason against it.
    pub(super) fn may_reply(&self, thread: u8, reply: (u8, u16)) -> Result<usize, HistoryFault>
        ensures { JudgedOpen (log self.now) thread reply result }
    {
        if is_unknown(thread) {
            return Err(HistoryFault::NoOpenCall);
        }
        let x = self.open_operation(thread).ok_or(HistoryFault::NoOpenCall)?;
        let _answer = Answer::try_from(reply)?;
        Ok(x)
    }
}
