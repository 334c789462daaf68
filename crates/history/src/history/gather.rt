// Sets of operations, gathered from the log.
ghost use Rattle.std.specs.Prelude.{◌≡◌, ℕ, ◌↔◌, length};
ghost use Rattle.std.specs.Fn.{FnReturnsAt};
ghost use Rattle.history.specs.Log.{By, Open};
ghost use Rattle.history.specs.Order.{Precedes};
ghost use Rattle.history.specs.Recorded.{log};
ghost use Rattle.history.specs.Sets.{Has};
ghost use Rattle.history.specs.Table.{row, Picks, Linked, Closes, Reaches};

use crate::history::History;
use crate::operations::{Call, Operation};
use crate::opset::OpSet;

impl History {
    // The operations that pass a test.
    fn operations_where<F: Fn(&Operation) -> bool>(&self, test: F) -> OpSet
        requires { F.IsAlwaysCallable test }
        ensures { Picks (log self.now) (FnReturnsAt F.Fn test) (length (log self.now)) result.bits }
    {
        let mut found = OpSet::new();
        for (x, operation) in self.operations().iter().enumerate() {
            if test(operation) {
                found = found.insert(x);
            }
        }
        found
    }

    // The operations of a thread.
    pub(super) fn operations_of(&self, thread: u8) -> OpSet
        ensures { (x : ℕ) → Has result.bits x ↔ By (log self.now) thread x }
    {
        self.operations_where(|operation| operation.call.thread == thread)
    }

    // The operations that have no reply yet.
    pub(super) fn open_operations(&self) -> OpSet
        ensures { (x : ℕ) → Has result.bits x ↔ Open (log self.now) x }
    {
        self.operations_where(|operation| operation.reply.is_none())
    }

    // The operations of the thread of a call that is to come, and those that the call names.
    fn linked_operations(&self, call: Call) -> OpSet
        ensures { (x : ℕ) → Has result.bits x ↔ Linked (log self.now) call x }
    {
        self.operations_of(call.thread).union(call.after)
    }

    // What is before a call that is to come: the operations linked to it, and all that is before these.
    pub(super) fn before_call(&self, call: Call) -> OpSet
        ensures { Reaches (log self.now) call self.now.before result.bits }
    {
        self.with_all_before(self.linked_operations(call))
    }

    // Some operations, and all that is before one of them.
    fn with_all_before(&self, direct: OpSet) -> OpSet
        ensures { Closes direct.bits self.now.before result.bits }
    {
        let mut all = direct;
        for z in direct.iter() {
            all = all.union(self.kept(z));
        }
        all
    }

    // The set that is kept for operation y; empty where there is no operation y.
    pub(super) fn kept(&self, y: usize) -> OpSet
        ensures bits { result.bits ≡ row self.now.before y }
        ensures exact { Precedes (log self.now) y result.bits }
    {
        self.before.get(y).copied().unwrap_or_default()
    }
}
