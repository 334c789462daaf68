// The recorded history.
ghost use Rattle.history.specs.Bounded.{items};
ghost use Rattle.history.specs.Order.{Ascending, Settled};
ghost use Rattle.history.specs.Table.{Keeps, KeepsOnly};

use crate::bounded::BoundedList;
use crate::limits::LIMIT;
use crate::operations::Operation;
use crate::opset::OpSet;

mod gather;
mod refusals;
mod steps;

// The operations in the order in which their calls were accepted, and for each slot the set of those that happen before its operation,
// empty where it has none.
#[derive(Clone, Copy)]
pub struct History {
    operations: BoundedList<Operation, LIMIT>,
    before: [OpSet; LIMIT],
    ghost ascending: { Ascending (items operations) },
    ghost settled: { Settled (items operations) },
    ghost keeps: { Keeps (items operations) before },
    ghost only: { KeepsOnly (items operations) before },
}
