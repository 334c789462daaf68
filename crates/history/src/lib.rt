// The recorded history: calls on a shared object with their replies, and what happens before what.

#![tactic(auto)]

mod answers;
mod bounded;
mod history;
mod limits;
mod operations;
mod opset;
mod runs;
#[cfg(test)]
mod tests;

pub use answers::{Answer, UnknownAnswer};
pub use faults::Fault;
pub use history::History;
pub use limits::{LAST_THREAD, LIMIT};
pub use operations::{Action, Attempt, Call, HistoryFault, Operation};
pub use opset::{Members, OpSet};
pub use runs::replay;
