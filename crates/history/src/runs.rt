// A run of actions on a new history.
ghost use Rattle.std.specs.Prelude.{◌≡◌, []};
ghost use Rattle.history.specs.Recorded.{log};
ghost use Rattle.history.specs.Steps.{Step, Replays};

use crate::history::History;
use crate::operations::{Action, Attempt, HistoryFault};

// Takes an action.
fn take(history: &mut History, action: Action) -> Result<(), HistoryFault>
    ensures { Step (log history.old) action result (log history.new) }
{
    match action {
        Action::Call(call) => history.call(call),
        Action::Reply { thread, reply } => history.reply(thread, reply),
        Action::Clear => {
            history.clear();
            Ok(())
        }
    }
}

// Takes the actions in turn and puts the answer beside each.
fn take_all(attempts: &mut [Attempt], mut history: History) -> History
    requires { log history ≡ [] }
    ensures { Replays attempts.old attempts.new (log result) }
{
    for attempt in attempts.iter_mut() {
        attempt.answer = Some(take(&mut history, attempt.action));
    }
    history
}

// Takes the actions in turn on a new history and puts the answer beside each, whatever stood there; the history as they leave it.
pub fn replay(attempts: &mut [Attempt]) -> History
    ensures { Replays attempts.old attempts.new (log result) }
{
    take_all(attempts, History::new())
}
