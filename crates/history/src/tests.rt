use crate::{
    Action, Answer, Attempt, Call, Fault, History, HistoryFault, OpSet, Operation, UnknownAnswer,
    replay,
};
use std::process::Abort;
use std::test::Fail;

// A call by a thread after these operations.
fn call(thread: u8, after: u16) -> Call {
    Call {
        thread,
        kind: 0,
        a: 0,
        b: 0,
        after: OpSet::from_bits(after),
    }
}

// The number of a refusal, or 0 where there is none.
fn number(answer: Result<(), HistoryFault>) -> u8 {
    match answer {
        Ok(()) => 0,
        Err(fault) => fault.number(),
    }
}

// Makes calls in turn, each by a thread after some operations; the number with which each is refused is as expected, or 0.
fn check_calls(rt: &impl Abort, history: &mut History, calls: &[(u8, u16, u8)]) {
    for (thread, after, expected) in calls {
        assert_eq!(rt; number(history.call(call(*thread, *after))), *expected);
    }
}

// Makes calls in turn that are accepted, and gives each its reply.
fn take(rt: &impl Abort, history: &mut History, calls: &[(u8, u16)]) {
    for (thread, after) in calls {
        assert_eq!(rt; number(history.call(call(*thread, *after))), 0);
        assert_eq!(rt; number(history.reply(*thread, (0, 0))), 0);
    }
}

// A history of n answered calls, by the threads 0 to 4 in turn.
fn filled(rt: &impl Abort, n: u8) -> History {
    let mut history = History::new();
    for i in 0..n {
        take(rt, &mut history, &[(i % 5, 0)]);
    }
    history
}

// The sets of what is before the operations 0, 1, .., as digits, are as expected.
fn check_before(rt: &impl Abort, history: &History, sets: &[u16]) {
    for (y, set) in sets.iter().enumerate() {
        assert_eq!(rt; history.before(y).bits(), *set);
    }
}

#[test]
fn members_of_sets(rt: HostRuntime) {
    let set = OpSet::from_bits(0x0102);
    let mut members = set.iter();
    assert_eq!(rt; members.next(), Some(1));
    assert_eq!(rt; members.next(), Some(8));
    assert_eq!(rt; members.next(), None);
    assert_eq!(rt; set.iter_from(2).next(), Some(8));
    assert_eq!(rt; set.contains(8), true);
    assert_eq!(rt; set.contains(9), false);
    assert_eq!(rt; set.contains(usize::MAX), false);
    assert_eq!(rt; set.insert(15).bits(), 0x8102);
    assert_eq!(rt; set.insert(16), set);
    assert_eq!(rt; OpSet::new().insert(0).bits(), 1);
    assert_eq!(rt; set.union(OpSet::from_bits(0x0201)).bits(), 0x0303);
    assert_eq!(rt; set.intersection(OpSet::from_bits(0x0106)).bits(), 0x0102);
    assert_eq!(rt; set.is_subset(OpSet::from_bits(0x0103)), true);
    assert_eq!(rt; set.is_subset(OpSet::from_bits(0x0003)), false);
    assert_eq!(rt; set.is_empty(), false);
    assert_eq!(rt; OpSet::new().is_empty(), true);
}

#[test]
fn the_thirteenth_call_is_refused(rt: HostRuntime) {
    let mut history = filled(&rt, 11);
    check_calls(
        &rt,
        &mut history,
        &[(5, 0, 0), (4, 0, 8), (5, 0, 8), (6, 0, 7), (0, 0xf000, 8)],
    );
    assert_eq!(rt; history.operations().len(), 12);
}

#[test]
fn calls_are_refused_in_checking_order(rt: HostRuntime) {
    let mut history = filled(&rt, 2);
    check_calls(
        &rt,
        &mut history,
        &[
            (5, 0x0001, 0),
            (6, 0, 7),
            (255, 0, 7),
            (5, 0, 9),
            (5, 0x0008, 9),
            (0, 0x0008, 10),
            (0, 0x000c, 10),
            (0, 0x0004, 11),
            (0, 0x0003, 0),
        ],
    );
    assert_eq!(rt; history.operations().len(), 4);
}

#[test]
fn absent_numbers_up_to_15(rt: HostRuntime) {
    let mut history = filled(&rt, 11);
    check_calls(
        &rt,
        &mut history,
        &[
            (0, 0x0800, 10),
            (0, 0x1000, 10),
            (0, 0x2000, 10),
            (0, 0x4000, 10),
            (0, 0x8000, 10),
            (0, 0x8001, 10),
            (0, 0x0400, 0),
        ],
    );
    assert_eq!(rt; history.before(11).bits(), 0x0421);
}

#[test]
fn tags_at_their_limits(rt: HostRuntime) {
    for (tag, value, answer) in [
        (0, 0, 0),
        (0, 1, 13),
        (1, 0, 0),
        (1, 65535, 0),
        (2, 0, 0),
        (2, 1, 0),
        (2, 2, 13),
        (3, 0, 13),
        (255, 1, 13),
    ] {
        let mut history = History::new();
        check_calls(&rt, &mut history, &[(5, 0, 0)]);
        assert_eq!(rt; number(history.reply(4, (tag, value))), 12);
        assert_eq!(rt; number(history.reply(6, (tag, value))), 12);
        assert_eq!(rt; number(history.reply(5, (tag, value))), answer);
    }
}

#[test]
fn answers_by_tag_and_value(rt: HostRuntime) {
    assert_eq!(rt; Answer::try_from((0, 0)), Ok(Answer::Nothing));
    assert_eq!(rt; Answer::try_from((0, 1)), Err(UnknownAnswer));
    assert_eq!(rt; Answer::try_from((1, 65535)), Ok(Answer::Number(65535)));
    assert_eq!(rt; Answer::try_from((2, 0)), Ok(Answer::Truth(false)));
    assert_eq!(rt; Answer::try_from((2, 1)), Ok(Answer::Truth(true)));
    assert_eq!(rt; Answer::try_from((2, 2)), Err(UnknownAnswer));
    assert_eq!(rt; Answer::try_from((3, 0)), Err(UnknownAnswer));
}

#[test]
fn a_refusal_changes_nothing(rt: HostRuntime) {
    let mut history = filled(&rt, 1);
    let open = Call {
        thread: 3,
        kind: 255,
        a: 65535,
        b: 7,
        after: OpSet::from_bits(1),
    };
    assert_eq!(rt; number(history.call(open)), 0);
    assert_eq!(rt; number(history.call(open)), 9);
    assert_eq!(rt; number(history.reply(3, (2, 2))), 13);
    assert_eq!(rt;
        history.operations().get(1).copied(),
        Some(Operation {
            call: open,
            reply: None,
        })
    );
    assert_eq!(rt; number(history.reply(3, (1, 65535))), 0);
    assert_eq!(rt;
        history.operations().get(1).copied(),
        Some(Operation {
            call: open,
            reply: Some((1, 65535)),
        })
    );
    assert_eq!(rt; history.operations().len(), 2);
}

#[test]
fn before_through_three_threads(rt: HostRuntime) {
    let mut history = History::new();
    take(
        &rt,
        &mut history,
        &[(0, 0), (1, 0x0001), (1, 0), (2, 0x0004), (3, 0)],
    );
    check_before(&rt, &history, &[0, 0x0001, 0x0003, 0x0007, 0, 0, 0]);
    assert_eq!(rt; history.before(usize::MAX).is_empty(), true);
}

#[test]
fn before_by_name_alone(rt: HostRuntime) {
    let mut history = History::new();
    take(&rt, &mut history, &[(0, 0), (1, 0), (2, 0x0002)]);
    check_before(&rt, &history, &[0, 0, 0x0002]);
    history.clear();
    check_before(&rt, &history, &[0, 0, 0]);
    assert_eq!(rt; history.operations().len(), 0);
}

// An action with an answer beside it that is not the answer to it.
fn unanswered(action: Action) -> Attempt {
    Attempt {
        action,
        answer: Some(Err(HistoryFault::Full)),
    }
}

#[test]
fn answers_beside_actions(rt: HostRuntime) -> Result<(), Fail> {
    let opening = Action::Call(call(0, 0));
    let naming = Action::Call(call(1, 1));
    let answering = Action::Reply {
        thread: 0,
        reply: (1, 5),
    };
    let actions = [
        opening,
        naming,
        answering,
        answering,
        naming,
        Action::Clear,
        naming,
        opening,
    ];
    let answers = [0, 11, 0, 12, 0, 0, 10, 0];
    let mut attempts = [
        unanswered(opening),
        unanswered(naming),
        unanswered(answering),
        unanswered(answering),
        unanswered(naming),
        unanswered(Action::Clear),
        unanswered(naming),
        unanswered(opening),
    ];
    let history = replay(&mut attempts);
    for (attempt, (action, answer)) in attempts.iter().zip(actions.iter().zip(answers.iter())) {
        assert_eq!(rt; attempt.action, *action);
        match attempt.answer {
            Some(given) => assert_eq!(rt; number(given), *answer),
            None => return Err(Fail::new("an action has no answer")),
        }
    }
    assert_eq!(rt; history.operations().len(), 1);
    Ok(())
}
