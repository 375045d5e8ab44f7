//! Appends and looks without a desk: what they answer, and in which order they refuse.
use crate::boards::two_desks;
use hd_board::{AppendFault, Board, LookFault, append_to};
use hd_log::Front;
use hd_terms::{Edit, Event, LogFault, Refusal, What};
use std::alloc::Global;
use std::process::Abort;
use std::sync::Wait;
use std::thread::Threads;

fn by(who: u8, what: What) -> Event {
    Event { who, what }
}

const ADD: What = What::Do(Edit::Add(1));

/// How many events the log has that an append answers, or why it is refused: nothing where the log is foreign.
type Appended = Result<u32, Option<Refusal>>;

fn appended(answer: Result<Front, AppendFault>) -> Appended {
    match answer {
        Ok(log) => Ok(log.len()),
        Err(AppendFault::Refused(refusal, _)) => Err(Some(refusal)),
        Err(AppendFault::Foreign(_)) => Err(None),
        Err(AppendFault::OutOfMemory) => Err(Some(Refusal::Log(LogFault::OutOfMemory))),
    }
}

/// Appends to a log of two desks, 3 and 4, over a dump of one root, by an analyst who has seen no event.
fn append_unseen<R: Abort>(rt: &R, alloc: Global, log: &mut Front, event: Event) -> Appended {
    let none = Front::empty(alloc).expect(rt, "a log is begun");
    appended(append_to(alloc, log, 3, 2, 1, &none, event))
}

#[test]
fn appends_in_order(rt: HostRuntime) {
    let mut log = Front::empty(rt.alloc()).expect(&rt, "a log is begun");
    let not_yours = Refusal::Log(LogFault::NotYours);
    let no_such_event = Refusal::Log(LogFault::NoSuchEvent);
    for (who, what, answer) in [
        (2, ADD, Err(None)),
        (3, What::Undo(0), Err(Some(no_such_event))),
        (3, What::Do(Edit::Drop(1)), Err(Some(Refusal::NoSuchRoot))),
        (3, ADD, Ok(1)),
        (3, ADD, Err(None)),
        (4, What::Undo(0), Err(Some(not_yours))),
        (4, What::Do(Edit::Drop(1)), Ok(2)),
        (5, ADD, Err(None)),
    ] {
        assert!(rt; append_unseen(&rt, rt.alloc(), &mut log, by(who, what)) == answer);
    }
    assert_eq!(rt; log.len(), 2);
}

/// How many events a look finds, for an analyst who has seen no event; nothing where the log is foreign.
fn looked<R: Abort + Threads + Wait + Sync>(
    rt: &R,
    alloc: Global,
    board: &Board,
    who: u8,
) -> Option<u32> {
    let none = Front::empty(alloc).expect(rt, "a log is begun");
    match board.look(rt, &none, who) {
        Ok(log) => Some(log.len()),
        Err(LookFault::Foreign(_)) => None,
        Err(LookFault::OutOfMemory) => panic!(rt; "memory ran out"),
    }
}

#[test]
fn looks_after_an_append(rt: HostRuntime) {
    let (board, _desks) = two_desks(&rt, rt.alloc());
    let none = Front::empty(rt.alloc()).expect(&rt, "a log is begun");
    let answer = appended(board.append(&rt, rt.alloc(), &none, by(0, ADD)));
    assert!(rt; answer == Ok(1));
    assert!(rt; looked(&rt, rt.alloc(), &board, 1) == Some(1));
    assert!(rt; looked(&rt, rt.alloc(), &board, 0).is_none());
    assert!(rt; looked(&rt, rt.alloc(), &board, 2).is_none());
}
