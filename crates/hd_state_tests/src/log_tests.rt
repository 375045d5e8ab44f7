//! Logs of two analysts: what is live, and what is refused.
use hd_log::Front;
use hd_terms::{Edit, Event, LogFault, Refusal, Slot, What};
use std::alloc::Global;
use std::process::Abort;

/// An edit of one slot.
const CUT: What = What::Do(Edit::Cut(1, Slot::Element(0)));

fn by(who: u8, what: What) -> Event {
    Event { who, what }
}

/// Two cuts of one slot, by two analysts, and an undo of the first.
fn two_cuts<R: Abort>(rt: &R, alloc: Global) -> Front {
    let empty = Front::empty(alloc).expect(rt, "a log is made");
    let one = empty
        .extend(alloc, by(0, CUT))
        .expect(rt, "the first cut is taken");
    let two = one
        .extend(alloc, by(1, CUT))
        .expect(rt, "the second cut is taken");
    two.extend(alloc, by(0, What::Undo(0)))
        .expect(rt, "the undo is taken")
}

#[test]
fn live_events(rt: HostRuntime) {
    let front = two_cuts(&rt, rt.alloc());
    assert_eq!(rt; front.len(), 3);
    assert_eq!(rt; front.event(1), by(1, CUT));
    assert_eq!(rt; front.event(2), by(0, What::Undo(0)));
    assert_eq!(rt; front.flags(), [false, true, false].as_slice());
    for (who, last) in [(0, None), (1, Some(1)), (2, None)] {
        assert_eq!(rt; front.last_live(who), last, "of {who}");
    }
}

#[test]
fn refused_events(rt: HostRuntime) {
    let front = two_cuts(&rt, rt.alloc());
    for (who, what, fault) in [
        (2, CUT, None),
        (1, What::Undo(1), None),
        (0, What::Undo(1), Some(LogFault::NotYours)),
        (0, What::Undo(0), Some(LogFault::NotLive)),
        (0, What::Undo(2), Some(LogFault::NoSuchEvent)),
        (0, What::Undo(7), Some(LogFault::NoSuchEvent)),
    ] {
        assert_eq!(rt; front.next_fault(&by(who, what)), fault);
        assert_eq!(rt; front.extend(rt.alloc(), by(who, what)).err(), fault);
    }
}

#[test]
fn refused_appends(rt: HostRuntime) {
    let front = two_cuts(&rt, rt.alloc());
    for (what, refusal) in [
        (CUT, None),
        (What::Undo(1), Some(Refusal::Log(LogFault::NotYours))),
        (What::Do(Edit::Drop(0)), None),
        (What::Do(Edit::Drop(1)), Some(Refusal::NoSuchRoot)),
    ] {
        assert_eq!(rt; front.append_refusal(1, &by(0, what)), refusal);
    }
}

#[test]
fn shared_logs(rt: HostRuntime) {
    let front = two_cuts(&rt, rt.alloc());
    let shared = front.share().expect(&rt, "the log is shared");
    let empty = Front::empty(rt.alloc()).expect(&rt, "a log is made");
    assert!(rt; shared.begins_with(&front));
    assert!(rt; !empty.begins_with(&front));
    assert!(rt; shared.continues(&front, 1));
    assert!(rt; !shared.continues(&empty, 1));
    assert!(rt; shared.continues(&empty, 2));
    assert!(rt; !empty.continues(&front, 2));
}
