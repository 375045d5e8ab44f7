//! Repairs of losses and gains on small dumps: objects that find another support, those that find none, and what comes back.
//! After each event the strengths are those of a search from scratch too. The expected ones were found by hand, by the
//! strengths of `java.lang.ref`. A state that is let go is long to prove, so each function holds one at most.
use crate::dumps::graph_in;
use hd_state::{Done, State};
use hd_strength::from_scratch;
use hd_terms::Strength::{Final, Phantom, Soft, Strong, Unreachable, Weak};
use hd_terms::{Edit, Event, Mode, RefKind, Slot, Strength, What};
use std::alloc::Global;
use std::process::Abort;
use std::random::RandomSource;
use std::thread::Threads;

/// What an event has to do: how many objects fall, how many come back, and the strengths of some IDs then.
type Expected<'a> = (u64, u64, &'a [(u64, Strength)]);

/// An event that does an edit.
fn doing(edit: Edit) -> Event {
    Event {
        who: 0,
        what: What::Do(edit),
    }
}

/// A cut of an element of an array.
fn cut(id: u64, element: u32) -> Event {
    doing(Edit::Cut(id, Slot::Element(element)))
}

/// The undo of an event.
fn undo(event: u32) -> Event {
    Event {
        who: 0,
        what: What::Undo(event),
    }
}

/// The state of a dump under the empty log.
fn opened<R: Abort + RandomSource + Threads + Sync>(
    rt: &R,
    alloc: Global,
    text: &str,
    mode: Mode,
) -> State {
    let graph = graph_in(rt, alloc, text, mode).expect(rt, "the dump opens");
    State::open(rt, alloc, graph).expect(rt, "the state opens")
}

/// Whether a state has the strengths that a search from scratch finds.
fn is_as_searched<R: Abort + Threads + Sync>(rt: &R, alloc: Global, state: &State) -> bool {
    let found = from_scratch(rt, alloc, state.graph(), state.front()).expect(rt, "the search ends");
    if found.len() != state.graph().objects() {
        return false;
    }
    for o in 0..found.len() {
        if found.strength(o) != state.strength(o) {
            return false;
        }
    }
    true
}

/// Whether the objects of some IDs have these strengths in a state.
fn has_strengths(state: &State, strengths: &[(u64, Strength)]) -> bool {
    for (id, strength) in strengths {
        let Some(o) = state.graph().index_of(*id) else {
            return false;
        };
        if state.strength(o) != *strength {
            return false;
        }
    }
    true
}

/// The state after one more event, which its log has to take, and what the event did.
fn stepped<R: Abort + Threads + Sync>(
    rt: &R,
    alloc: Global,
    state: &State,
    event: Event,
) -> (State, Done) {
    let fault = state.front().next_fault(&event);
    assert!(rt; fault.is_none(), "the log takes the event");
    state.step(rt, alloc, event).expect(rt, "the step is taken")
}

/// The state after one more event, which has to do what is expected.
fn after<R: Abort + Threads + Sync>(
    rt: &R,
    alloc: Global,
    state: State,
    event: Event,
    expected: Expected<'_>,
) -> State {
    let (next, done) = stepped(rt, alloc, &state, event);
    assert_eq!(rt;
        (done.fell, done.back),
        (expected.0, expected.1),
        "of event {}",
        done.event
    );
    assert!(rt;
        has_strengths(&next, expected.2),
        "strengths after event {}",
        done.event
    );
    assert!(rt;
        is_as_searched(rt, alloc, &next),
        "a search after event {}",
        done.event
    );
    next
}

/// A cycle of the arrays 2 and 3 behind the array 1.
const CYCLE_OF_TWO: &str = "ids 4\nsegment\nroot 1\narray 1: 2\narray 2: 3\narray 3: 2\n";

/// Each object of a cycle leads to the other, and none may hang on it.
#[test]
fn cycle_without_a_root_falls(rt: HostRuntime) {
    let alloc = rt.alloc();
    let state = opened(&rt, alloc, CYCLE_OF_TWO, Mode::Direct);
    let fallen = [(1, Strong), (2, Unreachable), (3, Unreachable)];
    let state = after(&rt, alloc, state, cut(1, 0), (2, 0, &fallen));
    let back = [(1, Strong), (2, Strong), (3, Strong)];
    let _last = after(&rt, alloc, state, undo(0), (0, 2, &back));
}

/// The same with a root on the cycle itself.
#[test]
fn cycle_with_a_dropped_root_falls(rt: HostRuntime) {
    let alloc = rt.alloc();
    let text = "ids 4\nsegment\nroot 2\narray 2: 3\narray 3: 2\n";
    let state = opened(&rt, alloc, text, Mode::Direct);
    let fallen = [(2, Unreachable), (3, Unreachable)];
    let state = after(&rt, alloc, state, doing(Edit::Drop(0)), (2, 0, &fallen));
    let back = [(2, Strong), (3, Strong)];
    let _last = after(&rt, alloc, state, undo(0), (0, 2, &back));
}

/// The array 4 leads to the array 2 and stands only through it.
#[test]
fn source_behind_the_object_is_none(rt: HostRuntime) {
    let alloc = rt.alloc();
    let text = "ids 4\nsegment\nroot 1\narray 1: 2\narray 2: 3\narray 3: 4\narray 4: 2\n";
    let state = opened(&rt, alloc, text, Mode::Direct);
    let fallen = [
        (1, Strong),
        (2, Unreachable),
        (3, Unreachable),
        (4, Unreachable),
    ];
    let state = after(&rt, alloc, state, cut(1, 0), (3, 0, &fallen));
    let back = [(1, Strong), (2, Strong), (3, Strong), (4, Strong)];
    let _last = after(&rt, alloc, state, undo(0), (0, 3, &back));
}

/// The arrays 5 and 6, each held by a soft reference, lead to one another.
const SOFT_PAIR: &str =
    "ids 4\nreference-names\nsegment\nreference-classes\nroot 1\narray 1: 21 22\n\
    reference 21 of 12: 5\nreference 22 of 12: 6\narray 5: 6\narray 6: 5\n";

/// Two objects that wait at once may not hang on one another.
#[test]
fn source_that_waits_is_none(rt: HostRuntime) {
    let alloc = rt.alloc();
    let state = opened(&rt, alloc, SOFT_PAIR, Mode::Direct);
    let clear = doing(Edit::ClearAll(RefKind::Soft));
    let fallen = [
        (0x21, Strong),
        (0x22, Strong),
        (5, Unreachable),
        (6, Unreachable),
    ];
    let state = after(&rt, alloc, state, clear, (2, 0, &fallen));
    let back = [(0x21, Strong), (0x22, Strong), (5, Soft), (6, Soft)];
    let _last = after(&rt, alloc, state, undo(0), (0, 2, &back));
}

/// The array 8 is held by the arrays 3 and 2, and the array 2 by the array 1 and at the end of a list of four.
const LIFTED: &str = "ids 4\nsegment\nroot 1\narray 1: 3 2 4\narray 2: 8\narray 3: 8\narray 4: 5\n\
    array 5: 6\narray 6: 7\narray 7: 2\narray 8:\n";

/// The array 8 is hung on the array 2, whose own support is then the end of the list, and is cut off there.
#[test]
fn source_lifted_and_cut_off(rt: HostRuntime) {
    let alloc = rt.alloc();
    let state = opened(&rt, alloc, LIFTED, Mode::Direct);
    let held = [(2, Strong), (3, Strong), (7, Strong), (8, Strong)];
    let state = after(&rt, alloc, state, cut(3, 0), (0, 0, &held));
    let state = after(&rt, alloc, state, cut(1, 1), (0, 0, &held));
    let fallen = [(2, Unreachable), (3, Strong), (7, Strong), (8, Unreachable)];
    let state = after(&rt, alloc, state, cut(7, 0), (2, 0, &fallen));
    let by_other = [(2, Unreachable), (3, Strong), (7, Strong), (8, Strong)];
    let state = after(&rt, alloc, state, undo(0), (0, 1, &by_other));
    let state = after(&rt, alloc, state, undo(2), (0, 1, &held));
    let _last = after(&rt, alloc, state, undo(1), (0, 0, &held));
}

/// An array with two references to another.
const TWICE: &str = "ids 4\nsegment\nroot 1\narray 1: 2 2\narray 2:\n";

/// Either of two parallel edges holds the object. They are cut in an order, and taken back in that order.
fn cut_parallel_edges<R: Abort + RandomSource + Threads + Sync>(
    rt: &R,
    alloc: Global,
    first: u32,
    second: u32,
) {
    let state = opened(rt, alloc, TWICE, Mode::Direct);
    let state = after(rt, alloc, state, cut(1, first), (0, 0, &[(2, Strong)]));
    let state = after(
        rt,
        alloc,
        state,
        cut(1, second),
        (1, 0, &[(2, Unreachable)]),
    );
    let state = after(rt, alloc, state, undo(0), (0, 1, &[(2, Strong)]));
    let _last = after(rt, alloc, state, undo(1), (0, 0, &[(2, Strong)]));
}

#[test]
fn parallel_edges(rt: HostRuntime) {
    cut_parallel_edges(&rt, rt.alloc(), 0, 1);
    cut_parallel_edges(&rt, rt.alloc(), 1, 0);
}

/// A phantom reference to the array 5, which leads to the array 6.
const PHANTOM: &str = "ids 4\nreference-names\nsegment\nreference-classes\nroot 1\narray 1: 21\n\
    reference 21 of 15: 5\narray 5: 6\narray 6:\n";

/// A cut of the phantom reference's referent.
const CUT_REFERENT: Event = Event {
    who: 0,
    what: What::Do(Edit::Cut(0x21, Slot::Field(0))),
};

/// The array 5 alone is phantom reachable. With the reference fall its class and the class above that.
#[test]
fn phantom_referent_alone(rt: HostRuntime) {
    let alloc = rt.alloc();
    let state = opened(&rt, alloc, PHANTOM, Mode::Direct);
    let fallen = [(0x21, Strong), (5, Unreachable), (6, Unreachable)];
    let state = after(&rt, alloc, state, CUT_REFERENT, (1, 0, &fallen));
    let back = [(0x21, Strong), (5, Phantom), (6, Unreachable)];
    let state = after(&rt, alloc, state, undo(0), (0, 1, &back));
    let all = [
        (0x21, Unreachable),
        (0x15, Unreachable),
        (0x11, Unreachable),
        (5, Unreachable),
    ];
    let state = after(&rt, alloc, state, cut(1, 0), (4, 0, &all));
    let _last = after(&rt, alloc, state, undo(2), (0, 4, &back));
}

/// What the array 5 leads to is phantom reachable too.
#[test]
fn phantom_referent_and_what_is_behind(rt: HostRuntime) {
    let alloc = rt.alloc();
    let state = opened(&rt, alloc, PHANTOM, Mode::Closure);
    let fallen = [(0x21, Strong), (5, Unreachable), (6, Unreachable)];
    let state = after(&rt, alloc, state, CUT_REFERENT, (2, 0, &fallen));
    let back = [(0x21, Strong), (5, Phantom), (6, Phantom)];
    let state = after(&rt, alloc, state, undo(0), (0, 2, &back));
    let all = [
        (0x21, Unreachable),
        (0x15, Unreachable),
        (5, Unreachable),
        (6, Unreachable),
    ];
    let state = after(&rt, alloc, state, cut(1, 0), (5, 0, &all));
    let _last = after(&rt, alloc, state, undo(2), (0, 5, &back));
}

/// A root on a phantom reachable array makes it strong, with what is behind it. Without that root, the two are as before.
fn root_on_referent<R: Abort + RandomSource + Threads + Sync>(
    rt: &R,
    alloc: Global,
    mode: Mode,
    behind: Strength,
    fall: u64,
) {
    let state = opened(rt, alloc, PHANTOM, mode);
    let add = doing(Edit::Add(5));
    let state = after(
        rt,
        alloc,
        state,
        add,
        (0, fall, &[(5, Strong), (6, Strong)]),
    );
    let _last = after(
        rt,
        alloc,
        state,
        undo(0),
        (fall, 0, &[(5, Phantom), (6, behind)]),
    );
}

#[test]
fn phantom_referent_with_a_root(rt: HostRuntime) {
    root_on_referent(&rt, rt.alloc(), Mode::Direct, Unreachable, 1);
    root_on_referent(&rt, rt.alloc(), Mode::Closure, Phantom, 0);
}

/// Two weak references, of whose referents the first leads to the second.
const WEAK_ROW: &str =
    "ids 4\nreference-names\nsegment\nreference-classes\nroot 1\narray 1: 21 22\n\
    reference 21 of 13: 5\nreference 22 of 13: 6\narray 5: 6\narray 6:\n";

/// The same, with a final reference to the first referent.
const WEAK_ROW_BESIDE_FINAL: &str = "ids 4\nreference-names\nsegment\nreference-classes\nroot 1\n\
    array 1: 21 22 23\nreference 21 of 13: 5\nreference 22 of 13: 6\nreference 23 of 14: 5\narray 5: 6\narray 6:\n";

/// Both references are lost at once, and the second referent may not hang on the first.
#[test]
fn cleared_referents_in_a_row(rt: HostRuntime) {
    let alloc = rt.alloc();
    let state = opened(&rt, alloc, WEAK_ROW, Mode::Direct);
    let clear = doing(Edit::ClearAll(RefKind::Weak));
    let fallen = [(0x21, Strong), (5, Unreachable), (6, Unreachable)];
    let state = after(&rt, alloc, state, clear, (2, 0, &fallen));
    let _last = after(&rt, alloc, state, undo(0), (0, 2, &[(5, Weak), (6, Weak)]));
}

/// The first keeps a weaker hold, which it passes on to the second.
#[test]
fn cleared_referents_weakened(rt: HostRuntime) {
    let alloc = rt.alloc();
    let state = opened(&rt, alloc, WEAK_ROW_BESIDE_FINAL, Mode::Direct);
    let clear = doing(Edit::ClearAll(RefKind::Weak));
    let state = after(&rt, alloc, state, clear, (0, 0, &[(5, Final), (6, Final)]));
    let _last = after(&rt, alloc, state, undo(0), (0, 0, &[(5, Weak), (6, Weak)]));
}

/// A root on the array 1, which leads to the array 2; the array 3 leads to the array 4.
const TWO_ROWS: &str = "ids 4\nsegment\nroot 1\narray 1: 2\narray 2:\narray 3: 4\narray 4:\n";

/// Roots that are added hold until the last of them is taken back.
#[test]
fn added_roots_taken_back(rt: HostRuntime) {
    let alloc = rt.alloc();
    let state = opened(&rt, alloc, TWO_ROWS, Mode::Direct);
    let (held, fallen) = (
        [(3, Strong), (4, Strong)],
        [(3, Unreachable), (4, Unreachable)],
    );
    let state = after(&rt, alloc, state, doing(Edit::Add(3)), (0, 2, &held));
    let state = after(&rt, alloc, state, undo(0), (2, 0, &fallen));
    let state = after(&rt, alloc, state, doing(Edit::Add(3)), (0, 2, &held));
    let state = after(&rt, alloc, state, doing(Edit::Add(3)), (0, 0, &held));
    let state = after(&rt, alloc, state, undo(2), (0, 0, &held));
    let _last = after(&rt, alloc, state, undo(3), (2, 0, &fallen));
}

/// An edit is done twice, and what it takes away stays away until both are taken back, the one of an order first.
fn done_twice<R: Abort + RandomSource + Threads + Sync>(
    rt: &R,
    alloc: Global,
    edit: Edit,
    fall: u64,
    order: (u32, u32),
) {
    let state = opened(rt, alloc, TWO_ROWS, Mode::Direct);
    let state = after(
        rt,
        alloc,
        state,
        doing(edit),
        (fall, 0, &[(2, Unreachable)]),
    );
    let state = after(rt, alloc, state, doing(edit), (0, 0, &[(2, Unreachable)]));
    let state = after(rt, alloc, state, undo(order.0), (0, 0, &[(2, Unreachable)]));
    let _last = after(rt, alloc, state, undo(order.1), (0, fall, &[(2, Strong)]));
}

#[test]
fn cuts_of_one_slot(rt: HostRuntime) {
    let edit = Edit::Cut(1, Slot::Element(0));
    done_twice(&rt, rt.alloc(), edit, 1, (0, 1));
    done_twice(&rt, rt.alloc(), edit, 1, (1, 0));
}

#[test]
fn drops_of_one_root(rt: HostRuntime) {
    done_twice(&rt, rt.alloc(), Edit::Drop(0), 2, (0, 1));
    done_twice(&rt, rt.alloc(), Edit::Drop(0), 2, (1, 0));
}

/// A referent is taken away by three edits of different kinds, and stays away until the last of them is taken back.
#[test]
fn referent_taken_away_thrice(rt: HostRuntime) {
    let alloc = rt.alloc();
    let state = opened(&rt, alloc, PHANTOM, Mode::Direct);
    let (fallen, back) = ([(5, Unreachable)], [(5, Phantom)]);
    let state = after(&rt, alloc, state, doing(Edit::Clear(0x21)), (1, 0, &fallen));
    let clear = doing(Edit::ClearAll(RefKind::Phantom));
    let state = after(&rt, alloc, state, clear, (0, 0, &fallen));
    let state = after(&rt, alloc, state, CUT_REFERENT, (0, 0, &fallen));
    let state = after(&rt, alloc, state, undo(1), (0, 0, &fallen));
    let state = after(&rt, alloc, state, undo(0), (0, 0, &fallen));
    let _last = after(&rt, alloc, state, undo(2), (0, 1, &back));
}
