//! Repairs look at what an event concerns, and at nothing else. The bounds are the degrees of the regions, counted by hand.
use crate::dumps::{CYCLE, SOFT_THEN_WEAK, WEAK_AND_FINAL, graph_of};
use crate::looks::{ALWAYS, IdChange, NEVER, changes_of_event, looks_of_event};
use hd_edges::Edges;
use hd_graph::Graph;
use hd_log::Front;
use hd_state::State;
use hd_terms::Strength::{Final, Soft, Strong, Unreachable, Weak};
use hd_terms::{Edit, Event, RefKind, Slot, What};
use std::alloc::Global;
use std::fmt::Write as _;
use std::process::Abort;
use std::thread::Threads;

/// An array with two references to another.
const TWICE: &str = "ids 4\nsegment\nroot 1\narray 1: 2 2\narray 2:\n";

/// A cut of an element of the array 1.
fn cut(element: u32) -> Event {
    Event {
        who: 0,
        what: What::Do(Edit::Cut(1, Slot::Element(element))),
    }
}

/// The undo of the first event.
const UNDO: Event = Event {
    who: 0,
    what: What::Undo(0),
};

/// How many looks an event of an empty log takes, and how many its undo.
fn looks_of_both<R: Abort + Threads + Sync>(
    rt: &R,
    alloc: Global,
    graph: &Graph,
    event: Event,
) -> (u64, u64) {
    let empty = Front::empty(alloc).expect(rt, "a log is made");
    let with_event = empty
        .extend(alloc, event)
        .expect(rt, "the log takes the event");
    let lost = looks_of_event(rt, alloc, graph, &empty, event, NEVER).expect(
        rt,
        "the event is repaired",
    );
    let gained = looks_of_event(rt, alloc, graph, &with_event, UNDO, NEVER).expect(
        rt,
        "the undo is repaired",
    );
    (lost, gained)
}

/// How many looks a cut of an element of the array 1 takes, and how many its undo.
fn looks_of_cut<R: Abort + Threads + Sync>(
    rt: &R,
    alloc: Global,
    graph: &Graph,
    element: u32,
) -> (u64, u64) {
    looks_of_both(rt, alloc, graph, cut(element))
}

/// The dump of the cycle, with more empty arrays in elements of the first array, of IDs from 4,096 to below a last one.
fn wide_cycle<R: Abort>(rt: &R, alloc: Global, last: u32) -> String {
    let mut text = String::new(alloc);
    text.push_str("ids 4\nsegment\nroot 1\narray 1: 2")
        .expect(rt, "the text begins");
    for id in 4096..last {
        write!(text, " {id:x}").expect(rt, "the text grows");
    }
    text.push_str("\narray 2: 3\narray 3: 2 4\narray 4: 5\narray 5: 4\n")
        .expect(rt, "the text grows");
    for id in 4096..last {
        writeln!(text, "array {id:x}:").expect(rt, "the text grows");
    }
    text
}

#[test]
fn looks_of_a_repair(rt: HostRuntime) {
    let alloc = rt.alloc();
    let graph = graph_of(&rt, alloc, CYCLE).expect(&rt, "the dump opens");
    let (lost, gained) = looks_of_cut(&rt, alloc, &graph, 0);
    assert!(rt; lost > 0 && lost <= 22);
    assert!(rt; gained > 0 && gained <= 11);
}

/// The degree of an object: of its edges, of those to it and of the roots on it.
fn degree_of(state: &State, id: u64) -> Option<u32> {
    let o = state.graph().index_of(id)?;
    let view = state.view();
    let edges = view.out_len(o).checked_add(view.into_len(o))?;
    edges.checked_add(view.root_len(o))
}

/// The cut of the first reference affects the arrays 2 to 5, of degree 11: the array 2 has one reference and two to it, the
/// array 3 two and one, the array 4 one and two, and the array 5 one and one. The array 1 has one and a root on it.
#[test]
fn degrees_of_a_region(rt: HostRuntime) {
    let graph = graph_of(&rt, rt.alloc(), CYCLE).expect(&rt, "the dump opens");
    let state = State::open(&rt, rt.alloc(), graph).expect(&rt, "the state opens");
    for (id, degree) in [(1, 2), (2, 3), (3, 3), (4, 3), (5, 2)] {
        assert_eq!(rt; degree_of(&state, id), Some(degree), "of {id}");
    }
}

/// A search afresh takes two looks for each of the six references and one each for the root and the event. The region has degree
/// 11, so they are at most twice that.
#[test]
fn looks_of_a_search(rt: HostRuntime) {
    let alloc = rt.alloc();
    let graph = graph_of(&rt, alloc, CYCLE).expect(&rt, "the dump opens");
    let empty = Front::empty(alloc).expect(&rt, "a log is made");
    let looks = looks_of_event(&rt, alloc, &graph, &empty, cut(0), ALWAYS);
    assert_eq!(rt; looks, Some(14));
}

/// Where the region is small beside the dump, no search is made.
#[test]
fn no_search_for_a_small_region(rt: HostRuntime) {
    let alloc = rt.alloc();
    let text = wide_cycle(&rt, alloc, 14_096);
    let graph = graph_of(&rt, alloc, text.as_str()).expect(&rt, "the dump opens");
    let empty = Front::empty(alloc).expect(&rt, "a log is made");
    let looks = looks_of_event(&rt, alloc, &graph, &empty, cut(0), ALWAYS).expect(
        &rt,
        "it is repaired",
    );
    assert!(rt; looks > 0 && looks <= 24);
}

#[test]
fn looks_beside_many_objects(rt: HostRuntime) {
    let alloc = rt.alloc();
    let text = wide_cycle(&rt, alloc, 14_096);
    let graph = graph_of(&rt, alloc, text.as_str()).expect(&rt, "the dump opens");
    let (lost, gained) = looks_of_cut(&rt, alloc, &graph, 0);
    assert!(rt; lost > 0 && lost <= 24);
    assert!(rt; gained > 0 && gained <= 24);
}

#[test]
fn looks_of_parallel_edges(rt: HostRuntime) {
    let alloc = rt.alloc();
    let graph = graph_of(&rt, alloc, TWICE).expect(&rt, "the dump opens");
    let (support, _) = looks_of_cut(&rt, alloc, &graph, 0);
    let (other, _) = looks_of_cut(&rt, alloc, &graph, 1);
    assert!(rt; support > 0 && support <= 6);
    assert!(rt; other <= 2);
}

/// Two references are lost at once. Five objects fall, of degree 11: the weak reference 3, its class 2, and 2 for each of the
/// three arrays.
#[test]
fn looks_of_a_cleared_kind(rt: HostRuntime) {
    let alloc = rt.alloc();
    let graph = graph_of(&rt, alloc, SOFT_THEN_WEAK).expect(&rt, "the dump opens");
    let event = Event {
        who: 0,
        what: What::Do(Edit::ClearAll(RefKind::Soft)),
    };
    let (lost, gained) = looks_of_both(&rt, alloc, &graph, event);
    assert!(rt; lost > 0 && lost <= 22);
    assert!(rt; gained > 0 && gained <= 22);
}

/// The same two references are lost where their field is cut in their class.
#[test]
fn looks_of_a_field_cut_in_a_class(rt: HostRuntime) {
    let alloc = rt.alloc();
    let graph = graph_of(&rt, alloc, SOFT_THEN_WEAK).expect(&rt, "the dump opens");
    let (lost, gained) = looks_of_both(&rt, alloc, &graph, cut_all(0x12, 0));
    assert!(rt; lost > 0 && lost <= 22);
    assert!(rt; gained > 0 && gained <= 22);
    let (of_no_class, back) = looks_of_both(&rt, alloc, &graph, cut_all(0x99, 0));
    assert!(rt; of_no_class == 0 && back == 0);
}

/// Whether these are all of some changes, in any order.
fn are_all(changes: &[IdChange], expected: &[IdChange]) -> bool {
    if changes.len() != expected.len() {
        return false;
    }
    for change in expected {
        if !changes.contains(change) {
            return false;
        }
    }
    true
}

/// Whether an event of an empty log changes this, and its undo changes that back.
fn changes_and_back<R: Abort + Threads + Sync>(
    rt: &R,
    alloc: Global,
    graph: &Graph,
    event: Event,
    expected: &[IdChange],
) -> bool {
    let empty = Front::empty(alloc).expect(rt, "a log is made");
    let with_event = empty
        .extend(alloc, event)
        .expect(rt, "the log takes the event");
    let lost = changes_of_event(rt, alloc, graph, &empty, event, NEVER).expect(
        rt,
        "it is repaired",
    );
    let found = changes_of_event(rt, alloc, graph, &empty, event, ALWAYS).expect(rt, "it is found");
    let gained = changes_of_event(rt, alloc, graph, &with_event, UNDO, NEVER).expect(
        rt,
        "it is repaired",
    );
    let mut back = Vec::new(alloc);
    for (id, before, after) in expected {
        back.push((*id, *after, *before))
            .expect(rt, "there is memory");
    }
    are_all(&lost, expected) && are_all(&found, expected) && are_all(&gained, &back)
}

/// A clearing of all references of a kind.
fn clear_all(kind: RefKind) -> Event {
    Event {
        who: 0,
        what: What::Do(Edit::ClearAll(kind)),
    }
}

/// A cut of a field in all objects of a class.
fn cut_all(class: u64, field: u32) -> Event {
    Event {
        who: 0,
        what: What::Do(Edit::CutAll(class, field)),
    }
}

#[test]
fn changes_of_a_cut(rt: HostRuntime) {
    let graph = graph_of(&rt, rt.alloc(), CYCLE).expect(&rt, "the dump opens");
    let expected = [
        (2, Strong, Unreachable),
        (3, Strong, Unreachable),
        (4, Strong, Unreachable),
        (5, Strong, Unreachable),
    ];
    assert!(rt; changes_and_back(&rt, rt.alloc(), &graph, cut(0), &expected));
}

/// The array 4 is soft by the array 5, and the class 0x13 by the reference 0x22.
#[test]
fn changes_of_cleared_soft_references(rt: HostRuntime) {
    let graph = graph_of(&rt, rt.alloc(), SOFT_THEN_WEAK).expect(&rt, "the dump opens");
    let expected = [
        (0x22, Soft, Unreachable),
        (0x13, Soft, Unreachable),
        (3, Weak, Unreachable),
        (4, Soft, Unreachable),
        (5, Soft, Unreachable),
    ];
    assert!(rt; changes_and_back(&rt, rt.alloc(), &graph, clear_all(RefKind::Soft), &expected));
}

/// The weak reference 0x22 has the same field, and another class.
#[test]
fn changes_of_a_field_cut_in_a_class(rt: HostRuntime) {
    let graph = graph_of(&rt, rt.alloc(), SOFT_THEN_WEAK).expect(&rt, "the dump opens");
    let soft = [
        (0x22, Soft, Unreachable),
        (0x13, Soft, Unreachable),
        (3, Weak, Unreachable),
        (4, Soft, Unreachable),
        (5, Soft, Unreachable),
    ];
    assert!(rt; changes_and_back(&rt, rt.alloc(), &graph, cut_all(0x12, 0), &soft));
    let weak = [(3, Weak, Unreachable)];
    assert!(rt; changes_and_back(&rt, rt.alloc(), &graph, cut_all(0x13, 0), &weak));
    assert!(rt; changes_and_back(&rt, rt.alloc(), &graph, cut_all(0x12, 1), &[]));
}

/// The array 5 stays final, by the finalizer.
#[test]
fn changes_of_a_cleared_weak_reference(rt: HostRuntime) {
    let graph = graph_of(&rt, rt.alloc(), WEAK_AND_FINAL).expect(&rt, "the dump opens");
    let expected = [(5, Weak, Final)];
    assert!(rt; changes_and_back(&rt, rt.alloc(), &graph, clear_all(RefKind::Weak), &expected));
}
