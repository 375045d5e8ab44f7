//! What a search leaves behind is settled under its own log and for its own dump, and under no other.
use crate::dumps::{CYCLE, TWO_ARRAYS, WEAK_AND_FINAL, graph_of};
use hd_graph::Graph;
use hd_log::Front;
use hd_settled::is_settled;
use hd_strength::from_scratch;
use hd_terms::{Edit, Event, Slot, What};
use std::alloc::Global;
use std::process::Abort;
use std::thread::Threads;

/// The log of one cut: of the first element of the array 1.
fn one_cut<R: Abort>(rt: &R, alloc: Global) -> Front {
    let empty = Front::empty(alloc).expect(rt, "a log is made");
    let cut = Event {
        who: 0,
        what: What::Do(Edit::Cut(1, Slot::Element(0))),
    };
    empty.extend(alloc, cut).expect(rt, "the cut is taken")
}

/// Whether what a search finds in a graph under a log is settled for another graph under another log.
fn found_is_settled<R: Abort + Threads + Sync>(
    rt: &R,
    alloc: Global,
    found: (&Graph, &Front),
    other: (&Graph, &Front),
) -> bool {
    let strengths = from_scratch(rt, alloc, found.0, found.1).expect(rt, "the search ends");
    is_settled(alloc, other.0, other.1, &strengths).expect(rt, "the check ends")
}

/// Whether what a search finds under the empty log is settled under that, what it finds under a log under that, and what it
/// finds under the empty log under the other.
fn settled_by_log<R: Abort + Threads + Sync>(
    rt: &R,
    alloc: Global,
    graph: &Graph,
    log: &Front,
) -> (bool, bool, bool) {
    let empty = Front::empty(alloc).expect(rt, "a log is made");
    let first = found_is_settled(rt, alloc, (graph, &empty), (graph, &empty));
    let second = found_is_settled(rt, alloc, (graph, log), (graph, log));
    let third = found_is_settled(rt, alloc, (graph, &empty), (graph, log));
    (first, second, third)
}

#[test]
fn settled_after_scratch(rt: HostRuntime) {
    let cut = one_cut(&rt, rt.alloc());
    for text in [WEAK_AND_FINAL, CYCLE] {
        let graph = graph_of(&rt, rt.alloc(), text).expect(&rt, "the dump opens");
        let settled = settled_by_log(&rt, rt.alloc(), &graph, &cut);
        assert_eq!(rt; settled, (true, true, false));
    }
}

#[test]
fn unsettled_for_another_dump(rt: HostRuntime) {
    let empty = Front::empty(rt.alloc()).expect(&rt, "a log is made");
    let graph = graph_of(&rt, rt.alloc(), TWO_ARRAYS).expect(&rt, "the dump opens");
    let other = graph_of(&rt, rt.alloc(), CYCLE).expect(&rt, "the dump opens");
    let settled = found_is_settled(&rt, rt.alloc(), (&graph, &empty), (&other, &empty));
    assert_eq!(rt; settled, false);
}
