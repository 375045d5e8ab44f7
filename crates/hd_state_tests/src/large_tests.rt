//! Losses of 70,001 objects, by which a search afresh is made, and their undos; and losses that several threads take apart.
use crate::dumps::graph_of;
use crate::looks::{ALWAYS, changes_of_event, looks_of_event};
use hd_graph::Graph;
use hd_log::Front;
use hd_settled::is_settled;
use hd_state::State;
use hd_supports::{PackedReached, Strengths};
use hd_terms::Strength::{Strong, Unreachable};
use hd_terms::{Edit, Event, Slot, Strength, What};
use std::alloc::Global;
use std::fmt::Write as _;
use std::process::Abort;
use std::thread::Threads;

/// The first of the IDs of the many arrays, and the one behind the last: 70,000 of them.
const IDS: (u32, u32) = (0x1000, 0x1000 + 70_000);

/// A root array that refers to another, which refers to many empty ones.
fn many_arrays<R: Abort>(rt: &R, alloc: Global) -> String {
    let mut text = String::new(alloc);
    text.push_str("ids 4\nsegment\nroot 1\narray 1: 2\narray 2:")
        .expect(rt, "the text begins");
    for id in IDS.0..IDS.1 {
        write!(text, " {id:x}").expect(rt, "the text grows");
    }
    text.push_str("\n").expect(rt, "the text grows");
    for id in IDS.0..IDS.1 {
        writeln!(text, "array {id:x}:").expect(rt, "the text grows");
    }
    text
}

/// Whether what a state keeps is settled under its log, and all but the first object have a strength.
fn are_settled(alloc: Global, state: &State, strength: Strength) -> Option<bool> {
    let supports = state.supports(alloc).ok()?;
    let mut kept = Vec::new(alloc);
    for o in 0..supports.len() {
        if o > 0 && supports.strength(o) != strength {
            return Some(false);
        }
        let reached = PackedReached::new(
            supports.strength(o),
            supports.support(o),
            supports.stamp(o),
        );
        kept.push(reached).ok()?;
    }
    if kept.len() >= 1 << 32 {
        return None;
    }
    is_settled(alloc, state.graph(), state.front(), &Strengths::of(kept)).ok()
}

/// The state after one more event, and how many objects fell and came back.
fn stepped<R: Abort + Threads + Sync>(
    rt: &R,
    alloc: Global,
    state: &State,
    what: What,
) -> (State, u64, u64) {
    let event = Event { who: 0, what };
    assert!(rt;
        state.front().next_fault(&event).is_none(),
        "the log takes the event"
    );
    let (next, done) = state.step(rt, alloc, event).expect(rt, "the step is taken");
    (next, done.fell, done.back)
}

/// The array 2 and the 70,000 others fall, come back, and fall again.
#[test]
fn many_objects_fall_and_come_back(rt: HostRuntime) {
    let alloc = rt.alloc();
    let text = many_arrays(&rt, alloc);
    let graph = graph_of(&rt, alloc, text.as_str()).expect(&rt, "the dump opens");
    let state = State::open(&rt, alloc, graph).expect(&rt, "the state opens");
    let cut = What::Do(Edit::Cut(1, Slot::Element(0)));
    let (fallen, fell, back) = stepped(&rt, alloc, &state, cut);
    assert!(rt; fell == 70_001 && back == 0);
    assert_eq!(rt; are_settled(alloc, &fallen, Unreachable), Some(true));
    let (restored, fell, back) = stepped(&rt, alloc, &fallen, What::Undo(0));
    assert!(rt; fell == 0 && back == 70_001);
    assert_eq!(rt; are_settled(alloc, &restored, Strong), Some(true));
    let (again, fell, back) = stepped(&rt, alloc, &restored, cut);
    assert!(rt; fell == 70_001 && back == 0);
    assert_eq!(rt; are_settled(alloc, &again, Unreachable), Some(true));
}

/// A root array that refers to two others, which refer to 5,000 and to 12,000 empty ones.
fn few_and_many_arrays<R: Abort>(rt: &R, alloc: Global) -> String {
    let mut text = String::new(alloc);
    text.push_str("ids 4\nsegment\nroot 1\narray 1: 2 3")
        .expect(rt, "the text begins");
    for (array, first, last) in [
        (2, 0x10_000, 0x10_000 + 5_000),
        (3, 0x20_000, 0x20_000 + 12_000),
    ] {
        write!(text, "\narray {array}:").expect(rt, "the text grows");
        for id in first..last {
            write!(text, " {id:x}").expect(rt, "the text grows");
        }
        for id in first..last {
            write!(text, "\narray {id:x}:").expect(rt, "the text grows");
        }
    }
    text.push_str("\n").expect(rt, "the text grows");
    text
}

/// How many objects change from one strength to another, and nothing else changes.
fn changed<R: Threads + Sync>(
    rt: &R,
    alloc: Global,
    graph: &Graph,
    log: &Front,
    what: What,
    strengths: (Strength, Strength),
) -> Option<usize> {
    let event = Event { who: 0, what };
    let changes = changes_of_event(rt, alloc, graph, log, event, ALWAYS)?;
    for (_id, before, after) in &changes {
        if (*before, *after) != strengths {
            return None;
        }
    }
    Some(changes.len())
}

/// The array 2 and its 5,000 arrays fall and come back. A search would take 34,006 looks; the arrays have degree 10,001, so the
/// looks are at most 20,002.
#[test]
fn several_threads_share_a_loss(rt: HostRuntime) {
    let alloc = rt.alloc();
    let text = few_and_many_arrays(&rt, alloc);
    let graph = graph_of(&rt, alloc, text.as_str()).expect(&rt, "the dump opens");
    let empty = Front::empty(alloc).expect(&rt, "a log is made");
    let cut = What::Do(Edit::Cut(1, Slot::Element(0)));
    let fell = changed(&rt, alloc, &graph, &empty, cut, (Strong, Unreachable));
    assert_eq!(rt; fell, Some(5_001));
    let event = Event { who: 0, what: cut };
    let looks = looks_of_event(&rt, alloc, &graph, &empty, event, ALWAYS);
    assert!(rt; looks.is_some_and(|looks| looks > 0 && looks <= 20_002));
    let with_cut = empty
        .extend(alloc, event)
        .expect(&rt, "the log takes the cut");
    let back = changed(
        &rt,
        alloc,
        &graph,
        &with_cut,
        What::Undo(0),
        (Unreachable, Strong),
    );
    assert_eq!(rt; back, Some(5_001));
}
