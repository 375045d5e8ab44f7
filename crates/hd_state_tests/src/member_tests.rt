//! The objects of a group that have a strength, over several pages of objects: all of them, and the first ones.
use crate::dumps::{graph_of, wide_array, wide_array_backwards};
use hd_state::State;
use hd_terms::{Edit, Event, Group, Slot, Strength, What};
use std::alloc::Global;
use std::process::Abort;
use std::random::RandomSource;
use std::thread::Threads;

/// The group of arrays of a class that the dump doesn't name.
const ARRAYS: Group = Group::Class(0);

/// The state of the dump that a text spells.
fn opened<R: Abort + RandomSource + Threads + Sync>(rt: &R, alloc: Global, text: &str) -> State {
    let graph = graph_of(rt, alloc, text).expect(rt, "the dump opens");
    State::open(rt, alloc, graph).expect(rt, "the state opens")
}

/// The first of the arrays that have a strength.
fn arrays<R: Abort>(
    rt: &R,
    alloc: Global,
    state: &State,
    strength: Strength,
    most: Option<u32>,
) -> Vec<u64> {
    state
        .members(alloc, ARRAYS, strength, most)
        .expect(rt, "members are listed")
}

#[test]
fn first_members_in_file_order(rt: HostRuntime) {
    let text = wide_array(rt.alloc()).expect(&rt, "the dump is spelled");
    let state = opened(&rt, rt.alloc(), text.as_str());
    let three = arrays(&rt, rt.alloc(), &state, Strength::Strong, Some(3));
    assert_eq!(rt; three.as_slice(), [1u64, 2, 3].as_slice());
    let all = arrays(&rt, rt.alloc(), &state, Strength::Strong, None);
    assert_eq!(rt; all.len(), 3001);
}

#[test]
fn first_members_against_file_order(rt: HostRuntime) {
    let text = wide_array_backwards(rt.alloc()).expect(&rt, "the dump is spelled");
    let state = opened(&rt, rt.alloc(), text.as_str());
    let three = arrays(&rt, rt.alloc(), &state, Strength::Strong, Some(3));
    assert_eq!(rt; three.as_slice(), [1u64, 2, 3].as_slice());
    let none = arrays(&rt, rt.alloc(), &state, Strength::Strong, Some(0));
    assert!(rt; none.is_empty());
}

#[test]
fn members_after_a_cut(rt: HostRuntime) {
    let text = wide_array_backwards(rt.alloc()).expect(&rt, "the dump is spelled");
    let state = opened(&rt, rt.alloc(), text.as_str());
    let cut = Event {
        who: 0,
        what: What::Do(Edit::Cut(1, Slot::Element(2999))),
    };
    let fault = state.front().next_fault(&cut);
    assert!(rt; fault.is_none(), "the log takes the event");
    let (next, _done) = state
        .step(&rt, rt.alloc(), cut)
        .expect(&rt, "the step is taken");
    let fallen = arrays(&rt, rt.alloc(), &next, Strength::Unreachable, Some(3));
    assert_eq!(rt; fallen.as_slice(), [3001u64].as_slice());
}
