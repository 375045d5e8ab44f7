//! What has fallen between two versions of a state that share most of their pages. A state that is let go is long to prove, so
//! each function holds one at most.
ghost use Rattle.std.specs.Prelude.{◌≡◌};

use crate::dumps::{graph_of, wide_array};
use hd_state::{Mark, State};
use hd_terms::{Edit, Event, Slot, What};
use std::alloc::Global;
use std::process::Abort;
use std::random::RandomSource;
use std::thread::Threads;

/// A cut of an element of the array 1, whose reference leads to an array of an ID that is 2 more.
fn cut(element: u32) -> Event {
    Event {
        who: 0,
        what: What::Do(Edit::Cut(1, Slot::Element(element))),
    }
}

/// The undo of the first event.
const UNDO: Event = Event {
    who: 0,
    what: What::Undo(0),
};

/// The IDs that have fallen in a state.
#[derive(Drop)]
struct Fallen {
    since_opening: Vec<u64>,
    since_first: Vec<u64>,
}

/// What has fallen after two cuts, and once the first is taken back.
#[derive(Drop)]
struct InTurn {
    by_cuts: Fallen,
    by_undo: Fallen,
}

impl Fallen {
    /// Whether these are the IDs.
    fn is(&self, since_opening: &[u64], since_first: &[u64]) -> bool {
        self.since_opening.as_slice() == since_opening && self.since_first.as_slice() == since_first
    }
}

/// The state after one more event, which its log has to take.
fn stepped<R: Abort + Threads + Sync>(rt: &R, alloc: Global, state: &State, event: Event) -> State
    ensures { result.dump ≡ state.now.dump }
{
    let fault = state.front().next_fault(&event);
    assert!(rt; fault.is_none(), "the log takes the event");
    let (next, _done) = state.step(rt, alloc, event).expect(rt, "the step is taken");
    next
}

/// What has fallen in a state since two marks.
fn fallen_since<R: Abort + Threads + Sync>(
    rt: &R,
    alloc: Global,
    state: &State,
    opening: &Mark,
    first: &Mark,
) -> Fallen
    requires opening { opening.now.dump ≡ state.now.dump }
    requires first { first.now.dump ≡ state.now.dump }
{
    let since_opening = state
        .fell(alloc, opening, None)
        .expect(rt, "what fell is listed");
    let since_first = state
        .fell(alloc, first, None)
        .expect(rt, "what fell is listed");
    Fallen {
        since_opening,
        since_first,
    }
}

/// What has fallen once the first of two cuts is taken back.
fn fallen_after_undo<R: Abort + Threads + Sync>(
    rt: &R,
    alloc: Global,
    state: &State,
    opening: &Mark,
    first: &Mark,
) -> Fallen
    requires opening { opening.now.dump ≡ state.now.dump }
    requires first { first.now.dump ≡ state.now.dump }
{
    let undone = stepped(rt, alloc, state, UNDO);
    fallen_since(rt, alloc, &undone, opening, first)
}

/// What has fallen after a second cut, and once the first is taken back.
fn fallen_after_second<R: Abort + Threads + Sync>(
    rt: &R,
    alloc: Global,
    state: &State,
    opening: &Mark,
    element: u32,
) -> InTurn
    requires { opening.now.dump ≡ state.now.dump }
{
    let first = state.mark().expect(rt, "the state is marked");
    let second = stepped(rt, alloc, state, cut(element));
    let by_cuts = fallen_since(rt, alloc, &second, opening, &first);
    let by_undo = fallen_after_undo(rt, alloc, &second, opening, &first);
    InTurn { by_cuts, by_undo }
}

/// What has fallen after the cuts of two elements, and once the first is taken back.
fn fallen_in_turn<R: Abort + Threads + Sync>(
    rt: &R,
    alloc: Global,
    state: &State,
    first: u32,
    second: u32,
) -> InTurn {
    let opening = state.mark().expect(rt, "the state is marked");
    let next = stepped(rt, alloc, state, cut(first));
    fallen_after_second(rt, alloc, &next, &opening, second)
}

/// The state of an array with 3,000 references, each to an array of its own.
fn wide<R: Abort + RandomSource + Threads + Sync>(rt: &R, alloc: Global) -> State {
    let text = wide_array(alloc).expect(rt, "the dump is spelled");
    let graph = graph_of(rt, alloc, text.as_str()).expect(rt, "the dump opens");
    State::open(rt, alloc, graph).expect(rt, "the state opens")
}

/// What has fallen since the opening in a state after a cut, and since the opening and a mark in between once the cut is
/// taken back.
fn fallen_around_undo<R: Abort + Threads + Sync>(
    rt: &R,
    alloc: Global,
    state: &State,
    opening: &Mark,
) -> (Vec<u64>, Fallen)
    requires { opening.now.dump ≡ state.now.dump }
{
    let by_cut = state
        .fell(alloc, opening, None)
        .expect(rt, "what fell is listed");
    let between = state.mark().expect(rt, "the state is marked");
    let by_undo = fallen_after_undo(rt, alloc, state, opening, &between);
    (by_cut, by_undo)
}

/// What has fallen after the cut of an element, and once it is taken back.
fn fallen_and_back<R: Abort + Threads + Sync>(
    rt: &R,
    alloc: Global,
    state: &State,
    element: u32,
) -> (Vec<u64>, Fallen) {
    let opening = state.mark().expect(rt, "the state is marked");
    let next = stepped(rt, alloc, state, cut(element));
    fallen_around_undo(rt, alloc, &next, &opening)
}

#[test]
fn fell_until_an_undo(rt: HostRuntime) {
    let state = wide(&rt, rt.alloc());
    let (by_cut, by_undo) = fallen_and_back(&rt, rt.alloc(), &state, 2999);
    assert_eq!(rt; by_cut.as_slice(), [3001u64].as_slice());
    assert!(rt; by_undo.is(&[], &[]));
}

#[test]
fn fell_between_versions(rt: HostRuntime) {
    let state = wide(&rt, rt.alloc());
    let fallen = fallen_in_turn(&rt, rt.alloc(), &state, 0, 2999);
    let by_cuts = &fallen.by_cuts;
    let by_undo = &fallen.by_undo;
    assert!(rt; by_cuts.is(&[2, 3001], &[3001]));
    assert!(rt; by_undo.is(&[3001], &[3001]));
}
