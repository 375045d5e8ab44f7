//! States: a step answers a new one and keeps the old one, and their slots. A state that is let go is long to prove, so each
//! function holds one at most, and answers what is seen of it.
use crate::dumps::{GROUPS, TWO_ARRAYS, graph_of};
use hd_queries::opening_totals;
use hd_state::{Done, State};
use hd_terms::{
    EdgeKind, Edit, Event, Group, LogFault, RootMode, RootRow, Slot, SlotMode, SlotRow, Strength,
    What,
};
use std::alloc::Global;
use std::process::Abort;
use std::random::RandomSource;
use std::thread::Threads;

/// A cut of the first array's reference to the second, and its undo as the first event.
const CUT: Event = Event {
    who: 3,
    what: What::Do(Edit::Cut(1, Slot::Element(0))),
};

const UNDO: Event = Event {
    who: 3,
    what: What::Undo(0),
};

/// What is seen of a state: how many events its log has, how well the second array can be reached, and why the log doesn't
/// take the undo, if it doesn't.
type Seen = (u32, Option<Strength>, Option<LogFault>);

/// The state of the two arrays under the empty log.
fn opened<R: Abort + RandomSource + Threads + Sync>(rt: &R, alloc: Global) -> State {
    let graph = graph_of(rt, alloc, TWO_ARRAYS).expect(rt, "the dump opens");
    State::open(rt, alloc, graph).expect(rt, "the state opens")
}

/// The strength of the object of an ID.
fn strength_in(state: &State, id: u64) -> Option<Strength> {
    let o = state.graph().index_of(id)?;
    Some(state.strength(o))
}

fn seen(state: &State) -> Seen {
    let fault = state.front().next_fault(&UNDO);
    (state.front().len(), strength_in(state, 2), fault)
}

/// The state after one more event, which its log has to take, and what the event did.
fn stepped<R: Abort + Threads + Sync>(
    rt: &R,
    alloc: Global,
    state: &State,
    event: Event,
) -> (State, Done) {
    let fault = state.front().next_fault(&event);
    assert!(rt; fault.is_none(), "the log takes the event");
    state.step(rt, alloc, event).expect(rt, "the step is taken")
}

/// What is seen of the state after one more event, and what the event did.
fn seen_after<R: Abort + Threads + Sync>(
    rt: &R,
    alloc: Global,
    state: &State,
    event: Event,
) -> (Seen, Done) {
    let (next, done) = stepped(rt, alloc, state, event);
    (seen(&next), done)
}

/// What is seen of the state after the undo, what the undo did, and then what is seen of the state after the cut.
fn seen_after_undo<R: Abort + Threads + Sync>(
    rt: &R,
    alloc: Global,
    state: &State,
) -> (Seen, Done, Seen) {
    let (next, _) = stepped(rt, alloc, state, CUT);
    let (last, done) = seen_after(rt, alloc, &next, UNDO);
    (last, done, seen(&next))
}

#[test]
fn steps_keep_old_states(rt: HostRuntime) {
    let state = opened(&rt, rt.alloc());
    let (last, done, next) = seen_after_undo(&rt, rt.alloc(), &state);
    assert_eq!(rt; (done.event, done.fell, done.back), (1, 0, 1));
    assert!(rt; last == (2, Some(Strength::Strong), Some(LogFault::NotLive)));
    assert!(rt; next == (1, Some(Strength::Unreachable), None));
    assert!(rt; seen(&state) == (0, Some(Strength::Strong), Some(LogFault::NoSuchEvent)));
    let counted = opening_totals(&rt, rt.alloc(), state.graph());
    let totals = counted.expect(&rt, "the totals are counted");
    assert_eq!(rt; totals.of(Strength::Strong).bytes, 12);
}

/// How many objects of a few groups are strong, and their recorded bytes: the array of class 0x99, the class, and arrays of
/// ints, of which there are none.
fn strong_totals(state: &State) -> [(u64, u64); 3] {
    [
        state.total(Group::Class(0x99), Strength::Strong),
        state.total(Group::Classes, Strength::Strong),
        state.total(Group::Prim(10), Strength::Strong),
    ]
}

/// The totals of the opened dump of groups.
fn totals_of_groups_in<R: Abort + RandomSource + Threads + Sync>(
    rt: &R,
    alloc: Global,
) -> [(u64, u64); 3] {
    let graph = graph_of(rt, alloc, GROUPS).expect(rt, "the dump opens");
    let state = State::open(rt, alloc, graph).expect(rt, "the state opens");
    strong_totals(&state)
}

#[test]
fn totals_of_groups(rt: HostRuntime) {
    let totals = totals_of_groups_in(&rt, rt.alloc());
    assert!(rt; totals == [(1, 8), (1, 0), (0, 0)]);
}

/// How many slots the object of an ID has in a state, and the third of them.
fn third_slot<R: Abort + Threads + Sync>(
    rt: &R,
    alloc: Global,
    state: &State,
    id: u64,
) -> (usize, SlotRow) {
    let o = state
        .graph()
        .index_of(id)
        .expect(rt, "the dump has the object");
    let rows = state.slots(alloc, o).expect(rt, "the slots are listed");
    let third = rows.get(2).expect(rt, "the object has a third slot");
    (rows.len(), *third)
}

#[test]
fn slots_of_a_state(rt: HostRuntime) {
    let state = opened(&rt, rt.alloc());
    let (len, row) = third_slot(&rt, rt.alloc(), &state, 1);
    let third = SlotRow {
        slot: Slot::Element(2),
        kind: EdgeKind::Strong,
        id: 9,
        mode: SlotMode::Absent,
    };
    assert_eq!(rt; len, 4);
    assert!(rt; row == third);
}

/// The last root row after an event, and whether the root of a number and the first slot's reference stand then.
fn last_root<R: Abort + Threads + Sync>(
    rt: &R,
    alloc: Global,
    state: &State,
    event: Event,
    r: u64,
) -> (RootRow, bool, bool) {
    let (next, _) = stepped(rt, alloc, state, event);
    let rows = next.roots(alloc).expect(rt, "the roots are listed");
    let last = rows.last().expect(rt, "the state has a root");
    (*last, next.root_stands(r), next.edge_stands(0, 0))
}

#[test]
fn roots_of_a_state(rt: HostRuntime) {
    let add = Event {
        who: 0,
        what: What::Do(Edit::Add(9)),
    };
    let state = opened(&rt, rt.alloc());
    let roots = u64::from(state.graph().roots_len());
    let (last, root_stands, edge_stands) = last_root(&rt, rt.alloc(), &state, add, roots);
    let added = RootRow {
        number: roots,
        kind: None,
        id: 9,
        mode: RootMode::Absent,
    };
    assert!(rt; last == added);
    assert!(rt; root_stands && edge_stands);
    assert!(rt; !state.root_stands(roots));
}
