//! What moved and what was freed by a cut, in a small dump.
ghost use Rattle.std.specs.Prelude.{◌≡◌};

use crate::dumps::{SOFT_THEN_WEAK, graph_of};
use hd_queries::Freed;
use hd_state::{Mark, State};
use hd_terms::{ClassRow, Edit, Event, Group, MovedRow, Slot, Strength, What};
use std::alloc::Global;
use std::process::Abort;
use std::random::RandomSource;
use std::thread::Threads;

/// The cut of the second element of the array 1.
const CUT: Event = Event {
    who: 0,
    what: What::Do(Edit::Cut(1, Slot::Element(1))),
};

/// What moved and what was freed.
#[derive(Drop)]
struct Since {
    moved: Vec<MovedRow>,
    freed: Freed,
}

/// What moved and what was freed in a state since a mark.
fn list_since<R: Abort>(rt: &R, alloc: Global, state: &State, mark: &Mark) -> Since
    requires { mark.now.dump ≡ state.now.dump }
{
    let moved = state.moved(alloc, mark).expect(rt, "what moved is listed");
    let freed = state
        .freed(alloc, mark)
        .expect(rt, "what was freed is listed");
    Since { moved, freed }
}

/// The same since the opening, after the cut.
fn since_cut<R: Abort + Threads + Sync>(rt: &R, alloc: Global, state: &State) -> Since {
    let opening = state.mark().expect(rt, "the state is marked");
    let fault = state.front().next_fault(&CUT);
    assert!(rt; fault.is_none(), "the log takes the event");
    let (next, _done) = state.step(rt, alloc, CUT).expect(rt, "the step is taken");
    list_since(rt, alloc, &next, &opening)
}

/// The opening state of the dump.
fn opened<R: Abort + RandomSource + Threads + Sync>(rt: &R, alloc: Global) -> State {
    let graph = graph_of(rt, alloc, SOFT_THEN_WEAK).expect(rt, "the dump opens");
    State::open(rt, alloc, graph).expect(rt, "the state opens")
}

/// A row of moved objects.
fn moved_row(before: Strength, after: Strength, count: u64, bytes: u64) -> MovedRow {
    MovedRow {
        before,
        after,
        count,
        bytes,
    }
}

/// A row of a class.
fn class_row(id: u64, count: u64, bytes: u64) -> ClassRow {
    ClassRow {
        group: Group::Class(id),
        count,
        bytes,
    }
}

#[test]
fn moved_and_freed_by_a_cut(rt: HostRuntime) {
    let state = opened(&rt, rt.alloc());
    let since = since_cut(&rt, rt.alloc(), &state);
    let lost = moved_row(Strength::Strong, Strength::Unreachable, 1, 4);
    let weaker = moved_row(Strength::Soft, Strength::Weak, 1, 0);
    let gone = moved_row(Strength::Soft, Strength::Unreachable, 1, 4);
    assert!(rt; since.moved.as_slice() == [lost, weaker, gone].as_slice());
    assert!(rt; since.freed.total.count == 2);
    assert!(rt; since.freed.total.bytes == 8);
    let rows = [class_row(0, 1, 4), class_row(0x12, 1, 4)];
    assert!(rt; since.freed.rows.as_slice() == rows.as_slice());
}
