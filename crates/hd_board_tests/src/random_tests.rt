//! Sixteen desks in threads of their own with random edits and undos: they hold one log, and each desk's strengths are those
//! of a search from scratch under it.
use crate::boards::{edit, undo};
use hd_board::{Board, Desk, open};
use hd_graph::Graph;
use hd_log::Front;
use hd_state_tests::dumps::graph_of;
use hd_state_tests::random::next_random;
use hd_strength::from_scratch;
use hd_supports::Strengths;
use hd_terms::{Edit, Slot};
use std::alloc::Global;
use std::process::Abort;
use std::sync::atomic::{AtomicU64, Ordering};
use std::sync::{Arc, Wait};
use std::thread;
use std::thread::Threads;

/// Eight arrays with many references among them, and roots on two of them.
const DENSE: &str =
    "ids 4\nsegment\nroot 1\nroot 4\narray 1: 2 3 5\narray 2: 3 1 4\narray 3: 4 4 6\narray 4: 5 2 0\n\
    array 5: 1 6 7\narray 6: 7 3 8\narray 7: 8 8 1\narray 8: 5 2 3\n";

/// A random edit: a cut more often than a root that is added or dropped.
fn random_edit(x: u64) -> Edit {
    let id = 1 + (x >> 8) % 8;
    match x % 8 {
        0 => Edit::Add(id),
        1 => Edit::Drop((x >> 16) % 20),
        _ => Edit::Cut(id, Slot::Element(((x >> 16) % 3) as u32)),
    }
}

/// A random edit or undo of a desk. Whether it was done or refused for a reason of the dump or of the log.
fn random_call<R: Threads + Wait + Sync>(
    rt: &R,
    alloc: Global,
    board: &Board,
    desk: &mut Desk,
    x: u64,
) -> bool {
    let answer = match (x >> 32) % 4 {
        0 => undo(rt, alloc, board, desk, None),
        1 => undo(rt, alloc, board, desk, Some(((x >> 40) % 256) as u32)),
        _ => edit(rt, alloc, board, desk, random_edit(x)),
    };
    answer.is_some()
}

/// A hundred random calls of a desk. Those that are answered otherwise than by a desk of the board's own are counted.
fn hundred_calls<R: Threads + Wait + Sync>(
    rt: &R,
    alloc: Global,
    board: &Board,
    desk: &mut Desk,
    wrong: &AtomicU64,
) {
    let mut x = next_random(0x9E37_79B9_7F4A_7C15 ^ u64::from(desk.who()));
    for _ in 0..100u32 {
        x = next_random(x);
        if !random_call(rt, alloc, board, desk, x) {
            wrong.fetch_add(1, Ordering::SeqCst);
        }
    }
}

/// Whether a desk, once refreshed, has seen the events of a log and answers these strengths.
fn agrees<R: Threads + Wait + Sync>(
    rt: &R,
    alloc: Global,
    board: &Board,
    desk: &mut Desk,
    log: &Front,
    strengths: &Strengths,
) -> bool {
    if desk.refresh(rt, alloc, board).is_err() || !desk.front().begins_with(log) {
        return false;
    }
    for o in 0..desk.graph().objects() {
        if o >= strengths.len() || desk.state().strength(o) != strengths.strength(o) {
            return false;
        }
    }
    true
}

/// How many desks agree with a search from scratch under a log.
fn agreeing<R: Abort + Threads + Sync + Wait>(
    rt: &R,
    alloc: Global,
    board: &Board,
    desks: &mut [Desk],
    graph: &Graph,
    log: &Front,
) -> u32 {
    let strengths = from_scratch(rt, alloc, graph, log).expect(rt, "the search comes to its end");
    let mut count = 0u32;
    for desk in desks {
        if agrees(rt, alloc, board, desk, log, &strengths) {
            count = count.saturating_add(1);
        }
    }
    count
}

/// The log that the first desk sees at last.
fn last_log<R: Abort + Threads + Wait + Sync>(
    rt: &R,
    alloc: Global,
    board: &Board,
    desks: &mut [Desk],
) -> Front {
    let desk = desks.first_mut().expect(rt, "there is a first desk");
    desk.refresh(rt, alloc, board)
        .ok()
        .expect(rt, "the first desk is refreshed");
    desk.seen().share().expect(rt, "the log is shared")
}

/// A board of sixteen desks over the dense dump.
fn sixteen_desks<R: Abort + Threads + Sync>(
    rt: &R,
    alloc: Global,
    graph: &Arc<Graph>,
) -> (Board, Vec<Desk>) {
    let graph = Arc::try_clone(graph).expect(rt, "the graph is shared");
    open(rt, alloc, graph, 16).expect(rt, "the board opens")
}

#[test]
fn sixteen_threads(rt: HostRuntime) {
    let alloc = rt.alloc();
    let graph = graph_of(&rt, alloc, DENSE).expect(&rt, "the dump opens");
    let (board, mut desks) = sixteen_desks(&rt, alloc, &graph);
    let wrong = AtomicU64::new(0);
    thread::for_each_mut(
        &rt,
        desks.as_mut_slice(),
        16,
        &|_, desk| { hundred_calls(&rt, alloc, &board, desk, &wrong) },
    );
    assert_eq!(rt; wrong.load(Ordering::SeqCst), 0);
    let log = last_log(&rt, alloc, &board, desks.as_mut_slice());
    let agreeing = agreeing(&rt, alloc, &board, desks.as_mut_slice(), &graph, &log);
    assert_eq!(rt; agreeing, 16);
    let closed = board
        .close(desks.as_slice())
        .ok()
        .expect(&rt, "the board closes");
    assert!(rt; closed.begins_with(&log) && log.begins_with(&closed));
    assert!(rt; closed.len() > 800);
}
