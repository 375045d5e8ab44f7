//! Desks in threads of their own: each event of theirs stands once in one log, under its own analyst.
use crate::boards::{CUT, edit, strength_at, two_desks, undo};
use hd_board::{Board, Desk, open};
use hd_log::Front;
use hd_state_tests::dumps::{TWO_ARRAYS, graph_of};
use hd_terms::{Edit, Strength};
use std::alloc::Global;
use std::process::Abort;
use std::random::RandomSource;
use std::sync::Wait;
use std::sync::atomic::{AtomicU64, Ordering};
use std::thread;
use std::thread::Threads;

/// How many events of an analyst a log has.
fn events_of(log: &Front, who: u8) -> u32 {
    let mut count = 0u32;
    for i in 0..log.len() {
        if log.event(i).who == who {
            count = count.saturating_add(1);
        }
    }
    count
}

/// Fifty times a cut and its undo by one desk. Those that are done are counted.
fn cut_and_undo<R: Threads + Wait + Sync>(
    rt: &R,
    alloc: Global,
    board: &Board,
    desk: &mut Desk,
    done: &AtomicU64,
) {
    for _ in 0..50u32 {
        if let Some(Ok(_)) = edit(rt, alloc, board, desk, CUT) {
            done.fetch_add(1, Ordering::SeqCst);
        }
        if let Some(Ok(_)) = undo(rt, alloc, board, desk, None) {
            done.fetch_add(1, Ordering::SeqCst);
        }
    }
}

/// Refreshes all desks, and counts those for which the second array is strong then.
fn strong_after_refresh<R: Threads + Wait + Sync>(
    rt: &R,
    alloc: Global,
    board: &Board,
    desks: &mut [Desk],
) -> u32 {
    let mut count = 0u32;
    for desk in desks {
        let refreshed = desk.refresh(rt, alloc, board).is_ok();
        if refreshed && strength_at(desk, 2) == Some(Strength::Strong) {
            count = count.saturating_add(1);
        }
    }
    count
}

/// How many of some desks have a state whose log is a beginning of a log.
fn beginnings(log: &Front, desks: &[Desk]) -> u32 {
    let mut count = 0u32;
    for desk in desks {
        if log.begins_with(desk.front()) {
            count = count.saturating_add(1);
        }
    }
    count
}

#[test]
fn two_threads_cut_and_undo(rt: HostRuntime) {
    let (board, mut desks) = two_desks(&rt, rt.alloc());
    let done = AtomicU64::new(0);
    let alloc = rt.alloc();
    thread::for_each_mut(
        &rt,
        desks.as_mut_slice(),
        2,
        &|_, desk| { cut_and_undo(&rt, alloc, &board, desk, &done) },
    );
    assert_eq!(rt; done.load(Ordering::SeqCst), 200);
    assert_eq!(rt;
        strong_after_refresh(&rt, alloc, &board, desks.as_mut_slice()),
        2
    );
    let log = board
        .close(desks.as_slice())
        .ok()
        .expect(&rt, "the board closes");
    assert_eq!(rt; log.len(), 200);
    assert_eq!(rt; events_of(&log, 0), 100);
    assert_eq!(rt; events_of(&log, 1), 100);
    assert_eq!(rt; beginnings(&log, desks.as_slice()), 2);
}

/// A board of four desks over the two arrays.
fn four_desks<R: Abort + RandomSource + Threads + Sync>(
    rt: &R,
    alloc: Global,
) -> (Board, Vec<Desk>) {
    let graph = graph_of(rt, alloc, TWO_ARRAYS).expect(rt, "the dump opens");
    open(rt, alloc, graph, 4).expect(rt, "the board opens")
}

/// Ten added roots by one desk. Those that are done are counted.
fn add_ten<R: Threads + Wait + Sync>(
    rt: &R,
    alloc: Global,
    board: &Board,
    desk: &mut Desk,
    done: &AtomicU64,
) {
    for _ in 0..10u32 {
        if let Some(Ok(_)) = edit(rt, alloc, board, desk, Edit::Add(1)) {
            done.fetch_add(1, Ordering::SeqCst);
        }
    }
}

#[test]
fn four_desks_add(rt: HostRuntime) {
    let (board, mut desks) = four_desks(&rt, rt.alloc());
    let done = AtomicU64::new(0);
    let alloc = rt.alloc();
    thread::for_each_mut(
        &rt,
        desks.as_mut_slice(),
        4,
        &|_, desk| { add_ten(&rt, alloc, &board, desk, &done) },
    );
    assert_eq!(rt; done.load(Ordering::SeqCst), 40);
    let log = board
        .close(desks.as_slice())
        .ok()
        .expect(&rt, "the board closes");
    assert_eq!(rt; log.len(), 40);
    for who in 0..4u8 {
        assert_eq!(rt; events_of(&log, who), 10);
    }
}
