//! A private board: it begins at the log of a desk's state, and leaves that desk and its board as they are.
use crate::boards::{Answer, CUT, closed, cut, edit, first_two, strength_at, two_desks, undo};
use hd_board::{Board, Desk};
use hd_terms::{Edit, LogFault, Refusal, Strength};
use std::alloc::Global;
use std::process::Abort;
use std::random::RandomSource;
use std::sync::Wait;
use std::thread::Threads;

/// A board on which the first desk has cut and the second is refreshed.
fn cut_and_refreshed<R: Abort + RandomSource + Threads + Wait + Sync>(
    rt: &R,
    alloc: Global,
) -> (Board, Vec<Desk>) {
    let (board, mut desks) = two_desks(rt, alloc);
    let (first, second) = first_two(rt, desks.as_mut_slice());
    cut(rt, alloc, &board, first);
    second
        .refresh(rt, alloc, &board)
        .ok()
        .expect(rt, "the second desk is refreshed");
    (board, desks)
}

/// What the desk of a private board answers to the undo of the base's cut, to a cut, and to an added root.
fn private_answers<R: Threads + Wait + Sync>(
    rt: &R,
    alloc: Global,
    board: &Board,
    desk: &mut Desk,
) -> [Answer; 3] {
    [
        undo(rt, alloc, board, desk, Some(0)),
        edit(rt, alloc, board, desk, CUT),
        edit(rt, alloc, board, desk, Edit::Add(2)),
    ]
}

#[test]
fn forked_desk(rt: HostRuntime) {
    let (board, desks) = cut_and_refreshed(&rt, rt.alloc());
    let forked = desks
        .as_slice()
        .get(1)
        .expect(&rt, "there is a second desk");
    let (private, mut desk) = Board::fork(forked).expect(&rt, "the desk is forked");
    let answers = private_answers(&rt, rt.alloc(), &private, &mut desk);
    let not_yours = Some(Err(Refusal::Log(LogFault::NotYours)));
    assert!(rt; answers == [not_yours, Some(Ok((1, 0, 0))), Some(Ok((2, 0, 1)))]);
    assert!(rt; strength_at(&desk, 2) == Some(Strength::Strong));
    assert!(rt; strength_at(forked, 2) == Some(Strength::Unreachable));
    assert!(rt; closed(board, desks.as_slice()) == Ok(1));
    let own = [desk];
    assert!(rt; closed(private, &own) == Ok(3));
}

/// The private board of the second desk, after a cut by its own desk; and the desks of the first board.
fn private_board<R: Abort + RandomSource + Threads + Wait + Sync>(
    rt: &R,
    alloc: Global,
) -> (Board, Vec<Desk>) {
    let (_, desks) = cut_and_refreshed(rt, alloc);
    let forked = desks.as_slice().get(1).expect(rt, "there is a second desk");
    let (private, mut desk) = Board::fork(forked).expect(rt, "the desk is forked");
    cut(rt, alloc, &private, &mut desk);
    (private, desks)
}

/// The private board closed with the desk that was forked, or with none.
fn closed_from<R: Abort + RandomSource + Threads + Wait + Sync>(
    rt: &R,
    alloc: Global,
    first: usize,
) -> Result<u32, bool> {
    let (private, desks) = private_board(rt, alloc);
    let some = desks
        .as_slice()
        .get(first..)
        .expect(rt, "the board has these desks");
    closed(private, some)
}

#[test]
fn close_of_a_private_board(rt: HostRuntime) {
    assert!(rt; closed_from(&rt, rt.alloc(), 1) == Err(false));
    assert!(rt; closed_from(&rt, rt.alloc(), 2) == Err(true));
}

/// What the desk of a private board answers to an added root, where the desk that was forked had seen a cut and not come to
/// it; and how many events the private board has then.
fn forked_behind<R: Abort + RandomSource + Threads + Wait + Sync>(
    rt: &R,
    alloc: Global,
) -> (Answer, Result<u32, bool>) {
    let (board, mut desks) = two_desks(rt, alloc);
    let (first, second) = first_two(rt, desks.as_mut_slice());
    cut(rt, alloc, &board, first);
    second
        .learn(first.seen())
        .expect(rt, "the second desk learns");
    let (private, mut desk) = Board::fork(second).expect(rt, "the desk is forked");
    let added = edit(rt, alloc, &private, &mut desk, Edit::Add(2));
    let own = [desk];
    (added, closed(private, &own))
}

#[test]
fn fork_of_a_desk_that_is_behind(rt: HostRuntime) {
    let forked = forked_behind(&rt, rt.alloc());
    assert!(rt; forked == (Some(Ok((0, 0, 0))), Ok(1)));
}
