//! Two desks in one thread: whose edits they may take back, what they learn of one another, and how a board is closed.
use crate::boards::{Answer, CUT, closed, cut, edit, first_two, strength_at, two_desks, undo};
use hd_board::{Board, Desk, LearnFault, RefreshFault, open};
use hd_state_tests::dumps::{SOFT_THEN_WEAK, graph_of, wide_array};
use hd_terms::{Edit, LogFault, Refusal, Slot, Strength};
use std::alloc::Global;
use std::process::Abort;
use std::random::RandomSource;
use std::sync::Wait;
use std::thread::Threads;

/// What the desk of a place among others answers to an edit.
fn edit_by<R: Abort + Threads + Wait + Sync>(
    rt: &R,
    alloc: Global,
    board: &Board,
    desks: &mut [Desk],
    i: usize,
    asked: Edit,
) -> Answer {
    let desk = desks.get_mut(i).expect(rt, "there is such a desk");
    edit(rt, alloc, board, desk, asked)
}

/// What the desk of a place among others answers to the undo of an event.
fn undo_by<R: Abort + Threads + Wait + Sync>(
    rt: &R,
    alloc: Global,
    board: &Board,
    desks: &mut [Desk],
    i: usize,
    k: u32,
) -> Answer {
    let desk = desks.get_mut(i).expect(rt, "there is such a desk");
    undo(rt, alloc, board, desk, Some(k))
}

#[test]
fn two_cuts_of_one_slot(rt: HostRuntime) {
    let (board, mut desks) = two_desks(&rt, rt.alloc());
    let desks = desks.as_mut_slice();
    assert!(rt; edit_by(&rt, rt.alloc(), &board, desks, 0, CUT) == Some(Ok((0, 1, 0))));
    assert!(rt; edit_by(&rt, rt.alloc(), &board, desks, 1, CUT) == Some(Ok((1, 0, 0))));
    let not_yours = Some(Err(Refusal::Log(LogFault::NotYours)));
    assert!(rt; undo_by(&rt, rt.alloc(), &board, desks, 0, 1) == not_yours);
    assert!(rt; undo_by(&rt, rt.alloc(), &board, desks, 0, 0) == Some(Ok((2, 0, 0))));
    assert!(rt; undo_by(&rt, rt.alloc(), &board, desks, 1, 1) == Some(Ok((3, 0, 1))));
}

/// The first desk cuts a field in a whole class, and the second cuts it in one object of the class. Both are taken back, first
/// by the first desk and then in the other order.
#[test]
fn field_cut_in_a_class_and_in_an_object(rt: HostRuntime) {
    let graph = graph_of(&rt, rt.alloc(), SOFT_THEN_WEAK).expect(&rt, "the dump opens");
    let (board, mut desks) = open(&rt, rt.alloc(), graph, 2).expect(&rt, "the board opens");
    let desks = desks.as_mut_slice();
    let cut_all = Edit::CutAll(0x12, 0);
    let cut = Edit::Cut(0x21, Slot::Field(0));
    assert!(rt; edit_by(&rt, rt.alloc(), &board, desks, 0, cut_all) == Some(Ok((0, 5, 0))));
    assert!(rt; edit_by(&rt, rt.alloc(), &board, desks, 1, cut) == Some(Ok((1, 0, 0))));
    assert!(rt; undo_by(&rt, rt.alloc(), &board, desks, 0, 0) == Some(Ok((2, 0, 2))));
    assert!(rt; undo_by(&rt, rt.alloc(), &board, desks, 1, 1) == Some(Ok((3, 0, 3))));
    assert!(rt; edit_by(&rt, rt.alloc(), &board, desks, 0, cut_all) == Some(Ok((4, 5, 0))));
    assert!(rt; edit_by(&rt, rt.alloc(), &board, desks, 1, cut) == Some(Ok((5, 0, 0))));
    assert!(rt; undo_by(&rt, rt.alloc(), &board, desks, 1, 5) == Some(Ok((6, 0, 0))));
    assert!(rt; undo_by(&rt, rt.alloc(), &board, desks, 0, 4) == Some(Ok((7, 0, 5))));
}

/// A board of two desks over the array of 3,000 references.
fn two_wide_desks<R: Abort + RandomSource + Threads + Sync>(
    rt: &R,
    alloc: Global,
) -> (Board, Vec<Desk>) {
    let text = wide_array(alloc).expect(rt, "the text is made");
    let graph = graph_of(rt, alloc, text.as_str()).expect(rt, "the dump opens");
    open(rt, alloc, graph, 2).expect(rt, "the board opens")
}

#[test]
fn desks_share_pages(rt: HostRuntime) {
    let (board, mut desks) = two_wide_desks(&rt, rt.alloc());
    let (first, second) = first_two(&rt, desks.as_mut_slice());
    let cut = Edit::Cut(1, Slot::Element(2999));
    assert!(rt; edit(&rt, rt.alloc(), &board, first, cut) == Some(Ok((0, 1, 0))));
    assert!(rt; strength_at(first, 3001) == Some(Strength::Unreachable));
    assert!(rt; strength_at(second, 3001) == Some(Strength::Strong));
}

/// What a desk that cuts and a desk that learns of it show: the strength of the second array before the learner catches up,
/// whether the learner is behind, and the strength after.
type Learned = (Option<Strength>, bool, Option<Strength>);

/// The first desk cuts, and the second learns what the first has seen.
fn learn_from<R: Abort + RandomSource + Threads + Wait + Sync>(rt: &R, alloc: Global) -> Learned {
    let (board, mut desks) = two_desks(rt, alloc);
    let (first, second) = first_two(rt, desks.as_mut_slice());
    cut(rt, alloc, &board, first);
    second
        .learn(first.seen())
        .expect(rt, "the second desk learns");
    let before = strength_at(second, 2);
    let behind = second.is_behind();
    second
        .catch_up(rt, alloc)
        .expect(rt, "the second desk catches up");
    (before, behind, strength_at(second, 2))
}

/// The first desk cuts, and the second is refreshed.
fn refreshed_after_cut<R: Abort + RandomSource + Threads + Wait + Sync>(
    rt: &R,
    alloc: Global,
) -> Learned {
    let (board, mut desks) = two_desks(rt, alloc);
    let (first, second) = first_two(rt, desks.as_mut_slice());
    cut(rt, alloc, &board, first);
    let before = strength_at(second, 2);
    second
        .refresh(rt, alloc, &board)
        .ok()
        .expect(rt, "the second desk is refreshed");
    (before, second.is_behind(), strength_at(second, 2))
}

#[test]
fn learn_and_refresh(rt: HostRuntime) {
    let learned = learn_from(&rt, rt.alloc());
    assert!(rt; learned == (Some(Strength::Strong), true, Some(Strength::Unreachable)));
    let refreshed = refreshed_after_cut(&rt, rt.alloc());
    assert!(rt; refreshed == (Some(Strength::Strong), false, Some(Strength::Unreachable)));
}

/// Adds a root by the first desk of a board.
fn add_by_first<R: Abort + Threads + Wait + Sync>(
    rt: &R,
    alloc: Global,
    board: &Board,
    desks: &mut [Desk],
) {
    let answer = edit_by(rt, alloc, board, desks, 0, Edit::Add(1));
    answer
        .expect(rt, "the edit is answered")
        .expect(rt, "the root is added");
}

/// Whether a desk answers that what another has seen stands apart, and that another's board is foreign.
fn is_apart<R: Threads + Wait + Sync>(
    rt: &R,
    alloc: Global,
    desk: &mut Desk,
    other: &Board,
    told: &Desk,
) -> bool {
    let apart = matches!(desk.learn(told.seen()), Err(LearnFault::Apart));
    let foreign = matches!(
        desk.refresh(rt, alloc, other),
        Err(RefreshFault::Foreign(_))
    );
    apart && foreign
}

/// Whether a desk that has seen another's cut stands apart from a second board, on which a root was added; and then how many
/// events it has seen, how far its state has come, and how well that reaches the second array.
fn stands_apart<R: Abort + RandomSource + Threads + Wait + Sync>(
    rt: &R,
    alloc: Global,
) -> (bool, u32, u32, Option<Strength>) {
    let (board, mut desks) = two_desks(rt, alloc);
    let (other, mut others) = two_desks(rt, alloc);
    let answer = edit_by(rt, alloc, &board, desks.as_mut_slice(), 0, CUT);
    answer
        .expect(rt, "the cut is answered")
        .expect(rt, "the cut is taken");
    add_by_first(rt, alloc, &other, others.as_mut_slice());
    let desk = desks
        .as_mut_slice()
        .get_mut(1)
        .expect(rt, "there is a second desk");
    desk.refresh(rt, alloc, &board)
        .ok()
        .expect(rt, "the second desk is refreshed");
    let told = others
        .as_slice()
        .first()
        .expect(rt, "the other board has a desk");
    let apart = is_apart(rt, alloc, desk, &other, told);
    (
        apart,
        desk.seen().len(),
        desk.front().len(),
        strength_at(desk, 2),
    )
}

#[test]
fn boards_stand_apart(rt: HostRuntime) {
    let apart = stands_apart(&rt, rt.alloc());
    assert!(rt; apart == (true, 1, 1, Some(Strength::Unreachable)));
}

/// A board closed with `n` of its two desks.
fn closed_with_some<R: Abort + RandomSource + Threads + Sync>(
    rt: &R,
    alloc: Global,
    n: usize,
) -> Result<u32, bool> {
    let (board, desks) = two_desks(rt, alloc);
    let some = desks
        .as_slice()
        .get(..n)
        .expect(rt, "the board has these desks");
    closed(board, some)
}

/// A board closed with the first desk of another board, which has added a root.
fn closed_with_another<R: Abort + RandomSource + Threads + Wait + Sync>(
    rt: &R,
    alloc: Global,
) -> Result<u32, bool> {
    let (board, _) = two_desks(rt, alloc);
    let (other, mut others) = two_desks(rt, alloc);
    add_by_first(rt, alloc, &other, others.as_mut_slice());
    let first = others
        .as_slice()
        .get(..1)
        .expect(rt, "the other board has a desk");
    closed(board, first)
}

#[test]
fn close_of_desks(rt: HostRuntime) {
    assert!(rt; closed_with_some(&rt, rt.alloc(), 1) == Err(true));
    assert!(rt; closed_with_some(&rt, rt.alloc(), 2) == Ok(0));
    assert!(rt; closed_with_another(&rt, rt.alloc()) == Err(false));
}
