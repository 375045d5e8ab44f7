//! Boards over the two arrays, and what their desks answer, in forms that a test compares.
use hd_board::{AppendFault, Board, CloseFault, Desk, EditFault, UndoFault, open};
use hd_state_tests::dumps::{TWO_ARRAYS, graph_of};
use hd_terms::{Edit, Refusal, Slot, Strength};
use std::alloc::Global;
use std::process::Abort;
use std::random::RandomSource;
use std::sync::Wait;
use std::thread::Threads;

/// A cut of the first array's reference to the second.
pub const CUT: Edit = Edit::Cut(1, Slot::Element(0));

/// What an edit or an undo is answered: its number, how many objects fell and how many came back; or why it is refused; or
/// nothing where a log is foreign or memory ran out.
pub type Answer = Option<Result<(u32, u64, u64), Refusal>>;

/// A board of two desks over the two arrays.
pub fn two_desks<R: Abort + RandomSource + Threads + Sync>(
    rt: &R,
    alloc: Global,
) -> (Board, Vec<Desk>) {
    let graph = graph_of(rt, alloc, TWO_ARRAYS).expect(rt, "the dump opens");
    open(rt, alloc, graph, 2).expect(rt, "the board opens")
}

/// The first two of these desks.
pub fn first_two<'a, R: Abort>(rt: &R, desks: &'a mut [Desk]) -> (&'a mut Desk, &'a mut Desk) {
    let (first, others) = desks.split_first_mut().expect(rt, "there is a first desk");
    let second = others.first_mut().expect(rt, "there is a second desk");
    (first, second)
}

/// What a desk answers to an edit.
pub fn edit<R: Threads + Wait + Sync>(
    rt: &R,
    alloc: Global,
    board: &Board,
    desk: &mut Desk,
    edit: Edit,
) -> Answer {
    match desk.edit(rt, alloc, board, edit) {
        Ok(done) => Some(Ok((done.event, done.fell, done.back))),
        Err(EditFault::Refused(refusal)) => Some(Err(refusal)),
        Err(EditFault::Append(AppendFault::Refused(refusal, _))) => Some(Err(refusal)),
        Err(_) => None,
    }
}

/// Does the cut by a desk.
pub fn cut<R: Abort + Threads + Wait + Sync>(
    rt: &R,
    alloc: Global,
    board: &Board,
    desk: &mut Desk,
) {
    let answer = edit(rt, alloc, board, desk, CUT);
    answer
        .expect(rt, "the cut is answered")
        .expect(rt, "the cut is taken");
}

/// What a desk answers to the undo of an event, or without a number of its last live edit.
pub fn undo<R: Threads + Wait + Sync>(
    rt: &R,
    alloc: Global,
    board: &Board,
    desk: &mut Desk,
    number: Option<u32>,
) -> Answer {
    let done = match number {
        Some(k) => desk.undo(rt, alloc, board, k),
        None => desk.undo_last(rt, alloc, board),
    };
    match done {
        Ok(done) => Some(Ok((done.event, done.fell, done.back))),
        Err(UndoFault::NothingToUndo) => Some(Err(Refusal::NothingToUndo)),
        Err(UndoFault::Append(AppendFault::Refused(refusal, _))) => Some(Err(refusal)),
        Err(_) => None,
    }
}

/// The strength of the object of an ID, in a desk's state.
pub fn strength_at(desk: &Desk, id: u64) -> Option<Strength> {
    let o = desk.graph().index_of(id)?;
    Some(desk.state().strength(o))
}

/// How many events the log of a board has that is closed with some desks, or whether one is missing where it can't be closed.
pub fn closed(board: Board, desks: &[Desk]) -> Result<u32, bool> {
    match board.close(desks) {
        Ok(log) => Ok(log.len()),
        Err(CloseFault::MissingDesk(_)) => Err(true),
        Err(CloseFault::Mismatch(_)) => Err(false),
    }
}
