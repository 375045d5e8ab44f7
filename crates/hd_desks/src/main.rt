//! Two desks of one board over two arrays: what a few calls answer, and what the desks show after each.
//!
//! The stored output is what they answer with ample memory. `checks/refuse_desks.py` runs the program with each allocation
//! refused in turn.
#![tactic(auto)]

use hd_board::{AppendFault, Board, Desk, EditFault, RefreshFault, UndoFault, open};
use hd_state::Done;
use hd_state_tests::dumps::{TWO_ARRAYS, graph_of};
use hd_terms::{Edit, Slot, Strength};
use std::alloc::Global;
use std::io;
use std::random::RandomSource;
use std::sync::Wait;
use std::thread::Threads;

/// A board of two desks over the two arrays.
fn two_desks<R: RandomSource + Threads + Sync>(
    rt: &R,
    alloc: Global,
) -> Option<(Board, Vec<Desk>)> {
    let graph = graph_of(rt, alloc, TWO_ARRAYS)?;
    open(rt, alloc, graph, 2).ok()
}

/// Prints what an edit or an undo did.
fn print_done(rt: &impl Print, name: &str, done: Done) -> io::Result<()> {
    let (event, fell, back) = (done.event, done.fell, done.back);
    println!(rt; "{name}: event {event} fell {fell} back {back}")?;
    Ok(())
}

/// What an append is refused for, in one word.
fn append_fault_name(fault: &AppendFault) -> &'static str {
    match fault {
        AppendFault::Foreign(_) => "Foreign",
        AppendFault::Refused(_, _) => "Refused",
        AppendFault::OutOfMemory => "OutOfMemory",
    }
}

/// Prints that an edit or an undo stands in the log, and that the desk couldn't come to it.
fn print_accepted(rt: &impl Print, name: &str, event: u32) -> io::Result<()> {
    println!(rt; "{name}: Accepted {event}")?;
    Ok(())
}

/// Prints what a desk answers to a cut of the first array's reference to the second.
fn print_cut<R: Threads + Wait + Print + AllocGlobal + Sync>(
    rt: &R,
    board: &Board,
    desk: &mut Desk,
) -> io::Result<()> {
    let fault = match desk.edit(rt, rt.alloc(), board, Edit::Cut(1, Slot::Element(0))) {
        Ok(done) => return print_done(rt, "cut", done),
        Err(EditFault::Accepted { event }) => return print_accepted(rt, "cut", event),
        Err(EditFault::Behind) => "Behind",
        Err(EditFault::Refused(_)) => "RefusedByDump",
        Err(EditFault::Append(fault)) => append_fault_name(&fault),
    };
    println!(rt; "cut: {fault}")?;
    Ok(())
}

/// Prints what a desk answers to the undo of its last live edit.
fn print_undo<R: Threads + Wait + Print + AllocGlobal + Sync>(
    rt: &R,
    board: &Board,
    desk: &mut Desk,
) -> io::Result<()> {
    let fault = match desk.undo_last(rt, rt.alloc(), board) {
        Ok(done) => return print_done(rt, "undo", done),
        Err(UndoFault::Accepted { event }) => return print_accepted(rt, "undo", event),
        Err(UndoFault::Behind) => "Behind",
        Err(UndoFault::NothingToUndo) => "NothingToUndo",
        Err(UndoFault::Append(fault)) => append_fault_name(&fault),
    };
    println!(rt; "undo: {fault}")?;
    Ok(())
}

/// Prints what a desk answers to a refresh.
fn print_refresh<R: Threads + Wait + Print + AllocGlobal + Sync>(
    rt: &R,
    board: &Board,
    desk: &mut Desk,
) -> io::Result<()> {
    let answer = match desk.refresh(rt, rt.alloc(), board) {
        Ok(()) => "ok",
        Err(RefreshFault::Foreign(_)) => "Foreign",
        Err(RefreshFault::Behind) => "Behind",
        Err(RefreshFault::OutOfMemory) => "OutOfMemory",
    };
    println!(rt; "refresh: {answer}")?;
    Ok(())
}

/// The strength of the second array in a desk's state.
fn second_strength(desk: &Desk) -> Option<Strength> {
    let o = desk.graph().index_of(2)?;
    Some(desk.state().strength(o))
}

/// Prints what a desk has seen, how far its state has come, and how well its state reaches the second array.
fn print_desk(rt: &impl Print, desk: &Desk) -> io::Result<()> {
    let (who, seen, front) = (desk.who(), desk.seen().len(), desk.front().len());
    let strength = second_strength(desk).unwrap_or(Strength::Unreachable);
    println!(rt; "desk {who}: seen {seen} front {front} {strength:?}")?;
    Ok(())
}

/// The calls of the first desk: a cut, and a refresh by which it comes to it where memory ran out on the way.
fn print_first_calls<R: Threads + Wait + Print + AllocGlobal + Sync>(
    rt: &R,
    board: &Board,
    desk: &mut Desk,
) -> io::Result<()> {
    print_cut(rt, board, desk)?;
    print_desk(rt, desk)?;
    print_refresh(rt, board, desk)?;
    print_desk(rt, desk)
}

/// Prints a private board of a desk, and the desk afterwards.
fn print_fork(rt: &impl Print, desk: &Desk) -> io::Result<()> {
    match Board::fork(desk) {
        Ok((_board, forked)) => print_desk(rt, &forked)?,
        Err(_) => println!(rt; "fork: OutOfMemory")?,
    }
    print_desk(rt, desk)
}

/// Prints how many events a board's log has as it is closed with all its desks.
fn print_close(rt: &impl Print, board: Board, desks: &[Desk]) -> io::Result<()> {
    match board.close(desks) {
        Ok(log) => {
            let len = log.len();
            println!(rt; "close: events {len}")?;
        }
        Err(_) => println!(rt; "close: fault")?,
    }
    Ok(())
}

/// The calls of two desks, one after another.
fn print_calls<R: Threads + Wait + Print + AllocGlobal + Sync>(
    rt: &R,
    board: &Board,
    first: &mut Desk,
    second: &mut Desk,
) -> io::Result<()> {
    print_first_calls(rt, board, first)?;
    print_refresh(rt, board, second)?;
    print_desk(rt, second)?;
    print_fork(rt, second)?;
    print_undo(rt, board, first)?;
    print_desk(rt, first)?;
    print_refresh(rt, board, first)?;
    print_desk(rt, first)
}

fn main(rt: HostRuntime) -> io::Result<()> {
    let Some((board, mut desks)) = two_desks(&rt, rt.alloc()) else {
        println!(rt; "open: OutOfMemory")?;
        return Ok(());
    };
    if let Some((first, others)) = desks.as_mut_slice().split_first_mut() {
        if let Some(second) = others.first_mut() {
            print_calls(&rt, &board, first, second)?;
        }
    }
    print_close(&rt, board, desks.as_slice())
}
