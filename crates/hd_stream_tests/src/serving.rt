//! Desks that are served over lines, for the tests.
use hd_board::{Board, Desk, open};
use hd_protocol::{SAMPLE, ServeFault, open_bytes, serve};
use hd_terms::Mode;
use std::alloc::Global;
use std::process::Abort;
use std::random::RandomSource;
use std::sync::Wait;
use std::thread::Threads;

/// What serving a desk came to: what was written, and how it ended.
#[derive(Drop)]
pub struct Served {
    pub written: Vec<u8>,
    pub ended: Result<(), ServeFault>,
}

/// A board of `n` desks over the two arrays, 1 to 16.
pub fn board_of<R: Abort + AllocGlobal + RandomSource + Threads + Sync>(
    rt: &R,
    n: u8,
) -> (Board, Vec<Desk>) {
    let graph = open_bytes(rt, &SAMPLE, 1, Mode::Direct).expect(rt, "the dump opens");
    open(rt, rt.alloc(), graph, n.clamp(1, 16)).expect(rt, "the board opens")
}

/// Serves the lines of a text to a desk.
pub fn serve_text<R: AllocGlobal + Threads + Wait + Sync>(
    rt: &R,
    alloc: Global,
    board: &Board,
    desk: &mut Desk,
    text: &[u8],
) -> Served {
    let mut input = text;
    let mut written = Vec::new(alloc);
    let ended = serve(rt, false, &mut input, &mut written, board, desk);
    Served { written, ended }
}
