//! Filling a piece of memory by several threads.
ghost use Rattle.std.specs.Prelude.{◌≡◌, ◌+◌, ◌^◌, ◌<◌, length, replicate};
ghost use denote.Param.Send.{IsSync};
ghost use Rattle.std.specs.Fork.{AcceptsAt, ChangesAt};
ghost use Rattle.hd_buffer.specs.Filling.{TakesZeros, FilledFrom};

use crate::pieces::{split, unite};
use crate::space::Piece;
use std::thread::{Threads, join};

/// The most bytes that are zeroed before they are filled: 256 KiB. They should still be in the processor's cache then.
const RUN: usize = 262_144;

/// Fills a piece by one call. Its bytes begin at this offset of the buffer.
fn fill_run<F: Fn(usize, &mut [u8])>(mut run: Piece, offset: usize, f: &F) -> Piece
    requires empty { run.len ≡ 0 }
    requires takes { AcceptsAt F.Fn f.now offset (replicate run.cap 0) }
    ensures full { (result.len ≡ run.cap) × (result.cap ≡ run.cap) × (result.ptr ≡ run.ptr) }
    ensures filled { ChangesAt F.Fn f.now offset (replicate (length result.items) 0) result.items }
{
    while run.len() < run.capacity() {
        run.push_reserved(0);
    }
    f(offset, run.as_mut_slice());
    run
}

/// Fills a piece run by run. Its bytes begin at this offset of the buffer.
fn fill_runs<F: Fn(usize, &mut [u8])>(piece: Piece, offset: usize, f: &F) -> Piece
    requires empty { piece.len ≡ 0 }
    requires offsets { offset + piece.cap < 2 ^ 64 }
    requires takes { TakesZeros F.Fn f.now offset (offset + piece.cap) }
    ensures full { (result.len ≡ piece.cap) × (result.cap ≡ piece.cap) × (result.ptr ≡ piece.ptr) }
    ensures filled { FilledFrom F.Fn f.now offset result.items }
{
    let (mut done, mut rest) = split(piece, 0);
    while 0 < rest.capacity() {
        let len = rest.capacity().min(RUN);
        let (run, next) = split(rest, len);
        let run = fill_run(run, offset + done.len(), f);
        done = unite(done, run);
        rest = next;
    }
    done
}

/// The same by up to `threads` threads: a part of the piece for each, of which the calling thread fills the last. It begins the
/// others, so that none waits on the processor of another one that began it. Where the system refuses a thread, one part is filled
/// after the other.
#[cycle(parts)]
pub(crate) fn fill_piece<R: Threads + Sync, F: Fn(usize, &mut [u8]) + Sync>(
    rt: &R,
    piece: Piece,
    offset: usize,
    threads: usize,
    f: &F,
) -> Piece
    requires empty { piece.len ≡ 0 }
    requires offsets { offset + piece.cap < 2 ^ 64 }
    requires takes { TakesZeros F.Fn f.now offset (offset + piece.cap) }
    ensures full { (result.len ≡ piece.cap) × (result.cap ≡ piece.cap) × (result.ptr ≡ piece.ptr) }
    ensures filled { FilledFrom F.Fn f.now offset result.items }
{
    if threads <= 1 || piece.capacity() <= RUN {
        return fill_runs(piece, offset, f);
    }
    let threads_left = threads - 1;
    let middle = piece.capacity() / threads;
    let (first, second) = split(piece, middle);
    let fill_first = move || -> Piece
        requires { IsSync F.row × (first.len ≡ 0) × (offset + first.cap < 2 ^ 64) × TakesZeros F.Fn f.now offset (offset + first.cap) }
        ensures full { (result.len ≡ first.cap) × (result.cap ≡ first.cap) × (result.ptr ≡ first.ptr) }
        ensures filled { FilledFrom F.Fn f.entry.now offset result.items }
    { fill_runs(first, offset, f) };
    let fill_second = move || -> Piece
        requires { IsSync R.row × IsSync F.row × (second.len ≡ 0) × (offset + middle + second.cap < 2 ^ 64) × TakesZeros F.Fn f.now (offset + middle) (offset + middle + second.cap) }
        ensures full { (result.len ≡ second.cap) × (result.cap ≡ second.cap) × (result.ptr ≡ second.ptr) }
        ensures filled { FilledFrom F.Fn f.entry.now (offset + middle) result.items }
    { fill_piece(rt, second, offset + middle, threads_left, f) };
    let (first, second) = join(rt, fill_first, fill_second);
    unite(first, second)
}
