//! Dumps that are cut off at every length.
use crate::answers::opening;
use std::alloc::{AllocError, Global};
use std::random::RandomSource;
use std::sync::Wait;
use std::thread::Threads;

/// Where the body of the first record begins.
const BODY: usize = 40;

/// Where the length of the first record stands.
const BODY_LEN: usize = 36;

/// What is cut off.
#[derive(Clone, Copy)]
pub enum Cut {
    /// The file: what is left is its first bytes.
    File,
    /// The body of the first record, which is the only one: its length says what is left of it.
    Body,
}

/// How many bytes there are to be cut.
fn cut_len(dump: &[u8], cut: Cut) -> usize {
    match cut {
        Cut::File => dump.len(),
        Cut::Body => dump.len().saturating_sub(BODY),
    }
}

/// A dump whose file or body is cut to `len` bytes.
fn cut_to(alloc: Global, dump: &[u8], cut: Cut, len: usize) -> Result<Vec<u8>, AllocError> {
    match cut {
        Cut::File => Vec::from_slice(alloc, dump.get(..len).unwrap_or(dump)),
        Cut::Body => {
            let body = dump.get(BODY..).unwrap_or(&[]);
            let mut bytes = Vec::from_slice(alloc, dump.get(..BODY_LEN).unwrap_or(dump))?;
            bytes.extend_from_slice(&(len.min(0xffff) as u32).to_be_bytes())?;
            bytes.extend_from_slice(body.get(..len).unwrap_or(body))?;
            Ok(bytes)
        }
    }
}

/// The lengths one after another at which a dump opens in the same way.
#[derive(Drop)]
struct Run {
    first: usize,
    last: usize,
    opening: Vec<u8>,
}

/// Puts the line of a run behind a text: `0-30 Truncated at 0`.
fn put_run(alloc: Global, text: &mut Vec<u8>, run: &Run) -> Result<(), AllocError> {
    let first = run.first;
    let last = run.last;
    let lens = if first == last {
        format!(in alloc; "{first} ")?
    } else {
        format!(in alloc; "{first}-{last} ")?
    };
    text.extend_from_slice(lens.as_bytes())?;
    text.extend_from_slice(run.opening.as_slice())
}

/// The run after one more length: the same with that length, or the next one, where the other is put behind the text.
fn next_run(
    alloc: Global,
    text: &mut Vec<u8>,
    run: Run,
    len: usize,
    opening: Vec<u8>,
) -> Result<Run, AllocError> {
    if run.opening.as_slice() == opening.as_slice() {
        return Ok(Run {
            first: run.first,
            last: len,
            opening,
        });
    }
    put_run(alloc, text, &run)?;
    Ok(Run {
        first: len,
        last: len,
        opening,
    })
}

/// How a dump opens that is cut to each length below its own, with one worker and with `workers`: a line for each run of
/// lengths.
pub fn openings_of_cuts<R: AllocGlobal + RandomSource + Threads + Wait + Sync>(
    rt: &R,
    dump: &[u8],
    cut: Cut,
    workers: u32,
) -> Result<Vec<u8>, AllocError> {
    let alloc = rt.alloc();
    let mut text = Vec::new(alloc);
    let shortest = cut_to(alloc, dump, cut, 0)?;
    let mut run = Run {
        first: 0,
        last: 0,
        opening: opening(rt, shortest.as_slice(), workers)?,
    };
    for len in 1..cut_len(dump, cut) {
        let bytes = cut_to(alloc, dump, cut, len)?;
        let answer = opening(rt, bytes.as_slice(), workers)?;
        run = next_run(alloc, &mut text, run, len, answer)?;
    }
    put_run(alloc, &mut text, &run)?;
    Ok(text)
}
