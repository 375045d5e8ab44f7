//! What the workbench answers over a dump: the lines of `stat`, replies, and the fault where there is one.
use hd_protocol::{RunFault, run_bytes, stat_bytes};
use hd_terms::Mode;
use std::alloc::{AllocError, Global};
use std::random::RandomSource;
use std::sync::Wait;
use std::thread::Threads;

/// What is asked of a dump.
#[derive(Clone, Copy)]
pub enum Question<'a> {
    /// The counts and totals.
    Stat,
    /// The replies to this input.
    Session(&'a [u8]),
}

/// How a dump is opened: with each number of workers up to one, and in which mode.
#[derive(Clone, Copy)]
pub struct Settings {
    pub most_workers: u32,
    pub mode: Mode,
}

/// What was written, and behind it the text of the fault that ended it, if one did.
fn with_fault(
    alloc: Global,
    written: Vec<u8>,
    ended: Result<(), RunFault>,
) -> Result<Vec<u8>, AllocError> {
    let mut text = written;
    if let Err(fault) = ended {
        text.extend_from_slice(fault.to_string(alloc)?.as_bytes())?;
        text.push(b'\n')?;
    }
    Ok(text)
}

/// The answer to a question over a dump, opened in a mode with `workers` workers, at least 1 and at most 16.
pub fn answer<R: AllocGlobal + RandomSource + Threads + Wait + Sync>(
    rt: &R,
    dump: &[u8],
    workers: u32,
    mode: Mode,
    question: Question<'_>,
) -> Result<Vec<u8>, AllocError> {
    let mut written = Vec::new(rt.alloc());
    let workers = workers.clamp(1, 16);
    let ended = match question {
        Question::Stat => {
            let bytes = dump.to_vec(rt.alloc())?;
            stat_bytes(rt, bytes, workers, mode, &mut written)
        }
        Question::Session(input) => {
            let mut rest = input;
            run_bytes(rt, dump, workers, mode, &mut rest, &mut written)
        }
    };
    with_fault(rt.alloc(), written, ended)
}

/// The answer to a question over a dump; where it isn't the same with every number of workers up to one, the first
/// other answer stands behind it.
pub fn answer_of_all<R: AllocGlobal + RandomSource + Threads + Wait + Sync>(
    rt: &R,
    dump: &[u8],
    opened: Settings,
    question: Question<'_>,
) -> Result<Vec<u8>, AllocError> {
    let mode = opened.mode;
    let first = answer(rt, dump, 1, mode, question)?;
    for workers in 2..17u32 {
        if workers <= opened.most_workers {
            let other = answer(rt, dump, workers, mode, question)?;
            if other.as_slice() != first.as_slice() {
                return both(rt.alloc(), first, workers, other.as_slice());
            }
        }
    }
    Ok(first)
}

/// An answer, and behind it the other one that `workers` workers gave.
fn both(alloc: Global, first: Vec<u8>, workers: u32, other: &[u8]) -> Result<Vec<u8>, AllocError> {
    let mut text = first;
    let head = format!(in alloc; "with {workers} workers:\n")?;
    text.extend_from_slice(head.as_bytes())?;
    text.extend_from_slice(other)?;
    Ok(text)
}

/// The first line of a text, with the newline.
fn first_line(alloc: Global, text: &[u8]) -> Result<Vec<u8>, AllocError> {
    let mut line = Vec::new(alloc);
    for byte in text {
        line.push(*byte)?;
        if *byte == b'\n' {
            break;
        }
    }
    Ok(line)
}

/// How a dump opens in mode Direct: the first line of its `stat`, with the newline, or its fault. Where the answer isn't
/// the same with `workers` workers as with one, the line of these stands behind it.
pub fn opening<R: AllocGlobal + RandomSource + Threads + Wait + Sync>(
    rt: &R,
    dump: &[u8],
    workers: u32,
) -> Result<Vec<u8>, AllocError> {
    let one = answer(rt, dump, 1, Mode::Direct, Question::Stat)?;
    let line = first_line(rt.alloc(), one.as_slice())?;
    if workers == 1 {
        return Ok(line);
    }
    let more = answer(rt, dump, workers, Mode::Direct, Question::Stat)?;
    if more.as_slice() == one.as_slice() {
        return Ok(line);
    }
    let other = first_line(rt.alloc(), more.as_slice())?;
    both(rt.alloc(), line, workers, other.as_slice())
}

/// The last `count` lines of a text.
pub fn last_lines(text: &[u8], count: u32) -> &[u8] {
    let mut left = count;
    for start in (0..text.len()).rev() {
        if text[start] == b'\n' {
            if left == 0 {
                return &text[start + 1..];
            }
            left -= 1;
        }
    }
    text
}
