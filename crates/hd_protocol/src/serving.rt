//! Lines are served: read, run in turn, and answered.
ghost use Rattle.std.specs.Prelude.{◌≡◌, ℕ, ◌≤◌, [], ◌∷◌, ◌++◌, length, take, Ok, Err, IfOk, IfErr, OnOk, OnErr, OnSome, if◌then◌else◌};
ghost use Rattle.std.specs.Io.KnownBytes.{Keeps, Appends, Consumes, IsAtEnd};
ghost use Rattle.hd_lines.specs.Lines.{is_quit_command};
ghost use Rattle.hd_protocol.specs.Serving.{Serves};
ghost use Rattle.hd_protocol.specs.Steps.{kept_of, midway, RunsLine, RunsBytes, RunsEnd, RunsInput};

use hd_analyst::{Analyst, FixedBuffer, LONGEST_REPLY, answer, first_marks};
use hd_board::{Board, Desk};
use hd_lines::{Command, LineFault};
use hd_terms::NoMemory;
use hd_words::{LONGEST_LINE, last_word, read_command};
use std::alloc::{AllocError, Global};
use std::io::{BufRead, Write};
use std::mem;
use std::sync::Wait;
use std::thread::Threads;
use thiserror::Error;

/// Why serving ended early.
#[derive(Clone, Copy, Debug, PartialEq, Eq, Error)]
pub enum ServeFault {
    /// The reader failed, or gave its bytes in too many pieces.
    #[error("cannot read standard input")]
    Read,
    /// The writer failed, or took no byte.
    #[error("cannot write")]
    Write,
    /// Memory ran out before anything was read.
    #[error("OutOfMemory")]
    OutOfMemory,
}

impl From<AllocError> for ServeFault {
    ghost use Rattle.hd_protocol.specs.declared.serving.ServeFault.TheVariants.{OutOfMemory};

    ghost from_gives = { λ _ e. e ≡ OutOfMemory };

    fn from(_error: AllocError) -> ServeFault {
        ServeFault::OutOfMemory
    }
}

impl From<NoMemory> for ServeFault {
    ghost use Rattle.hd_protocol.specs.declared.serving.ServeFault.TheVariants.{OutOfMemory};

    ghost from_gives = { λ _ e. e ≡ OutOfMemory };

    fn from(_error: NoMemory) -> ServeFault {
        ServeFault::OutOfMemory
    }
}

/// Whether lines are read on.
#[derive(Clone, Copy)]
pub enum Flow {
    /// The next line is read.
    GoesOn,
    /// The line was `quit`.
    Quits,
}

/// The most bytes of a line that are kept: one more than the longest line has.
const KEPT_LINE: usize = LONGEST_LINE + 1;

/// The most bytes that are taken from the reader at once.
const CHUNK: usize = 65_536;

/// The most times that bytes are taken from the reader.
const MOST_REFILLS: u32 = 16_777_216;

/// Writes a whole text.
pub fn put_all<W: Write>(writer: &mut W, text: &[u8]) -> Result<(), ServeFault>
    ensures ok { OnOk result (Appends (W.contents writer.old) (W.contents writer.new) text.now) }
    ensures err { OnErr result ((k : ℕ) × Appends (W.contents writer.old) (W.contents writer.new) (take k text.now)) }
    ensures write { IfErr result (λ e. e ≡ ServeFault.Write) }
{
    let mut at = 0;
    while at < text.len() {
        match writer.write(&text[at..]) {
            Ok(0) => return Err(ServeFault::Write),
            Ok(n) => at += n,
            Err(_) => return Err(ServeFault::Write),
        }
    }
    Ok(())
}

/// Hands on what was written.
pub fn flush<W: Write>(writer: &mut W) -> Result<(), ServeFault>
    ensures bytes { Keeps (W.contents writer.old) (W.contents writer.new) }
    ensures write { IfErr result (λ e. e ≡ ServeFault.Write) }
{
    match writer.flush() {
        Ok(()) => Ok(()),
        Err(_) => Err(ServeFault::Write),
    }
}

/// Takes what the reader shows, as far as there is room for it. It replaces the bytes of `chunk`.
fn refill<R: BufRead>(reader: &mut R, chunk: &mut FixedBuffer<CHUNK>) -> Result<(), ServeFault>
    ensures ok { OnOk result (Consumes (R.remaining reader.old) (R.remaining reader.new) chunk.new) }
    ensures end { OnOk result (length chunk.new ≡ 0 → OnSome (R.remaining reader.old) (IsAtEnd (R.remaining reader.new))) }
    ensures err { OnErr result (Keeps (R.remaining reader.old) (R.remaining reader.new)) }
    ensures read { IfErr result (λ e. e ≡ ServeFault.Read) }
{
    chunk.clear();
    let shown = match reader.fill_buf() {
        Ok(shown) => shown,
        Err(_) => return Err(ServeFault::Read),
    };
    let n = shown.len().min(CHUNK);
    chunk.put(&shown[..n]);
    reader.consume(n);
    Ok(())
}

/// What serves an analyst: what is kept for the analyst, the line that isn't ended yet, and room for a reply.
#[derive(Drop)]
struct Service<'a> {
    alloc: Global,
    analyst: Analyst<'a>,
    line: FixedBuffer<KEPT_LINE>,
    reply: FixedBuffer<LONGEST_REPLY>,
}

/// Runs the open line, and writes its reply.
fn run_line<W: Write>(
    rt: &(impl Wait + Threads + Sync),
    writer: &mut W,
    service: &mut Service<'_>,
) -> Result<Flow, ServeFault>
    ensures line { service.new.line ≡ service.old.line }
    ensures runs { RunsLine service.old.analyst service.new.analyst service.old.line (W.contents writer.old) (W.contents writer.new) result }
{
    let line = service.line.as_slice();
    let reading = read_command(line);
    match answer(
        rt,
        service.alloc,
        &mut service.analyst,
        reading,
        last_word(line),
        &mut service.reply,
    ) {
        Some(text) => put_all(writer, text.as_bytes())?,
        None => put_all(writer, service.reply.as_slice())?,
    }
    Ok(flow_after(reading))
}

/// Whether lines are read on after one that spells this.
fn flow_after(reading: Result<Command, LineFault>) -> Flow
    ensures { (if is_quit_command reading then Flow.Quits else Flow.GoesOn) ≡ result }
{
    match reading {
        Ok(Command::Quit) => Flow::Quits,
        _ => Flow::GoesOn,
    }
}

/// Runs one byte: a newline ends the open line, any other byte goes onto it.
fn run_byte<W: Write>(
    rt: &(impl Wait + Threads + Sync),
    writer: &mut W,
    service: &mut Service<'_>,
    byte: u8,
) -> Result<Flow, ServeFault>
    ensures { RunsBytes (byte ∷ []) (midway service.old.analyst service.old.line) (midway service.new.analyst service.new.line) (W.contents writer.old) (W.contents writer.new) result }
{
    if byte == b'\n' {
        let flow = run_line(rt, writer, service)?;
        service.line.clear();
        return Ok(flow);
    }
    keep(&mut service.line, byte);
    Ok(Flow::GoesOn)
}

/// Puts a byte onto the open line, as far as there is room for it.
fn keep(line: &mut FixedBuffer<KEPT_LINE>, byte: u8)
    ensures { line.new ≡ kept_of (line.old ++ byte ∷ []) }
{
    if line.as_slice().len() < KEPT_LINE {
        line.put(&[byte]);
    }
}

/// Runs bytes in turn.
fn run_chunk<W: Write>(
    rt: &(impl Wait + Threads + Sync),
    writer: &mut W,
    service: &mut Service<'_>,
    bytes: &[u8],
) -> Result<Flow, ServeFault>
    ensures { RunsBytes bytes.now (midway service.old.analyst service.old.line) (midway service.new.analyst service.new.line) (W.contents writer.old) (W.contents writer.new) result }
{
    for byte in bytes {
        match run_byte(rt, writer, service, *byte)? {
            Flow::GoesOn => {}
            Flow::Quits => return Ok(Flow::Quits),
        }
    }
    Ok(Flow::GoesOn)
}

/// Runs what is left at the end of the input, if it has a byte.
fn run_end<W: Write>(
    rt: &(impl Wait + Threads + Sync),
    writer: &mut W,
    service: &mut Service<'_>,
) -> Result<(), ServeFault>
    ensures { RunsEnd (midway service.old.analyst service.old.line) service.new.analyst (W.contents writer.old) (W.contents writer.new) result }
{
    if service.line.as_slice().is_empty() {
        return Ok(());
    }
    let _flow = run_line(rt, writer, service)?;
    Ok(())
}

/// Reads, runs and answers until the input ends, a line is `quit`, or a fault.
fn run_input<R: BufRead, W: Write>(
    rt: &(impl Wait + Threads + Sync),
    reader: &mut R,
    writer: &mut W,
    service: &mut Service<'_>,
    chunk: &mut FixedBuffer<CHUNK>,
) -> Result<(), ServeFault>
    requires { service.old.line ≡ [] }
    ensures { RunsInput service.old.analyst service.new.analyst (R.remaining reader.old) (R.remaining reader.new) (W.contents writer.old) (W.contents writer.new) result }
{
    for _ in 0..MOST_REFILLS {
        flush(writer)?;
        refill(reader, chunk)?;
        let bytes = chunk.as_slice();
        if bytes.is_empty() {
            return run_end(rt, writer, service);
        }
        match run_chunk(rt, writer, service, bytes)? {
            Flow::GoesOn => {}
            Flow::Quits => return Ok(()),
        }
    }
    flush(writer)?;
    Err(ServeFault::Read)
}

/// Serves the lines of a reader to a writer: a session of a desk at a board, from what the desk has seen, until the input ends, a
/// line is `quit`, or a fault. Replies show names from the beginning where `names` says so. Before each command but `quit` the
/// desk is refreshed. Room for lines, short replies and marks is taken before anything is read; the writer is flushed before each
/// refill and at the end. Where the session ends in a private part, the desk is left as it was when the part began.
///
/// # Errors
///
/// The reader or the writer failed, and the desk has seen what the lines that were run have done; or memory ran out before
/// anything was read, and the desk has seen no more than before.
pub fn serve<T: AllocGlobal + Threads + Wait + Sync, R: BufRead, W: Write>(
    rt: &T,
    names: bool,
    reader: &mut R,
    writer: &mut W,
    board: &Board,
    desk: &mut Desk,
) -> Result<(), ServeFault>
    ensures { Serves board.now names desk.old desk.new (R.remaining reader.old) (R.remaining reader.new) (W.contents writer.old) (W.contents writer.new) result }
{
    let alloc = rt.alloc();
    let mut chunk = FixedBuffer::new(alloc)?;
    let line = FixedBuffer::new(alloc)?;
    let reply = FixedBuffer::new(alloc)?;
    let marks = first_marks(alloc, desk)?;
    // The session owns its desk; another one stands in its place until it comes back.
    let (_board, stand_in) = Board::fork(desk)?;
    let analyst = Analyst::begin(board, mem::replace(desk, stand_in), marks, names);
    let mut service = Service {
        alloc,
        analyst,
        line,
        reply,
    };
    let ended = run_all(rt, reader, writer, &mut service, &mut chunk);
    *desk = service.analyst.leave();
    ended
}

/// Runs the whole input, and hands on what was written.
fn run_all<R: BufRead, W: Write>(
    rt: &(impl Wait + Threads + Sync),
    reader: &mut R,
    writer: &mut W,
    service: &mut Service<'_>,
    chunk: &mut FixedBuffer<CHUNK>,
) -> Result<(), ServeFault>
    requires { service.old.line ≡ [] }
    ensures { RunsInput service.old.analyst service.new.analyst (R.remaining reader.old) (R.remaining reader.new) (W.contents writer.old) (W.contents writer.new) result }
{
    run_input(rt, reader, writer, service, chunk)?;
    flush(writer)?;
    Ok(())
}
