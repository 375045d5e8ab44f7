//! A run: a dump's bytes are opened, and one analyst's lines are served over it.
ghost use Rattle.std.specs.Prelude.{◌≡◌, false, IfOk, IfErr};
ghost use Rattle.std.specs.Arc.{arc_value};
ghost use Rattle.hd_terms.specs.Workers.{IsWorkers};
ghost use Rattle.hd_terms.specs.Objects.{IsDumpOf, IsNamelessDumpOf};
ghost use Rattle.hd_board.specs.Opening.{opened_board, opened_desk};
ghost use Rattle.hd_protocol.specs.Serving.{RunsDump, RunsOver, IsOpenFault};

use crate::serving::{ServeFault, serve};
use hd_board::{Board, Desk, open};
use hd_decode::NoGate;
use hd_graph::Graph;
use hd_opening::{open_dump, open_named_dump};
use hd_terms::{Mode, NoMemory, ReadFault};
use std::alloc::{AllocFailed, Global};
use std::io::{BufRead, Write};
use std::random::RandomSource;
use std::sync::{Arc, Wait};
use std::thread::Threads;
use thiserror::Error;

/// Why a run ended early. The texts are what the program tells of it.
#[derive(Clone, Copy, Debug, PartialEq, Eq, Error)]
pub enum RunFault {
    /// The dump can't be read: the fault's name and its file offset.
    #[error("{:?} at {}", .0.cause, .0.offset)]
    Dump(ReadFault),
    /// Memory ran out before anything was read or written.
    #[error("OutOfMemory")]
    Memory,
    /// Serving ended early.
    #[error(transparent)]
    Serve(ServeFault),
    /// The board could not be closed with its desk.
    #[error("cannot close")]
    Close,
}

impl From<ReadFault> for RunFault {
    ghost use Rattle.hd_protocol.specs.declared.run.RunFault.TheVariants.{Dump};

    ghost from_gives = { λ fault e. e ≡ Dump fault };

    fn from(fault: ReadFault) -> RunFault {
        RunFault::Dump(fault)
    }
}

impl From<NoMemory> for RunFault {
    ghost use Rattle.hd_protocol.specs.declared.run.RunFault.TheVariants.{Memory};

    ghost from_gives = { λ _ e. e ≡ Memory };

    fn from(_fault: NoMemory) -> RunFault {
        RunFault::Memory
    }
}

impl<T: Drop> From<AllocFailed<T>> for RunFault {
    ghost use Rattle.hd_protocol.specs.declared.run.RunFault.TheVariants.{Memory};

    ghost from_gives = { λ _ e. e ≡ Memory };

    fn from(_fault: AllocFailed<T>) -> RunFault {
        RunFault::Memory
    }
}

impl From<ServeFault> for RunFault {
    ghost use Rattle.hd_protocol.specs.declared.run.RunFault.TheVariants.{Serve};

    ghost from_gives = { λ fault e. e ≡ Serve fault };

    fn from(fault: ServeFault) -> RunFault {
        RunFault::Serve(fault)
    }
}

/// Opens the bytes of a dump.
///
/// `workers` is the number of threads that decode, 1 to 16; `mode` says how far phantom references are followed.
///
/// # Errors
///
/// The dump's fault, or memory ran out.
pub fn open_bytes<T: AllocGlobal + RandomSource + Threads + Sync>(
    rt: &T,
    bytes: &[u8],
    workers: u32,
    mode: Mode,
) -> Result<Arc<Graph>, RunFault>
    requires workers { IsWorkers workers }
    ensures ok { IfOk result (λ graph. IsDumpOf mode bytes.now (arc_value graph)) }
    ensures err { IfErr result (λ f. IsOpenFault bytes.now f) }
{
    let graph = open_named_dump(rt, rt.alloc(), bytes, workers, mode, &NoGate)?;
    Ok(graph)
}

/// Opens the bytes of a dump without the names of its fields and statics, which `stat` doesn't show.
///
/// `workers` is the number of threads that decode, 1 to 16; `mode` says how far phantom references are followed.
///
/// # Errors
///
/// The dump's fault, or memory ran out.
pub(crate) fn open_nameless<T: AllocGlobal + RandomSource + Threads + Sync>(
    rt: &T,
    bytes: &[u8],
    workers: u32,
    mode: Mode,
) -> Result<Arc<Graph>, RunFault>
    requires workers { IsWorkers workers }
    ensures ok { IfOk result (λ graph. IsNamelessDumpOf mode bytes.now (arc_value graph)) }
    ensures err { IfErr result (λ f. IsOpenFault bytes.now f) }
{
    let graph = open_dump(rt, rt.alloc(), bytes, workers, mode, &NoGate)?;
    Ok(graph)
}

/// Opens a board of one desk over a dump's graph.
///
/// # Errors
///
/// Memory ran out.
pub fn open_alone<T: Threads + Sync>(
    rt: &T,
    alloc: Global,
    graph: Arc<Graph>,
) -> Result<(Board, Desk), NoMemory>
    ensures board { IfOk result (λ r. r.0 ≡ opened_board (arc_value graph) 1) }
    ensures desk { IfOk result (λ r. r.1 ≡ opened_desk (arc_value graph) 0) }
{
    let (board, mut desks) = open(rt, alloc, graph, 1)?;
    match desks.pop() {
        Some(desk) => Ok((board, desk)),
        None => Err(NoMemory),
    }
}

/// Serves the lines of the only analyst of a board that was just opened, and closes the board. Replies show names from the
/// beginning where `names` says so.
///
/// # Errors
///
/// Serving ended early, or the board can't be closed.
pub fn serve_alone<T: AllocGlobal + Threads + Wait + Sync, R: BufRead, W: Write>(
    rt: &T,
    names: bool,
    board: Board,
    desk: Desk,
    input: &mut R,
    output: &mut W,
) -> Result<(), RunFault>
    requires board { board ≡ opened_board desk.dump 1 }
    requires desk { desk ≡ opened_desk desk.dump 0 }
    ensures { RunsOver desk.dump names (R.remaining input.old) (R.remaining input.new) (W.contents output.old) (W.contents output.new) result }
{
    let mut desks = [desk];
    serve(rt, names, input, output, &board, &mut desks[0])?;
    match board.close(&desks) {
        Ok(_log) => Ok(()),
        Err(_fault) => Err(RunFault::Close),
    }
}

/// Opens the bytes of a dump and serves one analyst's lines over it, on a board of one desk, which is closed at the end.
/// Replies show names once a line says so.
///
/// `workers` is the number of threads that decode, 1 to 16; `mode` says how far phantom references are followed.
///
/// # Errors
///
/// The first of: the dump's fault, memory ran out, serving ended early, the board can't be closed.
pub fn run_bytes<T: AllocGlobal + RandomSource + Threads + Wait + Sync, R: BufRead, W: Write>(
    rt: &T,
    bytes: &[u8],
    workers: u32,
    mode: Mode,
    input: &mut R,
    output: &mut W,
) -> Result<(), RunFault>
    requires workers { IsWorkers workers }
    ensures { RunsDump mode false bytes.now (R.remaining input.old) (R.remaining input.new) (W.contents output.old) (W.contents output.new) result }
{
    let graph = open_bytes(rt, bytes, workers, mode)?;
    let (board, desk) = open_alone(rt, rt.alloc(), graph)?;
    serve_alone(rt, false, board, desk, input, output)?;
    Ok(())
}
