//! The server: a connection for each desk of a board, and the log at the end.
ghost use Rattle.std.specs.Prelude.{◌≡◌, ◌≢◌, map, OnOk, IfErr};
ghost use Rattle.std.specs.Io.KnownBytes.{Appends, Keeps};
ghost use Rattle.hd_board.specs.Closing.{numbered};
ghost use Rattle.hd_server.specs.Logs.{PrintsLog};

use crate::connection::attend;
use crate::fault::ServeOnFault;
use hd_analyst::log_text;
use hd_board::{Board, Desk};
use std::alloc::Global;
use std::io::Write;
use std::net::TcpListener;
use std::sync::Wait;
use std::thread;
use std::thread::{Scope, Threads};

/// Serves an analyst for each desk of a board. The i-th connection that is accepted is that of the i-th desk. Each is served in a
/// thread of its own from the moment on that it is accepted, and what ends it ends no other. Nothing more is accepted then.
/// Replies show names from the beginning where `names` says so. When all have ended, the log is written on `output`: the lines of
/// the reply to `events`, without the `ok N`.
///
/// # Errors
///
/// The system gives no connection, or no thread can be started: then the connections that have a thread are served to their ends,
/// and no log is written. Or the board can't be closed with its desks, or memory runs out for the log's text: no log is written. Or
/// the log can't be written.
pub fn serve_on<R: AllocGlobal + Threads + Wait + Sync, W: Write>(
    rt: &R,
    names: bool,
    listener: TcpListener,
    board: Board,
    desks: &mut [Desk],
    output: &mut W,
) -> Result<(), ServeOnFault>
    ensures ok { OnOk result (PrintsLog board (map numbered desks.new) (W.contents output.old) (W.contents output.new)) }
    ensures err { IfErr result (λ fault. fault ≢ ServeOnFault.Write → Keeps (W.contents output.old) (W.contents output.new)) }
{
    attend_all(rt, names, listener, &board, desks)?;
    close_and_print(rt.alloc(), board, desks, output)
}

/// Accepts a connection for each desk, and serves each in a thread of its own. Returns when all have ended.
///
/// # Errors
///
/// The system gives no connection, or no thread can be started. The connections that have a thread are served to their ends.
fn attend_all<R: AllocGlobal + Threads + Wait + Sync>(
    rt: &R,
    names: bool,
    listener: TcpListener,
    board: &Board,
    desks: &mut [Desk],
) -> Result<(), ServeOnFault>
    ensures { IfErr result (λ fault. fault ≢ ServeOnFault.Write) }
{
    thread::scope(
        thread::scope_env(),
        rt,
        move |scope| -> Result<(), ServeOnFault>
            ensures { IfErr result (λ fault. fault ≢ ServeOnFault.Write) }
        { attend_each(scope, rt, names, &listener, board, desks) },
    )
}

/// Accepts a connection for each desk, and starts its thread.
///
/// # Errors
///
/// The system gives no connection, or no thread can be started.
fn attend_each<'s, E, R: AllocGlobal + Threads + Wait + Sync>(
    scope: &Scope<'s, E>,
    rt: &'s R,
    names: bool,
    listener: &TcpListener,
    board: &'s Board,
    desks: &'s mut [Desk],
) -> Result<(), ServeOnFault>
    ensures { IfErr result (λ fault. fault ≢ ServeOnFault.Write) }
{
    for desk in desks {
        attend_next(scope, rt, names, listener, board, desk)?;
    }
    Ok(())
}

/// Accepts a connection, and serves it in a thread of its own.
///
/// # Errors
///
/// The system gives no connection, or no thread can be started.
fn attend_next<'s, E, R: AllocGlobal + Threads + Wait + Sync>(
    scope: &Scope<'s, E>,
    rt: &'s R,
    names: bool,
    listener: &TcpListener,
    board: &'s Board,
    desk: &'s mut Desk,
) -> Result<(), ServeOnFault>
    ensures { IfErr result (λ fault. fault ≢ ServeOnFault.Write) }
{
    let Ok((stream, _peer)) = listener.accept() else {
        return Err(ServeOnFault::Accept);
    };
    match scope.spawn(move || attend(rt, names, stream, board, desk)) {
        Ok(_thread) => Ok(()),
        Err(_closure) => Err(ServeOnFault::OutOfMemory),
    }
}

/// Closes a board with its desks, and writes its log on `output`: the lines of the reply to `events`, without the `ok N`.
///
/// # Errors
///
/// The board can't be closed, or memory ran out: nothing is written. Or the log can't be written.
pub fn close_and_print<W: Write>(
    alloc: Global,
    board: Board,
    desks: &[Desk],
    output: &mut W,
) -> Result<(), ServeOnFault>
    ensures ok { OnOk result (PrintsLog board (map numbered desks.now) (W.contents output.old) (W.contents output.new)) }
    ensures err { IfErr result (λ fault. fault ≢ ServeOnFault.Write → Keeps (W.contents output.old) (W.contents output.new)) }
{
    let Ok(log) = board.close(desks) else {
        return Err(ServeOnFault::Close);
    };
    let text = log_text(alloc, &log)?;
    print(text.as_bytes(), output)
}

/// Writes bytes, and hands them on.
///
/// # Errors
///
/// The writer fails, or takes no byte.
fn print<W: Write>(bytes: &[u8], output: &mut W) -> Result<(), ServeOnFault>
    ensures ok { OnOk result (Appends (W.contents output.old) (W.contents output.new) bytes.now) }
    ensures err { IfErr result (λ fault. fault ≡ ServeOnFault.Write) }
{
    if output.write_all(bytes).is_err() || output.flush().is_err() {
        return Err(ServeOnFault::Write);
    }
    Ok(())
}
