//! The server: connections are accepted while a session goes on, and at the end the log is printed.
ghost use Rattle.std.specs.Prelude.{◌≢◌, OnOk, IfErr};
ghost use Rattle.std.specs.Io.KnownBytes.{Keeps};
ghost use Rattle.hd_server.specs.Logs.{PrintsBoard};

use crate::connection::{attend, turn_away};
use crate::hall::{Hall, Site};
use hd_board::{Board, Desk};
use hd_server::{ServeOnFault, close_and_print};
use std::io::Write;
use std::net::{Net, TcpListener, TcpStream};
use std::sync::Wait;
use std::thread;
use std::thread::{Scope, Threads};
use std::time::{Clock, Duration};

/// Serves the desks of a board to browsers, and the page of the site. A desk is taken by a WebSocket: the free one of least number.
/// Whoever takes it goes on where the last one left it. A line `quit` ends a desk for good. When all desks have ended, the log is
/// written on `output` as `serve_on` of `hd_server` writes it.
///
/// # Errors
///
/// Memory runs out before a connection is accepted, or the system gives no more connections: then those that there are are served to
/// their ends, and no log is written. Or the board can't be closed with its desks, or memory runs out for the log's text: no log is
/// written. Or the log can't be written.
pub fn web_on<R, W: Write>(
    rt: &R,
    listener: TcpListener,
    site: Site<'_>,
    board: Board,
    desks: Vec<Desk>,
    output: &mut W,
) -> Result<(), ServeOnFault>
where
    R: AllocGlobal
        + Clock
        + Net<Listener = TcpListener, Stream = TcpStream>
        + Threads
        + Wait
        + Sync,
    ensures ok { OnOk result (PrintsBoard board (W.contents output.old) (W.contents output.new)) }
    ensures err { IfErr result (λ fault. fault ≢ ServeOnFault.Write → Keeps (W.contents output.old) (W.contents output.new)) }
{
    let desks = serve_all(rt, listener, site, &board, desks)?;
    close_and_print(rt.alloc(), board, desks.as_slice(), output)
}

/// Serves the desks of a board until all have ended, and gives them back.
///
/// # Errors
///
/// Memory ran out, or the system gives no more connections.
fn serve_all<R>(
    rt: &R,
    listener: TcpListener,
    site: Site<'_>,
    board: &Board,
    desks: Vec<Desk>,
) -> Result<Vec<Desk>, ServeOnFault>
where
    R: AllocGlobal
        + Clock
        + Net<Listener = TcpListener, Stream = TcpStream>
        + Threads
        + Wait
        + Sync,
    ensures { IfErr result (λ fault. fault ≢ ServeOnFault.Write) }
{
    let hall = Hall::open(rt.alloc(), site, board, desks)?;
    if !accept_all(rt, &listener, &hall) {
        return Err(ServeOnFault::Accept);
    }
    let desks = hall.close(rt.alloc())?;
    Ok(desks)
}

/// Accepts connections until all sessions have ended, and returns when no connection is left. `false` where the system gives no more
/// connections: then those that there are are served to their ends.
fn accept_all<R>(rt: &R, listener: &TcpListener, hall: &Hall<'_>) -> bool
where
    R: AllocGlobal
        + Clock
        + Net<Listener = TcpListener, Stream = TcpStream>
        + Threads
        + Wait
        + Sync,
{
    thread::scope(thread::scope_env(), rt, |scope| {
        accept_each(scope, rt, listener, hall)
    })
}

/// How many times in a row the system may give no connection.
const MOST_FAILURES: u32 = 1000;

/// How many milliseconds are waited after that.
const FAILURE_PAUSE: u64 = 10;

/// Accepts connections until all sessions have ended, each in a thread of its own. `false` where the system gave no connection for a
/// thousand times in a row.
fn accept_each<'s, E, R>(
    scope: &Scope<'s, E>,
    rt: &'s R,
    listener: &TcpListener,
    hall: &'s Hall<'_>,
) -> bool
where
    R: AllocGlobal
        + Clock
        + Net<Listener = TcpListener, Stream = TcpStream>
        + Threads
        + Wait
        + Sync,
{
    let mut failures = 0;
    for _ in rt.forever() {
        if hall.is_over() {
            return true;
        }
        match listener.accept() {
            Ok((stream, _peer)) => {
                failures = 0;
                receive(scope, rt, hall, stream);
            }
            Err(_) => {
                if failures >= MOST_FAILURES {
                    return false;
                }
                failures += 1;
                thread::sleep(rt, Duration::from_millis(FAILURE_PAUSE));
            }
        }
    }
    unreachable!()
}

/// Serves a connection in a thread of its own. One too many is refused, and one for which there is no thread is closed.
fn receive<'s, E, R>(scope: &Scope<'s, E>, rt: &'s R, hall: &'s Hall<'_>, stream: TcpStream)
where
    R: AllocGlobal
        + Clock
        + Net<Listener = TcpListener, Stream = TcpStream>
        + Threads
        + Wait
        + Sync,
{
    if hall.is_over() {
        return;
    }
    if !hall.enter() {
        turn_away(rt, &stream);
        return;
    }
    let spawned = scope.spawn(move || {
        attend(rt, hall, &stream);
        hall.leave();
    });
    match spawned {
        Ok(_thread) => {}
        Err(_closure) => hall.leave(),
    }
}
