//! Serving several analysts over connections.
ghost use Rattle.std.specs.Prelude.{◌≡◌, string_bytes, IfErr, IfOk, OnOk};
ghost use Rattle.std.specs.Arc.{arc_value};
ghost use Rattle.std.specs.Io.KnownBytes.{Appends};
ghost use Rattle.hd_terms.specs.Workers.{IsWorkers};
ghost use Rattle.hd_server.specs.Logs.{PrintsBoard};
ghost use Rattle.hd_program.specs.Listening.{listening_text, EndsEarly, EndsServer, PrintsServer};
ghost use Rattle.hd_arguments.specs.Tasks.{IsAnalysts};

use crate::counts::{end_status, shown_counts};
use hd_arguments::Serving;
use hd_board::{Board, Desk, open};
use hd_buffer::Buffer;
use hd_graph::Graph;
use hd_protocol::{RunFault, open_bytes};
use hd_server::{ServeOnFault, serve_on};
use hd_terminal::StatusLine;
use hd_web::{Site, web_on};
use std::alloc::{AllocError, Global};
use std::convert::AsSlice;
use std::fmt::Write as _;
use std::io::Write;
use std::net::{Ipv4Addr, Net, SocketAddr, TcpListener, TcpStream};
use std::random::RandomSource;
use std::sync::{Arc, Wait};
use std::thread::Threads;
use std::time::Clock;
use thiserror::Error;

/// Why serving connections ended early. The texts are what the program tells of it.
#[derive(Clone, Copy, Debug, PartialEq, Eq, Error)]
pub enum ServerFault {
    /// The dump can't be read, or memory ran out before the port was bound.
    #[error(transparent)]
    Open(RunFault),
    /// The port can't be listened on.
    #[error("cannot listen")]
    Listen,
    /// The port can't be told.
    #[error("cannot write")]
    Write,
    /// Serving ended early.
    #[error(transparent)]
    Serve(ServeOnFault),
}

/// How connections are served: analysts by lines, or where there is a page, in browsers.
#[derive(Clone, Copy, Debug)]
pub struct Server<'a> {
    pub serving: Serving<'a>,
    /// The page that browsers are given.
    pub page: Option<&'a [u8]>,
}

/// Listens on a port of 127.0.0.1, and answers which port that is. At port 0 the system chooses one.
fn listen<T: Net<Listener = TcpListener, Stream = TcpStream>>(
    rt: &T,
    port: u16,
) -> Option<(TcpListener, u16)> {
    let listener = TcpListener::bind(rt, SocketAddr::from((Ipv4Addr::LOCALHOST, port))).ok()?;
    let address = listener.local_addr().ok()?;
    Some((listener, address.port()))
}

/// The line that tells the port.
fn listening_line(alloc: Global, port: u16) -> Result<String, AllocError>
    ensures { IfOk result (λ text. string_bytes text ≡ listening_text port) }
{
    let mut text = String::new(alloc);
    writeln!(text, "listening {port}")?;
    Ok(text)
}

/// Tells the port, and hands that on.
///
/// # Errors
///
/// Memory ran out, or the writer fails or takes no byte.
fn tell_port<W: Write>(alloc: Global, port: u16, output: &mut W) -> Result<(), ServerFault>
    ensures ok { OnOk result (Appends (W.contents output.old) (W.contents output.new) (listening_text port)) }
    ensures err { IfErr result (EndsEarly (W.contents output.old) (W.contents output.new)) }
{
    let Ok(line) = listening_line(alloc, port) else {
        return Err(ServerFault::Serve(ServeOnFault::OutOfMemory));
    };
    if output.write_all(line.as_bytes()).is_err() || output.flush().is_err() {
        return Err(ServerFault::Write);
    }
    Ok(())
}

/// Serves the desks of a board until all have ended, and prints the log.
///
/// # Errors
///
/// Serving ended early.
fn serve_desks<T, W: Write>(
    rt: &T,
    server: Server<'_>,
    listener: TcpListener,
    port: u16,
    opened: (Board, Vec<Desk>),
    output: &mut W,
) -> Result<(), ServeOnFault>
where
    T: AllocGlobal
        + Clock
        + Net<Listener = TcpListener, Stream = TcpStream>
        + Threads
        + Wait
        + Sync,
    ensures { OnOk result (PrintsBoard opened.0 (W.contents output.old) (W.contents output.new)) }
{
    let (board, mut desks) = opened;
    let names = server.serving.opening.names;
    match server.page {
        None => serve_on(rt, names, listener, board, desks.as_mut_slice(), output),
        Some(page) => web_on(rt, listener, Site { port, page }, board, desks, output),
    }
}

/// Listens, tells the port, opens a board over a dump's graph with a desk for each analyst, and serves these.
///
/// # Errors
///
/// The port can't be listened on, or can't be told; memory ran out for the board; or serving ended early.
fn serve_graph<T, W: Write>(
    rt: &T,
    graph: Arc<Graph>,
    server: Server<'_>,
    output: &mut W,
) -> Result<(), ServerFault>
where
    T: AllocGlobal
        + Clock
        + Net<Listener = TcpListener, Stream = TcpStream>
        + Threads
        + Wait
        + Sync,
    requires analysts { IsAnalysts server.serving.analysts }
    ensures ok { OnOk result (PrintsServer (arc_value graph) server.entry.serving.analysts (W.contents output.old) (W.contents output.new)) }
    ensures err { IfErr result (EndsEarly (W.contents output.old) (W.contents output.new)) }
{
    let Some((listener, port)) = listen(rt, server.serving.port) else {
        return Err(ServerFault::Listen);
    };
    tell_port(rt.alloc(), port, output)?;
    let Ok(opened) = open(rt, rt.alloc(), graph, server.serving.analysts) else {
        return Err(ServerFault::Serve(ServeOnFault::OutOfMemory));
    };
    match serve_desks(rt, server, listener, port, opened, output) {
        Ok(()) => Ok(()),
        Err(fault) => Err(ServerFault::Serve(fault)),
    }
}

/// Opens the bytes of a dump and serves analysts over it, over connections. The bytes are given up before the port is
/// bound. The port is told on `output`, and the log is written there at the end.
///
/// # Errors
///
/// The dump can't be read, or memory ran out; the port can't be listened on, or can't be told; or serving ended early.
pub fn serve_bytes<T, W: Write, E: Write>(
    rt: &T,
    bytes: Buffer<Global>,
    server: Server<'_>,
    status: &mut StatusLine,
    output: &mut W,
    faults: &mut E,
) -> Result<(), ServerFault>
where
    T: AllocGlobal
        + Clock
        + Net<Listener = TcpListener, Stream = TcpStream>
        + RandomSource
        + Threads
        + Wait
        + Sync,
    requires workers { IsWorkers server.serving.opening.workers }
    requires analysts { IsAnalysts server.serving.analysts }
    ensures { EndsServer server.entry.serving.opening.mode bytes.items server.entry.serving.analysts (W.contents output.old) (W.contents output.new) result }
{
    status.show(rt, faults, "finding objects and references");
    let graph = match open_bytes(
        rt,
        bytes.as_slice(),
        server.serving.opening.workers,
        server.serving.opening.mode,
    ) {
        Ok(graph) => graph,
        Err(fault) => return Err(ServerFault::Open(fault)),
    };
    drop(bytes);
    let counts = shown_counts(&graph, status);
    end_status(status, rt, faults, counts);
    serve_graph(rt, graph, server, output)
}
