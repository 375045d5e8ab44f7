//! A server of desks over the two arrays, for the tests.
use hd_board::open;
use hd_decode::NoGate;
use hd_opening::open_dump;
use hd_protocol::SAMPLE;
use hd_server::ServeOnFault;
use hd_terms::Mode;
use hd_web::{Site, web_on};
use std::alloc::Global;
use std::net::{Ipv4Addr, Net, SocketAddr, TcpListener, TcpStream};
use std::process::Abort;
use std::random::RandomSource;
use std::sync::Wait;
use std::thread::Threads;
use std::time::Clock;

/// The page of the tests.
pub const PAGE: &[u8] = b"<!doctype html>";

/// A port of the loopback that the system chooses, and its number.
pub fn listen<R: Abort + Net<Listener = TcpListener, Stream = TcpStream>>(
    rt: &R,
) -> (TcpListener, u16) {
    let any = SocketAddr::from((Ipv4Addr::LOCALHOST, 0));
    let listener = TcpListener::bind(rt, any).expect(rt, "a port is found");
    let address = listener.local_addr().expect(rt, "the port has an address");
    (listener, address.port())
}

/// Serves `count` desks over the two arrays, 1 to 16, and answers what is printed.
pub fn serve_desks<R>(
    rt: &R,
    alloc: Global,
    listener: TcpListener,
    port: u16,
    count: u8,
) -> Result<Vec<u8>, ServeOnFault>
where
    R: Abort
        + AllocGlobal
        + Clock
        + Net<Listener = TcpListener, Stream = TcpStream>
        + RandomSource
        + Threads
        + Wait
        + Sync,
{
    let opened = open_dump(rt, alloc, &SAMPLE, 1, Mode::Direct, &NoGate);
    let graph = opened.expect(rt, "the dump opens");
    let (board, desks) = open(rt, alloc, graph, count.clamp(1, 16)).expect(rt, "the board opens");
    let mut output = Vec::new(alloc);
    let site = Site { port, page: PAGE };
    match web_on(rt, listener, site, board, desks, &mut output) {
        Ok(()) => Ok(output),
        Err(fault) => Err(fault),
    }
}

/// Whether this was printed.
pub fn has_printed(served: Result<Vec<u8>, ServeOnFault>, wanted: &[u8]) -> bool {
    match served {
        Ok(printed) => printed.as_slice() == wanted,
        Err(_) => false,
    }
}
