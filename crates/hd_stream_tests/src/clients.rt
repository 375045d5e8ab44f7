//! A server over the two arrays, and clients that ask it.
use hd_board::open;
use hd_decode::NoGate;
use hd_opening::open_dump;
use hd_protocol::SAMPLE;
use hd_server::{ServeOnFault, serve_on};
use hd_terms::Mode;
use std::alloc::Global;
use std::io::{BufRead, BufReader, Write};
use std::net::{Ipv4Addr, Net, SocketAddr, TcpListener, TcpStream};
use std::process::Abort;
use std::random::RandomSource;
use std::sync::Wait;
use std::thread::Threads;

/// A port of the loopback that the system chooses, and where it is.
pub fn listen<R: Abort + Net<Listener = TcpListener, Stream = TcpStream>>(
    rt: &R,
) -> (TcpListener, SocketAddr) {
    let any = SocketAddr::from((Ipv4Addr::LOCALHOST, 0));
    let listener = TcpListener::bind(rt, any).expect(rt, "a port is found");
    let address = listener.local_addr().expect(rt, "the port has an address");
    (listener, address)
}

/// Serves the analysts of the first `count` desks of a board of two over the two arrays, and answers what is printed.
pub fn serve_first<R: Abort + AllocGlobal + RandomSource + Threads + Wait + Sync>(
    rt: &R,
    alloc: Global,
    listener: TcpListener,
    count: usize,
) -> Result<Vec<u8>, ServeOnFault> {
    let opened = open_dump(rt, alloc, &SAMPLE, 1, Mode::Direct, &NoGate);
    let graph = opened.expect(rt, "the dump opens");
    let (board, mut desks) = open(rt, alloc, graph, 2).expect(rt, "the board opens");
    desks.truncate(count);
    let mut output = Vec::new(alloc);
    match serve_on(
        rt,
        false,
        listener,
        board,
        desks.as_mut_slice(),
        &mut output,
    ) {
        Ok(()) => Ok(output),
        Err(fault) => Err(fault),
    }
}

/// A client's connection.
pub fn connect<R: Abort + Net<Listener = TcpListener, Stream = TcpStream>>(
    rt: &R,
    alloc: Global,
    address: SocketAddr,
) -> BufReader<TcpStream> {
    let stream = TcpStream::connect(rt, address).expect(rt, "the client connects");
    BufReader::new(alloc, stream).expect(rt, "the reader is made")
}

/// Sends a text, and puts `lines` lines of the reply behind what was heard.
pub fn ask<R: Abort>(
    rt: &R,
    client: &mut BufReader<TcpStream>,
    text: &str,
    lines: u32,
    heard: &mut String,
) {
    let sent = client.get_mut().write_all(text.as_bytes());
    sent.expect(rt, "the text is sent");
    for _ in 0..lines {
        client.read_line(heard).expect(rt, "a line is heard");
    }
}
