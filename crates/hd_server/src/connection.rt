//! One analyst's connection.
use hd_board::{Board, Desk};
use hd_protocol::{ServeFault, serve};
use std::io::{BufReader, BufWriter};
use std::net::TcpStream;
use std::sync::Wait;
use std::thread::Threads;

/// Serves one analyst over a connection until its input ends, a line is `quit`, or a fault, and then closes it. A fault ends
/// this connection and nothing else: the peer went away, the reader or the writer failed, or memory ran out. Replies show names
/// from the beginning where `names` says so.
pub fn attend<R: AllocGlobal + Threads + Wait + Sync>(
    rt: &R,
    names: bool,
    stream: TcpStream,
    board: &Board,
    desk: &mut Desk,
) {
    let _at_once = stream.set_nodelay(true);
    let _ended = talk(rt, names, &stream, board, desk);
}

/// Serves one analyst over a connection, with a buffer for each way.
///
/// # Errors
///
/// There is no room for the buffers, or serving ended early.
fn talk<R: AllocGlobal + Threads + Wait + Sync>(
    rt: &R,
    names: bool,
    stream: &TcpStream,
    board: &Board,
    desk: &mut Desk,
) -> Result<(), ServeFault> {
    let Ok(mut reader) = BufReader::new(rt.alloc(), stream) else {
        return Err(ServeFault::OutOfMemory);
    };
    let Ok(mut writer) = BufWriter::new(rt.alloc(), stream) else {
        return Err(ServeFault::OutOfMemory);
    };
    serve(rt, names, &mut reader, &mut writer, board, desk)
}
