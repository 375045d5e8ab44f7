//! Reading a file into memory.
ghost use Rattle.std.specs.Prelude.{◌≡◌, ◌+◌, length, IfOk};

use hd_buffer::Buffer;
use hd_records::check_size;
use hd_terminal::StatusLine;
use hd_terms::ReadFault;
use std::alloc::Global;
use std::fs::{self, File};
use std::io::Write;
use std::os::unix::fs::FileExt;
use std::rt::Files;
use std::sync::atomic::{AtomicBool, Ordering};
use std::thread::Threads;
use std::time::Clock;

/// The most bytes that are read before it is shown how far the reading is: 256 MiB.
const PIECE: usize = 268_435_456;

/// Why a file is not in memory.
#[derive(Clone, Copy, Debug, PartialEq, Eq)]
pub enum FileFault {
    /// It isn't there, isn't a file, may not be read, or fails while it is read.
    Unreadable,
    /// It is too large to be read at all.
    Dump(ReadFault),
    /// There is no room for it.
    Memory,
}

/// Fills the room of a buffer with the bytes of a file, piece by piece, and shows how far that is. Up to eight threads read a part
/// of each piece.
fn read_pieces<R: Clock + Threads + Sync, E: Write>(
    rt: &R,
    file: &File,
    mut buffer: Buffer<Global>,
    len: usize,
    status: &mut StatusLine,
    faults: &mut E,
) -> Result<Buffer<Global>, FileFault>
    ensures room { IfOk result (λ b. b.room ≡ 0) }
    ensures len { IfOk result (λ b. length b.items ≡ length buffer.items + buffer.room) }
{
    let has_failed = AtomicBool::new(false);
    let read = |offset: usize, run: &mut [u8]| {
        if file.read_exact_at(run, offset as u64).is_err() {
            has_failed.store(true, Ordering::Relaxed);
        }
    };
    while 0 < buffer.room() {
        status.show_read(rt, faults, buffer.len() as u64, len as u64);
        let count = buffer.room().min(PIECE);
        buffer = buffer.fill(rt, count, &read);
        if has_failed.load(Ordering::Relaxed) {
            return Err(FileFault::Unreadable);
        }
    }
    Ok(buffer)
}

/// The bytes of a file, read into exactly as much memory. Its length is checked before memory is taken and before anything
/// is read. What is no regular file, as a directory or a pipe, isn't opened.
pub fn read_file<R: Files<File = File> + AllocGlobal + Clock + Threads + Sync, E: Write>(
    rt: &R,
    path: &str,
    status: &mut StatusLine,
    faults: &mut E,
) -> Result<Buffer<Global>, FileFault>
    ensures { IfOk result (λ b. b.room ≡ 0) }
{
    let Ok(metadata) = fs::metadata(rt, path) else {
        return Err(FileFault::Unreadable);
    };
    if !metadata.is_file() {
        return Err(FileFault::Unreadable);
    }
    if let Err(fault) = check_size(metadata.len()) {
        return Err(FileFault::Dump(fault));
    }
    let Ok(file) = fs::open(rt, path) else {
        return Err(FileFault::Unreadable);
    };
    let len = metadata.len() as usize;
    let Ok(buffer) = Buffer::with_capacity(rt.alloc(), len) else {
        return Err(FileFault::Memory);
    };
    read_pieces(rt, &file, buffer, len, status, faults)
}
