//! The bytes of a file in memory.
ghost use Rattle.std.specs.Prelude.{◌≡◌, ◌+◌, ◌-◌, ◌^◌, ◌<◌, ◌≤◌, [], ◌++◌, length, IfOk};
ghost use Rattle.hd_buffer.specs.Filling.{TakesZeros, FillsNext};

use crate::filling::fill_piece;
use crate::pieces::{split, unite};
use crate::space::{Lender, Piece, attach, detach, house, vacate};
use std::alloc::{AllocError, Allocator};
use std::convert::AsSlice;
use std::marker::Model;
use std::thread::Threads;

/// How many threads fill memory at most.
const THREADS: usize = 8;

/// Bytes in memory, with room for more directly after them.
pub struct Buffer<A: Allocator> {
    filled: Piece,
    room: Piece,
    lender: Lender<A>,
}

impl<A: Allocator> Model for Buffer<A> {
    ghost use Rattle.hd_buffer.specs.Contents.{Contents, contents_code, AreSideBySide};

    ghost Value = { Contents };

    ghost coded = { contents_code };

    ghost view = { λ b. record { items = b.filled.items; room = b.room.cap } };

    ghost invariant = { λ b. AreSideBySide b.filled b.room b.lender };
}

impl<A: Allocator> Drop for Buffer<A> {
    /// Puts the memory together again and frees it.
    fn drop(self) {
        let Buffer {
            filled,
            room,
            lender,
        } = self;
        let whole = unite(filled, room);
        drop(attach(vacate(whole).emptied(), lender));
    }
}

impl<A: Allocator> AsSlice<u8> for Buffer<A> {
    ghost items = { λ b. b.items };

    fn as_slice(&self) -> &[u8] {
        self.filled.as_slice()
    }
}

impl<A: Allocator> Buffer<A> {
    /// A buffer without bytes that has room for `capacity` bytes. The memory isn't touched yet.
    ///
    /// # Errors
    ///
    /// Out of memory.
    pub fn with_capacity(alloc: A, capacity: usize) -> Result<Buffer<A>, AllocError>
        ensures { IfOk result (λ b. (b.items ≡ []) × (b.room ≡ capacity)) }
    {
        let mut vec = Vec::with_capacity(alloc, capacity)?;
        let ptr = vec.as_mut_ptr();
        let (space, lender) = detach(vec);
        let (filled, room) = split(house(ptr, 0, capacity, space), 0);
        Ok(Buffer {
            filled,
            room,
            lender,
        })
    }

    /// How many bytes there are.
    pub fn len(&self) -> usize
        ensures { result ≡ length self.now.items }
    {
        self.filled.len()
    }

    /// How many bytes there is room for, beside those that there are.
    pub fn room(&self) -> usize
        ensures { result ≡ self.now.room }
    {
        self.room.capacity()
    }

    /// Fills the next `count` bytes of the room, at most all of it. `f` is called with runs of zeros of at most 256 KiB and the
    /// offsets in the buffer at which they begin, by up to eight threads at once; what it leaves there is kept. The buffer is taken
    /// and answered, since its memory is in the threads' hands meanwhile.
    pub fn fill<R: Threads + Sync, F: Fn(usize, &mut [u8]) + Sync>(
        self,
        rt: &R,
        count: usize,
        f: &F,
    ) -> Buffer<A>
        requires within { count ≤ self.room }
        requires takes { TakesZeros F.Fn f.now (length self.items) (length self.items + count) }
        ensures room { result.room ≡ self.room - count }
        ensures items { FillsNext F.Fn f.now count self.items result.items }
    {
        let Buffer {
            filled,
            room,
            lender,
        } = self;
        let offset = filled.len();
        let (piece, room) = split(room, count);
        let piece = fill_piece(rt, piece, offset, THREADS, f);
        Buffer {
            filled: unite(filled, piece),
            room,
            lender,
        }
    }
}
