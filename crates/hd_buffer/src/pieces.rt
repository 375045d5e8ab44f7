//! A piece of memory, in two and as one.
ghost use Rattle.std.specs.Prelude.{◌≡◌, ◌+◌, ◌-◌, ◌^◌, ◌<◌, ◌≤◌, [], ◌++◌};
ghost use denote.RawPtr.{◌+ₚ◌};

use crate::space::{Piece, house, vacate};

/// Two pieces of one that has no values.
pub(crate) fn split(mut piece: Piece, mid: usize) -> (Piece, Piece)
    requires empty { piece.len ≡ 0 }
    requires within { mid ≤ piece.cap }
    ensures first { (result.0.len ≡ 0) × (result.0.cap ≡ mid) × (result.0.ptr ≡ piece.ptr) }
    ensures second { (result.1.len ≡ 0) × (result.1.cap ≡ piece.cap - mid) × (result.1.ptr ≡ piece.ptr +ₚ mid) }
{
    let capacity = piece.capacity();
    let ptr = piece.as_mut_ptr();
    // SAFETY: the piece has at least `mid` bytes.
    let next = unsafe { ptr.byte_add(mid) };
    let (first, second) = vacate(piece).split(mid);
    (
        house(ptr, 0, mid, first),
        house(next, 0, capacity - mid, second),
    )
}

/// One piece of two that lie side by side, the first of which is full.
pub(crate) fn unite(mut first: Piece, second: Piece) -> Piece
    requires full { first.len ≡ first.cap }
    requires next { second.ptr ≡ first.ptr +ₚ first.cap }
    requires small { first.cap + second.cap < 2 ^ 63 }
    ensures items { result.items ≡ first.items ++ second.items }
    ensures len { result.len ≡ first.len + second.len }
    ensures capacity { result.cap ≡ first.cap + second.cap }
    ensures ptr { result.ptr ≡ first.ptr }
{
    let ptr = first.as_mut_ptr();
    let len = first.len() + second.len();
    let capacity = first.capacity() + second.capacity();
    house(ptr, len, capacity, vacate(first).unite(vacate(second)))
}
