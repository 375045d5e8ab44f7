//! Memory of which a part has values, and who frees it. No byte is read or written here: what the functions take and answer says
//! who may reach which bytes. Their proofs are written by hand, since the prover doesn't follow who owns what a pointer leads to.
ghost use Rattle.std.specs.Prelude.{◌≡◌, ℕ, ◌+◌, ◌-◌, ◌^◌, ◌<◌, ◌≤◌, List, [], ◌++◌, length};
ghost use base.Fml.{ftrue, fex, feq, fsep, fwand};
ghost use denote.RawPtr.{Ptr, ◌+ₚ◌};
ghost use Rattle.hd_buffer.specs.Space.{Extent, extent_code, space_owns};

use std::alloc::Allocator;
use std::marker::{Model, Move, Owns};
use std_alloc::vec::{Lodged, lodge};

/// A `Vec` over memory that another value owns. It neither grows nor frees it.
pub(crate) type Piece = Vec<u8, Lodged>;

/// The right to `capacity` bytes of memory at `ptr`, the first of which have the values `items`.
pub(crate) struct Space {
    ghost ptr: { Ptr },
    ghost capacity: { ℕ },
    ghost items: { List ℕ },
}

impl Model for Space {
    ghost also_owns = { λ s. space_owns s.ptr s.capacity s.items };
}

/// A `Vec` without elements whose memory is out as a space.
pub(crate) struct Lender<A: Allocator> {
    vec: Vec<u8, A>,
}

impl<A: Allocator> Owns for Lender<A> {
    ghost Value = { Extent };

    ghost coded = { extent_code };

    ghost shr_at = { λ _ _ _. ftrue };
}

impl<A: Allocator> Move for Lender<A> {
    ghost own_val = { λ e vs. fex Inside (λ v. fsep (feq ℕ v.vec.len 0) (fwand (space_owns e.ptr e.capacity []) (Fields.own_val (record { vec = v.vec }) vs))) };
}

/// Takes out the memory of a `Vec` without elements. The `Vec` frees it, once it has come back and is dropped.
pub(crate) fn detach<A: Allocator>(vec: Vec<u8, A>) -> (Space, Lender<A>)
    requires { vec.len ≡ 0 }
    ensures { (result.0.ptr ≡ vec.ptr) × (result.0.capacity ≡ vec.cap) × (result.0.items ≡ [])
        × (result.1.ptr ≡ vec.ptr) × (result.1.capacity ≡ vec.cap) }
{
    (Space {}, Lender { vec })
}

/// Gives the memory back.
pub(crate) fn attach<A: Allocator>(space: Space, lender: Lender<A>) -> Vec<u8, A>
    requires { (space.ptr ≡ lender.ptr) × (space.capacity ≡ lender.capacity) × (space.items ≡ []) }
    ensures { result.len ≡ 0 }
{
    let Space {} = space;
    let Lender { vec } = lender;
    vec
}

/// The piece over a space.
pub(crate) fn house(ptr: *mut u8, len: usize, capacity: usize, space: Space) -> Piece
    requires { (space.ptr ≡ ptr) × (space.capacity ≡ capacity) × (length space.items ≡ len) × (len ≤ capacity) × (capacity < 2 ^ 63) }
    ensures { (result.items ≡ space.items) × (result.len ≡ len) × (result.cap ≡ capacity) × (result.ptr ≡ ptr) }
{
    let Space {} = space;
    // SAFETY: the space is the right to these bytes, of which the first `len` have values.
    unsafe { lodge(ptr, len, capacity) }
}

/// The space of a piece.
pub(crate) fn vacate(piece: Piece) -> Space
    ensures { (result.ptr ≡ piece.ptr) × (result.capacity ≡ piece.cap) × (result.items ≡ piece.items) }
{
    let _len = piece.dislodge();
    Space {}
}

impl Space {
    /// Two spaces of one that has no values.
    pub(crate) fn split(self, mid: usize) -> (Space, Space)
        requires { (self.items ≡ []) × (mid ≤ self.capacity) }
        ensures { (result.0.ptr ≡ self.ptr) × (result.0.capacity ≡ mid) × (result.0.items ≡ [])
            × (result.1.ptr ≡ self.ptr +ₚ mid) × (result.1.capacity ≡ self.capacity - mid)
            × (result.1.items ≡ []) }
    {
        let Space {} = self;
        (Space {}, Space {})
    }

    /// One space of two that lie side by side, the first of which is full.
    pub(crate) fn unite(self, next: Space) -> Space
        requires { (length self.items ≡ self.capacity) × (next.ptr ≡ self.ptr +ₚ self.capacity) }
        ensures { (result.ptr ≡ self.ptr) × (result.capacity ≡ self.capacity + next.capacity) × (result.items ≡ self.items ++ next.items) }
    {
        let Space {} = self;
        let Space {} = next;
        Space {}
    }

    /// The same space, whose values are forgotten.
    pub(crate) fn emptied(self) -> Space
        requires { length self.items ≤ self.capacity }
        ensures { (result.ptr ≡ self.ptr) × (result.capacity ≡ self.capacity) × (result.items ≡ []) }
    {
        let Space {} = self;
        Space {}
    }
}
