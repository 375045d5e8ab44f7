//! What is kept of each object: its strength, its support and its stamp.
//!
//! The support is the root or the edge to which the object owes its strength. The stamp orders objects of one strength:
//! a source that is as strong as the object it supports has a lesser stamp, so a dead cycle can't support itself.
//!
//! - `packed_reached.rt`: `PackedReached` has all of this in 16 bytes. The stamp takes 48 bits, the strength a byte,
//!   and the kind of support a byte. Two numbers of 32 bits follow: the source and its slot, or the halves of a root's
//!   number.
//! - `strengths.rt`: `Strengths` is a flat list of these, as a search leaves it.
//! - `supports.rt`: `Supports` is the same in pages that versions share (`hd_pages`), as states keep it.
//!
//! `Supports::of_parts` takes the lists of the parts of a search. It puts each into pages in a thread of its own, and
//! then appends them. Parts whose lengths are multiples of `GROUP` are appended without a copy.
#![tactic(auto)]

mod packed_reached;
mod strengths;
mod supports;

pub use hd_pages::GROUP;
pub use packed_reached::PackedReached;
pub use strengths::Strengths;
pub use supports::Supports;
