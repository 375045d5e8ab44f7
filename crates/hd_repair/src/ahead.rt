//! Reading ahead: what the next objects of a queue will ask for is read for many of them at once.
//!
//! A repair reads objects in no order of memory, and waits for most of them. Reads that don't need one another's answers
//! wait together.

use hd_edges::Edges;
use hd_supports::Supports;

/// How many objects are read together.
pub(crate) const BATCH: usize = 32;

/// What is left of the objects that were read together.
#[derive(Clone, Copy)]
pub(crate) struct Ahead {
    left: usize,
}

impl Ahead {
    /// Nothing was read yet.
    pub(crate) fn none() -> Ahead {
        Ahead { left: 0 }
    }

    /// Whether the next objects are to be read now. It counts down.
    pub(crate) fn is_due(&mut self) -> bool {
        if self.left > 0 {
            self.left -= 1;
            return false;
        }
        true
    }

    /// Objects were read, and this is what came of it. The sum decides only when the next ones are read, so that a compiler
    /// doesn't leave the reads out.
    pub(crate) fn note(&mut self, sum: u32) {
        self.left = BATCH - (sum % 2) as usize;
    }
}

/// Reads what is kept of an object, and where its edges lie.
pub(crate) fn read_object<E: Edges>(edges: &E, kept: &Supports, o: u32) -> u32 {
    if o >= kept.len() {
        return 0;
    }
    let rank = kept.strength(o).rank();
    edges.read_ahead(o).wrapping_add(u32::from(rank))
}
