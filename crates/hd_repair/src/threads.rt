//! When several threads share a round of a repair.
ghost use Rattle.hd_terms.specs.EdgeRows.{AreRows};

use hd_edges::Edges;

/// From how many objects on several threads share them. With fewer, threads would take longer to begin than they save.
const CROWD: usize = 4096;

/// How many threads share them.
pub(crate) const THREADS: usize = 4;

/// Whether several threads are to share these objects.
pub(crate) fn are_many(objects: &[u32]) -> bool {
    objects.len() >= CROWD
}

/// The rows are those of what stands. It says so where threads may begin.
pub(crate) fn are_rows<E: Edges>(_edges: &E)
    ensures { AreRows (E.rows _edges.now) }
{}
