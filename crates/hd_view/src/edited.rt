//! A graph as a log leaves it: which edges and which roots stand.
ghost use Rattle.std.specs.Prelude.{◌≡◌, length};
ghost use Rattle.hd_terms.specs.EditedDump.{edge_stands, root_stands};
ghost use Rattle.hd_strength.specs.Removed.{IsRemovedBy};

use hd_graph::Graph;
use hd_log::Front;
use hd_strength::Removed;

/// A graph, a log, and what the log's live edits take away from the graph.
#[derive(Clone, Copy)]
pub struct Edited<'a> {
    pub graph: &'a Graph,
    pub front: &'a Front,
    pub removed: &'a Removed,
}

/// Whether the slot at an index of an object is an edge that stands. Past the last object and the last slot there is none.
pub fn edge_stands(edited: Edited<'_>, o: u32, i: u32) -> bool
    requires { IsRemovedBy edited.graph.now edited.front.now edited.removed.now }
    ensures { result ≡ edge_stands edited.entry.graph.now edited.entry.front.now o i }
{
    if o >= edited.graph.objects() {
        return false;
    }
    if i >= edited.graph.slots_len(o) {
        return false;
    }
    let read = edited.graph.slots(o, i);
    read.target.is_some() && !edited.removed.slot(edited.graph, o, i, read.kind)
}

/// Whether a root has this number and stands.
pub fn root_stands(edited: Edited<'_>, r: u64) -> bool
    requires { IsRemovedBy edited.graph.now edited.front.now edited.removed.now }
    ensures { result ≡ root_stands (length edited.entry.graph.now.roots) edited.entry.front.now r }
{
    let roots = u64::from(edited.graph.roots_len());
    edited.front.is_root(roots, r) && !edited.removed.root(r)
}
