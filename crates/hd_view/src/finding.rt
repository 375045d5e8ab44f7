//! Edges among the slots of an object, found from where the last one was.
ghost use Rattle.std.specs.Prelude.{◌≡◌, ◌<◌, ◌≤◌, length};
ghost use Rattle.hd_terms.specs.Dump.{object_at};
ghost use Rattle.hd_view.specs.Finding.{edge_count, start_from, IsCursor, IsEdgeAt};

use hd_graph::Graph;

/// How many edges an object has before one of its slots, cut or not: the object's number, how many, and the slot's index.
#[derive(Clone, Copy)]
pub(crate) struct Cursor {
    pub(crate) object: u32,
    pub(crate) edges: u32,
    pub(crate) slot: u32,
}

/// How many edges an object has.
pub(crate) fn edge_count(graph: &Graph, o: u32) -> u32
    requires { o < length graph.now.objects }
    ensures { result ≡ edge_count graph.now o }
{
    let targets = graph.targets(o);
    let mut edges = 0;
    for i in 0..graph.slots_len(o) {
        if targets.get(i).is_some() {
            edges += 1;
        }
    }
    edges
}

/// Where to look for an edge of an object from: the cursor, or, where that is another object's or past the edge, the first
/// slot.
fn start_from(cursor: Cursor, o: u32, edge: u32) -> Cursor
    ensures { result ≡ start_from cursor o edge }
{
    if cursor.object == o && cursor.edges <= edge {
        cursor
    } else {
        Cursor {
            object: o,
            edges: 0,
            slot: 0,
        }
    }
}

/// The index of the slot that is the edge at an index of an object's edges. The cursor spares the slots before it.
pub(crate) fn edge_slot(graph: &Graph, cursor: Cursor, o: u32, edge: u32) -> u32
    requires object { o < length graph.now.objects }
    requires cursor { IsCursor graph.now cursor }
    requires edge { edge < edge_count graph.now o }
    ensures { IsEdgeAt graph.now o edge result }
{
    let start = start_from(cursor, o, edge);
    let targets = graph.targets(o);
    let mut edges = start.edges;
    for slot in start.slot..graph.slots_len(o) {
        if targets.get(slot).is_some() {
            if edges == edge {
                return slot;
            }
            edges += 1;
        }
    }
    unreachable!()
}
