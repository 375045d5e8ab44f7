//! What stands of a graph under a log: its roots, those of the dump and those that were added, and its references.
ghost use Rattle.std.specs.Prelude.{◌≡◌, ◌+◌, ◌<◌, length, IfSome};
ghost use Rattle.std.specs.Option.{option_map};
ghost use Rattle.hd_terms.specs.Log.{live_flags};
ghost use Rattle.hd_terms.specs.Paths.{Edge, RootEntry};
ghost use Rattle.hd_strength.specs.Rows.{width, added_id, edge_at, root_at};
ghost use Rattle.hd_strength.specs.Removed.{IsRemovedBy};

use crate::removed::{Removed, live_edit};
use hd_graph::Graph;
use hd_log::Front;
use hd_terms::{EdgeKind, Edit};

/// A graph, a log, and what the log's live edits take away from the graph.
#[derive(Clone, Copy)]
pub struct Edited<'a> {
    pub graph: &'a Graph,
    pub front: &'a Front,
    pub removed: &'a Removed,
}

/// The object that a root of the dump holds, where the root stands.
pub(crate) fn root_object(edited: Edited<'_>, r: u32) -> Option<u32>
    requires removed { IsRemovedBy edited.graph.now edited.front.now edited.removed.now }
    requires root { r < length edited.graph.now.roots }
    ensures { result ≡ option_map (λ (x : RootEntry). x.target) (root_at edited.entry.graph.now edited.entry.front.now r) }
{
    if edited.removed.root(u64::from(r)) {
        return None;
    }
    edited.graph.roots(r).object
}

/// The ID of the object to which an edit adds a root.
fn added_id(edit: Edit) -> Option<u64>
    ensures { result ≡ added_id edit }
{
    match edit {
        Edit::Add(id) => Some(id),
        Edit::Cut(_, _) | Edit::Clear(_) | Edit::Drop(_) => None,
        Edit::ClearAll(_) | Edit::CutAll(_, _) => None,
    }
}

/// The object that the root holds which event k adds, where the event is live and the root stands.
pub(crate) fn added_object(edited: Edited<'_>, live: &[bool], k: u32) -> Option<u32>
    requires removed { IsRemovedBy edited.graph.now edited.front.now edited.removed.now }
    requires event { k < length edited.front.now }
    requires flags { live.now ≡ live_flags edited.front.now }
    ensures { result ≡ option_map (λ (x : RootEntry). x.target) (root_at edited.entry.graph.now edited.entry.front.now (length edited.entry.graph.now.roots + k)) }
{
    let edit = live_edit(edited.front, live, k)?;
    let id = added_id(edit)?;
    if edited
        .removed
        .root(u64::from(edited.graph.roots_len()) + u64::from(k))
    {
        return None;
    }
    edited.graph.index_of(id)
}

/// The object that the root of a number holds, where there is such a root and it stands. The flags say which events are
/// live.
pub fn held_object(edited: Edited<'_>, live: &[bool], r: u64) -> Option<u32>
    requires removed { IsRemovedBy edited.graph.now edited.front.now edited.removed.now }
    requires flags { live.now ≡ live_flags edited.front.now }
    ensures held { result ≡ option_map (λ (x : RootEntry). x.target) (root_at edited.entry.graph.now edited.entry.front.now r) }
    ensures object { IfSome result (λ o. o < length edited.entry.graph.now.objects) }
{
    let roots = u64::from(edited.graph.roots_len());
    if r < roots {
        return root_object(edited, r as u32);
    }
    let k = r - roots;
    if k >= u64::from(edited.front.len()) {
        return None;
    }
    added_object(edited, live, k as u32)
}

/// The object that the root of a number holds, where there is such a root and it stands under a log, by what the log's live
/// edits take away. The flags say which events are live.
pub fn root_target(
    graph: &Graph,
    front: &Front,
    removed: &Removed,
    live: &[bool],
    r: u64,
) -> Option<u32>
    requires removed { IsRemovedBy graph.now front.now removed.now }
    requires flags { live.now ≡ live_flags front.now }
    ensures { result ≡ option_map (λ (x : RootEntry). x.target) (root_at graph.now front.now r) }
{
    let edited = Edited {
        graph,
        front,
        removed,
    };
    held_object(edited, live, r)
}

/// A reference that stands: what it goes through, and the object that it leads to.
#[derive(Clone, Copy)]
pub struct StandingRead {
    pub kind: EdgeKind,
    pub target: u32,
}

/// The reference at an index of an object's slots, where it stands.
pub fn standing_read(edited: Edited<'_>, o: u32, index: u32) -> Option<StandingRead>
    requires removed { IsRemovedBy edited.graph.now edited.front.now edited.removed.now }
    requires object { o < length edited.graph.now.objects }
    requires index { index < width edited.graph.now o }
    ensures edge { result ≡ option_map (λ (e : Edge). record { kind = e.kind; target = e.target }) (edge_at edited.entry.graph.now edited.entry.front.now o index) }
    ensures target { IfSome result (λ read. read.target < length edited.entry.graph.now.objects) }
{
    let read = edited.graph.slots(o, index);
    let target = read.target?;
    if edited.removed.slot(edited.graph, o, index, read.kind) {
        return None;
    }
    Some(StandingRead {
        kind: read.kind,
        target,
    })
}
